//! The clock, in nanoseconds.

ghost use Rattle.std.specs.Prelude.{◌≡◌, ◌+◌, ◌*◌, ◌≤◌, nat_lt, MatchOption, true, false};
ghost use Rattle.tb_layout.specs.claim.Limits.{clock_max, nanoseconds_per_second};
ghost use Rattle.tb_machine.specs.claim.Chain as spec;

use tb_layout::{CLOCK_MAX, NANOSECONDS_PER_SECOND};

/// Returns the timestamp of the next event, in nanoseconds: the clock raised by one, or None if it is `CLOCK_MAX`.
pub(crate) fn next_timestamp(clock: u64) -> Option<u64>
    requires { clock ≤ clock_max }
    ensures { MatchOption result (nat_lt clock clock_max ≡ false)
        (λ timestamp. (nat_lt clock clock_max ≡ true) × (timestamp ≡ clock + 1)) }
{
    if clock < CLOCK_MAX {
        Some(clock + 1)
    } else {
        None
    }
}

/// Returns the clock after a number of events: raised by that number, to `CLOCK_MAX` at most.
pub(crate) fn clock_after(clock: u64, count: usize) -> u64
    requires { clock ≤ clock_max }
    ensures value { result ≡ spec.clock_after clock count }
    ensures bound { result ≤ clock_max }
{
    if (count as u64) < CLOCK_MAX - clock {
        clock + count as u64
    } else {
        CLOCK_MAX
    }
}

/// Returns when a timeout, in seconds, is over that began at a timestamp, in nanoseconds.
pub(crate) fn expires_at(timestamp: u64, timeout: u32) -> u128
    ensures { result ≡ timestamp + timeout * nanoseconds_per_second }
{
    u128::from(timestamp) + u128::from(timeout) * u128::from(NANOSECONDS_PER_SECOND)
}
