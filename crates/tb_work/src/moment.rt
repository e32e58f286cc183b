//! The moment of a pulse.

ghost use Rattle.std.specs.Prelude.{◌≡◌, ◌≤◌, ◌^◌, ℕ};
ghost use Rattle.tb_layout.specs.claim.Bounds.{moment_max};

use std::marker::Model;

/// A moment in nanoseconds, at most 2^62.
#[derive(Clone, Copy, Debug)]
pub struct Moment {
    nanoseconds: u64,
}

impl Model for Moment {
    ghost Value = { ℕ };

    ghost view = { λ moment. moment.nanoseconds };

    ghost inverse = { λ number. record { nanoseconds = number } };

    ghost invariant = { λ moment. moment.nanoseconds ≤ moment_max };
}

impl Moment {
    /// Returns the moment of this number of nanoseconds, at most `MOMENT_MAX`.
    pub fn new(nanoseconds: u64) -> Moment
        requires { nanoseconds ≤ moment_max }
        ensures { result ≡ nanoseconds }
    {
        Moment { nanoseconds }
    }

    /// Returns its nanoseconds.
    pub fn get(self) -> u64
        ensures value { result ≡ self }
        ensures bound { result ≤ moment_max }
    {
        self.nanoseconds
    }
}
