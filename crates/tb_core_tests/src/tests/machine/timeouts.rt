//! Thousands of transfers with a timeout, of two packets, half of which are posted.

use super::{make_accounts, make_transfers, resolving};
use crate::tests::{must, push};
use std::alloc::Global;
use std::process::Abort;
use tb_layout::{MOMENT_MAX, NANOSECONDS_PER_SECOND, Transfer};
use tb_machine::Machine;
use tb_tables::Status;
use tb_test_makers::{account, check, transfer};

/// How many transfers with a timeout there are.
const COUNT: u32 = 3_000;

/// Returns a transfer's timeout in seconds: the last one made is over first.
fn timeout_of(number: u32) -> u32 {
    COUNT.saturating_sub(number).saturating_add(1)
}

/// Makes transfers of 1 with a timeout.
fn make_timed(rt: &(impl Abort + Alloc<A = Global>), machine: &mut Machine, first: u32, last: u32) {
    let mut transfers = Vec::new(rt.alloc());
    for number in first..=last {
        let timed = Transfer {
            timeout: timeout_of(number),
            ..transfer(u128::from(number), [1, 2], 1, 2)
        };
        push(rt, &mut transfers, timed);
    }
    make_transfers(rt, machine, &transfers);
}

/// Posts each second of them.
fn post_even(rt: &(impl Abort + Alloc<A = Global>), machine: &mut Machine) {
    let mut transfers = Vec::new(rt.alloc());
    for half in 1..=COUNT / 2 {
        let pending = u128::from(half).saturating_mul(2);
        push(
            rt,
            &mut transfers,
            resolving(pending.saturating_add(10_000), pending, 1, 4),
        );
    }
    make_transfers(rt, machine, &transfers);
}

/// Returns how much is reserved of account 1.
fn reserved(machine: &Machine) -> Option<u128> {
    let account = machine.account(1)?;
    Some(account.debits_pending)
}

/// Returns when a transfer's timeout is over. The accounts have timestamps 1 and 2.
fn due_at(number: u32) -> u64 {
    u64::from(timeout_of(number))
        .saturating_mul(NANOSECONDS_PER_SECOND)
        .saturating_add(u64::from(number))
        .saturating_add(2)
}

/// Asserts that the transfer is reserved for until its timeout is over, if it isn't posted, as are those before it.
fn assert_due(rt: &impl Abort, machine: &mut Machine, number: u32) {
    let due = due_at(number).min(MOMENT_MAX);
    machine.pulse(due.saturating_sub(1));
    check!(rt; reserved(machine) == Some(u128::from(number.saturating_add(1) / 2)), number);
    machine.pulse(due);
    check!(rt; reserved(machine) == Some(u128::from(number / 2)), number);
}

/// Each expires at its own nanosecond, the last one made first, and none that is posted does.
#[test]
fn thousands_expire_one_by_one(rt: HostRuntime) {
    let mut machine = Machine::new(rt.alloc(), 0);
    make_accounts(&rt, &mut machine, &[account(1, 0), account(2, 0)]);
    make_timed(&rt, &mut machine, 1, 1_000);
    make_timed(&rt, &mut machine, 1_001, COUNT);
    post_even(&rt, &mut machine);
    for number in (1..=COUNT).rev() {
        assert_due(&rt, &mut machine, number);
    }
    must(&rt, machine.status(1) == Some(Status::Expired));
    must(&rt, machine.status(2) == Some(Status::Posted));
    drop(machine);
}
