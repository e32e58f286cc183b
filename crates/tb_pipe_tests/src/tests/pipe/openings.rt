//! Openings and submissions that are refused, before anything is served.

use super::{answer_to, assert_run, finish_lone, look_of, open_lone, opened, packet_of, submit};
use std::alloc::Global;
use std::process::Abort;
use std::sync::Wait;
use std::time::Clock;
use tb_core::Ledger;
use tb_layout::{CLOCK_MAX, CREATE_ACCOUNTS};
use tb_pipe::{Open, Opened, Options, open, submit_ahead};
use tb_submit::Submitter;
use tb_test_makers::{OutcomeKind, check};
use tb_work::Refusal;

/// Returns why an opening with a credit of 4 is refused.
fn refusal_of(alloc: Global, limit: u32, capacity: u32, submitters: u32) -> Option<Refusal> {
    open(alloc, 0, limit, capacity, 4, submitters).err()
}

#[test]
fn bad_openings(rt: HostRuntime) {
    for (limit, capacity, submitters, wanted) in [
        (0, 0, 1, Some(Refusal::BadLimit)),
        (8191, 4, 1, Some(Refusal::BadLimit)),
        (4, 0, 1, Some(Refusal::BadCapacity)),
        (4, 4, 0, Some(Refusal::BadSubmitters)),
        (4, 4, 17, Some(Refusal::BadSubmitters)),
        (4, 4, 3, None),
    ] {
        check!(&rt; refusal_of(rt.alloc(), limit, capacity, submitters) == wanted);
    }
}

/// Each bound that an opening accepts, with the earliest and the latest clock.
#[test]
fn widest_openings(rt: HostRuntime) {
    for (clock, limit, capacity, credit, submitters) in [
        (0, 1, 1, 1, 1),
        (CLOCK_MAX, 8190, 65_536, 1, 1),
        (1, 8190, 64, 65_536, 1),
        (CLOCK_MAX, 8190, 64, 32, 16),
    ] {
        let options = Options {
            clock,
            limit,
            capacity,
            credit,
            submitters,
        };
        let opened = options.open(rt.alloc()).ok().expect(&rt, "it is opened");
        check!(&rt; opened.submitters.len() == submitters as usize);
        drop(opened);
    }
}

/// Returns the answer to a packet of one account that the second submitter queues before the run.
fn ahead<R: Wait + Clock + Abort>(
    rt: &R,
    alloc: Global,
    opened: &mut Opened,
    operation: u8,
    id: u8,
) -> Result<u64, Refusal> {
    if opened.submitters.len() < 2 {
        rt.panic("there are two submitters");
    }
    let packet = packet_of(alloc, operation, id).expect(rt, "memory");
    match submit_ahead(rt, alloc, opened, 1, packet) {
        Ok(number) => Ok(number),
        Err((back, refusal)) => {
            drop(back);
            Err(refusal)
        }
    }
}

/// A packet ahead of the run is refused as any other, and what was refused takes no number.
#[test]
fn refused_ahead(rt: HostRuntime) {
    let mut opened = opened(rt.alloc(), 4, 4, 3, 2).expect(&rt, "it is opened");
    for (operation, id, wanted) in [
        (200, 1, Err(Refusal::InvalidOperation)),
        (CREATE_ACCOUNTS, 1, Ok(0)),
        (CREATE_ACCOUNTS, 2, Ok(1)),
        (CREATE_ACCOUNTS, 3, Ok(2)),
        (CREATE_ACCOUNTS, 4, Err(Refusal::InFlight)),
    ] {
        check!(&rt; ahead(&rt, rt.alloc(), &mut opened, operation, id) == wanted);
    }
    drop(opened);
}

/// Asserts that a packet of accounts is refused, since there is no slot, and comes back.
fn assert_full<R: Wait + Clock + Abort>(rt: &R, alloc: Global, submitter: &mut Submitter, id: u8) {
    let packet = packet_of(alloc, CREATE_ACCOUNTS, id).expect(rt, "memory");
    let (back, refusal) = submit(rt, alloc, submitter, packet).expect_err(rt, "the queue is full");
    check!(rt; refusal == Refusal::Full);
    check!(rt; look_of(&back) == (CREATE_ACCOUNTS, 128, u64::from(id)));
    drop(back);
}

/// Of two packets the second is refused, since there is one place.
#[test]
fn full_queue_of_one(rt: HostRuntime) {
    let mut lone = open_lone(&rt, rt.alloc(), 4, 1, 4);
    let submitter = &mut lone.submitter;
    check!(&rt; answer_to(&rt, rt.alloc(), submitter, CREATE_ACCOUNTS, 1) == Ok(0));
    assert_full(&rt, rt.alloc(), submitter, 2);
    drop(lone);
}

/// The new ledger has reserved capacity and another clock.
#[test]
fn serves_over_a_new_ledger(rt: HostRuntime) {
    let mut ledger = Ledger::new(rt.alloc(), 5);
    check!(&rt; ledger.reserve(10, 10).is_ok());
    let mut lone = open_lone(&rt, rt.alloc(), 4, 4, 4);
    lone.pipeline = lone.pipeline.with_ledger(ledger);
    let report = finish_lone(&rt, rt.alloc(), lone, false, &[1], &Open);
    assert_run(&rt, report, 6, &[OutcomeKind::Committed(0)]);
}

/// The credit is looked at after the packet's operation.
#[test]
fn credit_used_up(rt: HostRuntime) {
    let mut lone = open_lone(&rt, rt.alloc(), 4, 4, 1);
    for (operation, id, wanted) in [
        (CREATE_ACCOUNTS, 1, Ok(0)),
        (CREATE_ACCOUNTS, 2, Err(Refusal::InFlight)),
        (200, 1, Err(Refusal::InvalidOperation)),
    ] {
        let answer = answer_to(&rt, rt.alloc(), &mut lone.submitter, operation, id);
        check!(&rt; answer == wanted);
    }
    drop(lone);
}
