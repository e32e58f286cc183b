use super::{Says, answer, pulse, queue_of, reads_reply, submit};
use std::alloc::Global;
use std::process::Abort;
use std::sync::Wait;
use tb_submit::Submitter;
use tb_test_makers::check;
use tb_work::Refusal;

/// What a packet, of an operation and a number of bytes, is answered.
type Submitted = (u8, usize, Result<u64, Refusal>);

fn submit_all(
    rt: &(impl Abort + Wait + Alloc<A = Global>),
    submitter: &mut Submitter,
    packets: &[Submitted],
) {
    for (operation, length, wanted) in packets {
        check!(rt; submit(rt, submitter, *operation, *length) == *wanted);
    }
}

/// Submits these packets to a queue of this capacity and credit.
fn submit_to_new(
    rt: &(impl Abort + Wait + Alloc<A = Global>),
    capacity: u32,
    credit: u32,
    packets: &[Submitted],
) {
    let (mut submitter, ends) = queue_of(rt, 4, capacity, credit);
    submit_all(rt, &mut submitter, packets);
    drop(submitter);
    drop(ends);
}

#[test]
fn full_queue_of_one(rt: HostRuntime) {
    let packets = [(129, 128, Ok(0)), (129, 128, Err(Refusal::Full))];
    submit_to_new(&rt, 1, 4, packets.as_slice());
}

#[test]
fn credit_used_up(rt: HostRuntime) {
    let packets = [
        (129, 128, Ok(0)),
        (129, 128, Err(Refusal::InFlight)),
        (200, 128, Err(Refusal::InvalidOperation)),
    ];
    submit_to_new(&rt, 4, 1, packets.as_slice());
}

/// A refused packet uses no number, and of two refusals the earlier one is answered.
#[test]
fn refusals_in_order(rt: HostRuntime) {
    let packets = [
        (200, 127, Err(Refusal::InvalidOperation)),
        (129, 127, Err(Refusal::InvalidDataSize)),
        (131, 17, Err(Refusal::InvalidDataSize)),
        (130, 640, Err(Refusal::TooMuchData)),
        (131, 80, Err(Refusal::TooMuchData)),
        (130, 512, Ok(0)),
        (131, 64, Err(Refusal::InFlight)),
        (130, 640, Err(Refusal::TooMuchData)),
        (129, 1, Err(Refusal::InvalidDataSize)),
        (0, 0, Err(Refusal::InvalidOperation)),
    ];
    submit_to_new(&rt, 1, 1, packets.as_slice());
}

/// Submits packets of `limit` events or ids, and of one more.
fn submit_at(rt: &(impl Abort + Wait + Alloc<A = Global>), limit: u32) {
    let (mut submitter, ends) = queue_of(rt, limit, 4, 4);
    let count = limit as usize;
    for (place, (operation, size)) in [(129, 128), (130, 128), (131, 16)].iter().enumerate() {
        let packets = [
            (*operation, size * (count + 1), Err(Refusal::TooMuchData)),
            (*operation, size * count, Ok(place as u64)),
        ];
        submit_all(rt, &mut submitter, packets.as_slice());
    }
    drop(submitter);
    drop(ends);
}

#[test]
fn as_many_events_as_the_limit(rt: HostRuntime) {
    for limit in [1, 2, 3, 4, 5, 7, 1000, 8189, 8190] {
        submit_at(&rt, limit);
    }
}

/// Asserts that two packets get replies, and that refusals follow once the replies were read: of a packet of each kind of
/// fault, and of one without.
fn assert_refused_after(
    rt: &(impl Abort + Wait + Alloc<A = Global>),
    first: Says,
    second: Says,
    refusal: Refusal,
) {
    let (mut submitter, mut ends) = queue_of(rt, 4, 4, 2);
    check!(rt; submit(rt, &mut submitter, 129, 128) == Ok(0));
    check!(rt; submit(rt, &mut submitter, 129, 128) == Ok(1));
    answer(rt, &mut ends, first);
    answer(rt, &mut ends, second);
    check!(rt; submit(rt, &mut submitter, 129, 128) == Err(Refusal::InFlight));
    check!(rt; reads_reply(&mut submitter));
    check!(rt; reads_reply(&mut submitter));
    for (operation, length) in [(129, 128), (200, 127), (129, 127), (129, 640)] {
        check!(rt; submit(rt, &mut submitter, operation, length) == Err(refusal));
    }
    drop(submitter);
    drop(ends);
}

#[test]
fn a_shutdown_refuses_later_packets(rt: HostRuntime) {
    assert_refused_after(&rt, Says::Committed, Says::Shutdown, Refusal::Shutdown);
    assert_refused_after(&rt, Says::Shutdown, Says::Stopped, Refusal::Shutdown);
}

#[test]
fn a_stop_refuses_later_packets(rt: HostRuntime) {
    assert_refused_after(&rt, Says::Committed, Says::Stopped, Refusal::Stopped);
    assert_refused_after(&rt, Says::Stopped, Says::Shutdown, Refusal::Stopped);
}

/// Pulses five times: the greatest moment is 2^62, and two pulses fill the queue.
#[test]
fn moments(rt: HostRuntime) {
    let (submitter, mut ends) = queue_of(&rt, 4, 2, 1);
    for (moment, wanted) in [
        (4_611_686_018_427_387_905, Err(Refusal::MomentTooLarge)),
        (4_611_686_018_427_387_904, Ok(())),
        (0, Ok(())),
        (1, Err(Refusal::Full)),
        (18_446_744_073_709_551_615, Err(Refusal::MomentTooLarge)),
    ] {
        check!(&rt; pulse(&rt, &mut ends.control, moment) == wanted);
    }
    check!(&rt; ends.control.queued() == 2);
    drop(submitter);
    drop(ends);
}

/// The queue has as many places as were asked for, also if that is no power of two, or the most that there may be.
#[test]
fn full_queue_of_a_hundred(rt: HostRuntime) {
    for places in [100, 65_536] {
        let (submitter, mut ends) = queue_of(&rt, 4, places, 1);
        for moment in 0..u64::from(places) {
            check!(&rt; pulse(&rt, &mut ends.control, moment) == Ok(()));
        }
        check!(&rt; pulse(&rt, &mut ends.control, 0) == Err(Refusal::Full));
        drop(submitter);
        drop(ends);
    }
}
