//! Packets that are queued ahead of a run by one submitter or by each of sixteen, as many as the largest queue has slots.

use super::opened;
use std::alloc::Global;
use std::process::Abort;
use std::sync::Wait;
use tb_layout::CREATE_ACCOUNTS;
use tb_pipe::{Opened, submit_ahead};
use tb_test_makers::{check, zeros};
use tb_work::Refusal;

/// Returns the answer to a packet of this many zeros that the submitter at an index queues ahead of the run.
fn ahead<R: Wait + Abort>(
    rt: &R,
    alloc: Global,
    opened: &mut Opened,
    submitter: usize,
    size: usize,
) -> Result<u64, Refusal> {
    if submitter >= opened.submitters.len() {
        rt.panic("there is such a submitter");
    }
    let packet = zeros(alloc, CREATE_ACCOUNTS, size).expect(rt, "memory");
    match submit_ahead(rt, alloc, opened, submitter, packet) {
        Ok(number) => Ok(number),
        Err((back, refusal)) => {
            drop(back);
            Err(refusal)
        }
    }
}

/// Queues this many packets by each submitter, of which the first is the largest. Asserts why one more is refused.
fn fill(
    rt: &(impl Wait + Abort),
    alloc: Global,
    submitters: u32,
    packets: u64,
    credit: u32,
    refusal: Refusal,
) {
    let opened = opened(alloc, 8190, 65_536, credit, submitters);
    let mut opened = opened.expect(rt, "it is opened");
    for number in 0..packets {
        let size = if number == 0 { 8190 * 128 } else { 0 };
        for submitter in 0..submitters as usize {
            check!(rt; ahead(rt, alloc, &mut opened, submitter, size) == Ok(number));
        }
    }
    check!(rt; ahead(rt, alloc, &mut opened, 0, 0) == Err(refusal));
    drop(opened);
}

/// The queue has 65,536 slots, 4,096 for each of sixteen submitters, and is full only after that. One submitter fills it too, and then has
/// used its credit up.
#[test]
fn as_many_ahead_as_the_largest_queue_has_slots(rt: HostRuntime) {
    fill(&rt, rt.alloc(), 16, 4_096, 4_097, Refusal::Full);
    fill(&rt, rt.alloc(), 1, 65_536, 65_536, Refusal::InFlight);
}
