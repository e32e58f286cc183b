use super::{look_of, made_look, sevens};
use std::alloc::Global;
use std::process::Abort;
use std::sync::Wait;
use tb_submit::{Submitter, open_queue};
use tb_test_makers::check;
use tb_work::{Packet, Refusal};

/// Queues the packet as number 0, or gets it back as it was and none is queued.
fn submit_or_not(
    rt: &(impl Abort + Wait),
    alloc: Global,
    submitter: &mut Submitter,
    packet: Packet,
) {
    check!(rt; submitter.queued() == 0);
    match submitter.submit(rt, alloc, packet) {
        Ok(number) => check!(rt; number == 0 && submitter.queued() == 1),
        Err((back, refusal)) => {
            check!(rt; refusal == Refusal::NoMemory);
            check!(rt; look_of(&back) == made_look(129, 512));
            check!(rt; submitter.queued() == 0 && submitter.in_flight() == 0);
        }
    }
}

/// Tried with each allocation refused in turn, by `tools/gate/refuse-each-growth`.
#[test]
fn submit_refused_memory(rt: HostRuntime) {
    match open_queue(rt.alloc(), 4, 4, 4, 2) {
        Ok(mut ends) => {
            check!(&rt; ends.submitters.len() == 2);
            if let Ok(packet) = sevens(rt.alloc(), 129, 512) {
                submit_or_not(&rt, rt.alloc(), &mut ends.submitters[0], packet);
            }
            drop(ends);
        }
        Err(refusal) => check!(&rt; refusal == Refusal::NoMemory),
    }
}

/// How often a packet is submitted after the credit was used up.
const TRIES: u32 = 200;

/// Submits a packet again and again after the credit was used up. It is returned unchanged each time.
fn try_again(rt: &(impl Abort + Wait), alloc: Global, submitter: &mut Submitter, packet: Packet) {
    let mut packet = packet;
    for _ in 0..TRIES {
        check!(rt; submitter.queued() < 1 << 56);
        match submitter.submit(rt, alloc, packet) {
            Ok(_) => rt.panic("the credit is used up"),
            Err((back, refusal)) => {
                check!(rt; refusal == Refusal::InFlight);
                packet = back;
            }
        }
    }
    check!(rt; look_of(&packet) == made_look(129, 512));
    drop(packet);
}

/// `tools/gate/refuse-each-growth` checks that these calls allocate nothing.
#[test]
fn credit_used_up_refused_memory(rt: HostRuntime) {
    let Ok(mut ends) = open_queue(rt.alloc(), 4, 4, 1, 1) else {
        return;
    };
    check!(&rt; ends.submitters.len() == 1);
    let submitter = &mut ends.submitters[0];
    if let (Ok(first), Ok(second)) = (sevens(rt.alloc(), 129, 512), sevens(rt.alloc(), 129, 512)) {
        check!(&rt; submitter.queued() == 0);
        if submitter.submit(&rt, rt.alloc(), first).is_ok() {
            try_again(&rt, rt.alloc(), submitter, second);
        }
    }
    drop(ends);
}
