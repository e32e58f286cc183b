use super::calls::{end, shut};
use super::{Says, answer, pulse, queue_of, sevens};
use std::alloc::Global;
use std::process::Abort;
use std::sync::Wait;
use tb_submit::{Control, Ends, Intake, Submitter};
use tb_test_makers::check;
use tb_work::{Item, Packet};

/// Passes a packet through the queue and returns its number, and the packet of its reply.
fn round(
    rt: &(impl Abort + Wait + Alloc<A = Global>),
    submitter: &mut Submitter,
    ends: &mut Ends,
    packet: Packet,
) -> (u64, Packet) {
    check!(rt; submitter.queued() < 1 << 56);
    let submitted = submitter.submit(rt, rt.alloc(), packet);
    let number = submitted.ok().expect(rt, "the packet is queued");
    answer(rt, ends, Says::Committed);
    (number, submitter.reply().expect(rt, "a reply").packet)
}

/// Passes one packet round this number of times: credit and slots are free again with each reply.
fn rounds(rt: &(impl Abort + Wait + Alloc<A = Global>), count: u64) {
    let (mut submitter, mut ends) = queue_of(rt, 4, 1, 1);
    let mut packet = sevens(rt.alloc(), 129, 512).expect(rt, "memory");
    for place in 0..count {
        let (number, back) = round(rt, &mut submitter, &mut ends, packet);
        check!(rt; number == place);
        packet = back;
    }
    drop(packet);
    finish(rt, submitter, ends, count);
}

/// Queues pulses one after the other, and takes each before the next is queued.
fn pulses(rt: &(impl Abort + Wait), control: &mut Control, intake: &mut Intake, count: u64) {
    for moment in 0..count {
        check!(rt; pulse(rt, control, moment) == Ok(()));
        let ticket = intake.take(rt).expect(rt, "a ticket");
        check!(rt; matches!(&ticket.item, Item::Pulse(taken) if taken.get() == moment));
    }
}

/// Queues as many pulses as there were packets, and then both ends.
fn finish(rt: &(impl Abort + Wait), submitter: Submitter, ends: Ends, count: u64) {
    let Ends {
        submitters,
        mut control,
        mut intake,
        outlets,
    } = ends;
    pulses(rt, &mut control, &mut intake, count);
    check!(rt; end(rt, submitter).is_none());
    check!(rt; is_taken(rt, &mut intake, 0));
    check!(rt; shut(rt, control).is_none());
    check!(rt; is_taken(rt, &mut intake, 1));
    check!(rt; intake.take(rt).is_none());
    drop(intake);
    drop(submitters);
    drop(outlets);
}

/// Takes the front of the queue, and returns whether it is the End of submitter 0, or the control's Close.
fn is_taken(rt: &impl Wait, intake: &mut Intake, sender: u32) -> bool {
    match intake.take(rt) {
        Some(ticket) => {
            let is_last = match &ticket.item {
                Item::End => sender == 0,
                Item::Close => sender == 1,
                _ => false,
            };
            is_last && ticket.sender == sender
        }
        None => false,
    }
}

#[test]
fn a_hundred_thousand_rounds(rt: HostRuntime) {
    rounds(&rt, 100_000);
}
