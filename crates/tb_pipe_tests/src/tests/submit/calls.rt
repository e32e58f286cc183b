use super::{Says, answer, pulse, queue_of, reads_reply, submit};
use std::process::Abort;
use std::sync::Wait;
use tb_submit::{Control, Ended, Intake, Submitter};
use tb_test_makers::check;
use tb_work::{Item, Refusal};

#[derive(Clone, Copy, PartialEq, Eq)]
enum Kind {
    Packet,
    Pulse,
    End,
    Close,
}

fn kind_of(item: &Item) -> Kind {
    match item {
        Item::Packet(_) => Kind::Packet,
        Item::Pulse(_) => Kind::Pulse,
        Item::End => Kind::End,
        Item::Close => Kind::Close,
    }
}

/// Takes tickets of these kinds and senders, and then None.
fn take_all(rt: &(impl Abort + Wait), intake: &mut Intake, wanted: &[(Kind, u32)]) {
    for (kind, sender) in wanted {
        let ticket = intake.take(rt).expect(rt, "a ticket");
        check!(rt; kind_of(&ticket.item) == *kind && ticket.sender == *sender);
    }
    check!(rt; intake.take(rt).is_none());
}

/// Reads the replies that are left, and returns whether there was one.
fn is_last_reply(ended: &mut Ended) -> bool {
    let (first, second) = (ended.reply(), ended.reply());
    let is_last = first.is_some() && second.is_none();
    drop(first);
    drop(second);
    is_last
}

/// Ends a submitter: why it was refused.
pub(super) fn end(rt: &impl Wait, submitter: Submitter) -> Option<Refusal> {
    match submitter.end(rt) {
        Ok(_) => None,
        Err((_, refusal)) => Some(refusal),
    }
}

pub(super) fn shut(rt: &impl Wait, control: Control) -> Option<Refusal> {
    match control.shut(rt) {
        Ok(_) => None,
        Err((_, refusal)) => Some(refusal),
    }
}

/// The queue gives what was put in it, in order.
#[test]
fn first_in_first_out(rt: HostRuntime) {
    let (mut submitter, mut ends) = queue_of(&rt, 4, 4, 4);
    check!(&rt; submit(&rt, &mut submitter, 129, 128) == Ok(0));
    check!(&rt; pulse(&rt, &mut ends.control, 5) == Ok(()));
    check!(&rt; end(&rt, submitter).is_none());
    check!(&rt; shut(&rt, ends.control).is_none());
    let wanted = [
        (Kind::Packet, 0),
        (Kind::Pulse, 1),
        (Kind::End, 0),
        (Kind::Close, 1),
    ];
    take_all(&rt, &mut ends.intake, wanted.as_slice());
    drop(ends.intake);
}

/// Returns the submitter, which comes back from an end if the queue is full.
fn refused_submitter(rt: &(impl Abort + Wait), submitter: Submitter) -> Submitter {
    let (submitter, refusal) = submitter.end(rt).err().expect(rt, "the queue is full");
    check!(rt; refusal == Refusal::Full);
    submitter
}

/// Returns the control, which comes back from an end if the queue is full.
fn refused_control(rt: &(impl Abort + Wait), control: Control) -> Control {
    let (control, refusal) = control.end(rt).err().expect(rt, "the queue is full");
    check!(rt; refusal == Refusal::Full);
    control
}

/// An end that is refused may be tried again.
#[test]
fn ends_of_a_full_queue(rt: HostRuntime) {
    let (submitter, mut ends) = queue_of(&rt, 4, 1, 4);
    check!(&rt; pulse(&rt, &mut ends.control, 5) == Ok(()));
    let submitter = refused_submitter(&rt, submitter);
    let control = refused_control(&rt, ends.control);
    take_all(&rt, &mut ends.intake, [(Kind::Pulse, 1)].as_slice());
    check!(&rt; end(&rt, submitter).is_none());
    check!(&rt; shut(&rt, control) == Some(Refusal::Full));
    take_all(&rt, &mut ends.intake, [(Kind::End, 0)].as_slice());
    drop(ends.intake);
}

/// Uses up a credit of three by three packets, two of which are answered. One reply is read before the submitter ends, and
/// the other afterwards.
#[test]
fn credit_of_three(rt: HostRuntime) {
    let (mut submitter, mut ends) = queue_of(&rt, 4, 8, 3);
    for (before, wanted) in [
        (0, Ok(0)),
        (1, Ok(1)),
        (2, Ok(2)),
        (3, Err(Refusal::InFlight)),
    ] {
        check!(&rt; submitter.in_flight() == before);
        check!(&rt; submit(&rt, &mut submitter, 129, 128) == wanted);
    }
    answer(&rt, &mut ends, Says::Committed);
    answer(&rt, &mut ends, Says::Committed);
    check!(&rt; reads_reply(&mut submitter));
    check!(&rt; submitter.in_flight() == 2 && submitter.queued() == 3);
    let mut ended = submitter.end(&rt).ok().expect(&rt, "room in the queue");
    check!(&rt; is_last_reply(&mut ended));
    drop(ended);
    drop(ends);
}
