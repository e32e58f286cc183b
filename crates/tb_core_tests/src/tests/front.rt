//! The front by itself, and a packet's way through front, ledger and cutter.

ghost use Rattle.std.specs.Prelude.{◌≡◌, ◌≤◌, IfOk};

use super::made::{Made, item, pushed_by};
use super::number_of;
use super::outcomes::assert_kinds;
use crate::tests::must;
use arrayvec::ArrayVec;
use std::alloc::Global;
use std::process::Abort;
use std::slice;
use tb_core::{Cause, Front, Ledger, Outcomes, Parcel};
use tb_test_makers::{OutcomeKind, check};
use tb_work::{Refusal, Reply, Ticket};

/// Returns the number in a word after a name, as 5 in `pulse5`.
fn number_after(rt: &impl Abort, name: &str, word: &str) -> Option<u64> {
    Some(u64::from(number_of(rt, word.strip_prefix(name)?)))
}

/// Returns whether a parcel is what a word says: `batch2` of two packets, `pulse5` with its moment, `shutdown` or `stopped` for a packet
/// that comes back, or `last`.
fn is_handed(rt: &impl Abort, parcel: &Parcel, word: &str) -> bool {
    match parcel {
        Parcel::Batch(batch) => number_after(rt, "batch", word) == Some(batch.jobs().len() as u64),
        Parcel::Pulse(moment) => number_after(rt, "pulse", word) == Some(moment.get()),
        Parcel::Return(_, Cause::Shutdown) => word == "shutdown",
        Parcel::Return(_, Cause::Stopped) => word == "stopped",
        Parcel::Last => word == "last",
    }
}

/// Asserts that there is a parcel for each word.
fn assert_handed(rt: &impl Abort, parcels: &[Parcel], wanted: &str) {
    let mut words = wanted.split_whitespace();
    for parcel in parcels {
        let word = words.next().expect(rt, wanted);
        check!(rt; is_handed(rt, parcel, word), wanted);
    }
    check!(rt; words.next().is_none(), wanted);
}

fn ticket(alloc: Global, sender: u32, made: Made) -> Result<Ticket, Refusal>
    ensures { IfOk result (λ ticket. ticket.sender ≡ sender) }
{
    let item = item(alloc, sender, made)?;
    Ok(Ticket { sender, item })
}

/// Returns a ticket, unless memory runs out.
pub(super) fn ticket_of(rt: &(impl Abort + Alloc<A = Global>), sender: u32, made: Made) -> Ticket
    ensures { result.sender ≡ sender }
{
    ticket(rt.alloc(), sender, made).expect(rt, "memory")
}

/// Returns a front for one submitter, whose batches have at most 4 events.
pub(super) fn small_front(rt: &(impl Abort + Alloc<A = Global>)) -> Front
    ensures { result.submitters ≡ 1 }
{
    Front::new(rt.alloc(), 4, 1).expect(rt, "it is opened")
}

/// Lets the front take what a line has up to a `|`, a sender and what it pushes, and asserts that it yields what is behind the `|`.
fn assert_taken(
    rt: &(impl Abort + Alloc<A = Global>),
    front: &mut Front,
    submitters: u32,
    line: &str,
)
    requires { submitters ≡ front.old.submitters }
    ensures { front.new.submitters ≡ front.old.submitters }
{
    let (pushed, wanted) = line.split_once('|').expect(rt, line);
    let (sender, made) = pushed_by(rt, pushed);
    check!(rt; sender <= submitters, line);
    let parcels = front.take(ticket_of(rt, sender, made));
    assert_handed(rt, parcels.as_slice(), wanted);
    drop(parcels);
}

/// Lets the front take what each line has, and asserts what it yields.
fn play(rt: &(impl Abort + Alloc<A = Global>), front: &mut Front, submitters: u32, lines: &str)
    requires { submitters ≡ front.old.submitters }
    ensures { front.new.submitters ≡ front.old.submitters }
{
    for line in lines.lines() {
        assert_taken(rt, front, submitters, line);
    }
}

/// Packets for a front of 16 submitters with the largest limit: the sender, and the operation and number of events. Where no batch is
/// sealed, the packet joins the group held. That has 8,190 events after the second.
const SIZES: &str = "0:129x1|
15:129x8189|
7:129x0|
3:129x1|batch3
4:130x5|batch1
5:130x8185|
6:130x1|batch2
7:130x8190|batch1
8:131x1|batch1
9:131x1|batch1
10:131x8190|batch1
11:131x0|batch1
12:129x8190|batch1
13:129x8190|batch1
14:130x1000|batch1
1:130x1025|
2:130x2049|
15:130x4096|
0:130x20|
0:130x1|batch5
9:129x64|batch1
9:131x64|batch1
";

#[test]
fn packets_of_all_sizes(rt: HostRuntime) {
    let mut front = Front::new(rt.alloc(), 8190, 16).expect(&rt, "it is opened");
    play(&rt, &mut front, 16, SIZES);
    drop(front);
}

/// Returns why a front isn't opened.
fn refusal(alloc: Global, limit: u32, submitters: u32) -> Option<Refusal> {
    Front::new(alloc, limit, submitters).err()
}

/// Limits and counts of submitters, and what they are refused for.
const OPENINGS: [(u32, u32, Option<Refusal>); 5] = [
    (0, 3, Some(Refusal::BadLimit)),
    (8191, 17, Some(Refusal::BadLimit)),
    (4, 17, Some(Refusal::BadSubmitters)),
    (4, 0, Some(Refusal::BadSubmitters)),
    (4, 3, None),
];

#[test]
fn openings(rt: HostRuntime) {
    for (limit, submitters, wanted) in &OPENINGS {
        let refusal = refusal(rt.alloc(), *limit, *submitters);
        check!(&rt; refusal == *wanted, *limit);
    }
}

/// A packet behind the control's Close.
const BEHIND_SHUT: &str = "0:packet0=1|
1:close|batch1
0:packet1=2|shutdown";

#[test]
fn packet_behind_shut(rt: HostRuntime) {
    let mut front = small_front(&rt);
    play(&rt, &mut front, 1, BEHIND_SHUT);
    // The submitter hasn't ended.
    must(&rt, !front.finished());
    play(&rt, &mut front, 1, "0:end|");
    // Both have ended.
    must(&rt, front.finished());
    drop(front);
}

#[test]
fn refused_growth(rt: HostRuntime) {
    let mut front = small_front(&rt);
    play(&rt, &mut front, 1, "0:packet0=1|");
    let parcels = front.take_as_refused(ticket_of(&rt, 0, SECOND));
    assert_handed(&rt, parcels.as_slice(), "batch1 stopped");
    drop(parcels);
    play(&rt, &mut front, 1, "0:packet2=3|stopped");
    drop(front);
}

const FIRST: Made = Made::Packet { number: 0, id: 1 };

const SECOND: Made = Made::Packet { number: 1, id: 2 };

/// Lets the front take a ticket of the submitter or the control into parcels, asserts what it yields, and leaves none.
fn assert_taken_into(
    rt: &(impl Abort + Alloc<A = Global>),
    front: &mut Front,
    parcels: &mut ArrayVec<Parcel, 2>,
    pushed: &str,
    wanted: &str,
)
    requires sender { 1 ≤ front.old.submitters }
    ensures same { front.new.submitters ≡ front.old.submitters }
{
    let (sender, made) = pushed_by(rt, pushed);
    must(rt, sender <= 1 && parcels.is_empty());
    front.take_into(parcels, ticket_of(rt, sender, made));
    assert_handed(rt, parcels.as_slice(), wanted);
    parcels.clear();
}

#[test]
fn parcels_of_the_caller(rt: HostRuntime) {
    let mut front = small_front(&rt);
    let mut parcels = ArrayVec::new();
    assert_taken_into(&rt, &mut front, &mut parcels, "0:packet0=1", "");
    assert_taken_into(&rt, &mut front, &mut parcels, "1:pulse5", "batch1 pulse5");
    assert_taken_into(&rt, &mut front, &mut parcels, "0:packet1=2", "");
    drop(parcels);
    drop(front);
}

/// Lets the front take a packet of the submitter into no parcels. Returns false if memory ran out for the packet.
fn takes_into(
    rt: &(impl Abort + Alloc<A = Global>),
    front: &mut Front,
    parcels: &mut ArrayVec<Parcel, 2>,
    number: u64,
) -> bool {
    let id = u128::from(number).saturating_add(1);
    match ticket(rt.alloc(), 0, Made::Packet { number, id }) {
        Ok(ticket) => {
            must(rt, parcels.is_empty());
            front.take_into(parcels, ticket);
            true
        }
        Err(_) => false,
    }
}

/// Returns how many of three packets are taken and held; if one isn't, the parcels have what the front yields at it.
fn held_of_three(
    rt: &(impl Abort + Alloc<A = Global>),
    front: &mut Front,
    parcels: &mut ArrayVec<Parcel, 2>,
) -> Option<usize> {
    for number in 0..3u64 {
        if !takes_into(rt, front, parcels, number) {
            return None;
        }
        if !parcels.is_empty() {
            return Some(number as usize);
        }
    }
    Some(3)
}

/// Asserts the state of a front and its parcels that took this number of three packets before an allocation failed.
fn assert_held(rt: &impl Abort, front: &mut Front, parcels: &[Parcel], held: usize) {
    match held {
        0 => assert_handed(rt, parcels, "stopped"),
        1 => assert_handed(rt, parcels, "batch1 stopped"),
        2 => assert_handed(rt, parcels, "batch2 stopped"),
        _ => assert_sealed(rt, front, 3),
    }
}

/// What is tried with each allocation refused in turn, by `tools/gate/refuse-each-growth`.
#[test]
fn take_into_refused_memory(rt: HostRuntime) {
    let mut front = small_front(&rt);
    let mut parcels = ArrayVec::new();
    if let Some(held) = held_of_three(&rt, &mut front, &mut parcels) {
        assert_held(&rt, &mut front, parcels.as_slice(), held);
    }
    drop(parcels);
    drop(front);
}

/// Takes a packet through front, ledger and cutter, and gives its reply.
fn way_of_a_packet(front: &mut Front, ledger: &mut Ledger, ticket: Ticket) -> Option<Reply>
    requires { ticket.sender ≤ front.old.submitters }
{
    for parcel in front.take(ticket) {
        ledger.apply(parcel);
    }
    let batch = front.idle()?;
    match ledger.apply(Parcel::Batch(batch)) {
        Outcomes::Cut(mut cutter) => cutter.next(),
        _ => None,
    }
}

/// Asserts that a packet has its reply.
fn assert_answered(rt: &(impl Abort + Alloc<A = Global>), front: &mut Front, ledger: &mut Ledger) {
    let reply = way_of_a_packet(front, ledger, ticket_of(rt, 0, FIRST)).expect(rt, "a reply");
    must(rt, (reply.submitter, reply.number) == (0, 0));
    must(rt, reply.packet.user == 7);
    assert_kinds(rt, slice::from_ref(&reply), &[OutcomeKind::Committed(0)]);
}

#[test]
fn packet_is_answered(rt: HostRuntime) {
    let mut front = small_front(&rt);
    let mut ledger = Ledger::new(rt.alloc(), 0);
    assert_answered(&rt, &mut front, &mut ledger);
    drop(front);
    drop(ledger);
}

/// Seals the group held and holds it again, as whoever can't commit it does.
fn hold_again(rt: &impl Abort, front: &mut Front)
    ensures { front.new.submitters ≡ front.old.submitters }
{
    let batch = front.idle().expect(rt, "a group is held");
    must(rt, !front.is_holding());
    front.hold(batch);
}

/// Seals the group held, which has this number of packets.
fn assert_sealed(rt: &impl Abort, front: &mut Front, packets: usize) {
    let batch = front.idle().expect(rt, "a group is held");
    must(rt, batch.jobs().len() == packets);
    drop(batch);
}

/// The next packet joins the group as if it had never been sealed.
#[test]
fn group_held_again(rt: HostRuntime) {
    let mut front = small_front(&rt);
    play(&rt, &mut front, 1, "0:packet0=1|");
    hold_again(&rt, &mut front);
    must(&rt, front.is_holding());
    play(&rt, &mut front, 1, "0:packet1=2|");
    assert_sealed(&rt, &mut front, 2);
    drop(front);
}
