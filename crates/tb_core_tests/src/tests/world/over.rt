//! Worlds one after another over one ledger.

use super::{Step, add_words, answer, ledger_of, play};
use crate::tests::made::{Made, creating, first_transferring};
use crate::tests::must;
use crate::tests::outcomes::{EntryKind, assert_entries, assert_failures, assert_kinds};
use std::alloc::Global;
use std::process::Abort;
use tb_core::Ledger;
use tb_layout::{Failure, Transfer};
use tb_tables::Status;
use tb_test_makers::{OutcomeKind, SIX_PLACES, account, kind_of, transfer};
use tb_work::{Item, Job, Refusal, Ticket};
use tb_world::{Event, World};

/// How many submitters the large Worlds have. The control is the sender after them.
const CLERKS: u32 = 16;

/// When the hold of five seconds, which was stored at nanosecond 5, expires.
const OVER: u64 = 5_000_000_005;

/// Returns a World over a ledger that hasn't stopped.
fn open_over(rt: &impl Abort, alloc: Global, ledger: Ledger, submitters: u32) -> World {
    must(rt, !ledger.stopped());
    World::over(alloc, ledger, 8, submitters)
        .ok()
        .expect(rt, "it is opened")
}

/// Pushes a packet of a submitter.
fn push_job(
    rt: &(impl Abort + Alloc<A = Global>),
    world: &mut World,
    sender: u32,
    job: Result<Job, Refusal>,
) {
    let item = Item::Packet(job.expect(rt, "memory"));
    let pushed = world.step(Event::Push(Ticket { sender, item }));
    must(rt, matches!(pushed, Ok(true)));
}

/// Pushes the end of each sender, and takes steps until none moves.
fn end_all(rt: &(impl Abort + Alloc<A = Global>), world: &mut World) {
    for sender in 0..=CLERKS {
        must(rt, answer(rt, world, Step::Push(sender, Made::End)));
    }
    must(rt, world.finish().is_ok());
}

/// Asserts that a submitter received one reply, of a packet at a place, with these failures.
fn assert_one(rt: &impl Abort, world: &World, sender: u32, place: u64, failures: &[Failure]) {
    let replies = world.received(sender);
    let reply = replies.first().expect(rt, "a reply");
    must(rt, replies.len() == 1 && reply.number == 0);
    must(rt, kind_of(reply) == OutcomeKind::Committed(place));
    assert_failures(rt, Some(reply), failures);
}

/// Returns holds of 30, 20 and 10; the last expires after five seconds.
fn holds() -> [Transfer; 3] {
    [
        transfer(1, [1, 2], 30, 2),
        transfer(2, [1, 2], 20, 2),
        Transfer {
            timeout: 5,
            ..transfer(3, [1, 2], 10, 2)
        },
    ]
}

/// Returns a post (flags 4) or a void (flags 8) of a hold.
fn resolving(id: u128, pending_id: u128, amount: u128, flags: u16) -> Transfer {
    Transfer {
        pending_id,
        ..transfer(id, [1, 2], amount, flags)
    }
}

/// Makes two accounts at places 0, and three holds at place 1. Their timestamps are 1 to 5.
fn hold_in_a_world(rt: &(impl Abort + Alloc<A = Global>)) -> Ledger {
    let mut world = open_over(rt, rt.alloc(), Ledger::new(rt.alloc(), 0), CLERKS);
    let accounts = creating(rt.alloc(), 0, 0, &[account(1, 0), account(2, 0)]);
    push_job(rt, &mut world, 0, accounts);
    let held = first_transferring(rt.alloc(), 1, &holds());
    push_job(rt, &mut world, 1, held);
    end_all(rt, &mut world);
    assert_one(rt, &world, 0, 0, &[]);
    assert_one(rt, &world, 1, 1, &[]);
    must(rt, world.ledger().machine().clock() == 5);
    ledger_of(rt, world)
}

/// Pushes a post of the first hold and a void of the second, which are joined, and the post of the third after a pulse at
/// which it expires.
fn push_resolving(rt: &(impl Abort + Alloc<A = Global>), world: &mut World) {
    let post = first_transferring(rt.alloc(), 15, &[resolving(11, 1, 30, 4)]);
    push_job(rt, world, 15, post);
    let void = first_transferring(rt.alloc(), 0, &[resolving(12, 2, 20, 8)]);
    push_job(rt, world, 0, void);
    must(rt, answer(rt, world, Step::Push(CLERKS, Made::Pulse(OVER))));
    let late = first_transferring(rt.alloc(), 3, &[resolving(13, 3, 10, 4)]);
    push_job(rt, world, 3, late);
    play(rt, world, "pop pop pop");
}

/// Resolves the holds: places go on at 2, and each packet's number is 0 again. 35 is `pending_transfer_expired`.
fn resolve_in_a_world(rt: &(impl Abort + Alloc<A = Global>), ledger: Ledger) -> Ledger {
    let mut world = open_over(rt, rt.alloc(), ledger, CLERKS);
    push_resolving(rt, &mut world);
    end_all(rt, &mut world);
    assert_one(rt, &world, 15, 2, &[]);
    assert_one(rt, &world, 0, 3, &[]);
    assert_one(rt, &world, 3, 5, &[Failure { index: 0, code: 35 }]);
    assert_kinds(rt, world.received(1), &[]);
    ledger_of(rt, world)
}

/// Asserts the journal of both Worlds, and what became of the holds.
fn assert_resolved(rt: &impl Abort, ledger: &Ledger) {
    let entries = [
        EntryKind::Batch(1),
        EntryKind::Batch(1),
        EntryKind::Batch(2),
        EntryKind::Pulse(OVER),
        EntryKind::Batch(1),
    ];
    assert_entries(rt, ledger.journal(), &entries);
    let machine = ledger.machine();
    must(rt, machine.clock() == OVER + 1);
    must(rt, machine.status(1) == Some(Status::Posted));
    must(rt, machine.status(2) == Some(Status::Voided));
    must(rt, machine.status(3) == Some(Status::Expired));
    let debtor = machine.account(1).expect(rt, "account 1");
    must(rt, (debtor.debits_pending, debtor.debits_posted) == (0, 30));
    let creditor = machine.account(2).expect(rt, "account 2");
    must(
        rt,
        (creditor.credits_pending, creditor.credits_posted) == (0, 30),
    );
}

/// A third World has one submitter, which makes account 1 again: 21 is `exists`.
#[test]
fn holds_resolved_in_a_later_world(rt: HostRuntime) {
    let ledger = hold_in_a_world(&rt);
    let ledger = resolve_in_a_world(&rt, ledger);
    assert_resolved(&rt, &ledger);
    let mut third = open_over(&rt, rt.alloc(), ledger, 1);
    let again = creating(rt.alloc(), 0, 0, &[account(1, 0), account(3, 0)]);
    push_job(&rt, &mut third, 0, again);
    must(&rt, third.finish().is_ok());
    assert_one(&rt, &third, 0, 6, &[Failure { index: 0, code: 21 }]);
    let ledger = ledger_of(&rt, third);
    must(&rt, ledger.places() == 7);
    must(&rt, ledger.machine().accounts() == 3);
    must(&rt, ledger.machine().clock() == OVER + 3);
    drop(ledger);
}

/// Asserts that a World that isn't at rest comes back, and returns it.
fn kept(rt: &impl Abort, world: World) -> World {
    must(rt, !world.is_at_rest());
    world.into_ledger().err().expect(rt, "it holds something")
}

/// Each of these leaves something: a ticket, a group, a parcel, an outcome, a reply, an unread reply.
const HELD: [&str; 8] = [
    "0:packet0=1",
    "pop",
    "batch-push",
    "batch-pop",
    "outcome-push",
    "outcome-pop",
    "reply-push",
    "0:reply 0:end 1:end",
];

/// The last of these leaves that Last is pushed, which all ends make due.
#[test]
fn world_that_holds_something_keeps_its_ledger(rt: HostRuntime) {
    let mut world = open_over(&rt, rt.alloc(), Ledger::new(rt.alloc(), 0), 1);
    must(&rt, world.is_at_rest());
    for steps in HELD {
        play(&rt, &mut world, steps);
        world = kept(&rt, world);
    }
    play(
        &rt,
        &mut world,
        "pop pop batch-push batch-pop outcome-push outcome-pop",
    );
    assert_kinds(&rt, world.received(0), &[OutcomeKind::Committed(0)]);
    let ledger = ledger_of(&rt, world);
    must(&rt, ledger.places() == 1);
    drop(ledger);
}

/// Returns why no World begins with a ledger, which comes back.
fn refused(rt: &impl Abort, alloc: Global, limit: u32, submitters: u32) -> Refusal {
    let ledger = Ledger::new(alloc, 7);
    match World::over(alloc, ledger, limit, submitters) {
        Ok(world) => {
            drop(world);
            rt.panic("it is opened")
        }
        Err((ledger, refusal)) => {
            must(rt, ledger.opening() == 7);
            drop(ledger);
            refusal
        }
    }
}

#[test]
fn world_over_openings(rt: HostRuntime) {
    must(&rt, refused(&rt, rt.alloc(), 0, 0) == Refusal::BadLimit);
    must(&rt, refused(&rt, rt.alloc(), 8191, 1) == Refusal::BadLimit);
    must(
        &rt,
        refused(&rt, rt.alloc(), 1, 0) == Refusal::BadSubmitters,
    );
    must(
        &rt,
        refused(&rt, rt.alloc(), 1, 17) == Refusal::BadSubmitters,
    );
}

/// Six packets and a pulse, which are popped in two turns.
const PULSED: &str =
    "0:packet0=1 0:packet1=2 1:pulse5 pop pop pop 0:packet2=3 0:packet3=4 0:packet4=5 0:packet5=6 pop";

/// Takes the events, and then steps until none moves. What failed for memory is left out, and the replies to the others
/// are as if nothing had failed. Returns false if memory ran out.
fn go_through_and_finish(rt: &impl Abort, alloc: Global, world: &mut World) -> bool {
    let mut events = Vec::new(alloc);
    let gone = add_words(rt, alloc, &mut events, PULSED) && world.go_through(events).is_ok();
    if world.finish().is_err() {
        return false;
    }
    must(rt, world.is_at_rest());
    let replies = world.received(0);
    let kinds = SIX_PLACES.get(..replies.len()).expect(rt, "six at most");
    assert_kinds(rt, replies, kinds);
    gone && replies.len() == 6
}

/// Runs the example in a World, which is dropped.
fn run_gone_through(rt: &impl Abort, alloc: Global) -> bool {
    let mut world = open_over(rt, alloc, Ledger::new(alloc, 0), 1);
    let gone = go_through_and_finish(rt, alloc, &mut world);
    drop(world);
    gone
}

#[test]
fn gone_through_and_finished(rt: HostRuntime) {
    must(&rt, run_gone_through(&rt, rt.alloc()));
}

#[test]
fn gone_through_and_finished_refused_memory(rt: HostRuntime) {
    run_gone_through(&rt, rt.alloc());
}
