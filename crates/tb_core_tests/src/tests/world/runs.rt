//! Lists of events whose whole answers are known; two of them also with each allocation refused in turn.

use super::{Step, add_step, add_words};
use crate::tests::made::{Made, creating, transferring};
use crate::tests::must;
use crate::tests::outcomes::{EntryKind, assert_entries, assert_failures, assert_kinds};
use std::alloc::Global;
use std::process::Abort;
use std::slice;
use tb_layout::{Account, CLOCK_MAX, Failure, Transfer};
use tb_test_makers::{OutcomeKind, SIX_PLACES, account, kind_of, transfer};
use tb_work::{Item, Job, Refusal, Ticket};
use tb_world::{Event, World, run_to_rest, run_world};

/// Adds the events of several texts. Returns false if memory ran out.
fn add_texts(rt: &impl Abort, alloc: Global, events: &mut Vec<Event>, texts: &[&str]) -> bool {
    for steps in texts {
        if !add_words(rt, alloc, events, steps) {
            return false;
        }
    }
    true
}

const PULSE_BETWEEN_BATCHES: &str =
    "0:packet0=1 0:packet1=2 1:pulse5 0:packet2=3 0:packet3=4 0:packet4=5 0:packet5=6 0:end pop pop pop
batch-push batch-push pop pop pop pop batch-push";

/// Commits a parcel and takes up to four replies.
const THROUGH: &str =
    "batch-pop outcome-push outcome-pop reply-push reply-push reply-push reply-push 0:reply 0:reply
0:reply 0:reply";

/// Runs the example, and asserts its result. Returns false if memory ran out.
fn run_pulsed(rt: &impl Abort, alloc: Global) -> bool {
    let mut events = Vec::new(alloc);
    let texts = [PULSE_BETWEEN_BATCHES, THROUGH, THROUGH, THROUGH];
    if !add_texts(rt, alloc, &mut events, &texts) {
        return false;
    }
    match run_world(alloc, 0, 4, 1, events) {
        Ok(world) => {
            assert_kinds(rt, world.received(0), &SIX_PLACES);
            let entries = [
                EntryKind::Batch(2),
                EntryKind::Pulse(5),
                EntryKind::Batch(4),
            ];
            assert_entries(rt, world.ledger().journal(), &entries);
            must(rt, world.ledger().machine().clock() == 9);
            drop(world);
            true
        }
        Err(_) => false,
    }
}

#[test]
fn pulse_between_batches(rt: HostRuntime) {
    must(&rt, run_pulsed(&rt, rt.alloc()));
}

#[test]
fn pulse_between_batches_refused_memory(rt: HostRuntime) {
    run_pulsed(&rt, rt.alloc());
}

/// Returns three accounts; the second may not owe more than it is owed.
fn accounts() -> [Account; 3] {
    [account(1, 0), account(2, 2), account(3, 0)]
}

/// Returns a chain of three transfers; the last is in ledger 0.
fn chain() -> [Transfer; 3] {
    [
        transfer(1, [1, 2], 10, 1),
        transfer(2, [2, 3], 10, 1),
        Transfer {
            ledger: 0,
            ..transfer(3, [1, 3], 10, 0)
        },
    ]
}

/// Adds the push of a packet by submitter 0. Returns false if memory ran out.
fn add_push(rt: &impl Abort, events: &mut Vec<Event>, job: Result<Job, Refusal>) -> bool {
    match job {
        Ok(job) => {
            let item = Item::Packet(job);
            events.push(Event::Push(Ticket { sender: 0, item })).is_ok()
        }
        Err(refusal) => {
            must(rt, refusal == Refusal::NoMemory);
            false
        }
    }
}

/// Adds the packets of the example. Returns false if memory ran out.
fn add_packets(rt: &impl Abort, alloc: Global, events: &mut Vec<Event>) -> bool {
    add_push(rt, events, creating(alloc, 0, 0, &accounts()))
        && add_push(rt, events, transferring(alloc, 1, &chain()))
        && add_push(
            rt,
            events,
            transferring(alloc, 2, &[transfer(2, [2, 3], 10, 0)]),
        )
}

const JOINED: &str = "pop pop batch-push pop batch-push";

const CHAIN_FAILURES: [Failure; 3] = [
    Failure { index: 0, code: 1 },
    Failure { index: 1, code: 1 },
    Failure { index: 2, code: 19 },
];

/// Asserts what the example says.
fn assert_joined(rt: &impl Abort, world: &World) {
    let replies = world.received(0);
    let kinds = [
        OutcomeKind::Committed(0),
        OutcomeKind::Committed(1),
        OutcomeKind::Committed(2),
    ];
    assert_kinds(rt, replies, &kinds);
    assert_failures(rt, replies.first(), &[]);
    assert_failures(rt, replies.get(1), &CHAIN_FAILURES);
    assert_failures(rt, replies.get(2), &[Failure { index: 0, code: 54 }]);
    assert_entries(
        rt,
        world.ledger().journal(),
        &[EntryKind::Batch(1), EntryKind::Batch(2)],
    );
    assert_untouched(rt, world);
}

/// Asserts that no account was debited or credited.
fn assert_untouched(rt: &impl Abort, world: &World) {
    let machine = world.ledger().machine();
    must(rt, machine.clock() == 7);
    for made in &accounts() {
        let found = machine.account(made.id).expect(rt, "an account");
        must(rt, u128::from(found.timestamp) == made.id);
        must(
            rt,
            Account {
                timestamp: 0,
                ..found
            } == *made,
        );
    }
}

/// Runs the example, and asserts its result. Returns false if memory ran out.
fn run_joined(rt: &impl Abort, alloc: Global) -> bool {
    let mut events = Vec::new(alloc);
    let are_added = add_packets(rt, alloc, &mut events)
        && add_texts(rt, alloc, &mut events, &[JOINED, THROUGH, THROUGH]);
    if !are_added {
        return false;
    }
    match run_world(alloc, 0, 4, 1, events) {
        Ok(world) => {
            assert_joined(rt, &world);
            drop(world);
            true
        }
        Err(_) => false,
    }
}

#[test]
fn chains_of_transfers_joined(rt: HostRuntime) {
    must(&rt, run_joined(&rt, rt.alloc()));
}

#[test]
fn chains_of_transfers_joined_refused_memory(rt: HostRuntime) {
    run_joined(&rt, rt.alloc());
}

/// Joins four packets to a batch, commits it and takes its replies.
const FOUR: &str =
    "pop pop pop pop batch-push batch-pop outcome-push outcome-pop reply-push reply-push reply-push
reply-push";

/// Returns a packet of each of 16 submitters, and what becomes of them.
fn sixteen_events(rt: &(impl Abort + Alloc<A = Global>)) -> Vec<Event> {
    let mut events = Vec::new(rt.alloc());
    for sender in 0..16 {
        let id = u128::from(sender) + 1;
        let push = Step::Push(sender, Made::Packet { number: 0, id });
        add_times(rt, &mut events, push, 1);
    }
    for _ in 0..4 {
        must(rt, add_words(rt, rt.alloc(), &mut events, FOUR));
    }
    for sender in 0..16 {
        add_times(rt, &mut events, Step::ReplyPop(sender), 1);
    }
    events
}

#[test]
fn sixteen_submitters(rt: HostRuntime) {
    let events = sixteen_events(&rt);
    let world = run_world(rt.alloc(), 0, 4, 16, events).expect(&rt, "memory");
    for sender in 0..16 {
        let kinds = [OutcomeKind::Committed(u64::from(sender))];
        assert_kinds(&rt, world.received(sender), &kinds);
    }
    assert_entries(&rt, world.ledger().journal(), &[EntryKind::Batch(4); 4]);
    must(&rt, world.ledger().machine().clock() == 16);
    drop(world);
}

/// How many packets have no events. They are one batch.
const EMPTY: u64 = 1000;

/// How many pulses follow.
const PULSES: u64 = 120;

/// Adds an event a number of times.
fn add_times(
    rt: &(impl Abort + Alloc<A = Global>),
    events: &mut Vec<Event>,
    step: Step,
    times: u64,
) {
    for _ in 0..times {
        must(rt, add_step(rt, rt.alloc(), events, step));
    }
}

/// Adds the packets, their commit and their replies.
fn many_replies(rt: &(impl Abort + Alloc<A = Global>), events: &mut Vec<Event>) {
    for number in 0..EMPTY {
        let packet = Made::Zeros {
            number,
            operation: 130,
            count: 0,
        };
        add_times(rt, events, Step::Push(0, packet), 1);
    }
    add_times(rt, events, Step::Pop, EMPTY);
    let through = "batch-push batch-pop outcome-push outcome-pop";
    must(rt, add_words(rt, rt.alloc(), events, through));
    add_times(rt, events, Step::ReplyPush, EMPTY);
    add_times(rt, events, Step::ReplyPop(0), EMPTY);
}

#[test]
fn a_thousand_replies_and_many_pulses(rt: HostRuntime) {
    let mut events = Vec::new(rt.alloc());
    many_replies(&rt, &mut events);
    // Each pulse is committed before the next is pushed.
    for moment in 0..PULSES {
        add_times(&rt, &mut events, Step::Push(1, Made::Pulse(moment)), 1);
        must(
            &rt,
            add_words(&rt, rt.alloc(), &mut events, "pop batch-push batch-pop"),
        );
    }
    let world = run_world(rt.alloc(), 0, 4, 1, events).expect(&rt, "memory");
    let replies = world.received(0);
    must(&rt, replies.len() as u64 == EMPTY);
    for (place, reply) in replies.iter().enumerate() {
        must(&rt, kind_of(reply) == OutcomeKind::Committed(place as u64));
    }
    let journal = world.ledger().journal();
    must(&rt, journal.len() as u64 == PULSES + 1);
    assert_entries(&rt, &journal[..1], &[EntryKind::Batch(EMPTY as usize)]);
    for (moment, entry) in journal[1..].iter().enumerate() {
        assert_entries(
            &rt,
            slice::from_ref(entry),
            &[EntryKind::Pulse(moment as u64)],
        );
    }
    must(&rt, world.ledger().machine().clock() == PULSES - 1);
    drop(world);
}

/// Pushes and no pop: six packets and a pulse.
const PUSHES: &str =
    "0:packet0=1 0:packet1=2 1:pulse5 0:packet2=3 0:packet3=4 0:packet4=5 0:packet5=6 0:end";

#[test]
fn pushes_come_to_rest(rt: HostRuntime) {
    let mut events = Vec::new(rt.alloc());
    must(&rt, add_words(&rt, rt.alloc(), &mut events, PUSHES));
    let world = run_to_rest(rt.alloc(), 0, 4, 1, events).expect(&rt, "memory");
    assert_kinds(&rt, world.received(0), &SIX_PLACES);
    drop(world);
}

/// How many packets each of 16 submitters pushes, but the first, which pushes more. Together they are 10,016.
const EACH: u64 = 601;

const OF_THE_FIRST: u64 = 1001;

/// Pushes the packets in turns: the first of each submitter, then the second of each.
fn ten_thousand(rt: &(impl Abort + Alloc<A = Global>), events: &mut Vec<Event>) {
    for number in 0..OF_THE_FIRST {
        let senders = if number < EACH { 16 } else { 1 };
        for sender in 0..senders {
            let packet = Made::Zeros {
                number,
                operation: 130,
                count: 0,
            };
            add_times(rt, events, Step::Push(sender, packet), 1);
        }
    }
}

/// Returns the place of a packet in the order in which they are pushed.
fn place_in_turns(number: u64, sender: u32) -> u64 {
    if number < EACH {
        16 * number + u64::from(sender)
    } else {
        number.wrapping_add(15 * EACH)
    }
}

#[test]
fn ten_thousand_packets_come_to_rest(rt: HostRuntime) {
    let mut events = Vec::new(rt.alloc());
    ten_thousand(&rt, &mut events);
    let world = run_to_rest(rt.alloc(), 7, 8190, 16, events).expect(&rt, "memory");
    for sender in 0..16 {
        let replies = world.received(sender);
        let pushed = if sender == 0 { OF_THE_FIRST } else { EACH };
        must(&rt, replies.len() as u64 == pushed);
        for (number, reply) in replies.iter().enumerate() {
            must(
                &rt,
                kind_of(reply) == OutcomeKind::Committed(place_in_turns(number as u64, sender)),
            );
        }
    }
    must(&rt, world.ledger().machine().clock() == 7);
    drop(world);
}

#[test]
fn no_events_are_at_rest(rt: HostRuntime) {
    let world = run_to_rest(rt.alloc(), CLOCK_MAX, 1, 1, Vec::new(rt.alloc())).expect(
        &rt, "memory",
    );
    must(&rt, world.ledger().places() == 0);
    must(&rt, world.ledger().machine().clock() == CLOCK_MAX);
    drop(world);
}
