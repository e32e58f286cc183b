//! Lists of two hundred events, made by a fixed rule, and what plain code says of them.

use super::{Step, answer, ledger_of};
use crate::tests::made::Made;
use crate::tests::{must, push};
use std::alloc::Global;
use std::process::Abort;
use tb_core::{Entry, Ledger};
use tb_layout::{CLOCK_MAX, CREATE_TRANSFERS, LOOKUP_ACCOUNTS, MOMENT_MAX};
use tb_test_makers::{OutcomeKind, check, kind_of};
use tb_work::{Reply, Stub};
use tb_world::World;

/// What was pushed, with the sender of a packet or an End; `Earlier` is what an earlier list committed.
#[derive(Clone, Copy, PartialEq, Eq)]
enum Pushed {
    Earlier,
    Packet { sender: u32, number: u64 },
    Pulse(u64),
    Close,
    End(u32),
}

/// How a World is opened.
#[derive(Clone, Copy)]
struct Setting {
    clock: u64,
    limit: u32,
    submitters: u32,
}

/// What plain code knows of a list: how the World was opened, how much its ledger had committed before, what was pushed, and
/// whether an allocation failed.
#[derive(Drop)]
struct Known {
    setting: Setting,
    before: usize,
    pushed: Vec<Pushed>,
    refused: bool,
}

impl Known {
    /// Returns the number of the control, which follows those of the submitters.
    fn control(&self) -> u32 {
        self.setting.submitters
    }
}

/// Returns the next number of the rule, from 0 up to a bound.
fn next_number(seed: &mut u64, bound: u64) -> u64 {
    *seed = seed
        .wrapping_mul(6_364_136_223_846_793_005)
        .wrapping_add(1_442_695_040_888_963_407);
    (*seed >> 33).checked_rem(bound).unwrap_or(0)
}

/// Returns one of the submitters.
fn next_submitter(seed: &mut u64, submitters: u32) -> u32 {
    u32::try_from(next_number(seed, u64::from(submitters))).unwrap_or(0)
}

/// Returns how many packets a submitter pushed.
fn packets_of(pushed: &[Pushed], submitter: u32) -> u64 {
    let mut count = 0u64;
    for one in pushed {
        if matches!(one, Pushed::Packet { sender, number: _ } if *sender == submitter) {
            count = count.wrapping_add(1);
        }
    }
    count
}

/// Returns whether a sender ended.
fn has_ended(known: &Known, sender: u32) -> bool {
    let close = sender == known.control() && known.pushed.contains(&Pushed::Close);
    close || known.pushed.contains(&Pushed::End(sender))
}

/// Returns what the rule pushes: mostly a packet, by one of the submitters.
fn next_push(seed: &mut u64, known: &Known) -> (u32, Pushed) {
    let kind = next_number(seed, 61);
    let submitter = next_submitter(seed, known.setting.submitters);
    match kind {
        0..50 => {
            let number = packets_of(&known.pushed, submitter);
            let packet = Pushed::Packet {
                sender: submitter,
                number,
            };
            (submitter, packet)
        }
        50..54 => (known.control(), Pushed::Pulse(kind)),
        54..57 => (
            known.control(),
            Pushed::Pulse(MOMENT_MAX / next_number(seed, 1000).max(1)),
        ),
        57 => (known.control(), Pushed::Close),
        58 => (known.control(), Pushed::End(known.control())),
        _ => (submitter, Pushed::End(submitter)),
    }
}

/// Returns the packet of a submitter with a number. Two of three create an account of their own. The others are transfers
/// or lookups, some of them as large as the limit allows.
fn packet(limit: u32, sender: u32, number: u64) -> Made {
    let kind = number.wrapping_add(u64::from(sender));
    let operation = match kind % 6 {
        2 => CREATE_TRANSFERS,
        5 => LOOKUP_ACCOUNTS,
        _ => {
            return Made::Packet {
                number,
                id: u128::from(number) * 17 + u128::from(sender) + 1,
            };
        }
    };
    let count = match kind % 4 {
        0 => 0,
        1 => 1,
        2 => 3,
        _ => limit,
    };
    Made::Zeros {
        number,
        operation,
        count: count.min(limit),
    }
}

/// Returns a step of a stage; now and then its allocation fails.
fn next_stage(seed: &mut u64, submitters: u32) -> Step {
    let kind = next_number(seed, 20);
    let refused = next_number(seed, 100) == 0;
    match kind {
        0..4 if refused => Step::PopRefused,
        0..4 => Step::Pop,
        4..7 => Step::BatchPush,
        7..10 if refused => Step::BatchPopRefused,
        7..10 => Step::BatchPop,
        10..13 => Step::OutcomePush,
        13..15 => Step::OutcomePop,
        15..18 => Step::ReplyPush,
        _ => Step::ReplyPop(next_submitter(seed, submitters)),
    }
}

/// Pushes what the rule allows, which returns true unless its sender has ended.
fn push_next(
    rt: &(impl Abort + Alloc<A = Global>),
    world: &mut World,
    known: &mut Known,
    seed: &mut u64,
) {
    let (sender, pushed) = next_push(seed, known);
    let item = match pushed {
        Pushed::Packet { sender, number } => packet(known.setting.limit, sender, number),
        Pushed::Pulse(moment) => Made::Pulse(moment),
        Pushed::Close => Made::Close,
        Pushed::End(_) | Pushed::Earlier => Made::End,
    };
    let moves = answer(rt, world, Step::Push(sender, item));
    let wanted = !has_ended(known, sender);
    check!(rt; moves == wanted, sender);
    if moves {
        push(rt, &mut known.pushed, pushed);
    }
}

/// Takes an event of the rule.
fn step(
    rt: &(impl Abort + Alloc<A = Global>),
    world: &mut World,
    known: &mut Known,
    seed: &mut u64,
) {
    if next_number(seed, 26) < 6 {
        push_next(rt, world, known, seed);
    } else {
        let stage = next_stage(seed, known.setting.submitters);
        let moves = answer(rt, world, stage);
        known.refused |= moves && matches!(stage, Step::PopRefused | Step::BatchPopRefused);
    }
}

/// Returns what earlier lists committed.
fn earlier(rt: &(impl Abort + Alloc<A = Global>), before: usize) -> Vec<Pushed> {
    let mut earlier = Vec::new(rt.alloc());
    for _ in 0..before {
        push(rt, &mut earlier, Pushed::Earlier);
    }
    earlier
}

/// Returns what was committed before, and then the packets and pulses ahead of the Close, in order.
fn ahead(rt: &(impl Abort + Alloc<A = Global>), known: &Known) -> Vec<Pushed> {
    let mut ahead = earlier(rt, known.before);
    for one in &known.pushed {
        match *one {
            Pushed::Close => break,
            Pushed::End(_) | Pushed::Earlier => {}
            one => push(rt, &mut ahead, one),
        }
    }
    ahead
}

/// Puts the packets of an entry after the others.
fn add_stubs(rt: &impl Abort, stubs: &[Stub], committed: &mut Vec<Pushed>) {
    for stub in stubs {
        let packet = Pushed::Packet {
            sender: stub.submitter,
            number: stub.number,
        };
        push(rt, committed, packet);
    }
}

/// Returns the packets and pulses of the journal, in order.
fn committed(rt: &(impl Abort + Alloc<A = Global>), journal: &[Entry]) -> Vec<Pushed> {
    let mut committed = Vec::new(rt.alloc());
    for entry in journal {
        match entry {
            Entry::Batch {
                operation: _,
                body: _,
                stubs,
            } => add_stubs(rt, stubs, &mut committed),
            Entry::Pulse { moment } => {
                let pulse = Pushed::Pulse(moment.get());
                push(rt, &mut committed, pulse);
            }
        }
    }
    committed
}

/// Returns what becomes of a packet if this number of those ahead were committed.
fn due(ahead: &[Pushed], committed: usize, packet: Pushed) -> OutcomeKind {
    for (place, one) in ahead.iter().enumerate() {
        if *one == packet && place < committed {
            return OutcomeKind::Committed(place as u64);
        }
        if *one == packet {
            return OutcomeKind::Stopped;
        }
    }
    OutcomeKind::Shutdown
}

/// Asserts that each reply is the one due: the submitter's next packet's, with its outcome.
fn assert_due(rt: &impl Abort, replies: &[Reply], sender: u32, ahead: &[Pushed], committed: usize) {
    for (place, reply) in replies.iter().enumerate() {
        let number = place as u64;
        let wanted = due(ahead, committed, Pushed::Packet { sender, number });
        let found = (reply.submitter, reply.number, kind_of(reply));
        check!(rt; found == (sender, number, wanted), number);
    }
}

/// Asserts that the journal is a prefix of what is ahead, and that each submitter received a prefix of what is
/// due to it. Gives how many packets and pulses are ahead and aren't committed.
fn assert_lawful(rt: &(impl Abort + Alloc<A = Global>), world: &World, known: &Known) -> usize {
    let ahead = ahead(rt, known);
    let committed = committed(rt, world.ledger().journal());
    // What this list committed is the first of what is ahead.
    let since = committed.get(known.before..).expect(rt, "nothing is lost");
    must(rt, ahead.get(known.before..committed.len()) == Some(since));
    for sender in 0..known.setting.submitters {
        assert_due(rt, world.received(sender), sender, &ahead, committed.len());
    }
    ahead.len().saturating_sub(committed.len())
}

/// Each stage once, with nothing refused.
const ROUND: [Step; 6] = [
    Step::Pop,
    Step::BatchPush,
    Step::BatchPop,
    Step::OutcomePush,
    Step::OutcomePop,
    Step::ReplyPush,
];

/// Returns whether one of the stages moved, or a submitter took a reply.
fn round(rt: &(impl Abort + Alloc<A = Global>), world: &mut World, submitters: u32) -> bool {
    let mut moved = false;
    for step in &ROUND {
        moved |= answer(rt, world, *step);
    }
    for sender in 0..submitters {
        moved |= answer(rt, world, Step::ReplyPop(sender));
    }
    moved
}

/// Rounds until nothing moves; no list needs more than its events and a few.
fn settle(rt: &(impl Abort + Alloc<A = Global>), world: &mut World, submitters: u32) {
    for _ in 0..1000 {
        if !round(rt, world, submitters) {
            return;
        }
    }
    rt.panic("the World never rests");
}

/// Plays a list of the rule. At rest each packet has its reply, and all that is ahead was committed if no allocation failed.
fn play_list(
    rt: &(impl Abort + Alloc<A = Global>),
    world: &mut World,
    known: &mut Known,
    seed: u64,
) {
    let mut seed = seed;
    for _ in 0..200 {
        step(rt, world, known, &mut seed);
    }
    assert_lawful(rt, world, known);
    settle(rt, world, known.setting.submitters);
    let left = assert_lawful(rt, world, known);
    must(rt, known.refused || left == 0);
    for sender in 0..known.setting.submitters {
        let replies = world.received(sender).len() as u64;
        check!(rt; replies == packets_of(&known.pushed, sender), sender);
    }
}

fn one_list(rt: &(impl Abort + Alloc<A = Global>), setting: Setting, seed: u64) {
    let clock = setting.clock.min(CLOCK_MAX);
    let world = World::new(rt.alloc(), clock, setting.limit, setting.submitters);
    let mut world = world.expect(rt, "memory");
    let mut known = Known {
        setting,
        before: 0,
        pushed: Vec::new(rt.alloc()),
        refused: false,
    };
    play_list(rt, &mut world, &mut known, seed);
    drop(world);
    drop(known);
}

#[test]
fn a_thousand_lists(rt: HostRuntime) {
    let setting = Setting {
        clock: 0,
        limit: 3,
        submitters: 2,
    };
    for seed in 0..1000 {
        one_list(&rt, setting, seed);
    }
}

/// Clocks and limits.
const OPENINGS: [(u64, u32); 5] = [
    (0, 1),
    (7, 8190),
    (MOMENT_MAX, 2),
    (CLOCK_MAX - 20, 12),
    (CLOCK_MAX, 100),
];

/// Each opening for 1 to 16 submitters.
#[test]
fn lists_of_each_opening(rt: HostRuntime) {
    for submitters in 1..=16 {
        for (clock, limit) in OPENINGS {
            let setting = Setting {
                clock,
                limit,
                submitters,
            };
            for seed in 0..3 {
                one_list(&rt, setting, seed * 1000 + u64::from(submitters));
            }
        }
    }
}

/// Plays a list over the ledger that an earlier one left, and returns the ledger.
fn list_over(
    rt: &(impl Abort + Alloc<A = Global>),
    ledger: Ledger,
    setting: Setting,
    seed: u64,
) -> Ledger {
    must(rt, !ledger.stopped());
    let mut known = Known {
        setting,
        before: ledger.places() as usize,
        pushed: Vec::new(rt.alloc()),
        refused: false,
    };
    let mut world = World::over(rt.alloc(), ledger, setting.limit, setting.submitters)
        .ok()
        .expect(rt, "it is opened");
    play_list(rt, &mut world, &mut known, seed);
    drop(known);
    ledger_of(rt, world)
}

/// Plays lists of several numbers of submitters and limits over one ledger, until it has stopped. Returns how many.
fn lists_in_a_row(rt: &(impl Abort + Alloc<A = Global>), first: u64) -> u64 {
    let mut ledger = Ledger::new(rt.alloc(), 7);
    for number in 0..6u32 {
        if ledger.stopped() {
            drop(ledger);
            return u64::from(number);
        }
        let setting = Setting {
            clock: 0,
            limit: 1 + number,
            submitters: 16 - number,
        };
        let seed = first.wrapping_mul(6).wrapping_add(u64::from(number));
        ledger = list_over(rt, ledger, setting, seed);
    }
    drop(ledger);
    6
}

/// A row ends with a list that stops its ledger.
#[test]
fn lists_over_one_ledger(rt: HostRuntime) {
    let mut lists = 0u64;
    for first in 0..60 {
        lists = lists.wrapping_add(lists_in_a_row(&rt, first));
    }
    must(&rt, lists > 120);
}
