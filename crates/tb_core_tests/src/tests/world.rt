//! The World, by worked examples. Who owns a World drops it by name, at one place.

use super::made::{Made, item, pushed_by};
use super::number_of;
use super::outcomes::{EntryKind, assert_entries, assert_kinds};
use crate::tests::must;
use std::alloc::Global;
use std::process::Abort;
use tb_core::Ledger;
use tb_test_makers::{OutcomeKind, check};
use tb_work::{Refusal, Ticket};
use tb_world::{Event, World, run_world};

mod answers;
mod examples;
mod lists;
mod over;
mod runs;

/// An event of the World; what a push pushes has yet to be made.
#[derive(Clone, Copy)]
enum Step {
    Push(u32, Made),
    Pop,
    PopRefused,
    BatchPush,
    BatchPop,
    BatchPopRefused,
    OutcomePush,
    OutcomePop,
    ReplyPush,
    ReplyPop(u32),
}

/// Returns the event of a step.
fn event(alloc: Global, step: Step) -> Result<Event, Refusal> {
    Ok(match step {
        Step::Push(sender, made) => Event::Push(Ticket {
            sender,
            item: item(alloc, sender, made)?,
        }),
        Step::Pop => Event::Pop { refused: false },
        Step::PopRefused => Event::Pop { refused: true },
        Step::BatchPush => Event::BatchPush,
        Step::BatchPop => Event::BatchPop { refused: false },
        Step::BatchPopRefused => Event::BatchPop { refused: true },
        Step::OutcomePush => Event::OutcomePush,
        Step::OutcomePop => Event::OutcomePop,
        Step::ReplyPush => Event::ReplyPush,
        Step::ReplyPop(sender) => Event::ReplyPop { sender },
    })
}

/// Returns what the World answers to a step.
fn answer(rt: &(impl Abort + Alloc<A = Global>), world: &mut World, step: Step) -> bool {
    let event = event(rt.alloc(), step).expect(rt, "memory");
    world.step(event).ok().expect(rt, "memory")
}

/// The steps of the stages by name.
const STAGES: [(&str, Step); 8] = [
    ("pop", Step::Pop),
    ("pop-refused", Step::PopRefused),
    ("batch-push", Step::BatchPush),
    ("batch-pop", Step::BatchPop),
    ("batch-pop-refused", Step::BatchPopRefused),
    ("outcome-push", Step::OutcomePush),
    ("outcome-pop", Step::OutcomePop),
    ("reply-push", Step::ReplyPush),
];

/// Returns the step of a word: the name of a stage's step, or a sender's number, a colon, and `reply` or what it
/// pushes.
fn step_of(rt: &impl Abort, word: &str) -> Step {
    for (name, step) in STAGES.iter() {
        if word == *name {
            return *step;
        }
    }
    if let Some(sender) = word.strip_suffix(":reply") {
        return Step::ReplyPop(number_of(rt, sender));
    }
    let (sender, made) = pushed_by(rt, word);
    Step::Push(sender, made)
}

/// Returns the step of a word, and what the World answers to it: false after a `!`, and else true.
fn answered_step(rt: &impl Abort, word: &str) -> (Step, bool) {
    match word.strip_prefix('!') {
        Some(refused) => (step_of(rt, refused), false),
        None => (step_of(rt, word), true),
    }
}

/// Returns the ledger of a World at rest.
fn ledger_of(rt: &impl Abort, world: World) -> Ledger {
    world.into_ledger().ok().expect(rt, "it is at rest")
}

/// Takes steps, and asserts what the World answers to each.
fn play(rt: &(impl Abort + Alloc<A = Global>), world: &mut World, steps: &str) {
    for word in steps.split_whitespace() {
        let (step, wanted) = answered_step(rt, word);
        check!(rt; answer(rt, world, step) == wanted, word);
    }
}

/// Asserts what submitter 0 received, the journal and the clock.
fn assert_world(
    rt: &impl Abort,
    world: &World,
    kinds: &[OutcomeKind],
    entries: &[EntryKind],
    clock: u64,
) {
    assert_kinds(rt, world.received(0), kinds);
    assert_kinds(rt, world.received(1), &[]);
    assert_entries(rt, world.ledger().journal(), entries);
    must(rt, world.ledger().machine().clock() == clock);
}

/// Adds the event of a step. Returns false if memory ran out.
fn add_step(rt: &impl Abort, alloc: Global, events: &mut Vec<Event>, step: Step) -> bool {
    match event(alloc, step) {
        Ok(event) => events.push(event).is_ok(),
        Err(refusal) => {
            must(rt, refusal == Refusal::NoMemory);
            false
        }
    }
}

/// Adds the events of steps in words. Returns false if memory ran out.
fn add_words(rt: &impl Abort, alloc: Global, events: &mut Vec<Event>, steps: &str) -> bool {
    for word in steps.split_whitespace() {
        let (step, _) = answered_step(rt, word);
        if !add_step(rt, alloc, events, step) {
            return false;
        }
    }
    true
}

/// Takes steps in a World of submitters 0 and 1 and the control, 2, with batches of at most 4 events. Asserts what it
/// returns to each and the state at the end, and that the same events as a list give this state.
fn assert_steps(
    rt: &(impl Abort + Alloc<A = Global>),
    steps: &str,
    kinds: &[OutcomeKind],
    entries: &[EntryKind],
    clock: u64,
) {
    let mut world = World::new(rt.alloc(), 0, 4, 2).expect(rt, "memory");
    play(rt, &mut world, steps);
    assert_world(rt, &world, kinds, entries, clock);
    drop(world);
    let mut events = Vec::new(rt.alloc());
    must(rt, add_words(rt, rt.alloc(), &mut events, steps));
    let listed = run_world(rt.alloc(), 0, 4, 2, events).expect(rt, "memory");
    assert_world(rt, &listed, kinds, entries, clock);
    drop(listed);
}
