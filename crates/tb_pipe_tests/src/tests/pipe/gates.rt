//! What the gate sees: batches sealed ahead of their commits, and both stages at once.

use super::queued::{Step, run_queued};
use super::{MOST_TURNS, assert_run};
use std::alloc::Global;
use std::process::Abort;
use std::sync::Wait;
use std::sync::atomic::Ordering::SeqCst;
use std::sync::atomic::{AtomicBool, AtomicU64};
use std::thread;
use std::thread::Threads;
use std::time::Clock;
use tb_layout::{CREATE_ACCOUNTS, CREATE_TRANSFERS};
use tb_pipe::Gate;
use tb_test_makers::{OutcomeKind, check};

/// Gives way until a counter has reached a number; false if it doesn't in time.
fn waits_for(counter: &AtomicU64, number: u64) -> bool {
    for _ in 0..MOST_TURNS {
        if counter.load(SeqCst) >= number {
            return true;
        }
        thread::yield_now();
    }
    false
}

/// Holds batch 0 until this number of batches was sealed, and, if both are to meet, the last of these seals until batch
/// 0 was asked for.
#[derive(Drop)]
struct Meeting {
    sealed: AtomicU64,
    asked: AtomicU64,
    number: u64,
    both: bool,
    marked: AtomicBool,
}

impl Meeting {
    fn new(number: u64, both: bool) -> Meeting {
        Meeting {
            sealed: AtomicU64::new(0),
            asked: AtomicU64::new(0),
            number,
            both,
            marked: AtomicBool::new(false),
        }
    }
}

impl Gate for Meeting {
    fn sealed(&self, batch: u64) {
        self.sealed.store(batch.wrapping_add(1), SeqCst);
        let meets = self.both && batch.wrapping_add(1) == self.number;
        if meets && !waits_for(&self.asked, 1) {
            self.marked.store(true, SeqCst);
        }
    }

    fn may_commit(&self, batch: u64) -> bool {
        self.asked.store(batch.wrapping_add(1), SeqCst);
        if batch == 0 && !waits_for(&self.sealed, self.number) {
            self.marked.store(true, SeqCst);
        }
        true
    }
}

/// Notes the batches that were sealed, and those asked for, each as a digit after those before it: batch 0 as 1.
/// Says yes at each so many-th time.
#[derive(Drop)]
struct Notes {
    sealed: AtomicU64,
    asked: AtomicU64,
    times: AtomicU64,
    yes_at: u64,
}

impl Notes {
    fn new(yes_at: u64) -> Notes {
        Notes {
            sealed: AtomicU64::new(0),
            asked: AtomicU64::new(0),
            times: AtomicU64::new(0),
            yes_at,
        }
    }
}

/// Adds a batch to a note. Only one thread writes each note.
fn note(notes: &AtomicU64, batch: u64) {
    let noted = notes.load(SeqCst).wrapping_mul(10);
    notes.store(noted.wrapping_add(batch).wrapping_add(1), SeqCst);
}

impl Gate for Notes {
    fn sealed(&self, batch: u64) {
        note(&self.sealed, batch);
    }

    fn may_commit(&self, batch: u64) -> bool {
        note(&self.asked, batch);
        let times = self.times.load(SeqCst).wrapping_add(1);
        let yes = times == self.yes_at;
        self.times.store(if yes { 0 } else { times }, SeqCst);
        yes
    }
}

/// Counts the batches that were sealed, and those that it let through, as long as each comes once and in order. It says yes
/// to those below a number.
#[derive(Drop)]
pub(super) struct Counted {
    sealed: AtomicU64,
    passed: AtomicU64,
    asked: AtomicU64,
    below: AtomicU64,
}

impl Counted {
    pub(super) fn new(below: u64) -> Counted {
        Counted {
            sealed: AtomicU64::new(0),
            passed: AtomicU64::new(0),
            asked: AtomicU64::new(0),
            below: AtomicU64::new(below),
        }
    }

    pub(super) fn wait_until_sealed(&self, batch: u64) {
        waits_for(&self.sealed, batch.wrapping_add(1));
    }

    pub(super) fn wait_until_asked(&self, batch: u64) {
        waits_for(&self.asked, batch.wrapping_add(1));
    }

    pub(super) fn let_through(&self, batch: u64) {
        self.below.store(batch.wrapping_add(1), SeqCst);
    }

    /// Returns how many batches were sealed, and how many were let through.
    pub(super) fn counts(&self) -> (u64, u64) {
        (self.sealed.load(SeqCst), self.passed.load(SeqCst))
    }
}

/// Counts the next batch; any other spoils the count. Only one thread writes each count.
fn count(counter: &AtomicU64, batch: u64) {
    let is_next = counter.load(SeqCst) == batch;
    counter.store(
        if is_next {
            batch.wrapping_add(1)
        } else {
            u64::MAX
        },
        SeqCst,
    );
}

impl Gate for Counted {
    fn sealed(&self, batch: u64) {
        count(&self.sealed, batch);
    }

    fn may_commit(&self, batch: u64) -> bool {
        self.asked.store(batch.wrapping_add(1), SeqCst);
        let passes = batch < self.below.load(SeqCst);
        if passes {
            count(&self.passed, batch);
        }
        passes
    }
}

/// A packet of accounts without events, and one of transfers.
const EMPTY: [Step; 2] = [
    Step::Packet(CREATE_ACCOUNTS, 0),
    Step::Packet(CREATE_TRANSFERS, 0),
];

#[test]
fn batcher_and_committer_overlap(rt: HostRuntime) {
    let gate = Meeting::new(2, true);
    let report = run_queued(&rt, rt.alloc(), &EMPTY, false, &[], &gate);
    check!(&rt; !gate.marked.load(SeqCst));
    let places = [OutcomeKind::Committed(0), OutcomeKind::Committed(1)];
    assert_run(&rt, report, 0, &places);
}

/// Returns the same two in turn, twenty in all.
fn twenty_in_turn() -> [Step; 20] {
    let mut steps = [EMPTY[0]; 20];
    for k in 0..20usize {
        steps[k] = EMPTY[k % 2];
    }
    steps
}

fn twenty_places() -> [OutcomeKind; 20] {
    let mut kinds = [OutcomeKind::Stopped; 20];
    for place in 0..20usize {
        kinds[place] = OutcomeKind::Committed(place as u64);
    }
    kinds
}

/// Asserts that this number of batches is sealed while batch 0 is held.
fn assert_sealed_ahead<R: Threads + Wait + Clock + Sync + Abort>(
    rt: &R,
    alloc: Global,
    number: u64,
) {
    let gate = Meeting::new(number, false);
    let report = run_queued(rt, alloc, &twenty_in_turn(), false, &[], &gate);
    check!(rt; !gate.marked.load(SeqCst));
    assert_run(rt, report, 0, &twenty_places());
}

#[test]
fn six_batches_sealed_ahead(rt: HostRuntime) {
    assert_sealed_ahead(&rt, rt.alloc(), 6);
}

/// The committer has one batch, and eight are in the ring before it.
#[test]
fn nine_batches_sealed_ahead(rt: HostRuntime) {
    assert_sealed_ahead(&rt, rt.alloc(), 9);
}

/// The gate says no to each batch for some ten milliseconds, and the ring before it has eight slots. So the batcher sleeps, and each
/// batch that the committer takes wakes it.
#[test]
fn batcher_sleeps_for_a_slot(rt: HostRuntime) {
    let gate = Notes::new(200);
    let report = run_queued(&rt, rt.alloc(), &twenty_in_turn(), false, &[], &gate);
    assert_run(&rt, report, 0, &twenty_places());
}

/// Queues two packets with a pulse between them. Asserts that the gate sees batches 0 and 1, each once and in order,
/// and is asked for them as noted.
fn assert_asked<R: Threads + Wait + Clock + Sync + Abort>(
    rt: &R,
    alloc: Global,
    yes_at: u64,
    asked: u64,
) {
    let steps = [
        Step::Packet(CREATE_ACCOUNTS, 1),
        Step::Pulse(5),
        Step::Packet(CREATE_ACCOUNTS, 2),
    ];
    let gate = Notes::new(yes_at);
    let report = run_queued(rt, alloc, &steps, false, &[], &gate);
    check!(rt; gate.sealed.load(SeqCst) == 12 && gate.asked.load(SeqCst) == asked);
    assert_run(
        rt,
        report,
        6,
        &[OutcomeKind::Committed(0), OutcomeKind::Committed(2)],
    );
}

/// Each batch is asked for once, and the pulse isn't.
#[test]
fn batches_counted_without_pulses(rt: HostRuntime) {
    assert_asked(&rt, rt.alloc(), 1, 12);
}

/// A gate that says no three times is asked a fourth time for the same batch.
#[test]
fn asked_until_it_says_yes(rt: HostRuntime) {
    assert_asked(&rt, rt.alloc(), 4, 11_112_222);
}

/// The gate sees a batch once the committer can take it.
#[test]
fn sealed_after_the_push(rt: HostRuntime) {
    let gate = Meeting::new(1, true);
    let report = run_queued(&rt, rt.alloc(), &EMPTY, false, &[], &gate);
    check!(&rt; !gate.marked.load(SeqCst));
    let places = [OutcomeKind::Committed(0), OutcomeKind::Committed(1)];
    assert_run(&rt, report, 0, &places);
}
