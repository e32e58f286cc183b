//! Packets that join while a commit waits.

use super::beside::{end_both, serve_beside};
use super::driven::{HELD_TURNS, wait_for_reply};
use super::gates::Counted;
use super::queue;
use super::stops::give_way;
use std::alloc::Global;
use std::process::Abort;
use std::sync::Wait;
use std::thread::Threads;
use std::time::Clock;
use tb_core::{AnyLedger, BareLedger, Outcomes, Parcel, Seed};
use tb_layout::CREATE_ACCOUNTS;
use tb_submit::{Control, Submitter};
use tb_test_makers::{OutcomeKind, check};

/// A ledger that says whether its commits wait.
pub(super) struct WaitingLedger {
    bare: BareLedger,
    waits: bool,
}

impl Drop for WaitingLedger {
    fn drop(self) {
        let WaitingLedger { bare, waits: _ } = self;
        drop(bare);
    }
}

impl AnyLedger for WaitingLedger {
    ghost use Rattle.tb_core.specs.claim.AnyLedger.{IsWithJournal};

    ghost is = { λ ledger state. IsWithJournal ledger.bare state };

    fn stopped(&self) -> bool {
        AnyLedger::stopped(&self.bare)
    }

    fn apply(&mut self, parcel: Parcel) -> Outcomes {
        self.bare.apply(parcel)
    }

    fn waits(&self) -> bool {
        self.waits
    }
}

/// Returns a new ledger that waits or doesn't.
pub(super) fn waiting_ledger(alloc: Global, waits: bool) -> WaitingLedger {
    let bare = BareLedger::with_seed(alloc, 0, Seed::default());
    WaitingLedger { bare, waits }
}

/// Queues six packets. The gate holds the first, so the second waits for the committer, and the others may join. If they don't, the
/// batcher has sealed each before the next is queued.
fn queue_six<R: Wait + Clock + Abort>(
    rt: &R,
    alloc: Global,
    submitter: &mut Submitter,
    gate: &Counted,
    joins: bool,
) {
    for number in 0..6u8 {
        queue(rt, alloc, submitter, CREATE_ACCOUNTS, number + 1);
        if joins && number >= 2 {
            give_way(HELD_TURNS);
        } else {
            gate.wait_until_sealed(u64::from(number));
        }
        if number == 0 {
            gate.wait_until_asked(0);
        }
    }
}

/// Queues six packets, lets them through, and ends. Returns how many were committed at the next place each.
fn send_six<R: Wait + Clock + Abort>(
    rt: &R,
    alloc: Global,
    submitter: Submitter,
    control: Control,
    gate: &Counted,
    joins: bool,
) -> u64 {
    let mut submitter = submitter;
    queue_six(rt, alloc, &mut submitter, gate, joins);
    gate.let_through(6);
    let mut committed = 0;
    for _ in 0..6 {
        if wait_for_reply(&mut submitter) == Some(OutcomeKind::Committed(committed)) {
            committed = committed.wrapping_add(1);
        }
    }
    end_both(rt, submitter, control);
    committed
}

/// Serves six packets over a ledger that waits or doesn't. Returns how many are committed, in how many batches.
fn serve_six<R: Threads + Wait + Clock + Sync + Abort>(
    rt: &R,
    alloc: Global,
    waits: bool,
) -> (u64, u64) {
    let gate = Counted::new(0);
    let held = &gate;
    let ledger = waiting_ledger(alloc, waits);
    let send = move |submitter, control| send_six(rt, alloc, submitter, control, held, waits);
    let committed = serve_beside(rt, rt, alloc, (64, 64), ledger, held, send);
    let (sealed, passed) = gate.counts();
    check!(rt; sealed == passed);
    (committed, passed)
}

/// While the committer is busy the packets join, if its commits wait. Else each is sealed as the queue is empty.
#[test]
fn joined_while_a_commit_waits(rt: HostRuntime) {
    check!(&rt; serve_six(&rt, rt.alloc(), true) == (6, 3));
    check!(&rt; serve_six(&rt, rt.alloc(), false) == (6, 6));
}
