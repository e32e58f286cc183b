//! More batches than 16 bits count, each of which the gate sees once and in order, and is asked for before it is applied.

use super::beside::{end_both, serve_beside};
use super::driven::wait_for_reply;
use super::gates::Counted;
use super::queue;
use std::alloc::Global;
use std::process::Abort;
use std::sync::Wait;
use std::sync::atomic::AtomicBool;
use std::sync::atomic::Ordering::SeqCst;
use std::thread::Threads;
use std::time::Clock;
use tb_core::Ledger;
use tb_figures::{CountedLedger, Figures};
use tb_layout::{CREATE_ACCOUNTS, CREATE_TRANSFERS};
use tb_pipe::Gate;
use tb_submit::{Control, Submitter};
use tb_test_makers::{OutcomeKind, check};

/// How many packets there are. No two neighbours are of one operation, so each is a batch.
const PACKETS: u64 = 70_000;

/// How many of them are in flight at most.
const CREDIT: u64 = 64;

/// Counts as `Counted` does. Notes whether it is ever asked for a batch when more or fewer are applied than were sealed before that batch.
#[derive(Drop)]
struct InTurn {
    counted: Counted,
    figures: Figures,
    is_late: AtomicBool,
}

impl Gate for InTurn {
    fn sealed(&self, batch: u64) {
        self.counted.sealed(batch);
    }

    fn may_commit(&self, batch: u64) -> bool {
        if self.figures.read().batches != batch {
            self.is_late.store(true, SeqCst);
        }
        self.counted.may_commit(batch)
    }
}

/// Waits for the reply to the packet of a number, which is its place.
fn assert_reply(rt: &impl Abort, submitter: &mut Submitter, number: u64) {
    check!(rt; wait_for_reply(submitter) == Some(OutcomeKind::Committed(number)));
}

/// Queues the packet of a number, which has no events, once there is credit for it.
fn send_one<R: Wait + Clock + Abort>(
    rt: &R,
    alloc: Global,
    submitter: &mut Submitter,
    number: u64,
) {
    if number >= CREDIT {
        assert_reply(rt, submitter, number - CREDIT);
    }
    let operation = if number % 2 == 0 {
        CREATE_ACCOUNTS
    } else {
        CREATE_TRANSFERS
    };
    queue(rt, alloc, submitter, operation, 0);
}

/// Queues all packets, waits for the reply to each, and ends.
fn send_all<R: Wait + Clock + Abort>(
    rt: &R,
    alloc: Global,
    submitter: Submitter,
    control: Control,
) {
    let mut submitter = submitter;
    for number in 0..PACKETS {
        send_one(rt, alloc, &mut submitter, number);
    }
    for number in PACKETS - CREDIT..PACKETS {
        assert_reply(rt, &mut submitter, number);
    }
    end_both(rt, submitter, control);
}

/// Serves all packets. Returns how many batches were sealed and let through, each once and in order.
fn serve_all<R: Threads + Wait + Clock + Sync + Abort>(rt: &R, alloc: Global) -> (u64, u64) {
    let figures = Figures::new(alloc, 1, CREDIT as u32).ok();
    let figures = figures.expect(rt, "memory");
    let another = figures.clone().ok().expect(rt, "another owner");
    let gate = InTurn {
        counted: Counted::new(u64::MAX),
        figures,
        is_late: AtomicBool::new(false),
    };
    let in_turn = &gate;
    let ledger = CountedLedger::over(Ledger::new(alloc, 0), another);
    let send = move |submitter, control| send_all(rt, alloc, submitter, control);
    serve_beside(rt, rt, alloc, (128, CREDIT as u32), ledger, in_turn, send);
    check!(rt; !gate.is_late.load(SeqCst));
    gate.counted.counts()
}

#[test]
fn seventy_thousand_batches_pass_the_gate(rt: HostRuntime) {
    check!(&rt; serve_all(&rt, rt.alloc()) == (PACKETS, PACKETS));
}
