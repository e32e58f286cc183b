//! Giving a run up: whom it wakes, and that `serve` returns if it runs.

use super::narrow::{Sends, Trading, have_all_ended, serve_clients, start_all};
use super::opened;
use std::alloc::Global;
use std::process::Abort;
use std::sync::Wait;
use std::sync::atomic::AtomicU64;
use std::sync::atomic::Ordering::SeqCst;
use std::thread;
use std::thread::Threads;
use std::time::Clock;
use tb_drive::Stop;
use tb_pipe::{Gate, Opened};
use tb_test_makers::check;

/// How often a thread yields before it gives a run up, while others go to sleep.
pub(super) const SLEEP_TURNS: u32 = 10_000;

/// The most packets that a client queues if nobody gives the run up.
const MOST_PACKETS: u64 = 100_000;

/// Opens a pipeline that nobody serves, so that no reply comes, and gives its run up while its clients sleep. Each of them is woken
/// without a reply. The queue has slots for the packets and the ends of sixteen.
fn open_and_wake<R: Threads + Wait + Clock + Sync + Abort>(rt: &R, alloc: Global, clients: u32) {
    let opened = opened(alloc, 4, 32, 1, clients).expect(rt, "it is opened");
    let stop = Stop::of(alloc, &opened.submitters).expect(rt, "memory");
    let Opened {
        pipeline,
        submitters,
        control,
    } = opened;
    check!(rt; submitters.len() == clients as usize);
    let waiting = Trading {
        sends: Sends::InVain,
        packets: 1,
        pulses: None,
        stops_after: None,
    };
    let stop = &stop;
    thread::scope(thread::scope_env(), rt, |scope| {
        let sleepers = start_all(scope, rt, alloc, submitters, stop, waiting);
        ask_later(stop, SLEEP_TURNS);
        check!(rt; have_all_ended(rt, sleepers));
    });
    drop(pipeline);
    drop(control);
}

/// Those that are woken first look whether the run is given up while the last ones still sleep.
#[test]
fn each_of_one_three_and_sixteen_is_woken(rt: HostRuntime) {
    for clients in [1u32, 3, 16, 16, 16] {
        open_and_wake(&rt, rt.alloc(), clients);
    }
}

/// Lets no batch through until the run is given up, and then says no some times more. With nothing left it lets all through.
#[derive(Drop)]
pub(super) struct LateGate<'s> {
    stop: &'s Stop,
    left: AtomicU64,
}

impl<'s> LateGate<'s> {
    /// Returns a gate that says no this often once the run is given up.
    pub(super) fn new(stop: &'s Stop, refusals: u64) -> LateGate<'s> {
        LateGate {
            stop,
            left: AtomicU64::new(refusals),
        }
    }
}

impl<'s> Gate for LateGate<'s> {
    fn sealed(&self, _batch: u64) {}

    fn may_commit(&self, _batch: u64) -> bool {
        let left = self.left.load(SeqCst);
        if left > 0 && self.stop.is_given_up() {
            self.left.store(left - 1, SeqCst);
        }
        left == 0
    }
}

/// Yields this often.
pub(super) fn give_way(turns: u32) {
    for _ in 0..turns {
        thread::yield_now();
    }
}

/// Gives a run up after some turns.
pub(super) fn ask_later(stop: &Stop, turns: u32) {
    give_way(turns);
    stop.give_up();
}

/// Serves a client that sends until the run is given up, with a gate that says no this often after that. Returns whether it was served,
/// and whether the client queued its end.
fn serve_and_stop<R: Threads + Wait + Clock + Sync + Abort>(
    rt: &R,
    alloc: Global,
    sends: Sends,
    credit: u32,
    turns: u32,
    refusals: u64,
) -> (bool, bool) {
    let opened = opened(alloc, 4, 1, credit, 1).expect(rt, "it is opened");
    let stop = Stop::of(alloc, &opened.submitters).expect(rt, "memory");
    let trading = Trading {
        sends,
        packets: MOST_PACKETS,
        pulses: None,
        stops_after: Some(turns),
    };
    let gate = LateGate::new(&stop, refusals);
    serve_clients(rt, alloc, opened, &stop, trading, &gate)
}

/// Whenever the run is given up, `serve` returns: it is served if the client queued its end, and refused if the client gave the queue
/// up before `serve` began.
#[test]
fn serve_returns_from_a_run_that_is_given_up(rt: HostRuntime) {
    for turns in [0, 1, 3, 10, 30, 100, 300, 1_000, 3_000, 10_000] {
        let came = serve_and_stop(&rt, rt.alloc(), Sends::Exchanges, 1, turns, 0);
        check!(&rt; came.0 == came.1, turns);
    }
}

/// The client finds the queue full once the run is given up, and waits, since it is served. Nothing is committed until long after that.
#[test]
fn end_waits_for_a_slot_while_serve_runs(rt: HostRuntime) {
    let came = serve_and_stop(&rt, rt.alloc(), Sends::Submits, 200, SLEEP_TURNS, 10_000);
    check!(&rt; came == (true, true));
}
