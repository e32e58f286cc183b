//! Stages that have nothing to do: each looks 64 times, and then sleeps. A clock that stands still counts its readings: a thread reads
//! it twice for each look, and never while it sleeps.

use super::beside::{end_both, serve_beside};
use super::gates::Counted;
use super::joined::waiting_ledger;
use super::queue;
use std::alloc::Global;
use std::process::Abort;
use std::sync::Wait;
use std::sync::atomic::AtomicU64;
use std::sync::atomic::Ordering::SeqCst;
use std::thread::Threads;
use std::time::{Clock, Duration};
use std::{io, thread};
use tb_layout::CREATE_ACCOUNTS;
use tb_submit::{Control, Submitter};
use tb_test_makers::check;

/// How many milliseconds a test waits for the readings that are to come.
const MOST_MILLISECONDS: u32 = 20_000;

/// How often the clock was read once each stage sleeps, by the number of packets that were queued. At first each of three stages has
/// looked 64 times. The first packet wakes all three. The second is held by the gate, which the committer polls. The next eight fill
/// the ring before it, and for the last one the batcher waits for a slot.
const READINGS: [u64; 12] = [
    384, 768, 1_024, 1_152, 1_280, 1_408, 1_536, 1_664, 1_792, 1_920, 2_048, 2_176,
];

/// The same over a ledger whose commits wait. With the fourth packet the batcher holds a group, and it waits for the committer. So no later
/// packet wakes it.
const READINGS_IF_HELD: [u64; 12] = [
    384, 768, 1_024, 1_152, 1_280, 1_280, 1_280, 1_280, 1_280, 1_280, 1_280, 1_280,
];

/// A runtime whose clock stands still and counts its readings.
#[derive(Drop)]
struct Counting<'a, R: Wait> {
    _rt: &'a R,
    readings: AtomicU64,
}

impl<R: Wait> Wait for Counting<'_, R> {}

impl<R: Threads + Wait> Threads for Counting<'_, R> {}

impl<R: Wait> Clock for Counting<'_, R> {
    fn monotonic(&self) -> io::Result<Duration> {
        self.readings.fetch_add(1, SeqCst);
        Ok(Duration::from_millis(0))
    }

    fn since_1970(&self) -> io::Result<Duration> {
        self.monotonic()
    }
}

/// Waits until the clock was read this often, and asserts that it isn't read any more.
fn assert_readings(rt: &(impl Abort + Clock), readings: &AtomicU64, wanted: u64) {
    for _ in 0..MOST_MILLISECONDS {
        if readings.load(SeqCst) >= wanted {
            break;
        }
        thread::sleep(rt, Duration::from_millis(1));
    }
    thread::sleep(rt, Duration::from_millis(10));
    check!(rt; readings.load(SeqCst) == wanted);
}

/// Queues packets, each once all stages sleep. The committer has the second batch by then: what is sealed ahead of it is in the ring of
/// eight slots, and a batch that has no slot isn't sealed. Then lets them through, and ends.
fn send_eleven<R: Wait + Clock + Abort>(
    rt: &R,
    alloc: Global,
    submitter: Submitter,
    control: Control,
    gate: &Counted,
    readings: &AtomicU64,
    waits: bool,
) {
    let mut submitter = submitter;
    let (all_wanted, sealed) = if waits {
        (&READINGS_IF_HELD, 3)
    } else {
        (&READINGS, 10)
    };
    assert_readings(rt, readings, all_wanted[0]);
    for wanted in &all_wanted[1..] {
        queue(rt, alloc, &mut submitter, CREATE_ACCOUNTS, 0);
        assert_readings(rt, readings, *wanted);
    }
    check!(rt; gate.counts() == (sealed, 1));
    gate.let_through(11);
    end_both(rt, submitter, control);
}

/// Serves eleven packets over a ledger that waits or doesn't. The gate lets the first through at once. Returns how many batches were
/// sealed and let through.
fn serve_eleven<R: Threads + Wait + Clock + Sync + Abort>(
    rt: &R,
    alloc: Global,
    waits: bool,
) -> (u64, u64) {
    let counting = Counting {
        _rt: rt,
        readings: AtomicU64::new(0),
    };
    let gate = Counted::new(1);
    let (counting, held) = (&counting, &gate);
    let readings = &counting.readings;
    let ledger = waiting_ledger(alloc, waits);
    let send = move |submitter, control| {
        send_eleven(rt, alloc, submitter, control, held, readings, waits)
    };
    serve_beside(rt, counting, alloc, (16, 16), ledger, held, send);
    gate.counts()
}

#[test]
fn each_stage_looks_64_times_and_sleeps(rt: HostRuntime) {
    for (waits, batches) in [(false, 11), (true, 4)] {
        let counts = serve_eleven(&rt, rt.alloc(), waits);
        check!(&rt; counts == (batches, batches));
    }
}
