//! At which waits a thread yields, by a scripted clock. A thread reads the clock once before a yield and once after it.

use std::alloc::Global;
use std::cell::Cell;
use std::io;
use std::process::Abort;
use std::sync::Wait;
use std::time::{Clock, Duration};
use tb_rings::{IdleWait, PollWait, Sleeper};
use tb_test_makers::check;

/// The microseconds of a yield that takes long by one, and of one that doesn't.
const LONG: u64 = 1_001;

const SHORT: u64 = 1_000;

/// A runtime whose clock goes on by the same time at each reading.
#[derive(Drop)]
struct Scripted<'a, R: Wait> {
    _rt: &'a R,
    microseconds: Cell<u64>,
    readings: Cell<u32>,
}

impl<'a, R: Wait> Scripted<'a, R> {
    fn new(rt: &'a R) -> Scripted<'a, R> {
        Scripted {
            _rt: rt,
            microseconds: Cell::new(0),
            readings: Cell::new(0),
        }
    }
}

impl<R: Wait> Wait for Scripted<'_, R> {}

impl<R: Wait> Clock for Scripted<'_, R> {
    fn monotonic(&self) -> io::Result<Duration> {
        let readings = self.readings.get().wrapping_add(1);
        self.readings.set(readings);
        let now = u64::from(readings).wrapping_mul(self.microseconds.get());
        Ok(Duration::from_micros(now))
    }

    fn since_1970(&self) -> io::Result<Duration> {
        self.monotonic()
    }
}

/// What waits.
#[derive(Drop)]
enum Waiter {
    Sleeper(Sleeper, IdleWait),
    Poll(PollWait),
}

impl Waiter {
    /// Begins a wait.
    fn reset(&self) {
        match self {
            Waiter::Sleeper(_, idle) => idle.reset(),
            Waiter::Poll(poll) => poll.reset(),
        }
    }

    /// Waits until the next look.
    fn wait<R: Wait>(&self, rt: &Scripted<R>) {
        match self {
            Waiter::Sleeper(sleeper, idle) => sleeper.wait(rt, idle),
            Waiter::Poll(poll) => poll.wait(rt),
        }
    }

    /// Returns how many yields there are in a wait of this number of looks.
    fn yields<R: Wait>(&self, rt: &Scripted<R>, looks: u32) -> u32 {
        self.reset();
        let before = rt.readings.get();
        for _ in 0..looks {
            self.wait(rt);
        }
        rt.readings.get().wrapping_sub(before) / 2
    }
}

/// A number of waits without a yield, and then a wait: the microseconds of a yield in it, and the number of its yields.
type Row = (u32, u64, u32);

/// Waits of one look each.
const ONE_LOOK: [Row; 17] = [
    (0, LONG, 1),
    (0, LONG, 1),
    (100, LONG, 1),
    (200, LONG, 1),
    (400, LONG, 1),
    (800, LONG, 1),
    (1_600, LONG, 1),
    (3_200, LONG, 1),
    (6_400, LONG, 1),
    (12_800, LONG, 1),
    (12_800, SHORT, 1),
    (0, LONG, 1),
    (0, SHORT, 1),
    (0, LONG, 1),
    (0, LONG, 1),
    (100, LONG, 1),
    (200, SHORT, 1),
];

/// Waits of 60 looks: there is no yield in what is left of a wait either.
const MANY_LOOKS: [Row; 7] = [
    (0, SHORT, 60),
    (0, LONG, 2),
    (100, LONG, 1),
    (200, SHORT, 60),
    (0, SHORT, 60),
    (0, LONG, 2),
    (100, SHORT, 60),
];

/// Waits of one look each for what no thread wakes it for: the first long yield counts as the second.
const POLLS: [Row; 6] = [
    (0, LONG, 1),
    (100, LONG, 1),
    (200, SHORT, 1),
    (0, LONG, 1),
    (0, LONG, 1),
    (100, SHORT, 1),
];

/// Ends the test unless the waits of a row yield as it says.
fn check_row<R: Abort + Wait>(
    rt: &R,
    scripted: &Scripted<R>,
    waiter: &Waiter,
    looks: u32,
    row: Row,
) {
    let (without, microseconds, yields) = row;
    scripted.microseconds.set(microseconds);
    for _ in 0..without {
        check!(rt; waiter.yields(scripted, looks) == 0);
    }
    check!(rt; waiter.yields(scripted, looks) == yields);
}

/// Ends the test unless the waits of all rows yield as these say.
fn check_rows<R: Abort + Wait>(rt: &R, waiter: &Waiter, looks: u32, rows: &[Row]) {
    let scripted = Scripted::new(rt);
    for row in rows {
        check_row(rt, &scripted, waiter, looks, *row);
    }
}

fn sleeper(rt: &(impl Abort + Alloc<A = Global>)) -> Waiter {
    Waiter::Sleeper(
        Sleeper::new(rt.alloc()).expect(rt, "memory"),
        IdleWait::new(),
    )
}

#[test]
fn yields_seldom_after_long_yields(rt: HostRuntime) {
    check_rows(&rt, &sleeper(&rt), 1, &ONE_LOOK);
}

#[test]
fn yields_not_in_what_is_left_of_a_wait(rt: HostRuntime) {
    check_rows(&rt, &sleeper(&rt), 60, &MANY_LOOKS);
}

#[test]
fn polls_with_few_yields_after_one_long_yield(rt: HostRuntime) {
    check_rows(&rt, &Waiter::Poll(PollWait::new()), 1, &POLLS);
}
