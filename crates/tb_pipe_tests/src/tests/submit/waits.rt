//! Rings of each size, a thread that can't read the clock, and how long a poll sleeps.

use std::cell::Cell;
use std::io;
use std::process::Abort;
use std::sync::Wait;
use std::time::{Clock, Duration, Instant};
use tb_rings::{IdleWait, PollWait, Sleeper, ring};
use tb_test_makers::check;

/// A runtime whose clock can't be read, and counts how often that was tried.
#[derive(Drop)]
struct Clockless<'a, R: Wait> {
    _rt: &'a R,
    readings: Cell<u32>,
}

impl<R: Wait> Wait for Clockless<'_, R> {}

impl<R: Wait> Clock for Clockless<'_, R> {
    fn monotonic(&self) -> io::Result<Duration> {
        self.readings.set(self.readings.get().wrapping_add(1));
        Err(io::Error::other("no clock"))
    }

    fn since_1970(&self) -> io::Result<Duration> {
        self.monotonic()
    }
}

/// A thread yields at each look if it can't know how long a yield takes. It tries to read the clock before each.
#[test]
fn yields_at_each_look_without_a_clock(rt: HostRuntime) {
    let sleeper = Sleeper::new(rt.alloc()).expect(&rt, "memory");
    let clockless = Clockless {
        _rt: &rt,
        readings: Cell::new(0),
    };
    for _ in 0..100 {
        sleeper.wait(&clockless, &IdleWait::new());
    }
    check!(&rt; clockless.readings.get() == 100);
}

/// After 64 looks a thread that polls sleeps for 50 microseconds before each: here a thousand times.
#[test]
fn a_poll_sleeps_between_two_looks(rt: HostRuntime) {
    let poll = PollWait::new();
    let before = Instant::now(&rt).ok().expect(&rt, "a clock");
    for _ in 0..1_064 {
        poll.wait(&rt);
    }
    let elapsed = before.elapsed(&rt).ok().expect(&rt, "a clock");
    check!(&rt; elapsed >= Duration::from_millis(40));
}

/// A ring without a slot is full and empty. Any other is full after as many values as it has slots.
#[test]
fn rings_of_each_number_of_slots(rt: HostRuntime) {
    for slots in 0..300usize {
        let (mut outlet, mut inlet) = ring::<usize>(rt.alloc(), slots).expect(&rt, "memory");
        for value in 0..slots {
            check!(&rt; outlet.give(value) == Ok(()));
        }
        check!(&rt; outlet.give(slots) == Err(slots));
        for value in 0..slots {
            check!(&rt; inlet.take() == Some(value));
        }
        check!(&rt; inlet.take().is_none());
    }
}
