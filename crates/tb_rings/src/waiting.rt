//! A thread that has nothing to do sleeps until another wakes it.

ghost use Rattle.std.specs.Prelude.{◌<◌, ◌≤◌, ◌-◌, ◌*◌, ◌^◌, ◌↔◌, IsTrue, min};

use crossbeam_utils::sync::{Parker, Unparker};
use std::alloc::Global;
use std::cell::Cell;
use std::sync::Wait;
use std::time::{Clock, Duration, Instant};
use std::{hint, io, thread};
use tb_layout::NoMemory;

/// How many times a thread looks again before it sleeps. With a yield between two looks that takes some 30 microseconds, about what it
/// takes to go to sleep and be woken.
const LOOKS: u32 = 64;

/// How many microseconds a yield takes at most if the processor goes to a thread of the same pipeline. Another program keeps it for its
/// time slice, some milliseconds.
const YIELD_MICROSECONDS: u64 = 1_000;

/// For how many waits a thread doesn't yield after two yields in a row took longer. Each time that the next yield takes as long, it is for
/// twice as many.
const FIRST_WAITS_WITHOUT_YIELDS: u32 = 100;

/// How often that is doubled, to 12,800 waits. In a pipeline with work to do they take less than a second.
const MOST_DOUBLINGS: u32 = 7;

/// How many microseconds a thread sleeps between two looks at what nobody wakes it for: a look takes some two of processor time.
const POLL_MICROSECONDS: u64 = 50;

/// How a thread pauses between two looks. It yields, since what it waits for is the work of another thread, which may need this processor.
/// If other programs want it too, a yield costs a time slice. Then the thread keeps the processor for a while as it looks, and soon
/// sleeps: a thread that is woken gets a processor sooner than one that yielded. Now and then it yields again, to see whether that pays.
#[derive(Drop)]
struct Pausing {
    /// How many yields in a row took long.
    long_yields: Cell<u32>,
    /// How many waits began since the last yield.
    waits: Cell<u32>,
}

/// Returns whether a thread yields after this number of long yields in a row and, since the last, this number of begun waits.
fn may_yield(long_yields: u32, waits: u32) -> bool
    ensures few { long_yields < 2 → IsTrue result }
    ensures many { 2 ≤ long_yields → IsTrue result ↔ (100 * 2 ^ min (long_yields - 2) 7 < waits) }
{
    if long_yields < 2 {
        return true;
    }
    let doublings = (long_yields - 2).min(MOST_DOUBLINGS);
    waits > FIRST_WAITS_WITHOUT_YIELDS * 2u32.pow(doublings)
}

impl Pausing {
    /// Returns the state of a thread, after this number of yields took long.
    fn new(long_yields: u32) -> Pausing {
        Pausing {
            long_yields: Cell::new(long_yields),
            waits: Cell::new(0),
        }
    }

    /// Begins a wait.
    fn begin(&self) {
        self.waits.set(self.waits.get().saturating_add(1));
    }

    /// Notes whether a yield took long.
    fn note(&self, is_long: bool) {
        let long_yields = if is_long {
            self.long_yields.get().saturating_add(1)
        } else {
            0
        };
        self.long_yields.set(long_yields);
        self.waits.set(0);
    }

    /// Yields, or pauses for some nanoseconds.
    fn pause<R: Clock>(&self, rt: &R) {
        if !may_yield(self.long_yields.get(), self.waits.get()) {
            hint::spin_loop();
            return;
        }
        let before = Instant::now(rt);
        thread::yield_now();
        self.note(took_long(rt, before));
    }
}

/// Returns whether more than `YIELD_MICROSECONDS` went by since a moment. False if the clock can't be read.
fn took_long<R: Clock>(rt: &R, before: io::Result<Instant>) -> bool {
    let Ok(before) = before else {
        return false;
    };
    let Ok(elapsed) = before.elapsed(rt) else {
        return false;
    };
    elapsed > Duration::from_micros(YIELD_MICROSECONDS)
}

/// How long a thread has had nothing to do. It looks again a number of times, and then sleeps.
#[derive(Drop)]
pub struct IdleWait {
    looks: Cell<u32>,
}

impl IdleWait {
    /// Returns the state after something was done. Takes no memory.
    pub fn new() -> IdleWait {
        IdleWait {
            looks: Cell::new(0),
        }
    }

    /// Begins again, since there was something to do.
    pub fn reset(&self) {
        self.looks.set(0);
    }

    /// Pauses until the next look. False if it has looked often enough.
    fn pause<R: Clock>(&self, rt: &R, pausing: &Pausing) -> bool {
        let looks = self.looks.get();
        if looks >= LOOKS {
            return false;
        }
        if looks == 0 {
            pausing.begin();
        }
        self.looks.set(looks + 1);
        pausing.pause(rt);
        true
    }
}

/// Waits for what no thread wakes it for, as a slot of a queue or another's leave: it yields first, and then sleeps for some 50
/// microseconds between two looks. The kernel may add as many.
#[derive(Drop)]
pub struct PollWait {
    idle: IdleWait,
    pausing: Pausing,
    parker: thread::Parker,
}

impl PollWait {
    /// Returns the state after something was done. Takes no memory.
    pub fn new() -> PollWait {
        PollWait {
            idle: IdleWait::new(),
            // (most are made for one wait, so that one long yield is enough)
            pausing: Pausing::new(1),
            parker: thread::Parker::new(),
        }
    }

    /// Begins again, since there was something to do.
    pub fn reset(&self) {
        self.idle.reset();
    }

    /// Yields once, or sleeps for a moment once it has yielded often enough. It doesn't yield while yields take long, as on a machine
    /// whose processors are all wanted by other programs.
    pub fn wait<R: Wait + Clock>(&self, rt: &R) {
        if !self.idle.pause(rt, &self.pausing) {
            self.parker
                .park_timeout(rt, Duration::from_micros(POLL_MICROSECONDS));
        }
    }
}

/// What one thread waits with.
pub struct Sleeper {
    parker: Parker,
    pausing: Pausing,
}

impl Drop for Sleeper {
    /// Frees everything held in one call, so that no owner's proof repeats it.
    fn drop(self) {
        let Sleeper { parker, pausing: _ } = self;
        drop(parker);
    }
}

/// Wakes the thread that waits with its sleeper.
pub struct Waker {
    unparker: Unparker,
}

impl Drop for Waker {
    /// Frees everything held in one call, so that no owner's proof repeats it.
    fn drop(self) {
        let Waker { unparker } = self;
        drop(unparker);
    }
}

impl Sleeper {
    /// Allocates a few words; no other call of it does.
    pub fn new(alloc: Global) -> Result<Sleeper, NoMemory> {
        Ok(Sleeper {
            parker: Parker::new(alloc)?,
            pausing: Pausing::new(0),
        })
    }

    /// Returns a waker of this sleeper. All its wakers do the same. Allocates nothing; an error means that there are
    /// 2^63 of them.
    pub fn waker(&self) -> Result<Waker, NoMemory> {
        Ok(Waker {
            unparker: self.parker.unparker().clone()?,
        })
    }

    /// Yields once, or sleeps until a waker is used, once it has yielded often enough. It doesn't yield while yields take long, as on a
    /// machine whose processors are all wanted by other programs. It may return early, so the caller looks again at what it waits for.
    ///
    /// Tested, not proved: a waker that was used since the last sleep keeps the next from starting. What was changed before
    /// the waker was used is then seen.
    pub fn wait<R: Wait + Clock>(&self, rt: &R, idle: &IdleWait) {
        if !idle.pause(rt, &self.pausing) {
            self.parker.park(rt);
        }
    }
}

impl Waker {
    /// Wakes the thread if it sleeps, or keeps its next sleep from starting. Costs one atomic exchange, and a system call
    /// if the thread sleeps.
    pub fn wake(&self) {
        self.unparker.unpark();
    }
}
