//! A ring from one thread to one other, over `rtrb`.
//!
//! `ring` allocates it; no other call allocates, and only `Inlet::wait` and `Outlet::wait` wait. What was taken is a prefix of what
//! was given (`Outlet::give`, `Inlet::take`). With both ends in one thread, `Inlet::lying` counts what is in the ring, and the next
//! takes return it. A value is returned to its giver only if no slot was seen to be free (`none_free`, `room`).
//!
//! Each end has a `Sleeper`. The taker waits for a value, and each `give` wakes it; the giver waits for a slot, and each `take` wakes
//! it. Whoever waits for something else polls (`PollWait`). No clause speaks of waiting: `no_wake_up_is_lost` and `waking_ends` are laws of a model of it (`specs/clauses/Waking.antt`).
//!
//! `ring_of_two` in tb_pipe_tests is an example that the gate compiles.
#![tactic(auto)]

mod laws;
mod waiting;

ghost use Rattle.std.specs.Prelude.{◌≡◌, ◌==◌, ◌<◌, ◌≤◌, ◌+◌, ◌↔◌, [], ◌∷◌, ◌++◌, length, IsTrue, OnOk, IfOk, IfErr, IsOk, IfSome, IfNone, IsSomeAnd};
ghost use Rattle.tb_rings.specs.clauses.Ends.{given, taken, lies, slots, free, IsRing, SameOutlet, SameInlet};

pub use laws::{no_wake_up_is_lost, waking_ends};
use rtrb::{Consumer, Producer, RingBuffer};
use std::alloc::Global;
use std::sync::Wait;
use std::time::Clock;
use tb_layout::NoMemory;
pub use waiting::{IdleWait, PollWait, Sleeper, Waker};

/// The end that gives.
pub struct Outlet<T> {
    producer: Producer<T>,
    waker: Waker,
    sleeper: Sleeper,
}

impl<T: Drop> Drop for Outlet<T> {
    /// Frees everything held in one call, so that no owner's proof repeats it.
    fn drop(self) {
        let Outlet {
            producer,
            waker,
            sleeper,
        } = self;
        drop(producer);
        drop(waker);
        drop(sleeper);
    }
}

/// The end that takes.
pub struct Inlet<T> {
    consumer: Consumer<T>,
    sleeper: Sleeper,
    waker: Waker,
}

impl<T: Drop> Drop for Inlet<T> {
    /// Frees everything held in one call, so that no owner's proof repeats it.
    fn drop(self) {
        let Inlet {
            consumer,
            sleeper,
            waker,
        } = self;
        drop(consumer);
        drop(sleeper);
        drop(waker);
    }
}

/// Returns both ends of a new, empty ring with this number of slots. With no slot it is always full. Its slots take
/// memory here, and no call takes any later.
pub fn ring<T: Drop>(alloc: Global, capacity: usize) -> Result<(Outlet<T>, Inlet<T>), NoMemory>
    ensures pair { IfOk result (λ ends. IsRing ends.0 ends.1) }
    ensures slots { IfOk result (λ ends. slots ends.0 ≡ capacity) }
    ensures free { IfOk result (λ ends. free ends.0 ≡ capacity) }
    ensures empty { IfOk result (λ ends. (given ends.0 ≡ []) × (taken ends.1 ≡ []) × (lies ends.1 ≡ [])) }
{
    let giver = Sleeper::new(alloc)?;
    let taker = Sleeper::new(alloc)?;
    let (wakes_giver, wakes_taker) = (giver.waker()?, taker.waker()?);
    let (producer, consumer) = RingBuffer::new(alloc, capacity)?;
    let outlet = Outlet {
        producer,
        waker: wakes_taker,
        sleeper: giver,
    };
    let inlet = Inlet {
        consumer,
        sleeper: taker,
        waker: wakes_giver,
    };
    Ok((outlet, inlet))
}

impl<T: Drop> Outlet<T> {
    /// Puts the value into a free slot, and wakes the thread that waits for one; if no free slot is seen, it is returned.
    #[inline(always)]
    pub fn give(&mut self, value: T) -> Result<(), T>
        ensures ring { SameOutlet self.old self.new }
        ensures ok { OnOk result (given self.new ≡ given self.old ++ value ∷ []) }
        ensures full { IfErr result (λ back. (back ≡ value) × (given self.new ≡ given self.old)) }
        ensures used { OnOk result (free self.old ≤ free self.new + 1) }
        ensures none_free { IfErr result (λ _. free self.new ≡ 0) }
        ensures room { 0 < free self.old → IsOk result }
    {
        if self.producer.is_full() {
            return Err(value);
        }
        self.producer.push_reserved(value);
        self.waker.wake();
        Ok(())
    }

    /// Returns whether the taker has taken all that was given, as far as is seen. Where it is false the taker may take the rest at any time.
    pub fn all_taken(&mut self) -> bool
        ensures ring { SameOutlet self.old self.new }
        ensures given { given self.new ≡ given self.old }
        ensures value { result ≡ (free self.new == slots self.new) }
    {
        self.producer.slots() == self.producer.capacity()
    }

    /// Waits for a slot as `Sleeper::wait` does; each value that is taken wakes it.
    pub fn wait<R: Wait + Clock>(&self, rt: &R, idle: &IdleWait) {
        self.sleeper.wait(rt, idle);
    }
}

impl<T: Drop> Inlet<T> {
    /// Takes the value that was given first, and wakes the thread that waits for a slot. None if no value is seen, and so never while
    /// some are known to be in the ring.
    #[inline(always)]
    pub fn take(&mut self) -> Option<T>
        ensures ring { SameInlet self.old self.new }
        ensures some { IfSome result (λ value. taken self.new ≡ taken self.old ++ value ∷ []) }
        ensures none { IfNone result ((taken self.new ≡ taken self.old) × (lies self.new ≡ [])) }
        ensures known { 0 < length (lies self.old) → IsSomeAnd result (λ value. lies self.old ≡ value ∷ lies self.new) }
    {
        if !self.has_value() {
            return None;
        }
        let value = self.consumer.pop_known();
        self.waker.wake();
        Some(value)
    }

    /// Returns whether a value is seen. Looks into the ring only if none is known.
    #[inline(always)]
    fn has_value(&mut self) -> bool
        ensures ring { SameInlet self.old self.new }
        ensures taken { taken self.new ≡ taken self.old }
        ensures value { IsTrue result ↔ (0 < length (lies self.new)) }
        ensures known { 0 < length (lies self.old) → lies self.new ≡ lies self.old }
    {
        self.consumer.cached_slots() > 0 || self.consumer.slots() > 0
    }

    /// Returns how many values are in the ring, with both ends in one thread: these and what was taken are all that was
    /// given.
    pub fn lying(&mut self, outlet: &mut Outlet<T>) -> usize
        requires { IsRing outlet.old self.old }
        ensures ring { SameInlet self.old self.new × SameOutlet outlet.old outlet.new }
        ensures same { (taken self.new ≡ taken self.old) × (given outlet.new ≡ given outlet.old) }
        ensures value { result ≡ length (lies self.new) }
        ensures all { taken self.new ++ lies self.new ≡ given outlet.new }
    {
        self.consumer.slots_beside(&mut outlet.producer)
    }

    /// Waits for a value as `Sleeper::wait` does; each value that is given wakes it.
    pub fn wait<R: Wait + Clock>(&self, rt: &R, idle: &IdleWait) {
        self.sleeper.wait(rt, idle);
    }

    /// Returns a waker of the thread that waits for values.
    ///
    /// # Errors
    ///
    /// `NoMemory`: there are 2^63 wakers of the thread.
    pub fn waker(&self) -> Result<Waker, NoMemory> {
        self.sleeper.waker()
    }
}
