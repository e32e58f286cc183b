//! What is to be tried again later.

ghost use Rattle.tb_figures.specs.clauses.Retries.{IsIndexFor};

use std::alloc::{AllocError, Global};
use std::marker::Model;

/// What is to be tried again, and the moment from which it may be.
#[derive(Drop)]
pub struct Waiting<T> {
    pub(crate) moment: u64,
    pub(crate) item: T,
}

/// What is to be tried again, in the order of its moments, and for one moment in the order in which it was added. What is added comes
/// out once, and not before its moment. Moments are numbers of the caller's clock, for example nanoseconds since it began.
///
/// No call waits. A driver asks `pop_due` with what its clock says. If nothing is due, it returns `Receive` while replies are to come, or
/// sleeps until `next_moment`.
pub struct Retries<T> {
    waiting: Vec<Waiting<T>>,
    bound: usize,
}

impl<T: Drop> Drop for Retries<T> {
    /// Frees everything held in one call, so that no owner's proof repeats it.
    fn drop(self) {
        let Retries { waiting, bound: _ } = self;
        drop(waiting);
    }
}

impl<T> Model for Retries<T> {
    ghost use Rattle.tb_figures.specs.clauses.Retries.{AreWaiting, RetriesState};

    ghost Value = { RetriesState T };

    ghost view = { λ retries. record { waiting = retries.waiting.items; bound = retries.bound } };

    ghost invariant = { λ retries. AreWaiting retries.waiting retries.bound };
}

/// Returns the index before which one of this moment is added: after those of the same moment.
fn index_for<T>(waiting: &[Waiting<T>], moment: u64) -> usize
    ensures { IsIndexFor waiting.now moment result }
{
    for (index, one) in waiting.iter().enumerate() {
        if moment < one.moment {
            return index;
        }
    }
    waiting.len()
}

impl<T: Drop> Retries<T> {
    ghost use Rattle.std.specs.Prelude.{◌≡◌, ◌<◌, ◌≤◌, [], length, IfOk, IfErr, IfSome, OnOk, OnErr};
    ghost use Rattle.tb_figures.specs.clauses.Retries.{AreFrom, due, inserted, next_moment, waiting_one, without_due};

    /// Returns an empty queue for at most `bound` items. Allocates all that it needs.
    ///
    /// # Errors
    ///
    /// `AllocError`, if memory runs out.
    pub fn with_bound(alloc: Global, bound: usize) -> Result<Retries<T>, AllocError>
        ensures { IfOk result (λ retries. (retries.waiting ≡ []) × (retries.bound ≡ bound)) }
    {
        Ok(Retries {
            waiting: Vec::with_capacity(alloc, bound)?,
            bound,
        })
    }

    /// Adds an item that may be tried again from a moment on. If the queue is full, the item comes back. Moves those of later moments.
    pub fn add(&mut self, moment: u64, item: T) -> Result<(), T>
        ensures ok { OnOk result (self.new.waiting ≡ inserted (waiting_one moment item) self.old.waiting) }
        ensures room { OnOk result (length self.old.waiting < self.old.bound) }
        ensures back { IfErr result (λ back. back ≡ item) }
        ensures same { OnErr result (self.new.waiting ≡ self.old.waiting) }
        ensures full { OnErr result (self.old.bound ≤ length self.old.waiting) }
        ensures bound { self.new.bound ≡ self.old.bound }
    {
        if self.waiting.len() >= self.bound {
            return Err(item);
        }
        let index = index_for(&self.waiting, moment);
        match self.waiting.insert(index, Waiting { moment, item }) {
            Ok(()) => Ok(()),
            Err(refused) => Err(refused.value.item),
        }
    }

    /// Removes the item of the earliest moment and returns it, if that moment has come. Moves the others.
    pub fn pop_due(&mut self, now: u64) -> Option<T>
        ensures due { result ≡ due now self.old.waiting }
        ensures rest { self.new.waiting ≡ without_due now self.old.waiting }
        ensures bound { self.new.bound ≡ self.old.bound }
    {
        match self.next_moment() {
            Some(moment) if moment <= now => Some(self.waiting.remove(0).item),
            _ => None,
        }
    }

    /// Returns the earliest moment, if there is an item.
    pub fn next_moment(&self) -> Option<u64>
        ensures first { result ≡ next_moment self.now.waiting }
        ensures earliest { IfSome result (λ moment. AreFrom moment self.now.waiting) }
    {
        self.waiting.first().map(|one| one.moment)
    }

    /// Returns how many items wait.
    pub fn len(&self) -> usize
        ensures { result ≡ length self.now.waiting }
    {
        self.waiting.len()
    }
}
