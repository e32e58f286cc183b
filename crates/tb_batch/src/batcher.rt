//! The batcher.

ghost use Rattle.std.specs.Prelude.{◌≡◌, ◌<◌, ◌≤◌, ◌==◌, [], length, IfOk, IfErr, IsOk, IfSome, IfNone, true, false};
ghost use Rattle.tb_layout.specs.claim.Bounds.{batch_max};
ghost use Rattle.tb_work.specs.declared.refusal.Refusal.TheVariants.{BadLimit};

use crate::batch::Batch;
use crate::group::Group;
use crate::offered::Offered;
use crate::size::Size;
use std::alloc::Global;
use std::marker::Model;
use std::mem;
use tb_layout::BATCH_MAX;
use tb_work::{Job, Refusal};

/// Joins neighbouring packets to batches of at most `limit` events. It is seen as its limit and the jobs of the group
/// that it holds.
///
/// It also notes the size of the last sealed batch: the next group that others may join begins with room for as much.
/// So all room that it asks for stays linear in what is batched: a batch asks at most for the size of the one before,
/// for twice its own size, and for a few jobs and failures.
pub struct Batcher {
    alloc: Global,
    limit: u32,
    held: Option<Group>,
    before: Size,
}

impl Drop for Batcher {
    /// Frees everything held in one call, so that no owner's proof repeats it.
    fn drop(self) {
        let Batcher {
            alloc: _,
            limit: _,
            held,
            before: _,
        } = self;
        drop(held);
    }
}

impl Model for Batcher {
    ghost use Rattle.tb_batch.specs.clauses.BatcherState.{BatcherState, IsBatcherState, jobs_of};

    ghost Value = { BatcherState };

    ghost view = { λ batcher. record { limit = batcher.limit; jobs = jobs_of batcher.held } };

    ghost invariant = { λ batcher. IsBatcherState batcher.limit (jobs_of batcher.held) };
}

impl Batcher {
    ghost use Rattle.tb_batch.specs.claim.Grouping.{is_taken, IsGroup};
    ghost use Rattle.tb_batch.specs.clauses.Offering.{Offers, with_group};

    /// Returns a batcher that holds nothing. The limit is 1 to 8190 events, and any other is refused as `BadLimit`.
    /// Takes no memory.
    pub fn new(alloc: Global, limit: u32) -> Result<Batcher, Refusal>
        ensures held { IfOk result (λ batcher. (batcher.limit ≡ limit) × (batcher.jobs ≡ [])) }
        ensures refused { IfErr result (λ refusal. refusal ≡ BadLimit) }
        ensures lawful { 1 ≤ limit → limit ≤ batch_max → IsOk result }
        ensures bounds { IsOk result → (1 ≤ limit) × (limit ≤ batch_max) }
    {
        if limit < 1 || limit > BATCH_MAX {
            return Err(Refusal::BadLimit);
        }
        Ok(Batcher {
            alloc,
            limit,
            held: None,
            before: Size::none(),
        })
    }

    /// Returns whether a job begins a group or joins the one held.
    fn takes(&self, job: &Job) -> bool
        ensures taken { result ≡ is_taken self.now.limit self.now.jobs job.now }
        ensures lawful { IsGroup self.now.limit self.now.jobs }
    {
        match &self.held {
            None => true,
            Some(held) => held.takes(self.limit, job),
        }
    }

    /// Returns how large the group held is, or if none is, the batch before.
    fn size_of_held(&self) -> Size {
        match &self.held {
            Some(held) => held.size(),
            None => self.before,
        }
    }

    /// Puts a job that is taken into the group held, or begins a group with it.
    fn join(&mut self, job: Job) -> Offered
        requires { is_taken self.old.limit self.old.jobs job ≡ true }
        ensures { Offers self.old job result self.new }
    {
        if let Some(held) = &mut self.held {
            return match held.join(self.limit, job) {
                Ok(()) => Offered::Joined,
                Err((job, refused)) => Offered::Refused(job, refused),
            };
        }
        match Group::alone(self.alloc, self.before, job) {
            Ok(group) => {
                self.held = Some(group);
                Offered::Joined
            }
            Err((job, refused)) => Offered::Refused(job, refused),
        }
    }

    /// Seals the group held, and begins the next one with a job.
    fn replace(&mut self, job: Job) -> Offered
        requires { is_taken self.old.limit self.old.jobs job ≡ false }
        ensures { Offers self.old job result self.new }
    {
        let before = self.size_of_held();
        match Group::alone(self.alloc, before, job) {
            Ok(group) => match mem::replace(&mut self.held, Some(group)) {
                Some(held) => Offered::Sealed(held.seal()),
                None => Offered::Joined,
            },
            Err((job, refused)) => Offered::Refused(job, refused),
        }
    }

    /// Takes the next job: it joins the group held, or the group is sealed and the job begins the next one (batching of
    /// tb_client, here only of neighbours). All memory is allocated before anything changes; if that fails, the job is
    /// returned. The cost is a copy of the packet's data.
    pub fn offer(&mut self, job: Job) -> Offered
        ensures offers { Offers self.old job result self.new }
        ensures lawful { IsGroup self.old.limit self.old.jobs }
        ensures stays_lawful { IsGroup self.new.limit self.new.jobs }
    {
        if self.takes(&job) {
            self.join(job)
        } else {
            self.replace(job)
        }
    }

    /// Returns whether no group is held. Takes no memory.
    pub fn is_empty(&self) -> bool
        ensures { result ≡ (length self.now.jobs == 0) }
    {
        match &self.held {
            Some(held) => held.is_empty(),
            None => true,
        }
    }

    /// Returns the group held, which is then no longer held; None if nothing was. Takes no memory.
    pub fn seal(&mut self) -> Option<Batch>
        ensures left { self.new ≡ with_group self.old [] }
        ensures some { IfSome result (λ batch. (batch ≡ self.old.jobs) × (0 < length self.old.jobs)) }
        ensures none { IfNone result (self.old.jobs ≡ []) }
        ensures lawful { IsGroup self.old.limit self.old.jobs }
    {
        // A group is large: if none is held, none is moved.
        if self.held.is_none() {
            return None;
        }
        self.before = self.size_of_held();
        match self.held.take() {
            Some(held) => Some(held.seal()),
            None => None,
        }
    }

    /// Holds a batch again that `seal` gave, as the group that it was. Takes no memory, and the cost doesn't depend on how
    /// much is in it.
    pub fn hold(&mut self, batch: Batch)
        requires empty { self.old.jobs ≡ [] }
        requires group { IsGroup self.old.limit batch }
        ensures held { self.new ≡ with_group self.old batch }
    {
        self.held = Some(Group::of(batch));
    }
}
