//! The group that a batcher holds.

ghost use Rattle.std.specs.Prelude.{◌≡◌, ◌<◌, ◌≤◌, ◌==◌, ◌++◌, ◌∷◌, [], length, IfOk, IfErr, OnOk, OnErr, true};
ghost use Rattle.tb_layout.specs.claim.Bounds.{batch_max};
ghost use Rattle.tb_work.specs.claim.Job.{count_of_all};
ghost use Rattle.tb_batch.specs.claim.Batch.{body_of};
ghost use Rattle.tb_work.specs.claim.Packet.{events_in};
ghost use Rattle.tb_batch.specs.claim.Grouping.{can_share, is_taken};

use crate::batch::Batch;
use crate::parts::Parts;
use crate::size::Size;
use std::alloc::Global;
use std::marker::Model;
use tb_layout::NoMemory;
use tb_work::{Job, looks_up};

/// A batch that packets may still join, seen as its jobs in order.
#[derive(Drop)]
pub(crate) struct Group {
    parts: Parts,
    shares: bool,
    events: u32,
}

impl Model for Group {
    ghost use Rattle.std.specs.Prelude.{List};
    ghost use Rattle.tb_work.specs.claim.Packet.{Numbered};
    ghost use Rattle.tb_batch.specs.claim.Batch.{IsGroupOf};

    ghost Value = { List Numbered };

    ghost view = { λ group. group.parts.jobs.items };

    ghost invariant = { λ group. IsGroupOf group.parts group.shares group.events };
}

/// Returns whether a job's packet is neither open nor a lookup.
fn can_share(job: &Job) -> bool
    ensures { result ≡ can_share (events_in job.now.packet) }
{
    !job.is_open() && !looks_up(job.packet().operation)
}

impl Group {
    /// Returns a group of one job. If others may join it, it has room for as much as the batch before had, if memory
    /// allows that. If the allocation for the job itself fails, the job is returned.
    #[inline(never)]
    pub(crate) fn alone(alloc: Global, before: Size, job: Job) -> Result<Group, (Job, NoMemory)>
        ensures group { IfOk result (λ group. group ≡ job ∷ []) }
        ensures back { IfErr result (λ refused. refused.0 ≡ job) }
    {
        let operation = job.packet().operation;
        let events = job.stub().count;
        let shares = can_share(&job);
        let mut parts = if shares {
            Parts::with_room(alloc, operation, before.max(Size::of(&job)))
        } else {
            Parts::new(alloc, operation)
        };
        if parts.reserve_for(&job, events).is_err() {
            return Err((job, NoMemory));
        }
        parts.append(job);
        Ok(Group {
            parts,
            shares,
            events,
        })
    }

    /// Returns whether a job joins the group.
    pub(crate) fn takes(&self, limit: u32, job: &Job) -> bool
        ensures { result ≡ is_taken limit self.now job.now }
    {
        if !self.shares || !can_share(job) {
            return false;
        }
        if job.packet().operation != self.parts.operation {
            return false;
        }
        self.events + job.stub().count <= limit
    }

    /// Puts a job that joins the group after its others. If memory runs out, the job comes back and the group is
    /// as before.
    pub(crate) fn join(&mut self, limit: u32, job: Job) -> Result<(), (Job, NoMemory)>
        requires limit { limit ≤ batch_max }
        requires joins { is_taken limit self.old job ≡ true }
        ensures group { OnOk result (self.new ≡ self.old ++ job ∷ []) }
        ensures same { OnErr result (self.new ≡ self.old) }
        ensures back { IfErr result (λ refused. refused.0 ≡ job) }
    {
        let events = self.events + job.stub().count;
        if self.parts.reserve_for(&job, events).is_err() {
            return Err((job, NoMemory));
        }
        self.parts.append(job);
        self.events = events;
        Ok(())
    }

    /// Returns whether it has no job, which its type rules out.
    pub(crate) fn is_empty(&self) -> bool
        ensures { result ≡ (length self.now == 0) }
    {
        self.parts.jobs.is_empty()
    }

    /// Returns how large it is.
    pub(crate) fn size(&self) -> Size
        ensures packets { result.packets ≡ length self.now }
        ensures events { result.events ≡ count_of_all self.now }
        ensures bytes { result.bytes ≡ length (body_of self.now) }
    {
        Size {
            packets: self.parts.jobs.len(),
            events: self.events,
            bytes: self.parts.body.len(),
        }
    }

    /// Returns the group as a batch, to which nothing joins any more.
    pub(crate) fn seal(self) -> Batch
        ensures batch { result ≡ self }
        ensures some { 0 < length self }
    {
        Batch::whole(self.parts)
    }

    /// Returns the group that a batch was before it was sealed. Takes no memory, and reads only the first job.
    pub(crate) fn of(batch: Batch) -> Group
        ensures { result ≡ batch }
    {
        let parts = batch.into_parts();
        // If there are others, all of them can share.
        let shares = match parts.jobs.as_slice().first() {
            Some(job) => can_share(job),
            None => false,
        };
        let events = parts.events();
        Group {
            parts,
            shares,
            events,
        }
    }
}
