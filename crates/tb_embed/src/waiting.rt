//! What waits in an engine.

ghost use Rattle.std.specs.Prelude.{◌≡◌, ◌<◌, ◌≤◌, ◌==◌, ◌&&◌, ◌||◌, ◌∷◌, [], true, false, not, Some, None, length, IfOk, IfErr, OnOk, OnErr, IfSome, IfNone, option_to_list};
ghost use Rattle.tb_work.specs.declared.item.Item.TheVariants.{Packet as PacketItem};
ghost use Rattle.tb_batch.specs.claim.Grouping.{IsGroup};
ghost use Rattle.tb_core.specs.claim.Front.{IsFront, step_of_packet, take_result, take_step, takes_memory, with_group};
ghost use Rattle.tb_embed.specs.clauses.Engine.{IsControl};
ghost use Rattle.tb_embed.specs.inside.Waiting.{IsWaiting, jobs_in, with_alone};

use arrayvec::ArrayVec;
use std::marker::Model;
use tb_batch::Batch;
use tb_core::{Front, Parcel};
use tb_layout::NoMemory;
use tb_work::{Job, Ticket};

/// A packet that nothing has joined, or a group.
#[derive(Drop)]
pub(crate) enum Held {
    Alone(Job),
    Group(Batch),
}

/// A front, and ahead of it a packet that would begin a group. Its data is copied to a batch only if another packet joins it or is behind
/// it. Seen as a front that holds the packet.
#[derive(Drop)]
pub(crate) struct Waiting {
    front: Front,
    alone: Option<Job>,
}

impl Model for Waiting {
    ghost use Rattle.tb_core.specs.claim.Front.{FrontState};
    ghost use Rattle.tb_embed.specs.inside.Waiting.{IsWaiting, with_alone};

    ghost Value = { FrontState };

    ghost view = { λ waiting. with_alone waiting.front waiting.alone };

    ghost invariant = { λ waiting. IsWaiting waiting.front waiting.alone };
}

/// Passes a ticket that is no packet, of which at most one parcel comes, through a front. Its list of parcels is what a packet does without.
#[inline(never)]
pub(crate) fn offer_control(front: &mut Front, ticket: Ticket) -> Result<Option<Parcel>, Ticket>
    requires sender { ticket.sender ≤ front.old.submitters }
    requires one { length (take_step false front.old ticket.sender ticket.item).parcels ≤ 1 }
    ensures ok { IfOk result (λ parcel. take_result front.new (option_to_list parcel)
        ≡ take_step false front.old ticket.sender ticket.item) }
    ensures err { IfErr result (λ back. (back ≡ ticket) × (front.new ≡ front.old)) }
    ensures memory { OnErr result (takes_memory front.old ticket.item ≡ true) }
    ensures front { IsFront front.old }
{
    let mut parcels = ArrayVec::new();
    let mut ticket = ticket;
    match front.try_take(&mut parcels, &mut ticket) {
        Ok(()) => Ok(parcels.pop_at(0)),
        Err(_) => Err(ticket),
    }
}

/// Has the front begin a group with the packet that is alone, if there is one. If its allocation fails, nothing has changed.
fn begin_group(front: &mut Front, alone: &mut Option<Job>) -> Result<(), NoMemory>
    requires { IsWaiting front.old alone.old }
    ensures none { OnOk result (alone.new ≡ None) }
    ensures begun { OnOk result (front.new ≡ with_alone front.old alone.old) }
    ensures same { OnErr result ((front.new ≡ front.old) × (alone.new ≡ alone.old)) }
    ensures some { OnErr result ((front.old.closed || front.old.stopped) ≡ false) }
{
    let Some(job) = alone.take() else {
        return Ok(());
    };
    match front.try_packet(job) {
        Ok(parcel) => {
            drop(parcel);
            Ok(())
        }
        Err(job) => {
            *alone = Some(job);
            Err(NoMemory)
        }
    }
}

impl Waiting {
    /// Returns a front before which no packet waits.
    pub(crate) fn over(front: Front) -> Waiting
        ensures { result ≡ front }
    {
        Waiting { front, alone: None }
    }

    /// Returns whether a packet is held.
    pub(crate) fn is_holding(&self) -> bool
        ensures { result ≡ not (length self.now.held == 0) }
    {
        self.alone.is_some() || self.front.is_holding()
    }

    /// Returns whether a packet would begin a group, as `Front::begins_group` does.
    pub(crate) fn begins_group(&self) -> bool
        ensures value { result ≡ ((length self.now.held == 0) && not (self.now.closed || self.now.stopped)) }
        ensures front { IsFront self.now }
    {
        self.alone.is_none() && self.front.begins_group()
    }

    /// Begins a group with a packet. Takes no memory.
    #[inline(always)]
    pub(crate) fn begin(&mut self, job: Job)
        requires { ((length self.old.held == 0) && not (self.old.closed || self.old.stopped)) ≡ true }
        ensures { self.new ≡ with_group self.old (job ∷ []) }
    {
        // The law that what a front holds is one group.
        let _ = self.begins_group();
        self.alone = Some(job);
    }

    /// Takes a packet, and returns the parcel that it yields, as `Front::try_packet` does.
    pub(crate) fn try_packet(&mut self, job: Job) -> Result<Option<Parcel>, Job>
        ensures ok { IfOk result (λ parcel. take_result self.new (option_to_list parcel) ≡ step_of_packet false self.old job) }
        ensures err { IfErr result (λ back. (back ≡ job) × (self.new ≡ self.old)) }
        ensures memory { OnErr result (takes_memory self.old (PacketItem job) ≡ true) }
        ensures front { IsFront self.old }
    {
        if self.begins_group() {
            self.begin(job);
            return Ok(None);
        }
        if begin_group(&mut self.front, &mut self.alone).is_err() {
            return Err(job);
        }
        self.front.try_packet(job)
    }

    /// Takes a pulse or the Close while nothing is held, and returns the parcel that it yields. Takes no memory.
    pub(crate) fn pass(&mut self, ticket: Ticket) -> Option<Parcel>
        requires sender { ticket.sender ≤ self.old.submitters }
        requires control { IsControl ticket.item }
        requires empty { self.old.held ≡ [] }
        ensures passed { take_result self.new (option_to_list result) ≡ take_step false self.old ticket.sender ticket.item }
        ensures front { IsFront self.old }
    {
        match offer_control(&mut self.front, ticket) {
            Ok(parcel) => parcel,
            Err(_) => unreachable!(),
        }
    }

    /// Returns what is held, which is then no longer held; None if nothing was. Takes no memory.
    pub(crate) fn take(&mut self) -> Option<Held>
        ensures left { self.new ≡ with_group self.old [] }
        ensures some { IfSome result (λ held. (jobs_in held ≡ self.old.held) × (0 < length self.old.held)) }
        ensures none { IfNone result (self.old.held ≡ []) }
        ensures front { IsFront self.old }
    {
        match self.alone.take() {
            Some(job) => Some(Held::Alone(job)),
            None => self.front.idle().map(Held::Group),
        }
    }

    /// Holds again what `take` gave. Takes no memory.
    pub(crate) fn hold(&mut self, held: Held)
        requires empty { self.old.held ≡ [] }
        requires goes { (self.old.closed || self.old.stopped) ≡ false }
        requires group { IsGroup self.old.limit (jobs_in held) }
        ensures { self.new ≡ with_group self.old (jobs_in held) }
    {
        match held {
            Held::Alone(job) => {
                // The law that what a front holds is one group.
                let _ = self.front.begins_group();
                self.alone = Some(job);
            }
            Held::Group(batch) => self.front.hold(batch),
        }
    }

    /// Takes out the one packet that is held, so that an earlier group is held again.
    pub(crate) fn take_back(&mut self, batch: Batch) -> Job
        requires one { length self.old.held ≡ 1 }
        requires goes { (self.old.closed || self.old.stopped) ≡ false }
        requires group { IsGroup self.old.limit batch }
        ensures job { result ∷ [] ≡ self.old.held }
        ensures held { self.new ≡ with_group self.old batch }
    {
        let job = self.release();
        self.front.hold(batch);
        job
    }

    /// Takes out the one packet that is held.
    pub(crate) fn release(&mut self) -> Job
        requires { length self.old.held ≡ 1 }
        ensures job { result ∷ [] ≡ self.old.held }
        ensures left { self.new ≡ with_group self.old [] }
    {
        match self.alone.take() {
            Some(job) => job,
            None => take_begun(&mut self.front),
        }
    }
}

/// Takes out the packet that begins a front's group.
fn take_begun(front: &mut Front) -> Job
    requires one { length front.old.held ≡ 1 }
    ensures job { result ∷ [] ≡ front.old.held }
    ensures left { front.new ≡ with_group front.old [] }
{
    let Some(begun) = front.idle() else {
        unreachable!()
    };
    let mut jobs = begun.into_parts().jobs;
    let Some(job) = jobs.pop() else {
        unreachable!()
    };
    drop(jobs);
    job
}
