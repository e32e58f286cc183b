//! The front: tickets in, batches out.

ghost use Rattle.std.specs.Prelude.{◌≡◌, ◌<◌, ◌≤◌, ◌==◌, ◌&&◌, ◌||◌, ◌++◌, ◌∷◌, [], length, true, false, not, Some, None, IfOk, OnOk, OnErr, IfErr, IfSome, IfNone, option_to_list};

use crate::parcel::{Cause, Parcel};
use arrayvec::ArrayVec;
use std::alloc::Global;
use std::marker::Model;
use std::mem;
use tb_batch::{Batch, Batcher, Offered};
use tb_layout::{NoMemory, SUBMITTERS_LENGTH, SUBMITTERS_MAX};
use tb_work::{Item, Job, Moment, Refusal, Ticket};

/// The length of a list with an element for each sender that there may be: the submitters and the control.
const SENDERS_LENGTH: usize = SUBMITTERS_LENGTH + 1;

/// Takes the tickets of a queue in order, joins neighbouring packets to batches, and hands these on
/// with the pulses, and with the packets that come back uncommitted.
pub struct Front {
    batcher: Batcher,
    submitters: u32,
    closed: bool,
    stopped: bool,
    ended: [bool; SENDERS_LENGTH],
}

impl Drop for Front {
    /// Frees everything held in one call, so that no owner's proof repeats it.
    fn drop(self) {
        let Front {
            batcher,
            submitters: _,
            closed: _,
            stopped: _,
            ended: _,
        } = self;
        drop(batcher);
    }
}

impl Model for Front {
    ghost use Rattle.tb_core.specs.claim.Front.{FrontState, IsFront};

    ghost Value = { FrontState };

    ghost view = { λ front. record {
      limit = front.batcher.limit;
      submitters = front.submitters;
      held = front.batcher.jobs;
      closed = front.closed;
      stopped = front.stopped;
      ended = front.ended;
    } };

    ghost invariant = { λ front. IsFront (record {
      limit = front.batcher.limit;
      submitters = front.submitters;
      held = front.batcher.jobs;
      closed = front.closed;
      stopped = front.stopped;
      ended = front.ended;
    }) };
}

impl Front {
    ghost use Rattle.std.specs.Prelude.{Bool, List, replicate};
    ghost use Rattle.tb_layout.specs.claim.Bounds.{senders_max};
    ghost use Rattle.tb_batch.specs.claim.Grouping.{IsGroup};
    ghost use Rattle.tb_work.specs.declared.item.Item.{Item as ItemValue};
    ghost use Rattle.tb_work.specs.declared.item.Item.TheVariants.{Packet as PacketItem};
    ghost use Rattle.tb_work.specs.declared.item.Ticket.{Ticket as TicketValue};
    ghost use Rattle.tb_core.specs.declared.parcel.Parcel.TheVariants as parcel;
    ghost use Rattle.tb_core.specs.clauses.Taking.{HasTakenOne};
    ghost use Rattle.tb_core.specs.claim.Decision.{Decision, AreDecisions};
    ghost use Rattle.tb_core.specs.claim.Front.{FrontState, IsFront, opening_refusal, take_result, with_group, group_as_batch, all_ended, take_step, step_of_packet, step_of_pulse, step_of_end, step_of_close, decisions_in_batch, held_by, KnowsEnds, HaveAllEnded, takes_memory};

    /// Returns a front that took nothing. The limit is 1 to 8190 events, else it is refused as `BadLimit`, and then
    /// there are 1 to 16 submitters, else as `BadSubmitters`. Takes no memory.
    pub fn new(alloc: Global, limit: u32, submitters: u32) -> Result<Front, Refusal>
        ensures front { IfOk result (λ front. front ≡ record {
          limit = limit;
          submitters = submitters;
          held = [];
          closed = false;
          stopped = false;
          ended = replicate senders_max false;
        }) }
        ensures passes { IfOk result (λ front. AreDecisions [] front.closed front.stopped (held_by front)) }
        ensures ends { IfOk result (λ front. KnowsEnds [] front) }
        ensures opens { OnOk result (opening_refusal limit submitters ≡ None) }
        ensures refusal { IfErr result (λ refusal. opening_refusal limit submitters ≡ Some refusal) }
    {
        let batcher = Batcher::new(alloc, limit)?;
        if submitters < 1 || submitters > SUBMITTERS_MAX {
            drop(batcher);
            return Err(Refusal::BadSubmitters);
        }
        Ok(Front {
            batcher,
            submitters,
            closed: false,
            stopped: false,
            ended: [false; SENDERS_LENGTH],
        })
    }

    /// Returns whether an End or Close of each sender was taken.
    pub fn finished(&self) -> bool
        ensures finished { result ≡ all_ended self.now }
        ensures ends { (queue : List TicketValue) → KnowsEnds queue self.now
            → (result ≡ true → HaveAllEnded self.now.submitters queue)
            × (HaveAllEnded self.now.submitters queue → result ≡ true) }
    {
        let ended = &self.ended[..self.submitters as usize + 1];
        ended.iter().all(|ended| *ended)
    }

    /// Returns the group held, which is then no longer held; None if nothing was. Takes no memory.
    pub fn idle(&mut self) -> Option<Batch>
        ensures left { self.new ≡ with_group self.old [] }
        ensures some { IfSome result (λ batch. (batch ≡ self.old.held) × (0 < length self.old.held)) }
        ensures none { IfNone result (self.old.held ≡ []) }
        ensures lawful { IsGroup self.old.limit self.old.held }
        ensures front { IsFront self.old }
        ensures passes { (items : List ItemValue) (sent : List Decision)
            → AreDecisions items self.old.closed self.old.stopped (sent ++ held_by self.old)
            → AreDecisions items self.new.closed self.new.stopped ((sent ++ decisions_in_batch result) ++ held_by self.new) }
    {
        self.batcher.seal()
    }

    /// Returns whether a group is held. Takes no memory.
    pub fn is_holding(&self) -> bool
        ensures { result ≡ not (length self.now.held == 0) }
    {
        !self.batcher.is_empty()
    }

    /// Returns whether a packet would begin a group: nothing is held, and neither a Close was taken nor did an allocation fail.
    pub fn begins_group(&self) -> bool
        ensures value { result ≡ ((length self.now.held == 0) && not (self.now.closed || self.now.stopped)) }
        ensures front { IsFront self.now }
    {
        self.batcher.is_empty() && !self.closed && !self.stopped
    }

    /// Puts the group held into parcels.
    fn seal(&mut self, parcels: &mut ArrayVec<Parcel, 2>)
        requires { parcels.old.items ≡ [] }
        ensures left { self.new ≡ with_group self.old [] }
        ensures sealed { parcels.new.items ≡ group_as_batch self.old.held }
    {
        if let Some(batch) = self.batcher.seal() {
            parcels.push(Parcel::Batch(batch));
        }
    }

    /// Puts the group held into parcels, and then a parcel.
    fn seal_before(&mut self, parcels: &mut ArrayVec<Parcel, 2>, parcel: Parcel)
        requires { parcels.old.items ≡ [] }
        ensures left { self.new ≡ with_group self.old [] }
        ensures sealed { parcels.new.items ≡ group_as_batch self.old.held ++ parcel ∷ [] }
    {
        self.seal(parcels);
        parcels.push(parcel);
    }

    /// Takes a packet. If its allocation fails, it is returned in place of an item, and nothing else has changed.
    fn offer(
        &mut self,
        parcels: &mut ArrayVec<Parcel, 2>,
        back: &mut Item,
        job: Job,
    ) -> Result<(), NoMemory>
        requires { parcels.old.items ≡ [] }
        ensures ok { OnOk result (take_result self.new parcels.new.items ≡ step_of_packet false self.old job) }
        ensures err { OnErr result ((back.new ≡ PacketItem job) × (self.new ≡ self.old) × (parcels.new.items ≡ [])) }
        ensures memory { OnErr result (takes_memory self.old (PacketItem job) ≡ true) }
        ensures front { IsFront self.old }
    {
        match self.try_packet(job) {
            Ok(Some(parcel)) => parcels.push(parcel),
            Ok(None) => {}
            Err(job) => {
                *back = Item::Packet(job);
                return Err(NoMemory);
            }
        }
        Ok(())
    }

    /// Takes a packet whose allocation fails.
    fn refuse(&mut self, parcels: &mut ArrayVec<Parcel, 2>, job: Job)
        requires { parcels.old.items ≡ [] }
        ensures took { take_result self.new parcels.new.items ≡ step_of_packet true self.old job }
        ensures front { IsFront self.old }
    {
        if self.closed {
            parcels.push(Parcel::Return(job, Cause::Shutdown));
            return;
        }
        if !self.stopped {
            self.seal(parcels);
            self.stopped = true;
        }
        parcels.push(Parcel::Return(job, Cause::Stopped));
    }

    /// Takes a pulse, which seals the group held. After a Close or a stop it has no effect.
    fn pulse(&mut self, parcels: &mut ArrayVec<Parcel, 2>, moment: Moment)
        requires { parcels.old.items ≡ [] }
        ensures took { take_result self.new parcels.new.items ≡ step_of_pulse self.old moment }
        ensures front { IsFront self.old }
    {
        if !self.closed && !self.stopped {
            self.seal_before(parcels, Parcel::Pulse(moment));
        }
    }

    /// Takes a sender's End. Once all have ended, the group held is sealed.
    fn end(&mut self, parcels: &mut ArrayVec<Parcel, 2>, sender: u32)
        requires sender { sender ≤ self.old.submitters }
        requires empty { parcels.old.items ≡ [] }
        ensures took { take_result self.new parcels.new.items ≡ step_of_end self.old sender }
        ensures front { IsFront self.old }
    {
        self.ended[sender as usize] = true;
        if self.finished() {
            self.seal(parcels);
        }
    }

    /// Takes the Close, which seals the group held and is its sender's end.
    fn close(&mut self, parcels: &mut ArrayVec<Parcel, 2>, sender: u32)
        requires sender { sender ≤ self.old.submitters }
        requires empty { parcels.old.items ≡ [] }
        ensures took { take_result self.new parcels.new.items ≡ step_of_close self.old sender }
        ensures front { IsFront self.old }
    {
        self.ended[sender as usize] = true;
        self.seal(parcels);
        self.closed = true;
    }

    /// Takes one ticket whose allocation succeeds, and puts the parcels that it yields into the list. If the allocation
    /// fails, the ticket and everything else are as before; only a packet that would be taken is ever refused. The
    /// ticket is lent: returning a value of its size, for each ticket, would cost more than the rest.
    #[inline(always)]
    pub fn try_take(
        &mut self,
        parcels: &mut ArrayVec<Parcel, 2>,
        ticket: &mut Ticket,
    ) -> Result<(), NoMemory>
        requires sender { ticket.old.sender ≤ self.old.submitters }
        requires empty { parcels.old.items ≡ [] }
        ensures ok { OnOk result (take_result self.new parcels.new.items
            ≡ take_step false self.old ticket.old.sender ticket.old.item) }
        ensures err { OnErr result ((ticket.new ≡ ticket.old) × (self.new ≡ self.old) × (parcels.new.items ≡ [])) }
        ensures memory { OnErr result (takes_memory self.old ticket.old.item ≡ true) }
        ensures front { IsFront self.old }
    {
        let sender = ticket.sender;
        match mem::replace(&mut ticket.item, Item::End) {
            Item::Packet(job) => self.offer(parcels, &mut ticket.item, job),
            Item::Pulse(moment) => Ok(self.pulse(parcels, moment)),
            Item::End => Ok(self.end(parcels, sender)),
            Item::Close => Ok(self.close(parcels, sender)),
        }
    }

    /// Takes a submitter's packet as `try_take` does, and returns the parcel that it yields: a packet never yields two. If the allocation
    /// fails, the packet is returned, and nothing has changed. A caller with one packet at a time spares the list of parcels.
    pub fn try_packet(&mut self, job: Job) -> Result<Option<Parcel>, Job>
        ensures ok { IfOk result (λ parcel. take_result self.new (option_to_list parcel) ≡ step_of_packet false self.old job) }
        ensures err { IfErr result (λ back. (back ≡ job) × (self.new ≡ self.old)) }
        ensures memory { OnErr result (takes_memory self.old (PacketItem job) ≡ true) }
        ensures front { IsFront self.old }
    {
        if self.closed {
            return Ok(Some(Parcel::Return(job, Cause::Shutdown)));
        }
        if self.stopped {
            return Ok(Some(Parcel::Return(job, Cause::Stopped)));
        }
        match self.batcher.offer(job) {
            Offered::Joined => Ok(None),
            Offered::Sealed(batch) => Ok(Some(Parcel::Batch(batch))),
            Offered::Refused(job, _) => Err(job),
        }
    }

    /// Takes one ticket whose allocation fails, and puts the parcels that it yields into the list.
    pub fn step_refused(&mut self, parcels: &mut ArrayVec<Parcel, 2>, ticket: Ticket)
        requires sender { ticket.sender ≤ self.old.submitters }
        requires empty { parcels.old.items ≡ [] }
        ensures took { take_result self.new parcels.new.items ≡ take_step true self.old ticket.sender ticket.item }
        ensures front { IsFront self.old }
    {
        let Ticket { sender, item } = ticket;
        match item {
            Item::Packet(job) => self.refuse(parcels, job),
            Item::Pulse(moment) => self.pulse(parcels, moment),
            Item::End => self.end(parcels, sender),
            Item::Close => self.close(parcels, sender),
        }
    }

    /// Takes a packet, and puts the parcels that it yields into the list.
    #[inline(always)]
    fn packet(&mut self, parcels: &mut ArrayVec<Parcel, 2>, job: Job)
        requires { parcels.old.items ≡ [] }
        ensures took { (refused : Bool) × (take_result self.new parcels.new.items ≡ step_of_packet refused self.old job) }
        ensures front { IsFront self.old }
    {
        match self.try_packet(job) {
            Ok(Some(parcel)) => parcels.push(parcel),
            Ok(None) => {}
            Err(job) => self.refuse(parcels, job),
        }
    }

    /// Takes one ticket, and puts the parcels that it yields into the list.
    #[inline(always)]
    fn step(&mut self, parcels: &mut ArrayVec<Parcel, 2>, ticket: Ticket)
        requires sender { ticket.sender ≤ self.old.submitters }
        requires empty { parcels.old.items ≡ [] }
        ensures took { (refused : Bool) × (take_result self.new parcels.new.items
            ≡ take_step refused self.old ticket.sender ticket.item) }
        ensures front { IsFront self.old }
    {
        let Ticket { sender, item } = ticket;
        match item {
            Item::Packet(job) => self.packet(parcels, job),
            Item::Pulse(moment) => self.pulse(parcels, moment),
            Item::End => self.end(parcels, sender),
            Item::Close => self.close(parcels, sender),
        }
    }

    /// Takes one ticket as `take` does if its allocation fails. Takes no memory.
    pub fn take_as_refused(&mut self, ticket: Ticket) -> ArrayVec<Parcel, 2>
        requires { ticket.sender ≤ self.old.submitters }
        ensures { HasTakenOne true self.old ticket (take_result self.new result.items) }
    {
        let mut parcels = ArrayVec::new();
        self.step_refused(&mut parcels, ticket);
        parcels
    }

    /// Takes one ticket, of a submitter or of the control, whose number comes after theirs, and returns the parcels
    /// that it yields. A packet joins the group held, or the group is sealed and the packet begins the next one. A
    /// pulse, a Close and the End that makes all ended seal it (batching of tb_client, here only of neighbours). A
    /// packet behind a Close is returned; so is one whose allocation fails, and each after that. It takes memory only
    /// for a packet, as `Batcher::offer` does.
    pub fn take(&mut self, ticket: Ticket) -> ArrayVec<Parcel, 2>
        requires { ticket.sender ≤ self.old.submitters }
        ensures { (refused : Bool) × HasTakenOne refused self.old ticket (take_result self.new result.items) }
    {
        let mut parcels = ArrayVec::new();
        self.take_into(&mut parcels, ticket);
        parcels
    }

    /// Takes one ticket as `take` does, and puts the parcels that it yields into an empty list. With many tickets this
    /// spares moving the parcels, which are large, for each of them.
    #[inline(always)]
    pub fn take_into(&mut self, parcels: &mut ArrayVec<Parcel, 2>, ticket: Ticket)
        requires sender { ticket.sender ≤ self.old.submitters }
        requires empty { parcels.old.items ≡ [] }
        ensures { (refused : Bool) × HasTakenOne refused self.old ticket (take_result self.new parcels.new.items) }
    {
        self.step(parcels, ticket);
    }

    /// Holds a batch again that `idle` gave, as the group that it was. Takes no memory, and the cost doesn't depend on how much
    /// is in it. A front holds nothing after a Close or a stop.
    pub fn hold(&mut self, batch: Batch)
        requires empty { self.old.held ≡ [] }
        requires goes { (self.old.closed || self.old.stopped) ≡ false }
        requires group { IsGroup self.old.limit batch }
        ensures held { self.new ≡ with_group self.old batch }
    {
        self.batcher.hold(batch);
    }
}
