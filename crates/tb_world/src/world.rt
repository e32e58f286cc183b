//! The stages in one thread, in any order of their steps.

ghost use Rattle.std.specs.Prelude.{◌≡◌, ◌≤◌, ◌<◌, ◌+◌, [], true, false, length, replicate, slice_set, Some, None, IfOk, OnOk, IfErr, OnErr, is_some, IfSome, IfNone};
ghost use Rattle.tb_layout.specs.claim.Limits.{clock_max};
ghost use Rattle.tb_layout.specs.claim.Bounds.{submitters_max};
ghost use Rattle.tb_core.specs.claim.Front.{opening_refusal};
ghost use Rattle.tb_world.specs.clauses.Pushing.{newcomer};
ghost use Rattle.tb_core.specs.claim.Ledger.{new_ledger};
ghost use Rattle.tb_world.specs.clauses.EveryOrder.{HasRun, IsAtRest};
ghost use Rattle.tb_world.specs.clauses.World.{pending_of, new_world, world_over, IsMove, batch_push};
ghost use Rattle.tb_world.specs.clauses.Progress.{MayMove, left};

use crate::event::Event;
use crate::mailbox::Mailboxes;
use crate::pending_replies::PendingReplies;
use crate::sender::WorldSender;
use arrayvec::ArrayVec;
use std::alloc::Global;
use std::collections::VecDeque;
use std::marker::Model;
use std::mem;
use tb_core::{Front, Ledger, Outcomes, Parcel};
use tb_layout::NoMemory;
use tb_work::{Refusal, Reply, Ticket};

/// A queue, a front, a ledger and a cutter, with rings between them that have no bound. Each of its steps is one push
/// or one pop, and they come in any order: whoever drives the stages in one thread, or tests a schedule, takes this.
pub struct World {
    limit: u32,
    submitters: u32,
    senders: ArrayVec<WorldSender, 17>,
    queue: VecDeque<Ticket>,
    front: Front,
    parcels: ArrayVec<Parcel, 2>,
    last_sent: bool,
    batches: VecDeque<Parcel>,
    ledger: Ledger,
    outcome: Option<Outcomes>,
    outcomes: VecDeque<Outcomes>,
    pending: PendingReplies,
    mailboxes: Mailboxes,
}

impl Drop for World {
    /// Frees everything held in one call, so that no owner's proof repeats it.
    fn drop(self) {
        let World {
            limit: _,
            submitters: _,
            senders,
            queue,
            front,
            parcels,
            last_sent: _,
            batches,
            ledger,
            outcome,
            outcomes,
            pending,
            mailboxes,
        } = self;
        drop(senders);
        drop(queue);
        drop(front);
        drop(parcels);
        drop(batches);
        drop(ledger);
        drop(outcome);
        drop(outcomes);
        drop(pending);
        drop(mailboxes);
    }
}

impl Model for World {
    ghost use Rattle.tb_world.specs.clauses.World.{WorldState, IsWorld};

    ghost Value = { WorldState };

    ghost view = { λ world. record {
      limit = world.limit;
      submitters = world.submitters;
      senders = world.senders.items;
      queue = world.queue.items;
      front = world.front;
      parcels = world.parcels.items;
      last_sent = world.last_sent;
      batches = world.batches.items;
      ledger = world.ledger;
      outcome = world.outcome;
      outcomes = world.outcomes.items;
      replies = world.pending;
      mailboxes = world.mailboxes;
    } };

    ghost invariant = { λ world. IsWorld world.submitters world.front world.queue.items world.senders.items };
}

/// Returns senders that have pushed nothing: the submitters, and after them the control.
fn newcomers(submitters: u32) -> ArrayVec<WorldSender, 17>
    requires { submitters ≤ submitters_max }
    ensures { result.items ≡ replicate (submitters + 1) newcomer }
{
    let mut senders = ArrayVec::new();
    for _ in 0..submitters + 1 {
        senders.push(WorldSender {
            pushed: 0,
            ended: false,
        });
    }
    senders
}

/// Puts a sender in place of the one with its number.
fn put(senders: &mut ArrayVec<WorldSender, 17>, number: usize, sender: WorldSender)
    requires { number < length senders.old.items }
    ensures { senders.new.items ≡ slice_set senders.old.items number sender }
{
    senders[number] = sender;
}

/// Keeps the outcomes of a parcel. A pulse leaves none.
fn keep(outcome: &mut Option<Outcomes>, outcomes: Outcomes)
    ensures { outcome.new ≡ pending_of outcomes }
{
    let left = match outcomes {
        Outcomes::Nothing => None,
        outcomes => Some(outcomes),
    };
    // A drop by name is proved once, and one by assignment at each place.
    drop(mem::replace(outcome, left));
}

impl World {
    ghost use Rattle.tb_world.specs.clauses.World.{received_of, moved, takes_memory};
    ghost use Rattle.tb_world.specs.declared.event.Event.TheVariants as event;

    /// Returns a World in which nothing happened, whose clock starts at a number of nanoseconds, 0 to `CLOCK_MAX`. The
    /// limit is 1 to 8190 events, else it is refused as `BadLimit`, and then there are 1 to 16 submitters, else as
    /// `BadSubmitters`. Takes no memory.
    pub fn new(alloc: Global, clock: u64, limit: u32, submitters: u32) -> Result<World, Refusal>
        requires { clock ≤ clock_max }
        ensures world { IfOk result (λ world. world ≡ new_world clock limit submitters) }
        ensures ran { IfOk result (λ world. HasRun (new_ledger clock) limit submitters [] world) }
        ensures opens { OnOk result (opening_refusal limit submitters ≡ None) }
        ensures refusal { IfErr result (λ refusal. opening_refusal limit submitters ≡ Some refusal) }
    {
        match World::over(alloc, Ledger::new(alloc, clock), limit, submitters) {
            Ok(world) => Ok(world),
            Err((ledger, refusal)) => {
                drop(ledger);
                Err(refusal)
            }
        }
    }

    /// Returns a World over a ledger that an earlier run left and that hasn't stopped. Its clock, its accounts and its
    /// transfers go on, and places count on; packets are numbered from 0 again. Takes no memory.
    ///
    /// # Errors
    ///
    /// Those of `new`, with the ledger.
    pub fn over(
        alloc: Global,
        ledger: Ledger,
        limit: u32,
        submitters: u32,
    ) -> Result<World, (Ledger, Refusal)>
        requires { ledger.stopped ≡ false }
        ensures world { IfOk result (λ world. world ≡ world_over ledger limit submitters) }
        ensures ran { IfOk result (λ world. HasRun ledger limit submitters [] world) }
        ensures opens { OnOk result (opening_refusal limit submitters ≡ None) }
        ensures refusal { IfErr result (λ refused. opening_refusal limit submitters ≡ Some refused.1) }
        ensures back { IfErr result (λ refused. refused.0 ≡ ledger) }
    {
        // The law that a run may begin with this ledger.
        let _ = ledger.begin();
        let front = match Front::new(alloc, limit, submitters) {
            Ok(front) => front,
            Err(refusal) => return Err((ledger, refusal)),
        };
        Ok(World {
            limit,
            submitters,
            senders: newcomers(submitters),
            queue: VecDeque::new(alloc),
            front,
            parcels: ArrayVec::new(),
            last_sent: false,
            batches: VecDeque::new(alloc),
            ledger,
            outcome: None,
            outcomes: VecDeque::new(alloc),
            pending: PendingReplies::nothing(),
            mailboxes: Mailboxes::new(alloc, submitters),
        })
    }

    /// Returns the ledger of a World at rest, for another run to go on with. What the submitters received is freed. Takes no
    /// memory.
    ///
    /// # Errors
    ///
    /// The World as it was, if a ticket, a parcel, an outcome or an unread reply is left, or Last isn't cut yet.
    pub fn into_ledger(self) -> Result<Ledger, World>
        ensures ledger { IfOk result (λ ledger. ledger ≡ self.ledger) }
        ensures rest { OnOk result (IsAtRest self) }
        ensures back { IfErr result (λ back. back ≡ self) }
        ensures left { OnErr result (IsAtRest self → ⊥) }
    {
        if !self.is_at_rest() {
            return Err(self);
        }
        let World {
            limit: _,
            submitters: _,
            senders,
            queue,
            front,
            parcels,
            last_sent: _,
            batches,
            ledger,
            outcome,
            outcomes,
            pending,
            mailboxes,
        } = self;
        drop(senders);
        drop(queue);
        drop(front);
        drop(parcels);
        drop(batches);
        drop(outcome);
        drop(outcomes);
        drop(pending);
        drop(mailboxes);
        Ok(ledger)
    }

    /// Returns what a submitter received, in order; nothing if there is no such submitter.
    pub fn received(&self, sender: u32) -> &[Reply]
        ensures { result.now ≡ received_of self.now sender }
    {
        self.mailboxes.received(sender)
    }

    /// Returns the ledger, with its journal and its machine.
    pub fn ledger(&self) -> &Ledger
        ensures { result.now ≡ self.now.ledger }
    {
        &self.ledger
    }

    /// Puts a ticket at the end of the queue, if its sender may push it. If memory runs out it comes back.
    fn push(&mut self, ticket: Ticket) -> Result<bool, Ticket>
        ensures ok { IfOk result (λ moves. IsMove self.old (event.Push ticket) moves self.new) }
        ensures err { IfErr result (λ back. (is_some (moved self.old (event.Push ticket)) ≡ true) × (back ≡ ticket)
            × (self.new ≡ self.old)) }
    {
        let number = ticket.sender as usize;
        if number >= self.senders.len() {
            drop(ticket);
            return Ok(false);
        }
        let sender = self.senders[number];
        if !sender.may_push(self.limit, self.submitters, ticket.sender, &ticket.item) {
            drop(ticket);
            return Ok(false);
        }
        let next = sender.after(&ticket.item);
        match self.queue.push_back(ticket) {
            Ok(()) => {
                put(&mut self.senders, number, next);
                Ok(true)
            }
            Err(failed) => Err(failed.value),
        }
    }

    /// Takes the queue's first ticket through the front, if no parcel is left to push.
    fn pop(&mut self, refused: bool) -> Result<bool, NoMemory>
        ensures ok { IfOk result (λ moves. IsMove self.old (event.Pop refused) moves self.new) }
        ensures err { OnErr result ((is_some (moved self.old (event.Pop refused)) ≡ true) × (self.new ≡ self.old)) }
        ensures memory { OnErr result (takes_memory self.old (event.Pop refused) ≡ true) }
    {
        if !self.parcels.is_empty() {
            return Ok(false);
        }
        let Some(mut ticket) = self.queue.pop_front() else {
            return Ok(false);
        };
        if refused {
            self.front.step_refused(&mut self.parcels, ticket);
            return Ok(true);
        }
        match self.front.try_take(&mut self.parcels, &mut ticket) {
            Ok(()) => {
                drop(ticket);
                Ok(true)
            }
            Err(refused) => {
                self.queue.push_front_reserved(ticket);
                Err(refused)
            }
        }
    }

    /// Returns whether the batcher has a parcel, a group, or Last to push.
    fn has_parcel(&self) -> bool
        ensures { result ≡ is_some (batch_push self.now self.now.parcels self.now.front.held) }
    {
        !self.parcels.is_empty()
            || self.front.is_holding()
            || (self.front.finished() && !self.last_sent)
    }

    /// Puts one parcel into the batch ring: the first that is left, else the group held, else, once all have ended,
    /// Last.
    fn batch_push(&mut self) -> Result<bool, NoMemory>
        ensures ok { IfOk result (λ moves. IsMove self.old event.BatchPush moves self.new) }
        ensures err { OnErr result ((is_some (moved self.old event.BatchPush) ≡ true) × (self.new ≡ self.old)) }
    {
        if !self.has_parcel() {
            return Ok(false);
        }
        self.batches.reserve(1)?;
        if let Some(parcel) = self.parcels.pop_at(0) {
            self.batches.push_back_reserved(parcel);
            return Ok(true);
        }
        if let Some(batch) = self.front.idle() {
            self.batches.push_back_reserved(Parcel::Batch(batch));
            return Ok(true);
        }
        self.last_sent = true;
        self.batches.push_back_reserved(Parcel::Last);
        Ok(true)
    }

    /// Applies the batch ring's first parcel to the ledger, if no outcome is left to push.
    fn batch_pop(&mut self, refused: bool) -> Result<bool, NoMemory>
        ensures ok { IfOk result (λ moves. IsMove self.old (event.BatchPop refused) moves self.new) }
        ensures err { OnErr result ((is_some (moved self.old (event.BatchPop refused)) ≡ true)
            × (self.new ≡ self.old)) }
        ensures memory { OnErr result (takes_memory self.old (event.BatchPop refused) ≡ true) }
    {
        if self.outcome.is_some() {
            return Ok(false);
        }
        let Some(parcel) = self.batches.pop_front() else {
            return Ok(false);
        };
        if refused {
            keep(&mut self.outcome, self.ledger.apply_as_refused(parcel));
            return Ok(true);
        }
        match self.ledger.try_apply(parcel) {
            Ok(outcomes) => {
                keep(&mut self.outcome, outcomes);
                Ok(true)
            }
            Err(parcel) => {
                self.batches.push_front_reserved(parcel);
                Err(NoMemory)
            }
        }
    }

    /// Puts the outcome that is left into the outcome ring.
    fn outcome_push(&mut self) -> Result<bool, NoMemory>
        ensures ok { IfOk result (λ moves. IsMove self.old event.OutcomePush moves self.new) }
        ensures err { OnErr result ((is_some (moved self.old event.OutcomePush) ≡ true) × (self.new ≡ self.old)) }
    {
        if self.outcome.is_none() {
            return Ok(false);
        }
        self.outcomes.reserve(1)?;
        if let Some(outcome) = self.outcome.take() {
            self.outcomes.push_back_reserved(outcome);
        }
        Ok(true)
    }

    /// Takes the outcome ring's first outcome apart into replies, if no reply is left to push.
    fn outcome_pop(&mut self) -> bool
        ensures { IsMove self.old event.OutcomePop result self.new }
    {
        if !self.pending.is_empty() {
            return false;
        }
        match self.outcomes.pop_front() {
            Some(outcomes) => {
                self.pending.fill(outcomes);
                true
            }
            None => false,
        }
    }

    /// Puts the next reply that is left into its submitter's ring.
    fn reply_push(&mut self) -> Result<bool, NoMemory>
        ensures ok { IfOk result (λ moves. IsMove self.old event.ReplyPush moves self.new) }
        ensures err { OnErr result ((is_some (moved self.old event.ReplyPush) ≡ true) × (self.new ≡ self.old)) }
    {
        self.pending.give(&mut self.mailboxes)
    }

    /// Lets a submitter receive the first reply of its ring.
    fn reply_pop(&mut self, sender: u32) -> Result<bool, NoMemory>
        ensures ok { IfOk result (λ moves. IsMove self.old (event.ReplyPop sender) moves self.new) }
        ensures err { OnErr result ((is_some (moved self.old (event.ReplyPop sender)) ≡ true) × (self.new ≡ self.old)) }
    {
        self.mailboxes.take(sender)
    }

    /// Returns a step that moves, none of them a push: the one nearest to the submitters. None if the World is at rest.
    pub fn next_event(&self) -> Option<Event>
        ensures some { IfSome result (λ event. MayMove self.now event) }
        ensures none { IfNone result (left self.now ≡ 0) }
    {
        if let Some(sender) = self.mailboxes.first_unread() {
            return Some(Event::ReplyPop { sender });
        }
        if !self.pending.is_empty() {
            return Some(Event::ReplyPush);
        }
        if !self.outcomes.is_empty() {
            return Some(Event::OutcomePop);
        }
        if self.outcome.is_some() {
            return Some(Event::OutcomePush);
        }
        if !self.batches.is_empty() {
            return Some(Event::BatchPop { refused: false });
        }
        if self.has_parcel() {
            return Some(Event::BatchPush);
        }
        if !self.queue.is_empty() {
            return Some(Event::Pop { refused: false });
        }
        None
    }

    /// Returns whether the World is at rest: no step moves but a push.
    pub fn is_at_rest(&self) -> bool
        ensures rest { result ≡ true → IsAtRest self.now }
        ensures moves { result ≡ false → IsAtRest self.now → ⊥ }
    {
        match self.next_event() {
            Some(event) => {
                drop(event);
                false
            }
            None => true,
        }
    }

    /// Takes one event. Returns true if it may happen, and the World then moves as its table says; false changes
    /// nothing. If it may happen and an allocation fails, the event is returned and nothing has changed. No
    /// memory is taken to pop an End, a Close, a pulse or a packet that is returned, nor to apply Last, a returned
    /// packet, or what must be stopped.
    pub fn step(&mut self, event: Event) -> Result<bool, (Event, NoMemory)>
        ensures ok { IfOk result (λ moves. IsMove self.old event moves self.new) }
        ensures err { IfErr result (λ back. (is_some (moved self.old event) ≡ true) × (back.0 ≡ event)
            × (self.new ≡ self.old)) }
        ensures memory { OnErr result (takes_memory self.old event ≡ true) }
    {
        match event {
            Event::Push(ticket) => self
                .push(ticket)
                .map_err(|back| (Event::Push(back), NoMemory)),
            Event::Pop { refused } => self
                .pop(refused)
                .map_err(|_| (Event::Pop { refused }, NoMemory)),
            Event::BatchPush => self.batch_push().map_err(|_| (Event::BatchPush, NoMemory)),
            Event::BatchPop { refused } => self
                .batch_pop(refused)
                .map_err(|_| (Event::BatchPop { refused }, NoMemory)),
            Event::OutcomePush => self
                .outcome_push()
                .map_err(|_| (Event::OutcomePush, NoMemory)),
            Event::OutcomePop => Ok(self.outcome_pop()),
            Event::ReplyPush => self.reply_push().map_err(|_| (Event::ReplyPush, NoMemory)),
            Event::ReplyPop { sender } => self
                .reply_pop(sender)
                .map_err(|_| (Event::ReplyPop { sender }, NoMemory)),
        }
    }
}
