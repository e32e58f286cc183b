//! Submitters.

ghost use Rattle.std.specs.Prelude.{◌≡◌, ◌<◌, ◌≤◌, [], ◌∷◌, ◌++◌, length, Some, None, OnOk, IfOk, IfErr, IfSome, IfNone, IsSomeAnd};
ghost use Rattle.tb_layout.specs.claim.Bounds.{batch_max, capacity_max, queued_max};
ghost use Rattle.tb_rings.specs.clauses.Ends.{inlet_ring, taken, lies};
ghost use Rattle.tb_submit.specs.clauses.Ends.{ended_with, with_item, new_submitter};
ghost use Rattle.tb_submit.specs.clauses.Lists.{ArePackets};
ghost use Rattle.tb_submit.specs.clauses.Refusals as spec;
ghost use Rattle.tb_submit.specs.clauses.Refusals.{IsSubmitRefusal, in_flight, submit_refusal};
ghost use Rattle.tb_work.specs.claim.Ahead.{items_from};
ghost use Rattle.tb_work.specs.claim.Job.{numbered_packet};
ghost use Rattle.tb_work.specs.declared.item.Item.TheVariants as item;
ghost use Rattle.tb_work.specs.declared.refusal.Refusal.TheVariants as refusal;

use crate::ended::Ended;
use crate::seen::Seen;
use crate::sender::Sender;
use std::alloc::Global;
use std::marker::Model;
use std::sync::Wait;
use std::time::Clock;
use tb_layout::NoMemory;
use tb_rings::{IdleWait, Inlet, Waker};
use tb_work::{Item, Job, Outcome, Packet, Refusal, Reply};

/// Queues packets under its number, and reads their replies.
#[derive(Drop)]
pub struct Submitter {
    sender: Sender,
    inlet: Inlet<Reply>,
    credit: u32,
    queued: u64,
    read: u64,
    first_refusal: Option<Refusal>,
}

impl Model for Submitter {
    ghost use Rattle.tb_layout.specs.claim.Bounds.{batch_max, capacity_max};
    ghost use Rattle.tb_rings.specs.clauses.Ends.{inlet_ring, taken, lies};
    ghost use Rattle.tb_submit.specs.clauses.Ends.{SubmitterState};
    ghost use Rattle.tb_submit.specs.clauses.State.{IsSubmitter};

    ghost Value = { SubmitterState };

    ghost view = { λ s. record {
      origin = record { seat = s.sender.seat; ring = inlet_ring s.inlet };
      credit = s.credit;
      queued = s.sender.queued;
      read = taken s.inlet;
      lying = lies s.inlet;
    } };

    ghost invariant = { λ s. IsSubmitter s.sender.seat s.sender.queued s.queued s.credit s.read
        s.first_refusal (taken s.inlet) };
}

/// Returns what an outcome says of all packets that come later.
fn refusal_of(outcome: &Outcome) -> Option<Refusal>
    ensures { result ≡ spec.refusal_of outcome.now }
{
    match outcome {
        Outcome::Committed { .. } => None,
        Outcome::Shutdown => Some(Refusal::Shutdown),
        Outcome::Stopped => Some(Refusal::Stopped),
    }
}

impl Submitter {
    /// Returns a submitter over its sender and its reply ring, with nothing queued and nothing in flight.
    pub(crate) fn new(sender: Sender, inlet: Inlet<Reply>, credit: u32) -> Submitter
        requires among { sender.seat.number < sender.seat.submitters }
        requires limit { sender.seat.limit ≤ batch_max }
        requires credit { credit ≤ capacity_max }
        requires none { (sender.queued ≡ []) × (taken inlet ≡ []) × (lies inlet ≡ []) }
        ensures { result ≡ new_submitter credit (record { seat = sender.seat; ring = inlet_ring inlet }) }
    {
        Submitter {
            sender,
            inlet,
            credit,
            queued: 0,
            read: 0,
            first_refusal: None,
        }
    }

    /// Returns how many packets it has queued. The next one gets this number.
    pub fn queued(&self) -> u64
        ensures { result ≡ length self.now.queued }
    {
        self.queued
    }

    /// Returns how many packets are queued and their replies not read, at most the credit. Only packets are queued by
    /// it.
    pub fn in_flight(&self) -> u32
        ensures value { result ≡ in_flight self.now }
        ensures packets { ArePackets self.now.origin.seat.limit self.now.origin.seat.number 0 self.now.queued }
        ensures bound { result ≤ self.now.credit }
    {
        self.queued.saturating_sub(self.read) as u32
    }

    /// Queues a packet; its number is the count of this submitter's packets before it, fewer than 2^56. A refused
    /// packet is returned as it was, and no number is used. It is refused 7 or 8 once a reply that was read said
    /// Shutdown or Stopped (whichever came first), then by what `admit` says of it. InFlight follows if as many packets
    /// as the credit are in flight, then NoMemory, then Full. Room for its failures is made here, and not before the
    /// credit allows it: for a packet of more than two events it takes an allocation, and for a lookup none.
    pub fn submit<R: Wait>(
        &mut self,
        rt: &R,
        alloc: Global,
        packet: Packet,
    ) -> Result<u64, (Packet, Refusal)>
        requires { length self.old.queued < queued_max }
        ensures ok { IfOk result (λ number. (number ≡ length self.old.queued)
            × (self.new ≡ with_item self.old (item.Packet
            (numbered_packet self.old.origin.seat.number number packet)))) }
        ensures admitted { OnOk result (submit_refusal self.old packet ≡ None) }
        ensures back { IfErr result (λ refused. (refused.0 ≡ packet) × (self.new ≡ self.old)) }
        ensures refusal { IfErr result (λ refused. IsSubmitRefusal self.old packet refused.1) }
    {
        if let Some(refusal) = self.first_refusal {
            return Err((packet, refusal));
        }
        let admitted = packet.admitted(self.sender.limit())?;
        if self.in_flight() == self.credit {
            return Err((admitted.into_packet(), Refusal::InFlight));
        }
        let number = self.queued;
        let job = Job::of(alloc, self.sender.number(), number, admitted)?;
        match self.sender.push(rt, Item::Packet(job)) {
            Ok(()) => {
                self.queued += 1;
                Ok(number)
            }
            Err(Item::Packet(job)) => Err((job.into_packet(), Refusal::Full)),
            Err(_) => unreachable!(),
        }
    }

    /// Returns the tickets that were queued up to its last packet, by any sender. Costs one atomic load and takes no
    /// memory.
    pub fn seen(&mut self) -> Seen
        ensures same { self.new ≡ self.old }
        ensures queue { self.old.origin.seat.queue ≡ Some result.queue }
        ensures own { items_from self.old.origin.seat.number result.tickets ≡ self.old.queued }
    {
        self.sender.seen()
    }

    /// Returns the next reply; None if none is seen. It takes no memory and waits for nobody.
    pub fn reply(&mut self) -> Option<Reply>
        ensures some { IfSome result (λ reply. self.new
            ≡ record self.old { read = self.old.read ++ reply ∷ []; lying = self.new.lying }) }
        ensures none { IfNone result (self.new ≡ record self.old { lying = [] }) }
        ensures known { 0 < length self.old.lying → IsSomeAnd result (λ reply.
            self.old.lying ≡ reply ∷ self.new.lying) }
    {
        let reply = self.inlet.take()?;
        self.read = self.read.saturating_add(1);
        if self.first_refusal.is_none() {
            self.first_refusal = refusal_of(&reply.outcome);
        }
        Some(reply)
    }

    /// Waits for a reply: yields once, or sleeps until a reply is given or a waker of this submitter is used, once it has
    /// yielded long enough. It may return early, so read again after it. Takes no memory. With no packet in flight
    /// nothing but a waker ends the sleep.
    pub fn wait<R: Wait + Clock>(&self, rt: &R, idle: &IdleWait) {
        self.inlet.wait(rt, idle);
    }

    /// Returns a waker, with which another thread ends `wait`: no reply comes any more if the pipeline isn't served.
    ///
    /// # Errors
    ///
    /// `NoMemory`: there are 2^63 wakers of the submitter.
    pub fn waker(&self) -> Result<Waker, NoMemory> {
        self.inlet.waker()
    }

    /// Returns whether the queue is given up. It is from now on, unless it is served (`Intake::begin`), so that whoever waits for a
    /// slot waits only while one may become free.
    pub fn give_up(&self) -> bool {
        self.sender.give_up()
    }

    /// Queues its end. If the queue was full (`Full`) the submitter comes back. Takes no memory.
    pub fn end<R: Wait>(self, rt: &R) -> Result<Ended, (Submitter, Refusal)>
        ensures ok { IfOk result (λ ended. ended ≡ ended_with self item.End) }
        ensures full { IfErr result (λ refused. (refused.0 ≡ self) × (refused.1 ≡ refusal.Full)) }
    {
        let Submitter {
            sender,
            inlet,
            credit,
            queued,
            read,
            first_refusal,
        } = self;
        match sender.end(rt, Item::End) {
            Ok(sender) => Ok(Ended::new(sender, inlet)),
            Err(sender) => Err((
                Submitter {
                    sender,
                    inlet,
                    credit,
                    queued,
                    read,
                    first_refusal,
                },
                Refusal::Full,
            )),
        }
    }
}
