//! The batcher's stage: tickets from the submission queue, batches into their ring.

ghost use Rattle.std.specs.Prelude.{◌≡◌, ◌≤◌, [], ◌∷◌, ◌++◌, false};
ghost use Rattle.tb_core.specs.claim.Front.{all_ended};
ghost use Rattle.tb_rings.specs.clauses.Ends.{given, SameOutlet};
ghost use Rattle.tb_submit.specs.clauses.Ends.{IntakeState, with_taken};
ghost use Rattle.tb_pipe.specs.clauses.Carried.{AllBatched, IsBatched, MaySeal, next_number, number_after};

use crate::clearing::is_batch;
use crate::gate::Gate;
use crate::waiting::give_waiting;
use arrayvec::ArrayVec;
use std::mem;
use std::sync::Wait;
use std::time::Clock;
use tb_core::{Front, Parcel};
use tb_rings::{IdleWait, Outlet};
use tb_submit::Intake;
use tb_work::Ticket;

/// The batch ring with the gate, how many batches were given, and whether the group held waits for a committer that is busy.
#[derive(Drop)]
pub(crate) struct BatchRing<'g, G: Gate> {
    outlet: Outlet<Parcel>,
    gate: &'g G,
    batches: u64,
    joins: bool,
}

impl<'g, G: Gate> BatchRing<'g, G> {
    /// Returns the ring with its gate, to which no batch was reported.
    pub(crate) fn new(outlet: Outlet<Parcel>, gate: &'g G, joins: bool) -> BatchRing<'g, G>
        ensures { result.outlet ≡ outlet }
    {
        BatchRing {
            outlet,
            gate,
            batches: 0,
            joins,
        }
    }

    /// Returns the ring without its gate.
    pub(crate) fn into_outlet(self) -> Outlet<Parcel>
        ensures { result ≡ self.entry.outlet }
    {
        let BatchRing {
            outlet,
            gate: _,
            batches: _,
            joins: _,
        } = self;
        outlet
    }

    /// Gives a parcel, and reports it to the gate if it is a batch.
    fn give<R: Wait + Clock>(&mut self, rt: &R, parcel: Parcel)
        ensures ring { SameOutlet self.old.outlet self.new.outlet }
        ensures given { given self.new.outlet ≡ given self.old.outlet ++ parcel ∷ [] }
        ensures counted { self.new.batches ≡ next_number self.old.batches parcel }
    {
        let counts = is_batch(&parcel);
        give_waiting(rt, &mut self.outlet, parcel);
        if counts {
            self.gate.sealed(self.batches);
            self.batches = self.batches.wrapping_add(1);
        }
    }

    /// Gives parcels in order, and leaves none.
    fn give_all<R: Wait + Clock>(&mut self, rt: &R, parcels: &mut ArrayVec<Parcel, 2>)
        ensures ring { SameOutlet self.old.outlet self.new.outlet }
        ensures given { given self.new.outlet ≡ given self.old.outlet ++ parcels.old.items }
        ensures counted { self.new.batches ≡ number_after self.old.batches parcels.old.items }
        ensures none { parcels.new.items ≡ [] }
    {
        if parcels.is_empty() {
            return;
        }
        for parcel in mem::replace(parcels, ArrayVec::new()) {
            self.give(rt, parcel);
        }
    }

    /// Passes one ticket through the front. `parcels` lends capacity for what the front yields.
    fn pass_ticket<R: Wait + Clock>(
        &mut self,
        rt: &R,
        front: &mut Front,
        parcels: &mut ArrayVec<Parcel, 2>,
        ticket: Ticket,
    )
        requires sender { ticket.sender ≤ front.old.submitters }
        requires empty { parcels.old.items ≡ [] }
        ensures ring { SameOutlet self.old.outlet self.new.outlet }
        ensures none { parcels.new.items ≡ [] }
        ensures batched { (intake : IntakeState) → all_ended front.old ≡ false
            → IsBatched intake front.old (given self.old.outlet)
            → IsBatched (with_taken intake ticket) front.new (given self.new.outlet) }
    {
        front.take_into(parcels, ticket);
        self.give_all(rt, parcels);
    }

    /// Returns whether the group held may wait for packets that join it though the queue is empty: a commit waits for a disk, and the
    /// committer hasn't taken what was given before. No packet waits longer for that than the batcher takes to wake, and one wait for the
    /// disk serves more packets.
    fn may_hold(&mut self, front: &Front) -> bool
        ensures ring { SameOutlet self.old.outlet self.new.outlet }
        ensures given { given self.new.outlet ≡ given self.old.outlet }
    {
        self.joins && front.is_holding() && !self.outlet.all_taken()
    }

    /// Gives the group held, if there is one, so that no later packet joins it.
    fn pass_group<R: Wait + Clock>(&mut self, rt: &R, front: &mut Front)
        ensures ring { SameOutlet self.old.outlet self.new.outlet }
        ensures batched { (intake : IntakeState) → MaySeal intake front.old
            → IsBatched intake front.old (given self.old.outlet)
            → IsBatched intake front.new (given self.new.outlet) }
        ensures none { front.new.held ≡ [] }
    {
        if let Some(batch) = front.idle() {
            self.give(rt, Parcel::Batch(batch));
        }
    }

    /// Waits once the queue is empty: with the group held until the committer takes a batch, if it may; else it gives the group, and waits
    /// for a ticket.
    fn wait_for_more<R: Wait + Clock>(
        &mut self,
        rt: &R,
        queue: &Intake,
        front: &mut Front,
        idle: &IdleWait,
    )
        ensures ring { SameOutlet self.old.outlet self.new.outlet }
        ensures batched { (intake : IntakeState) → MaySeal intake front.old
            → IsBatched intake front.old (given self.old.outlet)
            → IsBatched intake front.new (given self.new.outlet) }
    {
        if self.may_hold(front) {
            self.outlet.wait(rt, idle);
            return;
        }
        self.pass_group(rt, front);
        queue.wait(rt, idle);
    }
}

/// Takes tickets and gives parcels until each sender has ended, and then gives the last parcel. What can't join the group
/// held seals it, and so does an empty queue, unless the group waits for a busy committer.
pub(crate) fn batch_all<R: Wait + Clock, G: Gate>(
    rt: &R,
    intake: &mut Intake,
    front: &mut Front,
    ring: &mut BatchRing<'_, G>,
)
    requires { IsBatched intake.old front.old (given ring.old.outlet) }
    ensures ring { SameOutlet ring.old.outlet ring.new.outlet }
    ensures intake { intake.new ≡ record intake.old { taken = intake.new.taken; seen_empty = intake.new.seen_empty } }
    ensures all { AllBatched intake.new (given ring.new.outlet) }
{
    let mut parcels = ArrayVec::new();
    let idle = IdleWait::new();
    for _ in rt.forever() {
        if front.finished() {
            ring.pass_group(rt, front);
            ring.give(rt, Parcel::Last);
            return;
        }
        match intake.take(rt) {
            Some(ticket) => {
                ring.pass_ticket(rt, front, &mut parcels, ticket);
                idle.reset();
            }
            None => ring.wait_for_more(rt, intake, front, &idle),
        }
    }
    unreachable!()
}
