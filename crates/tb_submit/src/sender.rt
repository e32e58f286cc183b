//! Those that push under a number of their own.

ghost use Rattle.std.specs.Prelude.{◌≡◌, [], ◌∷◌, ◌++◌, Some, OnOk, IfOk, IfErr};
ghost use Rattle.tb_submit.specs.clauses.Ends.{sender_with};
ghost use Rattle.tb_submit.specs.clauses.Lists.{IsCompleteQueue};
ghost use Rattle.tb_work.specs.claim.Ahead.{items_from};
ghost use Rattle.tb_work.specs.claim.Queue.{IsUnended};

use crate::rule::{Learned, Own, Pushed, Queue, QueuePass, Witnessed};
use crate::seen::Seen;
use crate::service::Service;
use std::alloc::Global;
use std::marker::Model;
use std::sync::{Arc, Wait};
use tb_rings::Waker;
use tb_work::{Item, Ticket};

/// One that may push.
pub(crate) struct Sender {
    pub(crate) queue: Arc<Queue, Global>,
    pub(crate) pass: QueuePass,
    pub(crate) waker: Waker,
    pub(crate) service: Arc<Service, Global>,
    pub(crate) number: u32,
    pub(crate) submitters: u32,
    pub(crate) limit: u32,
}

impl Drop for Sender {
    /// Frees everything held in one call, so that no owner's proof repeats it.
    fn drop(self) {
        let Sender {
            queue,
            pass,
            waker,
            service,
            number: _,
            submitters: _,
            limit: _,
        } = self;
        drop(queue);
        drop(pass);
        drop(waker);
        drop(service);
    }
}

impl Model for Sender {
    ghost use Rattle.std.specs.Prelude.{◌≡◌};
    ghost use Rattle.std.specs.Arc.{arc_value};
    ghost use Rattle.crossbeam_queue.specs.Passes.{IsPassOf};
    ghost use Rattle.tb_submit.specs.clauses.Ends.{SenderState};
    ghost use Rattle.tb_submit.specs.clauses.State.{AreUnended, IsSenderView, view_of, state_while_open};
    ghost use Rattle.tb_submit.specs.clauses.Rule.{first_pushed};
    ghost use Rattle.tb_work.specs.claim.Ahead.{items_from};

    ghost Value = { SenderState };

    ghost view = { λ s. state_while_open s.pass s.submitters s.limit s.number };

    ghost invariant = { λ s. IsPassOf (arc_value s.queue) s.pass
        × IsSenderView s.number (view_of s.pass)
        × (items_from s.number (view_of s.pass).history ≡ first_pushed (view_of s.pass).entries)
        × AreUnended s.number (view_of s.pass).learned };
}

impl Sender {
    /// Returns its number among the senders, from 0.
    pub(crate) fn number(&self) -> u32
        ensures { result ≡ self.now.seat.number }
    {
        self.number
    }

    /// Returns the most events of a packet.
    pub(crate) fn limit(&self) -> u32
        ensures { result ≡ self.now.seat.limit }
    {
        self.limit
    }

    /// Returns whether the queue is given up: unless it is served, it is from now on.
    pub(crate) fn give_up(&self) -> bool {
        self.service.give_up()
    }

    /// Returns the tickets that were queued up to its last push. Costs one atomic load.
    pub(crate) fn seen(&mut self) -> Seen
        ensures same { self.new ≡ self.old }
        ensures queue { self.old.seat.queue ≡ Some result.queue }
        ensures tickets { items_from self.old.seat.number result.tickets ≡ self.old.queued }
    {
        Seen {
            pass: self.queue.another::<Witnessed>(&mut self.pass),
        }
    }

    /// Records that these tickets are queued, and that no end of its own is one of them. Costs three atomic loads.
    pub(crate) fn learn(&mut self, seen: Seen)
        requires queue { self.old.seat.queue ≡ Some seen.queue }
        requires unended { IsUnended self.old.queued }
        ensures { self.new ≡ record self.old { learned = self.old.learned ++ seen.tickets ∷ [] } }
    {
        let Seen { pass } = seen;
        self.queue.absorb::<Learned>(&mut self.pass, pass);
        self.queue.learn_as::<Own>(&mut self.pass);
    }

    /// Pushes an item, and wakes the intake if it waits. If the queue was full the item is returned.
    pub(crate) fn push<R: Wait>(&mut self, rt: &R, item: Item) -> Result<(), Item>
        ensures ok { OnOk result (self.new ≡ sender_with self.old item) }
        ensures full { IfErr result (λ back. (back ≡ item) × (self.new ≡ self.old)) }
    {
        let ticket = Ticket {
            sender: self.number,
            item,
        };
        match self.queue.push_as::<Pushed, R>(rt, &mut self.pass, ticket) {
            Ok(()) => {
                self.waker.wake();
                Ok(())
            }
            Err(Ticket { sender: _, item }) => Err(item),
        }
    }

    /// Pushes its last item, and wakes the intake if it waits. If the queue was full the sender is returned.
    pub(crate) fn end<R: Wait>(mut self, rt: &R, last: Item) -> Result<EndedSender, Sender>
        requires { IsCompleteQueue self.seat.limit self.seat.submitters self.seat.number (self.queued ++ last ∷ []) }
        ensures ok { IfOk result (λ ended. ended ≡ sender_with self last) }
        ensures full { IfErr result (λ back. back ≡ self) }
    {
        let ticket = Ticket {
            sender: self.number,
            item: last,
        };
        match self.queue.push_as::<Pushed, R>(rt, &mut self.pass, ticket) {
            Ok(()) => {
                self.waker.wake();
                let Sender {
                    queue: _,
                    waker: _,
                    service: _,
                    pass,
                    number,
                    submitters,
                    limit,
                } = self;
                Ok(EndedSender {
                    pass: Some(pass),
                    number,
                    submitters,
                    limit,
                })
            }
            Err(_) => Err(self),
        }
    }
}

/// One that pushed its last item. Its place goes to the reader once all have ended.
pub(crate) struct EndedSender {
    pub(crate) pass: Option<QueuePass>,
    pub(crate) number: u32,
    pub(crate) submitters: u32,
    pub(crate) limit: u32,
}

impl Drop for EndedSender {
    /// Frees everything held in one call, so that no owner's proof repeats it.
    fn drop(self) {
        let EndedSender {
            pass,
            number: _,
            submitters: _,
            limit: _,
        } = self;
        drop(pass);
    }
}

impl Model for EndedSender {
    ghost use Rattle.tb_submit.specs.clauses.Ends.{SenderState};
    ghost use Rattle.tb_submit.specs.clauses.State.{state_once_ended, IsLeft};

    ghost Value = { SenderState };

    ghost view = { λ s. state_once_ended s.pass s.submitters s.limit s.number };

    ghost invariant = { λ s. IsLeft s.pass s.submitters s.limit s.number };
}
