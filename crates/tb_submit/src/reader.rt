//! The pass that takes.

ghost use Rattle.std.specs.Prelude.{◌≡◌, ◌+◌, ◌<◌, [], ◌∷◌, ◌++◌, List, Some, OnOk, IfOk, IfSome, IfNone};
ghost use Rattle.tb_work.specs.declared.item.Ticket.{Ticket};
ghost use Rattle.tb_submit.specs.clauses.State.{AreUnended, reader_with_empty, seat_with};
ghost use Rattle.tb_submit.specs.clauses.Lists.{IsCompleteQueue};
ghost use Rattle.tb_submit.specs.clauses.Rule.{entry, IsWhole};

use crate::rule::{Gathers, Newcomer, Queue, QueuePass, Queued, SeenEmpty, Taken};
use crate::sender::{EndedSender, Sender};
use crate::service::Service;
use std::alloc::Global;
use std::marker::Model;
use std::sync::{Arc, Wait};
use std::time::Clock;
use tb_layout::NoMemory;
use tb_rings::{IdleWait, Sleeper};
use tb_work::Ticket;

/// Takes from the queue, gives out numbers, and takes in what ended senders know.
pub(crate) struct Reader {
    queue: Arc<Queue, Global>,
    pass: QueuePass,
    sleeper: Sleeper,
    service: Arc<Service, Global>,
}

impl Drop for Reader {
    /// Frees everything held in one call, so that no owner's proof repeats it.
    fn drop(self) {
        let Reader {
            queue,
            pass,
            sleeper,
            service,
        } = self;
        drop(queue);
        drop(pass);
        drop(sleeper);
        drop(service);
    }
}

impl Model for Reader {
    ghost use Rattle.std.specs.Prelude.{◌≡◌};
    ghost use Rattle.std.specs.Arc.{arc_value};
    ghost use Rattle.crossbeam_queue.specs.Passes.{IsPassOf, ruled_capacity};
    ghost use Rattle.tb_submit.specs.clauses.State.{ReaderState, taken_of, count_of, seen_empty_of, view_of};
    ghost use Rattle.tb_submit.specs.clauses.Rule.{intake};

    ghost Value = { ReaderState };

    ghost view = { λ s. record {
      queue = s.pass.table_id;
      capacity = ruled_capacity (arc_value s.queue);
      entries = (view_of s.pass).entries;
      taken = taken_of (view_of s.pass).mark;
      count = count_of (view_of s.pass).mark;
      seen_empty = seen_empty_of (view_of s.pass).mark;
      learned = (view_of s.pass).learned;
    } };

    ghost invariant = { λ s. IsPassOf (arc_value s.queue) s.pass
        × (view_of s.pass ≡ intake (view_of s.pass).entries (taken_of (view_of s.pass).mark)
        (count_of (view_of s.pass).mark) (seen_empty_of (view_of s.pass).mark) (view_of s.pass).learned) };
}

impl Reader {
    /// Returns the pass that takes from a new queue of `capacity` slots.
    pub(crate) fn new(alloc: Global, capacity: usize) -> Result<Reader, NoMemory>
        requires { 0 < capacity }
        ensures fresh { IfOk result (λ reader. (reader.entries ≡ []) × (reader.taken ≡ []) × (reader.count ≡ 0)
            × (reader.seen_empty ≡ []) × (reader.learned ≡ [])) }
        ensures capacity { IfOk result (λ reader. reader.capacity ≡ capacity) }
    {
        let sleeper = Sleeper::new(alloc)?;
        let service = Arc::new(alloc, Service::new())?;
        let (queue, pass) = Queue::ruled(alloc, capacity)?;
        let queue = Arc::new(alloc, queue)?;
        Ok(Reader {
            queue,
            pass,
            sleeper,
            service,
        })
    }

    /// Returns a new sender, with the next number.
    pub(crate) fn sender(
        &mut self,
        number: u32,
        submitters: u32,
        limit: u32,
    ) -> Result<Sender, NoMemory>
        requires { number ≡ self.old.count }
        ensures queue { (self.new.queue ≡ self.old.queue) × (self.new.capacity ≡ self.old.capacity) }
        ensures same { (self.new.entries ≡ self.old.entries) × (self.new.taken ≡ self.old.taken)
            × (self.new.seen_empty ≡ self.old.seen_empty) × (self.new.learned ≡ self.old.learned) }
        ensures count { OnOk result (self.new.count ≡ self.old.count + 1) }
        ensures sender { IfOk result (λ sender. sender
            ≡ record { seat = seat_with (Some self.old.queue) submitters limit number; queued = []; learned = [] }) }
    {
        let waker = self.sleeper.waker()?;
        let service = Arc::try_clone(&self.service)?;
        let queue = Arc::try_clone(&self.queue)?;
        let pass = self.queue.another::<Newcomer>(&mut self.pass);
        Ok(Sender {
            queue,
            pass,
            waker,
            service,
            number,
            submitters,
            limit,
        })
    }

    /// Records that the queue was seen empty. Only proofs see the record; the cost is one load.
    fn note_empty(&mut self)
        ensures { self.new ≡ reader_with_empty self.old }
    {
        drop(self.queue.another::<SeenEmpty>(&mut self.pass));
    }

    /// Takes the front of the queue; None if no ticket is seen. That the queue was empty then is only tested.
    pub(crate) fn take<R: Wait>(&mut self, rt: &R) -> Option<Ticket>
        ensures some { IfSome result (λ ticket. self.new ≡ record self.old { taken = self.old.taken ++ ticket ∷ [] }) }
        ensures none { IfNone result (self.new ≡ reader_with_empty self.old) }
        ensures sender { IfSome result (λ ticket. ticket.sender < self.old.count) }
    {
        let ticket = self.queue.pop_as::<Taken, R>(rt, &mut self.pass);
        if ticket.is_none() {
            self.note_empty();
        }
        ticket
    }

    /// Returns whether the queue may be served: unless it was given up, it is from now on.
    pub(crate) fn begin(&self) -> bool {
        self.service.begin()
    }

    /// Gives the queue up, since nobody serves it any more.
    pub(crate) fn fail(&self) {
        self.service.fail();
    }

    /// Waits as `Sleeper::wait` does; each push wakes it.
    pub(crate) fn wait<R: Wait + Clock>(&self, rt: &R, idle: &IdleWait) {
        self.sleeper.wait(rt, idle);
    }

    /// Takes in what an ended sender pushed and learned, so that it is known here from now on.
    pub(crate) fn gather(&mut self, ended: &mut EndedSender)
        requires { ended.old.seat.queue ≡ Some self.old.queue }
        ensures entries { self.new ≡ record self.old {
          entries = self.old.entries
              ++ entry ended.old.seat.number ended.old.queued ∷ [];
          learned = ended.old.learned;
        } }
        ensures filed { IsCompleteQueue ended.old.seat.limit ended.old.seat.submitters ended.old.seat.number ended.old.queued }
        ensures unended { AreUnended ended.old.seat.number ended.old.learned }
    {
        let Some(pass) = ended.pass.take() else {
            unreachable!()
        };
        self.queue.absorb::<Gathers>(&mut self.pass, pass);
    }

    /// Establishes that the taken and the queued tickets are, of each sender that was gathered, all that it pushed. They
    /// begin with each list that the last one had learned.
    pub(crate) fn learn(&mut self)
        ensures same { self.new ≡ self.old }
        ensures whole { (items : List Ticket) × IsWhole self.new.entries self.new.taken self.new.count
            self.new.learned items }
    {
        self.queue.learn_as::<Queued>(&mut self.pass);
    }
}
