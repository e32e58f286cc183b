//! The intake.

ghost use Rattle.std.specs.Prelude.{◌≡◌, ◌+◌, ◌≤◌, [], IfSome, IfNone};
ghost use Rattle.tb_submit.specs.clauses.Ends.{new_intake, with_empty, with_taken};

use crate::reader::Reader;
use std::marker::Model;
use std::sync::Wait;
use std::time::Clock;
use tb_rings::IdleWait;
use tb_work::Ticket;

/// Takes what all senders of a queue have put in it.
#[derive(Drop)]
pub struct Intake {
    pub(crate) reader: Reader,
    submitters: u32,
    limit: u32,
}

impl Model for Intake {
    ghost use Rattle.std.specs.Prelude.{◌≡◌, ◌+◌, []};
    ghost use Rattle.tb_submit.specs.clauses.Ends.{IntakeState};

    ghost Value = { IntakeState };

    ghost view = { λ i. record {
      queue = i.reader.queue;
      submitters = i.submitters;
      limit = i.limit;
      capacity = i.reader.capacity;
      taken = i.reader.taken;
      seen_empty = i.reader.seen_empty;
    } };

    ghost invariant = { λ i. (i.reader.entries ≡ []) × (i.reader.count ≡ i.submitters + 1) };
}

impl Intake {
    /// Returns the intake of a queue, once each sender has its number.
    pub(crate) fn new(reader: Reader, submitters: u32, limit: u32) -> Intake
        requires entries { reader.entries ≡ [] }
        requires count { reader.count ≡ submitters + 1 }
        requires none { (reader.taken ≡ []) × (reader.seen_empty ≡ []) }
        ensures { result ≡ new_intake reader.queue submitters limit reader.capacity }
    {
        Intake {
            reader,
            submitters,
            limit,
        }
    }

    /// Takes the front of the queue; None if no ticket is seen. That the queue was empty then is only tested. `seen_empty`
    /// records each None. Takes no memory.
    pub fn take<R: Wait>(&mut self, rt: &R) -> Option<Ticket>
        ensures some { IfSome result (λ ticket. self.new ≡ with_taken self.old ticket) }
        ensures none { IfNone result (self.new ≡ with_empty self.old) }
        ensures sender { IfSome result (λ ticket. ticket.sender ≤ self.old.submitters) }
    {
        self.reader.take(rt)
    }

    /// Returns whether the queue may be served. It may unless a sender gave it up (`Submitter::give_up`), and then no sender gives
    /// it up any more. Whoever serves calls this before `take`.
    pub fn begin(&self) -> bool {
        self.reader.begin()
    }

    /// Gives the queue up, since nobody serves it any more: no sender waits for a slot.
    pub fn fail(&self) {
        self.reader.fail();
    }

    /// Waits for something to take: yields once, or sleeps until a sender queues something, once it has yielded long
    /// enough. It may return early, so take again after it. Takes no memory.
    pub fn wait<R: Wait + Clock>(&self, rt: &R, idle: &IdleWait) {
        self.reader.wait(rt, idle);
    }
}
