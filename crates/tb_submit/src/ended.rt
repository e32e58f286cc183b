//! Senders that have ended.

ghost use Rattle.std.specs.Prelude.{◌≡◌, ◌<◌, [], ◌∷◌, ◌++◌, length, true, false, Some, None, IfSome, IfNone, IsSomeAnd};
ghost use Rattle.tb_rings.specs.clauses.Ends.{given, taken, lies, inlet_ring, outlet_ring};
ghost use Rattle.tb_submit.specs.clauses.Lists.{IsCompleteQueue};
ghost use Rattle.tb_submit.specs.clauses.Rule.{entry};

use crate::reader::Reader;
use crate::sender::EndedSender;
use std::marker::Model;
use tb_rings::{Inlet, Outlet};
use tb_work::Reply;

/// A submitter that has ended, with its replies still to read.
#[derive(Drop)]
pub struct Ended {
    sender: EndedSender,
    inlet: Inlet<Reply>,
    /// How many replies are unread, once no more can come.
    unread: Option<usize>,
}

impl Model for Ended {
    ghost use Rattle.tb_rings.specs.clauses.Ends.{inlet_ring, taken, lies};
    ghost use Rattle.std.specs.Prelude.{is_some};
    ghost use Rattle.tb_submit.specs.clauses.Ends.{EndedState};
    ghost use Rattle.tb_submit.specs.clauses.State.{CountsUnread};

    ghost Value = { EndedState };

    ghost view = { λ e. record {
      origin = record { seat = e.sender.seat; ring = inlet_ring e.inlet };
      queued = e.sender.queued;
      read = taken e.inlet;
      lying = lies e.inlet;
      settled = is_some e.unread;
    } };

    ghost invariant = { λ e. CountsUnread e.unread (lies e.inlet) };
}

impl Ended {
    /// Returns a submitter that has ended, before its queue is settled.
    pub(crate) fn new(sender: EndedSender, inlet: Inlet<Reply>) -> Ended
        ensures { result ≡ record {
          origin = record { seat = sender.seat; ring = inlet_ring inlet };
          queued = sender.queued;
          read = taken inlet;
          lying = lies inlet;
          settled = false;
        } }
    {
        Ended {
            sender,
            inlet,
            unread: None,
        }
    }

    /// Returns the next reply, or `None` if none is seen. Once its pipeline was settled, it returns the unread replies
    /// in order and then `None` for ever. It takes no memory and waits for nobody.
    pub fn reply(&mut self) -> Option<Reply>
        ensures some { IfSome result (λ reply. self.new
            ≡ record self.old { read = self.old.read ++ reply ∷ []; lying = self.new.lying }) }
        ensures none { IfNone result (self.new ≡ record self.old { lying = [] }) }
        ensures known { 0 < length self.old.lying → IsSomeAnd result (λ reply.
            self.old.lying ≡ reply ∷ self.new.lying) }
        ensures over { self.old.settled ≡ true → self.old.lying ≡ [] → result ≡ None }
    {
        match self.unread {
            Some(0) => None,
            Some(unread) => {
                self.unread = Some(unread - 1);
                self.inlet.take()
            }
            None => self.inlet.take(),
        }
    }

    /// Passes to the reader what was queued, and sees all replies in its ring.
    pub(crate) fn settle(&mut self, reader: &mut Reader, outlet: &mut Outlet<Reply>)
        requires queue { self.old.origin.seat.queue ≡ Some reader.old.queue }
        requires ring { self.old.origin.ring ≡ outlet_ring outlet.old }
        ensures entries { reader.new ≡ record reader.old {
          entries = reader.old.entries
              ++ entry self.old.origin.seat.number self.old.queued ∷ [];
          learned = reader.new.learned;
        } }
        ensures filed { IsCompleteQueue self.old.origin.seat.limit self.old.origin.seat.submitters
            self.old.origin.seat.number self.old.queued }
        ensures replies { self.new.read ++ self.new.lying ≡ given outlet.old }
        ensures read { self.new.read ≡ self.old.read }
        ensures ring { self.new.origin.ring ≡ self.old.origin.ring }
        ensures settled { self.new.settled ≡ true }
    {
        reader.gather(&mut self.sender);
        self.unread = Some(self.inlet.lying(outlet));
    }
}
