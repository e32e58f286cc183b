//! The control.

ghost use Rattle.std.specs.Prelude.{◌≡◌, ◌<◌, ◌≤◌, [], ◌∷◌, ◌++◌, length, Some, OnOk, IfOk, IfErr, Err};
ghost use Rattle.tb_layout.specs.claim.Bounds.{moment_max, queued_max};
ghost use Rattle.tb_submit.specs.clauses.Ends.{sender_with};
ghost use Rattle.tb_work.specs.declared.item.Item.TheVariants as item;
ghost use Rattle.tb_work.specs.declared.refusal.Refusal.TheVariants as refusal;

use crate::seen::Seen;
use crate::sender::{EndedSender, Sender};
use std::marker::Model;
use std::sync::Wait;
use tb_layout::MOMENT_MAX;
use tb_work::{Item, Moment, Refusal};

/// Queues pulses, and closes the queue or leaves it open.
#[derive(Drop)]
pub struct Control {
    sender: Sender,
    queued: u64,
}

impl Model for Control {
    ghost use Rattle.std.specs.Prelude.{◌≡◌, length};
    ghost use Rattle.tb_submit.specs.clauses.Ends.{SenderState};
    ghost use Rattle.tb_submit.specs.clauses.Lists.{ArePulses};

    ghost Value = { SenderState };

    ghost view = { λ c. c.sender };

    ghost invariant = { λ c. (c.queued ≡ length c.sender.queued) × ArePulses c.sender.queued
        × (c.sender.seat.number ≡ c.sender.seat.submitters) };
}

impl Control {
    /// Returns the control of a queue, over the sender whose number comes after the last submitter's.
    pub(crate) fn new(sender: Sender) -> Control
        requires none { sender.queued ≡ [] }
        requires control { sender.seat.number ≡ sender.seat.submitters }
        ensures { result ≡ sender }
    {
        Control { sender, queued: 0 }
    }

    /// Returns how many pulses it has queued.
    pub fn queued(&self) -> u64
        ensures { result ≡ length self.now.queued }
    {
        self.queued
    }

    /// Queues a pulse with this moment in nanoseconds, at most 2^62: any other is refused as `MomentTooLarge`, and then
    /// a full queue as `Full`. A refused pulse changes nothing. Fewer than 2^56 pulses were queued before. Takes no
    /// memory.
    pub fn pulse<R: Wait>(&mut self, rt: &R, moment: u64) -> Result<(), Refusal>
        requires { length self.old.queued < queued_max }
        ensures ok { OnOk result (self.new ≡ sender_with self.old (item.Pulse moment)) }
        ensures refused { IfErr result (λ why. self.new ≡ self.old) }
        ensures large { moment_max < moment → result ≡ Err refusal.MomentTooLarge }
        ensures full { moment ≤ moment_max → IfErr result (λ why. why ≡ refusal.Full) }
    {
        if moment > MOMENT_MAX {
            return Err(Refusal::MomentTooLarge);
        }
        match self.sender.push(rt, Item::Pulse(Moment::new(moment))) {
            Ok(()) => {
                self.queued += 1;
                Ok(())
            }
            Err(_) => Err(Refusal::Full),
        }
    }

    /// Records that these tickets are queued: a Close that is queued later is behind them (`settle_queue`: `ahead`).
    /// Costs three atomic loads and takes no memory.
    pub fn learn(&mut self, seen: Seen)
        requires { self.old.seat.queue ≡ Some seen.queue }
        ensures { self.new ≡ record self.old { learned = self.old.learned ++ seen.tickets ∷ [] } }
    {
        self.sender.learn(seen);
    }

    /// Returns whether the queue is given up, as `Submitter::give_up` does.
    pub fn give_up(&self) -> bool {
        self.sender.give_up()
    }

    /// Queues its end, so that all that is queued is committed unless the pipeline stops. If the queue was full
    /// (`Full`) the control comes back. Takes no memory.
    pub fn end<R: Wait>(self, rt: &R) -> Result<ControlEnd, (Control, Refusal)>
        ensures ok { IfOk result (λ end. end ≡ sender_with self item.End) }
        ensures full { IfErr result (λ refused. (refused.0 ≡ self) × (refused.1 ≡ refusal.Full)) }
    {
        let Control { sender, queued } = self;
        match sender.end(rt, Item::End) {
            Ok(sender) => Ok(ControlEnd { sender }),
            Err(sender) => Err((Control { sender, queued }, Refusal::Full)),
        }
    }

    /// Queues the Close: packets behind it get Shutdown. If the queue was full (`Full`) the control is returned. Takes
    /// no memory.
    pub fn shut<R: Wait>(self, rt: &R) -> Result<ControlEnd, (Control, Refusal)>
        ensures ok { IfOk result (λ end. end ≡ sender_with self item.Close) }
        ensures full { IfErr result (λ refused. (refused.0 ≡ self) × (refused.1 ≡ refusal.Full)) }
    {
        let Control { sender, queued } = self;
        match sender.end(rt, Item::Close) {
            Ok(sender) => Ok(ControlEnd { sender }),
            Err(sender) => Err((Control { sender, queued }, Refusal::Full)),
        }
    }
}

/// The control, which has ended.
#[derive(Drop)]
pub struct ControlEnd {
    pub(crate) sender: EndedSender,
}

impl Model for ControlEnd {
    ghost use Rattle.tb_submit.specs.clauses.Ends.{SenderState};

    ghost Value = { SenderState };

    ghost view = { λ c. c.sender };
}
