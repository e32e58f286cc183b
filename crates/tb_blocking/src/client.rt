//! A submitter, or the control, in a thread of the application's own.

ghost use Rattle.std.specs.Fn.{FnOnceReturnsAtMut};
ghost use Rattle.std.specs.Prelude.{◌≡◌, ◌<◌, ◌≤◌, [], ◌∷◌, ◌++◌, List, length, None, Err, OnOk, IfOk, IfErr, IfSome, IfNone, IsSomeAnd, Some};
ghost use Rattle.tb_layout.specs.claim.Bounds.{moment_max, queued_max};
ghost use Rattle.tb_submit.specs.clauses.Ends.{SenderState, SubmitterState, end_origin, ended_with, origin_of, sender_with, with_item};
ghost use Rattle.tb_submit.specs.clauses.Refusals.{IsSubmitRefusal, in_flight, submit_refusal};
ghost use Rattle.tb_work.specs.claim.Ahead.{items_from};
ghost use Rattle.tb_work.specs.claim.Job.{numbered_packet};
ghost use Rattle.tb_work.specs.declared.item.Item.{Item as ItemValue};
ghost use Rattle.tb_work.specs.declared.item.Item.TheVariants as item;
ghost use Rattle.tb_work.specs.declared.refusal.Refusal.TheVariants as refusal;

use crate::own_end::{OwnEnd, OwnOpenEnd};
use std::alloc::Global;
use std::marker::Model;
use std::sync::Wait;
use std::thread::{PromisedHandle, Scope};
use std::time::Clock;
use tb_drive::{Stop, end_control};
use tb_layout::QUEUED_MAX;
use tb_rings::{IdleWait, PollWait};
use tb_submit::{Control, ControlEnd, Ended, Seen, Submitter};
use tb_work::{Packet, Refusal, Reply};

/// A submitter in a thread of the application's own. Its calls wait until they are done or the run is given up. A
/// contract sees it as its submitter.
#[derive(Drop)]
pub struct Client<'s> {
    submitter: Submitter,
    stop: &'s Stop,
}

impl<'s> Model for Client<'s> {
    ghost use Rattle.tb_submit.specs.clauses.Ends.{SubmitterState};

    ghost Value = { SubmitterState };

    ghost view = { λ client. client.submitter };
}

impl<'s> Client<'s> {
    /// Returns a client of the submitter, whose calls stop waiting once `stop` is asked.
    pub fn new(submitter: Submitter, stop: &'s Stop) -> Client<'s>
        ensures { result ≡ submitter }
    {
        Client { submitter, stop }
    }

    /// Returns how many packets it has queued, as `Submitter::queued` does. If `submit` returned `Full`, this is `QUEUED_MAX`
    /// if all numbers are used, and less if the run is given up.
    pub fn queued(&self) -> u64
        ensures { result ≡ length self.now.queued }
    {
        self.submitter.queued()
    }

    /// Returns how many of its packets have unread replies, as `Submitter::in_flight` does. If `receive` returned `None`, this
    /// is 0 if there was no reply to wait for, and more if the run is given up.
    pub fn in_flight(&self) -> u32
        ensures { result ≡ in_flight self.now }
    {
        self.submitter.in_flight()
    }

    /// Queues a packet as `Submitter::submit` does, with its cost and its refusals. While the queue is full it waits
    /// and tries again.
    ///
    /// # Errors
    ///
    /// The packet with its refusal. `Full` means that the run is given up, or that this submitter has queued
    /// 2^56 packets, and `queued` says which.
    pub fn submit<R: Wait + Clock>(
        &mut self,
        rt: &R,
        alloc: Global,
        packet: Packet,
    ) -> Result<u64, (Packet, Refusal)>
        ensures own { origin_of self.new ≡ origin_of self.old }
        ensures ok { IfOk result (λ number. (number ≡ length self.old.queued)
            × (self.new ≡ with_item self.old (item.Packet
            (numbered_packet self.old.origin.seat.number number packet)))) }
        ensures admitted { OnOk result (submit_refusal self.old packet ≡ None) }
        ensures read { self.new.read ≡ self.old.read }
        ensures back { IfErr result (λ refused. (refused.0 ≡ packet) × (self.new ≡ self.old)) }
        ensures refusal { length self.old.queued < queued_max
            → IfErr result (λ refused. IsSubmitRefusal self.old packet refused.1) }
        ensures full { queued_max ≤ length self.old.queued → result ≡ Err (packet, refusal.Full) }
    {
        if self.submitter.queued() >= QUEUED_MAX {
            return Err((packet, Refusal::Full));
        }
        let mut packet = packet;
        let poll = PollWait::new();
        for _ in rt.forever() {
            match self.submitter.submit(rt, alloc, packet) {
                Err((back, Refusal::Full)) if !self.stop.is_given_up() => packet = back,
                submitted => return submitted,
            }
            poll.wait(rt);
        }
        unreachable!()
    }

    /// Waits for the next reply, and sleeps after some 30 microseconds. Returns `None` if no packet is in flight or the
    /// run is given up, and `in_flight` says which. Takes no memory.
    pub fn receive<R: Wait + Clock>(&mut self, rt: &R) -> Option<Reply>
        ensures own { origin_of self.new ≡ origin_of self.old }
        ensures some { IfSome result (λ reply. self.new
            ≡ record self.old { read = self.old.read ++ reply ∷ []; lying = self.new.lying }) }
        ensures none { IfNone result (self.new ≡ self.old) }
        ensures idle { in_flight self.old ≡ 0 → result ≡ None }
        ensures known { 0 < in_flight self.old → 0 < length self.old.lying
            → IsSomeAnd result (λ reply. self.old.lying ≡ reply ∷ self.new.lying) }
    {
        if self.submitter.in_flight() == 0 {
            return None;
        }
        let idle = IdleWait::new();
        for _ in rt.forever() {
            if let Some(reply) = self.submitter.reply() {
                return Some(reply);
            }
            if self.stop.is_given_up() {
                return None;
            }
            self.submitter.wait(rt, &idle);
        }
        unreachable!()
    }

    /// Queues a packet as `submit` does, and then waits for the next reply as `receive` does. The reply is the packet's own
    /// if no other packet was in flight. Returns `None` if the run is given up after the packet is queued.
    ///
    /// # Errors
    ///
    /// Those of `submit`.
    pub fn exchange<R: Wait + Clock>(
        &mut self,
        rt: &R,
        alloc: Global,
        packet: Packet,
    ) -> Result<Option<Reply>, (Packet, Refusal)>
        ensures own { origin_of self.new ≡ origin_of self.old }
        ensures some { IfOk result (λ replied. IfSome replied (λ reply. self.new ≡ record (with_item self.old (item.Packet
            (numbered_packet self.old.origin.seat.number (length self.old.queued) packet)))
            { read = self.old.read ++ reply ∷ []; lying = self.new.lying })) }
        ensures none { IfOk result (λ replied. IfNone replied (self.new ≡ with_item self.old (item.Packet
            (numbered_packet self.old.origin.seat.number (length self.old.queued) packet)))) }
        ensures known { length self.old.read ≤ length self.old.queued → 0 < length self.old.lying
            → IfOk result (λ replied. IsSomeAnd replied (λ reply. self.old.lying ≡ reply ∷ self.new.lying)) }
        ensures admitted { OnOk result (submit_refusal self.old packet ≡ None) }
        ensures back { IfErr result (λ refused. (refused.0 ≡ packet) × (self.new ≡ self.old)) }
        ensures refusal { length self.old.queued < queued_max
            → IfErr result (λ refused. IsSubmitRefusal self.old packet refused.1) }
        ensures full { queued_max ≤ length self.old.queued → result ≡ Err (packet, refusal.Full) }
    {
        let _number = self.submit(rt, alloc, packet)?;
        Ok(self.receive(rt))
    }

    /// Returns the tickets that were queued up to its last packet, by any sender, as `Submitter::seen` does. What a control has
    /// learned of before it shuts is committed, unless the pipeline stops (`ControlClient::learn`). Takes no memory.
    pub fn seen(&mut self) -> Seen
        ensures same { self.new ≡ self.old }
        ensures queue { self.old.origin.seat.queue ≡ Some result.queue }
        ensures own { items_from self.old.origin.seat.number result.tickets ≡ self.old.queued }
    {
        self.submitter.seen()
    }

    /// Queues the submitter's end. While the queue is full it waits and tries again. Returns `None` if the run is
    /// given up and nobody serves. The end still returns the unread replies. Takes no memory.
    pub fn end<R: Wait + Clock>(self, rt: &R) -> Option<Ended>
        ensures { IfSome result (λ ended. ended ≡ ended_with self.entry item.End) }
    {
        let Client {
            mut submitter,
            stop,
        } = self;
        let poll = PollWait::new();
        for _ in rt.forever() {
            match submitter.end(rt) {
                Ok(ended) => return Some(ended),
                Err((back, _)) => submitter = back,
            }
            if stop.is_given_up() && submitter.give_up() {
                return None;
            }
            poll.wait(rt);
        }
        unreachable!()
    }

    /// Starts a thread that does `work` with this client and then ends it, whatever came of the work, since `serve`
    /// waits for each end. If the thread can't be started, gives the run up and returns `None`.
    pub fn start<E, R: Wait + Clock + Sync, F: FnOnce(&mut Client<'_>) + Send + 's>(
        self,
        scope: &Scope<'s, E>,
        rt: &'s R,
        work: F,
    ) -> Option<PromisedHandle<Option<Ended>, OwnEnd>>
        requires callable { F.IsAlwaysCallable work }
        requires own { (before : SubmitterState) (after : SubmitterState)
            → FnOnceReturnsAtMut F.FnOnce work before tt after → origin_of after ≡ origin_of before }
        ensures { IfSome result (λ thread. thread.promise.submitter.value ≡ self.entry) }
    {
        let client = self;
        let stop = client.stop;
        let started = scope.spawn_with(
            OwnEnd::of(&client.submitter),
            move || -> Option<Ended>
                requires callable { F.IsAlwaysCallable work }
                requires own { (before : SubmitterState) (after : SubmitterState)
                    → FnOnceReturnsAtMut F.FnOnce work before tt after → origin_of after ≡ origin_of before }
                ensures { IfSome result (λ end. end_origin end ≡ origin_of client.entry) }
            {
                let mut client = client;
                work(&mut client);
                client.end(rt)
            },
        );
        if started.is_err() {
            stop.give_up();
        }
        started.ok()
    }
}

/// The control in a thread of the application's own. Its calls wait until they are done or the run is given up. A
/// contract sees it as its control.
#[derive(Drop)]
pub struct ControlClient<'s> {
    control: Control,
    stop: &'s Stop,
}

impl<'s> Model for ControlClient<'s> {
    ghost use Rattle.tb_submit.specs.clauses.Ends.{SenderState};

    ghost Value = { SenderState };

    ghost view = { λ client. client.control };
}

impl<'s> ControlClient<'s> {
    /// Returns a client of the control, whose calls stop waiting once `stop` is asked.
    pub fn new(control: Control, stop: &'s Stop) -> ControlClient<'s>
        ensures { result ≡ control }
    {
        ControlClient { control, stop }
    }

    /// Returns how many pulses it has queued, as `Control::queued` does. If `pulse` returned `Full`, this is `QUEUED_MAX` if
    /// no pulse can be queued any more, and less if the run is given up.
    pub fn queued(&self) -> u64
        ensures { result ≡ length self.now.queued }
    {
        self.control.queued()
    }

    /// Queues a pulse with this moment in nanoseconds, at most 2^62. While the queue is full it waits and tries again.
    /// Takes no memory.
    ///
    /// # Errors
    ///
    /// `MomentTooLarge`, or `Full` if the run is given up or the control has queued 2^56 pulses, and `queued` says
    /// which. Nothing is changed.
    pub fn pulse<R: Wait + Clock>(&mut self, rt: &R, moment: u64) -> Result<(), Refusal>
        ensures own { self.new.seat ≡ self.old.seat }
        ensures ok { OnOk result (self.new ≡ sender_with self.old (item.Pulse moment)) }
        ensures back { IfErr result (λ why. self.new ≡ self.old) }
        ensures large { length self.old.queued < queued_max → moment_max < moment → result ≡ Err refusal.MomentTooLarge }
        ensures refusal { moment ≤ moment_max → IfErr result (λ why. why ≡ refusal.Full) }
        ensures full { queued_max ≤ length self.old.queued → result ≡ Err refusal.Full }
    {
        if self.control.queued() >= QUEUED_MAX {
            return Err(Refusal::Full);
        }
        let poll = PollWait::new();
        for _ in rt.forever() {
            match self.control.pulse(rt, moment) {
                Err(Refusal::Full) if !self.stop.is_given_up() => {}
                pulsed => return pulsed,
            }
            poll.wait(rt);
        }
        unreachable!()
    }

    /// Records that these tickets are queued, as `Control::learn` does: a Close that is queued later is behind them. Takes no memory.
    pub fn learn(&mut self, seen: Seen)
        requires { self.old.seat.queue ≡ Some seen.queue }
        ensures { self.new ≡ record self.old { learned = self.old.learned ++ seen.tickets ∷ [] } }
    {
        self.control.learn(seen);
    }

    /// Queues the control's end, so that all that is queued is committed unless the pipeline stops. While the queue is
    /// full it waits and tries again. Returns `None` if the run is given up and nobody serves. Takes no memory.
    pub fn end<R: Wait + Clock>(self, rt: &R) -> Option<ControlEnd>
        ensures { IfSome result (λ end. end ≡ sender_with self.entry item.End) }
    {
        end_control(rt, self.control, false, self.stop)
    }

    /// Queues the Close, so that packets behind it get `Shutdown`. While the queue is full it waits and tries again.
    /// Returns `None` if the run is given up and nobody serves. Takes no memory.
    pub fn shut<R: Wait + Clock>(self, rt: &R) -> Option<ControlEnd>
        ensures { IfSome result (λ end. end ≡ sender_with self.entry item.Close) }
    {
        end_control(rt, self.control, true, self.stop)
    }

    /// Starts a thread that does `work` with the control and then queues its End, not the Close. If the thread can't be started, gives the
    /// run up and returns `None`.
    pub fn start<E, R: Wait + Clock + Sync, F: FnOnce(&mut ControlClient<'_>) + Send + 's>(
        self,
        scope: &Scope<'s, E>,
        rt: &'s R,
        work: F,
    ) -> Option<PromisedHandle<Option<ControlEnd>, OwnOpenEnd>>
        requires callable { F.IsAlwaysCallable work }
        requires own { (before : SenderState) (after : SenderState)
            → FnOnceReturnsAtMut F.FnOnce work before tt after → after.seat ≡ before.seat }
        ensures { IfSome result (λ thread. thread.promise.control.value ≡ self.entry) }
    {
        let control = self;
        let stop = control.stop;
        let started = scope.spawn_with(
            OwnOpenEnd::of(&control.control),
            move || -> Option<ControlEnd>
                requires callable { F.IsAlwaysCallable work }
                requires own { (before : SenderState) (after : SenderState)
                    → FnOnceReturnsAtMut F.FnOnce work before tt after → after.seat ≡ before.seat }
                ensures { IfSome result (λ end. (end.seat ≡ control.entry.seat)
                    × ((front : List ItemValue) × (end.queued ≡ front ++ item.End ∷ []))) }
            {
                let mut control = control;
                work(&mut control);
                control.end(rt)
            },
        );
        if started.is_err() {
            stop.give_up();
        }
        started.ok()
    }
}
