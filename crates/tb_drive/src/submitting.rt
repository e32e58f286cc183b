//! A submitter's thread.

ghost use Rattle.std.specs.Prelude.{◌≡◌, [], ◌∷◌, ◌++◌, ◌<◌, ◌≤◌, length, None, Err, OnOk, IfOk, IfErr, IfSome};
ghost use Rattle.tb_layout.specs.claim.Bounds.{queued_max};
ghost use Rattle.tb_submit.specs.clauses.Ends.{origin_of};
ghost use Rattle.tb_submit.specs.clauses.Refusals.{IsSubmitRefusal, submit_refusal};
ghost use Rattle.tb_work.specs.claim.Job.{numbered_packet};
ghost use Rattle.tb_work.specs.declared.packet.Packet as packets;
ghost use Rattle.tb_work.specs.declared.refusal.Refusal.TheVariants as refusal;
ghost use Rattle.tb_drive.specs.clauses.Ahead.{with_packet};
ghost use Rattle.tb_drive.specs.clauses.Seen.{HasSeen, HasSeenEnd, HasAsked, IsPrefixOf, jobs_in};
ghost use Rattle.tb_drive.specs.clauses.Refusing.{IsFinalRefusal, final_refusal};
ghost use Rattle.tb_drive.specs.clauses.Tasks.{IsEnd, IsResultOf};

use crate::driver::{Action, Driver};
use crate::stop::Stop;
use std::alloc::Global;
use std::marker::Model;
use std::snapshot::Snapshot;
use std::sync::Wait;
use std::thread::Promise;
use std::time::Clock;
use tb_layout::QUEUED_MAX;
use tb_rings::{IdleWait, PollWait};
use tb_submit::{Ended, Submitter};
use tb_work::{Packet, Refusal};

/// The run is given up: another thread couldn't be started.
struct Stopped;

/// A submitter with its driver, which has seen what the submitter queued and read.
#[derive(Drop)]
pub(crate) struct SubmitterTask<D: Driver> {
    pub(crate) submitter: Submitter,
    pub(crate) driver: D,
}

impl<D: Driver> Model for SubmitterTask<D> {
    ghost use Rattle.tb_drive.specs.clauses.Seen.{HasSeen};
    ghost use Rattle.tb_drive.specs.clauses.Tasks.{SubmitterTaskState};

    ghost Value = { SubmitterTaskState };

    ghost view = { λ task. record { submitter = task.submitter; share = D.share task.driver } };

    ghost invariant = { λ task. HasSeen D.has_seen task.driver task.submitter };
}

/// What a submitter's thread returns: the submitter's end, unless the run was given up first, and the driver, which has
/// seen what the end queued and read, and returned that it ends.
#[derive(Drop)]
pub(crate) struct SubmitterResult<D: Driver> {
    pub(crate) ended: Option<Ended>,
    pub(crate) driver: D,
}

impl<D: Driver> Model for SubmitterResult<D> {
    ghost use Rattle.std.specs.Prelude.{IfSome};
    ghost use Rattle.tb_drive.specs.clauses.Seen.{HasSeenEnd};
    ghost use Rattle.tb_drive.specs.clauses.Tasks.{SubmitterResultState};

    ghost Value = { SubmitterResultState };

    ghost view = { λ one. record { ended = one.ended; share = D.share one.driver } };

    ghost invariant = { λ one. IfSome one.ended (λ ended. HasSeenEnd D.has_seen one.driver ended
        × HasSeenEnd D.has_ended one.driver ended) };
}

/// The promise that the end is that of the task's submitter, and the driver the task's.
#[derive(Drop)]
pub(crate) struct SubmitterPromise<D: Driver> {
    pub(crate) task: Snapshot<SubmitterTask<D>>,
}

impl<D: Driver> Promise<SubmitterResult<D>> for SubmitterPromise<D> {
    ghost use Rattle.tb_drive.specs.clauses.Tasks.{IsResultOf};

    ghost kept_by = { λ p r. IsResultOf p.task.value r };
}

/// Submits a packet once, as `Submitter::submit` does, with its cost. A refused packet is returned. After 2^56 packets the
/// queue is full, whatever else there is to refuse.
pub fn submit_once<R: Wait>(
    rt: &R,
    alloc: Global,
    submitter: &mut Submitter,
    packet: Packet,
) -> Result<u64, (Packet, Refusal)>
    ensures own { origin_of submitter.new ≡ origin_of submitter.old }
    ensures ok { IfOk result (λ number. (number ≡ length submitter.old.queued)
        × (submitter.new ≡ with_packet submitter.old number packet)) }
    ensures job { IfOk result (λ number. jobs_in submitter.new.queued
        ≡ jobs_in submitter.old.queued ++ numbered_packet submitter.old.origin.seat.number number packet ∷ []) }
    ensures read { submitter.new.read ≡ submitter.old.read }
    ensures front { IsPrefixOf submitter.old.queued submitter.new.queued }
    ensures admitted { OnOk result (submit_refusal submitter.old packet ≡ None) }
    ensures back { IfErr result (λ refused. (refused.0 ≡ packet) × (submitter.new ≡ submitter.old)) }
    ensures refusal { length submitter.old.queued < queued_max
        → IfErr result (λ refused. IsSubmitRefusal submitter.old packet refused.1) }
    ensures full { queued_max ≤ length submitter.old.queued → result ≡ Err (packet, refusal.Full) }
    ensures kept { OnOk result (final_refusal submitter.old.origin.seat.limit submitter.old.read packet ≡ None) }
    ensures refused { IfErr result (λ refused. (refused.1 ≡ refusal.InFlight → ⊥) → (refused.1 ≡ refusal.Full → ⊥)
        → IsFinalRefusal submitter.old.origin.seat.limit submitter.old.read packet refused.1) }
{
    if submitter.queued() >= QUEUED_MAX {
        return Err((packet, Refusal::Full));
    }
    submitter.submit(rt, alloc, packet)
}

/// Hands the next reply to the driver. Returns whether there was one; with no packet in flight there is none.
fn read<D: Driver>(submitter: &mut Submitter, driver: &mut D) -> bool
    ensures own { origin_of submitter.new ≡ origin_of submitter.old }
    ensures front { submitter.new.queued ≡ submitter.old.queued }
    ensures seen { HasSeen D.has_seen driver.old submitter.old → HasSeen D.has_seen driver.new submitter.new }
    ensures ended { HasSeen D.has_ended driver.old submitter.old → HasSeen D.has_ended driver.new submitter.new }
    ensures asked { (packet : packets.Packet) → HasAsked D.has_asked driver.old packet submitter.old
        → HasAsked D.has_asked driver.new packet submitter.new }
    ensures share { D.share driver.new ≡ D.share driver.old }
{
    if submitter.in_flight() == 0 {
        return false;
    }
    match submitter.reply() {
        Some(reply) => {
            driver.receive(reply);
            true
        }
        None => false,
    }
}

/// Hands the next reply to the driver. If none is seen it waits for one, or polls if no packet is in flight.
///
/// It serves who waits for a slot of the queue too: a packet in flight leaves the queue before its reply comes. A wait without a look
/// before it could sleep over replies that are there.
fn read_or_wait<D: Driver, R: Wait + Clock>(
    rt: &R,
    submitter: &mut Submitter,
    driver: &mut D,
    idle: &IdleWait,
    poll: &PollWait,
)
    ensures own { origin_of submitter.new ≡ origin_of submitter.old }
    ensures front { submitter.new.queued ≡ submitter.old.queued }
    ensures seen { HasSeen D.has_seen driver.old submitter.old → HasSeen D.has_seen driver.new submitter.new }
    ensures ended { HasSeen D.has_ended driver.old submitter.old → HasSeen D.has_ended driver.new submitter.new }
    ensures asked { (packet : packets.Packet) → HasAsked D.has_asked driver.old packet submitter.old
        → HasAsked D.has_asked driver.new packet submitter.new }
    ensures share { D.share driver.new ≡ D.share driver.old }
{
    if read(submitter, driver) {
        return;
    }
    if submitter.in_flight() > 0 {
        submitter.wait(rt, idle);
    } else {
        poll.wait(rt);
    }
}

/// Submits a packet. While the credit is used up or the queue is full, it reads replies or waits, and tries again, unless the run is
/// given up. The driver receives the result.
fn submit<D: Driver, R: Wait + Clock>(
    rt: &R,
    alloc: Global,
    submitter: &mut Submitter,
    driver: &mut D,
    packet: Packet,
    stop: &Stop,
) -> Result<(), Stopped>
    ensures own { origin_of submitter.new ≡ origin_of submitter.old }
    ensures front { IsPrefixOf submitter.old.queued submitter.new.queued }
    ensures seen { HasAsked D.has_asked driver.old packet submitter.old
        → OnOk result (HasSeen D.has_seen driver.new submitter.new) }
    ensures share { D.share driver.new ≡ D.share driver.old }
{
    let mut packet = packet;
    let idle = IdleWait::new();
    let poll = PollWait::new();
    for _ in rt.forever() {
        match submit_once(rt, alloc, submitter, packet) {
            Ok(number) => return Ok(driver.submitted(Ok(number))),
            Err((back, Refusal::InFlight | Refusal::Full)) => packet = back,
            Err((_, refusal)) => return Ok(driver.submitted(Err(refusal))),
        }
        if stop.is_given_up() {
            return Err(Stopped);
        }
        read_or_wait(rt, submitter, driver, &idle, &poll);
    }
    unreachable!()
}

/// Waits for the next reply, if one is to come and the run isn't given up.
fn receive<D: Driver, R: Wait + Clock>(
    rt: &R,
    submitter: &mut Submitter,
    driver: &mut D,
    stop: &Stop,
)
    ensures own { origin_of submitter.new ≡ origin_of submitter.old }
    ensures front { submitter.new.queued ≡ submitter.old.queued }
    ensures seen { HasSeen D.has_seen driver.old submitter.old → HasSeen D.has_seen driver.new submitter.new }
    ensures share { D.share driver.new ≡ D.share driver.old }
{
    let idle = IdleWait::new();
    for _ in rt.forever() {
        let waits = submitter.in_flight() > 0 && !stop.is_given_up();
        if !waits || read(submitter, driver) {
            return;
        }
        submitter.wait(rt, &idle);
    }
    unreachable!()
}

/// Does what the driver says until it ends, or until the run is given up.
fn follow<D: Driver, R: Wait + Clock>(
    rt: &R,
    alloc: Global,
    submitter: &mut Submitter,
    driver: &mut D,
    stop: &Stop,
) -> Result<(), Stopped>
    ensures own { origin_of submitter.new ≡ origin_of submitter.old }
    ensures front { IsPrefixOf submitter.old.queued submitter.new.queued }
    ensures seen { HasSeen D.has_seen driver.old submitter.old
        → OnOk result (HasSeen D.has_seen driver.new submitter.new × HasSeen D.has_ended driver.new submitter.new) }
    ensures share { D.share driver.new ≡ D.share driver.old }
{
    let poll = PollWait::new();
    for _ in rt.forever() {
        if stop.is_given_up() {
            return Err(Stopped);
        }
        match driver.next(rt, alloc) {
            Action::Submit(packet) => {
                submit(rt, alloc, submitter, driver, packet, stop)?;
                poll.reset();
            }
            Action::Receive if submitter.in_flight() == 0 => poll.wait(rt),
            Action::Receive => receive(rt, submitter, driver, stop),
            Action::End => return Ok(()),
        }
    }
    unreachable!()
}

/// Ends the submitter, and while the queue is full reads replies and tries again. None if the
/// run is given up and nobody serves.
fn end<D: Driver, R: Wait + Clock>(
    rt: &R,
    submitter: Submitter,
    driver: &mut D,
    stop: &Stop,
) -> Option<Ended>
    ensures own { IsEnd submitter result }
    ensures seen { HasSeen D.has_seen driver.old submitter
        → IfSome result (λ ended. HasSeenEnd D.has_seen driver.new ended) }
    ensures ended { HasSeen D.has_ended driver.old submitter
        → IfSome result (λ ended. HasSeenEnd D.has_ended driver.new ended) }
    ensures share { D.share driver.new ≡ D.share driver.old }
{
    let mut submitter = submitter;
    let idle = IdleWait::new();
    let poll = PollWait::new();
    for _ in rt.forever() {
        match submitter.end(rt) {
            Ok(ended) => return Some(ended),
            Err((back, _)) => submitter = back,
        }
        if stop.is_given_up() && submitter.give_up() {
            return None;
        }
        read_or_wait(rt, &mut submitter, driver, &idle, &poll);
    }
    unreachable!()
}

/// Queues the End of a submitter whose run is given up, since a `serve` that runs waits for it.
fn end_given_up<D: Driver, R: Wait + Clock>(
    rt: &R,
    submitter: Submitter,
    driver: &mut D,
    stop: &Stop,
)
    ensures { D.share driver.new ≡ D.share driver.old }
{
    drop(end(rt, submitter, driver, stop));
}

impl<D: Driver> SubmitterTask<D> {
    /// Does what the driver says, and then ends the submitter. If the run is given up, its End is queued all the same, since
    /// `serve` waits for it, but isn't returned.
    pub(crate) fn drive<R: Wait + Clock>(
        self,
        rt: &R,
        alloc: Global,
        stop: &Stop,
    ) -> SubmitterResult<D>
        ensures { IsResultOf self result }
    {
        let SubmitterTask {
            mut submitter,
            mut driver,
        } = self;
        let ended = match follow(rt, alloc, &mut submitter, &mut driver, stop) {
            Ok(()) => end(rt, submitter, &mut driver, stop),
            Err(Stopped) => {
                end_given_up(rt, submitter, &mut driver, stop);
                None
            }
        };
        SubmitterResult { ended, driver }
    }
}
