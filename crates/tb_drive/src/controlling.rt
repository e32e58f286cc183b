//! The control's thread.

ghost use Rattle.std.specs.Prelude.{◌≡◌, [], ◌∷◌, ◌++◌, List, ◌⊎◌, ◌<◌, ◌≤◌, length, true, false, Err, IfErr, IfSome, OnOk, OnSome};
ghost use Rattle.tb_layout.specs.claim.Bounds.{moment_max, queued_max};
ghost use Rattle.tb_submit.specs.clauses.Ends.{sender_with};
ghost use Rattle.tb_work.specs.declared.item.Item.{Item as ItemValue};
ghost use Rattle.tb_work.specs.declared.refusal.Refusal.TheVariants as refusal;
ghost use Rattle.tb_drive.specs.clauses.Plan.{is_refused, last_item, pulse_of, with_items};
ghost use Rattle.tb_drive.specs.clauses.Threads.{HasQueued, IsControlResultOf};

use crate::control_driver::{ControlAction, ControlDriver};
use crate::stop::Stop;
use std::marker::Model;
use std::snapshot::Snapshot;
use std::sync::Wait;
use std::thread::Promise;
use std::time::Clock;
use tb_layout::QUEUED_MAX;
use tb_rings::PollWait;
use tb_submit::{Control, ControlEnd};
use tb_work::Refusal;

/// The control with its driver, which hasn't queued anything yet.
#[derive(Drop)]
pub(crate) struct ControlTask<C: ControlDriver> {
    pub(crate) control: Control,
    pub(crate) driver: C,
}

impl<C: ControlDriver> Model for ControlTask<C> {
    ghost use Rattle.std.specs.Prelude.{[]};
    ghost use Rattle.tb_drive.specs.clauses.Tasks.{ControlTaskState};

    ghost Value = { ControlTaskState C };

    ghost view = { λ task. record { control = task.control; driver = task.driver } };

    ghost invariant = { λ task. C.has_queued task.driver task.driver [] };
}

/// What the control's thread returns: the control's end, and the driver.
#[derive(Drop)]
pub struct ControlResult<C: ControlDriver> {
    pub end: ControlEnd,
    pub driver: C,
}

/// The promise that the end, unless the thread was stopped, is that of the task's control, and that the driver is the
/// task's and has ended with what was queued.
#[derive(Drop)]
pub(crate) struct ControlPromise<C: ControlDriver> {
    pub(crate) task: Snapshot<ControlTask<C>>,
}

impl<C: ControlDriver> Promise<Option<ControlResult<C>>> for ControlPromise<C> {
    ghost use Rattle.std.specs.Prelude.{IfSome};
    ghost use Rattle.tb_drive.specs.clauses.Threads.{IsControlResultOf};

    ghost kept_by = { λ p r. IfSome r (IsControlResultOf C.has_ended p.task.value) };
}

/// Queues a pulse once, as `Control::pulse` does. After 2^56 pulses the queue is full, whatever else there is to
/// refuse.
fn pulse_once<R: Wait>(rt: &R, control: &mut Control, moment: u64) -> Result<(), Refusal>
    ensures ok { OnOk result ((control.new ≡ with_items control.old (pulse_of moment)) × (is_refused moment ≡ false)) }
    ensures refused { IfErr result (λ why. (control.new ≡ control.old)
        × ((why ≡ refusal.Full) ⊎ ((why ≡ refusal.MomentTooLarge) × (is_refused moment ≡ true)))) }
    ensures large { length control.old.queued < queued_max → moment_max < moment → result ≡ Err refusal.MomentTooLarge }
    ensures full { queued_max ≤ length control.old.queued → result ≡ Err refusal.Full }
{
    if control.queued() >= QUEUED_MAX {
        return Err(Refusal::Full);
    }
    control.pulse(rt, moment)
}

/// Queues a pulse, and while the queue is full tries again. The driver receives the result. None if the run is given
/// up.
fn pulse<C: ControlDriver, R: Wait + Clock>(
    rt: &R,
    control: &mut Control,
    driver: &mut C,
    moment: u64,
    stop: &Stop,
) -> Option<()>
    ensures queued { OnSome result (control.new ≡ with_items control.old (pulse_of moment)) }
    ensures response { (first : C) (items : List ItemValue) → C.has_asked first driver.old moment items
        → OnSome result (C.has_queued first driver.new (items ++ pulse_of moment)) }
{
    let poll = PollWait::new();
    for _ in rt.forever() {
        match pulse_once(rt, control, moment) {
            Ok(()) => return Some(driver.pulsed(Ok(()))),
            Err(Refusal::Full) => {}
            Err(refusal) => return Some(driver.pulsed(Err(refusal))),
        }
        if stop.is_given_up() {
            return None;
        }
        poll.wait(rt);
    }
    unreachable!()
}

/// Queues the pulses that the driver asks for, until it ends. Returns whether it ends by the Close, and None if the run
/// is given up.
fn follow<C: ControlDriver, R: Wait + Clock>(
    rt: &R,
    control: &mut Control,
    driver: &mut C,
    stop: &Stop,
) -> Option<bool>
    ensures { C.has_queued driver.old driver.old [] → IfSome result (λ shuts. HasQueued control.old control.new
        (λ items. C.has_ended driver.old driver.new (items ++ last_item shuts ∷ []))) }
{
    let poll = PollWait::new();
    for _ in rt.forever() {
        if stop.is_given_up() {
            return None;
        }
        match driver.next(rt) {
            ControlAction::Pulse(moment) => {
                pulse(rt, control, driver, moment, stop)?;
                poll.reset();
            }
            ControlAction::Wait => poll.wait(rt),
            ControlAction::Close => return Some(true),
            ControlAction::End => return Some(false),
        }
    }
    unreachable!()
}

/// Queues the Close if `shuts`, else the control's end. While the queue is full it waits and tries again. Returns `None`
/// if the run is given up and nobody serves. Takes no memory.
pub fn end_control<R: Wait + Clock>(
    rt: &R,
    control: Control,
    shuts: bool,
    stop: &Stop,
) -> Option<ControlEnd>
    ensures { IfSome result (λ end. end ≡ sender_with control (last_item shuts)) }
{
    let mut control = control;
    let poll = PollWait::new();
    for _ in rt.forever() {
        let ended = if shuts {
            control.shut(rt)
        } else {
            control.end(rt)
        };
        match ended {
            Ok(end) => return Some(end),
            Err((back, _)) => control = back,
        }
        if stop.is_given_up() && control.give_up() {
            return None;
        }
        poll.wait(rt);
    }
    unreachable!()
}

impl<C: ControlDriver> ControlTask<C> {
    /// Does what the driver says, and then ends the control. If the run is given up, its End is queued all the same, and `None` is
    /// returned.
    pub(crate) fn drive<R: Wait + Clock>(self, rt: &R, stop: &Stop) -> Option<ControlResult<C>>
        ensures { IfSome result (IsControlResultOf C.has_ended self) }
    {
        let ControlTask {
            mut control,
            mut driver,
        } = self;
        let Some(shuts) = follow(rt, &mut control, &mut driver, stop) else {
            drop(end_control(rt, control, false, stop));
            return None;
        };
        let end = end_control(rt, control, shuts, stop)?;
        Some(ControlResult { end, driver })
    }
}
