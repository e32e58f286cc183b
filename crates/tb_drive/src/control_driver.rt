//! What an application says of the control.

ghost use Rattle.std.specs.Prelude.{◌≡◌, ℕ, List, [], ◌∷◌, ◌++◌, Ok, Err, true, false, ⊤};
ghost use Rattle.tb_work.specs.declared.item.Item.{Item as ItemValue};
ghost use Rattle.tb_work.specs.declared.item.Item.TheVariants as item;
ghost use Rattle.tb_work.specs.declared.refusal.Refusal.TheVariants as refusal;
ghost use Rattle.tb_drive.specs.clauses.Actions.{ControlClaimAfter};
ghost use Rattle.tb_drive.specs.clauses.Plan.{is_refused};

use std::sync::Wait;
use tb_work::Refusal;

/// What the control does next.
#[derive(Clone, Copy, Debug, PartialEq, Eq)]
pub enum ControlAction {
    /// It queues a pulse with this moment, in nanoseconds. While the queue is full it tries again.
    Pulse(u64),
    /// It does nothing now: its thread yields, and later sleeps for some 50 microseconds, and then the driver is asked again.
    Wait,
    /// It queues the Close and ends, and its driver isn't asked again. Packets behind the Close are answered Shutdown.
    Close,
    /// It ends, and its driver isn't asked again.
    End,
}

/// Says when the control queues a pulse, and how it ends. The control's own thread calls it, one call after another.
///
/// `next` may wait: for a clock, for a channel, for another thread. Until it returns, the control hasn't ended, so the
/// run can't end or be given up. If a thread can't be started, no other driver is asked any more: so what only another
/// driver can say is waited for by `ControlAction::Wait`, not in `next`. A pulse is queued once `next` returns it, after
/// all packets that are queued by then.
///
/// Its implementor says what is known of a driver after a run, by three relations, which hold of anything unless they
/// are given. Each is between a driver as it was when the run began, the same driver later, and what it has had queued
/// in the run. `has_queued` is of a driver that has the results of all that it asked for. `has_asked` is of one that
/// has also asked for a pulse at a moment and has no result yet. `has_ended` is of one that ended: the last item is its
/// Close or its End.
pub trait ControlDriver: Drop {
    ghost has_queued: { Self → Self → List ItemValue → Type 0 } = { λ _ _ _. ⊤ };

    ghost has_asked: { Self → Self → ℕ → List ItemValue → Type 0 } = { λ _ _ _ _. ⊤ };

    ghost has_ended: { Self → Self → List ItemValue → Type 0 } = { λ _ _ _. ⊤ };

    /// Returns what the control does next. It may wait with `rt`.
    fn next<R: Wait>(&mut self, rt: &R) -> ControlAction
        ensures { (first : Self) (items : List ItemValue) → has_queued first self.old items
            → ControlClaimAfter result (λ moment. has_asked first self.new moment items) (has_queued first self.new items)
            (λ last. has_ended first self.new (items ++ last ∷ [])) };

    /// Receives the result of the last pulse: it is queued, or refused as `MomentTooLarge`, since its moment is above
    /// 2^62. After `Full` the pulse is tried again, and there is no result yet; nor is there one if the run is given up
    /// meanwhile.
    fn pulsed(&mut self, response: Result<(), Refusal>)
        ensures queued { (first : Self) (moment : ℕ) (items : List ItemValue) → has_asked first self.old moment items
            → response ≡ Ok tt → is_refused moment ≡ false → has_queued first self.new (items ++ item.Pulse moment ∷ []) }
        ensures refused { (first : Self) (moment : ℕ) (items : List ItemValue) → has_asked first self.old moment items
            → response ≡ Err refusal.MomentTooLarge → is_refused moment ≡ true → has_queued first self.new items };
}
