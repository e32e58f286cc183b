//! The promises that a thread ends the submitter or the control that was moved into it.

ghost use Rattle.std.specs.Prelude.{◌≡◌};

use std::snapshot::Snapshot;
use std::thread::Promise;
use tb_submit::{Control, ControlEnd, Ended, Submitter};

/// Promises that the end that a thread returns, if it returns one, is that of this submitter. A thread is started under it
/// by `spawn_with`, and `join` then returns an end that `settle` accepts at the submitter's index.
#[derive(Drop)]
pub struct OwnEnd {
    pub submitter: Snapshot<Submitter>,
}

impl Promise<Option<Ended>> for OwnEnd {
    ghost use Rattle.std.specs.Prelude.{◌≡◌, IfSome};
    ghost use Rattle.tb_submit.specs.clauses.Ends.{end_origin, origin_of};

    ghost kept_by = { λ p result. IfSome result (λ end. end_origin end ≡ origin_of p.submitter.value) };
}

impl OwnEnd {
    /// Returns the promise for a submitter that is about to be moved into a thread.
    pub fn of(submitter: &Submitter) -> OwnEnd
        ensures { result.submitter.value ≡ submitter.now }
    {
        OwnEnd {
            submitter: Snapshot::of(submitter),
        }
    }
}

/// Promises that the end that a thread returns, if it returns one, is that of this control, as `OwnEnd` does for a
/// submitter. `join` then returns an end that `settle` accepts as the control's.
#[derive(Drop)]
pub struct OwnControlEnd {
    pub control: Snapshot<Control>,
}

impl Promise<Option<ControlEnd>> for OwnControlEnd {
    ghost use Rattle.std.specs.Prelude.{◌≡◌, IfSome};

    ghost kept_by = { λ p result. IfSome result (λ end. end.seat ≡ p.control.value.seat) };
}

/// Promises the same, and that the control's last item is its End, not the Close.
#[derive(Drop)]
pub struct OwnOpenEnd {
    pub control: Snapshot<Control>,
}

impl Promise<Option<ControlEnd>> for OwnOpenEnd {
    ghost use Rattle.std.specs.Prelude.{◌≡◌, ◌++◌, ◌∷◌, [], List, IfSome};
    ghost use Rattle.tb_work.specs.declared.item.Item.{Item as ItemValue};
    ghost use Rattle.tb_work.specs.declared.item.Item.TheVariants as item;

    ghost kept_by = { λ p result. IfSome result (λ end. (end.seat ≡ p.control.value.seat)
        × ((front : List ItemValue) × (end.queued ≡ front ++ item.End ∷ []))) };
}

impl OwnControlEnd {
    /// Returns the promise for a control that is about to be moved into a thread.
    pub fn of(control: &Control) -> OwnControlEnd
        ensures { result.control.value ≡ control.now }
    {
        OwnControlEnd {
            control: Snapshot::of(control),
        }
    }
}

impl OwnOpenEnd {
    /// Returns the promise for a control that is about to be moved into a thread.
    pub fn of(control: &Control) -> OwnOpenEnd
        ensures { result.control.value ≡ control.now }
    {
        OwnOpenEnd {
            control: Snapshot::of(control),
        }
    }
}
