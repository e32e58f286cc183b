//! The front before a ledger, with the number of its submitters.

ghost use Rattle.std.specs.Prelude.{◌≡◌};

use arrayvec::ArrayVec;
use std::alloc::Global;
use std::marker::Model;
use tb_batch::Batch;
use tb_core::{Front, Parcel};
use tb_work::{Item, Refusal, Ticket};

/// A front, which knows how many submitters it has.
#[derive(Drop)]
pub(crate) struct Door {
    front: Front,
    submitters: u32,
}

impl Model for Door {
    ghost use Rattle.std.specs.Prelude.{◌≡◌, ℕ};

    ghost Value = { ℕ };

    ghost view = { λ door. door.submitters };

    ghost invariant = { λ door. door.front.submitters ≡ door.submitters };
}

impl Door {
    /// Returns a front that took nothing, as `Front::new` does.
    pub(crate) fn new(alloc: Global, limit: u32, submitters: u32) -> Result<Door, Refusal> {
        let front = Front::new(alloc, limit, submitters)?;
        Ok(Door { front, submitters })
    }

    /// Takes an item of a submitter, or of the control, whose number comes after theirs; a greater number is the control's too.
    pub(crate) fn take(&mut self, sender: u32, item: Item) -> ArrayVec<Parcel, 2> {
        let sender = sender.min(self.submitters);
        self.front.take(Ticket { sender, item })
    }

    /// Returns the group held, if there is one.
    pub(crate) fn idle(&mut self) -> Option<Batch> {
        self.front.idle()
    }
}
