//! A moment to which the tables can go back.

ghost use Rattle.std.specs.Prelude.{◌≡◌, ℕ};

use std::marker::Model;

/// How many changes could be taken back when the mark was set.
#[derive(Clone, Copy, Debug)]
pub struct Mark {
    changes: usize,
}

impl Model for Mark {
    ghost Value = { ℕ };

    ghost view = { λ mark. mark.changes };

    ghost inverse = { λ changes. record { changes = changes } };
}

impl Mark {
    /// Returns a mark after this number of changes.
    pub(crate) fn new(changes: usize) -> Mark
        ensures { result ≡ changes }
    {
        Mark { changes }
    }

    /// Returns the number of changes before it.
    pub fn changes(self) -> usize
        ensures { result ≡ self }
    {
        self.changes
    }
}
