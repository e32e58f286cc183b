//! A submitter's number.

ghost use Rattle.std.specs.Prelude.{◌≡◌, ◌<◌, ℕ};
ghost use Rattle.tb_layout.specs.claim.Bounds.{submitters_max};

use std::marker::Model;

/// A submitter's number, which is below `SUBMITTERS_MAX`.
#[derive(Clone, Copy)]
pub struct SubmitterNumber {
    number: u32,
}

impl Model for SubmitterNumber {
    ghost Value = { ℕ };

    ghost view = { λ submitter. submitter.number };

    ghost inverse = { λ number. record { number = number } };

    ghost invariant = { λ submitter. submitter.number < submitters_max };
}

impl SubmitterNumber {
    /// Returns the submitter of this number.
    pub fn new(number: u32) -> SubmitterNumber
        requires { number < submitters_max }
        ensures { result ≡ number }
    {
        SubmitterNumber { number }
    }

    /// Returns its number.
    pub fn get(self) -> u32
        ensures value { result ≡ self }
        ensures bound { result < submitters_max }
    {
        self.number
    }
}
