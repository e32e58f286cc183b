//! A transfer with its status.

ghost use Rattle.std.specs.Prelude.{◌≡◌};

use crate::status::Status;
use tb_layout::Transfer;

/// A transfer, and its status if it is a pending one.
#[derive(Clone, Copy)]
pub(crate) struct Row {
    pub(crate) transfer: Transfer,
    pub(crate) status: Option<Status>,
}

impl Row {
    ghost use Rattle.tb_tables.specs.inside.Changing.{is_open_status};

    /// Returns whether the transfer still reserves its amount.
    pub(crate) fn is_open(&self) -> bool
        ensures { result ≡ is_open_status self.now.status }
    {
        matches!(self.status, Some(Status::Pending))
    }
}
