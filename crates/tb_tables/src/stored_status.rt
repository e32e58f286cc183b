//! A status as the map of transfers stores it.

ghost use Rattle.std.specs.Prelude.{◌≡◌, Some};
ghost use Rattle.tb_tables.specs.inside.Columns.{status_of_stored};
ghost use Rattle.tb_tables.specs.inside.Changing.{status_first};

use crate::status::Status;
use tb_layout::Transfer;

/// The status of a transfer, or that it has none: one byte. An `Option<Status>` has two.
#[derive(Clone, Copy)]
pub(crate) enum StoredStatus {
    NotPending,
    Pending,
    Posted,
    Voided,
    Expired,
}

const _: () = prove!(size_of::<StoredStatus>() == 1);

impl StoredStatus {
    /// Returns the status of a transfer that nothing resolved.
    pub(crate) fn first(transfer: &Transfer) -> StoredStatus
        ensures { status_of_stored result ≡ status_first transfer.now }
    {
        if transfer.is_pending() {
            StoredStatus::Pending
        } else {
            StoredStatus::NotPending
        }
    }

    /// Returns a status as it is stored.
    pub(crate) fn of(status: Status) -> StoredStatus
        ensures { status_of_stored result ≡ Some status }
    {
        match status {
            Status::Pending => StoredStatus::Pending,
            Status::Posted => StoredStatus::Posted,
            Status::Voided => StoredStatus::Voided,
            Status::Expired => StoredStatus::Expired,
        }
    }

    /// Returns the status, if it is that of a pending transfer.
    pub(crate) fn status(self) -> Option<Status>
        ensures { result ≡ status_of_stored self }
    {
        match self {
            StoredStatus::NotPending => None,
            StoredStatus::Pending => Some(Status::Pending),
            StoredStatus::Posted => Some(Status::Posted),
            StoredStatus::Voided => Some(Status::Voided),
            StoredStatus::Expired => Some(Status::Expired),
        }
    }
}
