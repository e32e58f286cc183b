//! The status of a pending transfer.

/// The status of a pending transfer.
#[derive(Clone, Copy, Debug, PartialEq, Eq)]
pub enum Status {
    Pending,
    Posted,
    Voided,
    Expired,
}
