//! Indices in the maps.

/// The indices of the rows that a transfer changes: its two accounts, and the pending transfer that a post or a void
/// names.
#[derive(Clone, Copy)]
pub(crate) struct Indices {
    pub(crate) debit: usize,
    pub(crate) credit: usize,
    pub(crate) pending: Option<usize>,
}
