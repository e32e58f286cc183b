//! How much is stored.

/// How much is stored, as C reads it.
#[repr(C)]
#[derive(Clone, Copy)]
pub struct KipCounts {
    pub accounts: u64,
    pub transfers: u64,
    /// The ids of transfers that failed so that their ids are refused later.
    pub failed_ids: u64,
}
