//! How much is stored.

/// How many accounts and transfers are stored, and how many ids of transfers that failed so that their ids are refused later.
#[derive(Clone, Copy, Debug, PartialEq, Eq)]
pub struct Counts {
    pub accounts: usize,
    pub transfers: usize,
    pub failed_ids: usize,
}
