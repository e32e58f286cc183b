/// How a ledger was opened at first: where its clock starts, in nanoseconds up to `CLOCK_MAX`, the limit of events in a
/// batch, and its number of submitters.
#[derive(Clone, Copy, Debug, PartialEq, Eq)]
pub struct Settings {
    pub clock: u64,
    pub limit: u32,
    pub submitters: u32,
}
