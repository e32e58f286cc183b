/// What is kept of a packet in addition to a batch's data: its submitter, its number among that submitter's packets,
/// and its number of events.
#[derive(Clone, Copy, Debug, PartialEq, Eq)]
pub struct Stub {
    pub number: u64,
    pub submitter: u32,
    pub count: u32,
}
