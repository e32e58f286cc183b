//! What the exports return besides the numbers of refusals, and what the head of a reply has for an outcome.

/// The handle is closed.
pub(crate) const CLOSED: u32 = 100;

/// The handle is open.
pub(crate) const ALREADY_OPEN: u32 = 101;

/// No reply is unread.
pub(crate) const NO_REPLY: u32 = 102;

/// The buffer is too small for the results, or for the data.
pub(crate) const TOO_SMALL: u32 = 103;

/// There is no such account or transfer.
pub(crate) const NOT_FOUND: u32 = 104;

/// Nothing is left to be handed out.
pub(crate) const NO_ENTRY: u32 = 107;

/// An entry isn't the next by its place, or by its number among its submitter's.
pub(crate) const NOT_NEXT: u32 = 108;

/// A packet is held, a reply is unread, a pulse isn't handed out, or the engine is shut.
pub(crate) const IN_USE: u32 = 109;

/// The host doesn't keep the journal.
pub(crate) const NOT_RECORDED: u32 = 110;

/// Something at a lower place wasn't handed out.
pub(crate) const NOT_HANDED_OUT: u32 = 111;

/// The outcome of a packet that is committed.
pub(crate) const OUTCOME_COMMITTED: u32 = 0;

/// The outcome of a packet that was queued after the Close.
pub(crate) const OUTCOME_SHUTDOWN: u32 = 7;

/// The outcome of a packet without a place.
pub(crate) const OUTCOME_STOPPED: u32 = 8;
