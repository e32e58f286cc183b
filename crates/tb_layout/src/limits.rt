//! The bounds that packets, moments, clocks and counts keep.

/// The most events of a batch, and so of a packet: what fits a message of TigerBeetle's, 1 MiB less
/// its header, at 128 bytes an event.
pub const BATCH_MAX: u32 = 8190;

/// The most places of a submission queue, and the greatest credit of a submitter: the packets that it may have
/// queued with their replies unread.
pub const CAPACITY_MAX: u32 = 65_536;

/// The greatest moment of a pulse, in nanoseconds: some 146 years. Half of what a clock can tell, so
/// that events still get timestamps after it.
pub const MOMENT_MAX: u64 = 1 << 62;

/// The greatest clock, in nanoseconds. TigerBeetle keeps the topmost bit of a timestamp free.
pub const CLOCK_MAX: u64 = 0x7fff_ffff_ffff_ffff;

/// The most packets that a submitter queues in a run, or pulses that the control does. At 10^9 a second it takes two years.
pub const QUEUED_MAX: u64 = 1 << 56;

/// The most places of a journal, one for each committed packet and pulse.
pub const PLACES_MAX: u64 = 1 << 63;

/// The nanoseconds of a second: a timeout is in seconds, a timestamp in nanoseconds.
pub const NANOSECONDS_PER_SECOND: u64 = 1_000_000_000;

/// The most submitters of a queue or a front, numbered from 0.
pub const SUBMITTERS_MAX: u32 = 16;

/// The length of a list with an element for each submitter that there may be.
pub const SUBMITTERS_LENGTH: usize = SUBMITTERS_MAX as usize;

/// The bytes of an account or a transfer.
pub const EVENT_SIZE: usize = 128;

/// The bytes of an id.
pub const ID_SIZE: usize = 16;
