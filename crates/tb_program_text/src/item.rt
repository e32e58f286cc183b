//! What a script says.

ghost use Rattle.std.specs.Prelude.{◌≡◌};
ghost use Rattle.tb_program_text.specs.clauses.Script.{clock_of, limit_of, capacity_of, credit_of, submitters_of};

use crate::submitter_number::SubmitterNumber;
use tb_layout::BATCH_MAX;
use tb_work::Packet;

/// The settings that the script gives.
#[derive(Clone, Copy)]
pub struct Settings {
    pub clock: Option<u64>,
    pub limit: Option<u32>,
    pub capacity: Option<u32>,
    pub credit: Option<u32>,
    pub submitters: Option<u32>,
}

impl Settings {
    /// Returns what the clock starts at, in nanoseconds: 0 if the script doesn't say.
    pub fn clock(&self) -> u64
        ensures { result ≡ clock_of self.now }
    {
        self.clock.unwrap_or(0)
    }

    /// Returns the most events of a batch: as many as there can be if the script doesn't say.
    pub fn limit(&self) -> u32
        ensures { result ≡ limit_of self.now }
    {
        self.limit.unwrap_or(BATCH_MAX)
    }

    /// Returns the places of the queue: 64 if the script doesn't say.
    pub fn capacity(&self) -> u32
        ensures { result ≡ capacity_of self.now }
    {
        self.capacity.unwrap_or(64)
    }

    /// Returns the credit of a submitter: 16 if the script doesn't say.
    pub fn credit(&self) -> u32
        ensures { result ≡ credit_of self.now }
    {
        self.credit.unwrap_or(16)
    }

    /// Returns how many submitters there are: 2 if the script doesn't say.
    pub fn submitters(&self) -> u32
        ensures { result ≡ submitters_of self.now }
    {
        self.submitters.unwrap_or(2)
    }
}

/// What a script queues, in the order of its lines.
#[derive(Drop)]
pub enum ScriptItem {
    /// A packet with its submitter.
    Packet(SubmitterNumber, Packet),
    /// A pulse with its moment, in nanoseconds, which may be too large.
    Pulse(u64),
    /// The Close.
    Shut,
}

/// A packet to which lines still add bytes.
#[derive(Drop)]
pub(crate) struct OpenPacket {
    pub(crate) submitter: SubmitterNumber,
    pub(crate) operation: u8,
    pub(crate) bytes: Vec<u8>,
}
