//! Why a call was refused.

ghost use Rattle.std.specs.Prelude.{◌≡◌};
ghost use Rattle.tb_work.specs.clauses.Refusal as spec;

use std::error::Error;
use std::fmt;
use std::fmt::{Display, Formatter};

/// Why a call was refused, in the order of the numbers.
#[derive(Clone, Copy, Debug, PartialEq, Eq)]
pub enum Refusal {
    /// The operation is none of 129, 130 and 131.
    InvalidOperation,
    /// The data isn't a whole number of events.
    InvalidDataSize,
    /// There are more events than the limit.
    TooMuchData,
    /// As many packets as the credit are queued, and their replies not read.
    InFlight,
    /// The queue was full.
    Full,
    /// Memory was refused.
    NoMemory,
    /// The pipeline was shut.
    Shutdown,
    /// The pipeline stopped.
    Stopped,
    /// The limit isn't 1 to 8190.
    BadLimit,
    /// The capacity or the credit isn't 1 to 65,536.
    BadCapacity,
    /// There aren't 1 to 16 submitters.
    BadSubmitters,
    /// The moment is above 2^62 nanoseconds.
    MomentTooLarge,
    /// A thread could not be started.
    NoThread,
}

impl Refusal {
    /// Returns the number that is printed, from 1.
    pub fn number(self) -> u32
        ensures { result ≡ spec.number_of self }
    {
        match self {
            Refusal::InvalidOperation => 1,
            Refusal::InvalidDataSize => 2,
            Refusal::TooMuchData => 3,
            Refusal::InFlight => 4,
            Refusal::Full => 5,
            Refusal::NoMemory => 6,
            Refusal::Shutdown => 7,
            Refusal::Stopped => 8,
            Refusal::BadLimit => 9,
            Refusal::BadCapacity => 10,
            Refusal::BadSubmitters => 11,
            Refusal::MomentTooLarge => 12,
            Refusal::NoThread => 13,
        }
    }

    /// Returns the name that is printed.
    pub fn name(self) -> &'static str
        ensures { result.now ≡ spec.name_of self }
    {
        match self {
            Refusal::InvalidOperation => "InvalidOperation",
            Refusal::InvalidDataSize => "InvalidDataSize",
            Refusal::TooMuchData => "TooMuchData",
            Refusal::InFlight => "InFlight",
            Refusal::Full => "Full",
            Refusal::NoMemory => "NoMemory",
            Refusal::Shutdown => "Shutdown",
            Refusal::Stopped => "Stopped",
            Refusal::BadLimit => "BadLimit",
            Refusal::BadCapacity => "BadCapacity",
            Refusal::BadSubmitters => "BadSubmitters",
            Refusal::MomentTooLarge => "MomentTooLarge",
            Refusal::NoThread => "NoThread",
        }
    }
}

impl Display for Refusal {
    fn fmt<W: fmt::Write>(&self, f: &mut Formatter<W>) -> fmt::Result {
        f.pad(match self {
            Refusal::InvalidOperation => "the operation is none of 129, 130 and 131",
            Refusal::InvalidDataSize => "the data isn't a whole number of events",
            Refusal::TooMuchData => "there are more events than the limit",
            Refusal::InFlight => "the credit is used up",
            Refusal::Full => "the queue was full",
            Refusal::NoMemory => "memory ran out",
            Refusal::Shutdown => "the pipeline was shut",
            Refusal::Stopped => "the pipeline stopped",
            Refusal::BadLimit => "the limit isn't 1 to 8190",
            Refusal::BadCapacity => "the capacity or the credit isn't 1 to 65536",
            Refusal::BadSubmitters => "there aren't 1 to 16 submitters",
            Refusal::MomentTooLarge => "the moment is above 2^62 nanoseconds",
            Refusal::NoThread => "a thread could not be started",
        })
    }
}

impl Error for Refusal {}
