//! Why a line of a script is faulty.

ghost use Rattle.std.specs.Prelude.{◌≡◌};
ghost use Rattle.tb_program_text.specs.clauses.Fault.{fault_text};
ghost use Rattle.tb_program_text.specs.declared.fault.LineError.TheVariants.{NoMemory as OutOfMemory, Fault as FaultOf};

use std::alloc::AllocError;
use std::error::Error;
use std::fmt;
use std::fmt::{Display, Formatter};
use tb_layout::NoMemory;

/// What is wrong with a line: the first that applies.
#[derive(Clone, Copy, Debug, PartialEq, Eq)]
pub enum Fault {
    LineTooLong,
    BadByte,
    UnknownWord,
    OutOfPlace,
    WrongNumberOfWords,
    BadField,
    BadNumber,
    BadHex,
}

impl Fault {
    /// Returns what is printed of the fault, after the number of its line.
    pub fn text(self) -> &'static str
        ensures { result.now ≡ fault_text self }
    {
        match self {
            Fault::LineTooLong => "line too long",
            Fault::BadByte => "bad byte",
            Fault::UnknownWord => "unknown word",
            Fault::OutOfPlace => "out of place",
            Fault::WrongNumberOfWords => "wrong number of words",
            Fault::BadField => "bad field",
            Fault::BadNumber => "bad number",
            Fault::BadHex => "bad hex",
        }
    }
}

/// Why a line could not be taken.
#[derive(Clone, Copy)]
pub(crate) enum LineError {
    NoMemory,
    Fault(Fault),
}

impl From<AllocError> for LineError {
    ghost from_gives = { λ _ error. error ≡ OutOfMemory };

    fn from(_refused: AllocError) -> LineError {
        LineError::NoMemory
    }
}

impl From<NoMemory> for LineError {
    ghost from_gives = { λ _ error. error ≡ OutOfMemory };

    fn from(_refused: NoMemory) -> LineError {
        LineError::NoMemory
    }
}

impl From<Fault> for LineError {
    ghost from_gives = { λ fault error. error ≡ FaultOf fault };

    fn from(fault: Fault) -> LineError {
        LineError::Fault(fault)
    }
}

impl Display for Fault {
    fn fmt<W: fmt::Write>(&self, f: &mut Formatter<W>) -> fmt::Result {
        f.pad(self.text())
    }
}

impl Error for Fault {}
