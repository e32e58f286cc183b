//! Why the program could not do its work.

ghost use Rattle.std.specs.Prelude.{◌≡◌};
ghost use Rattle.tb_program_text.specs.declared.program_fault.ProgramFault.TheVariants.{NoMemory as OutOfMemory};

use std::alloc::{AllocError, AllocFailed};
use tb_layout::NoMemory;
use thiserror::Error;

/// Why a script was not run to its end.
#[derive(Debug, Drop, Error)]
pub enum ProgramFault {
    /// The reader failed, or the script had not ended after 16,777,217 reads.
    #[error("the reader failed")]
    Read,
    /// The writer failed; part of the output may be written.
    #[error("the writer failed")]
    Write,
    #[error("memory ran out")]
    NoMemory,
    #[error("a thread could not be started")]
    NoThread,
}

impl From<NoMemory> for ProgramFault {
    ghost from_gives = { λ _ fault. fault ≡ OutOfMemory };

    fn from(_refused: NoMemory) -> ProgramFault {
        ProgramFault::NoMemory
    }
}

impl From<AllocError> for ProgramFault {
    ghost from_gives = { λ _ fault. fault ≡ OutOfMemory };

    fn from(_refused: AllocError) -> ProgramFault {
        ProgramFault::NoMemory
    }
}

impl<T: Drop> From<AllocFailed<T>> for ProgramFault {
    ghost from_gives = { λ _ fault. fault ≡ OutOfMemory };

    fn from(_refused: AllocFailed<T>) -> ProgramFault {
        ProgramFault::NoMemory
    }
}
