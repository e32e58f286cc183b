//! Why a run is given up.

ghost use Rattle.std.specs.Prelude.{◌≡◌};

use std::alloc::{AllocError, AllocFailed};
use std::error::Error;
use std::fmt;
use std::fmt::{Display, Formatter};
use tb_layout::NoMemory;

/// Why a run is given up.
#[derive(Clone, Copy, Debug, PartialEq, Eq)]
pub enum DriveFault {
    /// Memory ran out, before any thread was started.
    NoMemory,
    /// A thread couldn't be started.
    NoThread,
}

impl Display for DriveFault {
    fn fmt<W: fmt::Write>(&self, f: &mut Formatter<W>) -> fmt::Result {
        f.pad(match self {
            DriveFault::NoMemory => "memory ran out",
            DriveFault::NoThread => "a thread could not be started",
        })
    }
}

impl Error for DriveFault {}

impl<T: Drop> From<AllocFailed<T>> for DriveFault {
    ghost use Rattle.tb_drive.specs.declared.drive_fault.DriveFault.TheVariants as fault;

    ghost from_gives = { λ _ given. given ≡ fault.NoMemory };

    fn from(_refused: AllocFailed<T>) -> DriveFault {
        DriveFault::NoMemory
    }
}

impl From<AllocError> for DriveFault {
    ghost use Rattle.tb_drive.specs.declared.drive_fault.DriveFault.TheVariants as fault;

    ghost from_gives = { λ _ given. given ≡ fault.NoMemory };

    fn from(_refused: AllocError) -> DriveFault {
        DriveFault::NoMemory
    }
}

impl From<NoMemory> for DriveFault {
    ghost use Rattle.tb_drive.specs.declared.drive_fault.DriveFault.TheVariants as fault;

    ghost from_gives = { λ _ given. given ≡ fault.NoMemory };

    fn from(_refused: NoMemory) -> DriveFault {
        DriveFault::NoMemory
    }
}
