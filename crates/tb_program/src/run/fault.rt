//! The fault of a run.

ghost use Rattle.std.specs.Prelude.{◌≡◌};
ghost use Rattle.tb_program.specs.inside.Faults.{program_fault_of};

use tb_drive::DriveFault;
use tb_program_text::ProgramFault;

/// Returns why the program gives up if its threads did: memory ran out, or a thread can't be started.
pub(crate) fn program_fault_of(fault: DriveFault) -> ProgramFault
    ensures { result ≡ program_fault_of fault }
{
    match fault {
        DriveFault::NoMemory => ProgramFault::NoMemory,
        DriveFault::NoThread => ProgramFault::NoThread,
    }
}
