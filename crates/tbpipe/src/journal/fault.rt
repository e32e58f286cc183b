//! Why the program couldn't do its work.

use sqlite::{Error as SqliteError, ErrorCode};
use sqlite_trees::error::StoreError;
use sqlite_trees::store::Store;
use std::alloc::{AllocError, AllocFailed};
use std::error::Error;
use std::fmt;
use tb_durable::{DurableLedger, OpenFault, Settings};
use tb_layout::NoMemory;
use tb_program_text::ProgramFault;

/// What is known of a path that the system doesn't open.
const CANNOT_OPEN: OpenFault = OpenFault::File(SqliteError::SqliteFailure(ErrorCode::CannotOpen));

/// A file that another process has open.
const IS_OPEN: OpenFault = OpenFault::File(SqliteError::SqliteFailure(ErrorCode::DatabaseBusy));

/// A page that isn't as it was written.
const DAMAGED: OpenFault = OpenFault::File(SqliteError::SqliteFailure(ErrorCode::DatabaseCorrupt));

/// A file that isn't a database, or one that no ledger is in.
const NO_DATABASE: OpenFault = OpenFault::File(SqliteError::SqliteFailure(ErrorCode::NotADatabase));

/// Why a script or a file wasn't taken, or not to its end.
#[derive(Clone, Copy, Debug, PartialEq, Eq)]
pub(crate) enum RunFault {
    /// There is no file to replay.
    NoFile,
    /// The file is empty, so there is no ledger in it to replay.
    EmptyFile,
    /// The file has no ledger to replay: its log was moved away, or no script was ever begun.
    NoLedger,
    /// The file isn't opened as a ledger.
    Open(OpenFault),
    /// The file or its log isn't where it was opened, so what the script committed isn't in the file at the path.
    Moved,
    /// The script gives settings, and the file's ledger has these.
    OtherSettings(Settings),
    /// Standard input can't be read.
    Read,
    /// A thread couldn't be started, and nothing is committed.
    NoThread,
    /// The output can't be written.
    Write,
    /// The output can't be written, after the whole script.
    WriteCommitted,
    /// Memory ran out. A part of the script may be committed.
    NoMemory,
    /// The ledger stopped: a write or an allocation failed, or there are no places left. If it is in doubt, the batch or pulse at
    /// which it stopped may be in the file.
    Stopped {
        fault: Option<StoreError>,
        in_doubt: bool,
    },
}

impl RunFault {
    /// Returns the exit status.
    pub(crate) fn status(&self) -> u8 {
        match self {
            RunFault::OtherSettings(_) => 1,
            _ => 2,
        }
    }
}

impl fmt::Display for RunFault {
    fn fmt<W: fmt::Write>(&self, f: &mut fmt::Formatter<W>) -> fmt::Result {
        match self {
            RunFault::NoFile => f.write_str("there is no such file"),
            RunFault::EmptyFile => f.write_str("the file is empty, and has no ledger"),
            RunFault::NoLedger => f.write_str(
                "the file has no ledger; if its log, whose name ends in -wal, was moved away, put it back",
            ),
            RunFault::Open(fault) => put_opening(f, *fault),
            RunFault::Moved => f.write_str(
                "the file or its log was moved or deleted meanwhile, so nothing is printed: what the script committed isn't in the file at this path; put both back together, if you have them",
            ),
            RunFault::OtherSettings(kept) => {
                let Settings {
                    clock,
                    limit,
                    submitters,
                } = kept;
                write!(
                    f,
                    "the file's ledger was opened with clock {clock}, limit {limit} and submitters {submitters}, and the script's settings don't fit: change them (a script without `submitters` has two)"
                )
            }
            RunFault::Read => f.write_str("standard input can't be read to its end"),
            RunFault::NoThread => f.write_str("a thread couldn't be started"),
            RunFault::Write => f.write_str("standard output can't be written"),
            RunFault::WriteCommitted => f.write_str(
                "standard output can't be written; what the script committed is in the file, and `replay` shows its accounts",
            ),
            RunFault::NoMemory => f.write_str(
                "memory ran out; a part of the script may be in the file, and `replay` shows its accounts",
            ),
            RunFault::Stopped { fault, in_doubt } => put_stop(f, fault, *in_doubt),
        }
    }
}

/// Says why a file isn't opened as a ledger, and what to do.
fn put_opening<W: fmt::Write>(f: &mut fmt::Formatter<W>, fault: OpenFault) -> fmt::Result {
    f.write_str("the file isn't opened: ")?;
    match fault {
        CANNOT_OPEN => f.write_str(
            "it must be a plain file with one name, in a folder that is there, and you must be allowed to write both; if a file with its name and -journal is there too, a program was ended as it wrote: run sqlite3 FILE 'select count(*) from sqlite_master'",
        ),
        IS_OPEN => f.write_str("another process has it open: wait until that has ended"),
        DAMAGED => f.write_str(
            "a page of it is damaged: put a copy back; only if you know that another SQLite wrote to it, copy its rows as docs/DURABLE.md says",
        ),
        NO_DATABASE => {
            f.write_str("it isn't an SQLite database as a ledger's is: give a ledger's file")
        }
        OpenFault::NotALedger => {
            f.write_str("it has other tables than a ledger's: give a ledger's file")
        }
        OpenFault::OtherVersion(_) => {
            write!(
                f,
                "{fault}, and this program reads version 1: use the one that wrote it"
            )
        }
        OpenFault::BadSettings | OpenFault::OutOfPlace(_) | OpenFault::BadEntry(_) => {
            write!(f, "{fault}, so its rows were changed: put a copy back")
        }
        _ => write!(f, "{fault}"),
    }
}

/// Returns why a ledger stopped. Returns None if it hasn't.
pub(crate) fn stop_of<S: Store + Drop>(ledger: &DurableLedger<S>) -> Option<RunFault> {
    if ledger.stopped() {
        Some(RunFault::Stopped {
            fault: ledger.fault(),
            in_doubt: ledger.in_doubt(),
        })
    } else {
        None
    }
}

/// Says why a ledger stopped.
fn put_stop<W: fmt::Write>(
    f: &mut fmt::Formatter<W>,
    fault: &Option<StoreError>,
    in_doubt: bool,
) -> fmt::Result {
    f.write_str("the ledger stopped")?;
    if let Some(fault) = fault {
        write!(f, ": {fault}")?;
    }
    f.write_str(if in_doubt {
        "; the first batch or pulse that isn't printed as committed may be in the file, whole, and `replay` shows it; nothing after it is committed"
    } else {
        "; nothing that is printed as stopped is committed"
    })
}

impl Error for RunFault {}

impl From<OpenFault> for RunFault {
    fn from(fault: OpenFault) -> RunFault {
        RunFault::Open(fault)
    }
}

impl From<NoMemory> for RunFault {
    fn from(_refused: NoMemory) -> RunFault {
        RunFault::NoMemory
    }
}

impl<T: Drop> From<AllocFailed<T>> for RunFault {
    fn from(_refused: AllocFailed<T>) -> RunFault {
        RunFault::NoMemory
    }
}

impl From<AllocError> for RunFault {
    fn from(_refused: AllocError) -> RunFault {
        RunFault::NoMemory
    }
}

impl From<ProgramFault> for RunFault {
    fn from(fault: ProgramFault) -> RunFault {
        match fault {
            ProgramFault::Write => RunFault::Write,
            ProgramFault::NoMemory => RunFault::NoMemory,
            ProgramFault::Read => RunFault::Read,
            ProgramFault::NoThread => RunFault::NoThread,
        }
    }
}
