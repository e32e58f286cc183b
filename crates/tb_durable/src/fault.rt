use sqlite_trees::error::StoreError;
use std::error::Error;
use std::fmt;

/// Why a ledger isn't opened. Opening writes nothing then, but for a new ledger's table and settings.
#[derive(Clone, Copy, Debug, PartialEq, Eq)]
pub enum OpenFault {
    /// An allocation failed.
    NoMemory,
    /// The table can't be read or written.
    Store(StoreError),
    /// The file can't be opened, another process has it open, or it isn't a sound database.
    File(sqlite::Error),
    /// The log has pages, and the file isn't there or has none: it was moved, removed or emptied without its log. Opening would write over
    /// the log.
    LogWithoutFile,
    /// The database has anything but the ledger's table.
    NotALedger,
    /// The first row doesn't say how the ledger was opened.
    BadSettings,
    /// The table has this version of the format, and this program reads another.
    OtherVersion(u64),
    /// The row that should be at this place isn't: it is missing, or another is there.
    OutOfPlace(u64),
    /// The row at this place is no entry:
    ///
    /// - its operation is unknown, or a column has a value of another type;
    /// - it has no stubs, these aren't 16 bytes each, or they don't fit its body;
    /// - its packets couldn't be in one batch, or a packet doesn't have its submitter's next number;
    /// - it is a pulse whose moment is above `MOMENT_MAX`.
    BadEntry(u64),
}

impl fmt::Display for OpenFault {
    fn fmt<W: fmt::Write>(&self, f: &mut fmt::Formatter<W>) -> fmt::Result {
        match self {
            OpenFault::NoMemory => f.write_str("out of memory"),
            OpenFault::Store(error) => write!(f, "{error}"),
            OpenFault::File(error) => write!(f, "{error}"),
            OpenFault::LogWithoutFile => f.write_str(
                "the file isn't there or is empty, but its log, whose name ends in -wal, has pages: put the file back, or move the log away",
            ),
            OpenFault::NotALedger => f.write_str("the database is not a ledger's"),
            OpenFault::BadSettings => f.write_str("the first row has no settings"),
            OpenFault::OtherVersion(version) => {
                write!(f, "the ledger has version {version} of the format")
            }
            OpenFault::OutOfPlace(place) => write!(f, "no row is at place {place}"),
            OpenFault::BadEntry(place) => write!(f, "the row at place {place} is no entry"),
        }
    }
}

impl Error for OpenFault {}

impl From<StoreError> for OpenFault {
    ghost use Rattle.std.specs.Prelude.{◌≡◌};
    ghost use Rattle.tb_durable.specs.declared.fault.OpenFault.TheVariants as fault;

    ghost from_gives = { λ error given. given ≡ fault.Store error };

    fn from(error: StoreError) -> OpenFault {
        OpenFault::Store(error)
    }
}
