//! The log beside a ledger's file, as far as lengths and the file's header tell.

ghost use Rattle.std.specs.Prelude.{IsTrue, IfErr};
ghost use Rattle.tb_durable.specs.clauses.Opened.{is_of_file};

use crate::fault::OpenFault;
use std::fs;
use std::fs::File;
use std::io::Read;
use tb_layout::NoMemory;

/// The bytes of a log's head and of its first page's. A log with a page has more.
const LOG_HEADS: u64 = 32 + 24;

/// The bytes of the smallest page that a database may have. A file with fewer has none.
const LEAST_PAGE: u64 = 512;

/// What a database begins with. Then comes the size of its pages, with the upper byte first, where 1 means 2^16.
const MAGIC: &[u8; 16] = b"SQLite format 3\0";

/// Returns whether there is a log with a page beside the file at a path, which may be a symbolic link.
///
/// # Errors
///
/// `NoMemory`, and nothing is known.
pub fn has_log(rt: &HostRuntime, path: &str) -> Result<bool, NoMemory> {
    let real = fs::canonicalize(rt, path).ok();
    let path = real.as_ref().map_or(path, |real| real.as_str());
    let log = format!(in rt.alloc(); "{path}-wal")?;
    Ok(matches!(fs::metadata(rt, log.as_str()), Ok(log) if log.len() > LOG_HEADS))
}

/// Returns how many bytes a page of the database at a path has. None if it can't be read, or is no database.
fn page_size(rt: &HostRuntime, path: &str) -> Option<u64> {
    let mut file = File::open(rt, path).ok()?;
    let mut header = [0; 18];
    file.read_exact(&mut header).ok()?;
    if !header.starts_with(MAGIC) {
        return None;
    }
    match u16::from_be_bytes([header[16], header[17]]) {
        1 => Some(1 << 16),
        size => Some(u64::from(size)),
    }
}

/// Returns whether the file at a path is a database of one page: its tables are in its log, if it has any.
pub fn has_one_page(rt: &HostRuntime, path: &str) -> bool {
    match fs::metadata(rt, path) {
        Ok(file) if file.is_file() => page_size(rt, path).is_some_and(|size| file.len() <= size),
        _ => false,
    }
}

/// Refuses a path with a log that has a page, but no file or one without a page: a file that was made there would take the log for its
/// own and write over it.
pub(crate) fn refuse_lone_log(rt: &HostRuntime, path: &str) -> Result<(), OpenFault>
    ensures fault { IfErr result (λ fault. IsTrue (is_of_file fault)) }
{
    if matches!(fs::metadata(rt, path), Ok(file) if file.len() >= LEAST_PAGE) {
        return Ok(());
    }
    match has_log(rt, path) {
        Ok(true) => Err(OpenFault::LogWithoutFile),
        Ok(false) => Ok(()),
        Err(NoMemory) => Err(OpenFault::NoMemory),
    }
}
