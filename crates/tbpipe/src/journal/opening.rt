//! Opening a ledger's file for a script, and looking at its end whether the file is still there.

use crate::journal::Journaled;
use crate::journal::fault::RunFault;
use sqlite_trees::store::Store;
use std::fs;
use std::os::unix::fs::MetadataExt;
use tb_durable::{LedgerFile, has_log, has_one_page, open_file};

/// What is said once a ledger was begun in a file of one page. Such a file is left if its making failed, or if its log was moved away.
const BEGUN_ANEW: &str =
    "the file had no ledger, and a new one is begun in it; if its log, whose name ends in -wal, was moved away, its ledger isn't in this file";

/// A file, by its device and its number there.
#[derive(Clone, Copy, PartialEq, Eq)]
struct FileId {
    device: u64,
    number: u64,
}

/// Returns which file is at a path. None if none is seen there.
fn file_at(rt: &HostRuntime, path: &str) -> Option<FileId> {
    let file = fs::metadata(rt, path).ok()?;
    Some(FileId {
        device: file.dev(),
        number: file.ino(),
    })
}

/// Returns whether a file is at a path that has no table, and no log that may have one.
pub(crate) fn lacks_log(rt: &HostRuntime, path: &str) -> Result<bool, RunFault> {
    Ok(has_one_page(rt, path) && !has_log(rt, path)?)
}

/// Where a ledger's file and its log were opened, without symbolic links, and which files they were.
#[derive(Drop)]
pub(crate) struct Presence {
    path: String,
    log: String,
    files: Option<(FileId, FileId)>,
    /// A file without a table was there, and no log.
    lacked_log: bool,
}

impl Presence {
    /// Notes the files of a ledger that was just opened at a path.
    fn of(rt: &HostRuntime, path: &str, lacked_log: bool) -> Result<Presence, RunFault> {
        let Ok(real) = fs::canonicalize(rt, path) else {
            return Err(RunFault::Moved);
        };
        let real = real.as_str();
        let mut presence = Presence {
            path: format!(in rt.alloc(); "{real}")?,
            log: format!(in rt.alloc(); "{real}-wal")?,
            files: None,
            lacked_log,
        };
        presence.files = presence.files_now(rt);
        Ok(presence)
    }

    /// Returns the file and the log that are there now. None unless both are.
    fn files_now(&self, rt: &HostRuntime) -> Option<(FileId, FileId)> {
        let file = file_at(rt, self.path.as_str())?;
        Some((file, file_at(rt, self.log.as_str())?))
    }

    /// Returns what was made of a script if the files that it was committed to are still there. Says so if a ledger was begun in a file that
    /// may have had another.
    pub(crate) fn finish<S: Store + Drop>(
        self,
        rt: &HostRuntime,
        made: Journaled<S>,
    ) -> Result<Journaled<S>, RunFault> {
        let now = self.files_now(rt);
        if now.is_none() || now != self.files {
            drop(made);
            return Err(RunFault::Moved);
        }
        if self.lacked_log {
            made.with_remark(rt.alloc(), BEGUN_ANEW)
        } else {
            Ok(made)
        }
    }
}

/// A store that was just opened at a path.
#[derive(Drop)]
pub(crate) struct OpenedStore<'a, S> {
    store: S,
    path: &'a str,
    lacked_log: bool,
}

impl<'a, S: Store + Drop> OpenedStore<'a, S> {
    /// Returns the store, and which files it has.
    pub(crate) fn divide(self, rt: &HostRuntime) -> Result<(S, Presence), RunFault> {
        let OpenedStore {
            store,
            path,
            lacked_log,
        } = self;
        match Presence::of(rt, path, lacked_log) {
            Ok(presence) => Ok((store, presence)),
            Err(fault) => {
                drop(store);
                Err(fault)
            }
        }
    }
}

/// Opens the file at a path, or makes it.
pub(crate) fn open_at<'a>(
    rt: &HostRuntime,
    path: &'a str,
) -> Result<OpenedStore<'a, LedgerFile>, RunFault> {
    let lacked_log = lacks_log(rt, path)?;
    Ok(OpenedStore {
        store: open_file(rt, path)?,
        path,
        lacked_log,
    })
}
