//! Scripts into a ledger that is kept in a file, and what such a ledger has.

ghost use Rattle.std.specs.Prelude.{◌≡◌, ◌≤◌, false, IfOk};
ghost use Rattle.tb_core.specs.claim.Journal.{LedgerState};
ghost use Rattle.tb_durable.specs.clauses.Entries.{IsInFile};
ghost use Rattle.tb_layout.specs.claim.Limits.{clock_max};
ghost use Rattle.tb_program_text.specs.clauses.Script.{InBounds, clock_of};

mod committing;
mod door;
mod fault;
mod noting;
mod opening;
mod running;

use crate::journal::committing::Committing;
use crate::journal::opening::{OpenedStore, lacks_log, open_at};
use crate::journal::running::run_journaled;
pub(crate) use fault::RunFault;
use sqlite_trees::store::Store;
use std::alloc::Global;
use std::fs;
use std::sync::Wait;
use std::thread::Threads;
use std::time::Clock;
use tb_core::Seed;
use tb_durable::{DurableLedger, LedgerFile, Settings, has_log, open_file};
use tb_layout::BATCH_MAX;
use tb_program::{Output, put_state};
use tb_program_text::{FaultyScript, ScriptParts, Settings as ScriptSettings, Source, read_source};

/// The settings that a file without a table gets.
const NEW: Settings = Settings {
    clock: 0,
    limit: BATCH_MAX,
    submitters: 2,
};

/// What is written of a script, why the ledger stopped, if it did, and the ledger's store. Of a faulty script none is opened.
pub(crate) struct Journaled<S: Store> {
    pub(crate) output: Output,
    pub(crate) stop: Option<RunFault>,
    pub(crate) store: Option<S>,
}

impl<S: Store + Drop> Drop for Journaled<S> {
    /// Frees everything held in one call, so that no owner's proof repeats it.
    fn drop(self) {
        let Journaled {
            output,
            stop: _,
            store,
        } = self;
        drop(output);
        drop(store);
    }
}

impl<S: Store + Drop> Journaled<S> {
    /// Returns it with a remark for people.
    fn with_remark(mut self, alloc: Global, remark: &str) -> Result<Journaled<S>, RunFault> {
        self.output.remark = format!(in alloc; "{remark}")?;
        Ok(self)
    }

    /// Returns the parts, of which the first is written.
    pub(crate) fn into_parts(self) -> (Output, Option<RunFault>, Option<S>) {
        let Journaled {
            output,
            stop,
            store,
        } = self;
        (output, stop, store)
    }
}

/// Opens the ledger of a store, or makes it with these settings.
fn open<S: Store + Drop>(
    alloc: Global,
    store: S,
    settings: Settings,
) -> Result<DurableLedger<S>, RunFault>
    requires { settings.clock ≤ clock_max }
    ensures kept { IfOk result (λ ledger. (now : LedgerState) × IsInFile S.Store.view S.Store.recovers ledger now) }
    ensures goes_on { IfOk result (λ ledger. ledger.bare.stopped ≡ false) }
{
    match DurableLedger::over(alloc, store, settings, Seed::default()) {
        Ok(ledger) => Ok(ledger),
        Err((fault, store)) => {
            drop(store);
            Err(RunFault::Open(fault))
        }
    }
}

/// Returns whether the settings that a script gives are those of a ledger.
fn are_kept(given: &ScriptSettings, kept: Settings) -> bool {
    given.clock.is_none_or(|clock| clock == kept.clock)
        && given.limit.is_none_or(|limit| limit == kept.limit)
        && given
            .submitters
            .is_none_or(|submitters| submitters == kept.submitters)
}

/// Opens the ledger of a store for a script. A new one gets the script's settings. Otherwise those that the script gives must be the
/// ledger's.
fn open_for<S: Store + Drop>(
    alloc: Global,
    store: S,
    given: &ScriptSettings,
) -> Result<DurableLedger<S>, RunFault>
    requires { clock_of given.now ≤ clock_max }
    ensures kept { IfOk result (λ ledger. (now : LedgerState) × IsInFile S.Store.view S.Store.recovers ledger now) }
    ensures goes_on { IfOk result (λ ledger. ledger.bare.stopped ≡ false) }
{
    let asked = Settings {
        clock: given.clock(),
        limit: given.limit(),
        submitters: given.submitters(),
    };
    let ledger = open(alloc, store, asked)?;
    let kept = ledger.settings();
    if !are_kept(given, kept) {
        drop(ledger);
        return Err(RunFault::OtherSettings(kept));
    }
    Ok(ledger)
}

/// Returns what is written of a faulty script, of which nothing is committed.
fn of_faulty(alloc: Global, faulty: FaultyScript) -> Journaled<LedgerFile> {
    Journaled {
        output: Output::of_faulty(alloc, faulty),
        stop: None,
        store: None,
    }
}

/// Commits a script to the ledger of a store, in its order.
fn list_script<S: Store + Drop>(
    rt: &HostRuntime,
    opened: OpenedStore<'_, S>,
    script: ScriptParts,
) -> Result<Journaled<S>, RunFault>
    requires { InBounds script.settings }
{
    let (store, presence) = opened.divide(rt)?;
    let ScriptParts { settings, items } = script;
    let ledger = open_for(rt.alloc(), store, &settings)?;
    let made = Committing::over(rt.alloc(), ledger)?.commit_all(items)?;
    presence.finish(rt, made)
}

/// Commits a script to the ledger of a store by a pipeline.
fn run_script<T: Threads + Wait + Clock + Sync, S: Store + Drop + Send>(
    rt: &HostRuntime,
    threads: &T,
    opened: OpenedStore<'_, S>,
    script: ScriptParts,
) -> Result<Journaled<S>, RunFault>
    requires { InBounds script.settings }
{
    let (store, presence) = opened.divide(rt)?;
    let made = run_journaled(threads, rt.alloc(), store, script)?;
    presence.finish(rt, made)
}

/// Reads a script. Of a faulty one it returns what is written instead, and nothing is committed.
fn read_script(rt: &HostRuntime) -> Result<Result<ScriptParts, Journaled<LedgerFile>>, RunFault>
    ensures { IfOk result (λ read. IfOk read (λ script. InBounds script.settings)) }
{
    match read_source(rt.alloc(), &mut rt.reader())? {
        Source::Faulty(faulty) => Ok(Err(of_faulty(rt.alloc(), faulty))),
        Source::Script(script) => Ok(Ok(script.finish()?)),
    }
}

/// Reads a script and commits it to the ledger at a path, in its order. Returns what is written of it, as `tb_program::list_output` does.
pub(crate) fn list_into(rt: &HostRuntime, path: &str) -> Result<Journaled<LedgerFile>, RunFault> {
    match read_script(rt)? {
        Ok(script) => list_script(rt, open_at(rt, path)?, script),
        Err(faulty) => Ok(faulty),
    }
}

/// Reads a script and commits it to the ledger at a path by a pipeline. Returns what is written of it, as `tb_program::run_output` does.
pub(crate) fn run_into<T: Threads + Wait + Clock + Sync>(
    rt: &HostRuntime,
    threads: &T,
    path: &str,
) -> Result<Journaled<LedgerFile>, RunFault> {
    match read_script(rt)? {
        Ok(script) => run_script(rt, threads, open_at(rt, path)?, script),
        Err(faulty) => Ok(faulty),
    }
}

/// Refuses a path at which there is no ledger, before anything is written there. A file whose making failed has at most one byte. One of
/// one page has its tables in its log: without that it is what was left of a ledger whose log was moved away.
fn refuse_without_ledger(rt: &HostRuntime, path: &str) -> Result<(), RunFault> {
    let Ok(file) = fs::metadata(rt, path) else {
        let is_missing = matches!(fs::exists(rt, path), Ok(false));
        return if is_missing {
            Err(RunFault::NoFile)
        } else {
            Ok(())
        };
    };
    if file.is_file() && file.len() <= 1 && !has_log(rt, path)? {
        return Err(RunFault::EmptyFile);
    }
    if lacks_log(rt, path)? {
        return Err(RunFault::NoLedger);
    }
    Ok(())
}

/// Opens the ledger of a store that has one. A table without rows was made by a script that was never begun.
fn reopen<S: Store + Drop>(alloc: Global, store: S) -> Result<DurableLedger<S>, RunFault> {
    let (has_rows, store) = DurableLedger::has_rows(alloc, store);
    match has_rows {
        Ok(true) => open(alloc, store, NEW),
        Ok(false) => {
            drop(store);
            Err(RunFault::NoLedger)
        }
        Err(fault) => {
            drop(store);
            Err(RunFault::Open(fault))
        }
    }
}

/// Returns the clock and the accounts of the ledger of a store that has one, as lines.
fn state_text<S: Store + Drop>(alloc: Global, store: S) -> Result<String, RunFault> {
    let ledger = reopen(alloc, store)?;
    let mut out = String::new(alloc);
    let put = put_state(&mut out, ledger.machine());
    drop(ledger);
    put?;
    Ok(out)
}

/// Returns the clock and the accounts of the ledger at a path, as lines. No ledger is made.
pub(crate) fn replay(rt: &HostRuntime, path: &str) -> Result<String, RunFault> {
    refuse_without_ledger(rt, path)?;
    state_text(rt.alloc(), open_file(rt, path)?)
}
