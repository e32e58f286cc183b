//! A script through a pipeline over a ledger in a file, and the lines of the output.

ghost use Rattle.std.specs.Prelude.{◌≡◌, false};
ghost use Rattle.tb_core.specs.claim.Journal.{LedgerState};
ghost use Rattle.tb_durable.specs.clauses.Entries.{IsInFile};
ghost use Rattle.tb_program_text.specs.clauses.Script.{InBounds};

use crate::journal::fault::{RunFault, stop_of};
use crate::journal::noting::Noting;
use crate::journal::{Journaled, open_for};
use sqlite_trees::store::Store;
use std::alloc::{AllocError, Global};
use std::sync::Wait;
use std::thread::Threads;
use std::time::Clock;
use tb_durable::DurableLedger;
use tb_layout::BATCH_MAX;
use tb_program::{Output, RunOver, put_state, run_over};
use tb_program_text::{ProgramFault, ScriptParts, put_pulse, put_refused_pulse};

/// Adds the lines of the pulses, and of those that were refused.
fn put_pulses(out: &mut String, places: &[u64], refused: u64) -> Result<(), AllocError> {
    for place in places {
        put_pulse(out, *place)?;
    }
    for _ in 0..refused {
        put_refused_pulse(out)?;
    }
    Ok(())
}

/// Returns what is written of a run.
fn journaled<S: Store + Drop>(
    alloc: Global,
    ran: RunOver<Noting<S>>,
) -> Result<Journaled<S>, AllocError> {
    let RunOver {
        ledger,
        packets: mut text,
        lacks_memory,
        operations,
        refused_pulses,
    } = ran;
    let lacks_memory = lacks_memory || ledger.lacks_memory;
    put_pulses(&mut text, &ledger.pulses, refused_pulses)?;
    put_state(&mut text, ledger.ledger.machine())?;
    let stop = match stop_of(&ledger.ledger) {
        None if lacks_memory => Some(RunFault::NoMemory),
        stop => stop,
    };
    Ok(Journaled {
        output: Output {
            text,
            faultless: true,
            remark: String::new(alloc),
            operations,
            lacks_memory,
        },
        stop,
        store: Some(ledger.into_store()),
    })
}

/// Commits a script to a ledger that hasn't stopped, and notes the places of its pulses.
fn run_noting<R: Threads + Wait + Clock + Sync, S: Store + Drop + Send>(
    rt: &R,
    alloc: Global,
    ledger: DurableLedger<S>,
    script: ScriptParts,
) -> Result<RunOver<Noting<S>>, ProgramFault>
    requires bounds { InBounds script.settings }
    requires known { (now : LedgerState) × IsInFile S.Store.view S.Store.recovers ledger now }
    requires goes_on { ledger.bare.stopped ≡ false }
{
    let noting = Noting {
        ledger,
        pulses: Vec::new(alloc),
        lacks_memory: false,
    };
    run_over(rt, alloc, noting, script)
}

/// Commits a script to the ledger of a store, with a thread for each submitter. Packets are numbered from 0, as in each run.
pub(crate) fn run_journaled<R: Threads + Wait + Clock + Sync, S: Store + Drop + Send>(
    rt: &R,
    alloc: Global,
    store: S,
    script: ScriptParts,
) -> Result<Journaled<S>, RunFault>
    requires { InBounds script.settings }
{
    let ledger = open_for(alloc, store, &script.settings)?;
    let kept = ledger.settings();
    if kept.limit < 1 || kept.limit > BATCH_MAX || script.settings.submitters() > kept.submitters {
        drop(ledger);
        drop(script);
        return Err(RunFault::OtherSettings(kept));
    }
    let mut script = script;
    script.settings.limit = Some(kept.limit);
    let ran = run_noting(rt, alloc, ledger, script)?;
    Ok(journaled(alloc, ran)?)
}
