//! Commits packets to a durable ledger, to measure it and to kill it.
//!
//!     benchmarks durable commit PATH EVENTS PACKETS
//!     benchmarks durable serve PATH EVENTS PACKETS
//!     benchmarks durable show PATH
//!     benchmarks durable memory EVENTS PACKETS
//!
//! Each packet has EVENTS transfers of 1 between two accounts and is a batch, so it costs one transaction. `commit` prints how
//! long opening and committing took. `serve` prints `ack NUMBER PLACE` after the reply to each packet, or `stopped NUMBER`.
//! `show` prints what the ledger at PATH has. `memory` does as `commit`, over a store in memory. The status is 0 if all packets
//! were committed, 3 if not, and 4 if the ledger can't be opened; then it says why.

mod load;
mod request;

use crate::durable::load::{commit_all, line_of_state};
use crate::durable::request::{Command, Request, request_of};
use sqlite::MemStore;
use sqlite_trees::store::Store;
use std::env::Args;
use std::process::ExitCode;
use std::time::Instant;
use tb_core::Seed;
use tb_durable::{DurableLedger, OpenFault, Settings, entry_table, open_file};

const SETTINGS: Settings = Settings {
    clock: 1,
    limit: 8190,
    submitters: 1,
};

/// Does what a request asks of an open ledger. Returns whether all packets were committed.
fn run<S: Store + Drop>(
    rt: &HostRuntime,
    ledger: &mut DurableLedger<S>,
    request: &Request,
    opened: u128,
) -> Option<bool> {
    if request.command == Command::Show {
        let line = line_of_state(rt.alloc(), ledger)?;
        println!(rt; "{line}").ok()?;
        return Some(true);
    }
    let places = ledger.places();
    let start = Instant::now(rt).ok()?;
    let failed = commit_all(rt, ledger, request)?;
    let took = start.elapsed(rt).ok()?.as_micros();
    println!(rt;
        "opened {opened} us with {places} places, committed {took} us, failed {failed}"
    ).ok()?;
    if let Some(fault) = ledger.fault() {
        let in_doubt = ledger.in_doubt();
        println!(rt; "stopped: {fault}, in doubt: {in_doubt}").ok()?;
    }
    Some(failed == 0)
}

/// Opens the ledger of a store and runs a request.
fn run_over<S: Store + Drop>(
    rt: &HostRuntime,
    store: S,
    request: &Request,
    start: Instant,
) -> Result<bool, OpenFault> {
    let mut ledger = match DurableLedger::over(rt.alloc(), store, SETTINGS, Seed::default()) {
        Ok(ledger) => ledger,
        Err((fault, store)) => {
            drop(store);
            return Err(fault);
        }
    };
    let opened = match start.elapsed(rt) {
        Ok(duration) => duration.as_micros(),
        Err(_) => 0,
    };
    let ran = run(rt, &mut ledger, request, opened);
    drop(ledger);
    Ok(ran == Some(true))
}

fn run_in_memory(rt: &HostRuntime, request: &Request, start: Instant) -> Result<bool, OpenFault> {
    match MemStore::new(rt.alloc(), &[entry_table()]) {
        Ok(store) => run_over(rt, store, request, start),
        Err(_) => Err(OpenFault::NoMemory),
    }
}

fn run_in_file(rt: &HostRuntime, request: &Request, start: Instant) -> Result<bool, OpenFault> {
    let store = open_file(rt, request.path.as_str())?;
    run_over(rt, store, request, start)
}

/// Does what the words after `durable` ask for. Returns the status; None if they ask for nothing.
pub(crate) fn measure(rt: &HostRuntime, words: Args) -> Option<ExitCode> {
    let request = request_of(words)?;
    let Ok(start) = Instant::now(rt) else {
        return Some(ExitCode::from(2));
    };
    let ran = match request.command {
        Command::Memory => run_in_memory(rt, &request, start),
        _ => run_in_file(rt, &request, start),
    };
    let status = match ran {
        Ok(true) => 0,
        Ok(false) => 3,
        Err(fault) => {
            let _ = println!(rt; "not opened: {fault}");
            4
        }
    };
    Some(ExitCode::from(status))
}
