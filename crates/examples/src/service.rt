//! A payment service whose ledger is in a file, so that it outlives the process.
//!
//!     examples service FILE [PAYMENTS]
//!
//! Four tills post payments through one pipeline, each from a thread of its own. Each payment moves 1 from a till's wallet to its shop.
//! A wallet can't pay more than it has, and is topped up every 50 milliseconds. A payment that fails meanwhile is tried again, with a new
//! id, after a delay that doubles. The ledger is in FILE, which is made if it isn't there, and which `sqlite3` reads. Each till begins
//! PAYMENTS payments, or as many as come until the process is killed. It prints a line for each reply. Now and then it looks its wallet
//! up, and prints what is there. Standard error has a line of figures now and then, and one at the end.
//!
//! What a line calls committed is on the disk. If the process is killed, it is run again: each till continues after its packets that are
//! stored. So no transfer is lost or posted twice, also if its line was never printed. Only the process knows which payments are to be
//! tried again: a kill leaves these undone. `tools/gate/check-durable` tests it.
//!
//! The journal is only in the file. So the memory of a run grows by the accounts and transfers that are stored, however long it runs.
//!
//! The status is 0 if each packet was committed. A payment may have failed all the same, or been given up after eight tries: the lines say
//! with which code. It is 1 for other arguments, and 2 if the ledger can't be opened, it stopped, or memory, a thread, the clock or
//! the output failed. Then standard error has a line that says why. The batch at which a ledger stops may be in the file though its
//! replies say stopped; the next run tells.

ghost use Rattle.std.specs.Prelude.{◌≡◌, IfSome, length};

mod packets;
mod till;

use crate::service::packets::TillAccounts;
use crate::service::till::Till;
use sqlite_trees::store::Store;
use std::alloc::Global;
use std::env::Args;
use std::process::ExitCode;
use std::sync::Wait;
use std::thread::Threads;
use std::time::Clock;
use tb_core::{AnyLedger, Seed};
use tb_drive::ControlPlan;
use tb_durable::{DurableLedger, LedgerFile, OpenFault, Settings, copy_log, open_file};
use tb_figures::{CountedDriver, CountedLedger, Figures};
use tb_layout::{BATCH_MAX, SUBMITTERS_LENGTH};
use tb_pipe::{Finished, Options, Report, drive_over};

/// How many tills there are.
const TILLS: u32 = 4;

/// How a new ledger is opened.
const SETTINGS: Settings = Settings {
    clock: 0,
    limit: BATCH_MAX,
    submitters: TILLS,
};

/// How many packets of a till may be in flight.
const CREDIT: u32 = 16;

type CountedTill = CountedDriver<Till, HostRuntime>;

/// A service over the ledger in the file at a path, for a number of payments of each till.
#[derive(Drop)]
pub(crate) struct Service {
    path: String,
    payments: u64,
}

impl Service {
    /// Returns the service that the words after `service` ask for.
    pub(crate) fn asked_by(words: Args) -> Option<Service> {
        let mut words = words;
        let path = words.next()?;
        let payments = match words.next() {
            Some(word) => word.as_str().parse().ok(),
            None => Some(u64::MAX),
        };
        match (payments, words.next()) {
            (Some(payments), None) => Some(Service { path, payments }),
            _ => {
                drop(path);
                None
            }
        }
    }
}

/// Says why the ledger can't be opened.
fn say_fault(rt: &HostRuntime, fault: OpenFault) {
    let _ = eprintln!(rt; "the ledger can't be opened: {fault}");
}

/// Opens the ledger of a store. None if it can't be opened or isn't a service's, after a line that says why.
fn open_ledger<S: Store + Drop>(rt: &HostRuntime, store: S) -> Option<DurableLedger<S>> {
    let ledger = match DurableLedger::over(rt.alloc(), store, SETTINGS, Seed::default()) {
        Ok(ledger) => ledger,
        Err((fault, store)) => {
            drop(store);
            say_fault(rt, fault);
            return None;
        }
    };
    if ledger.settings() != SETTINGS {
        drop(ledger);
        let _ = eprintln!(rt; "the file has the ledger of another program");
        return None;
    }
    Some(ledger)
}

/// Returns a till that continues after its packets that are stored, and that is counted. The first writes the figures.
fn counted_till(
    rt: &HostRuntime,
    figures: &Figures,
    number: u32,
    stored: u64,
    payments: u64,
) -> Option<CountedTill> {
    let mut till = Till::new(rt.clone().ok()?, number, stored, payments)?;
    if number == 0 {
        till.write_figures(figures.clone().ok()?);
    }
    let clock = rt.clone().ok()?;
    CountedDriver::new(
        rt.alloc(),
        till,
        clock,
        figures.clone().ok()?,
        number as usize,
    )
    .ok()
}

/// Returns the tills.
fn tills(
    rt: &HostRuntime,
    figures: &Figures,
    stored: [u64; SUBMITTERS_LENGTH],
    payments: u64,
) -> Option<Vec<CountedTill>>
    ensures { IfSome result (λ tills. length tills.items ≡ 4) }
{
    vec![in rt.alloc();
        counted_till(rt, figures, 0, stored[0], payments)?,
        counted_till(rt, figures, 1, stored[1], payments)?,
        counted_till(rt, figures, 2, stored[2], payments)?,
        counted_till(rt, figures, 3, stored[3], payments)?,
    ]
    .ok()
}

/// Returns the tills, and the figures that their ledger counts for.
fn figures_and_tills(
    rt: &HostRuntime,
    figures: &Figures,
    stored: [u64; SUBMITTERS_LENGTH],
    payments: u64,
) -> Option<(Figures, Vec<CountedTill>)>
    ensures { IfSome result (λ both. length both.1.items ≡ 4) }
{
    let figures_of_ledger = figures.clone().ok()?;
    match tills(rt, figures, stored, payments) {
        Some(tills) => Some((figures_of_ledger, tills)),
        None => {
            drop(figures_of_ledger);
            None
        }
    }
}

/// Runs a pipeline over a ledger until all tills have ended, and counts what is committed. Returns the ledger, and whether no till gave
/// up. None if memory ran out before the run, or a thread couldn't be started: what was committed is in the file.
fn run_counted<R: Threads + Wait + Clock + Sync, L: AnyLedger + Send>(
    rt: &R,
    alloc: Global,
    ledger: CountedLedger<L>,
    tills: Vec<CountedTill>,
) -> Option<(L, bool)>
    requires { length tills.items ≡ 4 }
{
    let options = Options {
        capacity: 64,
        credit: CREDIT,
        submitters: TILLS,
        ..Options::default()
    };
    let Ok(opened) = options.open(alloc) else {
        return None;
    };
    let Ok(opened) = opened.over(ledger) else {
        return None;
    };
    let control = ControlPlan::none(alloc).driver();
    let Ok(finished) = drive_over(rt, alloc, opened, tills, control) else {
        return None;
    };
    let Finished {
        report,
        drivers,
        ..
    } = finished;
    let Report { ledger, .. } = report;
    let complete = drivers.iter().all(|till| !till.driver().gave_up);
    Some((ledger.into_ledger(), complete))
}

/// Runs the tills over a ledger in a file, as `run_counted` does.
fn run<R: Threads + Wait + Clock + Sync, S: Store + Drop + Send>(
    rt: &R,
    alloc: Global,
    ledger: DurableLedger<S>,
    figures: Figures,
    tills: Vec<CountedTill>,
) -> Option<(DurableLedger<S>, bool)>
    requires { length tills.items ≡ 4 }
{
    run_counted(rt, alloc, CountedLedger::over(ledger, figures), tills)
}

/// Says what stopped a ledger, if anything did. Returns whether nothing did.
fn went_on<S: Store + Drop>(rt: &HostRuntime, ledger: &DurableLedger<S>) -> bool {
    if !ledger.stopped() {
        return true;
    }
    let _ = match ledger.fault() {
        Some(fault) => eprintln!(rt; "the ledger stopped: {fault}"),
        None => eprintln!(rt;
            "the ledger stopped: it has no place left, or a packet came out of turn"
        ),
    };
    if ledger.in_doubt() {
        let _ = eprintln!(rt;
            "the first batch that isn't printed as committed may be in the file: the next run tells"
        );
    }
    false
}

/// Prints what each till has paid in all.
fn print_tills<S: Store + Drop>(rt: &HostRuntime, ledger: &DurableLedger<S>) {
    for till in 0..TILLS {
        if let Some(wallet) = ledger.machine().account(TillAccounts::of(till).wallet) {
            let paid = wallet.debits_posted;
            let _ = println!(rt; "till {till} has paid {paid}");
        }
    }
}

/// Copies the log into the file, so that a copy of the file by itself has all that is committed.
fn finish_file(rt: &HostRuntime, store: LedgerFile) {
    let mut store = store;
    if let Err(error) = copy_log(&mut store) {
        let _ = eprintln!(rt; "the log isn't copied into the file, so keep both together: {error}");
    }
}

/// Runs new tills over a ledger, as `run` does.
fn run_tills<R: Threads + Wait + Clock + Sync, S: Store + Drop + Send>(
    threads: &R,
    rt: &HostRuntime,
    ledger: DurableLedger<S>,
    figures: &Figures,
    payments: u64,
) -> Option<(DurableLedger<S>, bool)> {
    match figures_and_tills(rt, figures, ledger.packets(), payments) {
        Some((counted, tills)) => run(threads, rt.alloc(), ledger, counted, tills),
        None => {
            drop(ledger);
            None
        }
    }
}

/// Runs the service over a store until all tills have ended, and prints what they have paid. Returns the store, and whether no till gave
/// up. None if it failed or the ledger stopped, after a line that says why. Only `main` has a runtime with threads, so they come apart.
fn serve<R: Threads + Wait + Clock + Sync, S: Store + Drop + Send>(
    threads: &R,
    rt: &HostRuntime,
    store: S,
    payments: u64,
) -> Option<(S, bool)> {
    let ledger = open_ledger(rt, store)?;
    let places = ledger.places();
    let _ = println!(rt; "the ledger has {places} places");
    let Ok(figures) = Figures::new(rt.alloc(), TILLS, CREDIT) else {
        drop(ledger);
        let _ = eprintln!(rt; "memory or a thread failed");
        return None;
    };
    let Some((ledger, complete)) = run_tills(threads, rt, ledger, &figures, payments) else {
        let _ = eprintln!(rt; "memory or a thread failed");
        return None;
    };
    if !complete {
        let _ = eprintln!(rt;
            "a till gave up: memory, the clock or the output failed, or a packet was refused"
        );
    }
    let read = figures.read();
    let _ = eprintln!(rt; "{read}");
    print_tills(rt, &ledger);
    if !went_on(rt, &ledger) {
        drop(ledger);
        return None;
    }
    Some((ledger.into_store(), complete))
}

/// Runs a service until all its tills have ended, as the head of this file says. Returns the status.
pub(crate) fn run_service<R: Threads + Wait + Clock + Sync>(
    threads: &R,
    rt: &HostRuntime,
    service: &Service,
) -> ExitCode {
    let served = match open_file(rt, service.path.as_str()) {
        Ok(store) => serve(threads, rt, store, service.payments),
        Err(fault) => {
            say_fault(rt, fault);
            None
        }
    };
    let Some((store, complete)) = served else {
        return ExitCode::from(2);
    };
    finish_file(rt, store);
    ExitCode::from(if complete { 0 } else { 2 })
}
