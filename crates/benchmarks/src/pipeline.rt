//! Drives the pipeline from its submitters' threads, to measure it.
//!
//!     benchmarks pipeline run EVENTS PACKETS SUBMITTERS CREDIT CAPACITY LIMIT ROOM
//!     benchmarks pipeline bare EVENTS PACKETS SUBMITTERS CREDIT CAPACITY LIMIT ROOM
//!     benchmarks pipeline live SUBMITTERS LOADS
//!
//! `run`: each submitter makes a thousand accounts and sends PACKETS packets of EVENTS plain transfers between them, with
//! at most CREDIT of them unanswered. The queue has CAPACITY slots, and a batch at most LIMIT events. ROOM is how many
//! transfers capacity is reserved for, or 0. Prints sums over the replies and the balances, which are the same in every
//! order. `bare`: the same over a ledger that keeps no journal.
//!
//! `live`: the first submitter sends a packet of one event for each byte of the standard input, and writes a byte when it
//! has the reply. LOADS others send packets of one event at credit 16 until the input ends, the rest sleep until then.

mod driver;
mod events;
mod live;
mod request;
mod tally;

ghost use Rattle.std.specs.Prelude.{◌≡◌, length, IfSome};

use crate::pipeline::driver::LoadDriver;
use crate::pipeline::live::{Echo, Over, Party};
use crate::pipeline::request::{Asked, LiveRequest, Load, Opening, Request, asked_by};
use crate::pipeline::tally::{Tally, sum_of_balances};
use std::alloc::Global;
use std::env::Args;
use std::io;
use std::io::{Read, Write};
use std::process::ExitCode;
use std::sync::Wait;
use std::thread::Threads;
use std::time::Clock;
use tb_core::{AnyLedger, BareLedger, Ledger, Seed};
use tb_drive::{ControlPlan, PlanDriver};
use tb_machine::Machine;
use tb_pipe::{Finished, drive_all, drive_over, open};

/// Returns a driver for each submitter, by rising number.
fn drivers(alloc: Global, submitters: u32, load: Load) -> Option<Vec<LoadDriver>>
    ensures { IfSome result (λ drivers. length drivers.items ≡ submitters) }
{
    let mut drivers = Vec::new(alloc);
    for number in 0..submitters {
        drivers.push(LoadDriver::new(u64::from(number), load)).ok()?;
    }
    Some(drivers)
}

/// Returns a whole run over a ledger, or None if the opening is refused, memory runs out or a thread can't be started.
fn run<R: Threads + Wait + Clock + Sync, L: AnyLedger + Send>(
    rt: &R,
    alloc: Global,
    request: Request,
    ledger: L,
) -> Option<Finished<LoadDriver, PlanDriver, L>> {
    let Request { opening, load } = request;
    let Some(drivers) = drivers(alloc, opening.submitters, load) else {
        drop(ledger);
        return None;
    };
    let opened = open(
        alloc,
        0,
        opening.limit,
        opening.capacity,
        load.credit,
        opening.submitters,
    );
    let Ok(opened) = opened else {
        drop(ledger);
        return None;
    };
    let control = ControlPlan::none(alloc).driver();
    drive_over(rt, alloc, opened.over(ledger).ok()?, drivers, control).ok()
}

/// Returns the sums over all replies.
fn tally_of(drivers: Vec<LoadDriver>) -> Tally {
    let mut tally = Tally::new();
    for driver in drivers {
        tally.join(driver.tally);
    }
    tally
}

/// Returns the line of a run that its drivers counted.
fn line_of_run(
    alloc: Global,
    drivers: Vec<LoadDriver>,
    machine: &Machine,
    opening: Opening,
) -> Option<String> {
    let tally = tally_of(drivers);
    let balances = sum_of_balances(machine, opening.accounts());
    let replies = tally.replies;
    let failures = tally.failures;
    let places = tally.places;
    format!(in alloc;
        "replies {replies} failures {failures} places {places} balances {balances}"
    ).ok()
}

/// Returns a ledger with the capacity asked for, or None if memory runs out.
fn new_ledger(alloc: Global, opening: Opening) -> Option<Ledger> {
    let mut ledger = Ledger::new(alloc, 0);
    match ledger.reserve(opening.accounts_reserved(), opening.room) {
        Ok(()) => Some(ledger),
        Err(_) => {
            drop(ledger);
            None
        }
    }
}

/// Returns the same of a ledger that keeps no journal.
fn new_bare_ledger(alloc: Global, opening: Opening) -> Option<BareLedger> {
    let mut ledger = BareLedger::with_seed(alloc, 0, Seed::default());
    match ledger.reserve(opening.accounts_reserved(), opening.room) {
        Ok(()) => Some(ledger),
        Err(_) => {
            drop(ledger);
            None
        }
    }
}

/// Returns the line that a request prints.
fn line_of<R: Threads + Wait + Clock + Sync>(
    rt: &R,
    alloc: Global,
    request: Request,
) -> Option<String> {
    let Finished {
        report,
        drivers,
        ..
    } = run(rt, alloc, request, new_ledger(alloc, request.opening)?)?;
    line_of_run(alloc, drivers, report.ledger.machine(), request.opening)
}

/// Returns the line that a request prints if its ledger keeps no journal.
fn line_of_bare<R: Threads + Wait + Clock + Sync>(
    rt: &R,
    alloc: Global,
    request: Request,
) -> Option<String> {
    let Finished {
        report,
        drivers,
        ..
    } = run(rt, alloc, request, new_bare_ledger(alloc, request.opening)?)?;
    line_of_run(alloc, drivers, report.ledger.machine(), request.opening)
}

/// Returns the submitters of a live run, by rising number.
fn parties<'a, I: Read + Drop, O: Write + Drop>(
    alloc: Global,
    request: LiveRequest,
    echo: Echo<I, O>,
    over: &'a Over,
) -> Option<Vec<Party<'a, I, O>>>
    ensures { IfSome result (λ parties. length parties.items ≡ request.submitters) }
{
    let load = Load {
        events: 1,
        packets: u64::MAX,
        credit: 16,
    };
    let mut echo = Some(echo);
    let mut parties = Vec::new(alloc);
    for number in 0..request.submitters {
        let party = match echo.take() {
            Some(echo) => Party::Echoes(echo, over),
            None if number <= request.loads => {
                Party::Loads(LoadDriver::new(u64::from(number), load), over)
            }
            None => Party::Sleeps(over),
        };
        parties.push(party).ok()?;
    }
    Some(parties)
}

/// Returns a live run, until its input ends; None as for `run`.
fn run_live<I: Read + Drop + Send, O: Write + Drop + Send, R: Threads + Wait + Clock + Sync>(
    rt: &R,
    alloc: Global,
    request: LiveRequest,
    echo: Echo<I, O>,
) -> Option<()> {
    let over = Over::new();
    let parties = parties(alloc, request, echo, &over)?;
    match open(alloc, 0, 8190, 64, 16, request.submitters) {
        Ok(opened) => {
            let control = ControlPlan::none(alloc).driver();
            drive_all(rt, alloc, opened, parties, control)
                .ok()
                .map(drop)
        }
        Err(_) => None,
    }
}

/// Does what the words after `pipeline` ask for, and prints a line. Returns the status; None if they ask for nothing.
pub(crate) fn measure<R: Threads + Wait + Clock + Sync>(
    rt: &HostRuntime,
    threads: &R,
    words: Args,
) -> Option<ExitCode> {
    let alloc = rt.alloc();
    let line = match asked_by(words)? {
        Asked::Run(request) => line_of(threads, alloc, request),
        Asked::Bare(request) => line_of_bare(threads, alloc, request),
        Asked::Live(request) => {
            run_live(
                threads,
                alloc,
                request,
                Echo::new(rt.reader(), io::writer(rt)),
            )
            .map(|()| String::new(alloc))
        }
    };
    let Some(line) = line else {
        let _ = println!(rt; "refused, or memory ran out or a thread could not be started");
        return Some(ExitCode::from(2));
    };
    let _ = println!(rt; "{line}");
    Some(ExitCode::from(0))
}
