//! Applications on the pipeline, each in a file that can be read by itself.
//!
//!     examples [NAME]
//!     examples service FILE [PAYMENTS]
//!
//! - `two_tellers` runs two drivers, each in a thread of its own: `Options::open`, `drive_all`.
//! - `own_threads` does without drivers, in threads of the application's own: `open`, `Client`, `serve`, `settle`.
//! - `days` runs a pipeline a day over one ledger: `with_ledger`.
//! - `payments` holds, captures and voids payments at three desks, and proves what each desk counts: `has_seen`, `has_ended`.
//!
//! `examples two_tellers` runs one of them, and `examples` all four in this order, each after a line with its name. The status
//! is 0 if nothing failed. It is 1 for other arguments, and then nothing is run. It is 2 as soon as an example fails, and then
//! no later one is run. An example fails if memory runs out or a thread can't be started.
//!
//! `examples service` is a service over a ledger in a file, which can be killed at any time and run again (`service.rt`).
#![tactic(auto)]

mod days;
mod own_threads;
mod payments;
mod service;
mod two_tellers;

use crate::service::{Service, run_service};
use std::alloc::Global;
use std::env;
use std::env::Args;
use std::process::ExitCode;
use std::sync::Wait;
use std::thread::Threads;
use std::time::Clock;

#[derive(Clone, Copy)]
enum Example {
    TwoTellers,
    OwnThreads,
    Days,
    Payments,
}

/// The examples in the order in which they are run.
const EXAMPLES: [Example; 4] = [
    Example::TwoTellers,
    Example::OwnThreads,
    Example::Days,
    Example::Payments,
];

impl Example {
    /// Returns the word that asks for it.
    fn name(self) -> &'static str {
        match self {
            Example::TwoTellers => "two_tellers",
            Example::OwnThreads => "own_threads",
            Example::Days => "days",
            Example::Payments => "payments",
        }
    }

    /// Runs it and prints what it shows. None if it fails.
    fn show<R: Threads + Wait + Clock + Sync + Print>(self, rt: &R, alloc: Global) -> Option<()> {
        match self {
            Example::TwoTellers => two_tellers::show(rt, alloc),
            Example::OwnThreads => own_threads::show(rt, alloc),
            Example::Days => days::show(rt, alloc),
            Example::Payments => payments::show(rt, alloc),
        }
    }
}

/// What the arguments ask for.
#[derive(Drop)]
enum Asked {
    One(Example),
    All,
    Service(Service),
}

/// Returns what the arguments ask for; the first of them is the program's name.
fn asked_by(words: Args) -> Option<Asked> {
    let mut words = words;
    words.next()?;
    let Some(name) = words.next() else {
        return Some(Asked::All);
    };
    if name.as_str() == "service" {
        return Service::asked_by(words).map(Asked::Service);
    }
    if words.next().is_some() {
        return None;
    }
    let found = EXAMPLES.into_iter().find(|it| it.name() == name.as_str());
    found.map(Asked::One)
}

/// Runs all examples, each after a line with its name. None as soon as one fails.
fn show_all<R: Threads + Wait + Clock + Sync + Print>(rt: &R, alloc: Global) -> Option<()> {
    for example in EXAMPLES {
        let name = example.name();
        let _ = println!(rt; "{name}");
        example.show(rt, alloc)?;
    }
    Some(())
}

fn main(rt: HostRuntime) -> ExitCode {
    let shown = match env::args(&rt).ok().and_then(asked_by) {
        Some(Asked::One(example)) => example.show(&rt, rt.alloc()),
        Some(Asked::All) => show_all(&rt, rt.alloc()),
        Some(Asked::Service(service)) => return run_service(&rt, &rt, &service),
        None => {
            let _ = eprintln!(rt;
                "usage: examples [two_tellers | own_threads | days | payments | service FILE [PAYMENTS]]"
            );
            return ExitCode::from(1);
        }
    };
    ExitCode::from(if shown.is_some() { 0 } else { 2 })
}
