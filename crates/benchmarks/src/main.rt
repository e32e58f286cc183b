//! Benchmarks of a pipeline with threads, and of a ledger in a file.
//!
//!     benchmarks pipeline run|bare|live ..
//!     benchmarks durable commit|serve|show|memory ..
//!
//! The heads of `pipeline.rt` and `durable.rt` have the other words, and what each command prints. The status is 1 for other
//! arguments.
#![tactic(auto)]

mod durable;
mod pipeline;

use std::env;
use std::process::ExitCode;
use std::sync::Wait;
use std::thread::Threads;
use std::time::Clock;

/// Runs the part that the first word names, and returns its status. None if the words ask for nothing.
fn answer<R: Threads + Wait + Clock + Sync>(rt: &HostRuntime, threads: &R) -> Option<ExitCode> {
    let mut words = env::args(rt).ok()?;
    words.next()?;
    let part = words.next()?;
    match part.as_str() {
        "pipeline" => pipeline::measure(rt, threads, words),
        "durable" => durable::measure(rt, words),
        _ => None,
    }
}

fn main(rt: HostRuntime) -> ExitCode {
    if let Some(status) = answer(&rt, &rt) {
        return status;
    }
    let _ = println!(rt;
        "usage: benchmarks pipeline run|bare EVENTS PACKETS SUBMITTERS CREDIT CAPACITY LIMIT ROOM | live SUBMITTERS LOADS"
    );
    let _ = println!(rt;
        "       benchmarks durable commit|serve PATH EVENTS PACKETS, show PATH, or memory EVENTS PACKETS"
    );
    ExitCode::from(1)
}
