//! Commits packets to a state machine, to measure it.
//!
//!     bench_machine commit KIND EVENTS PACKETS ACCOUNTS ROOM SEED
//!     bench_machine times KIND EVENTS PACKETS ACCOUNTS ROOM SEED
//!     bench_machine make KIND EVENTS PACKETS ACCOUNTS ROOM SEED
//!
//! `commit` makes the accounts and commits packets of events of a kind; it prints how many events failed and a sum over
//! the balances of a thousand accounts. `times` prints the processor time of the median commit and of the longest, in nanoseconds. `make`
//! makes the packets and drops them. ROOM is the number of transfers to reserve capacity for. SEED seeds the
//! hashes of ids; 0 leaves them as they are.
#![tactic(auto)]

mod commit;
mod events;
mod request;

use crate::commit::{Committed, Times, commit_packets, make_packets, time_packets};
use crate::request::{Command, Request, request_of};
use std::alloc::Global;
use std::env;
use std::process::ExitCode;
use std::time::CpuClock;

/// Returns the line that a request prints, or None if a packet has too many events or memory runs out.
fn line_of<R: CpuClock>(rt: &R, alloc: Global, request: Request) -> Option<String> {
    let Request { command, load } = request;
    match command {
        Command::Commit => {
            let Committed { failures, balances } = commit_packets(alloc, load)?;
            format!(in alloc; "failures {failures} balances {balances}").ok()
        }
        Command::Times => {
            let Times { median, longest } = time_packets(rt, alloc, load)?;
            format!(in alloc; "median {median} longest {longest}").ok()
        }
        Command::Make => {
            let bytes = make_packets(alloc, load)?;
            format!(in alloc; "bytes {bytes}").ok()
        }
    }
}

fn main(rt: HostRuntime) -> ExitCode {
    let Some(request) = env::args(&rt).ok().and_then(request_of) else {
        let _ = println!(rt;
            "usage: bench_machine commit|times|make KIND EVENTS PACKETS ACCOUNTS ROOM SEED"
        );
        return ExitCode::from(1);
    };
    let Some(line) = line_of(&rt, rt.alloc(), request) else {
        let _ = println!(rt; "a packet has too many events, or memory ran out");
        return ExitCode::from(2);
    };
    let _ = println!(rt; "{line}");
    ExitCode::from(0)
}
