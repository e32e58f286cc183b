//! Packets of transfers, and what a ledger has of them.

use crate::durable::request::{Command, Request};
use sqlite_trees::store::Store;
use std::alloc::Global;
use tb_batch::Batcher;
use tb_core::{Outcomes, Parcel};
use tb_durable::DurableLedger;
use tb_layout::{Account, Answer, BATCH_MAX, Transfer};
use tb_work::{Job, Outcome, Packet, Reply};

/// What the reply to a committed packet says: its place, and how many of its events failed.
#[derive(Clone, Copy)]
struct Committed {
    place: u64,
    failures: usize,
}

fn account(id: u128) -> Account {
    Account {
        id,
        ledger: 1,
        code: 1,
        ..Account::default()
    }
}

/// Returns a packet of transfers of 1 from account 1 to account 2, with the ids from the given one on.
fn transfers(alloc: Global, first: u128, events: u64) -> Option<Packet> {
    let mut made = Vec::with_capacity(alloc, events as usize).ok()?;
    let mut id = first;
    for _ in 0..events {
        let transfer = Transfer {
            id,
            debit_account_id: 1,
            credit_account_id: 2,
            amount: 1,
            ledger: 1,
            code: 1,
            ..Transfer::default()
        };
        made.push(transfer).ok()?;
        id = id.wrapping_add(1);
    }
    Packet::of_transfers(alloc, made.as_slice(), 0).ok()
}

fn committed_of(reply: &Reply) -> Option<Committed> {
    match &reply.outcome {
        Outcome::Committed { place, answer } => {
            let failures = match answer {
                Answer::Failures(failures) => failures.as_slice().len(),
                Answer::Accounts(_) => 0,
            };
            Some(Committed {
                place: *place,
                failures,
            })
        }
        _ => None,
    }
}

/// Commits a packet as a batch and reads its reply; None if it isn't committed.
fn commit<S: Store + Drop>(
    alloc: Global,
    ledger: &mut DurableLedger<S>,
    number: u64,
    packet: Packet,
) -> Option<Committed> {
    let job = match Job::new(alloc, 0, number, BATCH_MAX, packet) {
        Ok(job) => job,
        Err((packet, _)) => {
            drop(packet);
            return None;
        }
    };
    let mut batcher = Batcher::new(alloc, BATCH_MAX).ok()?;
    drop(batcher.offer(job));
    let batch = batcher.seal()?;
    let Outcomes::Cut(mut cutter) = ledger.apply(Parcel::Batch(batch)) else {
        return None;
    };
    let reply = cutter.next()?;
    committed_of(&reply)
}

/// Makes the two accounts in the first packet, unless they are there. Returns the number of the next packet.
fn make_accounts<S: Store + Drop>(alloc: Global, ledger: &mut DurableLedger<S>) -> Option<u64> {
    let number = ledger.numbers()[0];
    if number > 0 {
        return Some(number);
    }
    let packet = Packet::of_accounts(alloc, &[account(1), account(2)], 0).ok()?;
    commit(alloc, ledger, 0, packet)?;
    Some(1)
}

/// Commits the packets of a request. Returns the number of those that aren't committed or have failures.
pub(crate) fn commit_all<S: Store + Drop>(
    rt: &HostRuntime,
    ledger: &mut DurableLedger<S>,
    request: &Request,
) -> Option<u64> {
    let alloc = rt.alloc();
    let Some(mut number) = make_accounts(alloc, ledger) else {
        return Some(request.packets);
    };
    let prints = request.command == Command::Serve;
    let mut failed = 0u64;
    for _ in 0..request.packets {
        let packet = transfers(alloc, u128::from(number) << 32, request.events)?;
        let committed = commit(alloc, ledger, number, packet);
        if !matches!(committed, Some(Committed { failures: 0, .. })) {
            failed = failed.wrapping_add(1);
        }
        if prints {
            print_outcome(rt, number, committed)?;
        }
        number = number.wrapping_add(1);
    }
    Some(failed)
}

/// Prints the line of a packet's outcome.
fn print_outcome(rt: &HostRuntime, number: u64, committed: Option<Committed>) -> Option<()> {
    match committed {
        Some(Committed { place, failures }) => {
            println!(rt; "ack {number} {place} {failures}").ok()
        }
        None => println!(rt; "stopped {number}").ok(),
    }
}

/// Returns a line of what a ledger has.
pub(crate) fn line_of_state<S: Store + Drop>(
    alloc: Global,
    ledger: &DurableLedger<S>,
) -> Option<String> {
    let debits = match ledger.machine().account(1) {
        Some(account) => account.debits_posted,
        None => 0,
    };
    let credits = match ledger.machine().account(2) {
        Some(account) => account.credits_posted,
        None => 0,
    };
    let places = ledger.places();
    let number = ledger.numbers()[0];
    let clock = ledger.machine().clock();
    format!(in alloc;
        "places {places} number {number} debits {debits} credits {credits} clock {clock}"
    ).ok()
}
