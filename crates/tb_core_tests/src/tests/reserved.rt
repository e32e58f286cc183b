//! Capacity that was reserved suffices, and nothing is reserved by a ledger that is opened. `tools/gate/refuse-each-growth` refuses each
//! allocation in turn: so it finds a commit that allocates all the same.

use super::ledger::AnyOf;
use super::made::{creating, job_of, rising};
use crate::tests::must;
use std::alloc::Global;
use std::process::Abort;
use tb_batch::{Batch, Batcher, Offered};
use tb_core::{BareLedger, Ledger, Parcel, Seed};
use tb_embed::Engine;
use tb_layout::Account;
use tb_test_makers::account;
use tb_work::{Job, Refusal};

/// How many accounts and transfers are reserved, and then made.
const ACCOUNTS: usize = 100;

const TRANSFERS: usize = 3_000;

/// Returns accounts with ids from 1 on, or None if memory runs out.
fn accounts(alloc: Global) -> Option<Vec<Account>> {
    let mut accounts = Vec::new(alloc);
    for number in 0..ACCOUNTS {
        let id = (number as u128).saturating_add(1);
        accounts.push(account(id, 0)).ok()?;
    }
    Some(accounts)
}

/// Returns a job as a batch, or None if memory runs out.
fn batch_of(alloc: Global, job: Job) -> Option<Batch> {
    let mut batcher = Batcher::new(alloc, 8190).ok()?;
    match batcher.offer(job) {
        Offered::Joined => batcher.seal(),
        _ => None,
    }
}

/// Adds the batch of a job. Returns None if memory ran out.
fn add(alloc: Global, batches: &mut Vec<Batch>, job: Result<Job, Refusal>) -> Option<()> {
    let batch = batch_of(alloc, job.ok()?)?;
    batches.push(batch).ok()
}

/// Adds three batches that a ledger commits one after the other. The first has as many transfers as are reserved. All fail, and leave
/// capacity for the notes by which a commit is undone. Then come accounts, and transfers between them. Returns None if memory ran out.
fn add_all(alloc: Global, batches: &mut Vec<Batch>) -> Option<()> {
    let failing = rising(alloc, 10_000, [1, 1_000], TRANSFERS);
    add(alloc, batches, job_of(alloc, 0, 0, failing))?;
    add(alloc, batches, creating(alloc, 0, 1, &accounts(alloc)?))?;
    let transfers = rising(alloc, 1, [1, 2], TRANSFERS);
    add(alloc, batches, job_of(alloc, 0, 2, transfers))
}

/// Returns the batches, or None if memory runs out.
fn batches(alloc: Global) -> Option<Vec<Batch>> {
    let mut batches = Vec::new(alloc);
    match add_all(alloc, &mut batches) {
        Some(()) => Some(batches),
        None => None,
    }
}

/// Returns a ledger in which capacity is reserved, or None if memory runs out.
fn reserved_ledger(alloc: Global) -> Option<AnyOf> {
    let mut ledger = Ledger::new(alloc, 0);
    ledger.reserve(ACCOUNTS, TRANSFERS).ok()?;
    Some(AnyOf::Whole(ledger))
}

/// Returns the ledger of an engine in which capacity is reserved, or None if memory runs out.
fn reserved_in_engine(alloc: Global) -> Option<AnyOf> {
    let mut engine = Engine::new(alloc, 0, 8190, 1).ok()?;
    engine.reserve(ACCOUNTS, TRANSFERS).ok()?;
    Some(AnyOf::Bare(engine.into_ledger().ok()?))
}

fn commit_all(ledger: &mut AnyOf, batches: Vec<Batch>) {
    for batch in batches {
        drop(ledger.apply(batch));
    }
}

/// Commits the batches, if memory is there for them and the ledger. Once the first is committed, the others are.
fn assert_commits(rt: &(impl Abort + Alloc<A = Global>), ledger: Option<AnyOf>) {
    let Some(mut ledger) = ledger else {
        return;
    };
    if let Some(batches) = batches(rt.alloc()) {
        commit_all(&mut ledger, batches);
        must(rt, ledger.places() == 0 || ledger.places() == 3);
    }
    drop(ledger);
}

#[test]
fn commits_of_a_ledger_after_reserve_refused_memory(rt: HostRuntime) {
    assert_commits(&rt, reserved_ledger(rt.alloc()));
}

#[test]
fn commits_of_an_engine_after_reserve_refused_memory(rt: HostRuntime) {
    assert_commits(&rt, reserved_in_engine(rt.alloc()));
}

/// Applies a batch, and if it is refused once more: then nothing has changed, and the memory is there. Returns whether it was
/// refused.
fn is_refused_at_first(
    rt: &impl Abort,
    ledger: &mut BareLedger,
    batch: Batch,
    places: u64,
) -> bool {
    let parcel = match ledger.try_apply(Parcel::Batch(batch)) {
        Ok(outcomes) => {
            drop(outcomes);
            return false;
        }
        Err(parcel) => parcel,
    };
    must(rt, !ledger.stopped() && ledger.places() == places);
    drop(ledger.try_apply(parcel).ok().expect(rt, "memory is there"));
    true
}

/// Applies the batches to a ledger, and says if the first is refused at first.
fn try_each(rt: &(impl Abort + Print), ledger: &mut BareLedger, batches: Vec<Batch>) {
    let mut places = 0u64;
    for batch in batches {
        if is_refused_at_first(rt, ledger, batch, places) && places == 0 {
            let _ = println!(rt; "the first commit is refused");
        }
        places = places.wrapping_add(1);
    }
}

/// What a ledger has committed doesn't depend on which allocation was refused.
#[test]
fn first_commit_made_again_refused_memory(rt: HostRuntime) {
    if let Some(batches) = batches(rt.alloc()) {
        let mut ledger = BareLedger::with_seed(rt.alloc(), 0, Seed::default());
        try_each(&rt, &mut ledger, batches);
        must(&rt, ledger.places() == 3 && !ledger.stopped());
        let counts = ledger.machine().counts();
        must(
            &rt,
            (counts.accounts, counts.transfers, counts.failed_ids)
                == (ACCOUNTS, TRANSFERS, TRANSFERS),
        );
        drop(ledger);
    }
}

/// How many of each are opened.
const OPENED: u32 = 200;

/// `tools/gate/refuse-each-growth` checks that none of these calls allocates.
#[test]
fn opened_without_memory_refused_memory(rt: HostRuntime) {
    for _ in 0..OPENED {
        let ledger = Ledger::new(rt.alloc(), 0);
        must(&rt, ledger.journal().is_empty());
        drop(ledger);
        drop(Engine::new(rt.alloc(), 0, 8190, 16));
    }
}
