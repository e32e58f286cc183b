//! A seed keeps ids from slowing a ledger down that collide without it, or under a part of it.

use super::durable::{SETTINGS, empty_store};
use super::ledger::{AnyOf, alone};
use super::made::{creating, transferring};
use super::push;
use crate::tests::must;
use std::alloc::Global;
use std::process::Abort;
use std::time::{Clock, Instant};
use tb_core::{Ledger, Seed};
use tb_durable::DurableLedger;
use tb_embed::Engine;
use tb_test_makers::{account, check, transfer};
use tb_work::Job;

const SEED: Seed = Seed {
    low: 0x9216_d5d9_8979_fb1b,
    high: 0xd131_0ba6_98df_b5ad,
};

/// Without a seed all ids whose lower half is the first number, or whose upper half is the second, have one hash.
const LOWER: u64 = 0x243f_6a88_85a3_08e3;

const UPPER: u64 = 0x9e37_79b9_7f4a_7c15;

/// The bits of both numbers of the seed that the ids are chosen against: none, two, and the lower half.
const KNOWN: [u64; 3] = [0, 3, 0xffff_ffff];

/// Which ids a packet has.
#[derive(Clone, Copy)]
enum Ids {
    Rising,
    /// Ids with one lower half. Under a seed of these bits only they have one hash.
    OneLower(u64),
    /// Ids with one upper half, in the same way.
    OneUpper(u64),
}

impl Ids {
    fn nth(self, place: u64) -> u128 {
        let place = u128::from(place);
        match self {
            Ids::Rising => place.saturating_add(1_000),
            Ids::OneLower(known) => (place << 64) | u128::from(LOWER ^ (SEED.low & known)),
            Ids::OneUpper(known) => (u128::from(UPPER ^ (SEED.high & known)) << 64) | place,
        }
    }
}

/// What the ids of a packet are stored as.
#[derive(Clone, Copy)]
enum Stored {
    Accounts,
    Transfers,
    Failed,
}

/// Returns a full packet that creates accounts.
fn full_of_accounts(rt: &(impl Abort + Alloc<A = Global>), ids: Ids) -> Job {
    let mut accounts = Vec::new(rt.alloc());
    for place in 0..8_190u64 {
        push(rt, &mut accounts, account(ids.nth(place), 0));
    }
    let made = creating(rt.alloc(), 0, 1, &accounts);
    made.expect(rt, "the packet is admitted")
}

/// Returns a full packet that creates transfers, or whose transfers fail if there is no such account.
fn full_of_transfers(rt: &(impl Abort + Alloc<A = Global>), ids: Ids, credited: u128) -> Job {
    let mut transfers = Vec::new(rt.alloc());
    for place in 0..8_190u64 {
        push(
            rt,
            &mut transfers,
            transfer(ids.nth(place), [1, credited], 1, 0),
        );
    }
    let made = transferring(rt.alloc(), 1, &transfers);
    made.expect(rt, "the packet is admitted")
}

fn full_packet(rt: &(impl Abort + Alloc<A = Global>), stored: Stored, ids: Ids) -> Job {
    match stored {
        Stored::Accounts => full_of_accounts(rt, ids),
        Stored::Transfers => full_of_transfers(rt, ids, 2),
        Stored::Failed => full_of_transfers(rt, ids, 9),
    }
}

/// What passes the seed on.
#[derive(Clone, Copy)]
enum Owner {
    Ledger,
    Engine,
    /// A ledger whose journal is in a store.
    Stored,
}

/// Returns the ledger of an engine with the seed.
fn in_engine(rt: &(impl Abort + Alloc<A = Global>)) -> AnyOf {
    let engine = Engine::with_seed(rt.alloc(), 0, 8_190, 1, SEED).expect(rt, "settings");
    AnyOf::Bare(engine.into_ledger().ok().expect(rt, "nothing is held"))
}

/// Returns a ledger over an empty store with the seed.
fn over_store(rt: &(impl Abort + Alloc<A = Global>)) -> AnyOf {
    let ledger = DurableLedger::over(rt.alloc(), empty_store(rt), SETTINGS, SEED);
    AnyOf::Stored(ledger.ok().expect(rt, "a sound table"))
}

/// Returns a ledger with the seed.
fn opened(rt: &(impl Abort + Alloc<A = Global>), owner: Owner) -> AnyOf {
    match owner {
        Owner::Ledger => AnyOf::Whole(Ledger::with_seed(rt.alloc(), 0, SEED)),
        Owner::Engine => in_engine(rt),
        Owner::Stored => over_store(rt),
    }
}

/// Returns how many nanoseconds it takes to commit a full packet.
fn commit_time(
    rt: &(impl Abort + Clock + Alloc<A = Global>),
    owner: Owner,
    stored: Stored,
    ids: Ids,
) -> u128 {
    let mut ledger = opened(rt, owner);
    let accounts = [account(1, 0), account(2, 0)];
    let accounts = creating(rt.alloc(), 0, 0, &accounts).expect(rt, "the packet is admitted");
    drop(ledger.apply(alone(rt, accounts)));
    let batch = alone(rt, full_packet(rt, stored, ids));
    let start = Instant::now(rt).ok().expect(rt, "a clock");
    let outcomes = ledger.apply(batch);
    let taken = start.elapsed(rt).ok().expect(rt, "a clock");
    must(rt, ledger.places() == 2);
    drop(outcomes);
    drop(ledger);
    taken.as_nanos()
}

/// Returns the shortest of three times, of rising ids.
fn shortest_time(
    rt: &(impl Abort + Clock + Alloc<A = Global>),
    owner: Owner,
    stored: Stored,
) -> u128 {
    let mut shortest = u128::MAX;
    for _ in 0..3 {
        shortest = shortest.min(commit_time(rt, owner, stored, Ids::Rising));
    }
    shortest
}

/// Returns whether one of five commits takes less than ten times as long as with rising ids. If a ledger used only the known bits of
/// the seed, each of 8,190 ids would be compared with all before it.
fn is_spread(
    rt: &(impl Abort + Clock + Alloc<A = Global>),
    owner: Owner,
    stored: Stored,
    ids: Ids,
    rising: u128,
) -> bool {
    for _ in 0..5 {
        if commit_time(rt, owner, stored, ids) / 10 < rising {
            return true;
        }
    }
    false
}

#[test]
fn colliding_ids_are_spread(rt: HostRuntime) {
    for stored in [Stored::Accounts, Stored::Transfers, Stored::Failed] {
        let rising = shortest_time(&rt, Owner::Ledger, stored);
        for known in KNOWN {
            for ids in [Ids::OneLower(known), Ids::OneUpper(known)] {
                check!(&rt; is_spread(&rt, Owner::Ledger, stored, ids, rising), known);
            }
        }
    }
}

/// Asserts that a seed is passed on as a whole.
fn assert_passed_on(rt: &(impl Abort + Clock + Alloc<A = Global>), owner: Owner) {
    let rising = shortest_time(rt, owner, Stored::Accounts);
    for known in [0, 3] {
        for ids in [Ids::OneLower(known), Ids::OneUpper(known)] {
            check!(rt; is_spread(rt, owner, Stored::Accounts, ids, rising), known);
        }
    }
}

#[test]
fn colliding_ids_are_spread_in_an_engine(rt: HostRuntime) {
    assert_passed_on(&rt, Owner::Engine);
}

#[test]
fn colliding_ids_are_spread_over_a_store(rt: HostRuntime) {
    assert_passed_on(&rt, Owner::Stored);
}
