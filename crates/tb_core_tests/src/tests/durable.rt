//! Ledgers over a store in memory, opened again and over bad rows.

ghost use Rattle.std.specs.Prelude.{IfOk, IsTrue};
ghost use Rattle.sqlite_trees.specs.Tree.{rowid};
ghost use Rattle.sqlite_trees.specs.View.{is_int};

mod engine;

use super::ledger::alone;
use super::made::{packet_of_accounts, rising};
use super::outcomes::first_reply;
use crate::tests::must;
use sqlite::MemStore;
use sqlite_trees::store::{Shape, Store};
use sqlite_value::row::Row;
use sqlite_value::value::ValueRef;
use std::alloc::{AllocError, Global};
use std::process::Abort;
use tb_batch::Batch;
use tb_core::{Outcomes, Parcel, Seed};
use tb_durable::{DurableLedger, OpenFault, Settings, entry_table};
use tb_layout::MOMENT_MAX;
use tb_test_makers::{OutcomeKind, job, kind_of};
use tb_work::{Moment, Packet};

pub(super) const SETTINGS: Settings = Settings {
    clock: 5,
    limit: 8190,
    submitters: 16,
};

/// Returns a store with an empty table.
pub(super) fn empty_store(rt: &(impl Abort + Alloc<A = Global>)) -> MemStore {
    MemStore::new(rt.alloc(), &[entry_table()])
        .ok()
        .expect(rt, "memory")
}

fn opened(rt: &(impl Abort + Alloc<A = Global>), store: MemStore) -> DurableLedger<MemStore> {
    let ledger = DurableLedger::over(rt.alloc(), store, SETTINGS, Seed::default());
    ledger.ok().expect(rt, "a sound table")
}

/// Returns the batch of a packet.
fn batch_of(
    rt: &(impl Abort + Alloc<A = Global>),
    submitter: u32,
    number: u64,
    packet: Packet,
) -> Batch {
    let job = job(rt.alloc(), submitter, number, packet);
    alone(rt, job.expect(rt, "a packet"))
}

/// Returns the place in the first reply of a batch; None if it wasn't committed.
fn first_place(outcomes: Outcomes) -> Option<u64> {
    match kind_of(&first_reply(outcomes)?) {
        OutcomeKind::Committed(place) => Some(place),
        _ => None,
    }
}

/// Commits a submitter's packet with its number, and asserts its place.
fn commit(
    rt: &(impl Abort + Alloc<A = Global>),
    ledger: &mut DurableLedger<MemStore>,
    submitter: u32,
    number: u64,
    packet: Packet,
    place: u64,
) {
    let batch = batch_of(rt, submitter, number, packet);
    must(
        rt,
        first_place(ledger.apply(Parcel::Batch(batch))) == Some(place),
    );
}

/// 2^127, whose highest bit is set.
const MIDDLE: u128 = 0x8000_0000_0000_0000_0000_0000_0000_0000;

/// Returns a packet of 8,190 transfers of 1, whose ids begin at 2^127.
fn largest_packet(rt: &(impl Abort + Alloc<A = Global>)) -> Packet {
    rising(rt.alloc(), MIDDLE, [1, 2], 8190).expect(rt, "memory")
}

fn two_accounts(rt: &(impl Abort + Alloc<A = Global>)) -> Packet {
    packet_of_accounts(rt, &[(1, 0), (2, 0)])
}

/// Returns what a test compares of a ledger: places, clock, debits of account 1, credits of account 2.
fn facts(ledger: &DurableLedger<MemStore>) -> Option<[u128; 4]> {
    let debits = ledger.machine().account(1)?.debits_posted;
    let credits = ledger.machine().account(2)?.credits_posted;
    let clock = ledger.machine().clock();
    Some([
        u128::from(ledger.places()),
        u128::from(clock),
        debits,
        credits,
    ])
}

#[test]
fn a_table_has_rows_once_its_ledger_was_opened(rt: HostRuntime) {
    let (has_rows, store) = DurableLedger::has_rows(rt.alloc(), empty_store(&rt));
    must(&rt, has_rows == Ok(false));
    let (has_rows, store) = DurableLedger::has_rows(rt.alloc(), opened(&rt, store).into_store());
    must(&rt, has_rows == Ok(true));
    drop(store);
}

/// The facts after two accounts, a largest packet and a pulse.
const AFTER_A_PULSE: Option<[u128; 4]> = Some([3, MOMENT_MAX as u128, 8190, 8190]);

/// Asserts what a ledger has that was opened on what these left.
fn assert_opened_again(rt: &impl Abort, again: &DurableLedger<MemStore>) {
    must(
        rt,
        facts(again) == AFTER_A_PULSE && again.settings() == SETTINGS,
    );
    let numbers = again.numbers();
    must(rt, numbers[15] == 1 && numbers[3] == 1 && numbers[0] == 0);
    must(
        rt,
        !again.stopped() && !again.in_doubt() && again.fault().is_none(),
    );
}

#[test]
fn opened_again_after_a_largest_batch_and_a_pulse(rt: HostRuntime) {
    let mut ledger = opened(&rt, empty_store(&rt));
    commit(&rt, &mut ledger, 15, 0, two_accounts(&rt), 0);
    commit(&rt, &mut ledger, 3, 0, largest_packet(&rt), 1);
    drop(ledger.apply(Parcel::Pulse(Moment::new(MOMENT_MAX))));
    must(&rt, facts(&ledger) == AFTER_A_PULSE);
    let again = opened(&rt, ledger.into_store());
    assert_opened_again(&rt, &again);
    drop(again);
}

fn pulse_often(rt: &impl Abort, ledger: &mut DurableLedger<MemStore>) {
    for _ in 0..2_000u32 {
        drop(ledger.apply(Parcel::Pulse(Moment::new(0))));
    }
    must(rt, !ledger.stopped() && ledger.places() == 2_001);
}

#[test]
fn goes_on_at_the_next_place(rt: HostRuntime) {
    let mut ledger = opened(&rt, empty_store(&rt));
    must(
        &rt,
        ledger.reserve(2, 8190).is_ok()
            && ledger.reserve(usize::MAX, 0).is_err()
            && ledger.reserve(0, 1 << 60).is_err(),
    );
    commit(&rt, &mut ledger, 0, 0, two_accounts(&rt), 0);
    pulse_often(&rt, &mut ledger);
    let mut again = opened(&rt, ledger.into_store());
    commit(&rt, &mut again, 0, 1, largest_packet(&rt), 2_001);
    let last = opened(&rt, again.into_store());
    // The clock starts at 5, and each event raises it by one.
    must(&rt, facts(&last) == Some([2_002, 5 + 2 + 8190, 8190, 8190]));
    drop(last);
}

/// Commits a first packet, and tries one with this number after it.
fn try_out_of_turn(
    rt: &(impl Abort + Alloc<A = Global>),
    ledger: &mut DurableLedger<MemStore>,
    number: u64,
) {
    commit(rt, ledger, 7, 0, two_accounts(rt), 0);
    must(rt, ledger.numbers()[7] == 1);
    let batch = batch_of(rt, 7, number, largest_packet(rt));
    must(
        rt,
        first_place(ledger.apply(Parcel::Batch(batch))).is_none(),
    );
    must(
        rt,
        ledger.stopped() && !ledger.in_doubt() && ledger.fault().is_none(),
    );
}

const OUT_OF_TURN: [u64; 3] = [2, 3, u64::MAX];

/// A packet whose number isn't its submitter's next is not stored, since no ledger could be opened on it. What was committed before it
/// is there.
#[test]
fn packets_out_of_turn(rt: HostRuntime) {
    for number in &OUT_OF_TURN {
        let mut ledger = opened(&rt, empty_store(&rt));
        try_out_of_turn(&rt, &mut ledger, *number);
        let again = opened(&rt, ledger.into_store());
        must(
            &rt,
            facts(&again) == Some([1, 7, 0, 0]) && again.numbers()[7] == 1,
        );
        drop(again);
    }
}

/// A submitter's packets begin at number 0 again in another run. Those of both runs are counted, also when it is opened again.
#[test]
fn a_run_numbers_its_packets_anew(rt: HostRuntime) {
    let mut ledger = opened(&rt, empty_store(&rt));
    commit(&rt, &mut ledger, 7, 0, two_accounts(&rt), 0);
    commit(&rt, &mut ledger, 7, 1, two_accounts(&rt), 1);
    commit(&rt, &mut ledger, 7, 0, two_accounts(&rt), 2);
    must(
        &rt,
        ledger.numbers()[7] == 1 && ledger.packets()[7] == 3 && ledger.packets()[6] == 0,
    );
    let again = opened(&rt, ledger.into_store());
    must(&rt, again.numbers()[7] == 1 && again.packets()[7] == 3);
    drop(again);
}

/// Returns a row with an empty body.
fn row_of(alloc: Global, place: i64, operation: i64, stubs: &[u8]) -> Result<Row, AllocError>
    ensures { IfOk result (λ row. IsTrue (is_int (rowid row))) }
{
    let mut row = Row::new(alloc);
    row.push(ValueRef::Int(place))?;
    row.push(ValueRef::Null)?;
    row.push(ValueRef::Int(operation))?;
    row.push(ValueRef::Int(0))?;
    row.push(ValueRef::Blob(stubs))?;
    row.push(ValueRef::Blob(&[]))?;
    Ok(row)
}

/// Puts a row and commits it. Returns whether that was done.
fn put(store: &mut MemStore, row: &Row) -> bool
    requires { IsTrue (is_int (rowid row.now)) }
{
    store.shape(0) == Shape::Table && store.put(0, row).is_ok() && store.commit().is_ok()
}

/// Returns why a ledger with this row after its settings isn't opened; None if it is.
fn fault_with_row(
    rt: &(impl Abort + Alloc<A = Global>),
    place: i64,
    operation: i64,
    stubs: &[u8],
) -> Option<OpenFault> {
    let mut store = opened(rt, empty_store(rt)).into_store();
    let Ok(row) = row_of(rt.alloc(), place, operation, stubs) else {
        drop(store);
        must(rt, false);
        return None;
    };
    let is_put = put(&mut store, &row);
    drop(row);
    must(rt, is_put);
    match DurableLedger::over(rt.alloc(), store, SETTINGS, Seed::default()) {
        Ok(ledger) => {
            drop(ledger);
            None
        }
        Err((fault, store)) => {
            drop(store);
            Some(fault)
        }
    }
}

#[test]
fn rows_that_are_no_entries(rt: HostRuntime) {
    // A packet of no events is admitted, so its row is an entry.
    must(&rt, fault_with_row(&rt, 0, 129, &[0; 16]).is_none());
    must(
        &rt,
        fault_with_row(&rt, 1, 129, &[0; 16]) == Some(OpenFault::OutOfPlace(0)),
    );
    must(
        &rt,
        fault_with_row(&rt, 0, 132, &[0; 16]) == Some(OpenFault::BadEntry(0)),
    );
    must(
        &rt,
        fault_with_row(&rt, 0, 129, &[0; 15]) == Some(OpenFault::BadEntry(0)),
    );
    must(
        &rt,
        fault_with_row(&rt, 0, 129, &[]) == Some(OpenFault::BadEntry(0)),
    );
    must(
        &rt,
        fault_with_row(&rt, 0, 129, &[1; 16]) == Some(OpenFault::BadEntry(0)),
    );
}
