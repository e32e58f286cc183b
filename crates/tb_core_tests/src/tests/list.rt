//! A list of items, by worked examples.

ghost use Rattle.std.specs.Prelude.{◌≤◌};
ghost use Rattle.tb_layout.specs.claim.Bounds.{batch_max};

use super::made::{Made, creating, item};
use super::outcomes::{EntryKind, assert_entries, assert_kinds};
use super::push;
use crate::tests::must;
use std::alloc::Global;
use std::process::Abort;
use tb_core::run_list;
use tb_test_makers::{OutcomeKind, SIX_PLACES, account, kind_of};
use tb_work::{Item, Reply};

/// Items of submitter 0.
fn items_of(rt: &(impl Abort + Alloc<A = Global>), list: &[Made]) -> Vec<Item> {
    let mut items = Vec::new(rt.alloc());
    for made in list {
        let item = item(rt.alloc(), 0, *made).expect(rt, "memory");
        push(rt, &mut items, item);
    }
    items
}

/// Runs a list with batches of at most `limit` events, and asserts its replies, its journal, its clock and the number of its accounts.
fn assert_listed(
    rt: &(impl Abort + Alloc<A = Global>),
    limit: u32,
    items: Vec<Item>,
    kinds: &[OutcomeKind],
    entries: &[EntryKind],
    wanted: (u64, usize),
)
    requires least { 1 ≤ limit }
    requires most { limit ≤ batch_max }
{
    let listed = run_list(rt.alloc(), 0, limit, items).expect(rt, "memory");
    assert_kinds(rt, &listed.replies, kinds);
    assert_entries(rt, listed.ledger.journal(), entries);
    let machine = listed.ledger.machine();
    must(
        rt,
        !listed.ledger.stopped() && (machine.clock(), machine.accounts()) == wanted,
    );
    drop(listed);
}

const PULSE_BETWEEN_BATCHES: [Made; 8] = [
    Made::Packet { number: 0, id: 1 },
    Made::Packet { number: 1, id: 2 },
    Made::Pulse(5),
    Made::Packet { number: 2, id: 3 },
    Made::Packet { number: 3, id: 4 },
    Made::Packet { number: 4, id: 5 },
    Made::Packet { number: 5, id: 6 },
    Made::End,
];

#[test]
fn pulse_between_batches(rt: HostRuntime) {
    let items = items_of(&rt, &PULSE_BETWEEN_BATCHES);
    let entries = [
        EntryKind::Batch(2),
        EntryKind::Pulse(5),
        EntryKind::Batch(4),
    ];
    assert_listed(&rt, 4, items, &SIX_PLACES, &entries, (9, 6));
}

const PACKET_BEHIND_SHUT: [Made; 4] = [
    Made::Packet { number: 0, id: 1 },
    Made::Close,
    Made::Packet { number: 1, id: 2 },
    Made::Pulse(5),
];

#[test]
fn packet_behind_shut(rt: HostRuntime) {
    let items = items_of(&rt, &PACKET_BEHIND_SHUT);
    let kinds = [OutcomeKind::Committed(0), OutcomeKind::Shutdown];
    assert_listed(&rt, 4, items, &kinds, &[EntryKind::Batch(1)], (1, 1));
}

/// Returns a packet of submitter 0 that creates `count` accounts, with rising ids.
fn packet_of_accounts(
    rt: &(impl Abort + Alloc<A = Global>),
    number: u64,
    first_id: u128,
    count: u32,
) -> Item {
    let mut accounts = Vec::new(rt.alloc());
    for place in 0..count {
        let id = first_id.saturating_add(u128::from(place));
        push(rt, &mut accounts, account(id, 0));
    }
    Item::Packet(creating(rt.alloc(), 0, number, &accounts).expect(rt, "the packet is admitted"))
}

/// Returns packets of submitter 0, each with its first id and how many accounts it creates.
fn packets_of_accounts(
    rt: &(impl Abort + Alloc<A = Global>),
    packets: &[(u128, u32)],
) -> Vec<Item> {
    let mut items = Vec::new(rt.alloc());
    for (number, (first_id, count)) in packets.iter().enumerate() {
        let packet = packet_of_accounts(rt, number as u64, *first_id, *count);
        push(rt, &mut items, packet);
    }
    items
}

const FIRST_THREE: [OutcomeKind; 3] = [
    OutcomeKind::Committed(0),
    OutcomeKind::Committed(1),
    OutcomeKind::Committed(2),
];

#[test]
fn full_batch_then_overflow(rt: HostRuntime) {
    let items = packets_of_accounts(&rt, &[(1, 4), (5, 1), (6, 0)]);
    let entries = [EntryKind::Batch(1), EntryKind::Batch(2)];
    assert_listed(&rt, 4, items, &FIRST_THREE, &entries, (5, 5));
}

/// A full packet joins one without events ahead of it.
#[test]
fn full_packet_behind_an_empty_one(rt: HostRuntime) {
    let items = packets_of_accounts(&rt, &[(1, 0), (1, 8190)]);
    let entries = [EntryKind::Batch(2)];
    assert_listed(&rt, 8190, items, &FIRST_THREE[..2], &entries, (8190, 8190));
}

/// How many items the longest list has, one in seven of them a pulse.
const MANY: u64 = 70_000;

/// Returns an item of the longest list: a pulse, or a packet that doesn't join the one before it. Some packets have three events, so that
/// their jobs take memory.
fn nth_item(index: u64) -> Made {
    if index % 7 == 3 {
        return Made::Pulse(index);
    }
    Made::Zeros {
        number: index.saturating_sub(index.saturating_add(3) / 7),
        operation: if index % 2 == 0 { 129 } else { 130 },
        count: if index % 100 == 0 { 3 } else { 0 },
    }
}

/// Returns all items of the longest list.
fn many_items(rt: &(impl Abort + Alloc<A = Global>)) -> Vec<Item> {
    let mut items = Vec::new(rt.alloc());
    for index in 0..MANY {
        let item = item(rt.alloc(), 0, nth_item(index)).expect(rt, "memory");
        push(rt, &mut items, item);
    }
    items
}

/// Asserts that each packet was committed at its own place, between the pulses.
fn assert_places(rt: &impl Abort, replies: &[Reply]) {
    must(rt, replies.len() == 60_000);
    let mut place = 0u64;
    for reply in replies {
        if place % 7 == 3 {
            place = place.wrapping_add(1);
        }
        must(rt, kind_of(reply) == OutcomeKind::Committed(place));
        place = place.wrapping_add(1);
    }
}

/// Each item is committed at its own place, and has an entry of its own.
#[test]
fn seventy_thousand_items(rt: HostRuntime) {
    let listed = run_list(rt.alloc(), 0, 1, many_items(&rt)).expect(&rt, "memory");
    must(
        &rt,
        !listed.ledger.stopped() && listed.ledger.places() == MANY,
    );
    must(&rt, listed.ledger.journal().len() == 70_000);
    assert_places(&rt, &listed.replies);
    drop(listed);
}
