//! Packets made of accounts and of transfers.

use crate::tests::{must, push};
use std::alloc::Global;
use std::process::Abort;
use tb_layout::{Account, AccountCode, Transfer, TransferCode, read_account, read_transfer};
use tb_test_makers::{account, accounts_packet, check, transfer, transfers_packet};
use tb_work::{Packet, Refusal, admit};

/// Returns a packet of these accounts, with user word 7.
fn of_accounts(rt: &(impl Abort + Alloc<A = Global>), accounts: &[Account]) -> Packet {
    accounts_packet(rt.alloc(), accounts).expect(rt, "memory")
}

/// Returns a packet of these transfers, with user word 7.
fn of_transfers(rt: &(impl Abort + Alloc<A = Global>), transfers: &[Transfer]) -> Packet {
    transfers_packet(rt.alloc(), transfers).expect(rt, "memory")
}

/// Returns a packet of these ids, with user word 7.
fn of_ids(rt: &(impl Abort + Alloc<A = Global>), ids: &[u128]) -> Packet {
    Packet::of_ids(rt.alloc(), ids, 7).expect(rt, "memory")
}

/// Returns the number of events admitted of a packet of `count` accounts.
fn admitted_accounts(rt: &(impl Abort + Alloc<A = Global>), count: usize) -> Result<u32, Refusal> {
    let mut accounts = Vec::new(rt.alloc());
    accounts.resize(count, account(1, 0)).expect(rt, "memory");
    admit(8190, &of_accounts(rt, accounts.as_slice()))
}

/// Returns the number of events admitted of a packet of `count` transfers.
fn admitted_transfers(rt: &(impl Abort + Alloc<A = Global>), count: usize) -> Result<u32, Refusal> {
    let mut transfers = Vec::new(rt.alloc());
    transfers
        .resize(count, Transfer::default())
        .expect(rt, "memory");
    admit(8190, &of_transfers(rt, transfers.as_slice()))
}

/// Asserts that a packet has these bytes from a place on.
fn assert_bytes(rt: &impl Abort, packet: &Packet, first: usize, wanted: &[u8]) {
    let last = first.saturating_add(wanted.len());
    check!(rt; packet.bytes.as_slice().get(first..last) == Some(wanted), first);
}

fn are_accounts(packet: &Packet, accounts: &[Account]) -> bool {
    let (chunks, rest) = packet.bytes.as_slice().as_chunks::<128>();
    for (chunk, account) in chunks.iter().zip(accounts) {
        if read_account(chunk) != *account {
            return false;
        }
    }
    chunks.len() == accounts.len() && rest.is_empty()
}

fn are_transfers(packet: &Packet, transfers: &[Transfer]) -> bool {
    let (chunks, rest) = packet.bytes.as_slice().as_chunks::<128>();
    for (chunk, transfer) in chunks.iter().zip(transfers) {
        if read_transfer(chunk) != *transfer {
            return false;
        }
    }
    chunks.len() == transfers.len() && rest.is_empty()
}

fn are_ids(packet: &Packet, ids: &[u128]) -> bool {
    let (chunks, rest) = packet.bytes.as_slice().as_chunks::<16>();
    for (chunk, id) in chunks.iter().zip(ids) {
        if *chunk != id.to_le_bytes() {
            return false;
        }
    }
    chunks.len() == ids.len() && rest.is_empty()
}

/// Account 258 is linked.
#[test]
fn a_packet_of_two_accounts(rt: HostRuntime) {
    let accounts = [account(258, 1), account(2, 0)];
    let packet = of_accounts(&rt, &accounts);
    must(
        &rt,
        packet.operation == 129 && packet.user == 7 && are_accounts(&packet, &accounts),
    );
    assert_bytes(&rt, &packet, 0, &[2, 1, 0]);
    assert_bytes(&rt, &packet, 112, &[1, 0, 0, 0, 1, 0, 1, 0]);
    assert_bytes(&rt, &packet, 128, &[2, 0]);
    drop(packet);
}

/// Returns a transfer with a number in each of its first fields, and a timeout.
fn numbered() -> Transfer {
    Transfer {
        id: 1,
        debit_account_id: 2,
        credit_account_id: 3,
        amount: 4,
        timeout: 5,
        ..Transfer::default()
    }
}

#[test]
fn a_packet_of_one_transfer(rt: HostRuntime) {
    let packet = of_transfers(&rt, &[numbered()]);
    must(
        &rt,
        packet.operation == 130 && packet.user == 7 && are_transfers(&packet, &[numbered()]),
    );
    assert_bytes(&rt, &packet, 0, &[1]);
    assert_bytes(&rt, &packet, 16, &[2]);
    assert_bytes(&rt, &packet, 32, &[3]);
    assert_bytes(&rt, &packet, 48, &[4]);
    assert_bytes(&rt, &packet, 108, &[5]);
    drop(packet);
}

/// An id whose bytes count up from 0.
const COUNTED: u128 = 0x0f0e_0d0c_0b0a_0908_0706_0504_0302_0100;

/// The lowest byte of each id comes first, and ids of 128 bits are whole.
#[test]
fn a_packet_of_two_ids(rt: HostRuntime) {
    let packet = of_ids(&rt, &[1, COUNTED]);
    must(
        &rt,
        packet.operation == 131 && packet.user == 7 && are_ids(&packet, &[1, COUNTED]),
    );
    assert_bytes(
        &rt,
        &packet,
        0,
        &[1, 0, 0, 0, 0, 0, 0, 0, 0, 0, 0, 0, 0, 0, 0, 0],
    );
    assert_bytes(
        &rt,
        &packet,
        16,
        &[0, 1, 2, 3, 4, 5, 6, 7, 8, 9, 10, 11, 12, 13, 14, 15],
    );
    drop(packet);
}

/// Returns the name of a transfer's code.
fn transfer_name(number: u32) -> Option<&'static str> {
    Some(TransferCode::of_number(number)?.name())
}

/// Returns the name of an account's code.
fn account_name(number: u32) -> Option<&'static str> {
    Some(AccountCode::of_number(number)?.name())
}

/// Codes by TigerBeetle's numbers and names.
#[test]
fn codes_by_number(rt: HostRuntime) {
    must(&rt, transfer_name(55) == Some("exceeds_debits"));
    must(
        &rt,
        TransferCode::of_number(46) == Some(TransferCode::Exists),
    );
    must(&rt, TransferCode::of_number(18).is_none());
    must(&rt, account_name(21) == Some("exists"));
    must(&rt, AccountCode::of_number(22).is_none());
}

/// Numbers of events between a handful and the largest.
const COUNTS: [usize; 7] = [3, 100, 1_000, 4_095, 4_096, 4_097, 8_189];

/// What packets are made of: accounts, transfers and ids, in as many.
#[derive(Drop)]
struct Made {
    accounts: Vec<Account>,
    transfers: Vec<Transfer>,
    ids: Vec<u128>,
}

/// The first id.
const FIRST: u128 = 0x1_0000_0000_0000_0000;

/// Adds accounts, transfers and ids up to a count. All ids rise from 2^64 on.
fn add_up_to(rt: &impl Abort, made: &mut Made, count: usize) {
    for number in made.ids.len()..count {
        let id = FIRST.saturating_add(number as u128);
        push(rt, &mut made.accounts, account(id, 0));
        push(rt, &mut made.transfers, transfer(id, [id, id], id, 0));
        push(rt, &mut made.ids, id);
    }
}

/// Makes packets of accounts, of transfers and of ids, and reads them back.
fn assert_read_back(rt: &(impl Abort + Alloc<A = Global>), made: &Made) {
    must(
        rt,
        are_accounts(&of_accounts(rt, &made.accounts), &made.accounts),
    );
    must(
        rt,
        are_transfers(&of_transfers(rt, &made.transfers), &made.transfers),
    );
    must(rt, are_ids(&of_ids(rt, &made.ids), &made.ids));
}

#[test]
fn packets_of_each_size(rt: HostRuntime) {
    let mut made = Made {
        accounts: Vec::new(rt.alloc()),
        transfers: Vec::new(rt.alloc()),
        ids: Vec::new(rt.alloc()),
    };
    for count in &COUNTS {
        add_up_to(&rt, &mut made, *count);
        assert_read_back(&rt, &made);
    }
    drop(made);
}

/// Numbers of events, and how many are admitted.
const LARGEST: [(usize, Result<u32, Refusal>); 3] = [
    (0, Ok(0)),
    (8190, Ok(8190)),
    (8191, Err(Refusal::TooMuchData)),
];

#[test]
fn largest_packets(rt: HostRuntime) {
    for (count, wanted) in &LARGEST {
        check!(&rt; admitted_accounts(&rt, *count) == *wanted, *count);
        check!(&rt; admitted_transfers(&rt, *count) == *wanted, *count);
    }
}
