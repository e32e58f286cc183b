//! The events.

use crate::request::{Kind, Load};
use std::alloc::Global;

/// The events of the largest packet.
const PACKET: u64 = 8190;

/// Returns the bytes of an account in ledger 1 with code 1.
fn account(id: u64) -> [u8; 128] {
    let mut account = [0u8; 128];
    account[0..8].copy_from_slice(&id.to_le_bytes());
    account[112] = 1;
    account[116] = 1;
    account
}

/// Returns the bytes of a plain transfer of the amount 1 between two accounts, which are counted from 0.
fn plain_transfer(id: u64, debit: u64, credit: u64) -> [u8; 128] {
    let mut event = [0u8; 128];
    event[0..8].copy_from_slice(&id.to_le_bytes());
    event[16..24].copy_from_slice(&debit.wrapping_add(1).to_le_bytes());
    event[32..40].copy_from_slice(&credit.wrapping_add(1).to_le_bytes());
    event[48] = 1;
    event[112] = 1;
    event[116] = 1;
    event
}

/// Returns a plain transfer between two of at least three accounts.
fn plain(made: u64, accounts: u64) -> [u8; 128] {
    let accounts = accounts.max(3);
    let debit = made.wrapping_mul(7) % accounts;
    let credit = debit.wrapping_add(1).wrapping_add(made % (accounts - 2)) % accounts;
    plain_transfer(made.wrapping_add(1), debit, credit)
}

/// Returns a number in no order.
fn scattered(made: u64) -> u64 {
    made.wrapping_mul(0x9e37_79b9_7f4a_7c15) >> 20
}

/// Returns a plain transfer between two accounts in no order.
fn random(made: u64, accounts: u64) -> [u8; 128] {
    let accounts = accounts.max(3);
    let debit = scattered(made) % accounts;
    let credit = debit
        .wrapping_add(1)
        .wrapping_add(scattered(made ^ 0xffff) % (accounts - 2))
        % accounts;
    plain_transfer(made.wrapping_add(1), debit, credit)
}

/// Returns a pending transfer with a timeout in seconds.
fn pending(made: u64, accounts: u64, timeout: u32) -> [u8; 128] {
    let mut event = plain(made, accounts);
    event[108..112].copy_from_slice(&timeout.to_le_bytes());
    event[118] = 2;
    event
}

/// Returns a post or a void of the transfer with an id.
fn resolving(made: u64, named: u64) -> [u8; 128] {
    let mut event = [0u8; 128];
    event[0..8].copy_from_slice(&made.wrapping_add(1).to_le_bytes());
    event[64..72].copy_from_slice(&named.to_le_bytes());
    if made % 4 == 1 {
        event[48..64].copy_from_slice(&[255; 16]);
        event[118] = 4;
    } else {
        event[118] = 8;
    }
    event
}

/// Returns a pending transfer, or if it is odd the post or void of the one before.
fn two_phase(made: u64, accounts: u64) -> [u8; 128] {
    if made % 2 == 0 {
        pending(made, accounts, 100)
    } else {
        resolving(made, made)
    }
}

/// Returns pending transfers in one packet, and their posts and voids in the next.
fn late(made: u64, accounts: u64) -> [u8; 128] {
    if made.wrapping_sub(accounts) / PACKET % 2 == 0 {
        pending(made, accounts, 100)
    } else {
        resolving(made, made.wrapping_sub(PACKET).wrapping_add(1))
    }
}

/// Returns a plain transfer in another ledger than its accounts.
fn in_another_ledger(made: u64, accounts: u64) -> [u8; 128] {
    let mut event = plain(made, accounts);
    event[112] = 2;
    event
}

/// Returns a plain transfer in a chain of a length; every tenth chain fails at its end, and each one longer than ten.
fn linked(made: u64, accounts: u64, length: u64) -> [u8; 128] {
    let length = length.max(1);
    let mut event = plain(made, accounts);
    if made % length != length - 1 {
        event[118] = 1;
        event
    } else if length > 10 || made / length % 10 == 0 {
        in_another_ledger(made, accounts)
    } else {
        event
    }
}

/// Returns a plain transfer with a timestamp.
fn early(made: u64, accounts: u64) -> [u8; 128] {
    let mut event = plain(made, accounts);
    event[120] = 1;
    event
}

/// Returns a plain transfer from an account that isn't there.
fn missing(made: u64, accounts: u64) -> [u8; 128] {
    let mut event = plain(made, accounts);
    event[24] = 1;
    event
}

/// Returns a plain transfer that is new in the first packet, and stored already in each later one.
fn exists(made: u64, accounts: u64) -> [u8; 128] {
    let number = made.wrapping_sub(accounts) % PACKET;
    plain(number.wrapping_add(accounts), accounts)
}

fn mixed(made: u64, accounts: u64) -> [u8; 128] {
    match made % 10 {
        0 => early(made, accounts),
        1 => in_another_ledger(made, accounts),
        2 => missing(made, accounts),
        3 => pending(made, accounts, 100),
        4 => resolving(made, made),
        _ => plain(made, accounts),
    }
}

/// Returns a plain transfer; those of the first two packets have ids with one hash. The hasher multiplies the halves of
/// an id after it has mixed a number into each, so a half that equals its number makes the product 0.
fn attacked(made: u64, accounts: u64) -> [u8; 128] {
    let mut event = plain(made, accounts);
    let number = made.wrapping_sub(accounts);
    if number < PACKET {
        event[8..16].copy_from_slice(&0x9e37_79b9_7f4a_7c15u64.to_le_bytes());
    } else if number < 2 * PACKET {
        event[0..8].copy_from_slice(&0x243f_6a88_85a3_08e3u64.to_le_bytes());
        event[8..16].copy_from_slice(&made.to_le_bytes());
    }
    event
}

/// Returns the bytes of the event of a kind after a number of others; those before the packets are accounts.
pub(crate) fn event_of(kind: Kind, made: u64, accounts: u64) -> [u8; 128] {
    match kind {
        Kind::Accounts => account(made.wrapping_add(1)),
        Kind::Plain | Kind::Lookups => plain(made, accounts),
        Kind::Random => random(made, accounts),
        Kind::TwoPhase => two_phase(made, accounts),
        Kind::Late => late(made, accounts),
        Kind::Pending => pending(made, accounts, 100),
        Kind::Spread => pending(made, accounts, (scattered(made) % 1_000_000) as u32),
        Kind::Chains => linked(made, accounts, 10),
        Kind::LongChain => linked(made.wrapping_sub(accounts), accounts, PACKET),
        Kind::Early => early(made, accounts),
        Kind::Ledger => in_another_ledger(made, accounts),
        Kind::Missing => missing(made, accounts),
        Kind::Exists => exists(made, accounts),
        Kind::Mixed => mixed(made, accounts),
        Kind::Attacked => attacked(made, accounts),
    }
}

/// Returns what a packet has of an event: all of it, or for a look-up the id of its debit account.
fn part_of(kind: Kind, event: &[u8; 128]) -> &[u8] {
    match kind {
        Kind::Lookups => &event[16..32],
        _ => &event[..],
    }
}

/// Returns the data of the packet with a number, or None if memory runs out.
pub(crate) fn body_of(alloc: Global, load: Load, number: u64) -> Option<Vec<u8>> {
    let Load {
        kind,
        events,
        accounts,
        ..
    } = load;
    let before = number.wrapping_mul(events).wrapping_add(accounts);
    let mut body = Vec::with_capacity(alloc, (events as usize).saturating_mul(128)).ok()?;
    for index in 0..events {
        let event = event_of(kind, before.wrapping_add(index), accounts);
        body.extend_from_slice(part_of(kind, &event)).ok()?;
    }
    Some(body)
}
