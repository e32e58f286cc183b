//! The events that are sent.

use std::alloc::{AllocError, Global};
use tb_layout::{CREATE_ACCOUNTS, CREATE_TRANSFERS};
use tb_work::{Bytes, Packet};

/// The accounts of each submitter.
pub(crate) const ACCOUNTS: u64 = 1000;

/// Returns the bytes of an account in ledger 1 with code 1.
fn account(id: u64) -> [u8; 128] {
    let mut account = [0u8; 128];
    account[0..8].copy_from_slice(&id.to_le_bytes());
    account[112] = 1;
    account[116] = 1;
    account
}

/// Returns the bytes of a plain transfer of the amount 1 between two of a thousand accounts.
fn transfer(id: u64, first_account: u64, made: u64) -> [u8; 128] {
    let debit = made.wrapping_mul(7) % ACCOUNTS;
    let credit = debit.wrapping_add(1).wrapping_add(made % (ACCOUNTS - 2)) % ACCOUNTS;
    let mut event = [0u8; 128];
    event[0..8].copy_from_slice(&id.to_le_bytes());
    event[16..24].copy_from_slice(&first_account.wrapping_add(debit).to_le_bytes());
    event[32..40].copy_from_slice(&first_account.wrapping_add(credit).to_le_bytes());
    event[48] = 1;
    event[112] = 1;
    event[116] = 1;
    event
}

fn packet_of(operation: u8, bytes: Vec<u8>) -> Packet {
    Packet {
        operation,
        bytes: Bytes::from_vec(bytes),
        user: 0,
    }
}

/// Returns the id of a submitter's first account.
fn first_account(submitter: u64) -> u64 {
    submitter.wrapping_mul(ACCOUNTS).wrapping_add(1)
}

/// Returns the submitter's own thousand accounts.
pub(crate) fn accounts(alloc: Global, submitter: u64) -> Result<Packet, AllocError> {
    let first = first_account(submitter);
    let mut bytes = Vec::with_capacity(alloc, 128_000)?;
    for number in 0..ACCOUNTS {
        bytes.extend_from_slice(&account(first.wrapping_add(number)))?;
    }
    Ok(packet_of(CREATE_ACCOUNTS, bytes))
}

/// Returns `events` plain transfers between the submitter's accounts, after those made before.
pub(crate) fn transfers(
    alloc: Global,
    submitter: u64,
    before: u64,
    events: u64,
) -> Result<Packet, AllocError> {
    let first = first_account(submitter);
    let mut bytes = Vec::with_capacity(alloc, (events as usize).saturating_mul(128))?;
    for number in 0..events {
        let made = before.wrapping_add(number);
        let id = (submitter << 40) | made.wrapping_add(1);
        bytes.extend_from_slice(&transfer(id, first, made))?;
    }
    Ok(packet_of(CREATE_TRANSFERS, bytes))
}
