//! Accounts, transfers, packets and jobs for tests, a reply's outcome in short, and how a test asserts.
//!
//! Each maker returns an error only if memory runs out, and `job` also if the packet isn't admitted.
#![tactic(auto)]

ghost use Rattle.std.specs.Prelude.{◌≡◌, IfOk};

use std::alloc::Global;
use tb_layout::{Account, BATCH_MAX, NoMemory, Transfer};
use tb_work::{Bytes, Job, Outcome, Packet, Refusal, Reply};

/// Ends the test unless a fact holds. The failure names the line of the call and, in a loop over a table, its row. Its proof
/// takes a tenth of the time of that of `assert!`, which also writes the fact out.
#[macro_export]
macro_rules! check {
    ($rt:expr; $fact:expr $(,)?) => {
        if !$fact {
            std::process::Abort::abort($rt)
        }
    };
    ($rt:expr; $fact:expr, $row:expr $(,)?) => {
        if !$fact {
            std::process::Abort::panic($rt, $row)
        }
    };
}

/// Returns an account's event in ledger 1 with code 1.
pub fn account(id: u128, flags: u16) -> Account {
    Account {
        id,
        ledger: 1,
        code: 1,
        flags,
        ..Account::default()
    }
}

/// Returns a transfer's event in ledger 1 with code 1, which debits the first account and credits the second.
pub fn transfer(id: u128, accounts: [u128; 2], amount: u128, flags: u16) -> Transfer {
    let [debit_account_id, credit_account_id] = accounts;
    Transfer {
        id,
        debit_account_id,
        credit_account_id,
        amount,
        ledger: 1,
        code: 1,
        flags,
        ..Transfer::default()
    }
}

/// Returns a packet that creates accounts, with user word 7. Its contract is empty, so that proofs of tests are short.
pub fn accounts_packet(alloc: Global, accounts: &[Account]) -> Result<Packet, NoMemory> {
    Packet::of_accounts(alloc, accounts, 7)
}

/// Returns a packet that creates transfers, in the same way.
pub fn transfers_packet(alloc: Global, transfers: &[Transfer]) -> Result<Packet, NoMemory> {
    Packet::of_transfers(alloc, transfers, 7)
}

/// Returns the events of accounts as bytes.
pub fn account_bytes(alloc: Global, accounts: &[Account]) -> Result<Vec<u8>, NoMemory> {
    Ok(accounts_packet(alloc, accounts)?.bytes.into_vec())
}

/// Returns the events of transfers as bytes.
pub fn transfer_bytes(alloc: Global, transfers: &[Transfer]) -> Result<Vec<u8>, NoMemory> {
    Ok(transfers_packet(alloc, transfers)?.bytes.into_vec())
}

/// Returns a packet of `length` zeros with user word 7.
pub fn zeros(alloc: Global, operation: u8, length: usize) -> Result<Packet, NoMemory>
    ensures { IfOk result (λ packet. packet.operation ≡ operation) }
{
    Ok(packet_of(operation, Vec::from_elem(alloc, 0u8, length)?))
}

/// Returns a packet of these bytes with user word 7.
pub fn packet_of(operation: u8, bytes: Vec<u8>) -> Packet
    ensures { result.operation ≡ operation }
{
    Packet {
        operation,
        bytes: Bytes::from_vec(bytes),
        user: 7,
    }
}

/// Returns a submitter's packet with its number as a job under the largest limit.
pub fn job(alloc: Global, submitter: u32, number: u64, packet: Packet) -> Result<Job, Refusal> {
    Job::new(alloc, submitter, number, BATCH_MAX, packet).map_err(|refused| refused.1)
}

/// A packet's outcome without its answer.
#[derive(Clone, Copy, PartialEq, Eq)]
pub enum OutcomeKind {
    /// Committed at a place.
    Committed(u64),
    Shutdown,
    Stopped,
}

/// Returns the outcome of a reply's packet.
pub fn kind_of(reply: &Reply) -> OutcomeKind {
    match &reply.outcome {
        Outcome::Committed { place, answer: _ } => OutcomeKind::Committed(*place),
        Outcome::Shutdown => OutcomeKind::Shutdown,
        Outcome::Stopped => OutcomeKind::Stopped,
    }
}

/// The places of two packets before a pulse and of four after it.
pub const SIX_PLACES: [OutcomeKind; 6] = [
    OutcomeKind::Committed(0),
    OutcomeKind::Committed(1),
    OutcomeKind::Committed(3),
    OutcomeKind::Committed(4),
    OutcomeKind::Committed(5),
    OutcomeKind::Committed(6),
];
