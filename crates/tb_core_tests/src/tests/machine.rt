//! The machine: each call once with ample memory, and commits with each allocation refused.

ghost use Rattle.std.specs.Prelude.{◌≡◌, ◌==◌, ◌||◌, ◌/◌, ◌%◌, ◌≤◌, true, length};
ghost use Rattle.tb_layout.specs.claim.Bounds.{batch_max};
ghost use Rattle.tb_layout.specs.claim.Events.{create_accounts, create_transfers};

use crate::tests::must;
use std::alloc::Global;
use std::process::Abort;
use tb_layout::{Account, BATCH_MAX, CREATE_ACCOUNTS, CREATE_TRANSFERS, Failure, Transfer};
use tb_machine::Machine;
use tb_test_makers::{account_bytes, transfer, transfer_bytes};

mod calls;
mod many;
mod memory;
mod plain;
mod rule;
mod running;
mod timeouts;

const MOST: u128 = u128::MAX;

/// Returns a post's or void's event, which leaves all else to the transfer that it names.
fn resolving(id: u128, pending_id: u128, amount: u128, flags: u16) -> Transfer {
    Transfer {
        pending_id,
        ledger: 0,
        code: 0,
        ..transfer(id, [0, 0], amount, flags)
    }
}

/// Returns whether an operation makes accounts or transfers, and a body has a whole number of events, no more than a
/// batch may have.
fn is_packet(operation: u8, body: &[u8]) -> bool
    ensures operation { result ≡ true → operation == create_accounts || operation == create_transfers ≡ true }
    ensures whole { result ≡ true → length body.now % 128 ≡ 0 }
    ensures limit { result ≡ true → length body.now / 128 ≤ batch_max }
{
    (operation == CREATE_ACCOUNTS || operation == CREATE_TRANSFERS)
        && body.len() % 128 == 0
        && body.len() / 128 <= BATCH_MAX as usize
}

/// Commits a packet, and returns its failures; None if memory runs out.
fn failures_of(
    rt: &impl Alloc<A = Global>,
    machine: &mut Machine,
    operation: u8,
    body: &[u8],
) -> Option<Vec<Failure>> {
    if !is_packet(operation, body) {
        return None;
    }
    let mut out = Vec::with_capacity(rt.alloc(), body.len() / 128).ok()?;
    match machine.commit(operation, body, &mut out) {
        Ok(()) => Some(out),
        Err(_) => None,
    }
}

/// Returns whether a packet was committed and each of its events succeeded, as they do unless memory runs out.
fn commits(rt: &impl Alloc<A = Global>, machine: &mut Machine, operation: u8, body: &[u8]) -> bool {
    match failures_of(rt, machine, operation, body) {
        Some(failures) => failures.is_empty(),
        None => false,
    }
}

/// Makes accounts; none fails.
fn make_accounts(
    rt: &(impl Abort + Alloc<A = Global>),
    machine: &mut Machine,
    accounts: &[Account],
) {
    let body = account_bytes(rt.alloc(), accounts).expect(rt, "memory");
    must(rt, commits(rt, machine, CREATE_ACCOUNTS, &body));
}

/// Makes transfers; none fails.
fn make_transfers(
    rt: &(impl Abort + Alloc<A = Global>),
    machine: &mut Machine,
    transfers: &[Transfer],
) {
    let body = transfer_bytes(rt.alloc(), transfers).expect(rt, "memory");
    must(rt, commits(rt, machine, CREATE_TRANSFERS, &body));
}
