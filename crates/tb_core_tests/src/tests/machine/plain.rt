//! Transfers as a plain list, in order of making: the status of each, and balances as sums.

use tb_layout::{Account, NANOSECONDS_PER_SECOND, Transfer};
use tb_tables::Status;

/// A transfer that was made, and whether it expired.
#[derive(Clone, Copy)]
pub(super) struct Row {
    pub(super) transfer: Transfer,
    pub(super) has_expired: bool,
}

/// Returns the transfer with an id.
pub(super) fn transfer_in(rows: &[Row], id: u128) -> Option<Transfer> {
    for row in rows {
        if row.transfer.id == id {
            return Some(row.transfer);
        }
    }
    None
}

/// Returns the post or void that names the transfer with an id.
fn resolution(rows: &[Row], id: u128) -> Option<Transfer> {
    for row in rows {
        if row.transfer.pending_id == id {
            return Some(row.transfer);
        }
    }
    None
}

pub(super) fn status_of(rows: &[Row], row: &Row) -> Option<Status> {
    if !row.transfer.is_pending() {
        return None;
    }
    match resolution(rows, row.transfer.id) {
        Some(named_by) if named_by.is_post() => Some(Status::Posted),
        Some(_) => Some(Status::Voided),
        None if row.has_expired => Some(Status::Expired),
        None => Some(Status::Pending),
    }
}

/// Raises a balance by an amount that belongs to it.
fn raise(balance: &mut u128, belongs: bool, amount: u128) {
    if belongs {
        *balance = balance.saturating_add(amount);
    }
}

/// Adds the amount of a transfer to the balances of an account, if it belongs there.
fn add_amount(account: &mut Account, status: Option<Status>, made: &Transfer) {
    let is_debit = made.debit_account_id == account.id;
    let is_credit = made.credit_account_id == account.id;
    let reserves = status == Some(Status::Pending);
    let posts = !made.is_pending() && !made.is_void();
    raise(
        &mut account.debits_pending,
        is_debit && reserves,
        made.amount,
    );
    raise(&mut account.debits_posted, is_debit && posts, made.amount);
    raise(
        &mut account.credits_pending,
        is_credit && reserves,
        made.amount,
    );
    raise(&mut account.credits_posted, is_credit && posts, made.amount);
}

/// Returns an account, without balances at first, with those that all transfers give.
pub(super) fn with_balances(rows: &[Row], account: Account) -> Account {
    let mut balanced = account;
    for row in rows {
        add_amount(&mut balanced, status_of(rows, row), &row.transfer);
    }
    balanced
}

/// Returns whether a transfer has a timeout that is over at a clock.
fn is_due(transfer: &Transfer, clock: u64) -> bool {
    let timeout = u64::from(transfer.timeout).saturating_mul(NANOSECONDS_PER_SECOND);
    timeout != 0 && transfer.timestamp.saturating_add(timeout) <= clock
}

/// Marks each pending transfer that expires at a clock.
pub(super) fn expire(rows: &mut [Row], clock: u64) {
    for index in 0..rows.len() {
        let row = rows[index];
        let expires = is_due(&row.transfer, clock);
        if expires && status_of(rows, &row) == Some(Status::Pending) {
            rows[index].has_expired = true;
        }
    }
}

/// Returns whether some transfer has a status.
fn some_has(rows: &[Row], status: Status) -> bool {
    for row in rows {
        if status_of(rows, row) == Some(status) {
            return true;
        }
    }
    false
}

/// Returns whether each status is that of some transfer.
pub(super) fn have_all(rows: &[Row]) -> bool {
    some_has(rows, Status::Pending)
        && some_has(rows, Status::Posted)
        && some_has(rows, Status::Voided)
        && some_has(rows, Status::Expired)
}
