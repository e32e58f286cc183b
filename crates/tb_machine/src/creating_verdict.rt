//! The checks of a plain or pending transfer, in their order.

ghost use Rattle.std.specs.Prelude.{◌≡◌, ◌+◌, nat_lt, MatchOption};
ghost use Rattle.tb_layout.specs.declared.transfer_code.TransferCode.{TransferCode as Code};
ghost use Rattle.tb_layout.specs.declared.transfer_code.TransferCode.TheVariants.{Ok};
ghost use Rattle.tb_machine.specs.claim.Checks.{first_row};
ghost use Rattle.tb_machine.specs.inside.Prefetch.{AreSides};
ghost use Rattle.tb_machine.specs.claim.TransferVerdict as spec;

use crate::clock::expires_at;
use crate::prefetch::{Sides, account_at};
use tb_layout::{Account, CLOCK_MAX, Transfer, TransferCode};
use tb_tables::Tables;

/// Returns whether the sum of two amounts is above a number.
fn sum_exceeds(first: u128, second: u128, most: u128) -> bool
    ensures { result ≡ nat_lt most (first + second) }
{
    match first.checked_add(second) {
        Some(sum) => sum > most,
        None => true,
    }
}

/// Returns whether a balance, pending and posted together, and an amount are above a number.
fn total_exceeds(pending: u128, posted: u128, amount: u128, most: u128) -> bool
    ensures { result ≡ nat_lt most (pending + posted + amount) }
{
    match pending.checked_add(posted) {
        Some(balance) => sum_exceeds(balance, amount, most),
        None => true,
    }
}

/// Returns whether an account's debits and an amount are above a number.
fn total_debits_exceed(account: &Account, amount: u128, most: u128) -> bool
    ensures { result ≡ nat_lt most (account.now.debits_pending + account.now.debits_posted + amount) }
{
    total_exceeds(account.debits_pending, account.debits_posted, amount, most)
}

/// Returns whether an account's credits and an amount are above a number.
fn total_credits_exceed(account: &Account, amount: u128, most: u128) -> bool
    ensures { result ≡ nat_lt most (account.now.credits_pending + account.now.credits_posted + amount) }
{
    total_exceeds(
        account.credits_pending,
        account.credits_posted,
        amount,
        most,
    )
}

/// Returns the first check that a plain or pending transfer between two accounts fails, or Ok. Sums are exact, also
/// past 128 bits.
#[inline(always)]
fn check_accounts(
    timestamp: u64,
    debit: &Account,
    credit: &Account,
    event: &Transfer,
) -> TransferCode
    ensures { result ≡ first_row (spec.balance_checks timestamp debit.now credit.now event.now) Ok }
{
    if debit.ledger != credit.ledger {
        return TransferCode::AccountsMustHaveTheSameLedger;
    }
    if event.ledger != debit.ledger {
        return TransferCode::TransferMustHaveTheSameLedgerAsAccounts;
    }
    if event.is_pending() && sum_exceeds(debit.debits_pending, event.amount, u128::MAX) {
        return TransferCode::OverflowsDebitsPending;
    }
    if event.is_pending() && sum_exceeds(credit.credits_pending, event.amount, u128::MAX) {
        return TransferCode::OverflowsCreditsPending;
    }
    if sum_exceeds(debit.debits_posted, event.amount, u128::MAX) {
        return TransferCode::OverflowsDebitsPosted;
    }
    if sum_exceeds(credit.credits_posted, event.amount, u128::MAX) {
        return TransferCode::OverflowsCreditsPosted;
    }
    if total_debits_exceed(debit, event.amount, u128::MAX) {
        return TransferCode::OverflowsDebits;
    }
    if total_credits_exceed(credit, event.amount, u128::MAX) {
        return TransferCode::OverflowsCredits;
    }
    if event.timeout != 0 && expires_at(timestamp, event.timeout) > u128::from(CLOCK_MAX) {
        return TransferCode::OverflowsTimeout;
    }
    if debit.debits_must_not_exceed_credits()
        && total_debits_exceed(debit, event.amount, debit.credits_posted)
    {
        return TransferCode::ExceedsCredits;
    }
    if credit.credits_must_not_exceed_debits()
        && total_credits_exceed(credit, event.amount, credit.debits_posted)
    {
        return TransferCode::ExceedsDebits;
    }
    TransferCode::Ok
}

/// Returns the first check that a plain or pending transfer fails before its accounts are looked at, if it fails one.
#[inline(always)]
fn creating_fault(event: &Transfer) -> Option<TransferCode>
    ensures { MatchOption result
        ((rest : Code) → first_row (spec.creating_checks event.now) rest ≡ rest)
        (λ code. (rest : Code) → first_row (spec.creating_checks event.now) rest ≡ code) }
{
    if event.debit_account_id == 0 {
        return Some(TransferCode::DebitAccountIdMustNotBeZero);
    }
    if event.debit_account_id == u128::MAX {
        return Some(TransferCode::DebitAccountIdMustNotBeIntMax);
    }
    if event.credit_account_id == 0 {
        return Some(TransferCode::CreditAccountIdMustNotBeZero);
    }
    if event.credit_account_id == u128::MAX {
        return Some(TransferCode::CreditAccountIdMustNotBeIntMax);
    }
    if event.debit_account_id == event.credit_account_id {
        return Some(TransferCode::AccountsMustBeDifferent);
    }
    if event.pending_id != 0 {
        return Some(TransferCode::PendingIdMustBeZero);
    }
    if !event.is_pending() && event.timeout != 0 {
        return Some(TransferCode::TimeoutReservedForPendingTransfer);
    }
    if event.ledger == 0 {
        return Some(TransferCode::LedgerMustNotBeZero);
    }
    if event.code == 0 {
        return Some(TransferCode::CodeMustNotBeZero);
    }
    None
}

/// Returns the first check that a plain or pending transfer fails, or Ok.
#[inline(always)]
pub(crate) fn creating_verdict(
    tables: &Tables,
    sides: Sides,
    timestamp: u64,
    event: &Transfer,
) -> TransferCode
    requires { AreSides tables.now.now event.now sides }
    ensures { result ≡ spec.creating_verdict tables.now.now timestamp event.now }
{
    if let Some(code) = creating_fault(event) {
        return code;
    }
    let Some(debit) = account_at(tables, sides.debit) else {
        return TransferCode::DebitAccountNotFound;
    };
    let Some(credit) = account_at(tables, sides.credit) else {
        return TransferCode::CreditAccountNotFound;
    };
    check_accounts(timestamp, &debit, &credit, event)
}
