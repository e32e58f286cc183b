//! The checks of an event that asks for a transfer, in their order.

ghost use Rattle.std.specs.Prelude.{◌≡◌, ◌≢◌, ℕ, Some, None, IfNone, IfSome, IfOk, OnOk, IfErr, MatchOption, true, false};
ghost use Rattle.tb_layout.specs.claim.Transfer.{is_resolving as is_resolving_event};
ghost use Rattle.tb_layout.specs.declared.transfer_code.TransferCode.{TransferCode as Code};
ghost use Rattle.tb_layout.specs.declared.transfer_code.TransferCode.TheVariants.{Exists};
ghost use Rattle.tb_layout.specs.claim.TransferCode.{number_of};
ghost use Rattle.tb_tables.specs.clauses.Indices.{IsIndexOfTransfer};
ghost use Rattle.tb_tables.specs.claim.Facts.{transfer_with};
ghost use Rattle.tb_machine.specs.claim.TransferVerdict as spec;
ghost use Rattle.tb_machine.specs.inside.Examining.{transfer_id_verdict, unfailed_verdict};
ghost use Rattle.tb_machine.specs.claim.Checks.{first_row};
ghost use Rattle.tb_machine.specs.claim.Operations.{is_transient};
ghost use Rattle.tb_machine.specs.inside.Prefetch.{IsTarget};
ghost use Rattle.tb_machine.specs.declared.prefetch.Target.TheVariants.{Between, Named};

use crate::creating_verdict::creating_verdict;
use crate::prefetch::Sides;
use crate::resolved::{is_resolving, resolved_against};
use crate::resolving_verdict::resolve;
use tb_layout::{Transfer, TransferCode};
use tb_tables::Tables;

/// Returns how an event, with its fields resolved, differs from the stored transfer that has its id, or that it
/// doesn't.
fn compare_with_stored(stored: &Transfer, event: &Transfer) -> TransferCode
    ensures first { result ≡ first_row (spec.stored_checks stored.now event.now) Exists }
    ensures not_ok { number_of result ≢ 0 }
    ensures lasting { is_transient (number_of result) ≡ false }
{
    if event.flags != stored.flags {
        return TransferCode::ExistsWithDifferentFlags;
    }
    if event.pending_id != stored.pending_id {
        return TransferCode::ExistsWithDifferentPendingId;
    }
    if event.debit_account_id != stored.debit_account_id {
        return TransferCode::ExistsWithDifferentDebitAccountId;
    }
    if event.credit_account_id != stored.credit_account_id {
        return TransferCode::ExistsWithDifferentCreditAccountId;
    }
    if event.amount != stored.amount {
        return TransferCode::ExistsWithDifferentAmount;
    }
    if event.user_data_128 != stored.user_data_128 {
        return TransferCode::ExistsWithDifferentUserData128;
    }
    if event.user_data_64 != stored.user_data_64 {
        return TransferCode::ExistsWithDifferentUserData64;
    }
    if event.user_data_32 != stored.user_data_32 {
        return TransferCode::ExistsWithDifferentUserData32;
    }
    if event.timeout != stored.timeout {
        return TransferCode::ExistsWithDifferentTimeout;
    }
    if event.ledger != stored.ledger {
        return TransferCode::ExistsWithDifferentLedger;
    }
    if event.code != stored.code {
        return TransferCode::ExistsWithDifferentCode;
    }
    TransferCode::Exists
}

/// Returns how a post or a void, with its fields resolved, differs from the transfer at an index, which has its id, or
/// that it doesn't.
#[inline(never)]
fn compare_resolved_at(tables: &Tables, index: usize, event: &Transfer) -> TransferCode
    requires at { IsIndexOfTransfer tables.now.now event.now.id (Some index) }
    requires resolves { is_resolving_event event.now ≡ true }
    ensures code { (timestamp : ℕ) → result ≡ transfer_id_verdict tables.now.now timestamp event.now }
    ensures not_ok { number_of result ≢ 0 }
    ensures lasting { is_transient (number_of result) ≡ false }
{
    let Some(stored) = tables.transfer_at(index) else {
        unreachable!()
    };
    let resolved = resolved_against(tables, stored.pending_id, event);
    compare_with_stored(&stored, &resolved)
}

/// Returns how an event that passes the checks of any event differs from the transfer at an index, which has its id, or
/// that it doesn't.
#[inline(never)]
fn compare_with_stored_at(tables: &Tables, index: usize, event: &Transfer) -> TransferCode
    requires { IsIndexOfTransfer tables.now.now event.now.id (Some index) }
    ensures code { (timestamp : ℕ) → result ≡ transfer_id_verdict tables.now.now timestamp event.now }
    ensures not_ok { number_of result ≢ 0 }
    ensures lasting { is_transient (number_of result) ≡ false }
{
    if is_resolving(event) {
        return compare_resolved_at(tables, index, event);
    }
    let Some(stored) = tables.transfer_at(index) else {
        unreachable!()
    };
    compare_with_stored(&stored, event)
}

/// Returns how an event that passes the checks of any event differs from the transfer with its id, or that it doesn't,
/// if there is one.
#[inline(always)]
pub(crate) fn stored_transfer_verdict(tables: &Tables, event: &Transfer) -> Option<TransferCode>
    ensures new { IfNone result (transfer_with tables.now.now event.now.id ≡ None) }
    ensures stored { IfSome result (λ code. (timestamp : ℕ)
        → code ≡ transfer_id_verdict tables.now.now timestamp event.now) }
    ensures not_ok { IfSome result (λ code. number_of code ≢ 0) }
    ensures lasting { IfSome result (λ code. is_transient (number_of code) ≡ false) }
{
    let index = tables.transfer_index(event.id)?;
    Some(compare_with_stored_at(tables, index, event))
}

/// Returns whether more than one of pending, post and void is set.
fn has_exclusive_flags(event: &Transfer) -> bool
    ensures { result ≡ spec.has_exclusive_flags event.now }
{
    event.is_pending() && event.is_post()
        || event.is_pending() && event.is_void()
        || event.is_post() && event.is_void()
}

/// Returns the first check that any event fails, if it fails one. It decides alone, whatever is stored.
#[inline(always)]
pub(crate) fn transfer_fault(event: &Transfer) -> Option<TransferCode>
    ensures rest { MatchOption result
        ((rest : Code) → first_row (spec.event_checks event.now) rest ≡ rest)
        (λ code. (rest : Code) → first_row (spec.event_checks event.now) rest ≡ code) }
    ensures not_ok { MatchOption result Unit (λ code. number_of code ≢ 0) }
    ensures lasting { MatchOption result Unit (λ code. is_transient (number_of code) ≡ false) }
{
    if event.timestamp != 0 {
        return Some(TransferCode::TimestampMustBeZero);
    }
    if event.has_reserved_flag() {
        return Some(TransferCode::ReservedFlag);
    }
    if event.id == 0 {
        return Some(TransferCode::IdMustNotBeZero);
    }
    if event.id == u128::MAX {
        return Some(TransferCode::IdMustNotBeIntMax);
    }
    None
}

/// Returns the first check that any event fails whose id is that of no transfer, if it fails one.
#[inline(always)]
fn new_id_fault(tables: &Tables, event: &Transfer) -> Option<TransferCode>
    ensures rest { MatchOption result
        ((rest : Code) → first_row (spec.new_id_checks tables.now.now event.now) rest ≡ rest)
        (λ code. (rest : Code) → first_row (spec.new_id_checks tables.now.now event.now) rest ≡ code) }
    ensures not_ok { MatchOption result Unit (λ code. number_of code ≢ 0) }
{
    if tables.failed(event.id) {
        return Some(TransferCode::IdAlreadyFailed);
    }
    if has_exclusive_flags(event) {
        return Some(TransferCode::FlagsAreMutuallyExclusive);
    }
    None
}

/// Returns the first check that a plain or pending transfer fails, or Ok, if it passes the checks of any event. Its id
/// is taken for one that is new and didn't fail. Its accounts were looked up before.
#[inline(always)]
pub(crate) fn unfailed_creating_verdict(
    tables: &Tables,
    sides: Sides,
    timestamp: u64,
    event: &Transfer,
) -> TransferCode
    requires { IsTarget tables.now.now event.now (Between sides) }
    ensures { result ≡ unfailed_verdict tables.now.now timestamp event.now }
{
    if has_exclusive_flags(event) {
        return TransferCode::FlagsAreMutuallyExclusive;
    }
    creating_verdict(tables, sides, timestamp, event)
}

/// Returns the first check that a plain or pending transfer fails, or Ok, if its id is that of no transfer and it passes
/// the checks of any event. Its accounts were looked up before.
#[inline(always)]
pub(crate) fn new_creating_verdict(
    tables: &Tables,
    sides: Sides,
    timestamp: u64,
    event: &Transfer,
) -> TransferCode
    requires { IsTarget tables.now.now event.now (Between sides) }
    ensures { result ≡ spec.new_id_verdict tables.now.now timestamp event.now }
{
    if let Some(code) = new_id_fault(tables, event) {
        return code;
    }
    creating_verdict(tables, sides, timestamp, event)
}

/// Returns a post or a void as it is stored, or the first check that it fails, if its id is that of no transfer. It
/// passes the checks of any event.
#[inline(always)]
pub(crate) fn new_resolving(
    tables: &Tables,
    pending: Option<usize>,
    timestamp: u64,
    event: &Transfer,
) -> Result<Transfer, TransferCode>
    requires { IsTarget tables.now.now event.now (Named pending) }
    ensures ok { OnOk result (number_of (spec.new_id_verdict tables.now.now timestamp event.now) ≡ 0) }
    ensures stored { IfOk result (λ transfer. transfer ≡ spec.stored_transfer tables.now.now timestamp event.now) }
    ensures faulty { IfErr result (λ code. code ≡ spec.new_id_verdict tables.now.now timestamp event.now) }
    ensures not_ok { IfErr result (λ code. number_of code ≢ 0) }
{
    if let Some(code) = new_id_fault(tables, event) {
        return Err(code);
    }
    resolve(tables, pending, timestamp, event)
}
