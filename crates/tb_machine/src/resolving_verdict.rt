//! The checks of a post or a void, in their order.

ghost use Rattle.std.specs.Prelude.{◌≡◌, ◌≢◌, Some, true, slice_get, IfOk, OnOk, IfErr, IfNone, MatchOption};
ghost use Rattle.tb_layout.specs.declared.transfer_code.TransferCode.{TransferCode as Code};
ghost use Rattle.tb_layout.specs.declared.transfer_code.TransferCode.TheVariants.{Ok as OkCode};
ghost use Rattle.tb_layout.specs.claim.TransferCode.{number_of};
ghost use Rattle.tb_layout.specs.claim.Transfer.{is_pending};
ghost use Rattle.tb_tables.specs.claim.Status.{is_due as is_due_at};
ghost use Rattle.tb_machine.specs.claim.Checks.{first_row};
ghost use Rattle.tb_machine.specs.inside.Prefetch.{IsTarget};
ghost use Rattle.tb_machine.specs.declared.prefetch.Target.TheVariants.{Named};
ghost use Rattle.tb_machine.specs.claim.TransferVerdict as spec;

use crate::clock::expires_at;
use crate::resolved::resolved;
use tb_layout::{Transfer, TransferCode};
use tb_tables::{Status, Tables};

/// Returns whether a transfer has a timeout that is over at a clock.
fn is_due(clock: u64, transfer: &Transfer) -> bool
    ensures { result ≡ is_due_at clock transfer.now }
{
    transfer.timeout != 0 && expires_at(transfer.timestamp, transfer.timeout) <= u128::from(clock)
}

/// Returns what a pending transfer's status leaves of a post or a void: only one that is pending still, and not due,
/// may be resolved. One that is due expired, also if no pulse came since.
fn check_status(tables: &Tables, index: usize, pending: &Transfer, timestamp: u64) -> TransferCode
    requires there { slice_get tables.now.now.transfers index ≡ Some pending.now }
    requires pending { is_pending pending.now ≡ true }
    ensures { result ≡ first_row (spec.status_checks tables.now.now timestamp pending.now) OkCode }
{
    match tables.status_at(index) {
        Some(Status::Posted) => TransferCode::PendingTransferAlreadyPosted,
        Some(Status::Voided) => TransferCode::PendingTransferAlreadyVoided,
        Some(Status::Expired) => TransferCode::PendingTransferExpired,
        Some(Status::Pending) | None => {
            if is_due(timestamp, pending) {
                TransferCode::PendingTransferExpired
            } else {
                TransferCode::Ok
            }
        }
    }
}

/// Returns the first check that a post or a void, with its fields resolved, fails against the fields of the transfer
/// that it names, if it fails one.
fn pending_fault(pending: &Transfer, event: &Transfer) -> Option<TransferCode>
    ensures rest { MatchOption result
        ((rest : Code) → first_row (spec.pending_checks pending.now event.now) rest ≡ rest)
        (λ code. (rest : Code) → first_row (spec.pending_checks pending.now event.now) rest ≡ code) }
    ensures not_ok { MatchOption result Unit (λ code. number_of code ≢ 0) }
    ensures pending { IfNone result (is_pending pending.now ≡ true) }
{
    if !pending.is_pending() {
        return Some(TransferCode::PendingTransferNotPending);
    }
    if event.debit_account_id != pending.debit_account_id {
        return Some(TransferCode::PendingTransferHasDifferentDebitAccountId);
    }
    if event.credit_account_id != pending.credit_account_id {
        return Some(TransferCode::PendingTransferHasDifferentCreditAccountId);
    }
    if event.ledger != pending.ledger {
        return Some(TransferCode::PendingTransferHasDifferentLedger);
    }
    if event.code != pending.code {
        return Some(TransferCode::PendingTransferHasDifferentCode);
    }
    if event.amount > pending.amount {
        return Some(TransferCode::ExceedsPendingTransferAmount);
    }
    if event.is_void() && event.amount < pending.amount {
        return Some(TransferCode::PendingTransferHasDifferentAmount);
    }
    None
}

/// Returns the first check that a post or a void fails before what it names is looked at, if it fails one.
fn naming_fault(event: &Transfer) -> Option<TransferCode>
    ensures rest { MatchOption result
        ((rest : Code) → first_row (spec.resolving_checks event.now) rest ≡ rest)
        (λ code. (rest : Code) → first_row (spec.resolving_checks event.now) rest ≡ code) }
    ensures not_ok { MatchOption result Unit (λ code. number_of code ≢ 0) }
{
    if event.pending_id == 0 {
        return Some(TransferCode::PendingIdMustNotBeZero);
    }
    if event.pending_id == u128::MAX {
        return Some(TransferCode::PendingIdMustNotBeIntMax);
    }
    if event.pending_id == event.id {
        return Some(TransferCode::PendingIdMustBeDifferent);
    }
    if event.timeout != 0 {
        return Some(TransferCode::TimeoutReservedForPendingTransfer);
    }
    None
}

/// Returns a post or a void as it is stored, if its checks find nothing, or else the first one that it fails. The
/// transfer that it names is read once.
#[inline(always)]
pub(crate) fn resolve(
    tables: &Tables,
    pending: Option<usize>,
    timestamp: u64,
    event: &Transfer,
) -> Result<Transfer, TransferCode>
    requires { IsTarget tables.now.now event.now (Named pending) }
    ensures ok { OnOk result (number_of (spec.resolving_verdict tables.now.now timestamp event.now) ≡ 0) }
    ensures stored { IfOk result (λ transfer. transfer ≡ spec.stored_transfer tables.now.now timestamp event.now) }
    ensures faulty { IfErr result (λ code. code ≡ spec.resolving_verdict tables.now.now timestamp event.now) }
    ensures not_ok { IfErr result (λ code. number_of code ≢ 0) }
{
    if let Some(code) = naming_fault(event) {
        return Err(code);
    }
    let Some(index) = pending else {
        return Err(TransferCode::PendingTransferNotFound);
    };
    let Some(named) = tables.transfer_at(index) else {
        return Err(TransferCode::PendingTransferNotFound);
    };
    let transfer = Transfer {
        timestamp,
        ..resolved(&named, event)
    };
    if let Some(code) = pending_fault(&named, &transfer) {
        return Err(code);
    }
    let code = check_status(tables, index, &named, timestamp);
    if code.number() == 0 {
        Ok(transfer)
    } else {
        Err(code)
    }
}
