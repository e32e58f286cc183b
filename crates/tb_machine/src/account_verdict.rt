//! The checks of an event that asks for an account, in their order.

ghost use Rattle.std.specs.Prelude.{◌≡◌, ◌≢◌, None, MatchOption};
ghost use Rattle.tb_layout.specs.declared.account_code.AccountCode.{AccountCode as Code};
ghost use Rattle.tb_layout.specs.declared.account_code.AccountCode.TheVariants.{Exists, Ok};
ghost use Rattle.tb_layout.specs.claim.AccountCode.{number_of};
ghost use Rattle.tb_machine.specs.claim.AccountVerdict as spec;
ghost use Rattle.tb_machine.specs.claim.Checks.{first_row};
ghost use Rattle.tb_machine.specs.inside.Examining.{new_account_verdict as new_verdict_of};

use tb_layout::{Account, AccountCode};
use tb_tables::Tables;

/// Returns how an event differs from the stored account that has its id, or that it doesn't.
fn compare_with_stored(stored: &Account, event: &Account) -> AccountCode
    ensures first { result ≡ first_row (spec.stored_checks stored.now event.now) Exists }
    ensures not_ok { number_of result ≢ 0 }
{
    if event.flags != stored.flags {
        return AccountCode::ExistsWithDifferentFlags;
    }
    if event.user_data_128 != stored.user_data_128 {
        return AccountCode::ExistsWithDifferentUserData128;
    }
    if event.user_data_64 != stored.user_data_64 {
        return AccountCode::ExistsWithDifferentUserData64;
    }
    if event.user_data_32 != stored.user_data_32 {
        return AccountCode::ExistsWithDifferentUserData32;
    }
    if event.ledger != stored.ledger {
        return AccountCode::ExistsWithDifferentLedger;
    }
    if event.code != stored.code {
        return AccountCode::ExistsWithDifferentCode;
    }
    AccountCode::Exists
}

/// Returns the first check that an event with a new id fails, or Ok.
#[inline(always)]
fn check_new_id(event: &Account) -> AccountCode
    ensures { result ≡ first_row (spec.new_id_checks event.now) Ok }
{
    if event.debits_must_not_exceed_credits() && event.credits_must_not_exceed_debits() {
        return AccountCode::FlagsAreMutuallyExclusive;
    }
    if event.debits_pending != 0 {
        return AccountCode::DebitsPendingMustBeZero;
    }
    if event.debits_posted != 0 {
        return AccountCode::DebitsPostedMustBeZero;
    }
    if event.credits_pending != 0 {
        return AccountCode::CreditsPendingMustBeZero;
    }
    if event.credits_posted != 0 {
        return AccountCode::CreditsPostedMustBeZero;
    }
    if event.ledger == 0 {
        return AccountCode::LedgerMustNotBeZero;
    }
    if event.code == 0 {
        return AccountCode::CodeMustNotBeZero;
    }
    AccountCode::Ok
}

/// Returns the first check that any event fails, if it fails one. It decides alone, whatever is stored.
#[inline(always)]
fn account_fault(event: &Account) -> Option<AccountCode>
    ensures rest { MatchOption result
        ((rest : Code) → first_row (spec.event_checks event.now) rest ≡ rest)
        (λ code. (rest : Code) → first_row (spec.event_checks event.now) rest ≡ code) }
    ensures not_ok { MatchOption result Unit (λ code. number_of code ≢ 0) }
{
    if event.timestamp != 0 {
        return Some(AccountCode::TimestampMustBeZero);
    }
    if event.reserved != 0 {
        return Some(AccountCode::ReservedField);
    }
    if event.has_reserved_flag() {
        return Some(AccountCode::ReservedFlag);
    }
    if event.id == 0 {
        return Some(AccountCode::IdMustNotBeZero);
    }
    if event.id == u128::MAX {
        return Some(AccountCode::IdMustNotBeIntMax);
    }
    None
}

/// Returns the first check that the event fails if no account has its id, or Ok.
#[inline(always)]
pub(crate) fn new_account_verdict(event: &Account) -> AccountCode
    ensures { result ≡ new_verdict_of event.now }
{
    match account_fault(event) {
        Some(code) => code,
        None => check_new_id(event),
    }
}

/// Returns the first check that the event fails, or Ok. Only an event that passes the checks of any event is looked up.
#[inline(never)]
pub(crate) fn account_verdict(tables: &Tables, event: &Account) -> AccountCode
    ensures first { result ≡ spec.account_verdict tables.now.now event.now }
    ensures ok { number_of result ≡ 0 → number_of (new_verdict_of event.now) ≡ 0 }
{
    if let Some(code) = account_fault(event) {
        return code;
    }
    match tables.account(event.id) {
        Some(stored) => compare_with_stored(&stored, event),
        None => check_new_id(event),
    }
}
