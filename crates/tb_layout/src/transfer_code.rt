//! The results of create_transfers.

ghost use Rattle.std.specs.Prelude.{◌≡◌};

use crate::code::{Code, code_with, name_with, rows};

/// The result of one event of create_transfers, named as TigerBeetle names it, but for
/// `ClockExhausted`, which is this project's own. 18 is unused.
#[derive(Clone, Copy, PartialEq, Eq, Debug)]
pub enum TransferCode {
    Ok = 0,
    LinkedEventFailed = 1,
    LinkedEventChainOpen = 2,
    TimestampMustBeZero = 3,
    ReservedFlag = 4,
    IdMustNotBeZero = 5,
    IdMustNotBeIntMax = 6,
    FlagsAreMutuallyExclusive = 7,
    DebitAccountIdMustNotBeZero = 8,
    DebitAccountIdMustNotBeIntMax = 9,
    CreditAccountIdMustNotBeZero = 10,
    CreditAccountIdMustNotBeIntMax = 11,
    AccountsMustBeDifferent = 12,
    PendingIdMustBeZero = 13,
    PendingIdMustNotBeZero = 14,
    PendingIdMustNotBeIntMax = 15,
    PendingIdMustBeDifferent = 16,
    TimeoutReservedForPendingTransfer = 17,
    LedgerMustNotBeZero = 19,
    CodeMustNotBeZero = 20,
    DebitAccountNotFound = 21,
    CreditAccountNotFound = 22,
    AccountsMustHaveTheSameLedger = 23,
    TransferMustHaveTheSameLedgerAsAccounts = 24,
    PendingTransferNotFound = 25,
    PendingTransferNotPending = 26,
    PendingTransferHasDifferentDebitAccountId = 27,
    PendingTransferHasDifferentCreditAccountId = 28,
    PendingTransferHasDifferentLedger = 29,
    PendingTransferHasDifferentCode = 30,
    ExceedsPendingTransferAmount = 31,
    PendingTransferHasDifferentAmount = 32,
    PendingTransferAlreadyPosted = 33,
    PendingTransferAlreadyVoided = 34,
    PendingTransferExpired = 35,
    ExistsWithDifferentFlags = 36,
    ExistsWithDifferentDebitAccountId = 37,
    ExistsWithDifferentCreditAccountId = 38,
    ExistsWithDifferentAmount = 39,
    ExistsWithDifferentPendingId = 40,
    ExistsWithDifferentUserData128 = 41,
    ExistsWithDifferentUserData64 = 42,
    ExistsWithDifferentUserData32 = 43,
    ExistsWithDifferentTimeout = 44,
    ExistsWithDifferentCode = 45,
    Exists = 46,
    OverflowsDebitsPending = 47,
    OverflowsCreditsPending = 48,
    OverflowsDebitsPosted = 49,
    OverflowsCreditsPosted = 50,
    OverflowsDebits = 51,
    OverflowsCredits = 52,
    OverflowsTimeout = 53,
    ExceedsCredits = 54,
    ExceedsDebits = 55,
    ExistsWithDifferentLedger = 67,
    IdAlreadyFailed = 68,
    ClockExhausted = 201,
}

impl TransferCode {
    ghost use Rattle.tb_layout.specs.claim.TransferCode.{number_of};
    ghost use Rattle.tb_layout.specs.clauses.TransferCodes.{code_of, name_of};

    /// Returns the number that a failure carries. 0 is no failure.
    #[inline(always)]
    pub fn number(self) -> u32
        ensures { result ≡ number_of self }
    {
        self as u32
    }

    /// Returns the result that has this number, as a failure carries it.
    pub fn of_number(number: u32) -> Option<TransferCode>
        ensures { result ≡ code_of number }
    {
        code_with(&ROWS, number)
    }

    /// Returns TigerBeetle's name of the result.
    pub fn name(self) -> &'static str
        ensures { result.now ≡ name_of self }
    {
        name_with(&ROWS, self)
    }
}

impl Code for TransferCode {
    ghost use Rattle.tb_layout.specs.claim.TransferCode.{number_of as number_of_code};

    ghost number_of = { number_of_code };

    fn number(self) -> u32 {
        TransferCode::number(self)
    }
}

/// All results, by rising number, each with TigerBeetle's name.
const ROWS: [(TransferCode, &str); 58] = rows! {
    TransferCode;
    Ok => "ok",
    LinkedEventFailed => "linked_event_failed",
    LinkedEventChainOpen => "linked_event_chain_open",
    TimestampMustBeZero => "timestamp_must_be_zero",
    ReservedFlag => "reserved_flag",
    IdMustNotBeZero => "id_must_not_be_zero",
    IdMustNotBeIntMax => "id_must_not_be_int_max",
    FlagsAreMutuallyExclusive => "flags_are_mutually_exclusive",
    DebitAccountIdMustNotBeZero => "debit_account_id_must_not_be_zero",
    DebitAccountIdMustNotBeIntMax => "debit_account_id_must_not_be_int_max",
    CreditAccountIdMustNotBeZero => "credit_account_id_must_not_be_zero",
    CreditAccountIdMustNotBeIntMax => "credit_account_id_must_not_be_int_max",
    AccountsMustBeDifferent => "accounts_must_be_different",
    PendingIdMustBeZero => "pending_id_must_be_zero",
    PendingIdMustNotBeZero => "pending_id_must_not_be_zero",
    PendingIdMustNotBeIntMax => "pending_id_must_not_be_int_max",
    PendingIdMustBeDifferent => "pending_id_must_be_different",
    TimeoutReservedForPendingTransfer => "timeout_reserved_for_pending_transfer",
    LedgerMustNotBeZero => "ledger_must_not_be_zero",
    CodeMustNotBeZero => "code_must_not_be_zero",
    DebitAccountNotFound => "debit_account_not_found",
    CreditAccountNotFound => "credit_account_not_found",
    AccountsMustHaveTheSameLedger => "accounts_must_have_the_same_ledger",
    TransferMustHaveTheSameLedgerAsAccounts => "transfer_must_have_the_same_ledger_as_accounts",
    PendingTransferNotFound => "pending_transfer_not_found",
    PendingTransferNotPending => "pending_transfer_not_pending",
    PendingTransferHasDifferentDebitAccountId => "pending_transfer_has_different_debit_account_id",
    PendingTransferHasDifferentCreditAccountId => "pending_transfer_has_different_credit_account_id",
    PendingTransferHasDifferentLedger => "pending_transfer_has_different_ledger",
    PendingTransferHasDifferentCode => "pending_transfer_has_different_code",
    ExceedsPendingTransferAmount => "exceeds_pending_transfer_amount",
    PendingTransferHasDifferentAmount => "pending_transfer_has_different_amount",
    PendingTransferAlreadyPosted => "pending_transfer_already_posted",
    PendingTransferAlreadyVoided => "pending_transfer_already_voided",
    PendingTransferExpired => "pending_transfer_expired",
    ExistsWithDifferentFlags => "exists_with_different_flags",
    ExistsWithDifferentDebitAccountId => "exists_with_different_debit_account_id",
    ExistsWithDifferentCreditAccountId => "exists_with_different_credit_account_id",
    ExistsWithDifferentAmount => "exists_with_different_amount",
    ExistsWithDifferentPendingId => "exists_with_different_pending_id",
    ExistsWithDifferentUserData128 => "exists_with_different_user_data_128",
    ExistsWithDifferentUserData64 => "exists_with_different_user_data_64",
    ExistsWithDifferentUserData32 => "exists_with_different_user_data_32",
    ExistsWithDifferentTimeout => "exists_with_different_timeout",
    ExistsWithDifferentCode => "exists_with_different_code",
    Exists => "exists",
    OverflowsDebitsPending => "overflows_debits_pending",
    OverflowsCreditsPending => "overflows_credits_pending",
    OverflowsDebitsPosted => "overflows_debits_posted",
    OverflowsCreditsPosted => "overflows_credits_posted",
    OverflowsDebits => "overflows_debits",
    OverflowsCredits => "overflows_credits",
    OverflowsTimeout => "overflows_timeout",
    ExceedsCredits => "exceeds_credits",
    ExceedsDebits => "exceeds_debits",
    ExistsWithDifferentLedger => "exists_with_different_ledger",
    IdAlreadyFailed => "id_already_failed",
    ClockExhausted => "clock_exhausted",
};
