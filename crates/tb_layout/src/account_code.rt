//! The results of create_accounts.

ghost use Rattle.std.specs.Prelude.{◌≡◌};

use crate::code::{Code, code_with, name_with, rows};

/// The result of one event of create_accounts, named as TigerBeetle names it, but for
/// `ClockExhausted`, which is this project's own.
#[derive(Clone, Copy, Debug, PartialEq, Eq)]
pub enum AccountCode {
    Ok = 0,
    LinkedEventFailed = 1,
    LinkedEventChainOpen = 2,
    TimestampMustBeZero = 3,
    ReservedField = 4,
    ReservedFlag = 5,
    IdMustNotBeZero = 6,
    IdMustNotBeIntMax = 7,
    FlagsAreMutuallyExclusive = 8,
    DebitsPendingMustBeZero = 9,
    DebitsPostedMustBeZero = 10,
    CreditsPendingMustBeZero = 11,
    CreditsPostedMustBeZero = 12,
    LedgerMustNotBeZero = 13,
    CodeMustNotBeZero = 14,
    ExistsWithDifferentFlags = 15,
    ExistsWithDifferentUserData128 = 16,
    ExistsWithDifferentUserData64 = 17,
    ExistsWithDifferentUserData32 = 18,
    ExistsWithDifferentLedger = 19,
    ExistsWithDifferentCode = 20,
    Exists = 21,
    ClockExhausted = 201,
}

impl AccountCode {
    ghost use Rattle.tb_layout.specs.claim.AccountCode.{number_of};
    ghost use Rattle.tb_layout.specs.clauses.AccountCodes.{code_of, name_of};

    /// Returns the number that a failure carries. 0 is no failure.
    pub fn number(self) -> u32
        ensures { result ≡ number_of self }
    {
        self as u32
    }

    /// Returns the result that has this number, as a failure carries it.
    pub fn of_number(number: u32) -> Option<AccountCode>
        ensures { result ≡ code_of number }
    {
        code_with(&ROWS, number)
    }

    /// Returns TigerBeetle's name of the result.
    pub fn name(self) -> &'static str
        ensures { result.now ≡ name_of self }
    {
        name_with(&ROWS, self)
    }
}

impl Code for AccountCode {
    ghost use Rattle.tb_layout.specs.claim.AccountCode.{number_of as number_of_code};

    ghost number_of = { number_of_code };

    fn number(self) -> u32 {
        AccountCode::number(self)
    }
}

/// All results, by rising number, each with TigerBeetle's name.
const ROWS: [(AccountCode, &str); 23] = rows! {
    AccountCode;
    Ok => "ok",
    LinkedEventFailed => "linked_event_failed",
    LinkedEventChainOpen => "linked_event_chain_open",
    TimestampMustBeZero => "timestamp_must_be_zero",
    ReservedField => "reserved_field",
    ReservedFlag => "reserved_flag",
    IdMustNotBeZero => "id_must_not_be_zero",
    IdMustNotBeIntMax => "id_must_not_be_int_max",
    FlagsAreMutuallyExclusive => "flags_are_mutually_exclusive",
    DebitsPendingMustBeZero => "debits_pending_must_be_zero",
    DebitsPostedMustBeZero => "debits_posted_must_be_zero",
    CreditsPendingMustBeZero => "credits_pending_must_be_zero",
    CreditsPostedMustBeZero => "credits_posted_must_be_zero",
    LedgerMustNotBeZero => "ledger_must_not_be_zero",
    CodeMustNotBeZero => "code_must_not_be_zero",
    ExistsWithDifferentFlags => "exists_with_different_flags",
    ExistsWithDifferentUserData128 => "exists_with_different_user_data_128",
    ExistsWithDifferentUserData64 => "exists_with_different_user_data_64",
    ExistsWithDifferentUserData32 => "exists_with_different_user_data_32",
    ExistsWithDifferentLedger => "exists_with_different_ledger",
    ExistsWithDifferentCode => "exists_with_different_code",
    Exists => "exists",
    ClockExhausted => "clock_exhausted",
};
