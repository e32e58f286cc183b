//! Accounts.

ghost use Rattle.std.specs.Prelude.{◌≡◌, ℕ, List};
ghost use Rattle.tb_layout.specs.claim.BytesOfNumbers.{IsBytes};
ghost use Rattle.tb_layout.specs.claim.Account as spec;
ghost use Rattle.tb_layout.specs.clauses.Records.{account_bytes};
ghost use Rattle.tb_layout.specs.claim.Bytes.{has_reserved_flag as is_reserved_in};

use crate::flags::has_reserved_flag;
use crate::number::{
    read_u16, read_u32, read_u64, read_u128, write_u16, write_u32, write_u64, write_u128,
};

/// An account, or the event that asks for one. Amounts are whole numbers of the smallest unit of the
/// account's ledger.
#[derive(Clone, Copy, Debug, Default, PartialEq, Eq)]
pub struct Account {
    pub id: u128,
    pub debits_pending: u128,
    pub debits_posted: u128,
    pub credits_pending: u128,
    pub credits_posted: u128,
    pub user_data_128: u128,
    pub user_data_64: u64,
    pub user_data_32: u32,
    pub reserved: u32,
    pub ledger: u32,
    pub code: u16,
    pub flags: u16,
    pub timestamp: u64,
}

impl Account {
    /// The flag of an event that belongs to the same chain as the next one.
    pub const LINKED: u16 = 1;

    /// The flag of an account whose posted and pending debits may not exceed its posted credits.
    pub const DEBITS_MUST_NOT_EXCEED_CREDITS: u16 = 2;

    /// The flag of an account whose posted and pending credits may not exceed its posted debits.
    pub const CREDITS_MUST_NOT_EXCEED_DEBITS: u16 = 4;

    /// Returns whether the next event of its packet belongs to the same chain (bit 0 of the flags).
    pub fn is_linked(&self) -> bool
        ensures { result ≡ spec.is_linked self.now }
    {
        self.flags & Account::LINKED != 0
    }

    /// Returns whether what the account owes may not exceed what it is owed (bit 1 of the flags).
    pub fn debits_must_not_exceed_credits(&self) -> bool
        ensures { result ≡ spec.debits_must_not_exceed_credits self.now }
    {
        self.flags & Account::DEBITS_MUST_NOT_EXCEED_CREDITS != 0
    }

    /// Returns whether what the account is owed may not exceed what it owes (bit 2 of the flags).
    pub fn credits_must_not_exceed_debits(&self) -> bool
        ensures { result ≡ spec.credits_must_not_exceed_debits self.now }
    {
        self.flags & Account::CREDITS_MUST_NOT_EXCEED_DEBITS != 0
    }

    /// Returns whether a bit of the flags is set that stands for nothing (bits 4 to 15).
    pub fn has_reserved_flag(&self) -> bool
        ensures { result ≡ is_reserved_in self.now.flags }
    {
        has_reserved_flag(self.flags)
    }
}

/// Returns the account in 128 bytes, as the requests reference of TigerBeetle lays it out.
pub fn read_account(bytes: &[u8; 128]) -> Account
    ensures { result ≡ spec.account_of bytes.now }
{
    Account {
        id: read_u128(bytes, 0),
        debits_pending: read_u128(bytes, 16),
        debits_posted: read_u128(bytes, 32),
        credits_pending: read_u128(bytes, 48),
        credits_posted: read_u128(bytes, 64),
        user_data_128: read_u128(bytes, 80),
        user_data_64: read_u64(bytes, 96),
        user_data_32: read_u32(bytes, 104),
        reserved: read_u32(bytes, 108),
        ledger: read_u32(bytes, 112),
        code: read_u16(bytes, 116),
        flags: read_u16(bytes, 118),
        timestamp: read_u64(bytes, 120),
    }
}

/// Returns the 128 bytes of an account.
pub fn write_account(account: &Account) -> [u8; 128]
    ensures value { result ≡ account_bytes account.now }
    ensures read_back { spec.account_of result ≡ account.now }
    ensures reads_only_so { (bytes : List ℕ) → IsBytes 128 bytes
        → spec.account_of bytes ≡ account.now → bytes ≡ result }
{
    let account = *account;
    let mut bytes = [0; 128];
    write_u128(&mut bytes, 0, account.id);
    write_u128(&mut bytes, 16, account.debits_pending);
    write_u128(&mut bytes, 32, account.debits_posted);
    write_u128(&mut bytes, 48, account.credits_pending);
    write_u128(&mut bytes, 64, account.credits_posted);
    write_u128(&mut bytes, 80, account.user_data_128);
    write_u64(&mut bytes, 96, account.user_data_64);
    write_u32(&mut bytes, 104, account.user_data_32);
    write_u32(&mut bytes, 108, account.reserved);
    write_u32(&mut bytes, 112, account.ledger);
    write_u16(&mut bytes, 116, account.code);
    write_u16(&mut bytes, 118, account.flags);
    write_u64(&mut bytes, 120, account.timestamp);
    bytes
}
