//! Transfers.

ghost use Rattle.std.specs.Prelude.{◌≡◌, ℕ, List};
ghost use Rattle.tb_layout.specs.claim.BytesOfNumbers.{IsBytes};
ghost use Rattle.tb_layout.specs.claim.Bytes.{has_reserved_flag as is_reserved_in};
ghost use Rattle.tb_layout.specs.claim.Transfer as spec;
ghost use Rattle.tb_layout.specs.clauses.Records.{transfer_bytes};

use crate::flags::has_reserved_flag;
use crate::number::{
    read_u16, read_u32, read_u64, read_u128, write_u16, write_u32, write_u64, write_u128,
};

/// A transfer, or the event that asks for one. The amount is a whole number of the smallest unit of
/// the ledger, the timeout is in seconds (0 is none), the timestamp in nanoseconds.
#[derive(Clone, Copy, Debug, Default, PartialEq, Eq)]
pub struct Transfer {
    pub id: u128,
    pub debit_account_id: u128,
    pub credit_account_id: u128,
    pub amount: u128,
    pub pending_id: u128,
    pub user_data_128: u128,
    pub user_data_64: u64,
    pub user_data_32: u32,
    pub timeout: u32,
    pub ledger: u32,
    pub code: u16,
    pub flags: u16,
    pub timestamp: u64,
}

impl Transfer {
    /// The flag of an event that belongs to the same chain as the next one.
    pub const LINKED: u16 = 1;

    /// The flag of a transfer that reserves its amount.
    pub const PENDING: u16 = 2;

    /// The flag of an event that posts the pending transfer named by `pending_id`.
    pub const POST_PENDING_TRANSFER: u16 = 4;

    /// The flag of an event that voids the pending transfer named by `pending_id`.
    pub const VOID_PENDING_TRANSFER: u16 = 8;

    /// Returns whether the next event of its packet belongs to the same chain (bit 0 of the flags).
    pub fn is_linked(&self) -> bool
        ensures { result ≡ spec.is_linked self.now }
    {
        self.flags & Transfer::LINKED != 0
    }

    /// Returns whether the transfer reserves its amount and moves nothing yet (bit 1 of the flags).
    pub fn is_pending(&self) -> bool
        ensures { result ≡ spec.is_pending self.now }
    {
        self.flags & Transfer::PENDING != 0
    }

    /// Returns whether the event posts a pending transfer (bit 2 of the flags).
    pub fn is_post(&self) -> bool
        ensures { result ≡ spec.is_post self.now }
    {
        self.flags & Transfer::POST_PENDING_TRANSFER != 0
    }

    /// Returns whether the event voids a pending transfer (bit 3 of the flags).
    pub fn is_void(&self) -> bool
        ensures { result ≡ spec.is_void self.now }
    {
        self.flags & Transfer::VOID_PENDING_TRANSFER != 0
    }

    /// Returns whether a bit of the flags is set that stands for nothing (bits 4 to 15).
    pub fn has_reserved_flag(&self) -> bool
        ensures { result ≡ is_reserved_in self.now.flags }
    {
        has_reserved_flag(self.flags)
    }
}

/// Returns the transfer in 128 bytes, as the requests reference of TigerBeetle lays it out.
pub fn read_transfer(bytes: &[u8; 128]) -> Transfer
    ensures { result ≡ spec.transfer_of bytes.now }
{
    Transfer {
        id: read_u128(bytes, 0),
        debit_account_id: read_u128(bytes, 16),
        credit_account_id: read_u128(bytes, 32),
        amount: read_u128(bytes, 48),
        pending_id: read_u128(bytes, 64),
        user_data_128: read_u128(bytes, 80),
        user_data_64: read_u64(bytes, 96),
        user_data_32: read_u32(bytes, 104),
        timeout: read_u32(bytes, 108),
        ledger: read_u32(bytes, 112),
        code: read_u16(bytes, 116),
        flags: read_u16(bytes, 118),
        timestamp: read_u64(bytes, 120),
    }
}

/// Returns the 128 bytes of a transfer.
pub fn write_transfer(transfer: &Transfer) -> [u8; 128]
    ensures value { result ≡ transfer_bytes transfer.now }
    ensures read_back { spec.transfer_of result ≡ transfer.now }
    ensures reads_only_so { (bytes : List ℕ) → IsBytes 128 bytes
        → spec.transfer_of bytes ≡ transfer.now → bytes ≡ result }
{
    let transfer = *transfer;
    let mut bytes = [0; 128];
    write_u128(&mut bytes, 0, transfer.id);
    write_u128(&mut bytes, 16, transfer.debit_account_id);
    write_u128(&mut bytes, 32, transfer.credit_account_id);
    write_u128(&mut bytes, 48, transfer.amount);
    write_u128(&mut bytes, 64, transfer.pending_id);
    write_u128(&mut bytes, 80, transfer.user_data_128);
    write_u64(&mut bytes, 96, transfer.user_data_64);
    write_u32(&mut bytes, 104, transfer.user_data_32);
    write_u32(&mut bytes, 108, transfer.timeout);
    write_u32(&mut bytes, 112, transfer.ledger);
    write_u16(&mut bytes, 116, transfer.code);
    write_u16(&mut bytes, 118, transfer.flags);
    write_u64(&mut bytes, 120, transfer.timestamp);
    bytes
}
