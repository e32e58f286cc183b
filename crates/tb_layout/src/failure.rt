//! The failed events of a packet.

use crate::account_code::AccountCode;
use crate::number::{read_u32, write_u32};
use crate::transfer_code::TransferCode;

/// A failed event: its index in its packet, counted from 0, and the number of its result.
#[derive(Clone, Copy, Debug, Default, PartialEq, Eq)]
pub struct Failure {
    pub index: u32,
    pub code: u32,
}

impl Failure {
    ghost use Rattle.tb_layout.specs.clauses.AccountCodes.{code_of as account_code_of};
    ghost use Rattle.tb_layout.specs.clauses.TransferCodes.{code_of as transfer_code_of};

    /// Returns the result if the event is of create_accounts, or `None` if no result of that operation has this number.
    /// Compares up to 23 numbers.
    pub fn account_code(&self) -> Option<AccountCode>
        ensures { result ≡ account_code_of self.now.code }
    {
        AccountCode::of_number(self.code)
    }

    /// Returns the result if the event is of create_transfers, or `None` if no result of that operation has this number.
    /// Compares up to 58 numbers.
    pub fn transfer_code(&self) -> Option<TransferCode>
        ensures { result ≡ transfer_code_of self.now.code }
    {
        TransferCode::of_number(self.code)
    }
}

ghost use Rattle.std.specs.Prelude.{◌≡◌, ℕ, List};
ghost use Rattle.tb_layout.specs.clauses.Failure.{failure_of, failure_bytes};
ghost use Rattle.tb_layout.specs.claim.BytesOfNumbers.{IsBytes};

/// Returns the failure in 8 bytes: the index, then the code (requests reference of TigerBeetle, results).
pub fn read_failure(bytes: &[u8; 8]) -> Failure
    ensures { result ≡ failure_of bytes.now }
{
    Failure {
        index: read_u32(bytes, 0),
        code: read_u32(bytes, 4),
    }
}

/// Returns the 8 bytes of a failure.
pub fn write_failure(failure: &Failure) -> [u8; 8]
    ensures value { result ≡ failure_bytes failure.now }
    ensures read_back { failure_of result ≡ failure.now }
    ensures reads_only_so { (bytes : List ℕ) → IsBytes 8 bytes → failure_of bytes ≡ failure.now → bytes ≡ result }
{
    let failure = *failure;
    let mut bytes = [0; 8];
    write_u32(&mut bytes, 0, failure.index);
    write_u32(&mut bytes, 4, failure.code);
    bytes
}
