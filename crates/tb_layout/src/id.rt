//! Ids.

ghost use Rattle.std.specs.Prelude.{◌≡◌};
ghost use Rattle.tb_layout.specs.claim.BytesOfNumbers.{bytes_of};
ghost use Rattle.tb_layout.specs.claim.Bytes.{number_at};

use crate::number::{read_u128, write_u128};

/// Returns the id in 16 bytes, as a lookup's data lays it out.
pub fn read_id(bytes: &[u8; 16]) -> u128
    ensures { result ≡ number_at bytes.now 0 16 }
{
    read_u128(bytes, 0)
}

/// Returns the 16 bytes of an id.
pub fn write_id(id: u128) -> [u8; 16]
    ensures value { result ≡ bytes_of 16 id }
    ensures read_back { number_at result 0 16 ≡ id }
{
    let mut bytes = [0; 16];
    write_u128(&mut bytes, 0, id);
    bytes
}
