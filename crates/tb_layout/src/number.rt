//! Numbers in bytes, the least significant first.

ghost use Rattle.std.specs.Prelude.{◌≡◌, ◌+◌, ◌^◌, ◌<◌, ◌≤◌, ◌++◌, length, take};
ghost use Rattle.tb_layout.specs.claim.Bytes.{number_at};
ghost use Rattle.tb_layout.specs.claim.BytesOfNumbers.{bytes_of};

use byteorder::{ByteOrder, LittleEndian};

/// Returns the number in the 16 bytes at an offset.
pub(crate) fn read_u128(bytes: &[u8], offset: usize) -> u128
    requires { offset + 16 ≤ length bytes.now }
    ensures { result ≡ number_at bytes.now offset 16 }
{
    LittleEndian::read_u128(&bytes[offset..offset + 16])
}

/// Returns the number in the 8 bytes at an offset.
pub(crate) fn read_u64(bytes: &[u8], offset: usize) -> u64
    requires { offset + 8 ≤ length bytes.now }
    ensures { result ≡ number_at bytes.now offset 8 }
{
    LittleEndian::read_u64(&bytes[offset..offset + 8])
}

/// Returns the number in the 4 bytes at an offset.
pub(crate) fn read_u32(bytes: &[u8], offset: usize) -> u32
    requires { offset + 4 ≤ length bytes.now }
    ensures { result ≡ number_at bytes.now offset 4 }
{
    LittleEndian::read_u32(&bytes[offset..offset + 4])
}

/// Returns the number in the 2 bytes at an offset.
pub(crate) fn read_u16(bytes: &[u8], offset: usize) -> u16
    requires { offset + 2 ≤ length bytes.now }
    ensures { result ≡ number_at bytes.now offset 2 }
{
    LittleEndian::read_u16(&bytes[offset..offset + 2])
}

/// How many values 64 bits have: a number of 128 bits is its upper half times this, and its lower half.
pub const U64_VALUES: u128 = 1 << 64;

/// Writes the number into the 16 bytes at an offset, in two halves: writing all at once is several
/// times slower.
pub(crate) fn write_u128(bytes: &mut [u8], offset: usize, number: u128)
    requires { offset + 16 ≤ length bytes.old }
    ensures front { take (offset + 16) bytes.new ≡ take offset bytes.old ++ bytes_of 16 number }
    ensures fits { number < 256 ^ 16 }
{
    write_u64(bytes, offset, (number % U64_VALUES) as u64);
    write_u64(bytes, offset + 8, (number / U64_VALUES) as u64);
}

/// Writes the number into the 8 bytes at an offset.
pub(crate) fn write_u64(bytes: &mut [u8], offset: usize, number: u64)
    requires { offset + 8 ≤ length bytes.old }
    ensures front { take (offset + 8) bytes.new ≡ take offset bytes.old ++ bytes_of 8 number }
    ensures fits { number < 256 ^ 8 }
{
    LittleEndian::write_u64(&mut bytes[offset..offset + 8], number);
}

/// Writes the number into the 4 bytes at an offset.
pub(crate) fn write_u32(bytes: &mut [u8], offset: usize, number: u32)
    requires { offset + 4 ≤ length bytes.old }
    ensures front { take (offset + 4) bytes.new ≡ take offset bytes.old ++ bytes_of 4 number }
    ensures fits { number < 256 ^ 4 }
{
    LittleEndian::write_u32(&mut bytes[offset..offset + 4], number);
}

/// Writes the number into the 2 bytes at an offset.
pub(crate) fn write_u16(bytes: &mut [u8], offset: usize, number: u16)
    requires { offset + 2 ≤ length bytes.old }
    ensures front { take (offset + 2) bytes.new ≡ take offset bytes.old ++ bytes_of 2 number }
    ensures fits { number < 256 ^ 2 }
{
    LittleEndian::write_u16(&mut bytes[offset..offset + 2], number);
}
