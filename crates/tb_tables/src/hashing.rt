//! How ids are hashed.

ghost use Rattle.std.specs.Prelude.{◌≡◌, ◌%◌, ◌/◌, ◌^◌, bit_xor, fold};
ghost use Rattle.std.specs.Hash as fed;
ghost use Rattle.tb_layout.specs.claim.Bytes.{little_endian};
ghost use Rattle.tb_tables.specs.inside.Hashing.{folded, with_id, with_ids};

use std::hash::{BuildHasher, Hasher};
use tb_layout::{U64_VALUES, read_id};

/// Two numbers that are mixed into the halves of every id before it is hashed. With `Seed::default()`, two zeros, anybody
/// can choose ids that have one hash. With numbers that an attacker doesn't know, those ids have different hashes.
#[derive(Clone, Copy, Default)]
pub struct Seed {
    pub low: u64,
    pub high: u64,
}

/// The numbers that an unseeded hasher mixes in.
const LOW: u64 = 0x243f_6a88_85a3_08e3;

const HIGH: u64 = 0x9e37_79b9_7f4a_7c15;

/// A hasher of ids, and what makes one for each of them: a copy of itself.
#[derive(Clone, Copy)]
pub(crate) struct IdHasher {
    /// The hash so far, which is mixed into the lower half of the next id.
    low: u64,
    high: u64,
}

impl IdHasher {
    /// Returns the hasher with a seed.
    pub(crate) fn new(seed: Seed) -> IdHasher
        ensures low { result.low ≡ bit_xor seed.low 0x243f_6a88_85a3_08e3 }
        ensures high { result.high ≡ bit_xor seed.high 0x9e37_79b9_7f4a_7c15 }
    {
        IdHasher {
            low: seed.low ^ LOW,
            high: seed.high ^ HIGH,
        }
    }

    /// Hashes the id in 16 bytes.
    fn write_chunk(&mut self, chunk: &[u8; 16])
        ensures { self.new ≡ with_id self.old (little_endian chunk.now) }
    {
        self.write_u128(read_id(chunk));
    }
}

/// Returns the halves of a product of 128 bits, joined by exclusive or.
fn folded_product(a: u64, b: u64) -> u64
    ensures { result ≡ folded a b }
{
    let product = u128::from(a) * u128::from(b);
    (product % U64_VALUES) as u64 ^ (product / U64_VALUES) as u64
}

impl Hasher for IdHasher {
    ghost write = { with_ids };

    ghost finish = { λ hasher. hasher.low };

    fn finish(&self) -> u64 {
        self.low
    }

    /// Hashes each 16 bytes as an id. Nothing else is hashed here.
    fn write(&mut self, bytes: &[u8]) {
        let (chunks, _) = bytes.as_chunks::<16>();
        for chunk in chunks {
            self.write_chunk(chunk);
        }
    }

    fn write_u128(&mut self, id: u128)
        ensures id { self.new ≡ with_id self.old id }
        ensures fed { self.new ≡ fold with_ids self.old (fed.u128 id) }
    {
        let low = (id % U64_VALUES) as u64 ^ self.low;
        let high = (id / U64_VALUES) as u64 ^ self.high;
        self.low = folded_product(low, high);
    }
}

impl BuildHasher for IdHasher {
    type Hasher = IdHasher;

    ghost build_hasher = { λ hasher. hasher };

    fn build_hasher(&self) -> IdHasher {
        *self
    }
}
