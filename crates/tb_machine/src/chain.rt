//! Where chains start and end.

ghost use Rattle.std.specs.Prelude.{◌≡◌, ◌+◌, ◌^◌, ◌<◌, ◌≤◌, length, map};
ghost use Rattle.tb_layout.specs.claim.Limits.{clock_max};
ghost use Rattle.tb_machine.specs.claim.Chain as spec;
ghost use Rattle.tb_machine.specs.inside.Examining.{first_chain_length};

use crate::clock::clock_after;
use crate::event::CreateEvent;

/// Where a chain starts.
#[derive(Clone, Copy)]
pub(crate) struct ChainStart {
    /// The clock before its first event.
    pub(crate) clock: u64,

    /// The index of its first event in the packet.
    pub(crate) index: usize,

    /// Whether a look-up ahead found the id of its first event. No result depends on it.
    pub(crate) seems_stored: bool,
}

impl ChainStart {
    /// Returns the start of the next chain, if this one has `count` events.
    pub(crate) fn next(self, count: usize) -> ChainStart
        requires clock { self.clock ≤ clock_max }
        requires fits { self.index + count < 2 ^ 64 }
        ensures clock { result.clock ≡ spec.clock_after self.clock count }
        ensures bound { result.clock ≤ clock_max }
        ensures index { result.index ≡ self.index + count }
    {
        ChainStart {
            clock: clock_after(self.clock, count),
            index: self.index + count,
            seems_stored: false,
        }
    }
}

/// Returns how many events the first chain has.
pub(crate) fn first_chain_length<E: CreateEvent>(chunks: &[[u8; 128]]) -> usize
    ensures value { result ≡ first_chain_length E.operation.is_linked (map E.event_of chunks.now) }
    ensures within { result ≤ length chunks.now }
    ensures some { 0 < length chunks.now → 0 < result }
{
    for (index, chunk) in chunks.iter().enumerate() {
        if !E::is_chunk_linked(chunk) {
            return index + 1;
        }
    }
    chunks.len()
}
