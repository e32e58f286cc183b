//! What is read off an event without decoding it.

ghost use Rattle.std.specs.Prelude.{◌≡◌};
ghost use Rattle.tb_layout.specs.claim.EventCounts.{is_chunk_linked as is_linked};

/// Returns whether the event of a chunk, an account or a transfer, is linked. Both have their flags at the same offset;
/// only the first byte of them is read, and no event is decoded.
pub fn is_chunk_linked(chunk: &[u8; 128]) -> bool
    ensures { result ≡ is_linked chunk.now }
{
    chunk[118] & 1 != 0
}
