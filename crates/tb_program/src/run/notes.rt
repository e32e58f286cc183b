//! What a driver notes.

ghost use Rattle.std.specs.Prelude.{◌≡◌, true, [], ◌∷◌, ◌++◌, IfOk};

use std::alloc::Global;
use tb_layout::NoMemory;
use tb_work::{Refusal, Reply};

/// The result of a packet that a driver handed in.
#[derive(Clone, Copy)]
pub(crate) enum PacketResult {
    Queued,
    Refused(Refusal),
}

/// The results of a driver's packets so far, in their order, and the replies that it read. Room for both is made before
/// any thread is started.
#[derive(Drop)]
pub(crate) struct Notes {
    pub(crate) results: Vec<PacketResult>,
    pub(crate) replies: Vec<Reply>,
    /// Whether all of it found room.
    pub(crate) complete: bool,
}

impl Notes {
    /// Returns no notes, with room for this number of packets and their replies.
    pub(crate) fn new(alloc: Global, packets: usize) -> Result<Notes, NoMemory>
        ensures { IfOk result (λ notes. (notes.results.items ≡ []) × (notes.replies.items ≡ [])
            × (notes.complete ≡ true)) }
    {
        Ok(Notes {
            results: Vec::with_capacity(alloc, packets)?,
            replies: Vec::with_capacity(alloc, packets)?,
            complete: true,
        })
    }

    /// Notes the result of the next packet.
    pub(crate) fn push(&mut self, last: PacketResult)
        ensures results { self.new.complete ≡ true → (self.old.complete ≡ true)
            × (self.new.results.items ≡ self.old.results.items ++ last ∷ []) }
        ensures replies { self.new.replies ≡ self.old.replies }
    {
        if self.results.push(last).is_err() {
            self.complete = false;
        }
    }

    /// Keeps the next reply.
    pub(crate) fn keep(&mut self, reply: Reply)
        ensures results { self.new.results ≡ self.old.results }
        ensures replies { self.new.complete ≡ true → (self.old.complete ≡ true)
            × (self.new.replies.items ≡ self.old.replies.items ++ reply ∷ []) }
    {
        if self.replies.push(reply).is_err() {
            self.complete = false;
        }
    }
}
