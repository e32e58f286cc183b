//! What a submitter queues.

ghost use Rattle.std.specs.Prelude.{◌≡◌, ℕ, [], IfOk, IfSome, IsSome};
ghost use Rattle.tb_program.specs.inside.Drivers.{HasAskedOf, HasEndedOf, HasSeenOf, IsDone, share_of};

use crate::run::notes::{Notes, PacketResult};
use std::alloc::Global;
use std::snapshot::Snapshot;
use std::sync::Wait;
use std::vec::IntoIter;
use tb_drive::{Action, Driver};
use tb_layout::NoMemory;
use tb_work::{Packet, Refusal, Reply};

/// Queues its share, the packets of a submitter in the order of the script, and notes the result of each.
#[derive(Drop)]
pub(crate) struct ScriptDriver {
    share: Snapshot<Vec<Packet>>,
    packets: IntoIter<Packet>,
    notes: Notes,
}

impl ScriptDriver {
    /// Returns the driver for these packets, with room for what it is to note.
    pub(crate) fn new(alloc: Global, packets: Vec<Packet>) -> Result<ScriptDriver, NoMemory>
        ensures share { IfOk result (λ driver. share_of driver ≡ packets.items) }
        ensures new { IfOk result (λ driver. (limit : ℕ) → HasSeenOf driver limit [] []) }
    {
        let notes = Notes::new(alloc, packets.len())?;
        Ok(ScriptDriver {
            share: Snapshot::of(&packets),
            packets: packets.into_iter(),
            notes,
        })
    }

    /// Returns what it has noted. None if it found no room, or a packet is left, as none is once the driver has
    /// ended.
    pub(crate) fn into_notes(self) -> Option<Notes>
        ensures notes { IfSome result (λ notes. notes ≡ self.notes) }
        ensures done { IsSome result → IsDone self }
    {
        let mut packets = self.packets;
        if !self.notes.complete || packets.next().is_some() {
            return None;
        }
        Some(self.notes)
    }
}

impl Driver for ScriptDriver {
    ghost has_seen = { HasSeenOf };

    ghost has_asked = { HasAskedOf };

    ghost has_ended = { HasEndedOf };

    ghost share = { share_of };

    fn next<R: Wait>(&mut self, _rt: &R, _alloc: Global) -> Action {
        match self.packets.next() {
            Some(packet) => Action::Submit(packet),
            None => Action::End,
        }
    }

    fn submitted(&mut self, response: Result<u64, Refusal>) {
        match response {
            Ok(_) => self.notes.push(PacketResult::Queued),
            Err(refusal) => self.notes.push(PacketResult::Refused(refusal)),
        }
    }

    fn receive(&mut self, reply: Reply) {
        self.notes.keep(reply);
    }
}
