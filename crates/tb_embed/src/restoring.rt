//! What a host restores of the journal that it keeps.

ghost use Rattle.std.specs.Prelude.{◌≡◌, IfErr, OnOk, OnErr, None};
ghost use Rattle.tb_embed.specs.clauses.Restoring.{IsFault, RestoresPacket, RestoresPulse, is_next_place, packet_fault, pulse_fault};

use crate::engine::Engine;
use std::alloc::Global;
use tb_layout::PLACES_MAX;
use tb_work::{Packet, Refusal};

/// A packet of a journal: its place, and its number among its submitter's packets.
#[derive(Drop)]
pub struct PlacedPacket {
    pub place: u64,
    pub submitter: u32,
    pub number: u64,
    pub packet: Packet,
}

/// A pulse of a journal: its place, and its moment in nanoseconds.
#[derive(Clone, Copy)]
pub struct PlacedPulse {
    pub place: u64,
    pub moment: u64,
}

/// Why a packet or a pulse isn't restored. Nothing has changed then.
#[derive(Clone, Copy)]
pub enum RestoreFault {
    /// The engine holds a packet, has an unread reply, or is shut.
    InUse,
    /// Its place isn't the next one, or its number isn't its submitter's next. No place is next once `PLACES_MAX` are used.
    NotNext,
    /// The engine refuses it, as it refuses a packet or pulse that is queued.
    Refused(Refusal),
}

impl Engine {
    /// Returns whether a place is the next one, and not past the last.
    fn is_next_place(&self, place: u64) -> bool
        ensures { result ≡ is_next_place self.now place }
    {
        place == self.places() && place < PLACES_MAX
    }

    /// Returns why a packet isn't restored if memory is there; None if it is.
    fn packet_fault(&self, entry: &PlacedPacket) -> Option<RestoreFault>
        ensures { result ≡ packet_fault self.now entry.now }
    {
        if !self.is_idle() {
            return Some(RestoreFault::InUse);
        }
        let packet = &entry.packet;
        if let Some(refusal) = self.refusal_of(
            entry.submitter,
            packet.operation,
            packet.bytes.as_slice(),
        ) {
            return Some(RestoreFault::Refused(refusal));
        }
        if self.is_next_place(entry.place) && entry.number == self.next_number(entry.submitter) {
            return None;
        }
        Some(RestoreFault::NotNext)
    }

    /// Commits a packet of a journal by itself, at the next place. Its reply, as it was when the packet was first committed, is the next one.
    /// So a host that keeps the journal has the ledger again: it restores all in the order of places, reads the replies, and then queues.
    ///
    /// # Errors
    ///
    /// The packet, and the first of these: `InUse`, `Refused` with the refusal of `submit`, `NotNext`, `Refused(NoMemory)`. Nothing has
    /// changed then.
    pub fn restore_packet(
        &mut self,
        alloc: Global,
        entry: PlacedPacket,
    ) -> Result<(), (PlacedPacket, RestoreFault)>
        ensures ok { OnOk result (RestoresPacket self.old entry self.new) }
        ensures restorable { OnOk result (packet_fault self.old entry ≡ None) }
        ensures back { IfErr result (λ refused. (refused.0 ≡ entry) × (self.new ≡ self.old)) }
        ensures fault { IfErr result (λ refused. IsFault (packet_fault self.old entry) refused.1) }
    {
        if let Some(fault) = self.packet_fault(&entry) {
            return Err((entry, fault));
        }
        let PlacedPacket {
            place,
            submitter,
            number,
            packet,
        } = entry;
        match self.commit_alone(alloc, submitter, packet) {
            Ok(()) => Ok(()),
            Err(packet) => {
                let entry = PlacedPacket {
                    place,
                    submitter,
                    number,
                    packet,
                };
                Err((entry, RestoreFault::Refused(Refusal::NoMemory)))
            }
        }
    }

    /// Raises the clock by a pulse of a journal, at the next place.
    ///
    /// # Errors
    ///
    /// The first of these: `InUse`, `Refused` with the refusal of `pulse`, `NotNext`, `Refused(NoMemory)`. Nothing has changed then.
    pub fn restore_pulse(&mut self, entry: PlacedPulse) -> Result<(), RestoreFault>
        ensures ok { OnOk result (RestoresPulse self.old entry self.new) }
        ensures restorable { OnOk result (pulse_fault self.old entry ≡ None) }
        ensures same { OnErr result (self.new ≡ self.old) }
        ensures fault { IfErr result (λ fault. IsFault (pulse_fault self.old entry) fault) }
    {
        if !self.is_idle() {
            return Err(RestoreFault::InUse);
        }
        if let Some(refusal) = self.refusal_of_pulse(entry.moment) {
            return Err(RestoreFault::Refused(refusal));
        }
        if !self.is_next_place(entry.place) {
            return Err(RestoreFault::NotNext);
        }
        match self.pulse(entry.moment) {
            Ok(()) => Ok(()),
            Err(refusal) => Err(RestoreFault::Refused(refusal)),
        }
    }
}
