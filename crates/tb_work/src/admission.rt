//! Which packets are admitted.

ghost use Rattle.std.specs.Prelude.{◌≡◌, Ok, IsOk};
ghost use Rattle.tb_layout.specs.claim.Bounds.{batch_max};
ghost use Rattle.tb_work.specs.claim.Admission as spec;

use crate::packet::Packet;
use crate::refusal::Refusal;
use std::marker::Model;
use tb_layout::{CREATE_ACCOUNTS, CREATE_TRANSFERS, EVENT_SIZE, ID_SIZE, LOOKUP_ACCOUNTS};

/// Says whether packets of an operation are lookups.
pub fn looks_up(operation: u8) -> bool
    ensures { result ≡ spec.looks_up operation }
{
    operation == LOOKUP_ACCOUNTS
}

/// Returns how many bytes an event of an operation has: 128, or 16 if it is an id. None if there is no such operation.
pub fn event_size(operation: u8) -> Option<usize>
    ensures { result ≡ spec.event_size operation }
{
    if operation == CREATE_ACCOUNTS {
        Some(EVENT_SIZE)
    } else if operation == CREATE_TRANSFERS {
        Some(EVENT_SIZE)
    } else if looks_up(operation) {
        Some(ID_SIZE)
    } else {
        None
    }
}

/// Returns how many events an operation's data has, or why a packet of them isn't admitted, as `admit` does. Reads only the
/// length of the data.
pub fn count_admitted(limit: u32, operation: u8, bytes: &[u8]) -> Result<u32, Refusal>
    ensures { result ≡ spec.admission_of_size limit bytes.now (spec.event_size operation) }
{
    let Some(size) = event_size(operation) else {
        return Err(Refusal::InvalidOperation);
    };
    let length = bytes.len();
    if length % size != 0 {
        return Err(Refusal::InvalidDataSize);
    }
    let count = length / size;
    if count > limit as usize {
        return Err(Refusal::TooMuchData);
    }
    Ok(count as u32)
}

/// Returns the number of a packet's events, or why it is not admitted: another operation, data that isn't whole events,
/// more events than the limit. A packet without events is admitted. Costs the same for any packet (checks of tb_client
/// before a packet is queued).
pub fn admit(limit: u32, packet: &Packet) -> Result<u32, Refusal>
    ensures { result ≡ spec.admission_of limit packet.now }
{
    count_admitted(limit, packet.operation, packet.bytes.as_slice())
}

/// A packet that was admitted, with its number of events. A contract sees it as its packet.
#[derive(Drop)]
pub struct AdmittedPacket {
    pub(crate) packet: Packet,
    pub(crate) count: u32,
}

impl Model for AdmittedPacket {
    ghost use Rattle.std.specs.Prelude.{◌≡◌, Ok};
    ghost use Rattle.tb_layout.specs.claim.Bounds.{batch_max};
    ghost use Rattle.tb_work.specs.claim.Admission.{admission_of};
    ghost use Rattle.tb_work.specs.declared.packet.Packet.{Packet};

    ghost Value = { Packet };

    ghost view = { λ admitted. admitted.packet };

    ghost invariant = { λ admitted. admission_of batch_max admitted.packet ≡ Ok admitted.count };
}

impl AdmittedPacket {
    /// Returns its number of events.
    pub(crate) fn count(&self) -> u32
        ensures { spec.admission_of batch_max self.now ≡ Ok result }
    {
        self.count
    }

    /// Reads the packet.
    pub(crate) fn packet(&self) -> &Packet
        ensures packet { result.now ≡ self.now }
        ensures admitted { IsOk (spec.admission_of batch_max self.now) }
    {
        &self.packet
    }

    /// Returns the packet as it was handed in.
    pub fn into_packet(self) -> Packet
        ensures { result ≡ self }
    {
        let AdmittedPacket { packet, count: _ } = self;
        packet
    }
}
