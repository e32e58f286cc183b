//! The entries of a journal, as C reads and writes them.

ghost use Rattle.std.specs.Prelude.{◌≡◌, ◌<◌, Some, None, true, IfOk, IfErr, OnOk, OnErr};
ghost use Rattle.tb_embed.specs.clauses.Recorded.{ChangesEngine, recorded_packet_fault, recorded_pulse_fault};
ghost use Rattle.tb_embed.specs.clauses.Restoring.{IsFault, RestoresPulse, RestoresUnseen};
ghost use Rattle.kip.specs.clauses.Entries.{IsFaultOrMemory, IsHandingOut, IsPacketStatus, IsRestoring, IsStoring, fault_number, if_empty, packet_entry, placed_packet, placed_pulse, pulse_entry};
ghost use Rattle.kip.specs.clauses.Results.{AreWritten};

use crate::calls::packet_of;
use crate::reading::{head_of, put_bytes};
use crate::status::{IN_USE, NO_ENTRY, NOT_HANDED_OUT, NOT_NEXT, NOT_RECORDED, TOO_SMALL};
use std::alloc::{AllocError, Global};
use tb_embed::{PlacedPacket, PlacedPulse, RecordedEngine, RestoreFault};
use tb_work::{Refusal, Reply};

/// What a pulse has for an operation.
const PULSE: u32 = 0;

/// The head of an entry of the journal, whose data are a packet's events.
#[repr(C)]
#[derive(Clone, Copy)]
pub struct KipEntry {
    pub place: u64,
    /// Of a pulse, in nanoseconds; 0 of a packet.
    pub moment: u64,
    /// The packet's number among its submitter's.
    pub number: u64,
    /// How many bytes its data has.
    pub size: u64,
    pub submitter: u32,
    /// 0 of a pulse.
    pub operation: u32,
}

fn entry_of_pulse(pulse: PlacedPulse) -> KipEntry
    ensures { result ≡ pulse_entry pulse }
{
    KipEntry {
        place: pulse.place,
        moment: pulse.moment,
        number: 0,
        size: 0,
        submitter: 0,
        operation: PULSE,
    }
}

fn entry_of_packet(reply: &Reply) -> KipEntry
    ensures { result ≡ packet_entry reply.now }
{
    let head = head_of(reply);
    KipEntry {
        place: head.place,
        moment: 0,
        number: head.number,
        size: reply.packet.bytes.as_slice().len() as u64,
        submitter: head.submitter,
        operation: head.operation,
    }
}

/// Writes the next packet's entry and its data. Nothing is handed out by that.
fn peek_packet(engine: &RecordedEngine, entry: &mut KipEntry, bytes: &mut [u8]) -> u32
    ensures { IsPacketStatus result entry.old entry.new bytes.old bytes.new engine.now }
{
    let Some(reply) = engine.next_packet() else {
        return NO_ENTRY;
    };
    *entry = entry_of_packet(reply);
    let events = reply.packet.bytes.as_slice();
    if events.len() > bytes.len() {
        return TOO_SMALL;
    }
    put_bytes(events, bytes);
    0
}

/// Hands out what is next, with its data.
pub(crate) fn hand_out(engine: &mut RecordedEngine, entry: &mut KipEntry, bytes: &mut [u8]) -> u32
    ensures { IsHandingOut result entry.old entry.new bytes.old bytes.new engine.old engine.new }
{
    if !engine.records() {
        return NOT_RECORDED;
    }
    if let Some(pulse) = engine.next_pulse() {
        *entry = entry_of_pulse(pulse);
        engine.hand_pulse();
        return 0;
    }
    let status = peek_packet(engine, entry, bytes);
    if status != 0 {
        return status;
    }
    match engine.hand_packet() {
        Ok(()) => 0,
        Err(_) => Refusal::NoMemory.number(),
    }
}

/// Notes up to which place all is stored.
pub(crate) fn store(engine: &mut RecordedEngine, places: u64) -> u32
    ensures { IsStoring result places engine.old engine.new }
{
    if !engine.records() {
        return NOT_RECORDED;
    }
    if places > engine.handed_places() {
        return NOT_HANDED_OUT;
    }
    engine.set_durable(places);
    0
}

fn number_of_fault(fault: RestoreFault) -> u32
    ensures { result ≡ fault_number fault }
{
    match fault {
        RestoreFault::InUse => IN_USE,
        RestoreFault::NotNext => NOT_NEXT,
        RestoreFault::Refused(refusal) => refusal.number(),
    }
}

/// Restores a pulse, which has no data.
fn restore_pulse(engine: &mut RecordedEngine, entry: &KipEntry) -> Result<(), RestoreFault>
    ensures ok { OnOk result (RestoresPulse engine.old.engine (placed_pulse entry.now) engine.new.engine) }
    ensures restorable { OnOk result (if_empty entry.now.size (recorded_pulse_fault engine.old (placed_pulse entry.now)) ≡ None) }
    ensures engine { ChangesEngine engine.old engine.new }
    ensures same { OnErr result (engine.new ≡ engine.old) }
    ensures fault { IfErr result (λ fault. IsFault (if_empty entry.now.size (recorded_pulse_fault engine.old (placed_pulse entry.now))) fault) }
{
    if entry.size != 0 {
        return Err(RestoreFault::Refused(Refusal::InvalidDataSize));
    }
    engine.restore_pulse(PlacedPulse {
        place: entry.place,
        moment: entry.moment,
    })
}

/// Returns a packet of a journal, with a copy of the data.
fn placed_packet(alloc: Global, entry: &KipEntry, bytes: &[u8]) -> Result<PlacedPacket, AllocError>
    ensures { IfOk result (λ placed. placed ≡ placed_packet entry.now bytes.now) }
{
    let operation = u8::try_from(entry.operation).unwrap_or(0);
    Ok(PlacedPacket {
        place: entry.place,
        submitter: entry.submitter,
        number: entry.number,
        packet: packet_of(alloc, operation, bytes, 0)?,
    })
}

/// Restores a packet, whose data is copied.
fn restore_packet(
    alloc: Global,
    engine: &mut RecordedEngine,
    entry: &KipEntry,
    bytes: &[u8],
) -> Result<(), RestoreFault>
    ensures ok { OnOk result (RestoresUnseen engine.old.engine (placed_packet entry.now bytes.now) engine.new.engine) }
    ensures restorable { OnOk result (recorded_packet_fault engine.old (placed_packet entry.now bytes.now) ≡ None) }
    ensures engine { ChangesEngine engine.old engine.new }
    ensures same { OnErr result (engine.new ≡ engine.old) }
    ensures fault { IfErr result (λ fault. IsFaultOrMemory (recorded_packet_fault engine.old (placed_packet entry.now bytes.now)) fault) }
{
    let Ok(placed) = placed_packet(alloc, entry, bytes) else {
        return Err(RestoreFault::Refused(Refusal::NoMemory));
    };
    match engine.restore_packet(alloc, placed) {
        Ok(()) => Ok(()),
        Err((placed, fault)) => {
            drop(placed);
            Err(fault)
        }
    }
}

/// Commits an entry of a journal again, at the next place.
pub(crate) fn restore(
    alloc: Global,
    engine: &mut RecordedEngine,
    entry: &KipEntry,
    bytes: &[u8],
) -> u32
    ensures { IsRestoring result entry.now bytes.now engine.old engine.new }
{
    if entry.size != bytes.len() as u64 {
        return Refusal::InvalidDataSize.number();
    }
    let restored = if entry.operation == PULSE {
        restore_pulse(engine, entry)
    } else {
        restore_packet(alloc, engine, entry, bytes)
    };
    match restored {
        Ok(()) => 0,
        Err(fault) => number_of_fault(fault),
    }
}
