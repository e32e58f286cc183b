//! Packets that were admitted.

ghost use Rattle.std.specs.Prelude.{◌≡◌, ◌<◌, ◌≤◌, ◌==◌, ◌⊎◌, true, false, [], IfOk, OnOk, IfErr, OnErr, IsOk, Err};
ghost use Rattle.tb_layout.specs.claim.Bounds.{batch_max};
ghost use Rattle.tb_work.specs.claim.Admission as spec;
ghost use Rattle.tb_work.specs.claim.Admission.{admission_of};
ghost use Rattle.tb_work.specs.declared.refusal.Refusal.TheVariants.{NoMemory};
ghost use Rattle.tb_work.specs.claim.Job.{is_chunk_linked};

use crate::admission::{AdmittedPacket, looks_up};
use crate::packet::Packet;
use crate::refusal::Refusal;
use crate::stub::Stub;
use std::alloc::{AllocError, Global};
use std::marker::Model;
use tb_layout::{CREATE_ACCOUNTS, CREATE_TRANSFERS, FailureRoom};

/// An admitted packet of a submitter, with its number and with room for its failures.
pub struct Job {
    pub(crate) number: u64,
    pub(crate) submitter: u32,
    pub(crate) admitted: AdmittedPacket,
    pub(crate) room: FailureRoom,
}

impl Drop for Job {
    /// Frees everything held in one call, so that no owner's proof repeats it.
    fn drop(self) {
        let Job {
            number: _,
            submitter: _,
            admitted,
            room,
        } = self;
        drop(admitted);
        drop(room);
    }
}

impl Model for Job {
    ghost use Rattle.tb_work.specs.claim.Packet.{Numbered};
    ghost use Rattle.tb_work.specs.claim.Job.{HasRoomFor};

    ghost Value = { Numbered };

    ghost view = { λ job. record { submitter = job.submitter; number = job.number; packet = job.admitted } };

    ghost invariant = { λ job. HasRoomFor job.admitted job.room };
}

/// A job in its parts: the packet as it was handed in, and the room for its failures.
#[derive(Drop)]
pub(crate) struct JobParts {
    pub(crate) packet: Packet,
    pub(crate) room: FailureRoom,
}

/// Returns room for the failures of a packet: none for a lookup, which has no failures, except the two slots that any
/// room has. Up to two failures take no memory.
fn room_for(alloc: Global, operation: u8, count: u32) -> Result<FailureRoom, AllocError>
    ensures empty { IfOk result (λ room. room.items ≡ []) }
    ensures fits { IfOk result (λ room. spec.looks_up operation ≡ false → count ≤ room.capacity) }
    ensures none { IfOk result (λ room. spec.looks_up operation ≡ true → room.capacity ≡ 2) }
    ensures lookup { spec.looks_up operation ≡ true → IsOk result }
    ensures few { count ≤ 2 → IsOk result }
{
    if looks_up(operation) {
        Ok(FailureRoom::new())
    } else {
        FailureRoom::with_capacity(alloc, count as usize)
    }
}

/// Returns whether the event of a chunk is linked. It is read from its flags, and no event is decoded.
fn is_last_linked(operation: u8, chunk: &[u8; 128]) -> bool
    ensures { result ≡ is_chunk_linked operation chunk.now }
{
    (operation == CREATE_ACCOUNTS || operation == CREATE_TRANSFERS)
        && tb_layout::is_chunk_linked(chunk)
}

impl Job {
    ghost use Rattle.tb_work.specs.claim.Admission.{count_of};
    ghost use Rattle.tb_work.specs.claim.Job.{stub_of, is_lookup, is_open, numbered_packet};

    /// Makes a job of a packet that is admitted under the limit, at most 8190 events, as `of` does.
    ///
    /// # Errors
    ///
    /// The packet as it was, with the refusal of `admit` or of `of`.
    pub fn new(
        alloc: Global,
        submitter: u32,
        number: u64,
        limit: u32,
        packet: Packet,
    ) -> Result<Job, (Packet, Refusal)>
        requires { limit ≤ batch_max }
        ensures job { IfOk result (λ job. job ≡ numbered_packet submitter number packet) }
        ensures admitted { OnOk result (IsOk (admission_of limit packet)) }
        ensures back { IfErr result (λ refused. refused.0 ≡ packet) }
        ensures few { OnErr result (IsOk (admission_of limit packet)
            → (is_lookup packet ≡ false) × (2 < count_of packet)) }
        ensures refusal { IfErr result (λ refused. (admission_of limit packet ≡ Err refused.1)
            ⊎ ((refused.1 ≡ NoMemory) × IsOk (admission_of limit packet))) }
    {
        Job::of(alloc, submitter, number, packet.admitted(limit)?)
    }

    /// Makes a submitter's job of this number, with room for as many failures as the packet has events. It costs that
    /// room, which for up to two events is in the job itself, and which a lookup hasn't.
    ///
    /// # Errors
    ///
    /// The packet as it was, with `NoMemory`.
    pub fn of(
        alloc: Global,
        submitter: u32,
        number: u64,
        admitted: AdmittedPacket,
    ) -> Result<Job, (Packet, Refusal)>
        ensures job { IfOk result (λ job. job ≡ numbered_packet submitter number admitted) }
        ensures back { IfErr result (λ refused. refused ≡ (admitted, NoMemory)) }
        ensures few { OnErr result ((is_lookup admitted ≡ false) × (2 < count_of admitted)) }
    {
        match room_for(alloc, admitted.packet().operation, admitted.count()) {
            Ok(room) => Ok(Job {
                number,
                submitter,
                admitted,
                room,
            }),
            Err(_) => Err((admitted.into_packet(), Refusal::NoMemory)),
        }
    }

    /// Returns its submitter, its number and its number of events.
    pub fn stub(&self) -> Stub
        ensures value { result ≡ stub_of self.now }
        ensures bound { result.count ≤ batch_max }
    {
        Stub {
            submitter: self.submitter,
            number: self.number,
            count: self.admitted.count(),
        }
    }

    /// Returns the packet as it was handed in.
    pub fn packet(&self) -> &Packet
        ensures packet { result.now ≡ self.now.packet }
        ensures admitted { IsOk (admission_of batch_max self.now.packet) }
    {
        self.admitted.packet()
    }

    /// Returns the packet as it was handed in. The room for its failures is freed.
    pub fn into_packet(self) -> Packet
        ensures { result ≡ self.packet }
    {
        let JobParts { packet, room } = self.into_parts();
        drop(room);
        packet
    }

    /// Takes it apart.
    pub(crate) fn into_parts(self) -> JobParts
        ensures packet { result.packet ≡ self.packet }
        ensures empty { result.room.items ≡ [] }
        ensures fits { is_lookup self.packet ≡ false → count_of self.packet ≤ result.room.capacity }
    {
        let Job {
            number: _,
            submitter: _,
            admitted,
            room,
        } = self;
        JobParts {
            packet: admitted.into_packet(),
            room,
        }
    }

    /// Returns whether its last event is linked, so that nothing may be joined to it. A lookup never is.
    pub fn is_open(&self) -> bool
        ensures { result ≡ is_open self.now.packet }
    {
        let packet = self.packet();
        let (chunks, _) = packet.bytes.as_slice().as_chunks::<128>();
        match chunks.last() {
            Some(chunk) => is_last_linked(packet.operation, chunk),
            None => false,
        }
    }
}
