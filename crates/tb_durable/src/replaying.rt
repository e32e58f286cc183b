//! The rows of the table, applied in order.

ghost use Rattle.std.specs.Prelude.{◌≡◌, ◌⊎◌, ◌≤◌, ◌<◌, ◌++◌, ℕ, List, [], ◌∷◌, map, pos, length, true, false, Some, IsSome, IsOk, OnOk, IfOk, IfErr};
ghost use Rattle.std.specs.Result.{is_ok};
ghost use Rattle.tb_layout.specs.claim.Events.{Pulse as PulseInput};
ghost use Rattle.tb_layout.specs.claim.Bounds.{batch_max, moment_max};
ghost use Rattle.tb_work.specs.claim.Admission.{admission_of};
ghost use Rattle.tb_work.specs.claim.Packet.{Numbered, input_of};
ghost use Rattle.tb_work.specs.claim.Job.{numbered_packet, stub_of};
ghost use Rattle.tb_work.specs.declared.stub.Stub.{Stub};
ghost use Rattle.tb_batch.specs.claim.Grouping.{is_taken};
ghost use Rattle.tb_core.specs.claim.Ledger.{batch_packets};
ghost use Rattle.sqlite_value.specs.declared.value.Value.TheVariants.{Int as IntValue};
ghost use Rattle.sqlite_trees.specs.Tree.{rowid};
ghost use Rattle.tb_durable.specs.claim.Rows.{stubs_in, group_in};
ghost use Rattle.tb_durable.specs.clauses.Counts.{counted, counted_all, follows};
ghost use Rattle.tb_durable.specs.claim.Durable.{AddsGroup};
ghost use Rattle.tb_durable.specs.clauses.Entries.{AreColumnsOf, BeginsWith, IsEntryRow, without_user};
ghost use Rattle.tb_durable.specs.clauses.Faults.{IsEntryFault, IsRowFault};
ghost use Rattle.tb_durable.specs.declared.counts.PacketCounts.{PacketCounts as Counts};
ghost use Rattle.tb_durable.specs.declared.fault.OpenFault.TheVariants.{BadEntry as BadEntryFault, NoMemory as NoMemoryFault};

use crate::counts::PacketCounts;
use crate::fault::OpenFault;
use crate::rows::{PULSE, STUB_SIZE, columns_in, number_in, stub_at};
use sqlite_value::row::Row;
use std::alloc::Global;
use tb_batch::{Batch, Batcher, Offered};
use tb_core::{BareLedger, Parcel};
use tb_layout::{BATCH_MAX, MOMENT_MAX};
use tb_work::{Bytes, Job, Moment, Packet, Refusal, Stub, event_size};

/// A ledger that has applied some rows, and how many packets of each submitter are in them.
pub(crate) struct Replaying {
    pub(crate) ledger: BareLedger,
    pub(crate) counts: PacketCounts,
    pub(crate) alloc: Global,
}

impl Drop for Replaying {
    /// Frees everything held in one call, so that no owner's proof repeats it.
    fn drop(self) {
        let Replaying {
            ledger,
            counts: _,
            alloc: _,
        } = self;
        drop(ledger);
    }
}

/// The columns of a batch's row that say what it has.
#[derive(Clone, Copy)]
struct BatchColumns<'a> {
    operation: u8,
    stubs: &'a [u8],
    body: &'a [u8],
}

/// Puts a job into the batch that is held. A job that can't join it gives the fault.
fn join(batcher: &mut Batcher, job: Job, fault: OpenFault) -> Result<(), OpenFault>
    ensures fault { IfErr result (λ error. (error ≡ NoMemoryFault) ⊎ (error ≡ fault)) }
    ensures joined { OnOk result (batcher.new.jobs ≡ batcher.old.jobs ++ job ∷ []) }
    ensures limit { OnOk result (batcher.new.limit ≡ batcher.old.limit) }
    ensures joins { OnOk result (is_taken batcher.old.limit batcher.old.jobs job ≡ true) }
    ensures taken { is_taken batcher.old.limit batcher.old.jobs job ≡ true → IfErr result (λ error. error ≡ NoMemoryFault) }
{
    match batcher.offer(job) {
        Offered::Joined => Ok(()),
        Offered::Sealed(batch) => {
            drop(batch);
            Err(fault)
        }
        Offered::Refused(job, _) => {
            drop(job);
            Err(OpenFault::NoMemory)
        }
    }
}

/// Returns the job of a packet.
fn job_of(alloc: Global, stub: Stub, packet: Packet, fault: OpenFault) -> Result<Job, OpenFault>
    ensures fault { IfErr result (λ error. (error ≡ NoMemoryFault) ⊎ (error ≡ fault)) }
    ensures job { IfOk result (λ job. job ≡ numbered_packet stub.submitter stub.number packet) }
    ensures admitted { IsOk (admission_of batch_max packet) → IfErr result (λ error. error ≡ NoMemoryFault) }
    ensures whole { OnOk result (IsOk (admission_of batch_max packet)) }
{
    match Job::new(alloc, stub.submitter, stub.number, BATCH_MAX, packet) {
        Ok(job) => Ok(job),
        Err((packet, refusal)) => {
            drop(packet);
            Err(if refusal == Refusal::NoMemory {
                OpenFault::NoMemory
            } else {
                fault
            })
        }
    }
}

impl Replaying {
    /// Returns the ledger.
    pub(crate) fn into_ledger(self) -> BareLedger
        ensures { result ≡ self.ledger }
    {
        let Replaying {
            ledger,
            counts: _,
            alloc: _,
        } = self;
        ledger
    }

    /// Returns that the next row is no entry.
    fn bad_entry(&self) -> OpenFault
        ensures { result ≡ BadEntryFault self.now.ledger.places }
    {
        OpenFault::BadEntry(self.ledger.places())
    }

    /// Counts a packet, which must follow its submitter's last.
    fn count(&mut self, stub: Stub) -> Result<(), OpenFault>
        ensures fault { IfErr result (IsEntryFault self.old.ledger.places) }
        ensures follows { is_ok result ≡ follows self.old.counts stub }
        ensures counted { OnOk result (self.new.counts ≡ counted self.old.counts stub) }
        ensures same { self.new.ledger ≡ self.old.ledger }
    {
        match self.counts.count(stub) {
            Some(()) => Ok(()),
            None => Err(self.bad_entry()),
        }
    }

    /// Returns the job of the first packet in a body, and the bytes after it.
    #[tactic(auto, using(crate::proofs::BatchLemmas::sized))]
    fn first_job<'a>(
        &self,
        operation: u8,
        stub: Stub,
        body: &'a [u8],
    ) -> Result<(Job, &'a [u8]), OpenFault>
        ensures fault { IfErr result (IsEntryFault self.now.ledger.places) }
        ensures first { IfOk result (λ first. (stubs : List Stub) → batch_packets operation body.now (stub ∷ stubs)
            ≡ input_of first.0 ∷ batch_packets operation first.1.now stubs) }
        ensures cut { IfOk result (λ first. BeginsWith first.0 first.1.now operation stub body.now) }
        ensures begins { (job : Numbered) (more : List ℕ) → BeginsWith job more operation stub body.now
            → IfErr result (λ error. error ≡ NoMemoryFault) × IfOk result (λ first. (first.0 ≡ without_user job) × (first.1.now ≡ more)) }
    {
        let Some(size) = event_size(operation) else {
            return Err(self.bad_entry());
        };
        let Some((events, rest)) = body.split_at_checked(stub.count as usize * size) else {
            return Err(self.bad_entry());
        };
        let Ok(bytes) = Vec::from_slice(self.alloc, events) else {
            return Err(OpenFault::NoMemory);
        };
        let packet = Packet {
            operation,
            bytes: Bytes::from_vec(bytes),
            user: 0,
        };
        let job = job_of(self.alloc, stub, packet, self.bad_entry())?;
        Ok((job, rest))
    }

    /// Returns the batch of a row.
    fn batch_in(&mut self, columns: BatchColumns<'_>) -> Result<Batch, OpenFault>
        ensures fault { IfErr result (IsEntryFault self.old.ledger.places) }
        ensures same { self.new.ledger ≡ self.old.ledger }
        ensures packets { IfOk result (λ batch. map input_of batch
            ≡ batch_packets columns.entry.operation columns.entry.body.now (stubs_in columns.entry.stubs.now)) }
        ensures some { IfOk result (λ batch. 0 < length batch) }
        ensures are { IfOk result (λ batch. AreColumnsOf batch columns.entry.operation columns.entry.stubs.now columns.entry.body.now) }
        ensures counted { OnOk result (counted_all self.old.counts (stubs_in columns.entry.stubs.now) ≡ Some self.new.counts) }
        ensures opens { (jobs : List Numbered)
            → AreColumnsOf jobs columns.entry.operation columns.entry.stubs.now columns.entry.body.now
            → IsSome (counted_all self.old.counts (map stub_of jobs)) → IfErr result (λ error. error ≡ NoMemoryFault) }
    {
        let (chunks, rest) = columns.stubs.as_chunks::<STUB_SIZE>();
        let mut body = columns.body;
        let Ok(mut batcher) = Batcher::new(self.alloc, BATCH_MAX) else {
            return Err(self.bad_entry());
        };
        for chunk in chunks {
            let stub = stub_at(chunk);
            let (job, after) = self.first_job(columns.operation, stub, body)?;
            join(&mut batcher, job, self.bad_entry())?;
            self.count(stub)?;
            body = after;
        }
        match batcher.seal() {
            Some(batch) if rest.is_empty() && body.is_empty() => Ok(batch),
            _ => Err(self.bad_entry()),
        }
    }

    /// Applies a batch.
    fn batch(&mut self, columns: BatchColumns<'_>) -> Result<(), OpenFault>
        ensures fault { IfErr result (IsEntryFault self.old.ledger.places) }
        ensures group { let group = batch_packets columns.entry.operation columns.entry.body.now (stubs_in columns.entry.stubs.now) in
            OnOk result (AddsGroup self.old.ledger self.new.ledger group × (0 < length group)) }
        ensures are { OnOk result ((jobs : List Numbered)
            × AreColumnsOf jobs columns.entry.operation columns.entry.stubs.now columns.entry.body.now) }
        ensures goes_on { OnOk result (self.new.ledger.stopped ≡ false) }
        ensures counted { OnOk result (counted_all self.old.counts (stubs_in columns.entry.stubs.now) ≡ Some self.new.counts) }
        ensures opens { (jobs : List Numbered)
            → AreColumnsOf jobs columns.entry.operation columns.entry.stubs.now columns.entry.body.now
            → IsSome (counted_all self.old.counts (map stub_of jobs)) → IfErr result (λ error. error ≡ NoMemoryFault) }
    {
        let batch = self.batch_in(columns)?;
        drop(self.ledger.apply(Parcel::Batch(batch)));
        if self.ledger.stopped() {
            return Err(OpenFault::NoMemory);
        }
        Ok(())
    }

    /// Applies a pulse.
    fn pulse(&mut self, nanoseconds: u64) -> Result<(), OpenFault>
        ensures fault { IfErr result (IsEntryFault self.old.ledger.places) }
        ensures group { OnOk result (AddsGroup self.old.ledger self.new.ledger (PulseInput nanoseconds ∷ [])) }
        ensures goes_on { OnOk result (self.new.ledger.stopped ≡ false) }
        ensures counts { self.new.counts ≡ self.old.counts }
        ensures low { OnOk result (nanoseconds ≤ moment_max) }
        ensures opens { nanoseconds ≤ moment_max → IfErr result (λ error. error ≡ NoMemoryFault) }
    {
        if nanoseconds > MOMENT_MAX {
            return Err(self.bad_entry());
        }
        drop(self.ledger.apply(Parcel::Pulse(Moment::new(nanoseconds))));
        if self.ledger.stopped() {
            return Err(OpenFault::NoMemory);
        }
        Ok(())
    }

    /// Applies a row, which must be at the next place.
    pub(crate) fn row(&mut self, row: &Row) -> Result<(), OpenFault>
        ensures fault { IfErr result (IsRowFault self.old.ledger.places row.now) }
        ensures place { OnOk result (rowid row.now ≡ IntValue (pos self.old.ledger.places)) }
        ensures group { OnOk result (AddsGroup self.old.ledger self.new.ledger (group_in row.now)) }
        ensures some { OnOk result (0 < length (group_in row.now)) }
        ensures goes_on { OnOk result (self.new.ledger.stopped ≡ false) }
        ensures entry { OnOk result (IsEntryRow self.old.ledger.places self.old.counts row.now self.new.counts) }
        ensures opens { (after : Counts) → IsEntryRow self.old.ledger.places self.old.counts row.now after
            → IfErr result (λ error. error ≡ NoMemoryFault) × OnOk result (self.new.counts ≡ after) }
    {
        let place = self.ledger.places();
        if number_in(row, 0) != Some(place) {
            return Err(OpenFault::OutOfPlace(place));
        }
        let Some(columns) = columns_in(row) else {
            return Err(self.bad_entry());
        };
        if columns.operation == PULSE {
            return self.pulse(columns.moment);
        }
        let Ok(operation) = u8::try_from(columns.operation) else {
            return Err(self.bad_entry());
        };
        self.batch(BatchColumns {
            operation,
            stubs: columns.stubs,
            body: columns.body,
        })
    }
}
