//! What a batch is made of.

ghost use Rattle.std.specs.Prelude.{◌≡◌, ◌+◌, ◌<◌, ◌≤◌, ◌++◌, ◌∷◌, [], true, false, length, vec_len, vec_capacity, IsOk, OnOk};
ghost use Rattle.tb_layout.specs.claim.Bounds.{batch_max};
ghost use Rattle.tb_work.specs.claim.Admission as spec;
ghost use Rattle.tb_work.specs.claim.Admission.{admission_of};
ghost use Rattle.tb_work.specs.claim.Job.{stub_of, count_of_all};
ghost use Rattle.tb_batch.specs.claim.Batch.{AreParts};

use crate::size::Size;
use std::alloc::Global;
use tb_layout::{Account, EVENT_SIZE, Failure, ID_SIZE, NoMemory};
use tb_work::{Job, Stub, looks_up};

/// A group that others may join has room for at least this number of jobs and of failures. As many jobs take less than 1,032 bytes, up to
/// which glibc allocates at a fraction of the cost of more.
const FIRST_PACKETS: usize = 8;

/// The parts of a batch: its packets' data one after the other, its jobs with their stubs, and an
/// empty answer with room for all of it: failures, or for a lookup accounts.
#[derive(Drop)]
pub struct Parts {
    pub operation: u8,
    pub body: Vec<u8>,
    pub stubs: Vec<Stub>,
    pub jobs: Vec<Job>,
    pub failures: Vec<Failure>,
    pub accounts: Vec<Account>,
}

/// Returns a list with room for this number of items, or with none if the allocation fails. It takes fewer instructions than `reserve`.
#[inline(always)]
fn room_for<T: Drop>(alloc: Global, items: usize) -> Vec<T>
    ensures { result.items ≡ [] }
{
    match Vec::with_capacity(alloc, items) {
        Ok(room) => room,
        Err(_) => Vec::new(alloc),
    }
}

impl Parts {
    /// Returns no parts yet, of an operation. Takes no memory.
    pub(crate) fn new(alloc: Global, operation: u8) -> Parts
        ensures operation { result.operation ≡ operation }
        ensures jobs { (result.jobs.items ≡ []) × (result.stubs.items ≡ []) × (result.body.items ≡ []) }
        ensures answer { (result.failures.items ≡ []) × (result.accounts.items ≡ []) }
    {
        Parts {
            operation,
            body: Vec::new(alloc),
            stubs: Vec::new(alloc),
            jobs: Vec::new(alloc),
            failures: Vec::new(alloc),
            accounts: Vec::new(alloc),
        }
    }

    /// Returns no parts yet, of an operation, with room for packets of a size, as far as memory allows that. There is room for the jobs
    /// and failures of a few small packets at least, and for no more stubs than needed, since a journal keeps these.
    pub(crate) fn with_room(alloc: Global, operation: u8, size: Size) -> Parts
        ensures operation { result.operation ≡ operation }
        ensures jobs { (result.jobs.items ≡ []) × (result.stubs.items ≡ []) × (result.body.items ≡ []) }
        ensures answer { (result.failures.items ≡ []) × (result.accounts.items ≡ []) }
    {
        Parts {
            operation,
            body: room_for(alloc, size.bytes),
            stubs: room_for(alloc, size.packets),
            jobs: room_for(alloc, size.packets.max(FIRST_PACKETS)),
            failures: room_for(alloc, (size.events as usize).max(FIRST_PACKETS)),
            accounts: Vec::new(alloc),
        }
    }

    /// Makes room for one more job, and for an answer to its events.
    #[inline(always)]
    pub(crate) fn reserve_for(&mut self, job: &Job, events: u32) -> Result<(), NoMemory>
        requires { (self.old.failures.items ≡ []) × (self.old.accounts.items ≡ []) }
        ensures operation { self.new.operation ≡ self.old.operation }
        ensures jobs { (self.new.jobs.items ≡ self.old.jobs.items) × (self.new.stubs.items ≡ self.old.stubs.items)
            × (self.new.body.items ≡ self.old.body.items) }
        ensures answer { (self.new.failures.items ≡ []) × (self.new.accounts.items ≡ []) }
        ensures kept { (vec_capacity self.old.failures ≤ vec_capacity self.new.failures)
            × (vec_capacity self.old.accounts ≤ vec_capacity self.new.accounts) }
        ensures room_for_job { OnOk result ((vec_len self.new.jobs < vec_capacity self.new.jobs)
            × (vec_len self.new.stubs < vec_capacity self.new.stubs)
            × (vec_len self.new.body + length job.now.packet.bytes ≤ vec_capacity self.new.body)) }
        ensures room_for_failures { OnOk result (spec.looks_up self.old.operation ≡ false
            → events ≤ vec_capacity self.new.failures) }
        ensures room_for_accounts { OnOk result (spec.looks_up self.old.operation ≡ true
            → events ≤ vec_capacity self.new.accounts) }
    {
        self.jobs.reserve(1)?;
        self.stubs.reserve(1)?;
        self.body.reserve(job.packet().bytes.as_slice().len())?;
        if looks_up(self.operation) {
            self.accounts.reserve(events as usize)?;
        } else {
            self.failures.reserve(events as usize)?;
        }
        Ok(())
    }

    /// Adds a job after those that are there; there is room for it. This copies its data into the body, the only copy
    /// on a packet's way.
    #[inline(always)]
    pub(crate) fn append(&mut self, job: Job)
        requires { (vec_len self.old.jobs < vec_capacity self.old.jobs)
            × (vec_len self.old.stubs < vec_capacity self.old.stubs)
            × (vec_len self.old.body + length job.packet.bytes ≤ vec_capacity self.old.body) }
        ensures operation { self.new.operation ≡ self.old.operation }
        ensures admitted { IsOk (admission_of batch_max job.packet) }
        ensures jobs { self.new.jobs.items ≡ self.old.jobs.items ++ job ∷ [] }
        ensures stubs { self.new.stubs.items ≡ self.old.stubs.items ++ stub_of job ∷ [] }
        ensures body { self.new.body.items ≡ self.old.body.items ++ job.packet.bytes }
        ensures answer { (self.new.failures ≡ self.old.failures) × (self.new.accounts ≡ self.old.accounts) }
    {
        self.body
            .extend_from_slice(job.packet().bytes.as_slice())
            .unwrap();
        self.stubs.push_reserved(job.stub());
        self.jobs.push_reserved(job);
    }

    /// Returns how many events a batch of these parts has, by the size of its body.
    pub(crate) fn events(&self) -> u32
        requires { AreParts self.now }
        ensures { result ≡ count_of_all self.now.jobs.items }
    {
        let size = if looks_up(self.operation) {
            ID_SIZE
        } else {
            EVENT_SIZE
        };
        (self.body.as_slice().len() / size) as u32
    }
}
