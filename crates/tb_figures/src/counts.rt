//! What is counted of a journal.

ghost use Rattle.std.specs.Prelude.{◌≡◌, ◌≤◌, ◌+◌, ◌<◌, [], ◌++◌, List, length, map, set, slice_index};
ghost use Rattle.tb_layout.specs.claim.Bounds.{submitters_max};
ghost use Rattle.tb_layout.specs.claim.Events.{Input};
ghost use Rattle.tb_batch.specs.claim.Batch.{AreAdmitted};
ghost use Rattle.tb_work.specs.claim.Job.{stub_of};
ghost use Rattle.tb_figures.specs.clauses.Counts.{AreCounts, HasPlaces, capped, groups_of, inputs_of};
ghost use Rattle.tb_figures.specs.inside.Tally.{IsTally};

use tb_batch::Batch;
use tb_core::Parcel;
use tb_layout::SUBMITTERS_LENGTH;
use tb_work::Stub;

/// Returns the stubs of a batch.
fn stubs_of(batch: &Batch) -> &[Stub]
    ensures stubs { result.now ≡ map stub_of batch.now }
    ensures some { (0 < length batch.now) × AreAdmitted batch.now }
{
    // The law that a batch has packets, and that each was admitted.
    let _ = batch.jobs();
    batch.stubs()
}

/// What was committed since counting began.
#[derive(Clone, Copy, Debug, PartialEq, Eq)]
pub struct Counts {
    /// How many batches.
    pub batches: u64,
    /// How many pulses.
    pub pulses: u64,
    /// How many packets. With the pulses it is how many places were used.
    pub packets: u64,
    /// How many events the packets have, at most 2^64 - 1.
    pub events: u64,
    /// How many packets of each submitter.
    pub submitters: [u64; SUBMITTERS_LENGTH],
}

impl Counts {
    /// Returns the counts of nothing.
    pub fn new() -> Counts
        ensures { AreCounts [] result }
    {
        Counts {
            batches: 0,
            pulses: 0,
            packets: 0,
            events: 0,
            submitters: [0; SUBMITTERS_LENGTH],
        }
    }

    /// Counts the events of a packet, and the packet as its submitter's.
    fn add_stub(&mut self, stub: Stub)
        ensures others { (self.new.batches ≡ self.old.batches) × (self.new.pulses ≡ self.old.pulses)
            × (self.new.packets ≡ self.old.packets) }
        ensures events { self.new.events ≡ capped (self.old.events + stub.count) }
        ensures own { stub.submitter < submitters_max → self.new.submitters
            ≡ set self.old.submitters stub.submitter (capped (slice_index self.old.submitters stub.submitter + 1)) }
        ensures long { length self.new.submitters ≡ submitters_max }
        ensures unknown { submitters_max ≤ stub.submitter → self.new.submitters ≡ self.old.submitters }
    {
        self.events = self.events.saturating_add(u64::from(stub.count));
        let submitter = stub.submitter as usize;
        if submitter < SUBMITTERS_LENGTH {
            self.submitters[submitter] = self.submitters[submitter].saturating_add(1);
        }
    }

    /// Counts the packets of one batch, and the batch.
    fn add_batch(&mut self, stubs: &[Stub])
        ensures { IsTally stubs.now self.old self.new }
    {
        self.batches = self.batches.saturating_add(1);
        self.packets = self.packets.saturating_add(stubs.len() as u64);
        for stub in stubs {
            self.add_stub(*stub);
        }
    }

    /// Returns the counts with those of a parcel, if it is committed.
    pub(crate) fn with_parcel(&self, parcel: &Parcel) -> Counts
        ensures { (groups : List (List Input)) → AreCounts groups self.now
            → HasPlaces (inputs_of groups) parcel.now
            → AreCounts (groups ++ groups_of parcel.now) result }
    {
        let mut counts = *self;
        match parcel {
            Parcel::Batch(batch) => counts.add_batch(stubs_of(batch)),
            Parcel::Pulse(_) => counts.pulses = counts.pulses.saturating_add(1),
            Parcel::Return(..) | Parcel::Last => {}
        }
        counts
    }
}
