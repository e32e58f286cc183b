//! Opening a pipeline.

ghost use Rattle.std.specs.Prelude.{◌≡◌, ◌≤◌, ◌<◌, ℕ, [], true, false, map, length, slice_index_or, None, OnOk, OnErr, IfOk, IfErr, IfSome};
ghost use Rattle.tb_core.specs.claim.Journal.{LedgerState};
ghost use Rattle.tb_layout.specs.claim.Limits.{clock_max};
ghost use Rattle.tb_core.specs.claim.Ledger.{new_ledger};
ghost use Rattle.tb_rings.specs.clauses.Ends.{given, taken, IsRing};
ghost use Rattle.tb_submit.specs.clauses.Ends.{Origin, new_submitter, new_control, new_intake, origin_of, seat_at};
ghost use Rattle.tb_submit.specs.clauses.Refusals.{IsQueueRefusal, queue_refusal};
ghost use Rattle.tb_pipe.specs.clauses.Reported.{AreTogether};

use crate::committing::Committer;
use crate::routing::Demultiplexer;
use crate::serving::Pipeline;
use crate::stages::Stages;
use std::alloc::Global;
use tb_core::{AnyLedger, Front, Ledger, Outcomes, Parcel};
use tb_layout::BATCH_MAX;
use tb_rings::{Inlet, Outlet, ring};
use tb_submit::{Control, Submitter, open_queue};
use tb_work::Refusal;

/// How many parcels or outcomes a ring between two stages holds.
const STAGE_SLOTS: usize = 8;

/// A pipeline with its ends: the submitter of number i is that at index i.
#[derive(Drop)]
pub struct Opened<L: AnyLedger = Ledger> {
    pub pipeline: Pipeline<L>,
    pub submitters: Vec<Submitter>,
    pub control: Control,
}

impl<L: AnyLedger> Opened<L> {
    /// Returns the same with its pipeline over another ledger, as `Pipeline::over` does. A ledger that has stopped comes back, and
    /// all else is spent.
    pub fn over<M: AnyLedger>(self, ledger: M) -> Result<Opened<M>, M>
        ensures pipeline { IfOk result (λ opened. opened.pipeline ≡ record {
          start = ledger;
          intake = self.pipeline.intake;
          submitters = self.pipeline.submitters;
        }) }
        ensures ends { IfOk result (λ opened. (opened.submitters ≡ self.submitters) × (opened.control ≡ self.control)) }
        ensures together { AreTogether self.pipeline self.submitters.items self.control
            → IfOk result (λ opened. AreTogether opened.pipeline opened.submitters.items opened.control) }
        ensures back { IfErr result (λ back. back ≡ ledger) }
        ensures goes_on { (now : LedgerState) → M.is ledger now → OnOk result (now.stopped ≡ false) }
        ensures stopped { (now : LedgerState) → M.is ledger now → OnErr result (now.stopped ≡ true) }
    {
        let Opened {
            pipeline,
            submitters,
            control,
        } = self;
        match pipeline.over(ledger) {
            Ok(pipeline) => Ok(Opened {
                pipeline,
                submitters,
                control,
            }),
            Err(ledger) => {
                drop(submitters);
                drop(control);
                Err(ledger)
            }
        }
    }
}

/// The rings between the stages: the batcher's to the committer, and the committer's to the demultiplexer.
#[derive(Drop)]
struct Rings {
    batches: Outlet<Parcel>,
    parcels: Inlet<Parcel>,
    made: Outlet<Outcomes>,
    outcomes: Inlet<Outcomes>,
}

/// Returns the rings between the stages. None if memory runs out.
fn open_rings(alloc: Global) -> Option<Rings>
    ensures pairs { IfSome result (λ rings. IsRing rings.batches rings.parcels × IsRing rings.made rings.outcomes) }
    ensures empty { IfSome result (λ rings. (given rings.batches ≡ []) × (taken rings.parcels ≡ [])
        × (given rings.made ≡ []) × (taken rings.outcomes ≡ [])) }
{
    let Ok((batches, parcels)) = ring(alloc, STAGE_SLOTS) else {
        return None;
    };
    let Ok((made, outcomes)) = ring(alloc, STAGE_SLOTS) else {
        drop(batches);
        drop(parcels);
        return None;
    };
    Some(Rings {
        batches,
        parcels,
        made,
        outcomes,
    })
}

/// Makes a pipeline whose clock starts at a number of nanoseconds, 0 to `CLOCK_MAX`. The limit is the most events of a
/// batch, the capacity the slots of the submission queue. The credit is how many packets each submitter may have in
/// flight, and the slots of its reply ring. It is refused for the limit (1 to 8190), then the capacity or
/// the credit (1 to 65,536), then the number of submitters (1 to 16), then memory. All rings and the queue are made
/// here; packets, batches and the state machine take their memory later. It waits for nobody.
pub fn open(
    alloc: Global,
    clock: u64,
    limit: u32,
    capacity: u32,
    credit: u32,
    submitters: u32,
) -> Result<Opened, Refusal>
    requires { clock ≤ clock_max }
    ensures start { IfOk result (λ opened. opened.pipeline.start ≡ new_ledger clock) }
    ensures intake { IfOk result (λ opened. opened.pipeline.intake
        ≡ new_intake opened.pipeline.intake.queue submitters limit capacity) }
    ensures submitters { IfOk result (λ opened. opened.submitters.items
        ≡ map (new_submitter credit) opened.pipeline.submitters) }
    ensures own { IfOk result (λ opened. map origin_of opened.submitters.items ≡ opened.pipeline.submitters) }
    ensures number { IfOk result (λ opened. length opened.pipeline.submitters ≡ submitters) }
    ensures seats { IfOk result (λ opened. (k : ℕ) (d : Origin) → k < submitters
        → (slice_index_or opened.pipeline.submitters k d).seat ≡ seat_at opened.pipeline.intake k) }
    ensures control { IfOk result (λ opened. opened.control ≡ new_control opened.pipeline.intake) }
    ensures opens { OnOk result (queue_refusal limit capacity credit submitters ≡ None) }
    ensures refusal { IfErr result (IsQueueRefusal limit capacity credit submitters) }
{
    let ends = open_queue(alloc, limit, capacity, credit, submitters)?;
    let Some(rings) = open_rings(alloc) else {
        drop(ends);
        return Err(Refusal::NoMemory);
    };
    let Ok(front) = Front::new(alloc, limit, submitters) else {
        unreachable!()
    };
    let ledger = Ledger::new(alloc, clock);
    let stages = Stages {
        start: ledger.begin(),
        intake: ends.intake,
        front,
        batches: rings.batches,
        committer: Committer {
            inlet: rings.parcels,
            outlet: rings.made,
            ledger,
        },
        demultiplexer: Demultiplexer {
            inlet: rings.outcomes,
            outlets: ends.outlets,
        },
    };
    Ok(Opened {
        pipeline: Pipeline { stages },
        submitters: ends.submitters,
        control: ends.control,
    })
}

/// What a pipeline is opened with, by name: `Options { submitters: 2, ..Options::default() }.open(alloc)`.
#[derive(Clone, Copy, Debug, PartialEq, Eq)]
pub struct Options {
    /// Where the clock starts, in nanoseconds, 0 to `CLOCK_MAX`. A ledger that continues has its own clock, and this one is ignored.
    pub clock: u64,
    /// The most events of a batch, and so of a packet, 1 to 8190.
    pub limit: u32,
    /// The slots of the submission queue, 1 to 65,536. Each holds one packet or pulse of any sender.
    pub capacity: u32,
    /// How many packets each submitter may have in flight, 1 to 65,536. Its reply ring has as many slots.
    pub credit: u32,
    /// The number of submitters, 1 to 16. The control isn't counted.
    pub submitters: u32,
}

impl Default for Options {
    ghost use Rattle.std.specs.Prelude.{◌≡◌};

    /// Returns options for one submitter and a clock from 0. The limit of 8190 events refuses no packet that another limit accepts.
    /// With a credit of 256 a submitter of small packets goes on while other threads work: single events of one submitter take two thirds
    /// of the time that they take with 16. So as many packets of a submitter may be in memory. If they have thousands of events each, of
    /// 128 bytes, a credit of 16 is as fast. The queue has slots for the credit of four submitters.
    fn default() -> Options
        ensures { result ≡ record { clock = 0; limit = 8190; capacity = 1024; credit = 256; submitters = 1 } }
    {
        Options {
            clock: 0,
            limit: BATCH_MAX,
            capacity: 1024,
            credit: 256,
            submitters: 1,
        }
    }
}

impl Options {
    /// Makes a pipeline with these options, as `open` does.
    ///
    /// # Errors
    ///
    /// `BadLimit`, `BadCapacity` or `BadSubmitters`, in this order, if the limit, the capacity or credit, or the number of submitters is
    /// out of its range; else `NoMemory`, if memory runs out.
    pub fn open(self, alloc: Global) -> Result<Opened, Refusal>
        requires { self.clock ≤ clock_max }
        ensures start { IfOk result (λ opened. opened.pipeline.start ≡ new_ledger self.clock) }
        ensures intake { IfOk result (λ opened. opened.pipeline.intake
            ≡ new_intake opened.pipeline.intake.queue self.submitters self.limit self.capacity) }
        ensures submitters { IfOk result (λ opened. opened.submitters.items
            ≡ map (new_submitter self.credit) opened.pipeline.submitters) }
        ensures own { IfOk result (λ opened. map origin_of opened.submitters.items ≡ opened.pipeline.submitters) }
        ensures number { IfOk result (λ opened. length opened.pipeline.submitters ≡ self.submitters) }
        ensures seats { IfOk result (λ opened. (k : ℕ) (d : Origin) → k < self.submitters
            → (slice_index_or opened.pipeline.submitters k d).seat ≡ seat_at opened.pipeline.intake k) }
        ensures control { IfOk result (λ opened. opened.control ≡ new_control opened.pipeline.intake) }
        ensures opens { OnOk result (queue_refusal self.limit self.capacity self.credit self.submitters ≡ None) }
        ensures refusal { IfErr result (IsQueueRefusal self.limit self.capacity self.credit self.submitters) }
    {
        let Options {
            clock,
            limit,
            capacity,
            credit,
            submitters,
        } = self;
        open(alloc, clock, limit, capacity, credit, submitters)
    }
}
