//! A run of a pipeline, with a thread for each of its senders.

ghost use Rattle.std.specs.Prelude.{◌≡◌, ◌<◌, [], map, length, set, slice_get, Some, IfOk, OnErr};
ghost use Rattle.tb_submit.specs.clauses.Ends.{SubmitterState, origin_of};
ghost use Rattle.tb_drive.specs.clauses.Seen.{HaveSeen};
ghost use Rattle.tb_drive.specs.clauses.Tasks.{task_share, task_submitter};
ghost use Rattle.tb_pipe.specs.clauses.QueuedAhead.{HasSubmitted};
ghost use Rattle.tb_pipe.specs.declared.opening.Opened.{Opened};
ghost use Rattle.tb_pipe.specs.clauses.Reported.{AreTasksOf, AreTogether, GoesFrom, HasReported};

use crate::gate::Open;
use crate::opening::Opened;
use crate::serving::{Pipeline, Served};
use crate::settling::{Report, settle_over};
use std::alloc::Global;
use std::snapshot::Snapshot;
use std::sync::Wait;
use std::thread;
use std::thread::{Scope, Threads};
use std::time::Clock;
use tb_core::{AnyLedger, Ledger};
use tb_drive::{
    ControlDriver, ControlResult, DriveFault, Driver, Joined, Stop, Tasks, submit_once,
};
use tb_submit::Ended;
use tb_work::{Packet, Refusal};

/// A run that has ended: its report, the drivers in the order of their submitters, and the control's driver.
#[derive(Drop)]
pub struct Finished<D, C, L: AnyLedger = Ledger> {
    pub report: Report<L>,
    /// The report's ends from before they were settled, as a ghost copy without bytes. Contracts name by it what each
    /// submitter queued, since a settled end doesn't say that.
    pub unsettled: Snapshot<Vec<Ended>>,
    /// The pipeline as it was served, as a ghost copy. Contracts name by it the queue that the batcher took.
    pub served: Snapshot<Served<L>>,
    pub drivers: Vec<D>,
    pub control: C,
}

/// Queues a packet of the submitter at an index, before any thread is started. It is `Submitter::submit` of that
/// submitter, so it precedes what its driver queues; that it precedes what other drivers queue is only tested. No other
/// end is touched; after 2^56 packets the queue is full. A refused packet is returned, and nothing is changed.
pub fn submit_ahead<R: Wait, L: AnyLedger>(
    rt: &R,
    alloc: Global,
    opened: &mut Opened<L>,
    submitter: usize,
    packet: Packet,
) -> Result<u64, (Packet, Refusal)>
    requires { submitter < length opened.old.submitters.items }
    ensures submitted { (before : SubmitterState) → slice_get opened.old.submitters.items submitter ≡ Some before
        → (after : SubmitterState) × HasSubmitted before packet result after
        × (opened.new.submitters.items ≡ set opened.old.submitters.items submitter after) }
    ensures unchanged { OnErr result (opened.new.submitters.items ≡ opened.old.submitters.items) }
    ensures pipeline { opened.new.pipeline ≡ opened.old.pipeline }
    ensures control { opened.new.control ≡ opened.old.control }
    ensures own { map origin_of opened.new.submitters.items ≡ map origin_of opened.old.submitters.items }
    ensures together { AreTogether opened.old.pipeline opened.old.submitters.items opened.old.control
        → AreTogether opened.new.pipeline opened.new.submitters.items opened.new.control }
{
    submit_once(rt, alloc, &mut opened.submitters[submitter], packet)
}

/// Starts the senders' threads, serves until all senders have ended, joins the threads and settles.
fn run<'s, E, D, C, R, L>(
    scope: &Scope<'s, E>,
    rt: &'s R,
    alloc: Global,
    pipeline: Pipeline<L>,
    tasks: Tasks<D, C>,
    stop: &'s Stop,
) -> Result<Finished<D, C, L>, DriveFault>
where
    D: Driver + Send + 's,
    C: ControlDriver + Send + 's,
    R: Threads + Wait + Clock + Sync,
    L: AnyLedger + Send,
    requires { AreTogether pipeline (map task_submitter tasks.submitters) tasks.control.control }
    ensures reported { (opened : Opened L) → AreTasksOf opened pipeline tasks
        → IfOk result (λ finished. GoesFrom (L.is pipeline.start) (L.is finished.report.ledger)
        (HasReported D.has_seen D.has_ended (C.has_ended tasks.control.driver) opened finished)) }
    ensures shares { IfOk result (λ finished. map D.share finished.drivers.items ≡ map task_share tasks.submitters) }
{
    let running = tasks.start(scope, rt, alloc, stop)?;
    let Ok(served) = pipeline.serve(rt, &Open) else {
        return Err(DriveFault::NoThread);
    };
    let Joined {
        ends,
        drivers,
        control,
    } = running.join(rt)?;
    let ControlResult { end, driver } = control;
    let unsettled = Snapshot::of(&ends);
    let taken = Snapshot::of(&served);
    let report = settle_over(served, ends, end);
    Ok(Finished {
        report,
        unsettled,
        served: taken,
        drivers,
        control: driver,
    })
}

/// Runs a pipeline until all of its senders have ended. Each submitter has the driver of the same index and a thread of
/// its own, the control has its driver and one more, and the calling thread serves. Returns the drivers in their order
/// with the report; a submitter's end still gives the replies that its driver hasn't taken. If a thread can't be
/// started the others are stopped, and what was queued is lost with the pipeline.
///
/// # Errors
///
/// `NoMemory` before any thread is started, else `NoThread` if one can't be. Nothing is reported then, and what was opened is freed.
pub fn drive_all<D: Driver + Send, C: ControlDriver + Send, R: Threads + Wait + Clock + Sync>(
    rt: &R,
    alloc: Global,
    opened: Opened,
    drivers: Vec<D>,
    control: C,
) -> Result<Finished<D, C>, DriveFault>
    requires together { AreTogether opened.pipeline opened.submitters.items opened.control }
    requires number { length drivers.items ≡ length opened.pipeline.submitters }
    requires seen { HaveSeen D.has_seen drivers.items opened.submitters.items }
    requires queued { C.has_queued control control [] }
    ensures reported { IfOk result (λ finished. HasReported D.has_seen D.has_ended (C.has_ended control) opened finished
        opened.pipeline.start finished.report.ledger) }
    ensures shares { IfOk result (λ finished. map D.share finished.drivers.items ≡ map D.share drivers.items) }
{
    drive_over(rt, alloc, opened, drivers, control)
}

/// Runs a pipeline over any ledger, as `drive_all` runs one over a `Ledger`. What it reports holds of each ledger that the run may
/// have begun with: a journal that isn't in memory is known only to clauses.
///
/// # Errors
///
/// Those of `drive_all`. The ledger is freed too: one in a file can be opened again.
pub fn drive_over<D, C, R, L>(
    rt: &R,
    alloc: Global,
    opened: Opened<L>,
    drivers: Vec<D>,
    control: C,
) -> Result<Finished<D, C, L>, DriveFault>
where
    D: Driver + Send,
    C: ControlDriver + Send,
    R: Threads + Wait + Clock + Sync,
    L: AnyLedger + Send,
    requires together { AreTogether opened.pipeline opened.submitters.items opened.control }
    requires number { length drivers.items ≡ length opened.pipeline.submitters }
    requires seen { HaveSeen D.has_seen drivers.items opened.submitters.items }
    requires queued { C.has_queued control control [] }
    ensures reported { IfOk result (λ finished. GoesFrom (L.is opened.pipeline.start) (L.is finished.report.ledger)
        (HasReported D.has_seen D.has_ended (C.has_ended control) opened finished)) }
    ensures shares { IfOk result (λ finished. map D.share finished.drivers.items ≡ map D.share drivers.items) }
{
    let Opened {
        pipeline,
        submitters,
        control: sender,
    } = opened;
    let stop = Stop::of(alloc, &submitters)?;
    let tasks = Tasks::of(alloc, submitters, drivers, sender, control)?;
    let stop = &stop;
    thread::scope(
        thread::scope_env(),
        rt,
        |scope| -> Result<Finished<D, C, L>, DriveFault>
            requires { AreTogether pipeline (map task_submitter tasks.submitters) tasks.control.control }
            ensures reported { (opened : Opened L) → AreTasksOf opened pipeline tasks
                → IfOk result (λ finished. GoesFrom (L.is pipeline.start) (L.is finished.report.ledger)
                (HasReported D.has_seen D.has_ended (C.has_ended tasks.control.driver) opened finished)) }
            ensures shares { IfOk result (λ finished. map D.share finished.drivers.items ≡ map task_share tasks.submitters) }
        {
            let finished = run(scope, rt, alloc, pipeline, tasks, stop);
            if finished.is_err() {
                stop.give_up();
            }
            finished
        },
    )
}
