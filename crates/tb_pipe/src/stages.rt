//! The stages, run at once.

ghost use Rattle.std.specs.Prelude.{◌≡◌, IfOk, IfErr, IfSome};
ghost use Rattle.tb_core.specs.claim.Journal.{LedgerState};
ghost use Rattle.tb_rings.specs.clauses.Ends.{given, taken, SameOutlet, SameInlet};
ghost use Rattle.tb_pipe.specs.clauses.Carried.{IsCommitted, AllCommitted, answers_in};
ghost use Rattle.tb_pipe.specs.clauses.Outlets.{SameOutlets, AllGiven, AllRouted};
ghost use Rattle.tb_pipe.specs.clauses.Stages.{IsReady, HaveServed};

use crate::batching::{BatchRing, batch_all};
use crate::committing::{Commitment, Committer};
use crate::gate::Gate;
use crate::routing::{Demultiplexer, Routing};
use crate::waiting::give_waiting;
use std::snapshot::Snapshot;
use std::sync::Wait;
use std::thread::{PromisedHandle, Scope, Threads};
use std::time::Clock;
use tb_core::{AnyLedger, Front, Parcel};
use tb_rings::Outlet;
use tb_submit::Intake;

/// The stages before they run: the batcher's intake, front and end of the batch ring, the committer and the
/// demultiplexer, with a ghost copy of the ledger that the run starts with.
#[derive(Drop)]
pub(crate) struct Stages<L> {
    pub(crate) start: Snapshot<L>,
    pub(crate) intake: Intake,
    pub(crate) front: Front,
    pub(crate) batches: Outlet<Parcel>,
    pub(crate) committer: Committer<L>,
    pub(crate) demultiplexer: Demultiplexer,
}

/// What the stages leave, with the same ghost copy.
#[derive(Drop)]
pub(crate) struct StoppedStages<L> {
    pub(crate) start: Snapshot<L>,
    pub(crate) intake: Intake,
    pub(crate) batches: Outlet<Parcel>,
    pub(crate) committed: Committer<L>,
    pub(crate) routed: Demultiplexer,
}

/// Starts the committer.
fn start_committer<'s, E, R: Wait + Clock + Sync, G: Gate, L: AnyLedger + Send + 's>(
    scope: &Scope<'s, E>,
    rt: &'s R,
    gate: &'s G,
    stage: Committer<L>,
) -> Option<PromisedHandle<Committer<L>, Commitment<L>>>
    ensures { IfSome result (λ handle. handle.promise.stage.value ≡ stage) }
{
    let promise = Commitment {
        stage: Snapshot::of(&stage),
    };
    let started = scope.spawn_with(
        promise,
        move || -> Committer<L>
            ensures same { SameInlet stage.inlet result.inlet × SameOutlet stage.outlet result.outlet }
            ensures all { (start : LedgerState)
                → IsCommitted start (taken stage.inlet) (L.is stage.ledger) (given stage.outlet)
                → AllCommitted start (taken result.inlet) (L.is result.ledger) (given result.outlet) }
        {
            let mut stage = stage;
            stage.commit_all(rt, gate);
            stage
        },
    );
    started.ok()
}

/// Starts the demultiplexer.
fn start_demultiplexer<'s, E, R: Wait + Clock + Sync>(
    scope: &Scope<'s, E>,
    rt: &'s R,
    stage: Demultiplexer,
) -> Option<PromisedHandle<Demultiplexer, Routing>>
    requires { AllGiven (answers_in (taken stage.inlet)) stage.outlets.items }
    ensures { IfSome result (λ handle. handle.promise.stage.value ≡ stage) }
{
    let promise = Routing {
        stage: Snapshot::of(&stage),
    };
    let started = scope.spawn_with(
        promise,
        move || -> Demultiplexer
            requires { AllGiven (answers_in (taken stage.inlet)) stage.outlets.items }
            ensures same { SameInlet stage.inlet result.inlet × SameOutlets stage.outlets.items result.outlets.items }
            ensures all { AllRouted (taken result.inlet) result.outlets.items }
        {
            let mut stage = stage;
            stage.route_until_last(rt);
            stage
        },
    );
    started.ok()
}

impl<L: AnyLedger> Stages<L> {
    /// Returns the stages over another ledger, with which a run begins.
    pub(crate) fn over<M: AnyLedger>(self, ledger: M) -> Stages<M>
        ensures start { result.start.value ≡ ledger }
        ensures ledger { result.committer.ledger ≡ ledger }
        ensures front { (result.intake ≡ self.intake) × (result.front ≡ self.front) × (result.batches ≡ self.batches) }
        ensures rings { (result.committer.inlet ≡ self.committer.inlet) × (result.committer.outlet ≡ self.committer.outlet) }
        ensures back { result.demultiplexer ≡ self.demultiplexer }
    {
        let Stages {
            start,
            intake,
            front,
            batches,
            committer,
            demultiplexer,
        } = self;
        drop(start);
        let Committer {
            inlet,
            outlet,
            ledger: before,
        } = committer;
        drop(before);
        Stages {
            start: Snapshot::of(&ledger),
            intake,
            front,
            batches,
            committer: Committer {
                inlet,
                outlet,
                ledger,
            },
            demultiplexer,
        }
    }

    /// Returns the intake, and frees all else.
    pub(crate) fn into_intake(self) -> Intake
        ensures { result ≡ self.intake }
    {
        let Stages {
            start,
            intake,
            front,
            batches,
            committer,
            demultiplexer,
        } = self;
        drop(start);
        drop(front);
        drop(batches);
        drop(committer);
        drop(demultiplexer);
        intake
    }

    /// Runs the stages until each sender has ended: starts the committer and the demultiplexer, is the batcher, and joins
    /// both. If a thread can't be started the intake comes back.
    pub(crate) fn run<'s, E, R: Threads + Wait + Clock + Sync, G: Gate>(
        self,
        scope: &Scope<'s, E>,
        rt: &'s R,
        gate: &'s G,
    ) -> Result<StoppedStages<L>, Intake>
    where
        L: Send + 's,
        requires { IsReady L.is self }
        ensures served { IfOk result (λ remains. HaveServed L.is self remains) }
        ensures refused { IfErr result (λ intake. intake ≡ self.intake) }
    {
        let Stages {
            start,
            mut intake,
            mut front,
            mut batches,
            committer,
            demultiplexer,
        } = self;
        let joins = committer.ledger.waits();
        let Some(committer) = start_committer(scope, rt, gate, committer) else {
            intake.fail();
            drop(front);
            drop(batches);
            drop(demultiplexer);
            return Err(intake);
        };
        let Some(demultiplexer) = start_demultiplexer(scope, rt, demultiplexer) else {
            intake.fail();
            give_waiting(rt, &mut batches, Parcel::Last);
            drop(committer.join(rt));
            drop(front);
            drop(batches);
            return Err(intake);
        };
        let mut ring = BatchRing::new(batches, gate, joins);
        batch_all(rt, &mut intake, &mut front, &mut ring);
        drop(front);
        Ok(StoppedStages {
            start,
            intake,
            batches: ring.into_outlet(),
            committed: committer.join(rt),
            routed: demultiplexer.join(rt),
        })
    }
}
