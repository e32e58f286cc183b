//! A pipeline, as its callers see it.

ghost use Rattle.std.specs.Prelude.{◌≡◌, false, true, IfOk, IfErr, OnOk, OnErr};
ghost use Rattle.tb_core.specs.claim.Journal.{LedgerState};
ghost use Rattle.tb_work.specs.declared.refusal.Refusal.TheVariants.{NoThread as NoThreadRefusal};
ghost use Rattle.tb_pipe.specs.clauses.Run.{IsServed, served_of};
ghost use Rattle.tb_pipe.specs.clauses.Stages.{IsReady, HaveServed};

use crate::gate::Gate;
use crate::stages::{Stages, StoppedStages};
use std::marker::Model;
use std::sync::Wait;
use std::thread;
use std::thread::Threads;
use std::time::Clock;
use tb_core::{AnyLedger, Ledger};
use tb_submit::Intake;
use tb_work::Refusal;

/// A pipeline that is to be served: the stages between the submission queue and the replies, over a ledger.
pub struct Pipeline<L: AnyLedger = Ledger> {
    pub(crate) stages: Stages<L>,
}

impl<L: AnyLedger> Drop for Pipeline<L> {
    /// Frees the stages in one call, so that a caller's proof doesn't repeat it.
    fn drop(self) {
        let Pipeline { stages } = self;
        drop(stages);
    }
}

impl<L: AnyLedger> Model for Pipeline<L> {
    ghost use Rattle.tb_pipe.specs.clauses.Run.{PipelineState, pipeline_of, IsPipeline};

    ghost Value = { PipelineState L };

    ghost view = { λ p. pipeline_of p.stages };

    ghost invariant = { λ p. IsPipeline L.is p.stages };
}

/// A pipeline that was served.
pub struct Served<L: AnyLedger = Ledger> {
    pub(crate) remains: StoppedStages<L>,
}

impl<L: AnyLedger> Drop for Served<L> {
    /// Frees the stopped stages in one call, so that no owner's proof repeats it.
    fn drop(self) {
        let Served { remains } = self;
        drop(remains);
    }
}

impl<L: AnyLedger> Model for Served<L> {
    ghost use Rattle.tb_pipe.specs.clauses.Run.{ServedState, served_of, IsServed};

    ghost Value = { ServedState L };

    ghost view = { λ s. served_of s.remains };

    ghost invariant = { λ s. IsServed L.is s.remains };
}

impl<L: AnyLedger> Served<L> {
    /// Returns what the stages left, taken out.
    pub(crate) fn into_stages(self) -> StoppedStages<L>
        ensures served { IsServed L.is result }
        ensures same { self ≡ served_of result }
    {
        let Served { remains } = self;
        remains
    }
}

impl Pipeline {
    /// Returns the pipeline over the caller's ledger, which hasn't stopped. The clock that the pipeline was opened with is
    /// ignored: the ledger has its own.
    ///
    /// A ledger that an earlier run reported (`Report::ledger`) goes on: places count on from those in its journal, and
    /// packets are answered from its accounts and transfers. A new ledger may have a seed (`Ledger::with_seed`), if ids
    /// come from someone who may choose them to make commits slow. It may have reserved capacity (`Ledger::reserve`), so
    /// that no commit waits for a map to grow.
    pub fn with_ledger(self, ledger: Ledger) -> Pipeline
        requires { ledger.stopped ≡ false }
        ensures { result ≡ record self { start = ledger } }
    {
        let Pipeline { mut stages } = self;
        stages.start = ledger.begin();
        stages.committer.ledger = ledger;
        Pipeline { stages }
    }
}

impl<L: AnyLedger> Pipeline<L> {
    /// Returns the pipeline over another ledger, as `with_ledger` does: one that keeps no journal in memory (`BareLedger`), or
    /// one of the caller's own. A ledger that has stopped comes back, and the pipeline is spent.
    pub fn over<M: AnyLedger>(self, ledger: M) -> Result<Pipeline<M>, M>
        ensures ok { IfOk result (λ pipeline. pipeline
            ≡ record { start = ledger; intake = self.intake; submitters = self.submitters }) }
        ensures back { IfErr result (λ back. back ≡ ledger) }
        ensures goes_on { (now : LedgerState) → M.is ledger now → OnOk result (now.stopped ≡ false) }
        ensures stopped { (now : LedgerState) → M.is ledger now → OnErr result (now.stopped ≡ true) }
    {
        if ledger.stopped() {
            return Err(ledger);
        }
        let Pipeline { stages } = self;
        Ok(Pipeline {
            stages: stages.over(ledger),
        })
    }

    /// Commits what is queued and hands the replies out, until each submitter and the control have ended; so each
    /// driver ends its sender, whatever fails in it. The calling thread is the batcher; it starts the committer and
    /// then the demultiplexer, and joins both. If one of them can't be started, or the run was given up before, nothing was
    /// taken (`NoThread`): the intake comes back, to take what is queued, and the pipeline is spent. If memory runs out the pipeline
    /// stops, and answers.
    pub fn serve<R: Threads + Wait + Clock + Sync, G: Gate>(
        self,
        rt: &R,
        gate: &G,
    ) -> Result<Served<L>, (Intake, Refusal)>
    where
        L: Send,
        ensures start { IfOk result (λ served. served.start ≡ self.start) }
        ensures intake { IfOk result (λ served. served.intake ≡ record self.intake {
          taken = served.intake.taken;
          seen_empty = served.intake.seen_empty;
        }) }
        ensures submitters { IfOk result (λ served. served.submitters ≡ self.submitters) }
        ensures refused { IfErr result (λ back. (back.0 ≡ self.intake) × (back.1 ≡ NoThreadRefusal)) }
    {
        let Pipeline { stages } = self;
        if !stages.intake.begin() {
            return Err((stages.into_intake(), Refusal::NoThread));
        }
        let served = thread::scope(
            thread::scope_env(),
            rt,
            |scope| -> Result<StoppedStages<L>, Intake>
                requires { IsReady L.is stages }
                ensures served { IfOk result (λ remains. HaveServed L.is stages remains) }
                ensures refused { IfErr result (λ intake. intake ≡ stages.intake) }
            { stages.run(scope, rt, gate) },
        );
        match served {
            Ok(remains) => Ok(Served { remains }),
            Err(intake) => Err((intake, Refusal::NoThread)),
        }
    }
}
