//! What a run reports.

ghost use Rattle.std.specs.Prelude.{◌≡◌, map};
ghost use Rattle.tb_core.specs.claim.Grouping.{IsGrouping};
ghost use Rattle.tb_core.specs.claim.EachSubmitter.{moments_in, moments_queued};
ghost use Rattle.tb_core.specs.claim.Headline.{Headline};
ghost use Rattle.tb_core.specs.claim.Journal.{groups_since, inputs_since};
ghost use Rattle.tb_core.specs.claim.EndedRun.{IsPrefix};
ghost use Rattle.tb_core.specs.claim.Report.{LawfulReport};
ghost use Rattle.tb_submit.specs.clauses.Ends.{control_seat, end_origin};
ghost use Rattle.tb_pipe.specs.clauses.Reported.{GoesFrom, IsReport, IsSettled};
ghost use Rattle.tb_pipe.specs.claim.SettledRun.{run_of};

use crate::serving::Served;
use crate::stages::StoppedStages;
use tb_core::{AnyLedger, Ledger, headline, pulses_are_the_controls, run_is_lawful};
use tb_submit::{ControlEnd, Ended, settle_queue};

/// The result of all that was queued: the ledger, and each submitter's end, in the order of their numbers, which still gives the
/// replies that it hasn't read. Unless the ledger has stopped, another pipeline can go on with it (`Pipeline::with_ledger`,
/// `Pipeline::over`).
#[derive(Drop)]
pub struct Report<L = Ledger> {
    pub ledger: L,
    pub ends: Vec<Ended>,
}

/// Returns the report on a run over any ledger, as `settle` does on one over a `Ledger`. It speaks of each ledger that the run may
/// have begun with: a journal that isn't in memory is known only to clauses.
pub fn settle_over<L: AnyLedger>(
    served: Served<L>,
    ends: Vec<Ended>,
    control: ControlEnd,
) -> Report<L>
    requires ends { map end_origin ends.items ≡ served.submitters }
    requires control { control.seat ≡ control_seat served.intake }
    ensures report { GoesFrom (L.is served.start) (L.is result.ledger) (λ start ledger.
        IsReport (run_of served.intake ends.items control start ledger result.ends.items) start served.intake.limit
        control.queued) }
    ensures settled { IsSettled served ends.items control result }
{
    run_is_lawful();
    headline();
    pulses_are_the_controls();
    let StoppedStages {
        start,
        intake,
        mut batches,
        mut committed,
        mut routed,
    } = served.into_stages();
    drop(start);
    committed.inlet.lying(&mut batches);
    routed.inlet.lying(&mut committed.outlet);
    let ends = settle_queue(intake, ends, control, routed.outlets);
    Report {
        ledger: committed.ledger,
        ends,
    }
}

/// Returns the report on a run. `ends` are those of the submitters that were opened with the pipeline, by rising number,
/// and `control` is the end of its control. What it had learned of (`Control::learn`) is ahead of the Close. Allocates nothing
/// and doesn't wait. After it, `reply` on an end returns the unread replies in order, and then always `None`.
pub fn settle(served: Served, ends: Vec<Ended>, control: ControlEnd) -> Report
    requires ends { map end_origin ends.items ≡ served.submitters }
    requires control { control.seat ≡ control_seat served.intake }
    ensures report { LawfulReport (run_of served.intake ends.items control served.start
        result.ledger result.ends.items) }
    ensures headline { Headline (run_of served.intake ends.items control served.start
        result.ledger result.ends.items) }
    ensures grouping { IsGrouping served.intake.limit (groups_since served.start result.ledger) }
    ensures pulses { IsPrefix (moments_in (inputs_since served.start result.ledger)) (moments_queued control.queued) }
    ensures opening { result.ledger.opening ≡ served.start.opening }
    ensures settled { IsSettled served ends.items control result }
{
    settle_over(served, ends, control)
}
