//! Laws on runs, the clauses of functions that do nothing: a crate above knows one once it called the function.

ghost use Rattle.tb_durable.specs.clauses.Runs.{RunsFollow, StoppedRunsFollow};

/// Establishes that a run over what is opened on the rows of an earlier run follows that run. So `two_runs_are_one` of `tb_core` holds of
/// both: places count on, and what the first answered stays true.
pub fn runs_follow()
    ensures { RunsFollow }
{}

/// Establishes the same if the ledger of the earlier run may have stopped. If it is in doubt then, the later run may begin with one group
/// more, at which it stopped. What the earlier run answered stays true also then.
pub fn stopped_runs_follow()
    ensures { StoppedRunsFollow }
{}
