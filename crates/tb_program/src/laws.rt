//! Laws on what the output of a run says.

ghost use Rattle.tb_program.specs.clauses.RunText.{WithoutLackAllIsCommitted, WithoutLackOrStopAllIsCommitted};

/// Establishes that all that is ahead of the Close is committed in a run whose output doesn't say that memory ran out.
pub fn without_lack_all_is_committed()
    ensures { WithoutLackAllIsCommitted }
{}

/// Establishes the same of a run over a ledger that hasn't stopped.
pub fn without_lack_or_stop_all_is_committed()
    ensures { WithoutLackOrStopAllIsCommitted }
{}
