//! Laws of what is counted.

ghost use Rattle.tb_figures.specs.clauses.Counted.{CountsAreExact};

/// Establishes when the counts of a ledger are those of a run. A run says of the ledger that it returns which journal it has, and not
/// that it counts what the run's first ledger counted on. So its caller compares how many places the run used with how many packets and
/// pulses are counted. If they are equal, all counts are exact.
pub fn counts_are_exact()
    ensures { CountsAreExact }
{}
