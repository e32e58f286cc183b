//! Laws on what a run reports, each the clause of a function that does nothing: a crate above knows a law once it called
//! the function.

ghost use Rattle.tb_core.specs.clauses.BadRuns.{Excludes, CommitsAStranger, ShutsDownACommitted, StopsACommitted, DropsPulses, ChangesPlaces, ForgetsTheState, CommitsNothingRunning, CommitsNothingStopped, InventsAPacket, InventsAPulse, Overtakes, GivesAnothersReply, StopsBehindTheClose, LosesTheJournal, CountsPlacesAnew, AnswersAnotherwise, LosesAnItem, MayStopAtOnce, MayPopTheCloseFirst};
ghost use Rattle.tb_core.specs.claim.EachSubmitter.{CommittedOfEachSubmitter, PulsesAreTheControls, CommittedAreAnswered};
ghost use Rattle.tb_core.specs.claim.Report.{ReportsHeadline};
ghost use Rattle.tb_core.specs.claim.TwoRuns.{TwoRunsAreOne};
ghost use Rattle.tb_core.specs.claim.Run.{EachPartIsLawful, RunIsLawful};

/// Establishes that the report on a run is lawful, also if an allocation failed: a front and a ledger took all of its
/// queue, and each submitter got the replies with its number.
pub fn run_is_lawful()
    ensures { RunIsLawful }
{}

/// Establishes that a lawful report has the headline.
pub fn headline()
    ensures { ReportsHeadline }
{}

/// Establishes what the headline says of each submitter: the packets committed are a prefix of those that it queued ahead
/// of the Close, all of them unless something stopped.
pub fn committed_of_each_submitter()
    ensures { CommittedOfEachSubmitter }
{}

/// Establishes that by the headline the pulses committed are the first of the control's.
pub fn pulses_are_the_controls()
    ensures { PulsesAreTheControls }
{}

/// Establishes that by the headline each committed packet has a reply that says so, with its place.
pub fn committed_are_answered()
    ensures { CommittedAreAnswered }
{}

/// Establishes that two runs over one ledger are as one: the second was begun with the ledger that the first ended with, so
/// places count on, and what the first answered stays true.
pub fn two_runs_are_one()
    ensures { TwoRunsAreOne }
{}

/// Establishes which runs have no headline: one clause for each kind of bad run.
pub fn bad_runs_are_excluded()
    ensures stranger { Excludes CommitsAStranger }
    ensures shut_down { Excludes ShutsDownACommitted }
    ensures stopped { Excludes StopsACommitted }
    ensures stopped_behind { Excludes StopsBehindTheClose }
    ensures dropped_pulses { Excludes DropsPulses }
    ensures changed_places { Excludes ChangesPlaces }
    ensures state { Excludes ForgetsTheState }
    ensures lost_journal { Excludes LosesTheJournal }
    ensures places_anew { Excludes CountsPlacesAnew }
    ensures nothing_running { Excludes CommitsNothingRunning }
    ensures nothing_stopped { Excludes CommitsNothingStopped }
    ensures invented_packet { Excludes InventsAPacket }
    ensures invented_pulse { Excludes InventsAPulse }
    ensures overtaken { Excludes Overtakes }
    ensures anothers_reply { Excludes GivesAnothersReply }
    ensures another_answer { Excludes AnswersAnotherwise }
    ensures lost_item { Excludes LosesAnItem }
{}

/// Establishes which runs nobody wants the headline allows: one that stops before it commits anything, and one whose Close
/// was popped ahead of what was queued before it.
pub fn two_bad_runs_remain()
    ensures stops { MayStopAtOnce }
    ensures closes { MayPopTheCloseFirst }
{}

/// Establishes what holds while a front still holds packets, or its decisions are on the way to the ledger: what was
/// committed is a prefix of what is ahead of the Close, and the replies are a prefix of those due.
pub fn each_part_is_lawful()
    ensures { EachPartIsLawful }
{}
