//! Laws of how a World goes on and comes to rest. Each is the clause of a function that does nothing.

ghost use Rattle.tb_world.specs.clauses.EveryOrder.{RunsGoOn, WorldsFollow};
ghost use Rattle.tb_world.specs.clauses.Progress.{CreditLeavesRoom, EachStepCounts, FairListsRest, FairRunsAreAnswered, LeftIsBounded, NoneIsStuck, OneRoundIsARound};

/// Establishes that a World that began over a ledger goes on with any events: one that began and then takes events is as
/// one that takes them all.
pub fn runs_go_on()
    ensures { RunsGoOn }
{}

/// Establishes that a World over the ledger of another follows it: its run begins with what that one committed.
pub fn worlds_follow()
    ensures { WorldsFollow }
{}

/// Establishes that each step lowers the number of steps that are left, that a push adds seven, and that none is left exactly at
/// rest.
pub fn each_step_counts()
    ensures { EachStepCounts }
{}

/// Establishes that at most seven steps are left for each ticket that was pushed.
pub fn left_is_bounded()
    ensures { LeftIsBounded }
{}

/// Establishes that in any state, however full its rings are, all is at rest or a step moves.
pub fn none_is_stuck()
    ensures { NoneIsStuck }
{}

/// Establishes that as many rounds as steps are left lead to rest, also with rings of one slot.
pub fn fair_lists_rest()
    ensures { FairListsRest }
{}

/// Establishes that after any events, and then seven rounds for each ticket pushed, all packets are answered.
pub fn fair_runs_are_answered()
    ensures { FairRunsAreAnswered }
{}

/// Establishes that a round exists for any number of submitters.
pub fn one_round_is_a_round()
    ensures { OneRoundIsARound }
{}

/// Establishes that a reply ring always has a free slot if submitters push within their credit.
pub fn credit_leaves_room()
    ensures { CreditLeavesRoom }
{}
