//! What joined packets give.

ghost use Rattle.std.specs.Prelude.{ℕ, List};
ghost use Rattle.tb_layout.specs.claim.Account.{is_linked as is_linked_account};
ghost use Rattle.tb_layout.specs.claim.Transfer.{is_linked as is_linked_transfer};
ghost use Rattle.tb_layout.specs.claim.Events.{Accounts, Transfers};
ghost use Rattle.tb_machine.specs.claim.Replay.{State};
ghost use Rattle.tb_machine.specs.clauses.Joining.{JoiningIsInvisible, GivesAsAlone};

/// Establishes that batching is invisible. The packets of a group, one packet, open or not, or several of one
/// operation, none of them open, may be committed as one: the failures cut by the packets' ranges are those of each
/// packet in the state that the packets before it left, and the state after them is the same. A lookup is a group by
/// itself.
///
/// A law: nothing is done.
pub fn joining_is_invisible()
    ensures accounts { JoiningIsInvisible Accounts is_linked_account }
    ensures transfers { JoiningIsInvisible Transfers is_linked_transfer }
    ensures lookup { (state : State) (ids : List ℕ) → GivesAsAlone state ids }
{}
