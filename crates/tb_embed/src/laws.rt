//! What follows from an engine's calls.

ghost use Rattle.tb_embed.specs.clauses.AnyEngine.{AnyServingIsLawful};
ghost use Rattle.tb_embed.specs.clauses.Engine.{JournalRestores, PlacesAreTrue, QueueDecides, RepliesCome, ServingIsLawful};

use tb_core::{AnyLedger, each_part_is_lawful, run_is_lawful};

/// Establishes, for any sequence of calls, that what an engine committed is a prefix of what was queued ahead of the
/// Close, and its replies a prefix of those due. While there are places the engine hasn't stopped, and all that is ahead of
/// the Close is committed or held. Once nothing is held or unread, the report is lawful.
pub fn serving_is_lawful()
    ensures { ServingIsLawful }
{
    each_part_is_lawful();
    run_is_lawful();
}

/// Establishes the same of an engine over any ledger, for each ledger that it may have begun with: what it committed is a prefix of what
/// was queued ahead of the Close, and all of that is committed or held unless the ledger has stopped.
pub fn any_serving_is_lawful<L: AnyLedger>()
    ensures { AnyServingIsLawful L.is }
{
    each_part_is_lawful();
    run_is_lawful();
}

/// Establishes, after a `flush` that returned Ok, that as many calls of `reply` as packets have unread replies return all of these,
/// and any further call none.
pub fn replies_come()
    ensures { RepliesCome }
{
    serving_is_lawful();
}

/// Establishes that what is queued decides: two engines that began with one ledger, and in which the same was queued, have the same state
/// and replies. It holds once neither holds a packet, while there are places. When they were flushed doesn't matter, nor where memory
/// ran out. So a host can store each call before it makes it, and take out again what is refused: the stored calls, made again after a
/// crash, give the ledger again.
pub fn queue_decides()
    ensures { QueueDecides }
{
    serving_is_lawful();
}

/// Establishes what an engine is in which the packets and pulses of a journal were queued in order. Once nothing is held it is in the
/// state that the journal gives, and at the next place. It holds while there are places. So a host that stores what is committed, each
/// packet at its place, can have the ledger again.
pub fn journal_restores()
    ensures { JournalRestores }
{
    serving_is_lawful();
}

/// Establishes that a reply which says that its packet is committed at a place is right about it: at that place the journal has exactly
/// that packet. So a host that stores packets by the places in their replies stores the journal.
pub fn places_are_true()
    ensures { PlacesAreTrue }
{
    serving_is_lawful();
}
