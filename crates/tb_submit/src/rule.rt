//! The queue's rule: what was taken followed by what is queued has, as each sender's part, exactly what its pass
//! pushed. It begins with each list of tickets that a pass has. Only proofs see what passes know: no value of these
//! types is made.

use crossbeam_queue::protocol::{Join, Lesson, Outcome, Protocol, Split};
use crossbeam_queue::{Pass, RuledArrayQueue};
use std::collections::LinkedList;
use tb_work::{Item, Ticket};

/// What one sender pushed.
pub(crate) struct PassEntry {
    pub(crate) number: u32,
    pub(crate) pushed: LinkedList<Item>,
}

/// What the intake took, how many numbers were given out, and after how many tickets the queue was seen empty.
pub(crate) struct IntakeMark {
    pub(crate) taken: LinkedList<Ticket>,
    pub(crate) count: u32,
    pub(crate) seen_empty: LinkedList<u64>,
}

/// What a pass knows.
pub(crate) struct View {
    pub(crate) entries: LinkedList<PassEntry>,
    pub(crate) mark: Option<IntakeMark>,
    /// All tickets up to its own last push.
    pub(crate) history: LinkedList<Ticket>,
    /// Such lists of other passes.
    pub(crate) learned: LinkedList<LinkedList<Ticket>>,
}

/// The rule, in the form in which the kit's queue asks for it.
pub(crate) struct PerSender;

impl Protocol<Ticket, View> for PerSender {
    ghost use Rattle.tb_submit.specs.clauses.Rule.{QueueInvariant, opening};

    ghost holds = { QueueInvariant };

    ghost first = { opening };
}

/// The intake's pass gives the next number to a new one.
pub(crate) struct Newcomer;

impl Split<View> for Newcomer {
    ghost use Rattle.tb_submit.specs.clauses.Rule.{view_counting_on, newcomer};

    ghost left = { view_counting_on };

    ghost right = { newcomer };
}

/// The intake's pass records that the queue was seen empty; the new pass knows nothing.
pub(crate) struct SeenEmpty;

impl Split<View> for SeenEmpty {
    ghost use Rattle.tb_submit.specs.clauses.Rule.{view_seen_empty, empty_view};

    ghost left = { view_seen_empty };

    ghost right = { λ view. empty_view };
}

/// A new pass knows which tickets were queued at this one's last push.
pub(crate) struct Witnessed;

impl Split<View> for Witnessed {
    ghost use Rattle.tb_submit.specs.clauses.Rule.{witness};

    ghost left = { λ view. view };

    ghost right = { λ view. witness view.history };
}

/// A pass learns which tickets were queued at another one's last push.
pub(crate) struct Learned;

impl Join<View> for Learned {
    ghost use Rattle.tb_submit.specs.clauses.Rule.{view_learning, empty_view};

    ghost both = { view_learning };

    ghost spent = { empty_view };
}

/// A pass takes in what another knows.
pub(crate) struct Gathers;

impl Join<View> for Gathers {
    ghost use Rattle.tb_submit.specs.clauses.Rule.{both_views, empty_view};

    ghost both = { both_views };

    ghost spent = { empty_view };
}

/// A push puts its ticket at the end of what its own pass pushed, which is its sender's part of all tickets up to
/// this one.
pub(crate) struct Pushed;

impl Outcome<Ticket, View> for Pushed {
    ghost use Rattle.tb_submit.specs.clauses.Rule.{HasPushed};

    ghost then = { HasPushed };
}

impl Lesson<Ticket, View> for Pushed {
    ghost use Rattle.std.specs.Prelude.{⊤};

    ghost fact = { λ view items. ⊤ };
}

/// A pop puts its ticket at the end of what was taken; its sender's number was given out before.
pub(crate) struct Taken;

impl Outcome<Ticket, View> for Taken {
    ghost use Rattle.std.specs.Prelude.{◌≡◌, ◌<◌};
    ghost use Rattle.tb_submit.specs.clauses.Rule.{with_taken, next_of};

    ghost then = { λ view ticket next. (next ≡ with_taken view ticket) × (ticket.sender < next_of view.mark) };
}

impl Lesson<Ticket, View> for Taken {
    ghost use Rattle.std.specs.Prelude.{⊤};

    ghost fact = { λ view items. ⊤ };
}

/// What the intake's pass learns of what is queued.
pub(crate) struct Queued;

impl Lesson<Ticket, View> for Queued {
    ghost use Rattle.tb_submit.specs.clauses.Rule.{Tells};

    ghost fact = { Tells };
}

/// What a sender's pass learns of the queued tickets.
pub(crate) struct Own;

impl Lesson<Ticket, View> for Own {
    ghost use Rattle.tb_submit.specs.clauses.Rule.{TellsOwn};

    ghost fact = { TellsOwn };
}

/// The queue of tickets, under the rule.
pub(crate) type Queue = RuledArrayQueue<Ticket, View, PerSender>;

/// A sender's or the intake's pass.
pub(crate) type QueuePass = Pass<Ticket, View>;
