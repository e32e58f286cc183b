//! Which tickets were queued before a moment.

use crate::rule::QueuePass;
use std::marker::Model;

/// The tickets that were queued up to a submitter's last packet, by any sender. `Control::learn` takes it, in this thread
/// or another. It has no bytes.
#[derive(Drop)]
pub struct Seen {
    pub(crate) pass: QueuePass,
}

impl Model for Seen {
    ghost use Rattle.std.specs.Prelude.{◌≡◌, []};
    ghost use Rattle.tb_submit.specs.clauses.Ends.{SeenState};
    ghost use Rattle.tb_submit.specs.clauses.State.{view_of};
    ghost use Rattle.tb_submit.specs.clauses.Rule.{witness};

    ghost Value = { SeenState };

    ghost view = { λ s. record { queue = s.pass.table_id; tickets = (view_of s.pass).history } };

    ghost invariant = { λ s. (s.pass.me.1 ≡ []) × (view_of s.pass ≡ witness (view_of s.pass).history) };
}
