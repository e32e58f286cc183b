//! An entry of the undo list.

use crate::indices::Indices;

/// What a change added; for a transfer, with what else is needed to undo it.
#[derive(Clone, Copy)]
pub(crate) enum Change {
    Account,
    Transfer(Indices),
    Failed,
}
