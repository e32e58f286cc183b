//! Maps and sets of ids.

use crate::hashing::IdHasher;
use indexmap::{IndexMap, IndexSet};

/// What maps have under ids, in order of making.
pub(crate) type ById<V> = IndexMap<u128, V, IdHasher>;

/// Ids, in order of making.
pub(crate) type Ids = IndexSet<u128, IdHasher>;
