//! Batches: neighbouring packets of one operation, laid one after the other in one body.
//!
//! A `Batcher` holds one group. `offer` lets a packet join it exactly if it may (`offers`); otherwise it seals the group and the
//! packet begins the next one. `seal` returns the group held, and `None` only if there is none; `hold` holds it again. All memory of a
//! batch is allocated in `offer`, capacity for its answer included, before anything changes: a rejected packet leaves everything as it
//! was.
//!
//! A `Batch` keeps that its body is its packets' data in order and its stubs are theirs. It has at most 8,190 events of one
//! operation, and an open packet or a lookup is alone in its own. `specs/claim/Grouping.antt` defines what may join.
//!
//! `two_submitters_joined` in tb_core_tests is an example that the gate compiles.
#![tactic(auto)]

mod batch;
mod batcher;
mod group;
mod offered;
mod parts;
mod size;

pub use batch::Batch;
pub use batcher::Batcher;
pub use offered::Offered;
pub use parts::Parts;
