//! Cuts the outcome of a batch into the replies of its packets.
//!
//! A `Cutter` is seen as the list of the replies still to come. `next` returns them one by one (`some`), and `None` exactly when all
//! are given (`none`). Each packet gets its own failures, with its offset subtracted, or the accounts of its lookup. Nothing is
//! allocated: a packet's failures are written into the capacity that its job brought along.
//!
//! `two_submitters_joined` in tb_core_tests is an example that the gate compiles.
#![tactic(auto)]

mod cutter;
mod remaining_failures;
mod source;

pub use cutter::Cutter;
