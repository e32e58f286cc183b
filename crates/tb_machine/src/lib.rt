//! The state machine: the results of a packet's events.
//!
//! Callers see a machine as a clock and the facts of a ledger. A packet's events are cut into chains, and each chain
//! succeeds or fails whole; a pulse lets pending transfers expire; a lookup changes nothing. The only refusal is
//! NoMemory, after which the machine is as before.
//!
//! `each_call` in tb_core_tests is an example that the gate compiles.
#![tactic(auto)]

mod account_verdict;
mod chain;
mod clock;
mod commit;
mod creating_verdict;
mod each_account;
mod event;
mod fault;
mod joining;
mod lookup;
mod machine;
mod prefetch;
mod report;
mod resolved;
mod resolving_verdict;
mod transfer_verdict;

pub use each_account::EachAccount;
pub use joining::joining_is_invisible;
pub use machine::Machine;
pub use tb_tables::{Counts, Seed};
