//! The World: front, ledger and cutter in one thread, with every order of their steps.
//!
//! A list of pushes and pops says in which order the stages of a pipeline move, and `run_world` executes it. Whatever
//! the list, what was committed is a prefix of what was pushed ahead of the Close. What each submitter received is a
//! prefix of what is due to it (`HasRun`, `specs/clauses/EveryOrder.antt`).
//!
//! A World begins with a new ledger (`World::new`, `run_world`) or with one that an earlier run left (`World::over`). A
//! World at rest yields its ledger (`World::into_ledger`). In a later run places count on.
//!
//! No state is stuck, and fair turns lead to rest (`specs/clauses/Progress.antt`): `run_to_rest` brings any list to rest, with all packets
//! answered.
//!
//! `world_one_packet` in tb_core_tests is an example that the gate compiles.
#![tactic(auto)]

mod event;
mod laws;
mod mailbox;
mod pending_replies;
mod run;
mod sender;
mod world;

pub use event::Event;
pub use laws::{
    credit_leaves_room, each_step_counts, fair_lists_rest, fair_runs_are_answered, left_is_bounded,
    none_is_stuck, one_round_is_a_round, runs_go_on, worlds_follow,
};
pub use run::{run_to_rest, run_world};
pub use world::World;
