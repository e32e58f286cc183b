//! The pipeline in one value and one thread, for callers that bring no queue and no threads.
//!
//! An `Engine` takes packets, pulses and a Close, joins neighbouring packets, commits them, and has a reply for each
//! packet. Each call's clause says which ticket or which reply it adds to the run so far (`specs/clauses/Engine.antt`).
//! `serving_is_lawful` leads from any sequence of calls to the lawful report of that run. After a `flush` as many calls of
//! `reply` as packets have unread replies return all of these (`replies_come`).
//!
//! A call for which memory runs out is refused as `NoMemory`, and nothing has changed: made again with memory there, it does what it
//! would have done. An engine stops only if 2^63 places are used up (`stopped` of `Queues` and `Continues`).
//!
//! A packet that waits is held as it is until another joins it. So one that is flushed by itself is committed from its own data, without
//! a copy.
//!
//! What is queued decides the rest (`queue_decides`): a host that stores its calls can make them again after a crash. One that stores
//! what is committed, each packet at the place in its reply (`places_are_true`), can queue that again (`journal_restores`).
//!
//! An engine that holds nothing yields its ledger (`Engine::into_ledger`), and another goes on with it (`Engine::over`).
//!
//! A `RecordedEngine` is for a host that keeps the journal in a store of its own. It hands out what is committed, and holds a reply back
//! until its packet is stored. `Engine::restore_packet` and `Engine::restore_pulse` commit again what was stored.
//!
//! An `AnyEngine` queues, commits and reads so over any ledger, such as one in a file (`any_serving_is_lawful`).
//!
//! `calls_in_a_row` in tb_core_tests is an example that the gate compiles.
#![tactic(auto)]

mod any_engine;
mod engine;
mod laws;
mod recorded;
mod restoring;
mod senders;
mod unread;
mod waiting;

pub use any_engine::AnyEngine;
pub use engine::Engine;
pub use laws::{
    any_serving_is_lawful, journal_restores, places_are_true, queue_decides, replies_come,
    serving_is_lawful,
};
pub use recorded::RecordedEngine;
pub use restoring::{PlacedPacket, PlacedPulse, RestoreFault};
pub use tb_core::Seed;
