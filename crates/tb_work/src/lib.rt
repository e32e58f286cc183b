//! Packets, from the submitter that hands them in to the reply that returns them.
//!
//! - `Packet::of_accounts` and `Packet::of_transfers` lay out exactly the given events (`bytes`, `events`);
//! - `Packet::operation` returns what a packet asks for;
//! - `admit` returns the number of a packet's events, or the first refusal that applies; `count_admitted` does so for data that
//!   isn't in a packet;
//! - `Packet::admitted` returns the packet as an `AdmittedPacket`, or unchanged with that refusal (`refused`);
//! - `Job::of` makes a job of it, with capacity for its failures, or returns the packet unchanged (`back`). Memory is an
//!   excuse only for more than two events of no lookup (`few`). `Job::new` does both;
//! - `Reply::of` and `Reply::committed` return the packet unchanged with its outcome, and allocate nothing;
//! - `Moment`, `Item`, `Ticket`, `Stub`, `Outcome` and `Refusal` are what queue, rings and journal carry;
//! - `SubmitError` is a refused packet with its refusal, as an error that `?` passes on.
//!
//! The types keep what they promise: an `AdmittedPacket` and a job's packet are admitted, failures rise and are below the
//! packet's count, a moment is in range.
//!
//! `a_packet_of_two_accounts` and `a_job_and_its_packet` in tb_core_tests are examples that the gate compiles.
#![tactic(auto)]

mod admission;
mod bytes;
mod item;
mod job;
mod moment;
mod outcome;
mod packet;
mod refusal;
mod reply;
mod stub;
mod submit_error;

pub use admission::{AdmittedPacket, admit, count_admitted, event_size, looks_up};
pub use bytes::Bytes;
pub use item::{Item, Ticket};
pub use job::Job;
pub use moment::Moment;
pub use outcome::Outcome;
pub use packet::Packet;
pub use refusal::Refusal;
pub use reply::Reply;
pub use stub::Stub;
pub use submit_error::SubmitError;
pub use tb_layout::{Accounts, Answer, Failures};
