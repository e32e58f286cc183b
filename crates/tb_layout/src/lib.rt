//! Accounts, transfers, ids and failures as TigerBeetle lays them out in bytes, and the numbers of their results.
//!
//! All numbers are little-endian. A record is read from exactly as many bytes as it has. Only `FailureRoom::with_capacity` allocates
//! or fails.
//!
//! - `read_account`, `read_transfer`, `read_id`, `read_failure` return the record that the layout defines;
//! - `write_account`, `write_transfer`, `write_failure` return its bytes, and no other bytes are read as that record, `write_id` an id's;
//! - `is_linked`, `is_pending`, `is_post`, `is_void` and the account's limit flags each read their bit;
//! - `Operation` has the three operations, their numbers and names;
//! - `AccountCode` and `TransferCode` have the result codes, their numbers and names, and find a result by its number;
//! - `Failures` and `Accounts` are what an answer holds, seen by clauses as the lists that they contain;
//! - `FailureRoom` has capacity for failures, which for up to two needs no allocation.
#![tactic(auto)]

mod account;
mod account_code;
mod answer;
mod chunk;
mod code;
mod failure;
mod failure_room;
mod flags;
mod id;
mod limits;
mod no_memory;
mod number;
mod operation;
mod transfer;
mod transfer_code;

pub use account::{Account, read_account, write_account};
pub use account_code::AccountCode;
pub use answer::{Accounts, Answer, Failures};
pub use chunk::is_chunk_linked;
pub use failure::{Failure, read_failure, write_failure};
pub use failure_room::FailureRoom;
pub use id::{read_id, write_id};
pub use limits::{
    BATCH_MAX, CAPACITY_MAX, CLOCK_MAX, EVENT_SIZE, ID_SIZE, MOMENT_MAX, NANOSECONDS_PER_SECOND,
    PLACES_MAX, QUEUED_MAX, SUBMITTERS_LENGTH, SUBMITTERS_MAX,
};
pub use no_memory::NoMemory;
pub use number::U64_VALUES;
pub use operation::{CREATE_ACCOUNTS, CREATE_TRANSFERS, LOOKUP_ACCOUNTS, Operation};
pub use transfer::{Transfer, read_transfer, write_transfer};
pub use transfer_code::TransferCode;
