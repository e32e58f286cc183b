//! The facts of a ledger, kept so that they can be looked up and undone.
//!
//! Callers see the tables as facts: the accounts and the transfers that were made, in order of making, the pending
//! transfers that expired, and the ids that failed. Balances and statuses are what the facts say. Beside the facts now,
//! callers see those before each change since the last `keep`, to which `undo_to` returns. What a caller owes (a new
//! id, accounts that are there, sums that fit) is a `requires`; the only refusal is NoMemory, after which the tables
//! are as before.
//!
//! The modules, lowest first:
//!
//! - `hashing`, `by_id`: how ids are hashed, and maps by id;
//! - `stored_transfer`, `stored_status`, `transfers`: the map of transfers as it is in memory, seen as rows: a transfer and its status;
//! - `balance`, `amounts`: one balance of an account, an amount between two;
//! - `entries`, `expiries`: one entry of a map, the pairs of a moment and a transfer;
//! - `storing`, `timeouts`: all that one transfer changes, over facts that the maps contain (`AreContained`);
//! - `tables`: the maps, the expiries and the undo list together, seen as a history, whose invariant is `AreKept`.
//!
//! `each_other_call` in tb_core_tests is an example that the gate compiles.
#![tactic(auto)]

mod amounts;
mod balance;
mod by_id;
mod change;
mod counts;
mod entries;
mod expiries;
mod hashing;
mod indices;
mod mark;
mod row;
mod status;
mod stored_status;
mod stored_transfer;
mod storing;
mod tables;
mod timeouts;
mod transfers;

pub use counts::Counts;
pub use hashing::Seed;
pub use mark::Mark;
pub use status::Status;
pub use tables::Tables;
