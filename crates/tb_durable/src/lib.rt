//! The ledger with its journal in a table of an SQLite file.
//!
//! A `DurableLedger` commits as a `BareLedger` does, but each entry is a row of one table. The row's transaction is committed
//! before the entry is applied and before any reply to it exists. `DurableLedger::over` reads the rows in order, applies
//! each, and continues at the next place. A write that fails stops the ledger. Then the rows still have what was committed, and
//! after it at most the batch or pulse that is in doubt.
//!
//! It stands on `Store` of the kit's `sqlite_trees`, whose contracts say what a crash leaves. `open_file` opens such a store
//! at a path, as a file that any SQLite reads.
#![tactic(auto)]

mod counts;
mod fault;
mod file;
mod laws;
mod ledger;
mod log;
mod reading;
mod replaying;
mod rows;
mod settings;
mod table;

pub use fault::OpenFault;
pub use file::{LedgerFile, copy_log, entry_table, open_file, open_file_from};
pub use laws::{runs_follow, stopped_runs_follow};
pub use ledger::DurableLedger;
pub use log::{has_log, has_one_page};
pub use settings::Settings;
