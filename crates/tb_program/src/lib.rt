//! Scripts to the end: in one thread, and through the pipeline with a thread for each sender.
//!
//! `run_script` takes a script through front and ledger, and writes the output that is defined for the bytes read, whatever
//! these are (`written`, `specs/clauses/Listing.antt`). `run_threads` writes of a script with a fault what `run_script` writes (`faulty`), and of
//! any other the text of a lawful run of what the script says (`ran`, `specs/clauses/RunText.antt`). If reading fails, or memory or a thread is
//! unavailable, nothing is written. `list_output` and `run_output` return what these two write, and a remark on a fault. `run_output` also says
//! whether memory ran out in the run (`memory`). If it didn't, all that is ahead of the Close is committed (`without_lack_all_is_committed`).
//! `run_over` says whether it ran out for a packet. If it didn't, and the ledger hasn't stopped, the same holds (`without_lack_or_stop_all_is_committed`).
#![tactic(auto)]

mod laws;
mod list;
mod operations;
mod run;
mod state;

pub use laws::{without_lack_all_is_committed, without_lack_or_stop_all_is_committed};
pub use list::{Line, list_output, operations_of, put_lines, run_script};
pub use run::{RunOver, run_output, run_over, run_threads};
pub use state::put_state;
pub use tb_program_text::{Output, ProgramFault};
