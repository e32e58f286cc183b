//! The text that the program reads, the lines that it prints, and the command line.
//!
//! `parse` reads the text of a script into its settings and its items: packets with their bytes, pulses, the Close. If a line is
//! faulty, it returns the number and the fault of the first one. For any text this is what `specs/clauses/Script.antt` defines.
//!
//! Two laws on that definition: a script spelled from settings and items is read as these (`spelled_scripts_are_read`). An event or
//! id spelled from its fields is the bytes that `tb_layout` lays out (`spelled_accounts_are_laid_out` and its like).
//!
//! `read_script` reads the bytes of a script, `source_of` says what they are: a script, or the line of its fault, with a remark on it for
//! people. `put_reply` and its
//! like append exactly the line that `specs/clauses/Output.antt` defines, and `write_out` writes a whole text. `request_of` is what the
//! arguments ask for; `ending_of`, `Ending::of_run`, `Ending::status` and `Ending::text` give the exit status and the last line.
#![tactic(auto)]

mod ending;
mod event;
mod fault;
mod item;
mod keyword;
mod laws;
mod naming;
mod number;
mod output;
mod parsing;
mod program_fault;
mod read;
mod remark;
mod request;
mod script;
mod source;
mod submitter_number;
mod table;
mod text;

pub use ending::{Ending, ending_of};
pub use fault::Fault;
pub use item::{ScriptItem, Settings};
pub use laws::{
    faultless_lines_are_parsed, first_fault_decides, spelled_accounts_are_laid_out,
    spelled_ids_are_laid_out, spelled_scripts_are_read, spelled_transfers_are_laid_out,
};
pub use naming::{Tally, named_text, tally_of};
pub use output::{
    Output, put_account, put_clock, put_close, put_pulse, put_refused, put_refused_pulse,
    put_reply, write_bytes, write_out,
};
pub use parsing::{ScriptError, parse};
pub use program_fault::ProgramFault;
pub use read::{ScriptLength, ScriptText, read_script};
pub use request::{FilePath, Options, Request, request_of};
pub use script::{Script, ScriptParts};
pub use source::{FaultyScript, Source, read_source, source_of};
pub use submitter_number::SubmitterNumber;
