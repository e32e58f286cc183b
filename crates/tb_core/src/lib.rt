//! The core: what becomes of tickets between the queue and the replies, in one thread and without a lock.
//!
//! A packet goes one way: `Front` takes its ticket and joins it to its neighbours, `Ledger` commits the batch and notes
//! it in the journal, and a `Cutter` (tb_demux) gives each packet its reply.
//!
//! ```text
//! for parcel in front.take(ticket) {          // what the ticket seals, or sends back
//!     ledger.apply(parcel);
//! }
//! let batch = front.idle()?;                  // the group held: here the one packet
//! match ledger.apply(Parcel::Batch(batch)) {
//!     Outcomes::Cut(mut cutter) => cutter.next(),
//!     _ => None,
//! }
//! ```
//!
//! (`way_of_a_packet` in tb_core_tests is this caller, proved.) `run_list` does so with a list of items (`listed`, `ran`,
//! `grouping`). The front loses, doubles and overtakes nothing (`HasTakenOne`: `accounted`, `took`, `passes`, `lawful`). The
//! ledger keeps a batch as one entry of its journal, and answers each packet by its place (`IsApplied`: `step`, `commits`,
//! `joined`). A `BareLedger` does so without a journal. `AnyLedger` is what both have in common, for whoever commits to a ledger and doesn't read its journal.
//!
//! The report on any run is one record (`specs/claim/Report.antt`), and the law `headline` says what it means for each submitter
//! (`specs/claim/Headline.antt`). `run_is_lawful` leads there from what a front and a ledger took, also if an allocation failed;
//! `each_part_is_lawful` says what holds on the way. A run may go on with the ledger of another (`Ledger::begin`), and
//! `two_runs_are_one` says of both what holds of one.
#![tactic(auto)]

mod any_ledger;
mod bare_ledger;
mod front;
mod journal;
mod laws;
mod ledger;
mod list;
mod outcomes;
mod parcel;

pub use any_ledger::AnyLedger;
pub use bare_ledger::BareLedger;
pub use front::Front;
pub use journal::Entry;
pub use laws::{
    bad_runs_are_excluded, committed_are_answered, committed_of_each_submitter,
    each_part_is_lawful, headline, pulses_are_the_controls, run_is_lawful, two_bad_runs_remain,
    two_runs_are_one,
};
pub use ledger::Ledger;
pub use list::{Listed, run_list};
pub use outcomes::Outcomes;
pub use parcel::{Cause, Parcel};
pub use tb_machine::Seed;
