//! The pipeline: batcher, committer and demultiplexer as threads, between the submission queue and the reply rings.
//!
//! `open` makes a pipeline with its submitters and its control (`opens`, `refusal`, `own`, `seats`). `Options::open` does so with
//! the settings by name. `Pipeline::with_ledger` gives it a ledger of the caller's: one that an earlier run left, or a new one with a seed
//! or with reserved capacity. `Pipeline::over` gives it any ledger (`AnyLedger` of `tb_core`), also one whose journal isn't in memory.
//! `Pipeline::serve` runs the stages until all senders have ended. If a thread can't be started it returns the intake, and nothing was
//! taken from it (`refused`).
//! `settle` makes the report, which is lawful and has the headline (`report`, `headline`, `grouping`, `pulses`): its caller ensures
//! by two equations that the ends are those that were opened with the pipeline, in order.
//!
//! ```
//! let options = Options { submitters: 2, ..Options::default() };
//! let Opened { pipeline, submitters, control } = options.open(alloc)?;
//! // each thread submits, reads its replies and ends; the control ends too
//! let served = pipeline.serve(&rt, &Open)?;
//! let report = settle(served, ends, control_end);
//! ```
//!
//! A `Gate` holds batches back: the committer gets a batch only after the gate said yes to its number (`through`).
//!
//! `drive_all` runs an opened pipeline until all senders have ended, with a thread for each sender and its driver (`tb_drive`). It
//! settles with the pipeline's own ends, so its clauses say what those of `settle` say of the report. `submit_ahead` queues a packet
//! before that. `drive_over` and `settle_over` do the same over any ledger, of which they say that there is one, of those that the value
//! may be, with such a report.
//!
//! `crates/examples` has examples that the gate compiles: `two_tellers`, `days` with a run a day over one ledger, `payments`, and, with
//! threads of its own, `own_threads`.
#![tactic(auto)]

mod batching;
mod clearing;
mod committing;
mod driving;
mod gate;
mod opening;
mod routing;
mod serving;
mod settling;
mod stages;
mod waiting;

pub use driving::{Finished, drive_all, drive_over, submit_ahead};
pub use gate::{Gate, Open};
pub use opening::{Opened, Options, open};
pub use serving::{Pipeline, Served};
pub use settling::{Report, settle, settle_over};
