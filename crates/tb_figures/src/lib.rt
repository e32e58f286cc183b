//! Figures of a pipeline that runs, and a queue of what is to be tried again later.
//!
//! A `CountedLedger` counts what is committed, and a `CountedDriver` what its submitter queues and reads, and how long replies take.
//! Both store their counts into `Figures`, which any thread reads while the pipeline runs. `Retries` has what is to be tried again,
//! each with the moment from which it may be.
//!
//! The counts of a `CountedLedger` are those of its journal's last groups, by `is`. If they have as many packets and pulses as a run used
//! places, they are those of the run (`counts_are_exact`). What another thread reads of `Figures` is only tested.
#![tactic(auto)]

mod counted_driver;
mod counted_ledger;
mod counts;
mod figures;
mod laws;
mod retries;

pub use counted_driver::CountedDriver;
pub use counted_ledger::CountedLedger;
pub use counts::Counts;
pub use figures::{Figures, FiguresRead, SubmitterFigures};
pub use laws::counts_are_exact;
pub use retries::Retries;
