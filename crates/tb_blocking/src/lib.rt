//! Submitters and the control in an application's own threads, without drivers.
//!
//! The application moves a `Client`, which is a submitter, into each of its threads, and a `ControlClient` into the control's. Their
//! calls wait, and return if the run is given up by `Stop::give_up` (`tb_drive`), as an application does if it can't start a thread.
//!
//! `start` of both starts a thread that ends its sender after its work, since `serve` waits for each end. The thread's end is the
//! sender's own (`OwnEnd`, `OwnOpenEnd`), as `settle` requires.
//!
//! `own_threads` of `crates/examples` is an example that the gate compiles.
#![tactic(auto)]

mod client;
mod own_end;

pub use client::{Client, ControlClient};
pub use own_end::{OwnControlEnd, OwnEnd, OwnOpenEnd};
