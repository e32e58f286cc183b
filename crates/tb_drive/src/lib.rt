//! What runs in the senders' threads: a submitter's, or the control's.
//!
//! An application writes a `Driver`: what its submitter does next, and what becomes of the replies. A `ControlDriver`
//! says when the control queues a pulse, and how it ends; `ControlPlan` has one whose pulses are known beforehand. `drive_all`
//! of `tb_pipe` runs a pipeline with them, and a thread for each sender:
//!
//! ```
//! let Ok(opened) = Options { submitters: 2, ..Options::default() }.open(alloc) else { .. };
//! let drivers = vec![in alloc; Teller::new(1), Teller::new(2)]?;
//! let finished = drive_all(&rt, alloc, opened, drivers, ControlPlan::none(alloc).driver())?;
//! ```
//!
//! Each thread ends its sender once its driver says `End`, since `serve` waits for each end. `Tasks::start` starts these
//! threads and `Running::join` joins them, for `drive_all`.
//!
//! An application with threads of its own uses `tb_blocking`, and gives a run up by a `Stop` too.
#![tactic(auto)]

mod control_driver;
mod controlling;
mod drive_fault;
mod driver;
mod plan;
mod stop;
mod submitting;
mod threads;

pub use control_driver::{ControlAction, ControlDriver};
pub use controlling::{ControlResult, end_control};
pub use drive_fault::DriveFault;
pub use driver::{Action, Driver};
pub use plan::{ControlPlan, PlanDriver};
pub use stop::Stop;
pub use submitting::submit_once;
pub use threads::{Joined, Running, Tasks};
