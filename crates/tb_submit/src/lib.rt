//! The submission queue of several senders, and the ends of its users.
//!
//! `open_queue` makes a queue of `capacity` slots, and for each submitter a reply ring of `credit` slots (`intake`, `slots`).
//!
//! - `Submitter::submit` queues a packet with the submitter's next number, or returns it with the first refusal that applies and
//!   nothing changed (`ok`, `back`, `refusal`). `reply` returns the next reply, and `end` queues the submitter's End;
//! - `Control::pulse`, `end` and `shut` queue the control's items;
//! - `Intake::take` returns the front of the queue;
//! - `settle_queue` establishes, once all senders have ended, that the taken tickets are the queue as its senders filled it.
//!
//! The queue is the kit's ruled queue. Its rule (`specs/clauses/Rule.antt`) keeps that the taken and queued tickets contain, as each
//! sender's part, exactly what that sender pushed, so no thread has to trust another. They begin with what was queued up to
//! any sender's last push.
//!
//! `credit_of_three` in tb_pipe_tests is an example that the gate compiles.
#![tactic(auto)]

mod control;
mod ended;
mod ends;
mod intake;
mod reader;
mod rule;
mod seen;
mod sender;
mod service;
mod settling;
mod submitter;

pub use control::{Control, ControlEnd};
pub use ended::Ended;
pub use ends::{Ends, open_queue};
pub use intake::Intake;
pub use seen::Seen;
pub use settling::settle_queue;
pub use submitter::Submitter;
