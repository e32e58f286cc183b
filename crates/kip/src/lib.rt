//! The functions that C calls: an engine behind a handle.
//!
//! Each export borrows the engine behind the handle, calls it, and repeats its claim; opening puts an engine there, and closing takes it
//! out. A status is 0, the number of a refusal, or one of those in `status`. `include/kip.h` declares the exports and states what a
//! caller must uphold.
#![tactic(auto)]

mod calls;
mod counts;
mod engine_pointer;
mod entries;
mod handle;
mod raw_box;
mod reading;
mod status;
