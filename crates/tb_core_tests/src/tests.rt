//! What no clause says: worked examples by name, each call once with ample memory, hundreds of made events against plain
//! lists, and allocations that fail.

ghost use Rattle.std.specs.Prelude.{◌≡◌, true};

use std::alloc::Global;
use std::process::Abort;
use tb_layout::Failure;
use tb_test_makers::zeros;
use tb_work::{Answer, Outcome, Packet};

mod alone;
mod batch;
mod demux;
mod durable;
mod embed;
mod entries;
mod front;
mod ledger;
mod list;
mod machine;
mod made;
mod outcomes;
mod reserved;
mod seeds;
mod tables;
mod work;
mod world;

/// Returns a packet of `length` zeros, with ample memory.
fn packet_of(rt: &(impl Abort + Alloc<A = Global>), operation: u8, length: usize) -> Packet
    ensures { result.operation ≡ operation }
{
    zeros(rt.alloc(), operation, length).expect(rt, "memory")
}

/// Ends the test unless a fact holds, as `check!` does. As a call it is cheaper to prove than the branch that `check!` writes.
fn must(rt: &impl Abort, fact: bool)
    ensures { fact ≡ true }
{
    if !fact {
        rt.abort()
    }
}

/// Adds an item, with ample memory.
fn push<T: Drop>(rt: &impl Abort, items: &mut Vec<T>, item: T) {
    items.push(item).expect(rt, "memory");
}

/// Returns the number of these digits.
fn number_of(rt: &impl Abort, digits: &str) -> u32 {
    digits.parse::<u32>().ok().expect(rt, "a number")
}

/// Returns the failures of a packet that was committed at a place.
fn failures_at(outcome: &Outcome, at: u64) -> Option<&[Failure]> {
    match outcome {
        Outcome::Committed {
            place,
            answer: Answer::Failures(failures),
        } if *place == at => Some(failures.as_slice()),
        _ => None,
    }
}
