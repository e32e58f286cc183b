//! What the committer may apply.

ghost use Rattle.std.specs.Prelude.{◌≡◌, true};
ghost use Rattle.tb_pipe.specs.clauses.Carried.{is_batch, next_number};

use crate::gate::Gate;
use std::sync::Wait;
use std::time::Clock;
use tb_core::Parcel;
use tb_rings::PollWait;

/// Returns whether the parcel is a batch; a gate is asked for no other.
pub(crate) fn is_batch(parcel: &Parcel) -> bool
    ensures { result ≡ is_batch parcel.now }
{
    match parcel {
        Parcel::Batch(_) => true,
        _ => false,
    }
}

/// Waits until the gate lets the batch through.
fn wait_for<R: Wait + Clock, G: Gate>(rt: &R, gate: &G, batch: u64)
    ensures { G.lets_through gate.now batch }
{
    let poll = PollWait::new();
    for _ in rt.forever() {
        if gate.may_commit(batch) {
            return;
        }
        poll.wait(rt);
    }
    unreachable!()
}

/// Waits until the parcel may be applied. The gate is asked for a batch, by the number of those before it, which is then
/// counted; for nothing else.
pub(crate) fn pass_gate<R: Wait + Clock, G: Gate>(
    rt: &R,
    gate: &G,
    parcel: &Parcel,
    batches: &mut u64,
)
    ensures through { is_batch parcel.now ≡ true → G.lets_through gate.now batches.old }
    ensures next { batches.new ≡ next_number batches.old parcel.now }
{
    if is_batch(parcel) {
        wait_for(rt, gate, *batches);
        *batches = batches.wrapping_add(1);
    }
}
