//! The failures of a chain that failed.

ghost use Rattle.std.specs.Prelude.{◌≡◌, ◌+◌, ◌^◌, ◌<◌, ◌≤◌, ◌++◌, replicate, vec_len, vec_capacity};
ghost use Rattle.tb_machine.specs.claim.Chain.{linked_event_failed, failures_from};
ghost use Rattle.tb_machine.specs.inside.Faults.{results_of_failed};
ghost use Rattle.tb_machine.specs.inside.Examining.{LiesBelow};

use crate::fault::ChainFault;
use tb_layout::Failure;

const LINKED_EVENT_FAILED: u32 = 1;

/// Reports events that have no code of their own.
fn report_linked(out: &mut Vec<Failure>, index: usize, count: usize)
    requires room { vec_len out.old + count ≤ vec_capacity out.old }
    requires fits { index + count < 2 ^ 32 }
    ensures items { out.new.items ≡ out.old.items ++ failures_from index (replicate count linked_event_failed) }
    ensures len { vec_len out.new ≡ vec_len out.old + count }
    ensures capacity { vec_capacity out.new ≡ vec_capacity out.old }
{
    for k in 0..count {
        out.push_reserved(Failure {
            index: (index + k) as u32,
            code: LINKED_EVENT_FAILED,
        });
    }
}

/// Reports events that failed together.
pub(crate) fn report_failed<E: Copy>(
    out: &mut Vec<Failure>,
    index: usize,
    count: usize,
    fault: Option<ChainFault<E>>,
)
    requires room { vec_len out.old + count ≤ vec_capacity out.old }
    requires fits { index + count < 2 ^ 32 }
    requires below { LiesBelow count fault }
    ensures items { out.new.items ≡ out.old.items ++ failures_from index (results_of_failed count fault) }
    ensures len { vec_len out.new ≡ vec_len out.old + count }
    ensures capacity { vec_capacity out.new ≡ vec_capacity out.old }
{
    match fault {
        None => report_linked(out, index, count),
        Some(fault) => {
            report_linked(out, index, fault.index);
            out.push_reserved(Failure {
                index: (index + fault.index) as u32,
                code: fault.code,
            });
            report_linked(out, index + fault.index + 1, count - fault.index - 1);
        }
    }
}
