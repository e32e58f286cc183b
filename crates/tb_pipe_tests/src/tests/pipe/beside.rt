//! Serving while another thread sends.

use super::driven::{end, end_control};
use super::{Lone, open_lone};
use std::alloc::Global;
use std::process::Abort;
use std::sync::Wait;
use std::thread;
use std::thread::Threads;
use std::time::Clock;
use tb_core::AnyLedger;
use tb_pipe::Gate;
use tb_submit::{Control, Submitter};
use tb_test_makers::check;

/// Serves a pipeline over a new ledger, with this number of slots and this credit, while another thread sends by its one submitter and its
/// control. Returns what the sender returns.
pub(super) fn serve_beside<A, R, L, G, T, F>(
    rt: &A,
    serving: &R,
    alloc: Global,
    sizes: (u32, u32),
    ledger: L,
    gate: &G,
    send: F,
) -> T
where
    A: Abort,
    R: Threads + Wait + Clock + Sync,
    L: AnyLedger + Send,
    G: Gate,
    T: Send + Drop,
    F: FnOnce(Submitter, Control) -> T + Send,
    requires { F.IsAlwaysCallable send }
{
    let Lone {
        pipeline,
        submitter,
        control,
    } = open_lone(rt, alloc, 4, sizes.0, sizes.1);
    let Ok(pipeline) = pipeline.over(ledger) else {
        rt.panic("the ledger hasn't stopped")
    };
    let (sent, is_served) = thread::join(
        serving,
        move || -> T
            requires { F.IsAlwaysCallable send }
        { send(submitter, control) },
        || pipeline.serve(serving, gate).is_ok(),
    );
    check!(rt; is_served);
    sent
}

/// Ends a submitter and the control.
pub(super) fn end_both<R: Wait + Clock>(rt: &R, submitter: Submitter, control: Control) {
    drop(end(rt, submitter));
    drop(end_control(rt, control, false));
}
