//! Whether a queue is served or given up: the first call that asks for one of the two decides.

use std::alloc::Global;
use std::process::Abort;
use tb_submit::{Ends, open_queue};
use tb_test_makers::check;

/// A call, by the intake, by the submitter with this number, or by the control.
#[derive(Clone, Copy)]
enum Call {
    Begin,
    Fail,
    GiveUp(usize),
    ControlGivesUp,
}

/// Calls of one queue in their order, each with what it returns. `Fail` returns nothing, which counts as true.
const ORDERS: [[(Call, bool); 5]; 6] = [
    [
        (Call::Begin, true),
        (Call::GiveUp(0), false),
        (Call::ControlGivesUp, false),
        (Call::Begin, true),
        (Call::GiveUp(15), false),
    ],
    [
        (Call::GiveUp(15), true),
        (Call::Begin, false),
        (Call::GiveUp(0), true),
        (Call::ControlGivesUp, true),
        (Call::Begin, false),
    ],
    [
        (Call::ControlGivesUp, true),
        (Call::Begin, false),
        (Call::GiveUp(7), true),
        (Call::Begin, false),
        (Call::ControlGivesUp, true),
    ],
    [
        (Call::Begin, true),
        (Call::Fail, true),
        (Call::GiveUp(1), true),
        (Call::ControlGivesUp, true),
        (Call::Begin, false),
    ],
    [
        (Call::Begin, true),
        (Call::ControlGivesUp, false),
        (Call::GiveUp(0), false),
        (Call::Fail, true),
        (Call::ControlGivesUp, true),
    ],
    [
        (Call::Fail, true),
        (Call::Begin, false),
        (Call::Fail, true),
        (Call::GiveUp(0), true),
        (Call::Begin, false),
    ],
];

/// Makes a call, and returns what it returns.
fn made(ends: &Ends, call: Call) -> bool {
    match call {
        Call::Begin => ends.intake.begin(),
        Call::Fail => {
            ends.intake.fail();
            true
        }
        Call::GiveUp(number) => ends
            .submitters
            .get(number)
            .is_some_and(|submitter| submitter.give_up()),
        Call::ControlGivesUp => ends.control.give_up(),
    }
}

/// Makes the calls of a row with a new queue of sixteen submitters.
fn make_all(rt: &(impl Abort + Alloc<A = Global>), order: &[(Call, bool)]) {
    let ends = open_queue(rt.alloc(), 4, 4, 4, 16).expect(rt, "a queue");
    for (call, wanted) in order {
        check!(rt; made(&ends, *call) == *wanted);
    }
    drop(ends);
}

/// A queue that is served isn't given up, and one that is given up isn't served; one whose service failed is given up.
#[test]
fn the_first_call_decides(rt: HostRuntime) {
    for order in ORDERS.iter() {
        make_all(&rt, order.as_slice());
    }
}
