//! Clients: their calls in a run that is served.

ghost use Rattle.std.specs.Prelude.{◌≡◌, ◌∷◌, []};
ghost use Rattle.tb_submit.specs.clauses.Ends.{control_seat, origin_of};
ghost use Rattle.tb_pipe_tests.specs.inside.Together.{AreTogether};

use super::{
    Lone, assert_run, end_control, lone_of, opened, outcome_kind, packet_of, put, room_for_ends,
};
use std::alloc::Global;
use std::process::Abort;
use std::sync::Wait;
use std::thread;
use std::thread::Threads;
use std::time::Clock;
use tb_blocking::Client;
use tb_drive::Stop;
use tb_layout::CREATE_ACCOUNTS;
use tb_pipe::{Open, Report, settle};
use tb_test_makers::{OutcomeKind, check};
use tb_work::Refusal;

/// Opens a pipeline for one submitter, whose queue has few slots.
pub(super) fn open_narrow(rt: &impl Abort, alloc: Global, slots: u32, credit: u32) -> (Lone, Stop)
    ensures { AreTogether result.0.pipeline (result.0.submitter ∷ []) result.0.control }
{
    let opened = opened(alloc, 4, slots, credit, 1).expect(rt, "it is opened");
    let stop = Stop::of(alloc, &opened.submitters).expect(rt, "memory");
    (lone_of(opened), stop)
}

/// Submits a packet with this account. Returns its number, or why it is refused.
pub(super) fn submit<R: Wait + Clock + Abort>(
    rt: &R,
    alloc: Global,
    client: &mut Client<'_>,
    id: u8,
) -> Result<u64, Refusal>
    ensures { origin_of client.new ≡ origin_of client.old }
{
    let packet = packet_of(alloc, CREATE_ACCOUNTS, id).expect(rt, "memory");
    match client.submit(rt, alloc, packet) {
        Ok(number) => Ok(number),
        Err((packet, refusal)) => {
            drop(packet);
            Err(refusal)
        }
    }
}

/// Waits for the next reply, and returns its packet's place.
pub(super) fn receive<R: Wait + Clock>(rt: &R, client: &mut Client<'_>) -> Option<OutcomeKind>
    ensures { origin_of client.new ≡ origin_of client.old }
{
    match client.receive(rt) {
        Some(reply) => Some(outcome_kind(reply)),
        None => None,
    }
}

/// Exchanges a packet with this account for the next reply. Returns its packet's place, or why it is refused.
pub(super) fn exchange<R: Wait + Clock + Abort>(
    rt: &R,
    alloc: Global,
    client: &mut Client<'_>,
    id: u8,
) -> Result<Option<OutcomeKind>, Refusal>
    ensures { origin_of client.new ≡ origin_of client.old }
{
    let packet = packet_of(alloc, CREATE_ACCOUNTS, id).expect(rt, "memory");
    match client.exchange(rt, alloc, packet) {
        Ok(Some(reply)) => Ok(Some(outcome_kind(reply))),
        Ok(None) => Ok(None),
        Err((packet, refusal)) => {
            drop(packet);
            Err(refusal)
        }
    }
}

/// Queues a packet at a time with a credit of one, and waits for each reply but the last. One packet is too many in between.
fn trade<R: Wait + Clock + Abort>(rt: &R, alloc: Global, client: &mut Client<'_>)
    ensures { origin_of client.new ≡ origin_of client.old }
{
    check!(rt; receive(rt, client).is_none());
    for (number, id) in [(0, 1), (1, 2), (2, 3)] {
        check!(rt; submit(rt, alloc, client, id) == Ok(number));
        check!(rt; submit(rt, alloc, client, 9) == Err(Refusal::InFlight));
        check!(rt; exchange(rt, alloc, client, 9) == Err(Refusal::InFlight));
        check!(rt; receive(rt, client) == Some(OutcomeKind::Committed(number)));
    }
    check!(rt; receive(rt, client).is_none());
    check!(rt; exchange(rt, alloc, client, 4) == Ok(Some(OutcomeKind::Committed(3))));
    check!(rt; submit(rt, alloc, client, 5) == Ok(4));
}

/// Serves a client that trades in a thread of its own. The control's end is in the queue's only slot until then.
fn serve_trade<R: Threads + Wait + Clock + Sync + Abort>(
    rt: &R,
    alloc: Global,
    lone: Lone,
    stop: &Stop,
) -> Report
    requires { AreTogether lone.pipeline (lone.submitter ∷ []) lone.control }
{
    let Lone {
        pipeline,
        submitter,
        control,
    } = lone;
    let control = end_control(rt, control, false);
    thread::scope(
        thread::scope_env(),
        rt,
        |scope| -> Report
            requires own { origin_of submitter ∷ [] ≡ pipeline.submitters }
            requires control { control.seat ≡ control_seat pipeline.intake }
        {
            let trader = Client::new(submitter, stop)
                .start(scope, rt, move |client| trade(rt, alloc, client))
                .expect(rt, "a thread can be started");
            let Ok(served) = pipeline.serve(rt, &Open) else {
                rt.panic("a thread can't be started")
            };
            let ended = trader.join(rt).expect(rt, "the run isn't given up");
            let mut ends = room_for_ends(alloc).expect(rt, "memory");
            put(rt, &mut ends, ended);
            settle(served, ends, control)
        },
    )
}

#[test]
fn client_with_one_slot_and_one_credit(rt: HostRuntime) {
    let (lone, stop) = open_narrow(&rt, rt.alloc(), 1, 1);
    let report = serve_trade(&rt, rt.alloc(), lone, &stop);
    assert_run(&rt, report, 5, &[OutcomeKind::Committed(4)]);
    drop(stop);
}
