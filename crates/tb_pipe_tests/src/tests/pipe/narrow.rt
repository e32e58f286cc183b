//! Clients and the control, far past a handful of packets, in a queue of one slot.

ghost use Rattle.std.specs.Prelude.{◌≡◌};
ghost use Rattle.tb_submit.specs.clauses.Ends.{origin_of};

use super::beside::serve_beside;
use super::clients::{exchange, receive, submit};
use super::controls::pulse;
use super::stops::{ask_later, give_way};
use super::{end_control, opened};
use std::alloc::Global;
use std::process::Abort;
use std::sync::Wait;
use std::thread;
use std::thread::{PromisedHandle, Scope, Threads};
use std::time::Clock;
use tb_blocking::{Client, ControlClient, OwnEnd, OwnOpenEnd};
use tb_core::Ledger;
use tb_drive::Stop;
use tb_pipe::{Gate, Open, Opened};
use tb_submit::{Control, ControlEnd, Ended, Submitter};
use tb_test_makers::{OutcomeKind, check};

/// How a client sends.
#[derive(Clone, Copy)]
pub(super) enum Sends {
    /// Packets without events, each of which it waits for, every second time by `exchange`.
    InTurn,
    /// Packets of an account, by `exchange`.
    Exchanges,
    /// Packets of an account, without waiting between them.
    Submits,
    /// A packet of an account, whose reply never comes.
    InVain,
}

/// What clients and the control do.
#[derive(Clone, Copy)]
pub(super) struct Trading {
    pub(super) sends: Sends,
    /// How many packets each client queues.
    pub(super) packets: u64,
    /// How often the control pulses in a thread of its own. If None, its end is in the queue's only slot at first.
    pub(super) pulses: Option<u64>,
    /// How often another thread yields before it gives the run up; None if it doesn't.
    pub(super) stops_after: Option<u32>,
}

/// Queues a packet without events and waits for its reply, every second time by `exchange`. Returns whether it was committed.
fn trade_in_turn<R: Wait + Clock + Abort>(
    rt: &R,
    alloc: Global,
    client: &mut Client<'_>,
    number: u64,
) -> bool
    ensures { origin_of client.new ≡ origin_of client.old }
{
    let reply = if number % 2 == 0 {
        exchange(rt, alloc, client, 0).ok().flatten()
    } else if submit(rt, alloc, client, 0) == Ok(number) {
        receive(rt, client)
    } else {
        None
    };
    matches!(reply, Some(OutcomeKind::Committed(_)))
}

/// Queues a packet. Returns whether it was queued, and committed if its reply is waited for.
fn trade_one<R: Wait + Clock + Abort>(
    rt: &R,
    alloc: Global,
    client: &mut Client<'_>,
    sends: Sends,
    number: u64,
) -> bool
    ensures { origin_of client.new ≡ origin_of client.old }
{
    match sends {
        Sends::InTurn => trade_in_turn(rt, alloc, client, number),
        Sends::Exchanges => matches!(exchange(rt, alloc, client, 1), Ok(Some(_))),
        Sends::Submits => submit(rt, alloc, client, 1).is_ok(),
        Sends::InVain => {
            check!(rt; submit(rt, alloc, client, 1) == Ok(number));
            check!(rt; receive(rt, client).is_none());
            false
        }
    }
}

/// Queues packets, which are all committed unless the run is given up.
fn trade<R: Wait + Clock + Abort>(
    rt: &R,
    alloc: Global,
    client: &mut Client<'_>,
    trading: Trading,
    stop: &Stop,
)
    ensures { origin_of client.new ≡ origin_of client.old }
{
    for number in 0..trading.packets {
        let is_committed = trade_one(rt, alloc, client, trading.sends, number);
        if stop.is_given_up() {
            return;
        }
        check!(rt; is_committed);
    }
}

/// Pulses, each time after some turns.
fn pulse_often<R: Wait + Clock + Abort>(
    rt: &R,
    control: &mut ControlClient<'_>,
    pulses: u64,
    gap: u32,
)
    ensures { control.new.seat ≡ control.old.seat }
{
    for moment in 0..pulses {
        give_way(gap);
        pulse(rt, control, moment);
    }
}

/// Gives a run up after some turns, if there are any.
pub(super) fn stop_after(stop: &Stop, turns: Option<u32>) {
    if let Some(turns) = turns {
        ask_later(stop, turns);
    }
}

/// Starts a thread for each client.
pub(super) fn start_all<'s, E, R: Wait + Clock + Abort + Sync>(
    scope: &Scope<'s, E>,
    rt: &'s R,
    alloc: Global,
    submitters: Vec<Submitter>,
    stop: &'s Stop,
    trading: Trading,
) -> Vec<PromisedHandle<Option<Ended>, OwnEnd>> {
    let mut traders = Vec::new(alloc);
    for submitter in submitters {
        let started = Client::new(submitter, stop).start(
            scope,
            rt,
            move |client| trade(rt, alloc, client, trading, stop),
        );
        traders
            .push(started.expect(rt, "a thread can be started"))
            .expect(rt, "memory");
    }
    traders
}

/// Returns whether all clients queued their ends.
pub(super) fn have_all_ended<R: Threads>(
    rt: &R,
    traders: Vec<PromisedHandle<Option<Ended>, OwnEnd>>,
) -> bool {
    let mut have_ended = true;
    for trader in traders {
        have_ended &= trader.join(rt).is_some();
    }
    have_ended
}

/// Starts a thread in which the control pulses, or ends the control.
fn start_pulses<'s, E, R: Wait + Clock + Abort + Sync>(
    scope: &Scope<'s, E>,
    rt: &'s R,
    control: Control,
    stop: &'s Stop,
    pulses: Option<u64>,
) -> Option<PromisedHandle<Option<ControlEnd>, OwnOpenEnd>> {
    let Some(pulses) = pulses else {
        drop(end_control(rt, control, false));
        return None;
    };
    let started = ControlClient::new(control, stop).start(
        scope,
        rt,
        move |control| pulse_often(rt, control, pulses, 0),
    );
    Some(started.expect(rt, "a thread can be started"))
}

/// Serves clients that trade and a control that pulses or ends. Returns whether they were served, and whether all queued their ends.
pub(super) fn serve_clients<R: Threads + Wait + Clock + Sync + Abort, G: Gate>(
    rt: &R,
    alloc: Global,
    opened: Opened,
    stop: &Stop,
    trading: Trading,
    gate: &G,
) -> (bool, bool) {
    let Opened {
        pipeline,
        submitters,
        control,
    } = opened;
    thread::scope(thread::scope_env(), rt, |scope| -> (bool, bool) {
        let pulser = start_pulses(scope, rt, control, stop, trading.pulses);
        let traders = start_all(scope, rt, alloc, submitters, stop, trading);
        let stopper = scope
            .spawn(move || stop_after(stop, trading.stops_after))
            .ok();
        let is_served = pipeline.serve(rt, gate).is_ok();
        stopper.expect(rt, "a thread can be started").join(rt);
        let has_pulsed = pulser.is_none_or(|pulser| pulser.join(rt).is_some());
        (is_served, have_all_ended(rt, traders) && has_pulsed)
    })
}

/// Serves sixteen clients with a credit of one.
fn serve_sixteen<R: Threads + Wait + Clock + Sync + Abort>(
    rt: &R,
    alloc: Global,
    trading: Trading,
) -> (bool, bool) {
    let opened = opened(alloc, 4, 1, 1, 16).expect(rt, "it is opened");
    let stop = Stop::of(alloc, &opened.submitters).expect(rt, "memory");
    serve_clients(rt, alloc, opened, &stop, trading, &Open)
}

/// What sixteen clients of ten thousand packets do.
const SIXTEEN: Trading = Trading {
    sends: Sends::InTurn,
    packets: 10_000,
    pulses: Some(10_000),
    stops_after: None,
};

#[test]
fn sixteen_clients_of_ten_thousand_packets(rt: HostRuntime) {
    check!(&rt; serve_sixteen(&rt, rt.alloc(), SIXTEEN) == (true, true));
}

/// Whenever the run is given up, all threads return: the clients queued their ends if they were served.
#[test]
fn sixteen_clients_of_a_run_that_is_given_up(rt: HostRuntime) {
    for turns in [0, 3, 30, 300, 3_000] {
        let trading = Trading {
            pulses: Some(0),
            stops_after: Some(turns),
            ..SIXTEEN
        };
        let (is_served, have_ended) = serve_sixteen(&rt, rt.alloc(), trading);
        check!(&rt; is_served == have_ended, turns);
    }
}

/// Ends the submitter, pulses, and then queues the Close or the End. Returns whether that was queued.
fn pulse_and_end<R: Wait + Clock + Abort>(
    rt: &R,
    alloc: Global,
    submitter: Submitter,
    control: Control,
    gap: u32,
    shuts: bool,
) -> bool {
    check!(rt; submitter.end(rt).is_ok());
    let stop = Stop::of(alloc, &[]).expect(rt, "memory");
    let mut control = ControlClient::new(control, &stop);
    pulse_often(rt, &mut control, 1_000, gap);
    if shuts {
        control.shut(rt).is_some()
    } else {
        control.end(rt).is_some()
    }
}

/// Serves a control in a thread of its own. Returns whether the control queued its end.
fn serve_control<R: Threads + Wait + Clock + Sync + Abort>(
    rt: &R,
    alloc: Global,
    gap: u32,
    shuts: bool,
) -> bool {
    let send = move |submitter, control| pulse_and_end(rt, alloc, submitter, control, gap, shuts);
    serve_beside(rt, rt, alloc, (1, 1), Ledger::new(alloc, 0), &Open, send)
}

/// With gaps the pipeline sleeps before each pulse, which must wake it: no other sender does, and the next pulse waits for the slot.
#[test]
fn thousand_pulses_before_each_end(rt: HostRuntime) {
    for (gap, shuts) in [(0, false), (0, true), (300, true), (300, false)] {
        check!(&rt; serve_control(&rt, rt.alloc(), gap, shuts));
    }
}
