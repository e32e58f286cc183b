//! Calls that wait for a slot or a reply in a pipeline that nobody serves: they return once the run is given up, whenever that is. So do
//! those that are made afterwards.

use super::clients::{exchange, open_narrow, receive, submit};
use super::narrow::stop_after;
use super::stops::{LateGate, SLEEP_TURNS, ask_later};
use super::{Lone, opened, packet_of};
use std::alloc::Global;
use std::process::Abort;
use std::sync::Wait;
use std::thread;
use std::thread::Threads;
use std::time::Clock;
use tb_blocking::{Client, ControlClient};
use tb_drive::{Action, ControlAction, ControlDriver, DriveFault, Driver, Stop, Tasks};
use tb_layout::CREATE_ACCOUNTS;
use tb_pipe::Opened;
use tb_submit::{Control, Submitter};
use tb_test_makers::check;
use tb_work::{Refusal, Reply};

/// How many slots the queue has.
const SLOTS: [u32; 3] = [1, 6, 1_000];

/// How often a thread yields before it gives the run up: the others may not have begun to wait, or sleep.
const TURNS: [u32; 2] = [0, 3_000];

/// The call of a client, or of the control, that waits.
#[derive(Clone, Copy)]
enum Blocked {
    Submit,
    Exchange,
    Receive,
    End,
    Pulse,
    ControlEnd,
    Shut,
    /// It gives the run up itself, and then calls.
    Late(Late),
}

/// What is called once the run is given up. All but the exchange find the queue full.
#[derive(Clone, Copy)]
enum Late {
    Client,
    Exchange,
    ControlEnd,
    Shut,
}

const CALLS: [Blocked; 7] = [
    Blocked::Submit,
    Blocked::Exchange,
    Blocked::Receive,
    Blocked::End,
    Blocked::Pulse,
    Blocked::ControlEnd,
    Blocked::Shut,
];

/// Fills slots of the queue with packets and pulses in turn.
fn fill<R: Wait + Clock + Abort>(
    rt: &R,
    alloc: Global,
    client: &mut Client<'_>,
    control: &mut ControlClient<'_>,
    slots: u32,
) {
    for slot in 0..slots {
        if slot % 2 == 0 {
            check!(rt; submit(rt, alloc, client, 0) == Ok(u64::from(slot / 2)));
        } else {
            check!(rt; control.pulse(rt, 1) == Ok(()));
        }
    }
}

/// Calls of a client whose run is given up, while nobody serves: its packet finds no slot, and no reply comes.
fn calls_late<R: Wait + Clock + Abort>(
    rt: &R,
    alloc: Global,
    client: &mut Client<'_>,
    control: &mut ControlClient<'_>,
) {
    check!(rt; submit(rt, alloc, client, 2) == Err(Refusal::Full));
    check!(rt; client.queued() == 1);
    check!(rt; receive(rt, client).is_none());
    check!(rt; client.in_flight() == 1);
    check!(rt; control.pulse(rt, 2) == Err(Refusal::Full));
    check!(rt; control.queued() == 1);
}

/// Gives a run up that nobody serves, and then makes the calls. Returns whether the last of them says so. An exchange queues its packet,
/// since a slot is free.
fn is_given_up<R: Wait + Clock + Abort>(
    rt: &R,
    alloc: Global,
    client: Client<'_>,
    control: ControlClient<'_>,
    stop: &Stop,
    call: Late,
) -> bool {
    let (mut client, mut control) = (client, control);
    check!(rt; !stop.is_given_up());
    stop.give_up();
    check!(rt; stop.is_given_up());
    if matches!(call, Late::Exchange) {
        return exchange(rt, alloc, &mut client, 1) == Ok(None);
    }
    calls_late(rt, alloc, &mut client, &mut control);
    match call {
        Late::Client => client.end(rt).is_none(),
        Late::ControlEnd => control.end(rt).is_none(),
        _ => control.shut(rt).is_none(),
    }
}

/// Fills the queue, unless a slot is to be free, and then makes the call. Returns whether it says that the run is given up. A reply is
/// waited for twice: only the first time a waker is used.
fn gives_up<R: Wait + Clock + Abort>(
    rt: &R,
    alloc: Global,
    submitter: Submitter,
    control: Control,
    stop: &Stop,
    slots: u32,
    call: Blocked,
) -> bool {
    let mut client = Client::new(submitter, stop);
    let mut control = ControlClient::new(control, stop);
    if !matches!(call, Blocked::Late(Late::Exchange)) {
        fill(rt, alloc, &mut client, &mut control, slots);
    }
    match call {
        Blocked::Submit => submit(rt, alloc, &mut client, 0) == Err(Refusal::Full),
        Blocked::Exchange => exchange(rt, alloc, &mut client, 0) == Err(Refusal::Full),
        Blocked::Receive => {
            receive(rt, &mut client).is_none() && receive(rt, &mut client).is_none()
        }
        Blocked::End => client.end(rt).is_none(),
        Blocked::Pulse => control.pulse(rt, 1) == Err(Refusal::Full),
        Blocked::ControlEnd => control.end(rt).is_none(),
        Blocked::Shut => control.shut(rt).is_none(),
        Blocked::Late(late) => is_given_up(rt, alloc, client, control, stop, late),
    }
}

/// Makes a call in a thread of its own while another gives the run up, if it is to. Returns whether the call says so.
fn call_and_stop<R: Threads + Wait + Clock + Sync + Abort>(
    rt: &R,
    alloc: Global,
    slots: u32,
    turns: Option<u32>,
    call: Blocked,
) -> bool {
    let (lone, stop) = open_narrow(rt, alloc, slots, 1_001);
    let Lone {
        pipeline,
        submitter,
        control,
    } = lone;
    let stop = &stop;
    let (gives_up, ()) = thread::join(
        rt,
        move || gives_up(rt, alloc, submitter, control, stop, slots, call),
        || stop_after(stop, turns),
    );
    drop(pipeline);
    gives_up
}

#[test]
fn calls_return_once_the_run_is_given_up(rt: HostRuntime) {
    for slots in SLOTS {
        for turns in TURNS {
            for call in CALLS {
                check!(&rt; call_and_stop(&rt, rt.alloc(), slots, Some(turns), call));
            }
        }
    }
}

/// The queue has two slots.
#[test]
fn calls_of_a_run_that_is_given_up(rt: HostRuntime) {
    for late in [Late::Client, Late::Exchange, Late::ControlEnd, Late::Shut] {
        check!(&rt; call_and_stop(&rt, rt.alloc(), 2, None, Blocked::Late(late)));
    }
}

/// What a driver does after its first packet, again and again.
#[derive(Clone, Copy)]
enum Then {
    Submit,
    Receive,
    /// It waits from the start, when there is no reply to come, and so is asked again and again.
    Wait,
    End,
}

/// Submits packets, waits for a reply or ends. The control's pulses, waits, ends or shuts.
#[derive(Clone, Copy, Drop)]
struct Busy {
    then: Then,
    has_begun: bool,
}

impl Driver for Busy {
    fn next<R: Wait>(&mut self, _rt: &R, alloc: Global) -> Action {
        if matches!(self.then, Then::Wait) || self.has_begun && matches!(self.then, Then::Receive) {
            return Action::Receive;
        }
        if self.has_begun && matches!(self.then, Then::End) {
            return Action::End;
        }
        self.has_begun = true;
        packet_of(alloc, CREATE_ACCOUNTS, 0).map_or(Action::End, Action::Submit)
    }

    fn submitted(&mut self, _response: Result<u64, Refusal>) {}

    fn receive(&mut self, _reply: Reply) {}
}

impl ControlDriver for Busy {
    fn next<R: Wait>(&mut self, _rt: &R) -> ControlAction {
        match self.then {
            Then::Submit => ControlAction::Pulse(1),
            Then::Receive => ControlAction::Close,
            Then::Wait => ControlAction::Wait,
            Then::End => ControlAction::End,
        }
    }

    fn pulsed(&mut self, _response: Result<(), Refusal>) {}
}

/// Runs drivers in threads of their own while another gives the run up. Returns why the run gives nothing.
fn drive_and_stop<R: Threads + Wait + Clock + Sync + Abort>(
    rt: &R,
    alloc: Global,
    slots: u32,
    turns: u32,
    then: Then,
) -> Option<DriveFault> {
    let opened = opened(alloc, 4, slots, 1_001, 1).expect(rt, "it is opened");
    let stop = Stop::of(alloc, &opened.submitters).expect(rt, "memory");
    let Opened {
        pipeline,
        submitters,
        control,
    } = opened;
    let busy = Busy {
        then,
        has_begun: false,
    };
    let mut drivers = Vec::new(alloc);
    drivers.push(busy).expect(rt, "memory");
    let tasks = Tasks::of(alloc, submitters, drivers, control, busy)
        .ok()
        .expect(rt, "memory");
    let stop = &stop;
    let fault = thread::scope(thread::scope_env(), rt, |scope| -> Option<DriveFault> {
        let running = tasks
            .start(scope, rt, alloc, stop)
            .ok()
            .expect(rt, "threads can be started");
        ask_later(stop, turns);
        running.join(rt).err()
    });
    drop(pipeline);
    fault
}

/// Serves drivers that send until another thread gives the run up, with a gate that says no some times after that, so that their ends
/// find the queue full. Returns whether they were served, and why the drivers' run gives nothing.
fn serve_and_stop<R: Threads + Wait + Clock + Sync + Abort>(
    rt: &R,
    alloc: Global,
) -> (bool, Option<DriveFault>) {
    let opened = opened(alloc, 4, 1, 200, 1).expect(rt, "it is opened");
    let stop = Stop::of(alloc, &opened.submitters).expect(rt, "memory");
    let gate = LateGate::new(&stop, 1_000);
    let Opened {
        pipeline,
        submitters,
        control,
    } = opened;
    let busy = Busy {
        then: Then::Submit,
        has_begun: false,
    };
    let mut drivers = Vec::new(alloc);
    drivers.push(busy).expect(rt, "memory");
    let tasks = Tasks::of(alloc, submitters, drivers, control, busy)
        .ok()
        .expect(rt, "memory");
    let stop = &stop;
    thread::scope(
        thread::scope_env(),
        rt,
        |scope| -> (bool, Option<DriveFault>) {
            let running = tasks
                .start(scope, rt, alloc, stop)
                .ok()
                .expect(rt, "threads can be started");
            let stopper = scope.spawn(move || ask_later(stop, SLEEP_TURNS)).ok();
            let is_served = pipeline.serve(rt, &gate).is_ok();
            stopper.expect(rt, "a thread can be started").join(rt);
            (is_served, running.join(rt).err())
        },
    )
}

/// The ends of the submitter and of the control wait for a slot, since `serve` waits for both. If no packet was queued by then, the gate
/// holds nothing up, and the queue isn't full.
#[test]
fn drivers_end_while_serve_runs(rt: HostRuntime) {
    for _ in 0..5 {
        check!(&rt; serve_and_stop(&rt, rt.alloc()) == (true, Some(DriveFault::NoThread)));
    }
}

/// Slots of the queue, each with what the drivers do; one of them at least can't end.
const BUSY: [(u32, Then); 6] = [
    (1, Then::Submit),
    (1, Then::Receive),
    (1, Then::Wait),
    (1, Then::End),
    (6, Then::Submit),
    (6, Then::Receive),
];

#[test]
fn drivers_return_once_the_run_is_given_up(rt: HostRuntime) {
    for (slots, then) in BUSY {
        for turns in TURNS {
            let fault = drive_and_stop(&rt, rt.alloc(), slots, turns, then);
            check!(&rt; fault == Some(DriveFault::NoThread));
        }
    }
}
