//! The control in a thread of its own: its calls in a run that is served.

ghost use Rattle.std.specs.Prelude.{◌≡◌, ◌∷◌, [], IfSome, map};
ghost use Rattle.tb_submit.specs.clauses.Ends.{control_seat, end_origin};
ghost use Rattle.tb_pipe_tests.specs.inside.Together.{AreTogether};

use super::clients::open_narrow;
use super::{
    Ends, Lone, assert_entries, assert_run, end_one, finish_started, open_lone, queue,
    room_for_ends,
};
use std::alloc::Global;
use std::process::Abort;
use std::sync::Wait;
use std::thread;
use std::thread::Threads;
use std::time::Clock;
use tb_blocking::{ControlClient, OwnControlEnd};
use tb_drive::Stop;
use tb_layout::CREATE_ACCOUNTS;
use tb_pipe::{Open, Pipeline, Report, settle};
use tb_submit::{Control, ControlEnd, Ended};
use tb_test_makers::{OutcomeKind, check};
use tb_work::Refusal;

/// More nanoseconds than a pulse may have.
const TOO_LATE: u64 = (1 << 62) + 1;

pub(super) fn pulse<R: Wait + Clock + Abort>(rt: &R, control: &mut ControlClient<'_>, moment: u64)
    ensures { control.new.seat ≡ control.old.seat }
{
    check!(rt; control.pulse(rt, moment) == Ok(()));
}

/// Pulses three times. A pulse that is too late is refused in between.
fn pulse_thrice<R: Wait + Clock + Abort>(rt: &R, control: &mut ControlClient<'_>)
    ensures { control.new.seat ≡ control.old.seat }
{
    pulse(rt, control, 1);
    check!(rt; control.pulse(rt, TOO_LATE) == Err(Refusal::MomentTooLarge));
    pulse(rt, control, 2);
    pulse(rt, control, 3);
}

/// Serves a control that pulses in a thread of its own.
fn serve_pulses<R: Threads + Wait + Clock + Sync + Abort>(
    rt: &R,
    pipeline: Pipeline,
    ends: Vec<Ended>,
    control: Control,
    stop: &Stop,
) -> Report
    requires own { map end_origin ends.items ≡ pipeline.submitters }
    requires control { control.seat ≡ control_seat pipeline.intake }
{
    thread::scope(
        thread::scope_env(),
        rt,
        |scope| -> Report
            requires own { map end_origin ends.items ≡ pipeline.submitters }
            requires control { control.seat ≡ control_seat pipeline.intake }
        {
            let pulses = ControlClient::new(control, stop)
                .start(scope, rt, move |control| pulse_thrice(rt, control))
                .expect(rt, "a thread can be started");
            let Ok(served) = pipeline.serve(rt, &Open) else {
                rt.panic("a thread can't be started")
            };
            let end = pulses.join(rt).expect(rt, "the run isn't given up");
            settle(served, ends, end)
        },
    )
}

/// The submitter's end is in the queue's only slot until the pipeline is served.
#[test]
fn control_in_a_thread_with_one_slot(rt: HostRuntime) {
    let (lone, stop) = open_narrow(&rt, rt.alloc(), 1, 1);
    let Lone {
        pipeline,
        submitter,
        control,
    } = lone;
    let mut ends = room_for_ends(rt.alloc()).expect(&rt, "memory");
    end_one(&rt, &mut ends, submitter);
    let report = serve_pulses(&rt, pipeline, ends, control, &stop);
    assert_entries(&rt, &report, &[0, 0, 0]);
    assert_run(&rt, report, 3, &[]);
    drop(stop);
}

/// Queues the Close from a thread of its own.
fn shut_in_thread<R: Threads + Wait + Clock + Sync + Abort>(
    rt: &R,
    control: Control,
    stop: &Stop,
) -> ControlEnd
    ensures { result.seat ≡ control.seat }
{
    thread::scope(
        thread::scope_env(),
        rt,
        |scope| -> ControlEnd
            ensures { result.seat ≡ control.seat }
        {
            let Ok(shutter) = scope.spawn_with(
                OwnControlEnd::of(&control),
                move || -> Option<ControlEnd>
                    ensures { IfSome result (λ end. end.seat ≡ control.seat) }
                { ControlClient::new(control, stop).shut(rt) },
            ) else {
                rt.panic("a thread can't be started")
            };
            shutter.join(rt).expect(rt, "the run isn't given up")
        },
    )
}

/// Queues a packet behind a Close from another thread, and serves.
fn serve_shut<R: Threads + Wait + Clock + Sync + Abort>(rt: &R, alloc: Global, lone: Lone) -> Report
    requires { AreTogether lone.pipeline (lone.submitter ∷ []) lone.control }
{
    let Lone {
        pipeline,
        mut submitter,
        control,
    } = lone;
    let stop = Stop::of(alloc, &[]).expect(rt, "memory");
    let control = shut_in_thread(rt, control, &stop);
    drop(stop);
    queue(rt, alloc, &mut submitter, CREATE_ACCOUNTS, 1);
    let mut submitters = room_for_ends(alloc).expect(rt, "memory");
    end_one(rt, &mut submitters, submitter);
    let ends = Ends {
        submitters,
        control,
    };
    finish_started(rt, pipeline, ends, &Open)
}

#[test]
fn control_that_shuts_in_a_thread(rt: HostRuntime) {
    let lone = open_lone(&rt, rt.alloc(), 4, 4, 1);
    let report = serve_shut(&rt, rt.alloc(), lone);
    assert_run(&rt, report, 0, &[OutcomeKind::Shutdown]);
}
