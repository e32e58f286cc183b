//! Senders in a thread of their own, while the pipeline is served.

ghost use Rattle.std.specs.Prelude.{◌≡◌, ◌++◌, ◌∷◌, [], map, IfOk};
ghost use Rattle.tb_submit.specs.clauses.Ends.{origin_of, end_origin, control_seat};
ghost use Rattle.tb_pipe_tests.specs.inside.Together.{AreTogether, IsRun};

use super::gates::Counted;
use super::{MOST_TURNS, clock, end_all, opened, outcome_kind, packet_of, put, queue, submit};
use std::alloc::Global;
use std::process::Abort;
use std::snapshot::Snapshot;
use std::sync::Wait;
use std::thread;
use std::thread::{Promise, Threads};
use std::time::Clock;
use tb_layout::{CREATE_ACCOUNTS, CREATE_TRANSFERS};
use tb_pipe::{Opened, Pipeline, Report, settle};
use tb_submit::{Control, ControlEnd, Ended, Submitter};
use tb_test_makers::{OutcomeKind, check};
use tb_work::{Packet, Refusal};

/// How often a reply is looked for that the gate holds back.
pub(super) const HELD_TURNS: u32 = 10_000;

/// What a driver does.
#[derive(Clone, Copy)]
pub(super) enum Course {
    /// A packet and its reply, the Close, a packet and its reply, and a third packet.
    RoundClose,
    /// Two replies are read to what was queued before, and then a packet is submitted.
    ReadTwo,
    /// Fifty packets, each tried again if the queue is full or a reply is still unread.
    Fifty,
    /// Two packets whose batches the gate holds: each reply is looked for and doesn't come, then the gate lets that batch
    /// through, and it comes.
    Held,
}

/// What a driver saw.
#[derive(Clone, Copy, PartialEq, Eq)]
pub(super) enum Saw {
    /// Two replies, and why the packet after them was refused.
    Replies(Option<OutcomeKind>, Option<OutcomeKind>, Option<Refusal>),
    /// So many replies, the first committed at place 0 and each of the others at the next place.
    Indices(u64),
    /// Of two batches: whether a reply came while it was held, and the reply that came then.
    Held([(bool, Option<OutcomeKind>); 2]),
}

/// The ends of one submitter and of the control, and what their driver saw.
#[derive(Drop)]
struct Driven {
    ended: Ended,
    control: ControlEnd,
    saw: Saw,
}

/// The ends that come back are those of the senders that were passed.
#[derive(Drop)]
struct ComesBack {
    submitter: Snapshot<Submitter>,
    control: Snapshot<Control>,
}

impl Promise<Driven> for ComesBack {
    ghost use Rattle.std.specs.Prelude.{◌≡◌};
    ghost use Rattle.tb_submit.specs.clauses.Ends.{origin_of, end_origin};

    ghost kept_by = { λ p r. (end_origin r.ended ≡ origin_of p.submitter.value)
        × (r.control.seat ≡ p.control.value.seat) };
}

/// Ends a submitter, again and again while the queue is full.
pub(super) fn end<R: Wait + Clock>(rt: &R, submitter: Submitter) -> Ended
    ensures { end_origin result ≡ origin_of submitter }
{
    let mut submitter = submitter;
    for _ in rt.forever() {
        match submitter.end(rt) {
            Ok(ended) => return ended,
            Err((back, _)) => submitter = back,
        }
        thread::yield_now();
    }
    unreachable!()
}

pub(super) fn end_control<R: Wait + Clock>(rt: &R, control: Control, shut: bool) -> ControlEnd
    ensures { result.seat ≡ control.seat }
{
    let mut control = control;
    for _ in rt.forever() {
        let ended = if shut {
            control.shut(rt)
        } else {
            control.end(rt)
        };
        match ended {
            Ok(end) => return end,
            Err((back, _)) => control = back,
        }
        thread::yield_now();
    }
    unreachable!()
}

/// Returns the next reply; None if it doesn't come in this number of turns.
fn reply_within(submitter: &mut Submitter, turns: u32) -> Option<OutcomeKind>
    ensures { origin_of submitter.new ≡ origin_of submitter.old }
{
    for _ in 0..turns {
        if let Some(reply) = submitter.reply() {
            return Some(outcome_kind(reply));
        }
        thread::yield_now();
    }
    None
}

/// Returns the next reply; None if it doesn't come in time.
pub(super) fn wait_for_reply(submitter: &mut Submitter) -> Option<OutcomeKind>
    ensures { origin_of submitter.new ≡ origin_of submitter.old }
{
    reply_within(submitter, MOST_TURNS)
}

/// Queues a packet with this account and waits for its reply.
fn round<R: Wait + Clock + Abort>(
    rt: &R,
    alloc: Global,
    submitter: &mut Submitter,
    id: u8,
) -> Option<OutcomeKind>
    ensures { origin_of submitter.new ≡ origin_of submitter.old }
{
    let packet = packet_of(alloc, CREATE_ACCOUNTS, id).ok()?;
    submit(rt, alloc, submitter, packet).ok()?;
    wait_for_reply(submitter)
}

/// Returns why a packet of an unknown operation, without events, is refused; it takes no memory.
fn refusal<R: Wait + Clock + Abort>(
    rt: &R,
    alloc: Global,
    submitter: &mut Submitter,
) -> Option<Refusal>
    ensures { origin_of submitter.new ≡ origin_of submitter.old }
{
    let packet = packet_of(alloc, 200, 0).ok()?;
    match submit(rt, alloc, submitter, packet) {
        Ok(_) => None,
        Err((_, refusal)) => Some(refusal),
    }
}

/// Reads a reply if there is one, and counts it if it is committed at the next place.
fn read_one(submitter: &mut Submitter, next: &mut u64)
    ensures { origin_of submitter.new ≡ origin_of submitter.old }
{
    if let Some(reply) = submitter.reply() {
        if outcome_kind(reply) == OutcomeKind::Committed(*next) {
            *next = next.wrapping_add(1);
        }
    }
}

/// Submits a packet until it is queued or refused for another reason than a full queue or the credit, and reads
/// replies meanwhile.
fn submit_trying<R: Wait + Clock + Abort>(
    rt: &R,
    alloc: Global,
    submitter: &mut Submitter,
    packet: Packet,
    next: &mut u64,
)
    ensures { origin_of submitter.new ≡ origin_of submitter.old }
{
    let mut packet = packet;
    for _ in 0..MOST_TURNS {
        match submit(rt, alloc, submitter, packet) {
            Err((back, Refusal::InFlight)) => packet = back,
            Err((back, Refusal::Full)) => packet = back,
            _ => return,
        }
        read_one(submitter, next);
        thread::yield_now();
    }
}

/// Submits fifty packets, and returns how many replies were committed at the next place each.
fn submit_fifty<R: Wait + Clock + Abort>(rt: &R, alloc: Global, submitter: &mut Submitter) -> u64
    ensures { origin_of submitter.new ≡ origin_of submitter.old }
{
    let mut next = 0;
    for id in 1..51u8 {
        if let Ok(packet) = packet_of(alloc, CREATE_ACCOUNTS, id) {
            submit_trying(rt, alloc, submitter, packet, &mut next);
        }
    }
    if wait_for_reply(submitter) == Some(OutcomeKind::Committed(next)) {
        next = next.wrapping_add(1);
    }
    next
}

/// Returns whether a reply comes while the gate holds a batch, and the next reply once it lets that through.
fn hold(submitter: &mut Submitter, gate: &Counted, batch: u64) -> (bool, Option<OutcomeKind>)
    ensures { origin_of submitter.new ≡ origin_of submitter.old }
{
    gate.wait_until_asked(batch);
    let early = reply_within(submitter, HELD_TURNS).is_some();
    gate.let_through(batch);
    (early, wait_for_reply(submitter))
}

/// Does what comes ahead of the control's end.
fn drive_first<R: Wait + Clock + Abort>(
    rt: &R,
    alloc: Global,
    submitter: &mut Submitter,
    course: Course,
    gate: &Counted,
) -> Saw
    ensures { origin_of submitter.new ≡ origin_of submitter.old }
{
    match course {
        Course::RoundClose => Saw::Replies(round(rt, alloc, submitter, 1), None, None),
        Course::ReadTwo => Saw::Replies(wait_for_reply(submitter), None, None),
        Course::Fifty => Saw::Indices(submit_fifty(rt, alloc, submitter)),
        Course::Held => {
            queue(rt, alloc, submitter, CREATE_ACCOUNTS, 1);
            queue(rt, alloc, submitter, CREATE_TRANSFERS, 0);
            Saw::Held([hold(submitter, gate, 0), hold(submitter, gate, 1)])
        }
    }
}

/// Does what follows the control's end.
fn drive_last<R: Wait + Clock + Abort>(
    rt: &R,
    alloc: Global,
    submitter: &mut Submitter,
    course: Course,
    saw: Saw,
) -> Saw
    ensures { origin_of submitter.new ≡ origin_of submitter.old }
{
    let Saw::Replies(first, _, _) = saw else {
        return saw;
    };
    let second = match course {
        Course::RoundClose => round(rt, alloc, submitter, 2),
        _ => wait_for_reply(submitter),
    };
    Saw::Replies(first, second, refusal(rt, alloc, submitter))
}

fn drive<R: Wait + Clock + Abort>(
    rt: &R,
    alloc: Global,
    submitter: Submitter,
    control: Control,
    course: Course,
    gate: &Counted,
) -> Driven
    ensures { (end_origin result.ended ≡ origin_of submitter) × (result.control.seat ≡ control.seat) }
{
    let mut submitter = submitter;
    let saw = drive_first(rt, alloc, &mut submitter, course, gate);
    let control = end_control(rt, control, matches!(course, Course::RoundClose));
    let saw = drive_last(rt, alloc, &mut submitter, course, saw);
    Driven {
        ended: end(rt, submitter),
        control,
        saw,
    }
}

/// A pipeline, the ends of the submitters that have ended, the last submitter, and the control.
#[derive(Drop)]
pub(super) struct Driving {
    pub(super) pipeline: Pipeline,
    pub(super) ends: Vec<Ended>,
    pub(super) last: Submitter,
    pub(super) control: Control,
}

/// Serves while a thread drives the last submitter and the control, and returns the report and what the driver saw.
/// There is room for the last end. From opening to the report it is proved lawful by the clauses of the calls.
pub(super) fn run<R: Threads + Wait + Clock + Sync + Abort>(
    rt: &R,
    alloc: Global,
    driving: Driving,
    course: Course,
    gate: &Counted,
) -> Result<(Report, Saw), Refusal>
    requires own { map end_origin driving.ends.items ++ origin_of driving.last ∷ [] ≡ driving.pipeline.submitters }
    requires control { driving.control.seat ≡ control_seat driving.pipeline.intake }
    ensures { IfOk result (λ run. IsRun driving.pipeline.start driving.pipeline.intake.limit
        driving.pipeline.intake.submitters run.0.ledger run.0.ends.items) }
{
    let Driving {
        pipeline,
        ends,
        last,
        control,
    } = driving;
    thread::scope(
        thread::scope_env(),
        rt,
        |scope| -> Result<(Report, Saw), Refusal>
            requires own { map end_origin ends.items ++ origin_of last ∷ [] ≡ pipeline.submitters }
            requires control { control.seat ≡ control_seat pipeline.intake }
            ensures { IfOk result (λ run. IsRun pipeline.start pipeline.intake.limit pipeline.intake.submitters
                run.0.ledger run.0.ends.items) }
        {
            let mut ends = ends;
            let promise = ComesBack {
                submitter: Snapshot::of(&last),
                control: Snapshot::of(&control),
            };
            let Ok(driver) = scope.spawn_with(
                promise,
                move || -> Driven
                    ensures { (end_origin result.ended ≡ origin_of last) × (result.control.seat ≡ control.seat) }
                { drive(rt, alloc, last, control, course, gate) },
            ) else {
                drop(pipeline);
                drop(ends);
                return Err(Refusal::NoThread);
            };
            let Ok(served) = pipeline.serve(rt, gate) else {
                drop(ends);
                return Err(Refusal::NoThread);
            };
            let driven = driver.join(rt);
            put(rt, &mut ends, driven.ended);
            Ok((settle(served, ends, driven.control), driven.saw))
        },
    )
}

/// Has all submitters but the last end at once.
pub(super) fn driving_of<R: Wait + Clock + Abort>(rt: &R, alloc: Global, opened: Opened) -> Driving
    requires { AreTogether opened.pipeline opened.submitters.items opened.control }
    ensures own { map end_origin result.ends.items ++ origin_of result.last ∷ [] ≡ result.pipeline.submitters }
    ensures control { result.control.seat ≡ control_seat result.pipeline.intake }
{
    let Opened {
        pipeline,
        mut submitters,
        control,
    } = opened;
    let last = submitters.pop().expect(rt, "there is a submitter");
    let ends = end_all(rt, alloc, submitters);
    Driving {
        pipeline,
        ends,
        last,
        control,
    }
}

/// Opens a pipeline whose submitters but the last end at once.
pub(super) fn opened_driving<R: Wait + Clock + Abort>(
    rt: &R,
    alloc: Global,
    capacity: u32,
    credit: u32,
    submitters: u32,
) -> Driving
    ensures own { map end_origin result.ends.items ++ origin_of result.last ∷ [] ≡ result.pipeline.submitters }
    ensures control { result.control.seat ≡ control_seat result.pipeline.intake }
{
    let opened = opened(alloc, 4, capacity, credit, submitters);
    driving_of(rt, alloc, opened.expect(rt, "it is opened"))
}

/// Compares what the driver saw, the clock after the run, and how many batches the gate saw and let through.
fn assert_driven<R: Threads + Wait + Clock + Sync + Abort>(
    rt: &R,
    alloc: Global,
    driving: Driving,
    course: Course,
    wanted: Saw,
    wanted_clock: u64,
    batches: u64,
)
    requires own { map end_origin driving.ends.items ++ origin_of driving.last ∷ [] ≡ driving.pipeline.submitters }
    requires control { driving.control.seat ≡ control_seat driving.pipeline.intake }
{
    let gate = Counted::new(if matches!(course, Course::Held) {
        0
    } else {
        u64::MAX
    });
    let (report, saw) = run(rt, alloc, driving, course, &gate)
        .ok()
        .expect(rt, "threads can be started");
    check!(rt; saw == wanted && clock(&report) == wanted_clock);
    check!(rt; gate.counts() == (batches, batches));
    drop(report);
}

#[test]
fn close_between_two_packets(rt: HostRuntime) {
    let wanted = Saw::Replies(
        Some(OutcomeKind::Committed(0)),
        Some(OutcomeKind::Shutdown),
        Some(Refusal::Shutdown),
    );
    for submitters in [1, 2, 16] {
        let driving = opened_driving(&rt, rt.alloc(), 64, 64, submitters);
        assert_driven(&rt, rt.alloc(), driving, Course::RoundClose, wanted, 1, 1);
    }
}

#[test]
fn one_place_one_credit(rt: HostRuntime) {
    let driving = opened_driving(&rt, rt.alloc(), 1, 1, 1);
    let wanted = Saw::Indices(50);
    assert_driven(&rt, rt.alloc(), driving, Course::Fifty, wanted, 50, 50);
}

/// No batch is committed before the gate lets it through, however often it says no; the reply to the one before it comes
/// meanwhile.
#[test]
fn held_by_the_gate(rt: HostRuntime) {
    let driving = opened_driving(&rt, rt.alloc(), 64, 64, 1);
    let wanted = Saw::Held([
        (false, Some(OutcomeKind::Committed(0))),
        (false, Some(OutcomeKind::Committed(1))),
    ]);
    assert_driven(&rt, rt.alloc(), driving, Course::Held, wanted, 1, 2);
}
