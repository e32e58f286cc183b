//! Runs with everything queued before they are served.

ghost use Rattle.std.specs.Prelude.{◌≡◌, map};
ghost use Rattle.tb_submit.specs.clauses.Ends.{end_origin, origin_of};
ghost use Rattle.tb_core.specs.claim.Ledger.{new_ledger};
ghost use Rattle.tb_pipe_tests.specs.inside.Together.{AreTogether, IsRun};

use super::{
    Ends, answer_to, assert_entries, assert_report, assert_run, end_all, end_control, finish_lone,
    finish_started, open_lone, opened, queue, queue_pulse,
};
use std::alloc::Global;
use std::process::Abort;
use std::sync::Wait;
use std::thread::Threads;
use std::time::Clock;
use tb_layout::CREATE_ACCOUNTS;
use tb_pipe::{Gate, Open, Opened, Report};
use tb_submit::{Control, Submitter};
use tb_test_makers::{OutcomeKind, SIX_PLACES, check};
use tb_work::Refusal;

/// What is queued ahead of the control's end.
#[derive(Clone, Copy)]
pub(super) enum Step {
    /// A packet of an operation with one account, or without events if the id is 0.
    Packet(u8, u8),
    /// A pulse with its moment.
    Pulse(u64),
}

/// Queues packets by the submitter and pulses by the control, step by step.
fn queue_steps<R: Wait + Clock + Abort>(
    rt: &R,
    alloc: Global,
    submitter: &mut Submitter,
    control: &mut Control,
    steps: &[Step],
)
    ensures submitter { origin_of submitter.new ≡ origin_of submitter.old }
    ensures control { control.new.seat ≡ control.old.seat }
{
    for step in steps {
        match *step {
            Step::Packet(operation, id) => queue(rt, alloc, submitter, operation, id),
            Step::Pulse(moment) => queue_pulse(rt, control, moment),
        }
    }
}

/// Queues steps, then the control's end or its Close, and then accounts, each in a packet of its own. Serves them.
pub(super) fn run_queued<R: Threads + Wait + Clock + Sync + Abort, G: Gate>(
    rt: &R,
    alloc: Global,
    steps: &[Step],
    shut: bool,
    remainder: &[u8],
    gate: &G,
) -> Report
    ensures { IsRun (new_ledger 0) 4 1 result.ledger result.ends.items }
{
    let mut lone = open_lone(rt, alloc, 4, 64, 64);
    queue_steps(rt, alloc, &mut lone.submitter, &mut lone.control, steps);
    finish_lone(rt, alloc, lone, shut, remainder, gate)
}

const TWO_AND_FOUR: [Step; 7] = [
    Step::Packet(CREATE_ACCOUNTS, 1),
    Step::Packet(CREATE_ACCOUNTS, 2),
    Step::Pulse(5),
    Step::Packet(CREATE_ACCOUNTS, 3),
    Step::Packet(CREATE_ACCOUNTS, 4),
    Step::Packet(CREATE_ACCOUNTS, 5),
    Step::Packet(CREATE_ACCOUNTS, 6),
];

/// Two packets are joined before the pulse, and four after it.
#[test]
fn pulse_between_batches(rt: HostRuntime) {
    for shut in [false, true] {
        let report = run_queued(&rt, rt.alloc(), &TWO_AND_FOUR, shut, &[], &Open);
        assert_entries(&rt, &report, &[2, 0, 4]);
        assert_run(&rt, report, 9, &SIX_PLACES);
    }
}

#[test]
fn packet_behind_shut(rt: HostRuntime) {
    let ahead = [Step::Packet(CREATE_ACCOUNTS, 1)];
    let report = run_queued(&rt, rt.alloc(), &ahead, true, &[2], &Open);
    check!(&rt; report.ledger.machine().accounts() == 1);
    assert_run(
        &rt,
        report,
        1,
        &[OutcomeKind::Committed(0), OutcomeKind::Shutdown],
    );
}

const SIX_IDS: [u8; 6] = [1, 2, 3, 4, 5, 6];

const SIX: [Step; 6] = [
    Step::Packet(CREATE_ACCOUNTS, 1),
    Step::Packet(CREATE_ACCOUNTS, 2),
    Step::Packet(CREATE_ACCOUNTS, 3),
    Step::Packet(CREATE_ACCOUNTS, 4),
    Step::Packet(CREATE_ACCOUNTS, 5),
    Step::Packet(CREATE_ACCOUNTS, 6),
];

/// Runs six packets, of which this number is ahead of the Close.
fn closes_after<R: Threads + Wait + Clock + Sync + Abort>(
    rt: &R,
    alloc: Global,
    count: usize,
) -> Report {
    check!(rt; count <= 6);
    run_queued(rt, alloc, &SIX[..count], true, &SIX_IDS[count..], &Open)
}

/// Returns the replies if this number of six packets is ahead of the Close.
fn kinds_if_ahead(count: usize) -> [OutcomeKind; 6] {
    let mut kinds = [OutcomeKind::Shutdown; 6];
    for k in 0..6usize {
        if k < count {
            kinds[k] = OutcomeKind::Committed(k as u64);
        }
    }
    kinds
}

#[test]
fn close_anywhere(rt: HostRuntime) {
    for count in 0..7usize {
        let report = closes_after(&rt, rt.alloc(), count);
        assert_run(&rt, report, count as u64, &kinds_if_ahead(count));
    }
}

/// Submits four packets, and sees before each how many are in flight.
fn submit_four<R: Wait + Clock + Abort>(rt: &R, alloc: Global, submitter: &mut Submitter)
    ensures { origin_of submitter.new ≡ origin_of submitter.old }
{
    for (in_flight, wanted) in [
        (0, Ok(0)),
        (1, Ok(1)),
        (2, Ok(2)),
        (3, Err(Refusal::InFlight)),
    ] {
        check!(rt; submitter.in_flight() == in_flight);
        let answer = answer_to(rt, alloc, submitter, CREATE_ACCOUNTS, 1);
        check!(rt; answer == wanted);
    }
}

fn three_unread<R: Threads + Wait + Clock + Sync + Abort>(rt: &R, alloc: Global) -> Report
    ensures { IsRun (new_ledger 0) 4 1 result.ledger result.ends.items }
{
    let mut lone = open_lone(rt, alloc, 4, 8, 3);
    submit_four(rt, alloc, &mut lone.submitter);
    finish_lone(rt, alloc, lone, false, &[], &Open)
}

#[test]
fn replies_after_settle(rt: HostRuntime) {
    let report = three_unread(&rt, rt.alloc());
    let kinds = [
        OutcomeKind::Committed(0),
        OutcomeKind::Committed(1),
        OutcomeKind::Committed(2),
    ];
    assert_run(&rt, report, 3, &kinds);
}

/// Has each submitter queue a packet with the account after its number, and returns them.
fn queue_each<R: Wait + Clock + Abort>(
    rt: &R,
    alloc: Global,
    submitters: Vec<Submitter>,
) -> Vec<Submitter>
    ensures { map origin_of result.items ≡ map origin_of submitters.items }
{
    let mut after = Vec::new(alloc);
    let mut id = 1u8;
    for mut submitter in submitters {
        queue(rt, alloc, &mut submitter, CREATE_ACCOUNTS, id);
        id = id.wrapping_add(1);
        after.push(submitter).expect(rt, "memory");
    }
    after
}

/// Ends the control, has each submitter queue a packet, and ends them all.
fn end_each<R: Wait + Clock + Abort>(
    rt: &R,
    alloc: Global,
    submitters: Vec<Submitter>,
    control: Control,
) -> Ends
    ensures own { map end_origin result.submitters.items ≡ map origin_of submitters.items }
    ensures control { result.control.seat ≡ control.seat }
{
    let submitters = queue_each(rt, alloc, submitters);
    let control = end_control(rt, control, false);
    let submitters = end_all(rt, alloc, submitters);
    Ends {
        submitters,
        control,
    }
}

/// Has each submitter queue a packet and end, and serves them.
fn finish_each<R: Threads + Wait + Clock + Sync + Abort>(
    rt: &R,
    alloc: Global,
    opened: Opened,
) -> Report
    requires { AreTogether opened.pipeline opened.submitters.items opened.control }
    ensures { IsRun opened.pipeline.start opened.pipeline.intake.limit opened.pipeline.intake.submitters
        result.ledger result.ends.items }
{
    let ends = end_each(rt, alloc, opened.submitters, opened.control);
    finish_started(rt, opened.pipeline, ends, &Open)
}

fn one_of_each<R: Threads + Wait + Clock + Sync + Abort>(rt: &R, alloc: Global) -> Report
    ensures { IsRun (new_ledger 0) 4 16 result.ledger result.ends.items }
{
    match opened(alloc, 4, 64, 64, 16) {
        Ok(opened) => finish_each(rt, alloc, opened),
        Err(_) => rt.panic("it isn't opened"),
    }
}

/// Four batches of four packets, and a reply to each submitter.
#[test]
fn sixteen_submitters(rt: HostRuntime) {
    let mut report = one_of_each(&rt, rt.alloc());
    assert_entries(&rt, &report, &[4, 4, 4, 4]);
    for sender in 0..16u8 {
        let kinds = [OutcomeKind::Committed(u64::from(sender))];
        assert_report(&rt, &mut report, 16, usize::from(sender), &kinds);
    }
    drop(report);
}
