//! What is tried with each allocation refused in turn, by `tools/gate/refuse-each-growth`. Which allocation is refused
//! differs from run to run, since the stages and the test itself allocate at once: so the tests look only at the
//! replies, and ask again for what they need themselves.

ghost use Rattle.std.specs.Prelude.{◌≡◌, ◌++◌, ◌∷◌, [], map};
ghost use Rattle.tb_submit.specs.clauses.Ends.{control_seat, end_origin, origin_of};

use super::driven::{Course, Driving, Saw, driving_of, opened_driving, run};
use super::gates::Counted;
use super::{
    Ends, clock, end_control, end_one, finish, next_kind, opened, packet_of, queue_pulse, submit,
};
use std::alloc::Global;
use std::process::Abort;
use std::sync::Wait;
use std::thread::Threads;
use std::time::Clock;
use tb_layout::CREATE_ACCOUNTS;
use tb_pipe::{Open, Report};
use tb_submit::{Control, Intake, Submitter};
use tb_test_makers::{OutcomeKind, check};
use tb_work::{Item, Refusal, Ticket};

/// Returns a pipeline of one submitter, opened again if memory ran out, and whether it did.
fn open_again<R: Wait + Clock + Abort>(rt: &R, alloc: Global) -> (Driving, bool)
    ensures own { map end_origin result.0.ends.items ++ origin_of result.0.last ∷ [] ≡ result.0.pipeline.submitters }
    ensures control { result.0.control.seat ≡ control_seat result.0.pipeline.intake }
{
    match opened(alloc, 4, 64, 64, 1) {
        Ok(opened) => (driving_of(rt, alloc, opened), false),
        Err(refusal) => {
            check!(rt; refusal == Refusal::NoMemory);
            (opened_driving(rt, alloc, 64, 64, 1), true)
        }
    }
}

/// Submits a packet with this account. It takes no memory, since the room for one failure is in the job.
fn submit_account<R: Wait + Clock + Abort>(rt: &R, alloc: Global, submitter: &mut Submitter, id: u8)
    ensures { origin_of submitter.new ≡ origin_of submitter.old }
{
    let packet = match packet_of(alloc, CREATE_ACCOUNTS, id) {
        Ok(packet) => packet,
        Err(_) => packet_of(alloc, CREATE_ACCOUNTS, id).expect(rt, "memory"),
    };
    check!(rt; submit(rt, alloc, submitter, packet).is_ok());
}

/// Queues two accounts, a pulse, and four accounts, each in its packet.
fn queue_seven<R: Wait + Clock + Abort>(
    rt: &R,
    alloc: Global,
    submitter: &mut Submitter,
    control: &mut Control,
)
    ensures submitter { origin_of submitter.new ≡ origin_of submitter.old }
    ensures control { control.new.seat ≡ control.old.seat }
{
    for id in 1..7u8 {
        if id == 3 {
            queue_pulse(rt, control, 5);
        }
        submit_account(rt, alloc, submitter, id);
    }
}

/// Ends both, and serves: the report, or the intake if a thread couldn't be started. There is room for the end.
fn serve_seven<R: Threads + Wait + Clock + Sync + Abort>(
    rt: &R,
    driving: Driving,
) -> Result<Report, (Intake, Refusal)>
    requires own { map end_origin driving.ends.items ++ origin_of driving.last ∷ [] ≡ driving.pipeline.submitters }
    requires control { driving.control.seat ≡ control_seat driving.pipeline.intake }
{
    let Driving {
        pipeline,
        ends,
        last,
        control,
    } = driving;
    let control = end_control(rt, control, false);
    let mut submitters = ends;
    end_one(rt, &mut submitters, last);
    let ends = Ends {
        submitters,
        control,
    };
    finish(rt, pipeline, ends, &Open)
}

/// What a ticket says: a packet with its number, or a pulse with its moment.
#[derive(Clone, Copy, PartialEq, Eq)]
enum ParsedScript {
    Packet(u64),
    Pulse(u64),
    End,
    Close,
}

fn said_by(ticket: &Ticket) -> (u32, ParsedScript) {
    let said = match &ticket.item {
        Item::Packet(job) => ParsedScript::Packet(job.stub().number),
        Item::Pulse(moment) => ParsedScript::Pulse(moment.get()),
        Item::End => ParsedScript::End,
        Item::Close => ParsedScript::Close,
    };
    (ticket.sender, said)
}

/// Returns the first ten tickets of a queue, each with its sender.
fn ten_tickets<R: Wait + Clock>(rt: &R, intake: &mut Intake) -> [Option<(u32, ParsedScript)>; 10] {
    let mut tickets = [None; 10];
    for k in 0..10usize {
        if let Some(ticket) = intake.take(rt) {
            tickets[k] = Some(said_by(&ticket));
            drop(ticket);
        }
    }
    tickets
}

/// Returns the first seven replies to submitter 0.
fn seven_replies(report: &mut Report) -> [Option<OutcomeKind>; 7] {
    let mut replies = [None; 7];
    if let Some(ended) = report.ends.get_mut(0) {
        for k in 0..7usize {
            replies[k] = next_kind(ended);
        }
    }
    replies
}

/// Returns the replies to the six packets of the seven items, if this number is committed.
fn replies_where(committed: u64) -> [Option<OutcomeKind>; 7] {
    let mut replies = [None; 7];
    let places = [0, 1, 3, 4, 5, 6];
    for k in 0..6usize {
        replies[k] = Some(if places[k] < committed {
            OutcomeKind::Committed(places[k])
        } else {
            OutcomeKind::Stopped
        });
    }
    replies
}

/// The clock if this number of the seven items is committed.
const CLOCKS: [u64; 8] = [0, 1, 2, 5, 6, 7, 8, 9];

/// Asserts that some of the seven items are committed, and all of them unless a stop was reported.
fn assert_seven(rt: &impl Abort, report: &mut Report, was_refused: bool) {
    let committed = report.ledger.places();
    check!(rt; committed < 7 && !was_refused || committed == 7);
    check!(rt; clock(report) == CLOCKS[committed as usize]);
    check!(rt; seven_replies(report) == replies_where(committed));
}

/// Asserts that a thread couldn't be started, and the intake has all that was queued.
fn assert_none_taken<R: Wait + Clock + Abort>(rt: &R, intake: &mut Intake, refusal: Refusal) {
    check!(rt; refusal == Refusal::NoThread);
    check!(rt; ten_tickets(rt, intake) == ALL_TICKETS);
}

/// Serves everything queued, and compares the results.
fn assert_each_growth<R: Threads + Wait + Clock + Sync + Abort>(
    rt: &R,
    driving: Driving,
    was_refused: bool,
)
    requires own { map end_origin driving.ends.items ++ origin_of driving.last ∷ [] ≡ driving.pipeline.submitters }
    requires control { driving.control.seat ≡ control_seat driving.pipeline.intake }
{
    match serve_seven(rt, driving) {
        Ok(mut report) => {
            assert_seven(rt, &mut report, was_refused);
            drop(report);
        }
        Err((mut intake, refusal)) => {
            assert_none_taken(rt, &mut intake, refusal);
            drop(intake);
        }
    }
}

#[test]
fn each_growth_refused_memory(rt: HostRuntime) {
    let (mut driving, was_refused) = open_again(&rt, rt.alloc());
    queue_seven(&rt, rt.alloc(), &mut driving.last, &mut driving.control);
    assert_each_growth(&rt, driving, was_refused);
}

/// The tickets of the seven items and of both ends, in order, and nothing after them.
const ALL_TICKETS: [Option<(u32, ParsedScript)>; 10] = [
    Some((0, ParsedScript::Packet(0))),
    Some((0, ParsedScript::Packet(1))),
    Some((1, ParsedScript::Pulse(5))),
    Some((0, ParsedScript::Packet(2))),
    Some((0, ParsedScript::Packet(3))),
    Some((0, ParsedScript::Packet(4))),
    Some((0, ParsedScript::Packet(5))),
    Some((1, ParsedScript::End)),
    Some((0, ParsedScript::End)),
    None,
];

/// Queues two accounts, each in its packet, and a pulse.
fn queue_three<R: Wait + Clock + Abort>(
    rt: &R,
    alloc: Global,
    submitter: &mut Submitter,
    control: &mut Control,
)
    ensures submitter { origin_of submitter.new ≡ origin_of submitter.old }
    ensures control { control.new.seat ≡ control.old.seat }
{
    submit_account(rt, alloc, submitter, 1);
    submit_account(rt, alloc, submitter, 2);
    queue_pulse(rt, control, 5);
}

/// Drives what is queued. If the first commit is refused the journal stays empty, and the submitter learns it twice,
/// and then by a refusal.
fn assert_first_commit<R: Threads + Wait + Clock + Sync + Abort + Print>(
    rt: &R,
    alloc: Global,
    driving: Driving,
)
    requires own { map end_origin driving.ends.items ++ origin_of driving.last ∷ [] ≡ driving.pipeline.submitters }
    requires control { driving.control.seat ≡ control_seat driving.pipeline.intake }
{
    match run(rt, alloc, driving, Course::ReadTwo, &Counted::new(u64::MAX)) {
        Ok((report, saw)) => {
            if report.ledger.places() == 0 {
                check!(rt; saw == ALL_STOPPED && clock(&report) == 0);
                let _ = println!(rt; "the first commit is refused");
            }
            drop(report);
        }
        Err(refusal) => check!(rt; refusal == Refusal::NoThread),
    }
}

/// `tools/gate/refuse-each-growth` counts the lines that this prints: some allocation is the first commit's.
#[test]
fn first_commit_refused_memory(rt: HostRuntime) {
    let (mut driving, _) = open_again(&rt, rt.alloc());
    queue_three(&rt, rt.alloc(), &mut driving.last, &mut driving.control);
    assert_first_commit(&rt, rt.alloc(), driving);
}

const ALL_STOPPED: Saw = Saw::Replies(
    Some(OutcomeKind::Stopped),
    Some(OutcomeKind::Stopped),
    Some(Refusal::Stopped),
);
