//! The pipeline: worked examples by name, the gate's calls, threads, and memory that is refused.
//!
//! The helpers give up if something fails that isn't looked at, instead of returning it: at each way out of a function
//! everything that it owns is freed, and a proof treats each part of it. So a report is dropped by name too. Only what
//! is tried with refused memory returns the refusal.

ghost use Rattle.std.specs.Prelude.{◌≡◌, ◌++◌, ◌∷◌, [], IfOk, length, map};
ghost use Rattle.tb_submit.specs.clauses.Ends.{origin_of, end_origin, control_seat};
ghost use Rattle.tb_pipe_tests.specs.inside.Together.{AreTogether, IsOpenedAs, IsRun};

use std::alloc::{AllocError, Global};
use std::process::Abort;
use std::sync::Wait;
use std::thread::Threads;
use std::time::Clock;
use tb_core::Entry;
use tb_layout::{CREATE_ACCOUNTS, NoMemory};
use tb_pipe::{Gate, Opened, Options, Pipeline, Report, settle};
use tb_submit::{Control, ControlEnd, Ended, Intake, Submitter};
use tb_test_makers::{OutcomeKind, account, accounts_packet, check, kind_of};
use tb_work::{Outcome, Packet, Refusal, Reply};

mod ahead;
mod beside;
mod blocked;
mod clients;
mod controls;
mod days;
mod driven;
mod figures;
mod gates;
mod idle;
mod joined;
mod many;
mod memory;
mod narrow;
mod openings;
mod queued;
mod reply;
mod retries;
mod stops;

/// How often a test gives way before it gives up.
const MOST_TURNS: u32 = 1_000_000;

/// Returns a packet of accounts with this one account, or without events if the id is 0. The user word is the id.
fn packet_of(alloc: Global, operation: u8, id: u8) -> Result<Packet, NoMemory> {
    let accounts = [account(u128::from(id), 0)];
    let mut packet = accounts_packet(alloc, &accounts[usize::from(id == 0)..])?;
    packet.operation = operation;
    packet.user = u64::from(id);
    Ok(packet)
}

/// Returns what a packet is known by: its operation, how many bytes it has, and its user word.
fn look_of(packet: &Packet) -> (u8, usize, u64) {
    (packet.operation, packet.bytes.as_slice().len(), packet.user)
}

/// Returns the outcome of a reply's packet, and frees the reply.
fn outcome_kind(reply: Reply) -> OutcomeKind {
    let kind = kind_of(&reply);
    drop(reply);
    kind
}

/// Returns a pipeline whose clock starts at 0.
fn opened(
    alloc: Global,
    limit: u32,
    capacity: u32,
    credit: u32,
    submitters: u32,
) -> Result<Opened, Refusal>
    ensures together { IfOk result (λ opened. AreTogether opened.pipeline opened.submitters.items opened.control) }
    ensures as_asked { IfOk result (λ opened. IsOpenedAs 0 limit submitters opened.pipeline) }
    ensures number { IfOk result (λ opened. length opened.pipeline.submitters ≡ submitters) }
{
    let options = Options {
        clock: 0,
        limit,
        capacity,
        credit,
        submitters,
    };
    options.open(alloc)
}

/// A pipeline with its one submitter and its control.
#[derive(Drop)]
struct Lone {
    pipeline: Pipeline,
    submitter: Submitter,
    control: Control,
}

/// Returns the parts of a pipeline that was opened for one submitter.
fn lone_of(opened: Opened) -> Lone
    requires { length opened.submitters.items ≡ 1 }
    ensures { (result.pipeline ≡ opened.pipeline) × (result.submitter ∷ [] ≡ opened.submitters.items)
        × (result.control ≡ opened.control) }
{
    let mut opened = opened;
    let Some(submitter) = opened.submitters.pop() else {
        unreachable!()
    };
    Lone {
        pipeline: opened.pipeline,
        submitter,
        control: opened.control,
    }
}

/// Returns a pipeline of one submitter, with clock 0.
fn open_lone(rt: &impl Abort, alloc: Global, limit: u32, capacity: u32, credit: u32) -> Lone
    ensures together { AreTogether result.pipeline (result.submitter ∷ []) result.control }
    ensures as_asked { IsOpenedAs 0 limit 1 result.pipeline }
{
    lone_of(opened(alloc, limit, capacity, credit, 1).expect(rt, "it is opened"))
}

/// Submits a packet: its number. If it is refused it comes back.
fn submit<R: Wait + Clock + Abort>(
    rt: &R,
    alloc: Global,
    submitter: &mut Submitter,
    packet: Packet,
) -> Result<u64, (Packet, Refusal)>
    ensures { origin_of submitter.new ≡ origin_of submitter.old }
{
    check!(rt; submitter.queued() < 1 << 56);
    submitter.submit(rt, alloc, packet)
}

/// Returns the answer to a packet of an operation with one account: its number, or why it is refused.
fn answer_to<R: Wait + Clock + Abort>(
    rt: &R,
    alloc: Global,
    submitter: &mut Submitter,
    operation: u8,
    id: u8,
) -> Result<u64, Refusal>
    ensures { origin_of submitter.new ≡ origin_of submitter.old }
{
    let packet = packet_of(alloc, operation, id).expect(rt, "memory");
    match submit(rt, alloc, submitter, packet) {
        Ok(number) => Ok(number),
        Err((packet, refusal)) => {
            drop(packet);
            Err(refusal)
        }
    }
}

/// Queues a packet of an operation with one account, or without events if the id is 0.
fn queue<R: Wait + Clock + Abort>(
    rt: &R,
    alloc: Global,
    submitter: &mut Submitter,
    operation: u8,
    id: u8,
)
    ensures { origin_of submitter.new ≡ origin_of submitter.old }
{
    check!(rt; answer_to(rt, alloc, submitter, operation, id).is_ok());
}

fn queue_pulse<R: Wait + Clock + Abort>(rt: &R, control: &mut Control, moment: u64)
    ensures { control.new.seat ≡ control.old.seat }
{
    check!(rt; control.queued() < 1 << 56);
    check!(rt; control.pulse(rt, moment).is_ok());
}

fn end_control<R: Wait + Clock + Abort>(rt: &R, control: Control, shut: bool) -> ControlEnd
    ensures { result.seat ≡ control.seat }
{
    let ended = if shut {
        control.shut(rt)
    } else {
        control.end(rt)
    };
    ended.ok().expect(rt, "there is a place for the end")
}

/// Returns capacity for an end of each of up to 16 submitters, asked for again if it is refused.
fn room_for_ends(alloc: Global) -> Result<Vec<Ended>, AllocError>
    ensures { IfOk result (λ ends. ends.items ≡ []) }
{
    match Vec::with_capacity(alloc, 16) {
        Ok(ends) => Ok(ends),
        Err(_) => Vec::with_capacity(alloc, 16),
    }
}

/// Ends a submitter, and adds its end after the others; there is room for it.
fn end_one<R: Wait + Clock + Abort>(rt: &R, ends: &mut Vec<Ended>, submitter: Submitter)
    ensures { map end_origin ends.new.items ≡ map end_origin ends.old.items ++ origin_of submitter ∷ [] }
{
    let ended = submitter
        .end(rt)
        .ok()
        .expect(rt, "there is a place for the end");
    put(rt, ends, ended);
}

fn put(rt: &impl Abort, ends: &mut Vec<Ended>, ended: Ended)
    ensures { ends.new.items ≡ ends.old.items ++ ended ∷ [] }
{
    ends.push(ended).expect(rt, "there is room");
}

fn end_all<R: Wait + Clock + Abort>(rt: &R, alloc: Global, submitters: Vec<Submitter>) -> Vec<Ended>
    ensures { map end_origin result.items ≡ map origin_of submitters.items }
{
    let mut ends = room_for_ends(alloc).expect(rt, "memory");
    for submitter in submitters {
        end_one(rt, &mut ends, submitter);
    }
    ends
}

/// Queues accounts, each in its packet.
fn queue_accounts<R: Wait + Clock + Abort>(
    rt: &R,
    alloc: Global,
    submitter: &mut Submitter,
    ids: &[u8],
)
    ensures { origin_of submitter.new ≡ origin_of submitter.old }
{
    for id in ids {
        queue(rt, alloc, submitter, CREATE_ACCOUNTS, *id);
    }
}

/// The ends of all submitters, and the control's.
#[derive(Drop)]
struct Ends {
    submitters: Vec<Ended>,
    control: ControlEnd,
}

/// Serves what is queued, once all have ended, and settles.
fn finish<R: Threads + Wait + Clock + Sync, G: Gate>(
    rt: &R,
    pipeline: Pipeline,
    ends: Ends,
    gate: &G,
) -> Result<Report, (Intake, Refusal)>
    requires own { map end_origin ends.submitters.items ≡ pipeline.submitters }
    requires control { ends.control.seat ≡ control_seat pipeline.intake }
    ensures { IfOk result (λ report. IsRun pipeline.start pipeline.intake.limit pipeline.intake.submitters
        report.ledger report.ends.items) }
{
    let served = pipeline.serve(rt, gate)?;
    Ok(settle(served, ends.submitters, ends.control))
}

/// Ends the control, queues accounts after that, ends the submitter, serves what is queued, and settles.
fn finish_lone<R: Threads + Wait + Clock + Sync + Abort, G: Gate>(
    rt: &R,
    alloc: Global,
    lone: Lone,
    shut: bool,
    remainder: &[u8],
    gate: &G,
) -> Report
    requires { AreTogether lone.pipeline (lone.submitter ∷ []) lone.control }
    ensures { IsRun lone.pipeline.start lone.pipeline.intake.limit lone.pipeline.intake.submitters
        result.ledger result.ends.items }
{
    let Lone {
        pipeline,
        mut submitter,
        control,
    } = lone;
    let control = end_control(rt, control, shut);
    queue_accounts(rt, alloc, &mut submitter, remainder);
    let mut submitters = room_for_ends(alloc).expect(rt, "memory");
    end_one(rt, &mut submitters, submitter);
    let ends = Ends {
        submitters,
        control,
    };
    finish_started(rt, pipeline, ends, gate)
}

/// Serves and settles as `finish` does, if threads can be started.
fn finish_started<R: Threads + Wait + Clock + Sync + Abort, G: Gate>(
    rt: &R,
    pipeline: Pipeline,
    ends: Ends,
    gate: &G,
) -> Report
    requires own { map end_origin ends.submitters.items ≡ pipeline.submitters }
    requires control { ends.control.seat ≡ control_seat pipeline.intake }
    ensures { IsRun pipeline.start pipeline.intake.limit pipeline.intake.submitters result.ledger result.ends.items }
{
    match finish(rt, pipeline, ends, gate) {
        Ok(report) => report,
        Err(_) => rt.panic("a thread can't be started"),
    }
}

/// Compares the clock of a run with one submitter, and its unread replies.
fn assert_run(rt: &impl Abort, report: Report, wanted_clock: u64, wanted: &[OutcomeKind]) {
    let mut report = report;
    assert_report(rt, &mut report, wanted_clock, 0, wanted);
    drop(report);
}

/// Compares a report's clock, and a submitter's unread replies.
fn assert_report(
    rt: &impl Abort,
    report: &mut Report,
    wanted_clock: u64,
    submitter: usize,
    wanted: &[OutcomeKind],
) {
    check!(rt; clock(report) == wanted_clock);
    let ended = report
        .ends
        .get_mut(submitter)
        .expect(rt, "there is such a submitter");
    for kind in wanted {
        check!(rt; next_kind(ended) == Some(*kind));
    }
    check!(rt; next_kind(ended).is_none());
}

/// Returns the place in the next unread reply of a submitter.
fn next_kind(ended: &mut Ended) -> Option<OutcomeKind> {
    let reply = ended.reply()?;
    Some(outcome_kind(reply))
}

/// Compares the number of packets of each entry of the journal, 0 for a pulse.
fn assert_entries(rt: &impl Abort, report: &Report, wanted: &[usize]) {
    let journal = report.ledger.journal();
    check!(rt; journal.len() == wanted.len());
    for (entry, packets) in journal.iter().zip(wanted) {
        check!(rt; packets_of(entry) == *packets);
    }
}

fn packets_of(entry: &Entry) -> usize {
    match entry {
        Entry::Batch {
            operation: _,
            body: _,
            stubs,
        } => stubs.len(),
        Entry::Pulse { moment: _ } => 0,
    }
}

fn clock(report: &Report) -> u64 {
    report.ledger.machine().clock()
}
