//! From opening to the content of a reply.

ghost use Rattle.std.specs.Prelude.{◌≡◌, ◌∷◌, []};
ghost use Rattle.tb_submit.specs.clauses.Ends.{end_origin, ended_with, new_control, sender_with, with_item};
ghost use Rattle.tb_work.specs.claim.Job.{numbered_packet};
ghost use Rattle.tb_work.specs.declared.item.Item.TheVariants as item;
ghost use Rattle.tb_work.specs.declared.packet.Packet.{Packet as PacketValue};
ghost use Rattle.tb_core.specs.claim.Ledger.{new_ledger};
ghost use Rattle.tb_pipe_tests.specs.inside.OnePacket.{IsReplyToOne, IsRunOfOne, one_and_end};

use super::{lone_of, look_of, put, room_for_ends};
use std::alloc::Global;
use std::process::Abort;
use std::sync::Wait;
use std::thread::Threads;
use std::time::Clock;
use tb_layout::{CREATE_ACCOUNTS, Failure};
use tb_pipe::{Open, Pipeline, Report, open, settle};
use tb_submit::{Control, ControlEnd, Ended, Submitter};
use tb_test_makers::{account, accounts_packet, check};
use tb_work::{Answer, Outcome, Packet, Reply};

/// A pipeline whose one submitter queued one packet and ended, as did the control.
#[derive(Drop)]
struct Queued {
    pipeline: Pipeline,
    ended: Ended,
    control: ControlEnd,
}

/// Queues a packet, and ends.
fn queue_and_end<R: Wait + Clock + Abort>(
    rt: &R,
    alloc: Global,
    submitter: Submitter,
    packet: Packet,
) -> Ended
    requires { submitter.queued ≡ [] }
    ensures { result ≡ ended_with (with_item submitter
        (item.Packet (numbered_packet submitter.origin.seat.number 0 packet))) item.End }
{
    let mut submitter = submitter;
    submitter
        .submit(rt, alloc, packet)
        .ok()
        .expect(rt, "the packet is queued");
    submitter
        .end(rt)
        .ok()
        .expect(rt, "there is a place for the end")
}

fn end_alone<R: Wait + Clock + Abort>(rt: &R, control: Control) -> ControlEnd
    ensures { result ≡ sender_with control item.End }
{
    control
        .end(rt)
        .ok()
        .expect(rt, "there is a place for the end")
}

/// Returns a pipeline of one submitter, with a packet queued.
fn queue_one<R: Wait + Clock + Abort>(rt: &R, alloc: Global, packet: Packet) -> Queued
    ensures own { end_origin result.ended ∷ [] ≡ result.pipeline.submitters }
    ensures control { result.control ≡ sender_with (new_control result.pipeline.intake) item.End }
    ensures opened { (result.pipeline.start ≡ new_ledger 0) × (result.pipeline.intake.submitters ≡ 1) }
    ensures queued { (result.ended.queued ≡ one_and_end packet) × (result.ended.read ≡ []) }
{
    match open(alloc, 0, 4, 64, 64, 1) {
        Ok(opened) => {
            let lone = lone_of(opened);
            let ended = queue_and_end(rt, alloc, lone.submitter, packet);
            let control = end_alone(rt, lone.control);
            Queued {
                pipeline: lone.pipeline,
                ended,
                control,
            }
        }
        Err(_) => rt.panic("it isn't opened"),
    }
}

/// Returns the ends of the submitters; there is one.
fn only_end(rt: &impl Abort, alloc: Global, ended: Ended) -> Vec<Ended>
    ensures { result.items ≡ ended ∷ [] }
{
    let mut ends = room_for_ends(alloc).expect(rt, "memory");
    put(rt, &mut ends, ended);
    ends
}

/// Serves it, and settles.
fn settle_one<R: Threads + Wait + Clock + Sync + Abort>(
    rt: &R,
    alloc: Global,
    queued: Queued,
) -> Report
    requires own { end_origin queued.ended ∷ [] ≡ queued.pipeline.submitters }
    requires control { queued.control ≡ sender_with (new_control queued.pipeline.intake) item.End }
    requires opened { (queued.pipeline.start ≡ new_ledger 0) × (queued.pipeline.intake.submitters ≡ 1) }
    ensures { (packet : PacketValue) → queued.ended.queued ≡ one_and_end packet → queued.ended.read ≡ []
        → IsRunOfOne 0 packet result.ledger result.ends.items }
{
    let ends = only_end(rt, alloc, queued.ended);
    match queued.pipeline.serve(rt, &Open) {
        Ok(served) => settle(served, ends, queued.control),
        Err(_) => rt.panic("a thread can't be started"),
    }
}

/// Returns the reply that such a run has for its submitter: there is one.
fn only_reply(report: &mut Report) -> Reply
    requires { (packet : PacketValue) × IsRunOfOne 0 packet report.old.ledger report.old.ends.items }
    ensures { (packet : PacketValue) → IsRunOfOne 0 packet report.old.ledger report.old.ends.items
        → IsReplyToOne 0 packet result }
{
    let Some(mut ended) = report.ends.pop() else {
        unreachable!()
    };
    let Some(reply) = ended.reply() else {
        unreachable!()
    };
    reply
}

/// Takes one packet from `open` to its reply. What the reply says is known only from the clauses of the calls.
fn reply_to_one<R: Threads + Wait + Clock + Sync + Abort>(
    rt: &R,
    alloc: Global,
    packet: Packet,
) -> Reply
    ensures { IsReplyToOne 0 packet result }
{
    let queued = queue_one(rt, alloc, packet);
    let mut report = settle_one(rt, alloc, queued);
    let reply = only_reply(&mut report);
    drop(report);
    reply
}

/// Returns the failures of what was committed at place 0; None for another outcome.
fn failures_at_first(outcome: &Outcome) -> Option<&[Failure]> {
    match outcome {
        Outcome::Committed {
            place: 0,
            answer: Answer::Failures(failures),
        } => Some(failures.as_slice()),
        _ => None,
    }
}

/// The second one exists already (`run_with_refusals`).
#[test]
fn reply_of_an_account_twice(rt: HostRuntime) {
    let twice = [account(1, 0), account(1, 0)];
    let packet = accounts_packet(rt.alloc(), &twice).expect(&rt, "memory");
    let reply = reply_to_one(&rt, rt.alloc(), packet);
    check!(&rt; reply.submitter == 0 && reply.number == 0);
    check!(&rt; look_of(&reply.packet) == (CREATE_ACCOUNTS, 256, 7));
    let own = [Failure { index: 1, code: 21 }];
    check!(&rt; failures_at_first(&reply.outcome) == Some(own.as_slice()));
    drop(reply);
}
