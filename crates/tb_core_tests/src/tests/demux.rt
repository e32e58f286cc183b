//! The worked example by name, and each outcome once.

ghost use Rattle.std.specs.Prelude.{◌≡◌, not, true, length};
ghost use Rattle.std.specs.List.{list_all};
ghost use Rattle.tb_work.specs.claim.Admission.{count_of};
ghost use Rattle.tb_work.specs.claim.Job.{count_of_all, is_lookup};

use super::{failures_at, packet_of};
use crate::tests::must;
use std::alloc::Global;
use std::process::Abort;
use tb_demux::Cutter;
use tb_layout::{CREATE_ACCOUNTS, Failure, LOOKUP_ACCOUNTS, read_account};
use tb_work::{Accounts, Answer, Failures, Job, Outcome, Reply};

/// Returns what packets say of the submitter that queued them.
fn user_word_of(submitter: u32) -> u64 {
    40 + u64::from(submitter)
}

/// Returns a submitter's packet of `count` events of zeros; no event is linked.
fn job_of(
    rt: &(impl Abort + Alloc<A = Global>),
    submitter: u32,
    operation: u8,
    count: u32,
    event_size: usize,
) -> Job
    ensures operation { result.packet.operation ≡ operation }
    ensures count { count_of result.packet ≡ count }
{
    let mut packet = packet_of(rt, operation, event_size.saturating_mul(count as usize));
    packet.user = user_word_of(submitter);
    let job = Job::new(rt.alloc(), submitter, 0, 4, packet)
        .ok()
        .expect(rt, "the packet is admitted");
    must(rt, job.stub().count == count);
    job
}

/// Returns two packets of two accounts, of submitters 0 and 1.
fn two_jobs(rt: &(impl Abort + Alloc<A = Global>)) -> Vec<Job>
    ensures number { length result.items ≡ 2 }
    ensures events { count_of_all result.items ≡ 4 }
    ensures no_lookup { list_all (λ job. not (is_lookup job.packet)) result.items ≡ true }
{
    let mut jobs = Vec::new(rt.alloc());
    jobs.push(job_of(rt, 0, CREATE_ACCOUNTS, 2, 128))
        .expect(rt, "memory");
    jobs.push(job_of(rt, 1, CREATE_ACCOUNTS, 2, 128))
        .expect(rt, "memory");
    jobs
}

/// Returns how many accounts were found by a lookup that was committed at a place.
fn found_at(outcome: &Outcome, at: u64) -> Option<usize> {
    match outcome {
        Outcome::Committed {
            place,
            answer: Answer::Accounts(accounts),
        } if *place == at => Some(accounts.as_slice().len()),
        _ => None,
    }
}

/// Returns the next reply, which is to this submitter's packet.
fn next_of(rt: &impl Abort, cutter: &mut Cutter, submitter: u32) -> Reply {
    let reply = cutter.next().expect(rt, "a reply is left");
    must(rt, reply.submitter == submitter);
    must(rt, reply.packet.user == user_word_of(submitter));
    reply
}

/// Returns the replies to two packets, of which the second has two failures.
fn failing(rt: &(impl Abort + Alloc<A = Global>)) -> Cutter {
    let mut failures = Vec::new(rt.alloc());
    let first = Failure { index: 2, code: 21 };
    failures.push(first).expect(rt, "memory");
    let second = Failure { index: 3, code: 13 };
    failures.push(second).expect(rt, "memory");
    let answer = Answer::Failures(Failures::from_vec(failures));
    Cutter::new(two_jobs(rt), Outcome::Committed { place: 0, answer })
}

/// Asserts that the next reply is to a submitter's packet, which was committed at a place with these failures.
fn assert_failures(
    rt: &impl Abort,
    cutter: &mut Cutter,
    submitter: u32,
    place: u64,
    own: &[Failure],
) {
    let reply = next_of(rt, cutter, submitter);
    must(rt, failures_at(&reply.outcome, place) == Some(own));
    drop(reply);
}

/// The failures of the second packet, counted from its own first event.
const OWN: [Failure; 2] = [
    Failure { index: 0, code: 21 },
    Failure { index: 1, code: 13 },
];

/// Asserts that no reply is left.
fn assert_no_more(rt: &impl Abort, cutter: &mut Cutter) {
    must(rt, cutter.next().is_none());
}

#[test]
fn two_submitters_joined(rt: HostRuntime) {
    let mut cutter = failing(&rt);
    assert_failures(&rt, &mut cutter, 0, 0, &[]);
    assert_failures(&rt, &mut cutter, 1, 1, &OWN);
    assert_no_more(&rt, &mut cutter);
    assert_no_more(&rt, &mut cutter);
    drop(cutter);
}

/// Asserts that the next reply is to a submitter's packet, which was stopped.
fn assert_stopped(rt: &impl Abort, cutter: &mut Cutter, submitter: u32) {
    let reply = next_of(rt, cutter, submitter);
    must(rt, matches!(&reply.outcome, Outcome::Stopped));
    drop(reply);
}

#[test]
fn packets_that_were_stopped(rt: HostRuntime) {
    let mut cutter = Cutter::new(two_jobs(&rt), Outcome::Stopped);
    for submitter in 0..2 {
        assert_stopped(&rt, &mut cutter, submitter);
    }
    assert_no_more(&rt, &mut cutter);
    drop(cutter);
}

#[test]
fn packets_behind_the_close(rt: HostRuntime) {
    let mut cutter = Cutter::new(two_jobs(&rt), Outcome::Shutdown);
    let reply = next_of(&rt, &mut cutter, 0);
    must(&rt, matches!(&reply.outcome, Outcome::Shutdown));
    drop(reply);
    drop(cutter);
}

/// Returns the reply to a lookup that finds an account.
fn finding(rt: &(impl Abort + Alloc<A = Global>)) -> Cutter {
    let mut jobs = Vec::new(rt.alloc());
    jobs.push(job_of(rt, 1, LOOKUP_ACCOUNTS, 1, 16))
        .expect(rt, "memory");
    let mut found = Vec::new(rt.alloc());
    found.push(read_account(&[1; 128])).expect(rt, "memory");
    let answer = Answer::Accounts(Accounts::from_vec(found));
    Cutter::new(jobs, Outcome::Committed { place: 5, answer })
}

/// Asserts that the next reply is that of the lookup.
fn assert_found(rt: &impl Abort, cutter: &mut Cutter) {
    let reply = next_of(rt, cutter, 1);
    must(rt, found_at(&reply.outcome, 5) == Some(1));
    drop(reply);
}

#[test]
fn a_lookup_whole(rt: HostRuntime) {
    let mut cutter = finding(&rt);
    assert_found(&rt, &mut cutter);
    assert_no_more(&rt, &mut cutter);
    drop(cutter);
}
