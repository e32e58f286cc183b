use crate::tests::made::packet_of_accounts;
use crate::tests::{failures_at, must, packet_of};
use std::alloc::Global;
use std::process::Abort;
use tb_layout::{Account, Failure};
use tb_test_makers::account;
use tb_work::{
    Accounts, Answer, Bytes, Failures, Item, Job, Moment, Outcome, Packet, Refusal, Reply, Stub,
    Ticket,
};

/// Returns the job of a packet of submitter 3, with ample memory.
fn job_of(rt: &(impl Abort + Alloc<A = Global>), number: u64, packet: Packet) -> Job {
    let made = Job::new(rt.alloc(), 3, number, 4, packet);
    made.ok().expect(rt, "a job")
}

fn is_open(rt: &(impl Abort + Alloc<A = Global>), packet: Packet) -> bool {
    job_of(rt, 6, packet).is_open()
}

/// Asserts what the job of two accounts says, the second of which is linked, and returns its packet.
fn packet_in(rt: &(impl Abort + Alloc<A = Global>)) -> Packet {
    let job = job_of(rt, 5, packet_of_accounts(rt, &[(1, 0), (2, 1)]));
    let stub = Stub {
        submitter: 3,
        number: 5,
        count: 2,
    };
    must(rt, job.stub() == stub);
    must(rt, job.is_open());
    must(rt, job.packet().user == 7);
    job.into_packet()
}

#[test]
fn a_job_and_its_packet(rt: HostRuntime) {
    let packet = packet_in(&rt);
    must(&rt, packet.bytes.as_slice().len() == 256);
    must(&rt, packet.bytes.into_vec().len() == 256);
    must(
        &rt,
        !is_open(&rt, packet_of_accounts(&rt, &[(1, 1), (2, 0)])),
    );
    must(&rt, !is_open(&rt, packet_of(&rt, 129, 0)));
}

#[test]
fn a_refused_packet_comes_back(rt: HostRuntime) {
    let answer = Job::new(rt.alloc(), 0, 0, 4, packet_of(&rt, 129, 640));
    let (packet, refusal) = answer.err().expect(&rt, "a refusal");
    must(&rt, refusal == Refusal::TooMuchData);
    must(
        &rt,
        packet.user == 7 && packet.bytes.as_slice().len() == 640,
    );
    drop(packet);
}

/// Returns the accounts that were found by a lookup.
fn found(outcome: &Outcome) -> Option<&[Account]> {
    match outcome {
        Outcome::Committed {
            place: _,
            answer: Answer::Accounts(accounts),
        } => Some(accounts.as_slice()),
        _ => None,
    }
}

/// Returns the reply to a packet of two accounts that was committed behind two others; its second account failed.
fn committed(rt: &(impl Abort + Alloc<A = Global>)) -> Reply {
    let job = job_of(rt, 5, packet_of_accounts(rt, &[(1, 0), (2, 0)]));
    must(rt, job.packet().operation == 129);
    must(rt, job.stub().count == 2);
    Reply::committed(job, 9, &[Failure { index: 3, code: 13 }], 2)
}

fn assert_committed(rt: &impl Abort, reply: &Reply) {
    must(
        rt,
        reply.submitter == 3 && reply.number == 5 && reply.packet.user == 7,
    );
    let own = [Failure { index: 1, code: 13 }];
    must(rt, failures_at(&reply.outcome, 9) == Some(own.as_slice()));
}

#[test]
fn a_committed_reply(rt: HostRuntime) {
    let reply = committed(&rt);
    assert_committed(&rt, &reply);
    drop(reply);
}

#[test]
fn a_stopped_reply(rt: HostRuntime) {
    let reply = Reply::of(job_of(&rt, 5, packet_of(&rt, 129, 0)), Outcome::Stopped);
    must(&rt, matches!(&reply.outcome, Outcome::Stopped));
    drop(reply);
}

/// Returns the reply to a lookup of an id that finds an account.
fn reply_to_a_lookup(rt: &(impl Abort + Alloc<A = Global>)) -> Reply {
    let job = job_of(rt, 6, packet_of(rt, 131, 16));
    must(rt, job.packet().operation == 131);
    must(rt, job.stub().count == 1);
    let mut accounts = Vec::new(rt.alloc());
    accounts.push(account(1, 0)).expect(rt, "memory");
    let answer = Answer::Accounts(Accounts::from_vec(accounts));
    Reply::of(job, Outcome::Committed { place: 0, answer })
}

#[test]
fn a_lookups_reply(rt: HostRuntime) {
    let reply = reply_to_a_lookup(&rt);
    must(
        &rt,
        found(&reply.outcome) == Some([account(1, 0)].as_slice()),
    );
    drop(reply);
}

fn assert_ticket(rt: &(impl Abort + Alloc<A = Global>)) {
    let item = Item::Packet(job_of(rt, 5, packet_of(rt, 129, 0)));
    let ticket = Ticket { sender: 3, item };
    must(rt, matches!(&ticket.item, Item::Packet(_)));
    drop(ticket);
}

fn assert_pulse(rt: &impl Abort) {
    let pulse = Item::Pulse(Moment::new(4_611_686_018_427_387_904));
    must(
        rt,
        matches!(&pulse, Item::Pulse(moment) if moment.get() == 4_611_686_018_427_387_904),
    );
    drop(pulse);
}

#[test]
fn tickets(rt: HostRuntime) {
    assert_ticket(&rt);
    assert_pulse(&rt);
    let none = Failures::from_vec(Vec::new(rt.alloc()));
    must(&rt, none.as_slice().is_empty());
    must(
        &rt,
        Bytes::from_vec(Vec::new(rt.alloc())).as_slice().is_empty(),
    );
}
