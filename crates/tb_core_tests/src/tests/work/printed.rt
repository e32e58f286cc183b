//! What packets, replies and refused packets print, which is for people.

use crate::tests::{must, packet_of};
use std::alloc::Global;
use std::fmt::{Debug, Display};
use std::process::Abort;
use tb_layout::{Account, Accounts, Failure};
use tb_test_makers::check;
use tb_work::{Job, Outcome, Packet, Refusal, Reply, SubmitError};

/// Returns what a value prints for programmers.
fn debugged<T: Debug + Drop>(rt: &(impl Abort + Alloc<A = Global>), value: T) -> String {
    format!(in rt.alloc(); "{value:?}").expect(rt, "memory")
}

/// Asserts what a value prints for programmers.
fn assert_debugged<T: Debug + Drop>(rt: &(impl Abort + Alloc<A = Global>), value: T, wanted: &str) {
    check!(rt; debugged(rt, value).as_str() == wanted, wanted);
}

/// Asserts what a value prints.
fn assert_displayed<T: Display + Drop>(
    rt: &(impl Abort + Alloc<A = Global>),
    value: T,
    wanted: &str,
) {
    let text = format!(in rt.alloc(); "{value}").expect(rt, "memory");
    check!(rt; text.as_str() == wanted, wanted);
}

/// An operation, how many bytes of data there are, and what the packet prints.
const PACKETS: [(u8, usize, &str); 4] = [
    (
        129,
        256,
        "Packet { operation: CreateAccounts, user: 7, events: 2 }",
    ),
    (
        131,
        16,
        "Packet { operation: LookupAccounts, user: 7, events: 1 }",
    ),
    (
        130,
        100,
        "Packet { operation: CreateTransfers, user: 7, bytes: 100 }",
    ),
    (200, 128, "Packet { operation: 200, user: 7, bytes: 128 }"),
];

/// Returns a packet of zeros with this user word.
fn packet_with_user(
    rt: &(impl Abort + Alloc<A = Global>),
    operation: u8,
    length: usize,
    user: u64,
) -> Packet {
    let mut packet = packet_of(rt, operation, length);
    packet.user = user;
    packet
}

#[test]
fn packets_print_no_bytes(rt: HostRuntime) {
    for (operation, length, wanted) in PACKETS {
        assert_debugged(&rt, packet_of(&rt, operation, length), wanted);
    }
    let wanted = "Packet { operation: LookupAccounts, user: 18446744073709551615, events: 1 }";
    assert_debugged(&rt, packet_with_user(&rt, 131, 16, u64::MAX), wanted);
}

/// Returns packet 5 of submitter 3 as a job, or as an error if it has more than four events.
fn admitted(alloc: Global, packet: Packet) -> Result<Job, SubmitError> {
    Ok(Job::new(alloc, 3, 5, 4, packet)?)
}

/// Returns the reply to a packet without events that was stopped.
fn stopped(rt: &(impl Abort + Alloc<A = Global>)) -> Reply {
    let job = admitted(rt.alloc(), packet_of(rt, 129, 0));
    Reply::of(job.ok().expect(rt, "a job"), Outcome::Stopped)
}

/// Returns the outcome of a packet of one account, which failed.
fn failed(rt: &(impl Abort + Alloc<A = Global>)) -> Outcome {
    let job = admitted(rt.alloc(), packet_of(rt, 129, 128))
        .ok()
        .expect(rt, "a job");
    must(rt, job.packet().operation == 129);
    must(rt, job.stub().count == 1);
    let failure = Failure { index: 0, code: 6 };
    Reply::committed(job, 9, &[failure], 0).outcome
}

#[test]
fn replies_print_their_outcomes(rt: HostRuntime) {
    let wanted =
        "Reply { submitter: 3, number: 5, packet: Packet { operation: CreateAccounts, user: 7, events: 0 }, outcome: Stopped }";
    assert_debugged(&rt, stopped(&rt), wanted);
    let wanted = "Committed { place: 9, answer: Failures([Failure { index: 0, code: 6 }]) }";
    assert_debugged(&rt, failed(&rt), wanted);
}

/// Returns the error of a packet with more than four events.
fn too_large(rt: &(impl Abort + Alloc<A = Global>)) -> SubmitError {
    let error = admitted(rt.alloc(), packet_of(rt, 129, 640))
        .err()
        .expect(rt, "an error");
    must(rt, error.refusal == Refusal::TooMuchData);
    error
}

/// Returns the error of a packet whose data isn't a whole number of ids.
fn not_whole(rt: &(impl Abort + Alloc<A = Global>)) -> SubmitError {
    let refused = packet_of(rt, 131, 8).admitted(4);
    let error = refused.map_err(SubmitError::from).err();
    error.expect(rt, "an error")
}

#[test]
fn a_refused_packet_is_an_error(rt: HostRuntime) {
    let wanted = "the packet with user word 7 was refused: there are more events than the limit";
    assert_displayed(&rt, too_large(&rt), wanted);
    let error = SubmitError {
        packet: packet_with_user(&rt, 131, 8, 9),
        refusal: Refusal::InvalidDataSize,
    };
    let wanted = "the packet with user word 9 was refused: the data isn't a whole number of events";
    assert_displayed(&rt, error, wanted);
    let wanted =
        "SubmitError { packet: Packet { operation: LookupAccounts, user: 7, bytes: 8 }, refusal: InvalidDataSize }";
    assert_debugged(&rt, not_whole(&rt), wanted);
}

/// Returns an account whose fields differ from each other.
fn numbered() -> Account {
    Account {
        id: u128::MAX,
        debits_pending: 1,
        debits_posted: 2,
        credits_pending: 3,
        credits_posted: 4,
        user_data_128: 5,
        user_data_64: 6,
        user_data_32: 7,
        reserved: 0,
        ledger: 8,
        code: 9,
        flags: 10,
        timestamp: 11,
    }
}

#[test]
fn looked_up_accounts_print_their_fields(rt: HostRuntime) {
    let mut found = Vec::new(rt.alloc());
    found.push(numbered()).expect(&rt, "memory");
    let printed = debugged(&rt, Accounts::from_vec(found));
    must(
        &rt,
        printed.as_str().starts_with(
            "[Account { id: 340282366920938463463374607431768211455, debits_pending: 1, ",
        ),
    );
    must(
        &rt,
        printed
            .as_str()
            .ends_with(", ledger: 8, code: 9, flags: 10, timestamp: 11 }]"),
    );
}
