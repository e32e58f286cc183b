use super::{batcher_of, job_of};
use crate::tests::{must, number_of, push};
use std::alloc::Global;
use std::process::Abort;
use tb_batch::{Batch, Batcher, Offered};
use tb_test_makers::check;
use tb_work::Job;

/// A row for each example: its name, the limit, its packets, and the size of the batch that is left. A packet is an operation, a colon,
/// and a digit for each event's flags, or `x9` for nine events of zeros; `*5` says that it comes five times. Then comes what the batcher
/// answers: that it joined the packet, or the size of the batch that it sealed. At `hold` the batch is sealed, has this size, and is held
/// again. A size is `2/256`, the packets and bytes, or `2/256:1+2` with the number of the last packet and of its events.
const EXAMPLES: &str =
    "joining_jobs 4 129:1=joined 129:=1/128 129:0000=joined 129:=joined 130:=3/512 = 1/0
lookups_alone 4 129:0=joined 131:0=1/128 131:0=1/16 129:0=1/16 = 1/128
accounts_around_an_empty_packet 4 129:0=joined 129:=joined 129:0=joined = 3/256
two_submitters_joined 4 129:00=joined 129:00=joined = 2/512
full_batch_then_overflow 4 129:0000=joined 129:0=1/512 129:=joined = 2/128
open_packet_alone 4 129:0=joined 129:1=1/128 129:0=1/128 = 1/128
chains_of_transfers_joined 4 129:020=joined 130:110=1/384 130:0=joined = 2/512
clock_exhausted 4 129:0=joined 129:0=joined = 2/256
a_job_over_the_limit_is_alone 1 129:0=joined 129:00=1/128 129:=1/256 = 1/0
";

/// Asserts the number of the last packet in a batch, and of its events.
fn assert_last(rt: &impl Abort, batch: &Batch, wanted: &str) {
    let (number, events) = wanted
        .split_once('+')
        .expect(rt, "the last packet's numbers");
    let stub = batch.stubs().last().expect(rt, "a packet");
    let found = (stub.number, stub.count);
    check!(rt; found == (u64::from(number_of(rt, number)), number_of(rt, events)), wanted);
}

/// Asserts the numbers of packets and bytes of a batch.
fn assert_batch(rt: &impl Abort, batch: &Batch, wanted: &str) {
    let (packets, bytes) = wanted.split_once('/').expect(rt, "packets and bytes");
    check!(rt; batch.jobs().len() == number_of(rt, packets) as usize, wanted);
    match bytes.split_once(':') {
        Some((bytes, last)) => {
            check!(rt; batch.body().len() == number_of(rt, bytes) as usize, wanted);
            assert_last(rt, batch, last);
        }
        None => check!(rt; batch.body().len() == number_of(rt, bytes) as usize, wanted),
    }
}

/// Offers a job, and asserts what the batcher answers.
fn assert_offered(rt: &impl Abort, batcher: &mut Batcher, job: Job, wanted: &str) {
    match batcher.offer(job) {
        Offered::Joined => check!(rt; wanted == "joined", wanted),
        Offered::Sealed(batch) => {
            assert_batch(rt, &batch, wanted);
            drop(batch);
        }
        Offered::Refused(_job, _refused) => rt.panic("memory"),
    }
}

/// Returns the job of a row's packet.
fn job_in(rt: &(impl Abort + Alloc<A = Global>), number: u64, packet: &str) -> Job {
    let (operation, events) = packet.split_once(':').expect(rt, "an operation");
    let operation = operation.parse::<u8>().ok().expect(rt, "a number");
    let mut flags = Vec::new(rt.alloc());
    match events.strip_prefix("x") {
        Some(count) => flags
            .resize(number_of(rt, count) as usize, 0u8)
            .expect(rt, "memory"),
        None => {
            for digit in events.as_bytes() {
                push(rt, &mut flags, digit.wrapping_sub(b'0'));
            }
        }
    }
    job_of(rt, number, operation, flags.as_slice())
}

/// Offers a row's packet as often as it says, with rising numbers. Returns the next number.
fn offer_each(
    rt: &(impl Abort + Alloc<A = Global>),
    batcher: &mut Batcher,
    first: u32,
    packet: &str,
    wanted: &str,
) -> u32 {
    let (packet, times) = match packet.split_once('*') {
        Some((packet, times)) => (packet, number_of(rt, times)),
        None => (packet, 1),
    };
    let next = first.saturating_add(times);
    for number in first..next {
        assert_offered(rt, batcher, job_in(rt, u64::from(number), packet), wanted);
    }
    next
}

/// Seals the group held, asserts its size, and holds it again.
fn hold_again(rt: &impl Abort, batcher: &mut Batcher, wanted: &str) {
    let batch = batcher.seal().expect(rt, "a batch");
    assert_batch(rt, &batch, wanted);
    must(rt, batcher.is_empty());
    batcher.hold(batch);
    must(rt, !batcher.is_empty());
}

/// Asserts the size of the group held, and that nothing is left behind it.
fn assert_left(rt: &impl Abort, batcher: &mut Batcher, wanted: &str) {
    let batch = batcher.seal().expect(rt, "a batch");
    assert_batch(rt, &batch, wanted);
    drop(batch);
    must(rt, batcher.seal().is_none());
}

/// Asserts the batches of a row.
fn assert_example(rt: &(impl Abort + Alloc<A = Global>), row: &str) {
    let (example, left) = row.split_once(" = ").expect(rt, "the batch that is left");
    let mut words = example.split_whitespace();
    words.next().expect(rt, "a name");
    let limit = words.next().expect(rt, "a limit");
    let mut batcher = batcher_of(rt, number_of(rt, limit));
    let mut number = 0u32;
    for word in words {
        match word.split_once('=').expect(rt, "an answer") {
            ("hold", wanted) => hold_again(rt, &mut batcher, wanted),
            (packet, wanted) => number = offer_each(rt, &mut batcher, number, packet, wanted),
        }
    }
    assert_left(rt, &mut batcher, left);
    drop(batcher);
}

/// Asserts the batches of each row.
pub(super) fn assert_examples(rt: &(impl Abort + Alloc<A = Global>), rows: &str) {
    for row in rows.lines() {
        assert_example(rt, row);
    }
}

#[test]
fn examples(rt: HostRuntime) {
    assert_examples(&rt, EXAMPLES);
}
