use super::{batcher_of, job_of};
use crate::tests::must;
use std::alloc::Global;
use std::process::Abort;
use tb_batch::{Batch, Batcher, Offered, Parts};
use tb_test_makers::check;
use tb_work::{Job, Refusal};

const LIMITS: [(u32, Option<Refusal>); 5] = [
    (0, Some(Refusal::BadLimit)),
    (1, None),
    (8190, None),
    (8191, Some(Refusal::BadLimit)),
    (4_294_967_295, Some(Refusal::BadLimit)),
];

/// Returns why a batcher of this limit is refused.
fn refusal_of(alloc: Global, limit: u32) -> Option<Refusal> {
    Batcher::new(alloc, limit).err()
}

#[test]
fn limits(rt: HostRuntime) {
    for (limit, wanted) in &LIMITS {
        check!(&rt; refusal_of(rt.alloc(), *limit) == *wanted, *limit);
    }
}

/// Offers a packet, which is joined.
fn join(rt: &(impl Abort + Alloc<A = Global>), batcher: &mut Batcher, operation: u8, flags: &[u8]) {
    let offered = batcher.offer(job_of(rt, 0, operation, flags));
    must(rt, matches!(&offered, Offered::Joined));
    drop(offered);
}

/// Returns a batch of packets of an operation, each given by the flags of its events.
fn batch_of(rt: &(impl Abort + Alloc<A = Global>), operation: u8, packets: &[&[u8]]) -> Batch {
    let mut batcher = batcher_of(rt, 4);
    for flags in packets {
        join(rt, &mut batcher, operation, flags);
    }
    let batch = batcher.seal().expect(rt, "a batch");
    drop(batcher);
    batch
}

fn is_of_two(batch: &Batch) -> bool {
    batch.operation() == 129 && batch.jobs().len() == 2 && batch.stubs().len() == 2
}

#[test]
fn a_batch_and_its_parts(rt: HostRuntime) {
    let batch = batch_of(&rt, 129, &[&[0, 0], &[0]]);
    must(&rt, is_of_two(&batch));
    let parts = batch.into_parts();
    must(
        &rt,
        parts.body.len() == 384 && parts.failures.capacity() >= 3,
    );
    let batch = Batch::whole(parts);
    must(&rt, is_of_two(&batch));
    drop(batch);
}

/// Returns how many bytes the body of a batch has room for.
fn room_of(batch: Batch) -> usize {
    let parts = batch.into_parts();
    let room = parts.body.capacity();
    drop(parts);
    room
}

/// Returns the job of a packet of `events` events of zeros.
fn job_of_zeros(rt: &(impl Abort + Alloc<A = Global>), operation: u8, events: usize) -> Job {
    let flags = Vec::from_elem(rt.alloc(), 0u8, events).expect(rt, "memory");
    job_of(rt, 0, operation, flags.as_slice())
}

/// Returns the parts of a batch of one lookup of `ids` ids.
pub(super) fn parts_of_a_lookup(rt: &(impl Abort + Alloc<A = Global>), ids: usize) -> Parts {
    let mut batcher = batcher_of(rt, 8190);
    let offered = batcher.offer(job_of_zeros(rt, 131, ids));
    must(rt, matches!(&offered, Offered::Joined));
    drop(offered);
    let batch = batcher.seal().expect(rt, "a batch");
    drop(batcher);
    batch.into_parts()
}

/// Returns how many bytes the body of a batch of one packet of `events` transfers has room for.
fn room_of_body(
    rt: &(impl Abort + Alloc<A = Global>),
    batcher: &mut Batcher,
    events: usize,
) -> usize {
    let offered = batcher.offer(job_of_zeros(rt, 130, events));
    must(rt, matches!(&offered, Offered::Joined));
    drop(offered);
    room_of(batcher.seal().expect(rt, "a batch"))
}

/// The batch after a large one begins with the room of that one, and the batches after it with their own.
#[test]
fn room_shrinks_after_a_large_batch(rt: HostRuntime) {
    let mut batcher = batcher_of(&rt, 8190);
    must(&rt, room_of_body(&rt, &mut batcher, 8190) >= 1_048_320);
    room_of_body(&rt, &mut batcher, 1);
    must(&rt, room_of_body(&rt, &mut batcher, 1) <= 1024);
    drop(batcher);
}

/// The first batch has as little room as any: no list of a batch of one event has capacity for more than 64 items, or 1,024 bytes.
#[test]
fn room_of_a_small_batch(rt: HostRuntime) {
    let mut batcher = batcher_of(&rt, 8190);
    drop(batcher.offer(job_of_zeros(&rt, 130, 1)));
    let parts = batcher.seal().expect(&rt, "a batch").into_parts();
    must(&rt, parts.body.capacity() <= 1024);
    must(
        &rt,
        parts.stubs.capacity() <= 64 && parts.jobs.capacity() <= 64,
    );
    must(&rt, parts.failures.capacity() <= 64);
    drop(parts);
    drop(batcher);
}

/// Offers a packet that seals the group held, and returns the capacity of that group's body in bytes.
fn room_of_sealed(
    rt: &(impl Abort + Alloc<A = Global>),
    batcher: &mut Batcher,
    operation: u8,
    events: usize,
) -> usize {
    match batcher.offer(job_of_zeros(rt, operation, events)) {
        Offered::Sealed(batch) => room_of(batch),
        _ => 0,
    }
}

/// The same of batches that the next packet seals.
#[test]
fn room_shrinks_after_a_large_batch_that_a_packet_seals(rt: HostRuntime) {
    let mut batcher = batcher_of(&rt, 8190);
    join(&rt, &mut batcher, 129, &[0]);
    room_of_sealed(&rt, &mut batcher, 130, 8190);
    must(&rt, room_of_sealed(&rt, &mut batcher, 129, 1) >= 1_048_320);
    room_of_sealed(&rt, &mut batcher, 130, 1);
    let room = room_of_sealed(&rt, &mut batcher, 129, 1);
    must(&rt, room >= 128 && room <= 1024);
    drop(batcher);
}
