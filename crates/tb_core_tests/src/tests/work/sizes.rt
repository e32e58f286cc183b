//! Jobs of each size up to the largest. The clauses let `Job::new` run out of memory from three events on.

use crate::tests::{must, packet_of};
use std::alloc::Global;
use std::process::Abort;
use tb_test_makers::check;
use tb_work::{Job, Stub};

/// Operations, each with the size of its event in bytes.
const OPERATIONS: [(u8, usize); 3] = [(129, 128), (130, 128), (131, 16)];

/// Numbers of events: 0, each power of two, some neighbours of those, and the largest.
const COUNTS: [u32; 18] = [
    0, 1, 2, 3, 4, 8, 16, 32, 64, 128, 256, 512, 1023, 1024, 2048, 4096, 8189, 8190,
];

/// Returns the job of a packet of zeros, by submitter 15, with the greatest user word.
fn job_of(rt: &(impl Abort + Alloc<A = Global>), operation: u8, length: usize) -> Job {
    let mut packet = packet_of(rt, operation, length);
    packet.user = u64::MAX;
    let made = Job::new(rt.alloc(), 15, u64::MAX, 8190, packet);
    made.ok().expect(rt, "a job")
}

/// Asserts the stub and the packet of a job with the given number of events.
fn assert_job(rt: &(impl Abort + Alloc<A = Global>), operation: u8, event_size: usize, count: u32) {
    let length = event_size.saturating_mul(count as usize);
    let job = job_of(rt, operation, length);
    let stub = Stub {
        submitter: 15,
        number: u64::MAX,
        count,
    };
    check!(rt; job.stub() == stub, count);
    must(
        rt,
        job.packet().operation == operation && job.packet().user == u64::MAX,
    );
    must(rt, job.packet().bytes.as_slice().len() == length);
}

#[test]
fn jobs_of_each_size(rt: HostRuntime) {
    for count in COUNTS {
        for (operation, event_size) in OPERATIONS {
            assert_job(&rt, operation, event_size, count);
        }
    }
}
