use super::batcher_of;
use crate::tests::must;
use std::alloc::Global;
use std::process::Abort;
use tb_batch::{Batcher, Offered};
use tb_test_makers::zeros;
use tb_work::Job;

/// Returns the job of a packet of an account of zeros, or None if memory runs out.
fn job_of(alloc: Global, number: u64) -> Option<Job> {
    let packet = zeros(alloc, 129, 128).ok()?;
    Job::new(alloc, 0, number, 4, packet).ok()
}

/// Returns whether a job is joined. One that is refused comes back as it was.
fn is_joined(rt: &impl Abort, batcher: &mut Batcher, job: Job, number: u64) -> bool {
    match batcher.offer(job) {
        Offered::Joined => true,
        Offered::Sealed(_batch) => rt.panic("sealed"),
        Offered::Refused(job, _refused) => {
            must(rt, job.stub().number == number);
            must(rt, job.packet().bytes.as_slice().len() == 128);
            false
        }
    }
}

/// Returns how many of three jobs are joined, as far as memory lasts.
fn offer_three(rt: &(impl Abort + Alloc<A = Global>), batcher: &mut Batcher) -> usize {
    for number in 0..3 {
        let joined = match job_of(rt.alloc(), number) {
            Some(job) => is_joined(rt, batcher, job, number),
            None => false,
        };
        if !joined {
            return number as usize;
        }
    }
    3
}

/// What is tried with each allocation refused in turn, by `tools/gate/refuse-each-growth`.
#[test]
fn offer_refused_memory(rt: HostRuntime) {
    let mut batcher = batcher_of(&rt, 4);
    let joined = offer_three(&rt, &mut batcher);
    let held = match batcher.seal() {
        Some(batch) => batch.jobs().len(),
        None => 0,
    };
    must(&rt, held == joined);
}
