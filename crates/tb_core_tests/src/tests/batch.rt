//! Batches: worked examples by name, and each call once with ample memory.

use std::alloc::Global;
use std::process::Abort;
use tb_batch::Batcher;
use tb_test_makers::{job, packet_of};
use tb_work::Job;

mod calls;
mod examples;
mod memory;
mod sizes;

/// Returns a batcher of at most `limit` events.
fn batcher_of(rt: &(impl Abort + Alloc<A = Global>), limit: u32) -> Batcher {
    Batcher::new(rt.alloc(), limit).expect(rt, "a batcher")
}

/// Returns the job of a packet of events that are all zeros but for their flags; a lookup has as many ids.
fn job_of(rt: &(impl Abort + Alloc<A = Global>), number: u64, operation: u8, flags: &[u8]) -> Job {
    let mut bytes = Vec::new(rt.alloc());
    for flag in flags {
        if operation == 131 {
            bytes.extend_from_slice(&[0; 16]).expect(rt, "memory");
        } else {
            let mut event = [0; 128];
            event[118] = *flag;
            bytes.extend_from_slice(&event).expect(rt, "memory");
        }
    }
    job(rt.alloc(), 0, number, packet_of(operation, bytes)).expect(rt, "a job")
}
