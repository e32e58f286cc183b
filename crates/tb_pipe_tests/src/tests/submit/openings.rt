use super::{Says, queue_of, reply_to, sevens};
use std::alloc::Global;
use std::process::Abort;
use tb_rings::Outlet;
use tb_submit::open_queue;
use tb_test_makers::{check, job};
use tb_work::{Refusal, Reply};

/// Limit, capacity, credit and submitters, and why such a queue is refused.
const OPENINGS: [((u32, u32, u32, u32), Option<Refusal>); 19] = [
    ((0, 0, 4, 3), Some(Refusal::BadLimit)),
    ((8191, 4, 4, 3), Some(Refusal::BadLimit)),
    ((4, 0, 4, 3), Some(Refusal::BadCapacity)),
    ((4, 4, 4, 0), Some(Refusal::BadSubmitters)),
    ((4, 4, 4, 17), Some(Refusal::BadSubmitters)),
    ((4, 4, 4, 3), None),
    ((4, 65_537, 4, 3), Some(Refusal::BadCapacity)),
    ((4, 4, 0, 3), Some(Refusal::BadCapacity)),
    ((4, 4, 65_537, 3), Some(Refusal::BadCapacity)),
    ((1, 1, 1, 1), None),
    ((8190, 65_536, 1, 16), None),
    ((8190, 65_536, 65_536, 16), None),
    ((1, 1, 65_536, 1), None),
    ((0, 4, 4, 17), Some(Refusal::BadLimit)),
    ((8191, 4, 0, 3), Some(Refusal::BadLimit)),
    ((0, 0, 0, 0), Some(Refusal::BadLimit)),
    ((4, 0, 4, 17), Some(Refusal::BadCapacity)),
    ((4, 4, 0, 0), Some(Refusal::BadCapacity)),
    ((4, 65_537, 65_537, 17), Some(Refusal::BadCapacity)),
];

#[test]
fn bad_openings(rt: HostRuntime) {
    for ((limit, capacity, credit, submitters), wanted) in OPENINGS.iter() {
        let refusal = open_queue(rt.alloc(), *limit, *capacity, *credit, *submitters).err();
        check!(&rt; refusal == *wanted);
    }
}

#[test]
fn as_many_ends_as_submitters(rt: HostRuntime) {
    for submitters in 1..=16u32 {
        let ends = open_queue(rt.alloc(), 4, 4, 4, submitters).expect(&rt, "a queue");
        let count = submitters as usize;
        check!(&rt; ends.submitters.len() == count && ends.outlets.len() == count);
        drop(ends);
    }
}

/// Gives a reply to a packet that was not queued. Returns whether it is taken.
fn takes_reply(rt: &(impl Abort + Alloc<A = Global>), outlet: &mut Outlet<Reply>) -> bool {
    let packet = sevens(rt.alloc(), 129, 128).expect(rt, "memory");
    let job = job(rt.alloc(), 0, 0, packet).expect(rt, "memory");
    let given = outlet.give(reply_to(rt.alloc(), job, Says::Stopped));
    given.is_ok()
}

/// Takes `count` replies, and no more.
fn fill(rt: &(impl Abort + Alloc<A = Global>), outlet: &mut Outlet<Reply>, credit: u32) {
    for _ in 0..credit {
        check!(rt; takes_reply(rt, outlet));
    }
    check!(rt; !takes_reply(rt, outlet));
}

/// An outlet takes as many unread replies as the credit, and no more.
#[test]
fn as_many_replies_as_the_credit(rt: HostRuntime) {
    for credit in [1, 3, 100, 65_536] {
        let (submitter, mut ends) = queue_of(&rt, 4, 8, credit);
        check!(&rt; ends.outlets.len() == 1);
        fill(&rt, &mut ends.outlets[0], credit);
        drop(submitter);
        drop(ends);
    }
}
