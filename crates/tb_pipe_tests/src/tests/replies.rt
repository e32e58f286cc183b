//! Replies, by the drivers that wait for them and by those that don't.

use super::{Noter, SUBMIT, Saw, Seen, Step, run, run_one, seen_in};
use std::alloc::Global;
use std::process::Abort;
use tb_layout::CREATE_ACCOUNTS;
use tb_test_makers::check;

/// Waits before there is a packet, for the one that is queued, for two of two, and after the last reply.
const WAITS: [Step; 8] = [
    Step::Receive,
    SUBMIT,
    Step::Receive,
    SUBMIT,
    SUBMIT,
    Step::Receive,
    Step::Receive,
    Step::Receive,
];

/// Between two askings there is one reply at most, and none only if no packet's reply is unread.
const WAITS_SEEN: [Saw; 15] = [
    Saw::Asked,
    Saw::Asked,
    Saw::Response(Ok(0)),
    Saw::Asked,
    Saw::Given(0, 0, 7),
    Saw::Asked,
    Saw::Response(Ok(1)),
    Saw::Asked,
    Saw::Response(Ok(2)),
    Saw::Asked,
    Saw::Given(0, 1, 7),
    Saw::Asked,
    Saw::Given(0, 2, 7),
    Saw::Asked,
    Saw::Asked,
];

/// Whether the reply is still to come, or both are there before the driver waits.
#[test]
fn receive_waits_for_one_reply(rt: HostRuntime) {
    for pause in [0, 1000] {
        let seen = run_one(&rt, rt.alloc(), 4, 64, 16, &WAITS, pause);
        check!(&rt; seen.by_driver.as_slice() == WAITS_SEEN.as_slice());
        check!(&rt; seen.left.is_empty());
        drop(seen);
    }
}

const LARGE: Step = Step::Submit(CREATE_ACCOUNTS, 8190 * 128);

/// Waits for the replies of two full packets, which take long enough that the driver sleeps.
#[test]
fn receive_sleeps_until_there_is_a_reply(rt: HostRuntime) {
    let steps = &[LARGE, Step::Receive, LARGE, Step::Receive];
    let seen = run_one(&rt, rt.alloc(), 8190, 64, 16, steps, 0);
    check!(&rt; seen.by_driver.as_slice() == TWO_RECEIVED.as_slice());
    check!(&rt; seen.left.is_empty());
    drop(seen);
}

/// What a driver sees that waits for each of two replies.
const TWO_RECEIVED: [Saw; 9] = [
    Saw::Asked,
    Saw::Response(Ok(0)),
    Saw::Asked,
    Saw::Given(0, 0, 7),
    Saw::Asked,
    Saw::Response(Ok(1)),
    Saw::Asked,
    Saw::Given(0, 1, 7),
    Saw::Asked,
];

/// Two packets, and a wait for the first reply.
const TWO: [Step; 3] = [SUBMIT, SUBMIT, Step::Receive];

/// Returns what the driver of a submitter sees whose packets have this user word.
fn two_seen(submitter: u32, user: u64) -> [Saw; 7] {
    [
        Saw::Asked,
        Saw::Response(Ok(0)),
        Saw::Asked,
        Saw::Response(Ok(1)),
        Saw::Asked,
        Saw::Given(submitter, 0, user),
        Saw::Asked,
    ]
}

/// Returns whether this was seen of a submitter, and the second reply is left.
fn is_two(seen: &Seen, submitter: u32, user: u64) -> bool {
    seen.user == user
        && seen.by_driver.as_slice() == two_seen(submitter, user).as_slice()
        && seen.left.as_slice() == [Some(Saw::Given(submitter, 1, user))].as_slice()
}

/// Returns sixteen drivers, whose user words are 100 and more.
fn sixteen(rt: &impl Abort, alloc: Global, steps: &'static [Step]) -> Vec<Noter> {
    let mut drivers = Vec::new(alloc);
    for user in 100..116u64 {
        let driver = Noter::new(alloc, steps, 0, user);
        drivers.push(driver).expect(rt, "memory");
    }
    drivers
}

/// Each driver comes back at its submitter's index, with replies only to its submitter's packets.
#[test]
fn drivers_in_order(rt: HostRuntime) {
    let alloc = rt.alloc();
    let finished = run(&rt, alloc, 4, 64, 16, sixteen(&rt, alloc, &TWO));
    let seen = seen_in(&rt, alloc, finished);
    check!(&rt; seen.len() == 16);
    for (seen, submitter) in seen.iter().zip(0..16u32) {
        let user = u64::from(submitter).saturating_add(100);
        check!(&rt; is_two(seen, submitter, user), submitter);
    }
    drop(seen);
}

/// Returns whether the packet was queued, and its reply given to the driver or left, as the submitter found a slot for
/// its end or not.
fn is_one(seen: &Seen, submitter: u32) -> bool {
    let given = Saw::Given(submitter, 0, seen.user);
    let front = [Saw::Asked, Saw::Response(Ok(0)), Saw::Asked];
    let by_driver = seen.by_driver.as_slice();
    if seen.left.is_empty() {
        by_driver.len() == 4 && by_driver.starts_with(&front) && by_driver.ends_with(&[given])
    } else {
        by_driver == front.as_slice() && seen.left.as_slice() == [Some(given)].as_slice()
    }
}

/// Sixteen packets for a queue of one slot: no driver receives `Full`.
#[test]
fn no_response_to_a_full_queue(rt: HostRuntime) {
    let alloc = rt.alloc();
    let finished = run(&rt, alloc, 4, 1, 16, sixteen(&rt, alloc, &[SUBMIT]));
    let seen = seen_in(&rt, alloc, finished);
    for (seen, submitter) in seen.iter().zip(0..16u32) {
        check!(&rt; is_one(seen, submitter), submitter);
    }
    drop(seen);
}
