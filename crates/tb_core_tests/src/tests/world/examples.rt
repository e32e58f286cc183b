//! Worked examples, step by step.

use super::assert_steps;
use crate::tests::outcomes::EntryKind;
use std::alloc::Global;
use std::process::Abort;
use tb_test_makers::{OutcomeKind, check};
use tb_work::Refusal;
use tb_world::World;

const ONE_PACKET: &str =
    "0:packet0=1 pop batch-push batch-pop outcome-push outcome-pop reply-push 0:reply !0:reply";

#[test]
fn world_one_packet(rt: HostRuntime) {
    let kinds = [OutcomeKind::Committed(0)];
    let entries = [EntryKind::Batch(1)];
    assert_steps(&rt, ONE_PACKET, &kinds, &entries, 1);
}

const REFUSED_COMMIT: &str =
    "0:packet0=1 pop batch-push batch-pop-refused outcome-push outcome-pop reply-push 0:reply !0:reply";

#[test]
fn world_refused_commit(rt: HostRuntime) {
    assert_steps(&rt, REFUSED_COMMIT, &[OutcomeKind::Stopped], &[], 0);
}

const REFUSED_SECOND_COMMIT: &str =
    "0:packet0=1 2:pulse5 0:packet1=2 pop pop batch-push batch-push pop batch-push batch-pop outcome-push
batch-pop-refused batch-pop outcome-push outcome-pop reply-push outcome-pop reply-push 0:reply
0:reply";

#[test]
fn world_refused_second_commit(rt: HostRuntime) {
    let kinds = [OutcomeKind::Committed(0), OutcomeKind::Stopped];
    let entries = [EntryKind::Batch(1)];
    assert_steps(&rt, REFUSED_SECOND_COMMIT, &kinds, &entries, 1);
}

const REFUSED_JOIN: &str =
    "0:packet0=1 0:packet1=2 0:packet2=3 pop pop-refused batch-push batch-push pop batch-push batch-pop
outcome-push outcome-pop reply-push 0:reply batch-pop outcome-push outcome-pop reply-push 0:reply
batch-pop outcome-push outcome-pop reply-push 0:reply";

#[test]
fn world_refused_join(rt: HostRuntime) {
    let kinds = [
        OutcomeKind::Committed(0),
        OutcomeKind::Stopped,
        OutcomeKind::Stopped,
    ];
    let entries = [EntryKind::Batch(1)];
    assert_steps(&rt, REFUSED_JOIN, &kinds, &entries, 1);
}

/// The events of the example, and what they answer.
const WITH_CLOSE: &str =
    "0:packet0=1 2:close 0:packet1=2 0:end 1:end !2:pulse5 pop pop !pop batch-push pop batch-push pop pop
batch-push !batch-push batch-pop outcome-push batch-pop outcome-push batch-pop outcome-push
outcome-pop reply-push outcome-pop reply-push outcome-pop !reply-push 0:reply 0:reply !0:reply";

const WITH_CLOSE_KINDS: [OutcomeKind; 2] = [OutcomeKind::Committed(0), OutcomeKind::Shutdown];

#[test]
fn world_with_close(rt: HostRuntime) {
    let entries = [EntryKind::Batch(1)];
    assert_steps(&rt, WITH_CLOSE, &WITH_CLOSE_KINDS, &entries, 1);
}

/// Returns why a World isn't opened.
fn refusal(alloc: Global, limit: u32, submitters: u32) -> Option<Refusal> {
    World::new(alloc, 0, limit, submitters).err()
}

/// Limits and counts of submitters, and what they are refused for.
const OPENINGS: [(u32, u32, Option<Refusal>); 5] = [
    (0, 0, Some(Refusal::BadLimit)),
    (8191, 2, Some(Refusal::BadLimit)),
    (4, 0, Some(Refusal::BadSubmitters)),
    (4, 17, Some(Refusal::BadSubmitters)),
    (4, 16, None),
];

#[test]
fn world_openings(rt: HostRuntime) {
    for (limit, submitters, wanted) in &OPENINGS {
        let refusal = refusal(rt.alloc(), *limit, *submitters);
        check!(&rt; refusal == *wanted, limit);
    }
}
