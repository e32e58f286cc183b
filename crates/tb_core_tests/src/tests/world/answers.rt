//! Each event answered false, for each of its reasons.

use super::assert_steps;
use crate::tests::made::creating;
use crate::tests::must;
use crate::tests::outcomes::EntryKind;
use std::alloc::Global;
use std::process::Abort;
use tb_layout::Account;
use tb_test_makers::account;
use tb_work::{Item, Job, Ticket};
use tb_world::{Event, World};

/// Pushes by a stranger and by the control, numbers out of order, a pulse and a Close by a submitter. Then pushes by a
/// submitter that ended, and by the control, which ended by its Close.
const PUSHES: &str = "!3:packet0=1 !3:end
!2:packet0=1
!0:packet1=1 0:packet0=1 !0:packet0=1
!0:pulse5 !1:close
1:end !1:packet0=2 !1:end
2:close !2:pulse5 !2:end !2:close";

#[test]
fn pushes_that_answer_false(rt: HostRuntime) {
    assert_steps(&rt, PUSHES, &[], &[], 0);
}

/// Returns what a new World of two submitters answers to the push of a packet.
fn answer_to(rt: &(impl Abort + Alloc<A = Global>), limit: u32, sender: u32, job: Job) -> bool {
    let mut world = World::new(rt.alloc(), 0, limit, 2).expect(rt, "memory");
    let item = Item::Packet(job);
    let answer = world.step(Event::Push(Ticket { sender, item }));
    drop(world);
    answer.ok().expect(rt, "memory")
}

/// Returns the first packet of submitter 0, which creates accounts.
fn first_job(rt: &(impl Abort + Alloc<A = Global>), accounts: &[Account]) -> Job {
    creating(rt.alloc(), 0, 0, accounts).expect(rt, "the packet is admitted")
}

#[test]
fn jobs_of_others(rt: HostRuntime) {
    // Submitter 1 pushes the job of submitter 0.
    let job = first_job(&rt, &[account(1, 0)]);
    must(&rt, !answer_to(&rt, 4, 1, job));
}

#[test]
fn jobs_over_the_limit(rt: HostRuntime) {
    // The limit is one account.
    let two = first_job(&rt, &[account(1, 0), account(2, 0)]);
    must(&rt, !answer_to(&rt, 1, 0, two));
    let one = first_job(&rt, &[account(1, 0)]);
    must(&rt, answer_to(&rt, 1, 0, one));
}

const STAGES_WITH_NOTHING: &str =
    "!pop !pop-refused !batch-push !batch-pop !batch-pop-refused !outcome-push !outcome-pop !reply-push
!0:reply !2:reply";

#[test]
fn stages_that_have_nothing(rt: HostRuntime) {
    assert_steps(&rt, STAGES_WITH_NOTHING, &[], &[], 0);
}

/// Two packets, a pulse, which seals them, and a packet. Each batch, outcome and reply has to be pushed before the next
/// comes; the pulse has no outcome.
const STAGES_WITH_SOMETHING: &str = "0:packet0=1 1:packet0=2 2:pulse5 0:packet1=3 pop pop pop
!pop !pop-refused batch-push batch-push !batch-push pop batch-push
batch-pop !batch-pop outcome-push !outcome-push batch-pop !outcome-push batch-pop outcome-push
outcome-pop !outcome-pop reply-push !outcome-pop reply-push outcome-pop";

#[test]
fn stages_that_have_to_push_first(rt: HostRuntime) {
    let entries = [
        EntryKind::Batch(2),
        EntryKind::Pulse(5),
        EntryKind::Batch(1),
    ];
    assert_steps(&rt, STAGES_WITH_SOMETHING, &[], &entries, 6);
}
