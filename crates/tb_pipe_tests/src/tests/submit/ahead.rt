//! A control that learns what sixteen submitters have queued, before it queues the Close.

ghost use Rattle.std.specs.Prelude.{◌≡◌, Some};
ghost use Rattle.tb_pipe_tests.specs.inside.Queue.{AreOf};

use super::submit;
use super::threads::{Counts, MOST_TURNS, submit_all};
use std::alloc::Global;
use std::process::Abort;
use std::sync::Wait;
use std::thread;
use std::thread::Threads;
use tb_submit::{Control, Ends, Intake, Seen, Submitter, open_queue};
use tb_test_makers::check;
use tb_work::{Item, Ticket};

/// Returns the ends of a queue of sixteen submitters, with slots for all that they queue.
fn opened(rt: &(impl Abort + Alloc<A = Global>)) -> Ends
    ensures { AreOf result.control result.submitters.items }
{
    let Ok(ends) = open_queue(rt.alloc(), 4, 32_768, 10_000, 16) else {
        rt.panic("no queue");
    };
    ends
}

/// Submits the first packet. Returns the submitter with what it has seen.
fn submit_first(
    rt: &(impl Abort + Wait + Alloc<A = Global>),
    submitter: Submitter,
) -> (Submitter, Seen)
    ensures { submitter.origin.seat.queue ≡ Some result.1.queue }
{
    let mut submitter = submitter;
    check!(rt; submit(rt, &mut submitter, 129, 0) == Ok(0));
    let seen = submitter.seen();
    (submitter, seen)
}

/// Does the same in another thread.
fn submit_there<R: Abort + Threads + Wait + Sync + Alloc<A = Global>>(
    rt: &R,
    submitter: Submitter,
) -> (Submitter, Seen)
    ensures { submitter.origin.seat.queue ≡ Some result.1.queue }
{
    let (there, ()) = thread::join(
        rt,
        move || -> (Submitter, Seen)
            ensures { submitter.origin.seat.queue ≡ Some result.1.queue }
        { submit_first(rt, submitter) },
        || {},
    );
    there
}

/// Submits a packet of each submitter, and the control learns of it. Returns the submitters.
fn learn_all<R: Abort + Threads + Wait + Sync + Alloc<A = Global>>(
    rt: &R,
    submitters: Vec<Submitter>,
    control: &mut Control,
) -> Vec<Submitter>
    requires { AreOf control.old submitters.items }
{
    let mut left = submitters;
    let mut all = Vec::new(rt.alloc());
    for _ in 0..16u32 {
        let submitter = left.pop().expect(rt, "a submitter");
        let (submitter, seen) = submit_there(rt, submitter);
        control.learn(seen);
        all.push(submitter).expect(rt, "memory");
    }
    all
}

/// Takes up to the Close. None if none comes.
fn take_ahead<R: Wait>(rt: &R, intake: &mut Intake) -> Option<Counts> {
    let mut counts = Counts::new();
    for _ in 0..MOST_TURNS {
        match intake.take(rt) {
            Some(
                Ticket {
                    sender: _,
                    item: Item::Close,
                },
            ) => return Some(counts),
            Some(ticket) => counts.note(ticket),
            None => thread::yield_now(),
        }
    }
    None
}

/// Runs the submitters in threads, shuts while they submit, and takes up to the Close.
fn shut_amid<R: Abort + Threads + Wait + Sync>(
    rt: &R,
    alloc: Global,
    submitters: Vec<Submitter>,
    control: Control,
    intake: &mut Intake,
) -> Option<Counts> {
    thread::scope(thread::scope_env(), rt, |scope| -> Option<Counts> {
        let mut drivers = Vec::new(alloc);
        for submitter in submitters {
            let started = scope.spawn(move || submit_all(rt, alloc, submitter, 1_000));
            drivers
                .push(started.ok().expect(rt, "a thread"))
                .expect(rt, "memory");
        }
        check!(rt; control.shut(rt).is_ok());
        let counts = take_ahead(rt, intake);
        for driver in drivers {
            check!(rt; driver.join(rt));
        }
        counts
    })
}

/// Each first packet is ahead of the Close, and each submitter's packets are in their order.
#[test]
fn first_packets_of_sixteen_submitters(rt: HostRuntime) {
    let Ends {
        submitters,
        mut control,
        mut intake,
        outlets: _,
    } = opened(&rt);
    let submitters = learn_all(&rt, submitters, &mut control);
    let counts = shut_amid(&rt, rt.alloc(), submitters, control, &mut intake);
    let counts = counts.expect(&rt, "a Close");
    check!(&rt; !counts.torn);
    for sender in 0..16usize {
        check!(&rt; counts.next[sender] >= 1);
    }
}
