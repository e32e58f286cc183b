use std::alloc::Global;
use std::process::Abort;
use std::sync::Wait;
use std::thread;
use std::thread::Threads;
use tb_submit::{Ends, Intake, Submitter, open_queue};
use tb_test_makers::check;
use tb_work::{Bytes, Item, Packet, Stub, Ticket};

/// How often in all a thread gives way before it gives up.
pub(super) const MOST_TURNS: u64 = 100_000_000;

fn empty_packet(alloc: Global, user: u64) -> Packet {
    Packet {
        operation: 129,
        bytes: Bytes::from_vec(Vec::new(alloc)),
        user,
    }
}

/// Submits a packet without events, again and again while the queue is full; the turns that are left.
fn submit_one<R: Wait>(
    rt: &R,
    alloc: Global,
    submitter: &mut Submitter,
    user: u64,
    turns: u64,
) -> u64 {
    let mut packet = empty_packet(alloc, user);
    for left in 0..turns {
        if submitter.queued() >= 1 << 56 {
            return 0;
        }
        match submitter.submit(rt, alloc, packet) {
            Ok(_) => return turns - left,
            Err((back, _)) => packet = back,
        }
        thread::yield_now();
    }
    0
}

/// Submits `count` packets and ends. Returns whether all were queued.
pub(super) fn submit_all<R: Wait>(rt: &R, alloc: Global, submitter: Submitter, count: u64) -> bool {
    let mut submitter = submitter;
    let mut turns = MOST_TURNS;
    for user in 0..count {
        turns = submit_one(rt, alloc, &mut submitter, user, turns);
    }
    end_all(rt, submitter, turns)
}

fn end_all<R: Wait>(rt: &R, submitter: Submitter, turns: u64) -> bool {
    let mut submitter = submitter;
    for _ in 0..turns {
        match submitter.end(rt) {
            Ok(_) => return true,
            Err((back, _)) => submitter = back,
        }
        thread::yield_now();
    }
    false
}

/// What was taken so far: how many packets of each sender in a row, how many ends, and whether a
/// packet came out of turn.
#[derive(Drop)]
pub(super) struct Counts {
    pub(super) next: [u64; 17],
    ended: u32,
    pub(super) torn: bool,
}

impl Counts {
    pub(super) fn new() -> Counts {
        Counts {
            next: [0; 17],
            ended: 0,
            torn: false,
        }
    }

    fn note_packet(&mut self, sender: u32, stub: Stub) {
        let place = sender as usize;
        if place >= 17 || stub.submitter != sender || stub.number != self.next[place] {
            self.torn = true;
        } else {
            self.next[place] = stub.number.wrapping_add(1);
        }
    }

    pub(super) fn note(&mut self, ticket: Ticket) {
        let Ticket { sender, item } = ticket;
        match item {
            Item::Packet(job) => self.note_packet(sender, job.stub()),
            Item::Pulse(_) => self.torn = true,
            Item::End => self.ended = self.ended.wrapping_add(1),
            Item::Close => self.ended = self.ended.wrapping_add(1),
        }
    }
}

/// Takes until this number of senders has ended.
fn take_all<R: Wait>(rt: &R, intake: &mut Intake, senders: u32) -> Counts {
    let mut counts = Counts::new();
    for _ in 0..MOST_TURNS {
        if counts.ended == senders {
            break;
        }
        match intake.take(rt) {
            Some(ticket) => counts.note(ticket),
            None => thread::yield_now(),
        }
    }
    counts
}

/// Runs submitters, each in a thread, and one taker.
fn run<R: Abort + Threads + Wait + Sync>(
    rt: &R,
    alloc: Global,
    submitters: u32,
    count: u64,
) -> Counts {
    let ends = open_queue(alloc, 4, 64, 10_000, submitters).expect(rt, "a queue");
    let Ends {
        submitters: senders,
        control,
        mut intake,
        outlets: _,
    } = ends;
    check!(rt; control.end(rt).is_ok());
    thread::scope(thread::scope_env(), rt, |scope| -> Counts {
        let mut drivers = Vec::new(alloc);
        for submitter in senders {
            let started = scope.spawn(move || submit_all(rt, alloc, submitter, count));
            drivers
                .push(started.ok().expect(rt, "a thread"))
                .expect(rt, "memory");
        }
        let mut counts = take_all(rt, &mut intake, submitters.wrapping_add(1));
        for driver in drivers {
            if !driver.join(rt) {
                counts.torn = true;
            }
        }
        counts
    })
}

#[test]
fn sixteen_senders_and_one_taker(rt: HostRuntime) {
    let counts = run(&rt, rt.alloc(), 16, 10_000);
    check!(&rt; !counts.torn);
    check!(&rt; counts.ended == 17);
    for sender in 0..16usize {
        check!(&rt; counts.next[sender] == 10_000);
    }
    check!(&rt; counts.next[16] == 0);
}
