//! What no clause says: worked examples by name, each refusal once, senders in threads of their own.

ghost use Rattle.std.specs.Prelude.{◌≡◌};

use std::alloc::{AllocError, Global};
use std::process::Abort;
use std::sync::Wait;
use tb_submit::{Control, Ends, Intake, Submitter, open_queue};
use tb_test_makers::{check, packet_of};
use tb_work::{Answer, Failures, Item, Job, Outcome, Packet, Refusal, Reply, Ticket};

mod ahead;
mod calls;
mod memory;
mod openings;
mod refusals;
mod rings;
mod rounds;
mod service;
mod threads;
mod waits;
mod yields;

/// Returns a packet of this number of bytes, each of them 7.
fn sevens(alloc: Global, operation: u8, length: usize) -> Result<Packet, AllocError> {
    Ok(packet_of(operation, Vec::from_elem(alloc, 7u8, length)?))
}

/// Returns a packet's operation, the number of its bytes, their sum, and its user word.
fn look_of(packet: &Packet) -> (u8, usize, u64, u64) {
    let bytes = packet.bytes.as_slice();
    let mut sum = 0u64;
    for byte in bytes {
        sum = sum.wrapping_add(u64::from(*byte));
    }
    (packet.operation, bytes.len(), sum, packet.user)
}

/// Returns what `look_of` returns for a packet of sevens.
fn made_look(operation: u8, length: usize) -> (u8, usize, u64, u64) {
    (operation, length, (length as u64).wrapping_mul(7), 7)
}

/// Returns a queue of this limit, capacity and credit: its one submitter, and its other ends.
fn queue_of(
    rt: &(impl Abort + Alloc<A = Global>),
    limit: u32,
    capacity: u32,
    credit: u32,
) -> (Submitter, Ends) {
    let mut ends = open_queue(rt.alloc(), limit, capacity, credit, 1).expect(rt, "a queue");
    let submitter = ends.submitters.pop().expect(rt, "a submitter");
    (submitter, ends)
}

/// Submits a packet of this number of bytes: its number, or why it was refused; a refused packet is returned as it was.
fn submit(
    rt: &(impl Abort + Wait + Alloc<A = Global>),
    submitter: &mut Submitter,
    operation: u8,
    length: usize,
) -> Result<u64, Refusal>
    ensures { submitter.new.origin ≡ submitter.old.origin }
{
    check!(rt; submitter.queued() < 1 << 56);
    let packet = sevens(rt.alloc(), operation, length).expect(rt, "memory");
    match submitter.submit(rt, rt.alloc(), packet) {
        Ok(number) => Ok(number),
        Err((back, refusal)) => {
            check!(rt; look_of(&back) == made_look(operation, length));
            Err(refusal)
        }
    }
}

fn pulse(rt: &(impl Abort + Wait), control: &mut Control, moment: u64) -> Result<(), Refusal> {
    check!(rt; control.queued() < 1 << 56);
    control.pulse(rt, moment)
}

#[derive(Clone, Copy)]
enum Says {
    Committed,
    Shutdown,
    Stopped,
}

/// Returns the reply to a packet that says Committed at place 0 without failures, Shutdown or Stopped.
fn reply_to(alloc: Global, job: Job, says: Says) -> Reply {
    let outcome = match says {
        Says::Committed => Outcome::Committed {
            place: 0,
            answer: Answer::Failures(Failures::from_vec(Vec::new(alloc))),
        },
        Says::Shutdown => Outcome::Shutdown,
        Says::Stopped => Outcome::Stopped,
    };
    Reply::of(job, outcome)
}

/// Reads a reply, and returns whether there was one.
fn reads_reply(submitter: &mut Submitter) -> bool {
    match submitter.reply() {
        Some(reply) => {
            drop(reply);
            true
        }
        None => false,
    }
}

/// Takes the front of the queue, a packet of submitter 0.
fn take_job(rt: &(impl Abort + Wait), intake: &mut Intake) -> Job {
    match intake.take(rt) {
        Some(
            Ticket {
                sender: 0,
                item: Item::Packet(job),
            },
        ) => job,
        _ => rt.panic("no packet of submitter 0"),
    }
}

/// Takes the front of the queue, a packet of submitter 0, and gives its reply.
fn answer(rt: &(impl Abort + Wait + Alloc<A = Global>), ends: &mut Ends, says: Says) {
    let job = take_job(rt, &mut ends.intake);
    check!(rt; ends.outlets.len() == 1);
    let given = ends.outlets[0].give(reply_to(rt.alloc(), job, says));
    check!(rt; given.is_ok());
}
