//! The results that a driver receives.

use super::{CREATE_ACCOUNTS, SUBMIT, Saw, Step, packet_of, run_one};
use std::alloc::Global;
use std::process::Abort;
use std::sync::Wait;
use std::thread::Threads;
use std::time::Clock;
use tb_blocking::Client;
use tb_drive::{Action, ControlPlan, Driver, Stop};
use tb_layout::NoMemory;
use tb_pipe::{drive_all, open};
use tb_submit::Submitter;
use tb_test_makers::check;
use tb_work::{Packet, Refusal, Reply};

/// A packet of no operation that there is, one of a byte, one of an event more than the limit, and one that is queued.
const BAD: [Step; 4] = [
    Step::Submit(200, 0),
    Step::Submit(CREATE_ACCOUNTS, 1),
    Step::Submit(CREATE_ACCOUNTS, 640),
    SUBMIT,
];

const BAD_SEEN: [Saw; 9] = [
    Saw::Asked,
    Saw::Response(Err(Refusal::InvalidOperation)),
    Saw::Asked,
    Saw::Response(Err(Refusal::InvalidDataSize)),
    Saw::Asked,
    Saw::Response(Err(Refusal::TooMuchData)),
    Saw::Asked,
    Saw::Response(Ok(0)),
    Saw::Asked,
];

/// A driver learns once why a packet is refused, and is asked again.
#[test]
fn a_refusal_is_the_response(rt: HostRuntime) {
    let seen = run_one(&rt, rt.alloc(), 4, 64, 16, &BAD, 0);
    check!(&rt; seen.by_driver.as_slice() == BAD_SEEN.as_slice());
    check!(&rt; seen.left.as_slice() == [Some(Saw::Given(0, 0, 7))].as_slice());
    drop(seen);
}

const FOUR: [Step; 4] = [SUBMIT; 4];

/// With a credit of one, the reply to a packet is read before the next one is queued.
const FOUR_SEEN: [Saw; 12] = [
    Saw::Asked,
    Saw::Response(Ok(0)),
    Saw::Asked,
    Saw::Given(0, 0, 7),
    Saw::Response(Ok(1)),
    Saw::Asked,
    Saw::Given(0, 1, 7),
    Saw::Response(Ok(2)),
    Saw::Asked,
    Saw::Given(0, 2, 7),
    Saw::Response(Ok(3)),
    Saw::Asked,
];

/// No driver receives `InFlight` or `Full`: its packet is tried again. The last reply is read only if the queue was
/// full as the submitter ended.
#[test]
fn no_response_to_a_used_up_credit(rt: HostRuntime) {
    let mut seen = run_one(&rt, rt.alloc(), 4, 1, 1, &FOUR, 0);
    if seen.left.is_empty() {
        check!(&rt; seen.by_driver.pop() == Some(Saw::Given(0, 3, 7)));
    } else {
        check!(&rt; seen.left.as_slice() == [Some(Saw::Given(0, 3, 7))].as_slice());
    }
    check!(&rt; seen.by_driver.as_slice() == FOUR_SEEN.as_slice());
    drop(seen);
}

/// Returns a packet of three accounts: the job of no smaller one takes memory.
fn packet_of_three(alloc: Global) -> Result<Packet, NoMemory> {
    packet_of(alloc, CREATE_ACCOUNTS, 384, 7)
}

/// Submits packets while there is memory for them, and keeps the first refusal that it receives. It submits many, since which allocation
/// fails differs from run to run.
#[derive(Drop)]
struct Asker {
    left: u32,
    refusal: Option<Refusal>,
}

impl Driver for Asker {
    fn next<R: Wait>(&mut self, _rt: &R, alloc: Global) -> Action {
        if self.left == 0 {
            return Action::End;
        }
        self.left = self.left.saturating_sub(1);
        packet_of_three(alloc).map_or(Action::End, Action::Submit)
    }

    fn submitted(&mut self, response: Result<u64, Refusal>) {
        self.refusal = self.refusal.or(response.err());
    }

    fn receive(&mut self, _reply: Reply) {}
}

/// Returns the first refusal that a driver receives; None if there is none, or the run is given up.
fn refusal_by_driver<R: Threads + Wait + Clock + Sync>(rt: &R, alloc: Global) -> Option<Refusal> {
    let mut drivers = Vec::new(alloc);
    let asker = Asker {
        left: 20,
        refusal: None,
    };
    drivers.push(asker).ok()?;
    if drivers.len() != 1 {
        return None;
    }
    let Ok(opened) = open(alloc, 0, 4, 4, 4, 1) else {
        return None;
    };
    let control = ControlPlan::none(alloc).driver();
    let Ok(finished) = drive_all(rt, alloc, opened, drivers, control) else {
        return None;
    };
    let mut refusal = None;
    for asker in &finished.drivers {
        refusal = asker.refusal;
    }
    drop(finished);
    refusal
}

/// Returns the refusal of a client's packet; None if there is none.
fn refusal_of_packet<R: Wait + Clock>(
    rt: &R,
    alloc: Global,
    client: &mut Client<'_>,
) -> Option<Refusal> {
    let packet = packet_of_three(alloc).ok()?;
    match client.submit(rt, alloc, packet) {
        Ok(_) => None,
        Err((packet, refusal)) => {
            drop(packet);
            Some(refusal)
        }
    }
}

/// Returns the refusal of the packet of a client in place of the last submitter; None if there is none, or no client.
fn refusal_of_last<R: Wait + Clock>(
    rt: &R,
    alloc: Global,
    submitters: &mut Vec<Submitter>,
) -> Option<Refusal> {
    let stop = Stop::of(alloc, submitters).ok()?;
    let submitter = submitters.pop()?;
    let mut client = Client::new(submitter, &stop);
    let refusal = refusal_of_packet(rt, alloc, &mut client);
    drop(client);
    drop(stop);
    refusal
}

/// Returns the refusal of a client's packet; None if there is none, or no client.
fn refusal_of_client<R: Wait + Clock>(rt: &R, alloc: Global) -> Option<Refusal> {
    let Ok(mut opened) = open(alloc, 0, 4, 4, 4, 1) else {
        return None;
    };
    let refusal = refusal_of_last(rt, alloc, &mut opened.submitters);
    drop(opened);
    refusal
}

/// Prints that memory ran out for a packet. The only other refusal is that it did for a commit.
fn assert_refusal(rt: &(impl Abort + Print), refusal: Option<Refusal>) {
    if refusal == Some(Refusal::NoMemory) {
        let _ = println!(rt; "the packet is refused");
        return;
    }
    check!(rt; refusal.is_none() || refusal == Some(Refusal::Stopped));
}

/// `tools/gate/refuse-each-growth` counts the lines that this prints: some allocation is the job's, and the packet isn't tried again.
#[test]
fn driver_learns_once_refused_memory(rt: HostRuntime) {
    assert_refusal(&rt, refusal_by_driver(&rt, rt.alloc()));
}

#[test]
fn client_learns_once_refused_memory(rt: HostRuntime) {
    assert_refusal(&rt, refusal_of_client(&rt, rt.alloc()));
}
