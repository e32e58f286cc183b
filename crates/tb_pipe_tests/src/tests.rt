//! What no clause says of a run: when a driver is asked and what it receives, and what becomes of replies that it
//! doesn't wait for.
//!
//! Some tests wait for ever if what they test is wrong. What runs the tests ends each after a minute as failed.

ghost use Rattle.std.specs.Prelude.{List, []};
ghost use Rattle.tb_drive.specs.clauses.Seen.{HaveSeen};
ghost use Rattle.tb_submit.specs.clauses.Ends.{SubmitterState};

use std::alloc::Global;
use std::process::Abort;
use std::sync::Wait;
use std::thread;
use std::thread::Threads;
use std::time::Clock;
use tb_core::{AnyLedger, Ledger};
use tb_drive::{Action, ControlDriver, ControlPlan, Driver, PlanDriver};
use tb_layout::{CREATE_ACCOUNTS, NoMemory};
use tb_pipe::{Finished, drive_over, open};
use tb_submit::Ended;
use tb_test_makers::{check, zeros};
use tb_work::{Outcome, Packet, Refusal, Reply};

mod numbers;
mod pipe;
mod reading;
mod replies;
mod responses;
mod submit;
mod turns;
mod waking;

/// More replies than a submitter of these tests has packets.
const MOST_REPLIES: u32 = 100;

/// What a driver does next.
#[derive(Clone, Copy)]
enum Step {
    /// Submits a packet of this operation with this number of bytes, all of them 0.
    Submit(u8, usize),
    Receive,
}

/// Submits a packet of accounts, without events.
const SUBMIT: Step = Step::Submit(CREATE_ACCOUNTS, 0);

/// What a driver sees, in its order.
#[derive(Clone, Copy, PartialEq, Eq)]
enum Saw {
    /// It is asked what it does next.
    Asked,
    /// It receives the result of a packet.
    Response(Result<u64, Refusal>),
    /// It is given a reply: the submitter, the number, and the user word.
    Given(u32, u64, u64),
    /// Memory ran out for a packet.
    NoMemory,
}

/// Returns what is seen of a reply to a packet that is committed, and None if it isn't.
fn given_by(reply: &Reply) -> Option<Saw> {
    match &reply.outcome {
        Outcome::Committed { .. } => {
            Some(Saw::Given(reply.submitter, reply.number, reply.packet.user))
        }
        Outcome::Shutdown | Outcome::Stopped => None,
    }
}

/// Returns a packet of an operation with this number of zeros.
fn packet_of(alloc: Global, operation: u8, size: usize, user: u64) -> Result<Packet, NoMemory> {
    let mut packet = zeros(alloc, operation, size)?;
    packet.user = user;
    Ok(packet)
}

/// Takes its steps in turn and then ends, and notes what it sees. The user word of its packets is its own. It may give way
/// before each step, so that the replies which are to come are there by then.
#[derive(Drop)]
struct Noter {
    steps: &'static [Step],
    next: usize,
    pause: u32,
    user: u64,
    saw: Vec<Saw>,
}

impl Noter {
    /// Returns a driver that has seen nothing.
    fn new(alloc: Global, steps: &'static [Step], pause: u32, user: u64) -> Noter {
        Noter {
            steps,
            next: 0,
            pause,
            user,
            saw: Vec::new(alloc),
        }
    }

    /// Notes what it sees; what finds no room is missing in what is compared.
    fn note(&mut self, saw: Saw) {
        let _ = self.saw.push(saw);
    }

    /// Returns the next step; None after the last.
    fn step(&mut self) -> Option<Step> {
        let step = *self.steps.get(self.next)?;
        self.next = self.next.saturating_add(1);
        Some(step)
    }
}

impl Driver for Noter {
    fn next<R: Wait>(&mut self, _rt: &R, alloc: Global) -> Action {
        self.note(Saw::Asked);
        for _ in 0..self.pause {
            thread::yield_now();
        }
        match self.step() {
            None => Action::End,
            Some(Step::Receive) => Action::Receive,
            Some(Step::Submit(operation, size)) => {
                match packet_of(alloc, operation, size, self.user) {
                    Ok(packet) => Action::Submit(packet),
                    Err(_) => {
                        self.note(Saw::NoMemory);
                        Action::End
                    }
                }
            }
        }
    }

    fn submitted(&mut self, response: Result<u64, Refusal>) {
        self.note(Saw::Response(response));
    }

    fn receive(&mut self, reply: Reply) {
        if let Some(saw) = given_by(&reply) {
            self.note(saw);
        }
    }
}

/// Runs a pipeline of this limit, capacity and credit over a ledger, with a submitter for each driver. Gives up if it can't be run.
fn run_over<R, L, D, C>(
    rt: &R,
    alloc: Global,
    sizes: (u32, u32, u32),
    ledger: L,
    drivers: Vec<D>,
    control: C,
) -> Finished<D, C, L>
where
    R: Threads + Wait + Clock + Sync + Abort,
    L: AnyLedger + Send,
    D: Driver + Send,
    C: ControlDriver + Send,
    requires seen { (submitters : List SubmitterState) → HaveSeen D.has_seen drivers.items submitters }
    requires queued { C.has_queued control control [] }
{
    let submitters = u32::try_from(drivers.len()).expect(rt, "few drivers");
    let opened = open(alloc, 0, sizes.0, sizes.1, sizes.2, submitters).expect(rt, "it is opened");
    let Ok(opened) = opened.over(ledger) else {
        rt.panic("the ledger has stopped")
    };
    match drive_over(rt, alloc, opened, drivers, control) {
        Ok(finished) => finished,
        Err(_) => rt.panic("the run is given up"),
    }
}

/// Runs a pipeline with a submitter for each driver, without a pulse or a Close.
fn run<R: Threads + Wait + Clock + Sync + Abort>(
    rt: &R,
    alloc: Global,
    limit: u32,
    capacity: u32,
    credit: u32,
    drivers: Vec<Noter>,
) -> Finished<Noter, PlanDriver> {
    let (sizes, ledger) = ((limit, capacity, credit), Ledger::new(alloc, 0));
    run_over(
        rt,
        alloc,
        sizes,
        ledger,
        drivers,
        ControlPlan::none(alloc).driver(),
    )
}

/// What was seen of a submitter in a run: by its driver, and of the replies that its end still has.
#[derive(Drop)]
struct Seen {
    user: u64,
    by_driver: Vec<Saw>,
    left: Vec<Option<Saw>>,
}

/// Returns the replies that an end still has, each by what is seen of it.
fn replies_left(rt: &impl Abort, alloc: Global, ended: &mut Ended) -> Vec<Option<Saw>> {
    let mut left = Vec::new(alloc);
    for _ in 0..MOST_REPLIES {
        let Some(reply) = ended.reply() else {
            break;
        };
        left.push(given_by(&reply)).expect(rt, "memory");
        drop(reply);
    }
    left
}

/// Returns what was seen of each submitter, the drivers and the ends both in the order in which they came back.
fn seen_in(rt: &impl Abort, alloc: Global, finished: Finished<Noter, PlanDriver>) -> Vec<Seen> {
    let mut seen = Vec::new(alloc);
    let Finished {
        drivers,
        mut report,
        ..
    } = finished;
    check!(rt; drivers.len() == report.ends.len());
    let mut submitter = 0usize;
    for driver in drivers {
        let ended = report.ends.get_mut(submitter).expect(rt, "an end");
        let one = Seen {
            user: driver.user,
            left: replies_left(rt, alloc, ended),
            by_driver: driver.saw,
        };
        seen.push(one).expect(rt, "memory");
        submitter = submitter.saturating_add(1);
    }
    drop(report);
    seen
}

/// Runs one submitter with these steps, without a pulse or a Close: what was seen of it.
fn run_one<R: Threads + Wait + Clock + Sync + Abort>(
    rt: &R,
    alloc: Global,
    limit: u32,
    capacity: u32,
    credit: u32,
    steps: &'static [Step],
    pause: u32,
) -> Seen {
    let mut drivers = Vec::new(alloc);
    let driver = Noter::new(alloc, steps, pause, 7);
    drivers.push(driver).expect(rt, "memory");
    let finished = run(rt, alloc, limit, capacity, credit, drivers);
    let mut seen = seen_in(rt, alloc, finished);
    seen.pop().expect(rt, "a submitter came back")
}
