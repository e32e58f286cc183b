//! A control whose driver decides by itself when to pulse.

use super::{packet_of, run_over};
use std::alloc::Global;
use std::process::Abort;
use std::sync::Wait;
use std::sync::atomic::{AtomicU32, Ordering};
use std::thread;
use tb_core::Ledger;
use tb_drive::{Action, ControlAction, ControlDriver, Driver};
use tb_layout::CREATE_ACCOUNTS;
use tb_test_makers::check;
use tb_work::{Outcome, Refusal, Reply};

/// How many pulses and how many packets there are.
const ROUNDS: u32 = 3;

/// How often a driver looks whether it is its turn, before it continues out of turn.
const MOST_LOOKS: u32 = 100_000_000;

/// Waits for a turn of the submitter, which has each odd one; the control has each even one.
fn wait_for(turn: &AtomicU32, wanted: u32) {
    for _ in 0..MOST_LOOKS {
        if turn.load(Ordering::SeqCst) >= wanted {
            return;
        }
        thread::yield_now();
    }
}

/// Pulses in each of its turns, with the turn as the moment, and in its last turn ends by the Close. The next turn begins
/// once its pulse is queued.
#[derive(Drop)]
struct Pulser<'a> {
    turn: &'a AtomicU32,
    own: u32,
    responses: Vec<Result<(), Refusal>>,
}

impl<'a> ControlDriver for Pulser<'a> {
    fn next<R: Wait>(&mut self, _rt: &R) -> ControlAction {
        if self.turn.load(Ordering::SeqCst) < self.own {
            return ControlAction::Wait;
        }
        if self.own >= 2 * ROUNDS {
            return ControlAction::Close;
        }
        ControlAction::Pulse(u64::from(self.own))
    }

    fn pulsed(&mut self, response: Result<(), Refusal>) {
        let _ = self.responses.push(response);
        self.own = self.own.saturating_add(2);
        self.turn.fetch_add(1, Ordering::SeqCst);
    }
}

/// Submits a packet in each of its turns, and waits for the reply. The next turn begins once it has the reply.
#[derive(Drop)]
struct Submits<'a> {
    turn: &'a AtomicU32,
    own: u32,
    waits: bool,
    places: Vec<u64>,
}

impl<'a> Driver for Submits<'a> {
    fn next<R: Wait>(&mut self, _rt: &R, alloc: Global) -> Action {
        if self.waits {
            return Action::Receive;
        }
        if self.own >= 2 * ROUNDS {
            return Action::End;
        }
        wait_for(self.turn, self.own);
        self.own = self.own.saturating_add(2);
        self.waits = true;
        match packet_of(alloc, CREATE_ACCOUNTS, 0, 0) {
            Ok(packet) => Action::Submit(packet),
            Err(_) => Action::End,
        }
    }

    fn submitted(&mut self, _response: Result<u64, Refusal>) {}

    fn receive(&mut self, reply: Reply) {
        if let Outcome::Committed { place, .. } = reply.outcome {
            let _ = self.places.push(place);
        }
        self.waits = false;
        self.turn.fetch_add(1, Ordering::SeqCst);
    }
}

/// The control pulses only once the reply to the packet before is read, so that pulses and packets are committed in turn,
/// and no packet is behind the Close.
#[test]
fn pulses_in_turn_with_packets(rt: HostRuntime) {
    let alloc = rt.alloc();
    let turn = AtomicU32::new(0);
    let submits = Submits {
        turn: &turn,
        own: 1,
        waits: false,
        places: Vec::new(alloc),
    };
    let pulser = Pulser {
        turn: &turn,
        own: 0,
        responses: Vec::new(alloc),
    };
    let mut drivers = Vec::new(alloc);
    drivers.push(submits).expect(&rt, "memory");
    let finished = run_over(
        &rt,
        alloc,
        (4, 64, 16),
        Ledger::new(alloc, 0),
        drivers,
        pulser,
    );
    check!(&rt; finished.control.responses.as_slice() == [Ok(()), Ok(()), Ok(())].as_slice());
    check!(&rt; finished.drivers.len() == 1);
    check!(&rt; finished.drivers[0].places.as_slice() == [1u64, 3, 5].as_slice());
    drop(finished);
}
