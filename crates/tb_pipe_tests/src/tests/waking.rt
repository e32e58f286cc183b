//! Threads that sleep are woken: a wake-up that is lost ends no test, since its thread sleeps for ever.

use super::{packet_of, run_over};
use std::alloc::Global;
use std::process::Abort;
use std::sync::Wait;
use std::thread;
use std::thread::Threads;
use std::time::Clock;
use tb_core::Ledger;
use tb_drive::{Action, ControlPlan, Driver};
use tb_layout::CREATE_ACCOUNTS;
use tb_pipe::{Finished, Report};
use tb_test_makers::check;
use tb_work::{Refusal, Reply};

/// Sends packets without events, at most `credit` ahead of the replies, and waits for all replies. Before each packet it
/// yields a number of times below `longest`, given by a fixed sequence. So the pipeline is idle after some packets and
/// busy after others.
#[derive(Drop)]
struct WakingSender {
    packets: u32,
    longest: u32,
    credit: u32,
    number: u32,
    sent: u32,
    replies: u32,
}

impl WakingSender {
    fn new(packets: u32, longest: u32, credit: u32, seed: u32) -> WakingSender {
        WakingSender {
            packets,
            longest,
            credit,
            number: seed,
            sent: 0,
            replies: 0,
        }
    }

    /// Returns the next number of the sequence, below `longest`.
    fn gap(&mut self) -> u32 {
        self.number = self
            .number
            .wrapping_mul(1_664_525)
            .wrapping_add(1_013_904_223);
        (self.number >> 8) % self.longest.max(1)
    }
}

impl Driver for WakingSender {
    fn next<R: Wait>(&mut self, _rt: &R, alloc: Global) -> Action {
        let unread = self.sent.saturating_sub(self.replies);
        let is_last = self.sent == self.packets;
        if unread >= self.credit || is_last && unread > 0 {
            return Action::Receive;
        }
        if is_last {
            return Action::End;
        }
        for _ in 0..self.gap() {
            thread::yield_now();
        }
        self.sent = self.sent.saturating_add(1);
        match packet_of(alloc, CREATE_ACCOUNTS, 0, 0) {
            Ok(packet) => Action::Submit(packet),
            Err(_) => Action::End,
        }
    }

    /// Ends after a refused packet, so that a test fails and doesn't wait for a reply to it.
    fn submitted(&mut self, response: Result<u64, Refusal>) {
        if response.is_err() {
            self.sent = self.sent.saturating_sub(1);
            self.packets = self.sent;
        }
    }

    fn receive(&mut self, _reply: Reply) {
        self.replies = self.replies.saturating_add(1);
    }
}

/// What the senders of a run do: a driver for each of the seeds, and a control that pulses.
#[derive(Clone, Copy)]
struct Load {
    packets: u32,
    longest: u32,
    credit: u32,
    seeds: u32,
    pulses: u32,
}

impl Load {
    /// Returns how many packets and pulses there are.
    fn places(self) -> u64 {
        u64::from(self.packets) * u64::from(self.seeds) + u64::from(self.pulses)
    }

    /// Returns the drivers.
    fn drivers(self, rt: &impl Abort, alloc: Global) -> Vec<WakingSender> {
        let mut drivers = Vec::new(alloc);
        for seed in 1..=self.seeds {
            let sender = WakingSender::new(self.packets, self.longest, self.credit, seed);
            drivers.push(sender).expect(rt, "memory");
        }
        drivers
    }
}

/// Runs a load over a ledger. Asserts that each driver was given a reply to each packet, and that all packets and pulses are committed.
/// Returns the ledger.
fn ledger_after<R: Threads + Wait + Clock + Sync + Abort>(
    rt: &R,
    alloc: Global,
    ledger: Ledger,
    load: Load,
) -> Ledger {
    let places = ledger.places();
    let drivers = load.drivers(rt, alloc);
    let mut control = ControlPlan::none(alloc);
    control
        .moments
        .resize(load.pulses as usize, 1)
        .expect(rt, "memory");
    let finished = run_over(
        rt,
        alloc,
        (4, 8, load.credit),
        ledger,
        drivers,
        control.driver(),
    );
    check!(rt; finished.drivers.len() == load.seeds as usize);
    for driver in &finished.drivers {
        check!(rt; driver.replies == load.packets);
    }
    check!(rt; finished.control.refused == 0);
    let Finished { report, .. } = finished;
    let Report { ledger, .. } = report;
    check!(rt; ledger.places().wrapping_sub(places) == load.places());
    ledger
}

/// Does the same over a new ledger.
fn assert_replies<R: Threads + Wait + Clock + Sync + Abort>(rt: &R, alloc: Global, load: Load) {
    drop(ledger_after(rt, alloc, Ledger::new(alloc, 0), load));
}

/// One sender, with one packet in flight.
const ONE: Load = Load {
    packets: 10_000,
    longest: 100,
    credit: 1,
    seeds: 1,
    pulses: 0,
};

/// All threads sleep before most of the packets.
#[test]
fn ten_thousand_packets_after_idling(rt: HostRuntime) {
    assert_replies(&rt, rt.alloc(), ONE);
}

/// Some threads go to sleep while others wake them.
#[test]
fn sixteen_senders_at_random_gaps(rt: HostRuntime) {
    let load = Load {
        packets: 1000,
        longest: 30,
        seeds: 16,
        pulses: 100,
        ..ONE
    };
    assert_replies(&rt, rt.alloc(), load);
}

#[test]
fn thirty_thousand_packets_of_each_of_two(rt: HostRuntime) {
    let load = Load {
        packets: 30_000,
        longest: 0,
        credit: 4,
        seeds: 2,
        ..ONE
    };
    assert_replies(&rt, rt.alloc(), load);
}

/// Each pulse is an entry of the journal, and with a credit of one each packet is too. A second run goes on with that ledger.
#[test]
fn seventy_thousand_pulses_among_a_thousand_packets(rt: HostRuntime) {
    let load = Load {
        packets: 1000,
        longest: 0,
        pulses: 70_000,
        ..ONE
    };
    let new = Ledger::new(rt.alloc(), 0);
    let ledger = ledger_after(&rt, rt.alloc(), new, load);
    let again = Load { pulses: 0, ..load };
    drop(ledger_after(&rt, rt.alloc(), ledger, again));
}
