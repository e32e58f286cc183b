//! A till: the driver of one submitter.

use crate::service::packets::{PacketResult, TillAccounts, is_transient, result_of};
use std::alloc::Global;
use std::sync::Wait;
use std::time::{Duration, Instant};
use std::{io, thread};
use tb_drive::{Action, Driver};
use tb_figures::{Figures, Retries};
use tb_layout::NoMemory;
use tb_work::{Packet, Refusal, Reply};

/// A millisecond, in nanoseconds.
const MILLISECOND: u64 = 1_000_000;

/// How long a till waits between two top-ups of its wallet.
const TOP_UP_EVERY: u64 = 50 * MILLISECOND;

/// How long a till waits before it looks its balance up again.
const BALANCE_EVERY: u64 = 100 * MILLISECOND;

/// How long a till waits before it writes figures again.
const FIGURES_EVERY: u64 = 200 * MILLISECOND;

/// How many payments may be in flight, or wait for their next try.
const PAYMENTS_MAX: usize = 32;

/// How often a payment is tried.
const TRIES: u64 = 8;

/// Queues its packets without waiting between them, reads all replies, and prints a line for each as it comes.
///
/// Its packet 0 makes its accounts. Each later one is a payment, a top-up or a look-up, and a transfer's id is made of its packet's
/// number. So a till that knows how many of its packets are stored continues after them, and no transfer is posted twice.
///
/// A payment fails if the wallet is empty. It is tried again after a delay that doubles, with a new id, and given up after eight tries.
#[derive(Drop)]
pub(crate) struct Till {
    rt: HostRuntime,
    started: Instant,
    number: u32,
    accounts: TillAccounts,
    /// The number of its next packet.
    next: u64,
    /// The number of the packet whose reply it reads next.
    answered: u64,
    /// How many payments it still begins.
    left: u64,
    /// How often each payment was tried that is to be tried again. Moments are nanoseconds since the till started.
    retries: Retries<u64>,
    top_up_at: u64,
    balance_at: u64,
    figures_at: u64,
    /// What it writes now and then, if it does.
    figures: Option<Figures>,
    /// Whether it queues nothing more: it gave up, or the ledger stopped.
    stopped: bool,
    /// Whether it gave up: an allocation failed, a packet was refused, or a line couldn't be written.
    pub(crate) gave_up: bool,
}

impl Till {
    /// Returns a till of which `stored` packets are in the ledger, and which is to begin this number of payments.
    pub(crate) fn new(rt: HostRuntime, number: u32, stored: u64, payments: u64) -> Option<Till> {
        let started = Instant::now(&rt).ok()?;
        let retries = Retries::with_bound(rt.alloc(), PAYMENTS_MAX).ok()?;
        Some(Till {
            rt,
            started,
            number,
            accounts: TillAccounts::of(number),
            next: stored,
            answered: stored,
            left: payments,
            retries,
            top_up_at: 0,
            balance_at: BALANCE_EVERY,
            figures_at: FIGURES_EVERY,
            figures: None,
            stopped: false,
            gave_up: false,
        })
    }

    /// Makes it write these figures on standard error now and then.
    pub(crate) fn write_figures(&mut self, figures: Figures) {
        self.figures = Some(figures);
    }

    /// Returns how long it has run, in nanoseconds. Returns None if the clock fails.
    fn now(&self) -> Option<u64> {
        let time = self.started.elapsed(&self.rt).ok()?;
        u64::try_from(time.as_nanos()).ok()
    }

    fn give_up(&mut self) {
        self.stopped = true;
        self.gave_up = true;
    }

    /// Returns how many of its packets have no reply yet.
    fn in_flight(&self) -> u64 {
        self.next.saturating_sub(self.answered)
    }

    /// Writes a line of figures if it is time to.
    fn show(&mut self, now: u64) {
        if now < self.figures_at {
            return;
        }
        self.figures_at = now.saturating_add(FIGURES_EVERY);
        if let Some(figures) = &self.figures {
            let read = figures.read();
            let _ = eprintln!(self.rt; "{read}");
        }
    }

    /// Returns the packet that is to be queued now, if there is one.
    fn packet(&mut self, now: u64, alloc: Global) -> Option<Result<Packet, NoMemory>> {
        if self.left == 0 && self.retries.len() == 0 {
            return None;
        }
        if self.next == 0 {
            return Some(self.accounts.made(alloc));
        }
        if now >= self.top_up_at {
            self.top_up_at = now.saturating_add(TOP_UP_EVERY);
            return Some(self.accounts.top_up(alloc, self.next));
        }
        if now >= self.balance_at {
            self.balance_at = now.saturating_add(BALANCE_EVERY);
            return Some(self.accounts.look_up(alloc));
        }
        let tries = self.tries(now)?;
        Some(self.accounts.payment(alloc, self.next, tries))
    }

    /// Returns how often the next payment will have been tried: one that is due again, or a new one if not too many are on their way.
    fn tries(&mut self, now: u64) -> Option<u64> {
        if let Some(tries) = self.retries.pop_due(now) {
            return Some(tries.saturating_add(1));
        }
        let on_their_way = self.in_flight().saturating_add(self.retries.len() as u64);
        if self.left == 0 || on_their_way >= PAYMENTS_MAX as u64 {
            return None;
        }
        self.left -= 1;
        Some(1)
    }

    /// Waits for a reply, or for the moment of the next try, in steps of a millisecond. Ends if there is neither. After `End` replies may
    /// never be received, and then no line says what became of their packets.
    fn wait(&self, now: u64) -> Action {
        if self.in_flight() > 0 {
            return Action::Receive;
        }
        match self.retries.next_moment() {
            Some(moment) if !self.stopped => {
                let rest = moment.saturating_sub(now).min(MILLISECOND);
                thread::sleep(&self.rt, Duration::from_nanos(rest));
                Action::Receive
            }
            _ => Action::End,
        }
    }

    /// Lets a payment that was tried this often be tried again after a delay, 2 milliseconds after the first try.
    fn retry(&mut self, tries: u64) {
        if tries == 0 || tries >= TRIES {
            return;
        }
        let delay = MILLISECOND << tries;
        let is_kept = match self.now() {
            Some(now) => self.retries.add(now.saturating_add(delay), tries).is_ok(),
            None => false,
        };
        if !is_kept {
            self.give_up();
        }
    }

    /// Prints the result of a packet.
    fn print(&self, packet: u64, packet_result: PacketResult) -> io::Result<()> {
        let till = self.number;
        match packet_result {
            PacketResult::Committed(place) => {
                println!(self.rt; "till {till}: packet {packet} is committed at place {place}")
            }
            PacketResult::Failed(place, code) => {
                println!(self.rt;
                    "till {till}: packet {packet} failed at place {place} with {code}"
                )
            }
            PacketResult::Balance(place, balance) => {
                println!(self.rt; "till {till}: packet {packet} found {balance} at place {place}")
            }
            PacketResult::Stopped => println!(self.rt; "till {till}: packet {packet} is stopped"),
        }
    }
}

impl Driver for Till {
    fn next<R: Wait>(&mut self, _rt: &R, alloc: Global) -> Action {
        let Some(now) = self.now() else {
            self.give_up();
            return self.wait(0);
        };
        self.show(now);
        if self.stopped {
            return self.wait(now);
        }
        match self.packet(now, alloc) {
            Some(Ok(packet)) => Action::Submit(packet),
            Some(Err(_)) => {
                self.give_up();
                self.wait(now)
            }
            None => self.wait(now),
        }
    }

    fn submitted(&mut self, response: Result<u64, Refusal>) {
        match response {
            Ok(_) => self.next = self.next.saturating_add(1),
            Err(_) => self.give_up(),
        }
    }

    fn receive(&mut self, reply: Reply) {
        let Reply {
            packet,
            outcome,
            ..
        } = reply;
        let tries = packet.user;
        drop(packet);
        let packet_result = result_of(outcome);
        let number = self.answered;
        self.answered = number.saturating_add(1);
        match packet_result {
            PacketResult::Failed(_, code) if is_transient(code) => self.retry(tries),
            PacketResult::Stopped => self.stopped = true,
            _ => {}
        }
        if self.print(number, packet_result).is_err() {
            self.give_up();
        }
    }
}
