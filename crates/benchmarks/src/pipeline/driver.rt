//! What a submitter sends.

use crate::pipeline::events::{accounts, transfers};
use crate::pipeline::request::Load;
use crate::pipeline::tally::Tally;
use std::alloc::{AllocError, Global};
use std::sync::Wait;
use tb_drive::{Action, Driver};
use tb_work::{Packet, Refusal, Reply};

/// Makes the accounts of its submitter, sends the load, and reads all replies. A packet that is refused ends it.
#[derive(Drop)]
pub(crate) struct LoadDriver {
    number: u64,
    load: Load,
    sent: u64,
    gives_up: bool,
    pub(crate) tally: Tally,
}

impl LoadDriver {
    /// Returns the driver of the submitter of a number, which has sent nothing.
    pub(crate) fn new(number: u64, load: Load) -> LoadDriver {
        LoadDriver {
            number,
            load,
            sent: 0,
            gives_up: false,
            tally: Tally::new(),
        }
    }

    /// Sends nothing more.
    pub(crate) fn finish(&mut self) {
        self.load.packets = self.load.packets.min(self.sent.saturating_sub(1));
    }

    /// Returns the packet of accounts, or after it the next one of the load.
    fn packet(&self, alloc: Global) -> Result<Packet, AllocError> {
        if self.sent == 0 {
            return accounts(alloc, self.number);
        }
        let events = self.load.events;
        let before = self.sent.wrapping_sub(1).wrapping_mul(events);
        transfers(alloc, self.number, before, events)
    }

    /// Returns how many packets may be unanswered as the next one is sent: the load waits for the accounts.
    fn most_unanswered(&self) -> u64 {
        if self.sent == 1 {
            1
        } else {
            u64::from(self.load.credit)
        }
    }
}

impl Driver for LoadDriver {
    fn next<R: Wait>(&mut self, _rt: &R, alloc: Global) -> Action {
        let unanswered = self.sent.wrapping_sub(self.tally.replies);
        let all_sent = self.sent > self.load.packets;
        if self.gives_up || all_sent && unanswered == 0 {
            return Action::End;
        }
        if all_sent || unanswered >= self.most_unanswered() {
            return Action::Receive;
        }
        match self.packet(alloc) {
            Ok(packet) => {
                self.sent = self.sent.wrapping_add(1);
                Action::Submit(packet)
            }
            Err(_) => Action::End,
        }
    }

    fn submitted(&mut self, response: Result<u64, Refusal>) {
        self.gives_up = response.is_err();
    }

    fn receive(&mut self, reply: Reply) {
        self.tally.add(&reply);
    }
}
