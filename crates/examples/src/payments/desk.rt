//! A desk: the driver of one submitter.

ghost use Rattle.std.specs.Prelude.{[]};

use crate::payments::order::{Order, Till};
use crate::payments::tally::Tally;
use std::alloc::Global;
use std::sync::Wait;
use std::vec::IntoIter;
use tb_drive::{Action, Driver};
use tb_work::{Accounts, Answer, Outcome, Refusal, Reply};

/// Queues its orders without waiting between them, and reads all replies. Then it looks up its accounts until nothing
/// is held on them, and ends.
#[derive(Drop)]
pub(crate) struct Desk {
    till: Till,
    orders: IntoIter<Order>,
    /// How many of its packets are queued with their replies unread.
    unread: usize,
    /// Whether it gives up: an allocation failed, or the pipeline is shut or stopped.
    stopped: bool,
    pub(crate) balances: Option<Accounts>,
    pub(crate) tally: Tally,
}

impl Desk {
    ghost use Rattle.examples.specs.clauses.Desk.{HasCounted};

    /// Returns a desk for these orders; `ahead` of its packets are queued already.
    pub(crate) fn new(alloc: Global, till: Till, orders: Vec<Order>, ahead: usize) -> Desk
        ensures { HasCounted result.tally [] }
    {
        Desk {
            till,
            orders: orders.into_iter(),
            unread: ahead,
            stopped: false,
            balances: None,
            tally: Tally::new(alloc),
        }
    }

    /// Returns `Receive` while replies are unread: after `End` they may never be received, and then aren't counted.
    fn receive_or_end(&self) -> Action {
        if self.unread > 0 {
            Action::Receive
        } else {
            Action::End
        }
    }

    /// Returns whether it has seen its balances, and nothing is held.
    fn is_settled(&self) -> bool {
        match &self.balances {
            Some(accounts) => accounts.as_slice().iter().all(|account| account.debits_pending == 0
                && account.credits_pending == 0),
            None => false,
        }
    }
}

impl Driver for Desk {
    ghost use Rattle.examples.specs.clauses.Desk.{HasAskedOf, HasEndedOf, HasSeenOf};

    ghost has_seen = { HasSeenOf };

    ghost has_asked = { HasAskedOf };

    ghost has_ended = { HasEndedOf };

    fn next<R: Wait>(&mut self, _rt: &R, alloc: Global) -> Action {
        if self.stopped {
            return self.receive_or_end();
        }
        let packet = match self.orders.next() {
            Some(order) => order.packet(alloc, self.till),
            None if self.unread > 0 => return Action::Receive,
            None if self.is_settled() => return Action::End,
            None => self.till.look_up(alloc),
        };
        match packet {
            Ok(packet) => Action::Submit(packet),
            Err(_) => {
                self.stopped = true;
                self.receive_or_end()
            }
        }
    }

    fn submitted(&mut self, response: Result<u64, Refusal>) {
        match response {
            Ok(_) => self.unread = self.unread.saturating_add(1),
            Err(_) => self.stopped = true,
        }
    }

    fn receive(&mut self, reply: Reply) {
        self.unread = self.unread.saturating_sub(1);
        self.tally.add(&reply);
        let Reply { outcome, .. } = reply;
        match outcome {
            Outcome::Committed { answer, .. } => {
                if let Answer::Accounts(accounts) = answer {
                    self.balances = Some(accounts);
                }
            }
            Outcome::Shutdown | Outcome::Stopped => self.stopped = true,
        }
    }
}
