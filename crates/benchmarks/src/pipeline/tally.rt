//! Sums that are the same in every order.

use tb_machine::Machine;
use tb_work::{Answer, Outcome, Reply};

/// Sums over replies. One that isn't committed counts as a failure.
#[derive(Clone, Copy)]
pub(crate) struct Tally {
    pub(crate) replies: u64,
    pub(crate) failures: u64,
    pub(crate) places: u64,
}

impl Tally {
    /// Returns the tally of no reply.
    pub(crate) fn new() -> Tally {
        Tally {
            replies: 0,
            failures: 0,
            places: 0,
        }
    }

    /// Counts one reply more.
    fn count(&mut self, failures: u64, place: u64) {
        self.replies = self.replies.wrapping_add(1);
        self.failures = self.failures.wrapping_add(failures);
        self.places = self.places.wrapping_add(place);
    }

    /// Adds a reply.
    pub(crate) fn add(&mut self, reply: &Reply) {
        match &reply.outcome {
            Outcome::Committed {
                place,
                answer: Answer::Failures(failures),
            } => self.count(failures.as_slice().len() as u64, *place),
            _ => self.count(1, 0),
        }
    }

    /// Adds the sums over other replies.
    pub(crate) fn join(&mut self, other: Tally) {
        self.replies = self.replies.wrapping_add(other.replies);
        self.failures = self.failures.wrapping_add(other.failures);
        self.places = self.places.wrapping_add(other.places);
    }
}

/// Returns a sum over the balances of the first accounts.
pub(crate) fn sum_of_balances(machine: &Machine, accounts: u64) -> u128 {
    let mut sum = 0u128;
    for index in 0..accounts as usize {
        if let Some(account) = machine.account_at(index) {
            let debits = account.debits_posted.wrapping_mul(3);
            let balances = debits.wrapping_add(account.credits_posted);
            sum = sum.wrapping_add(account.id.wrapping_mul(balances));
        }
    }
    sum
}
