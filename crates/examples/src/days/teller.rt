//! A teller.

use std::alloc::Global;
use std::sync::Wait;
use tb_drive::{Action, Driver};
use tb_layout::Transfer;
use tb_work::{Answer, Outcome, Packet, Refusal, Reply};

/// The code of an account that is there already, with the same fields.
const EXISTS_ACCOUNT: u32 = 21;

/// The code of a transfer that is there already, with the same fields.
const EXISTS_TRANSFER: u32 = 46;

/// Posts three transfers, each under the id after the last one's, reads as many replies, and counts events that exist. What was
/// queued ahead is answered first, so that as many of its own replies stay unread.
#[derive(Drop)]
pub struct Teller {
    left: u8,
    unread: u32,
    last: Transfer,
    pub exists_accounts: u32,
    pub exists_transfers: u32,
}

impl Teller {
    /// Returns a teller that is to post transfers in ledger 1, with the ids after this one.
    pub fn new(id: u128, debit_account_id: u128, credit_account_id: u128, amount: u128) -> Teller {
        let last = Transfer {
            id,
            debit_account_id,
            credit_account_id,
            amount,
            ledger: 1,
            code: 1,
            ..Transfer::default()
        };
        Teller {
            left: 3,
            unread: 0,
            last,
            exists_accounts: 0,
            exists_transfers: 0,
        }
    }

    /// Counts a failed event.
    fn count(&mut self, code: u32) {
        if code == EXISTS_ACCOUNT {
            self.exists_accounts = self.exists_accounts.saturating_add(1);
        } else if code == EXISTS_TRANSFER {
            self.exists_transfers = self.exists_transfers.saturating_add(1);
        }
    }
}

impl Driver for Teller {
    fn next<R: Wait>(&mut self, _rt: &R, alloc: Global) -> Action {
        if self.left == 0 {
            return if self.unread > 0 {
                Action::Receive
            } else {
                Action::End
            };
        }
        self.left -= 1;
        self.last.id = self.last.id.wrapping_add(1);
        Packet::of_transfers(alloc, &[self.last], 0).map_or(Action::End, Action::Submit)
    }

    fn submitted(&mut self, response: Result<u64, Refusal>) {
        if response.is_ok() {
            self.unread = self.unread.saturating_add(1);
        }
    }

    fn receive(&mut self, reply: Reply) {
        self.unread = self.unread.saturating_sub(1);
        let Reply { outcome, .. } = reply;
        let Outcome::Committed {
            answer: Answer::Failures(failures),
            ..
        } = outcome
        else {
            return;
        };
        for failure in failures.as_slice() {
            self.count(failure.code);
        }
    }
}
