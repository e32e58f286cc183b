//! What a till's packets contain, and what their replies say.

use std::alloc::Global;
use tb_layout::{Account, NoMemory, Transfer};
use tb_work::{Answer, Outcome, Packet};

/// How much one top-up moves.
const TOP_UP: u128 = 20;

/// The results after which a transfer may succeed later, under a new id: an account isn't there yet, a pending transfer isn't, or an
/// account's limit is reached.
const TRANSIENT: [u32; 5] = [21, 22, 25, 54, 55];

/// The accounts of a till.
#[derive(Clone, Copy)]
pub(crate) struct TillAccounts {
    /// What pays, and can't pay more than it has.
    pub(crate) wallet: u128,
    /// What is paid.
    pub(crate) shop: u128,
    /// What tops the wallet up.
    pub(crate) bank: u128,
}

impl TillAccounts {
    /// Returns the ids of the accounts of a till.
    pub(crate) fn of(till: u32) -> TillAccounts {
        let till = u128::from(till);
        TillAccounts {
            wallet: till * 3 + 1,
            shop: till * 3 + 2,
            bank: till * 3 + 3,
        }
    }

    /// Returns a packet that makes them.
    pub(crate) fn made(&self, alloc: Global) -> Result<Packet, NoMemory> {
        let shop = Account {
            id: self.shop,
            ledger: 1,
            code: 1,
            ..Account::default()
        };
        let wallet = Account {
            id: self.wallet,
            flags: Account::DEBITS_MUST_NOT_EXCEED_CREDITS,
            ..shop
        };
        let bank = Account {
            id: self.bank,
            ..shop
        };
        Packet::of_accounts(alloc, &[wallet, shop, bank], 0)
    }

    /// Returns a transfer between two of them, whose id is made of its packet's number.
    fn transfer(&self, number: u64, debit: u128, credit: u128, amount: u128) -> Transfer {
        Transfer {
            id: self.wallet << 64 | u128::from(number),
            debit_account_id: debit,
            credit_account_id: credit,
            amount,
            ledger: 1,
            code: 1,
            ..Transfer::default()
        }
    }

    /// Returns a payment of 1 in the packet of this number. Its user word is how often the payment was tried, with this try.
    pub(crate) fn payment(
        &self,
        alloc: Global,
        number: u64,
        tries: u64,
    ) -> Result<Packet, NoMemory> {
        let payment = self.transfer(number, self.wallet, self.shop, 1);
        Packet::of_transfers(alloc, &[payment], tries)
    }

    /// Returns a top-up of the wallet in the packet of this number.
    pub(crate) fn top_up(&self, alloc: Global, number: u64) -> Result<Packet, NoMemory> {
        let top_up = self.transfer(number, self.bank, self.wallet, TOP_UP);
        Packet::of_transfers(alloc, &[top_up], 0)
    }

    /// Returns a packet that looks the wallet up.
    pub(crate) fn look_up(&self, alloc: Global) -> Result<Packet, NoMemory> {
        Packet::of_ids(alloc, &[self.wallet], 0)
    }
}

/// The result of a packet.
#[derive(Clone, Copy)]
pub(crate) enum PacketResult {
    /// The packet is committed at a place, and all its events succeeded.
    Committed(u64),
    /// The packet is committed at a place, and an event failed with a code.
    Failed(u64, u32),
    /// The wallet had this balance at a place.
    Balance(u64, u128),
    /// The packet isn't committed.
    Stopped,
}

/// Returns the result of a packet with this outcome.
pub(crate) fn result_of(outcome: Outcome) -> PacketResult {
    let (place, answer) = match outcome {
        Outcome::Committed { place, answer } => (place, answer),
        Outcome::Shutdown | Outcome::Stopped => return PacketResult::Stopped,
    };
    match answer {
        Answer::Failures(failures) => match failures.as_slice().first() {
            None => PacketResult::Committed(place),
            Some(failure) => PacketResult::Failed(place, failure.code),
        },
        Answer::Accounts(accounts) => PacketResult::Balance(
            place,
            accounts.as_slice().first().map_or(0, balance),
        ),
    }
}

/// Returns what an account has.
fn balance(account: &Account) -> u128 {
    account.credits_posted.saturating_sub(account.debits_posted)
}

/// Returns whether a transfer that failed with a code may succeed later.
pub(crate) fn is_transient(code: u32) -> bool {
    TRANSIENT.contains(&code)
}
