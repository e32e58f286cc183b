//! What customers ask of a desk, as packets.

ghost use Rattle.std.specs.Prelude.{◌≡◌, IfOk};
ghost use Rattle.examples.specs.clauses.Desk.{word_of};

use std::alloc::Global;
use tb_layout::{Account, NoMemory, Transfer};
use tb_work::Packet;

/// The user words of packets. A reply returns its packet's word, and a desk counts by it.
pub(crate) const OTHER: u64 = 0;

pub(crate) const CAPTURE: u64 = 1;

pub(crate) const VOID: u64 = 2;

/// The ids of a desk's accounts: money comes from the bank, waits in the wallet and goes to the shop.
#[derive(Clone, Copy)]
pub(crate) struct Till {
    bank: u128,
    wallet: u128,
    shop: u128,
}

impl Till {
    /// Returns a desk's accounts.
    pub(crate) fn of(desk: u32) -> Till {
        let bank = 10 * (u128::from(desk) + 1);
        let (wallet, shop) = (bank + 1, bank + 2);
        Till { bank, wallet, shop }
    }

    /// Returns a packet that makes the accounts. The wallet can't spend more than it has.
    pub(crate) fn opening(self, alloc: Global) -> Result<Packet, NoMemory> {
        let mut accounts = [self.bank, self.wallet, self.shop].map(|id| Account {
            id,
            ledger: 1,
            code: 1,
            ..Account::default()
        });
        accounts[1].flags = Account::DEBITS_MUST_NOT_EXCEED_CREDITS;
        Packet::of_accounts(alloc, &accounts, OTHER)
    }

    /// Returns a packet that asks for the accounts with their balances.
    pub(crate) fn look_up(self, alloc: Global) -> Result<Packet, NoMemory> {
        Packet::of_ids(alloc, &[self.bank, self.wallet, self.shop], OTHER)
    }
}

type Id = u128;

type Amount = u128;

type Seconds = u32;

/// What a customer asks for: a transfer, whose id comes first.
#[derive(Clone, Copy)]
pub(crate) enum Order {
    /// Moves an amount from the bank to the wallet.
    Deposit(Id, Amount),
    /// Reserves an amount for the shop, for some seconds; 0 is for ever.
    Hold(Id, Amount, Seconds),
    /// Moves an amount of a hold to the shop and releases the rest; `u128::MAX` moves all of it.
    Capture(Id, Id, Amount),
    /// Releases a hold.
    Void(Id, Id),
}

/// Returns a transfer that moves an amount from one account to another.
fn moving(id: Id, from: u128, to: u128, amount: Amount) -> Transfer {
    Transfer {
        id,
        debit_account_id: from,
        credit_account_id: to,
        amount,
        ledger: 1,
        code: 1,
        ..Transfer::default()
    }
}

/// Returns a transfer that resolves a hold. It takes accounts, ledger and code from the hold.
fn resolving(id: Id, hold: Id, amount: Amount, flags: u16) -> Transfer {
    Transfer {
        id,
        pending_id: hold,
        amount,
        flags,
        ..Transfer::default()
    }
}

impl Order {
    /// Returns the user word of its packet.
    fn word(self) -> u64
        ensures { result ≡ word_of self }
    {
        match self {
            Order::Capture(..) => CAPTURE,
            Order::Void(..) => VOID,
            _ => OTHER,
        }
    }

    /// Returns the transfer that asks for it.
    fn transfer(self, till: Till) -> Transfer {
        match self {
            Order::Deposit(id, amount) => moving(id, till.bank, till.wallet, amount),
            Order::Hold(id, amount, timeout) => Transfer {
                timeout,
                flags: Transfer::PENDING,
                ..moving(id, till.wallet, till.shop, amount)
            },
            Order::Capture(id, hold, amount) => {
                resolving(id, hold, amount, Transfer::POST_PENDING_TRANSFER)
            },
            Order::Void(id, hold) => resolving(id, hold, 0, Transfer::VOID_PENDING_TRANSFER),
        }
    }

    /// Returns its packet, with its user word.
    pub(crate) fn packet(self, alloc: Global, till: Till) -> Result<Packet, NoMemory>
        ensures { IfOk result (λ packet. packet.user ≡ word_of self) }
    {
        Packet::of_transfers(alloc, &[self.transfer(till)], self.word())
    }
}
