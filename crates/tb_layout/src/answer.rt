//! The answer to a packet that was committed.

ghost use Rattle.std.specs.Prelude.{◌≡◌};

use crate::account::Account;
use crate::failure::Failure;
use crate::failure_room::FailureRoom;
use std::fmt;
use std::fmt::{Debug, Formatter};
use std::marker::Model;

/// The failed events of a packet, seen as their list.
pub struct Failures {
    failures: FailureRoom,
}

impl Drop for Failures {
    /// Frees everything held in one call, so that no owner's proof repeats it.
    fn drop(self) {
        let Failures { failures } = self;
        drop(failures);
    }
}

impl Model for Failures {
    ghost use Rattle.std.specs.Prelude.{List};
    ghost use Rattle.tb_layout.specs.declared.failure.Failure.{Failure};

    ghost Value = { List Failure };

    ghost view = { λ failures. failures.failures.items };
}

impl Failures {
    /// Returns these failures, which are not copied.
    pub fn from_vec(failures: Vec<Failure>) -> Failures
        ensures { result ≡ failures.items }
    {
        Failures {
            failures: FailureRoom::from_vec(failures),
        }
    }

    /// Returns the failures that were put into their room.
    pub fn from_room(failures: FailureRoom) -> Failures
        ensures { result ≡ failures.items }
    {
        Failures { failures }
    }

    /// Returns all failures, by rising index.
    pub fn as_slice(&self) -> &[Failure]
        ensures { result.now ≡ self.now }
    {
        self.failures.as_slice()
    }
}

impl Debug for Failures {
    /// Writes the failures as a list.
    fn fmt<W: fmt::Write>(&self, f: &mut Formatter<W>) -> fmt::Result {
        self.as_slice().fmt(f)
    }
}

/// The accounts that a lookup found, seen as their list.
#[derive(Drop)]
pub struct Accounts {
    accounts: Vec<Account>,
}

impl Model for Accounts {
    ghost use Rattle.std.specs.Prelude.{List};
    ghost use Rattle.tb_layout.specs.declared.account.Account.{Account};

    ghost Value = { List Account };

    ghost view = { λ accounts. accounts.accounts.items };
}

impl Accounts {
    /// Returns these accounts, which are not copied.
    pub fn from_vec(accounts: Vec<Account>) -> Accounts
        ensures { result ≡ accounts.items }
    {
        Accounts { accounts }
    }

    /// Returns all accounts, in the order asked.
    pub fn as_slice(&self) -> &[Account]
        ensures { result.now ≡ self.now }
    {
        self.accounts.as_slice()
    }
}

impl Debug for Accounts {
    /// Writes the accounts as a list.
    fn fmt<W: fmt::Write>(&self, f: &mut Formatter<W>) -> fmt::Result {
        self.as_slice().fmt(f)
    }
}

/// The answer to a packet that was committed.
#[derive(Debug, Drop)]
pub enum Answer {
    Failures(Failures),
    Accounts(Accounts),
}
