//! All accounts of a machine, one after the other.

use crate::machine::Machine;
use std::marker::Model;
use tb_layout::Account;

/// Yields the accounts of a machine, in the order of making and with their balances. A contract sees the list of those that
/// are left.
#[derive(Drop)]
pub struct EachAccount<'a> {
    machine: &'a Machine,
    next: usize,
}

impl<'a> Model for EachAccount<'a> {
    ghost use Rattle.std.specs.Prelude.{List, drop};
    ghost use Rattle.tb_layout.specs.declared.account.Account.{Account};
    ghost use Rattle.tb_machine.specs.clauses.Accounts.{balanced_accounts};

    ghost Value = { List Account };

    ghost view = { λ each. drop each.next (balanced_accounts each.machine.now.facts) };
}

impl<'a> EachAccount<'a> {
    ghost use Rattle.std.specs.Prelude.{◌≡◌};
    ghost use Rattle.tb_machine.specs.clauses.Accounts.{balanced_accounts};

    /// Returns an iterator over all accounts of a machine.
    pub(crate) fn of(machine: &'a Machine) -> EachAccount<'a>
        ensures { result ≡ balanced_accounts machine.now.facts }
    {
        EachAccount { machine, next: 0 }
    }
}

impl<'a> Iterator for EachAccount<'a> {
    type Item = Account;

    ghost use Rattle.std.specs.Iterator.{YieldsFirst, item_count};

    ghost next_gives = { YieldsFirst (λ left. left) };

    ghost remaining = { item_count (λ left. left) };

    fn next(&mut self) -> Option<Account> {
        if self.next >= self.machine.accounts() {
            return None;
        }
        let account = self.machine.account_at(self.next);
        self.next += 1;
        account
    }
}
