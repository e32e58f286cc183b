//! What is looked up for a transfer before its checks.

ghost use Rattle.std.specs.Prelude.{◌≡◌, ℕ};
ghost use Rattle.tb_tables.specs.clauses.Indices.{IsIndexOf};
ghost use Rattle.tb_tables.specs.claim.Balances.{balanced_account};
ghost use Rattle.tb_machine.specs.inside.Prefetch.{AreSides, IsTarget};

use crate::resolved::is_resolving;
use tb_layout::{Account, Transfer};
use tb_tables::Tables;

/// The indices of two accounts, if they are there. The one to credit is looked up only if the other is there.
#[derive(Clone, Copy)]
pub(crate) struct Sides {
    pub(crate) debit: Option<usize>,
    pub(crate) credit: Option<usize>,
}

impl Sides {
    /// Looks up the accounts of an event.
    #[inline(always)]
    fn of(tables: &Tables, event: &Transfer) -> Sides
        ensures { AreSides tables.now.now event.now result }
    {
        let debit = tables.account_index(event.debit_account_id);
        if debit.is_none() {
            return Sides {
                debit: None,
                credit: None,
            };
        }
        Sides {
            debit,
            credit: tables.account_index(event.credit_account_id),
        }
    }
}

/// What a transfer acts on. From here on it is found only by its index.
#[derive(Clone, Copy)]
pub(crate) enum Target {
    /// The accounts of a plain or pending transfer.
    Between(Sides),

    /// The index of the transfer that a post or a void names, if it is there.
    Named(Option<usize>),
}

impl Target {
    /// Looks up what an event acts on.
    #[inline(always)]
    pub(crate) fn of(tables: &Tables, event: &Transfer) -> Target
        ensures { IsTarget tables.now.now event.now result }
    {
        if is_resolving(event) {
            Target::Named(tables.transfer_index(event.pending_id))
        } else {
            Target::Between(Sides::of(tables, event))
        }
    }
}

/// Returns the account at an index, with its balances.
pub(crate) fn account_at(tables: &Tables, index: Option<usize>) -> Option<Account>
    ensures { (id : ℕ) → IsIndexOf tables.now.now id index → result ≡ balanced_account tables.now.now id }
{
    tables.account_at(index?)
}
