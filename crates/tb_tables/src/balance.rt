//! The four balances of the accounts.

ghost use Rattle.std.specs.Prelude.{◌≡◌, ◌<◌, ◌≤◌, ◌+◌, ◌^◌, Some, List, slice_get};
ghost use Rattle.tb_layout.specs.declared.account.Account.{Account as AccountRecord};
ghost use Rattle.tb_tables.specs.clauses.Sums.{Sums, HasRoom, HasAmount, balance_of, raise_balance as raise, lower_balance as lower, with_more, account_rows};

use crate::by_id::ById;
use tb_layout::Account;

/// Which of an account's balances.
#[derive(Clone, Copy)]
pub(crate) enum Balance {
    DebitsPending,
    DebitsPosted,
    CreditsPending,
    CreditsPosted,
}

/// Raises a balance of an account.
fn raise_balance(account: &mut Account, balance: Balance, amount: u128)
    requires { balance_of balance account.old + amount < 2 ^ 128 }
    ensures { account.new ≡ raise balance amount account.old }
{
    match balance {
        Balance::DebitsPending => account.debits_pending += amount,
        Balance::DebitsPosted => account.debits_posted += amount,
        Balance::CreditsPending => account.credits_pending += amount,
        Balance::CreditsPosted => account.credits_posted += amount,
    }
}

/// Lowers a balance of an account.
fn lower_balance(account: &mut Account, balance: Balance, amount: u128)
    requires { amount ≤ balance_of balance account.old }
    ensures { account.new ≡ lower balance amount account.old }
{
    match balance {
        Balance::DebitsPending => account.debits_pending -= amount,
        Balance::DebitsPosted => account.debits_posted -= amount,
        Balance::CreditsPending => account.credits_pending -= amount,
        Balance::CreditsPosted => account.credits_posted -= amount,
    }
}

/// Raises a balance of the account at an index.
pub(crate) fn raise_at(accounts: &mut ById<Account>, index: usize, balance: Balance, amount: u128)
    requires { HasRoom accounts.old.entries index balance amount }
    ensures { (sums : Sums) (records : List AccountRecord) (account : AccountRecord)
        → slice_get records index ≡ Some account
        → accounts.old.entries ≡ account_rows sums records
        → accounts.new.entries ≡ account_rows (with_more balance account.id amount sums) records }
{
    let (_, account) = accounts.pair_mut(index);
    raise_balance(account, balance, amount);
}

/// Lowers a balance of the account at an index.
pub(crate) fn lower_at(accounts: &mut ById<Account>, index: usize, balance: Balance, amount: u128)
    requires { HasAmount accounts.old.entries index balance amount }
    ensures { (sums : Sums) (records : List AccountRecord) (account : AccountRecord)
        → slice_get records index ≡ Some account
        → accounts.old.entries ≡ account_rows (with_more balance account.id amount sums) records
        → accounts.new.entries ≡ account_rows sums records }
{
    let (_, account) = accounts.pair_mut(index);
    lower_balance(account, balance, amount);
}
