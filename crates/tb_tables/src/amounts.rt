//! Amounts between two accounts.

ghost use Rattle.std.specs.Prelude.{◌≡◌, ℕ, List, true};
ghost use Rattle.tb_layout.specs.declared.account.Account.{Account as AccountRecord};
ghost use Rattle.tb_tables.specs.clauses.Sums.{Sums, AreAt, CanAdd, CanTake, with_amount, posted_if, account_rows, phase_of, debits_in as debits_of, credits_in as credits_of};
ghost use Rattle.tb_tables.specs.declared.amounts.Phase.TheVariants.{Posted};

use crate::balance::{Balance, lower_at, raise_at};
use crate::by_id::ById;
use crate::indices::Indices;
use tb_layout::{Account, Transfer};

/// What an amount is among the sums of its accounts.
#[derive(Clone, Copy)]
pub(crate) enum Phase {
    Pending,
    Posted,
}

/// Returns what the amount of a plain or pending transfer is.
pub(crate) fn phase_of(transfer: &Transfer) -> Phase
    ensures { result ≡ phase_of transfer.now }
{
    if transfer.is_pending() {
        Phase::Pending
    } else {
        Phase::Posted
    }
}

fn debits_in(phase: Phase) -> Balance
    ensures { result ≡ debits_of phase }
{
    match phase {
        Phase::Pending => Balance::DebitsPending,
        Phase::Posted => Balance::DebitsPosted,
    }
}

fn credits_in(phase: Phase) -> Balance
    ensures { result ≡ credits_of phase }
{
    match phase {
        Phase::Pending => Balance::CreditsPending,
        Phase::Posted => Balance::CreditsPosted,
    }
}

/// Adds an amount to what is pending, or to what is posted.
pub(crate) fn add_amount(accounts: &mut ById<Account>, indices: Indices, phase: Phase, amount: u128)
    requires { CanAdd accounts.old.entries indices phase amount }
    ensures { (sums : Sums) (records : List AccountRecord) (debit credit : ℕ) → AreAt records indices debit credit
        → accounts.old.entries ≡ account_rows sums records
        → accounts.new.entries ≡ account_rows (with_amount phase debit credit amount sums) records }
{
    raise_at(accounts, indices.debit, debits_in(phase), amount);
    raise_at(accounts, indices.credit, credits_in(phase), amount);
}

/// Takes an amount out again.
pub(crate) fn subtract_amount(
    accounts: &mut ById<Account>,
    indices: Indices,
    phase: Phase,
    amount: u128,
)
    requires { CanTake accounts.old.entries indices phase amount }
    ensures { (sums : Sums) (records : List AccountRecord) (debit credit : ℕ) → AreAt records indices debit credit
        → accounts.old.entries ≡ account_rows (with_amount phase debit credit amount sums) records
        → accounts.new.entries ≡ account_rows sums records }
{
    lower_at(accounts, indices.credit, credits_in(phase), amount);
    lower_at(accounts, indices.debit, debits_in(phase), amount);
}

/// Adds what a post posts, if it is a post.
pub(crate) fn post_if(accounts: &mut ById<Account>, indices: Indices, is_post: bool, amount: u128)
    requires { is_post ≡ true → CanAdd accounts.old.entries indices Posted amount }
    ensures { (sums : Sums) (records : List AccountRecord) (debit credit : ℕ) → AreAt records indices debit credit
        → accounts.old.entries ≡ account_rows sums records
        → accounts.new.entries ≡ account_rows (posted_if is_post debit credit amount sums) records }
{
    if is_post {
        add_amount(accounts, indices, Phase::Posted, amount);
    }
}

/// Takes out what a post posted, if it is a post.
pub(crate) fn unpost_if(accounts: &mut ById<Account>, indices: Indices, is_post: bool, amount: u128)
    requires { is_post ≡ true → CanTake accounts.old.entries indices Posted amount }
    ensures { (sums : Sums) (records : List AccountRecord) (debit credit : ℕ) → AreAt records indices debit credit
        → accounts.old.entries ≡ account_rows (posted_if is_post debit credit amount sums) records
        → accounts.new.entries ≡ account_rows sums records }
{
    if is_post {
        subtract_amount(accounts, indices, Phase::Posted, amount);
    }
}
