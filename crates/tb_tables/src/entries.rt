//! Entries of the maps, in order of making.

ghost use Rattle.std.specs.Prelude.{◌≡◌, ◌++◌, ◌∷◌, ◌==◌, ◌≢◌, [], Some, Ok, IfOk, IsSome, is_some, not, true, false, nat_eq, slice_get};
ghost use Rattle.std.specs.List.{list_any};
ghost use Rattle.indexmap.specs.IndexMap.{get, keys};
ghost use Rattle.tb_tables.specs.clauses.Changes.{without_last};
ghost use Rattle.tb_tables.specs.inside.Changing.{status_after};

use crate::by_id::{ById, Ids};
use crate::indices::Indices;
use crate::status::Status;
use indexmap::map::Entry;
use tb_layout::{Account, NoMemory, Transfer};

/// Adds an account with this timestamp after the others, unless its id is there. Returns whether it was added. It is written in
/// place.
pub(crate) fn push_account(
    accounts: &mut ById<Account>,
    event: &Account,
    timestamp: u64,
) -> Result<bool, NoMemory>
    ensures new { IfOk result (λ added. added ≡ not (is_some (get nat_eq accounts.old event.now.id))) }
    ensures added { result ≡ Ok true → accounts.new.entries
        ≡ accounts.old.entries ++ (event.now.id, record event.now { timestamp = timestamp }) ∷ [] }
    ensures same { result ≢ Ok true → accounts.new.entries ≡ accounts.old.entries }
{
    match accounts.entry(event.id)? {
        Entry::Occupied(entry) => {
            entry.into_mut();
            Ok(false)
        }
        Entry::Vacant(entry) => {
            let stored = entry.insert(Account::default());
            *stored = Account {
                timestamp,
                ..*event
            };
            Ok(true)
        }
    }
}

/// Puts a failed id after the others, unless it is among them. Returns whether it was added.
pub(crate) fn push_failed(failed: &mut Ids, id: u128) -> Result<bool, NoMemory>
    ensures new { IfOk result (λ added. added ≡ not (list_any (λ other. other == id) failed.old.keys)) }
    ensures added { result ≡ Ok true → failed.new.keys ≡ failed.old.keys ++ id ∷ [] }
    ensures same { result ≢ Ok true → failed.new.keys ≡ failed.old.keys }
{
    Ok(failed.insert(id)?)
}

/// Takes the last account off.
pub(crate) fn pop_account(accounts: &mut ById<Account>)
    ensures { accounts.new.entries ≡ without_last accounts.old.entries }
{
    accounts.truncate(accounts.len().saturating_sub(1));
}

/// Takes the last failed id off.
pub(crate) fn pop_failed(failed: &mut Ids)
    ensures { failed.new.keys ≡ without_last failed.old.keys }
{
    failed.truncate(failed.len().saturating_sub(1));
}

/// Returns the index of the account with this id.
fn index_of(accounts: &ById<Account>, id: u128) -> usize
    requires { IsSome (get nat_eq accounts.now id) }
    ensures { slice_get (keys accounts.now) result ≡ Some id }
{
    accounts.get_index_of(&id).unwrap()
}

/// Returns the indices of a transfer's accounts, together with the index of the transfer that it names.
pub(crate) fn indices_of(
    accounts: &ById<Account>,
    transfer: &Transfer,
    pending: Option<usize>,
) -> Indices
    requires debit { IsSome (get nat_eq accounts.now transfer.now.debit_account_id) }
    requires credit { IsSome (get nat_eq accounts.now transfer.now.credit_account_id) }
    ensures debit { slice_get (keys accounts.now) result.debit ≡ Some transfer.now.debit_account_id }
    ensures credit { slice_get (keys accounts.now) result.credit ≡ Some transfer.now.credit_account_id }
    ensures pending { result.pending ≡ pending }
{
    Indices {
        debit: index_of(accounts, transfer.debit_account_id),
        credit: index_of(accounts, transfer.credit_account_id),
        pending,
    }
}

/// Returns the status of what a post or a void names.
pub(crate) fn resolved_status(is_post: bool) -> Status
    ensures { result ≡ status_after is_post }
{
    if is_post {
        Status::Posted
    } else {
        Status::Voided
    }
}
