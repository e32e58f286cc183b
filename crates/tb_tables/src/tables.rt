//! The tables.

ghost use Rattle.std.specs.Prelude.{◌≡◌, ◌≢◌, ◌<◌, ◌≤◌, ◌^◌, Some, None, [], Ok, IfOk, OnOk, OnErr, is_some, not, true, false, length, slice_get};
ghost use Rattle.std.specs.Option.{option_map};

use crate::by_id::{ById, Ids};
use crate::change::Change;
use crate::counts::Counts;
use crate::entries::{indices_of, pop_account, pop_failed, push_account, push_failed};
use crate::expiries::Expiries;
use crate::hashing::{IdHasher, Seed};
use crate::indices::Indices;
use crate::mark::Mark;
use crate::status::Status;
use crate::storing::{apply, push_transfer, undo_transfer};
use crate::timeouts::expire_all;
use crate::transfers::Transfers;
use std::alloc::Global;
use std::marker::Model;
use tb_layout::{Account, NoMemory, Transfer};

/// The facts of a ledger: accounts and transfers in order of making, under their ids.
pub struct Tables {
    accounts: ById<Account>,
    transfers: Transfers,
    failed: Ids,
    expiries: Expiries,
    changes: Vec<Change>,
}

impl Drop for Tables {
    /// Frees everything held in one call, so that no owner's proof repeats it.
    fn drop(self) {
        let Tables {
            accounts,
            transfers,
            failed,
            expiries,
            changes,
        } = self;
        drop(accounts);
        drop(transfers);
        drop(failed);
        drop(expiries);
        drop(changes);
    }
}

impl Model for Tables {
    ghost use Rattle.tb_tables.specs.clauses.History.{History};

    ghost Value = { History };

    ghost use Rattle.tb_tables.specs.clauses.Fields.{contents_in, history_in};
    ghost use Rattle.tb_tables.specs.clauses.Contents.{AreKept};

    ghost view = { history_in };

    ghost invariant = { λ tables. AreKept tables.changes.items (contents_in tables) };
}

impl Tables {
    ghost use Rattle.tb_tables.specs.clauses.Counts.{counts_of};
    ghost use Rattle.tb_tables.specs.claim.Facts.{no_facts, account_with, transfer_with, is_failed, add_account as with_account, add_transfer as with_transfer, add_failed as with_failed};
    ghost use Rattle.tb_tables.specs.clauses.Indices.{IsIndexOf, IsIndexOfTransfer};
    ghost use Rattle.tb_layout.specs.claim.Transfer.{is_pending};
    ghost use Rattle.tb_tables.specs.claim.Status.{expires_at, expire_due as with_due_expired};
    ghost use Rattle.tb_tables.specs.clauses.Status.{status_with, status_if_pending};
    ghost use Rattle.tb_tables.specs.claim.Balances.{with_balances as balanced, balanced_account};
    ghost use Rattle.tb_tables.specs.clauses.Conditions.{HasNoBalances, MayAdd, MayResolve, stamped};
    ghost use Rattle.tb_tables.specs.clauses.History.{with_change, mark_of, back_to, without_past};
    ghost use Rattle.tb_tables.specs.clauses.Contents.{MayStore, HaveIndices};

    /// Returns tables without facts. Takes no memory.
    pub fn new(alloc: Global) -> Tables
        ensures { result ≡ record { now = no_facts; past = [] } }
    {
        Tables::with_seed(alloc, Seed::default())
    }

    /// Returns tables without facts, whose ids are hashed with a seed: with numbers that an attacker doesn't know, ids
    /// that are known to have one hash don't make look-ups slow. The facts don't depend on it. Takes no memory.
    pub fn with_seed(alloc: Global, seed: Seed) -> Tables
        ensures { result ≡ record { now = no_facts; past = [] } }
    {
        let hasher = IdHasher::new(seed);
        Tables {
            accounts: ById::with_hasher(alloc, hasher),
            transfers: Transfers::new(alloc, hasher),
            failed: Ids::with_hasher(alloc, hasher),
            expiries: Expiries::new(alloc),
            changes: Vec::new(alloc),
        }
    }

    /// Reserves capacity for more accounts and more transfers: while these are added, the maps of both don't grow, which
    /// would move all that is stored. If memory runs out, nothing has changed.
    pub fn reserve(&mut self, accounts: usize, transfers: usize) -> Result<(), NoMemory>
        ensures { self.new ≡ self.old }
    {
        self.accounts.reserve(accounts)?;
        self.transfers.reserve(transfers)
    }

    /// Adds an account after those that are there, with its timestamp and no balances of its own. If memory runs out
    /// nothing has changed.
    pub fn add_account(&mut self, account: Account) -> Result<(), NoMemory>
        requires new { account_with self.old.now account.id ≡ None }
        requires no_balances { HasNoBalances account }
        ensures ok { OnOk result (self.new ≡ with_change self.old (with_account self.old.now account)) }
        ensures err { OnErr result (self.new ≡ self.old) }
    {
        self.insert_account(&account, account.timestamp)?;
        Ok(())
    }

    /// Adds an account after those that are there, with this timestamp and no balances of its own, unless one with its
    /// id is there. Returns whether it was added. The id is looked up once. If memory runs out nothing has changed.
    pub fn insert_account(&mut self, event: &Account, timestamp: u64) -> Result<bool, NoMemory>
        requires { HasNoBalances event.now }
        ensures new { IfOk result (λ added. added ≡ not (is_some (account_with self.old.now event.now.id))) }
        ensures added { result ≡ Ok true → self.new ≡ with_change self.old
            (with_account self.old.now (record event.now { timestamp = timestamp })) }
        ensures same { result ≢ Ok true → self.new ≡ self.old }
    {
        self.changes.reserve(1)?;
        if !push_account(&mut self.accounts, event, timestamp)? {
            return Ok(false);
        }
        self.changes.push_reserved(Change::Account);
        Ok(true)
    }

    /// Adds an id to those that failed, which don't contain it yet. If memory runs out nothing has changed.
    pub fn add_failed(&mut self, id: u128) -> Result<(), NoMemory>
        requires { is_failed self.old.now id ≡ false }
        ensures ok { OnOk result (self.new ≡ with_change self.old (with_failed self.old.now id)) }
        ensures err { OnErr result (self.new ≡ self.old) }
    {
        self.insert_failed(id)?;
        Ok(())
    }

    /// Adds an id to those that failed, unless it is among them. Returns whether it was added. The id is looked up once. If
    /// memory runs out nothing has changed.
    pub fn insert_failed(&mut self, id: u128) -> Result<bool, NoMemory>
        ensures new { IfOk result (λ added. added ≡ not (is_failed self.old.now id)) }
        ensures added { result ≡ Ok true → self.new ≡ with_change self.old (with_failed self.old.now id) }
        ensures same { result ≢ Ok true → self.new ≡ self.old }
    {
        self.changes.reserve(1)?;
        if !push_failed(&mut self.failed, id)? {
            return Ok(false);
        }
        self.changes.push_reserved(Change::Failed);
        Ok(true)
    }

    /// Adds a transfer with this timestamp, whose accounts, and whose pending transfer, have these indices, unless one
    /// with its id is there. Returns whether it was added.
    fn store(
        &mut self,
        event: &Transfer,
        timestamp: u64,
        indices: Indices,
    ) -> Result<bool, NoMemory>
        requires at { HaveIndices self.old.now (stamped timestamp event.now) indices }
        requires fits { is_pending event.now ≡ true → expires_at (stamped timestamp event.now) < 2 ^ 64 }
        requires may { transfer_with self.old.now event.now.id ≡ None
            → MayStore self.old.now (stamped timestamp event.now) indices.pending }
        ensures new { IfOk result (λ added. added ≡ not (is_some (transfer_with self.old.now event.now.id))) }
        ensures added { result ≡ Ok true → self.new ≡ with_change self.old
            (with_transfer self.old.now (stamped timestamp event.now)) }
        ensures same { result ≢ Ok true → self.new ≡ self.old }
    {
        self.changes.reserve(1)?;
        let added = push_transfer(&mut self.transfers, &mut self.expiries, event, timestamp);
        if added == Ok(true) {
            apply(&mut self.accounts, &mut self.transfers, indices, event);
            self.changes.push_reserved(Change::Transfer(indices));
        }
        added
    }

    /// Adds a plain or pending transfer after those that are there. If memory runs out nothing has changed.
    pub fn add_transfer(&mut self, transfer: Transfer) -> Result<(), NoMemory>
        requires { MayAdd self.old.now transfer }
        ensures ok { OnOk result (self.new ≡ with_change self.old (with_transfer self.old.now transfer)) }
        ensures err { OnErr result (self.new ≡ self.old) }
    {
        let indices = indices_of(&self.accounts, &transfer, None);
        self.store(&transfer, transfer.timestamp, indices)?;
        Ok(())
    }

    /// Adds a plain or pending transfer after those that are there, with this timestamp, between the accounts at two
    /// indices. It isn't added if one with its id is there. Returns whether it was added. The id is looked up once. If memory
    /// runs out nothing has changed.
    pub fn insert_between(
        &mut self,
        event: &Transfer,
        timestamp: u64,
        debit: usize,
        credit: usize,
    ) -> Result<bool, NoMemory>
        requires fits { is_pending event.now ≡ true → expires_at (stamped timestamp event.now) < 2 ^ 64 }
        requires may { transfer_with self.old.now event.now.id ≡ None
            → MayAdd self.old.now (stamped timestamp event.now) }
        requires debit { IsIndexOf self.old.now event.now.debit_account_id (Some debit) }
        requires credit { IsIndexOf self.old.now event.now.credit_account_id (Some credit) }
        ensures new { IfOk result (λ added. added ≡ not (is_some (transfer_with self.old.now event.now.id))) }
        ensures added { result ≡ Ok true → self.new ≡ with_change self.old
            (with_transfer self.old.now (stamped timestamp event.now)) }
        ensures same { result ≢ Ok true → self.new ≡ self.old }
    {
        self.store(
            event,
            timestamp,
            Indices {
                debit,
                credit,
                pending: None,
            },
        )
    }

    /// Adds a post or a void, with its resolved fields. The transfer that it names is pending no more. If memory runs out
    /// nothing has changed.
    pub fn resolve(&mut self, transfer: Transfer) -> Result<(), NoMemory>
        requires new { transfer_with self.old.now transfer.id ≡ None }
        requires may { MayResolve self.old.now transfer }
        ensures ok { OnOk result (self.new ≡ with_change self.old (with_transfer self.old.now transfer)) }
        ensures err { OnErr result (self.new ≡ self.old) }
    {
        let Some(pending) = self.transfer_index(transfer.pending_id) else {
            unreachable!()
        };
        self.insert_resolving(&transfer, pending)?;
        Ok(())
    }

    /// Adds a post or a void, with its resolved fields, unless a transfer with its id is there. Returns whether it was added.
    /// The transfer that it names is at this index, and is pending no more if it was. The id is looked up once, and
    /// what it names isn't looked up again. If memory runs out nothing has changed.
    pub fn insert_resolving(
        &mut self,
        transfer: &Transfer,
        pending: usize,
    ) -> Result<bool, NoMemory>
        requires pending { IsIndexOfTransfer self.old.now transfer.now.pending_id (Some pending) }
        requires may { MayResolve self.old.now transfer.now }
        ensures new { IfOk result (λ added. added ≡ not (is_some (transfer_with self.old.now transfer.now.id))) }
        ensures added { result ≡ Ok true → self.new ≡ with_change self.old (with_transfer self.old.now transfer.now) }
        ensures same { result ≢ Ok true → self.new ≡ self.old }
    {
        let indices = indices_of(&self.accounts, transfer, Some(pending));
        self.store(transfer, transfer.timestamp, indices)
    }

    /// Returns the account with this id, with its balances.
    pub fn account(&self, id: u128) -> Option<Account>
        ensures { result ≡ balanced_account self.now.now id }
    {
        self.accounts.get(&id).copied()
    }

    /// Returns the index in the order of making of the account with this id, counted from 0.
    pub fn account_index(&self, id: u128) -> Option<usize>
        ensures { IsIndexOf self.now.now id result }
    {
        self.accounts.get_index_of(&id)
    }

    /// Returns the account at an index in the order of making, counted from 0, with its balances.
    pub fn account_at(&self, index: usize) -> Option<Account>
        ensures { result ≡ option_map (balanced self.now.now) (slice_get self.now.now.accounts index) }
    {
        let (_, account) = self.accounts.get_index(index)?;
        Some(*account)
    }

    /// Returns how many accounts there are.
    pub fn accounts(&self) -> usize
        ensures { result ≡ length self.now.now.accounts }
    {
        self.accounts.len()
    }

    /// Returns how much is stored.
    pub fn counts(&self) -> Counts
        ensures { result ≡ counts_of self.now.now }
    {
        Counts {
            accounts: self.accounts.len(),
            transfers: self.transfers.len(),
            failed_ids: self.failed.len(),
        }
    }

    /// Returns the transfer with this id; a post or a void with its resolved fields.
    pub fn transfer(&self, id: u128) -> Option<Transfer>
        ensures { result ≡ transfer_with self.now.now id }
    {
        self.transfers.transfer(id)
    }

    /// Returns the index in the order of making of the transfer with this id, counted from 0.
    pub fn transfer_index(&self, id: u128) -> Option<usize>
        ensures { IsIndexOfTransfer self.now.now id result }
    {
        self.transfers.index_of(id)
    }

    /// Returns the transfer at an index in the order of making, counted from 0; a post or a void with its resolved
    /// fields.
    pub fn transfer_at(&self, index: usize) -> Option<Transfer>
        ensures { result ≡ slice_get self.now.now.transfers index }
    {
        self.transfers.transfer_at(index)
    }

    /// Returns the status of the pending transfer with this id.
    pub fn status(&self, id: u128) -> Option<Status>
        ensures { result ≡ status_with self.now.now id }
    {
        self.transfers.status(id)
    }

    /// Returns the status of the pending transfer at an index in the order of making, counted from 0.
    pub fn status_at(&self, index: usize) -> Option<Status>
        ensures { result ≡ status_if_pending self.now.now (slice_get self.now.now.transfers index) }
    {
        self.transfers.status_at(index)
    }

    /// Returns whether an id is among those that failed.
    pub fn failed(&self, id: u128) -> bool
        ensures { result ≡ is_failed self.now.now id }
    {
        self.failed.contains(&id)
    }

    /// Returns a mark at the changes so far, to which `undo_to` can come back. It is spent by `keep` and by going back
    /// past it.
    pub fn mark(&self) -> Mark
        ensures { result ≡ mark_of self.now }
    {
        Mark::new(self.changes.as_slice().len())
    }

    /// Takes the last change back.
    fn undo_last(&mut self)
        requires { 0 < length self.old.past }
        ensures { with_change self.new self.old.now ≡ self.old }
    {
        if let Some(change) = self.changes.pop() {
            match change {
                Change::Account => pop_account(&mut self.accounts),
                Change::Transfer(indices) => {
                    undo_transfer(
                        &mut self.accounts,
                        &mut self.transfers,
                        &mut self.expiries,
                        indices,
                    );
                }
                Change::Failed => pop_failed(&mut self.failed),
            }
        }
    }

    /// Goes back to a mark. Costs as much as the changes since then, and takes no memory.
    pub fn undo_to(&mut self, mark: Mark)
        requires { mark ≤ mark_of self.old }
        ensures { self.new ≡ back_to mark self.old }
    {
        while self.mark().changes() > mark.changes() {
            self.undo_last();
        }
    }

    /// Keeps the changes: they can't be undone any more. Costs as much as the changes.
    pub fn keep(&mut self)
        ensures { self.new ≡ without_past self.old }
    {
        self.expiries.keep(&self.transfers, self.changes.len());
        self.changes.clear();
    }

    /// Lets each pending transfer expire that nothing resolved and whose timeout is over at a clock, in
    /// nanoseconds. Costs as much as what is due, resolved or not, and takes no memory.
    pub fn expire_due(&mut self, clock: u64)
        requires { self.old.past ≡ [] }
        ensures { self.new ≡ record { now = with_due_expired clock self.old.now; past = [] } }
    {
        expire_all(
            &mut self.accounts,
            &mut self.transfers,
            &mut self.expiries,
            clock,
        );
    }
}
