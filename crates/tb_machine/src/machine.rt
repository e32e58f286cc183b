//! The machine.

ghost use Rattle.std.specs.Prelude.{◌≡◌, ◌==◌, ◌||◌, ◌/◌, ◌%◌, ◌≤◌, [], true, length, map, slice_get, vec_capacity, OnOk, OnErr};
ghost use Rattle.tb_layout.specs.claim.Events.{events_of, ids_of, chunks, create_accounts, create_transfers};
ghost use Rattle.tb_tables.specs.clauses.Counts.{counts_of};
ghost use Rattle.tb_tables.specs.claim.Facts.{transfer_with};
ghost use Rattle.tb_tables.specs.clauses.Status.{status_if_pending, status_with};
ghost use Rattle.tb_tables.specs.claim.Balances.{balanced_account};
ghost use Rattle.tb_layout.specs.claim.Bounds.{batch_max, moment_max};
ghost use Rattle.tb_layout.specs.claim.Limits.{clock_max};
ghost use Rattle.tb_machine.specs.claim.Chain.{events_results, failures_from};

use crate::clock::clock_after;
use crate::commit::commit_chains;
use crate::each_account::EachAccount;
use crate::event::CreateEvent;
use crate::lookup::look_up;
use std::alloc::Global;
use std::marker::Model;
use tb_layout::{Account, CREATE_ACCOUNTS, Failure, NoMemory, Transfer};
use tb_tables::{Counts, Seed, Status, Tables};

/// The state machine: the facts of a ledger, and the clock, in nanoseconds.
pub struct Machine {
    clock: u64,
    tables: Tables,
}

impl Drop for Machine {
    /// Frees everything held in one call, so that no owner's proof repeats it.
    fn drop(self) {
        let Machine { clock: _, tables } = self;
        drop(tables);
    }
}

impl Model for Machine {
    ghost use Rattle.tb_machine.specs.claim.Replay.{State};
    ghost use Rattle.tb_machine.specs.clauses.Invariant.{IsMachine};

    ghost Value = { State };

    ghost view = { λ machine. record { clock = machine.clock; facts = machine.tables.now } };

    ghost invariant = { λ machine. IsMachine machine.clock machine.tables };
}

impl Machine {
    ghost use Rattle.tb_machine.specs.claim.Replay.{opening, failures_of, accounts_found, after_packet, after_pulse};
    ghost use Rattle.tb_machine.specs.inside.Examining.{after_results};
    ghost use Rattle.tb_machine.specs.clauses.Accounts.{balanced_accounts};

    /// Returns a machine without facts. Its clock starts at a number of nanoseconds, 0 to `CLOCK_MAX`; the first event
    /// gets the next one as its timestamp. Takes no memory.
    pub fn new(alloc: Global, clock: u64) -> Machine
        requires { clock ≤ clock_max }
        ensures { result ≡ opening clock }
    {
        Machine::with_seed(alloc, clock, Seed::default())
    }

    /// Returns the same, whose ids are hashed with a seed. With two numbers that an attacker doesn't know, ids can't be
    /// chosen to make commits slow. What the machine does doesn't depend on them.
    pub fn with_seed(alloc: Global, clock: u64, seed: Seed) -> Machine
        requires { clock ≤ clock_max }
        ensures { result ≡ opening clock }
    {
        Machine {
            clock,
            tables: Tables::with_seed(alloc, seed),
        }
    }

    /// Reserves capacity for more accounts and more transfers: while these are made, no commit waits for a map to grow,
    /// which moves all that is stored. If memory runs out, nothing has changed.
    pub fn reserve(&mut self, accounts: usize, transfers: usize) -> Result<(), NoMemory>
        ensures { self.new ≡ self.old }
    {
        self.tables.reserve(accounts, transfers)
    }

    /// Takes the events of a packet, accounts (`CREATE_ACCOUNTS`) or transfers (`CREATE_TRANSFERS`), and reports those
    /// that failed. The data of the packet, `body`, has 128 bytes an event and at most `BATCH_MAX` events; `out` is
    /// empty, with room for as many failures, and doesn't grow. If memory runs out nothing has happened. It costs what
    /// the events cost, and takes memory for the facts that they make (requests reference of TigerBeetle).
    pub fn commit(
        &mut self,
        operation: u8,
        body: &[u8],
        out: &mut Vec<Failure>,
    ) -> Result<(), NoMemory>
        requires operation { operation == create_accounts || operation == create_transfers ≡ true }
        requires whole { length body.now % 128 ≡ 0 }
        requires limit { length body.now / 128 ≤ batch_max }
        requires empty { out.old.items ≡ [] }
        requires room { length body.now / 128 ≤ vec_capacity out.old }
        ensures in_range { self.old.clock ≤ clock_max }
        ensures state { OnOk result (self.new ≡ after_packet self.old (events_of operation body.now)) }
        ensures failures { OnOk result (out.new.items ≡ failures_of self.old (events_of operation body.now)) }
        ensures unchanged { OnErr result (self.new ≡ self.old) }
        ensures none { OnErr result (out.new.items ≡ []) }
        ensures capacity { vec_capacity out.new ≡ vec_capacity out.old }
    {
        if operation == CREATE_ACCOUNTS {
            self.commit_events::<Account>(body, out)
        } else {
            self.commit_events::<Transfer>(body, out)
        }
    }

    /// Commits events of one kind: all of their chains, or none if memory runs out. A failed allocation undoes
    /// everything since the mark set at the start.
    fn commit_events<E: CreateEvent>(
        &mut self,
        body: &[u8],
        out: &mut Vec<Failure>,
    ) -> Result<(), NoMemory>
        requires whole { length body.now % 128 ≡ 0 }
        requires limit { length body.now / 128 ≤ batch_max }
        requires empty { out.old.items ≡ [] }
        requires room { length body.now / 128 ≤ vec_capacity out.old }
        ensures in_range { self.old.clock ≤ clock_max }
        ensures state { let events = map E.event_of (chunks 128 body.now) in
            OnOk result (self.new ≡ after_results self.old
            (events_results E.operation self.old.clock self.old.facts events)) }
        ensures failures { let events = map E.event_of (chunks 128 body.now) in
            OnOk result (out.new.items ≡ failures_from 0 (events_results E.operation self.old.clock
            self.old.facts events).results) }
        ensures unchanged { OnErr result (self.new ≡ self.old) }
        ensures none { OnErr result (out.new.items ≡ []) }
        ensures capacity { vec_capacity out.new ≡ vec_capacity out.old }
    {
        let mark = self.tables.mark();
        let (chunks, _) = body.as_chunks::<128>();
        match commit_chains::<E>(self.clock, &mut self.tables, chunks, out) {
            Ok(()) => {
                self.tables.keep();
                self.clock = clock_after(self.clock, chunks.len());
                Ok(())
            }
            Err(refused) => {
                self.tables.undo_to(mark);
                out.clear();
                Err(refused)
            }
        }
    }

    /// Raises the clock to a moment, in nanoseconds up to `MOMENT_MAX`, unless it is there already. Each pending
    /// transfer that nothing resolved, and whose timeout is over then, expires. Costs as much as what expires, and takes
    /// no memory.
    pub fn pulse(&mut self, moment: u64)
        requires { moment ≤ moment_max }
        ensures { self.new ≡ after_pulse self.old moment }
    {
        self.clock = self.clock.max(moment);
        self.tables.expire_due(self.clock);
    }

    /// Puts the accounts whose ids are in `body`, 16 bytes each and at most `BATCH_MAX`, into `out` in their order,
    /// with their balances. Ids without an account are left out. `out` is empty, with room for as many accounts as
    /// there are ids. Takes no memory.
    pub fn lookup(&self, body: &[u8], out: &mut Vec<Account>)
        requires whole { length body.now % 16 ≡ 0 }
        requires limit { length body.now / 16 ≤ batch_max }
        requires empty { out.old.items ≡ [] }
        requires room { length body.now / 16 ≤ vec_capacity out.old }
        ensures in_range { self.now.clock ≤ clock_max }
        ensures found { out.new.items ≡ accounts_found self.now.facts (ids_of body.now) }
        ensures capacity { vec_capacity out.new ≡ vec_capacity out.old }
    {
        let (chunks, _) = body.as_chunks::<16>();
        look_up(&self.tables, chunks, out);
    }

    /// Returns the clock in nanoseconds: where it started, raised by one for each event and to the moments of pulses.
    pub fn clock(&self) -> u64
        ensures value { result ≡ self.now.clock }
        ensures bound { result ≤ clock_max }
    {
        self.clock
    }

    /// Returns the account with this id, with its balances.
    pub fn account(&self, id: u128) -> Option<Account>
        ensures { result ≡ balanced_account self.now.facts id }
    {
        self.tables.account(id)
    }

    /// Returns the account at an index in the order of making, counted from 0, with its balances.
    pub fn account_at(&self, index: usize) -> Option<Account>
        ensures { result ≡ slice_get (balanced_accounts self.now.facts) index }
    {
        self.tables.account_at(index)
    }

    /// Returns how many accounts there are.
    pub fn accounts(&self) -> usize
        ensures { result ≡ length self.now.facts.accounts }
    {
        self.tables.accounts()
    }

    /// Returns an iterator over all accounts, in the order of making, each with its balances. Each step costs what
    /// `account_at` costs, and takes no memory.
    pub fn each_account(&self) -> EachAccount<'_>
        ensures { result ≡ balanced_accounts self.now.facts }
    {
        EachAccount::of(self)
    }

    /// Returns how much is stored.
    pub fn counts(&self) -> Counts
        ensures { result ≡ counts_of self.now.facts }
    {
        self.tables.counts()
    }

    /// Returns the transfer with this id; a post or a void with its resolved fields.
    pub fn transfer(&self, id: u128) -> Option<Transfer>
        ensures { result ≡ transfer_with self.now.facts id }
    {
        self.tables.transfer(id)
    }

    /// Returns the transfer at an index in the order of making, counted from 0; a post or a void with its resolved fields.
    pub fn transfer_at(&self, index: usize) -> Option<Transfer>
        ensures { result ≡ slice_get self.now.facts.transfers index }
    {
        self.tables.transfer_at(index)
    }

    /// Returns the status of the pending transfer at an index in the order of making, counted from 0.
    pub fn status_at(&self, index: usize) -> Option<Status>
        ensures { result ≡ status_if_pending self.now.facts (slice_get self.now.facts.transfers index) }
    {
        self.tables.status_at(index)
    }

    /// Returns the status of the pending transfer with this id.
    pub fn status(&self, id: u128) -> Option<Status>
        ensures { result ≡ status_with self.now.facts id }
    {
        self.tables.status(id)
    }
}
