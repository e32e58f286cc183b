//! Facts: each call once with ample memory.

ghost use Rattle.std.specs.Prelude.{◌≡◌, []};
ghost use Rattle.tb_tables.specs.claim.Facts.{no_facts};

use crate::tests::must;
use std::process::Abort;
use tb_layout::{Account, Transfer};
use tb_tables::{Seed, Status, Tables};

fn account(id: u128) -> Account
    ensures { result ≡ record {
      id = id;
      debits_pending = 0;
      debits_posted = 0;
      credits_pending = 0;
      credits_posted = 0;
      user_data_128 = 0;
      user_data_64 = 0;
      user_data_32 = 0;
      reserved = 0;
      ledger = 1;
      code = 1;
      flags = 0;
      timestamp = 1;
    } }
{
    Account {
        id,
        ledger: 1,
        code: 1,
        timestamp: 1,
        ..Account::default()
    }
}

/// Returns a transfer from account 1 to account 2.
fn transfer(id: u128, amount: u128, pending_id: u128, flags: u16) -> Transfer
    ensures { result ≡ record {
      id = id;
      debit_account_id = 1;
      credit_account_id = 2;
      amount = amount;
      pending_id = pending_id;
      user_data_128 = 0;
      user_data_64 = 0;
      user_data_32 = 0;
      timeout = 0;
      ledger = 1;
      code = 1;
      flags = flags;
      timestamp = 3;
    } }
{
    Transfer {
        id,
        debit_account_id: 1,
        credit_account_id: 2,
        amount,
        pending_id,
        ledger: 1,
        code: 1,
        flags,
        timestamp: 3,
        ..Transfer::default()
    }
}

/// Returns the pending and the posted debits of account 1.
fn debits(tables: &Tables) -> Option<(u128, u128)> {
    let account = tables.account(1)?;
    Some((account.debits_pending, account.debits_posted))
}

fn posts_and_undoes(rt: &impl Abort, tables: &mut Tables)
    requires { tables.old ≡ record { now = no_facts; past = [] } }
{
    tables.add_account(account(1)).expect(rt, "memory");
    tables.add_account(account(2)).expect(rt, "memory");
    tables
        .add_transfer(transfer(1, 100, 0, 2))
        .expect(rt, "memory");
    tables.keep();
    let mark = tables.mark();
    tables.resolve(transfer(2, 40, 1, 4)).expect(rt, "memory");
    must(rt, tables.status(1) == Some(Status::Posted));
    must(rt, debits(tables) == Some((0, 40)));
    tables.undo_to(mark);
    must(rt, tables.status(1) == Some(Status::Pending));
    must(rt, debits(tables) == Some((100, 0)));
    must(rt, tables.transfer(2).is_none());
}

#[test]
fn undo_a_post(rt: HostRuntime) {
    let mut tables = Tables::new(rt.alloc());
    posts_and_undoes(&rt, &mut tables);
}

#[test]
fn each_other_call(rt: HostRuntime) {
    let mut tables = Tables::new(rt.alloc());
    tables.add_account(account(1)).expect(&rt, "memory");
    let mark = tables.mark();
    tables.add_failed(7).expect(&rt, "memory");
    must(&rt, tables.failed(7));
    tables.undo_to(mark);
    must(&rt, !tables.failed(7));
    tables.keep();
    tables.expire_due(5);
    must(&rt, tables.accounts() == 1);
    must(&rt, tables.account_at(0) == Some(account(1)));
    must(&rt, tables.account_at(1).is_none());
    must(&rt, tables.account_index(1) == Some(0));
    must(&rt, tables.account_index(2).is_none());
    drop(tables);
}

#[test]
fn each_call_by_places(rt: HostRuntime) {
    let mut tables = Tables::new(rt.alloc());
    tables.add_account(account(1)).expect(&rt, "memory");
    tables.add_account(account(2)).expect(&rt, "memory");
    tables
        .add_transfer(transfer(1, 100, 0, 2))
        .expect(&rt, "memory");
    must(&rt, tables.transfer_index(1) == Some(0));
    must(&rt, tables.transfer_index(2).is_none());
    must(&rt, tables.transfer_at(0) == Some(transfer(1, 100, 0, 2)));
    must(&rt, tables.transfer_at(1).is_none());
    tables.resolve(transfer(2, 100, 1, 8)).expect(&rt, "memory");
    must(&rt, tables.status_at(0) == Some(Status::Voided));
    must(&rt, tables.status_at(1).is_none());
    drop(tables);
}

fn adds_a_new_account(rt: &impl Abort, tables: &mut Tables)
    requires { tables.old ≡ record { now = no_facts; past = [] } }
{
    must(
        rt,
        tables.insert_account(&account(1), 7).expect(rt, "memory"),
    );
    must(
        rt,
        !tables.insert_account(&account(1), 8).expect(rt, "memory"),
    );
    must(
        rt,
        matches!(tables.account(1), Some(stored) if stored.timestamp == 7),
    );
}

fn adds_a_new_transfer(rt: &impl Abort, tables: &mut Tables)
    requires { tables.old ≡ record { now = no_facts; past = [] } }
{
    tables.add_account(account(1)).expect(rt, "memory");
    tables.add_account(account(2)).expect(rt, "memory");
    must(
        rt,
        tables
            .insert_between(&transfer(1, 100, 0, 0), 7, 0, 1)
            .expect(rt, "memory"),
    );
    must(
        rt,
        !tables
            .insert_between(&transfer(1, 100, 0, 0), 8, 0, 1)
            .expect(rt, "memory"),
    );
    must(
        rt,
        matches!(tables.transfer(1), Some(stored) if stored.timestamp == 7),
    );
    must(rt, debits(tables) == Some((0, 100)));
}

fn resolves_by_a_new_post(rt: &impl Abort, tables: &mut Tables)
    requires { tables.old ≡ record { now = no_facts; past = [] } }
{
    tables.add_account(account(1)).expect(rt, "memory");
    tables.add_account(account(2)).expect(rt, "memory");
    tables
        .add_transfer(transfer(1, 100, 0, 2))
        .expect(rt, "memory");
    tables
        .add_transfer(transfer(2, 30, 0, 0))
        .expect(rt, "memory");
    must(
        rt,
        !tables
            .insert_resolving(&transfer(2, 40, 1, 4), 0)
            .expect(rt, "memory"),
    );
    must(rt, debits(tables) == Some((100, 30)));
    must(
        rt,
        tables
            .insert_resolving(&transfer(3, 40, 1, 4), 0)
            .expect(rt, "memory"),
    );
    must(rt, debits(tables) == Some((0, 70)));
}

#[test]
fn each_call_that_looks_first(rt: HostRuntime) {
    let mut accounts = Tables::new(rt.alloc());
    adds_a_new_account(&rt, &mut accounts);
    let mut transfers = Tables::new(rt.alloc());
    adds_a_new_transfer(&rt, &mut transfers);
    let mut posts = Tables::new(rt.alloc());
    resolves_by_a_new_post(&rt, &mut posts);
}

/// Reserves capacity, asks for more than there can be, and adds transfers.
#[test]
fn reserve_with_a_seed(rt: HostRuntime) {
    let seed = Seed { low: 1, high: 2 };
    let mut tables = Tables::with_seed(rt.alloc(), seed);
    tables.reserve(1000, 1000).expect(&rt, "memory");
    must(&rt, tables.reserve(usize::MAX, 0).is_err());
    must(&rt, tables.reserve(0, usize::MAX).is_err());
    posts_and_undoes(&rt, &mut tables);
    drop(tables);
}
