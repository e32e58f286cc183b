//! 400 events, made by a rule from a counter, against plain lists: the transfers in order of making, with whether each
//! expired, and balances as sums.

use super::plain::{Row, expire, have_all, status_of, transfer_in, with_balances};
use super::rule::{Rule, large, pick, small};
use super::{MOST, commits, failures_of, make_accounts};
use crate::tests::must;
use std::alloc::{AllocError, Global};
use std::process::Abort;
use tb_layout::{
    Account, CREATE_ACCOUNTS, CREATE_TRANSFERS, NANOSECONDS_PER_SECOND, Transfer, write_transfer,
};
use tb_machine::Machine;
use tb_test_makers::{account, account_bytes, check, transfer};

/// Returns the accounts of a rule.
fn accounts(rule: Rule) -> [Account; 4] {
    [
        account(rule.id(1), 0),
        account(rule.id(2), 0),
        account(rule.id(3), 0),
        account(rule.id(4), 0),
    ]
}

/// Returns any flags for every second event; else those of one kind, linked now and then.
fn flags(counter: u64) -> u16 {
    let any = pick(counter, 1, 16);
    let kind = match pick(counter, 2, 4) {
        0 => 0,
        1 => 2,
        2 => 4,
        _ => 8,
    };
    let linked = if pick(counter, 3, 4) == 0 { 1 } else { 0 };
    let chosen = if pick(counter, 4, 2) == 0 {
        any
    } else {
        kind + linked
    };
    u16::try_from(chosen).unwrap_or(0)
}

/// Returns the event that a counter leads to; a post or a void names one of the last ids.
fn event(counter: u64, rule: Rule) -> Transfer {
    let id = rule.id_at(counter);
    let debit = rule.id(pick(counter, 6, 4).saturating_add(1));
    let credit = rule.id(pick(counter, 7, 5).saturating_add(1));
    let amount = pick(counter, 8, 100).saturating_add(1);
    let plain = transfer(id, [debit, credit], rule.amount(amount), flags(counter));
    if plain.is_post() || plain.is_void() {
        return Transfer {
            debit_account_id: 0,
            credit_account_id: 0,
            pending_id: rule.id_at(counter.saturating_sub(pick(counter, 9, 16))),
            amount: if plain.is_void() {
                0
            } else {
                rule.amount(amount / 4)
            },
            ledger: 0,
            code: 0,
            ..plain
        };
    }
    let timeout = if plain.is_pending() {
        u32::try_from(pick(counter, 10, 3)).unwrap_or(0)
    } else {
        0
    };
    Transfer { timeout, ..plain }
}

/// Notes what was made since, by rising id.
fn note_new(all: &mut Vec<Row>, machine: &Machine, rule: Rule) -> Result<(), AllocError> {
    for number in 1..=u64::from(rule.ids) {
        let id = rule.id(number);
        if transfer_in(all, id).is_some() {
            continue;
        }
        if let Some(made) = machine.transfer(id) {
            all.push(Row {
                transfer: made,
                has_expired: false,
            })?;
        }
    }
    Ok(())
}

/// Returns whether all balances and statuses are those of all transfers.
fn agrees(machine: &Machine, all: &[Row], rule: Rule) -> bool {
    for timestamp in 1..=4_u64 {
        let id = rule.id(timestamp);
        let made = Account {
            timestamp,
            ..account(id, 0)
        };
        if machine.account(id) != Some(with_balances(all, made)) {
            return false;
        }
    }
    for one in all {
        if machine.status(one.transfer.id) != status_of(all, one) {
            return false;
        }
    }
    true
}

/// Returns a packet of the events from a counter on.
fn packet(
    rt: &impl Alloc<A = Global>,
    first: u64,
    events: u64,
    rule: Rule,
) -> Result<Vec<u8>, AllocError> {
    let mut body = Vec::new(rt.alloc());
    for place in 0..events {
        let event = event(first.saturating_add(place), rule);
        body.extend_from_slice(&write_transfer(&event))?;
    }
    Ok(body)
}

/// Runs 115 packets of 1 to 6 events, 400 in all, with a pulse after each tenth packet.
fn run(
    rt: &(impl Abort + Alloc<A = Global>),
    machine: &mut Machine,
    all: &mut Vec<Row>,
    rule: Rule,
) {
    make_accounts(rt, machine, &accounts(rule));
    let mut first: u64 = 0;
    for number in 0..115_u64 {
        let events = number % 6 + 1;
        let body = packet(rt, first, events, rule).expect(rt, "memory");
        check!(rt; failures_of(rt, machine, CREATE_TRANSFERS, &body).is_some(), number);
        first = first.saturating_add(events);
        note_new(all, machine, rule).expect(rt, "memory");
        if number % 10 == 9 {
            machine.pulse((number / 10 + 1) * NANOSECONDS_PER_SECOND);
            expire(all, machine.clock());
        }
        check!(rt; agrees(machine, all, rule), number);
    }
}

#[test]
fn four_hundred_events(rt: HostRuntime) {
    let mut machine = Machine::new(rt.alloc(), 0);
    let mut all = Vec::new(rt.alloc());
    run(&rt, &mut machine, &mut all, small(8));
    drop(machine);
}

/// Runs 400 events of as many ids, and asserts that some transfer has each status.
fn run_of_each_status(rt: &(impl Abort + Alloc<A = Global>), rule: Rule) {
    let mut machine = Machine::new(rt.alloc(), 0);
    let mut all = Vec::new(rt.alloc());
    run(rt, &mut machine, &mut all, rule);
    drop(machine);
    must(rt, have_all(&all));
}

#[test]
fn four_hundred_events_of_as_many_ids(rt: HostRuntime) {
    run_of_each_status(&rt, small(400));
}

#[test]
fn four_hundred_events_near_2_128(rt: HostRuntime) {
    run_of_each_status(&rt, large(400, MOST - 1));
}

/// Runs packets in order, as far as memory lasts; one that is refused leaves what the lists say.
fn run_refused(
    rt: &impl Alloc<A = Global>,
    machine: &mut Machine,
    all: &mut Vec<Row>,
) -> Result<(), AllocError> {
    let mut first: u64 = 0;
    for number in 0..6_u64 {
        let body = packet(rt, first, number + 1, small(400))?;
        first = first.saturating_add(number + 1);
        if failures_of(rt, machine, CREATE_TRANSFERS, &body).is_none() {
            return Ok(());
        }
        note_new(all, machine, small(400))?;
    }
    Ok(())
}

/// What is tried with each allocation refused in turn.
#[test]
fn plain_lists_refused_memory(rt: HostRuntime) {
    let mut machine = Machine::new(rt.alloc(), 0);
    let mut all = Vec::new(rt.alloc());
    if let Ok(accounts) = account_bytes(rt.alloc(), &accounts(small(400))) {
        if commits(&rt, &mut machine, CREATE_ACCOUNTS, &accounts)
            && run_refused(&rt, &mut machine, &mut all).is_ok()
        {
            must(&rt, agrees(&machine, &all, small(400)));
        }
    }
    drop(machine);
}
