//! Commits.

use crate::events::body_of;
use crate::request::{Kind, Load};
use std::alloc::Global;
use std::time::CpuClock;
use tb_layout::{BATCH_MAX, CREATE_ACCOUNTS, CREATE_TRANSFERS};
use tb_machine::{Machine, Seed};

/// How many events failed or accounts were found, and a sum over the balances.
#[derive(Clone, Copy)]
pub(crate) struct Committed {
    pub(crate) failures: u64,
    pub(crate) balances: u128,
}

/// The processor times of the median commit and of the longest, in nanoseconds.
#[derive(Clone, Copy)]
pub(crate) struct Times {
    pub(crate) median: u64,
    pub(crate) longest: u64,
}

/// The events of a packet of accounts that are made before the packets.
const MADE_AT_ONCE: u64 = 1000;

/// Commits a packet; how many of its events failed. None if it has too many events or memory runs out.
fn commit_body(alloc: Global, machine: &mut Machine, operation: u8, body: &[u8]) -> Option<u64> {
    let count = body.len() / 128;
    if body.len() % 128 != 0 || count > BATCH_MAX as usize {
        return None;
    }
    let mut failures = Vec::with_capacity(alloc, count).ok()?;
    if operation == CREATE_ACCOUNTS {
        machine.commit(CREATE_ACCOUNTS, body, &mut failures).ok()?;
    } else {
        machine.commit(CREATE_TRANSFERS, body, &mut failures).ok()?;
    }
    Some(failures.len() as u64)
}

/// Looks the accounts of a packet up; how many were found. None if it has too many ids or memory runs out.
fn look_up(alloc: Global, machine: &Machine, body: &[u8]) -> Option<u64> {
    let count = body.len() / 16;
    if body.len() % 16 != 0 || count > BATCH_MAX as usize {
        return None;
    }
    let mut found = Vec::with_capacity(alloc, count).ok()?;
    machine.lookup(body, &mut found);
    Some(found.len() as u64)
}

/// Commits a packet or looks its accounts up; how many events failed, or how many accounts were found.
fn take(alloc: Global, machine: &mut Machine, kind: Kind, body: &[u8]) -> Option<u64> {
    match kind {
        Kind::Lookups => look_up(alloc, machine, body),
        Kind::Accounts => commit_body(alloc, machine, CREATE_ACCOUNTS, body),
        _ => commit_body(alloc, machine, CREATE_TRANSFERS, body),
    }
}

/// Returns a machine with the capacity that is asked for.
fn machine_with_room(alloc: Global, load: Load) -> Option<Machine> {
    let seed = Seed {
        low: load.seed,
        high: load.seed.wrapping_mul(0x9e37_79b9_7f4a_7c15),
    };
    let mut machine = Machine::with_seed(alloc, 0, seed);
    if load.room > 0 {
        machine
            .reserve(load.accounts as usize, load.room as usize)
            .ok()?;
    }
    Some(machine)
}

/// Returns a machine with the accounts.
fn machine_with_accounts(alloc: Global, load: Load) -> Option<Machine> {
    let mut machine = machine_with_room(alloc, load)?;
    for number in 0..load.accounts / MADE_AT_ONCE {
        let accounts = Load {
            kind: Kind::Accounts,
            events: MADE_AT_ONCE,
            accounts: 0,
            ..load
        };
        let body = body_of(alloc, accounts, number)?;
        commit_body(alloc, &mut machine, CREATE_ACCOUNTS, &body)?;
    }
    Some(machine)
}

/// Returns a sum over the balances of the first thousand accounts.
fn sum_of_balances(machine: &Machine) -> u128 {
    let mut sum = 0u128;
    for place in 0..1000 {
        if let Some(account) = machine.account_at(place) {
            let debits = account.debits_posted.wrapping_mul(3);
            let balances = debits.wrapping_add(account.credits_posted);
            sum = sum.wrapping_add(account.id.wrapping_mul(balances));
        }
    }
    sum
}

/// Commits the packets.
pub(crate) fn commit_packets(alloc: Global, load: Load) -> Option<Committed> {
    let mut machine = machine_with_accounts(alloc, load)?;
    let mut failures = 0u64;
    for number in 0..load.packets {
        let body = body_of(alloc, load, number)?;
        failures = failures.wrapping_add(take(alloc, &mut machine, load.kind, &body)?);
    }
    Some(Committed {
        failures,
        balances: sum_of_balances(&machine),
    })
}

/// Returns the processor time of this thread so far, in nanoseconds.
fn now<R: CpuClock>(rt: &R) -> Option<u64> {
    let time = rt.thread_cpu_time().ok()?;
    let seconds = time.as_secs().wrapping_mul(1_000_000_000);
    Some(seconds.wrapping_add(u64::from(time.subsec_nanos())))
}

/// Commits the packets; the time of each.
fn times_of<R: CpuClock>(rt: &R, alloc: Global, load: Load) -> Option<Vec<u64>> {
    let mut machine = machine_with_accounts(alloc, load)?;
    let mut times = Vec::new(alloc);
    for number in 0..load.packets {
        let body = body_of(alloc, load, number)?;
        let start = now(rt)?;
        take(alloc, &mut machine, load.kind, &body)?;
        times.push(now(rt)?.wrapping_sub(start)).ok()?;
    }
    Some(times)
}

/// Commits the packets and takes the time of each.
pub(crate) fn time_packets<R: CpuClock>(rt: &R, alloc: Global, load: Load) -> Option<Times> {
    let mut times = times_of(rt, alloc, load)?;
    times.sort_unstable();
    Some(Times {
        median: *times.get(times.len() / 2)?,
        longest: *times.last()?,
    })
}

/// Makes the same packets and drops them; how many bytes they have.
pub(crate) fn make_packets(alloc: Global, load: Load) -> Option<u64> {
    machine_with_accounts(alloc, load)?;
    let mut bytes = 0u64;
    for number in 0..load.packets {
        let body = body_of(alloc, load, number)?;
        bytes = bytes.wrapping_add(body.len() as u64);
    }
    Some(bytes)
}
