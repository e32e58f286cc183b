//! What is tried with each allocation refused in turn, by `tools/gate/refuse-each-growth`.

use super::{MOST, is_packet, resolving};
use crate::tests::must;
use std::alloc::Global;
use std::process::Abort;
use tb_layout::TransferCode::{
    CreditAccountNotFound, ExceedsCredits, IdAlreadyFailed, LedgerMustNotBeZero, LinkedEventFailed,
    PendingTransferNotFound,
};
use tb_layout::{
    Account, CREATE_ACCOUNTS, CREATE_TRANSFERS, Failure, NoMemory, Transfer, TransferCode,
};
use tb_machine::Machine;
use tb_tables::Status;
use tb_test_makers::{account, account_bytes, transfer, transfer_bytes};

/// What the look-ups of a machine answer for ids 1, 2 and 3.
#[derive(Clone, Copy)]
struct Seen {
    clock: u64,
    count: usize,
    accounts: [Option<Account>; 3],
    transfers: [Option<Transfer>; 3],
    statuses: [Option<Status>; 3],
}

impl Seen {
    fn of(machine: &Machine) -> Seen {
        Seen {
            clock: machine.clock(),
            count: machine.accounts(),
            accounts: [machine.account(1), machine.account(2), machine.account(3)],
            transfers: [
                machine.transfer(1),
                machine.transfer(2),
                machine.transfer(3),
            ],
            statuses: [machine.status(1), machine.status(2), machine.status(3)],
        }
    }

    fn holds(&self, machine: &Machine) -> bool {
        let now = Seen::of(machine);
        self.clock == now.clock
            && self.count == now.count
            && self.accounts == now.accounts
            && self.transfers == now.transfers
            && self.statuses == now.statuses
    }
}

/// Returns whether these are the failures, each with its event's place and code.
fn are_failures(failures: &[Failure], wanted: &[(u32, TransferCode)]) -> bool {
    for (failure, (index, code)) in failures.iter().zip(wanted) {
        if failure.index != *index || failure.code != code.number() {
            return false;
        }
    }
    failures.len() == wanted.len()
}

/// Commits a packet, with exactly these failures. If memory runs out, also for the body, the machine is as before, and
/// false is returned.
fn commits(
    rt: &(impl Abort + Alloc<A = Global>),
    machine: &mut Machine,
    operation: u8,
    body: Result<Vec<u8>, NoMemory>,
    failures: &[(u32, TransferCode)],
) -> bool {
    let Ok(body) = body else {
        return false;
    };
    must(rt, is_packet(operation, &body));
    let Ok(mut out) = Vec::with_capacity(rt.alloc(), body.len() / 128) else {
        return false;
    };
    let seen = Seen::of(machine);
    let is_committed = machine.commit(operation, &body, &mut out).is_ok();
    if is_committed {
        must(rt, are_failures(&out, failures));
    } else {
        must(rt, seen.holds(machine) && out.is_empty());
    }
    is_committed
}

/// Commits transfers, with exactly these failures.
fn commits_transfers(
    rt: &(impl Abort + Alloc<A = Global>),
    machine: &mut Machine,
    transfers: &[Transfer],
    failures: &[(u32, TransferCode)],
) -> bool {
    let body = transfer_bytes(rt.alloc(), transfers);
    commits(rt, machine, CREATE_TRANSFERS, body, failures)
}

/// Returns a chain whose last event fails, and one of its transfers by itself.
fn chain_and_single(rt: &(impl Abort + Alloc<A = Global>), machine: &mut Machine) -> bool {
    let accounts = [account(1, 0), account(2, 2), account(3, 0)];
    let chain = [
        transfer(1, [1, 2], 10, 1),
        transfer(2, [2, 3], 10, 1),
        Transfer {
            ledger: 0,
            ..transfer(3, [1, 3], 10, 0)
        },
    ];
    let codes = [
        (0, LinkedEventFailed),
        (1, LinkedEventFailed),
        (2, LedgerMustNotBeZero),
    ];
    let single = [transfer(2, [2, 3], 10, 0)];
    commits(
        rt,
        machine,
        CREATE_ACCOUNTS,
        account_bytes(rt.alloc(), &accounts),
        &[],
    ) && commits_transfers(rt, machine, &chain, &codes)
        && commits_transfers(rt, machine, &single, &[(0, ExceedsCredits)])
}

#[test]
fn chains_of_transfers_joined_refused_memory(rt: HostRuntime) {
    let mut machine = Machine::new(rt.alloc(), 0);
    if chain_and_single(&rt, &mut machine) {
        must(&rt, machine.clock() == 7);
    }
    drop(machine);
}

/// Returns a chain whose ids both come again, and a post that names nothing, whose id comes again.
fn four_packets(rt: &(impl Abort + Alloc<A = Global>), machine: &mut Machine) -> bool {
    let chain = [transfer(1, [1, 2], 5, 1), transfer(2, [1, 9], 5, 0)];
    let codes = [(0, LinkedEventFailed), (1, CreditAccountNotFound)];
    let again = [transfer(1, [1, 2], 5, 0), transfer(2, [1, 2], 5, 0)];
    let post = [resolving(3, 8, MOST, 4)];
    let last = [transfer(3, [1, 2], 1, 0), transfer(2, [1, 2], 1, 6)];
    let both = [(0, IdAlreadyFailed), (1, IdAlreadyFailed)];
    commits_transfers(rt, machine, &chain, &codes)
        && commits_transfers(rt, machine, &again, &[(1, IdAlreadyFailed)])
        && commits_transfers(rt, machine, &post, &[(0, PendingTransferNotFound)])
        && commits_transfers(rt, machine, &last, &both)
}

#[test]
fn id_already_failed_refused_memory(rt: HostRuntime) {
    let mut machine = Machine::new(rt.alloc(), 0);
    let accounts = account_bytes(rt.alloc(), &[account(1, 0), account(2, 0)]);
    if commits(&rt, &mut machine, CREATE_ACCOUNTS, accounts, &[])
        && four_packets(&rt, &mut machine)
    {
        must(&rt, machine.clock() == 9);
    }
    drop(machine);
}

/// Commits a void that names nothing, twice. It leaves its id among the failed ones, and the second time is refused for
/// that.
#[test]
fn void_of_nothing_refused_memory(rt: HostRuntime) {
    let mut machine = Machine::new(rt.alloc(), 0);
    let void = [resolving(1, 8, 0, 8)];
    let first = [(0, PendingTransferNotFound)];
    if commits_transfers(&rt, &mut machine, &void, &first)
        && commits_transfers(&rt, &mut machine, &void, &[(0, IdAlreadyFailed)])
    {
        must(&rt, machine.clock() == 2);
    }
    drop(machine);
}

/// Reserves capacity, or leaves the machine as it was.
#[test]
fn reserve_refused_memory(rt: HostRuntime) {
    let mut machine = Machine::new(rt.alloc(), 0);
    let seen = Seen::of(&machine);
    let is_reserved = machine.reserve(2, 3).is_ok();
    must(&rt, seen.holds(&machine));
    if is_reserved && chain_and_single(&rt, &mut machine) {
        must(&rt, machine.clock() == 7);
    }
    drop(machine);
}
