//! More accounts than a batch has events, long chains that fail, and posts with words of their own.

use super::{failures_of, make_accounts, make_transfers, resolving};
use crate::tests::{must, push};
use std::alloc::Global;
use std::process::Abort;
use tb_layout::TransferCode::{
    CreditAccountNotFound, ExceedsCredits, IdAlreadyFailed, LinkedEventChainOpen, LinkedEventFailed,
};
use tb_layout::{CREATE_TRANSFERS, Failure, Transfer, TransferCode};
use tb_machine::Machine;
use tb_test_makers::{account, check, transfer, transfer_bytes};

/// Returns the account that a transfer debits or credits, of those with ids 1 to 9,000.
fn nth(number: u32) -> u128 {
    u128::from(number % 9_000 + 1)
}

/// Makes a packet of accounts with rising ids, from one on.
fn make_many(rt: &(impl Abort + Alloc<A = Global>), machine: &mut Machine, first: u32, count: u32) {
    let mut accounts = Vec::new(rt.alloc());
    for place in 0..count {
        let id = nth(first.wrapping_add(place));
        push(rt, &mut accounts, account(id, 0));
    }
    make_accounts(rt, machine, &accounts);
}

/// Transfers 1 from each account to the next.
fn transfer_on(
    rt: &(impl Abort + Alloc<A = Global>),
    machine: &mut Machine,
    first: u32,
    count: u32,
) {
    let mut transfers = Vec::new(rt.alloc());
    for place in 0..count {
        let number = first.wrapping_add(place);
        let accounts = [nth(number), nth(number.wrapping_add(1))];
        let id = u128::from(number).wrapping_add(1);
        push(rt, &mut transfers, transfer(id, accounts, 1, 0));
    }
    make_transfers(rt, machine, &transfers);
}

/// Returns how often an account was debited and credited.
fn posted(machine: &Machine, id: u128) -> Option<(u128, u128)> {
    let account = machine.account(id)?;
    Some((account.debits_posted, account.credits_posted))
}

/// Accounts by packets, each with how many there are before it, and how many it has.
const ACCOUNTS: [(u32, u32); 3] = [(0, 8_190), (8_190, 100), (8_290, 710)];

const TRANSFERS: [(u32, u32); 5] = [
    (0, 8_190),
    (8_190, 4_096),
    (12_286, 100),
    (12_386, 4_097),
    (16_483, 1_517),
];

fn make_all(rt: &(impl Abort + Alloc<A = Global>), machine: &mut Machine) {
    for (first, count) in &ACCOUNTS {
        make_many(rt, machine, *first, *count);
    }
    for (first, count) in &TRANSFERS {
        transfer_on(rt, machine, *first, *count);
    }
}

/// Packets of several sizes; in the end each account was debited and credited twice.
#[test]
fn transfers_between_nine_thousand_accounts(rt: HostRuntime) {
    let mut machine = Machine::new(rt.alloc(), 0);
    make_all(&rt, &mut machine);
    must(
        &rt,
        machine.accounts() == 9_000 && machine.clock() == 27_000,
    );
    for number in 0..9_000 {
        must(&rt, posted(&machine, nth(number)) == Some((2, 2)));
    }
    drop(machine);
}

/// A chain of transfers, one of which fails.
#[derive(Clone, Copy)]
struct Chain {
    length: u32,
    fault: u32,
    code: TransferCode,
    /// Whether its last event is linked too.
    is_open: bool,
}

const CHAINS: [Chain; 7] = [
    Chain {
        length: 3,
        fault: 1,
        code: CreditAccountNotFound,
        is_open: false,
    },
    Chain {
        length: 3,
        fault: 0,
        code: ExceedsCredits,
        is_open: true,
    },
    Chain {
        length: 100,
        fault: 50,
        code: ExceedsCredits,
        is_open: false,
    },
    Chain {
        length: 100,
        fault: 98,
        code: CreditAccountNotFound,
        is_open: true,
    },
    Chain {
        length: 8_190,
        fault: 8_189,
        code: CreditAccountNotFound,
        is_open: false,
    },
    Chain {
        length: 8_190,
        fault: 4_000,
        code: ExceedsCredits,
        is_open: true,
    },
    Chain {
        length: 8_190,
        fault: 8_188,
        code: CreditAccountNotFound,
        is_open: true,
    },
];

impl Chain {
    /// Returns the accounts of an event. There is no account 9, and account 3 has no credits.
    fn accounts(&self, index: u32) -> [u128; 2] {
        match self.code {
            _ if index != self.fault => [1, 2],
            ExceedsCredits => [3, 2],
            _ => [1, 9],
        }
    }

    /// Returns an event of the chain, or one with its id that is by itself and succeeds.
    fn event(&self, index: u32, is_chain: bool) -> Transfer {
        let id = u128::from(index).wrapping_add(1);
        if !is_chain {
            return transfer(id, [1, 2], 1, 0);
        }
        let is_linked = self.is_open || index.wrapping_add(1) < self.length;
        transfer(id, self.accounts(index), 1, u16::from(is_linked))
    }

    /// Returns the code of an event.
    fn code_of(&self, index: u32) -> TransferCode {
        if index == self.fault {
            self.code
        } else if self.is_open && index.wrapping_add(1) == self.length {
            LinkedEventChainOpen
        } else {
            LinkedEventFailed
        }
    }
}

/// Commits the chain, or its events anew and by themselves, and returns the failures.
fn commit_chain(
    rt: &(impl Abort + Alloc<A = Global>),
    machine: &mut Machine,
    chain: &Chain,
    is_chain: bool,
) -> Vec<Failure> {
    let mut transfers = Vec::new(rt.alloc());
    for index in 0..chain.length {
        push(rt, &mut transfers, chain.event(index, is_chain));
    }
    let body = transfer_bytes(rt.alloc(), &transfers).expect(rt, "memory");
    failures_of(rt, machine, CREATE_TRANSFERS, &body).expect(rt, "memory")
}

/// Asserts that each event failed with its code.
fn assert_all_fail(rt: &impl Abort, chain: &Chain, failures: &[Failure]) {
    must(rt, failures.len() == chain.length as usize);
    let mut index = 0u32;
    for failure in failures {
        check!(rt; failure.index == index && failure.code == chain.code_of(index).number(), index);
        index = index.wrapping_add(1);
    }
}

/// Asserts that the whole chain fails and moves nothing. Its events succeed then, but for the one whose id is among the failed ones.
fn assert_chain(rt: &(impl Abort + Alloc<A = Global>), machine: &mut Machine, chain: &Chain) {
    make_accounts(rt, machine, &[account(1, 0), account(2, 0), account(3, 2)]);
    let failures = commit_chain(rt, machine, chain, true);
    assert_all_fail(rt, chain, &failures);
    must(rt, posted(machine, 1) == Some((0, 0)));
    let again = commit_chain(rt, machine, chain, false);
    let only = Failure {
        index: chain.fault,
        code: IdAlreadyFailed.number(),
    };
    must(rt, again.as_slice() == [only].as_slice());
    must(
        rt,
        posted(machine, 1) == Some((u128::from(chain.length.saturating_sub(1)), 0)),
    );
}

#[test]
fn long_chains_that_fail(rt: HostRuntime) {
    for chain in &CHAINS {
        let mut machine = Machine::new(rt.alloc(), 0);
        assert_chain(&rt, &mut machine, chain);
        drop(machine);
    }
}

/// The user data of a pending transfer, of the post that names it, and of the transfer that the post makes: each word that isn't 0 is
/// the post's own.
const USER_DATA: [[(u128, u64, u32); 3]; 3] = [
    [
        (1, 2, 3),
        (u128::MAX, u64::MAX, u32::MAX),
        (u128::MAX, u64::MAX, u32::MAX),
    ],
    [
        (1 << 127, 1 << 63, 1 << 31),
        (0, 0, 0),
        (1 << 127, 1 << 63, 1 << 31),
    ],
    [(1, 2, 3), (1 << 64, 0, 1 << 16), (1 << 64, 2, 1 << 16)],
];

fn with_data(transfer: Transfer, data: &(u128, u64, u32)) -> Transfer {
    Transfer {
        user_data_128: data.0,
        user_data_64: data.1,
        user_data_32: data.2,
        ..transfer
    }
}

/// Makes a pending transfer and its post with these user data, and asserts those of the transfer that the post makes.
fn assert_user_data(
    rt: &(impl Abort + Alloc<A = Global>),
    machine: &mut Machine,
    [pending, post, made]: &[(u128, u64, u32); 3],
) {
    make_accounts(rt, machine, &[account(1, 0), account(2, 0)]);
    let events = [
        with_data(transfer(1, [1, 2], 5, 2), pending),
        with_data(resolving(2, 1, 5, 4), post),
    ];
    make_transfers(rt, machine, &events);
    let stored = machine.transfer(2).expect(rt, "the post");
    must(rt, stored == with_data(stored, made));
}

#[test]
fn posts_with_user_data(rt: HostRuntime) {
    for data in &USER_DATA {
        let mut machine = Machine::new(rt.alloc(), 0);
        assert_user_data(&rt, &mut machine, data);
        drop(machine);
    }
}
