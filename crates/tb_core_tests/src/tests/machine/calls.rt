ghost use Rattle.std.specs.Prelude.{◌≡◌, []};

use super::{make_accounts, make_transfers, resolving};
use crate::tests::must;
use std::alloc::Global;
use std::process::Abort;
use tb_layout::{Account, Transfer};
use tb_machine::{Machine, Seed};
use tb_tables::Status;
use tb_test_makers::{account, transfer};
use tb_work::Packet;

/// Makes a pending transfer with a timeout, one that is voided, and a plain one. Once the first has expired, only the plain
/// transfer is in the balances.
#[test]
fn each_call(rt: HostRuntime) {
    let mut machine = Machine::new(rt.alloc(), 0);
    make_accounts(&rt, &mut machine, &[account(1, 0), account(2, 0)]);
    make_transfers(&rt, &mut machine, &three_kinds());
    must(
        &rt,
        machine.clock() == 6 && machine.status(1) == Some(Status::Pending),
    );
    machine.pulse(1_000_000_003);
    must(
        &rt,
        machine.clock() == 1_000_000_003 && machine.status(1) == Some(Status::Expired),
    );
    assert_stored(&rt, &machine);
    assert_accounts(&rt, &machine);
    drop(machine);
}

/// Asserts what is stored of the other transfers.
fn assert_stored(rt: &impl Abort, machine: &Machine) {
    must(
        rt,
        machine.status(2) == Some(Status::Voided) && machine.status(4).is_none(),
    );
    must(
        rt,
        matches!(machine.transfer(3), Some(void) if void.amount == 50),
    );
    must(rt, machine.transfer(9).is_none());
}

/// Asserts which accounts there are.
fn assert_accounts(rt: &impl Abort, machine: &Machine) {
    must(
        rt,
        machine.accounts() == 2 && machine.each_account().count() == 2,
    );
    must(rt, machine.account(1) == Some(with_posted(1, 30, 0)));
    must(rt, machine.account_at(1) == Some(with_posted(2, 0, 30)));
    must(
        rt,
        machine.account(9).is_none() && machine.account_at(2).is_none(),
    );
}

/// Returns a pending transfer with a timeout, one that the next one voids, and a plain one.
fn three_kinds() -> [Transfer; 4] {
    let timed = Transfer {
        timeout: 1,
        ..transfer(1, [1, 2], 100, 2)
    };
    let voided = transfer(2, [1, 2], 50, 2);
    let plain = transfer(4, [1, 2], 30, 0);
    [timed, voided, resolving(3, 2, 0, 8), plain]
}

/// Returns the account of an id with these posted balances, whose timestamp is its id.
fn with_posted(id: u8, debits: u128, credits: u128) -> Account {
    Account {
        debits_posted: debits,
        credits_posted: credits,
        timestamp: u64::from(id),
        ..account(u128::from(id), 0)
    }
}

/// Ids with one upper half.
const COLLIDING: [u128; 3] = [
    0x9e37_79b9_7f4a_7c15_0000_0000_0000_0000,
    0x9e37_79b9_7f4a_7c15_0000_0000_0000_0001,
    0x9e37_79b9_7f4a_7c15_0000_0000_0000_0002,
];

/// The accounts' ids have hash 0 without a seed.
#[test]
fn seed_with_colliding_ids(rt: HostRuntime) {
    let seed = Seed { low: 3, high: 5 };
    let mut machine = Machine::with_seed(rt.alloc(), 0, seed);
    let [upper, next, moved] = COLLIDING;
    make_accounts(&rt, &mut machine, &[account(upper, 0), account(next, 0)]);
    make_transfers(&rt, &mut machine, &[transfer(moved, [upper, next], 5, 0)]);
    must(
        &rt,
        matches!(machine.account(upper), Some(debtor) if debtor.debits_posted == 5),
    );
    must(&rt, machine.transfer(moved).is_some());
    drop(machine);
}

/// Returns the body of a lookup.
fn ids_body(rt: &(impl Abort + Alloc<A = Global>), ids: &[u128]) -> Vec<u8> {
    let packet = Packet::of_ids(rt.alloc(), ids, 7).expect(rt, "memory");
    packet.bytes.into_vec()
}

/// Looks three ids up; one has no account.
fn look_up(rt: &(impl Abort + Alloc<A = Global>), machine: &Machine, found: &mut Vec<Account>)
    requires { found.old.items ≡ [] }
{
    let ids = ids_body(rt, &[2, 9, 1]);
    must(rt, ids.len() == 48 && found.capacity() >= 3);
    machine.lookup(&ids, found);
}

/// The two that are there are found, in the order in which they are asked for.
#[test]
fn lookup_of_three_ids(rt: HostRuntime) {
    let mut machine = Machine::new(rt.alloc(), 0);
    make_accounts(&rt, &mut machine, &[account(1, 0), account(2, 0)]);
    let mut found = Vec::with_capacity(rt.alloc(), 3).expect(&rt, "memory");
    look_up(&rt, &machine, &mut found);
    let wanted = [with_posted(2, 0, 0), with_posted(1, 0, 0)];
    must(&rt, found.as_slice() == wanted.as_slice());
    must(&rt, machine.clock() == 2);
    drop(machine);
}
