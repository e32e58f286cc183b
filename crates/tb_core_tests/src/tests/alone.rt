//! Packets that a bare ledger commits alone, with ample memory. Clauses say what comes of one that is committed; no size and no place may
//! make the ledger give it back.

use super::made::packet_of_accounts;
use crate::tests::must;
use std::alloc::Global;
use std::process::Abort;
use tb_core::{BareLedger, Seed};
use tb_layout::{BATCH_MAX, CREATE_ACCOUNTS, LOOKUP_ACCOUNTS};
use tb_test_makers::{job, packet_of, zeros};
use tb_work::{Answer, Outcome, Packet, Reply};

/// A committed packet's place, and how many failures and accounts its answer has.
type Committed = (u64, usize, usize);

fn committed_in(rt: &impl Abort, reply: &Reply) -> Committed {
    match &reply.outcome {
        Outcome::Committed {
            place,
            answer: Answer::Failures(failures),
        } => (*place, failures.as_slice().len(), 0),
        Outcome::Committed {
            place,
            answer: Answer::Accounts(accounts),
        } => (*place, 0, accounts.as_slice().len()),
        _ => rt.abort(),
    }
}

/// Commits a packet, and returns what its reply says.
fn commit(
    rt: &(impl Abort + Alloc<A = Global>),
    ledger: &mut BareLedger,
    number: u64,
    packet: Packet,
) -> Committed {
    let job = job(rt.alloc(), 0, number, packet).expect(rt, "it is admitted");
    let reply = ledger.try_alone(job).ok().expect(rt, "memory");
    committed_in(rt, &reply)
}

/// Returns a lookup of account 1, as often as a packet has ids.
fn ones(rt: &(impl Abort + Alloc<A = Global>)) -> Packet {
    let mut ids = Vec::from_elem(rt.alloc(), 0u8, BATCH_MAX as usize * 16).expect(rt, "memory");
    for id in ids.as_mut_slice().chunks_exact_mut(16) {
        id[0] = 1;
    }
    packet_of(LOOKUP_ACCOUNTS, ids)
}

/// Accounts without an id, each of which fails, and then one that doesn't: no failure of the packet before is in its reply.
#[test]
fn the_largest_packets_alone(rt: HostRuntime) {
    let mut ledger = BareLedger::with_seed(rt.alloc(), 0, Seed::default());
    let most = BATCH_MAX as usize;
    let faulty = zeros(rt.alloc(), CREATE_ACCOUNTS, most * 128).expect(&rt, "memory");
    must(&rt, commit(&rt, &mut ledger, 0, faulty) == (0, most, 0));
    must(
        &rt,
        commit(&rt, &mut ledger, 1, packet_of_accounts(&rt, &[(1, 0)])) == (1, 0, 0),
    );
    must(&rt, commit(&rt, &mut ledger, 2, ones(&rt)) == (2, 0, most));
    must(&rt, ledger.places() == 3);
    drop(ledger);
}

/// Each has no event.
#[test]
fn seventy_thousand_packets_alone(rt: HostRuntime) {
    let mut ledger = BareLedger::with_seed(rt.alloc(), 0, Seed::default());
    for number in 0..70_000 {
        let empty = zeros(rt.alloc(), CREATE_ACCOUNTS, 0).expect(&rt, "memory");
        must(
            &rt,
            commit(&rt, &mut ledger, number, empty) == (number, 0, 0),
        );
    }
    must(&rt, ledger.places() == 70_000);
    drop(ledger);
}
