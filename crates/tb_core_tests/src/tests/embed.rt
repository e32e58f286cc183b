//! An engine: calls in a row, each with the result that the rules give it.

use super::made::rising;
use crate::tests::must;
use std::alloc::Global;
use std::process::Abort;
use tb_embed::{Engine, Seed};
use tb_layout::{
    Account, CREATE_ACCOUNTS, CREATE_TRANSFERS, LOOKUP_ACCOUNTS, MOMENT_MAX, NoMemory, Transfer,
};
use tb_tables::Status;
use tb_test_makers::{account, accounts_packet, transfer, transfers_packet, zeros};
use tb_work::{Outcome, Packet, Refusal, Reply};

#[derive(Clone, Copy)]
enum Call {
    /// A submitter's packet: an operation with `size` zeros as its data.
    Submit(u32, u8, usize),
    Pulse(u64),
    Shut,
    Flush,
    Read,
}

#[derive(Clone, Copy, PartialEq, Eq)]
enum Got {
    Number(u64),
    Done,
    Refused(Refusal),
    /// A submitter's packet of this number at this place.
    Committed(u32, u64, u64),
    Shutdown(u32, u64),
    Stopped,
    Nothing,
}

/// A limit of two events and three submitters.
const ROWS: [(Call, Got); 26] = [
    (Call::Read, Got::Nothing),
    // Accounts of two submitters join; a third event doesn't.
    (Call::Submit(0, CREATE_ACCOUNTS, 128), Got::Number(0)),
    (Call::Submit(2, CREATE_ACCOUNTS, 128), Got::Number(0)),
    (Call::Read, Got::Nothing),
    (Call::Submit(0, CREATE_ACCOUNTS, 128), Got::Number(1)),
    (Call::Read, Got::Committed(0, 0, 0)),
    (Call::Read, Got::Committed(2, 0, 1)),
    (Call::Read, Got::Nothing),
    // What is refused uses no number.
    (
        Call::Submit(3, CREATE_ACCOUNTS, 128),
        Got::Refused(Refusal::BadSubmitters),
    ),
    (
        Call::Submit(0, 0, 128),
        Got::Refused(Refusal::InvalidOperation),
    ),
    (
        Call::Submit(0, CREATE_TRANSFERS, 127),
        Got::Refused(Refusal::InvalidDataSize),
    ),
    (
        Call::Submit(0, CREATE_TRANSFERS, 384),
        Got::Refused(Refusal::TooMuchData),
    ),
    (
        Call::Pulse(MOMENT_MAX + 1),
        Got::Refused(Refusal::MomentTooLarge),
    ),
    (Call::Submit(0, CREATE_TRANSFERS, 0), Got::Number(2)),
    // The pulse has place 4.
    (Call::Pulse(MOMENT_MAX), Got::Done),
    (Call::Submit(1, LOOKUP_ACCOUNTS, 16), Got::Number(0)),
    (Call::Flush, Got::Done),
    (Call::Read, Got::Committed(0, 1, 2)),
    (Call::Read, Got::Committed(0, 2, 3)),
    (Call::Read, Got::Committed(1, 0, 5)),
    (Call::Shut, Got::Done),
    (Call::Shut, Got::Refused(Refusal::Shutdown)),
    (Call::Pulse(1), Got::Refused(Refusal::Shutdown)),
    (Call::Submit(1, CREATE_ACCOUNTS, 128), Got::Number(1)),
    (Call::Read, Got::Shutdown(1, 1)),
    (Call::Read, Got::Nothing),
];

fn submitted(engine: &mut Engine, alloc: Global, submitter: u32, packet: Packet) -> Got {
    match engine.submit(alloc, submitter, packet) {
        Ok(number) => Got::Number(number),
        Err((packet, refusal)) => {
            drop(packet);
            Got::Refused(refusal)
        }
    }
}

fn got_of(done: Result<(), Refusal>) -> Got {
    match done {
        Ok(()) => Got::Done,
        Err(refusal) => Got::Refused(refusal),
    }
}

fn reply_got(reply: &Reply) -> Got {
    match &reply.outcome {
        Outcome::Committed { place, answer: _ } => {
            Got::Committed(reply.submitter, reply.number, *place)
        }
        Outcome::Shutdown => Got::Shutdown(reply.submitter, reply.number),
        Outcome::Stopped => Got::Stopped,
    }
}

fn got_by(engine: &mut Engine, alloc: Global, call: Call) -> Got {
    match call {
        Call::Submit(submitter, operation, size) => match zeros(alloc, operation, size) {
            Ok(packet) => submitted(engine, alloc, submitter, packet),
            Err(_) => Got::Refused(Refusal::NoMemory),
        },
        Call::Pulse(moment) => got_of(engine.pulse(moment)),
        Call::Shut => got_of(engine.shut()),
        Call::Flush => got_of(engine.flush()),
        Call::Read => match engine.reply() {
            Some(reply) => reply_got(&reply),
            None => Got::Nothing,
        },
    }
}

/// Makes a call, and once more if memory ran out for it: then nothing has changed, and the memory is there.
fn got_again(engine: &mut Engine, alloc: Global, call: Call) -> Got {
    match got_by(engine, alloc, call) {
        Got::Refused(Refusal::NoMemory) => got_by(engine, alloc, call),
        got => got,
    }
}

/// Returns whether each call has its result, if it is made again where memory ran out for it, or at once.
fn rows_hold(engine: &mut Engine, alloc: Global, is_again: bool) -> bool {
    for (step, want) in ROWS.iter() {
        let got = if is_again {
            got_again(engine, alloc, *step)
        } else {
            got_by(engine, alloc, *step)
        };
        if got != *want {
            return false;
        }
    }
    engine.clock() == MOMENT_MAX && !engine.stopped()
}

/// Opens an engine of a limit of two events and three submitters.
fn opened(rt: &(impl Abort + Alloc<A = Global>)) -> Engine {
    Engine::new(rt.alloc(), 0, 2, 3).expect(rt, "settings")
}

#[test]
fn calls_in_a_row(rt: HostRuntime) {
    let mut engine = opened(&rt);
    must(&rt, rows_hold(&mut engine, rt.alloc(), false));
    must(&rt, engine.lookup_account(0).is_none());
    drop(engine);
}

/// Queues an account, commits it, and returns what its reply says.
fn commit_one(rt: &impl Abort, engine: &mut Engine, alloc: Global) -> Got {
    must(
        rt,
        got_by(engine, alloc, Call::Submit(0, CREATE_ACCOUNTS, 128)) == Got::Number(0),
    );
    must(rt, got_by(engine, alloc, Call::Flush) == Got::Done);
    got_by(engine, alloc, Call::Read)
}

/// The second engine goes on with the ledger of the first: its packet is numbered from 0 again, and committed at place 1.
#[test]
fn engine_over_the_ledger_of_another(rt: HostRuntime) {
    let mut first = opened(&rt);
    must(
        &rt,
        commit_one(&rt, &mut first, rt.alloc()) == Got::Committed(0, 0, 0),
    );
    let ledger = first.into_ledger().ok().expect(&rt, "nothing is held");
    must(&rt, !ledger.stopped());
    let mut second = Engine::over(rt.alloc(), ledger, 2, 3)
        .ok()
        .expect(&rt, "it is opened");
    must(
        &rt,
        commit_one(&rt, &mut second, rt.alloc()) == Got::Committed(0, 0, 1),
    );
    drop(second);
}

/// An engine that holds a packet keeps its ledger.
#[test]
fn engine_that_holds_a_packet_keeps_its_ledger(rt: HostRuntime) {
    let mut engine = opened(&rt);
    let queued = got_by(
        &mut engine,
        rt.alloc(),
        Call::Submit(0, CREATE_ACCOUNTS, 128),
    );
    must(&rt, queued == Got::Number(0));
    let engine = engine.into_ledger().err();
    must(&rt, engine.is_some());
    drop(engine);
}

/// Reserves capacity, then more than memory has.
#[test]
fn calls_in_a_row_with_a_seed_after_refused_reservations(rt: HostRuntime) {
    let seed = Seed { low: 3, high: 5 };
    let mut engine = Engine::with_seed(rt.alloc(), 0, 2, 3, seed).expect(&rt, "settings");
    must(&rt, engine.reserve(10, 10) == Ok(()));
    must(&rt, engine.reserve(0, 1 << 60) == Err(Refusal::NoMemory));
    must(&rt, engine.reserve(usize::MAX, 0) == Err(Refusal::NoMemory));
    must(&rt, rows_hold(&mut engine, rt.alloc(), false));
    drop(engine);
}

/// What a limit of two events and three submitters refuses by operation and size alone.
const SIZES: [(u32, u8, usize, Option<Refusal>); 8] = [
    (0, CREATE_ACCOUNTS, 0, None),
    (2, CREATE_TRANSFERS, 256, None),
    (0, LOOKUP_ACCOUNTS, 32, None),
    (3, 0, 1, Some(Refusal::BadSubmitters)),
    (0, 0, 128, Some(Refusal::InvalidOperation)),
    (0, CREATE_TRANSFERS, 129, Some(Refusal::InvalidDataSize)),
    (0, LOOKUP_ACCOUNTS, 48, Some(Refusal::TooMuchData)),
    (0, CREATE_ACCOUNTS, 384, Some(Refusal::TooMuchData)),
];

fn sizes_hold(engine: &Engine, alloc: Global) -> bool {
    for (submitter, operation, size, want) in SIZES.iter() {
        let Ok(bytes) = Vec::from_elem(alloc, 0u8, *size) else {
            return false;
        };
        if engine.refusal_of(*submitter, *operation, bytes.as_slice()) != *want {
            return false;
        }
    }
    true
}

#[test]
fn refused_by_operation_and_size_alone(rt: HostRuntime) {
    let engine = opened(&rt);
    must(&rt, sizes_hold(&engine, rt.alloc()));
    must(&rt, !engine.stopped());
    drop(engine);
}

/// Commits accounts 7 and 5, and transfer 1 and pending transfer 2 between them.
fn fill(engine: &mut Engine, alloc: Global) -> Result<bool, NoMemory> {
    let accounts = accounts_packet(alloc, &[account(7, 0), account(5, 0)])?;
    let transfers = [
        transfer(1, [7, 5], 30, 0),
        transfer(2, [7, 5], 10, Transfer::PENDING),
    ];
    let made = submitted(engine, alloc, 0, accounts);
    let moved = submitted(engine, alloc, 0, transfers_packet(alloc, &transfers)?);
    Ok(made == Got::Number(0) && moved == Got::Number(1) && engine.flush() == Ok(()))
}

fn is_account(found: Option<Account>, id: u128, debits_posted: u128) -> bool {
    match found {
        Some(account) => account.id == id && account.debits_posted == debits_posted,
        None => false,
    }
}

fn is_transfer(found: Option<Transfer>, amount: u128) -> bool {
    match found {
        Some(transfer) => transfer.amount == amount && transfer.debit_account_id == 7,
        None => false,
    }
}

/// Asserts what is found of the accounts and the transfers.
fn assert_found(rt: &impl Abort, engine: &Engine) {
    must(
        rt,
        is_account(engine.account_at(0), 7, 30) && is_account(engine.account_at(1), 5, 0),
    );
    must(
        rt,
        engine.account_at(2).is_none() && engine.lookup_transfer(7).is_none(),
    );
    must(
        rt,
        is_transfer(engine.lookup_transfer(1), 30) && is_transfer(engine.lookup_transfer(2), 10),
    );
    must(
        rt,
        engine.transfer_status(1).is_none() && engine.transfer_status(3).is_none(),
    );
    must(rt, engine.transfer_status(2) == Some(Status::Pending));
}

#[test]
fn looked_up_by_index_and_by_id(rt: HostRuntime) {
    let mut engine = Engine::new(rt.alloc(), 0, 8190, 1).expect(&rt, "settings");
    must(&rt, fill(&mut engine, rt.alloc()) == Ok(true));
    assert_found(&rt, &engine);
    drop(engine);
}

/// The calls in a row have their results whichever allocation is refused.
#[test]
fn calls_made_again_refused_memory(rt: HostRuntime) {
    let mut engine = opened(&rt);
    must(&rt, rows_hold(&mut engine, rt.alloc(), true));
    drop(engine);
}

/// Queues a packet of transfers between an account and none, whose ids are stored as failed once it is committed.
fn submit_failing(engine: &mut Engine, alloc: Global, submitter: u32, count: usize) -> Got {
    match rising(alloc, count as u128, [7, 9], count) {
        Ok(packet) => submitted(engine, alloc, submitter, packet),
        Err(_) => Got::Refused(Refusal::NoMemory),
    }
}

/// Queues packets of 4 to 256 failing transfers, and after each makes a call that commits it. Each call is made once more if
/// memory ran out for it. Returns whether each was done.
fn commits_of_each_kind(engine: &mut Engine, alloc: Global) -> bool {
    let calls = [
        (4, Call::Flush, Got::Done),
        (8, Call::Pulse(1), Got::Done),
        (16, Call::Submit(15, LOOKUP_ACCOUNTS, 16), Got::Number(0)),
        (32, Call::Pulse(2), Got::Done),
        (64, Call::Submit(15, LOOKUP_ACCOUNTS, 16), Got::Number(1)),
        (128, Call::Flush, Got::Done),
        (256, Call::Shut, Got::Done),
    ];
    for (number, (count, call, want)) in calls.iter().enumerate() {
        let queued = match submit_failing(engine, alloc, 3, *count) {
            Got::Refused(Refusal::NoMemory) => submit_failing(engine, alloc, 3, *count),
            queued => queued,
        };
        if queued != Got::Number(number as u64) || got_again(engine, alloc, *call) != *want {
            return false;
        }
    }
    true
}

/// The places of the nine packets: each pulse has one too.
const PLACES: [(u32, u64, u64); 9] = [
    (3, 0, 0),
    (3, 1, 1),
    (3, 2, 3),
    (15, 0, 4),
    (3, 3, 5),
    (3, 4, 7),
    (15, 1, 8),
    (3, 5, 9),
    (3, 6, 10),
];

/// With 16 submitters, whatever commits a batch: the map of failed ids has to grow as it is committed.
#[test]
fn commits_made_again_refused_memory(rt: HostRuntime) {
    let mut engine = Engine::new(rt.alloc(), 0, 8190, 16).expect(&rt, "settings");
    must(&rt, commits_of_each_kind(&mut engine, rt.alloc()));
    for (submitter, number, place) in PLACES.iter() {
        let read = got_by(&mut engine, rt.alloc(), Call::Read);
        must(&rt, read == Got::Committed(*submitter, *number, *place));
    }
    must(
        &rt,
        got_by(&mut engine, rt.alloc(), Call::Read) == Got::Nothing,
    );
    must(&rt, engine.counts().failed_ids == 508 && !engine.stopped());
    drop(engine);
}
