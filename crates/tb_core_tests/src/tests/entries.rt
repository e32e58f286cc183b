//! A host that keeps the journal: what it is handed, which replies wait for it, and what it restores.

use crate::tests::must;
use std::alloc::Global;
use std::process::Abort;
use tb_embed::{Engine, PlacedPacket, PlacedPulse, RecordedEngine, RestoreFault};
use tb_layout::{CREATE_ACCOUNTS, CREATE_TRANSFERS, NoMemory};
use tb_test_makers::{account, accounts_packet, transfer, transfers_packet, zeros};
use tb_work::{Bytes, Outcome, Packet, Refusal, Reply};

#[derive(Clone, Copy)]
enum Call {
    /// A submitter's packet of an account.
    Submit(u32),
    Pulse(u64),
    Shut,
    Flush,
    Read,
    /// Hands out what is next.
    Hand,
    Durable(u64),
}

#[derive(Clone, Copy, PartialEq, Eq)]
enum Got {
    Number(u64),
    Done,
    Refused(Refusal),
    /// A submitter's packet of this number at this place.
    Packet(u32, u64, u64),
    /// A pulse at a place, with its moment.
    Pulse(u64, u64),
    Shutdown,
    Nothing,
}

/// Of three submitters. A reply comes once its packet was handed out and its place is stored.
const ROWS: [(Call, Got); 33] = [
    (Call::Hand, Got::Nothing),
    (Call::Submit(0), Got::Number(0)),
    (Call::Submit(2), Got::Number(0)),
    // What waits is in no entry.
    (Call::Hand, Got::Nothing),
    (Call::Flush, Got::Done),
    (Call::Read, Got::Nothing),
    // A place that is stored doesn't help a packet that wasn't handed out.
    (Call::Durable(1), Got::Done),
    (Call::Read, Got::Nothing),
    (Call::Hand, Got::Packet(0, 0, 0)),
    (Call::Read, Got::Packet(0, 0, 0)),
    (Call::Read, Got::Nothing),
    // The packet at place 1 is ahead of the pulse at place 2, and that of the packet at place 3.
    (Call::Pulse(5), Got::Done),
    (Call::Submit(0), Got::Number(1)),
    (Call::Flush, Got::Done),
    (Call::Hand, Got::Packet(2, 0, 1)),
    (Call::Hand, Got::Pulse(2, 5)),
    (Call::Hand, Got::Packet(0, 1, 3)),
    (Call::Hand, Got::Nothing),
    (Call::Read, Got::Nothing),
    (Call::Durable(3), Got::Done),
    // A lower number than before changes nothing.
    (Call::Durable(0), Got::Done),
    (Call::Read, Got::Packet(2, 0, 1)),
    (Call::Read, Got::Nothing),
    (Call::Durable(4), Got::Done),
    (Call::Read, Got::Packet(0, 1, 3)),
    // A pulse with nothing behind it, and packets that aren't committed.
    (Call::Pulse(6), Got::Done),
    (Call::Shut, Got::Done),
    (Call::Submit(1), Got::Number(0)),
    (Call::Pulse(7), Got::Refused(Refusal::Shutdown)),
    (Call::Read, Got::Shutdown),
    (Call::Hand, Got::Pulse(4, 6)),
    (Call::Hand, Got::Nothing),
    (Call::Read, Got::Nothing),
];

fn got_of(done: Result<(), Refusal>) -> Got {
    match done {
        Ok(()) => Got::Done,
        Err(refusal) => Got::Refused(refusal),
    }
}

fn packet_got(reply: &Reply) -> Got {
    match &reply.outcome {
        Outcome::Committed { place, answer: _ } => {
            Got::Packet(reply.submitter, reply.number, *place)
        }
        _ => Got::Shutdown,
    }
}

fn submitted(host: &mut RecordedEngine, alloc: Global, submitter: u32) -> Got {
    let Ok(packet) = zeros(alloc, CREATE_ACCOUNTS, 128) else {
        return Got::Refused(Refusal::NoMemory);
    };
    match host.submit(alloc, submitter, packet) {
        Ok(number) => Got::Number(number),
        Err((packet, refusal)) => {
            drop(packet);
            Got::Refused(refusal)
        }
    }
}

fn handed(host: &mut RecordedEngine) -> Got {
    if let Some(pulse) = host.next_pulse() {
        host.hand_pulse();
        return Got::Pulse(pulse.place, pulse.moment);
    }
    let got = host.next_packet().map_or(Got::Nothing, packet_got);
    match host.hand_packet() {
        Ok(()) => got,
        Err(_) => Got::Refused(Refusal::NoMemory),
    }
}

fn got_by(host: &mut RecordedEngine, alloc: Global, call: Call) -> Got {
    match call {
        Call::Submit(submitter) => submitted(host, alloc, submitter),
        Call::Pulse(moment) => got_of(host.pulse(moment)),
        Call::Shut => got_of(host.shut()),
        Call::Flush => got_of(host.flush()),
        Call::Read => match host.reply() {
            Some(reply) => packet_got(&reply),
            None => Got::Nothing,
        },
        Call::Hand => handed(host),
        Call::Durable(places) => {
            host.set_durable(places);
            Got::Done
        }
    }
}

/// Returns whether each call has its result, if it is made once more where memory ran out for it.
fn rows_hold(host: &mut RecordedEngine, alloc: Global) -> bool {
    for (call, want) in ROWS.iter() {
        let got = match got_by(host, alloc, *call) {
            Got::Refused(Refusal::NoMemory) => got_by(host, alloc, *call),
            got => got,
        };
        if got != *want {
            return false;
        }
    }
    true
}

/// Opens an engine for a host that keeps the journal, or doesn't.
fn opened(rt: &(impl Abort + Alloc<A = Global>), submitters: u32, records: bool) -> RecordedEngine {
    let engine = Engine::new(rt.alloc(), 0, 8190, submitters).expect(rt, "settings");
    RecordedEngine::new(rt.alloc(), engine, records)
}

/// The calls have their results whichever allocation is refused.
#[test]
fn entries_of_calls_refused_memory(rt: HostRuntime) {
    let mut host = opened(&rt, 3, true);
    must(&rt, rows_hold(&mut host, rt.alloc()));
    must(&rt, host.engine().clock() == 6);
    drop(host);
}

/// Without a journal nothing is handed out, and replies wait for nothing.
#[test]
fn a_host_without_a_journal(rt: HostRuntime) {
    let mut host = opened(&rt, 3, false);
    let calls = [
        (Call::Submit(0), Got::Number(0)),
        (Call::Pulse(5), Got::Done),
        (Call::Hand, Got::Nothing),
        (Call::Read, Got::Packet(0, 0, 0)),
        (Call::Read, Got::Nothing),
    ];
    for (call, want) in calls.iter() {
        must(&rt, got_by(&mut host, rt.alloc(), *call) == *want);
    }
    drop(host);
}

fn placed(alloc: Global, reply: &Reply) -> Result<PlacedPacket, NoMemory> {
    let mut bytes = Vec::with_capacity(alloc, reply.packet.bytes.as_slice().len())?;
    bytes.extend_from_slice(reply.packet.bytes.as_slice())?;
    let place = match &reply.outcome {
        Outcome::Committed { place, answer: _ } => *place,
        _ => u64::MAX,
    };
    Ok(PlacedPacket {
        place,
        submitter: reply.submitter,
        number: reply.number,
        packet: Packet {
            operation: reply.packet.operation,
            bytes: Bytes::from_vec(bytes),
            user: 0,
        },
    })
}

/// Hands the next entry to another engine, which restores it. False if there is none, or it isn't restored.
fn restored(from: &mut RecordedEngine, to: &mut RecordedEngine, alloc: Global) -> bool {
    if let Some(pulse) = from.next_pulse() {
        from.hand_pulse();
        return to.restore_pulse(pulse).is_ok();
    }
    let Some(Ok(entry)) = from.next_packet().map(|reply| placed(alloc, reply)) else {
        return false;
    };
    from.hand_packet().is_ok() && to.restore_packet(alloc, entry).is_ok()
}

/// Restores this number of entries, after which none is left.
fn restore_all(
    from: &mut RecordedEngine,
    to: &mut RecordedEngine,
    alloc: Global,
    count: usize,
) -> bool {
    for _ in 0..count {
        if !restored(from, to, alloc) {
            return false;
        }
    }
    from.next_packet().is_none() && from.next_pulse().is_none()
}

/// Queues a transfer of 1, whose id needs 128 bits, and commits all that waits once in a while.
fn post(host: &mut RecordedEngine, alloc: Global, number: u32) -> bool {
    let id = u128::MAX / 2 + u128::from(number);
    let Ok(packet) = transfers_packet(alloc, &[transfer(id, [7, 5], 1, 0)]) else {
        return false;
    };
    let queued = match host.submit(alloc, number % 16, packet) {
        Ok(of_submitter) => of_submitter == u64::from(number / 16) + u64::from(number % 16 == 0),
        Err((packet, _)) => {
            drop(packet);
            false
        }
    };
    queued && (number % 1000 != 999 || host.pulse(u64::from(number + 1) * 1_000_000) == Ok(()))
}

fn post_all(host: &mut RecordedEngine, alloc: Global, count: u32) -> bool {
    let Ok(accounts) = accounts_packet(alloc, &[account(7, 0), account(5, 0)]) else {
        return false;
    };
    let made = host
        .submit(alloc, 0, accounts)
        .map_err(|refused| drop(refused.0));
    for number in 0..count {
        if !post(host, alloc, number) {
            return false;
        }
    }
    made == Ok(0) && host.flush() == Ok(())
}

/// Asserts that an engine has the accounts after a number of transfers, and as many places as packets and pulses.
fn assert_posted(rt: &impl Abort, engine: &Engine, count: u32) {
    let debits = engine
        .lookup_account(7)
        .map(|account| account.debits_posted);
    must(rt, debits == Some(u128::from(count)));
    must(
        rt,
        engine.places() == u64::from(count) + 1 + u64::from(count / 1000),
    );
    must(rt, engine.counts().transfers == count as usize);
    must(rt, engine.clock() == u64::from(count) * 1_000_000);
}

/// Sixteen submitters' twenty thousand packets are handed out and restored.
#[test]
fn twenty_thousand_packets_restored(rt: HostRuntime) {
    let mut first = opened(&rt, 16, true);
    must(&rt, post_all(&mut first, rt.alloc(), 20_000));
    let mut second = opened(&rt, 16, true);
    must(
        &rt,
        restore_all(&mut first, &mut second, rt.alloc(), 20_021),
    );
    assert_posted(&rt, first.engine(), 20_000);
    assert_posted(&rt, second.engine(), 20_000);
    must(&rt, second.engine().next_number(15) == 1250);
    must(
        &rt,
        second.next_packet().is_none() && second.reply().is_none(),
    );
    drop(first);
    drop(second);
}

/// Returns the fault of an entry of 8,190 transfers at a place, with a number.
fn fault(
    host: &mut RecordedEngine,
    alloc: Global,
    place: u64,
    number: u64,
) -> Option<RestoreFault> {
    let Ok(packet) = zeros(alloc, CREATE_TRANSFERS, 8190 * 128) else {
        return None;
    };
    let entry = PlacedPacket {
        place,
        submitter: 1,
        number,
        packet,
    };
    match host.restore_packet(alloc, entry) {
        Ok(()) => None,
        Err((entry, fault)) => {
            drop(entry);
            Some(fault)
        }
    }
}

fn is_not_next(fault: Option<RestoreFault>) -> bool {
    match fault {
        Some(RestoreFault::NotNext) => true,
        _ => false,
    }
}

fn is_in_use(fault: Option<RestoreFault>) -> bool {
    match fault {
        Some(RestoreFault::InUse) => true,
        _ => false,
    }
}

/// Only the next entry is restored, ahead of own packets.
#[test]
fn entries_that_are_not_next(rt: HostRuntime) {
    let mut host = opened(&rt, 2, true);
    must(&rt, is_not_next(fault(&mut host, rt.alloc(), 1, 0)));
    must(&rt, is_not_next(fault(&mut host, rt.alloc(), 0, 1)));
    must(&rt, fault(&mut host, rt.alloc(), 0, 0).is_none());
    must(&rt, is_not_next(fault(&mut host, rt.alloc(), 0, 0)));
    // Above what 16,380 events make of the clock.
    let pulse = PlacedPulse {
        place: 2,
        moment: 1 << 40,
    };
    must(&rt, is_not_next(host.restore_pulse(pulse).err()));
    must(&rt, fault(&mut host, rt.alloc(), 1, 1).is_none());
    must(&rt, host.restore_pulse(pulse).is_ok());
    must(
        &rt,
        host.engine().clock() == 1 << 40 && host.engine().places() == 3,
    );
    must(&rt, submitted(&mut host, rt.alloc(), 1) == Got::Number(2));
    must(&rt, is_in_use(fault(&mut host, rt.alloc(), 3, 3)));
    must(&rt, host.flush() == Ok(()));
    must(&rt, is_in_use(fault(&mut host, rt.alloc(), 4, 3)));
    must(&rt, handed(&mut host) == Got::Packet(1, 2, 3));
    must(&rt, is_in_use(host.restore_pulse(pulse).err()));
    drop(host);
}
