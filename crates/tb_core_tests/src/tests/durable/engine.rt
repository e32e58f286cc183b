//! An engine over a ledger in a store, and over one that stops.

use super::{MIDDLE, empty_store, facts, largest_packet, opened, two_accounts};
use crate::tests::made::packet_of_accounts;
use crate::tests::must;
use sqlite::MemStore;
use std::alloc::Global;
use std::process::Abort;
use tb_core::{AnyLedger, BareLedger, Outcomes, Parcel, Seed};
use tb_durable::DurableLedger;
use tb_embed::AnyEngine;
use tb_layout::MOMENT_MAX;
use tb_test_makers::{OutcomeKind, check, kind_of, transfer, transfers_packet};
use tb_work::{Packet, Refusal};

/// A ledger whose store fails once it has taken some parcels.
#[derive(Drop)]
struct FailingLedger {
    bare: BareLedger,
    left: u32,
}

impl AnyLedger for FailingLedger {
    ghost use Rattle.tb_core.specs.claim.AnyLedger.{IsWithJournal};

    ghost is = { λ ledger state. IsWithJournal ledger.bare state };

    fn stopped(&self) -> bool {
        AnyLedger::stopped(&self.bare)
    }

    fn apply(&mut self, parcel: Parcel) -> Outcomes {
        if self.left == 0 {
            return self.bare.apply_as_refused(parcel);
        }
        self.left -= 1;
        self.bare.apply(parcel)
    }
}

fn engine_over<L: AnyLedger>(rt: &(impl Abort + Alloc<A = Global>), ledger: L) -> AnyEngine<L> {
    match AnyEngine::over(rt.alloc(), ledger, 8190, 16) {
        Ok(engine) => engine,
        Err((ledger, _)) => {
            drop(ledger);
            rt.abort()
        }
    }
}

/// Queues a packet and returns its number; None if it is refused.
fn queue<L: AnyLedger>(
    alloc: Global,
    engine: &mut AnyEngine<L>,
    submitter: u32,
    packet: Packet,
) -> Result<u64, Refusal> {
    match engine.submit(alloc, submitter, packet) {
        Ok(number) => Ok(number),
        Err((packet, refusal)) => {
            drop(packet);
            Err(refusal)
        }
    }
}

/// Reads the next reply. Returns its submitter, and its packet's outcome.
fn read<L: AnyLedger>(engine: &mut AnyEngine<L>) -> Option<(u32, OutcomeKind)> {
    let reply = engine.reply()?;
    Some((reply.submitter, kind_of(&reply)))
}

fn one_transfer(rt: &(impl Abort + Alloc<A = Global>), id: u128) -> Packet {
    transfers_packet(rt.alloc(), &[transfer(id, [1, 2], 1, 0)]).expect(rt, "memory")
}

/// Queues a packet, which gets this number.
fn assert_queued<L: AnyLedger>(
    rt: &(impl Abort + Alloc<A = Global>),
    engine: &mut AnyEngine<L>,
    submitter: u32,
    packet: Packet,
    number: u64,
) {
    must(
        rt,
        queue(rt.alloc(), engine, submitter, packet) == Ok(number),
    );
}

/// Reads these replies, and no more.
fn assert_read<L: AnyLedger>(
    rt: &impl Abort,
    engine: &mut AnyEngine<L>,
    wanted: &[(u32, OutcomeKind)],
) {
    for reply in wanted {
        must(rt, read(engine) == Some(*reply));
    }
    must(rt, read(engine).is_none());
}

/// An engine over a ledger in a store, and the ledger of one that holds nothing.
type StoredEngine = AnyEngine<DurableLedger<MemStore>>;

fn ledger_of(rt: &impl Abort, engine: StoredEngine) -> DurableLedger<MemStore> {
    match engine.into_ledger() {
        Ok(ledger) => ledger,
        Err(engine) => {
            drop(engine);
            rt.abort()
        }
    }
}

/// Commits two packets and a pulse.
fn begin(rt: &(impl Abort + Alloc<A = Global>), engine: &mut StoredEngine) {
    assert_queued(rt, engine, 15, two_accounts(rt), 0);
    assert_queued(rt, engine, 3, largest_packet(rt), 0);
    must(rt, engine.pulse(MOMENT_MAX).is_ok());
    let first = [
        (15, OutcomeKind::Committed(0)),
        (3, OutcomeKind::Committed(1)),
    ];
    assert_read(rt, engine, &first);
    let wanted = [3, u128::from(MOMENT_MAX), 8190, 8190];
    must(
        rt,
        !engine.stopped() && facts(engine.ledger()) == Some(wanted),
    );
}

/// Commits a packet, and queues one behind the Close.
fn go_on(rt: &(impl Abort + Alloc<A = Global>), engine: &mut StoredEngine) {
    assert_queued(
        rt,
        engine,
        15,
        packet_of_accounts(rt, &[(u128::MAX - 1, 0)]),
        0,
    );
    must(rt, engine.shut().is_ok());
    assert_queued(rt, engine, 15, packet_of_accounts(rt, &[(3, 0)]), 1);
    let last = [(15, OutcomeKind::Committed(3)), (15, OutcomeKind::Shutdown)];
    assert_read(rt, engine, &last);
    let ledger = engine.ledger();
    must(rt, ledger.packets()[15] == 2 && ledger.places() == 4);
}

/// Places count on in the engine over what is opened again, and packets are numbered from 0.
#[test]
fn an_engine_over_rows_continues(rt: HostRuntime) {
    let mut engine = engine_over(&rt, opened(&rt, empty_store(&rt)));
    begin(&rt, &mut engine);
    let store = ledger_of(&rt, engine).into_store();
    let mut again = engine_over(&rt, opened(&rt, store));
    go_on(&rt, &mut again);
    drop(again);
}

/// Returns an id whose highest bit is set.
fn wide_id(n: u64) -> u128 {
    MIDDLE.saturating_add(u128::from(n))
}

/// Queues two accounts, and then packets of one event of sixteen submitters, as many as a batch takes.
fn queue_all(rt: &(impl Abort + Alloc<A = Global>), engine: &mut StoredEngine) {
    assert_queued(rt, engine, 0, two_accounts(rt), 0);
    for n in 0..8190u64 {
        let number = n / 16 + u64::from(n % 16 == 0);
        assert_queued(
            rt,
            engine,
            (n % 16) as u32,
            one_transfer(rt, wide_id(n)),
            number,
        );
    }
    assert_read(rt, engine, &[(0, OutcomeKind::Committed(0))]);
}

/// Commits the packets of one event, and reads their replies.
fn read_all(rt: &(impl Abort + Alloc<A = Global>), engine: &mut StoredEngine) {
    must(rt, engine.flush().is_ok());
    for n in 0..8190u64 {
        let wanted = ((n % 16) as u32, OutcomeKind::Committed(n + 1));
        must(rt, read(engine) == Some(wanted));
    }
    assert_read(rt, engine, &[]);
    let refused = queue(rt.alloc(), engine, 16, one_transfer(rt, 1));
    must(rt, refused == Err(Refusal::BadSubmitters));
}

/// Asserts that the ledger opened again has them all. 8,190 is 511 times 16, and 14 more.
fn assert_all(rt: &impl Abort, again: &DurableLedger<MemStore>) {
    let packets = again.packets();
    must(
        rt,
        packets[0] == 513 && packets[1] == 512 && packets[13] == 512,
    );
    must(rt, packets[14] == 511 && packets[15] == 511);
    must(rt, again.numbers() == packets && again.places() == 8191);
    let machine = again.machine();
    must(rt, machine.transfer(wide_id(0)).is_some());
    must(rt, machine.transfer(wide_id(8189)).is_some());
    must(rt, machine.transfer(wide_id(8190)).is_none());
}

/// As many packets of one event as a batch takes, of sixteen submitters, join one batch, which is one row. Each has its reply, and the
/// ledger that is opened on the rows has them all.
#[test]
fn sixteen_submitters_of_an_engine_over_rows(rt: HostRuntime) {
    let mut engine = engine_over(&rt, opened(&rt, empty_store(&rt)));
    queue_all(&rt, &mut engine);
    read_all(&rt, &mut engine);
    let again = opened(&rt, ledger_of(&rt, engine).into_store());
    assert_all(&rt, &again);
    drop(again);
}

/// An engine that holds a packet, or has an unread reply, keeps its ledger.
#[test]
fn an_engine_keeps_its_ledger(rt: HostRuntime) {
    let bare = BareLedger::with_seed(rt.alloc(), 5, Seed::default());
    let mut engine = engine_over(&rt, bare);
    assert_queued(&rt, &mut engine, 0, two_accounts(&rt), 0);
    let Err(mut held) = engine.into_ledger() else {
        rt.abort()
    };
    must(&rt, held.flush().is_ok());
    let Err(mut unread) = held.into_ledger() else {
        rt.abort()
    };
    assert_read(&rt, &mut unread, &[(0, OutcomeKind::Committed(0))]);
    let Ok(bare) = unread.into_ledger() else {
        rt.abort()
    };
    must(&rt, bare.places() == 1);
    drop(bare);
}

/// Returns why an engine isn't opened; None if it is.
fn refusal_of(
    rt: &(impl Abort + Alloc<A = Global>),
    limit: u32,
    submitters: u32,
) -> Option<Refusal> {
    let bare = BareLedger::with_seed(rt.alloc(), 5, Seed::default());
    match AnyEngine::over(rt.alloc(), bare, limit, submitters) {
        Ok(engine) => {
            drop(engine);
            None
        }
        Err((bare, refusal)) => {
            drop(bare);
            Some(refusal)
        }
    }
}

/// Limits and counts of submitters, and what they are refused for.
const OPENINGS: [(u32, u32, Option<Refusal>); 8] = [
    (0, 0, Some(Refusal::BadLimit)),
    (8191, 0, Some(Refusal::BadLimit)),
    (u32::MAX, 0, Some(Refusal::BadLimit)),
    (8190, 0, Some(Refusal::BadSubmitters)),
    (8190, 17, Some(Refusal::BadSubmitters)),
    (8190, u32::MAX, Some(Refusal::BadSubmitters)),
    (1, 1, None),
    (8190, 16, None),
];

#[test]
fn limits_of_an_engine_over_any_ledger(rt: HostRuntime) {
    for (limit, submitters, wanted) in &OPENINGS {
        check!(&rt; refusal_of(&rt, *limit, *submitters) == *wanted, *limit);
    }
}

/// Returns an engine whose ledger stops once it has taken some parcels.
fn engine_that_stops(rt: &(impl Abort + Alloc<A = Global>), left: u32) -> AnyEngine<FailingLedger> {
    let bare = BareLedger::with_seed(rt.alloc(), 5, Seed::default());
    engine_over(rt, FailingLedger { bare, left })
}

fn pulse_twice(rt: &impl Abort, engine: &mut AnyEngine<FailingLedger>) {
    must(rt, engine.pulse(7).is_ok() && engine.stopped());
    assert_read(rt, engine, &[]);
    must(
        rt,
        engine.pulse(8) == Err(Refusal::Stopped) && engine.flush().is_ok(),
    );
}

fn shut_twice(rt: &(impl Abort + Alloc<A = Global>), engine: &mut AnyEngine<FailingLedger>) {
    assert_queued(rt, engine, 9, two_accounts(rt), 0);
    must(rt, engine.shut().is_ok() && engine.stopped());
    assert_read(rt, engine, &[(9, OutcomeKind::Stopped)]);
    must(rt, engine.shut() == Err(Refusal::Shutdown));
}

/// A pulse and a Close at which the ledger stops are queued all the same.
#[test]
fn a_pulse_and_a_close_at_which_a_ledger_stops(rt: HostRuntime) {
    let mut pulsed = engine_that_stops(&rt, 0);
    pulse_twice(&rt, &mut pulsed);
    drop(pulsed);
    let mut shut = engine_that_stops(&rt, 0);
    shut_twice(&rt, &mut shut);
    drop(shut);
}

/// What becomes of three packets, of which only the first batch is committed.
const FIRST_IS_COMMITTED: [(u32, OutcomeKind); 3] = [
    (0, OutcomeKind::Committed(0)),
    (1, OutcomeKind::Stopped),
    (2, OutcomeKind::Stopped),
];

fn stop_at_the_second(
    rt: &(impl Abort + Alloc<A = Global>),
    engine: &mut AnyEngine<FailingLedger>,
) {
    assert_queued(rt, engine, 0, two_accounts(rt), 0);
    assert_queued(rt, engine, 1, one_transfer(rt, 1), 0);
    assert_queued(rt, engine, 2, one_transfer(rt, 2), 0);
    must(
        rt,
        !engine.stopped() && engine.flush().is_ok() && engine.stopped(),
    );
    assert_read(rt, engine, &FIRST_IS_COMMITTED);
}

/// The packets of the batch at which a ledger stops are answered Stopped, and later packets and pulses are refused.
#[test]
fn an_engine_over_a_ledger_that_stops(rt: HostRuntime) {
    let mut engine = engine_that_stops(&rt, 1);
    stop_at_the_second(&rt, &mut engine);
    let late = queue(rt.alloc(), &mut engine, 1, one_transfer(&rt, 3));
    must(
        &rt,
        late == Err(Refusal::Stopped) && engine.pulse(7) == Err(Refusal::Stopped),
    );
    must(&rt, engine.shut().is_ok());
    assert_read(&rt, &mut engine, &[]);
    drop(engine);
}
