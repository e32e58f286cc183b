//! The ledger fed by the front, and the ledger by itself.

ghost use Rattle.std.specs.Prelude.{◌≡◌, ◌≤◌};

use super::front::{small_front, ticket_of};
use super::made::{creating, pushed_by};
use super::number_of;
use super::outcomes::{EntryKind, assert_entries, first_reply};
use crate::tests::must;
use sqlite::MemStore;
use std::alloc::Global;
use std::process::Abort;
use tb_batch::{Batch, Batcher, Offered};
use tb_core::{BareLedger, Cause, Front, Ledger, Outcomes, Parcel, Seed};
use tb_demux::Cutter;
use tb_durable::DurableLedger;
use tb_layout::Account;
use tb_test_makers::{OutcomeKind, account, check, job, kind_of};
use tb_work::{Answer, Job, Moment, Outcome, Packet, Reply};

/// Asserts what became of a reply's packet: `stopped`, `shutdown`, or the place where it was committed, this far behind the one that is
/// named.
fn assert_became(rt: &impl Abort, reply: &Reply, wanted: &str, behind: u64) {
    match kind_of(reply) {
        OutcomeKind::Committed(place) => {
            must(
                rt,
                place.wrapping_sub(behind) == u64::from(number_of(rt, wanted)),
            )
        }
        OutcomeKind::Shutdown => must(rt, wanted == "shutdown"),
        OutcomeKind::Stopped => must(rt, wanted == "stopped"),
    }
}

/// Asserts what became of a batch's packets: of one as above, or `3x4` of four that were committed from place 3 on.
fn assert_cut(rt: &impl Abort, cutter: &mut Cutter, wanted: &str) {
    let (first, count) = wanted.split_once('x').unwrap_or((wanted, "1"));
    for behind in 0..number_of(rt, count) {
        let reply = cutter.next().expect(rt, wanted);
        assert_became(rt, &reply, first, u64::from(behind));
    }
    must(rt, cutter.next().is_none());
}

/// Asserts what comes of a parcel: what became of its packets, or `nothing`, or `last`.
fn assert_come(rt: &impl Abort, outcomes: Outcomes, wanted: &str) {
    match outcomes {
        Outcomes::Cut(mut cutter) => assert_cut(rt, &mut cutter, wanted),
        Outcomes::One(reply) => assert_became(rt, &reply, wanted, 0),
        Outcomes::Nothing => must(rt, wanted == "nothing"),
        Outcomes::Last => must(rt, wanted == "last"),
    }
}

/// Takes the first word of a line, a sender and what it pushes, and applies the parcels that this yields. Each further word is what comes
/// of one.
fn feed(rt: &(impl Abort + Alloc<A = Global>), front: &mut Front, ledger: &mut Ledger, line: &str)
    requires { 1 ≤ front.old.submitters }
    ensures { front.new.submitters ≡ front.old.submitters }
{
    let mut words = line.split_whitespace();
    let (sender, made) = pushed_by(rt, words.next().expect(rt, line));
    check!(rt; sender <= 1, line);
    for parcel in front.take(ticket_of(rt, sender, made)) {
        assert_come(rt, ledger.apply(parcel), words.next().expect(rt, line));
    }
    check!(rt; words.next().is_none(), line);
}

/// Two packets are held, and the control's pulse seals them. Then four packets are held.
const FED: &str = "0:packet0=1
0:packet1=2
1:pulse5 0x2 nothing
0:packet2=3
0:packet3=4
0:packet4=5
0:packet5=6
";

fn feed_lines(rt: &(impl Abort + Alloc<A = Global>), front: &mut Front, ledger: &mut Ledger)
    requires { 1 ≤ front.old.submitters }
{
    for line in FED.lines() {
        feed(rt, front, ledger, line);
    }
}

/// Feeds the packets and the pulse, and then the group held, and asserts the outcomes.
fn feed_all(rt: &(impl Abort + Alloc<A = Global>), front: &mut Front, ledger: &mut Ledger)
    requires { 1 ≤ front.old.submitters }
{
    feed_lines(rt, front, ledger);
    // Nobody has ended.
    must(rt, !front.finished());
    let batch = front.idle().expect(rt, "a group is held");
    assert_come(rt, ledger.apply(Parcel::Batch(batch)), "3x4");
    must(rt, front.idle().is_none());
}

/// A ledger's opening, places, clock and accounts, and whether it has stopped.
type Facts = (u64, u64, u64, usize, bool);

fn facts(ledger: &Ledger) -> Facts {
    let machine = ledger.machine();
    (
        ledger.opening(),
        ledger.places(),
        machine.clock(),
        machine.accounts(),
        ledger.stopped(),
    )
}

fn bare_facts(ledger: &BareLedger) -> Facts {
    let machine = ledger.machine();
    (
        ledger.opening(),
        ledger.places(),
        machine.clock(),
        machine.accounts(),
        ledger.stopped(),
    )
}

/// Takes the packets and the pulse of the example to a ledger, and asserts its journal and its machine.
fn assert_pulse_between(rt: &(impl Abort + Alloc<A = Global>), ledger: &mut Ledger) {
    let mut front = small_front(rt);
    feed_all(rt, &mut front, ledger);
    drop(front);
    let entries = [
        EntryKind::Batch(2),
        EntryKind::Pulse(5),
        EntryKind::Batch(4),
    ];
    assert_entries(rt, ledger.journal(), &entries);
    must(rt, facts(ledger) == (0, 7, 9, 6, false));
}

#[test]
fn pulse_between_batches(rt: HostRuntime) {
    let mut ledger = Ledger::new(rt.alloc(), 0);
    assert_pulse_between(&rt, &mut ledger);
    drop(ledger);
}

/// Reserves capacity, then more than memory has.
#[test]
fn pulse_between_batches_after_refused_reservations(rt: HostRuntime) {
    let mut ledger = Ledger::with_seed(rt.alloc(), 0, Seed { low: 3, high: 5 });
    let most = usize::MAX;
    must(
        &rt,
        ledger.reserve(10, 10).is_ok()
            && ledger.reserve(0, 1 << 60).is_err()
            && ledger.reserve(most, 0).is_err(),
    );
    assert_pulse_between(&rt, &mut ledger);
    drop(ledger);
}

/// A ledger with a journal in memory, one without a journal, or one whose journal is in a store.
#[derive(Drop)]
pub(super) enum AnyOf {
    Whole(Ledger),
    Bare(BareLedger),
    Stored(DurableLedger<MemStore>),
}

impl AnyOf {
    pub(super) fn apply(&mut self, batch: Batch) -> Outcomes {
        let parcel = Parcel::Batch(batch);
        match self {
            AnyOf::Whole(ledger) => ledger.apply(parcel),
            AnyOf::Bare(ledger) => ledger.apply(parcel),
            AnyOf::Stored(ledger) => ledger.apply(parcel),
        }
    }

    /// Returns how many packets were committed.
    pub(super) fn places(&self) -> u64 {
        match self {
            AnyOf::Whole(ledger) => ledger.places(),
            AnyOf::Bare(ledger) => ledger.places(),
            AnyOf::Stored(ledger) => ledger.places(),
        }
    }
}

/// Returns a job as a batch.
pub(super) fn alone(rt: &(impl Abort + Alloc<A = Global>), job: Job) -> Batch {
    let mut batcher = Batcher::new(rt.alloc(), 8190).expect(rt, "memory");
    let offered = batcher.offer(job);
    must(rt, matches!(&offered, Offered::Joined));
    drop(offered);
    let batch = batcher.seal().expect(rt, "the job is held");
    drop(batcher);
    batch
}

/// Returns a packet that creates the account of an id.
fn creating_one(rt: &(impl Abort + Alloc<A = Global>), number: u64, id: u128) -> Job {
    creating(rt.alloc(), 0, number, &[account(id, 0)]).expect(rt, "the packet is admitted")
}

/// Returns the parcel of a word: `last`, `pulse9`, `returned` for packet 1, which comes back behind the Close, or the id of the account
/// that the packet of a batch creates.
fn parcel_of(rt: &(impl Abort + Alloc<A = Global>), word: &str) -> Parcel {
    match word {
        "last" => Parcel::Last,
        "pulse9" => Parcel::Pulse(Moment::new(9)),
        "returned" => Parcel::Return(creating_one(rt, 1, 3), Cause::Shutdown),
        id => Parcel::Batch(alone(rt, creating_one(rt, 0, u128::from(number_of(rt, id))))),
    }
}

/// Applies a parcel to a ledger with a journal, and asserts what comes of it.
fn apply(rt: &(impl Abort + Alloc<A = Global>), ledger: &mut Ledger, parcel: &str, wanted: &str) {
    assert_come(rt, ledger.apply(parcel_of(rt, parcel)), wanted);
}

/// Applies a parcel to a ledger without one.
fn apply_bare(
    rt: &(impl Abort + Alloc<A = Global>),
    ledger: &mut BareLedger,
    parcel: &str,
    wanted: &str,
) {
    assert_come(rt, ledger.apply(parcel_of(rt, parcel)), wanted);
}

/// Returns the place of a lookup, how many accounts it found, and the first.
fn found(reply: &Reply) -> Option<(u64, usize, Account)> {
    match &reply.outcome {
        Outcome::Committed {
            place,
            answer: Answer::Accounts(accounts),
        } => {
            let accounts = accounts.as_slice();
            Some((*place, accounts.len(), *accounts.first()?))
        }
        _ => None,
    }
}

/// Looks accounts 1 and 2 up.
fn look_up(rt: &(impl Abort + Alloc<A = Global>), ledger: &mut Ledger) -> Reply {
    let ids = Packet::of_ids(rt.alloc(), &[1, 2], 7).expect(rt, "memory");
    let asked = alone(rt, job(rt.alloc(), 0, 1, ids).expect(rt, "a job"));
    first_reply(ledger.apply(Parcel::Batch(asked))).expect(rt, "a reply")
}

/// Only the first exists.
#[test]
fn found_by_a_lookup(rt: HostRuntime) {
    let mut ledger = Ledger::new(rt.alloc(), 3);
    apply(&rt, &mut ledger, "1", "0");
    let reply = look_up(&rt, &mut ledger);
    let made = Account {
        timestamp: 4,
        ..account(1, 0)
    };
    must(&rt, found(&reply) == Some((1, 1, made)));
    drop(reply);
    must(&rt, ledger.machine().clock() == 4);
    assert_entries(&rt, ledger.journal(), &[EntryKind::Batch(1); 2]);
    drop(ledger);
}

/// Refuses a batch's allocation.
fn refuse(rt: &(impl Abort + Alloc<A = Global>), ledger: &mut Ledger) {
    assert_come(rt, ledger.apply_as_refused(parcel_of(rt, "1")), "stopped");
    must(rt, ledger.stopped());
}

/// Refuses a batch's allocation, and tries what comes after it.
#[test]
fn refused_commit(rt: HostRuntime) {
    let mut ledger = Ledger::new(rt.alloc(), 0);
    refuse(&rt, &mut ledger);
    apply(&rt, &mut ledger, "2", "stopped");
    apply(&rt, &mut ledger, "pulse9", "nothing");
    apply(&rt, &mut ledger, "returned", "shutdown");
    apply(&rt, &mut ledger, "last", "last");
    must(
        &rt,
        ledger.journal().is_empty() && facts(&ledger) == (0, 0, 0, 0, true),
    );
    drop(ledger);
}

/// Commits two batches with a pulse between them, and sends a packet back.
#[test]
fn committed_without_a_journal(rt: HostRuntime) {
    let mut ledger = BareLedger::with_seed(rt.alloc(), 3, Seed::default());
    must(
        &rt,
        ledger.reserve(10, 10).is_ok() && ledger.reserve(usize::MAX, 0).is_err(),
    );
    apply_bare(&rt, &mut ledger, "1", "0");
    apply_bare(&rt, &mut ledger, "pulse9", "nothing");
    apply_bare(&rt, &mut ledger, "2", "2");
    apply_bare(&rt, &mut ledger, "returned", "shutdown");
    apply_bare(&rt, &mut ledger, "last", "last");
    must(&rt, bare_facts(&ledger) == (3, 3, 10, 2, false));
    drop(ledger);
}
