//! Runs over one ledger: what a run leaves goes on in the next one.

ghost use Rattle.std.specs.Prelude.{◌∷◌, []};
ghost use Rattle.tb_pipe_tests.specs.inside.Together.{AreTogether};

use super::{Lone, finish_lone, open_lone, queue_accounts};
use std::alloc::Global;
use std::process::Abort;
use std::sync::Wait;
use std::thread::Threads;
use std::time::Clock;
use tb_core::{AnyLedger, BareLedger, Ledger, Seed};
use tb_drive::{Action, ControlPlan, Driver};
use tb_layout::Transfer;
use tb_machine::Machine;
use tb_pipe::{Finished, Open, Report, drive_over, open, submit_ahead};
use tb_submit::Ended;
use tb_test_makers::{account, accounts_packet, check};
use tb_work::{Answer, Outcome, Packet, Refusal, Reply};

/// How many submitters the large runs have.
const CLERKS: u32 = 16;

/// How many packets each of them queues.
const PACKETS: u32 = 200;

/// Returns a pipeline of one submitter over a ledger that an earlier run left.
fn go_on(rt: &impl Abort, alloc: Global, ledger: Ledger) -> Lone
    ensures { AreTogether result.pipeline (result.submitter ∷ []) result.control }
{
    check!(rt; !ledger.stopped());
    let mut lone = open_lone(rt, alloc, 4, 16, 16);
    lone.pipeline = lone.pipeline.with_ledger(ledger);
    lone
}

/// Returns the place in a reply, and the code of its first failure, 0 if there is none; None if it isn't committed.
fn place_and_code(reply: Reply) -> Option<(u64, u32)> {
    let Reply { outcome, .. } = reply;
    match outcome {
        Outcome::Committed { place, answer } => match answer {
            Answer::Failures(failures) => Some((
                place,
                failures
                    .as_slice()
                    .first()
                    .map_or(0, |failure| failure.code),
            )),
            Answer::Accounts(_) => None,
        },
        Outcome::Shutdown | Outcome::Stopped => None,
    }
}

/// Compares the unread replies of a submitter.
fn assert_replies(rt: &impl Abort, ended: &mut Ended, wanted: &[Option<(u64, u32)>]) {
    for one in wanted {
        let reply = ended.reply().expect(rt, "there is a reply");
        check!(rt; place_and_code(reply) == *one);
    }
    check!(rt; ended.reply().is_none());
}

/// Compares the replies of a run with one submitter, and returns its ledger.
fn ledger_after(rt: &impl Abort, report: Report, wanted: &[Option<(u64, u32)>]) -> Ledger {
    let Report { ledger, mut ends } = report;
    let ended = ends.get_mut(0).expect(rt, "there is an end");
    assert_replies(rt, ended, wanted);
    drop(ends);
    ledger
}

/// The second run commits from place 2 on, and knows account 1 of the first run: 21 is `exists`.
#[test]
fn places_and_accounts_go_on(rt: HostRuntime) {
    let first = open_lone(&rt, rt.alloc(), 4, 16, 16);
    let report = finish_lone(&rt, rt.alloc(), first, false, &[1, 2], &Open);
    let ledger = ledger_after(&rt, report, &[Some((0, 0)), Some((1, 0))]);
    let second = go_on(&rt, rt.alloc(), ledger);
    let report = finish_lone(&rt, rt.alloc(), second, false, &[1, 3], &Open);
    let ledger = ledger_after(&rt, report, &[Some((2, 21)), Some((3, 0))]);
    check!(&rt; ledger.places() == 4);
    check!(&rt; ledger.machine().accounts() == 3);
    drop(ledger);
}

/// The second run is shut before its last packet, which isn't committed. The third run commits it at the next place.
#[test]
fn a_run_after_one_that_was_shut_early(rt: HostRuntime) {
    let first = open_lone(&rt, rt.alloc(), 4, 16, 16);
    let report = finish_lone(&rt, rt.alloc(), first, false, &[1], &Open);
    let ledger = ledger_after(&rt, report, &[Some((0, 0))]);
    let mut second = go_on(&rt, rt.alloc(), ledger);
    queue_accounts(&rt, rt.alloc(), &mut second.submitter, &[2]);
    let report = finish_lone(&rt, rt.alloc(), second, true, &[3], &Open);
    let ledger = ledger_after(&rt, report, &[Some((1, 0)), None]);
    let third = go_on(&rt, rt.alloc(), ledger);
    let report = finish_lone(&rt, rt.alloc(), third, false, &[2, 3], &Open);
    let ledger = ledger_after(&rt, report, &[Some((2, 21)), Some((3, 0))]);
    check!(&rt; ledger.places() == 4);
    drop(ledger);
}

/// Posts transfers in packets of one, reads all replies, and counts those of packets that are committed from a place on: those
/// that made something, and those whose transfer was there already.
#[derive(Drop)]
struct Clerk {
    left: u32,
    unread: u32,
    next: Transfer,
    first: u64,
    made: u32,
    existing: u32,
}

/// Returns a clerk whose ids nobody else uses, and who expects places from this one on.
fn new_clerk(number: u32, first: u64) -> Clerk {
    let next = Transfer {
        id: u128::from(number) * 1_000_000 + 1,
        debit_account_id: 1,
        credit_account_id: 2,
        amount: 1,
        ledger: 1,
        code: 1,
        ..Transfer::default()
    };
    Clerk {
        left: PACKETS,
        // The accounts were queued ahead, so their reply is the first clerk's first.
        unread: u32::from(number == 0),
        next,
        first,
        made: 0,
        existing: 0,
    }
}

impl Driver for Clerk {
    fn next<R: Wait>(&mut self, _rt: &R, alloc: Global) -> Action {
        if self.left == 0 {
            return if self.unread > 0 {
                Action::Receive
            } else {
                Action::End
            };
        }
        self.left -= 1;
        let packet = Packet::of_transfers(alloc, &[self.next], 0);
        self.next.id = self.next.id.wrapping_add(1);
        packet.map_or(Action::End, Action::Submit)
    }

    fn submitted(&mut self, response: Result<u64, Refusal>) {
        if response.is_ok() {
            self.unread = self.unread.saturating_add(1);
        }
    }

    fn receive(&mut self, reply: Reply) {
        self.unread = self.unread.saturating_sub(1);
        match place_and_code(reply) {
            Some((place, 0)) if place >= self.first => self.made = self.made.saturating_add(1),
            Some((place, 46)) if place >= self.first => {
                self.existing = self.existing.saturating_add(1);
            }
            _ => {}
        }
    }
}

/// Returns a clerk for each submitter.
fn clerks(rt: &impl Abort, alloc: Global, first: u64) -> Vec<Clerk> {
    let mut clerks = Vec::with_capacity(alloc, CLERKS as usize).expect(rt, "memory");
    for number in 0..CLERKS {
        clerks
            .push(new_clerk(number, first))
            .expect(rt, "there is room");
    }
    clerks
}

/// Runs the clerks over a ledger that has this number of places, after a packet that makes their accounts. Returns the ledger, and
/// how many transfers were made and how many were there already.
fn run_clerks<R: Threads + Wait + Clock + Sync + Abort, L: AnyLedger + Send>(
    rt: &R,
    alloc: Global,
    ledger: L,
    places: u64,
) -> (L, u32, u32) {
    let clerks = clerks(rt, alloc, places);
    check!(rt; clerks.len() == 16);
    let opened = match open(alloc, 0, 8190, 64, 32, CLERKS) {
        Ok(opened) => opened,
        Err(_) => rt.panic("it isn't opened"),
    };
    let mut opened = match opened.over(ledger) {
        Ok(opened) => opened,
        Err(_) => rt.panic("it has stopped"),
    };
    let accounts = accounts_packet(alloc, &[account(1, 0), account(2, 0)]).expect(rt, "memory");
    let queued = submit_ahead(rt, alloc, &mut opened, 0, accounts);
    check!(rt; queued.is_ok());
    let control = ControlPlan::none(alloc).driver();
    let finished = drive_over(rt, alloc, opened, clerks, control)
        .ok()
        .expect(rt, "it ran");
    let Finished {
        report,
        drivers,
        ..
    } = finished;
    let Report { ledger, .. } = report;
    let (mut made, mut existing) = (0_u32, 0_u32);
    for clerk in drivers.iter() {
        made = made.saturating_add(clerk.made);
        existing = existing.saturating_add(clerk.existing);
    }
    (ledger, made, existing)
}

/// Runs the clerks twice over a ledger, and returns it. Each run has 3,200 packets of transfers and one of accounts, 3,201 that succeed in
/// the first. All that the second one posts was made in the first: 46 is `exists`, and the accounts fail with 21.
fn run_twice<R: Threads + Wait + Clock + Sync + Abort, L: AnyLedger + Send>(
    rt: &R,
    alloc: Global,
    ledger: L,
) -> L {
    let (ledger, made, existing) = run_clerks(rt, alloc, ledger, 0);
    check!(rt; (made, existing) == (3201, 0));
    let (ledger, made, existing) = run_clerks(rt, alloc, ledger, 3201);
    check!(rt; (made, existing) == (0, 3200));
    ledger
}

/// Asserts that the two runs have 3,201 places each, and that account 1 was debited once by each transfer.
fn assert_twice(rt: &impl Abort, places: u64, machine: &Machine) {
    check!(rt; places == 6402);
    let first = machine.account(1).expect(rt, "account 1");
    check!(rt; (first.debits_posted, first.credits_posted) == (3200, 0));
}

#[test]
fn sixteen_submitters_twice(rt: HostRuntime) {
    let ledger = run_twice(&rt, rt.alloc(), Ledger::new(rt.alloc(), 0));
    assert_twice(&rt, ledger.places(), ledger.machine());
    drop(ledger);
}

/// The same over a ledger that keeps no journal: its replies, places and state are those of one that does.
#[test]
fn sixteen_submitters_twice_without_a_journal(rt: HostRuntime) {
    let ledger = BareLedger::with_seed(rt.alloc(), 0, Seed::default());
    let ledger = run_twice(&rt, rt.alloc(), ledger);
    assert_twice(&rt, ledger.places(), ledger.machine());
    drop(ledger);
}
