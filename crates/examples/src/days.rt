//! A service that runs a pipeline a day over one ledger. Each day begins with the ledger that the day before left, so places,
//! accounts and transfers are kept.
//!
//! Each morning the first teller's submitter queues the same packet of two accounts. Teller 0 posts three transfers of 30
//! from account 1 to account 2, under new ids. Teller 1 posts three of 10 back, the first of them under the id of its last
//! one of the day before.
//!
//! What is printed follows from TigerBeetle's rules. A day has seven packets, so day 1 has places 0 to 6, day 2 places 7 to
//! 13, and day 3 places 14 to 20. From day 2 on the accounts fail with 21 (exists), twice a day, and the first transfer of
//! teller 1 fails with 46 (exists). So teller 0 moves 90 each day, and teller 1 moves 30 on day 1 and then 20 a day.

ghost use Rattle.std.specs.Prelude.{◌≡◌, IfSome, length};
ghost use Rattle.tb_core.specs.claim.EndedRun.{IsPrefix};
ghost use Rattle.tb_core.specs.claim.Journal.{inputs};

mod teller;

use crate::days::teller::Teller;
use std::alloc::Global;
use std::sync::Wait;
use std::thread::Threads;
use std::time::Clock;
use tb_core::Ledger;
use tb_drive::ControlPlan;
use tb_layout::Account;
use tb_pipe::{Finished, Options, Report, drive_all, submit_ahead};
use tb_work::Packet;

/// What a day leaves: the ledger, and how many events failed with each code.
#[derive(Drop)]
struct Evening {
    ledger: Ledger,
    exists_accounts: u32,
    exists_transfers: u32,
}

/// Returns the packet that makes both accounts.
fn accounts(alloc: Global) -> Option<Packet> {
    let first = Account {
        id: 1,
        ledger: 1,
        code: 1,
        ..Account::default()
    };
    Packet::of_accounts(alloc, &[first, Account { id: 2, ..first }], 0).ok()
}

/// Returns the tellers of a day, which is counted from 0.
fn tellers(alloc: Global, day: u8) -> Option<Vec<Teller>>
    ensures { IfSome result (λ tellers. length tellers.items ≡ 2) }
{
    vec![in alloc;
        Teller::new(u128::from(day) * 3, 1, 2, 30),
        Teller::new(100 + u128::from(day) * 2, 2, 1, 10),
    ]
    .ok()
}

/// Returns how many accounts and transfers failed since they exist.
fn existing(tellers: &[Teller]) -> (u32, u32) {
    let (mut accounts, mut transfers) = (0_u32, 0_u32);
    for teller in tellers {
        accounts = accounts.saturating_add(teller.exists_accounts);
        transfers = transfers.saturating_add(teller.exists_transfers);
    }
    (accounts, transfers)
}

/// Runs a day's pipeline over a ledger. None if the ledger has stopped, memory ran out before the run, or a thread couldn't
/// be started.
fn run_day<R: Threads + Wait + Clock + Sync>(
    rt: &R,
    alloc: Global,
    ledger: Ledger,
    day: u8,
) -> Option<Evening>
    ensures { IfSome result (λ evening. IsPrefix (inputs ledger) (inputs evening.ledger)) }
{
    if ledger.stopped() {
        return None;
    }
    let tellers = tellers(alloc, day)?;
    let options = Options {
        limit: 100,
        capacity: 64,
        credit: 32,
        submitters: 2,
        ..Options::default()
    };
    let Ok(mut opened) = options.open(alloc) else {
        return None;
    };
    opened.pipeline = opened.pipeline.with_ledger(ledger);
    let Ok(_number) = submit_ahead(rt, alloc, &mut opened, 0, accounts(alloc)?) else {
        return None;
    };
    let control = ControlPlan::none(alloc).driver();
    let Ok(finished) = drive_all(rt, alloc, opened, tellers, control) else {
        return None;
    };
    let Finished {
        report,
        drivers,
        ..
    } = finished;
    let Report { ledger, .. } = report;
    let (exists_accounts, exists_transfers) = existing(&drivers);
    Some(Evening {
        ledger,
        exists_accounts,
        exists_transfers,
    })
}

/// Prints the accounts of a ledger.
fn print_accounts<R: Print>(rt: &R, ledger: &Ledger) {
    let machine = ledger.machine();
    for account in (0..machine.accounts()).filter_map(|index| machine.account_at(index)) {
        let (id, debits, credits) = (account.id, account.debits_posted, account.credits_posted);
        let _ = println!(rt; "  account {id}: debits {debits}, credits {credits}");
    }
}

/// Runs three days and prints what each leaves. None as `run_day`.
pub(crate) fn show<R: Threads + Wait + Clock + Sync + Print>(rt: &R, alloc: Global) -> Option<()> {
    let mut ledger = Ledger::new(alloc, 0);
    for day in 0..3 {
        let first = ledger.places();
        let Evening {
            ledger: later,
            exists_accounts,
            exists_transfers,
        } = run_day(rt, alloc, ledger, day)?;
        ledger = later;
        let (day, last) = (day + 1, ledger.places().saturating_sub(1));
        let _ = println!(rt; "day {day}: places {first} to {last}");
        let _ = println!(rt; "  failed with 21: {exists_accounts}, with 46: {exists_transfers}");
        print_accounts(rt, &ledger);
    }
    Some(())
}
