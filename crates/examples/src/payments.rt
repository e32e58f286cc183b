//! A payment service: three desks hold, capture and void payments through one pipeline, each from a thread of its own.
//!
//! Each desk has its own accounts, since only the queue orders packets of different submitters. The accounts, the
//! deposits and a hold with a timeout are queued ahead, so that the control's pulse comes after them, whenever it is.
//!
//! What is printed follows from TigerBeetle's rules:
//!
//! - desk 0 deposits 1000 and captures 250 of a hold of 400, and all 300 of another: 550 are paid. It voids a hold of
//!   100, and a capture of that fails with 34 (already voided).
//! - desk 1 deposits 500. A hold of 600 fails with 54 (exceeds credits). A capture of 250 of a hold of 200 fails with 31
//!   (more than is held), so that the hold can be voided; one of 50 is voided too. It captures all 75 of a third hold.
//! - desk 2 deposits 1000 and holds 300 for 60 seconds. The pulse is an hour later, so that this hold expires. It
//!   captures all 120 of another, and a void of a hold that isn't there fails with 25 (not found).
//!
//! A deposit is debited to the bank and credited to the wallet, a payment debited to the wallet and credited to the
//! shop. Nothing is held at the end: each hold was captured, voided or expired, or failed.

ghost use Rattle.std.specs.Prelude.{◌≡◌, ◌<◌, All, IfSome, OnSome, length};
ghost use Rattle.examples.specs.clauses.Desk.{HaveCounted, HaveEnded, IsNew};
ghost use Rattle.examples.specs.inside.Ready.{IsReady};

mod desk;
mod order;
mod tally;

use crate::payments::desk::Desk;
use crate::payments::order::{Order, Till};
use std::alloc::Global;
use std::sync::Wait;
use std::thread::Threads;
use std::time::Clock;
use tb_drive::{ControlPlan, PlanDriver};
use tb_pipe::{Finished, Opened, Options, drive_all, submit_ahead};
use tb_work::Packet;

/// How many desks there are.
const DESKS: u32 = 3;

/// An hour in nanoseconds.
const HOUR: u64 = 3_600_000_000_000;

/// All that is held.
const ALL: u128 = u128::MAX;

/// Returns the orders of a desk that are queued ahead of all others.
fn orders_ahead(alloc: Global, desk: u32) -> Option<Vec<Order>> {
    match desk {
        0 => vec![in alloc; Order::Deposit(100, 1000)].ok(),
        1 => vec![in alloc; Order::Deposit(200, 500)].ok(),
        _ => vec![in alloc; Order::Deposit(300, 1000), Order::Hold(301, 300, 60)].ok(),
    }
}

/// Returns the orders that a desk queues itself.
fn orders(alloc: Global, desk: u32) -> Option<Vec<Order>> {
    match desk {
        0 => vec![in alloc;
            Order::Hold(101, 400, 0),
            Order::Capture(102, 101, 250),
            Order::Hold(103, 300, 0),
            Order::Capture(104, 103, ALL),
            Order::Hold(105, 100, 0),
            Order::Void(106, 105),
            Order::Capture(107, 105, ALL),
        ]
        .ok(),
        1 => vec![in alloc;
            Order::Hold(201, 600, 0),
            Order::Hold(202, 200, 0),
            Order::Capture(203, 202, 250),
            Order::Void(204, 202),
            Order::Hold(205, 50, 0),
            Order::Void(206, 205),
            Order::Hold(207, 75, 0),
            Order::Capture(208, 207, ALL),
        ]
        .ok(),
        _ => vec![in alloc;
            Order::Hold(302, 120, 0),
            Order::Capture(303, 302, ALL),
            Order::Void(304, 999),
        ]
        .ok(),
    }
}

/// Returns the packets of a desk that are queued ahead: its accounts and its first orders.
fn packets_ahead(alloc: Global, desk: u32) -> Option<Vec<Packet>> {
    let till = Till::of(desk);
    let mut packets = vec![in alloc; till.opening(alloc).ok()?].ok()?;
    for order in orders_ahead(alloc, desk)? {
        packets.push(order.packet(alloc, till).ok()?).ok()?;
    }
    Some(packets)
}

/// Queues a desk's first packets, and returns their number. None if one is refused.
fn queue_ahead<R: Wait>(rt: &R, alloc: Global, opened: &mut Opened, desk: u32) -> Option<usize>
    requires desk { desk < DESKS }
    requires ready { IsReady opened.old }
    ensures { OnSome result (IsReady opened.new) }
{
    let packets = packets_ahead(alloc, desk)?;
    let ahead = packets.len();
    for packet in packets {
        let Ok(_number) = submit_ahead(rt, alloc, opened, desk as usize, packet) else {
            return None;
        };
    }
    Some(ahead)
}

/// Queues the first packets of all desks, and returns the desks with their other orders.
fn new_desks<R: Wait>(rt: &R, alloc: Global, opened: &mut Opened) -> Option<Vec<Desk>>
    requires { IsReady opened.old }
    ensures ready { OnSome result (IsReady opened.new) }
    ensures desks { IfSome result (λ desks. length desks.items ≡ DESKS) }
    ensures new { IfSome result (λ desks. All IsNew desks.items) }
{
    let mut desks = Vec::new(alloc);
    for desk in 0..DESKS {
        let ahead = queue_ahead(rt, alloc, opened, desk)?;
        let orders = orders(alloc, desk)?;
        desks
            .push(Desk::new(alloc, Till::of(desk), orders, ahead))
            .ok()?;
    }
    Some(desks)
}

/// Opens a pipeline for the desks. None if memory ran out.
fn open_for_desks(alloc: Global) -> Option<Opened>
    ensures { IfSome result IsReady }
{
    let options = Options {
        limit: 100,
        capacity: 64,
        credit: 4,
        submitters: DESKS,
        ..Options::default()
    };
    let Ok(opened) = options.open(alloc) else {
        return None;
    };
    Some(opened)
}

/// Runs the service. None if memory ran out before the run, or a thread couldn't be started.
fn run<R: Threads + Wait + Clock + Sync>(
    rt: &R,
    alloc: Global,
) -> Option<Finished<Desk, PlanDriver>>
    ensures counted { IfSome result (λ finished. HaveCounted finished.drivers.items finished.report.ends.items) }
    ensures ended { IfSome result (λ finished. HaveEnded finished.drivers.items finished.report.ends.items) }
{
    let plan = ControlPlan {
        moments: vec![in alloc; HOUR].ok()?,
        shuts: false,
    };
    let mut opened = open_for_desks(alloc)?;
    let Some(desks) = new_desks(rt, alloc, &mut opened) else {
        drop(opened);
        return None;
    };
    match drive_all(rt, alloc, opened, desks, plan.driver()) {
        Ok(finished) => Some(finished),
        Err(_) => None,
    }
}

/// Prints what a desk counted, and its balances. False if it hasn't seen all of it.
fn print_desk<R: Print>(rt: &R, number: usize, desk: &Desk) -> bool {
    let tally = &desk.tally;
    let Some(balances) = &desk.balances else {
        return false;
    };
    let (captured, voided, failed) = (tally.captured, tally.voided, tally.failures.len());
    let _ = print!(rt; "desk {number}: captured {captured}, voided {voided}, failed {failed}");
    for failure in &tally.failures {
        let code = failure.code;
        let _ = print!(rt; ", code {code}");
    }
    let _ = println!(rt; "");
    for account in balances.as_slice() {
        let (id, held) = (account.id, account.debits_pending);
        let (debits, credits) = (account.debits_posted, account.credits_posted);
        let _ = println!(rt; "  account {id}: debits {debits}, credits {credits}, held {held}");
    }
    tally.complete
}

/// Runs the service and prints what each desk counted. None as `run`, or if a desk hasn't seen all of it.
pub(crate) fn show<R: Threads + Wait + Clock + Sync + Print>(rt: &R, alloc: Global) -> Option<()> {
    let finished = run(rt, alloc)?;
    let mut complete = true;
    for (number, desk) in finished.drivers.iter().enumerate() {
        complete = print_desk(rt, number, desk) && complete;
    }
    complete.then_some(())
}
