//! Two tellers and the control in threads of the application's own, without drivers, while the main thread serves. So an
//! application uses `open`, `Client`, `serve` and `settle` by themselves.

ghost use Rattle.std.specs.Prelude.{◌≡◌, [], ◌∷◌, IfSome};
ghost use Rattle.tb_submit.specs.clauses.Ends.{control_seat, origin_of};

use std::alloc::Global;
use std::sync::Wait;
use std::thread;
use std::thread::Threads;
use std::time::Clock;
use tb_blocking::{Client, ControlClient};
use tb_drive::Stop;
use tb_layout::{Account, Transfer};
use tb_pipe::{Open, Options, Report, settle};
use tb_submit::Submitter;
use tb_work::{Packet, Reply};

/// Opens two accounts, and then posts a transfer between them and one back. Waits for each reply.
fn trade<R: Wait + Clock>(
    rt: &R,
    alloc: Global,
    client: &mut Client<'_>,
    ids: [u128; 2],
) -> Option<Reply>
    ensures { origin_of client.new ≡ origin_of client.old }
{
    let accounts = ids.map(|id| Account {
        id,
        ledger: 1,
        code: 1,
        ..Account::default()
    });
    let packet = Packet::of_accounts(alloc, &accounts, 0).ok()?;
    client.exchange(rt, alloc, packet).ok()??;
    let [first, second] = ids;
    let transfers = [(first, second, 30), (second, first, 10)].map(|(from, to, amount)| Transfer {
        id: from,
        debit_account_id: from,
        credit_account_id: to,
        amount,
        ledger: 1,
        code: 1,
        ..Transfer::default()
    });
    let packet = Packet::of_transfers(alloc, &transfers, 0).ok()?;
    client.exchange(rt, alloc, packet).ok()?
}

/// Returns the submitters of a pipeline that was opened with two.
fn both(submitters: Vec<Submitter>) -> Option<(Submitter, Submitter)>
    ensures { IfSome result (λ both. submitters.items ≡ both.0 ∷ both.1 ∷ []) }
{
    let mut rest = submitters.into_iter();
    let both = (rest.next()?, rest.next()?);
    rest.next().is_none().then_some(both)
}

/// Opens a pipeline, starts the tellers and the control, serves until all have ended, joins them and settles. If a
/// thread can't be started the run is given up, so that the others end too.
fn run<R: Threads + Wait + Clock + Sync>(rt: &R, alloc: Global) -> Option<Report> {
    let options = Options {
        limit: 100,
        capacity: 64,
        credit: 8,
        submitters: 2,
        ..Options::default()
    };
    let Ok(opened) = options.open(alloc) else {
        return None;
    };
    let stop = &Stop::of(alloc, &opened.submitters).ok()?;
    let (first, second) = both(opened.submitters)?;
    let (first, second) = (Client::new(first, stop), Client::new(second, stop));
    let (pipeline, control) = (opened.pipeline, ControlClient::new(opened.control, stop));
    thread::scope(
        thread::scope_env(),
        rt,
        |scope| -> Option<Report>
            requires own { origin_of first ∷ origin_of second ∷ [] ≡ pipeline.submitters }
            requires control { control.seat ≡ control_seat pipeline.intake }
        {
            let first = first.start(scope, rt, move |client| {
                let _reply = trade(rt, alloc, client, [1, 2]);
            })?;
            let second = second.start(scope, rt, move |client| {
                let _reply = trade(rt, alloc, client, [11, 12]);
            })?;
            let control = control.start(scope, rt, |control| {
                let _queued = control.pulse(rt, 1);
            })?;
            let Ok(served) = pipeline.serve(rt, &Open) else {
                stop.give_up();
                return None;
            };
            let control = control.join(rt)?;
            let ends = vec![in alloc; first.join(rt)?, second.join(rt)?].ok()?;
            Some(settle(served, ends, control))
        },
    )
}

/// Runs the example and prints the balances. None if memory ran out, or a thread couldn't be started.
pub(crate) fn show<R: Threads + Wait + Clock + Sync + Print>(rt: &R, alloc: Global) -> Option<()> {
    let report = run(rt, alloc)?;
    let machine = report.ledger.machine();
    for account in [1, 2, 11, 12].iter().filter_map(|id| machine.account(*id)) {
        let (id, debits, credits) = (account.id, account.debits_posted, account.credits_posted);
        let _ = println!(rt; "account {id}: debits {debits}, credits {credits}");
    }
    Some(())
}
