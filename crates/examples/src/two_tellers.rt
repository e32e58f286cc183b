//! Two tellers post transfers through one pipeline, each from a thread of its own, and read the replies; then all end,
//! and the balances are printed. So an application uses the pipeline: `Options::open`, a driver for each submitter, `drive_all`.

ghost use Rattle.std.specs.Prelude.{◌≡◌, IfSome, IsSomeAnd, length, slice_get};
ghost use Rattle.examples.specs.inside.First.{QueuedFirst};

use std::alloc::Global;
use std::sync::Wait;
use std::thread::Threads;
use std::time::Clock;
use tb_drive::{Action, ControlPlan, Driver, PlanDriver};
use tb_layout::{Account, Transfer};
use tb_pipe::{Finished, Options, drive_all, submit_ahead};
use tb_work::{Packet, Refusal, Reply};

/// Posts a transfer in every other turn, each under the id after the last one's, and waits for its reply in the next.
#[derive(Drop)]
struct Teller {
    turns: u8,
    last: Transfer,
}

impl Driver for Teller {
    fn next<R: Wait>(&mut self, _rt: &R, alloc: Global) -> Action {
        if self.turns == 0 {
            return Action::End;
        }
        self.turns -= 1;
        if self.turns % 2 == 0 {
            return Action::Receive;
        }
        self.last.id = self.last.id.wrapping_add(1);
        Packet::of_transfers(alloc, &[self.last], 0).map_or(Action::End, Action::Submit)
    }

    fn submitted(&mut self, _response: Result<u64, Refusal>) {}

    fn receive(&mut self, _reply: Reply) {}
}

/// Returns a teller that is to post twenty transfers in ledger 1, with the ids after this one.
fn new_teller(id: u128, debit_account_id: u128, credit_account_id: u128, amount: u128) -> Teller {
    let last = Transfer {
        id,
        debit_account_id,
        credit_account_id,
        amount,
        ledger: 1,
        code: 1,
        ..Transfer::default()
    };
    Teller { turns: 40, last }
}

/// Runs the tellers' transfers, after a packet that the first one's submitter queues ahead. None if memory ran out before
/// the run, or a thread couldn't be started.
fn run_with<R: Threads + Wait + Clock + Sync>(
    rt: &R,
    alloc: Global,
    accounts: Packet,
    tellers: Vec<Teller>,
) -> Option<Finished<Teller, PlanDriver>>
    requires { length tellers.items ≡ 2 }
    ensures { IfSome result (λ finished.
        IsSomeAnd (slice_get finished.unsettled.value.items 0) (QueuedFirst accounts)) }
{
    let options = Options {
        submitters: 2,
        ..Options::default()
    };
    let Ok(mut opened) = options.open(alloc) else {
        return None;
    };
    let Ok(_number) = submit_ahead(rt, alloc, &mut opened, 0, accounts) else {
        return None;
    };
    match drive_all(
        rt,
        alloc,
        opened,
        tellers,
        ControlPlan::none(alloc).driver(),
    ) {
        Ok(finished) => Some(finished),
        Err(_) => None,
    }
}

/// Makes two accounts and runs two tellers. None as `run_with`.
fn run<R: Threads + Wait + Clock + Sync>(
    rt: &R,
    alloc: Global,
) -> Option<Finished<Teller, PlanDriver>> {
    let first = Account {
        id: 1,
        ledger: 1,
        code: 1,
        ..Account::default()
    };
    let accounts = Packet::of_accounts(alloc, &[first, Account { id: 2, ..first }], 0).ok()?;
    let tellers = vec![in alloc; new_teller(0, 1, 2, 30), new_teller(100, 2, 1, 10)].ok()?;
    run_with(rt, alloc, accounts, tellers)
}

/// Runs the example and prints the balances. None as `run_with`.
pub(crate) fn show<R: Threads + Wait + Clock + Sync + Print>(rt: &R, alloc: Global) -> Option<()> {
    let finished = run(rt, alloc)?;
    let machine = finished.report.ledger.machine();
    for account in (0..machine.accounts()).filter_map(|index| machine.account_at(index)) {
        let (id, debits, credits) = (account.id, account.debits_posted, account.credits_posted);
        let _ = println!(rt; "account {id}: debits {debits}, credits {credits}");
    }
    Some(())
}
