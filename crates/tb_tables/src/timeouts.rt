//! Pending transfers whose timeout is over.

ghost use Rattle.std.specs.Prelude.{◌≡◌};
ghost use Rattle.tb_tables.specs.claim.Facts.{Facts};
ghost use Rattle.tb_tables.specs.clauses.Expiries.{is_in_expiries};
ghost use Rattle.tb_tables.specs.clauses.Contents.{Contain, AreContained};
ghost use Rattle.tb_tables.specs.claim.Status.{expire_due};
ghost use Rattle.tb_tables.specs.inside.Changing.{CanExpire, expire_one};
ghost use Rattle.tb_tables.specs.inside.Expiring.{ExpiriesFit, is_due_in};

use crate::amounts::{Phase, subtract_amount};
use crate::by_id::ById;
use crate::entries::indices_of;
use crate::expiries::Expiries;
use crate::status::Status;
use crate::storing::{expires_at, is_timed};
use crate::transfers::Transfers;
use tb_layout::Account;

/// Lets the transfer at an index expire: its amount is reserved no more.
fn expire(accounts: &mut ById<Account>, transfers: &mut Transfers, index: usize)
    requires { (facts : Facts) × CanExpire facts accounts.old.entries transfers.old index }
    ensures { (facts : Facts) (can : CanExpire facts accounts.old.entries transfers.old index)
        → Contain (expire_one can.transfer.id facts) accounts.new.entries transfers.new }
{
    let transfer = transfers.set_status(index, Status::Expired);
    let indices = indices_of(accounts, &transfer, None);
    subtract_amount(accounts, indices, Phase::Pending, transfer.amount);
}

/// Returns whether the transfer at an index still reserves its amount though its timeout is over at a clock.
fn is_due_at(transfers: &Transfers, index: usize, clock: u64) -> bool
    requires { ExpiriesFit transfers.now }
    ensures { result ≡ is_due_in transfers.now index clock }
{
    let Some(row) = transfers.row_at(index) else {
        return false;
    };
    row.is_open()
        && is_timed(&row.transfer)
        && expires_at(&row.transfer, row.transfer.timestamp) <= clock
}

/// Lets each transfer expire that still reserves its amount and is due at a clock. Costs as much as the pairs that are due.
pub(crate) fn expire_all(
    accounts: &mut ById<Account>,
    transfers: &mut Transfers,
    expiries: &mut Expiries,
    clock: u64,
)
    requires { (facts : Facts) × AreContained accounts.old.entries transfers.old (is_in_expiries expiries.old) facts }
    ensures { (facts : Facts) → AreContained accounts.old.entries transfers.old (is_in_expiries expiries.old) facts
        → AreContained accounts.new.entries transfers.new (is_in_expiries expiries.new) (expire_due clock facts) }
{
    expiries.keep(transfers, 0);
    while let Some(index) = expiries.take_due(clock) {
        if is_due_at(transfers, index, clock) {
            expire(accounts, transfers, index);
        }
    }
}
