//! What a transfer changes in addition to its own row: balances, the status of what it names, and the expiries.

ghost use Rattle.std.specs.Prelude.{◌≡◌, ℕ, ◌≢◌, ◌<◌, ◌^◌, ◌++◌, ◌∷◌, [], Ok, IfOk, OnOk, OnErr, is_some, nat_eq, not, true, length};
ghost use Rattle.std.specs.Map.{lookup};
ghost use Rattle.tb_layout.specs.declared.transfer.Transfer.{Transfer as TransferRecord};
ghost use Rattle.tb_layout.specs.claim.Transfer.{is_pending};
ghost use Rattle.tb_tables.specs.claim.Facts.{Facts};
ghost use Rattle.tb_tables.specs.claim.Status.{expires_at as expires_at_of};
ghost use Rattle.tb_tables.specs.clauses.Conditions.{stamped};
ghost use Rattle.tb_tables.specs.clauses.Expiries.{ExpiriesState, is_in_expiries};
ghost use Rattle.tb_tables.specs.clauses.Contents.{is_timed as is_timed_of, Contain, KeepsPairs};
ghost use Rattle.tb_tables.specs.inside.Changing.{Step, IsBefore, IsAfter, IsStored, new_row};
ghost use Rattle.tb_tables.specs.inside.Expiring.{with_its_pair};

use crate::amounts::{Phase, add_amount, phase_of, post_if, subtract_amount, unpost_if};
use crate::by_id::ById;
use crate::entries::resolved_status;
use crate::expiries::Expiries;
use crate::indices::Indices;
use crate::status::Status;
use crate::transfers::Transfers;
use tb_layout::{Account, NANOSECONDS_PER_SECOND, NoMemory, Transfer};

/// Returns whether a transfer has a moment at which it expires.
pub(crate) fn is_timed(transfer: &Transfer) -> bool
    ensures { result ≡ is_timed_of transfer.now }
{
    transfer.is_pending() && transfer.timeout != 0
}

/// Returns when a timed transfer with this timestamp expires, in nanoseconds.
pub(crate) fn expires_at(transfer: &Transfer, timestamp: u64) -> u64
    requires { expires_at_of (stamped timestamp transfer.now) < 2 ^ 64 }
    ensures { result ≡ expires_at_of (stamped timestamp transfer.now) }
{
    timestamp + u64::from(transfer.timeout) * NANOSECONDS_PER_SECOND
}

/// Puts in the pair of a transfer with this timestamp, at an index, if it has one.
pub(crate) fn insert_expiry(
    expiries: &mut Expiries,
    transfer: &Transfer,
    timestamp: u64,
    index: usize,
) -> Result<(), NoMemory>
    requires { is_pending transfer.now ≡ true → expires_at_of (stamped timestamp transfer.now) < 2 ^ 64 }
    ensures ok { OnOk result (expiries.new ≡ with_its_pair expiries.old (stamped timestamp transfer.now) index) }
    ensures err { OnErr result (expiries.new ≡ expiries.old) }
{
    if is_timed(transfer) {
        expiries.insert(expires_at(transfer, timestamp), index)?;
    }
    Ok(())
}

/// Takes the pair of a transfer with this timestamp, at an index, out again. Those of transfers before it stay.
pub(crate) fn take_expiry_back(
    expiries: &mut Expiries,
    transfer: &Transfer,
    timestamp: u64,
    index: usize,
)
    requires { is_pending transfer.now ≡ true → expires_at_of (stamped timestamp transfer.now) < 2 ^ 64 }
    ensures others { KeepsPairs index (is_in_expiries expiries.old) (is_in_expiries expiries.new) }
    ensures gone { (before : ExpiriesState)
        → expiries.old ≡ with_its_pair before (stamped timestamp transfer.now) index → expiries.new ≡ before }
{
    if is_timed(transfer) {
        expiries.take_back(expires_at(transfer, timestamp), index);
    }
}

/// Adds an event's row with this timestamp, and its pair if it has one, unless a transfer with its id is there. Returns whether it
/// was added. The pair is put in first, and is taken out again if the row isn't added.
pub(crate) fn push_transfer(
    transfers: &mut Transfers,
    expiries: &mut Expiries,
    event: &Transfer,
    timestamp: u64,
) -> Result<bool, NoMemory>
    requires { is_pending event.now ≡ true → expires_at_of (stamped timestamp event.now) < 2 ^ 64 }
    ensures new { IfOk result (λ added. added ≡ not (is_some (lookup (nat_eq event.now.id) transfers.old))) }
    ensures added { result ≡ Ok true → transfers.new
        ≡ transfers.old ++ (event.now.id, new_row (stamped timestamp event.now)) ∷ [] }
    ensures put { result ≡ Ok true → expiries.new
        ≡ with_its_pair expiries.old (stamped timestamp event.now) (length transfers.old) }
    ensures same { result ≢ Ok true → (transfers.new ≡ transfers.old) × (expiries.new ≡ expiries.old) }
{
    let index = transfers.len();
    insert_expiry(expiries, event, timestamp, index)?;
    let added = transfers.push(event, timestamp);
    if added != Ok(true) {
        take_expiry_back(expiries, event, timestamp, index);
    }
    added
}

/// Adds a stored event's amounts to its accounts. A post or a void releases what was reserved, and sets the status of
/// the transfer that it names.
pub(crate) fn apply(
    accounts: &mut ById<Account>,
    transfers: &mut Transfers,
    indices: Indices,
    event: &Transfer,
)
    requires { (timestamp : ℕ) × (step : Step (stamped timestamp event.now) indices)
        × IsBefore step accounts.old.entries transfers.old }
    ensures { (timestamp : ℕ) (step : Step (stamped timestamp event.now) indices)
        → IsBefore step accounts.old.entries transfers.old → IsAfter step accounts.new.entries transfers.new }
{
    match indices.pending {
        None => add_amount(accounts, indices, phase_of(event), event.amount),
        Some(pending) => {
            let reserved = transfers
                .set_status(pending, resolved_status(event.is_post()))
                .amount;
            subtract_amount(accounts, indices, Phase::Pending, reserved);
            post_if(accounts, indices, event.is_post(), event.amount);
        }
    }
}

/// Takes back what `apply` changed, after the transfer was removed.
fn unapply(
    accounts: &mut ById<Account>,
    transfers: &mut Transfers,
    indices: Indices,
    transfer: Transfer,
)
    requires { (step : Step transfer indices) × IsAfter step accounts.old.entries transfers.old }
    ensures { (step : Step transfer indices) → IsAfter step accounts.old.entries transfers.old
        → IsBefore step accounts.new.entries transfers.new }
{
    match indices.pending {
        None => subtract_amount(accounts, indices, phase_of(&transfer), transfer.amount),
        Some(pending) => {
            let reserved = transfers.set_status(pending, Status::Pending).amount;
            unpost_if(accounts, indices, transfer.is_post(), transfer.amount);
            add_amount(accounts, indices, Phase::Pending, reserved);
        }
    }
}

/// Takes the last transfer off, with what it changed.
pub(crate) fn undo_transfer(
    accounts: &mut ById<Account>,
    transfers: &mut Transfers,
    expiries: &mut Expiries,
    indices: Indices,
)
    requires { (facts : Facts) × (transfer : TransferRecord)
        × IsStored facts transfer indices accounts.old.entries transfers.old }
    ensures maps { (facts : Facts) (transfer : TransferRecord)
        → IsStored facts transfer indices accounts.old.entries transfers.old
        → Contain facts accounts.new.entries transfers.new }
    ensures pairs { (facts : Facts) (transfer : TransferRecord)
        → IsStored facts transfer indices accounts.old.entries transfers.old
        → KeepsPairs (length facts.transfers) (is_in_expiries expiries.old) (is_in_expiries expiries.new) }
    ensures gone { (facts : Facts) (transfer : TransferRecord)
        → IsStored facts transfer indices accounts.old.entries transfers.old → (before : ExpiriesState)
        → expiries.old ≡ with_its_pair before transfer (length facts.transfers) → expiries.new ≡ before }
{
    let transfer = transfers.pop();
    take_expiry_back(expiries, &transfer, transfer.timestamp, transfers.len());
    unapply(accounts, transfers, indices, transfer);
}
