//! What the two operations that change the facts make of their events.

ghost use Rattle.std.specs.Prelude.{◌≡◌, ◌≢◌, ◌≤◌, ◌&&◌, ◌||◌, ℕ, Bool, List, Ok, IfOk, is_some, not, true};
ghost use Rattle.tb_layout.specs.claim.Account.{account_of};
ghost use Rattle.tb_layout.specs.claim.Transfer.{transfer_of, is_resolving as is_resolving_event};
ghost use Rattle.tb_layout.specs.claim.TransferCode.{number_of};
ghost use Rattle.tb_tables.specs.claim.Facts.{Facts, account_with, add_transfer, transfer_with};
ghost use Rattle.tb_tables.specs.clauses.History.{with_change, Extends};
ghost use Rattle.tb_tables.specs.clauses.Conditions.{MayResolve};
ghost use Rattle.tb_tables.specs.clauses.Indices.{IsIndexOfTransfer};
ghost use Rattle.tb_layout.specs.claim.Limits.{clock_max};
ghost use Rattle.tb_machine.specs.claim.Chain.{Operation};
ghost use Rattle.tb_machine.specs.claim.Checks.{differ};
ghost use Rattle.tb_machine.specs.claim.TransferVerdict.{stored_transfer, new_id_verdict};
ghost use Rattle.tb_machine.specs.inside.Examining.{transfer_id_verdict, unfailed_verdict};
ghost use Rattle.tb_machine.specs.inside.Prefetch.{IsTarget};
ghost use Rattle.tb_machine.specs.declared.prefetch.Target.TheVariants.{Between, Named};
ghost use Rattle.tb_machine.specs.claim.Operations as spec;

use crate::account_verdict::{account_verdict, new_account_verdict};
use crate::prefetch::{Sides, Target};
use crate::resolved::is_resolving;
use crate::transfer_verdict::{
    new_creating_verdict, new_resolving, stored_transfer_verdict, transfer_fault,
    unfailed_creating_verdict,
};
use tb_layout::{
    Account, NoMemory, Transfer, TransferCode, is_chunk_linked, read_account, read_transfer,
};
use tb_tables::Tables;

/// An event of an operation.
pub(crate) trait CreateEvent: Copy {
    ghost event_of: { List ℕ → Self };

    ghost operation: { Operation Self };

    ghost has_timestamp: { Self → Bool };

    ghost is_stored: { Facts → Self → Bool };

    ghost has_accounts: { Facts → Self → Bool };

    /// Returns the event in the 128 bytes of its chunk.
    fn read(chunk: &[u8; 128]) -> Self
        ensures { result ≡ event_of chunk.now };

    /// Returns whether the event in a chunk is linked, without reading the rest of it.
    fn is_chunk_linked(chunk: &[u8; 128]) -> bool
        ensures { result ≡ operation.is_linked (event_of chunk.now) };

    /// Returns whether the event has a timestamp: it then fails its first check, whatever is stored.
    fn has_timestamp(&self) -> bool
        ensures { result ≡ has_timestamp self.now };

    /// Returns whether an event with the id of this one is stored.
    fn is_stored(&self, tables: &Tables) -> bool
        ensures { result ≡ is_stored tables.now.now self.now };

    /// Returns whether the accounts of the event are there, unless it is a post or a void, which may leave them out.
    fn has_accounts(&self, tables: &Tables) -> bool
        ensures { result ≡ has_accounts tables.now.now self.now };

    /// Stores the event with this timestamp if its checks find nothing, and returns the number of its result.
    fn try_store(&self, tables: &mut Tables, timestamp: u64) -> Result<u32, NoMemory>
        requires { timestamp ≤ clock_max }
        ensures code { IfOk result (λ code. code ≡ operation.verdict tables.old.now timestamp self.now) }
        ensures stored { result ≡ Ok 0 → tables.new ≡ with_change tables.old
            (operation.stored tables.old.now timestamp self.now) }
        ensures same { result ≢ Ok 0 → tables.new ≡ tables.old };

    /// Records that the event failed with this code.
    fn record_failed(&self, tables: &mut Tables, code: u32) -> Result<(), NoMemory>
        ensures facts { IfOk result (λ _. tables.new.now ≡ operation.after_failure tables.old.now code self.now) }
        ensures extends { Extends tables.old tables.new };

    /// Stores the event with this timestamp if its checks find nothing, or else records its failure. Returns the number
    /// of its result, which doesn't depend on `seems_stored`: a transfer's id that seems stored is looked up first, and
    /// costs less if it is.
    fn store_or_record(
        &self,
        tables: &mut Tables,
        timestamp: u64,
        seems_stored: bool,
    ) -> Result<u32, NoMemory>
        requires { timestamp ≤ clock_max }
        ensures code { IfOk result (λ code. code ≡ operation.verdict tables.old.now timestamp self.now) }
        ensures stored { result ≡ Ok 0 → tables.new.now ≡ operation.stored tables.old.now timestamp self.now }
        ensures failed { IfOk result (λ code. code ≢ 0
            → tables.new.now ≡ operation.after_failure tables.old.now code self.now) }
        ensures extends { Extends tables.old tables.new };
}

impl CreateEvent for Account {
    ghost event_of = { account_of };

    ghost operation = { spec.accounts_operation };

    ghost has_timestamp = { λ event. differ event.timestamp 0 };

    ghost is_stored = { λ facts event. is_some (account_with facts event.id) };

    ghost has_accounts = { λ _ _. true };

    fn read(chunk: &[u8; 128]) -> Account {
        read_account(chunk)
    }

    fn is_chunk_linked(chunk: &[u8; 128]) -> bool {
        is_chunk_linked(chunk)
    }

    fn has_timestamp(&self) -> bool {
        self.timestamp != 0
    }

    fn is_stored(&self, tables: &Tables) -> bool {
        tables.account_index(self.id).is_some()
    }

    fn has_accounts(&self, _tables: &Tables) -> bool {
        true
    }

    fn try_store(&self, tables: &mut Tables, timestamp: u64) -> Result<u32, NoMemory> {
        let code = new_account_verdict(self).number();
        if code == 0 && tables.insert_account(self, timestamp)? {
            return Ok(0);
        }
        Ok(account_verdict(tables, self).number())
    }

    fn record_failed(&self, _tables: &mut Tables, _code: u32) -> Result<(), NoMemory> {
        Ok(())
    }

    fn store_or_record(
        &self,
        tables: &mut Tables,
        timestamp: u64,
        _seems_stored: bool,
    ) -> Result<u32, NoMemory> {
        self.try_store(tables, timestamp)
    }
}

impl CreateEvent for Transfer {
    ghost event_of = { transfer_of };

    ghost operation = { spec.transfers_operation };

    ghost has_timestamp = { λ event. differ event.timestamp 0 };

    ghost is_stored = { λ facts event. is_some (transfer_with facts event.id) };

    ghost has_accounts = { λ facts event. is_resolving_event event
        || (is_some (account_with facts event.debit_account_id)
        && is_some (account_with facts event.credit_account_id)) };

    fn read(chunk: &[u8; 128]) -> Transfer {
        read_transfer(chunk)
    }

    fn is_chunk_linked(chunk: &[u8; 128]) -> bool {
        is_chunk_linked(chunk)
    }

    fn has_timestamp(&self) -> bool {
        self.timestamp != 0
    }

    fn is_stored(&self, tables: &Tables) -> bool {
        tables.transfer_index(self.id).is_some()
    }

    fn has_accounts(&self, tables: &Tables) -> bool {
        is_resolving(self)
            || tables.account_index(self.debit_account_id).is_some()
                && tables.account_index(self.credit_account_id).is_some()
    }

    fn try_store(&self, tables: &mut Tables, timestamp: u64) -> Result<u32, NoMemory> {
        if let Some(code) = transfer_fault(self) {
            return Ok(code.number());
        }
        match Target::of(tables, self) {
            Target::Between(sides) => try_store_between(tables, sides, timestamp, self),
            Target::Named(pending) => try_store_resolving(tables, pending, timestamp, self),
        }
    }

    #[inline(never)]
    fn record_failed(&self, tables: &mut Tables, code: u32) -> Result<(), NoMemory> {
        if is_transient(code) {
            tables.insert_failed(self.id)?;
        }
        Ok(())
    }

    #[inline(never)]
    fn store_or_record(
        &self,
        tables: &mut Tables,
        timestamp: u64,
        seems_stored: bool,
    ) -> Result<u32, NoMemory> {
        if let Some(code) = transfer_fault(self) {
            return Ok(code.number());
        }
        if seems_stored {
            if let Some(code) = stored_transfer_verdict(tables, self) {
                return Ok(code.number());
            }
        }
        match Target::of(tables, self) {
            Target::Between(sides) => store_between_or_record(tables, sides, timestamp, self),
            Target::Named(pending) => {
                let code = try_store_resolving(tables, pending, timestamp, self)?;
                if code != 0 {
                    self.record_failed(tables, code)?;
                }
                Ok(code)
            }
        }
    }
}

/// Returns whether the same event could find no fault later: an account or a pending transfer wasn't there, or a limit
/// of an account would have been passed. TigerBeetle calls these results transient; the id of an event that failed with
/// one of them is never taken again.
fn is_transient(code: u32) -> bool
    ensures { result ≡ spec.is_transient code }
{
    code == TransferCode::DebitAccountNotFound.number()
        || code == TransferCode::CreditAccountNotFound.number()
        || code == TransferCode::PendingTransferNotFound.number()
        || code == TransferCode::ExceedsCredits.number()
        || code == TransferCode::ExceedsDebits.number()
}

/// Stores a plain or pending transfer that passes the checks of one with a new id, if its id is new. Returns whether it is.
#[inline(always)]
fn store_new(
    tables: &mut Tables,
    sides: Sides,
    timestamp: u64,
    event: &Transfer,
) -> Result<bool, NoMemory>
    requires target { IsTarget tables.old.now event.now (Between sides) }
    requires clock { timestamp ≤ clock_max }
    requires ok { number_of (new_id_verdict tables.old.now timestamp event.now) ≡ 0 }
    ensures new { IfOk result (λ added. added ≡ not (is_some (transfer_with tables.old.now event.now.id))) }
    ensures added { result ≡ Ok true → tables.new
        ≡ with_change tables.old (add_transfer tables.old.now
        (stored_transfer tables.old.now timestamp event.now)) }
    ensures same { result ≢ Ok true → tables.new ≡ tables.old }
{
    let Some(debit) = sides.debit else {
        unreachable!()
    };
    let Some(credit) = sides.credit else {
        unreachable!()
    };
    tables.insert_between(event, timestamp, debit, credit)
}

/// Stores a plain or pending transfer that passes the checks of any event, if its other checks find nothing, and
/// returns the number of its result. Its id is looked up only as it is stored: most are new.
#[inline(always)]
fn try_store_between(
    tables: &mut Tables,
    sides: Sides,
    timestamp: u64,
    event: &Transfer,
) -> Result<u32, NoMemory>
    requires target { IsTarget tables.old.now event.now (Between sides) }
    requires clock { timestamp ≤ clock_max }
    ensures code { IfOk result (λ code. code
        ≡ number_of (transfer_id_verdict tables.old.now timestamp event.now)) }
    ensures stored { result ≡ Ok 0 → tables.new ≡ with_change tables.old
        (add_transfer tables.old.now (stored_transfer tables.old.now timestamp event.now)) }
    ensures same { result ≢ Ok 0 → tables.new ≡ tables.old }
{
    let code = new_creating_verdict(tables, sides, timestamp, event);
    if code.number() == 0 && store_new(tables, sides, timestamp, event)? {
        return Ok(0);
    }
    let code = stored_transfer_verdict(tables, event).unwrap_or(code);
    Ok(code.number())
}

/// Returns the number of the result of an event that fails with this transient code if its id is new and didn't fail.
/// Records its failure. The id is looked up once among those that failed. Few events fail so, and others cost less if
/// this isn't inlined.
#[inline(never)]
fn record_transient(
    tables: &mut Tables,
    code: TransferCode,
    event: &Transfer,
) -> Result<u32, NoMemory>
    requires { spec.is_transient (number_of code) ≡ true }
    ensures code { IfOk result (λ number. (timestamp : ℕ)
        → code ≡ unfailed_verdict tables.old.now timestamp event.now
        → number ≡ number_of (transfer_id_verdict tables.old.now timestamp event.now)) }
    ensures not_ok { IfOk result (λ number. number ≢ 0) }
    ensures failed { IfOk result (λ number. tables.new.now
        ≡ spec.transfers_operation.after_failure tables.old.now number event.now) }
    ensures extends { Extends tables.old tables.new }
{
    if let Some(stored) = stored_transfer_verdict(tables, event) {
        return Ok(stored.number());
    }
    if tables.insert_failed(event.id)? {
        Ok(code.number())
    } else {
        Ok(TransferCode::IdAlreadyFailed.number())
    }
}

/// Stores a plain or pending transfer if the checks after those of any event find nothing, or else records its failure.
/// Returns the number of its result. If it fails because an account is missing, its id is looked up among the failed ids
/// only when it is inserted there.
#[inline(always)]
fn store_between_or_record(
    tables: &mut Tables,
    sides: Sides,
    timestamp: u64,
    event: &Transfer,
) -> Result<u32, NoMemory>
    requires target { IsTarget tables.old.now event.now (Between sides) }
    requires clock { timestamp ≤ clock_max }
    ensures code { IfOk result (λ code. code
        ≡ number_of (transfer_id_verdict tables.old.now timestamp event.now)) }
    ensures stored { result ≡ Ok 0 → tables.new.now
        ≡ add_transfer tables.old.now (stored_transfer tables.old.now timestamp event.now) }
    ensures failed { IfOk result (λ code. code ≢ 0 → tables.new.now
        ≡ spec.transfers_operation.after_failure tables.old.now code event.now) }
    ensures extends { Extends tables.old tables.new }
{
    if sides.debit.is_none() || sides.credit.is_none() {
        let unfailed = unfailed_creating_verdict(tables, sides, timestamp, event);
        if is_transient(unfailed.number()) {
            return record_transient(tables, unfailed, event);
        }
    }
    let code = try_store_between(tables, sides, timestamp, event)?;
    if code != 0 {
        event.record_failed(tables, code)?;
    }
    Ok(code)
}

/// Stores a post or a void, with its fields resolved, if its id is new. Returns whether it is. The id is looked up as it is
/// stored, as that of a plain or pending transfer.
#[inline(always)]
fn store_resolved(
    tables: &mut Tables,
    pending: Option<usize>,
    transfer: &Transfer,
) -> Result<bool, NoMemory>
    requires at { IsIndexOfTransfer tables.old.now transfer.now.pending_id pending }
    requires may { MayResolve tables.old.now transfer.now }
    ensures new { IfOk result (λ added. added ≡ not (is_some (transfer_with tables.old.now transfer.now.id))) }
    ensures added { result ≡ Ok true → tables.new
        ≡ with_change tables.old (add_transfer tables.old.now transfer.now) }
    ensures same { result ≢ Ok true → tables.new ≡ tables.old }
{
    let Some(index) = pending else { unreachable!() };
    tables.insert_resolving(transfer, index)
}

/// Stores a post or a void that passes the checks of any event, if its other checks find nothing, and returns the
/// number of its result. The transfer that it names is read once.
#[inline(never)]
fn try_store_resolving(
    tables: &mut Tables,
    pending: Option<usize>,
    timestamp: u64,
    event: &Transfer,
) -> Result<u32, NoMemory>
    requires { IsTarget tables.old.now event.now (Named pending) }
    ensures code { IfOk result (λ code. code
        ≡ number_of (transfer_id_verdict tables.old.now timestamp event.now)) }
    ensures stored { result ≡ Ok 0 → tables.new ≡ with_change tables.old
        (add_transfer tables.old.now (stored_transfer tables.old.now timestamp event.now)) }
    ensures same { result ≢ Ok 0 → tables.new ≡ tables.old }
{
    let transfer = match new_resolving(tables, pending, timestamp, event) {
        Ok(transfer) => transfer,
        Err(fault) => {
            let code = stored_transfer_verdict(tables, event).unwrap_or(fault);
            return Ok(code.number());
        }
    };
    if store_resolved(tables, pending, &transfer)? {
        return Ok(0);
    }
    let code = stored_transfer_verdict(tables, event).unwrap_or(TransferCode::Ok);
    Ok(code.number())
}
