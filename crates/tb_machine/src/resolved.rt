//! What a post or a void leaves to the transfer that it names.

ghost use Rattle.std.specs.Prelude.{◌≡◌, true};
ghost use Rattle.tb_layout.specs.claim.Transfer.{is_resolving as is_resolving_event};
ghost use Rattle.tb_tables.specs.claim.Facts.{transfer_with};
ghost use Rattle.tb_machine.specs.claim.TransferVerdict as spec;

use tb_layout::Transfer;
use tb_tables::Tables;

/// Returns a field of 128 bits, or if it is 0 what the pending transfer has.
fn unless_zero_u128(field: u128, otherwise: u128) -> u128
    ensures { result ≡ spec.unless_zero field otherwise }
{
    if field == 0 { otherwise } else { field }
}

/// Returns a field of 64 bits, or if it is 0 what the pending transfer has.
fn unless_zero_u64(field: u64, otherwise: u64) -> u64
    ensures { result ≡ spec.unless_zero field otherwise }
{
    if field == 0 { otherwise } else { field }
}

/// Returns a field of 32 bits, or if it is 0 what the pending transfer has.
fn unless_zero_u32(field: u32, otherwise: u32) -> u32
    ensures { result ≡ spec.unless_zero field otherwise }
{
    if field == 0 { otherwise } else { field }
}

/// Returns a field of 16 bits, or if it is 0 what the pending transfer has.
fn unless_zero_u16(field: u16, otherwise: u16) -> u16
    ensures { result ≡ spec.unless_zero field otherwise }
{
    if field == 0 { otherwise } else { field }
}

/// Returns whether an event is a post or a void.
pub(crate) fn is_resolving(event: &Transfer) -> bool
    ensures { result ≡ is_resolving_event event.now }
{
    event.is_post() || event.is_void()
}

/// Returns whether a post's or void's amount stands for all that was reserved: the greatest number in a post, 0 in a
/// void.
fn means_whole_amount(event: &Transfer) -> bool
    ensures { result ≡ spec.means_whole_amount event.now }
{
    event.is_post() && event.amount == u128::MAX || event.is_void() && event.amount == 0
}

/// Returns a post or a void with its fields resolved.
pub(crate) fn resolved(pending: &Transfer, event: &Transfer) -> Transfer
    ensures { result ≡ spec.resolved_transfer pending.now event.now }
{
    Transfer {
        debit_account_id: unless_zero_u128(event.debit_account_id, pending.debit_account_id),
        credit_account_id: unless_zero_u128(event.credit_account_id, pending.credit_account_id),
        amount: if means_whole_amount(event) {
            pending.amount
        } else {
            event.amount
        },
        user_data_128: unless_zero_u128(event.user_data_128, pending.user_data_128),
        user_data_64: unless_zero_u64(event.user_data_64, pending.user_data_64),
        user_data_32: unless_zero_u32(event.user_data_32, pending.user_data_32),
        ledger: unless_zero_u32(event.ledger, pending.ledger),
        code: unless_zero_u16(event.code, pending.code),
        ..*event
    }
}

/// Returns a post or a void with its fields resolved against the transfer with an id.
pub(crate) fn resolved_against(tables: &Tables, pending_id: u128, event: &Transfer) -> Transfer
    requires { is_resolving_event event.now ≡ true }
    ensures { result ≡ spec.resolved_transfer_of (transfer_with tables.now.now pending_id) event.now }
{
    match tables.transfer(pending_id) {
        Some(pending) => resolved(&pending, event),
        None => *event,
    }
}
