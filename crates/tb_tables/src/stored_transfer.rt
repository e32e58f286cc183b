//! A transfer as the map of transfers stores it.

ghost use Rattle.std.specs.Prelude.{◌≡◌};

use tb_layout::Transfer;

/// A transfer without its id, which is its key in the map: 112 bytes.
#[derive(Clone, Copy, Default)]
pub(crate) struct StoredTransfer {
    debit_account_id: u128,
    credit_account_id: u128,
    amount: u128,
    pending_id: u128,
    user_data_128: u128,
    user_data_64: u64,
    timestamp: u64,
    user_data_32: u32,
    timeout: u32,
    ledger: u32,
    code: u16,
    flags: u16,
}

const _: () = prove!(size_of::<StoredTransfer>() == 112);

impl StoredTransfer {
    ghost use Rattle.tb_tables.specs.inside.Columns.{transfer_under};
    ghost use Rattle.tb_tables.specs.clauses.Conditions.{stamped};

    /// Copies the fields of an event, all but its id, with the timestamp at which it is stored.
    pub(crate) fn of(event: &Transfer, timestamp: u64) -> StoredTransfer
        ensures { transfer_under event.now.id result ≡ stamped timestamp event.now }
    {
        StoredTransfer {
            debit_account_id: event.debit_account_id,
            credit_account_id: event.credit_account_id,
            amount: event.amount,
            pending_id: event.pending_id,
            user_data_128: event.user_data_128,
            user_data_64: event.user_data_64,
            timestamp,
            user_data_32: event.user_data_32,
            timeout: event.timeout,
            ledger: event.ledger,
            code: event.code,
            flags: event.flags,
        }
    }

    /// Returns the transfer with this id.
    pub(crate) fn transfer(&self, id: u128) -> Transfer
        ensures { result ≡ transfer_under id self.now }
    {
        Transfer {
            id,
            debit_account_id: self.debit_account_id,
            credit_account_id: self.credit_account_id,
            amount: self.amount,
            pending_id: self.pending_id,
            user_data_128: self.user_data_128,
            user_data_64: self.user_data_64,
            user_data_32: self.user_data_32,
            timeout: self.timeout,
            ledger: self.ledger,
            code: self.code,
            flags: self.flags,
            timestamp: self.timestamp,
        }
    }
}
