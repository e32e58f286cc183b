//! The map of transfers: each under its id, in order of making, with a status.

ghost use Rattle.std.specs.Prelude.{◌≡◌, ◌≢◌, ◌<◌, ◌++◌, ◌∷◌, [], ℕ, Ok, Some, IfOk, IsSome, is_some, not, true, nat_eq, length, position, slice_get, List};
ghost use Rattle.std.specs.List.{IsDistinct};
ghost use Rattle.std.specs.Map.{keys_of, lookup};
ghost use Rattle.std.specs.Option.{option_map};
ghost use Rattle.indexmap.specs.IndexMap.{get, set_value_at};
ghost use Rattle.tb_tables.specs.declared.row.Row.{Row as RowRecord};
ghost use Rattle.tb_tables.specs.declared.stored_transfer.StoredTransfer.{StoredTransfer as StoredRecord};
ghost use Rattle.tb_tables.specs.inside.Changing.{new_row};
ghost use Rattle.tb_tables.specs.inside.Expiring.{is_open_at};
ghost use Rattle.tb_tables.specs.inside.Columns.{transfer_under, status_found};
ghost use Rattle.tb_tables.specs.clauses.Conditions.{stamped};

use crate::by_id::ById;
use crate::hashing::IdHasher;
use crate::row::Row;
use crate::status::Status;
use crate::stored_status::StoredStatus;
use crate::stored_transfer::StoredTransfer;
use indexmap::map::Entry;
use std::alloc::Global;
use std::marker::Model;
use tb_layout::{NoMemory, Transfer};

/// The transfers and their statuses, in two columns: a status next to its transfer would be padded to 16 bytes.
#[derive(Drop)]
pub(crate) struct Transfers {
    rows: ById<StoredTransfer>,
    statuses: Vec<StoredStatus>,
}

impl Model for Transfers {
    ghost use Rattle.std.specs.Prelude.{◌≡◌, ℕ, List, length};
    ghost use Rattle.tb_tables.specs.declared.row.Row.{Row as RowRecord};
    ghost use Rattle.tb_tables.specs.inside.Columns.{entries_of};

    ghost Value = { List (ℕ × RowRecord) };

    ghost view = { λ columns. entries_of columns.rows.entries columns.statuses.items };

    ghost invariant = { λ columns. length columns.statuses.items ≡ length columns.rows.entries };
}

/// Adds an event's row after the others, unless its id is there. Returns whether it was added. It is written in place: made
/// before, it would be moved there.
fn push_row(
    rows: &mut ById<StoredTransfer>,
    event: &Transfer,
    timestamp: u64,
) -> Result<bool, NoMemory>
    ensures new { IfOk result (λ added. added ≡ not (is_some (get nat_eq rows.old event.now.id))) }
    ensures added { result ≡ Ok true → (stored : StoredRecord)
        × (transfer_under event.now.id stored ≡ stamped timestamp event.now)
        × (rows.new.entries ≡ rows.old.entries ++ (event.now.id, stored) ∷ []) }
    ensures same { result ≢ Ok true → rows.new.entries ≡ rows.old.entries }
{
    match rows.entry(event.id)? {
        Entry::Occupied(entry) => {
            entry.into_mut();
            Ok(false)
        }
        Entry::Vacant(entry) => {
            let row = entry.insert(StoredTransfer::default());
            *row = StoredTransfer::of(event, timestamp);
            Ok(true)
        }
    }
}

impl Transfers {
    /// Makes a map without transfers. Takes no memory.
    pub(crate) fn new(alloc: Global, hasher: IdHasher) -> Transfers
        ensures { result ≡ [] }
    {
        Transfers {
            rows: ById::with_hasher(alloc, hasher),
            statuses: Vec::new(alloc),
        }
    }

    /// Reserves capacity in both columns.
    pub(crate) fn reserve(&mut self, additional: usize) -> Result<(), NoMemory>
        ensures { self.new ≡ self.old }
    {
        self.rows.reserve(additional)?;
        self.statuses.reserve(additional)?;
        Ok(())
    }

    /// Returns how many transfers there are.
    pub(crate) fn len(&self) -> usize
        ensures { result ≡ length self.now }
    {
        self.rows.len()
    }

    /// Adds an event after the others, unless its id is there. Returns whether it was added. The id is looked up once.
    pub(crate) fn push(&mut self, event: &Transfer, timestamp: u64) -> Result<bool, NoMemory>
        ensures new { IfOk result (λ added. added ≡ not (is_some (lookup (nat_eq event.now.id) self.old))) }
        ensures added { result ≡ Ok true → self.new
            ≡ self.old ++ (event.now.id, new_row (stamped timestamp event.now)) ∷ [] }
        ensures same { result ≢ Ok true → self.new ≡ self.old }
    {
        self.statuses.reserve(1)?;
        if !push_row(&mut self.rows, event, timestamp)? {
            return Ok(false);
        }
        self.statuses.push_reserved(StoredStatus::first(event));
        Ok(true)
    }

    /// Takes the last transfer off.
    pub(crate) fn pop(&mut self) -> Transfer
        requires { 0 < length self.old }
        ensures { (id : ℕ) (row : RowRecord) (others : List (ℕ × RowRecord)) → self.old ≡ others ++ (id, row) ∷ []
            → (result ≡ row.transfer) × (self.new ≡ others) }
    {
        self.statuses.pop();
        let (id, stored) = self.rows.pop().unwrap();
        stored.transfer(id)
    }

    /// Sets the status of the transfer at an index, and returns that transfer.
    pub(crate) fn set_status(&mut self, index: usize, status: Status) -> Transfer
        requires { IsSome (slice_get self.old index) }
        ensures transfer { (id : ℕ) (row : RowRecord) → slice_get self.old index ≡ Some (id, row)
            → result ≡ row.transfer }
        ensures entries { (id : ℕ) (row : RowRecord) → slice_get self.old index ≡ Some (id, row)
            → self.new ≡ set_value_at self.old index (record row { status = Some status }) }
        ensures unique { IsDistinct nat_eq (keys_of self.old) }
    {
        self.statuses[index] = StoredStatus::of(status);
        let (id, stored) = self.rows.pair_mut(index);
        stored.transfer(*id)
    }

    /// Returns the transfer at an index, with its status.
    pub(crate) fn row_at(&self, index: usize) -> Option<Row>
        ensures { result ≡ option_map (λ (entry : ℕ × RowRecord). entry.1) (slice_get self.now index) }
    {
        let transfer = self.transfer_at(index)?;
        Some(Row {
            transfer,
            status: self.status_at(index),
        })
    }

    /// Returns whether the transfer at an index still reserves its amount.
    pub(crate) fn is_open_at(&self, index: usize) -> bool
        ensures { result ≡ is_open_at self.now index }
    {
        matches!(self.status_at(index), Some(Status::Pending))
    }

    /// Returns the transfer with this id.
    pub(crate) fn transfer(&self, id: u128) -> Option<Transfer>
        ensures { result ≡ option_map (λ (row : RowRecord). row.transfer) (lookup (nat_eq id) self.now) }
    {
        let stored = self.rows.get(&id)?;
        Some(stored.transfer(id))
    }

    /// Returns the index of the transfer with this id.
    pub(crate) fn index_of(&self, id: u128) -> Option<usize>
        ensures { result ≡ position (nat_eq id) (keys_of self.now) }
    {
        self.rows.get_index_of(&id)
    }

    /// Returns the transfer at an index.
    pub(crate) fn transfer_at(&self, index: usize) -> Option<Transfer>
        ensures { result ≡ option_map (λ (entry : ℕ × RowRecord). entry.1.transfer) (slice_get self.now index) }
    {
        let (id, stored) = self.rows.get_index(index)?;
        Some(stored.transfer(*id))
    }

    /// Returns the status of the pending transfer with this id.
    pub(crate) fn status(&self, id: u128) -> Option<Status>
        ensures { result ≡ status_found (lookup (nat_eq id) self.now) }
    {
        let index = self.rows.get_index_of(&id)?;
        self.statuses[index].status()
    }

    /// Returns the status of the pending transfer at an index.
    pub(crate) fn status_at(&self, index: usize) -> Option<Status>
        ensures { result ≡ status_found (option_map (λ (entry : ℕ × RowRecord). entry.1) (slice_get self.now index)) }
    {
        if index < self.statuses.len() {
            self.statuses[index].status()
        } else {
            None
        }
    }
}
