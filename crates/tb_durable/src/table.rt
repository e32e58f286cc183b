//! The table of entries.

ghost use Rattle.std.specs.Prelude.{◌≡◌, ◌<◌, ◌≤◌, ◌∷◌, [], false, map, Option, IsTrue, IsSome, IfOk, OnOk, IfErr};
ghost use Rattle.tb_layout.specs.claim.Events.{Pulse};
ghost use Rattle.tb_layout.specs.claim.Limits.{clock_max};
ghost use Rattle.tb_layout.specs.claim.Bounds.{moment_max, places_max};
ghost use Rattle.tb_work.specs.claim.Packet.{input_of};
ghost use Rattle.tb_batch.specs.claim.Batch.{AreParts};
ghost use Rattle.sqlite_trees.specs.Tree.{rowid};
ghost use Rattle.sqlite_trees.specs.View.{IsClean, doubt, is_int, Advances, Tells};
ghost use Rattle.sqlite_trees.specs.declared.error.StoreError.{StoreError as Failure};
ghost use Rattle.tb_durable.specs.claim.Rows.{jobs_row, pulse_row, settings_row, group_in};
ghost use Rattle.tb_durable.specs.claim.Durable.{IsReading, LeavesNothingNew};
ghost use Rattle.tb_durable.specs.inside.Storing.{StoresRow};

use crate::rows::{fill_batch, fill_pulse, fill_settings};
use crate::settings::Settings;
use sqlite_trees::error::StoreError;
use sqlite_trees::store::{Direction, Shape, Store};
use sqlite_value::row::Row;
use std::alloc::Global;
use tb_batch::Parts;
use tb_work::Moment;

/// The tree of the table, the only one.
pub(crate) const ENTRIES: u32 = 0;

/// The cursor that reads it, the only one.
const CURSOR: u16 = 0;

/// Why a row isn't stored. If it is in doubt, a crash may leave it or not.
#[derive(Clone, Copy)]
pub(crate) struct NotStored {
    pub(crate) error: StoreError,
    pub(crate) in_doubt: bool,
}

/// Returns that memory ran out before anything was written.
pub(crate) fn no_memory() -> NotStored
    ensures in_doubt { result.in_doubt ≡ false }
    ensures told { (blamed : Option Failure) → Tells blamed result.error }
{
    NotStored {
        error: StoreError::OutOfMemory,
        in_doubt: false,
    }
}

/// A store whose first tree is the table, and the row that is written or was read last.
pub(crate) struct Table<S: Store> {
    pub(crate) store: S,
    pub(crate) row: Row,
    pub(crate) alloc: Global,
}

impl<S: Store + Drop> Drop for Table<S> {
    /// Frees everything held in one call, so that no owner's proof repeats it.
    fn drop(self) {
        let Table {
            store,
            row,
            alloc: _,
        } = self;
        drop(store);
        drop(row);
    }
}

impl<S: Store> Table<S> {
    /// Returns the store.
    pub(crate) fn into_store(self) -> S
        ensures { result ≡ self.store }
    {
        let Table {
            store,
            row,
            alloc: _,
        } = self;
        drop(row);
        store
    }

    /// Puts the row into the table, in a transaction of its own.
    fn commit_row(&mut self) -> Result<(), NotStored>
        requires { IsTrue (is_int (rowid self.old.row)) }
        ensures { StoresRow S.Store.view S.Store.recovers S.Store.blamed self.old.store self.old.row result self.new.store }
    {
        if self.store.shape(ENTRIES) != Shape::Table {
            return Err(NotStored {
                error: StoreError::Broken,
                in_doubt: false,
            });
        }
        if let Err(error) = self.store.put(ENTRIES, &self.row) {
            self.store.rollback();
            return Err(NotStored {
                error,
                in_doubt: false,
            });
        }
        match self.store.commit() {
            Ok(()) => Ok(()),
            Err(error) => Err(NotStored {
                error,
                in_doubt: true,
            }),
        }
    }

    /// Stores a batch.
    pub(crate) fn put_batch(&mut self, place: u64, parts: &Parts) -> Result<(), NotStored>
        requires place { place < places_max }
        requires parts { AreParts parts.now }
        ensures stores { StoresRow S.Store.view S.Store.recovers S.Store.blamed self.old.store (jobs_row place parts.now.jobs.items)
            result self.new.store }
        ensures read_back { OnOk result (group_in (jobs_row place parts.now.jobs.items) ≡ map input_of parts.now.jobs.items) }
    {
        if fill_batch(self.alloc, &mut self.row, place, parts).is_err() {
            return Err(no_memory());
        }
        self.commit_row()
    }

    /// Stores a pulse.
    pub(crate) fn put_pulse(&mut self, place: u64, moment: Moment) -> Result<(), NotStored>
        requires { place < places_max }
        ensures stores { StoresRow S.Store.view S.Store.recovers S.Store.blamed self.old.store (pulse_row place moment)
            result self.new.store }
        ensures read_back { OnOk result (group_in (pulse_row place moment) ≡ Pulse moment ∷ []) }
        ensures bound { moment ≤ moment_max }
    {
        if fill_pulse(&mut self.row, place, moment).is_err() {
            return Err(no_memory());
        }
        self.commit_row()
    }

    /// Stores the settings.
    pub(crate) fn put_settings(&mut self, settings: Settings) -> Result<(), NotStored>
        requires { settings.clock ≤ clock_max }
        ensures { StoresRow S.Store.view S.Store.recovers S.Store.blamed self.old.store (settings_row settings) result self.new.store }
    {
        if fill_settings(&mut self.row, settings).is_err() {
            return Err(no_memory());
        }
        self.commit_row()
    }

    /// Begins to read the table at its first row.
    pub(crate) fn rewind(&mut self) -> Result<(), StoreError>
        ensures ok { OnOk result (IsClean (S.Store.view self.new.store) → IsReading (S.Store.view self.new.store) []) }
        ensures same { OnOk result (IsClean (S.Store.view self.new.store)
            → (S.Store.view self.new.store).committed ≡ (S.Store.view self.old.store).committed) }
        ensures cursor { OnOk result (IsSome ((S.Store.view self.new.store).cursors 0)) }
        ensures crash { LeavesNothingNew (S.Store.recovers self.old.store) (S.Store.recovers self.new.store) }
        ensures clean { doubt (S.Store.view self.old.store).is_clean ≤ doubt (S.Store.view self.new.store).is_clean }
        ensures told { IfErr result (Tells (S.Store.blamed self.new.store)) }
    {
        self.store.rollback();
        if self.store.is_broken() || self.store.shape(ENTRIES) != Shape::Table {
            return Err(StoreError::Broken);
        }
        self.row.clear();
        self.store
            .seek(CURSOR, ENTRIES, &self.row, Direction::Forward)?;
        Ok(())
    }

    /// Reads the next row, if there is one.
    pub(crate) fn next(&mut self) -> Result<bool, StoreError>
        requires { IsSome ((S.Store.view self.old.store).cursors 0) }
        ensures ok { IfOk result (λ found. IsClean (S.Store.view self.new.store)
            → Advances (S.Store.view self.old.store) (S.Store.view self.new.store) 0 self.new.row found) }
        ensures cursor { OnOk result (IsSome ((S.Store.view self.new.store).cursors 0)) }
        ensures crash { LeavesNothingNew (S.Store.recovers self.old.store) (S.Store.recovers self.new.store) }
        ensures clean { doubt (S.Store.view self.old.store).is_clean ≤ doubt (S.Store.view self.new.store).is_clean }
        ensures told { IfErr result (Tells (S.Store.blamed self.new.store)) }
    {
        self.store.next(CURSOR, &mut self.row)
    }
}
