//! The ledger.

ghost use Rattle.std.specs.Prelude.{◌≡◌, ◌<◌, ◌≤◌, false, IfOk, OnOk, IfErr, map};
ghost use Rattle.tb_layout.specs.claim.Limits.{clock_max};
ghost use Rattle.tb_layout.specs.claim.Bounds.{places_max};
ghost use Rattle.tb_work.specs.claim.Packet.{input_of};
ghost use Rattle.tb_batch.specs.claim.Batch.{AreParts};
ghost use Rattle.sqlite_trees.specs.Tree.{Trees};
ghost use Rattle.sqlite_trees.specs.View.{IsClean};
ghost use Rattle.tb_durable.specs.claim.Rows.{jobs_row, group_in};
ghost use Rattle.tb_durable.specs.inside.Storing.{StoresRow};

use crate::counts::PacketCounts;
use crate::fault::OpenFault;
use crate::reading::{read_first, read_ledger};
use crate::settings::Settings;
use crate::table::{NotStored, Table, no_memory};
use sqlite_trees::error::StoreError;
use sqlite_trees::store::Store;
use sqlite_value::row::Row;
use std::alloc::Global;
use tb_batch::{Batch, Parts};
use tb_core::{AnyLedger, BareLedger, Outcomes, Parcel, Seed};
use tb_layout::{CREATE_ACCOUNTS, CREATE_TRANSFERS, EVENT_SIZE, NoMemory, SUBMITTERS_LENGTH};
use tb_machine::Machine;
use tb_work::Moment;

/// A ledger whose entries are stored before they are applied.
pub struct DurableLedger<S: Store> {
    table: Table<S>,
    bare: BareLedger,
    settings: Settings,
    counts: PacketCounts,
    in_doubt: bool,
    fault: Option<StoreError>,
}

impl<S: Store + Drop> Drop for DurableLedger<S> {
    /// Frees everything held in one call, so that no owner's proof repeats it.
    fn drop(self) {
        let DurableLedger {
            table,
            bare,
            settings: _,
            counts: _,
            in_doubt: _,
            fault: _,
        } = self;
        drop(table);
        drop(bare);
    }
}

/// Reserves the memory for the facts that a batch may add.
fn reserve_for(bare: &mut BareLedger, parts: &Parts) -> Result<(), NoMemory>
    ensures { bare.new ≡ bare.old }
{
    let events = parts.body.len() / EVENT_SIZE;
    match parts.operation {
        CREATE_ACCOUNTS => bare.reserve(events, 0),
        CREATE_TRANSFERS => bare.reserve(0, events),
        _ => Ok(()),
    }
}

/// Stores a batch at the next place. Memory for the facts that it may add is reserved before anything is written.
fn store_batch<S: Store>(
    table: &mut Table<S>,
    bare: &mut BareLedger,
    parts: &Parts,
) -> Result<(), NotStored>
    requires place { bare.old.places < places_max }
    requires parts { AreParts parts.now }
    ensures bare { bare.new ≡ bare.old }
    ensures stores { StoresRow S.Store.view S.Store.recovers S.Store.blamed table.old.store
        (jobs_row bare.old.places parts.now.jobs.items) result table.new.store }
    ensures read_back { OnOk result (group_in (jobs_row bare.old.places parts.now.jobs.items)
        ≡ map input_of parts.now.jobs.items) }
{
    if reserve_for(bare, parts).is_err() {
        return Err(no_memory());
    }
    table.put_batch(bare.places(), parts)
}

impl<S: Store + Drop> DurableLedger<S> {
    ghost use Rattle.std.specs.Prelude.{List, None, Ok, true, [], length};
    ghost use Rattle.tb_core.specs.declared.parcel.Parcel.TheVariants as parcel;
    ghost use Rattle.tb_core.specs.claim.BareLedger.{with_journal};
    ghost use Rattle.tb_core.specs.claim.Journal.{LedgerState};
    ghost use Rattle.tb_durable.specs.claim.Durable.{IsJournal, IsStored, LeavesNothingNew, groups_of, opened_rows};
    ghost use Rattle.tb_durable.specs.clauses.Parcels.{AppliesInFile};
    ghost use Rattle.tb_durable.specs.clauses.Runs.{ShowsJournal};
    ghost use Rattle.tb_durable.specs.clauses.Entries.{BeginsWithSettings, CanBeOpened, HasEntries, IsFailure, IsInFile, IsLedgerFile, LeavesSettings};
    ghost use Rattle.tb_durable.specs.clauses.Faults.{IsCause, TellsStore};
    ghost use Rattle.tb_durable.specs.inside.Storing.{Finishes};
    ghost use Rattle.tb_durable.specs.declared.counts.PacketCounts.{PacketCounts as Counts};
    ghost use Rattle.tb_durable.specs.claim.Recovery.{RecoversFromCrashes};

    /// Returns whether the table of a store has a row. If it has none, `over` begins a new ledger. Reads at most one row, and writes
    /// nothing. The store comes with the result.
    ///
    /// # Errors
    ///
    /// `Store` or `NoMemory`, if the row can't be read.
    pub fn has_rows(alloc: Global, store: S) -> (Result<bool, OpenFault>, S)
        ensures some { result.0 ≡ Ok true → IsClean (S.Store.view result.1) → 0 < length ((S.Store.view result.1).committed 0) }
        ensures none { result.0 ≡ Ok false → IsClean (S.Store.view result.1) → (S.Store.view result.1).committed 0 ≡ [] }
        ensures same { OnOk result.0 (IsClean (S.Store.view result.1)
            → (S.Store.view result.1).committed ≡ (S.Store.view store).committed) }
        ensures failure { IfErr result.0 IsFailure }
        ensures crash { LeavesNothingNew (S.Store.recovers store) (S.Store.recovers result.1) }
    {
        let mut table = Table {
            store,
            row: Row::new(alloc),
            alloc,
        };
        let read = read_first(&mut table);
        (read, table.into_store())
    }

    /// Opens the ledger of a store. If its table is empty, the ledger is new, and the given settings are stored. Otherwise
    /// the ledger has the settings that are stored, and all rows are applied. It costs as much as applying them did.
    ///
    /// # Errors
    ///
    /// Each row must be an entry at the next place (`OutOfPlace`, `BadEntry`), and the first must have settings
    /// (`BadSettings`, `OtherVersion`). If the store or memory fails, so does opening. The store comes with the error.
    pub fn over(
        alloc: Global,
        store: S,
        settings: Settings,
        seed: Seed,
    ) -> Result<DurableLedger<S>, (OpenFault, S)>
        requires { settings.clock ≤ clock_max }
        ensures stored { IfOk result (λ ledger. IsStored (S.Store.view ledger.table.store) ledger.bare) }
        ensures rows { IfOk result (λ ledger. IsClean (S.Store.view ledger.table.store)
            → (S.Store.view ledger.table.store).committed 0 ≡ opened_rows settings ((S.Store.view store).committed 0)) }
        ensures kept { IfOk result (λ ledger. (now : LedgerState) × IsInFile S.Store.view S.Store.recovers ledger now) }
        ensures goes_on { IfOk result (λ ledger. (ledger.bare.stopped ≡ false) × (ledger.in_doubt ≡ false) × (ledger.fault ≡ None)) }
        ensures settings { IfOk result (λ ledger. IsClean (S.Store.view ledger.table.store)
            → BeginsWithSettings ((S.Store.view ledger.table.store).committed 0) ledger.settings) }
        ensures fault { IfErr result (λ refused. IsClean (S.Store.view refused.1)
            → IsCause (opened_rows settings ((S.Store.view store).committed 0)) refused.0) }
        ensures told { IfErr result (λ refused. TellsStore (S.Store.blamed refused.1) refused.0) }
        ensures opens { (counts : Counts) → IsLedgerFile ((S.Store.view store).committed 0) counts
            → IfErr result (λ refused. IsClean (S.Store.view refused.1) → IsFailure refused.0)
            × IfOk result (λ ledger. IsClean (S.Store.view ledger.table.store) → ledger.counts ≡ counts) }
        ensures entries { IfOk result (λ ledger. HasEntries (S.Store.view ledger.table.store) ledger.bare ledger.counts) }
        ensures crash { IfOk result (λ ledger. LeavesSettings (S.Store.recovers store) (S.Store.recovers ledger.table.store)
            ((S.Store.view store).committed 0) settings)
            × IfErr result (λ refused. LeavesSettings (S.Store.recovers store) (S.Store.recovers refused.1)
            ((S.Store.view store).committed 0) settings) }
        ensures openable { CanBeOpened (S.Store.recovers store)
            → IfOk result (λ ledger. CanBeOpened (S.Store.recovers ledger.table.store))
            × IfErr result (λ refused. CanBeOpened (S.Store.recovers refused.1)) }
    {
        let mut table = Table {
            store,
            row: Row::new(alloc),
            alloc,
        };
        let read = read_ledger(&mut table, settings, seed);
        match read {
            Ok(read) => {
                let counts = read.replaying.counts;
                Ok(DurableLedger {
                    table,
                    settings: read.settings,
                    counts,
                    bare: read.replaying.into_ledger(),
                    in_doubt: false,
                    fault: None,
                })
            }
            Err(fault) => Err((fault, table.into_store())),
        }
    }

    /// Returns the settings that the ledger was opened with at first.
    pub fn settings(&self) -> Settings
        ensures { result ≡ self.now.settings }
    {
        self.settings
    }

    /// Returns how many packets of each submitter are stored, of all runs. A submitter with a fixed list of packets continues after as many.
    /// After a stop with `in_doubt` the last batch may be stored and isn't counted: open the file again first.
    pub fn packets(&self) -> [u64; SUBMITTERS_LENGTH]
        ensures { result ≡ self.now.counts.packets }
    {
        self.counts.packets
    }

    /// Returns the number of each submitter's next packet if the last run is continued. A new run, as of a pipeline, numbers them from 0.
    pub fn numbers(&self) -> [u64; SUBMITTERS_LENGTH]
        ensures { result ≡ self.now.counts.numbers }
    {
        self.counts.numbers
    }

    /// Returns whether it has stopped: it commits nothing more.
    pub fn stopped(&self) -> bool
        ensures { result ≡ self.now.bare.stopped }
    {
        self.bare.stopped()
    }

    /// Returns whether the batch or pulse at which it stopped may be stored though its replies say Stopped. Then the next
    /// opening tells: if its row is there, it is committed.
    pub fn in_doubt(&self) -> bool
        ensures { result ≡ self.now.in_doubt }
    {
        self.in_doubt
    }

    /// Returns which error of the store stopped it, or `OutOfMemory` if memory ran out. None if it hasn't stopped, or stopped at a packet
    /// out of turn, or as its places were used up.
    pub fn fault(&self) -> Option<StoreError>
        ensures { result ≡ self.now.fault }
    {
        self.fault
    }

    /// Returns how many packets and pulses were committed.
    pub fn places(&self) -> u64
        ensures { result ≡ self.now.bare.places }
    {
        self.bare.places()
    }

    /// Returns the machine, in the state that what was committed gives.
    pub fn machine(&self) -> &Machine
        ensures { result.now ≡ self.now.bare.state }
    {
        self.bare.machine()
    }

    /// Reserves capacity for accounts and transfers that are still to be made.
    pub fn reserve(&mut self, accounts: usize, transfers: usize) -> Result<(), NoMemory>
        ensures bare { self.new.bare ≡ self.old.bare }
        ensures table { self.new.table ≡ self.old.table }
        ensures others { (self.new.counts ≡ self.old.counts) × (self.new.settings ≡ self.old.settings) }
        ensures in_doubt { (self.new.in_doubt ≡ self.old.in_doubt) × (self.new.fault ≡ self.old.fault) }
    {
        self.bare.reserve(accounts, transfers)
    }

    /// Returns the store, with all that was committed.
    pub fn into_store(self) -> S
        ensures { result ≡ self.table.store }
    {
        let DurableLedger {
            table,
            bare,
            settings: _,
            counts: _,
            in_doubt: _,
            fault: _,
        } = self;
        drop(bare);
        table.into_store()
    }

    /// Applies a parcel if its row is stored, and stops at it otherwise. If memory runs out after that, the ledger is in doubt.
    fn finish(
        &mut self,
        stored: Result<(), NotStored>,
        counts: PacketCounts,
        parcel: Parcel,
    ) -> Outcomes
        ensures table { self.new.table ≡ self.old.table }
        ensures finishes { Finishes stored counts self.old parcel result self.new }
    {
        if let Err(refused) = stored {
            self.in_doubt = refused.in_doubt;
            self.fault = Some(refused.error);
            return self.bare.apply_as_refused(parcel);
        }
        let outcomes = self.bare.apply(parcel);
        self.in_doubt = self.bare.stopped();
        if self.in_doubt {
            self.fault = Some(StoreError::OutOfMemory);
        } else {
            self.counts = counts;
        }
        outcomes
    }

    /// Stores a batch and applies it.
    fn apply_batch(&mut self, batch: Batch) -> Outcomes
        ensures { AppliesInFile S.Store.view S.Store.recovers S.Store.blamed self.old (parcel.Batch batch) result self.new }
    {
        if self.bare.halts_at(batch.jobs().len()) {
            return self.bare.apply_as_refused(Parcel::Batch(batch));
        }
        let parts = batch.into_parts();
        let mut counts = self.counts;
        let Some(()) = counts.count_all(&parts.stubs) else {
            return self
                .bare
                .apply_as_refused(Parcel::Batch(Batch::whole(parts)));
        };
        let stored = store_batch(&mut self.table, &mut self.bare, &parts);
        self.finish(stored, counts, Parcel::Batch(Batch::whole(parts)))
    }

    /// Stores a pulse and applies it.
    fn apply_pulse(&mut self, moment: Moment) -> Outcomes
        ensures { AppliesInFile S.Store.view S.Store.recovers S.Store.blamed self.old (parcel.Pulse moment) result self.new }
    {
        if self.bare.halts_at(1) {
            return self.bare.apply_as_refused(Parcel::Pulse(moment));
        }
        let counts = self.counts;
        let stored = self.table.put_pulse(self.bare.places(), moment);
        self.finish(stored, counts, Parcel::Pulse(moment))
    }

    /// Applies one parcel, as `BareLedger::apply` does, after the row that it adds is stored. If that fails, the ledger stops,
    /// and each packet of a batch gets the outcome Stopped: it isn't committed, unless the ledger is `in_doubt`. A batch costs
    /// one transaction: its row is written to the log, and one sync waits for the disk.
    ///
    /// Each packet must have its submitter's next number (`numbers`), or 0, with which a run begins: no file that has another
    /// can be opened again. Whether a run begins with a packet 0 isn't asked. A batch with another number stops the ledger, as
    /// does one past the last place: nothing is written, and `fault` has nothing to say.
    pub fn apply(&mut self, parcel: Parcel) -> Outcomes
        ensures { AppliesInFile S.Store.view S.Store.recovers S.Store.blamed self.old parcel result self.new }
    {
        match parcel {
            Parcel::Batch(batch) => self.apply_batch(batch),
            Parcel::Pulse(moment) => self.apply_pulse(moment),
            Parcel::Return(job, cause) => self.bare.apply_as_refused(Parcel::Return(job, cause)),
            Parcel::Last => self.bare.apply_as_refused(Parcel::Last),
        }
    }

    /// Establishes what a crash leaves between two calls, unless the ledger stopped: the journal of what it committed, and
    /// nothing else.
    pub fn is_on_disk(&self)
        ensures journal { IsStored (S.Store.view self.now.table.store) self.now.bare
            → IsClean (S.Store.view self.now.table.store) → self.now.bare.stopped ≡ false
            → (db : Trees) → S.Store.recovers self.now.table.store db → IsJournal (db 0) self.now.bare }
        ensures rows { IsStored (S.Store.view self.now.table.store) self.now.bare
            → IsClean (S.Store.view self.now.table.store) → self.now.bare.stopped ≡ false
            → (db : Trees) → S.Store.recovers self.now.table.store db
            → db 0 ≡ (S.Store.view self.now.table.store).committed 0 }
    {}

    /// Establishes which ledger a pipeline begins with over this one, unless it stopped: the one whose journal is in the rows. So what
    /// `drive_over` says of each ledger that it may be, it says of that one.
    pub fn shows_rows(&self)
        ensures shows { IsStored (S.Store.view self.now.table.store) self.now.bare
            → IsClean (S.Store.view self.now.table.store) → self.now.bare.stopped ≡ false
            → ShowsJournal (S.Store.view self.now.table.store) self.now.bare (with_journal self.now.bare
            (groups_of ((S.Store.view self.now.table.store).committed 0))) }
        ensures file { IsStored (S.Store.view self.now.table.store) self.now.bare
            → HasEntries (S.Store.view self.now.table.store) self.now.bare self.now.counts
            → IsClean (S.Store.view self.now.table.store) → self.now.bare.stopped ≡ false
            → IsInFile S.Store.view S.Store.recovers self.now (with_journal self.now.bare
            (groups_of ((S.Store.view self.now.table.store).committed 0))) }
    {}

    /// Establishes that on whatever a crash leaves, opening finds a prefix of what was committed and being stored, with all
    /// that was committed, and its replay. What a crash leaves is said by `is_on_disk` and by `apply` (`crash`), and that
    /// opening finds a journal by `over` (`stored`).
    pub fn recovers(&self)
        ensures { RecoversFromCrashes (S.Store.recovers self.now.table.store) }
    {}

    /// Establishes that what a crash leaves between two calls, unless the ledger stopped, can be opened: it is a ledger's file, so opening
    /// it fails only if memory or the disk does (`over`, `opens`). `apply` keeps that at each outcome (`openable`).
    pub fn can_be_opened(&self)
        ensures { IsStored (S.Store.view self.now.table.store) self.now.bare
            → HasEntries (S.Store.view self.now.table.store) self.now.bare self.now.counts
            → IsClean (S.Store.view self.now.table.store) → self.now.bare.stopped ≡ false
            → CanBeOpened (S.Store.recovers self.now.table.store) }
    {}
}

impl<S: Store + Drop> AnyLedger for DurableLedger<S> {
    ghost use Rattle.tb_durable.specs.clauses.Entries.{IsInFile};

    ghost is = { IsInFile S.Store.view S.Store.recovers };

    fn stopped(&self) -> bool {
        AnyLedger::stopped(&self.bare)
    }

    fn apply(&mut self, parcel: Parcel) -> Outcomes {
        DurableLedger::apply(self, parcel)
    }

    fn waits(&self) -> bool {
        true
    }
}
