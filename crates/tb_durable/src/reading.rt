//! A ledger read from its table.

ghost use Rattle.std.specs.Prelude.{◌≡◌, ◌⊎◌, ◌≤◌, ◌∷◌, [], true, false, Ok, List, Option, IsSome, IsOk, IfOk, OnOk, IfErr};
ghost use Rattle.tb_layout.specs.claim.Limits.{clock_max};
ghost use Rattle.sqlite_trees.specs.Tree.{Trees};
ghost use Rattle.sqlite_trees.specs.View.{IsClean, doubt};
ghost use Rattle.tb_durable.specs.claim.Rows.{settings_row};
ghost use Rattle.tb_durable.specs.claim.Durable.{HasJournal, IsAdded, IsReading, IsReplaying, IsSettled, IsStored, IsJournal, IsFirst, LeavesNothingNew, opened_rows};
ghost use Rattle.tb_durable.specs.clauses.Entries.{BeginsWithSettings, CanBeOpened, HasReadFile, HasSettings, IsFailure, IsFirstRow, IsHalfway, IsLedgerFile, LeavesSettings};
ghost use Rattle.tb_durable.specs.clauses.Faults.{IsCause, IsFirstFault, TellsStore};
ghost use Rattle.tb_durable.specs.declared.counts.PacketCounts.{PacketCounts as Counts};
ghost use Rattle.sqlite_value.specs.Order.{Row};
ghost use Rattle.sqlite_trees.specs.declared.error.StoreError.{StoreError as Failure};

use crate::counts::PacketCounts;
use crate::fault::OpenFault;
use crate::replaying::Replaying;
use crate::rows::{FORMAT_VERSION, SETTINGS_PLACE, number_in, settings_in};
use crate::settings::Settings;
use crate::table::Table;
use sqlite_trees::store::Store;
use sqlite_value::row::Row;
use sqlite_value::value::ValueRef;
use tb_core::{BareLedger, Seed};
use tb_layout::CLOCK_MAX;

/// Returns the settings in the first row.
fn settings_of(row: &Row) -> Result<Settings, OpenFault>
    ensures clock { IfOk result (λ settings. settings.clock ≤ clock_max) }
    ensures first { IfOk result (λ settings. IsFirst row.now settings.clock) }
    ensures has { IfOk result (HasSettings row.now) }
    ensures fault { IfErr result (IsFirstFault row.now) }
    ensures settings { OnOk result (IsFirstRow row.now) }
    ensures opens { IsFirstRow row.now → IsOk result }
    ensures told { IfErr result (λ fault. (blamed : Option Failure) → TellsStore blamed fault) }
{
    let ValueRef::Int(SETTINGS_PLACE) = row.get(0) else {
        return Err(OpenFault::BadSettings);
    };
    match number_in(row, 2) {
        Some(FORMAT_VERSION) => {}
        Some(version) => return Err(OpenFault::OtherVersion(version)),
        None => return Err(OpenFault::BadSettings),
    }
    match settings_in(row) {
        Some(settings) if settings.clock <= CLOCK_MAX => Ok(settings),
        _ => Err(OpenFault::BadSettings),
    }
}

/// Reads the first row, if there is one.
pub(crate) fn read_first<S: Store>(table: &mut Table<S>) -> Result<bool, OpenFault>
    ensures fault { IfErr result (λ fault. (rows : List Row) → IsCause rows fault) }
    ensures failure { IfErr result IsFailure }
    ensures row { result ≡ Ok true → IsClean (S.Store.view table.new.store)
        → IsReading (S.Store.view table.new.store) (table.new.row ∷ []) }
    ensures none { result ≡ Ok false → IsClean (S.Store.view table.new.store)
        → IsReading (S.Store.view table.new.store) [] × ((S.Store.view table.new.store).committed 0 ≡ []) }
    ensures same { OnOk result (IsClean (S.Store.view table.new.store)
        → (S.Store.view table.new.store).committed ≡ (S.Store.view table.old.store).committed) }
    ensures cursor { OnOk result (IsSome ((S.Store.view table.new.store).cursors 0)) }
    ensures crash { LeavesNothingNew (S.Store.recovers table.old.store) (S.Store.recovers table.new.store) }
    ensures clean { doubt (S.Store.view table.old.store).is_clean ≤ doubt (S.Store.view table.new.store).is_clean }
    ensures told { IfErr result (TellsStore (S.Store.blamed table.new.store)) }
{
    table.rewind()?;
    Ok(table.next()?)
}

/// Writes the first row of an empty table with these settings, and reads it.
fn write_settings<S: Store>(table: &mut Table<S>, settings: Settings) -> Result<(), OpenFault>
    requires { settings.clock ≤ clock_max }
    ensures fault { IfErr result (λ fault. (rows : List Row) → IsCause rows fault) }
    ensures row { OnOk result (IsClean (S.Store.view table.new.store) → IsReading (S.Store.view table.new.store) (table.new.row ∷ [])) }
    ensures rows { OnOk result (IsClean (S.Store.view table.new.store) → IsReading (S.Store.view table.old.store) []
        → (S.Store.view table.old.store).committed 0 ≡ []
        → (S.Store.view table.new.store).committed 0 ≡ settings_row settings ∷ []) }
    ensures opens { IsClean (S.Store.view table.new.store) → IsReading (S.Store.view table.old.store) []
        → (S.Store.view table.old.store).committed 0 ≡ [] → IfErr result IsFailure }
    ensures cursor { OnOk result (IsSome ((S.Store.view table.new.store).cursors 0)) }
    ensures crash { (db : Trees) → S.Store.recovers table.new.store db
        → S.Store.recovers table.old.store db ⊎ IsAdded (S.Store.view table.old.store) (settings_row settings) db }
    ensures clean { doubt (S.Store.view table.old.store).is_clean ≤ doubt (S.Store.view table.new.store).is_clean }
    ensures told { IfErr result (TellsStore (S.Store.blamed table.new.store)) }
{
    if let Err(refused) = table.put_settings(settings) {
        return Err(OpenFault::Store(refused.error));
    }
    if !read_first(table)? {
        return Err(OpenFault::BadSettings);
    }
    Ok(())
}

/// Reads the first row, or writes it with these settings if there is none, and returns the settings in it.
#[tactic(auto, using(crate::proofs::FileLemmas::settings_left))]
fn read_settings<S: Store>(table: &mut Table<S>, settings: Settings) -> Result<Settings, OpenFault>
    requires { settings.clock ≤ clock_max }
    ensures fault { IfErr result (λ fault. IsClean (S.Store.view table.new.store)
        → IsCause (opened_rows settings ((S.Store.view table.old.store).committed 0)) fault) }
    ensures clock { IfOk result (λ settings. settings.clock ≤ clock_max) }
    ensures rows { OnOk result (IsClean (S.Store.view table.new.store) → (S.Store.view table.new.store).committed 0
        ≡ opened_rows settings ((S.Store.view table.old.store).committed 0)) }
    ensures row { OnOk result (IsClean (S.Store.view table.new.store)
        → IsReading (S.Store.view table.new.store) (table.new.row ∷ [])) }
    ensures first { IfOk result (λ read. IsFirst table.new.row read.clock) }
    ensures has { IfOk result (HasSettings table.new.row) }
    ensures settings { OnOk result (IsFirstRow table.new.row) }
    ensures opens { (counts : Counts) → IsLedgerFile ((S.Store.view table.old.store).committed 0) counts
        → IsClean (S.Store.view table.new.store) → IfErr result IsFailure }
    ensures cursor { OnOk result (IsSome ((S.Store.view table.new.store).cursors 0)) }
    ensures crash { LeavesSettings (S.Store.recovers table.old.store) (S.Store.recovers table.new.store)
        ((S.Store.view table.old.store).committed 0) settings }
    ensures clean { doubt (S.Store.view table.old.store).is_clean ≤ doubt (S.Store.view table.new.store).is_clean }
    ensures told { IfErr result (TellsStore (S.Store.blamed table.new.store)) }
{
    if read_first(table)? {
        let stored = settings_of(&table.row)?;
        return Ok(stored);
    }
    write_settings(table, settings)?;
    let stored = settings_of(&table.row)?;
    Ok(stored)
}

/// Applies the next row, if there is one.
fn replay_row<S: Store>(table: &mut Table<S>, replaying: &mut Replaying) -> Result<bool, OpenFault>
    requires { IsSome ((S.Store.view table.old.store).cursors 0) }
    ensures fault { IsClean (S.Store.view table.new.store)
        → IsReplaying (S.Store.view table.old.store) replaying.old.ledger
        → IfErr result (IsCause ((S.Store.view table.old.store).committed 0)) }
    ensures more { result ≡ Ok true → IsClean (S.Store.view table.new.store)
        → IsReplaying (S.Store.view table.old.store) replaying.old.ledger
        → IsReplaying (S.Store.view table.new.store) replaying.new.ledger }
    ensures end { result ≡ Ok false → IsClean (S.Store.view table.new.store)
        → IsReplaying (S.Store.view table.old.store) replaying.old.ledger
        → IsSettled (S.Store.view table.new.store)
        × IsJournal ((S.Store.view table.new.store).committed 0) replaying.new.ledger }
    ensures same { OnOk result (IsClean (S.Store.view table.new.store)
        → (S.Store.view table.new.store).committed ≡ (S.Store.view table.old.store).committed) }
    ensures entry { result ≡ Ok true → IsClean (S.Store.view table.new.store)
        → HasReadFile (S.Store.view table.old.store) replaying.old.ledger replaying.old.counts
        → HasReadFile (S.Store.view table.new.store) replaying.new.ledger replaying.new.counts }
    ensures file { result ≡ Ok false → IsClean (S.Store.view table.new.store)
        → HasReadFile (S.Store.view table.old.store) replaying.old.ledger replaying.old.counts
        → IsLedgerFile ((S.Store.view table.new.store).committed 0) replaying.new.counts }
    ensures opens { (counts : Counts) → IsClean (S.Store.view table.new.store)
        → IsHalfway (S.Store.view table.old.store) replaying.old.ledger replaying.old.counts counts → IfErr result IsFailure }
    ensures onward { (counts : Counts) → result ≡ Ok true → IsClean (S.Store.view table.new.store)
        → IsHalfway (S.Store.view table.old.store) replaying.old.ledger replaying.old.counts counts
        → IsHalfway (S.Store.view table.new.store) replaying.new.ledger replaying.new.counts counts }
    ensures counted { (counts : Counts) → result ≡ Ok false → IsClean (S.Store.view table.new.store)
        → IsHalfway (S.Store.view table.old.store) replaying.old.ledger replaying.old.counts counts
        → replaying.new.counts ≡ counts }
    ensures goes_on { OnOk result (replaying.old.ledger.stopped ≡ false → replaying.new.ledger.stopped ≡ false) }
    ensures committed { OnOk result (HasJournal replaying.old.ledger → HasJournal replaying.new.ledger) }
    ensures cursor { OnOk result (IsSome ((S.Store.view table.new.store).cursors 0)) }
    ensures crash { LeavesNothingNew (S.Store.recovers table.old.store) (S.Store.recovers table.new.store) }
    ensures clean { doubt (S.Store.view table.old.store).is_clean ≤ doubt (S.Store.view table.new.store).is_clean }
    ensures told { IfErr result (TellsStore (S.Store.blamed table.new.store)) }
{
    if !table.next()? {
        return Ok(false);
    }
    replaying.row(&table.row)?;
    Ok(true)
}

/// Applies the rows that are left.
fn replay_rows<S: Store>(table: &mut Table<S>, replaying: &mut Replaying) -> Result<(), OpenFault>
    requires { IsSome ((S.Store.view table.old.store).cursors 0) }
    ensures fault { IsClean (S.Store.view table.new.store)
        → IsReplaying (S.Store.view table.old.store) replaying.old.ledger
        → IfErr result (IsCause ((S.Store.view table.old.store).committed 0)) }
    ensures journal { OnOk result (IsClean (S.Store.view table.new.store)
        → IsReplaying (S.Store.view table.old.store) replaying.old.ledger
        → IsSettled (S.Store.view table.new.store)
        × IsJournal ((S.Store.view table.new.store).committed 0) replaying.new.ledger) }
    ensures file { OnOk result (IsClean (S.Store.view table.new.store)
        → HasReadFile (S.Store.view table.old.store) replaying.old.ledger replaying.old.counts
        → IsLedgerFile ((S.Store.view table.new.store).committed 0) replaying.new.counts) }
    ensures opens { (counts : Counts) → IsClean (S.Store.view table.new.store)
        → IsHalfway (S.Store.view table.old.store) replaying.old.ledger replaying.old.counts counts
        → IfErr result IsFailure × OnOk result (replaying.new.counts ≡ counts) }
    ensures goes_on { OnOk result (replaying.old.ledger.stopped ≡ false → replaying.new.ledger.stopped ≡ false) }
    ensures committed { OnOk result (HasJournal replaying.old.ledger → HasJournal replaying.new.ledger) }
    ensures same { OnOk result (IsClean (S.Store.view table.new.store)
        → (S.Store.view table.new.store).committed ≡ (S.Store.view table.old.store).committed) }
    ensures crash { LeavesNothingNew (S.Store.recovers table.old.store) (S.Store.recovers table.new.store) }
    ensures clean { doubt (S.Store.view table.old.store).is_clean ≤ doubt (S.Store.view table.new.store).is_clean }
    ensures told { IfErr result (TellsStore (S.Store.blamed table.new.store)) }
{
    for _ in 0..u64::MAX {
        if !replay_row(table, replaying)? {
            return Ok(());
        }
    }
    // A table of so many rows fits no memory.
    Err(OpenFault::NoMemory)
}

/// A ledger that was read, and the settings that it was opened with at first.
#[derive(Drop)]
pub(crate) struct Read {
    pub(crate) settings: Settings,
    pub(crate) replaying: Replaying,
}

/// Reads the ledger of a table. If the table is empty, the ledger is new, and these settings are stored.
pub(crate) fn read_ledger<S: Store>(
    table: &mut Table<S>,
    settings: Settings,
    seed: Seed,
) -> Result<Read, OpenFault>
    requires { settings.clock ≤ clock_max }
    ensures fault { IfErr result (λ fault. IsClean (S.Store.view table.new.store)
        → IsCause (opened_rows settings ((S.Store.view table.old.store).committed 0)) fault) }
    ensures stored { IfOk result (λ read. IsStored (S.Store.view table.new.store) read.replaying.ledger) }
    ensures settings { IfOk result (λ read. IsClean (S.Store.view table.new.store)
        → BeginsWithSettings ((S.Store.view table.new.store).committed 0) read.settings) }
    ensures goes_on { IfOk result (λ read. read.replaying.ledger.stopped ≡ false) }
    ensures committed { IfOk result (λ read. HasJournal read.replaying.ledger) }
    ensures file { IfOk result (λ read. IsClean (S.Store.view table.new.store)
        → IsLedgerFile ((S.Store.view table.new.store).committed 0) read.replaying.counts) }
    ensures opens { (counts : Counts) → IsLedgerFile ((S.Store.view table.old.store).committed 0) counts
        → IsClean (S.Store.view table.new.store)
        → IfErr result IsFailure × IfOk result (λ read. read.replaying.counts ≡ counts) }
    ensures rows { OnOk result (IsClean (S.Store.view table.new.store) → (S.Store.view table.new.store).committed 0
        ≡ opened_rows settings ((S.Store.view table.old.store).committed 0)) }
    ensures crash { LeavesSettings (S.Store.recovers table.old.store) (S.Store.recovers table.new.store)
        ((S.Store.view table.old.store).committed 0) settings }
    ensures openable { CanBeOpened (S.Store.recovers table.old.store) → CanBeOpened (S.Store.recovers table.new.store) }
    ensures clean { doubt (S.Store.view table.old.store).is_clean ≤ doubt (S.Store.view table.new.store).is_clean }
    ensures told { IfErr result (TellsStore (S.Store.blamed table.new.store)) }
{
    let alloc = table.alloc;
    let settings = read_settings(table, settings)?;
    let mut replaying = Replaying {
        ledger: BareLedger::with_seed(alloc, settings.clock, seed),
        counts: PacketCounts::new(),
        alloc,
    };
    replay_rows(table, &mut replaying)?;
    Ok(Read {
        settings,
        replaying,
    })
}
