//! A store at a path.

ghost use Rattle.std.specs.Prelude.{◌≡◌, ◌⊎◌, ◌≤◌, [], ℕ, List, codes, true, false, map, take, IsTrue, IfOk, IfErr, OnOk, ◌∷◌};
ghost use Rattle.sqlite_std_file.specs.File.{file_is_usable, IsFresh};
ghost use Rattle.sqlite_store.specs.FileStore as file;
ghost use Rattle.sqlite_trees.specs.View.{IsClean, doubt};
ghost use Rattle.sqlite_trees.specs.Objects.{catalog_tree, description};
ghost use Rattle.sqlite_trees.specs.declared.store.Shape.TheVariants.{Table as TableShape};
ghost use Rattle.sqlite.specs.State.{HasCleanDisk};
ghost use Rattle.sqlite.specs.Start.{FindsIn};
ghost use Rattle.sqlite.specs.Files.{file_state, IsBlankAs, IsOpened};
ghost use Rattle.tb_durable.specs.claim.Durable.{LeavesNothingNew};
ghost use Rattle.tb_durable.specs.clauses.Opened.{IsLedger, IsOpenedOn, IsPrepared, IsRefusal, MakesTable, table_description, is_of_file, is_of_opening, is_of_table, objects_in};
ghost use Rattle.tb_durable.specs.declared.fault.OpenFault.TheVariants.{NoMemory as NoMemoryFault};

use crate::fault::OpenFault;
use crate::log::refuse_lone_log;
use crate::table::ENTRIES;
use sqlite::{Connection, Error, ErrorCode, File, FileFrom, FileStore, Options, Start, Unknown};
use sqlite_std_file::OpenError;
use sqlite_trees::error::StoreError;
use sqlite_trees::schema::Object;
use sqlite_trees::store::{Alter, Shape, Store};
use sqlite_value::row::Row;
use sqlite_value::value::ValueRef;
use std::alloc::Global;
use std::hash::{BuildHasher, RandomState};

/// The table of the ledger, in a file and its log.
pub type LedgerFile = FileStore<File>;

const CREATE_TABLE: &str =
    "CREATE TABLE entry (place INTEGER PRIMARY KEY, operation INTEGER NOT NULL, moment INTEGER NOT NULL, stubs BLOB NOT NULL, body BLOB NOT NULL) STRICT";

/// The log has this number of pages of 4 KiB, at most 400 MB, before it is copied into the file, which takes more syncs.
const LOG_PAGES: usize = 100_000;

const CANNOT_OPEN: OpenFault = OpenFault::File(Error::SqliteFailure(ErrorCode::CannotOpen));

const IS_OPEN: OpenFault = OpenFault::File(Error::SqliteFailure(ErrorCode::DatabaseBusy));

/// Returns whether the database has a ledger's table, and nothing else.
fn is_ledger(objects: &[Row]) -> bool
    ensures ledger { result ≡ true → IsLedger objects.now }
    ensures refused { result ≡ false → ¬ IsLedger objects.now }
{
    let [table] = objects else {
        return false;
    };
    match table.get(4) {
        ValueRef::Text(text) => text == CREATE_TABLE.as_bytes(),
        _ => false,
    }
}

/// Returns the ledger's table, the only object of a store that a ledger is opened on.
pub fn entry_table() -> Object<'static>
    ensures shape { result.shape ≡ TableShape }
    ensures text { description result ≡ table_description }
{
    Object {
        shape: Shape::Table,
        kind: "table",
        name: "entry",
        table: "entry",
        reals: 0,
        sql: Some(CREATE_TABLE),
    }
}

/// Makes the table in an empty database.
fn make_table<S: Alter>(store: &mut S) -> Result<(), StoreError>
    requires numbered { IsClean (S.Store.view store.old) → IsTrue (S.Store.view store.old).is_numbered }
    requires empty { IsClean (S.Store.view store.old) → (S.Store.view store.old).trees catalog_tree ≡ [] }
    ensures made { OnOk result (IsClean (S.Store.view store.new) → MakesTable (S.Store.view store.old) (S.Store.view store.new)) }
    ensures clean { doubt (S.Store.view store.old).is_clean ≤ doubt (S.Store.view store.new).is_clean }
{
    if store.shape(ENTRIES) != Shape::Absent {
        return Err(StoreError::Broken);
    }
    store.create(ENTRIES, &entry_table())?;
    store.commit()
}

/// Returns how the log is written.
fn log_options(rt: &HostRuntime) -> Result<Options, OpenFault>
    ensures options { IfOk result (λ options. options.checkpoint_frames ≡ 100000) }
    ensures fault { IfErr result (λ fault. IsTrue (is_of_file fault)) }
{
    let Ok(state) = RandomState::new(rt) else {
        return Err(CANNOT_OPEN);
    };
    Ok(Options {
        checkpoint_frames: LOG_PAGES,
        ..Options::new(state.hash_one(&0u8))
    })
}

/// Opens and locks the file at a path and its log.
fn connect<S: Start>(
    rt: &HostRuntime,
    path: &str,
    start: S,
) -> Result<Connection<FileStore<FileFrom<S>>>, OpenFault>
    ensures opened { IfOk result (λ conn. HasCleanDisk (file_state conn) → IsOpened conn) }
    ensures found { IfOk result (λ conn. HasCleanDisk (file_state conn) → FindsIn (record { log = S.Start.log; db = S.Start.db }) (file_state conn)) }
    ensures sums { IfOk result (λ conn. HasCleanDisk (file_state conn)
        → IsBlankAs true (record { log = S.Start.log; db = S.Start.db }) → (file.view conn.store).has_sums ≡ true) }
    ensures fault { IfErr result (λ fault. IsTrue (is_of_file fault)) }
{
    let options = log_options(rt)?;
    if path == ":memory:" || path.starts_with("file:") {
        return Err(CANNOT_OPEN);
    }
    let files = match sqlite_std_file::open(rt, path, start) {
        Ok(files) => files,
        Err(OpenError::OutOfMemory) => return Err(OpenFault::NoMemory),
        Err(OpenError::Busy) => return Err(IS_OPEN),
        Err(_) => return Err(CANNOT_OPEN),
    };
    match Connection::open_files_with(rt.alloc(), files, options, true) {
        Ok(conn) => Ok(conn),
        Err((error, left)) => {
            drop(left);
            Err(OpenFault::File(error))
        }
    }
}

/// Opens the ledger's file at a path, or makes it. While it is open, it is locked. Each page of a new file ends in a sum of
/// its bytes, as SQLite's extension cksumvfs has it, and opening tests the sums.
///
/// The store has the trees of some file and its log. `open_file_from` says of which.
///
/// # Errors
///
/// `File` if the path can't be opened, another process has the file open, or it is no sound database. `LogWithoutFile` if only the
/// log has pages. `NotALedger` if the database has another table. `Store` if the table can't be made.
pub fn open_file(rt: &HostRuntime, path: &str) -> Result<LedgerFile, OpenFault>
    ensures opened { IfOk result (λ store. IsTrue (file.view store).is_open
        → (log : List ℕ) × (db : List ℕ) × IsOpenedOn log db (file.view store)) }
    ensures fault { IfErr result (λ fault. IsTrue (is_of_opening fault)) }
{
    open_file_from(rt, path, Unknown)
}

/// Opens as `open_file` does. `S` stands for what the file and its log hold: the trees of the store are those that they
/// hold, or they hold no table and the ledger's has no rows.
pub fn open_file_from<S: Start>(
    rt: &HostRuntime,
    path: &str,
    start: S,
) -> Result<FileStore<FileFrom<S>>, OpenFault>
    ensures opened { IfOk result (λ store. IsTrue (file.view store).is_open → IsOpenedOn S.Start.log S.Start.db (file.view store)) }
    ensures fault { IfErr result (λ fault. IsTrue (is_of_opening fault)) }
{
    refuse_lone_log(rt, path)?;
    let conn = connect(rt, path, start)?;
    store_of(rt.alloc(), conn)
}

/// Copies the log of a ledger's file into the file, so that the file has all that was committed and may be copied or moved without the
/// log. The ledger does so by itself only when the log is long, and dropping it doesn't. It costs a write and a sync of each page that was
/// changed since the last copy.
///
/// # Errors
///
/// The error of the store. What was committed stays in the file and its log.
pub fn copy_log<S: Start>(store: &mut FileStore<FileFrom<S>>) -> Result<(), StoreError>
    ensures same { IsTrue (file.view store.new).is_open → file.view store.new ≡ file.view store.old }
    ensures open { OnOk result (IsClean (file.view store.new) → IsTrue (file.view store.new).is_open) }
    ensures crash { LeavesNothingNew (file.recovers store.old) (file.recovers store.new) }
    ensures clean { doubt (file.view store.old).is_clean ≤ doubt (file.view store.new).is_clean }
{
    store.checkpoint()
}

/// Returns the store, with the table of a ledger.
fn store_of<S: Alter + Drop>(alloc: Global, conn: Connection<S>) -> Result<S, OpenFault>
    ensures prepared { IfOk result (λ store. IsTrue (S.Store.view store).is_open → IsPrepared (S.Store.view conn.store) (S.Store.view store)) }
    ensures fault { IfErr result (λ fault. IsTrue (is_of_table fault)) }
{
    let mut store = conn.into_store();
    match prepare(alloc, &mut store) {
        Ok(()) => Ok(store),
        Err(fault) => {
            drop(store);
            Err(fault)
        }
    }
}

/// Returns the rows of the catalog, one for each table, index or view.
fn objects_of<S: Alter>(alloc: Global, store: &S) -> Result<Vec<Row>, OpenFault>
    ensures objects { IfOk result (λ rows. IsClean (S.Store.view store.now) → rows.items ≡ map (take 5) ((S.Store.view store.now).trees catalog_tree)) }
    ensures fault { IfErr result (λ fault. fault ≡ NoMemoryFault) }
{
    match store.objects(alloc) {
        Ok(objects) => Ok(objects),
        Err(_) => Err(OpenFault::NoMemory),
    }
}

/// Makes the table if the database is empty. Otherwise it must be a ledger's.
fn prepare<S: Alter>(alloc: Global, store: &mut S) -> Result<(), OpenFault>
    requires { IsClean (S.Store.view store.old) → IsTrue (S.Store.view store.old).is_numbered }
    ensures kept { OnOk result (IsClean (S.Store.view store.new)
        → ((S.Store.view store.new ≡ S.Store.view store.old) × IsLedger (objects_in (S.Store.view store.old).trees))
        ⊎ (((S.Store.view store.old).trees catalog_tree ≡ []) × MakesTable (S.Store.view store.old) (S.Store.view store.new))) }
    ensures fault { IfErr result (λ fault. IsTrue (is_of_table fault)) }
    ensures refused { IsClean (S.Store.view store.old) → IfErr result (IsRefusal (S.Store.view store.old).trees) }
    ensures clean { doubt (S.Store.view store.old).is_clean ≤ doubt (S.Store.view store.new).is_clean }
{
    let objects = objects_of(alloc, store)?;
    if objects.is_empty() {
        make_table(store)?;
        return Ok(());
    }
    if is_ledger(objects.as_slice()) {
        Ok(())
    } else {
        Err(OpenFault::NotALedger)
    }
}
