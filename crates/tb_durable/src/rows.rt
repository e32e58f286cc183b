//! Rows of the table, and the entries that they stand for.
//!
//! | place | operation | moment | stubs | body |
//! |---|---|---|---|---|
//! | -1 | the version of the format | the opening clock | limit and submitters | empty |
//! | of the first packet | 129 to 131 | 0 | 16 bytes a packet | the events |
//! | of the pulse | 0 | its nanoseconds | empty | empty |

ghost use Rattle.std.specs.Prelude.{◌≡◌, ◌≢◌, ◌≤◌, ◌<◌, ◌++◌, map, pos, negsuc, length, ℕ, List, IfOk, OnOk, IfSome, IfNone};
ghost use Rattle.tb_layout.specs.claim.Bytes.{little_endian};
ghost use Rattle.tb_layout.specs.claim.Limits.{clock_max};
ghost use Rattle.tb_layout.specs.claim.Bounds.{moment_max, places_max};
ghost use Rattle.tb_work.specs.claim.Packet.{input_of};
ghost use Rattle.tb_batch.specs.claim.Batch.{AreParts};
ghost use Rattle.sqlite_value.specs.declared.value.Value.TheVariants.{Int as IntValue, Blob as BlobValue};
ghost use Rattle.sqlite_value.specs.Order.{column as column_of};
ghost use Rattle.tb_durable.specs.clauses.Entries.{HasSettings, IsFirstRow};
ghost use Rattle.tb_durable.specs.claim.Rows.{HasColumns, word_of, stub_in, stub_at, stub_bytes, stubs_bytes, stubs_in, row_of, jobs_row, pulse_row, settings_row, clock_in, group_in};

use crate::settings::Settings;
use sqlite_value::row::Row;
use sqlite_value::value::ValueRef;
use std::alloc::Global;
use tb_batch::Parts;
use tb_layout::{NoMemory, U64_VALUES, read_id, write_id};
use tb_work::{Moment, Stub};

/// The version of the format, in the row with the settings.
pub(crate) const FORMAT_VERSION: u64 = 1;

/// The place of that row, before all entries.
pub(crate) const SETTINGS_PLACE: i64 = -1;

/// The operation of a pulse's row.
pub(crate) const PULSE: u64 = 0;

/// The bytes of a stub.
pub(crate) const STUB_SIZE: usize = 16;

const U32_VALUES: u128 = 1 << 32;

/// Returns a stub as a number of 128 bits: its packet's number, its submitter, its count, from the lowest bits on.
fn word_of(stub: Stub) -> u128
    ensures value { result ≡ word_of stub }
    ensures read_back { stub_in result ≡ stub }
{
    u128::from(stub.number)
        + U64_VALUES * (u128::from(stub.submitter) + U32_VALUES * u128::from(stub.count))
}

/// Returns the stub of a number.
fn stub_in(word: u128) -> Stub
    ensures { result ≡ stub_in word }
{
    let high = word / U64_VALUES;
    Stub {
        number: (word % U64_VALUES) as u64,
        submitter: (high % U32_VALUES) as u32,
        count: (high / U32_VALUES) as u32,
    }
}

/// Returns the stub in its bytes.
pub(crate) fn stub_at(chunk: &[u8; STUB_SIZE]) -> Stub
    ensures { result ≡ stub_at chunk.now }
{
    stub_in(read_id(chunk))
}

/// Appends a stub.
fn add_stub(bytes: &mut Vec<u8>, stub: Stub) -> Result<(), NoMemory>
    ensures bytes { OnOk result (bytes.new.items ≡ bytes.old.items ++ stub_bytes stub) }
    ensures length { OnOk result (length (stub_bytes stub) ≡ 16) }
    ensures read_back { OnOk result (stub_in (little_endian (stub_bytes stub)) ≡ stub) }
{
    bytes.extend_from_slice(&write_id(word_of(stub)))?;
    Ok(())
}

/// Returns the bytes of stubs in turn.
fn lay_stubs(alloc: Global, stubs: &[Stub]) -> Result<Vec<u8>, NoMemory>
    ensures bytes { IfOk result (λ bytes. bytes.items ≡ stubs_bytes stubs.now) }
    ensures read_back { IfOk result (λ bytes. stubs_in bytes.items ≡ stubs.now) }
{
    let mut bytes = Vec::with_capacity(alloc, stubs.len().saturating_mul(STUB_SIZE))?;
    for stub in stubs {
        add_stub(&mut bytes, *stub)?;
    }
    Ok(bytes)
}

/// The columns of a row, but for the one that the rowid stands for.
#[derive(Clone, Copy)]
struct Columns<'a> {
    place: i64,
    operation: i64,
    moment: i64,
    stubs: &'a [u8],
    body: &'a [u8],
}

/// Writes a row.
fn fill(row: &mut Row, columns: Columns<'_>) -> Result<(), NoMemory>
    ensures { OnOk result (row.new ≡ row_of columns.entry.place columns.entry.operation
        columns.entry.moment columns.entry.stubs.now columns.entry.body.now) }
{
    row.clear();
    row.push(ValueRef::Int(columns.place))?;
    row.push(ValueRef::Null)?;
    row.push(ValueRef::Int(columns.operation))?;
    row.push(ValueRef::Int(columns.moment))?;
    row.push(ValueRef::Blob(columns.stubs))?;
    row.push(ValueRef::Blob(columns.body))?;
    Ok(())
}

/// Writes the row of a batch.
pub(crate) fn fill_batch(
    alloc: Global,
    row: &mut Row,
    place: u64,
    parts: &Parts,
) -> Result<(), NoMemory>
    requires place { place < places_max }
    requires parts { AreParts parts.now }
    ensures row { OnOk result (row.new ≡ jobs_row place parts.now.jobs.items) }
    ensures read_back { OnOk result (group_in row.new ≡ map input_of parts.now.jobs.items) }
{
    let stubs = lay_stubs(alloc, parts.stubs.as_slice())?;
    fill(
        row,
        Columns {
            place: place as i64,
            operation: i64::from(parts.operation),
            moment: 0,
            stubs: stubs.as_slice(),
            body: parts.body.as_slice(),
        },
    )?;
    Ok(())
}

/// Writes the row of a pulse.
pub(crate) fn fill_pulse(row: &mut Row, place: u64, moment: Moment) -> Result<(), NoMemory>
    requires { place < places_max }
    ensures row { OnOk result (row.new ≡ pulse_row place moment) }
    ensures bound { moment ≤ moment_max }
{
    fill(
        row,
        Columns {
            place: place as i64,
            operation: PULSE as i64,
            moment: moment.get() as i64,
            stubs: &[],
            body: &[],
        },
    )
}

/// Writes the row with the settings.
pub(crate) fn fill_settings(row: &mut Row, settings: Settings) -> Result<(), NoMemory>
    requires { settings.clock ≤ clock_max }
    ensures { OnOk result (row.new ≡ settings_row settings) }
{
    let stub = Stub {
        number: 0,
        submitter: settings.submitters,
        count: settings.limit,
    };
    fill(
        row,
        Columns {
            place: SETTINGS_PLACE,
            operation: FORMAT_VERSION as i64,
            moment: settings.clock as i64,
            stubs: &write_id(word_of(stub)),
            body: &[],
        },
    )
}

/// Returns the whole number in a column; None if there is none.
pub(crate) fn number_in(row: &Row, column: usize) -> Option<u64>
    ensures some { IfSome result (λ number. column_of row.now column ≡ IntValue (pos number)) }
    ensures none { IfNone result ((number : ℕ) → column_of row.now column ≢ IntValue (pos number)) }
{
    match row.get(column) {
        ValueRef::Int(number) => u64::try_from(number).ok(),
        _ => None,
    }
}

/// Returns the bytes in a column; None if it has no blob.
fn blob_in(row: &Row, column: usize) -> Option<&[u8]>
    ensures some { IfSome result (λ bytes. column_of row.now column ≡ BlobValue bytes.now) }
    ensures none { IfNone result ((bytes : List ℕ) → column_of row.now column ≢ BlobValue bytes) }
{
    match row.get(column) {
        ValueRef::Blob(bytes) => Some(bytes),
        _ => None,
    }
}

/// The columns of an entry's row, but for its place.
#[derive(Clone, Copy)]
pub(crate) struct EntryColumns<'a> {
    pub(crate) operation: u64,
    pub(crate) moment: u64,
    pub(crate) stubs: &'a [u8],
    pub(crate) body: &'a [u8],
}

/// Returns the columns of a row; None if one of them has a value that no entry has there.
pub(crate) fn columns_in(row: &Row) -> Option<EntryColumns<'_>>
    ensures some { IfSome result (λ columns. HasColumns row.now columns.operation columns.moment columns.stubs.now columns.body.now) }
    ensures none { IfNone result ((operation moment : ℕ) (stubs body : List ℕ) → HasColumns row.now operation moment stubs body → ⊥) }
{
    Some(EntryColumns {
        operation: number_in(row, 2)?,
        moment: number_in(row, 3)?,
        stubs: blob_in(row, 4)?,
        body: blob_in(row, 5)?,
    })
}

/// Returns the settings in a row of this version of the format; None if the row has none.
pub(crate) fn settings_in(row: &Row) -> Option<Settings>
    ensures some { IfSome result (λ settings. clock_in row.now ≡ settings.clock) }
    ensures has { IfSome result (HasSettings row.now) }
    ensures starts { IfSome result (λ settings. column_of row.now 3 ≡ IntValue (pos settings.clock)) }
    ensures stubs { IfSome result (λ _. (bytes : List ℕ) × (column_of row.now 4 ≡ BlobValue bytes) × (16 ≤ length bytes)) }
    ensures none { IfNone result (IsFirstRow row.now → ⊥) }
{
    let clock = number_in(row, 3)?;
    let (chunks, _) = blob_in(row, 4)?.as_chunks::<STUB_SIZE>();
    let stub = stub_at(chunks.first()?);
    Some(Settings {
        clock,
        limit: stub.count,
        submitters: stub.submitter,
    })
}
