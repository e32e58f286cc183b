//! Events from their lines.

ghost use Rattle.std.specs.Prelude.{◌≡◌, ◌≤◌, ◌<◌, ◌+◌, ◌⊎◌, Some, All, length, map, IfOk};
ghost use Rattle.std.specs.Int.{to_le_bytes, w128};
ghost use Rattle.tb_program_text.specs.clauses.Text.{words_of, first_line, after_first_line, first_word};
ghost use Rattle.tb_program_text.specs.clauses.Steps.{Gives, Makes};
ghost use Rattle.tb_program_text.specs.clauses.Number.{number_of};
ghost use Rattle.tb_program_text.specs.clauses.Event.{named, field_and_number, greatest, new_field, with_number, put, after_word, after_words, blank, hex_bytes};
ghost use Rattle.tb_program_text.specs.inside.Fields.{Lies, IsBare, AreRowsOf, NamesField};
ghost use Rattle.tb_program_text.specs.inside.FirstWord.{IsAfterFirstWord};

use crate::fault::{Fault, LineError};
use crate::number::{in_bounds, leading_number, long_first};
use crate::text::{is_at_line_end, strip_word, trim_spaces};
use hex::FromHexError;
use std::alloc::Global;
use tb_layout::U64_VALUES;

/// What an event asks for, and so what its fields are.
#[derive(Clone, Copy)]
pub(crate) enum Layout {
    Account,
    Transfer,
}

/// A field: its index among the fields, and its bytes in the event.
#[derive(Clone, Copy)]
pub(crate) struct Field {
    pub(crate) index: usize,
    pub(crate) offset: usize,
    pub(crate) size: usize,
}

/// An event so far: its bytes, and which of its fields were given.
#[derive(Clone, Copy)]
pub(crate) struct Draft {
    pub(crate) bytes: [u8; 128],
    pub(crate) given: [bool; 13],
}

impl Draft {
    /// Returns an event, none of whose fields was given.
    pub(crate) fn new() -> Draft
        ensures { result ≡ blank }
    {
        Draft {
            bytes: [0; 128],
            given: [false; 13],
        }
    }
}

/// A field at an index among the fields and at an offset, with a size in bytes.
macro_rules! lying_at {
    ($index:expr, $offset:expr, $size:expr) => {
        Field {
            index: $index,
            offset: $offset,
            size: $size,
        }
    };
}

/// An account's fields under their names, in the order in which lines mostly give them.
const ACCOUNT_FIELDS: [(&[u8], Field); 13] = [
    (b"id", lying_at!(0, 0, 16)),
    (b"ledger", lying_at!(9, 112, 4)),
    (b"code", lying_at!(10, 116, 2)),
    (b"flags", lying_at!(11, 118, 2)),
    (b"user_data_128", lying_at!(5, 80, 16)),
    (b"user_data_64", lying_at!(6, 96, 8)),
    (b"user_data_32", lying_at!(7, 104, 4)),
    (b"reserved", lying_at!(8, 108, 4)),
    (b"debits_pending", lying_at!(1, 16, 16)),
    (b"debits_posted", lying_at!(2, 32, 16)),
    (b"credits_pending", lying_at!(3, 48, 16)),
    (b"credits_posted", lying_at!(4, 64, 16)),
    (b"timestamp", lying_at!(12, 120, 8)),
];

/// A transfer's fields, likewise.
const TRANSFER_FIELDS: [(&[u8], Field); 13] = [
    (b"id", lying_at!(0, 0, 16)),
    (b"debit_account_id", lying_at!(1, 16, 16)),
    (b"credit_account_id", lying_at!(2, 32, 16)),
    (b"amount", lying_at!(3, 48, 16)),
    (b"pending_id", lying_at!(4, 64, 16)),
    (b"timeout", lying_at!(8, 108, 4)),
    (b"ledger", lying_at!(9, 112, 4)),
    (b"code", lying_at!(10, 116, 2)),
    (b"flags", lying_at!(11, 118, 2)),
    (b"user_data_128", lying_at!(5, 80, 16)),
    (b"user_data_64", lying_at!(6, 96, 8)),
    (b"user_data_32", lying_at!(7, 104, 4)),
    (b"timestamp", lying_at!(12, 120, 8)),
];

/// The field that the first word of a text names, the number of rows of the table after its own, and the text from its
/// number on.
#[derive(Clone, Copy)]
struct NamedField<'a> {
    field: Field,
    rows_after: usize,
    from_number: &'a [u8],
}

/// Returns the field of some rows that the first word of a text names. The end of the word isn't looked for: the name
/// is compared with those of the rows in place.
#[inline(always)]
fn named<'a>(mut rows: &[(&[u8], Field)], text: &'a [u8]) -> Result<NamedField<'a>, Fault>
    requires { All (λ row. IsBare row.0.now) rows.now }
    ensures { NamesField text.now (length rows.entry.now)
        (named (first_word (first_line text.now)) (map (λ row. (row.0.now, row.1)) rows.entry.now)) result }
{
    while let [(name, field), others @ ..] = rows {
        if let Some(from_number) = strip_word(text, name, b'=') {
            return Ok(NamedField {
                field: *field,
                rows_after: others.len(),
                from_number,
            });
        }
        rows = others;
    }
    Err(Fault::BadField)
}

/// Returns the field that the first word of a text names.
#[tactic(auto, unfolding(crate::specs::clauses::Event::field_and_number))]
fn field_and_number(layout: Layout, text: &[u8]) -> Result<NamedField, Fault>
    ensures { NamesField text.now 13 (field_and_number layout (first_word (first_line text.now))) result }
{
    match layout {
        Layout::Account => named(&ACCOUNT_FIELDS, text),
        Layout::Transfer => named(&TRANSFER_FIELDS, text),
    }
}

/// Returns the field that the first word of a text names, looked for among some rows of the table first: the fields of
/// an event mostly come in the table's order.
#[inline(always)]
#[tactic(auto, using(crate::proofs::Named::named_among))]
fn field_among<'a>(
    layout: Layout,
    rows: &[(&[u8], Field)],
    text: &'a [u8],
) -> Result<NamedField<'a>, Fault>
    requires rows { AreRowsOf layout rows.now }
    requires few { length rows.now ≤ 13 }
    ensures { NamesField text.now 13 (field_and_number layout (first_word (first_line text.now))) result }
{
    if let Ok(first) = named(rows, text) {
        return Ok(first);
    }
    field_and_number(layout, text)
}

/// Returns the greatest number of this many bytes.
fn greatest(size: usize) -> u128
    requires { (size ≡ 2) ⊎ ((size ≡ 4) ⊎ ((size ≡ 8) ⊎ (size ≡ 16))) }
    ensures { result ≡ greatest size }
{
    if size == 2 {
        0xffff
    } else if size == 4 {
        0xffff_ffff
    } else if size == 8 {
        0xffff_ffff_ffff_ffff
    } else {
        u128::MAX
    }
}

/// Returns the field, if it wasn't given before.
fn new_field(draft: &Draft, f: Field) -> Result<Field, Fault>
    requires { Lies f }
    ensures field { result ≡ new_field draft.now f }
    ensures lies { IfOk result Lies }
{
    if draft.given[f.index] {
        Err(Fault::BadField)
    } else {
        Ok(f)
    }
}

/// Returns the bytes of a number, the lowest first. Two halves take fewer instructions than the whole.
#[inline(always)]
#[tactic(auto, using(crate::proofs::Numbers::halves))]
fn bytes_of(n: u128) -> [u8; 16]
    ensures { result ≡ to_le_bytes w128 n }
{
    let mut bytes = [0; 16];
    bytes[..8].copy_from_slice(&((n % U64_VALUES) as u64).to_le_bytes());
    bytes[8..].copy_from_slice(&((n / U64_VALUES) as u64).to_le_bytes());
    bytes
}

/// Puts a number into a field's bytes.
#[inline(always)]
fn write(draft: &mut Draft, f: Field, n: u128)
    requires { Lies f }
    ensures { draft.new ≡ with_number draft.old f n }
{
    let bytes = bytes_of(n);
    let offset = f.offset;
    match f.size {
        2 => draft.bytes[offset..offset + 2].copy_from_slice(&bytes[..2]),
        4 => draft.bytes[offset..offset + 4].copy_from_slice(&bytes[..4]),
        8 => draft.bytes[offset..offset + 8].copy_from_slice(&bytes[..8]),
        _ => draft.bytes[offset..offset + 16].copy_from_slice(&bytes),
    }
    draft.given[f.index] = true;
}

/// Puts a number into a field's bytes, if it is there and fits.
#[inline(always)]
fn put(draft: &mut Draft, f: Field, n: Option<u128>) -> Result<(), Fault>
    requires { Lies f }
    ensures { Makes result draft.new (put draft.old f n) }
{
    let n = in_bounds(n, 0, greatest(f.size))?;
    write(draft, f, n);
    Ok(())
}

/// Puts the number of a text's first word into a field's bytes, and gives what is left of the text after the word.
#[inline(always)]
fn put_first<'a>(draft: &mut Draft, f: Field, text: &'a [u8]) -> Result<&'a [u8], Fault>
    requires { Lies f }
    ensures draft { Makes result draft.new (put draft.old f (number_of (first_word (first_line text.now)))) }
    ensures rest { IfOk result (λ rest. IsAfterFirstWord text.now rest.now) }
{
    if let Some((n, rest)) = leading_number(text) {
        put(draft, f, Some(u128::from(n)))?;
        return Ok(rest);
    }
    let (n, rest) = long_first(text);
    put(draft, f, n)?;
    Ok(rest)
}

/// What follows a word: the number of rows of the table after that of its field, and the rest of the text.
#[derive(Clone, Copy)]
struct Assigned<'a> {
    rows_after: usize,
    rest: &'a [u8],
}

/// Takes the first word of a text, NAME=N. The rows are those that its field is probably among.
#[inline(always)]
#[tactic(auto, using(crate::proofs::Named::lies_of), unfolding(crate::specs::clauses::Event::after_word))]
fn assign<'a>(
    layout: Layout,
    draft: &mut Draft,
    rows: &[(&[u8], Field)],
    text: &'a [u8],
) -> Result<Assigned<'a>, Fault>
    requires rows { AreRowsOf layout rows.now }
    requires few { length rows.now ≤ 13 }
    ensures draft { Makes result draft.new (after_word layout draft.old (first_word (first_line text.now))) }
    ensures rest { IfOk result (λ next. IsAfterFirstWord text.now next.rest.now) }
    ensures rows_after { IfOk result (λ next. next.rows_after ≤ 13) }
{
    let first = field_among(layout, rows, text)?;
    let f = new_field(draft, first.field)?;
    let rest = put_first(draft, f, first.from_number)?;
    Ok(Assigned {
        rows_after: first.rows_after,
        rest,
    })
}

/// Takes all words of a text's first line, each a field with its number, and returns the text from the end of that line
/// on.
#[inline(always)]
#[tactic(auto, unfolding(crate::specs::clauses::Event::after_words))]
fn assign_words<'a>(
    layout: Layout,
    draft: &mut Draft,
    table: &[(&[u8], Field); 13],
    text: &'a [u8],
) -> Result<&'a [u8], Fault>
    requires { AreRowsOf layout table.now }
    ensures draft { Makes result draft.new (after_words layout draft.old (words_of (first_line text.now))) }
    ensures rest { IfOk result (λ rest. rest.now ≡ after_first_line text.now) }
{
    let mut index = 0;
    let mut rest = trim_spaces(text);
    while !is_at_line_end(rest) {
        let next = assign(layout, draft, &table[index..], rest)?;
        index = 13 - next.rows_after;
        rest = trim_spaces(next.rest);
    }
    Ok(rest)
}

/// Takes all words of a text's first line, each a field with its number, and returns the text from the end of that line on.
pub(crate) fn assign_all<'a>(
    layout: Layout,
    draft: &mut Draft,
    text: &'a [u8],
) -> Result<&'a [u8], Fault>
    ensures draft { Makes result draft.new (after_words layout draft.old (words_of (first_line text.now))) }
    ensures rest { IfOk result (λ rest. rest.now ≡ after_first_line text.now) }
{
    match layout {
        Layout::Account => assign_words(layout, draft, &ACCOUNT_FIELDS, text),
        Layout::Transfer => assign_words(layout, draft, &TRANSFER_FIELDS, text),
    }
}

/// Takes words until one has a fault in its field or number, and returns the text from that one on. At most 13 are before it, since no
/// field may be given twice.
fn faulty_word<'a>(layout: Layout, table: &[(&[u8], Field); 13], text: &'a [u8]) -> &'a [u8]
    requires { AreRowsOf layout table.now }
{
    let mut draft = Draft::new();
    let mut rest = trim_spaces(text);
    for _ in 0..13 {
        match assign(layout, &mut draft, table, rest) {
            Ok(next) => rest = trim_spaces(next.rest),
            Err(_) => return rest,
        }
    }
    rest
}

/// Returns the text from the first word on that has a fault in its field or number, if one has.
pub(crate) fn faulty_field(layout: Layout, text: &[u8]) -> &[u8] {
    match layout {
        Layout::Account => faulty_word(layout, &ACCOUNT_FIELDS, text),
        Layout::Transfer => faulty_word(layout, &TRANSFER_FIELDS, text),
    }
}

/// Returns how many bytes the field has that the first word of a text names, if it names one.
pub(crate) fn size_of_first(layout: Layout, text: &[u8]) -> Option<usize> {
    match field_and_number(layout, text) {
        Ok(first) => Some(first.field.size),
        Err(_) => None,
    }
}

/// Returns the bytes that hexadecimal digits give; there must be exactly as many pairs of these.
#[tactic(auto, unfolding(crate::specs::clauses::Event::hex_bytes))]
pub(crate) fn hex_bytes(alloc: Global, word: &[u8]) -> Result<Vec<u8>, LineError>
    ensures { Gives (λ v. v.items) result (hex_bytes word.now) }
{
    hex::decode(alloc, word).map_err(|error| match error {
        FromHexError::OutOfMemory => LineError::NoMemory,
        _ => LineError::Fault(Fault::BadHex),
    })
}
