//! The names of codes in an output, and how much of it failed.

ghost use Rattle.std.specs.Prelude.{◌≡◌, ◌++◌, codes, drop, IfOk, OnOk};
ghost use Rattle.tb_program_text.specs.clauses.Text.{words_of};
ghost use Rattle.tb_program_text.specs.clauses.Naming.{code_in, failed_in, first_operation, name_of, named_line, named_text, named_word, named_words, refused_in, uncommitted_in};

use crate::number::number_within;
use crate::text::{first_word, length_before, split_line};
use std::alloc::{AllocError, Global};
use tb_layout::{AccountCode, CREATE_ACCOUNTS, CREATE_TRANSFERS, TransferCode};

/// The name of a number that is no result's.
const UNKNOWN: &str = "unknown";

/// Returns the code of a failure, as `1:22` has it. Returns None for any other word.
#[tactic(auto, unfolding(crate::specs::clauses::Naming::code_in))]
fn code_in(word: &[u8]) -> Option<u32>
    ensures { result ≡ code_in word.now }
{
    let (_, rest) = word.split_at(length_before(word, b':'));
    let digits = match rest {
        [] => rest,
        [_, digits @ ..] => digits,
    };
    match number_within(digits, 0, 4_294_967_295) {
        Ok(code) => Some(code as u32),
        Err(_) => None,
    }
}

/// Returns the name that an operation gives a code.
#[tactic(auto, unfolding(crate::specs::clauses::Naming::name_of))]
fn name_of(operation: u8, code: u32) -> &'static str
    ensures { result.now ≡ name_of operation code }
{
    if operation == CREATE_ACCOUNTS {
        match AccountCode::of_number(code) {
            Some(code) => code.name(),
            None => UNKNOWN,
        }
    } else if operation == CREATE_TRANSFERS {
        match TransferCode::of_number(code) {
            Some(code) => code.name(),
            None => UNKNOWN,
        }
    } else {
        UNKNOWN
    }
}

/// Adds a word, and the name of its code if it is a failure.
fn put_word(out: &mut Vec<u8>, operation: u8, word: &[u8]) -> Result<(), AllocError>
    ensures { OnOk result (out.new.items ≡ out.old.items ++ named_word operation word.now) }
{
    out.extend_from_slice(word)?;
    match code_in(word) {
        Some(code) => {
            out.push(b':')?;
            out.extend_from_slice(name_of(operation, code).as_bytes())
        }
        None => Ok(()),
    }
}

/// Adds the words of the rest of a line, each after a space.
fn put_words(out: &mut Vec<u8>, operation: u8, rest: &[u8]) -> Result<(), AllocError>
    ensures { OnOk result (out.new.items ≡ out.old.items ++ named_words operation (words_of rest.now)) }
{
    let mut rest = rest;
    while let Some(first) = first_word(rest) {
        out.push(b' ')?;
        put_word(out, operation, first.word)?;
        rest = first.rest;
    }
    Ok(())
}

/// Adds the words of a line, divided by single spaces.
fn put_line(out: &mut Vec<u8>, operation: u8, line: &[u8]) -> Result<(), AllocError>
    ensures { OnOk result (out.new.items ≡ out.old.items ++ named_line operation (words_of line.now)) }
{
    match first_word(line) {
        Some(first) => {
            out.extend_from_slice(first.word)?;
            put_words(out, operation, first.rest)
        }
        None => Ok(()),
    }
}

/// Returns the first operation, or 0 if there is none, and those after it.
fn split_operation(operations: &[u8]) -> (u8, &[u8])
    ensures first { result.0 ≡ first_operation operations.now }
    ensures rest { result.1.now ≡ drop 1 operations.now }
{
    match operations {
        [] => (0, operations),
        [operation, rest @ ..] => (*operation, rest),
    }
}

/// Returns the text of an output with a name after the code of each failure, as `1:22:credit_account_not_found`. The operations are
/// those of its first lines, in order, since they give the codes their names.
pub fn named_text(alloc: Global, operations: &[u8], text: &[u8]) -> Result<Vec<u8>, AllocError>
    ensures { IfOk result (λ named. named.items ≡ named_text operations.now text.now) }
{
    let mut out = Vec::with_capacity(alloc, text.len())?;
    let mut operations = operations;
    let mut rest = text;
    while !rest.is_empty() {
        let (line, others) = split_line(rest);
        let (operation, later) = split_operation(operations);
        put_line(&mut out, operation, line)?;
        out.push(b'\n')?;
        rest = others;
        operations = later;
    }
    Ok(out)
}

/// How much of a script failed, by its output.
#[derive(Clone, Copy)]
pub struct Tally {
    /// The packets and pulses that were refused.
    pub refused: usize,
    /// The events that failed.
    pub failed: usize,
    /// The packets that were queued and aren't committed: their replies say Shutdown or Stopped.
    pub uncommitted: usize,
}

/// Returns how many events failed.
fn failed_in(text: &[u8]) -> usize
    ensures { result ≡ failed_in text.now }
{
    text.split(|byte| *byte == b' ' || *byte == b'\n')
        .filter(|word| code_in(word).is_some())
        .count()
}

/// Returns how many packets and pulses were refused.
fn refused_in(text: &[u8]) -> usize
    ensures { result ≡ refused_in text.now }
{
    text.split(|byte| *byte == b' ' || *byte == b'\n')
        .filter(|word| *word == b"refused".as_slice())
        .count()
}

/// Returns how many packets were queued and aren't committed.
fn uncommitted_in(text: &[u8]) -> usize
    ensures { result ≡ uncommitted_in text.now }
{
    text.split(|byte| *byte == b' ' || *byte == b'\n')
        .filter(|word| *word == b"shutdown".as_slice() || *word == b"stopped".as_slice())
        .count()
}

/// Returns how much failed by the text of an output, which has no names.
pub fn tally_of(text: &[u8]) -> Tally
    ensures refused { result.refused ≡ refused_in text.now }
    ensures failed { result.failed ≡ failed_in text.now }
    ensures uncommitted { result.uncommitted ≡ uncommitted_in text.now }
{
    Tally {
        refused: refused_in(text),
        failed: failed_in(text),
        uncommitted: uncommitted_in(text),
    }
}
