//! What is said of a faulty script beside its line: where the fault is, what is wrong, and what may stand there. It is one sentence for
//! people, on standard error. No clause says what it is; `tools/gate/check-remarks` compares what the program says.

use crate::event::{Layout, faulty_field, size_of_first};
use crate::fault::Fault;
use crate::keyword::{Keyword, keyword_of};
use crate::number::number_within;
use crate::read::ScriptLength;
use crate::text::{FirstWord, first_word, split_first_word, split_line};
use std::alloc::{AllocError, Global};

/// The most bytes of a word that are repeated.
const SHOWN_MAX: usize = 40;

/// The first faulty line of a script, with its number, from 1.
#[derive(Clone, Copy)]
struct FaultyLine<'a> {
    number: usize,
    line: &'a [u8],
}

/// Returns the line of a text that has a number, from 1.
fn line_at(text: &[u8], number: usize) -> FaultyLine {
    let mut rest = text;
    for _ in 1..number {
        rest = split_line(rest).1;
    }
    FaultyLine {
        number,
        line: split_line(rest).0,
    }
}

/// Adds a word between quotes, the first bytes of it if it is long.
fn put_word(out: &mut String, word: &[u8]) -> Result<(), AllocError> {
    let shown = &word[..word.len().min(SHOWN_MAX)];
    out.push('`')?;
    for byte in shown {
        out.push(char::from(*byte))?;
    }
    out.push_str(if shown.len() < word.len() { "..`" } else { "`" })
}

/// Returns why a byte can't stand where it does.
fn why_not(byte: u8, is_first: bool) -> &'static str {
    match byte {
        b'\r' => "lines end in LF, not CRLF",
        b'\t' => "spaces divide words, not tabs",
        0xef if is_first => "a script begins without a byte order mark",
        _ => "a script has only bytes 32 to 126, and 10 at the end of a line",
    }
}

/// Returns what a line with a keyword looks like.
fn form_of(keyword: Keyword) -> &'static str {
    match keyword {
        Keyword::Clock => "`clock N`, with N from 0 to 9223372036854775807",
        Keyword::Limit => "`limit N`, with N from 1 to 8190",
        Keyword::Capacity => "`capacity N`, with N from 1 to 65536",
        Keyword::Credit => "`credit N`, with N from 1 to 65536",
        Keyword::Submitters => "`submitters N`, with N from 1 to 16",
        Keyword::Packet => {
            "`packet S OP`, with S below the number of submitters and OP from 0 to 255"
        }
        Keyword::Account => "`account FIELD=N ..`",
        Keyword::Transfer => "`transfer FIELD=N ..`",
        Keyword::Id => "`id N`, with N from 0 to 340282366920938463463374607431768211455",
        Keyword::Hex => "`hex DIGITS`, with two hexadecimal digits for each byte",
        Keyword::Pulse => "`pulse N`, with N from 0 to 18446744073709551615",
        Keyword::Shut => "`shut`",
    }
}

/// Returns where a line with a keyword may stand.
fn place_of(keyword: Keyword) -> &'static str {
    match keyword {
        Keyword::Clock
        | Keyword::Limit
        | Keyword::Capacity
        | Keyword::Credit
        | Keyword::Submitters => {
            "a setting stands once, before the first packet, pulse and shut"
        }
        Keyword::Account | Keyword::Transfer | Keyword::Id | Keyword::Hex => {
            "it adds to a packet, so there is a `packet` line before it, and no pulse or shut between them"
        }
        Keyword::Packet | Keyword::Pulse | Keyword::Shut => "after shut there are only packets",
    }
}

/// Returns the fields of an event.
fn fields_of(layout: Layout) -> &'static str {
    match layout {
        Layout::Account => {
            "id, ledger, code, flags, user_data_128, user_data_64, user_data_32, reserved, debits_pending, debits_posted, credits_pending, credits_posted and timestamp"
        }
        Layout::Transfer => {
            "id, debit_account_id, credit_account_id, amount, pending_id, timeout, ledger, code, flags, user_data_128, user_data_64, user_data_32 and timestamp"
        }
    }
}

/// Returns the greatest number of a field of this many bytes.
fn most_of(size: usize) -> &'static str {
    match size {
        2 => "65535",
        4 => "4294967295",
        8 => "18446744073709551615",
        _ => "340282366920938463463374607431768211455",
    }
}

/// Returns whether a packet's first number can't be that of a submitter.
fn is_no_submitter(word: &[u8]) -> bool {
    number_within(word, 0, 15).is_err()
}

/// Returns whether a packet's second number is no operation.
fn is_no_operation(word: &[u8]) -> bool {
    number_within(word, 0, 255).is_err()
}

impl FaultyLine<'_> {
    /// Adds the line's number and the column, from 1, at which the rest of the line begins.
    fn put_column(&self, out: &mut String, rest: &[u8]) -> Result<(), AllocError> {
        let number = self.number;
        let column = self.line.len().saturating_sub(rest.len()).saturating_add(1);
        write!(out, "line {number}, column {column}: ")
    }

    fn put_length(&self, out: &mut String) -> Result<(), AllocError> {
        let number = self.number;
        let length = self.line.len();
        write!(
            out,
            "line {number}: it has {length} bytes, and a line at most 65536"
        )
    }

    fn put_byte(&self, out: &mut String) -> Result<(), AllocError> {
        let Some(offset) = self.line.iter().position(|b| *b < 32 || 126 < *b) else {
            return Ok(());
        };
        let byte = self.line[offset];
        let why = why_not(byte, self.number == 1 && offset == 0);
        self.put_column(out, &self.line[offset..])?;
        write!(out, "byte 0x{byte:02x}; {why}")
    }

    /// Adds a word of the line and where it is.
    fn put_first(&self, out: &mut String, first: FirstWord) -> Result<(), AllocError> {
        let number = self.number;
        let behind = self.line.len().saturating_sub(first.rest.len());
        let column = behind.saturating_sub(first.word.len()).saturating_add(1);
        write!(out, "line {number}, column {column}: ")?;
        put_word(out, first.word)
    }

    fn put_unknown_word(&self, out: &mut String, first: FirstWord) -> Result<(), AllocError> {
        self.put_first(out, first)?;
        out.push_str(
            " begins no line; the first word is one of clock, limit, capacity, credit, submitters, packet, account, transfer, id, hex, pulse and shut",
        )
    }

    fn put_out_of_place(&self, out: &mut String, first: FirstWord) -> Result<(), AllocError> {
        let Some(keyword) = keyword_of(first.word) else {
            return Ok(());
        };
        let place = place_of(keyword);
        self.put_first(out, first)?;
        write!(out, " can't stand here; {place}")
    }

    fn put_form(&self, out: &mut String, first: FirstWord) -> Result<(), AllocError> {
        let Some(keyword) = keyword_of(first.word) else {
            return Ok(());
        };
        let form = form_of(keyword);
        self.put_first(out, first)?;
        write!(
            out,
            " has too few or too many words after it; the line is {form}"
        )
    }

    /// Adds which word behind a keyword isn't the number or the digits that stand there.
    fn put_operand(&self, out: &mut String, first: FirstWord) -> Result<(), AllocError> {
        let Some(keyword) = keyword_of(first.word) else {
            return Ok(());
        };
        let form = form_of(keyword);
        let Some(operand) = wrong_operand(keyword, first.rest) else {
            return Ok(());
        };
        self.put_first(out, operand)?;
        write!(out, " can't stand there; the line is {form}")
    }

    /// Adds what is wrong with a field, or its number.
    fn put_field(&self, out: &mut String, layout: Layout, rest: &[u8]) -> Result<(), AllocError> {
        let faulty = faulty_field(layout, rest);
        let (word, _) = split_first_word(faulty);
        let size = size_of_first(layout, faulty);
        let fields = fields_of(layout);
        self.put_column(out, faulty)?;
        put_word(out, word)?;
        match size {
            Some(size) => {
                let most = most_of(size);
                write!(
                    out,
                    " gives a field a second time, or a number that isn't 0 to {most} in at most 39 digits"
                )
            }
            None => write!(out, " isn't FIELD=N with one of the fields {fields}"),
        }
    }

    /// Adds what is wrong with what is behind a keyword.
    fn put_rest(&self, out: &mut String, first: FirstWord) -> Result<(), AllocError> {
        match keyword_of(first.word) {
            Some(Keyword::Account) => self.put_field(out, Layout::Account, first.rest),
            Some(Keyword::Transfer) => self.put_field(out, Layout::Transfer, first.rest),
            _ => self.put_operand(out, first),
        }
    }

    /// Adds what is said of a fault of the line.
    fn put(&self, out: &mut String, fault: Fault) -> Result<(), AllocError> {
        match fault {
            Fault::LineTooLong => return self.put_length(out),
            Fault::BadByte => return self.put_byte(out),
            _ => {}
        }
        let Some(first) = first_word(self.line) else {
            return Ok(());
        };
        match fault {
            Fault::UnknownWord => self.put_unknown_word(out, first),
            Fault::OutOfPlace => self.put_out_of_place(out, first),
            Fault::WrongNumberOfWords => self.put_form(out, first),
            _ => self.put_rest(out, first),
        }
    }
}

/// Returns the word behind a keyword that isn't what stands there: of a packet the submitter, unless only the operation is wrong.
fn wrong_operand<'a>(keyword: Keyword, rest: &'a [u8]) -> Option<FirstWord<'a>> {
    let first = first_word(rest)?;
    match keyword {
        Keyword::Packet if !is_no_submitter(first.word) => match first_word(first.rest) {
            Some(second) if is_no_operation(second.word) => Some(second),
            _ => Some(first),
        },
        _ => Some(first),
    }
}

/// Returns what is said of a script that has more bytes than one may have.
pub(crate) fn remark_on_length(alloc: Global, length: ScriptLength) -> Result<String, AllocError> {
    let mut out = String::new(alloc);
    match length {
        ScriptLength::Exactly(bytes) => write!(
            out,
            "the script has {bytes} bytes, and a script at most 16777216"
        ),
        ScriptLength::MoreThan(bytes) => write!(
            out,
            "the script has more than {bytes} bytes, and a script at most 16777216"
        ),
    }?;
    Ok(out)
}

/// Returns what is said of the fault that a line of a script has, whose number counts from 1.
pub(crate) fn remark_on(
    alloc: Global,
    text: &[u8],
    number: usize,
    fault: Fault,
) -> Result<String, AllocError> {
    let mut out = String::new(alloc);
    line_at(text, number).put(&mut out, fault)?;
    Ok(out)
}
