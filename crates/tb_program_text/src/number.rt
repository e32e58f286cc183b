//! Numbers in decimal digits.

ghost use Rattle.std.specs.Prelude.{true, ◌≡◌, ◌≤◌, ◌∷◌, [], Some, IfOk, IfSome, map};
ghost use Rattle.std.specs.List.{list_all};
ghost use Rattle.std.specs.Char.{is_ascii_digit};
ghost use Rattle.tb_program_text.specs.clauses.Text.{words_of, first_line, after_first_line, first_word};
ghost use Rattle.tb_program_text.specs.clauses.Number.{number_of, fitting, within, number_within};
ghost use Rattle.tb_program_text.specs.inside.FirstWord.{IsAfterFirstWord};

use crate::fault::Fault;
use crate::text::{is_at_line_end, is_at_word_end, split_first_word, trim_spaces};

/// Returns whether a word has only digits.
fn are_digits(word: &[u8]) -> bool
    ensures { result ≡ list_all is_ascii_digit word.now }
{
    word.iter().all(|b| b.is_ascii_digit())
}

/// Returns a number, if it is there and in bounds.
pub(crate) fn in_bounds(n: Option<u128>, low: u128, high: u128) -> Result<u128, Fault>
    ensures value { result ≡ within low high n }
    ensures bounds { IfOk result (λ n. (low ≤ n) × (n ≤ high)) }
{
    match n {
        Some(n) if low <= n && n <= high => Ok(n),
        _ => Err(Fault::BadNumber),
    }
}

/// Returns the text of a word that has only digits.
#[tactic(auto, using(crate::proofs::Numbers::digits_are_text))]
fn text_of(word: &[u8]) -> &str
    requires { list_all is_ascii_digit word.now ≡ true }
    ensures { result.now ≡ word.now }
{
    match str::from_utf8(word) {
        Ok(text) => text,
        Err(_) => unreachable!(),
    }
}

/// The most digits that always leave a number in 64 bits.
const SHORT: usize = 19;

/// Returns the number that the first word of a text spells in 1 to 19 digits, and the rest of the text. The end of the
/// word is seen as its digits are read.
#[inline(always)]
pub(crate) fn leading_number(text: &[u8]) -> Option<(u64, &[u8])>
    ensures number { IfSome result (λ both. number_of (first_word (first_line text.now)) ≡ Some both.0) }
    ensures rest { IfSome result (λ both. IsAfterFirstWord text.now both.1.now) }
{
    let end = text.len().min(SHORT);
    let mut number = 0u64;
    let mut digits = 0;
    while digits < end && text[digits].is_ascii_digit() {
        number = 10 * number + u64::from(text[digits] - b'0');
        digits += 1;
    }
    let rest = &text[digits..];
    if digits == 0 || !is_at_word_end(rest) {
        return None;
    }
    Some((number, rest))
}

/// Two numbers, and the text from the end of their line on.
#[derive(Clone, Copy)]
pub(crate) struct TwoNumbers<'a> {
    pub(crate) first: u64,
    pub(crate) second: u64,
    pub(crate) rest: &'a [u8],
}

/// Returns the numbers that the words of a text's first line spell, if these are two, of 1 to 19 digits each. The ends
/// of the words and of the line are seen as the digits are read.
#[inline(always)]
pub(crate) fn two_short_numbers(text: &[u8]) -> Option<TwoNumbers>
    ensures numbers { IfSome result (λ two. map number_of (words_of (first_line text.now))
        ≡ Some two.first ∷ Some two.second ∷ []) }
    ensures rest { IfSome result (λ two. two.rest.now ≡ after_first_line text.now) }
{
    let (first, rest) = leading_number(trim_spaces(text))?;
    let (second, rest) = leading_number(trim_spaces(rest))?;
    let rest = trim_spaces(rest);
    if is_at_line_end(rest) {
        Some(TwoNumbers {
            first,
            second,
            rest,
        })
    } else {
        None
    }
}

/// Returns the number that a word spells, if it fits, of any length.
#[inline(never)]
#[tactic(auto, using(crate::proofs::Numbers::too_long, crate::proofs::Numbers::no_digits, crate::proofs::Numbers::parsed))]
fn long_number(word: &[u8]) -> Option<u128>
    ensures { result ≡ fitting (number_of word.now) }
{
    if word.len() >= 40 {
        return None;
    }
    if !are_digits(word) {
        return None;
    }
    text_of(word).parse::<u128>().ok()
}

/// Returns the number that a word spells, if it fits.
#[inline(always)]
fn fitting_number(word: &[u8]) -> Option<u128>
    ensures { result ≡ fitting (number_of word.now) }
{
    match leading_number(word) {
        Some((number, rest)) if rest.is_empty() => Some(u128::from(number)),
        _ => long_number(word),
    }
}

/// Returns the number that a word spells in 1 to 39 digits, if it is in bounds.
#[inline(always)]
pub(crate) fn number_within(word: &[u8], low: u128, high: u128) -> Result<u128, Fault>
    ensures value { result ≡ number_within low high word.now }
    ensures bounds { IfOk result (λ n. (low ≤ n) × (n ≤ high)) }
{
    in_bounds(fitting_number(word), low, high)
}

/// Returns the number that the first word of a text spells, if it fits, of any length, and the rest of the text.
#[inline(never)]
pub(crate) fn long_first(text: &[u8]) -> (Option<u128>, &[u8])
    ensures number { result.0 ≡ fitting (number_of (first_word (first_line text.now))) }
    ensures rest { IsAfterFirstWord text.now result.1.now }
{
    let (word, rest) = split_first_word(text);
    (long_number(word), rest)
}
