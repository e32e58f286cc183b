//! Lines and words.

ghost use Rattle.std.specs.Prelude.{◌≡◌, ◌<◌, ◌≤◌, ◌==◌, ◌||◌, ◌∷◌, ◌⊎◌, not, length, position, drop, true, ◌++◌, ℕ, Bool, List, [], IfSome};
ghost use Rattle.std.specs.Option.{MatchOption};
ghost use Rattle.std.specs.List.{position_or_len, list_all};
ghost use Rattle.std.specs.Iterator.{YieldsFirstRef, item_count};
ghost use Rattle.tb_program_text.specs.clauses.Text.{words_of, word_end, first_line, after_first_line, first_word, after_first_word};
ghost use Rattle.tb_program_text.specs.inside.FirstWord.{IsAfterFirstWord, spaces};

use memchr::memchr;

fn offset_of_other(bytes: &[u8], byte: u8) -> Option<usize>
    ensures { result ≡ position (λ b. not (b == byte)) bytes.now }
{
    bytes.iter().position(|b| *b != byte)
}

/// Returns the number of bytes before the first that is `byte`.
#[tactic(auto, using(crate::proofs::Texts::before_found))]
pub(crate) fn length_before(bytes: &[u8], byte: u8) -> usize
    ensures value { result ≡ position_or_len (λ b. b == byte) bytes.now }
    ensures bound { result ≤ length bytes.now }
{
    match memchr(byte, bytes) {
        Some(offset) => offset,
        None => bytes.len(),
    }
}

fn offset_of(bytes: &[u8], byte: u8) -> Option<usize>
    ensures { result ≡ position (λ b. b == byte) bytes.now }
{
    bytes.iter().position(|b| *b == byte)
}

/// Returns the number of bytes before the first space. They are read one by one: words are short.
#[tactic(auto, using(crate::proofs::Texts::nowhere))]
fn length_before_space(bytes: &[u8]) -> usize
    ensures value { result ≡ word_end bytes.now }
    ensures bound { result ≤ length bytes.now }
{
    match offset_of(bytes, 32) {
        Some(offset) => offset,
        None => bytes.len(),
    }
}

/// Returns the number of spaces at the front.
#[tactic(auto, using(crate::proofs::Texts::nowhere))]
fn leading_spaces(bytes: &[u8]) -> usize
    ensures value { result ≡ spaces bytes.now }
    ensures bound { result ≤ length bytes.now }
{
    match offset_of_other(bytes, 32) {
        Some(offset) => offset,
        None => bytes.len(),
    }
}

/// Returns what follows the spaces at the front.
#[tactic(auto, using(crate::proofs::Texts::words_trimmed, crate::proofs::Texts::trimmed_begins))]
pub(crate) fn trim_spaces(line: &[u8]) -> &[u8]
    ensures same { words_of result.now ≡ words_of line.now }
    ensures begins { (length result.now ≡ 0) ⊎ (0 < word_end result.now) }
    ensures within { length result.now ≤ length line.now }
    ensures rest { result.now ≡ drop (spaces line.now) line.now }
{
    let (_, trimmed) = line.split_at(leading_spaces(line));
    trimmed
}

/// Returns the first word of a line that begins with one, and the rest of the line.
fn split_word(line: &[u8]) -> (&[u8], &[u8])
    ensures word { result.0.now ≡ first_word line.now }
    ensures rest { result.1.now ≡ after_first_word line.now }
{
    line.split_at(length_before_space(line))
}

/// Returns whether the first line of a text has no byte.
#[inline(always)]
pub(crate) fn is_at_line_end(text: &[u8]) -> bool
    ensures { result ≡ (length (first_line text.now) == 0) }
{
    match text {
        [] => true,
        [first, ..] => *first == b'\n',
    }
}

/// Returns whether the first word of a text's first line has no byte.
#[inline(always)]
pub(crate) fn is_at_word_end(text: &[u8]) -> bool
    ensures { result ≡ (length (first_word (first_line text.now)) == 0) }
{
    match text {
        [] => true,
        [first, ..] => *first == b' ' || *first == b'\n',
    }
}

fn offset_of_word_end(bytes: &[u8]) -> Option<usize>
    ensures { result ≡ position (λ b. (b == 32) || (b == 10)) bytes.now }
{
    bytes.iter().position(|b| *b == b' ' || *b == b'\n')
}

/// Returns the number of bytes before the first space of the first line, or before its end.
#[tactic(auto, using(crate::proofs::Texts::nowhere))]
fn length_before_word_end(text: &[u8]) -> usize
    ensures value { result ≡ position_or_len (λ b. (b == 32) || (b == 10)) text.now }
    ensures bound { result ≤ length text.now }
{
    match offset_of_word_end(text) {
        Some(offset) => offset,
        None => text.len(),
    }
}

/// Returns the first word of a text that begins with one, and the rest of the text.
#[tactic(auto, using(crate::proofs::FirstLines::word_cut))]
pub(crate) fn split_first_word(text: &[u8]) -> (&[u8], &[u8])
    ensures word { result.0.now ≡ first_word (first_line text.now) }
    ensures rest { IsAfterFirstWord text.now result.1.now }
{
    text.split_at(length_before_word_end(text))
}

/// Returns what follows a word and a byte that ends it, if the text begins with these.
#[inline(always)]
pub(crate) fn strip_word<'a>(text: &'a [u8], word: &[u8], end: u8) -> Option<&'a [u8]>
    ensures { MatchOption result ((others : List ℕ) → text.now ≡ word.now ++ end ∷ others → ⊥)
        (λ others. text.now ≡ word.now ++ end ∷ others.now) }
{
    let length = word.len();
    if length < text.len() && text[length] == end && &text[..length] == word {
        Some(&text[length + 1..])
    } else {
        None
    }
}

/// Returns what follows the first byte, which ends a line, if there is one.
pub(crate) fn skip_line_end(text: &[u8]) -> &[u8]
    ensures { result.now ≡ drop 1 text.now }
{
    match text {
        [] => text,
        [_, others @ ..] => others,
    }
}

/// Returns the first line, and what follows the byte that ends it.
pub(crate) fn split_line(text: &[u8]) -> (&[u8], &[u8])
    ensures line { result.0.now ≡ first_line text.now }
    ensures others { result.1.now ≡ drop 1 (after_first_line text.now) }
{
    let end = length_before(text, 10);
    if end < text.len() {
        (&text[..end], &text[end + 1..])
    } else {
        (text, &[])
    }
}

/// The first word of a line, and the rest of the line.
#[derive(Clone, Copy)]
pub(crate) struct FirstWord<'a> {
    pub(crate) word: &'a [u8],
    pub(crate) rest: &'a [u8],
}

/// Returns the first word of a line, if it has one.
pub(crate) fn first_word(line: &[u8]) -> Option<FirstWord>
    ensures words { MatchOption result (words_of line.now ≡ [])
        (λ first. words_of line.now ≡ first.word.now ∷ words_of first.rest.now) }
    ensures bytes { IfSome result (λ first. (passes : ℕ → Bool) → list_all passes line.now ≡ true
        → list_all passes first.rest.now ≡ true) }
{
    let trimmed = trim_spaces(line);
    if trimmed.is_empty() {
        return None;
    }
    let (word, rest) = split_word(trimmed);
    Some(FirstWord { word, rest })
}

/// The words of a line.
#[derive(Drop)]
pub(crate) struct Words<'a> {
    pub(crate) rest: &'a [u8],
}

impl<'a> Iterator for Words<'a> {
    type Item = &'a [u8];

    ghost next_gives = { YieldsFirstRef (λ s. words_of s.rest.now) };

    ghost remaining = { item_count (λ s. words_of s.rest.now) };

    fn next(&mut self) -> Option<&'a [u8]> {
        let first = first_word(self.rest)?;
        self.rest = first.rest;
        Some(first.word)
    }
}
