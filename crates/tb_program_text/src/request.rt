//! What the program is asked to do.

ghost use Rattle.std.specs.Prelude.{◌≡◌, map, string_bytes};
ghost use Rattle.std.specs.Vec.Iter.{into_iter_items};
ghost use Rattle.tb_program_text.specs.clauses.Request.{after_words, asked_by, nothing_read, options_of, replay_of, request_of, with_word};

use std::env::Args;
use std::marker::Model;

/// The path of a ledger's file, seen as its bytes.
#[derive(Drop)]
pub struct FilePath {
    text: String,
}

impl Model for FilePath {
    ghost use Rattle.std.specs.Prelude.{List, ℕ, string_bytes};

    ghost Value = { List ℕ };

    ghost view = { λ path. string_bytes path.text };
}

impl FilePath {
    /// Returns the path.
    pub fn as_str(&self) -> &str
        ensures { result.now ≡ self.now }
    {
        self.text.as_str()
    }
}

/// What is asked of a script in addition to its run.
#[derive(Drop)]
pub struct Options {
    /// Whether the names of codes are printed.
    pub names: bool,
    /// Whether a packet or pulse that is refused, or an event that fails, ends the program with status 1.
    pub strict: bool,
    /// The file of the ledger that the script is committed to. It is in memory if there is none.
    pub journal: Option<FilePath>,
}

/// What the arguments ask for. Any but one of the words `list`, `run`, `replay`, `--help` and `--version` ask for the usage. So do words after it
/// that are no options, and `replay` without one path after it.
#[derive(Drop)]
pub enum Request {
    List(Options),
    Run(Options),
    Replay(FilePath),
    Help,
    Version,
    Usage,
}

/// The options so far, and whether the next word is a path.
#[derive(Drop)]
struct Reading {
    options: Options,
    awaits_path: bool,
}

/// Returns what is read once a word is read too. Returns None if it gives no option, or if it begins like one and is to be a path.
fn with_word(reading: Reading, word: String) -> Option<Reading>
    ensures { result ≡ with_word reading (string_bytes word) }
{
    let Reading {
        mut options,
        awaits_path,
    } = reading;
    let mut awaits_next = false;
    if awaits_path {
        if word.as_str().starts_with("--") {
            return None;
        }
        options.journal = Some(FilePath { text: word });
    } else if word.as_str() == "--names" {
        options.names = true;
    } else if word.as_str() == "--strict" {
        options.strict = true;
    } else if word.as_str() == "--journal" && options.journal.is_none() {
        awaits_next = true;
    } else {
        return None;
    }
    Some(Reading {
        options,
        awaits_path: awaits_next,
    })
}

/// Returns what words give. Returns None if one gives no option.
#[tactic(auto, unfolding(crate::specs::clauses::Request::after_words))]
fn read_all(words: Args) -> Option<Reading>
    ensures { result ≡ after_words nothing_read (map string_bytes (into_iter_items words)) }
{
    let mut reading = Reading {
        options: Options {
            names: false,
            strict: false,
            journal: None,
        },
        awaits_path: false,
    };
    for word in words {
        reading = with_word(reading, word)?;
    }
    Some(reading)
}

/// Returns the options that words give. Returns None if one gives none, or the last one awaits a path.
fn options_in(words: Args) -> Option<Options>
    ensures { result ≡ options_of (after_words nothing_read (map string_bytes (into_iter_items words))) }
{
    let reading = read_all(words)?;
    if reading.awaits_path {
        return None;
    }
    Some(reading.options)
}

/// Returns what a word asks for, with these options.
fn asked_by(word: &str, options: Options) -> Request
    ensures { result ≡ asked_by word.now options }
{
    if word == "list" {
        Request::List(options)
    } else if word == "run" {
        Request::Run(options)
    } else if word == "--help" {
        Request::Help
    } else if word == "--version" {
        Request::Version
    } else {
        Request::Usage
    }
}

/// Returns what the words after `replay` ask for.
fn replay_of(words: Args) -> Request
    ensures { result ≡ replay_of (map string_bytes (into_iter_items words)) }
{
    let mut words = words;
    match (words.next(), words.next()) {
        (Some(text), None) => Request::Replay(FilePath { text }),
        _ => Request::Usage,
    }
}

/// Returns what the words ask for; the first is the program's name.
pub fn request_of(words: Args) -> Request
    ensures { result ≡ request_of (map string_bytes (into_iter_items words)) }
{
    let mut words = words;
    let (Some(_), Some(word)) = (words.next(), words.next()) else {
        return Request::Usage;
    };
    if word.as_str() == "replay" {
        return replay_of(words);
    }
    match options_in(words) {
        Some(options) => asked_by(word.as_str(), options),
        None => Request::Usage,
    }
}
