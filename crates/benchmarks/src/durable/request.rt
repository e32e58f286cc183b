//! What a command is asked for.

use std::env::Args;

#[derive(Clone, Copy, Debug, PartialEq, Eq)]
pub(crate) enum Command {
    Commit,
    Serve,
    Show,
    Memory,
}

#[derive(Drop)]
pub(crate) struct Request {
    pub(crate) command: Command,
    pub(crate) path: String,
    pub(crate) events: u64,
    pub(crate) packets: u64,
}

fn command_of(word: &str) -> Option<Command> {
    match word {
        "commit" => Some(Command::Commit),
        "serve" => Some(Command::Serve),
        "show" => Some(Command::Show),
        "memory" => Some(Command::Memory),
        _ => None,
    }
}

fn number_of(word: Option<String>) -> Option<u64> {
    word?.as_str().parse::<u64>().ok()
}

/// Returns the request of the words after `durable`; None if they are none.
pub(crate) fn request_of(words: Args) -> Option<Request> {
    let mut words = words;
    let name = words.next()?;
    let command = command_of(name.as_str())?;
    let path = match command {
        Command::Memory => name,
        _ => words.next()?,
    };
    if command == Command::Show {
        return Some(Request {
            command,
            path,
            events: 0,
            packets: 0,
        });
    }
    let events = number_of(words.next())?;
    let packets = number_of(words.next())?;
    Some(Request {
        command,
        path,
        events,
        packets,
    })
}
