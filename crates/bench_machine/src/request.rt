//! The arguments.

use std::env::Args;

/// The kinds of events.
#[derive(Clone, Copy)]
pub(crate) enum Kind {
    /// Accounts.
    Accounts,
    /// Plain transfers.
    Plain,
    /// Plain transfers between accounts in no order.
    Random,
    /// Pending transfers with a timeout, each followed by its post or its void.
    TwoPhase,
    /// A packet of pending transfers, then a packet of their posts and voids.
    Late,
    /// Pending transfers that all expire in the order of making.
    Pending,
    /// Pending transfers that expire in no order.
    Spread,
    /// Chains of ten plain transfers; every tenth chain fails at its end.
    Chains,
    /// Chains as long as a packet of 8,190 events; each fails at its end.
    LongChain,
    /// Transfers that fail the first check.
    Early,
    /// Transfers with another ledger than their accounts.
    Ledger,
    /// Transfers whose debit account isn't there, so that their ids are recorded as failed.
    Missing,
    /// Transfers that are stored already.
    Exists,
    /// Half plain transfers, a tenth each of the failures above, of pending transfers and of posts and voids.
    Mixed,
    /// Two packets of 8,190 transfers whose ids have one hash unless it is seeded, then plain transfers.
    Attacked,
    /// Look-ups of accounts.
    Lookups,
}

/// The packets to make: their kind, their number and the number of events in each; the number of accounts; the number
/// of transfers to reserve capacity for; and the seed of the hashes.
#[derive(Clone, Copy)]
pub(crate) struct Load {
    pub(crate) kind: Kind,
    pub(crate) events: u64,
    pub(crate) packets: u64,
    pub(crate) accounts: u64,
    pub(crate) room: u64,
    pub(crate) seed: u64,
}

/// What to do with the packets.
#[derive(Clone, Copy)]
pub(crate) enum Command {
    Commit,
    Times,
    Make,
}

#[derive(Clone, Copy)]
pub(crate) struct Request {
    pub(crate) command: Command,
    pub(crate) load: Load,
}

fn next_number(words: &mut Args) -> Option<u64> {
    words.next()?.as_str().parse::<u64>().ok()
}

fn next_command(words: &mut Args) -> Option<Command> {
    let word = words.next()?;
    match word.as_str() {
        "commit" => Some(Command::Commit),
        "times" => Some(Command::Times),
        "make" => Some(Command::Make),
        _ => None,
    }
}

/// The names of the kinds.
const KINDS: [(&str, Kind); 16] = [
    ("accounts", Kind::Accounts),
    ("plain", Kind::Plain),
    ("random", Kind::Random),
    ("two-phase", Kind::TwoPhase),
    ("late", Kind::Late),
    ("pending", Kind::Pending),
    ("spread", Kind::Spread),
    ("chains", Kind::Chains),
    ("long-chain", Kind::LongChain),
    ("early", Kind::Early),
    ("ledger", Kind::Ledger),
    ("missing", Kind::Missing),
    ("exists", Kind::Exists),
    ("mixed", Kind::Mixed),
    ("attacked", Kind::Attacked),
    ("lookups", Kind::Lookups),
];

fn next_kind(words: &mut Args) -> Option<Kind> {
    let word = words.next()?;
    for (name, kind) in KINDS {
        if word.as_str() == name {
            return Some(kind);
        }
    }
    None
}

/// Reads the request from the arguments; the first argument is the program's name.
pub(crate) fn request_of(words: Args) -> Option<Request> {
    let mut words = words;
    words.next()?;
    Some(Request {
        command: next_command(&mut words)?,
        load: Load {
            kind: next_kind(&mut words)?,
            events: next_number(&mut words)?,
            packets: next_number(&mut words)?,
            accounts: next_number(&mut words)?,
            room: next_number(&mut words)?,
            seed: next_number(&mut words)?,
        },
    })
}
