//! What a run is asked for.

use crate::pipeline::events::ACCOUNTS;
use std::env::Args;

/// What each submitter sends: `packets` packets of `events` events, with at most `credit` of them unanswered.
#[derive(Clone, Copy)]
pub(crate) struct Load {
    pub(crate) events: u64,
    pub(crate) packets: u64,
    pub(crate) credit: u32,
}

/// How a pipeline is opened: the slots of its queue, the most events of a batch, and how many transfers its ledger has
/// capacity for.
#[derive(Clone, Copy)]
pub(crate) struct Opening {
    pub(crate) submitters: u32,
    pub(crate) capacity: u32,
    pub(crate) limit: u32,
    pub(crate) room: usize,
}

impl Opening {
    /// Returns how many accounts the submitters make.
    pub(crate) fn accounts(self) -> u64 {
        u64::from(self.submitters).wrapping_mul(ACCOUNTS)
    }

    /// Returns how many accounts capacity is reserved for: for all, or for none where none is for transfers.
    pub(crate) fn accounts_reserved(self) -> usize {
        if self.room == 0 {
            0
        } else {
            self.accounts() as usize
        }
    }
}

/// A pipeline whose submitters send a load each.
#[derive(Clone, Copy)]
pub(crate) struct Request {
    pub(crate) opening: Opening,
    pub(crate) load: Load,
}

/// A pipeline in which the first submitter sends a packet for each byte of the input. Until the input ends, `loads`
/// others send packets of one event, and the rest sleep.
#[derive(Clone, Copy)]
pub(crate) struct LiveRequest {
    pub(crate) submitters: u32,
    pub(crate) loads: u32,
}

/// What the arguments ask for.
#[derive(Clone, Copy)]
pub(crate) enum Asked {
    Run(Request),
    /// The same over a ledger that keeps no journal.
    Bare(Request),
    Live(LiveRequest),
}

/// Returns the number in an argument, if there is one.
fn next_number(words: &mut Args) -> Option<u64> {
    words.next()?.as_str().parse::<u64>().ok()
}

fn next_u32(words: &mut Args) -> Option<u32> {
    u32::try_from(next_number(words)?).ok()
}

fn next_run(words: &mut Args) -> Option<Request> {
    let events = next_number(words)?;
    let packets = next_number(words)?;
    let submitters = next_u32(words)?;
    let credit = next_u32(words)?;
    let capacity = next_u32(words)?;
    let limit = next_u32(words)?;
    let room = usize::try_from(next_number(words)?).ok()?;
    Some(Request {
        opening: Opening {
            submitters,
            capacity,
            limit,
            room,
        },
        load: Load {
            events,
            packets,
            credit,
        },
    })
}

fn next_live(words: &mut Args) -> Option<LiveRequest> {
    let submitters = next_u32(words)?;
    let loads = next_u32(words)?;
    Some(LiveRequest { submitters, loads })
}

/// Returns what the words after `pipeline` ask for.
pub(crate) fn asked_by(words: Args) -> Option<Asked> {
    let mut words = words;
    let command = words.next()?;
    match command.as_str() {
        "run" => next_run(&mut words).map(Asked::Run),
        "bare" => next_run(&mut words).map(Asked::Bare),
        "live" => next_live(&mut words).map(Asked::Live),
        _ => None,
    }
}
