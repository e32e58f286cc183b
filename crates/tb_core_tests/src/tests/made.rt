//! What the tests hand in: jobs and items.

use super::{number_of, push};
use std::alloc::Global;
use std::process::Abort;
use tb_layout::{Account, LOOKUP_ACCOUNTS, MOMENT_MAX, NoMemory, Transfer};
use tb_test_makers::{account, accounts_packet, job, transfer, transfers_packet, zeros};
use tb_work::{Item, Job, Moment, Packet, Refusal};

/// What a sender queues, before it is made.
#[derive(Clone, Copy)]
pub(super) enum Made {
    /// A packet with its number, which creates the account with an id.
    Packet {
        number: u64,
        id: u128,
    },
    /// A packet with its number and its operation, whose `count` events or ids are zeros.
    Zeros {
        number: u64,
        operation: u8,
        count: u32,
    },
    Pulse(u64),
    End,
    Close,
}

/// Returns a packet that asks for accounts with these ids and flags.
pub(super) fn packet_of_accounts(
    rt: &(impl Abort + Alloc<A = Global>),
    events: &[(u128, u16)],
) -> Packet {
    let mut accounts = Vec::new(rt.alloc());
    for (id, flags) in events {
        push(rt, &mut accounts, account(*id, *flags));
    }
    accounts_packet(rt.alloc(), accounts.as_slice()).expect(rt, "memory")
}

/// Returns a packet of transfers of 1 between two accounts, with rising ids from here on.
pub(super) fn rising(
    alloc: Global,
    first_id: u128,
    accounts: [u128; 2],
    count: usize,
) -> Result<Packet, NoMemory> {
    let mut made = Vec::new(alloc);
    for number in 0..count {
        let id = (number as u128).saturating_add(first_id);
        made.push(transfer(id, accounts, 1, 0))?;
    }
    transfers_packet(alloc, made.as_slice())
}

/// Returns a packet of a submitter as a job, unless memory ran out for it.
pub(super) fn job_of(
    alloc: Global,
    submitter: u32,
    number: u64,
    packet: Result<Packet, NoMemory>,
) -> Result<Job, Refusal> {
    match packet {
        Ok(packet) => job(alloc, submitter, number, packet),
        Err(_) => Err(Refusal::NoMemory),
    }
}

/// Returns a packet that creates accounts.
pub(super) fn creating(
    alloc: Global,
    submitter: u32,
    number: u64,
    accounts: &[Account],
) -> Result<Job, Refusal> {
    job_of(alloc, submitter, number, accounts_packet(alloc, accounts))
}

/// Returns a packet of submitter 0 that creates transfers.
pub(super) fn transferring(
    alloc: Global,
    number: u64,
    transfers: &[Transfer],
) -> Result<Job, Refusal> {
    job_of(alloc, 0, number, transfers_packet(alloc, transfers))
}

/// Returns the first packet of a submitter, which creates transfers.
pub(super) fn first_transferring(
    alloc: Global,
    submitter: u32,
    transfers: &[Transfer],
) -> Result<Job, Refusal> {
    job_of(alloc, submitter, 0, transfers_packet(alloc, transfers))
}

/// Returns the job of a packet of zeros.
fn job_of_zeros(
    alloc: Global,
    submitter: u32,
    number: u64,
    operation: u8,
    count: u32,
) -> Result<Job, Refusal> {
    let size = if operation == LOOKUP_ACCOUNTS {
        16
    } else {
        128
    };
    let packet = zeros(alloc, operation, size * (count as usize));
    job_of(alloc, submitter, number, packet)
}

/// Returns what a sender queues.
pub(super) fn item(alloc: Global, sender: u32, made: Made) -> Result<Item, Refusal> {
    Ok(match made {
        Made::Packet { number, id } => {
            Item::Packet(creating(alloc, sender, number, &[account(id, 0)])?)
        }
        Made::Zeros {
            number,
            operation,
            count,
        } => Item::Packet(job_of_zeros(alloc, sender, number, operation, count)?),
        Made::Pulse(moment) => Item::Pulse(Moment::new(moment.min(MOMENT_MAX))),
        Made::End => Item::End,
        Made::Close => Item::Close,
    })
}

/// Returns what a word says that a sender pushes: `close`, `end`, `pulse5` at moment 5, `129x7` for a packet of seven zeros, or
/// `packet0=1`, number 0, which creates account 1.
fn made_of(rt: &impl Abort, pushed: &str) -> Made {
    match pushed {
        "close" => return Made::Close,
        "end" => return Made::End,
        _ => {}
    }
    if let Some(moment) = pushed.strip_prefix("pulse") {
        return Made::Pulse(u64::from(number_of(rt, moment)));
    }
    if let Some((operation, count)) = pushed.split_once('x') {
        return Made::Zeros {
            number: 0,
            operation: operation.parse::<u8>().ok().expect(rt, "an operation"),
            count: number_of(rt, count),
        };
    }
    let packet = pushed.strip_prefix("packet").expect(rt, "a packet");
    let (number, id) = packet.split_once('=').expect(rt, "a number and an id");
    Made::Packet {
        number: u64::from(number_of(rt, number)),
        id: u128::from(number_of(rt, id)),
    }
}

/// Returns a sender's number, which a word has up to a colon, and what the rest says that it pushes.
pub(super) fn pushed_by(rt: &impl Abort, word: &str) -> (u32, Made) {
    let (sender, pushed) = word.split_once(':').expect(rt, "a sender");
    (number_of(rt, sender), made_of(rt, pushed))
}
