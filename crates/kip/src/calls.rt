//! The exported functions.

ghost use Rattle.std.specs.Prelude.{true, false, ◌≡◌, ◌<◌, [], length, slice_get, IfOk, IfErr, OnOk, OnErr, IsOk, None};
ghost use Rattle.tb_tables.specs.claim.Facts.{transfer_with};
ghost use Rattle.tb_tables.specs.claim.Balances.{balanced_account};
ghost use Rattle.tb_machine.specs.clauses.Accounts.{balanced_accounts};
ghost use Rattle.tb_work.specs.clauses.Refusal.{number_of};
ghost use Rattle.tb_work.specs.declared.item.Item.TheVariants as item;
ghost use Rattle.tb_work.specs.declared.refusal.Refusal.TheVariants.{NoMemory as NoMemoryRefusal};
ghost use Rattle.tb_embed.specs.clauses.Engine.{EngineState, IsOpened, Queues, Continues, IsRefusal, packet_with, submit_refusal, pulse_refusal, shut_refusal, state_of};
ghost use Rattle.tb_embed.specs.clauses.Queued.{packet_ticket, ticket_of};
ghost use Rattle.tb_embed.specs.clauses.Recorded.{ChangesEngine, PulsesRecorded, RecordedState, recorded};
ghost use Rattle.kip.specs.clauses.Entries.{IsHandingOutOf, IsRestoringOf, IsStoringOf};
ghost use Rattle.kip.specs.clauses.Handle.{Becomes, Moves, IsOpen, IsOpenedAs, IsStatus, IsStatusOf, IsOpeningStatus, IsClosingStatus, IsPeek, IsReading, IsReadingOf, IsAccount, IsAccountIn, IsTransfer, IsTransferIn, IsClockOf, IsCountsOf, IsPlacesOf, id_of, open_refusal, pending_number, stopped_status};

use crate::counts::KipCounts;
use crate::entries::{KipEntry, hand_out, restore, store};
use crate::handle::Kip;
use crate::reading::{KipReply, head_of, put_results};
use crate::status::{ALREADY_OPEN, CLOSED, NO_REPLY, NOT_FOUND, TOO_SMALL};
use std::alloc::{AllocError, Global};
use tb_embed::{Engine, RecordedEngine, Seed};
use tb_layout::{Account, CLOCK_MAX, Transfer, U64_VALUES, write_account, write_transfer};
use tb_tables::Status;
use tb_work::{Bytes, Packet, Refusal};

/// Version 0.1.0, a byte for each number.
const VERSION: u32 = 0x0000_0100;

/// Returns the version of the library: major, minor and patch in a byte each, patch lowest.
#[unsafe(no_mangle)]
pub extern "C" fn kip_version() -> u32
    ensures { result ≡ 256 }
{
    VERSION
}

/// Returns 0, or the number of the refusal.
fn status_of(done: Result<(), Refusal>) -> u32
    ensures ok { OnOk done (result ≡ 0) }
    ensures err { IfErr done (λ refusal. result ≡ number_of refusal) }
    ensures zero { result ≡ 0 → IsOk done }
{
    match done {
        Ok(()) => 0,
        Err(refusal) => refusal.number(),
    }
}

/// How a handle is opened.
#[derive(Clone, Copy)]
struct Opening {
    clock: u64,
    limit: u32,
    submitters: u32,
    seed: Seed,
    records: bool,
}

impl Opening {
    fn plain(clock: u64, limit: u32, submitters: u32) -> Opening
        ensures clock { result.clock ≡ clock }
        ensures limit { result.limit ≡ limit }
        ensures submitters { result.submitters ≡ submitters }
        ensures records { result.records ≡ false }
    {
        Opening {
            clock,
            limit,
            submitters,
            seed: Seed::default(),
            records: false,
        }
    }

    fn seeded(self, low: u64, high: u64) -> Opening
        ensures { result ≡ record self { seed = result.seed } }
    {
        Opening {
            seed: Seed { low, high },
            ..self
        }
    }

    fn recorded(self) -> Opening
        ensures { result ≡ record self { records = true } }
    {
        Opening {
            records: true,
            ..self
        }
    }
}

fn open(alloc: Global, opening: Opening) -> Result<Box<RecordedEngine>, Refusal>
    ensures opened { IfOk result (λ host. IsOpened opening.clock opening.limit opening.submitters host.value.engine) }
    ensures recorded { IfOk result (λ host. host.value ≡ recorded host.value.engine opening.records) }
    ensures opens { OnOk result (open_refusal opening.clock opening.limit opening.submitters ≡ None) }
    ensures refusal { IfErr result (λ refusal.
        IsRefusal (open_refusal opening.clock opening.limit opening.submitters) refusal) }
{
    if opening.clock > CLOCK_MAX {
        return Err(Refusal::MomentTooLarge);
    }
    let engine = Engine::with_seed(
        alloc,
        opening.clock,
        opening.limit,
        opening.submitters,
        opening.seed,
    )?;
    let Ok(host) = Box::new(alloc, RecordedEngine::new(alloc, engine, opening.records)) else {
        return Err(Refusal::NoMemory);
    };
    Ok(host)
}

/// Opens a closed handle.
fn open_handle(alloc: Global, kip: &mut Kip, opening: Opening) -> u32
    ensures ok { result ≡ 0 → IsOpenedAs opening.records (IsOpened opening.clock opening.limit opening.submitters)
        kip.new.pointer.engine }
    ensures status { IsOpeningStatus opening.clock opening.limit opening.submitters kip.old.pointer.engine result }
    ensures same { (result ≡ 0 → ⊥) → kip.new.pointer.engine ≡ kip.old.pointer.engine }
{
    if kip.is_open {
        return ALREADY_OPEN;
    }
    match open(alloc, opening) {
        Ok(engine) => {
            kip.put(engine);
            0
        }
        Err(refusal) => refusal.number(),
    }
}

/// Opens a closed handle, with a clock in nanoseconds, a limit of 1 to 8190 events and 1 to 16 submitters.
#[unsafe(no_mangle)]
pub extern "C" fn kip_open(
    alloc: Global,
    kip: &mut Kip,
    clock: u64,
    limit: u32,
    submitters: u32,
) -> u32
    ensures ok { result ≡ 0 → IsOpenedAs false (IsOpened clock limit submitters) kip.new.pointer.engine }
    ensures status { IsOpeningStatus clock limit submitters kip.old.pointer.engine result }
    ensures same { (result ≡ 0 → ⊥) → kip.new.pointer.engine ≡ kip.old.pointer.engine }
{
    open_handle(alloc, kip, Opening::plain(clock, limit, submitters))
}

/// Opens a closed handle as `kip_open` does, and hashes ids with a seed of two numbers.
#[unsafe(no_mangle)]
pub extern "C" fn kip_open_seeded(
    alloc: Global,
    kip: &mut Kip,
    clock: u64,
    limit: u32,
    submitters: u32,
    seed_low: u64,
    seed_high: u64,
) -> u32
    ensures ok { result ≡ 0 → IsOpenedAs false (IsOpened clock limit submitters) kip.new.pointer.engine }
    ensures status { IsOpeningStatus clock limit submitters kip.old.pointer.engine result }
    ensures same { (result ≡ 0 → ⊥) → kip.new.pointer.engine ≡ kip.old.pointer.engine }
{
    let opening = Opening::plain(clock, limit, submitters);
    open_handle(alloc, kip, opening.seeded(seed_low, seed_high))
}

/// Opens a closed handle as `kip_open_seeded` does, for a host that keeps the journal in a store of its own.
#[unsafe(no_mangle)]
pub extern "C" fn kip_open_recorded(
    alloc: Global,
    kip: &mut Kip,
    clock: u64,
    limit: u32,
    submitters: u32,
    seed_low: u64,
    seed_high: u64,
) -> u32
    ensures ok { result ≡ 0 → IsOpenedAs true (IsOpened clock limit submitters) kip.new.pointer.engine }
    ensures status { IsOpeningStatus clock limit submitters kip.old.pointer.engine result }
    ensures same { (result ≡ 0 → ⊥) → kip.new.pointer.engine ≡ kip.old.pointer.engine }
{
    let opening = Opening::plain(clock, limit, submitters).recorded();
    open_handle(alloc, kip, opening.seeded(seed_low, seed_high))
}

/// Reserves capacity for accounts and transfers that are still to be made.
#[unsafe(no_mangle)]
pub extern "C" fn kip_reserve(kip: &mut Kip, accounts: usize, transfers: usize) -> u32
    ensures status { IsStatusOf (λ engine. None) kip.old.pointer.engine result }
    ensures same { kip.new.pointer.engine ≡ kip.old.pointer.engine }
{
    let Some(engine) = kip.engine() else {
        return CLOSED;
    };
    status_of(engine.reserve(accounts, transfers))
}

/// Closes a handle and frees the engine inside it.
#[unsafe(no_mangle)]
pub extern "C" fn kip_close(alloc: Global, kip: &mut Kip) -> u32
    ensures closed { kip.new.pointer.engine ≡ None }
    ensures status { IsClosingStatus kip.old.pointer.engine result }
{
    match kip.take(alloc) {
        Some(engine) => {
            drop(engine);
            0
        }
        None => CLOSED,
    }
}

/// Returns a packet with a copy of the data.
pub(crate) fn packet_of(
    alloc: Global,
    operation: u8,
    bytes: &[u8],
    user: u64,
) -> Result<Packet, AllocError>
    ensures { IfOk result (λ packet. packet ≡ packet_with operation bytes.now user) }
{
    let mut copy = Vec::with_capacity(alloc, bytes.len())?;
    copy.extend_from_slice(bytes)?;
    Ok(Packet {
        operation,
        bytes: Bytes::from_vec(copy),
        user,
    })
}

/// Returns the packet with a copy of the data, or the first refusal that applies: nothing is copied for a packet that is
/// refused anyway.
fn checked_packet(
    alloc: Global,
    engine: &Engine,
    submitter: u32,
    operation: u8,
    bytes: &[u8],
    user: u64,
) -> Result<Packet, Refusal>
    ensures ok { IfOk result (λ packet. packet ≡ packet_with operation bytes.now user) }
    ensures refusal { IfErr result (λ refusal.
        IsRefusal (submit_refusal engine.now submitter (packet_with operation bytes.now user)) refusal) }
{
    if let Some(refusal) = engine.refusal_of(submitter, operation, bytes) {
        return Err(refusal);
    }
    match packet_of(alloc, operation, bytes, user) {
        Ok(packet) => Ok(packet),
        Err(_) => Err(Refusal::NoMemory),
    }
}

/// Queues a packet, and writes its number.
fn submit(
    alloc: Global,
    engine: &mut RecordedEngine,
    submitter: u32,
    packet: Packet,
    number: &mut u64,
) -> u32
    ensures ok { result ≡ 0 → Queues engine.old.engine (packet_ticket submitter number.new packet) engine.new.engine }
    ensures engine { ChangesEngine engine.old engine.new }
    ensures status { IsStatus (submit_refusal engine.old.engine submitter packet) result }
    ensures same { (result ≡ 0 → ⊥) → (engine.new ≡ engine.old) × (number.new ≡ number.old) }
{
    match engine.submit(alloc, submitter, packet) {
        Ok(next) => {
            *number = next;
            0
        }
        Err((packet, refusal)) => {
            drop(packet);
            refusal.number()
        }
    }
}

/// Queues a packet, whose data is copied, and writes its number among its submitter's packets.
#[unsafe(no_mangle)]
pub extern "C" fn kip_submit_bytes(
    alloc: Global,
    kip: &mut Kip,
    submitter: u32,
    operation: u8,
    bytes: &[u8],
    user_data: u64,
    number: &mut u64,
) -> u32
    ensures ok { result ≡ 0 → Moves (λ old new. Queues old
        (packet_ticket submitter number.new (packet_with operation bytes.now user_data)) new)
        kip.old.pointer.engine kip.new.pointer.engine }
    ensures status { IsStatusOf (λ engine. submit_refusal engine submitter (packet_with operation bytes.now user_data))
        kip.old.pointer.engine result }
    ensures same { (result ≡ 0 → ⊥) → (kip.new.pointer.engine ≡ kip.old.pointer.engine) × (number.new ≡ number.old) }
{
    let Some(engine) = kip.engine() else {
        return CLOSED;
    };
    match checked_packet(
        alloc,
        engine.engine(),
        submitter,
        operation,
        bytes,
        user_data,
    ) {
        Ok(packet) => submit(alloc, engine, submitter, packet, number),
        Err(refusal) => refusal.number(),
    }
}

/// Queues a pulse: a moment in nanoseconds to which the clock is raised.
#[unsafe(no_mangle)]
pub extern "C" fn kip_pulse(kip: &mut Kip, nanoseconds: u64) -> u32
    ensures ok { result ≡ 0 → Becomes (λ old new. Queues old.engine
        (ticket_of old.engine.front.submitters (item.Pulse nanoseconds)) new.engine) kip.old.pointer.engine kip.new.pointer.engine }
    ensures recorded { result ≡ 0 → Becomes (λ old new. PulsesRecorded old nanoseconds new) kip.old.pointer.engine kip.new.pointer.engine }
    ensures status { IsStatusOf (λ engine. pulse_refusal engine nanoseconds) kip.old.pointer.engine result }
    ensures same { (result ≡ 0 → ⊥) → kip.new.pointer.engine ≡ kip.old.pointer.engine }
{
    let Some(engine) = kip.engine() else {
        return CLOSED;
    };
    status_of(engine.pulse(nanoseconds))
}

/// Queues the Close: packets after it aren't committed.
#[unsafe(no_mangle)]
pub extern "C" fn kip_shut(kip: &mut Kip) -> u32
    ensures ok { result ≡ 0 → Moves (λ old new. Queues old
        (ticket_of old.front.submitters item.Close) new) kip.old.pointer.engine kip.new.pointer.engine }
    ensures status { IsStatusOf shut_refusal kip.old.pointer.engine result }
    ensures same { (result ≡ 0 → ⊥) → kip.new.pointer.engine ≡ kip.old.pointer.engine }
{
    let Some(engine) = kip.engine() else {
        return CLOSED;
    };
    status_of(engine.shut())
}

/// Commits the packets that are held.
#[unsafe(no_mangle)]
pub extern "C" fn kip_flush(kip: &mut Kip) -> u32
    ensures ok { result ≡ 0 → Moves (λ old new. Continues old new) kip.old.pointer.engine kip.new.pointer.engine }
    ensures held { result ≡ 0 → IsOpen (λ engine. engine.front.held ≡ []) kip.new.pointer.engine }
    ensures needed { result ≡ number_of NoMemoryRefusal → IsOpen (λ engine. 0 < length engine.front.held) kip.old.pointer.engine }
    ensures status { IsStatusOf (λ engine. None) kip.old.pointer.engine result }
    ensures same { (result ≡ 0 → ⊥) → kip.new.pointer.engine ≡ kip.old.pointer.engine }
{
    let Some(engine) = kip.engine() else {
        return CLOSED;
    };
    status_of(engine.flush())
}

/// Writes the head of the next reply, which stays, and its results if they fit.
fn peek(engine: &RecordedEngine, head: &mut KipReply, results: &mut [u8]) -> u32
    ensures { IsPeek result head.new results.old results.new engine.now }
{
    let Some(next) = engine.next_reply() else {
        return NO_REPLY;
    };
    *head = head_of(next);
    if head.size > results.len() as u64 {
        return TOO_SMALL;
    }
    put_results(&next.outcome, results);
    0
}

/// Reads the next reply and its results.
fn read(engine: &mut RecordedEngine, head: &mut KipReply, results: &mut [u8]) -> u32
    ensures { IsReading result head.new results.old results.new engine.old engine.new }
{
    let status = peek(engine, head, results);
    if status != 0 {
        return status;
    }
    drop(engine.reply());
    0
}

/// Reads the next reply, in the order of the packets, with its results: 8 bytes a failure, or 128 an account. If they are
/// too many for the buffer, the reply stays and its head has their size.
#[unsafe(no_mangle)]
pub extern "C" fn kip_reply_bytes(kip: &mut Kip, reply: &mut KipReply, results: &mut [u8]) -> u32
    ensures { IsReadingOf result reply.new results.old results.new kip.old.pointer.engine kip.new.pointer.engine }
{
    let Some(engine) = kip.engine() else {
        return CLOSED;
    };
    read(engine, reply, results)
}

/// Hands out the next entry of the journal, with a packet's data. If the data needs more than the buffer has, the entry stays the next
/// one, and its head has the size.
#[unsafe(no_mangle)]
pub extern "C" fn kip_entry_bytes(kip: &mut Kip, entry: &mut KipEntry, bytes: &mut [u8]) -> u32
    ensures { IsHandingOutOf result (entry.old, entry.new) (bytes.old, bytes.new) kip.old.pointer.engine kip.new.pointer.engine }
{
    let Some(engine) = kip.engine() else {
        return CLOSED;
    };
    hand_out(engine, entry, bytes)
}

/// Notes that all packets and pulses at places below a number are stored: the replies to those packets can be read.
#[unsafe(no_mangle)]
pub extern "C" fn kip_durable(kip: &mut Kip, places: u64) -> u32
    ensures { IsStoringOf result places kip.old.pointer.engine kip.new.pointer.engine }
{
    let Some(engine) = kip.engine() else {
        return CLOSED;
    };
    store(engine, places)
}

/// Commits an entry of a journal again, by itself and at the next place.
#[unsafe(no_mangle)]
pub extern "C" fn kip_restore_bytes(
    alloc: Global,
    kip: &mut Kip,
    entry: &KipEntry,
    bytes: &[u8],
) -> u32
    ensures { IsRestoringOf result entry.now bytes.now kip.old.pointer.engine kip.new.pointer.engine }
{
    let Some(engine) = kip.engine() else {
        return CLOSED;
    };
    restore(alloc, engine, entry, bytes)
}

/// Writes an account that was found, in 128 bytes.
fn put_found(found: Option<Account>, account: &mut [u8; 128]) -> u32
    ensures { IsAccount result found account.old account.new }
{
    match found {
        Some(found) => {
            *account = write_account(&found);
            0
        }
        None => NOT_FOUND,
    }
}

/// Writes the account with an id, in 128 bytes; held packets aren't in it.
#[unsafe(no_mangle)]
pub extern "C" fn kip_lookup_account(
    kip: &mut Kip,
    id_low: u64,
    id_high: u64,
    account: &mut [u8; 128],
) -> u32
    ensures lookup { IsAccountIn (λ engine. balanced_account (state_of engine).facts (id_of id_low id_high))
        result account.old account.new kip.old.pointer.engine }
    ensures same { kip.new.pointer.engine ≡ kip.old.pointer.engine }
{
    let Some(engine) = kip.engine() else {
        return CLOSED;
    };
    let id = u128::from(id_high) * U64_VALUES + u128::from(id_low);
    put_found(engine.engine().lookup_account(id), account)
}

/// Writes the account at an index in the order of making, counted from 0, in 128 bytes.
#[unsafe(no_mangle)]
pub extern "C" fn kip_account_at(kip: &mut Kip, index: usize, account: &mut [u8; 128]) -> u32
    ensures lookup { IsAccountIn (λ engine. slice_get (balanced_accounts (state_of engine).facts) index)
        result account.old account.new kip.old.pointer.engine }
    ensures same { kip.new.pointer.engine ≡ kip.old.pointer.engine }
{
    let Some(engine) = kip.engine() else {
        return CLOSED;
    };
    put_found(engine.engine().account_at(index), account)
}

/// Returns the number of a pending transfer's status; 0 for a transfer that isn't pending.
fn number_of_status(status: Option<Status>) -> u32
    ensures { result ≡ pending_number status }
{
    match status {
        None => 0,
        Some(Status::Pending) => 1,
        Some(Status::Posted) => 2,
        Some(Status::Voided) => 3,
        Some(Status::Expired) => 4,
    }
}

/// Writes a transfer, if there is one, in 128 bytes, and the number of its status.
fn put_transfer(
    found: Option<Transfer>,
    status: Option<Status>,
    transfer: &mut [u8; 128],
    pending_status: &mut u32,
) -> u32
    ensures { IsTransfer result found status (transfer.old, pending_status.old) (transfer.new, pending_status.new) }
{
    match found {
        Some(found) => {
            *transfer = write_transfer(&found);
            *pending_status = number_of_status(status);
            0
        }
        None => NOT_FOUND,
    }
}

/// Writes the transfer with an id, in 128 bytes, and the number of its status if it is pending.
#[unsafe(no_mangle)]
pub extern "C" fn kip_lookup_transfer(
    kip: &mut Kip,
    id_low: u64,
    id_high: u64,
    transfer: &mut [u8; 128],
    pending_status: &mut u32,
) -> u32
    ensures lookup { IsTransferIn (λ facts. transfer_with facts (id_of id_low id_high)) result
        (transfer.old, pending_status.old) (transfer.new, pending_status.new) kip.old.pointer.engine }
    ensures same { kip.new.pointer.engine ≡ kip.old.pointer.engine }
{
    let Some(engine) = kip.engine() else {
        return CLOSED;
    };
    let id = u128::from(id_high) * U64_VALUES + u128::from(id_low);
    let found = engine.engine().lookup_transfer(id);
    put_transfer(
        found,
        engine.engine().transfer_status(id),
        transfer,
        pending_status,
    )
}

/// Writes the transfer at an index in the order of making, counted from 0, in 128 bytes, and the number of its status if
/// it is pending.
#[unsafe(no_mangle)]
pub extern "C" fn kip_transfer_at(
    kip: &mut Kip,
    index: usize,
    transfer: &mut [u8; 128],
    pending_status: &mut u32,
) -> u32
    ensures lookup { IsTransferIn (λ facts. slice_get facts.transfers index) result
        (transfer.old, pending_status.old) (transfer.new, pending_status.new) kip.old.pointer.engine }
    ensures same { kip.new.pointer.engine ≡ kip.old.pointer.engine }
{
    let Some(engine) = kip.engine() else {
        return CLOSED;
    };
    let found = engine.engine().transfer_at(index);
    put_transfer(
        found,
        engine.engine().transfer_status_at(index),
        transfer,
        pending_status,
    )
}

/// Returns whether the engine stopped: 0 if it didn't, 8 if it did.
#[unsafe(no_mangle)]
pub extern "C" fn kip_stopped(kip: &mut Kip) -> u32
    ensures status { result ≡ stopped_status kip.old.pointer.engine }
    ensures same { kip.new.pointer.engine ≡ kip.old.pointer.engine }
{
    let Some(engine) = kip.engine() else {
        return CLOSED;
    };
    let has_stopped = engine.engine().stopped();
    if has_stopped {
        Refusal::Stopped.number()
    } else {
        0
    }
}

/// Writes how much is stored.
#[unsafe(no_mangle)]
pub extern "C" fn kip_counts(kip: &mut Kip, counts: &mut KipCounts) -> u32
    ensures counts { IsCountsOf result counts.old counts.new kip.old.pointer.engine }
    ensures same { kip.new.pointer.engine ≡ kip.old.pointer.engine }
{
    let Some(engine) = kip.engine() else {
        return CLOSED;
    };
    let stored = engine.engine().counts();
    *counts = KipCounts {
        accounts: stored.accounts as u64,
        transfers: stored.transfers as u64,
        failed_ids: stored.failed_ids as u64,
    };
    0
}

/// Writes the clock in nanoseconds.
#[unsafe(no_mangle)]
pub extern "C" fn kip_clock(kip: &mut Kip, nanoseconds: &mut u64) -> u32
    ensures clock { IsClockOf result nanoseconds.old nanoseconds.new kip.old.pointer.engine }
    ensures same { kip.new.pointer.engine ≡ kip.old.pointer.engine }
{
    let Some(engine) = kip.engine() else {
        return CLOSED;
    };
    *nanoseconds = engine.engine().clock();
    0
}

/// Writes how many packets and pulses are committed.
#[unsafe(no_mangle)]
pub extern "C" fn kip_places(kip: &mut Kip, places: &mut u64) -> u32
    ensures places { IsPlacesOf result places.old places.new kip.old.pointer.engine }
    ensures same { kip.new.pointer.engine ≡ kip.old.pointer.engine }
{
    let Some(engine) = kip.engine() else {
        return CLOSED;
    };
    *places = engine.engine().places();
    0
}
