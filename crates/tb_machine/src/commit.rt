//! A packet's chains, one by one.

ghost use Rattle.std.specs.Prelude.{◌≡◌, ◌≢◌, ◌+◌, ◌<◌, ◌≤◌, [], ◌∷◌, length, map, take, Ok, IfOk, OnOk};
ghost use Rattle.tb_tables.specs.clauses.History.{mark_of, back_to, Extends};
ghost use Rattle.tb_layout.specs.claim.Limits.{clock_max};
ghost use Rattle.tb_machine.specs.claim.Chain.{verdict_after, try_events, chain_results, events_results};
ghost use Rattle.tb_machine.specs.inside.Committing.{MayCommit, Continues, HasCommitted};
ghost use Rattle.tb_machine.specs.inside.Faults.{attempt_of, facts_after_failure, open_chain_results, closed_chain_results};
ghost use Rattle.tb_machine.specs.inside.Examining.{fault_as, first_chain_length};

use crate::chain::{ChainStart, first_chain_length};
use crate::clock::{clock_after, next_timestamp};
use crate::event::CreateEvent;
use crate::fault::ChainFault;
use crate::report::report_failed;
use tb_layout::{Failure, NoMemory};
use tb_tables::{Mark, Tables};

const LINKED_EVENT_CHAIN_OPEN: u32 = 2;

const CLOCK_EXHAUSTED: u32 = 201;

/// The most events that are looked up ahead at once.
const BLOCK: usize = 64;

/// Up to this number the processor's cache has most accounts.
const CACHED_ACCOUNTS: usize = 1 << 13;

/// Stores the event, at the timestamp after the clock, if its checks find nothing, and returns the number of its
/// result. If the clock can't be raised, the event isn't checked.
#[inline(always)]
fn try_store_at<E: CreateEvent>(clock: u64, tables: &mut Tables, event: E) -> Result<u32, NoMemory>
    requires { clock ≤ clock_max }
    ensures extends { Extends tables.old tables.new }
    ensures code { IfOk result (λ code. code ≡ verdict_after E.operation clock tables.old.now event) }
    ensures stored { result ≡ Ok 0 → tables.new.now ≡ E.operation.stored tables.old.now (clock + 1) event }
    ensures raised { result ≡ Ok 0 → clock < clock_max }
    ensures same { result ≢ Ok 0 → tables.new ≡ tables.old }
{
    match next_timestamp(clock) {
        Some(timestamp) => event.try_store(tables, timestamp),
        None => Ok(CLOCK_EXHAUSTED),
    }
}

/// Stores the events in order up to the first fault, which is returned with its event's chunk: most chains have none,
/// and returning a chunk's address costs less than an event. No event after it is examined.
fn try_store_all<'a, E: CreateEvent>(
    clock: u64,
    tables: &mut Tables,
    chunks: &'a [[u8; 128]],
) -> Result<Option<ChainFault<&'a [u8; 128]>>, NoMemory>
    requires { clock ≤ clock_max }
    ensures extends { Extends tables.old tables.new }
    ensures attempt { IfOk result (λ fault. attempt_of tables.new.now (fault_as (λ chunk. E.event_of chunk.now) fault)
        ≡ try_events E.operation 0 clock tables.old.now (map E.event_of chunks.now)) }
{
    let mut clock = clock;
    for (index, chunk) in chunks.iter().enumerate() {
        let code = try_store_at(clock, tables, E::read(chunk))?;
        if code != 0 {
            return Ok(Some(ChainFault {
                index,
                event: chunk,
                code,
            }));
        }
        clock = clock_after(clock, 1);
    }
    Ok(None)
}

/// Returns a fault with its event in place of the event's chunk.
fn with_event<E: CreateEvent>(fault: Option<ChainFault<&[u8; 128]>>) -> Option<ChainFault<E>>
    ensures { result ≡ fault_as (λ chunk. E.event_of chunk.now) fault.entry }
{
    match fault {
        None => None,
        Some(ChainFault { index, event, code }) => Some(ChainFault {
            index,
            event: E::read(event),
            code,
        }),
    }
}

/// Takes a failed chain back, but for what its fault leaves.
fn undo_chain<E: CreateEvent>(
    tables: &mut Tables,
    mark: Mark,
    fault: Option<ChainFault<E>>,
) -> Result<(), NoMemory>
    requires { mark ≤ mark_of tables.old }
    ensures extends { Extends (back_to mark tables.old) tables.new }
    ensures facts { OnOk result (tables.new.now ≡ facts_after_failure E.operation (back_to mark tables.old).now fault) }
{
    tables.undo_to(mark);
    match fault {
        Some(fault) => fault.event.record_failed(tables, fault.code),
        None => Ok(()),
    }
}

/// Stores the event, at the timestamp after the clock, if its checks find nothing, or else records its failure. Returns
/// the number of its result. If the clock can't be raised, the event isn't checked.
#[inline(always)]
fn store_or_record_at<E: CreateEvent>(
    start: ChainStart,
    tables: &mut Tables,
    event: E,
) -> Result<u32, NoMemory>
    requires { start.clock ≤ clock_max }
    ensures extends { Extends tables.old tables.new }
    ensures code { IfOk result (λ code. code ≡ verdict_after E.operation start.clock tables.old.now event) }
    ensures stored { result ≡ Ok 0 → tables.new.now ≡ E.operation.stored tables.old.now (start.clock + 1) event }
    ensures failed { IfOk result (λ code. code ≢ 0
        → tables.new.now ≡ E.operation.after_failure tables.old.now code event) }
{
    match next_timestamp(start.clock) {
        Some(timestamp) => event.store_or_record(tables, timestamp, start.seems_stored),
        None => {
            event.record_failed(tables, CLOCK_EXHAUSTED)?;
            Ok(CLOCK_EXHAUSTED)
        }
    }
}

/// Takes an event that is a chain by itself: it succeeds, or it is reported with its own code and leaves what
/// that does. There is nothing to take back.
fn commit_event<E: CreateEvent>(
    start: ChainStart,
    tables: &mut Tables,
    chunk: &[u8; 128],
    out: &mut Vec<Failure>,
) -> Result<(), NoMemory>
    requires { MayCommit start.clock start.index 1 out.old }
    ensures continues { Continues tables.old tables.new out.old out.new }
    ensures committed { OnOk result (HasCommitted start.index (closed_chain_results E.operation start.clock
        tables.old.now (E.event_of chunk.now ∷ [])) tables.new out.old out.new) }
{
    let code = store_or_record_at(start, tables, E::read(chunk))?;
    if code != 0 {
        out.push_reserved(Failure {
            index: start.index as u32,
            code,
        });
    }
    Ok(())
}

/// Takes a chain whose last event isn't linked: each of its events succeeds, or each is reported, the first fault
/// with its own code.
fn commit_closed_chain<E: CreateEvent>(
    start: ChainStart,
    tables: &mut Tables,
    chain: &[[u8; 128]],
    out: &mut Vec<Failure>,
) -> Result<(), NoMemory>
    requires { MayCommit start.clock start.index (length chain.now) out.old }
    ensures continues { Continues tables.old tables.new out.old out.new }
    ensures committed { OnOk result (HasCommitted start.index (closed_chain_results E.operation start.clock
        tables.old.now (map E.event_of chain.now)) tables.new out.old out.new) }
{
    let mark = tables.mark();
    let fault = try_store_all::<E>(start.clock, tables, chain)?;
    if fault.is_some() {
        let fault = with_event::<E>(fault);
        undo_chain(tables, mark, fault)?;
        report_failed(out, start.index, chain.len(), fault);
    }
    Ok(())
}

/// Takes a chain whose last event is linked, without that one: all of it fails, and the last event, which is never
/// examined, reports that the chain is open. The first fault among the others has its own code.
fn commit_open_chain<E: CreateEvent>(
    start: ChainStart,
    tables: &mut Tables,
    front: &[[u8; 128]],
    out: &mut Vec<Failure>,
) -> Result<(), NoMemory>
    requires { MayCommit start.clock start.index (length front.now + 1) out.old }
    ensures continues { Continues tables.old tables.new out.old out.new }
    ensures committed { OnOk result (HasCommitted start.index (open_chain_results E.operation start.clock
        tables.old.now (map E.event_of front.now)) tables.new out.old out.new) }
{
    let mark = tables.mark();
    let fault = with_event::<E>(try_store_all::<E>(start.clock, tables, front)?);
    undo_chain(tables, mark, fault)?;
    report_failed(out, start.index, front.len(), fault);
    out.push_reserved(Failure {
        index: (start.index + front.len()) as u32,
        code: LINKED_EVENT_CHAIN_OPEN,
    });
    Ok(())
}

/// Takes one chain, and reports its events if it fails.
fn commit_chain<E: CreateEvent>(
    start: ChainStart,
    tables: &mut Tables,
    chain: &[[u8; 128]],
    out: &mut Vec<Failure>,
) -> Result<(), NoMemory>
    requires some { 0 < length chain.now }
    requires may { MayCommit start.clock start.index (length chain.now) out.old }
    ensures continues { Continues tables.old tables.new out.old out.new }
    ensures committed { OnOk result (HasCommitted start.index (chain_results E.operation start.clock
        tables.old.now (map E.event_of chain.now)) tables.new out.old out.new) }
{
    let last = chain.len() - 1;
    if E::is_chunk_linked(&chain[last]) {
        commit_open_chain::<E>(start, tables, &chain[..last], out)
    } else {
        commit_closed_chain::<E>(start, tables, chain, out)
    }
}

/// Takes the first chain of some events, and returns its number of events. Most events are chains by themselves.
#[inline(always)]
fn commit_first<E: CreateEvent>(
    start: ChainStart,
    tables: &mut Tables,
    events: &[[u8; 128]],
    out: &mut Vec<Failure>,
) -> Result<usize, NoMemory>
    requires some { 0 < length events.now }
    requires may { MayCommit start.clock start.index (length events.now) out.old }
    ensures count { IfOk result (λ count. count
        ≡ first_chain_length E.operation.is_linked (map E.event_of events.now)) }
    ensures within { IfOk result (λ count. (0 < count) × (count ≤ length events.now)) }
    ensures continues { Continues tables.old tables.new out.old out.new }
    ensures committed { IfOk result (λ count. HasCommitted start.index (chain_results E.operation start.clock
        tables.old.now (map E.event_of (take count events.now))) tables.new out.old out.new) }
{
    if !E::is_chunk_linked(&events[0]) {
        commit_event::<E>(start, tables, &events[0], out)?;
        return Ok(1);
    }
    let count = first_chain_length::<E>(events);
    commit_chain::<E>(start, tables, &events[..count], out)?;
    Ok(count)
}

/// Returns how many of the first events have a timestamp.
#[inline(never)]
fn count_with_timestamp<E: CreateEvent>(chunks: &[[u8; 128]]) -> usize
    ensures { result ≤ length chunks.now }
{
    let other = chunks
        .iter()
        .position(|chunk| !E::read(chunk).has_timestamp());
    other.unwrap_or(chunks.len())
}

/// Looks ids up until one is stored; how many aren't.
#[inline(never)]
fn count_new<E: CreateEvent>(tables: &Tables, chunks: &[[u8; 128]]) -> usize
    ensures { result ≤ length chunks.now }
{
    let other = chunks
        .iter()
        .position(|chunk| E::read(chunk).is_stored(tables));
    other.unwrap_or(chunks.len())
}

/// Looks ids up until one isn't stored; how many are.
#[inline(never)]
fn count_stored<E: CreateEvent>(tables: &Tables, chunks: &[[u8; 128]]) -> usize
    ensures { result ≤ length chunks.now }
{
    let other = chunks
        .iter()
        .position(|chunk| !E::read(chunk).is_stored(tables));
    other.unwrap_or(chunks.len())
}

/// Looks the accounts of events up until one isn't there; how many events have theirs.
#[inline(never)]
fn count_with_accounts<E: CreateEvent>(tables: &Tables, chunks: &[[u8; 128]]) -> usize
    ensures { result ≤ length chunks.now }
{
    let other = chunks
        .iter()
        .position(|chunk| !E::read(chunk).has_accounts(tables));
    other.unwrap_or(chunks.len())
}

/// How far was looked ahead: over events whose ids are new, or that fail their first check, and then over some that are
/// stored.
#[derive(Clone, Copy)]
struct Ahead {
    /// The index after the first ones.
    new: usize,

    /// The index after those that are stored.
    stored: usize,
}

/// Looks up the ids of the events after the one at `index`, so that memory is asked for all of them at once: with one
/// look-up at a time each would wait. If there are many accounts it looks up those of new events too. Events with a
/// timestamp fail without a look-up: if some are first it goes no further.
fn look_ahead<E: CreateEvent>(tables: &Tables, chunks: &[[u8; 128]], index: usize) -> Ahead
    requires { index < length chunks.now }
{
    let end = chunks.len().min(index.saturating_add(BLOCK));
    let next = index + 1;
    let block = &chunks[next..end];
    let faulty = if block.is_empty() {
        0
    } else {
        count_with_timestamp::<E>(block)
    };
    if faulty > 0 || block.is_empty() {
        return Ahead {
            new: next + faulty,
            stored: next + faulty,
        };
    }
    let ids = count_new::<E>(tables, block);
    let new = if tables.accounts() > CACHED_ACCOUNTS {
        count_with_accounts::<E>(tables, &block[..ids])
    } else {
        ids
    };
    let stored = if new < ids || ids == block.len() {
        0
    } else {
        1 + count_stored::<E>(tables, &block[ids + 1..])
    };
    Ahead {
        new: next + new,
        stored: next + new + stored,
    }
}

/// Takes the chains of a packet in order, and reports the events that failed. On an error, part of
/// the changes may have been made.
pub(crate) fn commit_chains<E: CreateEvent>(
    clock: u64,
    tables: &mut Tables,
    chunks: &[[u8; 128]],
    out: &mut Vec<Failure>,
) -> Result<(), NoMemory>
    requires { MayCommit clock 0 (length chunks.now) out.old }
    ensures continues { Continues tables.old tables.new out.old out.new }
    ensures committed { OnOk result (HasCommitted 0 (events_results E.operation clock
        tables.old.now (map E.event_of chunks.now)) tables.new out.old out.new) }
{
    let mut start = ChainStart {
        clock,
        index: 0,
        seems_stored: false,
    };
    let mut ahead = Ahead { new: 0, stored: 0 };
    while start.index < chunks.len() {
        let mut seems_stored = false;
        if start.index >= ahead.new {
            seems_stored = start.index < ahead.stored;
            if !seems_stored {
                ahead = look_ahead::<E>(tables, chunks, start.index);
            }
        }
        let first = ChainStart {
            seems_stored,
            ..start
        };
        let count = commit_first::<E>(first, tables, &chunks[start.index..], out)?;
        start = start.next(count);
    }
    Ok(())
}
