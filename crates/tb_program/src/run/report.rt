//! What is printed of a run.

ghost use Rattle.std.specs.Prelude.{◌≡◌, ◌<◌, ◌≤◌, ◌+◌, ◌^◌, ◌++◌, ◌∷◌, ◌||◌, [], length, map, IfOk, IsSomeAnd, OnOk, string_bytes};
ghost use Rattle.std.specs.List.{count_by, flat_map};
ghost use Rattle.tb_core.specs.claim.Ledger.{group_of};
ghost use Rattle.tb_core.specs.claim.Journal.{inputs};
ghost use Rattle.tb_layout.specs.claim.Bounds.{submitters_max};
ghost use Rattle.tb_submit.specs.clauses.Ends.{replies_of};
ghost use Rattle.tb_program.specs.inside.Answering.{AreAllAnswered, AreAllDone, IsAnswered, IsAnsweredBy};
ghost use Rattle.tb_program.specs.inside.Drivers.{IsDone, results_of};
ghost use Rattle.tb_program.specs.inside.Lacking.{is_lost, is_pulse};
ghost use Rattle.tb_program.specs.clauses.RunText.{lacks_packet, lacks_packets, lacks_pulse as fewer, replies_after, ledger_text, packets_text, pulses_text, refused_pulses_text, run_text, line_of_packet, lines_of_packets};
ghost use Rattle.tb_program.specs.declared.run.notes.PacketResult.TheVariants.{Queued};

use crate::run::driver::ScriptDriver;
use crate::run::notes::{Notes, PacketResult};
use crate::state::put_state;
use std::alloc::{AllocError, Global};
use std::marker::Model;
use std::vec::IntoIter;
use tb_core::{Entry, Ledger};
use tb_drive::PlanDriver;
use tb_layout::NoMemory;
use tb_pipe::{Finished, Report};
use tb_program_text::{put_pulse, put_refused, put_refused_pulse, put_reply};
use tb_submit::Ended;
use tb_work::{Outcome, Refusal, Reply};

/// The shortest line of a packet, as `packet 0 0 committed 0` and its end.
const SHORTEST_LINE: usize = 23;

/// The text of a run.
#[derive(Drop)]
pub(crate) struct RunText {
    pub(crate) text: String,
    /// Whether memory ran out for a packet, whose line says stopped or refused, or for a pulse, which has no line.
    pub(crate) lacks_memory: bool,
}

/// A submitter's replies in their order: those that its driver read, and then those that its end still has. It is seen
/// as those that are left.
#[derive(Drop)]
struct Replies {
    read: IntoIter<Reply>,
    ended: Ended,
}

impl Model for Replies {
    ghost use Rattle.std.specs.Prelude.{List, ◌++◌};
    ghost use Rattle.std.specs.Vec.Iter.{into_iter_items};
    ghost use Rattle.tb_work.specs.claim.Packet.{ReplyValue};

    ghost Value = { List ReplyValue };

    ghost view = { λ replies. into_iter_items replies.read ++ replies.ended.lying };
}

impl Replies {
    fn next(&mut self) -> Option<Reply>
        ensures { 0 < length self.old → IsSomeAnd result (λ reply. self.old ≡ reply ∷ self.new) }
    {
        match self.read.next() {
            Some(reply) => Some(reply),
            None => self.ended.reply(),
        }
    }

    /// Adds the line of a packet: its reply, or why it was refused.
    fn put_result(
        &mut self,
        out: &mut RunText,
        submitter: u32,
        packet_result: PacketResult,
    ) -> Result<(), AllocError>
        requires { packet_result ≡ Queued → 0 < length self.old }
        ensures text { OnOk result (string_bytes out.new.text
            ≡ string_bytes out.old.text ++ line_of_packet submitter packet_result self.old) }
        ensures lacking { OnOk result (out.new.lacks_memory ≡ (out.old.lacks_memory || is_lost packet_result self.old)) }
        ensures left { OnOk result (self.new ≡ replies_after packet_result self.old) }
    {
        match packet_result {
            PacketResult::Queued => match self.next() {
                Some(reply) => {
                    out.lacks_memory |= matches!(reply.outcome, Outcome::Stopped);
                    put_reply(&mut out.text, &reply)
                }
                None => Ok(()),
            },
            PacketResult::Refused(refusal) => {
                out.lacks_memory |= matches!(refusal, Refusal::NoMemory);
                put_refused(&mut out.text, submitter, refusal)
            }
        }
    }
}

/// Adds the lines of packets whose results are noted.
#[tactic(auto, unfolding(crate::specs::clauses::RunText::lines_of_packets))]
fn put_results(
    out: &mut RunText,
    submitter: u32,
    results: &[PacketResult],
    replies: &mut Replies,
) -> Result<(), AllocError>
    requires { IsAnswered results.now replies.old }
    ensures text { OnOk result (string_bytes out.new.text
        ≡ string_bytes out.old.text ++ lines_of_packets submitter results.now replies.old) }
    ensures lacking { OnOk result (out.new.lacks_memory ≡ (out.old.lacks_memory || lacks_packet results.now replies.old)) }
{
    for packet_result in results {
        replies.put_result(out, submitter, *packet_result)?;
    }
    Ok(())
}

/// Adds the lines of a submitter's packets.
fn put_packets(
    out: &mut RunText,
    submitter: u32,
    driver: ScriptDriver,
    ended: Ended,
) -> Result<(), NoMemory>
    requires { IsAnsweredBy driver ended }
    ensures done { OnOk result (IsDone driver) }
    ensures text { OnOk result (string_bytes out.new.text
        ≡ string_bytes out.old.text ++ lines_of_packets submitter (results_of driver) (ended.read ++ ended.lying)) }
    ensures lacking { OnOk result (out.new.lacks_memory
        ≡ (out.old.lacks_memory || lacks_packet (results_of driver) (ended.read ++ ended.lying))) }
{
    let Some(
        Notes {
            results,
            replies,
            ..
        },
    ) = driver.into_notes()
    else {
        drop(ended);
        return Err(NoMemory);
    };
    let mut replies = Replies {
        read: replies.into_iter(),
        ended,
    };
    let put = put_results(out, submitter, &results, &mut replies);
    drop(replies);
    Ok(put?)
}

/// Adds the lines of all packets, by rising number of their submitters.
#[tactic(auto, unfolding(crate::specs::clauses::RunText::packets_text))]
pub(crate) fn put_all_packets(
    out: &mut RunText,
    drivers: Vec<ScriptDriver>,
    ends: Vec<Ended>,
) -> Result<(), NoMemory>
    requires few { length drivers.items ≤ submitters_max }
    requires number { length ends.items ≡ length drivers.items }
    requires answered { AreAllAnswered drivers.items ends.items }
    ensures done { OnOk result (AreAllDone drivers.items) }
    ensures text { OnOk result (string_bytes out.new.text
        ≡ string_bytes out.old.text ++ packets_text 0 (map results_of drivers.items) (replies_of ends.items)) }
    ensures lacking { OnOk result (out.new.lacks_memory
        ≡ (out.old.lacks_memory || lacks_packets (map results_of drivers.items) (replies_of ends.items))) }
{
    let mut ends = ends.into_iter();
    let mut submitter = 0u32;
    for driver in drivers {
        let Some(ended) = ends.next() else {
            unreachable!()
        };
        put_packets(out, submitter, driver, ended)?;
        submitter += 1;
    }
    Ok(())
}

/// Adds the line of an entry that is a pulse, whose place is given; none of a batch. Returns the place after the entry.
fn put_entry(out: &mut String, place: u64, entry: &Entry) -> Result<u64, AllocError>
    requires { place + length (group_of entry.now) < 2 ^ 64 }
    ensures next_place { IfOk result (λ next_place. next_place ≡ place + length (group_of entry.now)) }
    ensures text { OnOk result (string_bytes out.new ≡ string_bytes out.old ++ pulses_text place (group_of entry.now)) }
{
    match entry {
        Entry::Batch { stubs, .. } => Ok(place + stubs.len() as u64),
        Entry::Pulse { .. } => {
            put_pulse(out, place)?;
            Ok(place + 1)
        }
    }
}

/// Adds the lines of the committed pulses. A pulse has its place among all that was committed.
fn put_pulses(out: &mut String, journal: &[Entry]) -> Result<(), AllocError>
    requires { length (flat_map group_of journal.now) < 2 ^ 64 }
    ensures { OnOk result (string_bytes out.new ≡ string_bytes out.old
        ++ pulses_text 0 (flat_map group_of journal.now)) }
{
    let mut place = 0u64;
    for entry in journal {
        place = put_entry(out, place, entry)?;
    }
    Ok(())
}

fn put_refused_pulses(out: &mut String, count: u64) -> Result<(), AllocError>
    ensures { OnOk result (string_bytes out.new ≡ string_bytes out.old ++ refused_pulses_text count) }
{
    for _ in 0..count {
        put_refused_pulse(out)?;
    }
    Ok(())
}

/// Adds the lines of what was committed: the pulses, those that were refused, the clock and the accounts.
fn put_ledger(out: &mut String, ledger: &Ledger, refused_pulses: u64) -> Result<(), NoMemory>
    requires { length (inputs ledger.now) < 2 ^ 64 }
    ensures { OnOk result (string_bytes out.new ≡ string_bytes out.old
        ++ ledger_text (inputs ledger.now) refused_pulses ledger.now.state) }
{
    put_pulses(out, ledger.journal())?;
    put_refused_pulses(out, refused_pulses)?;
    put_state(out, ledger.machine())?;
    Ok(())
}

/// Returns how many entries are pulses.
fn pulses_in(journal: &[Entry]) -> usize
    ensures { result ≡ count_by is_pulse journal.now }
{
    journal
        .iter()
        .filter(|entry| matches!(entry, Entry::Pulse { .. }))
        .count()
}

/// Returns whether fewer pulses are committed than were queued.
fn lacks_pulse(ledger: &Ledger, queued: usize) -> bool
    ensures { result ≡ fewer (inputs ledger.now) queued }
{
    pulses_in(ledger.journal()) < queued
}

/// Adds all lines of a run.
fn put_run(
    out: &mut RunText,
    ledger: &Ledger,
    drivers: Vec<ScriptDriver>,
    ends: Vec<Ended>,
    refused_pulses: u64,
) -> Result<(), NoMemory>
    requires few { length drivers.items ≤ submitters_max }
    requires number { length ends.items ≡ length drivers.items }
    requires answered { AreAllAnswered drivers.items ends.items }
    requires places { length (inputs ledger.now) < 2 ^ 64 }
    ensures done { OnOk result (AreAllDone drivers.items) }
    ensures text { OnOk result (string_bytes out.new.text
        ≡ string_bytes out.old.text ++ run_text (map results_of drivers.items) (replies_of ends.items)
        (inputs ledger.now) refused_pulses ledger.now.state) }
    ensures lacking { OnOk result (out.new.lacks_memory
        ≡ (out.old.lacks_memory || lacks_packets (map results_of drivers.items) (replies_of ends.items))) }
{
    put_all_packets(out, drivers, ends)?;
    put_ledger(&mut out.text, ledger, refused_pulses)
}

/// Returns an empty text, with room for the shortest lines of what was committed.
fn text_with_room(alloc: Global, ledger: &Ledger) -> Result<String, AllocError>
    ensures { IfOk result (λ text. string_bytes text ≡ []) }
{
    let probable = (ledger.places() as usize).saturating_mul(SHORTEST_LINE);
    String::with_capacity(alloc, probable)
}

/// Returns a text with all lines of a run added to it, whose control queued this number of pulses.
fn with_run(
    text: String,
    finished: Finished<ScriptDriver, PlanDriver>,
    queued: usize,
) -> Result<RunText, NoMemory>
    requires few { length finished.drivers.items ≤ submitters_max }
    requires number { length finished.report.ends.items ≡ length finished.drivers.items }
    requires answered { AreAllAnswered finished.drivers.items finished.report.ends.items }
    ensures done { IfOk result (λ all. AreAllDone finished.drivers.items) }
    ensures text { IfOk result (λ all. string_bytes all.text
        ≡ string_bytes text ++ run_text (map results_of finished.drivers.items) (replies_of finished.report.ends.items)
        (inputs finished.report.ledger) finished.control.refused
        finished.report.ledger.state) }
    ensures lacking { IfOk result (λ all. all.lacks_memory
        ≡ (lacks_packets (map results_of finished.drivers.items) (replies_of finished.report.ends.items)
        || fewer (inputs finished.report.ledger) queued)) }
{
    let Report { ledger, ends } = finished.report;
    let lacks_pulse = lacks_pulse(&ledger, queued);
    let mut out = RunText {
        text,
        lacks_memory: false,
    };
    let put = put_run(
        &mut out,
        &ledger,
        finished.drivers,
        ends,
        finished.control.refused,
    );
    drop(ledger);
    put?;
    out.lacks_memory |= lacks_pulse;
    Ok(out)
}

/// Returns the text of a run whose control queued this number of pulses: its packets, its pulses, the pulses that were
/// refused, the clock and the accounts. It begins with room for the shortest lines of what was committed.
pub(crate) fn text_of(
    alloc: Global,
    finished: Finished<ScriptDriver, PlanDriver>,
    queued: usize,
) -> Result<RunText, NoMemory>
    requires few { length finished.drivers.items ≤ submitters_max }
    requires number { length finished.report.ends.items ≡ length finished.drivers.items }
    requires answered { AreAllAnswered finished.drivers.items finished.report.ends.items }
    ensures done { IfOk result (λ made. AreAllDone finished.drivers.items) }
    ensures text { IfOk result (λ made. string_bytes made.text
        ≡ run_text (map results_of finished.drivers.items) (replies_of finished.report.ends.items)
        (inputs finished.report.ledger) finished.control.refused
        finished.report.ledger.state) }
    ensures lacking { IfOk result (λ made. made.lacks_memory
        ≡ (lacks_packets (map results_of finished.drivers.items) (replies_of finished.report.ends.items)
        || fewer (inputs finished.report.ledger) queued)) }
{
    match text_with_room(alloc, &finished.report.ledger) {
        Ok(text) => with_run(text, finished, queued),
        Err(_) => {
            drop(finished);
            Err(NoMemory)
        }
    }
}
