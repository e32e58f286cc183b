//! An engine whose host may keep its journal.

ghost use Rattle.std.specs.Prelude.{◌≡◌, ◌<◌, [], length, None, Some, IfOk, IfErr, IfNone, IfSome, OnOk, OnErr, drop, get_or, slice_get, true, false};
ghost use Rattle.std.specs.Option.{option_copied};
ghost use Rattle.tb_work.specs.claim.Packet.{ReplyValue};
ghost use Rattle.tb_work.specs.declared.item.Item.TheVariants as item;
ghost use Rattle.tb_work.specs.declared.refusal.Refusal.TheVariants.{NoMemory as NoMemoryRefusal};
ghost use Rattle.tb_embed.specs.clauses.Engine.{Continues, IsRefusal, Queues, pulse_refusal, shut_refusal, submit_refusal};
ghost use Rattle.tb_embed.specs.clauses.Queued.{packet_ticket, ticket_of};
ghost use Rattle.tb_embed.specs.clauses.Recorded.{ChangesEngine, HandsPacket, PulsesRecorded, ReadsRecorded, handed_places, is_below, is_committed, is_stored, next_packet, place_in, next_pulse, readable, recorded, recorded_packet_fault, recorded_pulse_fault, has_open_entries, with_durable};
ghost use Rattle.tb_embed.specs.clauses.Restoring.{IsFault, RestoresPulse, RestoresUnseen};

use crate::engine::Engine;
use crate::laws::serving_is_lawful;
use crate::restoring::{PlacedPacket, PlacedPulse, RestoreFault};
use std::alloc::Global;
use std::collections::VecDeque;
use std::marker::Model;
use tb_layout::NoMemory;
use tb_work::{Outcome, Packet, Refusal, Reply};

/// An engine for a host that may keep its journal in a store of its own. A host that does takes out what is committed, packet by packet and
/// pulse by pulse, stores it, and says up to which place all is stored. The reply to a packet can't be read before. So no reply says
/// that a packet is committed which a crash could still lose. Look-ups show what is committed, stored or not.
///
/// Replies come in the order in which packets were queued. One to a packet that isn't committed waits only for those before it. If the host
/// keeps no journal, it is the engine.
pub struct RecordedEngine {
    engine: Engine,
    records: bool,
    pulses: VecDeque<PlacedPulse>,
    handed: VecDeque<Reply>,
    durable: u64,
}

impl Drop for RecordedEngine {
    /// Frees everything held in one call, so that no owner's proof repeats it.
    fn drop(self) {
        let RecordedEngine {
            engine,
            records: _,
            pulses,
            handed,
            durable: _,
        } = self;
        drop(engine);
        drop(pulses);
        drop(handed);
    }
}

impl Model for RecordedEngine {
    ghost use Rattle.tb_embed.specs.clauses.Recorded.{IsRecorded, RecordedState};

    ghost Value = { RecordedState };

    ghost view = { λ host. record {
      engine = host.engine;
      records = host.records;
      pulses = host.pulses.items;
      handed = host.handed.items;
      durable = host.durable;
    } };

    ghost invariant = { λ host. IsRecorded host.records host.handed.items };
}

/// Returns whether a packet is committed.
fn is_committed(outcome: &Outcome) -> bool
    ensures { result ≡ is_committed outcome.now }
{
    match outcome {
        Outcome::Committed { .. } => true,
        Outcome::Shutdown | Outcome::Stopped => false,
    }
}

/// Returns whether a packet isn't committed, or its place is above another.
fn is_below(place: u64, outcome: &Outcome) -> bool
    ensures { result ≡ is_below place outcome.now }
{
    !is_committed(outcome) || place < place_in(outcome)
}

/// Returns the place of a packet; 0 if it isn't committed.
fn place_in(outcome: &Outcome) -> u64
    ensures { result ≡ place_in outcome.now }
{
    match outcome {
        Outcome::Committed { place, .. } => *place,
        Outcome::Shutdown | Outcome::Stopped => 0,
    }
}

/// Returns whether a packet isn't committed, or all up to its place is stored.
fn is_stored(durable: u64, outcome: &Outcome) -> bool
    ensures { result ≡ is_stored durable outcome.now }
{
    !is_committed(outcome) || place_in(outcome) < durable
}

impl RecordedEngine {
    /// Returns an engine whose host keeps its journal, or doesn't. Nothing was handed out yet. Allocates nothing.
    pub fn new(alloc: Global, engine: Engine, records: bool) -> RecordedEngine
        ensures { result ≡ recorded engine records }
    {
        RecordedEngine {
            engine,
            records,
            pulses: VecDeque::new(alloc),
            handed: VecDeque::new(alloc),
            durable: 0,
        }
    }

    /// Returns the engine, for look-ups. Its next reply may be one that can't be read yet: ask `next_reply`.
    pub fn engine(&self) -> &Engine
        ensures { result.now ≡ self.now.engine }
    {
        &self.engine
    }

    /// Returns whether the host keeps the journal.
    pub fn records(&self) -> bool
        ensures { result ≡ self.now.records }
    {
        self.records
    }

    /// Reserves capacity, as `Engine::reserve` does.
    ///
    /// # Errors
    ///
    /// `NoMemory`, and nothing has changed.
    pub fn reserve(&mut self, accounts: usize, transfers: usize) -> Result<(), Refusal>
        ensures same { self.new ≡ self.old }
        ensures err { IfErr result (λ refusal. refusal ≡ NoMemoryRefusal) }
    {
        self.engine.reserve(accounts, transfers)
    }

    /// Queues a submitter's packet and returns its number, as `Engine::submit` does.
    ///
    /// # Errors
    ///
    /// Those of `Engine::submit`, with the packet. Nothing has changed then.
    pub fn submit(
        &mut self,
        alloc: Global,
        submitter: u32,
        packet: Packet,
    ) -> Result<u64, (Packet, Refusal)>
        ensures ok { IfOk result (λ number. Queues self.old.engine (packet_ticket submitter number packet) self.new.engine) }
        ensures engine { ChangesEngine self.old self.new }
        ensures number { IfOk result (λ number. number ≡ get_or self.old.engine.numbers submitter 0) }
        ensures admitted { OnOk result (submit_refusal self.old.engine submitter packet ≡ None) }
        ensures back { IfErr result (λ refused. (refused.0 ≡ packet) × (self.new ≡ self.old)) }
        ensures refusal { IfErr result (λ refused. IsRefusal (submit_refusal self.old.engine submitter packet) refused.1) }
    {
        self.engine.submit(alloc, submitter, packet)
    }

    /// Queues a pulse, as `Engine::pulse` does. If the host keeps the journal, the pulse is handed out.
    ///
    /// # Errors
    ///
    /// Those of `Engine::pulse`. Nothing has changed then.
    pub fn pulse(&mut self, nanoseconds: u64) -> Result<(), Refusal>
        ensures ok { OnOk result (Queues self.old.engine
            (ticket_of self.old.engine.front.submitters (item.Pulse nanoseconds)) self.new.engine) }
        ensures recorded { OnOk result (PulsesRecorded self.old nanoseconds self.new) }
        ensures admitted { OnOk result (pulse_refusal self.old.engine nanoseconds ≡ None) }
        ensures same { OnErr result (self.new ≡ self.old) }
        ensures refusal { IfErr result (λ refusal. IsRefusal (pulse_refusal self.old.engine nanoseconds) refusal) }
    {
        if !self.records {
            return self.engine.pulse(nanoseconds);
        }
        if let Some(refusal) = self.engine.refusal_of_pulse(nanoseconds) {
            return Err(refusal);
        }
        if self.pulses.reserve(1).is_err() {
            return Err(Refusal::NoMemory);
        }
        self.engine.pulse(nanoseconds)?;
        if !self.engine.stopped() {
            let place = self.engine.places().saturating_sub(1);
            self.pulses.push_back_reserved(PlacedPulse {
                place,
                moment: nanoseconds,
            });
        }
        Ok(())
    }

    /// Queues the Close, as `Engine::shut` does.
    ///
    /// # Errors
    ///
    /// Those of `Engine::shut`. Nothing has changed then.
    pub fn shut(&mut self) -> Result<(), Refusal>
        ensures ok { OnOk result (Queues self.old.engine
            (ticket_of self.old.engine.front.submitters item.Close) self.new.engine) }
        ensures shut { OnOk result (self.new.engine.shut ≡ true) }
        ensures engine { ChangesEngine self.old self.new }
        ensures admitted { OnOk result (shut_refusal self.old.engine ≡ None) }
        ensures same { OnErr result (self.new ≡ self.old) }
        ensures refusal { IfErr result (λ refusal. IsRefusal (shut_refusal self.old.engine) refusal) }
    {
        self.engine.shut()
    }

    /// Commits the packets that are held, as `Engine::flush` does.
    ///
    /// # Errors
    ///
    /// `NoMemory`, only if a packet is held, and nothing has changed.
    pub fn flush(&mut self) -> Result<(), Refusal>
        ensures ok { OnOk result (Continues self.old.engine self.new.engine) }
        ensures held { OnOk result (self.new.engine.front.held ≡ []) }
        ensures engine { ChangesEngine self.old self.new }
        ensures err { IfErr result (λ refusal. (refusal ≡ NoMemoryRefusal) × (self.new ≡ self.old)) }
        ensures needed { OnErr result (0 < length self.old.engine.front.held) }
    {
        self.engine.flush()
    }

    /// Returns the reply to the packet that is handed out next, unless `next_pulse` is ahead of it. None if no packet that is committed
    /// is left, or the host keeps no journal.
    pub fn next_packet(&self) -> Option<&Reply>
        ensures { option_copied result ≡ next_packet self.now }
    {
        let next = self.engine.next_reply()?;
        (self.records && is_committed(&next.outcome)).then_some(next)
    }

    /// Returns the pulse that is handed out next. None if a packet is ahead of it, or there is none.
    pub fn next_pulse(&self) -> Option<PlacedPulse>
        ensures { result ≡ next_pulse self.now }
    {
        let pulse = *self.pulses.front()?;
        match self.next_packet() {
            Some(reply) if !is_below(pulse.place, &reply.outcome) => None,
            _ => Some(pulse),
        }
    }

    /// Hands out the first pulse, if there is one: the host has it.
    pub fn hand_pulse(&mut self)
        ensures { self.new ≡ record self.old { pulses = drop 1 self.old.pulses } }
    {
        let _ = self.pulses.pop_front();
    }

    /// Hands out the next packet, if there is one: the host has it, and its reply waits until it is stored.
    ///
    /// # Errors
    ///
    /// `NoMemory`, only if there is a packet, and nothing has changed.
    pub fn hand_packet(&mut self) -> Result<(), NoMemory>
        ensures some { OnOk result ((reply : ReplyValue) → next_packet self.old ≡ Some reply → HandsPacket self.old reply self.new) }
        ensures none { next_packet self.old ≡ None → self.new ≡ self.old }
        ensures same { OnErr result (self.new ≡ self.old) }
        ensures needed { OnErr result (next_packet self.old ≡ None → ⊥) }
    {
        if self.next_packet().is_none() {
            return Ok(());
        }
        self.handed.reserve(1)?;
        let Some(reply) = self.engine.reply() else {
            unreachable!()
        };
        self.handed.push_back_reserved(reply);
        Ok(())
    }

    /// Returns the place up to which all was handed out: that of the next pulse or packet, or if there is none the next place.
    pub fn handed_places(&self) -> u64
        ensures { result ≡ handed_places self.now }
    {
        if let Some(pulse) = self.next_pulse() {
            return pulse.place;
        }
        match self.next_packet() {
            Some(reply) => place_in(&reply.outcome),
            None => self.engine.places(),
        }
    }

    /// Notes that all packets and pulses at places below a number are stored. A lower number than before changes nothing. What is above
    /// `handed_places` can't be stored yet: a host that gives such a number reads replies ahead of it.
    pub fn set_durable(&mut self, places: u64)
        ensures { self.new ≡ with_durable self.old places }
    {
        self.durable = self.durable.max(places);
    }

    /// Returns the next reply that can be read, which stays unread; None if there is none.
    pub fn next_reply(&self) -> Option<&Reply>
        ensures { option_copied result ≡ readable self.now }
    {
        if !self.records {
            return self.engine.next_reply();
        }
        if let Some(first) = self.handed.front() {
            return is_stored(self.durable, &first.outcome).then_some(first);
        }
        let next = self.engine.next_reply()?;
        (!is_committed(&next.outcome)).then_some(next)
    }

    /// Removes the next reply that can be read and returns it, in the order in which packets were queued; None if there is none.
    pub fn reply(&mut self) -> Option<Reply>
        ensures some { IfSome result (λ reply. ReadsRecorded self.old reply self.new) }
        ensures none { IfNone result ((readable self.old ≡ None) × (self.new ≡ self.old)) }
    {
        if self.reads_engine() {
            return self.engine.reply();
        }
        if self.next_reply().is_none() {
            return None;
        }
        self.handed.pop_front()
    }

    /// Returns whether the engine's next reply, if there is one, can be read.
    fn reads_engine(&self) -> bool
        ensures yes { result ≡ true → (self.now.handed ≡ []) × (readable self.now ≡ slice_get self.now.engine.unread 0) }
        ensures no { result ≡ false → self.now.handed ≡ [] → readable self.now ≡ None }
    {
        if !self.records {
            return true;
        }
        if !self.handed.is_empty() {
            return false;
        }
        match self.engine.next_reply() {
            Some(next) => !is_committed(&next.outcome),
            None => true,
        }
    }

    /// Returns whether a pulse isn't handed out yet, or the reply to a packet that was handed out isn't read. What else is committed has an
    /// unread reply in the engine.
    fn has_open_entries(&self) -> bool
        ensures { result ≡ has_open_entries self.now }
    {
        !self.pulses.is_empty() || !self.handed.is_empty()
    }

    /// Commits a packet of a journal by itself, as `Engine::restore_packet` does, without a reply. The host has it already.
    ///
    /// # Errors
    ///
    /// Those of `Engine::restore_packet`, with the packet. It is `InUse` too if a pulse isn't handed out, or a reply isn't read.
    /// Nothing has changed then.
    pub fn restore_packet(
        &mut self,
        alloc: Global,
        entry: PlacedPacket,
    ) -> Result<(), (PlacedPacket, RestoreFault)>
        ensures ok { OnOk result (RestoresUnseen self.old.engine entry self.new.engine) }
        ensures engine { ChangesEngine self.old self.new }
        ensures restorable { OnOk result (recorded_packet_fault self.old entry ≡ None) }
        ensures back { IfErr result (λ refused. (refused.0 ≡ entry) × (self.new ≡ self.old)) }
        ensures fault { IfErr result (λ refused. IsFault (recorded_packet_fault self.old entry) refused.1) }
    {
        if self.has_open_entries() {
            return Err((entry, RestoreFault::InUse));
        }
        self.engine.restore_packet(alloc, entry)?;
        // The law that its reply is the only one.
        serving_is_lawful();
        drop(self.engine.reply());
        Ok(())
    }

    /// Raises the clock by a pulse of a journal, as `Engine::restore_pulse` does. The host has it already.
    ///
    /// # Errors
    ///
    /// Those of `Engine::restore_pulse`. It is `InUse` too if a pulse isn't handed out, or a reply isn't read.
    /// Nothing has changed then.
    pub fn restore_pulse(&mut self, entry: PlacedPulse) -> Result<(), RestoreFault>
        ensures ok { OnOk result (RestoresPulse self.old.engine entry self.new.engine) }
        ensures engine { ChangesEngine self.old self.new }
        ensures restorable { OnOk result (recorded_pulse_fault self.old entry ≡ None) }
        ensures same { OnErr result (self.new ≡ self.old) }
        ensures fault { IfErr result (λ fault. IsFault (recorded_pulse_fault self.old entry) fault) }
    {
        if self.has_open_entries() {
            return Err(RestoreFault::InUse);
        }
        self.engine.restore_pulse(entry)
    }
}
