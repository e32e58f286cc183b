//! The ledger without its journal.

ghost use Rattle.std.specs.Prelude.{◌≡◌, ◌<◌, ◌≤◌, ◌+◌, ◌++◌, ◌∷◌, [], ℕ, List, Option, false, true, length, map, OnOk, OnErr, IfOk, IfErr, None, Some};
ghost use Rattle.tb_layout.specs.claim.Events.{events_of, Input};
ghost use Rattle.tb_layout.specs.claim.Limits.{clock_max};
ghost use Rattle.tb_layout.specs.claim.Bounds.{places_max};
ghost use Rattle.tb_layout.specs.claim.Failures.{RiseWithin, from_offset};
ghost use Rattle.tb_layout.specs.declared.answer.Answer.TheVariants.{Accounts as AccountsOf, Failures as FailuresOf};
ghost use Rattle.tb_machine.specs.claim.Replay.{State, after_packet, answer_of, replay};
ghost use Rattle.tb_batch.specs.claim.Batch.{AreAdmitted, AreParts};
ghost use Rattle.tb_work.specs.claim.Admission.{count_of};
ghost use Rattle.tb_work.specs.claim.Job.{is_lookup};
ghost use Rattle.tb_work.specs.claim.Packet.{events_in, input_of};
ghost use Rattle.tb_work.specs.claim.Answer.{reply_with};
ghost use Rattle.tb_work.specs.declared.outcome.Outcome.TheVariants.{Committed as CommittedOutcome, Stopped as StoppedOutcome};
ghost use Rattle.tb_core.specs.claim.BareLedger.{grows};
ghost use Rattle.tb_core.specs.declared.journal.Entry.{Entry as EntryValue};
ghost use Rattle.tb_core.specs.declared.outcomes.Outcomes.TheVariants.{Cut};
ghost use Rattle.tb_core.specs.claim.Ledger.{group_of, IsEntry};
ghost use Rattle.tb_core.specs.inside.BatchAnswer.{AreAnswered, answer_in};
ghost use Rattle.tb_core.specs.claim.Decision.{cause_outcome, replies_from, Admitted};

use crate::journal::Entry;
use crate::outcomes::Outcomes;
use crate::parcel::{Cause, Parcel};
use std::alloc::Global;
use std::marker::Model;
use tb_batch::{Batch, Parts};
use tb_demux::Cutter;
use tb_layout::{Account, Failure, LOOKUP_ACCOUNTS, NoMemory, PLACES_MAX};
use tb_machine::{Machine, Seed, joining_is_invisible};
use tb_work::{Accounts, Answer, Failures, Job, Moment, Outcome, Reply, looks_up};

/// Commits what the front yields, as `Ledger` does, and keeps no journal. Its memory grows only by what is stored, and by a list with
/// room for the failures of one packet.
#[derive(Drop)]
pub struct BareLedger {
    alloc: Global,
    opening: u64,
    machine: Machine,
    places: u64,
    stopped: bool,
    /// Those of a packet that is committed alone, until they are in its reply.
    failures: Vec<Failure>,
}

impl Model for BareLedger {
    ghost use Rattle.tb_core.specs.claim.BareLedger.{BareLedgerState, IsBareLedger};

    ghost Value = { BareLedgerState };

    ghost view = { λ bare. record {
      opening = bare.opening;
      places = bare.places;
      state = bare.machine;
      stopped = bare.stopped;
    } };

    ghost invariant = { λ bare. IsBareLedger bare.opening bare.places };
}

/// Lets the machine take a batch. If memory runs out, it and the parts are as before.
fn take_batch(machine: &mut Machine, parts: &mut Parts) -> Result<(), NoMemory>
    requires parts { AreParts parts.old }
    ensures jobs { parts.new.jobs.items ≡ parts.old.jobs.items }
    ensures answered { OnOk result (AreAnswered machine.old parts.new) }
    ensures state { OnOk result (machine.new ≡ after_packet machine.old
        (events_of parts.new.operation parts.new.body.items)) }
    ensures same { OnErr result (machine.new ≡ machine.old) }
    ensures back { OnErr result (AreParts parts.new) }
{
    if parts.operation == LOOKUP_ACCOUNTS {
        machine.lookup(&parts.body, &mut parts.accounts);
        Ok(())
    } else {
        machine.commit(parts.operation, &parts.body, &mut parts.failures)
    }
}

/// Lets the machine take the data of a packet that is no lookup, and puts its failures into a list in place of what was there. If memory
/// runs out, the machine is as before.
fn take_alone(machine: &mut Machine, failures: &mut Vec<Failure>, job: &Job) -> Result<(), NoMemory>
    requires { is_lookup job.now.packet ≡ false }
    ensures answer { OnOk result (answer_of machine.old (events_in job.now.packet) ≡ FailuresOf (map (from_offset 0) failures.new.items)) }
    ensures rise { OnOk result (RiseWithin 0 (count_of job.now.packet) failures.new.items) }
    ensures state { OnOk result (machine.new ≡ after_packet machine.old (events_in job.now.packet)) }
    ensures same { OnErr result (machine.new ≡ machine.old) }
{
    failures.clear();
    failures.reserve(job.stub().count as usize)?;
    // The law that a packet's failures rise.
    joining_is_invisible();
    let packet = job.packet();
    machine.commit(packet.operation, packet.bytes.as_slice(), failures)
}

/// Returns the accounts that a lookup finds.
fn look_up(alloc: Global, machine: &Machine, job: &Job) -> Result<Accounts, NoMemory>
    requires { is_lookup job.now.packet ≡ true }
    ensures found { IfOk result (λ accounts. answer_of machine.now (events_in job.now.packet) ≡ AccountsOf accounts) }
    ensures fits { IfOk result (λ accounts. length accounts ≤ count_of job.now.packet) }
    ensures state { after_packet machine.now (events_in job.now.packet) ≡ machine.now }
{
    let mut accounts = Vec::with_capacity(alloc, job.stub().count as usize)?;
    machine.lookup(job.packet().bytes.as_slice(), &mut accounts);
    Ok(Accounts::from_vec(accounts))
}

/// Returns the answer to a batch: accounts if it is a lookup, failures else.
fn answer(operation: u8, failures: Vec<Failure>, accounts: Vec<Account>) -> Answer
    ensures { result ≡ answer_in operation failures.items accounts.items }
{
    if operation == LOOKUP_ACCOUNTS {
        Answer::Accounts(Accounts::from_vec(accounts))
    } else {
        Answer::Failures(Failures::from_vec(failures))
    }
}

/// A parcel that was applied: its outcomes, and its entry of the journal if it was committed.
#[derive(Drop)]
pub(crate) struct Recorded {
    pub(crate) outcomes: Outcomes,
    pub(crate) entry: Option<Entry>,
}

/// Divides the answer to a batch that was committed at a place.
fn record(place: u64, parts: Parts) -> Recorded
    requires answered { (state : State) × AreAnswered state parts }
    requires fits { place + length parts.jobs.items ≤ places_max }
    ensures entry { (entry : EntryValue) × (result.entry ≡ Some entry) × (group_of entry ≡ map input_of parts.jobs.items)
        × IsEntry entry }
    ensures replies { (clock : ℕ) (before : List Input) → place ≡ length before → AreAnswered (replay clock before) parts
        → result.outcomes ≡ Cut (replies_from clock (before ++ map input_of parts.jobs.items) place
        (map Admitted parts.jobs.items)) }
{
    let Parts {
        operation,
        body,
        stubs,
        jobs,
        failures,
        accounts,
    } = parts;
    // The law that each packet's part of the answer is its own.
    joining_is_invisible();
    let answer = answer(operation, failures, accounts);
    Recorded {
        outcomes: Outcomes::Cut(Cutter::new(jobs, Outcome::Committed { place, answer })),
        entry: Some(Entry::Batch {
            operation,
            body,
            stubs,
        }),
    }
}

/// Returns the replies to a batch that isn't committed.
fn stopped(batch: Batch) -> Cutter
    ensures replies { result ≡ map (reply_with StoppedOutcome) batch }
    ensures some { (0 < length batch) × AreAdmitted batch }
{
    Cutter::new(batch.into_parts().jobs, Outcome::Stopped)
}

/// Returns the reply to a packet that comes back.
fn returned(job: Job, cause: Cause) -> Reply
    ensures { result ≡ reply_with (cause_outcome cause) job }
{
    match cause {
        Cause::Shutdown => Reply::of(job, Outcome::Shutdown),
        Cause::Stopped => Reply::of(job, Outcome::Stopped),
    }
}

/// Returns the outcomes of a parcel that wasn't committed.
fn without_entry(outcomes: Outcomes) -> Recorded
    ensures { (result.outcomes ≡ outcomes) × (result.entry ≡ None) }
{
    Recorded {
        outcomes,
        entry: None,
    }
}

impl BareLedger {
    ghost use Rattle.tb_core.specs.declared.parcel.Parcel.TheVariants as parcel;
    ghost use Rattle.tb_core.specs.declared.outcomes.Outcomes.TheVariants.{Nothing as NothingComes};
    ghost use Rattle.tb_work.specs.claim.Packet.{ReplyValue};
    ghost use Rattle.tb_core.specs.claim.Front.{decisions_in};
    ghost use Rattle.tb_core.specs.claim.Grouping.{IsJoinedParcel};
    ghost use Rattle.tb_core.specs.claim.Decision.{Decision};
    ghost use Rattle.tb_core.specs.claim.Run.{HasPackets, replies_in};
    ghost use Rattle.tb_core.specs.claim.Journal.{LedgerState};
    ghost use Rattle.tb_core.specs.claim.Ledger.{new_ledger};
    ghost use Rattle.tb_core.specs.claim.BareLedger.{new_bare_ledger, halts, Applies, HasSent, IsBatch, IsEntryIf, Records, after_refusal, refusal_of, stops, places_after, places_with};
    ghost use Rattle.tb_core.specs.claim.AnyLedger.{Applying, IsWithJournal};
    ghost use Rattle.tb_core.specs.clauses.Alone.{after_alone, reply_alone};

    /// Returns a ledger that has committed nothing, whose clock starts at a number of nanoseconds, 0 to `CLOCK_MAX`,
    /// and that hashes ids with a seed, as `Ledger::with_seed` does. Takes no memory.
    pub fn with_seed(alloc: Global, clock: u64, seed: Seed) -> BareLedger
        requires { clock ≤ clock_max }
        ensures new { result ≡ new_bare_ledger clock }
        ensures sent { (limit : ℕ) → HasSent (new_ledger clock) limit [] result [] }
    {
        BareLedger {
            alloc,
            opening: clock,
            machine: Machine::with_seed(alloc, clock, seed),
            places: 0,
            stopped: false,
            failures: Vec::new(alloc),
        }
    }

    /// Reserves capacity for accounts and transfers that are still to be made, as `Ledger::reserve` does.
    pub fn reserve(&mut self, accounts: usize, transfers: usize) -> Result<(), NoMemory>
        ensures { self.new ≡ self.old }
    {
        self.machine.reserve(accounts, transfers)
    }

    /// Returns where the clock started, in nanoseconds.
    pub fn opening(&self) -> u64
        ensures { result ≡ self.now.opening }
    {
        self.opening
    }

    /// Returns whether it has stopped: it commits nothing more.
    pub fn stopped(&self) -> bool
        ensures { result ≡ self.now.stopped }
    {
        self.stopped
    }

    /// Returns how many packets and pulses were committed.
    pub fn places(&self) -> u64
        ensures { result ≡ self.now.places }
    {
        self.places
    }

    /// Returns the machine, in the state that what was committed gives.
    pub fn machine(&self) -> &Machine
        ensures { result.now ≡ self.now.state }
    {
        &self.machine
    }

    /// Returns whether this number of packets or pulses isn't committed, however much memory there is: the ledger stopped before, or has
    /// fewer places left.
    pub fn halts_at(&self, count: usize) -> bool
        ensures halts { result ≡ halts self.now count }
        ensures goes_on { result ≡ false → self.now.stopped ≡ false }
        ensures fits { result ≡ false → self.now.places + count ≤ places_max }
    {
        self.stopped || count as u64 > PLACES_MAX - self.places
    }

    /// Returns whether a parcel takes memory: what isn't committed, however much there is, takes none.
    pub(crate) fn takes_memory(&self, parcel: &Parcel) -> bool
        ensures { result ≡ grows self.now parcel.now }
    {
        match parcel {
            Parcel::Batch(batch) => !self.halts_at(batch.jobs().len()),
            Parcel::Pulse(_) => !self.halts_at(1),
            Parcel::Return(..) | Parcel::Last => false,
        }
    }

    /// Commits a batch as one, or answers Stopped if it stopped before or has no places left. If an allocation fails,
    /// the batch comes back, and nothing has changed.
    fn commit(&mut self, batch: Batch) -> Result<Recorded, Batch>
        ensures ok { IfOk result (λ recorded. Records false (parcel.Batch batch) self.old recorded.outcomes
            recorded.entry self.new) }
        ensures entry { IfOk result (λ recorded. IsEntryIf (grows self.old (parcel.Batch batch)) recorded.entry) }
        ensures err { IfErr result (λ back. (back ≡ batch) × (self.new ≡ self.old)) }
        ensures memory { OnErr result (halts self.old (length batch) ≡ false) }
        ensures counted { OnOk result ((self.new.stopped ≡ halts self.old (length batch))
            × (self.new.places ≡ places_with self.old (length batch))) }
        ensures some { (0 < length batch) × AreAdmitted batch }
    {
        let count = batch.jobs().len();
        if self.halts_at(count) {
            self.stopped = true;
            return Ok(without_entry(Outcomes::Cut(stopped(batch))));
        }
        let mut parts = batch.into_parts();
        if take_batch(&mut self.machine, &mut parts).is_err() {
            return Err(Batch::whole(parts));
        }
        // The law that the machine is in the state to which the packets, one by one, bring it.
        joining_is_invisible();
        let recorded = record(self.places, parts);
        self.places += count as u64;
        Ok(recorded)
    }

    /// Returns the answer to a packet, which the machine takes. If an allocation fails, the packet comes back, and nothing has changed.
    fn answer_alone(&mut self, job: Job) -> Result<Reply, Job>
        ensures reply { IfOk result (λ reply. reply
            ≡ reply_with (CommittedOutcome self.old.places (answer_of self.old.state (events_in job.packet))) job) }
        ensures new { OnOk result (self.new
            ≡ record self.old { state = after_packet self.old.state (events_in job.packet) }) }
        ensures err { IfErr result (λ back. (back ≡ job) × (self.new ≡ self.old)) }
    {
        let place = self.places;
        if looks_up(job.packet().operation) {
            return match look_up(self.alloc, &self.machine, &job) {
                Ok(accounts) => Ok(Reply::of(
                    job,
                    Outcome::Committed {
                        place,
                        answer: Answer::Accounts(accounts),
                    },
                )),
                Err(_) => Err(job),
            };
        }
        if take_alone(&mut self.machine, &mut self.failures, &job).is_err() {
            return Err(job);
        }
        Ok(Reply::committed(job, place, self.failures.as_slice(), 0))
    }

    /// Commits a packet as `try_apply` does a batch of it alone, and returns its reply. It reads the packet's own data, which isn't copied,
    /// and takes memory for the facts, and for the packet's failures if it has more events than any before. If an allocation fails, the
    /// packet comes back, and nothing has changed; what must be stopped anyway never comes back.
    pub fn try_alone(&mut self, job: Job) -> Result<Reply, Job>
        ensures ok { IfOk result (λ reply. (reply ≡ reply_alone self.old job) × (self.new ≡ after_alone self.old job)) }
        ensures sent { IfOk result (λ reply.
            (start : LedgerState) (limit : ℕ) (decisions : List Decision) (replies : List ReplyValue)
            → HasSent start limit decisions self.old replies
            → HasSent start limit (decisions ++ Admitted job ∷ []) self.new (replies ++ reply ∷ [])) }
        ensures stopped { OnOk result (self.new.stopped ≡ halts self.old 1) }
        ensures counted { OnOk result (self.new.places ≡ places_with self.old 1) }
        ensures err { IfErr result (λ back. (back ≡ job) × (self.new ≡ self.old)) }
        ensures memory { OnErr result (halts self.old 1 ≡ false) }
    {
        // The law that its packet was admitted.
        let _ = job.packet();
        if self.halts_at(1) {
            self.stopped = true;
            return Ok(Reply::of(job, Outcome::Stopped));
        }
        let reply = self.answer_alone(job)?;
        self.places += 1;
        Ok(reply)
    }

    /// Commits a pulse, unless it stopped before or has no place left. Takes no memory.
    fn pulse(&mut self, moment: Moment) -> Option<Entry>
        ensures ok { Records false (parcel.Pulse moment) self.old NothingComes result self.new }
        ensures entry { IsEntryIf (grows self.old (parcel.Pulse moment)) result }
        ensures counted { (self.new.stopped ≡ halts self.old 1) × (self.new.places ≡ places_with self.old 1) }
    {
        if self.halts_at(1) {
            self.stopped = true;
            return None;
        }
        self.machine.pulse(moment.get());
        self.places += 1;
        Some(Entry::Pulse { moment })
    }

    /// Applies one parcel, and returns its entry of the journal too. If an allocation fails, the parcel comes back, and
    /// nothing has changed; what must be stopped anyway never comes back.
    pub(crate) fn try_record(&mut self, parcel: Parcel) -> Result<Recorded, Parcel>
        ensures ok { IfOk result (λ recorded. Records false parcel self.old recorded.outcomes recorded.entry self.new) }
        ensures entry { IfOk result (λ recorded. IsEntryIf (grows self.old parcel) recorded.entry) }
        ensures err { IfErr result (λ back. (back ≡ parcel) × (self.new ≡ self.old)) }
        ensures memory { OnErr result (grows self.old parcel ≡ true) }
        ensures batch { IfErr result (λ back. IsBatch back) }
        ensures counted { OnOk result ((self.new.stopped ≡ stops self.old parcel)
            × (self.new.places ≡ places_after self.old parcel)) }
        ensures some { HasPackets parcel }
    {
        match parcel {
            Parcel::Batch(batch) => self.commit(batch).map_err(Parcel::Batch),
            Parcel::Pulse(moment) => Ok(Recorded {
                outcomes: Outcomes::Nothing,
                entry: self.pulse(moment),
            }),
            Parcel::Return(job, cause) => Ok(without_entry(Outcomes::One(returned(job, cause)))),
            Parcel::Last => Ok(without_entry(Outcomes::Last)),
        }
    }

    /// Applies one parcel as `apply` does if its allocation fails. Takes no memory.
    pub(crate) fn refuse(&mut self, parcel: Parcel) -> Outcomes
        ensures applied { Records true parcel self.old result None self.new }
        ensures stopped { self.new ≡ after_refusal self.old parcel }
        ensures outcomes { result ≡ refusal_of parcel }
        ensures some { HasPackets parcel }
    {
        match parcel {
            Parcel::Batch(batch) => {
                self.stopped = true;
                Outcomes::Cut(stopped(batch))
            }
            Parcel::Pulse(_) => {
                self.stopped = true;
                Outcomes::Nothing
            }
            Parcel::Return(job, cause) => Outcomes::One(returned(job, cause)),
            Parcel::Last => Outcomes::Last,
        }
    }

    /// Applies one parcel as `apply` does if its allocation fails, as `Ledger::apply_as_refused` does. Takes no memory. By it
    /// a caller that can't store a parcel stops the ledger.
    pub fn apply_as_refused(&mut self, parcel: Parcel) -> Outcomes
        ensures applied { Records true parcel self.old result None self.new }
        ensures stopped { self.new ≡ after_refusal self.old parcel }
        ensures outcomes { result ≡ refusal_of parcel }
        ensures applying { Applying (IsWithJournal self.old) parcel result (IsWithJournal self.new) }
    {
        self.refuse(parcel)
    }

    /// Applies one parcel, and returns its outcomes, as `Ledger::apply` does. It takes memory for the facts.
    pub fn apply(&mut self, parcel: Parcel) -> Outcomes
        ensures applied { Applies parcel self.old result self.new }
        ensures applying { Applying (IsWithJournal self.old) parcel result (IsWithJournal self.new) }
        ensures sent { (start : LedgerState) (limit : ℕ) (decisions : List Decision) (replies : List ReplyValue)
            → IsJoinedParcel limit parcel → HasSent start limit decisions self.old replies
            → HasSent start limit (decisions ++ decisions_in parcel) self.new (replies ++ replies_in result) }
    {
        match self.try_record(parcel) {
            Ok(Recorded { outcomes, entry }) => {
                drop(entry);
                outcomes
            }
            Err(parcel) => self.refuse(parcel),
        }
    }

    /// Applies one parcel unless an allocation fails. If one does, the parcel is returned, and nothing has changed. Only a batch that
    /// has places is ever returned. So the ledger stops only at a batch or pulse for which there aren't enough places. It takes
    /// memory for the facts.
    pub fn try_apply(&mut self, parcel: Parcel) -> Result<Outcomes, Parcel>
        ensures ok { IfOk result (λ outcomes. (entry : Option EntryValue) × Records false parcel self.old outcomes entry self.new) }
        ensures applying { IfOk result (λ outcomes.
            Applying (IsWithJournal self.old) parcel outcomes (IsWithJournal self.new)) }
        ensures sent { IfOk result (λ outcomes.
            (start : LedgerState) (limit : ℕ) (decisions : List Decision) (replies : List ReplyValue)
            → IsJoinedParcel limit parcel → HasSent start limit decisions self.old replies
            → HasSent start limit (decisions ++ decisions_in parcel) self.new (replies ++ replies_in outcomes)) }
        ensures stopped { OnOk result (self.new.stopped ≡ stops self.old parcel) }
        ensures counted { OnOk result (self.new.places ≡ places_after self.old parcel) }
        ensures err { IfErr result (λ back. (back ≡ parcel) × (self.new ≡ self.old)) }
        ensures batch { IfErr result (λ back. IsBatch back) }
        ensures memory { OnErr result (grows self.old parcel ≡ true) }
    {
        let Recorded { outcomes, entry } = self.try_record(parcel)?;
        drop(entry);
        Ok(outcomes)
    }

    /// Establishes that it never has more than `PLACES_MAX` places.
    pub fn has_few_places(&self)
        ensures { self.now.places ≤ places_max }
    {
        let _ = &self.places;
    }
}
