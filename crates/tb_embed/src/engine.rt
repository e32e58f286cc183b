//! The engine.

ghost use Rattle.std.specs.Prelude.{◌≡◌, ◌<◌, ◌≤◌, ◌+◌, ◌-◌, ◌^◌, ◌++◌, ◌∷◌, [], ℕ, List, Some, None, true, false, ◌||◌, length, map, IfOk, IfErr, OnOk, OnErr, IfSome, IfNone, option_to_list, get_or, slice_get};
ghost use Rattle.std.specs.Option.{option_copied};
ghost use Rattle.tb_layout.specs.claim.Bounds.{places_max};
ghost use Rattle.tb_layout.specs.claim.Limits.{clock_max};
ghost use Rattle.tb_tables.specs.clauses.Counts.{counts_of};
ghost use Rattle.tb_tables.specs.claim.Facts.{transfer_with};
ghost use Rattle.tb_tables.specs.claim.Balances.{balanced_account};
ghost use Rattle.tb_tables.specs.clauses.Status.{status_if_pending, status_with};
ghost use Rattle.tb_machine.specs.clauses.Accounts.{balanced_accounts};
ghost use Rattle.tb_work.specs.claim.Packet.{ReplyValue};
ghost use Rattle.tb_work.specs.declared.item.Item.{Item as ItemValue};
ghost use Rattle.tb_work.specs.declared.item.Item.TheVariants as item;
ghost use Rattle.tb_work.specs.declared.refusal.Refusal.TheVariants.{NoMemory as NoMemoryRefusal};
ghost use Rattle.tb_batch.specs.claim.Grouping.{IsGroup};
ghost use Rattle.tb_core.specs.declared.parcel.Parcel.TheVariants.{Batch as BatchParcel};
ghost use Rattle.tb_core.specs.claim.Front.{IsFront, opening_refusal, all_decisions_in, with_group};
ghost use Rattle.tb_core.specs.claim.Grouping.{AreJoinedParcels};
ghost use Rattle.tb_core.specs.claim.Decision.{Admitted, Decision};
ghost use Rattle.tb_core.specs.claim.BareLedger.{HasSent, halts, places_with};
ghost use Rattle.tb_core.specs.claim.Journal.{LedgerState};
ghost use Rattle.tb_embed.specs.clauses.Engine.{HasTaken, IsControl, IsPacketItem, IsOpened, IsOpenedOver, HoldsNothing, Steps, places_in, places_of, Queues, Reads, Continues, IsRefusal, packet_with, submit_refusal, pulse_refusal, shut_refusal, has_stopped, state_of};
ghost use Rattle.tb_embed.specs.clauses.Queued.{ticket_of, packet_ticket};
ghost use Rattle.tb_embed.specs.clauses.Restoring.{RestoresTicket, is_idle};
ghost use Rattle.tb_embed.specs.inside.Waiting.{jobs_in};

use crate::senders::Senders;
use crate::unread::Unread;
use crate::waiting::{Held, Waiting};
use std::alloc::Global;
use std::marker::Model;
use tb_batch::Batch;
use tb_core::{BareLedger, Front, Parcel, Seed};
use tb_layout::{Account, CREATE_ACCOUNTS, CREATE_TRANSFERS, EVENT_SIZE, Transfer};
use tb_tables::{Counts, Status};
use tb_work::{Item, Job, Moment, Packet, Refusal, Reply, Ticket, count_admitted};

/// How many accounts and transfers the events that are held create at most.
#[derive(Clone, Copy)]
struct Due {
    accounts: usize,
    transfers: usize,
}

impl Due {
    /// Returns what is due once a packet is queued too: with a group that is held, and has up to `limit` events, or with
    /// none.
    fn with(self, packet: &Packet, is_holding: bool, limit: u32) -> Due {
        let most = if is_holding { limit as usize } else { 0 };
        let (accounts, transfers) = (self.accounts.min(most), self.transfers.min(most));
        let events = packet.bytes.as_slice().len() / EVENT_SIZE;
        let (more_accounts, more_transfers) = match packet.operation {
            CREATE_ACCOUNTS => (events, 0),
            CREATE_TRANSFERS => (0, events),
            _ => (0, 0),
        };
        Due {
            accounts: accounts.saturating_add(more_accounts),
            transfers: transfers.saturating_add(more_transfers),
        }
    }
}

/// A ledger without a journal, with its front and cutter, driven by its caller one call at a time.
pub struct Engine {
    senders: Senders,
    due: Due,
    front: Waiting,
    ledger: BareLedger,
    unread: Unread,
}

impl Drop for Engine {
    /// Frees everything held in one call, so that no owner's proof repeats it.
    fn drop(self) {
        let Engine {
            senders: _,
            due: _,
            front,
            ledger,
            unread,
        } = self;
        drop(front);
        drop(ledger);
        drop(unread);
    }
}

impl Model for Engine {
    ghost use Rattle.tb_embed.specs.clauses.Engine.{EngineState, IsEngine};

    ghost Value = { EngineState };

    ghost view = { λ engine. record {
      front = engine.front;
      ledger = engine.ledger;
      unread = engine.unread.replies;
      numbers = engine.senders.numbers;
      shut = engine.senders.shut;
    } };

    ghost invariant = { λ engine. IsEngine engine.senders engine.front };
}

/// Applies the parcel, if there is one and capacity for its outcome. If its allocation fails, its batch is returned and nothing
/// has changed.
#[inline(always)]
fn apply(ledger: &mut BareLedger, unread: &mut Unread, parcel: Option<Parcel>) -> Result<(), Batch>
    requires room { 0 < unread.old.room }
    ensures sent { OnOk result ((start : LedgerState) (limit : ℕ) (sent : List Decision) (read : List ReplyValue)
        → AreJoinedParcels limit (option_to_list parcel) → HasSent start limit sent ledger.old (read ++ unread.old.replies)
        → HasSent start limit (sent ++ all_decisions_in (option_to_list parcel)) ledger.new (read ++ unread.new.replies)) }
    ensures stopped { OnOk result (ledger.new.stopped ≡ halts ledger.old (places_in (option_to_list parcel))) }
    ensures counted { OnOk result (ledger.new.places ≡ places_with ledger.old (places_in (option_to_list parcel))) }
    ensures left { OnOk result (unread.old.room ≤ unread.new.room + 1) }
    ensures batch { IfErr result (λ batch. parcel ≡ Some (BatchParcel batch)) }
    ensures same { OnErr result ((ledger.new ≡ ledger.old) × (unread.new ≡ unread.old)) }
{
    ledger.has_few_places();
    let Some(parcel) = parcel else {
        return Ok(());
    };
    match ledger.try_apply(parcel) {
        Ok(outcomes) => {
            unread.push(outcomes);
            Ok(())
        }
        Err(Parcel::Batch(batch)) => Err(batch),
        Err(_) => unreachable!(),
    }
}

/// Commits what was held, if there is capacity for its outcome. If an allocation fails, it comes back and nothing has changed.
#[inline(always)]
fn apply_held(ledger: &mut BareLedger, unread: &mut Unread, held: Held) -> Result<(), Held>
    requires room { 0 < unread.old.room }
    ensures sent { OnOk result ((start : LedgerState) (limit : ℕ) (sent : List Decision) (read : List ReplyValue)
        → IsGroup limit (jobs_in held) → HasSent start limit sent ledger.old (read ++ unread.old.replies)
        → HasSent start limit (sent ++ map Admitted (jobs_in held)) ledger.new (read ++ unread.new.replies)) }
    ensures stopped { OnOk result (ledger.new.stopped ≡ halts ledger.old (length (jobs_in held))) }
    ensures counted { OnOk result (ledger.new.places ≡ places_with ledger.old (length (jobs_in held))) }
    ensures left { OnOk result (unread.old.room ≤ unread.new.room + 1) }
    ensures back { IfErr result (λ back. back ≡ held) }
    ensures same { OnErr result ((ledger.new ≡ ledger.old) × (unread.new ≡ unread.old)) }
{
    match held {
        Held::Alone(job) => match ledger.try_alone(job) {
            Ok(reply) => {
                unread.push_reply(reply);
                Ok(())
            }
            Err(job) => Err(Held::Alone(job)),
        },
        Held::Group(batch) => {
            apply(ledger, unread, Some(Parcel::Batch(batch))).map_err(Held::Group)
        }
    }
}

/// Commits what is held, if there is capacity for its outcome. If an allocation fails, nothing has changed.
fn commit_held(
    front: &mut Waiting,
    ledger: &mut BareLedger,
    unread: &mut Unread,
) -> Result<(), Refusal>
    requires room { 0 < unread.old.room }
    ensures sealed { OnOk result (front.new ≡ with_group front.old []) }
    ensures taken { OnOk result ((start : LedgerState) (items : List ItemValue) (read : List ReplyValue)
        → HasTaken start items (read ++ unread.old.replies) front.old ledger.old
        → HasTaken start items (read ++ unread.new.replies) front.new ledger.new) }
    ensures stopped { OnOk result (ledger.new.stopped ≡ halts ledger.old (length front.old.held)) }
    ensures counted { OnOk result (ledger.new.places ≡ places_with ledger.old (length front.old.held)) }
    ensures left { OnOk result (unread.old.room ≤ unread.new.room + 1) }
    ensures same { OnErr result ((front.new ≡ front.old) × (ledger.new ≡ ledger.old) × (unread.new ≡ unread.old)) }
    ensures refusal { IfErr result (λ refusal. refusal ≡ NoMemoryRefusal) }
    ensures needed { OnErr result (0 < length front.old.held) }
    ensures front { IsFront front.old }
{
    ledger.has_few_places();
    let Some(held) = front.take() else {
        return Ok(());
    };
    match apply_held(ledger, unread, held) {
        Ok(()) => Ok(()),
        Err(held) => {
            front.hold(held);
            Err(Refusal::NoMemory)
        }
    }
}

/// Passes a packet through a front and a ledger, if there is capacity for an outcome. If an allocation fails, the packet is
/// returned and nothing has changed.
fn take_packet(
    front: &mut Waiting,
    ledger: &mut BareLedger,
    unread: &mut Unread,
    ticket: Ticket,
) -> Result<(), Job>
    requires sender { ticket.sender ≤ front.old.submitters }
    requires packet { IsPacketItem ticket.item }
    requires room { 0 < unread.old.room }
    ensures taken { OnOk result ((start : LedgerState) (items : List ItemValue) (read : List ReplyValue)
        → HasTaken start items (read ++ unread.old.replies) front.old ledger.old
        → HasTaken start (items ++ ticket.item ∷ []) (read ++ unread.new.replies) front.new ledger.new) }
    ensures steps { OnOk result (Steps front.old ticket front.new) }
    ensures stopped { OnOk result (ledger.new.stopped ≡ halts ledger.old (places_of front.old ticket)) }
    ensures back { IfErr result (λ job. ticket.item ≡ item.Packet job) }
    ensures same { OnErr result ((front.new ≡ front.old) × (ledger.new ≡ ledger.old) × (unread.new ≡ unread.old)) }
    ensures front { IsFront front.old }
{
    let Item::Packet(job) = ticket.item else {
        unreachable!()
    };
    let parcel = front.try_packet(job)?;
    match apply(ledger, unread, parcel) {
        Ok(()) => Ok(()),
        Err(batch) => Err(front.take_back(batch)),
    }
}

/// Passes a pulse or the Close through a front that holds nothing, and through a ledger, if there is capacity for an
/// outcome. Allocates nothing.
fn pass(front: &mut Waiting, ledger: &mut BareLedger, unread: &mut Unread, ticket: Ticket)
    requires sender { ticket.sender ≤ front.old.submitters }
    requires control { IsControl ticket.item }
    requires empty { front.old.held ≡ [] }
    requires room { 0 < unread.old.room }
    ensures taken { (start : LedgerState) (items : List ItemValue) (read : List ReplyValue)
        → HasTaken start items (read ++ unread.old.replies) front.old ledger.old
        → HasTaken start (items ++ ticket.item ∷ []) (read ++ unread.new.replies) front.new ledger.new }
    ensures steps { Steps front.old ticket front.new }
    ensures stopped { ledger.new.stopped ≡ halts ledger.old (places_of front.old ticket) }
    ensures front { IsFront front.old }
{
    let parcel = front.pass(ticket);
    let Ok(()) = apply(ledger, unread, parcel) else {
        unreachable!()
    };
}

impl Engine {
    /// Returns an engine in which nothing was queued. Its clock starts at `clock` nanoseconds, 0 to `CLOCK_MAX`.
    /// Allocates nothing.
    ///
    /// # Errors
    ///
    /// `BadLimit` unless `limit` is 1 to 8190 events, else `BadSubmitters` unless there are 1 to 16 submitters.
    pub fn new(alloc: Global, clock: u64, limit: u32, submitters: u32) -> Result<Engine, Refusal>
        requires { clock ≤ clock_max }
        ensures opened { IfOk result (λ engine. IsOpened clock limit submitters engine) }
        ensures opens { OnOk result (opening_refusal limit submitters ≡ None) }
        ensures refusal { IfErr result (λ refusal. opening_refusal limit submitters ≡ Some refusal) }
    {
        Engine::with_seed(alloc, clock, limit, submitters, Seed::default())
    }

    /// Returns the engine of `new`, which hashes ids with a seed. Use a seed if ids can be chosen by someone you don't
    /// trust: two numbers that nobody else knows. Replies don't depend on it.
    ///
    /// # Errors
    ///
    /// Those of `new`.
    pub fn with_seed(
        alloc: Global,
        clock: u64,
        limit: u32,
        submitters: u32,
        seed: Seed,
    ) -> Result<Engine, Refusal>
        requires { clock ≤ clock_max }
        ensures opened { IfOk result (λ engine. IsOpened clock limit submitters engine) }
        ensures opens { OnOk result (opening_refusal limit submitters ≡ None) }
        ensures refusal { IfErr result (λ refusal. opening_refusal limit submitters ≡ Some refusal) }
    {
        let ledger = BareLedger::with_seed(alloc, clock, seed);
        match Engine::over(alloc, ledger, limit, submitters) {
            Ok(engine) => Ok(engine),
            Err((ledger, refusal)) => {
                drop(ledger);
                Err(refusal)
            }
        }
    }

    /// Returns an engine over a ledger that an earlier engine left (`into_ledger`) and that hasn't stopped. Its clock,
    /// its accounts and its transfers go on, and places count on; packets are numbered from 0 again. Allocates nothing.
    ///
    /// # Errors
    ///
    /// Those of `new`, with the ledger.
    pub fn over(
        alloc: Global,
        ledger: BareLedger,
        limit: u32,
        submitters: u32,
    ) -> Result<Engine, (BareLedger, Refusal)>
        requires { ledger.stopped ≡ false }
        ensures opened { IfOk result (λ engine. IsOpenedOver ledger limit submitters engine) }
        ensures opens { OnOk result (opening_refusal limit submitters ≡ None) }
        ensures refusal { IfErr result (λ refused. opening_refusal limit submitters ≡ Some refused.1) }
        ensures back { IfErr result (λ refused. refused.0 ≡ ledger) }
    {
        let front = match Front::new(alloc, limit, submitters) {
            Ok(front) => front,
            Err(refusal) => return Err((ledger, refusal)),
        };
        Ok(Engine {
            senders: Senders::new(limit, submitters),
            due: Due {
                accounts: 0,
                transfers: 0,
            },
            front: Waiting::over(front),
            ledger,
            unread: Unread::new(alloc),
        })
    }

    /// Returns the ledger of an engine that holds nothing, for another engine to go on with. If a packet is held or a
    /// reply is unread the engine comes back, as it was.
    pub fn into_ledger(self) -> Result<BareLedger, Engine>
        ensures ledger { IfOk result (λ ledger. ledger ≡ self.ledger) }
        ensures nothing { OnOk result (HoldsNothing self) }
        ensures back { IfErr result (λ back. back ≡ self) }
        ensures held { OnErr result (HoldsNothing self → ⊥) }
    {
        if self.front.is_holding() || self.unread.next().is_some() {
            return Err(self);
        }
        let Engine {
            senders: _,
            due: _,
            front,
            ledger,
            unread,
        } = self;
        drop(front);
        drop(unread);
        Ok(ledger)
    }

    /// Reserves capacity for accounts and transfers that are still to be made. Until then no commit waits for their maps
    /// to grow, which moves all that is stored.
    ///
    /// # Errors
    ///
    /// `NoMemory`, and nothing has changed.
    pub fn reserve(&mut self, accounts: usize, transfers: usize) -> Result<(), Refusal>
        ensures same { self.new ≡ self.old }
        ensures err { IfErr result (λ refusal. refusal ≡ NoMemoryRefusal) }
    {
        if self.ledger.reserve(accounts, transfers).is_err() {
            return Err(Refusal::NoMemory);
        }
        Ok(())
    }

    /// Passes a packet through the front and the ledger. If memory runs out, it is returned and nothing has changed. That is as it
    /// is queued, as the group that it seals is committed, or as capacity is made for what is due.
    fn take(&mut self, submitter: u32, job: Job) -> Result<(), Job>
        requires { submitter ≤ self.old.front.submitters }
        ensures taken { OnOk result ((start : LedgerState) (items : List ItemValue) (read : List ReplyValue)
            → HasTaken start items (read ++ self.old.unread) self.old.front self.old.ledger
            → HasTaken start (items ++ item.Packet job ∷ []) (read ++ self.new.unread) self.new.front self.new.ledger) }
        ensures steps { OnOk result (Steps self.old.front (ticket_of submitter (item.Packet job)) self.new.front) }
        ensures stopped { OnOk result (has_stopped self.new
            ≡ halts self.old.ledger (places_of self.old.front (ticket_of submitter (item.Packet job)))) }
        ensures same { (self.new.numbers ≡ self.old.numbers) × (self.new.shut ≡ self.old.shut)
            × (self.new.front.limit ≡ self.old.front.limit)
            × (self.new.front.submitters ≡ self.old.front.submitters) }
        ensures err { IfErr result (λ back. (back ≡ job) × (self.new ≡ self.old)) }
        ensures front { OnOk result (IsFront self.old.front) }
    {
        if self.unread.reserve(1).is_err() {
            return Err(job);
        }
        let is_holding = self.front.is_holding();
        let due = self.due.with(job.packet(), is_holding, self.senders.limit);
        if self.ledger.reserve(due.accounts, due.transfers).is_err() {
            return Err(job);
        }
        let ticket = Ticket {
            sender: submitter,
            item: Item::Packet(job),
        };
        take_packet(&mut self.front, &mut self.ledger, &mut self.unread, ticket)?;
        self.due = due;
        Ok(())
    }

    /// Commits the group held, and passes a pulse or the Close through the front and the ledger. If memory runs out, nothing has
    /// changed.
    fn take_control(&mut self, item: Item) -> Result<(), Refusal>
        requires { IsControl item }
        ensures taken { OnOk result ((start : LedgerState) (items : List ItemValue) (read : List ReplyValue)
            → HasTaken start items (read ++ self.old.unread) self.old.front self.old.ledger
            → HasTaken start (items ++ item ∷ []) (read ++ self.new.unread) self.new.front self.new.ledger) }
        ensures steps { OnOk result (Steps self.old.front (ticket_of self.old.front.submitters item) self.new.front) }
        ensures stopped { OnOk result (has_stopped self.new
            ≡ halts self.old.ledger (places_of self.old.front (ticket_of self.old.front.submitters item))) }
        ensures same { (self.new.numbers ≡ self.old.numbers) × (self.new.shut ≡ self.old.shut)
            × (self.new.front.limit ≡ self.old.front.limit)
            × (self.new.front.submitters ≡ self.old.front.submitters) }
        ensures err { IfErr result (λ refusal. (refusal ≡ NoMemoryRefusal) × (self.new ≡ self.old)) }
        ensures front { OnOk result (IsFront self.old.front) }
    {
        if self.unread.reserve(2).is_err() {
            return Err(Refusal::NoMemory);
        }
        commit_held(&mut self.front, &mut self.ledger, &mut self.unread)?;
        let ticket = Ticket {
            sender: self.senders.submitters,
            item,
        };
        pass(&mut self.front, &mut self.ledger, &mut self.unread, ticket);
        Ok(())
    }

    /// Returns the number of a submitter's next packet, which counts that submitter's packets from 0; 0 if there is no such submitter.
    pub fn next_number(&self, submitter: u32) -> u64
        ensures { result ≡ get_or self.now.numbers submitter 0 }
    {
        self.senders
            .numbers
            .get(submitter as usize)
            .map_or(0, |number| *number)
    }

    /// Returns why `submit` would refuse a packet with this operation and data if memory is there; None if it would
    /// queue the packet. Reads only the length of the data.
    pub fn refusal_of(&self, submitter: u32, operation: u8, bytes: &[u8]) -> Option<Refusal>
        ensures { (user : ℕ) → result ≡ submit_refusal self.now submitter (packet_with operation bytes.now user) }
    {
        match self.senders.refusal(self.stopped(), submitter) {
            Some(refusal) => Some(refusal),
            None => count_admitted(self.senders.limit, operation, bytes).err(),
        }
    }

    /// Queues a submitter's packet and returns its number, which counts that submitter's packets from 0. The packet
    /// waits for neighbours of its operation until one that doesn't join it, a pulse, `shut` or `flush` commits it.
    ///
    /// # Errors
    ///
    /// Returns the packet with the first refusal that applies, and nothing has changed: `BadSubmitters` if there is no
    /// such submitter, `Stopped` if the engine stopped, `Full` if the submitter has no number left, the refusal of
    /// `admit`, `NoMemory`. Memory may run out for the packet, or as the group that it seals is committed.
    pub fn submit(
        &mut self,
        alloc: Global,
        submitter: u32,
        packet: Packet,
    ) -> Result<u64, (Packet, Refusal)>
        ensures ok { IfOk result (λ number. Queues self.old (packet_ticket submitter number packet) self.new) }
        ensures number { IfOk result (λ number. number ≡ get_or self.old.numbers submitter 0) }
        ensures admitted { OnOk result (submit_refusal self.old submitter packet ≡ None) }
        ensures back { IfErr result (λ refused. (refused.0 ≡ packet) × (self.new ≡ self.old)) }
        ensures refusal { IfErr result (λ refused. IsRefusal (submit_refusal self.old submitter packet) refused.1) }
    {
        let job = self.senders.job(alloc, self.stopped(), submitter, packet)?;
        if let Err(job) = self.take(submitter, job) {
            return Err((job.into_packet(), Refusal::NoMemory));
        }
        Ok(self.senders.count(submitter))
    }

    /// Returns why `pulse` would refuse this moment if memory is there; None if it would queue the pulse.
    pub fn refusal_of_pulse(&self, nanoseconds: u64) -> Option<Refusal>
        ensures { result ≡ pulse_refusal self.now nanoseconds }
    {
        self.senders.refusal_of_pulse(self.stopped(), nanoseconds)
    }

    /// Queues a pulse, which raises the clock to a moment in nanoseconds and lets pending transfers expire whose
    /// timeout is over by then.
    ///
    /// # Errors
    ///
    /// `MomentTooLarge` above `MOMENT_MAX`, then `Shutdown` after `shut`, then `Stopped` if the engine stopped, then
    /// `NoMemory`. Nothing has changed then.
    pub fn pulse(&mut self, nanoseconds: u64) -> Result<(), Refusal>
        ensures ok { OnOk result (Queues self.old
            (ticket_of self.old.front.submitters (item.Pulse nanoseconds)) self.new) }
        ensures admitted { OnOk result (pulse_refusal self.old nanoseconds ≡ None) }
        ensures same { OnErr result (self.new ≡ self.old) }
        ensures refusal { IfErr result (λ refusal. IsRefusal (pulse_refusal self.old nanoseconds) refusal) }
    {
        if let Some(refusal) = self.refusal_of_pulse(nanoseconds) {
            return Err(refusal);
        }
        self.take_control(Item::Pulse(Moment::new(nanoseconds)))?;
        Ok(())
    }

    /// Queues the Close: packets after it aren't committed, and their replies say Shutdown.
    ///
    /// # Errors
    ///
    /// `Shutdown` after an earlier `shut`, then `NoMemory`. Nothing has changed then.
    pub fn shut(&mut self) -> Result<(), Refusal>
        ensures ok { OnOk result (Queues self.old (ticket_of self.old.front.submitters item.Close) self.new) }
        ensures shut { OnOk result (self.new.shut ≡ true) }
        ensures admitted { OnOk result (shut_refusal self.old ≡ None) }
        ensures same { OnErr result (self.new ≡ self.old) }
        ensures refusal { IfErr result (λ refusal. IsRefusal (shut_refusal self.old) refusal) }
    {
        if self.senders.shut {
            return Err(Refusal::Shutdown);
        }
        self.take_control(Item::Close)?;
        self.senders.shut = true;
        Ok(())
    }

    /// Commits the packets that are held.
    ///
    /// # Errors
    ///
    /// `NoMemory`, only if a packet is held, and nothing has changed.
    pub fn flush(&mut self) -> Result<(), Refusal>
        ensures ok { OnOk result (Continues self.old self.new) }
        ensures held { OnOk result (self.new.front.held ≡ []) }
        ensures err { IfErr result (λ refusal. (refusal ≡ NoMemoryRefusal) × (self.new ≡ self.old)) }
        ensures needed { OnErr result (0 < length self.old.front.held) }
    {
        if !self.front.is_holding() {
            self.ledger.has_few_places();
            return Ok(());
        }
        if self.unread.reserve(1).is_err() {
            return Err(Refusal::NoMemory);
        }
        commit_held(&mut self.front, &mut self.ledger, &mut self.unread)?;
        Ok(())
    }

    /// Returns whether nothing is held or unread, and no Close was taken: a packet would be committed as it comes.
    pub(crate) fn is_idle(&self) -> bool
        ensures { result ≡ is_idle self.now }
    {
        self.front.begins_group() && self.unread.next().is_none()
    }

    /// Queues a submitter's packet while nothing is held or unread, and commits it by itself. Its reply is unread then. If it is refused or
    /// memory runs out, the packet comes back and nothing has changed.
    pub(crate) fn commit_alone(
        &mut self,
        alloc: Global,
        submitter: u32,
        packet: Packet,
    ) -> Result<(), Packet>
        requires idle { is_idle self.old ≡ true }
        requires place { self.old.ledger.places < places_max }
        requires goes { has_stopped self.old ≡ false }
        ensures ok { OnOk result (RestoresTicket self.old
            (packet_ticket submitter (get_or self.old.numbers submitter 0) packet) self.new) }
        ensures back { IfErr result (λ back. (back ≡ packet) × (self.new ≡ self.old)) }
    {
        self.ledger.has_few_places();
        // The law that what a front holds is one group.
        let _ = self.front.begins_group();
        if self.unread.reserve(1).is_err() {
            return Err(packet);
        }
        let job = match self.senders.job(alloc, false, submitter, packet) {
            Ok(job) => job,
            Err((packet, _)) => return Err(packet),
        };
        self.front.begin(job);
        match commit_held(&mut self.front, &mut self.ledger, &mut self.unread) {
            Ok(()) => {
                self.senders.count(submitter);
                Ok(())
            }
            Err(_) => Err(self.front.release().into_packet()),
        }
    }

    /// Returns the next reply, which stays unread; None if there is none.
    pub fn next_reply(&self) -> Option<&Reply>
        ensures { option_copied result ≡ slice_get self.now.unread 0 }
    {
        self.unread.next()
    }

    /// Removes the next reply and returns it, in the order in which packets were queued; None if there is none.
    #[inline(always)]
    pub fn reply(&mut self) -> Option<Reply>
        ensures some { IfSome result (λ reply. Reads self.old reply self.new) }
        ensures unread { self.old.unread ≡ option_to_list result ++ self.new.unread }
        ensures none { IfNone result ((self.old.unread ≡ []) × (self.new ≡ self.old)) }
    {
        self.unread.take()
    }

    /// Returns the account with this id and its balances; None if there is none. Held packets aren't in it.
    pub fn lookup_account(&self, id: u128) -> Option<Account>
        ensures { result ≡ balanced_account (state_of self.now).facts id }
    {
        self.ledger.machine().account(id)
    }

    /// Returns the account at an index in the order of making, counted from 0, and its balances; None if there are no
    /// more.
    pub fn account_at(&self, index: usize) -> Option<Account>
        ensures { result ≡ slice_get (balanced_accounts (state_of self.now).facts) index }
    {
        self.ledger.machine().account_at(index)
    }

    /// Returns the transfer with this id; None if there is none. A post or a void has its resolved fields.
    pub fn lookup_transfer(&self, id: u128) -> Option<Transfer>
        ensures { result ≡ transfer_with (state_of self.now).facts id }
    {
        self.ledger.machine().transfer(id)
    }

    /// Returns the status of the pending transfer with this id; None if there is no such transfer or it isn't pending.
    pub fn transfer_status(&self, id: u128) -> Option<Status>
        ensures { result ≡ status_with (state_of self.now).facts id }
    {
        self.ledger.machine().status(id)
    }

    /// Returns the transfer at an index in the order of making, counted from 0; None if there are no more. A post or a
    /// void has its resolved fields.
    pub fn transfer_at(&self, index: usize) -> Option<Transfer>
        ensures { result ≡ slice_get (state_of self.now).facts.transfers index }
    {
        self.ledger.machine().transfer_at(index)
    }

    /// Returns the status of the pending transfer at an index in the order of making; None if there is no such transfer
    /// or it isn't pending.
    pub fn transfer_status_at(&self, index: usize) -> Option<Status>
        ensures { result ≡ status_if_pending (state_of self.now).facts
            (slice_get (state_of self.now).facts.transfers index) }
    {
        self.ledger.machine().status_at(index)
    }

    /// Returns how many accounts and transfers are stored, and how many ids of transfers that failed so that their ids are refused later.
    /// Nothing limits these ids.
    pub fn counts(&self) -> Counts
        ensures { result ≡ counts_of (state_of self.now).facts }
    {
        self.ledger.machine().counts()
    }

    /// Returns whether the engine stopped: 2^63 places are used up, and nothing more is committed.
    pub fn stopped(&self) -> bool
        ensures { result ≡ has_stopped self.now }
    {
        self.ledger.stopped()
    }

    /// Returns how many packets and pulses are committed, in this engine and those whose ledger it continues: the place of the next one.
    pub fn places(&self) -> u64
        ensures { result ≡ self.now.ledger.places }
    {
        self.ledger.places()
    }

    /// Returns the clock in nanoseconds.
    pub fn clock(&self) -> u64
        ensures { result ≡ (state_of self.now).clock }
    {
        self.ledger.machine().clock()
    }
}
