//! The engine over any ledger.

ghost use Rattle.std.specs.Prelude.{◌≡◌, ◌<◌, ◌≤◌, ◌+◌, ◌++◌, ◌∷◌, [], ℕ, List, None, false, true, length, IfErr, IfOk, OnErr, OnOk, option_to_list};
ghost use Rattle.tb_work.specs.claim.Packet.{ReplyValue};
ghost use Rattle.tb_work.specs.declared.item.Item.{Item as ItemValue};
ghost use Rattle.tb_core.specs.claim.Front.{IsFront, all_decisions_in, group_as_batch, take_result, take_step, takes_memory, with_group};
ghost use Rattle.tb_core.specs.claim.Grouping.{AreJoinedParcels};
ghost use Rattle.tb_core.specs.claim.Decision.{Decision};
ghost use Rattle.tb_core.specs.claim.Journal.{LedgerState};
ghost use Rattle.tb_embed.specs.clauses.AnyEngine.{HasSentBy, HasTakenBy};
ghost use Rattle.tb_embed.specs.clauses.Engine.{Steps};

use crate::senders::Senders;
use crate::unread::Unread;
use crate::waiting::offer_control;
use std::alloc::Global;
use std::marker::Model;
use tb_core::{AnyLedger, Front, Parcel};
use tb_work::{Item, Job, Moment, Packet, Refusal, Reply, Ticket};

/// An engine over any ledger, such as one whose journal is in a file. It queues, commits and reads by the calls of `Engine`. Look-ups are
/// those of its ledger, and capacity is reserved before `over`. Calls that commit wait for what the ledger waits for, as a disk.
///
/// A ledger stops if its store or memory fails as it commits, or if its places are used up. Then the replies to the packets that it
/// was to commit say Stopped, and later packets and pulses are refused.
pub struct AnyEngine<L: AnyLedger> {
    senders: Senders,
    front: Front,
    ledger: L,
    unread: Unread,
}

impl<L: AnyLedger> Drop for AnyEngine<L> {
    /// Frees everything held in one call, so that no owner's proof repeats it.
    fn drop(self) {
        let AnyEngine {
            senders: _,
            front,
            ledger,
            unread,
        } = self;
        drop(front);
        drop(ledger);
        drop(unread);
    }
}

impl<L: AnyLedger> Model for AnyEngine<L> {
    ghost use Rattle.tb_embed.specs.clauses.AnyEngine.{AnyEngineState};
    ghost use Rattle.tb_embed.specs.clauses.Engine.{IsEngine};

    ghost Value = { AnyEngineState L };

    ghost view = { λ engine. record {
      front = engine.front;
      ledger = engine.ledger;
      unread = engine.unread.replies;
      numbers = engine.senders.numbers;
      shut = engine.senders.shut;
    } };

    ghost invariant = { λ engine. IsEngine engine.senders engine.front };
}

/// Applies the parcel, if there is one. There is capacity for its outcome.
fn apply<L: AnyLedger>(ledger: &mut L, unread: &mut Unread, parcel: Option<Parcel>)
    requires room { 0 < unread.old.room }
    ensures sent { (start : LedgerState) (limit : ℕ) (sent : List Decision) (read : List ReplyValue)
        → AreJoinedParcels limit (option_to_list parcel)
        → HasSentBy (L.is ledger.old) start limit sent (read ++ unread.old.replies)
        → HasSentBy (L.is ledger.new) start limit (sent ++ all_decisions_in (option_to_list parcel))
        (read ++ unread.new.replies) }
    ensures left { unread.old.room ≤ unread.new.room + 1 }
{
    if let Some(parcel) = parcel {
        let outcomes = ledger.apply(parcel);
        unread.push(outcomes);
    }
}

/// Returns the group held as a parcel, and it is no longer held; None if nothing was.
fn seal(front: &mut Front) -> Option<Parcel>
    ensures parcel { option_to_list result ≡ group_as_batch front.old.held }
    ensures left { front.new ≡ with_group front.old [] }
    ensures front { IsFront front.old }
{
    front.idle().map(Parcel::Batch)
}

/// Passes a ticket, of which at most one parcel comes, through a front, and returns the parcel. If its allocation fails, it is
/// returned and nothing has changed.
fn offer(front: &mut Front, ticket: Ticket) -> Result<Option<Parcel>, Ticket>
    requires sender { ticket.sender ≤ front.old.submitters }
    requires one { length (take_step false front.old ticket.sender ticket.item).parcels ≤ 1 }
    ensures ok { IfOk result (λ parcel. take_result front.new (option_to_list parcel)
        ≡ take_step false front.old ticket.sender ticket.item) }
    ensures err { IfErr result (λ back. (back ≡ ticket) × (front.new ≡ front.old)) }
    ensures memory { OnErr result (takes_memory front.old ticket.item ≡ true) }
    ensures front { IsFront front.old }
{
    let Ticket { sender, item } = ticket;
    match item {
        Item::Packet(job) => match front.try_packet(job) {
            Ok(parcel) => Ok(parcel),
            Err(job) => Err(Ticket {
                sender,
                item: Item::Packet(job),
            }),
        },
        item => offer_control(front, Ticket { sender, item }),
    }
}

/// Commits the group held. There is capacity for its outcome.
fn commit_held<L: AnyLedger>(front: &mut Front, ledger: &mut L, unread: &mut Unread)
    requires room { 0 < unread.old.room }
    ensures sealed { front.new ≡ with_group front.old [] }
    ensures taken { (start : LedgerState) (items : List ItemValue) (read : List ReplyValue)
        → HasTakenBy (L.is ledger.old) start items (read ++ unread.old.replies) front.old
        → HasTakenBy (L.is ledger.new) start items (read ++ unread.new.replies) front.new }
    ensures left { unread.old.room ≤ unread.new.room + 1 }
    ensures front { IsFront front.old }
{
    apply(ledger, unread, seal(front));
}

/// Passes a ticket through a front and a ledger. At most one parcel comes of it, and there is capacity for an outcome. If the
/// front's allocation fails, the ticket is returned and nothing has changed.
fn pass<L: AnyLedger>(
    front: &mut Front,
    ledger: &mut L,
    unread: &mut Unread,
    ticket: Ticket,
) -> Result<(), Ticket>
    requires sender { ticket.sender ≤ front.old.submitters }
    requires one { length (take_step false front.old ticket.sender ticket.item).parcels ≤ 1 }
    requires room { 0 < unread.old.room }
    ensures taken { OnOk result ((start : LedgerState) (items : List ItemValue) (read : List ReplyValue)
        → HasTakenBy (L.is ledger.old) start items (read ++ unread.old.replies) front.old
        → HasTakenBy (L.is ledger.new) start (items ++ ticket.item ∷ []) (read ++ unread.new.replies) front.new) }
    ensures steps { OnOk result (Steps front.old ticket front.new) }
    ensures back { IfErr result (λ back. back ≡ ticket) }
    ensures same { OnErr result ((front.new ≡ front.old) × (ledger.new ≡ ledger.old) × (unread.new ≡ unread.old)) }
    ensures memory { OnErr result (takes_memory front.old ticket.item ≡ true) }
    ensures front { IsFront front.old }
{
    let parcel = offer(front, ticket)?;
    apply(ledger, unread, parcel);
    Ok(())
}

impl<L: AnyLedger> AnyEngine<L> {
    ghost use Rattle.std.specs.Prelude.{◌^◌, ◌-◌, IfNone, IfOk, IfSome, Some, get_or, slice_get};
    ghost use Rattle.std.specs.Option.{option_copied};
    ghost use Rattle.tb_work.specs.declared.item.Item.TheVariants as item;
    ghost use Rattle.tb_work.specs.declared.refusal.Refusal.TheVariants.{NoMemory as NoMemoryRefusal};
    ghost use Rattle.tb_core.specs.claim.Front.{opening_refusal};
    ghost use Rattle.tb_embed.specs.clauses.AnyEngine.{ContinuesBy, HoldsNothingBy, IsOpenedBy, QueuesBy, ReadsBy};
    ghost use Rattle.tb_embed.specs.clauses.Engine.{IsControl, IsRefusal, refusal_of_close, refusal_of_packet, refusal_of_pulse};
    ghost use Rattle.tb_embed.specs.clauses.Queued.{packet_ticket, ticket_of};

    /// Returns an engine over a ledger, in which nothing was queued. If the ledger has stopped, packets and pulses are refused.
    /// Allocates nothing.
    ///
    /// # Errors
    ///
    /// Those of `Engine::new`. The ledger comes with the refusal.
    pub fn over(
        alloc: Global,
        ledger: L,
        limit: u32,
        submitters: u32,
    ) -> Result<AnyEngine<L>, (L, Refusal)>
        ensures opened { IfOk result (λ engine. IsOpenedBy L.is ledger limit submitters engine) }
        ensures opens { OnOk result (opening_refusal limit submitters ≡ None) }
        ensures refusal { IfErr result (λ refused. opening_refusal limit submitters ≡ Some refused.1) }
        ensures back { IfErr result (λ refused. refused.0 ≡ ledger) }
    {
        // The law that a run may begin with a ledger that hasn't stopped.
        let _ = ledger.stopped();
        let front = match Front::new(alloc, limit, submitters) {
            Ok(front) => front,
            Err(refusal) => return Err((ledger, refusal)),
        };
        Ok(AnyEngine {
            senders: Senders::new(limit, submitters),
            front,
            ledger,
            unread: Unread::new(alloc),
        })
    }

    /// Returns the ledger of an engine that holds nothing. If a packet is held or a reply is unread the engine comes back, as it
    /// was.
    pub fn into_ledger(self) -> Result<L, AnyEngine<L>>
        ensures ledger { IfOk result (λ ledger. ledger ≡ self.ledger) }
        ensures nothing { OnOk result (HoldsNothingBy self) }
        ensures back { IfErr result (λ back. back ≡ self) }
        ensures held { OnErr result (HoldsNothingBy self → ⊥) }
    {
        if self.front.is_holding() || self.unread.next().is_some() {
            return Err(self);
        }
        let AnyEngine {
            senders: _,
            front,
            ledger,
            unread,
        } = self;
        drop(front);
        drop(unread);
        Ok(ledger)
    }

    /// Returns the ledger. Held packets aren't in it.
    pub fn ledger(&self) -> &L
        ensures { result.now ≡ self.now.ledger }
    {
        &self.ledger
    }

    /// Returns whether the ledger has stopped: nothing more is committed.
    pub fn stopped(&self) -> bool
        ensures { (ledger : LedgerState) → L.is self.now.ledger ledger → result ≡ ledger.stopped }
    {
        self.ledger.stopped()
    }

    /// Passes a packet through the front and the ledger. If memory runs out before the front has it, it is returned and nothing
    /// has changed.
    fn take(&mut self, submitter: u32, job: Job) -> Result<(), Job>
        requires { submitter ≤ self.old.front.submitters }
        ensures taken { OnOk result ((start : LedgerState) (items : List ItemValue) (read : List ReplyValue)
            → HasTakenBy (L.is self.old.ledger) start items (read ++ self.old.unread) self.old.front
            → HasTakenBy (L.is self.new.ledger) start (items ++ item.Packet job ∷ []) (read ++ self.new.unread)
            self.new.front) }
        ensures steps { OnOk result (Steps self.old.front (ticket_of submitter (item.Packet job)) self.new.front) }
        ensures same { (self.new.numbers ≡ self.old.numbers) × (self.new.shut ≡ self.old.shut)
            × (self.new.front.limit ≡ self.old.front.limit)
            × (self.new.front.submitters ≡ self.old.front.submitters) }
        ensures err { IfErr result (λ back. (back ≡ job) × (self.new ≡ self.old)) }
        ensures front { OnOk result (IsFront self.old.front) }
    {
        if self.unread.reserve(1).is_err() {
            return Err(job);
        }
        let ticket = Ticket {
            sender: submitter,
            item: Item::Packet(job),
        };
        match pass(&mut self.front, &mut self.ledger, &mut self.unread, ticket) {
            Ok(()) => Ok(()),
            Err(
                Ticket {
                    sender: _,
                    item: Item::Packet(job),
                },
            ) => Err(job),
            Err(_) => unreachable!(),
        }
    }

    /// Commits the group held, and passes a pulse or the Close through the front and the ledger. If memory runs out before that,
    /// nothing has changed.
    fn take_control(&mut self, item: Item) -> Result<(), Refusal>
        requires { IsControl item }
        ensures taken { OnOk result ((start : LedgerState) (items : List ItemValue) (read : List ReplyValue)
            → HasTakenBy (L.is self.old.ledger) start items (read ++ self.old.unread) self.old.front
            → HasTakenBy (L.is self.new.ledger) start (items ++ item ∷ []) (read ++ self.new.unread) self.new.front) }
        ensures steps { OnOk result (Steps self.old.front (ticket_of self.old.front.submitters item) self.new.front) }
        ensures same { (self.new.numbers ≡ self.old.numbers) × (self.new.shut ≡ self.old.shut)
            × (self.new.front.limit ≡ self.old.front.limit)
            × (self.new.front.submitters ≡ self.old.front.submitters) }
        ensures err { IfErr result (λ refusal. (refusal ≡ NoMemoryRefusal) × (self.new ≡ self.old)) }
        ensures front { OnOk result (IsFront self.old.front) }
    {
        if self.unread.reserve(2).is_err() {
            return Err(Refusal::NoMemory);
        }
        commit_held(&mut self.front, &mut self.ledger, &mut self.unread);
        let ticket = Ticket {
            sender: self.senders.submitters,
            item,
        };
        let Ok(()) = pass(&mut self.front, &mut self.ledger, &mut self.unread, ticket) else {
            unreachable!()
        };
        Ok(())
    }

    /// Queues a submitter's packet and returns its number, as `Engine::submit` does.
    ///
    /// # Errors
    ///
    /// Returns the packet with the first refusal that applies, and nothing has changed: `BadSubmitters` if there is no
    /// such submitter, `Stopped` if the ledger stopped, `Full` if the submitter has no number left, the refusal of
    /// `admit`, `NoMemory`. If memory or the store fails only as the group that the packet seals is committed, the packet is queued,
    /// and the ledger stops.
    pub fn submit(
        &mut self,
        alloc: Global,
        submitter: u32,
        packet: Packet,
    ) -> Result<u64, (Packet, Refusal)>
        ensures ok { IfOk result (λ number. QueuesBy L.is self.old (packet_ticket submitter number packet) self.new) }
        ensures number { IfOk result (λ number. number ≡ get_or self.old.numbers submitter 0) }
        ensures admitted { OnOk result ((ledger : LedgerState) → L.is self.old.ledger ledger
            → refusal_of_packet ledger.stopped self.old.front self.old.numbers submitter packet ≡ None) }
        ensures back { IfErr result (λ refused. (refused.0 ≡ packet) × (self.new ≡ self.old)) }
        ensures refusal { IfErr result (λ refused. (ledger : LedgerState) → L.is self.old.ledger ledger
            → IsRefusal (refusal_of_packet ledger.stopped self.old.front self.old.numbers submitter packet) refused.1) }
    {
        let job = self.senders.job(alloc, self.stopped(), submitter, packet)?;
        if let Err(job) = self.take(submitter, job) {
            return Err((job.into_packet(), Refusal::NoMemory));
        }
        Ok(self.senders.count(submitter))
    }

    /// Queues a pulse, as `Engine::pulse` does. It returns Ok also if the ledger stops at it, and no reply shows that: ask `stopped`.
    ///
    /// # Errors
    ///
    /// `MomentTooLarge` above `MOMENT_MAX`, then `Shutdown` after `shut`, then `Stopped` if the ledger stopped, then
    /// `NoMemory`. Nothing has changed then.
    pub fn pulse(&mut self, nanoseconds: u64) -> Result<(), Refusal>
        ensures ok { OnOk result (QueuesBy L.is self.old
            (ticket_of self.old.front.submitters (item.Pulse nanoseconds)) self.new) }
        ensures admitted { OnOk result ((ledger : LedgerState) → L.is self.old.ledger ledger
            → refusal_of_pulse ledger.stopped self.old.shut nanoseconds ≡ None) }
        ensures same { OnErr result (self.new ≡ self.old) }
        ensures refusal { IfErr result (λ refusal. (ledger : LedgerState) → L.is self.old.ledger ledger
            → IsRefusal (refusal_of_pulse ledger.stopped self.old.shut nanoseconds) refusal) }
    {
        if let Some(refusal) = self.senders.refusal_of_pulse(self.stopped(), nanoseconds) {
            return Err(refusal);
        }
        self.take_control(Item::Pulse(Moment::new(nanoseconds)))?;
        Ok(())
    }

    /// Queues the Close: packets after it aren't committed, and their replies say Shutdown. It returns Ok also if the ledger stops at the
    /// packets held: their replies say so.
    ///
    /// # Errors
    ///
    /// `Shutdown` after an earlier `shut`, then `NoMemory`. Nothing has changed then.
    pub fn shut(&mut self) -> Result<(), Refusal>
        ensures ok { OnOk result (QueuesBy L.is self.old (ticket_of self.old.front.submitters item.Close) self.new) }
        ensures shut { OnOk result (self.new.shut ≡ true) }
        ensures admitted { OnOk result (refusal_of_close self.old.shut ≡ None) }
        ensures same { OnErr result (self.new ≡ self.old) }
        ensures refusal { IfErr result (λ refusal. IsRefusal (refusal_of_close self.old.shut) refusal) }
    {
        if self.senders.shut {
            return Err(Refusal::Shutdown);
        }
        self.take_control(Item::Close)?;
        self.senders.shut = true;
        Ok(())
    }

    /// Commits the packets that are held. It returns Ok also if the ledger stops: the replies say so.
    ///
    /// # Errors
    ///
    /// `NoMemory`, only if a packet is held, and nothing has changed.
    pub fn flush(&mut self) -> Result<(), Refusal>
        ensures ok { OnOk result (ContinuesBy L.is self.old self.new) }
        ensures held { OnOk result (self.new.front.held ≡ []) }
        ensures err { IfErr result (λ refusal. (refusal ≡ NoMemoryRefusal) × (self.new ≡ self.old)) }
        ensures needed { OnErr result (0 < length self.old.front.held) }
        ensures nothing { self.old.front.held ≡ [] → self.new ≡ self.old }
    {
        if !self.front.is_holding() {
            return Ok(());
        }
        if self.unread.reserve(1).is_err() {
            return Err(Refusal::NoMemory);
        }
        commit_held(&mut self.front, &mut self.ledger, &mut self.unread);
        Ok(())
    }

    /// Returns the next reply, which stays unread; None if there is none.
    pub fn next_reply(&self) -> Option<&Reply>
        ensures { option_copied result ≡ slice_get self.now.unread 0 }
    {
        self.unread.next()
    }

    /// Removes the next reply and returns it, in the order in which packets were queued; None if there is none.
    pub fn reply(&mut self) -> Option<Reply>
        ensures some { IfSome result (λ reply. ReadsBy L.is self.old reply self.new) }
        ensures unread { self.old.unread ≡ option_to_list result ++ self.new.unread }
        ensures none { IfNone result ((self.old.unread ≡ []) × (self.new ≡ self.old)) }
    {
        self.unread.take()
    }
}
