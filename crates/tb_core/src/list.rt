//! A list of items through the front and the ledger, in one thread.

ghost use Rattle.std.specs.Prelude.{◌≡◌, ◌≤◌, ◌++◌, ◌∷◌, [], ℕ, List, IfOk, OnOk, option_to_list};
ghost use Rattle.tb_layout.specs.claim.Bounds.{batch_max};
ghost use Rattle.tb_layout.specs.claim.Limits.{clock_max};
ghost use Rattle.tb_work.specs.claim.Ahead.{ahead};
ghost use Rattle.tb_work.specs.declared.item.Item.{Item as ItemValue};
ghost use Rattle.tb_work.specs.declared.item.Item.TheVariants.{Packet as PacketItem};
ghost use Rattle.tb_core.specs.claim.Front.{all_decisions_in, decisions_in};
ghost use Rattle.tb_core.specs.claim.Grouping.{AreWithin, IsGrouping, IsJoinedParcel, AreJoinedParcels};
ghost use Rattle.tb_core.specs.claim.Decision.{Decision};
ghost use Rattle.tb_core.specs.claim.Journal.{LedgerState};
ghost use Rattle.tb_core.specs.claim.Ledger.{new_ledger};
ghost use Rattle.tb_core.specs.claim.Run.{IsListed, HasNotStopped, IsRunning, IsDrained, Ran, replies_in};

use crate::front::Front;
use crate::ledger::Ledger;
use crate::outcomes::Outcomes;
use crate::parcel::Parcel;
use arrayvec::ArrayVec;
use std::alloc::Global;
use tb_demux::Cutter;
use tb_layout::NoMemory;
use tb_work::{Item, Job, Reply, Ticket};

/// The result of a list of items: the ledger, and a reply to each packet, in order.
#[derive(Drop)]
pub struct Listed {
    pub ledger: Ledger,
    pub replies: Vec<Reply>,
}

/// Puts all that a cutter gives after the others.
fn put_all(cutter: &mut Cutter, replies: &mut Vec<Reply>) -> Result<(), NoMemory>
    ensures { OnOk result (replies.new.items ≡ replies.old.items ++ cutter.old) }
{
    while let Some(reply) = cutter.next() {
        replies.push(reply)?;
    }
    Ok(())
}

/// Adds the replies of a parcel after the others.
fn put(outcomes: Outcomes, replies: &mut Vec<Reply>) -> Result<(), NoMemory>
    ensures { OnOk result (replies.new.items ≡ replies.old.items ++ replies_in outcomes) }
{
    match outcomes {
        Outcomes::Cut(mut cutter) => {
            let put = put_all(&mut cutter, replies);
            drop(cutter);
            put
        }
        Outcomes::One(reply) => Ok(replies.push(reply)?),
        Outcomes::Nothing | Outcomes::Last => Ok(()),
    }
}

/// Applies a parcel to a ledger that hasn't stopped, and keeps the replies. A ledger that stops means here that memory
/// ran out.
fn apply(ledger: &mut Ledger, replies: &mut Vec<Reply>, parcel: Parcel) -> Result<(), NoMemory>
    ensures { (start : LedgerState) (limit : ℕ) (sent : List Decision) → IsJoinedParcel limit parcel
        → HasNotStopped start limit sent ledger.old replies.old.items
        → OnOk result (HasNotStopped start limit (sent ++ decisions_in parcel) ledger.new replies.new.items) }
{
    match ledger.try_apply(parcel) {
        Ok(outcomes) => {
            put(outcomes, replies)?;
            if ledger.stopped() {
                return Err(NoMemory);
            }
            Ok(())
        }
        Err(parcel) => {
            drop(parcel);
            Err(NoMemory)
        }
    }
}

/// Applies parcels in order, and leaves none.
fn apply_all(
    ledger: &mut Ledger,
    replies: &mut Vec<Reply>,
    parcels: &mut ArrayVec<Parcel, 2>,
) -> Result<(), NoMemory>
    ensures none { OnOk result (parcels.new.items ≡ []) }
    ensures applied { (start : LedgerState) (limit : ℕ) (sent : List Decision) → AreJoinedParcels limit parcels.old.items
        → HasNotStopped start limit sent ledger.old replies.old.items
        → OnOk result (HasNotStopped start limit (sent ++ all_decisions_in parcels.old.items) ledger.new replies.new.items) }
{
    while let Some(parcel) = parcels.pop_at(0) {
        apply(ledger, replies, parcel)?;
    }
    Ok(())
}

/// Applies the parcel, if there is one.
#[inline(always)]
fn apply_if(
    ledger: &mut Ledger,
    replies: &mut Vec<Reply>,
    parcel: Option<Parcel>,
) -> Result<(), NoMemory>
    ensures { (start : LedgerState) (limit : ℕ) (sent : List Decision) → AreJoinedParcels limit (option_to_list parcel)
        → HasNotStopped start limit sent ledger.old replies.old.items
        → OnOk result (HasNotStopped start limit (sent ++ all_decisions_in (option_to_list parcel)) ledger.new
        replies.new.items) }
{
    match parcel {
        Some(parcel) => apply(ledger, replies, parcel),
        None => Ok(()),
    }
}

/// A front and a ledger under way, with the replies so far.
#[derive(Drop)]
struct Listing {
    front: Front,
    ledger: Ledger,
    replies: Vec<Reply>,
}

impl Listing {
    /// Takes a packet, of which at most one parcel comes.
    #[inline(always)]
    fn packet(&mut self, job: Job) -> Result<(), NoMemory>
        ensures { (start : LedgerState) (limit : ℕ) (items : List ItemValue)
            → IsRunning start limit items self.old.front self.old.ledger self.old.replies.items
            → OnOk result (IsRunning start limit (items ++ PacketItem job ∷ []) self.new.front self.new.ledger
            self.new.replies.items) }
    {
        match self.front.try_packet(job) {
            Ok(parcel) => apply_if(&mut self.ledger, &mut self.replies, parcel),
            Err(job) => {
                drop(job);
                Err(NoMemory)
            }
        }
    }

    /// Takes an item that is no packet, with room for its parcels. Its sender doesn't matter: whether all have ended isn't asked.
    fn control(&mut self, parcels: &mut ArrayVec<Parcel, 2>, item: Item) -> Result<(), NoMemory>
        requires { parcels.old.items ≡ [] }
        ensures none { OnOk result (parcels.new.items ≡ []) }
        ensures runs { (start : LedgerState) (limit : ℕ) (items : List ItemValue)
            → IsRunning start limit items self.old.front self.old.ledger self.old.replies.items
            → OnOk result (IsRunning start limit (items ++ item ∷ []) self.new.front self.new.ledger
            self.new.replies.items) }
    {
        let mut ticket = Ticket { sender: 0, item };
        let taken = self.front.try_take(parcels, &mut ticket);
        drop(ticket);
        taken?;
        apply_all(&mut self.ledger, &mut self.replies, parcels)
    }

    /// Takes one item, with room for its parcels.
    fn take(&mut self, parcels: &mut ArrayVec<Parcel, 2>, item: Item) -> Result<(), NoMemory>
        requires { parcels.old.items ≡ [] }
        ensures none { OnOk result (parcels.new.items ≡ []) }
        ensures runs { (start : LedgerState) (limit : ℕ) (items : List ItemValue)
            → IsRunning start limit items self.old.front self.old.ledger self.old.replies.items
            → OnOk result (IsRunning start limit (items ++ item ∷ []) self.new.front self.new.ledger
            self.new.replies.items) }
    {
        match item {
            Item::Packet(job) => self.packet(job),
            item => self.control(parcels, item),
        }
    }

    /// Takes items in order.
    fn take_all(&mut self, items: Vec<Item>) -> Result<(), NoMemory>
        ensures { (start : LedgerState) (limit : ℕ) → IsRunning start limit [] self.old.front
            self.old.ledger self.old.replies.items
            → OnOk result (IsRunning start limit items.items self.new.front self.new.ledger self.new.replies.items) }
    {
        let mut parcels = ArrayVec::new();
        for item in items {
            self.take(&mut parcels, item)?;
        }
        Ok(())
    }

    /// Applies the group that the front still holds.
    fn finish(&mut self) -> Result<(), NoMemory>
        ensures { (start : LedgerState) (limit : ℕ) (items : List ItemValue)
            → IsRunning start limit items self.old.front self.old.ledger self.old.replies.items
            → OnOk result (IsDrained start limit items self.new.ledger self.new.replies.items) }
    {
        match self.front.idle() {
            Some(batch) => apply(&mut self.ledger, &mut self.replies, Parcel::Batch(batch)),
            None => Ok(()),
        }
    }

    /// Takes items in order, and applies the group that is held after them.
    fn take_all_and_finish(&mut self, items: Vec<Item>) -> Result<(), NoMemory>
        ensures { (start : LedgerState) (limit : ℕ) → IsRunning start limit [] self.old.front
            self.old.ledger self.old.replies.items
            → OnOk result (IsDrained start limit items.items self.new.ledger self.new.replies.items) }
    {
        self.take_all(items)?;
        self.finish()
    }
}

/// Commits a list of items in order, from a clock in nanoseconds, 0 to `CLOCK_MAX`, on, and replies to each packet. A
/// packet behind a Close gets Shutdown, a pulse there has no effect, and an End has none anywhere. The limit is 1 to
/// 8190 events; a packet with more is a batch by itself. It takes memory for all packets at once; if that fails, no
/// reply is returned.
pub fn run_list(alloc: Global, clock: u64, limit: u32, items: Vec<Item>) -> Result<Listed, NoMemory>
    requires clock { clock ≤ clock_max }
    requires least { 1 ≤ limit }
    requires most { limit ≤ batch_max }
    ensures listed { IfOk result (λ listed. IsListed clock items.items listed.ledger listed.replies.items) }
    ensures ran { IfOk result (λ listed. Ran (new_ledger clock) items.items listed.ledger listed.replies.items) }
    ensures grouping { AreWithin limit (ahead items.items)
        → IfOk result (λ listed. IsGrouping limit listed.ledger.groups) }
{
    let replies = Vec::with_capacity(alloc, items.len())?;
    let Ok(front) = Front::new(alloc, limit, 1) else {
        unreachable!()
    };
    let mut listing = Listing {
        front,
        ledger: Ledger::new(alloc, clock),
        replies,
    };
    match listing.take_all_and_finish(items) {
        Ok(()) => {
            let Listing {
                front,
                ledger,
                replies,
            } = listing;
            drop(front);
            Ok(Listed { ledger, replies })
        }
        Err(refused) => {
            drop(listing);
            Err(refused)
        }
    }
}
