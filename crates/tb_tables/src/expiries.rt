//! When pending transfers expire.

ghost use Rattle.std.specs.Prelude.{◌≡◌, ◌⊎◌, ◌≤◌, ◌<◌, ◌+◌, ◌||◌, [], OnOk, OnErr, true, false, ℕ, IfSome, IfNone, length};
ghost use Rattle.std.specs.BinaryHeap.{heap_items, heap_len};
ghost use Rattle.tb_tables.specs.clauses.Expiries.{has_pair};
ghost use Rattle.tb_tables.specs.inside.Expiring.{IsReady, is_first_open, is_open_at};

use crate::transfers::Transfers;
use std::alloc::Global;
use std::cmp::Reverse;
use std::collections::BinaryHeap;
use std::marker::Model;
use tb_layout::NoMemory;

/// A moment, and the index in the order of making of the transfer that expires then. The earliest is the greatest.
type Expiry = Reverse<(u64, usize)>;

/// A pair for each pending transfer with a timeout. Those of transfers that are kept are in a heap, the earliest first.
/// Those of transfers that can still be taken back are beside it, the newest last, and the heap has capacity for them.
///
/// The pair of a transfer that was resolved may stay until it is the first of the heap. So the transfer is looked at
/// before it expires.
pub(crate) struct Expiries {
    heap: BinaryHeap<Expiry>,
    fresh: Vec<Expiry>,
}

impl Drop for Expiries {
    /// Frees everything held in one call, so that no owner's proof repeats it.
    fn drop(self) {
        let Expiries { heap, fresh } = self;
        drop(heap);
        drop(fresh);
    }
}

impl Model for Expiries {
    ghost use Rattle.std.specs.Prelude.{length};
    ghost use Rattle.std.specs.BinaryHeap.{heap_items};
    ghost use Rattle.tb_tables.specs.clauses.Expiries.{ExpiriesState};
    ghost use Rattle.tb_tables.specs.inside.Expiring.{IsReady};

    ghost Value = { ExpiriesState };

    ghost view = { λ expiries. record { kept = heap_items expiries.heap; fresh = expiries.fresh.items } };

    ghost invariant = { λ expiries. IsReady expiries.heap (length expiries.fresh.items) };
}

/// Puts the pairs into a heap that has capacity for them, without those whose transfer reserves nothing any more.
fn push_open(heap: &mut BinaryHeap<Expiry>, pairs: &[Expiry], transfers: &Transfers)
    requires { IsReady heap.old (length pairs.now) }
    ensures ready { IsReady heap.new 0 }
    ensures stay { (m p : ℕ) → has_pair (heap_items heap.old) m p ≡ true → has_pair (heap_items heap.new) m p ≡ true }
    ensures come { (m p : ℕ) → is_open_at transfers.now p ≡ true → has_pair pairs.now m p ≡ true
        → has_pair (heap_items heap.new) m p ≡ true }
    ensures only { (m p : ℕ) → has_pair (heap_items heap.new) m p ≡ true
        → (has_pair (heap_items heap.old) m p || is_open_at transfers.now p) ≡ true }
    ensures most { heap_len heap.new ≤ heap_len heap.old + length pairs.now }
{
    for pair in pairs {
        let Reverse((_, index)) = *pair;
        if transfers.is_open_at(index) {
            let Ok(()) = heap.push(*pair) else {
                unreachable!()
            };
        }
    }
}

/// Takes the earliest pair out if its transfer reserves nothing any more. Returns whether it did.
fn pop_spent(heap: &mut BinaryHeap<Expiry>, transfers: &Transfers) -> bool
    requires { IsReady heap.old 0 }
    ensures ready { IsReady heap.new 0 }
    ensures stay { (m p : ℕ) → is_open_at transfers.now p ≡ true → has_pair (heap_items heap.old) m p ≡ true
        → has_pair (heap_items heap.new) m p ≡ true }
    ensures only { (m p : ℕ) → has_pair (heap_items heap.new) m p ≡ true → has_pair (heap_items heap.old) m p ≡ true }
    ensures popped { result ≡ true → heap_len heap.new < heap_len heap.old }
    ensures first { result ≡ false → is_first_open transfers.now (heap_items heap.new) ≡ true }
{
    let Some(&Reverse((_, index))) = heap.peek() else {
        return false;
    };
    if transfers.is_open_at(index) {
        return false;
    }
    let Some(_) = heap.pop() else { unreachable!() };
    true
}

impl Expiries {
    ghost use Rattle.tb_tables.specs.clauses.Expiries.{ExpiriesState, is_in_expiries};
    ghost use Rattle.tb_tables.specs.inside.Expiring.{LosesOnly, with_fresh};

    /// Returns no pairs. Takes no memory.
    pub(crate) fn new(alloc: Global) -> Expiries
        ensures { result ≡ record { kept = []; fresh = [] } }
    {
        Expiries {
            heap: BinaryHeap::new(alloc),
            fresh: Vec::new(alloc),
        }
    }

    /// Puts in the pair of a transfer that can still be taken back.
    pub(crate) fn insert(&mut self, moment: u64, index: usize) -> Result<(), NoMemory>
        ensures ok { OnOk result (self.new ≡ with_fresh self.old moment index) }
        ensures err { OnErr result (self.new ≡ self.old) }
    {
        self.heap.reserve(self.fresh.len() + 1)?;
        self.fresh.push(Reverse((moment, index)))?;
        Ok(())
    }

    /// Takes the newest pair out again, if it is this one.
    pub(crate) fn take_back(&mut self, moment: u64, index: usize)
        ensures gone { (before : ExpiriesState) → self.old ≡ with_fresh before moment index → self.new ≡ before }
        ensures others { LosesOnly moment index self.old self.new }
        ensures kept { self.new.kept ≡ self.old.kept }
    {
        if self.fresh.last() == Some(&Reverse((moment, index))) {
            self.fresh.pop();
        }
    }

    /// Keeps all pairs, since no transfer can be taken back any more. The pairs of transfers that reserve nothing any more
    /// leave: those that weren't kept before, and of the others at most this number.
    pub(crate) fn keep(&mut self, transfers: &Transfers, most: usize)
        ensures stay { (m p : ℕ) → is_open_at transfers.now p ≡ true → is_in_expiries self.old m p ≡ true
            → is_in_expiries self.new m p ≡ true }
        ensures only { (m p : ℕ) → is_in_expiries self.new m p ≡ true
            → (has_pair self.old.kept m p || is_open_at transfers.now p) ≡ true }
        ensures spent { (is_first_open transfers.now self.new.kept ≡ true)
            ⊎ (length self.new.kept + most ≤ length self.old.kept + length self.old.fresh) }
        ensures kept { self.new.fresh ≡ [] }
    {
        push_open(&mut self.heap, self.fresh.as_slice(), transfers);
        self.fresh.clear();
        for popped in 0..most {
            if !pop_spent(&mut self.heap, transfers) {
                return;
            }
        }
    }

    /// Takes the earliest pair out if it is due at a clock, and returns its index. All are kept.
    pub(crate) fn take_due(&mut self, clock: u64) -> Option<usize>
        requires { self.old.fresh ≡ [] }
        ensures kept { self.new.fresh ≡ [] }
        ensures due { IfSome result (λ index. (moment : ℕ) × (moment ≤ clock) × LosesOnly moment index self.old self.new) }
        ensures fewer { IfSome result (λ index. length self.new.kept < length self.old.kept) }
        ensures later { IfNone result ((m p : ℕ) → is_in_expiries self.old m p ≡ true → clock < m) }
        ensures none { IfNone result (self.new ≡ self.old) }
    {
        let Reverse((moment, _)) = *self.heap.peek()?;
        if moment > clock {
            return None;
        }
        let Reverse((_, index)) = self.heap.pop()?;
        Some(index)
    }
}
