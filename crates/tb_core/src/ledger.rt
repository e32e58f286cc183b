//! The ledger: the journal, and the machine that it gives.

ghost use Rattle.std.specs.Prelude.{◌≡◌, ◌<◌, ◌≤◌, [], ℕ, true, false, length, map, vec_len, vec_capacity, OnOk, OnErr, IfOk, IfErr};
ghost use Rattle.tb_layout.specs.claim.Limits.{clock_max};
ghost use Rattle.tb_machine.specs.claim.Replay.{replay};

use crate::bare_ledger::{BareLedger, Recorded};
use crate::journal::Entry;
use crate::outcomes::Outcomes;
use crate::parcel::Parcel;
use std::alloc::Global;
use std::marker::Model;
use std::snapshot::Snapshot;
use tb_layout::NoMemory;
use tb_machine::{Machine, Seed};

/// Commits what the front yields, and keeps a journal of it.
pub struct Ledger {
    bare: BareLedger,
    entries: Vec<Entry>,
}

impl Drop for Ledger {
    /// Frees everything held in one call, so that no owner's proof repeats it.
    fn drop(self) {
        let Ledger { bare, entries } = self;
        drop(bare);
        drop(entries);
    }
}

impl Model for Ledger {
    ghost use Rattle.std.specs.Prelude.{map};
    ghost use Rattle.tb_core.specs.claim.BareLedger.{with_journal, IsLedger};
    ghost use Rattle.tb_core.specs.claim.Journal.{LedgerState};
    ghost use Rattle.tb_core.specs.claim.Ledger.{group_of};

    ghost Value = { LedgerState };

    ghost view = { λ ledger. with_journal ledger.bare (map group_of ledger.entries.items) };

    ghost invariant = { λ ledger. IsLedger ledger.bare ledger.entries.items };
}

/// Makes capacity for an entry, if one is needed.
fn reserve_entry(entries: &mut Vec<Entry>, is_needed: bool) -> Result<(), NoMemory>
    ensures same { entries.new.items ≡ entries.old.items }
    ensures room { OnOk result (is_needed ≡ true → vec_len entries.new < vec_capacity entries.new) }
    ensures needed { OnErr result (is_needed ≡ true) }
{
    if is_needed {
        entries.reserve(1)?;
    }
    Ok(())
}

impl Ledger {
    ghost use Rattle.tb_core.specs.claim.AnyLedger.{IsApplied};
    ghost use Rattle.tb_core.specs.claim.Grouping.{AreJoined};
    ghost use Rattle.tb_core.specs.claim.Run.{Commits, HasPackets};
    ghost use Rattle.tb_core.specs.claim.Journal.{LedgerState, inputs, groups_since};
    ghost use Rattle.tb_core.specs.claim.Ledger.{apply_result, apply_step, new_ledger, takes_memory, group_of, AreEntries};

    /// Returns a ledger without entries, whose clock starts at a number of nanoseconds, 0 to `CLOCK_MAX`. Takes no
    /// memory.
    pub fn new(alloc: Global, clock: u64) -> Ledger
        requires { clock ≤ clock_max }
        ensures ledger { result ≡ new_ledger clock }
        ensures commits { Commits (new_ledger clock) [] result [] }
    {
        Ledger::with_seed(alloc, clock, Seed::default())
    }

    /// Returns the ledger of `new`, which hashes ids with a seed. If the seed is two numbers that an attacker doesn't
    /// know, ids can't be chosen to make commits slow. The ledger's states and replies don't depend on the seed.
    pub fn with_seed(alloc: Global, clock: u64, seed: Seed) -> Ledger
        requires { clock ≤ clock_max }
        ensures ledger { result ≡ new_ledger clock }
        ensures commits { Commits (new_ledger clock) [] result [] }
    {
        Ledger {
            bare: BareLedger::with_seed(alloc, clock, seed),
            entries: Vec::new(alloc),
        }
    }

    /// Establishes that a run may begin with this ledger unless it has stopped, whatever it committed before: places count
    /// on, and answers come from the state that it has. Returns a ghost copy, by which contracts say what was added since.
    pub fn begin(&self) -> Snapshot<Ledger>
        ensures start { result.value ≡ self.now }
        ensures commits { self.now.stopped ≡ false → Commits self.now [] self.now [] }
        ensures joined { (limit : ℕ) → AreJoined limit (groups_since self.now self.now) }
    {
        // The law that the machine is in the state that the journal gives.
        let _ = self.machine();
        Snapshot::of(self)
    }

    /// Reserves capacity for accounts and transfers that are still to be made. Until then no commit waits for their maps
    /// to grow, which moves all that is stored. If memory runs out, nothing has changed.
    pub fn reserve(&mut self, accounts: usize, transfers: usize) -> Result<(), NoMemory>
        ensures { self.new ≡ self.old }
    {
        self.bare.reserve(accounts, transfers)
    }

    /// Returns where the clock started, in nanoseconds.
    pub fn opening(&self) -> u64
        ensures { result ≡ self.now.opening }
    {
        self.bare.opening()
    }

    /// Returns whether it has stopped: it commits nothing more.
    pub fn stopped(&self) -> bool
        ensures { result ≡ self.now.stopped }
    {
        self.bare.stopped()
    }

    /// Returns how many packets and pulses were committed.
    pub fn places(&self) -> u64
        ensures { result ≡ length (inputs self.now) }
    {
        self.bare.places()
    }

    /// Returns the machine, in the state that the journal gives.
    pub fn machine(&self) -> &Machine
        ensures own { result.now ≡ self.now.state }
        ensures replayed { result.now ≡ replay self.now.opening (inputs self.now) }
    {
        self.bare.machine()
    }

    /// Returns the journal's entries, in order. They are exactly what was committed: one packet for each stub, with that
    /// stub's count of the body's events, and a body without any other byte.
    pub fn journal(&self) -> &[Entry]
        ensures groups { map group_of result.now ≡ self.now.groups }
        ensures whole { AreEntries result.now }
    {
        self.entries.as_slice()
    }

    /// Applies one parcel unless an allocation fails. If one does, the parcel comes back, and nothing has changed;
    /// what must be stopped anyway never comes back.
    pub fn try_apply(&mut self, parcel: Parcel) -> Result<Outcomes, Parcel>
        ensures ok { IfOk result (λ outcomes. apply_result self.new outcomes ≡ apply_step false self.old parcel) }
        ensures err { IfErr result (λ back. (back ≡ parcel) × (self.new ≡ self.old)) }
        ensures memory { OnErr result (takes_memory self.old parcel ≡ true) }
        ensures some { HasPackets parcel }
    {
        let takes_memory = self.bare.takes_memory(&parcel);
        if reserve_entry(&mut self.entries, takes_memory).is_err() {
            return Err(parcel);
        }
        let Recorded { outcomes, entry } = self.bare.try_record(parcel)?;
        if let Some(entry) = entry {
            self.entries.push_reserved(entry);
        }
        Ok(outcomes)
    }

    /// Applies one parcel as `apply` does if its allocation fails. Takes no memory.
    pub fn apply_as_refused(&mut self, parcel: Parcel) -> Outcomes
        ensures applied { apply_result self.new result ≡ apply_step true self.old parcel }
        ensures is_applied { IsApplied self.old parcel result self.new }
    {
        self.bare.refuse(parcel)
    }

    /// Applies one parcel, and returns its outcomes. A batch is committed as one and each of its packets gets its
    /// reply; a pulse is applied; a returned packet gets its cause. If an allocation fails, the ledger stopped before,
    /// or there are no places left, nothing is committed, the ledger stops, and each packet of a batch gets the outcome
    /// Stopped. It takes memory for the facts and for the journal.
    pub fn apply(&mut self, parcel: Parcel) -> Outcomes
        ensures { IsApplied self.old parcel result self.new }
    {
        match self.try_apply(parcel) {
            Ok(outcomes) => outcomes,
            Err(parcel) => self.apply_as_refused(parcel),
        }
    }
}
