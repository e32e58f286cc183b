//! What a committer asks of a ledger.

ghost use Rattle.std.specs.Prelude.{◌≡◌, ℕ, [], false};
ghost use Rattle.tb_core.specs.claim.AnyLedger.{Applying, IsWithJournal};
ghost use Rattle.tb_core.specs.claim.Grouping.{AreJoined};
ghost use Rattle.tb_core.specs.claim.Journal.{LedgerState, groups_since};
ghost use Rattle.tb_core.specs.claim.Run.{Commits};

use crate::bare_ledger::BareLedger;
use crate::ledger::Ledger;
use crate::outcomes::Outcomes;
use crate::parcel::Parcel;

/// A ledger that parcels are committed to, wherever it keeps its journal: in memory (`Ledger`), nowhere (`BareLedger`),
/// or in a store of its own.
///
/// Its implementor says by `is` which ledgers it may be: which journals, opening clocks and states. A `Ledger` is only
/// itself. A journal that isn't in memory isn't part of the value, so clauses speak of each that it may be.
pub trait AnyLedger: Drop {
    ghost is: { Self → LedgerState → Type 0 };

    /// Returns whether it has stopped. If not, a run may begin with it, whatever was committed before.
    fn stopped(&self) -> bool
        ensures stopped { (ledger : LedgerState) → is self.now ledger → result ≡ ledger.stopped }
        ensures begins { (ledger : LedgerState) → is self.now ledger → ledger.stopped ≡ false
            → Commits ledger [] ledger [] }
        ensures joined { (ledger : LedgerState) (limit : ℕ) → AreJoined limit (groups_since ledger ledger) };

    /// Applies one parcel, as `Ledger::apply` does. If its journal can't take the entry, nothing of it is committed, and
    /// the ledger stops.
    fn apply(&mut self, parcel: Parcel) -> Outcomes
        ensures applied { Applying (is self.old) parcel result (is self.new) };

    /// Returns whether a commit waits for more than memory, as for a disk. Then a pipeline hands one more batch over during a commit, and
    /// packets that come later join the batch after that one. It is asked once a run.
    fn waits(&self) -> bool {
        false
    }
}

impl AnyLedger for Ledger {
    ghost is = { λ ledger state. state ≡ ledger };

    fn stopped(&self) -> bool {
        // The law that a run may begin with it.
        let _ = self.begin();
        Ledger::stopped(self)
    }

    fn apply(&mut self, parcel: Parcel) -> Outcomes {
        Ledger::apply(self, parcel)
    }
}

impl AnyLedger for BareLedger {
    ghost is = { IsWithJournal };

    fn stopped(&self) -> bool {
        BareLedger::stopped(self)
    }

    fn apply(&mut self, parcel: Parcel) -> Outcomes {
        BareLedger::apply(self, parcel)
    }
}
