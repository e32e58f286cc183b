//! The places of pulses.

use sqlite_trees::store::Store;
use tb_core::{AnyLedger, Outcomes, Parcel};
use tb_durable::DurableLedger;

/// A ledger in a file, which notes the places of the pulses that it commits.
pub(crate) struct Noting<S: Store> {
    pub(crate) ledger: DurableLedger<S>,
    pub(crate) pulses: Vec<u64>,
    /// Whether memory ran out for a place.
    pub(crate) lacks_memory: bool,
}

impl<S: Store + Drop> Drop for Noting<S> {
    /// Frees everything held in one call, so that no owner's proof repeats it.
    fn drop(self) {
        let Noting {
            ledger,
            pulses,
            lacks_memory: _,
        } = self;
        drop(ledger);
        drop(pulses);
    }
}

impl<S: Store + Drop> Noting<S> {
    /// Returns the ledger's store.
    pub(crate) fn into_store(self) -> S {
        let Noting {
            ledger,
            pulses,
            lacks_memory: _,
        } = self;
        drop(pulses);
        ledger.into_store()
    }
}

impl<S: Store + Drop> AnyLedger for Noting<S> {
    ghost use Rattle.tb_durable.specs.clauses.Entries.{IsInFile};

    ghost is = { λ noting ledger. IsInFile S.Store.view S.Store.recovers noting.ledger ledger };

    fn stopped(&self) -> bool {
        AnyLedger::stopped(&self.ledger)
    }

    fn apply(&mut self, parcel: Parcel) -> Outcomes {
        let place = self.ledger.places();
        let is_pulse = matches!(parcel, Parcel::Pulse(_));
        let outcomes = AnyLedger::apply(&mut self.ledger, parcel);
        if is_pulse && self.ledger.places() > place {
            self.lacks_memory |= self.pulses.push(place).is_err();
        }
        outcomes
    }

    fn waits(&self) -> bool {
        self.ledger.waits()
    }
}
