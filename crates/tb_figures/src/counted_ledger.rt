//! A ledger that counts what it commits.

use crate::counts::Counts;
use crate::figures::Figures;
use tb_core::{AnyLedger, Outcomes, Parcel};

/// A ledger that counts what is committed to it since it was made, and stores its counts into `Figures` after each parcel.
pub struct CountedLedger<L: AnyLedger> {
    ledger: L,
    counts: Counts,
    figures: Figures,
}

impl<L: AnyLedger> Drop for CountedLedger<L> {
    /// Frees everything held in one call, so that no owner's proof repeats it.
    fn drop(self) {
        let CountedLedger {
            ledger,
            counts: _,
            figures,
        } = self;
        drop(ledger);
        drop(figures);
    }
}

impl<L: AnyLedger> CountedLedger<L> {
    ghost use Rattle.std.specs.Prelude.{◌≡◌, []};
    ghost use Rattle.tb_core.specs.claim.Journal.{LedgerState};
    ghost use Rattle.tb_figures.specs.clauses.Counted.{HasLast, IsCounted};
    ghost use Rattle.tb_figures.specs.clauses.Counts.{AreCounts};

    /// Returns the ledger with counts of nothing. What it committed before isn't counted.
    pub fn over(ledger: L, figures: Figures) -> CountedLedger<L>
        ensures ledger { result.ledger ≡ ledger }
        ensures counts { AreCounts [] result.counts }
        ensures counted { (state : LedgerState) → L.is ledger state
            → IsCounted L.is result.ledger result.counts state }
    {
        CountedLedger {
            ledger,
            counts: Counts::new(),
            figures,
        }
    }

    /// Returns what was committed since it was made. Of each ledger that it may be, they are the counts of the journal's last groups. If
    /// as many packets and pulses are counted as a run gained places, they are those of the run, by `counts_are_exact`.
    pub fn counts(&self) -> Counts
        ensures counts { result ≡ self.now.counts }
        ensures last { (state : LedgerState) → IsCounted L.is self.now.ledger self.now.counts state → HasLast result state }
    {
        self.counts
    }

    /// Returns the ledger that counts.
    pub fn ledger(&self) -> &L
        ensures { result.now ≡ self.now.ledger }
    {
        &self.ledger
    }

    /// Returns the ledger, which is counted no more.
    pub fn into_ledger(self) -> L
        ensures { result ≡ self.ledger }
    {
        let CountedLedger {
            ledger,
            counts: _,
            figures,
        } = self;
        drop(figures);
        ledger
    }
}

impl<L: AnyLedger> AnyLedger for CountedLedger<L> {
    ghost use Rattle.tb_figures.specs.clauses.Counted.{IsCounted};

    ghost is = { λ counted state. IsCounted L.is counted.ledger counted.counts state };

    fn stopped(&self) -> bool {
        self.ledger.stopped()
    }

    fn apply(&mut self, parcel: Parcel) -> Outcomes {
        let counts = self.counts.with_parcel(&parcel);
        let outcomes = self.ledger.apply(parcel);
        if !self.ledger.stopped() {
            self.counts = counts;
            self.figures.store(&counts);
        }
        outcomes
    }

    fn waits(&self) -> bool {
        self.ledger.waits()
    }
}
