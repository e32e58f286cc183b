//! The committer's stage: batches from their ring through the ledger, their replies into the next ring.

ghost use Rattle.std.specs.Prelude.{◌≡◌, ℕ, List, [], ◌∷◌, ◌++◌};
ghost use Rattle.tb_core.specs.claim.Journal.{LedgerState};
ghost use Rattle.tb_core.specs.declared.parcel.Parcel.{Parcel as ParcelValue};
ghost use Rattle.tb_rings.specs.clauses.Ends.{given, taken, SameInlet, SameOutlet};
ghost use Rattle.tb_pipe.specs.clauses.Carried.{is_last, given_on, AreCleared, IsCommitted, AllCommitted, CommittedTo};

use crate::clearing::pass_gate;
use crate::gate::Gate;
use crate::waiting::give_waiting;
use std::snapshot::Snapshot;
use std::sync::Wait;
use std::thread::Promise;
use std::time::Clock;
use tb_core::{AnyLedger, Outcomes, Parcel};
use tb_rings::{IdleWait, Inlet, Outlet};

/// The committer's ends of its two rings, and its ledger.
#[derive(Drop)]
pub(crate) struct Committer<L> {
    pub(crate) inlet: Inlet<Parcel>,
    pub(crate) outlet: Outlet<Outcomes>,
    pub(crate) ledger: L,
}

/// The promise that the returned ring ends are those of this stage, and that all that was taken is committed, whatever the
/// ledger was when its run began.
#[derive(Drop)]
pub(crate) struct Commitment<L> {
    pub(crate) stage: Snapshot<Committer<L>>,
}

impl<L: AnyLedger> Promise<Committer<L>> for Commitment<L> {
    ghost use Rattle.std.specs.Prelude.{◌≡◌};
    ghost use Rattle.tb_rings.specs.clauses.Ends.{given, taken, SameOutlet, SameInlet};
    ghost use Rattle.tb_core.specs.claim.Journal.{LedgerState};
    ghost use Rattle.tb_pipe.specs.clauses.Carried.{IsCommitted, AllCommitted};

    ghost kept_by = { λ p r. SameInlet p.stage.value.inlet r.inlet × SameOutlet p.stage.value.outlet r.outlet
        × ((start : LedgerState) → IsCommitted start (taken p.stage.value.inlet) (L.is p.stage.value.ledger)
        (given p.stage.value.outlet) → AllCommitted start (taken r.inlet) (L.is r.ledger) (given r.outlet)) };
}

/// Returns whether a parcel is the last.
fn is_last(parcel: &Parcel) -> bool
    ensures { result ≡ is_last parcel.now }
{
    match parcel {
        Parcel::Last => true,
        _ => false,
    }
}

/// Gives the outcomes of a parcel; nothing for a pulse.
fn give_on<R: Wait + Clock>(rt: &R, outlet: &mut Outlet<Outcomes>, outcomes: Outcomes)
    ensures ring { SameOutlet outlet.old outlet.new }
    ensures given { given outlet.new ≡ given outlet.old ++ given_on outcomes }
{
    match outcomes {
        Outcomes::Nothing => {}
        outcomes => give_waiting(rt, outlet, outcomes),
    }
}

/// Passes one parcel through the ledger. Returns whether it is the last.
fn commit<R: Wait + Clock, L: AnyLedger>(
    rt: &R,
    ledger: &mut L,
    outlet: &mut Outlet<Outcomes>,
    parcel: Parcel,
) -> bool
    ensures ring { SameOutlet outlet.old outlet.new }
    ensures committed { (start : LedgerState) (sent : List ParcelValue)
        → IsCommitted start sent (L.is ledger.old) (given outlet.old)
        → CommittedTo result start (sent ++ parcel ∷ []) (L.is ledger.new) (given outlet.new) }
{
    let last = is_last(&parcel);
    let outcomes = ledger.apply(parcel);
    give_on(rt, outlet, outcomes);
    last
}

impl<L: AnyLedger> Committer<L> {
    /// Commits until the last parcel, and gives all replies on, and then the last outcome. The gate let each batch
    /// through, by its number among those that were taken here.
    pub(crate) fn commit_all<R: Wait + Clock, G: Gate>(&mut self, rt: &R, gate: &G)
        ensures same { SameInlet self.old.inlet self.new.inlet × SameOutlet self.old.outlet self.new.outlet }
        ensures all { (start : LedgerState)
            → IsCommitted start (taken self.old.inlet) (L.is self.old.ledger) (given self.old.outlet)
            → AllCommitted start (taken self.new.inlet) (L.is self.new.ledger) (given self.new.outlet) }
        ensures through { (number : ℕ)
            × AreCleared (G.lets_through gate.now) (taken self.old.inlet) (taken self.new.inlet) number }
    {
        let mut batches = 0;
        let idle = IdleWait::new();
        for _ in rt.forever() {
            let Some(parcel) = self.inlet.take() else {
                self.inlet.wait(rt, &idle);
                continue;
            };
            idle.reset();
            pass_gate(rt, gate, &parcel, &mut batches);
            if commit(rt, &mut self.ledger, &mut self.outlet, parcel) {
                return;
            }
        }
        unreachable!()
    }
}
