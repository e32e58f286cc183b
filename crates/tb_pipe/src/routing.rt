//! The demultiplexer's stage: each reply into the ring of its submitter.

ghost use Rattle.std.specs.Prelude.{◌≡◌, ◌<◌, [], ◌∷◌, true};
ghost use Rattle.tb_core.specs.claim.Run.{replies_in};
ghost use Rattle.tb_rings.specs.clauses.Ends.{taken, SameInlet};
ghost use Rattle.tb_pipe.specs.clauses.Carried.{is_final, answers_in};
ghost use Rattle.tb_pipe.specs.clauses.Outlets.{SameOutlets, AllGiven, AllMore, AllRouted};

use crate::waiting::give_waiting;
use std::snapshot::Snapshot;
use std::sync::Wait;
use std::thread::Promise;
use std::time::Clock;
use tb_core::Outcomes;
use tb_rings::{IdleWait, Inlet, Outlet};
use tb_work::Reply;

/// The demultiplexer's end of its ring, and the reply rings.
#[derive(Drop)]
pub(crate) struct Demultiplexer {
    pub(crate) inlet: Inlet<Outcomes>,
    pub(crate) outlets: Vec<Outlet<Reply>>,
}

/// The promise that the returned ring ends are those of this stage, and that all that was taken is passed on.
#[derive(Drop)]
pub(crate) struct Routing {
    pub(crate) stage: Snapshot<Demultiplexer>,
}

impl Promise<Demultiplexer> for Routing {
    ghost use Rattle.tb_rings.specs.clauses.Ends.{taken, SameInlet};
    ghost use Rattle.tb_pipe.specs.clauses.Outlets.{SameOutlets, AllRouted};

    ghost kept_by = { λ p r. SameInlet p.stage.value.inlet r.inlet
        × SameOutlets p.stage.value.outlets.items r.outlets.items × AllRouted (taken r.inlet) r.outlets.items };
}

/// Puts a reply into its submitter's ring. There is room: the ring has as many slots as its submitter may have packets
/// in flight, so no stage waits for a submitter. Were it full all the same, this would wait until the submitter reads.
#[inline(always)]
fn route<R: Wait + Clock>(rt: &R, outlets: &mut Vec<Outlet<Reply>>, reply: Reply)
    ensures same { SameOutlets outlets.old.items outlets.new.items }
    ensures more { AllMore (reply ∷ []) outlets.old.items outlets.new.items }
{
    let k = reply.submitter as usize;
    if k < outlets.len() {
        let outlet = &mut outlets[k];
        give_waiting(rt, outlet, reply);
    }
}

/// Puts the replies of an outcome into their rings. Returns whether the outcome is the last.
fn route_all<R: Wait + Clock>(rt: &R, outlets: &mut Vec<Outlet<Reply>>, outcomes: Outcomes) -> bool
    ensures same { SameOutlets outlets.old.items outlets.new.items }
    ensures more { AllMore (replies_in outcomes) outlets.old.items outlets.new.items }
    ensures last { result ≡ is_final outcomes }
{
    match outcomes {
        Outcomes::Cut(mut cutter) => {
            while let Some(reply) = cutter.next() {
                route(rt, outlets, reply);
            }
            false
        }
        Outcomes::One(reply) => {
            route(rt, outlets, reply);
            false
        }
        Outcomes::Nothing => false,
        Outcomes::Last => true,
    }
}

impl Demultiplexer {
    /// Hands replies out until the last outcome.
    pub(crate) fn route_until_last<R: Wait + Clock>(&mut self, rt: &R)
        requires { AllGiven (answers_in (taken self.old.inlet)) self.old.outlets.items }
        ensures same { SameInlet self.old.inlet self.new.inlet × SameOutlets self.old.outlets.items self.new.outlets.items }
        ensures all { AllRouted (taken self.new.inlet) self.new.outlets.items }
    {
        let idle = IdleWait::new();
        for _ in rt.forever() {
            let Some(outcomes) = self.inlet.take() else {
                self.inlet.wait(rt, &idle);
                continue;
            };
            idle.reset();
            if route_all(rt, &mut self.outlets, outcomes) {
                return;
            }
        }
        unreachable!()
    }
}
