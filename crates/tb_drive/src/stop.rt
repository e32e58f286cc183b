//! Giving a run up.

ghost use Rattle.std.specs.Prelude.{◌≡◌, length, IfOk};

use std::alloc::Global;
use std::marker::Model;
use std::sync::atomic::{AtomicBool, Ordering};
use tb_layout::NoMemory;
use tb_rings::Waker;
use tb_submit::Submitter;

/// Whether a run is given up, and what wakes the submitters' threads then. A contract sees how many it wakes.
///
/// An application that starts threads of its own needs one. If a thread can't be started nobody serves, and the threads
/// that run already would wait for ever.
pub struct Stop {
    given_up: AtomicBool,
    wakers: Vec<Waker>,
}

impl Drop for Stop {
    /// Frees everything held in one call, so that no owner's proof repeats it.
    fn drop(self) {
        let Stop {
            given_up: _,
            wakers,
        } = self;
        drop(wakers);
    }
}

impl Model for Stop {
    ghost use Rattle.std.specs.Prelude.{ℕ, length};

    ghost Value = { ℕ };

    ghost view = { λ stop. length stop.wakers.items };
}

impl Stop {
    /// Returns a `Stop` for a run with these submitters, which isn't given up. Allocates a few words for each submitter
    /// at once, and nothing later.
    ///
    /// # Errors
    ///
    /// `NoMemory`, if memory runs out.
    pub fn of(alloc: Global, submitters: &[Submitter]) -> Result<Stop, NoMemory>
        ensures { IfOk result (λ stop. stop ≡ length submitters.now) }
    {
        let mut wakers = Vec::with_capacity(alloc, submitters.len())?;
        for submitter in submitters {
            wakers.push(submitter.waker()?)?;
        }
        Ok(Stop {
            given_up: AtomicBool::new(false),
            wakers,
        })
    }

    /// Gives the run up, and then wakes each submitter's thread that waits for a reply. A run that is given up stays so.
    ///
    /// The threads of drivers and clients still queue their ends, so a `serve` that runs returns. If nobody serves, they wait
    /// for no slot of the queue, and a `serve` that begins after that is refused.
    ///
    /// Costs an atomic exchange for each submitter, and a system call for each that sleeps.
    pub fn give_up(&self) {
        self.given_up.store(true, Ordering::SeqCst);
        for waker in &self.wakers {
            waker.wake();
        }
    }

    /// Returns whether the run is given up. Costs an atomic load.
    pub fn is_given_up(&self) -> bool {
        self.given_up.load(Ordering::SeqCst)
    }
}
