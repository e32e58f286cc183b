//! Who decides, once a run is given up, whether its senders still wait for a slot.

use std::sync::atomic::{AtomicU64, Ordering};

const OPEN: u64 = 0;

const SERVED: u64 = 1;

const GIVEN_UP: u64 = 2;

/// Whether a queue is served or given up. The first of the two calls that asks for one decides.
pub(crate) struct Service {
    state: AtomicU64,
}

impl Drop for Service {
    fn drop(self) {
        let Service { state: _ } = self;
    }
}

impl Service {
    /// Returns the state of a queue that nobody serves yet.
    pub(crate) fn new() -> Service {
        Service {
            state: AtomicU64::new(OPEN),
        }
    }

    /// Returns whether the queue may be served, which it may unless it was given up. It is then not given up any more.
    pub(crate) fn begin(&self) -> bool {
        self.decide(SERVED)
    }

    /// Returns whether the queue is given up, which it is unless it is served. It is then not served any more.
    pub(crate) fn give_up(&self) -> bool {
        self.decide(GIVEN_UP)
    }

    /// Gives the queue up, though its service began.
    pub(crate) fn fail(&self) {
        self.state.store(GIVEN_UP, Ordering::SeqCst);
    }

    /// Sets the state, if nobody has set it yet, and returns whether it is this.
    fn decide(&self, state: u64) -> bool {
        match self
            .state
            .compare_exchange(OPEN, state, Ordering::SeqCst, Ordering::SeqCst)
        {
            Ok(_) => true,
            Err(found) => found == state,
        }
    }
}
