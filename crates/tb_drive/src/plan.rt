//! A control whose pulses are known beforehand.

ghost use Rattle.std.specs.Prelude.{◌≡◌, [], false};
ghost use Rattle.tb_drive.specs.clauses.Plan.{HasAskedOf, HasEndedOf, HasQueuedOf};

use crate::control_driver::{ControlAction, ControlDriver};
use std::alloc::Global;
use std::sync::Wait;
use tb_work::Refusal;

/// What the control queues: pulses, and then its End or the Close.
#[derive(Drop)]
pub struct ControlPlan {
    /// The moments of its pulses, in nanoseconds, in their order. A pulse above 2^62 is refused.
    pub moments: Vec<u64>,
    /// Whether it ends by the Close, after all its pulses.
    pub shuts: bool,
}

impl ControlPlan {
    /// Returns the plan without a pulse and without the Close.
    pub fn none(alloc: Global) -> ControlPlan
        ensures moments { result.moments.items ≡ [] }
        ensures open { result.shuts ≡ false }
    {
        ControlPlan {
            moments: Vec::new(alloc),
            shuts: false,
        }
    }

    /// Returns the driver that lets the control queue all of this without waiting.
    pub fn driver(self) -> PlanDriver
        ensures moments { result.moments ≡ self.moments }
        ensures shuts { result.shuts ≡ self.shuts }
        ensures new { HasQueuedOf result result [] }
    {
        let ControlPlan { moments, shuts } = self;
        PlanDriver {
            moments,
            shuts,
            next: 0,
            refused: 0,
        }
    }
}

/// Lets the control queue what its plan says, and counts the pulses that are refused.
#[derive(Drop)]
pub struct PlanDriver {
    moments: Vec<u64>,
    shuts: bool,
    next: usize,
    /// How many of its pulses were refused so far.
    pub refused: u64,
}

impl ControlDriver for PlanDriver {
    ghost has_queued = { HasQueuedOf };

    ghost has_asked = { HasAskedOf };

    ghost has_ended = { HasEndedOf };

    fn next<R: Wait>(&mut self, _rt: &R) -> ControlAction {
        match self.moments.get(self.next) {
            Some(moment) => {
                self.next += 1;
                ControlAction::Pulse(*moment)
            }
            None if self.shuts => ControlAction::Close,
            None => ControlAction::End,
        }
    }

    fn pulsed(&mut self, response: Result<(), Refusal>) {
        if response.is_err() {
            self.refused = self.refused.saturating_add(1);
        }
    }
}
