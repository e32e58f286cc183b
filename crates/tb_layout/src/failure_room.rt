//! Capacity for the failures of a packet.

ghost use Rattle.std.specs.Prelude.{◌≡◌, ◌<◌, ◌≤◌, ◌∷◌, ◌++◌, [], length, vec_capacity, IfOk, IsOk};

use crate::failure::Failure;
use std::alloc::{AllocError, Global};
use std::marker::Model;

/// Up to two failures, and how many there are.
#[derive(Drop)]
struct Few {
    failures: [Failure; 2],
    count: usize,
}

#[derive(Drop)]
enum Slots {
    Inline(Few),
    Allocated(Vec<Failure>),
}

/// Failures, with capacity for more. That for up to two failures, as a small packet has, is in the value itself and needs
/// no allocation.
pub struct FailureRoom {
    slots: Slots,
}

impl Drop for FailureRoom {
    /// Frees everything held in one call, so that no owner's proof repeats it.
    fn drop(self) {
        let FailureRoom { slots } = self;
        drop(slots);
    }
}

impl Model for FailureRoom {
    ghost use Rattle.tb_layout.specs.claim.FailureRoom.{FailureRoomState, IsSlots, room_of};

    ghost Value = { FailureRoomState };

    ghost view = { λ room. room_of room.slots };

    ghost invariant = { λ room. IsSlots room.slots };
}

impl FailureRoom {
    /// Returns room for two failures. Allocates nothing.
    pub fn new() -> FailureRoom
        ensures items { result.items ≡ [] }
        ensures capacity { result.capacity ≡ 2 }
    {
        FailureRoom {
            slots: Slots::Inline(Few {
                failures: [Failure::default(); 2],
                count: 0,
            }),
        }
    }

    /// Returns room for at least `capacity` failures. Allocates if these are more than two.
    pub fn with_capacity(alloc: Global, capacity: usize) -> Result<FailureRoom, AllocError>
        ensures items { IfOk result (λ room. room.items ≡ []) }
        ensures capacity { IfOk result (λ room. capacity ≤ room.capacity) }
        ensures few { capacity ≤ 2 → IsOk result }
    {
        if capacity <= 2 {
            return Ok(FailureRoom::new());
        }
        Ok(FailureRoom::from_vec(Vec::with_capacity(alloc, capacity)?))
    }

    /// Returns these failures, which are not copied.
    pub fn from_vec(failures: Vec<Failure>) -> FailureRoom
        ensures items { result.items ≡ failures.items }
        ensures capacity { result.capacity ≡ vec_capacity failures }
    {
        FailureRoom {
            slots: Slots::Allocated(failures),
        }
    }

    /// Appends a failure, for which there is capacity.
    pub fn push(&mut self, failure: Failure)
        requires { length self.old.items < self.old.capacity }
        ensures items { self.new.items ≡ self.old.items ++ failure ∷ [] }
        ensures capacity { self.new.capacity ≡ self.old.capacity }
    {
        match &mut self.slots {
            Slots::Inline(few) => {
                few.failures[few.count] = failure;
                few.count += 1;
            }
            Slots::Allocated(failures) => failures.push_reserved(failure),
        }
    }

    /// Returns all failures.
    pub fn as_slice(&self) -> &[Failure]
        ensures { result.now ≡ self.now.items }
    {
        match &self.slots {
            Slots::Inline(few) => &few.failures[..few.count],
            Slots::Allocated(failures) => failures.as_slice(),
        }
    }
}
