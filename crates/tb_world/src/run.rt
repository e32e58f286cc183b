//! A list of events.

ghost use Rattle.std.specs.Prelude.{◌≡◌, ◌≤◌, ◌⊎◌, ◌++◌, ℕ, List, true, is_some, IfOk, OnOk, OnErr};
ghost use Rattle.tb_layout.specs.claim.Bounds.{batch_max, submitters_max};
ghost use Rattle.tb_layout.specs.claim.Limits.{clock_max};
ghost use Rattle.tb_core.specs.claim.Journal.{LedgerState};
ghost use Rattle.tb_core.specs.claim.Ledger.{new_ledger};
ghost use Rattle.tb_world.specs.declared.event.Event.{Event as EventValue};
ghost use Rattle.tb_world.specs.clauses.EveryOrder.{HasPlaces, HasRun, history};
ghost use Rattle.tb_world.specs.clauses.Progress.{HasFinished, HasRested, MayRunOut, RunsOut};
ghost use Rattle.tb_world.specs.clauses.World.{FailsAt, TakeMemory, after_event, moved, new_world, run, takes_memory};

use crate::event::Event;
use crate::world::World;
use std::alloc::Global;
use tb_layout::NoMemory;

/// Takes one event more.
fn go_on(world: &mut World, event: Event) -> Result<(), NoMemory>
    ensures ok { OnOk result (world.new ≡ after_event world.old event) }
    ensures memory { OnErr result ((is_some (moved world.old event) ≡ true) × (takes_memory world.old event ≡ true)
        × (world.new ≡ world.old)) }
{
    match world.step(event) {
        Ok(_) => Ok(()),
        Err(_) => Err(NoMemory),
    }
}

impl World {
    /// Takes events in order; one that returns false is passed over. Only its steps take memory.
    ///
    /// # Errors
    ///
    /// `NoMemory` if an allocation fails in a step. The World is then as the events before it left it.
    pub fn go_through(&mut self, events: Vec<Event>) -> Result<(), NoMemory>
        ensures ok { OnOk result (self.new ≡ run self.old events.items) }
        ensures ran { OnOk result ((start : LedgerState) (limit : ℕ) (submitters : ℕ) (before : List EventValue)
            → HasRun start limit submitters before self.old
            → HasRun start limit submitters (before ++ events.items) self.new) }
        ensures memory { OnErr result (FailsAt self.old events.items self.new) }
    {
        for event in events {
            go_on(self, event)?;
        }
        Ok(())
    }

    /// Takes steps, none of them a push, until none moves. These are at most seven for each ticket that was pushed, and
    /// each submitter has then received exactly what is due to it. It always returns.
    ///
    /// # Errors
    ///
    /// `NoMemory` if an allocation fails in a step. The World is then as the steps before it left it.
    pub fn finish(&mut self) -> Result<(), NoMemory>
        ensures ok { OnOk result (HasFinished self.old self.new) }
        ensures rested { OnOk result ((start : LedgerState) (limit : ℕ) (submitters : ℕ) (events : List EventValue)
            → HasRun start limit submitters events self.old
            → HasRested start limit submitters events self.new) }
        ensures memory { OnErr result (RunsOut self.old self.new) }
    {
        while let Some(event) = self.next_event() {
            go_on(self, event)?;
        }
        Ok(())
    }
}

/// Returns a World, from a clock in nanoseconds, 0 to `CLOCK_MAX`, on, after events in order; one that returns false is
/// passed over. The limit is 1 to 8190 events, and there are 1 to 16 submitters. Only its steps take memory.
///
/// # Errors
///
/// `NoMemory` if an allocation fails in a step.
pub fn run_world(
    alloc: Global,
    clock: u64,
    limit: u32,
    submitters: u32,
    events: Vec<Event>,
) -> Result<World, NoMemory>
    requires clock { clock ≤ clock_max }
    requires limit { (1 ≤ limit) × (limit ≤ batch_max) }
    requires submitters { (1 ≤ submitters) × (submitters ≤ submitters_max) }
    ensures ran { IfOk result (λ world. HasRun (new_ledger clock) limit submitters events.items world) }
    ensures places { HasPlaces (new_ledger clock) (history (new_world clock limit submitters) events.items) }
    ensures memory { OnErr result (TakeMemory (new_world clock limit submitters) events.items) }
{
    let Ok(mut world) = World::new(alloc, clock, limit, submitters) else {
        unreachable!();
    };
    world.go_through(events)?;
    Ok(world)
}

/// Returns a World after events in order, and after the steps that bring it to rest, whatever the events were. None of these
/// steps is a push, and they are at most seven for each ticket that was pushed. So each submitter has received exactly what is due
/// to it. The ranges are those of `run_world`. It always returns.
///
/// # Errors
///
/// `NoMemory` if an allocation fails in a step.
pub fn run_to_rest(
    alloc: Global,
    clock: u64,
    limit: u32,
    submitters: u32,
    events: Vec<Event>,
) -> Result<World, NoMemory>
    requires clock { clock ≤ clock_max }
    requires limit { (1 ≤ limit) × (limit ≤ batch_max) }
    requires submitters { (1 ≤ submitters) × (submitters ≤ submitters_max) }
    ensures rested { IfOk result (λ world. HasRested (new_ledger clock) limit submitters events.items world) }
    ensures places { HasPlaces (new_ledger clock) (history (new_world clock limit submitters) events.items) }
    ensures memory { OnErr result (TakeMemory (new_world clock limit submitters) events.items
        ⊎ MayRunOut (run (new_world clock limit submitters) events.items)) }
{
    let mut world = run_world(alloc, clock, limit, submitters, events)?;
    world.finish()?;
    Ok(world)
}
