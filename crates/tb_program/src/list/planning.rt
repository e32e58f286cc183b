//! The plan of a script's items.

ghost use Rattle.std.specs.Prelude.{◌≡◌, ◌≤◌, [], ◌∷◌, OnOk, IfOk};
ghost use Rattle.tb_layout.specs.claim.Bounds.{batch_max};
ghost use Rattle.tb_program.specs.clauses.Plan.{with_planned, with_packet, with_pulse, with_item, plan_of};
ghost use Rattle.tb_program.specs.declared.list.listing.Line.TheVariants.{Shut as ShutLine};
ghost use Rattle.tb_work.specs.claim.Admission.{admission_of};
ghost use Rattle.tb_work.specs.declared.item.Item.TheVariants.{Close as CloseItem};

use crate::list::listing::Line;
use std::alloc::Global;
use std::marker::Model;
use tb_layout::{MOMENT_MAX, NoMemory, SUBMITTERS_LENGTH};
use tb_program_text::{ScriptItem, SubmitterNumber};
use tb_work::{Item, Job, Moment, Packet, Refusal};

/// What the items so far queue, and what is printed of them.
#[derive(Drop)]
struct Plan {
    queue: Vec<Item>,
    lines: Vec<Line>,
    numbers: [u64; SUBMITTERS_LENGTH],
    closed: bool,
}

impl Model for Plan {
    ghost use Rattle.std.specs.Prelude.{◌≡◌, ◌<◌, ℕ, get_or, length, if◌then◌else◌};
    ghost use Rattle.tb_core.specs.claim.Decision.{place_after};
    ghost use Rattle.tb_core.specs.claim.Due.{Ahead, Behind};
    ghost use Rattle.tb_layout.specs.claim.Bounds.{submitters_max};
    ghost use Rattle.tb_program.specs.clauses.Plan.{PlanState, number_in};

    ghost Value = { PlanState };

    ghost view = { λ plan. record { queue = plan.queue.items; lines = plan.lines.items } };

    ghost invariant = { λ plan. ((submitter : ℕ) → submitter < submitters_max
        → get_or plan.numbers submitter 0 ≡ number_in submitter plan.queue.items)
        × (place_after (Ahead 0) plan.queue.items ≡ (if plan.closed then Behind else Ahead (length plan.queue.items))) };
}

impl Plan {
    /// Returns a plan of nothing, with capacity for this number of items.
    fn with_capacity(alloc: Global, items: usize) -> Result<Plan, NoMemory>
        ensures { IfOk result (λ plan. plan ≡ record { queue = []; lines = [] }) }
    {
        Ok(Plan {
            queue: Vec::with_capacity(alloc, items)?,
            lines: Vec::with_capacity(alloc, items)?,
            numbers: [0; SUBMITTERS_LENGTH],
            closed: false,
        })
    }

    /// Plans a packet after the items so far, with its submitter's next number.
    #[tactic(auto, using(crate::proofs::Planning::queued))]
    fn add_packet(
        &mut self,
        alloc: Global,
        limit: u32,
        submitter: SubmitterNumber,
        packet: Packet,
    ) -> Result<(), NoMemory>
        requires { limit ≤ batch_max }
        ensures { OnOk result (self.new ≡ with_packet self.old submitter packet (admission_of limit packet)) }
    {
        let number = self.numbers[submitter.get() as usize];
        match Job::new(alloc, submitter.get(), number, limit, packet) {
            Ok(job) => {
                self.lines.push(Line::Packet)?;
                self.queue.push(Item::Packet(job))?;
                self.numbers[submitter.get() as usize] += 1;
            }
            Err((_packet, Refusal::NoMemory)) => return Err(NoMemory),
            Err((_packet, refusal)) => self.lines.push(Line::RefusedPacket(submitter, refusal))?,
        }
        Ok(())
    }

    /// Plans a pulse after the items so far.
    fn add_pulse(&mut self, moment: u64) -> Result<(), NoMemory>
        ensures { OnOk result (self.new ≡ with_pulse self.old moment) }
    {
        if moment > MOMENT_MAX {
            self.lines.push(Line::RefusedPulse)?;
            return Ok(());
        }
        if !self.closed {
            self.lines.push(Line::Pulse(self.queue.len() as u64))?;
        }
        self.queue.push(Item::Pulse(Moment::new(moment)))?;
        Ok(())
    }

    /// Plans the Close after the items so far.
    fn add_close(&mut self) -> Result<(), NoMemory>
        ensures { OnOk result (self.new ≡ with_planned self.old (CloseItem ∷ []) (ShutLine ∷ [])) }
    {
        self.lines.push(Line::Shut)?;
        self.queue.push(Item::Close)?;
        self.closed = true;
        Ok(())
    }

    /// Plans an item after those so far.
    fn add(&mut self, alloc: Global, limit: u32, item: ScriptItem) -> Result<(), NoMemory>
        requires { limit ≤ batch_max }
        ensures { OnOk result (self.new ≡ with_item limit self.old item) }
    {
        match item {
            ScriptItem::Packet(submitter, packet) => {
                self.add_packet(alloc, limit, submitter, packet)
            }
            ScriptItem::Pulse(moment) => self.add_pulse(moment),
            ScriptItem::Shut => self.add_close(),
        }
    }
}

/// Returns what a script's items queue, and what is printed of them. A packet is moved into its job, with room for its
/// failures; none of its bytes is copied. The items are taken out of the list, which keeps its own memory.
pub(crate) fn plan_all(
    alloc: Global,
    limit: u32,
    items: &mut Vec<ScriptItem>,
) -> Result<(Vec<Item>, Vec<Line>), NoMemory>
    requires { limit ≤ batch_max }
    ensures { IfOk result (λ plan. record { queue = plan.0.items; lines = plan.1.items } ≡ plan_of limit items.old.items) }
{
    let mut plan = Plan::with_capacity(alloc, items.len())?;
    for item in items.drain(..) {
        plan.add(alloc, limit, item)?;
    }
    let Plan { queue, lines, .. } = plan;
    Ok((queue, lines))
}
