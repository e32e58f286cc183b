//! Opening a queue.

ghost use Rattle.std.specs.Prelude.{◌≡◌, ◌<◌, ◌≤◌, [], map, length, Some, None, All, OnOk, IfOk, IfErr};
ghost use Rattle.tb_layout.specs.claim.Bounds.{batch_max, capacity_max, submitters_max};
ghost use Rattle.tb_rings.specs.clauses.Ends.{given, slots};
ghost use Rattle.tb_submit.specs.clauses.Ends.{new_submitter, new_control, new_intake, origins, origin_of};
ghost use Rattle.tb_submit.specs.clauses.Refusals.{IsQueueRefusal, queue_refusal};

use crate::control::Control;
use crate::intake::Intake;
use crate::reader::Reader;
use crate::submitter::Submitter;
use std::alloc::Global;
use tb_layout::{BATCH_MAX, CAPACITY_MAX, NoMemory, SUBMITTERS_MAX};
use tb_rings::{Outlet, ring};
use tb_work::{Refusal, Reply};

/// All ends of a queue. The submitter of number i is that at index i, and the outlet at index i gives it
/// its replies.
#[derive(Drop)]
pub struct Ends {
    pub submitters: Vec<Submitter>,
    pub control: Control,
    pub intake: Intake,
    pub outlets: Vec<Outlet<Reply>>,
}

/// The submitters of a queue, each with the ring of its replies.
#[derive(Drop)]
struct SubmitterEnds {
    submitters: Vec<Submitter>,
    outlets: Vec<Outlet<Reply>>,
}

/// Returns the submitters of a queue.
fn open_submitters(
    alloc: Global,
    reader: &mut Reader,
    limit: u32,
    credit: u32,
    submitters: u32,
) -> Result<SubmitterEnds, NoMemory>
    requires range { (limit ≤ batch_max) × (credit ≤ capacity_max) }
    requires fresh { (reader.old.entries ≡ []) × (reader.old.taken ≡ []) × (reader.old.count ≡ 0) }
    ensures reader { OnOk result (reader.new ≡ record reader.old { count = submitters }) }
    ensures ends { IfOk result (λ ends. (ends.submitters.items
        ≡ map (new_submitter credit) (origins (new_intake reader.old.queue submitters limit
        reader.old.capacity) ends.outlets.items))
        × ((length ends.outlets.items ≡ submitters) × All (λ outlet. given outlet ≡ []) ends.outlets.items)
        × All (λ outlet. slots outlet ≡ credit) ends.outlets.items) }
{
    let mut opened = Vec::new(alloc);
    let mut outlets = Vec::new(alloc);
    for number in 0..submitters {
        let sender = reader.sender(number, submitters, limit)?;
        let (outlet, inlet) = ring(alloc, credit as usize)?;
        outlets.push(outlet)?;
        opened.push(Submitter::new(sender, inlet, credit))?;
    }
    Ok(SubmitterEnds {
        submitters: opened,
        outlets,
    })
}

/// Returns all ends of a queue whose bounds were checked.
fn open_ends(
    alloc: Global,
    limit: u32,
    capacity: u32,
    credit: u32,
    submitters: u32,
) -> Result<Ends, NoMemory>
    requires range { (limit ≤ batch_max) × (0 < capacity) × (credit ≤ capacity_max) × (submitters ≤ submitters_max) }
    ensures submitters { IfOk result (λ ends. ends.submitters.items
        ≡ map (new_submitter credit) (origins ends.intake ends.outlets.items)) }
    ensures own { IfOk result (λ ends. map origin_of ends.submitters.items ≡ origins ends.intake ends.outlets.items) }
    ensures control { IfOk result (λ ends. ends.control ≡ new_control ends.intake) }
    ensures intake { IfOk result (λ ends. ends.intake ≡ new_intake ends.intake.queue submitters limit capacity) }
    ensures outlets { IfOk result (λ ends. (length ends.outlets.items ≡ submitters)
        × All (λ outlet. given outlet ≡ []) ends.outlets.items) }
    ensures slots { IfOk result (λ ends. All (λ outlet. slots outlet ≡ credit) ends.outlets.items) }
{
    let mut reader = Reader::new(alloc, capacity as usize)?;
    let opened = open_submitters(alloc, &mut reader, limit, credit, submitters)?;
    let control = Control::new(reader.sender(submitters, submitters, limit)?);
    Ok(Ends {
        submitters: opened.submitters,
        control,
        intake: Intake::new(reader, submitters, limit),
        outlets: opened.outlets,
    })
}

/// Checks the limit, then the capacity and the credit, then the number of submitters.
fn check_bounds(limit: u32, capacity: u32, credit: u32, submitters: u32) -> Result<(), Refusal>
    ensures opens { OnOk result (queue_refusal limit capacity credit submitters ≡ None) }
    ensures refusal { IfErr result (λ refusal. queue_refusal limit capacity credit submitters ≡ Some refusal) }
{
    if limit < 1 || limit > BATCH_MAX {
        return Err(Refusal::BadLimit);
    }
    if capacity < 1 || capacity > CAPACITY_MAX || credit < 1 || credit > CAPACITY_MAX {
        return Err(Refusal::BadCapacity);
    }
    if submitters < 1 || submitters > SUBMITTERS_MAX {
        return Err(Refusal::BadSubmitters);
    }
    Ok(())
}

/// Returns a queue of `capacity` slots with all its ends, for submitters with this credit. It is refused for its limit
/// (1 to 8190), then its capacity or credit (1 to 65,536), then the number of submitters (1 to 16), then memory. All
/// memory but that of packets is taken here: the queue's slots and a ring of `credit` slots for each submitter.
pub fn open_queue(
    alloc: Global,
    limit: u32,
    capacity: u32,
    credit: u32,
    submitters: u32,
) -> Result<Ends, Refusal>
    ensures submitters { IfOk result (λ ends. ends.submitters.items
        ≡ map (new_submitter credit) (origins ends.intake ends.outlets.items)) }
    ensures own { IfOk result (λ ends. map origin_of ends.submitters.items ≡ origins ends.intake ends.outlets.items) }
    ensures control { IfOk result (λ ends. ends.control ≡ new_control ends.intake) }
    ensures intake { IfOk result (λ ends. ends.intake ≡ new_intake ends.intake.queue submitters limit capacity) }
    ensures outlets { IfOk result (λ ends. (length ends.outlets.items ≡ submitters)
        × All (λ outlet. given outlet ≡ []) ends.outlets.items) }
    ensures slots { IfOk result (λ ends. All (λ outlet. slots outlet ≡ credit) ends.outlets.items) }
    ensures opens { OnOk result (queue_refusal limit capacity credit submitters ≡ None) }
    ensures refusal { IfErr result (IsQueueRefusal limit capacity credit submitters) }
{
    check_bounds(limit, capacity, credit, submitters)?;
    open_ends(alloc, limit, capacity, credit, submitters).map_err(|_| Refusal::NoMemory)
}
