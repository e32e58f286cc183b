//! A queue, once all its senders have ended.

ghost use Rattle.std.specs.Prelude.{◌≡◌, ◌≤◌, ◌<◌, ◌++◌, ℕ, map, length, slice_index_or, true, All};
ghost use Rattle.std.specs.List.{AllByRecursion, list_any};
ghost use Rattle.tb_rings.specs.clauses.Ends.{given};
ghost use Rattle.tb_rings.specs.declared.Outlet.{Outlet as OutletValue};
ghost use Rattle.tb_submit.specs.clauses.Ends.{EndedState, IntakeState, control_seat, end_origin, origins, queued_by, replies_of, seat_at};
ghost use Rattle.tb_submit.specs.clauses.State.{entry_of};
ghost use Rattle.tb_submit.specs.clauses.Lists.{AreAheadOfClose, AreWithin, IsCompleteQueue};
ghost use Rattle.tb_work.specs.claim.Ahead.{items_from};
ghost use Rattle.tb_work.specs.claim.Queue.{IsQueueOf, is_end};
ghost use Rattle.tb_work.specs.claim.Packet.{ReplyValue};

use crate::control::ControlEnd;
use crate::ended::Ended;
use crate::intake::Intake;
use crate::reader::Reader;
use tb_rings::Outlet;
use tb_work::Reply;

/// Passes to the reader what each of them queued; each sees what is in its ring.
fn settle_all(reader: &mut Reader, ends: Vec<Ended>, outlets: Vec<Outlet<Reply>>) -> Vec<Ended>
    requires { (intake : IntakeState) × (intake.queue ≡ reader.old.queue)
        × (map end_origin ends.items ≡ origins intake outlets.items) }
    ensures reader { reader.new ≡ record reader.old {
      entries = reader.old.entries ++ map entry_of ends.items;
      learned = reader.new.learned;
    } }
    ensures filed { (k : ℕ) (d : EndedState) → k < length ends.items
        → IsCompleteQueue (slice_index_or ends.items k d).origin.seat.limit
        (slice_index_or ends.items k d).origin.seat.submitters
        (slice_index_or ends.items k d).origin.seat.number (slice_index_or ends.items k d).queued }
    ensures long { length result.items ≡ length ends.items }
    ensures replies { (k : ℕ) (d : EndedState) (o : OutletValue ReplyValue) → k < length ends.items
        → (slice_index_or result.items k d).read ++ (slice_index_or result.items k d).lying
        ≡ given (slice_index_or outlets.items k o) }
    ensures read { (k : ℕ) (d : EndedState) → (slice_index_or result.items k d).read
        ≡ (slice_index_or ends.items k d).read }
    ensures rings { (k : ℕ) (d : EndedState) → (slice_index_or result.items k d).origin.ring
        ≡ (slice_index_or ends.items k d).origin.ring }
    ensures settled { (k : ℕ) (d : EndedState) → k < length ends.items
        → (slice_index_or result.items k d).settled ≡ true }
{
    let mut ends = ends;
    let mut outlets = outlets;
    for k in 0..ends.len() {
        ends[k].settle(reader, &mut outlets[k]);
    }
    ends
}

/// Establishes, once all senders have ended and the end of each was taken, that what was taken is the queue as they
/// filled it. The tickets that the control had learned of are ahead of the Close. Each submitter's end sees all replies
/// that it was given, and stays at its index. Takes no memory, and waits for nobody.
pub fn settle_queue(
    intake: Intake,
    ends: Vec<Ended>,
    control: ControlEnd,
    outlets: Vec<Outlet<Reply>>,
) -> Vec<Ended>
    requires ends { map end_origin ends.items ≡ origins intake outlets.items }
    requires number { length outlets.items ≡ intake.submitters }
    requires control { control.seat ≡ control_seat intake }
    requires finished { (sender : ℕ) → sender ≤ intake.submitters → list_any is_end (items_from sender intake.taken) ≡ true }
    ensures queue { IsQueueOf intake.submitters intake.taken (queued_by ends.items control) }
    ensures within { AreWithin intake.limit intake.taken }
    ensures ahead { AllByRecursion (AreAheadOfClose intake.taken) control.learned }
    ensures long { length result.items ≡ intake.submitters }
    ensures replies { (sender : ℕ) (d : OutletValue ReplyValue) → sender < intake.submitters
        → replies_of result.items sender ≡ given (slice_index_or outlets.items sender d) }
    ensures read { (k : ℕ) (d : EndedState) → (slice_index_or result.items k d).read
        ≡ (slice_index_or ends.items k d).read }
    ensures rings { (k : ℕ) (d : EndedState) → (slice_index_or result.items k d).origin.ring
        ≡ (slice_index_or ends.items k d).origin.ring }
    ensures settled { All (λ ended. ended.settled ≡ true) result.items }
    ensures seats { (k : ℕ) (d : EndedState) → k < length ends.items
        → (slice_index_or ends.items k d).origin.seat ≡ seat_at intake k }
{
    let mut reader = intake.reader;
    let mut last = control.sender;
    let ends = settle_all(&mut reader, ends, outlets);
    reader.gather(&mut last);
    reader.learn();
    ends
}
