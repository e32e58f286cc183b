//! The failures of a batch that aren't cut yet.

ghost use Rattle.std.specs.Prelude.{◌≡◌, ◌⊎◌, ◌<◌, ◌≤◌, ◌+◌, ℕ, [], false, length, drop};
ghost use Rattle.tb_layout.specs.claim.Bounds.{places_max};
ghost use Rattle.tb_layout.specs.claim.Failures.{RiseWithin, failures_within};
ghost use Rattle.tb_work.specs.claim.Admission.{count_of};
ghost use Rattle.tb_work.specs.claim.Job.{is_lookup};
ghost use Rattle.tb_work.specs.claim.Answer.{reply_with};
ghost use Rattle.tb_layout.specs.declared.answer.Answer.TheVariants.{Failures as FailuresOf};
ghost use Rattle.tb_work.specs.declared.outcome.Outcome.TheVariants.{Committed as CommittedAt};
ghost use Rattle.tb_demux.specs.inside.Leading.{count_below};
ghost use Rattle.tb_demux.specs.clauses.Remaining.{failures_remaining};

use tb_layout::{Failure, Failures};
use tb_work::{Job, Reply};

/// A batch's failures, the first of them taken: the next packet has this place, and its events begin at this offset.
#[derive(Drop)]
pub(crate) struct RemainingFailures {
    pub(crate) place: u64,
    pub(crate) offset: u32,
    pub(crate) taken: usize,
    pub(crate) failures: Failures,
}

/// Returns the number of failures before the first one whose index isn't below `end`.
fn count_below(failures: &[Failure], end: u64) -> usize
    ensures value { result ≡ count_below end failures.now }
    ensures within { result ≤ length failures.now }
{
    for (place, failure) in failures.iter().enumerate() {
        if u64::from(failure.index) >= end {
            return place;
        }
    }
    failures.len()
}

/// Returns an offset that isn't above an index.
fn offset_up_to(index: u32, end: u64) -> u32
    requires { end ≤ index }
    ensures { result ≡ end }
{
    end as u32
}

/// Returns the offset after a packet's events. If no failure remains it doesn't matter, and may be too large for 32
/// bits.
fn offset_after(failures_remaining: &[Failure], offset: u32, end: u64) -> u32
    requires { (high : ℕ) × RiseWithin end high failures_remaining.now }
    ensures { (result ≡ end) ⊎ (failures_remaining.now ≡ []) }
{
    match failures_remaining.first() {
        Some(next) => offset_up_to(next.index, end),
        None => offset,
    }
}

impl RemainingFailures {
    /// Returns the reply to the next packet.
    pub(crate) fn reply(&mut self, job: Job) -> Reply
        requires place { self.old.place < places_max }
        requires taken { self.old.taken ≤ length self.old.failures }
        requires rise { (high : ℕ) × RiseWithin self.old.offset high (failures_remaining self.old) }
        requires no_lookup { is_lookup job.packet ≡ false }
        ensures reply { result ≡ reply_with (CommittedAt self.old.place
            (FailuresOf (failures_within self.old.offset (count_of job.packet) (failures_remaining self.old)))) job }
        ensures left { failures_remaining self.new ≡ drop (count_below (self.old.offset + count_of job.packet)
            (failures_remaining self.old)) (failures_remaining self.old) }
        ensures taken { self.new.taken ≤ length self.new.failures }
        ensures offset { (self.new.offset ≡ self.old.offset + count_of job.packet) ⊎ (failures_remaining self.new ≡ []) }
        ensures place { self.new.place ≡ self.old.place + 1 }
    {
        let end = u64::from(self.offset) + u64::from(job.stub().count);
        let (_, remaining_failures) = self.failures.as_slice().split_at(self.taken);
        let (own, remainder) = remaining_failures.split_at(count_below(remaining_failures, end));
        let reply = Reply::committed(job, self.place, own, self.offset);
        self.offset = offset_after(remainder, self.offset, end);
        self.taken += own.len();
        self.place += 1;
        reply
    }
}
