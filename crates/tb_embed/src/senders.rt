//! Who may queue at an engine.

ghost use Rattle.std.specs.Prelude.{◌≡◌, ◌<◌, ◌≤◌, ◌+◌, ◌-◌, ◌^◌, false, None, IfErr, IfOk, OnOk, get_or, replicate, slice_set};
ghost use Rattle.tb_layout.specs.claim.Bounds.{batch_max, submitters_max};
ghost use Rattle.tb_work.specs.claim.Admission.{admission_of};
ghost use Rattle.tb_work.specs.claim.Job.{numbered_packet};
ghost use Rattle.tb_embed.specs.clauses.Engine.{IsRefusal, either, refusal_in, refusal_of_pulse, refusal_of_sender};

use std::alloc::Global;
use tb_layout::{MOMENT_MAX, SUBMITTERS_LENGTH};
use tb_work::{Job, Packet, Refusal};

/// What an engine knows of its senders: how many events a packet may have, how many submitters there are, which number the next packet of each
/// has, and whether the Close was queued.
#[derive(Drop)]
pub(crate) struct Senders {
    pub(crate) limit: u32,
    pub(crate) submitters: u32,
    pub(crate) shut: bool,
    pub(crate) numbers: [u64; SUBMITTERS_LENGTH],
}

impl Senders {
    /// Returns those of an engine in which nothing was queued.
    pub(crate) fn new(limit: u32, submitters: u32) -> Senders
        ensures { result ≡ record { limit = limit; submitters = submitters; shut = false; numbers = replicate submitters_max 0 } }
    {
        Senders {
            limit,
            submitters,
            shut: false,
            numbers: [0; SUBMITTERS_LENGTH],
        }
    }

    /// Returns the first refusal of a packet that doesn't depend on memory or on the packet; None if there is none.
    #[inline(always)]
    pub(crate) fn refusal(&self, stopped: bool, submitter: u32) -> Option<Refusal>
        requires { self.now.submitters ≤ submitters_max }
        ensures { result ≡ refusal_of_sender stopped self.now.submitters self.now.numbers submitter }
    {
        if submitter >= self.submitters {
            Some(Refusal::BadSubmitters)
        } else if stopped {
            Some(Refusal::Stopped)
        } else if self.numbers[submitter as usize] == u64::MAX {
            Some(Refusal::Full)
        } else {
            None
        }
    }

    /// Makes a job of a submitter's packet, with the submitter's next number. If the packet is refused, it comes back.
    #[inline(always)]
    pub(crate) fn job(
        &self,
        alloc: Global,
        stopped: bool,
        submitter: u32,
        packet: Packet,
    ) -> Result<Job, (Packet, Refusal)>
        requires few { self.now.limit ≤ batch_max }
        requires among { self.now.submitters ≤ submitters_max }
        ensures job { IfOk result (λ job. job ≡ numbered_packet submitter (get_or self.now.numbers submitter 0) packet) }
        ensures among { OnOk result (submitter < self.now.submitters) }
        ensures more { OnOk result (get_or self.now.numbers submitter 0 < 2 ^ 64 - 1) }
        ensures admitted { OnOk result (either (refusal_of_sender stopped self.now.submitters self.now.numbers submitter)
            (refusal_in (admission_of self.now.limit packet)) ≡ None) }
        ensures back { IfErr result (λ refused. refused.0 ≡ packet) }
        ensures refusal { IfErr result (λ refused. IsRefusal (either (refusal_of_sender stopped self.now.submitters self.now.numbers submitter)
            (refusal_in (admission_of self.now.limit packet))) refused.1) }
    {
        if let Some(refusal) = self.refusal(stopped, submitter) {
            return Err((packet, refusal));
        }
        let number = self.numbers[submitter as usize];
        Job::new(alloc, submitter, number, self.limit, packet)
    }

    /// Counts a packet of a submitter that is queued, and returns its number.
    #[inline(always)]
    pub(crate) fn count(&mut self, submitter: u32) -> u64
        requires among { submitter < submitters_max }
        requires more { get_or self.old.numbers submitter 0 < 2 ^ 64 - 1 }
        ensures number { result ≡ get_or self.old.numbers submitter 0 }
        ensures counted { self.new ≡ record self.old { numbers = slice_set self.old.numbers submitter (result + 1) } }
    {
        let number = self.numbers[submitter as usize];
        self.numbers[submitter as usize] = number + 1;
        number
    }

    /// Returns why a pulse of this moment is refused if memory is there; None if it isn't.
    pub(crate) fn refusal_of_pulse(&self, stopped: bool, nanoseconds: u64) -> Option<Refusal>
        ensures { result ≡ refusal_of_pulse stopped self.now.shut nanoseconds }
    {
        if nanoseconds > MOMENT_MAX {
            Some(Refusal::MomentTooLarge)
        } else if self.shut {
            Some(Refusal::Shutdown)
        } else if stopped {
            Some(Refusal::Stopped)
        } else {
            None
        }
    }
}
