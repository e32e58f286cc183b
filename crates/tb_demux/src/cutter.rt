//! The cutter.

ghost use Rattle.std.specs.Prelude.{◌≡◌, ◌∷◌, [], IfSome, IfNone};
ghost use Rattle.tb_demux.specs.clauses.Cutting.{cut_replies, IsOutcomeOfAll};

use crate::remaining_failures::RemainingFailures;
use crate::source::ReplySource;
use std::marker::Model;
use std::mem;
use std::vec::IntoIter;
use tb_work::{Answer, Job, Outcome, Reply};

/// The packets of one batch with its outcome, seen as the replies still to come.
pub struct Cutter {
    jobs: IntoIter<Job>,
    source: ReplySource,
}

impl Drop for Cutter {
    /// Frees everything held in one call, so that no owner's proof repeats it.
    fn drop(self) {
        let Cutter { jobs, source } = self;
        drop(jobs);
        drop(source);
    }
}

impl Model for Cutter {
    ghost use Rattle.std.specs.Prelude.{List};
    ghost use Rattle.std.specs.Vec.Iter.{into_iter_items};
    ghost use Rattle.tb_work.specs.claim.Packet.{ReplyValue};
    ghost use Rattle.tb_demux.specs.clauses.Remaining.{replies_remaining, IsSourceOf};

    ghost Value = { List ReplyValue };

    ghost view = { λ cutter. replies_remaining cutter.source (into_iter_items cutter.jobs) };

    ghost invariant = { λ cutter. IsSourceOf cutter.source (into_iter_items cutter.jobs) };
}

impl Cutter {
    /// Returns the replies to a batch's packets: `outcome` is that of the whole batch, its place that of the first
    /// packet, its failures by their index in the batch (Demuxer of TigerBeetle's state machine). Takes no memory.
    pub fn new(jobs: Vec<Job>, outcome: Outcome) -> Cutter
        requires { IsOutcomeOfAll outcome jobs.items }
        ensures { result ≡ cut_replies outcome jobs.items }
    {
        let source = match outcome {
            Outcome::Committed { place, answer } => match answer {
                Answer::Failures(failures) => ReplySource::Failures(RemainingFailures {
                    place,
                    offset: 0,
                    taken: 0,
                    failures,
                }),
                Answer::Accounts(accounts) => ReplySource::Lookup(Outcome::Committed {
                    place,
                    answer: Answer::Accounts(accounts),
                }),
            },
            Outcome::Shutdown => ReplySource::Shutdown,
            Outcome::Stopped => ReplySource::Stopped,
        };
        Cutter {
            jobs: jobs.into_iter(),
            source,
        }
    }

    /// Returns the next packet's reply; None when all are given, and from then on. Takes no memory; the cost is that of
    /// the packet's failures.
    pub fn next(&mut self) -> Option<Reply>
        ensures some { IfSome result (λ reply. self.old ≡ reply ∷ self.new) }
        ensures none { IfNone result ((self.old ≡ []) × (self.new ≡ [])) }
    {
        let job = self.jobs.next()?;
        Some(match &mut self.source {
            ReplySource::Failures(remaining_failures) => remaining_failures.reply(job),
            ReplySource::Lookup(outcome) => Reply::of(
                job,
                mem::replace(outcome, Outcome::Shutdown),
            ),
            ReplySource::Shutdown => Reply::of(job, Outcome::Shutdown),
            ReplySource::Stopped => Reply::of(job, Outcome::Stopped),
        })
    }
}
