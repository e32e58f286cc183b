//! Replies.

ghost use Rattle.std.specs.Prelude.{◌≡◌, ◌+◌, ◌≤◌, [], false, map};
ghost use Rattle.tb_layout.specs.claim.Failures.{RiseWithin, from_offset};
ghost use Rattle.tb_work.specs.claim.Admission.{count_of};
ghost use Rattle.tb_work.specs.claim.Answer.{IsOutcomeOf};
ghost use Rattle.tb_work.specs.claim.Job.{is_lookup};
ghost use Rattle.tb_layout.specs.declared.answer.Answer.TheVariants.{Failures as FailuresOf};
ghost use Rattle.tb_work.specs.declared.outcome.Outcome.TheVariants.{Committed as CommittedAt};

use crate::job::{Job, JobParts};
use crate::outcome::Outcome;
use crate::packet::Packet;
use crate::stub::Stub;
use std::marker::Model;
use tb_layout::{Answer, Failure, FailureRoom, Failures};

/// A packet as it was handed in, with its outcome.
#[derive(Debug, Drop)]
pub struct Reply {
    pub submitter: u32,
    pub number: u64,
    pub packet: Packet,
    pub outcome: Outcome,
}

impl Model for Reply {
    ghost use Rattle.tb_work.specs.claim.Packet.{ReplyValue};
    ghost use Rattle.tb_work.specs.claim.Answer.{IsOutcomeOf};

    ghost Value = { ReplyValue };

    ghost view = { λ reply. record {
      packet = record { submitter = reply.submitter; number = reply.number; packet = reply.packet };
      outcome = reply.outcome;
    } };

    ghost invariant = { λ reply. IsOutcomeOf reply.packet reply.outcome };
}

/// Puts failures after those that are there, with indices counted from an offset.
fn rebase_into(room: &mut FailureRoom, failures: &[Failure], offset: u32, count: u32)
    requires empty { room.old.items ≡ [] }
    requires rise { RiseWithin offset (offset + count) failures.now }
    requires fits { count ≤ room.old.capacity }
    ensures { room.new.items ≡ map (from_offset offset) failures.now }
{
    for failure in failures {
        let Failure { index, code } = *failure;
        room.push(Failure {
            index: index - offset,
            code,
        });
    }
}

impl Reply {
    ghost use Rattle.tb_work.specs.claim.Answer.{reply_with};

    /// Returns the reply to a job's packet, with this outcome. Takes no memory; the job's room is freed.
    pub fn of(job: Job, outcome: Outcome) -> Reply
        requires { IsOutcomeOf job.packet outcome }
        ensures { result ≡ reply_with outcome job }
    {
        let stub = job.stub();
        Reply {
            submitter: stub.submitter,
            number: stub.number,
            packet: job.into_packet(),
            outcome,
        }
    }

    /// Returns the reply to a packet that was committed at a place, with its failures out of a batch's, whose indices
    /// are counted from the packet's offset there. The failures go into the job's own room, so that no memory is taken
    /// (Demuxer of TigerBeetle's state machine).
    pub fn committed(job: Job, place: u64, failures: &[Failure], offset: u32) -> Reply
        requires no_lookup { is_lookup job.packet ≡ false }
        requires rise { RiseWithin offset (offset + count_of job.packet) failures.now }
        ensures { result ≡ reply_with (CommittedAt place (FailuresOf (map (from_offset offset) failures.now))) job }
    {
        let Stub {
            submitter,
            number,
            count,
        } = job.stub();
        let JobParts { packet, mut room } = job.into_parts();
        rebase_into(&mut room, failures, offset, count);
        Reply {
            submitter,
            number,
            packet,
            outcome: Outcome::Committed {
                place,
                answer: Answer::Failures(Failures::from_room(room)),
            },
        }
    }
}
