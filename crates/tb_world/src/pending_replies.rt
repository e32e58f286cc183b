//! What the demultiplexer has left to push.

ghost use Rattle.std.specs.Prelude.{◌≡◌, [], false, IfOk, OnErr};
ghost use Rattle.tb_core.specs.claim.Run.{replies_in};
ghost use Rattle.tb_world.specs.inside.PendingReplies.{IsGiven, is_none};

use crate::mailbox::Mailboxes;
use std::marker::Model;
use std::mem;
use tb_core::Outcomes;
use tb_demux::Cutter;
use tb_layout::NoMemory;
use tb_work::Reply;

/// The next reply, and the cutter that has those after it.
#[derive(Drop)]
pub(crate) struct PendingReplies {
    next: Option<Reply>,
    cutter: Option<Cutter>,
}

impl Model for PendingReplies {
    ghost use Rattle.std.specs.Prelude.{◌≡◌, List, [], ◌++◌, option_to_list, None};
    ghost use Rattle.tb_work.specs.claim.Packet.{ReplyValue};
    ghost use Rattle.tb_world.specs.inside.PendingReplies.{replies_of};

    ghost Value = { List ReplyValue };

    ghost view = { λ pending. option_to_list pending.next ++ replies_of pending.cutter };

    ghost invariant = { λ pending. pending.next ≡ None → replies_of pending.cutter ≡ [] };
}

impl PendingReplies {
    /// Returns the state in which no reply is left.
    pub(crate) fn nothing() -> PendingReplies
        ensures { result ≡ [] }
    {
        PendingReplies {
            next: None,
            cutter: None,
        }
    }

    /// Puts the replies of an outcome in place of what was left.
    pub(crate) fn fill(&mut self, outcomes: Outcomes)
        ensures { self.new ≡ replies_in outcomes }
    {
        // A drop by name is proved once, and one by assignment at each place.
        drop(mem::replace(self, PendingReplies::of(outcomes)));
    }

    fn of(outcomes: Outcomes) -> PendingReplies
        ensures { result ≡ replies_in outcomes }
    {
        match outcomes {
            Outcomes::Cut(mut cutter) => {
                let next = cutter.next();
                PendingReplies {
                    next,
                    cutter: Some(cutter),
                }
            }
            Outcomes::One(reply) => PendingReplies {
                next: Some(reply),
                cutter: None,
            },
            Outcomes::Nothing | Outcomes::Last => PendingReplies::nothing(),
        }
    }

    /// Returns whether no reply is left.
    pub(crate) fn is_empty(&self) -> bool
        ensures { result ≡ is_none self.now }
    {
        self.next.is_none()
    }

    /// Gives the next reply, if there is one, to its submitter.
    pub(crate) fn give(&mut self, mailboxes: &mut Mailboxes) -> Result<bool, NoMemory>
        ensures ok { IfOk result (λ moves. IsGiven moves self.old self.new mailboxes.old mailboxes.new) }
        ensures err { OnErr result ((is_none self.old ≡ false) × (self.new ≡ self.old) × (mailboxes.new ≡ mailboxes.old)) }
    {
        let Some(reply) = self.next.take() else {
            return Ok(false);
        };
        match mailboxes.give(reply) {
            Ok(()) => {
                let next = match &mut self.cutter {
                    Some(cutter) => cutter.next(),
                    None => None,
                };
                drop(mem::replace(&mut self.next, next));
                Ok(true)
            }
            Err(reply) => {
                drop(mem::replace(&mut self.next, Some(reply)));
                Err(NoMemory)
            }
        }
    }
}
