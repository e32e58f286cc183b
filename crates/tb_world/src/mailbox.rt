//! The submitters' reply rings, and what was taken from them.

ghost use Rattle.std.specs.Prelude.{◌≡◌, ◌≤◌, replicate, slice_set, is_some, true, unwrap_or, sum_by, IfOk, OnOk, IfErr, OnErr, IfSome, IfNone};
ghost use Rattle.tb_layout.specs.claim.Bounds.{submitters_max};
ghost use Rattle.tb_world.specs.clauses.Mailbox.{mailbox_at, mailboxes_with, with_reply, empty_mailbox, after_pop};
ghost use Rattle.tb_world.specs.clauses.Progress.{unread};

use arrayvec::ArrayVec;
use std::alloc::{AllocError, Global};
use std::collections::VecDeque;
use std::default::MadeWith;
use std::marker::Model;
use tb_layout::NoMemory;
use tb_work::Reply;

/// A submitter's reply ring, and the replies that it received.
#[derive(Drop)]
pub(crate) struct Mailbox {
    ring: VecDeque<Reply>,
    received: Vec<Reply>,
}

impl Model for Mailbox {
    ghost use Rattle.tb_world.specs.clauses.Mailbox.{Mailbox as MailboxValue};

    ghost Value = { MailboxValue };

    ghost view = { λ mailbox. record { ring = mailbox.ring.items; received = mailbox.received.items } };
}

impl MadeWith<Global> for Mailbox {
    ghost is_made_with = { λ mailbox. mailbox ≡ empty_mailbox };

    fn made_with(alloc: Global) -> Mailbox {
        Mailbox::new(alloc)
    }
}

impl Mailbox {
    fn new(alloc: Global) -> Mailbox
        ensures { result ≡ empty_mailbox }
    {
        Mailbox {
            ring: VecDeque::new(alloc),
            received: Vec::new(alloc),
        }
    }

    /// Puts a reply into the ring. If memory runs out it comes back, and nothing has changed.
    fn give(&mut self, reply: Reply) -> Result<(), Reply>
        ensures ok { OnOk result (self.new ≡ with_reply self.old reply) }
        ensures err { IfErr result (λ back. (back ≡ reply) × (self.new ≡ self.old)) }
    {
        self.ring.push_back(reply).map_err(|failed| failed.value)
    }

    /// Takes the first reply of the ring, if there is one.
    fn take(&mut self) -> Result<bool, NoMemory>
        ensures moves { IfOk result (λ moves. moves ≡ is_some (after_pop self.old)) }
        ensures mailbox { OnOk result (self.new ≡ unwrap_or (after_pop self.old) self.old) }
        ensures err { OnErr result ((is_some (after_pop self.old) ≡ true) × (self.new ≡ self.old)) }
    {
        if self.ring.is_empty() {
            return Ok(false);
        }
        self.received.reserve(1)?;
        if let Some(reply) = self.ring.pop_front() {
            self.received.push_reserved(reply);
        }
        Ok(true)
    }
}

/// The mailboxes of all submitters, in the order of their numbers.
#[derive(Drop)]
pub(crate) struct Mailboxes {
    mailboxes: ArrayVec<Mailbox, 16, Global>,
}

impl Model for Mailboxes {
    ghost use Rattle.std.specs.Prelude.{List};
    ghost use Rattle.tb_world.specs.clauses.Mailbox.{Mailbox as MailboxValue};

    ghost Value = { List MailboxValue };

    ghost view = { λ mailboxes. mailboxes.mailboxes.items };
}

impl Mailboxes {
    /// Returns an empty ring for each of the submitters; none has received anything. Takes no memory.
    pub(crate) fn new(alloc: Global, submitters: u32) -> Mailboxes
        requires { submitters ≤ submitters_max }
        ensures { result ≡ replicate submitters empty_mailbox }
    {
        let mut mailboxes = ArrayVec::new_in(alloc);
        for _ in 0..submitters {
            mailboxes.push(Mailbox::new(alloc));
        }
        Mailboxes { mailboxes }
    }

    /// Puts a reply into its submitter's ring; it is dropped if there is no such submitter. If memory is
    /// refused it comes back, and nothing has changed.
    pub(crate) fn give(&mut self, reply: Reply) -> Result<(), Reply>
        ensures ok { OnOk result (self.new ≡ mailboxes_with self.old reply) }
        ensures err { IfErr result (λ back. (back ≡ reply) × (self.new ≡ self.old)) }
    {
        let submitter = reply.submitter as usize;
        if submitter >= self.mailboxes.len() {
            drop(reply);
            return Ok(());
        }
        let mailbox = &mut self.mailboxes[submitter];
        mailbox.give(reply)
    }

    /// Takes the first reply of a submitter's ring, if there is one.
    pub(crate) fn take(&mut self, submitter: u32) -> Result<bool, NoMemory>
        ensures moves { IfOk result (λ moves. moves ≡ is_some (after_pop (mailbox_at self.old submitter))) }
        ensures mailboxes { OnOk result (self.new ≡ slice_set self.old submitter
            (unwrap_or (after_pop (mailbox_at self.old submitter)) (mailbox_at self.old submitter))) }
        ensures err { OnErr result ((is_some (after_pop (mailbox_at self.old submitter)) ≡ true)
            × (self.new ≡ self.old)) }
    {
        let submitter = submitter as usize;
        if submitter >= self.mailboxes.len() {
            return Ok(false);
        }
        let mailbox = &mut self.mailboxes[submitter];
        mailbox.take()
    }

    /// Returns the first submitter whose ring has a reply, if there is one.
    pub(crate) fn first_unread(&self) -> Option<u32>
        ensures some { IfSome result (λ own. is_some (after_pop (mailbox_at self.now own)) ≡ true) }
        ensures none { IfNone result (sum_by unread self.now ≡ 0) }
    {
        for own in 0..self.mailboxes.len() {
            let mailbox = &self.mailboxes[own];
            if !mailbox.ring.is_empty() {
                return Some(own as u32);
            }
        }
        None
    }

    /// Returns what a submitter received; nothing if there is no such submitter.
    pub(crate) fn received(&self, submitter: u32) -> &[Reply]
        ensures { result.now ≡ (mailbox_at self.now submitter).received }
    {
        match self.mailboxes.get(submitter as usize) {
            Some(mailbox) => mailbox.received.as_slice(),
            None => &[],
        }
    }
}
