//! The replies that are not read.

ghost use Rattle.std.specs.Prelude.{◌≡◌, ◌≤◌, ◌<◌, ◌+◌, ◌++◌, ◌∷◌, [], IfNone, OnOk, option_to_list, slice_get};
ghost use Rattle.std.specs.Option.{option_copied};
ghost use Rattle.std.specs.VecDeque.{deque_len, deque_capacity};
ghost use Rattle.std.specs.List.{flat_map};
ghost use Rattle.tb_core.specs.claim.Run.{replies_in};
ghost use Rattle.tb_embed.specs.inside.Unread.{replies_of};

use std::alloc::Global;
use std::collections::VecDeque;
use std::marker::Model;
use std::mem;
use tb_core::Outcomes;
use tb_demux::Cutter;
use tb_layout::NoMemory;
use tb_work::Reply;

/// The next reply, the cutter that has those after it, and the outcomes after these.
#[derive(Drop)]
pub(crate) struct Unread {
    next: Option<Reply>,
    cutter: Option<Cutter>,
    outcomes: VecDeque<Outcomes>,
}

impl Model for Unread {
    ghost use Rattle.std.specs.Prelude.{◌≡◌, ◌-◌, [], ◌++◌, option_to_list, None};
    ghost use Rattle.std.specs.VecDeque.{deque_len, deque_capacity};
    ghost use Rattle.std.specs.List.{flat_map};
    ghost use Rattle.tb_core.specs.claim.Run.{replies_in};
    ghost use Rattle.tb_embed.specs.inside.Unread.{UnreadState, replies_of};

    ghost Value = { UnreadState };

    ghost view = { λ unread. record {
      replies = option_to_list unread.next ++ (replies_of unread.cutter ++ flat_map replies_in unread.outcomes.items);
      room = deque_capacity unread.outcomes - deque_len unread.outcomes;
    } };

    ghost invariant = { λ unread. unread.next ≡ None
        → replies_of unread.cutter ++ flat_map replies_in unread.outcomes.items ≡ [] };
}

/// Returns the cutter's next reply; None if there is no cutter or it has no reply left.
fn cut(cutter: &mut Option<Cutter>) -> Option<Reply>
    ensures replies { replies_of cutter.old ≡ option_to_list result ++ replies_of cutter.new }
    ensures none { IfNone result (replies_of cutter.new ≡ []) }
{
    match cutter {
        Some(cutter) => cutter.next(),
        None => None,
    }
}

/// Returns an outcome's first reply. If the outcome is that of a batch, its cutter replaces one that has no reply left.
#[inline(always)]
fn begin(cutter: &mut Option<Cutter>, outcomes: Outcomes) -> Option<Reply>
    requires { replies_of cutter.old ≡ [] }
    ensures replies { replies_in outcomes ≡ option_to_list result ++ replies_of cutter.new }
    ensures none { IfNone result (replies_of cutter.new ≡ []) }
{
    match outcomes {
        Outcomes::Cut(next) => {
            drop(mem::replace(cutter, Some(next)));
            cut(cutter)
        }
        Outcomes::One(reply) => Some(reply),
        Outcomes::Nothing | Outcomes::Last => None,
    }
}

/// Returns the first reply of a cutter and of the outcomes after it; None if they have none.
#[inline(always)]
fn next_reply(cutter: &mut Option<Cutter>, outcomes: &mut VecDeque<Outcomes>) -> Option<Reply>
    ensures replies { replies_of cutter.old ++ flat_map replies_in outcomes.old.items
        ≡ option_to_list result ++ (replies_of cutter.new ++ flat_map replies_in outcomes.new.items) }
    ensures none { IfNone result (replies_of cutter.new ++ flat_map replies_in outcomes.new.items ≡ []) }
    ensures capacity { deque_capacity outcomes.new ≡ deque_capacity outcomes.old }
    ensures len { deque_len outcomes.new ≤ deque_len outcomes.old }
{
    if let Some(reply) = cut(cutter) {
        return Some(reply);
    }
    while let Some(first) = outcomes.pop_front() {
        if let Some(reply) = begin(cutter, first) {
            return Some(reply);
        }
    }
    None
}

impl Unread {
    /// Returns a value without replies. Allocates nothing.
    pub(crate) fn new(alloc: Global) -> Unread
        ensures { result.replies ≡ [] }
    {
        Unread {
            next: None,
            cutter: None,
            outcomes: VecDeque::new(alloc),
        }
    }

    /// Makes capacity for `count` outcomes more.
    pub(crate) fn reserve(&mut self, count: usize) -> Result<(), NoMemory>
        ensures ok { OnOk result (count ≤ self.new.room) }
        ensures same { self.new.replies ≡ self.old.replies }
    {
        Ok(self.outcomes.reserve(count)?)
    }

    /// Appends an outcome's replies. Its first is the next at once if nothing is unread. Allocates nothing.
    pub(crate) fn push(&mut self, outcomes: Outcomes)
        requires { 0 < self.old.room }
        ensures replies { self.new.replies ≡ self.old.replies ++ replies_in outcomes }
        ensures room { self.old.room ≤ self.new.room + 1 }
    {
        if self.next.is_none() {
            let next = begin(&mut self.cutter, outcomes);
            drop(mem::replace(&mut self.next, next));
        } else {
            self.outcomes.push_back_reserved(outcomes);
        }
    }

    /// Appends a reply, as `push` does.
    pub(crate) fn push_reply(&mut self, reply: Reply)
        requires { 0 < self.old.room }
        ensures replies { self.new.replies ≡ self.old.replies ++ reply ∷ [] }
        ensures room { self.old.room ≤ self.new.room + 1 }
    {
        if self.next.is_none() {
            self.next = Some(reply);
        } else {
            self.outcomes.push_back_reserved(Outcomes::One(reply));
        }
    }

    /// Returns the next reply, which stays.
    pub(crate) fn next(&self) -> Option<&Reply>
        ensures { option_copied result ≡ slice_get self.now.replies 0 }
    {
        self.next.as_ref()
    }

    /// Removes the next reply and returns it.
    #[inline(always)]
    pub(crate) fn take(&mut self) -> Option<Reply>
        ensures replies { self.old.replies ≡ option_to_list result ++ self.new.replies }
        ensures none { IfNone result (self.new.replies ≡ []) }
    {
        let reply = self.next.take()?;
        // A reply is large: if there is no other, none is moved.
        if self.cutter.is_some() || !self.outcomes.is_empty() {
            self.next = next_reply(&mut self.cutter, &mut self.outcomes);
        }
        Some(reply)
    }
}
