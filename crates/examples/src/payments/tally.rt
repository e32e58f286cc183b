//! What a desk counts.

ghost use Rattle.std.specs.Prelude.{◌≡◌, ◌+◌, [], ◌∷◌, ◌++◌, List, IsTrue, true};
ghost use Rattle.tb_work.specs.claim.Packet.{ReplyValue};

use crate::payments::order::{CAPTURE, VOID};
use std::alloc::Global;
use tb_layout::Failure;
use tb_work::{Answer, Outcome, Reply};

/// What replies say: how many captures and voids were committed without a failure, and all failures in order.
#[derive(Drop)]
pub(crate) struct Tally {
    pub(crate) captured: u64,
    pub(crate) voided: u64,
    pub(crate) failures: Vec<Failure>,
    /// Whether nothing is missing: no allocation failed, and no count passed 2^64 - 1.
    pub(crate) complete: bool,
}

/// Adds one to a count, and returns false if it can't.
fn raise(count: &mut u64) -> bool
    ensures { IsTrue result → count.new ≡ count.old + 1 }
{
    match count.checked_add(1) {
        Some(more) => {
            *count = more;
            true
        }
        None => false,
    }
}

impl Tally {
    ghost use Rattle.examples.specs.clauses.Desk.{HasCounted, is_result_of, one_if};

    /// Returns the tally of no reply.
    pub(crate) fn new(alloc: Global) -> Tally
        ensures { HasCounted result [] }
    {
        Tally {
            captured: 0,
            voided: 0,
            failures: Vec::new(alloc),
            complete: true,
        }
    }

    /// Counts a committed packet with this user word and these failures.
    fn add_result(&mut self, word: u64, failures: &[Failure])
        ensures complete { self.new.complete ≡ true → self.old.complete ≡ true }
        ensures captured { self.new.complete ≡ true
            → self.new.captured ≡ self.old.captured + one_if (is_result_of CAPTURE word failures.now) }
        ensures voided { self.new.complete ≡ true
            → self.new.voided ≡ self.old.voided + one_if (is_result_of VOID word failures.now) }
        ensures failures { self.new.complete ≡ true
            → self.new.failures.items ≡ self.old.failures.items ++ failures.now }
    {
        let counted = if !failures.is_empty() {
            self.failures.extend_from_slice(failures).is_ok()
        } else if word == CAPTURE {
            raise(&mut self.captured)
        } else if word == VOID {
            raise(&mut self.voided)
        } else {
            true
        };
        self.complete = self.complete && counted;
    }

    /// Counts one more reply.
    pub(crate) fn add(&mut self, reply: &Reply)
        ensures { (read : List ReplyValue) → HasCounted self.old read → HasCounted self.new (read ++ reply.now ∷ []) }
    {
        if let Outcome::Committed {
            answer: Answer::Failures(failures),
            ..
        } = &reply.outcome
        {
            self.add_result(reply.packet.user, failures.as_slice());
        }
    }
}
