//! Asserts the outcomes that replies have, and the entries of a journal.

use crate::tests::must;
use std::process::Abort;
use tb_core::{Entry, Outcomes};
use tb_layout::Failure;
use tb_test_makers::{OutcomeKind, check, kind_of};
use tb_work::{Answer, Outcome, Reply};

/// An entry of the journal, without its bytes.
#[derive(Clone, Copy, PartialEq, Eq)]
pub(super) enum EntryKind {
    /// A batch of `count` packets.
    Batch(usize),
    /// A pulse with its moment.
    Pulse(u64),
}

/// Returns the first reply of a batch.
pub(super) fn first_reply(outcomes: Outcomes) -> Option<Reply> {
    match outcomes {
        Outcomes::Cut(mut cutter) => cutter.next(),
        _ => None,
    }
}

/// Returns the failures of a packet that was committed; None if it wasn't, or was a lookup.
pub(super) fn failures(reply: &Reply) -> Option<&[Failure]> {
    match &reply.outcome {
        Outcome::Committed {
            place: _,
            answer: Answer::Failures(failures),
        } => Some(failures.as_slice()),
        _ => None,
    }
}

fn entry_kind_of(entry: &Entry) -> EntryKind {
    match entry {
        Entry::Batch {
            operation: _,
            body: _,
            stubs,
        } => EntryKind::Batch(stubs.len()),
        Entry::Pulse { moment } => EntryKind::Pulse(moment.get()),
    }
}

/// Asserts the outcomes of replies, in order.
pub(super) fn assert_kinds(rt: &impl Abort, replies: &[Reply], wanted: &[OutcomeKind]) {
    must(rt, replies.len() == wanted.len());
    for (reply, wanted) in replies.iter().zip(wanted) {
        check!(rt; kind_of(reply) == *wanted, reply.number);
    }
}

/// Asserts the entries of a journal, in order.
pub(super) fn assert_entries(rt: &impl Abort, journal: &[Entry], wanted: &[EntryKind]) {
    must(rt, journal.len() == wanted.len());
    for (entry, wanted) in journal.iter().zip(wanted) {
        must(rt, entry_kind_of(entry) == *wanted);
    }
}

/// Asserts the failures of a packet that was committed.
pub(super) fn assert_failures(rt: &impl Abort, reply: Option<&Reply>, wanted: &[Failure]) {
    let reply = reply.expect(rt, "a reply");
    must(rt, failures(reply) == Some(wanted));
}
