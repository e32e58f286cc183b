//! The lines of the output, and their text.

ghost use Rattle.std.specs.Prelude.{◌≡◌, ◌∷◌, ◌++◌, List, OnOk, string_bytes};
ghost use Rattle.std.specs.Slice.Iter.{iter_rest};
ghost use Rattle.tb_program.specs.clauses.Listing.{lines_text};
ghost use Rattle.tb_program.specs.declared.list.listing.Line.{Line as LineValue};

use std::alloc::AllocError;
use std::slice::Iter;
use tb_program_text::{
    SubmitterNumber, put_close, put_pulse, put_refused, put_refused_pulse, put_reply,
};
use tb_work::{Refusal, Reply};

/// What is printed of an item of a script.
#[derive(Clone, Copy)]
pub enum Line {
    /// The reply to a packet that was queued.
    Packet,
    /// The place of a pulse.
    Pulse(u64),
    Shut,
    RefusedPacket(SubmitterNumber, Refusal),
    RefusedPulse,
}

/// Adds the text of a line.
#[tactic(auto, unfolding(crate::specs::clauses::Listing::lines_text))]
fn put_line(out: &mut String, line: Line, replies: &mut Iter<Reply>) -> Result<(), AllocError>
    ensures { (lines : List LineValue) → OnOk result (string_bytes out.new ++ lines_text (iter_rest replies.new) lines
        ≡ string_bytes out.old ++ lines_text (iter_rest replies.old) (line ∷ lines)) }
{
    match line {
        Line::Packet => match replies.next() {
            Some(reply) => put_reply(out, reply),
            None => Ok(()),
        },
        Line::Pulse(place) => put_pulse(out, place),
        Line::Shut => put_close(out),
        Line::RefusedPacket(submitter, refusal) => put_refused(out, submitter.get(), refusal),
        Line::RefusedPulse => put_refused_pulse(out),
    }
}

/// Adds the text of lines. That of a queued packet is the next of the replies; if none is left, it has no text.
#[tactic(auto, unfolding(crate::specs::clauses::Listing::lines_text))]
pub fn put_lines(out: &mut String, lines: &[Line], replies: &[Reply]) -> Result<(), AllocError>
    ensures { OnOk result (string_bytes out.new ≡ string_bytes out.old ++ lines_text replies.now lines.now) }
{
    let mut replies = replies.iter();
    for line in lines {
        put_line(out, *line, &mut replies)?;
    }
    Ok(())
}
