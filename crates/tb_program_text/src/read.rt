//! The bytes of a script.

ghost use Rattle.std.specs.Prelude.{◌≢◌, IfOk, IfErr, IfSome};
ghost use Rattle.tb_program_text.specs.clauses.Source.{IsWhole};

use crate::program_fault::ProgramFault;
use std::alloc::Global;
use std::io::Read;

/// The most bytes of a script.
const SCRIPT_MAX: usize = 16_777_216;

/// The most reads of a script, which has at least one byte in each but the last.
const MOST_READS: u32 = 16_777_217;

/// The most bytes that are counted of a script that is too long.
const COUNTED_MAX: u64 = 268_435_456;

/// How many bytes a script has that is too long. Its length is for people only: no clause says what it is.
#[derive(Clone, Copy)]
pub enum ScriptLength {
    Exactly(u64),
    /// It didn't end within what was counted.
    MoreThan(u64),
}

/// What was read of a script: its whole text, or how long it is if it is too long.
#[derive(Drop)]
pub enum ScriptText {
    Whole(Vec<u8>),
    TooLong(ScriptLength),
}

/// Returns how long a script is, after some bytes were counted. Makes at most this number of further reads.
fn count_rest<R: Read>(reader: &mut R, counted: usize, reads: u32) -> ScriptLength {
    let mut buffer = [0u8; 4096];
    let mut length = counted as u64;
    for _ in 0..reads {
        match reader.read(&mut buffer) {
            Ok(0) => return ScriptLength::Exactly(length),
            Ok(count) => length = length.saturating_add(count as u64),
            Err(_) => break,
        }
        if length > COUNTED_MAX {
            return ScriptLength::MoreThan(COUNTED_MAX);
        }
    }
    ScriptLength::MoreThan(SCRIPT_MAX as u64)
}

/// Returns all bytes of a reader, or how long it is if it has more than a script may have. What fails is a read fault, and
/// so is a reader that hasn't ended after the most reads.
pub fn read_script<R: Read>(alloc: Global, reader: &mut R) -> Result<ScriptText, ProgramFault>
    ensures whole { IfOk result (λ text. IfSome (R.remaining reader.old) (λ bytes. IsWhole text bytes)) }
    ensures thread { IfErr result (λ fault. fault ≢ ProgramFault.NoThread) }
{
    let mut text = Vec::new(alloc);
    let mut buffer = [0u8; 4096];
    for reads in 0..MOST_READS {
        let Ok(count) = reader.read(&mut buffer) else {
            return Err(ProgramFault::Read);
        };
        if count == 0 {
            return Ok(ScriptText::Whole(text));
        }
        text.extend_from_slice(&buffer[..count])?;
        if text.len() > SCRIPT_MAX {
            let length = count_rest(reader, text.len(), MOST_READS - 1 - reads);
            return Ok(ScriptText::TooLong(length));
        }
    }
    Err(ProgramFault::Read)
}
