//! A whole script.

ghost use Rattle.tb_program_text.specs.clauses.Script.{script_of};
ghost use Rattle.tb_program_text.specs.clauses.Parsing.{Parses};

use crate::fault::{Fault, LineError};
use crate::script::Script;
use std::alloc::Global;
use std::error::Error;
use std::fmt;
use std::fmt::{Display, Formatter};

/// Why a script could not be read.
#[derive(Clone, Copy, Debug, PartialEq, Eq)]
pub enum ScriptError {
    NoMemory,
    /// The number of the first faulty line, counted from 1, and its fault.
    Faulty(usize, Fault),
}

impl Display for ScriptError {
    fn fmt<W: fmt::Write>(&self, f: &mut Formatter<W>) -> fmt::Result {
        match self {
            ScriptError::NoMemory => f.pad("memory ran out"),
            ScriptError::Faulty(line, fault) => write!(f, "line {line}: {fault}"),
        }
    }
}

impl Error for ScriptError {}

/// Returns what a script says, or the number of its first faulty line, from 1, and that line's fault. Each byte is read
/// a bounded number of times. It takes memory for the items and the bytes of their packets.
pub fn parse(alloc: Global, text: &[u8]) -> Result<Script, ScriptError>
    ensures { Parses result (script_of text.now) }
{
    let mut script = Script::new(alloc);
    let mut rest = text;
    let mut number = 0;
    while !rest.is_empty() {
        number += 1;
        match script.first_line(alloc, rest) {
            Ok(others) => rest = others,
            Err(LineError::NoMemory) => return Err(ScriptError::NoMemory),
            Err(LineError::Fault(fault)) => return Err(ScriptError::Faulty(number, fault)),
        }
    }
    Ok(script)
}
