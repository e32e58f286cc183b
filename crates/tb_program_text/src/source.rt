//! The script that a reader has.

ghost use Rattle.std.specs.Prelude.{◌≢◌, ℕ, List, Err, codes, IfOk, IfErr, IfSome};
ghost use Rattle.tb_program_text.specs.clauses.Script.{script_of};
ghost use Rattle.tb_program_text.specs.clauses.Output.{fault_line};
ghost use Rattle.tb_program_text.specs.clauses.Source.{IsFound, IsWhole, source_in, source_or_line};

use crate::output::put_fault;
use crate::parsing::{ScriptError, parse};
use crate::program_fault::ProgramFault;
use crate::read::{ScriptLength, ScriptText, read_script};
use crate::remark::{remark_on, remark_on_length};
use crate::script::Script;
use std::alloc::Global;
use std::io::Read;
use tb_layout::NoMemory;

/// A faulty script: the one line that is printed of it, and the sentence for standard error. That tells where the fault is, what is
/// wrong and what may stand there.
#[derive(Drop)]
pub struct FaultyScript {
    pub line: String,
    pub remark: String,
}

/// What a reader has: a script, or a faulty one.
#[derive(Drop)]
pub enum Source {
    Script(Script),
    Faulty(FaultyScript),
}

/// Returns a script with a fault at a line.
fn source_of_fault(
    alloc: Global,
    number: usize,
    text: &str,
    remark: String,
) -> Result<Source, NoMemory>
    ensures { IfOk result (λ source. IsFound source (Err (fault_line number text.now))) }
{
    let mut line = String::new(alloc);
    put_fault(&mut line, number, text)?;
    Ok(Source::Faulty(FaultyScript { line, remark }))
}

/// Returns a script that is too long.
fn source_too_long(alloc: Global, length: ScriptLength) -> Result<Source, NoMemory>
    ensures { IfOk result (λ source. IsFound source (Err (fault_line 0 (codes "script too long")))) }
{
    let remark = remark_on_length(alloc, length)?;
    source_of_fault(alloc, 0, "script too long", remark)
}

/// Returns what the bytes of a script say.
fn source_of_bytes(alloc: Global, text: &[u8]) -> Result<Source, NoMemory>
    ensures { IfOk result (λ source. IsFound source (source_or_line (script_of text.now))) }
{
    match parse(alloc, text) {
        Ok(script) => Ok(Source::Script(script)),
        Err(ScriptError::NoMemory) => Err(NoMemory),
        Err(ScriptError::Faulty(number, fault)) => {
            let remark = remark_on(alloc, text, number, fault)?;
            source_of_fault(alloc, number, fault.text(), remark)
        }
    }
}

/// Returns what the text that was read says, or the fault of a text that is too long.
pub fn source_of(alloc: Global, text: &ScriptText) -> Result<Source, NoMemory>
    ensures { IfOk result (λ source. (bytes : List ℕ) → IsWhole text.now bytes → IsFound source (source_in bytes)) }
{
    match text {
        ScriptText::Whole(text) => source_of_bytes(alloc, text),
        ScriptText::TooLong(length) => source_too_long(alloc, *length),
    }
}

/// Reads to the end, or as far as a script may be long, and parses what was read.
pub fn read_source<R: Read>(alloc: Global, reader: &mut R) -> Result<Source, ProgramFault>
    ensures source { IfOk result (λ source. IfSome (R.remaining reader.old) (λ bytes. IsFound source (source_in bytes))) }
    ensures thread { IfErr result (λ fault. fault ≢ ProgramFault.NoThread) }
{
    let text = read_script(alloc, reader)?;
    Ok(source_of(alloc, &text)?)
}
