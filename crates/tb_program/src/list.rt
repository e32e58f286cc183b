//! A script in one thread.

ghost use Rattle.std.specs.Prelude.{◌≡◌, ◌≢◌, ◌≤◌, true, map, IfOk, IfErr, IfSome, IsErrOf, string_bytes};
ghost use Rattle.std.specs.Io.KnownBytes.{Appends, Keeps};
ghost use Rattle.tb_layout.specs.claim.Bounds.{batch_max};
ghost use Rattle.tb_layout.specs.claim.Limits.{clock_max};
ghost use Rattle.tb_program.specs.clauses.Listing.{plan_text, listing, out, is_faultless};
ghost use Rattle.tb_program_text.specs.clauses.Source.{source_in};
ghost use Rattle.tb_program.specs.clauses.Operations.{operation_in, operations_listed, operations_if_faultless};

mod listing;
mod planning;

pub use crate::list::listing::{Line, put_lines};
use crate::list::planning::plan_all;
use crate::operations::operation_in;
use crate::state::put_state;
use std::alloc::Global;
use std::io::{Read, Write};
use tb_core::run_list;
use tb_layout::NoMemory;
use tb_program_text::{
    Output, ProgramFault, Script, ScriptItem, ScriptParts, Source, read_script, source_of,
    write_out,
};
use tb_work::Item;

/// As many bytes as the line of a committed packet without failures mostly has.
const USUAL_LINE: usize = 32;

/// Returns the text of a plan: its lines, and then the clock and the accounts.
fn text_of(
    alloc: Global,
    clock: u64,
    limit: u32,
    items: Vec<Item>,
    lines: &[Line],
) -> Result<String, NoMemory>
    requires clock { clock ≤ clock_max }
    requires least { 1 ≤ limit }
    requires most { limit ≤ batch_max }
    ensures { IfOk result (λ text. string_bytes text ≡ plan_text clock (record { queue = items.items; lines = lines.now })) }
{
    let listed = run_list(alloc, clock, limit, items)?;
    let mut out = String::with_capacity(alloc, lines.len().saturating_mul(USUAL_LINE))?;
    put_lines(&mut out, lines, &listed.replies)?;
    put_state(&mut out, listed.ledger.machine())?;
    Ok(out)
}

/// Returns the operation of each item's line.
pub fn operations_of(alloc: Global, items: &[ScriptItem]) -> Result<Vec<u8>, NoMemory>
    ensures { IfOk result (λ operations. operations.items ≡ map operation_in items.now) }
{
    let mut operations = Vec::with_capacity(alloc, items.len())?;
    for item in items {
        operations.push(operation_in(item))?;
    }
    Ok(operations)
}

/// Returns the output for a script that has no fault.
fn output_for(alloc: Global, script: Script) -> Result<Output, NoMemory>
    ensures text { IfOk result (λ output. string_bytes output.text ≡ listing script) }
    ensures faultless { IfOk result (λ output. output.faultless ≡ true) }
    ensures operations { IfOk result (λ output. output.operations.items ≡ operations_listed script) }
{
    let ScriptParts {
        settings,
        mut items,
    } = script.finish()?;
    let operations = operations_of(alloc, &items)?;
    let limit = settings.limit();
    let (queue, lines) = plan_all(alloc, limit, &mut items)?;
    Ok(Output {
        text: text_of(alloc, settings.clock(), limit, queue, &lines)?,
        faultless: true,
        remark: String::new(alloc),
        operations,
        lacks_memory: false,
    })
}

/// Reads a script to its end, and returns what `run_script` writes of it, whether it has no fault, and if it has one a remark on that for
/// people. Takes memory as `run_script` does. The text and its list of items are freed last: once large blocks were freed, the C library
/// copies what grows, where it would move its pages.
pub fn list_output<R: Read>(alloc: Global, reader: &mut R) -> Result<Output, ProgramFault>
    ensures output { IfOk result (λ output. IfSome (R.remaining reader.old) (λ bytes.
        (string_bytes output.text ≡ out bytes) × (output.faultless ≡ is_faultless bytes))) }
    // The operations that name its codes are those of the items, in order.
    ensures operations { IfOk result (λ output. IfSome (R.remaining reader.old) (λ bytes.
        output.operations.items ≡ operations_if_faultless operations_listed (source_in bytes))) }
    ensures thread { IfErr result (λ fault. fault ≢ ProgramFault.NoThread) }
{
    let text = read_script(alloc, reader)?;
    match source_of(alloc, &text)? {
        Source::Script(script) => Ok(output_for(alloc, script)?),
        Source::Faulty(faulty) => Ok(Output::of_faulty(alloc, faulty)),
    }
}

/// Reads a script to its end, runs its packets and prints the result of each, with the clock and the accounts after
/// them. Returns whether the script has no fault; only the fault is printed if it has one. All output is made before
/// its first byte is written. It takes memory in proportion to the script and to what its packets make.
pub fn run_script<R: Read, W: Write>(
    alloc: Global,
    reader: &mut R,
    writer: &mut W,
) -> Result<bool, ProgramFault>
    // If it is known what the reader will read and what was written to the writer, exactly the output for these bytes
    // is written.
    ensures written { IfOk result (λ faultless. IfSome (R.remaining reader.old) (λ bytes.
        Appends (W.contents writer.old) (W.contents writer.new) (out bytes) × (faultless ≡ is_faultless bytes))) }
    // Nothing is written if the reader failed or memory ran out.
    ensures read { IsErrOf result ProgramFault.Read → Keeps (W.contents writer.old) (W.contents writer.new) }
    ensures memory { IsErrOf result ProgramFault.NoMemory → Keeps (W.contents writer.old) (W.contents writer.new) }
    // No thread is started.
    ensures thread { IfErr result (λ fault. fault ≢ ProgramFault.NoThread) }
{
    let output = list_output(alloc, reader)?;
    write_out(writer, &output.text)?;
    Ok(output.faultless)
}
