//! A script through the pipeline, with a thread for each sender.

ghost use Rattle.std.specs.Prelude.{◌≡◌, ◌≤◌, ℕ, List, [], false, true, length, map, IfOk, IfSome, IsErrOf, string_bytes};
ghost use Rattle.std.specs.Io.KnownBytes.{Appends, Keeps};
ghost use Rattle.tb_core.specs.claim.Ledger.{new_ledger};
ghost use Rattle.tb_drive.specs.clauses.Plan.{planned_items, refused_of};
ghost use Rattle.tb_pipe.specs.clauses.Reported.{AreTogether};
ghost use Rattle.tb_layout.specs.claim.Bounds.{submitters_max};
ghost use Rattle.tb_program.specs.inside.Drivers.{AreNew, lists_of, share_of};
ghost use Rattle.tb_program.specs.clauses.Noting.{AreFresh, HaveCredit};
ghost use Rattle.tb_program.specs.clauses.Listing.{out, is_faultless};
ghost use Rattle.tb_program_text.specs.clauses.Source.{source_in};
ghost use Rattle.tb_program.specs.clauses.Operations.{operations_run, operations_if_faultless};
ghost use Rattle.tb_program.specs.clauses.RunText.{IsOutputOf, IsOutputOfBytes, IsRunOutput, IsRunOf, IsTextOf};
ghost use Rattle.tb_program_text.specs.clauses.Script.{InBounds, capacity_of, clock_of, credit_of, limit_of, submitters_of};

mod driver;
mod fault;
mod notes;
mod over;
mod report;
mod share;

use crate::operations::operations_shared;
use crate::run::driver::ScriptDriver;
use crate::run::fault::program_fault_of;
use crate::run::report::{RunText, text_of};
use crate::run::share::{Shares, share_out};
pub use over::{RunOver, run_over};
use std::alloc::Global;
use std::io::{Read, Write};
use std::sync::Wait;
use std::thread::Threads;
use std::time::Clock;
use tb_drive::ControlPlan;
use tb_layout::NoMemory;
use tb_pipe::{Opened, drive_all, open};
use tb_program_text::{
    Output, ProgramFault, Script, ScriptParts, Settings, Source, read_source, write_out,
};
use tb_work::{Packet, Refusal};

/// Returns the pipeline that a script's settings open. They are all in range, so only NoMemory refuses it.
fn open_for(alloc: Global, settings: &Settings) -> Result<Opened, NoMemory>
    requires { InBounds settings.now }
    ensures together { IfOk result (λ opened. AreTogether opened.pipeline opened.submitters.items opened.control) }
    ensures number { IfOk result (λ opened. length opened.pipeline.submitters ≡ submitters_of settings.now) }
    ensures start { IfOk result (λ opened. opened.pipeline.start ≡ new_ledger (clock_of settings.now)) }
    ensures limit { IfOk result (λ opened. opened.pipeline.intake.limit ≡ limit_of settings.now) }
    ensures capacity { IfOk result (λ opened. opened.pipeline.intake.capacity ≡ capacity_of settings.now) }
    ensures credit { IfOk result (λ opened. HaveCredit (credit_of settings.now) opened.submitters.items) }
    ensures fresh { IfOk result (λ opened. AreFresh opened.submitters.items) }
    ensures silent { IfOk result (λ opened. opened.control.queued ≡ []) }
{
    let opened = open(
        alloc,
        settings.clock(),
        settings.limit(),
        settings.capacity(),
        settings.credit(),
        settings.submitters(),
    );
    match opened {
        Ok(opened) => Ok(opened),
        Err(refusal) => match refusal {
            Refusal::NoMemory => Err(NoMemory),
            _ => unreachable!(),
        },
    }
}

/// Returns a driver for each submitter's packets, by rising number.
fn drivers(alloc: Global, packets: Vec<Vec<Packet>>) -> Result<Vec<ScriptDriver>, NoMemory>
    ensures shares { IfOk result (λ drivers. map share_of drivers.items ≡ lists_of packets.items) }
    ensures new { IfOk result (λ drivers. AreNew drivers.items) }
{
    let mut drivers = Vec::with_capacity(alloc, packets.len())?;
    for packets in packets {
        drivers.push(ScriptDriver::new(alloc, packets)?)?;
    }
    Ok(drivers)
}

/// Runs what is opened until all of its senders have ended; the text of the run.
fn run_opened<T: Threads + Wait + Clock + Sync>(
    rt: &T,
    alloc: Global,
    opened: Opened,
    drivers: Vec<ScriptDriver>,
    lines: ControlPlan,
) -> Result<RunText, ProgramFault>
    requires together { AreTogether opened.pipeline opened.submitters.items opened.control }
    requires first { opened.pipeline.start ≡ new_ledger opened.pipeline.start.opening }
    requires number { length drivers.items ≡ length opened.pipeline.submitters }
    requires few { length drivers.items ≤ submitters_max }
    requires fresh { AreFresh opened.submitters.items }
    requires silent { opened.control.queued ≡ [] }
    requires new { AreNew drivers.items }
    ensures { IfOk result (λ made. IsRunOutput opened.pipeline.start.opening opened.pipeline.intake.limit
        (map share_of drivers.items)
        (planned_items lines.moments.items lines.shuts) (refused_of lines.moments.items) (string_bytes made.text)
        made.lacks_memory) }
{
    let asked = lines.moments.len();
    match drive_all(rt, alloc, opened, drivers, lines.driver()) {
        Ok(finished) => {
            let queued = asked.saturating_sub(finished.control.refused as usize);
            Ok(text_of(alloc, finished, queued)?)
        }
        Err(fault) => Err(program_fault_of(fault)),
    }
}

/// Returns the text of a run of these shares with these settings.
fn text_for<T: Threads + Wait + Clock + Sync>(
    rt: &T,
    alloc: Global,
    settings: &Settings,
    shares: Shares,
) -> Result<RunText, ProgramFault>
    requires bounds { InBounds settings.now }
    requires number { length shares.packets.items ≡ submitters_of settings.now }
    ensures { IfOk result (λ made. IsRunOutput (clock_of settings.now) (limit_of settings.now) (lists_of shares.packets.items)
        (planned_items shares.lines.moments.items shares.lines.shuts) (refused_of shares.lines.moments.items)
        (string_bytes made.text) made.lacks_memory) }
{
    let Shares { packets, lines } = shares;
    let drivers = drivers(alloc, packets)?;
    match open_for(alloc, settings) {
        Ok(opened) => run_opened(rt, alloc, opened, drivers, lines),
        Err(fault) => Err(ProgramFault::from(fault)),
    }
}

/// Returns the output for a script that has no fault.
fn output_for<T: Threads + Wait + Clock + Sync>(
    rt: &T,
    alloc: Global,
    script: Script,
) -> Result<Output, ProgramFault>
    ensures text { IfOk result (λ output. IsTextOf script (string_bytes output.text)) }
    ensures memory { IfOk result (λ output. IsOutputOf script (string_bytes output.text) output.lacks_memory) }
    ensures faultless { IfOk result (λ output. output.faultless ≡ true) }
    ensures operations { IfOk result (λ output. output.operations.items ≡ operations_run script) }
{
    let ScriptParts { settings, items } = script.finish()?;
    let shares = share_out(alloc, settings.submitters(), items)?;
    let operations = operations_shared(alloc, &shares.packets)?;
    let made = text_for(rt, alloc, &settings, shares)?;
    Ok(Output {
        text: made.text,
        faultless: true,
        remark: String::new(alloc),
        operations,
        lacks_memory: made.lacks_memory,
    })
}

/// Reads a script to its end, and returns what `run_threads` writes of it, whether it has no fault, and if it has one a remark on that for
/// people.
///
/// # Errors
///
/// `Read` if the reader fails, `NoMemory` if memory runs out before the run or for its text, and `NoThread` if a thread can't be started.
pub fn run_output<T: Threads + Wait + Clock + Sync, R: Read>(
    rt: &T,
    alloc: Global,
    reader: &mut R,
) -> Result<Output, ProgramFault>
    ensures faultless { IfOk result (λ output.
        IfSome (R.remaining reader.old) (λ bytes. output.faultless ≡ is_faultless bytes)) }
    ensures faulty { IfOk result (λ output. IfSome (R.remaining reader.old) (λ bytes. is_faultless bytes ≡ false
        → string_bytes output.text ≡ out bytes)) }
    ensures ran { IfOk result (λ output. IfSome (R.remaining reader.old) (λ bytes. is_faultless bytes ≡ true
        → IsRunOf bytes (string_bytes output.text))) }
    // It says whether memory ran out in such a run. It didn't for a faulty script.
    ensures memory { IfOk result (λ output. IfSome (R.remaining reader.old) (λ bytes. is_faultless bytes ≡ true
        → IsOutputOfBytes bytes (string_bytes output.text) output.lacks_memory)) }
    ensures no_run { IfOk result (λ output. IfSome (R.remaining reader.old) (λ bytes. is_faultless bytes ≡ false
        → output.lacks_memory ≡ false)) }
    // The operations that name its codes are those of each submitter's packets, in order.
    ensures operations { IfOk result (λ output. IfSome (R.remaining reader.old) (λ bytes.
        output.operations.items ≡ operations_if_faultless operations_run (source_in bytes))) }
{
    match read_source(alloc, reader)? {
        Source::Script(script) => output_for(rt, alloc, script),
        Source::Faulty(faulty) => Ok(Output::of_faulty(alloc, faulty)),
    }
}

/// Reads a script to its end and runs it through the pipeline: each submitter's packets are queued by a thread of its
/// own, in the order of the script, the control's lines by one more, and the calling thread serves. It prints the
/// result of each packet, the packets of submitter 0 first, then the pulses, the clock and the accounts. Returns
/// whether the script has no fault; only the fault is printed if it has one, and no thread is started. All output is
/// made before its first byte is written.
///
/// # Errors
///
/// Those of `run_output`, and `Write` if the writer fails.
pub fn run_threads<T: Threads + Wait + Clock + Sync, R: Read, W: Write>(
    rt: &T,
    alloc: Global,
    reader: &mut R,
    writer: &mut W,
) -> Result<bool, ProgramFault>
    ensures faultless { IfOk result (λ faultless.
        IfSome (R.remaining reader.old) (λ bytes. faultless ≡ is_faultless bytes)) }
    // Of a faulty script the line is written that `run_script` writes, and nothing else.
    ensures faulty { IfOk result (λ faultless. IfSome (R.remaining reader.old) (λ bytes. is_faultless bytes ≡ false
        → Appends (W.contents writer.old) (W.contents writer.new) (out bytes))) }
    // Of any other the text of a lawful run of what the script says.
    ensures ran { IfOk result (λ faultless. IfSome (R.remaining reader.old) (λ bytes. is_faultless bytes ≡ true
        → (text : List ℕ) × IsRunOf bytes text × Appends (W.contents writer.old) (W.contents writer.new) text)) }
    // Nothing is written if the reader failed, memory ran out or a thread couldn't be started.
    ensures read { IsErrOf result ProgramFault.Read → Keeps (W.contents writer.old) (W.contents writer.new) }
    ensures memory { IsErrOf result ProgramFault.NoMemory → Keeps (W.contents writer.old) (W.contents writer.new) }
    ensures thread { IsErrOf result ProgramFault.NoThread → Keeps (W.contents writer.old) (W.contents writer.new) }
{
    let output = run_output(rt, alloc, reader)?;
    write_out(writer, &output.text)?;
    Ok(output.faultless)
}
