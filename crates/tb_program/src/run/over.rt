//! A script through a pipeline over any ledger.

ghost use Rattle.std.specs.Prelude.{◌≡◌, ◌≤◌, [], false, length, IfOk, map, string_bytes};
ghost use Rattle.std.specs.List.{flat_map};
ghost use Rattle.tb_core.specs.claim.Journal.{LedgerState};
ghost use Rattle.tb_layout.specs.claim.Bounds.{submitters_max};
ghost use Rattle.tb_drive.specs.clauses.Plan.{planned_items, refused_of};
ghost use Rattle.tb_pipe.specs.clauses.Reported.{AreTogether, GoesFrom};
ghost use Rattle.tb_program.specs.inside.Answering.{AreAllAnswered, AreAllDone};
ghost use Rattle.tb_program.specs.inside.Drivers.{AreNew, share_of, results_of};
ghost use Rattle.tb_program.specs.clauses.Noting.{AreFresh};
ghost use Rattle.tb_program.specs.clauses.Operations.{operations_of};
ghost use Rattle.tb_program.specs.clauses.RunText.{IsOutputOver, IsRunOver, lacks_packets, packets_text};
ghost use Rattle.tb_program.specs.clauses.Sharing.{moments_asked, shares_of, shuts_in};
ghost use Rattle.tb_program_text.specs.clauses.Script.{InBounds, limit_of, submitters_of};
ghost use Rattle.tb_submit.specs.clauses.Ends.{replies_of};

use crate::operations::operations_shared;
use crate::run::driver::ScriptDriver;
use crate::run::fault::program_fault_of;
use crate::run::report::{RunText, put_all_packets};
use crate::run::share::share_out;
use crate::run::{drivers, open_for};
use std::alloc::Global;
use std::sync::Wait;
use std::thread::Threads;
use std::time::Clock;
use tb_core::AnyLedger;
use tb_drive::ControlPlan;
use tb_layout::NoMemory;
use tb_pipe::{Finished, Opened, Report, drive_over};
use tb_program_text::{ProgramFault, ScriptParts};
use tb_submit::Ended;

/// What a run over a ledger leaves.
#[derive(Drop)]
pub struct RunOver<L: AnyLedger> {
    pub ledger: L,
    /// The lines of the packets, by rising number of their submitters.
    pub packets: String,
    /// Whether memory ran out for a packet, whose line says stopped or refused.
    pub lacks_memory: bool,
    /// The operation of each of these lines that is a reply's, and any number for another line.
    pub operations: Vec<u8>,
    /// How many pulses were refused, since their moments are too large.
    pub refused_pulses: u64,
}

/// Returns the lines of all packets.
fn lines_of(
    alloc: Global,
    drivers: Vec<ScriptDriver>,
    ends: Vec<Ended>,
) -> Result<RunText, NoMemory>
    requires few { length drivers.items ≤ submitters_max }
    requires number { length ends.items ≡ length drivers.items }
    requires answered { AreAllAnswered drivers.items ends.items }
    ensures done { IfOk result (λ lines. AreAllDone drivers.items) }
    ensures text { IfOk result (λ lines. string_bytes lines.text
        ≡ packets_text 0 (map results_of drivers.items) (replies_of ends.items)) }
    ensures lacking { IfOk result (λ lines. lines.lacks_memory
        ≡ lacks_packets (map results_of drivers.items) (replies_of ends.items)) }
{
    let mut lines = RunText {
        text: String::new(alloc),
        lacks_memory: false,
    };
    put_all_packets(&mut lines, drivers, ends)?;
    Ok(lines)
}

/// Runs what is opened until all of its senders have ended.
fn run_opened_over<T: Threads + Wait + Clock + Sync, L: AnyLedger + Send>(
    rt: &T,
    alloc: Global,
    opened: Opened<L>,
    drivers: Vec<ScriptDriver>,
    lines: ControlPlan,
) -> Result<RunOver<L>, ProgramFault>
    requires together { AreTogether opened.pipeline opened.submitters.items opened.control }
    requires known { (now : LedgerState) × L.is opened.pipeline.start now }
    requires number { length drivers.items ≡ length opened.pipeline.submitters }
    requires few { length drivers.items ≤ submitters_max }
    requires fresh { AreFresh opened.submitters.items }
    requires silent { opened.control.queued ≡ [] }
    requires new { AreNew drivers.items }
    ensures ran { IfOk result (λ ran. GoesFrom (L.is opened.pipeline.start) (L.is ran.ledger)
        (IsRunOver opened.pipeline.intake.limit (map share_of drivers.items) (planned_items lines.moments.items lines.shuts)
        (string_bytes ran.packets))) }
    ensures memory { IfOk result (λ ran. GoesFrom (L.is opened.pipeline.start) (L.is ran.ledger)
        (IsOutputOver opened.pipeline.intake.limit (map share_of drivers.items) (planned_items lines.moments.items lines.shuts)
        (string_bytes ran.packets) ran.lacks_memory)) }
    ensures refused { IfOk result (λ ran. ran.refused_pulses ≡ refused_of lines.moments.items) }
{
    match drive_over(rt, alloc, opened, drivers, lines.driver()) {
        Ok(finished) => {
            let Finished {
                report,
                drivers,
                control,
                ..
            } = finished;
            let Report { ledger, ends } = report;
            match lines_of(alloc, drivers, ends) {
                Ok(lines) => Ok(RunOver {
                    ledger,
                    packets: lines.text,
                    lacks_memory: lines.lacks_memory,
                    operations: Vec::new(alloc),
                    refused_pulses: control.refused,
                }),
                Err(fault) => {
                    drop(ledger);
                    Err(ProgramFault::from(fault))
                }
            }
        }
        Err(fault) => Err(program_fault_of(fault)),
    }
}

/// Runs the items of a script through a pipeline over a ledger that hasn't stopped, with a thread for each submitter and one for the
/// control. Packets are numbered from 0, and places go on from the ledger's, as does the clock: those of the script aren't looked at.
///
/// # Errors
///
/// `NoMemory` or `NoThread`. What was committed before that is where the ledger keeps its journal.
pub fn run_over<T: Threads + Wait + Clock + Sync, L: AnyLedger + Send>(
    rt: &T,
    alloc: Global,
    ledger: L,
    script: ScriptParts,
) -> Result<RunOver<L>, ProgramFault>
    requires bounds { InBounds script.settings }
    requires known { (now : LedgerState) × L.is ledger now }
    requires goes_on { (now : LedgerState) → L.is ledger now → now.stopped ≡ false }
    ensures ran { IfOk result (λ ran. GoesFrom (L.is ledger) (L.is ran.ledger) (IsRunOver (limit_of script.settings)
        (shares_of 0 (submitters_of script.settings) script.items.items)
        (planned_items (moments_asked script.items.items) (shuts_in script.items.items)) (string_bytes ran.packets))) }
    // It says whether memory ran out for a packet of this run.
    ensures memory { IfOk result (λ ran. GoesFrom (L.is ledger) (L.is ran.ledger) (IsOutputOver (limit_of script.settings)
        (shares_of 0 (submitters_of script.settings) script.items.items)
        (planned_items (moments_asked script.items.items) (shuts_in script.items.items)) (string_bytes ran.packets)
        ran.lacks_memory)) }
    ensures refused { IfOk result (λ ran. ran.refused_pulses ≡ refused_of (moments_asked script.items.items)) }
    // The operations that name its codes are those of each submitter's packets, in order.
    ensures operations { IfOk result (λ ran. ran.operations.items
        ≡ flat_map operations_of (shares_of 0 (submitters_of script.settings) script.items.items)) }
{
    let ScriptParts { settings, items } = script;
    let shares = share_out(alloc, settings.submitters(), items)?;
    let operations = operations_shared(alloc, &shares.packets)?;
    let drivers = drivers(alloc, shares.packets)?;
    let opened = open_for(alloc, &settings)?;
    let Ok(opened) = opened.over(ledger) else {
        unreachable!()
    };
    let mut ran = run_opened_over(rt, alloc, opened, drivers, shares.lines)?;
    ran.operations = operations;
    Ok(ran)
}
