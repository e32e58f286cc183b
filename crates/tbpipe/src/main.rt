//! `tbpipe`: runs a script of packets and prints the result of each.
//!
//! `list` takes the script through the stages in one thread, `run` through the pipeline with a thread for each sender. With `--journal FILE`
//! both commit to a ledger that is kept in a file, and continue what it has; `replay FILE` prints the clock and the accounts of one.
//!
//! What the arguments ask for, the exit statuses and the lines that the program prints itself are functions of `tb_program_text`. The rest
//! is `tb_program`, and for files `journal`. What is printed as committed to a file is on the disk.
#![tactic(auto)]

mod journal;

use crate::journal::{Journaled, RunFault, list_into, replay, run_into};
use std::alloc::Global;
use std::process::ExitCode;
use std::rt::Env;
use std::sync::Wait;
use std::thread::Threads;
use std::time::Clock;
use std::{env, io};
use tb_durable::{LedgerFile, copy_log};
use tb_program::{Output, list_output, run_output};
use tb_program_text::{
    Ending, FilePath, Options, ProgramFault, Request, Tally, request_of, tally_of, write_bytes,
    write_out,
};

/// Returns what the arguments ask for. One that isn't text asks for nothing that there is.
fn read_arguments(rt: &(impl Env + Alloc<A = Global>)) -> Result<Request, ProgramFault> {
    match env::args(rt) {
        Ok(words) => Ok(request_of(words)),
        Err(error) if error.kind() == io::ErrorKind::InvalidData => Ok(Request::Usage),
        Err(_) => Err(ProgramFault::NoMemory),
    }
}

/// Says something to people, on standard error. If that is closed, nobody reads it.
fn tell(rt: &HostRuntime, remark: &str) {
    let _ = eprintln!(rt; "tbpipe: {remark}");
}

/// Writes the text of a script's output, with names if they are asked for.
fn write_text(rt: &HostRuntime, options: &Options, output: &Output) -> Result<(), ProgramFault> {
    if options.names {
        let named = output.named(rt.alloc())?;
        write_bytes(&mut io::writer(rt), &named)
    } else {
        write_out(&mut io::writer(rt), &output.text)
    }
}

/// Returns how the program ends after a script whose output is written. Under `--strict`, it says how much isn't committed and how much
/// failed, if anything did.
fn judge(rt: &HostRuntime, options: &Options, output: &Output) -> Ending {
    if !output.remark.is_empty() {
        tell(rt, &output.remark);
    }
    if !output.faultless {
        return Ending::FaultyScript;
    }
    if !options.strict {
        return Ending::Done;
    }
    let Tally {
        refused,
        failed,
        uncommitted,
    } = tally_of(output.text.as_bytes());
    if refused == 0 && failed == 0 && uncommitted == 0 {
        return Ending::Done;
    }
    let _ = eprintln!(rt;
        "tbpipe: refused packets and pulses: {refused}, failed events: {failed}, packets not committed: {uncommitted}"
    );
    Ending::NotAllSucceeded
}

/// Prints what was made of a script. Returns how the program ends.
fn print_output(rt: &HostRuntime, options: &Options, output: &Output) -> Ending {
    match write_text(rt, options, output) {
        Ok(()) => judge(rt, options, output),
        Err(fault) => Ending::Failed(fault),
    }
}

/// Prints what was made of a script in memory. Returns how the program ends.
fn print(rt: &HostRuntime, options: &Options, made: Result<Output, ProgramFault>) -> Ending {
    match made {
        Ok(output) => print_output(rt, options, &output),
        Err(fault) => Ending::Failed(fault),
    }
}

/// Prints what was made of a run in memory. Returns how the program ends.
fn print_run(rt: &HostRuntime, options: &Options, made: Result<Output, ProgramFault>) -> Ending {
    match made {
        Ok(output) => print_output(rt, options, &output).of_run(output.lacks_memory),
        Err(fault) => Ending::Failed(fault),
    }
}

/// Copies the log of a ledger's file into the file, so that the file by itself has all that is committed. A failure loses nothing, and
/// is only told.
fn finish_file(rt: &HostRuntime, store: LedgerFile) {
    let mut store = store;
    if let Err(error) = copy_log(&mut store) {
        let _ = eprintln!(rt;
            "tbpipe: all is committed, but the log isn't copied into the file, so keep both together: {error}"
        );
    }
}

/// Finishes the file of a ledger, if there is one, or returns what stopped the ledger.
fn finish(
    rt: &HostRuntime,
    stop: Option<RunFault>,
    store: Option<LedgerFile>,
) -> Result<(), RunFault> {
    match (stop, store) {
        (Some(stop), _) => Err(stop),
        (None, Some(store)) => {
            finish_file(rt, store);
            Ok(())
        }
        (None, None) => Ok(()),
    }
}

/// Prints what was made of a script that was committed to a file. Returns how the program ends. An output that fails then doesn't undo
/// what is committed.
fn print_journaled(
    rt: &HostRuntime,
    options: &Options,
    made: Journaled<LedgerFile>,
) -> Result<Ending, RunFault> {
    let (output, stop, store) = made.into_parts();
    let ending = print_output(rt, options, &output);
    let is_committed = output.faultless;
    drop(output);
    finish(rt, stop, store)?;
    match ending {
        Ending::Failed(ProgramFault::Write) if is_committed => Err(RunFault::WriteCommitted),
        Ending::Failed(ProgramFault::NoMemory) if is_committed => Err(RunFault::NoMemory),
        ending => Ok(ending),
    }
}

fn list(rt: &HostRuntime, options: &Options) -> Result<Ending, RunFault> {
    match &options.journal {
        Some(path) => print_journaled(rt, options, list_into(rt, path.as_str())?),
        None => Ok(print(rt, options, list_output(rt.alloc(), &mut rt.reader()))),
    }
}

fn run<T: Threads + Wait + Clock + Sync>(
    rt: &HostRuntime,
    threads: &T,
    options: &Options,
) -> Result<Ending, RunFault> {
    match &options.journal {
        Some(path) => print_journaled(rt, options, run_into(rt, threads, path.as_str())?),
        None => {
            let made = run_output(threads, rt.alloc(), &mut rt.reader());
            Ok(print_run(rt, options, made))
        }
    }
}

/// Prints the clock and the accounts of the ledger at a path.
fn print_ledger(rt: &HostRuntime, path: &FilePath) -> Result<Ending, RunFault> {
    let text = replay(rt, path.as_str())?;
    write_out(&mut io::writer(rt), &text)?;
    Ok(Ending::Done)
}

/// Prints the last line, says what is to be said, and returns the status.
fn end(rt: &HostRuntime, ending: Ending) -> ExitCode {
    let text = ending.text();
    let ending = match print!(rt; "{text}") {
        Ok(()) => ending,
        Err(_) => Ending::Failed(ProgramFault::Write),
    };
    let remark = ending.remark();
    if !remark.is_empty() {
        tell(rt, remark);
    }
    ExitCode::from(ending.status())
}

/// Ends after what was done with a ledger in the file at a path, or in memory if there is none. Returns the status.
fn end_with(rt: &HostRuntime, path: Option<&FilePath>, done: Result<Ending, RunFault>) -> ExitCode {
    match (done, path) {
        (Ok(ending), _) => end(rt, ending),
        (Err(fault), Some(path)) => {
            let path = path.as_str();
            let _ = eprintln!(rt; "tbpipe: {path}: {fault}");
            ExitCode::from(fault.status())
        }
        (Err(fault), None) => {
            let _ = eprintln!(rt; "tbpipe: {fault}");
            ExitCode::from(fault.status())
        }
    }
}

/// Does what the arguments ask for. Returns the status. Only `main` has a runtime with threads, so they come apart.
fn answer<T: Threads + Wait + Clock + Sync>(rt: &HostRuntime, threads: &T) -> ExitCode {
    match read_arguments(rt) {
        Ok(Request::List(options)) => end_with(rt, options.journal.as_ref(), list(rt, &options)),
        Ok(Request::Run(options)) => {
            end_with(rt, options.journal.as_ref(), run(rt, threads, &options))
        }
        Ok(Request::Replay(path)) => end_with(rt, Some(&path), print_ledger(rt, &path)),
        Ok(Request::Help) => end(rt, Ending::Help),
        Ok(Request::Version) => end(rt, Ending::Version),
        Ok(Request::Usage) => end(rt, Ending::Usage),
        Err(fault) => end(rt, Ending::Failed(fault)),
    }
}

fn main(rt: HostRuntime) -> ExitCode {
    answer(&rt, &rt)
}
