//! How the program ends.

ghost use Rattle.std.specs.Prelude.{◌≡◌};
ghost use Rattle.tb_program_text.specs.clauses.Ending.{ending_of, ending_of_run, remark_of, status_of, text_of};

use crate::program_fault::ProgramFault;

const HELP: &str =
    "usage: tbpipe list|run [--names] [--strict] [--journal FILE] < SCRIPT\n       tbpipe replay FILE\n\nCommits the packets of a script to a ledger, and prints the result of each. The ledger is in memory, or in a file.\n\n  list            in one thread\n  run             in a pipeline with a thread for each submitter\n  replay          prints the clock and the accounts of the ledger in a file\n  --journal FILE  commits to the ledger in a file, and continues it; the file is made if it isn't there\n  --names         prints the name of each failure's code after it, as 1:22:credit_account_not_found\n  --strict        ends with status 1 unless all is committed and no event failed, and says what isn't\n  --help          prints this\n  --version       prints the version, and in which logic it is proved\n\nScripts and output: docs/FORMATS.md; files: docs/DURABLE.md; tools/name-codes names the codes of a saved output. The exit\nstatus is 0, or 1 for a faulty script, other arguments or other settings than the file's, or 2 if the program failed.\n";

const VERSION: &str = "tbpipe 0.1.0\nlogic dac8208d650f15bf\n";

/// How the program ends, once what is to be written of a script is written.
#[derive(Drop)]
pub enum Ending {
    Done,
    FaultyScript,
    /// A packet or pulse was refused, an event failed, or a packet isn't committed, and none might.
    NotAllSucceeded,
    /// Memory ran out in a run. Its output says which packets aren't committed.
    NotAllCommitted,
    Help,
    Version,
    Usage,
    Failed(ProgramFault),
}

/// Returns how it ends after a script.
pub fn ending_of(outcome: Result<bool, ProgramFault>) -> Ending
    ensures { result ≡ ending_of outcome }
{
    match outcome {
        Ok(true) => Ending::Done,
        Ok(false) => Ending::FaultyScript,
        Err(fault) => Ending::Failed(fault),
    }
}

impl Ending {
    /// Returns how a run ends whose output is printed. If memory ran out in it, that isn't as if all were well.
    pub fn of_run(self, lacks_memory: bool) -> Ending
        ensures { result ≡ ending_of_run self lacks_memory }
    {
        match self {
            Ending::Done | Ending::NotAllSucceeded if lacks_memory => Ending::NotAllCommitted,
            ending => ending,
        }
    }

    /// Returns the exit status.
    pub fn status(&self) -> u8
        ensures { result ≡ status_of self.now }
    {
        match self {
            Ending::Done | Ending::Help | Ending::Version => 0,
            Ending::FaultyScript | Ending::NotAllSucceeded | Ending::Usage => 1,
            Ending::NotAllCommitted | Ending::Failed(_) => 2,
        }
    }

    /// Returns what is said on standard error, in one sentence: of what failed, and of arguments that ask for nothing. Of a fault in the script,
    /// and of what didn't succeed, nothing is said here, since the script has it.
    pub fn remark(&self) -> &'static str
        ensures { result.now ≡ remark_of self.now }
    {
        match self {
            Ending::Done
            | Ending::FaultyScript
            | Ending::NotAllSucceeded
            | Ending::Help
            | Ending::Version => "",
            Ending::Usage => {
                "give list or run, options after it, and the script on standard input, as in `tbpipe list < SCRIPT`, or replay and a file; --help says more"
            }
            Ending::NotAllCommitted => {
                "memory ran out: no packet whose line says stopped or refused is committed, and pulses may be left out"
            }
            Ending::Failed(ProgramFault::Read) => "standard input can't be read to its end",
            Ending::Failed(ProgramFault::Write) => {
                "standard output can't be written, so a part of the output is missing: is the disk full, or the pipe closed?"
            }
            Ending::Failed(ProgramFault::NoMemory) => "there isn't enough memory for this script",
            Ending::Failed(ProgramFault::NoThread) => "a thread couldn't be started",
        }
    }

    /// Returns what is printed last. Of a failed write nothing is, since nothing more can be written.
    pub fn text(&self) -> &'static str
        ensures { result.now ≡ text_of self.now }
    {
        match self {
            Ending::Done
            | Ending::FaultyScript
            | Ending::NotAllSucceeded
            | Ending::NotAllCommitted => "",
            Ending::Help => HELP,
            Ending::Version => VERSION,
            Ending::Usage => "usage: tbpipe list|run\n",
            Ending::Failed(ProgramFault::Read) => "fault read failed\n",
            Ending::Failed(ProgramFault::Write) => "",
            Ending::Failed(ProgramFault::NoMemory) => "fault no memory\n",
            Ending::Failed(ProgramFault::NoThread) => "fault no thread\n",
        }
    }
}
