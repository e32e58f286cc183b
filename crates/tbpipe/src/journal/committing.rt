//! A script's items through a front and a ledger in a file, and the lines of the output.

ghost use Rattle.std.specs.Prelude.{◌≤◌};

use crate::journal::Journaled;
use crate::journal::door::Door;
use crate::journal::fault::{RunFault, stop_of};
use sqlite_trees::store::Store;
use std::alloc::{AllocError, Global};
use tb_core::{Outcomes, Parcel};
use tb_demux::Cutter;
use tb_durable::{DurableLedger, OpenFault, Settings};
use tb_layout::{BATCH_MAX, MOMENT_MAX};
use tb_program::{Line, Output, operations_of, put_lines, put_state};
use tb_program_text::{ScriptItem, SubmitterNumber};
use tb_work::{Item, Job, Moment, Outcome, Packet, Refusal, Reply};

/// A ledger and the front before it, with the lines so far.
pub(crate) struct Committing<S: Store> {
    alloc: Global,
    ledger: DurableLedger<S>,
    door: Door,
    settings: Settings,
    numbers: [u64; 16],
    lines: Vec<Line>,
    replies: Vec<Reply>,
    /// Whether a packet came back as stopped: memory ran out in the front, which passes no pulse on from then on.
    is_refused: bool,
}

impl<S: Store + Drop> Drop for Committing<S> {
    fn drop(self) {
        let Committing {
            alloc: _,
            ledger,
            door,
            settings: _,
            numbers: _,
            lines,
            replies,
            is_refused: _,
        } = self;
        drop(ledger);
        drop(door);
        drop(lines);
        drop(replies);
    }
}

/// Puts all replies that a cutter gives after the others.
fn put_all(cutter: &mut Cutter, replies: &mut Vec<Reply>) -> Result<(), AllocError> {
    for _ in 0..u64::MAX {
        let Some(reply) = cutter.next() else {
            break;
        };
        replies.push(reply)?;
    }
    Ok(())
}

impl<S: Store + Drop> Committing<S> {
    /// Begins with a ledger and a front that took nothing.
    pub(crate) fn over(alloc: Global, ledger: DurableLedger<S>) -> Result<Committing<S>, RunFault> {
        let settings = ledger.settings();
        let numbers = ledger.numbers();
        let Ok(door) = Door::new(alloc, settings.limit, settings.submitters) else {
            drop(ledger);
            return Err(RunFault::Open(OpenFault::BadSettings));
        };
        Ok(Committing {
            alloc,
            ledger,
            door,
            settings,
            numbers,
            lines: Vec::new(alloc),
            replies: Vec::new(alloc),
            is_refused: false,
        })
    }

    /// Applies a parcel, and keeps the replies.
    fn apply(&mut self, parcel: Parcel) -> Result<(), AllocError> {
        match self.ledger.apply(parcel) {
            Outcomes::Cut(mut cutter) => {
                let put = put_all(&mut cutter, &mut self.replies);
                drop(cutter);
                put
            }
            Outcomes::One(reply) => {
                self.is_refused |= matches!(reply.outcome, Outcome::Stopped);
                Ok(self.replies.push(reply)?)
            }
            Outcomes::Nothing | Outcomes::Last => Ok(()),
        }
    }

    /// Takes an item through the front, and applies what it yields.
    fn pass(&mut self, sender: u32, item: Item) -> Result<(), AllocError> {
        let mut parcels = self.door.take(sender, item);
        for _ in 0..2 {
            let Some(parcel) = parcels.pop_at(0) else {
                break;
            };
            self.apply(parcel)?;
        }
        Ok(())
    }

    /// Queues a packet with its submitter's next number, or notes why it is refused.
    fn packet(&mut self, submitter: SubmitterNumber, packet: Packet) -> Result<(), RunFault> {
        let sender = submitter.get();
        if sender >= self.settings.submitters {
            drop(packet);
            self.lines
                .push(Line::RefusedPacket(submitter, Refusal::BadSubmitters))?;
            return Ok(());
        }
        let number = self.numbers[sender as usize];
        let limit = self.settings.limit.min(BATCH_MAX);
        match Job::new(self.alloc, sender, number, limit, packet) {
            Ok(job) => {
                self.numbers[sender as usize] = number.saturating_add(1);
                self.lines.push(Line::Packet)?;
                self.pass(sender, Item::Packet(job))?;
            }
            Err((_packet, Refusal::NoMemory)) => return Err(RunFault::NoMemory),
            Err((_packet, refusal)) => self.lines.push(Line::RefusedPacket(submitter, refusal))?,
        }
        Ok(())
    }

    /// Queues a pulse, or notes that its moment is too large. Of one that isn't committed there is no line.
    fn pulse(&mut self, moment: u64) -> Result<(), RunFault> {
        if moment > MOMENT_MAX {
            self.lines.push(Line::RefusedPulse)?;
            return Ok(());
        }
        self.pass(self.settings.submitters, Item::Pulse(Moment::new(moment)))?;
        if !self.ledger.stopped() && !self.is_refused {
            self.lines
                .push(Line::Pulse(self.ledger.places().saturating_sub(1)))?;
        }
        Ok(())
    }

    fn take(&mut self, item: ScriptItem) -> Result<(), RunFault> {
        match item {
            ScriptItem::Packet(submitter, packet) => self.packet(submitter, packet),
            ScriptItem::Pulse(moment) => self.pulse(moment),
            ScriptItem::Shut => {
                self.lines.push(Line::Shut)?;
                Ok(self.pass(self.settings.submitters, Item::Close)?)
            }
        }
    }

    /// Returns the lines, and then the clock and the accounts.
    fn text(&self) -> Result<String, AllocError> {
        let mut out = String::new(self.alloc);
        put_lines(&mut out, &self.lines, &self.replies)?;
        put_state(&mut out, self.ledger.machine())?;
        Ok(out)
    }

    /// Returns why not all that was queued is committed, apart from packets behind a Close.
    fn stop(&self) -> Option<RunFault> {
        match stop_of(&self.ledger) {
            None if self.is_refused => Some(RunFault::NoMemory),
            stop => stop,
        }
    }

    /// Takes all items and commits what is held at last.
    pub(crate) fn commit_all(mut self, items: Vec<ScriptItem>) -> Result<Journaled<S>, RunFault> {
        let operations = operations_of(self.alloc, &items)?;
        for item in items {
            self.take(item)?;
        }
        if let Some(batch) = self.door.idle() {
            self.apply(Parcel::Batch(batch))?;
        }
        let output = Output {
            text: self.text()?,
            faultless: true,
            remark: String::new(self.alloc),
            operations,
            lacks_memory: false,
        };
        let stop = self.stop();
        Ok(Journaled {
            output,
            stop,
            store: Some(self.into_store()),
        })
    }

    /// Returns the ledger's store.
    fn into_store(self) -> S {
        let Committing {
            alloc: _,
            ledger,
            door,
            settings: _,
            numbers: _,
            lines,
            replies,
            is_refused: _,
        } = self;
        drop(door);
        drop(lines);
        drop(replies);
        ledger.into_store()
    }
}
