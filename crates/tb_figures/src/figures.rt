//! What threads may read of a pipeline that runs.

ghost use Rattle.std.specs.Prelude.{◌≡◌, ◌+◌, ◌-◌, max, IfOk};
ghost use Rattle.tb_figures.specs.clauses.Counts.{capped};

use crate::counts::Counts;
use std::alloc::{AllocError, Global};
use std::fmt;
use std::fmt::{Display, Formatter};
use std::sync::Arc;
use std::sync::atomic::{AtomicU64, Ordering};
use tb_layout::{SUBMITTERS_LENGTH, SUBMITTERS_MAX};

/// What is stored of one submitter.
#[derive(Drop)]
struct SubmitterCells {
    queued: AtomicU64,
    replied: AtomicU64,
    committed: AtomicU64,
    longest_wait: AtomicU64,
}

impl SubmitterCells {
    fn new() -> SubmitterCells {
        SubmitterCells {
            queued: AtomicU64::new(0),
            replied: AtomicU64::new(0),
            committed: AtomicU64::new(0),
            longest_wait: AtomicU64::new(0),
        }
    }

    /// Returns what is stored. What is counted first is read first, so that nothing is read as replied before it is queued.
    fn read(&self) -> SubmitterFigures {
        let longest_wait = self.longest_wait.load(Ordering::SeqCst);
        let replied = self.replied.load(Ordering::SeqCst);
        let committed = self.committed.load(Ordering::SeqCst);
        let queued = self.queued.load(Ordering::SeqCst);
        SubmitterFigures {
            queued: queued.max(committed).max(replied),
            replied,
            committed,
            longest_wait,
        }
    }
}

/// What is stored of a pipeline.
#[derive(Drop)]
struct Cells {
    batches: AtomicU64,
    pulses: AtomicU64,
    packets: AtomicU64,
    events: AtomicU64,
    submitters: Vec<SubmitterCells>,
}

/// What is counted of one submitter.
#[derive(Clone, Copy, Debug, Default, PartialEq, Eq)]
pub struct SubmitterFigures {
    /// How many of its packets are queued, those with replies too. A packet that is committed before its driver knows that it is
    /// queued counts as queued.
    pub queued: u64,
    /// How many replies its driver received.
    pub replied: u64,
    /// How many of its packets are committed.
    pub committed: u64,
    /// The longest time from a packet's queueing to its reply's arrival at the driver, in nanoseconds.
    pub longest_wait: u64,
}

impl SubmitterFigures {
    /// Returns how many packets are queued and their replies not received by the driver. A reply that stays in the submitter's end is
    /// never received, so its packet counts from then on.
    pub fn in_flight(&self) -> u64
        ensures { result ≡ self.now.queued - self.now.replied }
    {
        self.queued.saturating_sub(self.replied)
    }

    /// Returns how many queued packets aren't committed.
    pub fn uncommitted(&self) -> u64
        ensures { result ≡ self.now.queued - self.now.committed }
    {
        self.queued.saturating_sub(self.committed)
    }

    /// Returns the figures of both together: each number is a sum, and the wait the longer one. A sum stays at 2^64 - 1.
    fn and(&self, other: SubmitterFigures) -> SubmitterFigures
        ensures queued { result.queued ≡ capped (self.now.queued + other.queued) }
        ensures replied { result.replied ≡ capped (self.now.replied + other.replied) }
        ensures committed { result.committed ≡ capped (self.now.committed + other.committed) }
        ensures longest_wait { result.longest_wait ≡ max self.now.longest_wait other.longest_wait }
    {
        SubmitterFigures {
            queued: self.queued.saturating_add(other.queued),
            replied: self.replied.saturating_add(other.replied),
            committed: self.committed.saturating_add(other.committed),
            longest_wait: self.longest_wait.max(other.longest_wait),
        }
    }
}

/// What was read of a pipeline.
#[derive(Clone, Copy, Debug, Default, PartialEq, Eq)]
pub struct FiguresRead {
    /// How many batches are committed.
    pub batches: u64,
    /// How many pulses are committed.
    pub pulses: u64,
    /// How many packets are committed.
    pub packets: u64,
    /// How many events the committed packets have.
    pub events: u64,
    /// What is counted of each submitter, by its number; zeros for a number that no submitter has.
    pub submitters: [SubmitterFigures; SUBMITTERS_LENGTH],
    /// What is counted of all submitters: sums, and the longest wait.
    pub total: SubmitterFigures,
}

impl Display for FiguresRead {
    /// Writes one line: what is committed, what is on its way, and the longest wait.
    fn fmt<W: fmt::Write>(&self, f: &mut Formatter<W>) -> fmt::Result {
        let (batches, pulses, packets, events) = (
            self.batches,
            self.pulses,
            self.packets,
            self.events,
        );
        write!(
            f,
            "batches {batches}, pulses {pulses}, packets {packets}, events {events}"
        )?;
        let (queued, in_flight, wait) = (
            self.total.queued,
            self.total.in_flight(),
            self.total.longest_wait / 1000,
        );
        write!(
            f,
            ", queued {queued}, in flight {in_flight}, longest wait {wait} us"
        )
    }
}

/// What a pipeline's counted ledger and drivers counted, for any thread to read while it runs. A clone is of the same.
pub struct Figures {
    cells: Arc<Cells, Global>,
    credit: u32,
}

impl Drop for Figures {
    /// Frees everything held in one call, so that no owner's proof repeats it.
    fn drop(self) {
        let Figures { cells, credit: _ } = self;
        drop(cells);
    }
}

impl Clone for Figures {
    fn clone(&self) -> Result<Figures, AllocError> {
        Ok(Figures {
            cells: Arc::try_clone(&self.cells)?,
            credit: self.credit,
        })
    }
}

/// Returns the cells of this number of submitters.
fn submitter_cells(alloc: Global, submitters: u32) -> Result<Vec<SubmitterCells>, AllocError> {
    let mut cells = Vec::new(alloc);
    for _ in 0..submitters {
        cells.push(SubmitterCells::new())?;
    }
    Ok(cells)
}

impl Figures {
    /// Returns figures of a pipeline that is opened with this number of submitters, at most 16, and this credit. All are 0. Allocates 32
    /// bytes for each submitter. They are of one counted ledger, and of its drivers in run after run.
    ///
    /// # Errors
    ///
    /// `AllocError`, if memory runs out.
    pub fn new(alloc: Global, submitters: u32, credit: u32) -> Result<Figures, AllocError>
        ensures { IfOk result (λ figures. figures.credit ≡ credit) }
    {
        let submitters = submitter_cells(alloc, submitters.min(SUBMITTERS_MAX))?;
        let cells = Cells {
            batches: AtomicU64::new(0),
            pulses: AtomicU64::new(0),
            packets: AtomicU64::new(0),
            events: AtomicU64::new(0),
            submitters,
        };
        Ok(Figures {
            cells: Arc::new(alloc, cells)?,
            credit,
        })
    }

    /// Returns how many packets of a submitter may be in flight.
    pub(crate) fn credit(&self) -> usize
        ensures { result ≡ self.now.credit }
    {
        self.credit as usize
    }

    /// Returns what is counted up to now. Costs some 70 atomic loads, and slows no other thread down.
    pub fn read(&self) -> FiguresRead {
        let mut total = SubmitterFigures::default();
        let mut read = FiguresRead {
            batches: self.cells.batches.load(Ordering::SeqCst),
            pulses: self.cells.pulses.load(Ordering::SeqCst),
            packets: self.cells.packets.load(Ordering::SeqCst),
            events: self.cells.events.load(Ordering::SeqCst),
            ..FiguresRead::default()
        };
        for (cells, one) in self.cells.submitters.iter().zip(read.submitters.iter_mut()) {
            let figures = cells.read();
            total = total.and(figures);
            *one = figures;
        }
        read.total = total;
        read
    }

    /// Returns what is counted of one submitter up to now; zeros for a number that no submitter has.
    pub fn of_submitter(&self, submitter: usize) -> SubmitterFigures {
        match self.cells.submitters.get(submitter) {
            Some(cells) => cells.read(),
            None => SubmitterFigures::default(),
        }
    }

    /// Stores what a ledger counted. A load costs less than a store, so what is the same isn't stored again.
    pub(crate) fn store(&self, counts: &Counts) {
        for (cells, committed) in self.cells.submitters.iter().zip(counts.submitters.iter()) {
            if cells.committed.load(Ordering::SeqCst) != *committed {
                cells.committed.store(*committed, Ordering::SeqCst);
            }
        }
        self.cells.batches.store(counts.batches, Ordering::SeqCst);
        self.cells.pulses.store(counts.pulses, Ordering::SeqCst);
        self.cells.events.store(counts.events, Ordering::SeqCst);
        self.cells.packets.store(counts.packets, Ordering::SeqCst);
    }

    /// Stores how many packets a submitter has queued.
    pub(crate) fn store_queued(&self, submitter: usize, queued: u64) {
        if let Some(cells) = self.cells.submitters.get(submitter) {
            cells.queued.store(queued, Ordering::SeqCst);
        }
    }

    /// Stores how many replies a submitter's driver received.
    pub(crate) fn store_replied(&self, submitter: usize, replied: u64) {
        if let Some(cells) = self.cells.submitters.get(submitter) {
            cells.replied.store(replied, Ordering::SeqCst);
        }
    }

    /// Stores a submitter's longest wait.
    pub(crate) fn store_longest_wait(&self, submitter: usize, wait: u64) {
        if let Some(cells) = self.cells.submitters.get(submitter) {
            cells.longest_wait.store(wait, Ordering::SeqCst);
        }
    }
}
