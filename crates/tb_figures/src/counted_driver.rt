//! A driver whose packets and replies are counted.

use crate::figures::{Figures, SubmitterFigures};
use std::alloc::{AllocError, Global};
use std::sync::Wait;
use std::time::{Clock, Instant};
use tb_drive::{Action, Driver};
use tb_work::{Refusal, Reply};

/// When a packet was queued, by its number.
#[derive(Clone, Copy)]
struct Queued {
    number: u64,
    moment: Instant,
}

/// When each packet in flight was queued, in a ring.
#[derive(Drop)]
struct Moments<R: Clock + Drop> {
    clock: R,
    queued: Vec<Option<Queued>>,
}

/// Returns the slot of a packet's number in a ring of this length; None if it has none.
fn slot(number: u64, length: usize) -> Option<usize> {
    if length == 0 {
        return None;
    }
    Some((number % length as u64) as usize)
}

impl<R: Clock + Drop> Moments<R> {
    /// Returns capacity for the moments of the packets that may be in flight.
    fn new(alloc: Global, clock: R, credit: usize) -> Result<Moments<R>, AllocError> {
        let mut queued = Vec::with_capacity(alloc, credit)?;
        for _ in 0..credit {
            queued.push(None)?;
        }
        Ok(Moments { clock, queued })
    }

    /// Keeps when a packet is queued.
    fn note(&mut self, number: u64) {
        let Ok(moment) = Instant::now(&self.clock) else {
            return;
        };
        if let Some(slot) = slot(number, self.queued.len()) {
            if let Some(queued) = self.queued.get_mut(slot) {
                *queued = Some(Queued { number, moment });
            }
        }
    }

    /// Returns how long ago a packet was queued, in nanoseconds; None if that isn't known.
    fn wait_of(&self, number: u64) -> Option<u64> {
        let slot = slot(number, self.queued.len())?;
        let queued = (*self.queued.get(slot)?)?;
        if queued.number != number {
            return None;
        }
        let now = Instant::now(&self.clock).ok()?;
        Some(u64::try_from(now.duration_since(queued.moment).as_nanos()).unwrap_or(u64::MAX))
    }
}

/// A driver that passes each call on, counts the packets that its submitter queues and the replies that it receives, and measures how
/// long replies take. Its relations are those of the driver.
pub struct CountedDriver<D: Driver, R: Clock + Drop> {
    driver: D,
    moments: Moments<R>,
    figures: Figures,
    submitter: usize,
    /// How many packets were queued, and replies received, in earlier runs.
    before: SubmitterFigures,
    /// How many replies it received.
    replied: u64,
    longest_wait: u64,
}

impl<D: Driver, R: Clock + Drop> Drop for CountedDriver<D, R> {
    /// Frees everything held in one call, so that no owner's proof repeats it.
    fn drop(self) {
        let CountedDriver {
            driver,
            moments,
            figures,
            submitter: _,
            before: _,
            replied: _,
            longest_wait: _,
        } = self;
        drop(driver);
        drop(moments);
        drop(figures);
    }
}

impl<D: Driver, R: Clock + Drop> CountedDriver<D, R> {
    ghost use Rattle.std.specs.Prelude.{◌≡◌, IfOk};

    /// Returns the driver, whose packets are counted as those of the submitter of this number. `clock` measures how long replies take;
    /// a clone of the runtime is one. Allocates 32 bytes for each packet that may be in flight (the credit given to `Figures::new`), and
    /// nothing later.
    ///
    /// # Errors
    ///
    /// `AllocError`, if memory runs out.
    pub fn new(
        alloc: Global,
        driver: D,
        clock: R,
        figures: Figures,
        submitter: usize,
    ) -> Result<CountedDriver<D, R>, AllocError>
        ensures { IfOk result (λ counted. counted.driver ≡ driver) }
    {
        let moments = Moments::new(alloc, clock, figures.credit())?;
        let before = figures.of_submitter(submitter);
        Ok(CountedDriver {
            driver,
            moments,
            figures,
            submitter,
            before,
            replied: 0,
            longest_wait: before.longest_wait,
        })
    }

    /// Returns the driver that is counted.
    pub fn driver(&self) -> &D
        ensures { result.now ≡ self.now.driver }
    {
        &self.driver
    }

    /// Returns the driver, which is counted no more.
    pub fn into_driver(self) -> D
        ensures { result ≡ self.driver }
    {
        let CountedDriver {
            driver,
            moments,
            figures,
            submitter: _,
            before: _,
            replied: _,
            longest_wait: _,
        } = self;
        drop(moments);
        drop(figures);
        driver
    }

    /// Counts a packet that is queued under a number. Those queued ahead of the driver's first have smaller numbers.
    fn count_queued(&mut self, number: u64)
        ensures { self.new.driver ≡ self.old.driver }
    {
        self.moments.note(number);
        let queued = self.before.queued.saturating_add(number).saturating_add(1);
        self.figures.store_queued(self.submitter, queued);
    }

    /// Counts the reply to the packet of a number.
    fn count_replied(&mut self, number: u64)
        ensures { self.new.driver ≡ self.old.driver }
    {
        if let Some(wait) = self.moments.wait_of(number) {
            if wait > self.longest_wait {
                self.longest_wait = wait;
                self.figures.store_longest_wait(self.submitter, wait);
            }
        }
        self.replied = self.replied.saturating_add(1);
        let replied = self.before.replied.saturating_add(self.replied);
        self.figures.store_replied(self.submitter, replied);
    }
}

impl<D: Driver, R: Clock + Drop> Driver for CountedDriver<D, R> {
    ghost has_seen = { λ counted limit queued read. D.has_seen counted.driver limit queued read };

    ghost has_asked = { λ counted packet limit queued read. D.has_asked counted.driver packet limit queued read };

    ghost has_ended = { λ counted limit queued read. D.has_ended counted.driver limit queued read };

    ghost share = { λ counted. D.share counted.driver };

    fn next<W: Wait>(&mut self, rt: &W, alloc: Global) -> Action {
        self.driver.next(rt, alloc)
    }

    fn submitted(&mut self, response: Result<u64, Refusal>) {
        if let Ok(number) = response {
            self.count_queued(number);
        }
        self.driver.submitted(response);
    }

    fn receive(&mut self, reply: Reply) {
        self.count_replied(reply.number);
        self.driver.receive(reply);
    }
}
