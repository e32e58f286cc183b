//! Submitters that wait: one for input, the others for its end.

use crate::pipeline::driver::LoadDriver;
use crate::pipeline::events::transfers;
use crossbeam_utils::sync::EventCount;
use std::alloc::Global;
use std::io::{Read, Write};
use std::sync::Wait;
use std::sync::atomic::{AtomicBool, Ordering};
use tb_drive::{Action, Driver};
use tb_work::{Packet, Refusal, Reply};

/// Whether the input has ended.
#[derive(Drop)]
pub(crate) struct Over {
    ended: AtomicBool,
    waits: EventCount,
}

impl Over {
    /// Returns a flag that isn't set: the input hasn't ended.
    pub(crate) const fn new() -> Over {
        Over {
            ended: AtomicBool::new(false),
            waits: EventCount::new(),
        }
    }

    fn end(&self) {
        self.ended.store(true, Ordering::SeqCst);
        self.waits.notify_all();
    }

    fn is_ended(&self) -> bool {
        self.ended.load(Ordering::SeqCst)
    }

    /// Sleeps until the input has ended.
    fn wait<R: Wait>(&self, rt: &R) {
        let key = self.waits.prepare_wait();
        if self.is_ended() {
            drop(key);
        } else {
            key.wait(rt);
        }
    }
}

/// Sends a packet of one event for each byte of its input, and writes a byte once it has the reply.
#[derive(Drop)]
pub(crate) struct Echo<I, O> {
    input: I,
    output: O,
    sent: u64,
    replies: u64,
}

impl<I: Read + Drop, O: Write + Drop> Echo<I, O> {
    /// Returns a driver that has sent nothing.
    pub(crate) fn new(input: I, output: O) -> Echo<I, O> {
        Echo {
            input,
            output,
            sent: 0,
            replies: 0,
        }
    }

    /// Returns the packet for the next byte; None once the input has ended.
    fn packet(&mut self, alloc: Global) -> Option<Packet> {
        let mut byte = [0u8; 1];
        match self.input.read(&mut byte) {
            Ok(1) => {
                self.sent = self.sent.wrapping_add(1);
                transfers(alloc, 0, self.sent, 1).ok()
            }
            _ => None,
        }
    }

    /// Returns the next action; None once the input has ended.
    fn action(&mut self, alloc: Global) -> Option<Action> {
        if self.replies < self.sent {
            return Some(Action::Receive);
        }
        self.packet(alloc).map(Action::Submit)
    }

    fn answer(&mut self) {
        self.replies = self.replies.wrapping_add(1);
        let _ = self.output.write_all(b".");
        let _ = self.output.flush();
    }
}

/// What a submitter does until the input has ended.
#[derive(Drop)]
pub(crate) enum Party<'a, I, O> {
    Echoes(Echo<I, O>, &'a Over),
    Loads(LoadDriver, &'a Over),
    Sleeps(&'a Over),
}

impl<'a, I: Read + Drop, O: Write + Drop> Driver for Party<'a, I, O> {
    fn next<R: Wait>(&mut self, rt: &R, alloc: Global) -> Action {
        match self {
            Party::Echoes(echo, over) => echo.action(alloc).unwrap_or_else(|| {
                over.end();
                Action::End
            }),
            Party::Loads(driver, over) => {
                if over.is_ended() {
                    driver.finish();
                }
                driver.next(rt, alloc)
            }
            Party::Sleeps(over) => {
                over.wait(rt);
                Action::End
            }
        }
    }

    fn submitted(&mut self, response: Result<u64, Refusal>) {
        if let Party::Loads(driver, _) = self {
            driver.submitted(response);
        }
    }

    fn receive(&mut self, reply: Reply) {
        match self {
            Party::Echoes(echo, _) => echo.answer(),
            Party::Loads(driver, _) => driver.receive(reply),
            Party::Sleeps(_) => {}
        }
    }
}
