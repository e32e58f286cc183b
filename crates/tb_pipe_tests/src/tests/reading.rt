//! A driver whose relations use that no more replies are read than packets were queued.

ghost use Rattle.std.specs.Prelude.{◌≡◌, IfSome, true};
ghost use Rattle.tb_pipe_tests.specs.clauses.Reading.{HaveReadAll};
ghost use Rattle.tb_submit.specs.clauses.Ends.{SenderState};

use super::packet_of;
use std::alloc::Global;
use std::sync::Wait;
use std::thread::Threads;
use std::time::Clock;
use tb_drive::{Action, ControlPlan, Driver, PlanDriver};
use tb_layout::CREATE_ACCOUNTS;
use tb_pipe::{Finished, drive_all, open};
use tb_test_makers::check;
use tb_work::{Refusal, Reply};

/// Submits packets without waiting between them, and then reads a reply for each of them.
#[derive(Drop)]
struct Reader {
    /// How many packets it is still to submit.
    packets: u32,
    unread: u64,
    /// Whether its count is exact: no allocation failed, and the count didn't pass 2^64 - 1.
    exact: bool,
}

impl Reader {
    fn new(packets: u32) -> Reader
        ensures { result.unread ≡ 0 }
    {
        Reader {
            packets,
            unread: 0,
            exact: true,
        }
    }
}

impl Driver for Reader {
    ghost use Rattle.std.specs.Prelude.{◌≡◌, true};
    ghost use Rattle.tb_pipe_tests.specs.clauses.Reading.{HasRead, HasReadAll};

    ghost has_seen = { λ reader _ queued read. HasRead (reader.exact ≡ true) reader.unread queued read };

    ghost has_asked = { λ reader _ _ queued read. HasRead (reader.exact ≡ true) reader.unread queued read };

    ghost has_ended = { λ reader _ queued read. HasReadAll (reader.exact ≡ true) queued read };

    fn next<R: Wait>(&mut self, _rt: &R, alloc: Global) -> Action {
        if self.packets == 0 {
            return if self.exact && self.unread > 0 {
                Action::Receive
            } else {
                Action::End
            };
        }
        self.packets -= 1;
        match packet_of(alloc, CREATE_ACCOUNTS, 0, 0) {
            Ok(packet) => Action::Submit(packet),
            Err(_) => {
                self.exact = false;
                Action::End
            }
        }
    }

    fn submitted(&mut self, response: Result<u64, Refusal>) {
        if response.is_ok() {
            match self.unread.checked_add(1) {
                Some(unread) => self.unread = unread,
                None => self.exact = false,
            }
        }
    }

    fn receive(&mut self, _reply: Reply) {
        self.unread = self.unread.saturating_sub(1);
    }
}

/// Runs one reader over a queue of 8 slots, with a credit of 4. None if the run is given up.
fn run_reader<R: Threads + Wait + Clock + Sync>(
    rt: &R,
    alloc: Global,
    reader: Reader,
) -> Option<Finished<Reader, PlanDriver>>
    requires { reader.unread ≡ 0 }
    ensures { IfSome result (λ finished. (control : SenderState) × HaveReadAll (λ reader. reader.exact ≡ true)
        finished.drivers.items finished.unsettled.value.items control finished.report.ends.items) }
{
    let Ok(opened) = open(alloc, 0, 4, 8, 4, 1) else {
        return None;
    };
    let readers = vec![in alloc; reader].ok()?;
    let control = ControlPlan::none(alloc).driver();
    match drive_all(rt, alloc, opened, readers, control) {
        Ok(finished) => Some(finished),
        Err(_) => None,
    }
}

#[test]
fn reader_reads_all_replies(rt: HostRuntime) {
    let finished = run_reader(&rt, rt.alloc(), Reader::new(50));
    let mut finished = finished.expect(&rt, "the run isn't given up");
    let reader = finished.drivers.get(0).expect(&rt, "a driver");
    check!(&rt; reader.exact && reader.unread == 0 && reader.packets == 0);
    let ended = finished.report.ends.get_mut(0).expect(&rt, "an end");
    check!(&rt; ended.reply().is_none());
    drop(finished);
}
