//! Figures of runs: at their end what the report says, and before it numbers that only rise.

use crate::tests::run_over;
use std::alloc::Global;
use std::process::Abort;
use std::sync::Wait;
use std::sync::atomic::{AtomicBool, AtomicU64, Ordering};
use std::thread::Threads;
use std::time::{Clock, Duration};
use std::{io, thread};
use tb_core::{AnyLedger, BareLedger, Ledger, Parcel, Seed};
use tb_drive::{Action, ControlPlan, Driver};
use tb_figures::{CountedDriver, CountedLedger, Figures, FiguresRead, SubmitterFigures};
use tb_layout::CREATE_ACCOUNTS;
use tb_pipe::{Finished, Report};
use tb_test_makers::{account, accounts_packet, check, job};
use tb_work::{Moment, Outcome, Refusal, Reply};

const SENDERS: u32 = 16;

/// How many packets each sender queues, each of two events.
const PACKETS: u64 = 2000;

const CREDIT: u32 = 8;

/// How many pulses the control queues.
const PULSES: usize = 300;

/// A clock that is a microsecond later at each reading.
#[derive(Drop)]
struct Ticks {
    now: AtomicU64,
}

impl Ticks {
    fn new() -> Ticks {
        Ticks {
            now: AtomicU64::new(0),
        }
    }
}

impl Clock for Ticks {
    fn monotonic(&self) -> io::Result<Duration> {
        Ok(Duration::from_micros(self.now.fetch_add(1, Ordering::SeqCst)))
    }

    fn since_1970(&self) -> io::Result<Duration> {
        self.monotonic()
    }
}

/// Queues packets of two accounts without waiting between them, and then reads all replies.
#[derive(Drop)]
struct Sender {
    left: u64,
    unread: u64,
}

impl Driver for Sender {
    fn next<R: Wait>(&mut self, _rt: &R, alloc: Global) -> Action {
        if self.left == 0 {
            return if self.unread > 0 {
                Action::Receive
            } else {
                Action::End
            };
        }
        self.left -= 1;
        accounts_packet(alloc, &[account(1, 0), account(2, 0)]).map_or(Action::End, Action::Submit)
    }

    fn submitted(&mut self, response: Result<u64, Refusal>) {
        if response.is_ok() {
            self.unread = self.unread.saturating_add(1);
        }
    }

    fn receive(&mut self, _reply: Reply) {
        self.unread = self.unread.saturating_sub(1);
    }
}

fn another(rt: &impl Abort, figures: &Figures) -> Figures {
    figures.clone().ok().expect(rt, "another owner")
}

/// Returns a counted driver for each submitter.
fn senders(rt: &impl Abort, alloc: Global, figures: &Figures) -> Vec<CountedDriver<Sender, Ticks>> {
    let mut senders = Vec::new(alloc);
    for submitter in 0..SENDERS as usize {
        let sender = Sender {
            left: PACKETS,
            unread: 0,
        };
        let counted = CountedDriver::new(
            alloc,
            sender,
            Ticks::new(),
            another(rt, figures),
            submitter,
        );
        senders
            .push(counted.ok().expect(rt, "memory"))
            .expect(rt, "memory");
    }
    senders
}

/// Runs the senders over a ledger, with pulses, and returns it.
fn run_senders<R: Threads + Wait + Clock + Sync + Abort, L: AnyLedger + Send>(
    rt: &R,
    alloc: Global,
    figures: &Figures,
    ledger: CountedLedger<L>,
) -> CountedLedger<L> {
    let senders = senders(rt, alloc, figures);
    check!(rt; senders.len() == 16);
    let mut control = ControlPlan::none(alloc);
    control.moments.resize(PULSES, 1).expect(rt, "memory");
    let sizes = (64, 32, CREDIT);
    let finished = run_over(rt, alloc, sizes, ledger, senders, control.driver());
    let Finished { report, .. } = finished;
    let Report { ledger, .. } = report;
    ledger
}

/// Returns whether no number is above the one in its place.
fn are_at_most(numbers: &[u64], most: &[u64]) -> bool {
    for (number, most) in numbers.iter().zip(most) {
        if number > most {
            return false;
        }
    }
    true
}

/// Returns whether no number of a submitter is below what was read before, and none above what is queued.
fn rose(before: &SubmitterFigures, now: &SubmitterFigures) -> bool {
    let wait = now.longest_wait;
    are_at_most(
        &[
            before.queued,
            before.replied,
            before.committed,
            before.longest_wait,
            now.replied,
            now.committed,
        ],
        &[
            now.queued,
            now.replied,
            now.committed,
            wait,
            now.queued,
            now.queued,
        ],
    )
}

/// Returns what is committed: batches, pulses, packets and events.
fn committed(read: &FiguresRead) -> [u64; 4] {
    [read.batches, read.pulses, read.packets, read.events]
}

/// Reads figures until the run is done. Ends the test unless they only rise, and returns what was read last.
fn watch<R: Abort>(rt: &R, figures: &Figures, is_done: &AtomicBool) -> FiguresRead {
    let mut before = figures.read();
    for _ in 0..u64::MAX {
        if is_done.load(Ordering::SeqCst) {
            return figures.read();
        }
        let now = figures.read();
        for (before, now) in before.submitters.iter().zip(now.submitters.iter()) {
            check!(rt; rose(before, now));
        }
        check!(rt; rose(&before.total, &now.total));
        check!(rt; are_at_most(&committed(&before), &committed(&now)));
        check!(rt; now.packets <= now.total.queued);
        before = now;
        thread::yield_now();
    }
    before
}

/// Runs the senders over a ledger while another thread reads figures. Returns the ledger, and what was read last.
fn run_watched<R: Threads + Wait + Clock + Sync + Abort, L: AnyLedger + Send>(
    rt: &R,
    alloc: Global,
    figures: &Figures,
    ledger: CountedLedger<L>,
) -> (CountedLedger<L>, FiguresRead) {
    let is_done = AtomicBool::new(false);
    let is_done = &is_done;
    let (read, ledger) = thread::join(
        rt,
        move || watch(rt, figures, is_done),
        || {
            let ledger = run_senders(rt, alloc, figures, ledger);
            is_done.store(true, Ordering::SeqCst);
            ledger
        },
    );
    (ledger, read)
}

/// Asserts that the figures are those of this number of runs, and that the counts are the same.
fn assert_figures<L: AnyLedger>(
    rt: &impl Abort,
    ledger: &CountedLedger<L>,
    read: &FiguresRead,
    runs: u64,
) {
    let counts = ledger.counts();
    let each = PACKETS.saturating_mul(runs);
    let packets = each.saturating_mul(u64::from(SENDERS));
    let pulses = runs.saturating_mul(PULSES as u64);
    let events = packets.saturating_mul(2);
    let counted = [counts.batches, counts.pulses, counts.packets, counts.events];
    check!(rt; counted == [counts.batches, pulses, packets, events]);
    check!(rt; committed(read) == counted && counts.batches <= packets);
    for (counted, one) in counts.submitters.iter().zip(read.submitters.iter()) {
        check!(rt; [*counted, one.committed, one.queued, one.replied] == [each; 4]);
        check!(rt; one.in_flight() == 0 && one.uncommitted() == 0);
        check!(rt; 0 < one.longest_wait && one.longest_wait <= u64::from(CREDIT) * 2000);
    }
    check!(rt; (read.total.queued, read.total.replied) == (packets, packets));
}

/// Runs the senders twice over a ledger.
fn run_twice<R: Threads + Wait + Clock + Sync + Abort, L: AnyLedger + Send>(
    rt: &R,
    alloc: Global,
    ledger: L,
) -> L {
    let figures = Figures::new(alloc, SENDERS, CREDIT)
        .ok()
        .expect(rt, "memory");
    let counted = CountedLedger::over(ledger, another(rt, &figures));
    let (counted, read) = run_watched(rt, alloc, &figures, counted);
    assert_figures(rt, &counted, &read, 1);
    let (counted, read) = run_watched(rt, alloc, &figures, counted);
    assert_figures(rt, &counted, &read, 2);
    counted.into_ledger()
}

/// Each run has 32,000 packets and 300 pulses. A wait of a packet is at most as many readings of its submitter's clock as its credit
/// lets others be queued and answered meanwhile.
#[test]
fn sixteen_submitters_are_counted_while_they_run(rt: HostRuntime) {
    let ledger = run_twice(&rt, rt.alloc(), Ledger::new(rt.alloc(), 0));
    check!(&rt; ledger.places() == 64_600);
    check!(&rt; ledger.journal().len() as u64 <= 64_600);
    drop(ledger);
}

#[test]
fn a_bare_ledger_is_counted_while_it_runs(rt: HostRuntime) {
    let ledger = BareLedger::with_seed(rt.alloc(), 0, Seed::default());
    let ledger = run_twice(&rt, rt.alloc(), ledger);
    check!(&rt; ledger.places() == 64_600);
    drop(ledger);
}

/// A ledger that had a pulse before is counted from then on. One that has stopped commits nothing, and nothing is counted.
#[test]
fn what_is_stopped_is_not_counted(rt: HostRuntime) {
    let figures = Figures::new(rt.alloc(), 1, 4).ok().expect(&rt, "memory");
    let mut ledger = Ledger::new(rt.alloc(), 0);
    drop(ledger.apply(Parcel::Pulse(Moment::new(1))));
    let mut counted = CountedLedger::over(ledger, another(&rt, &figures));
    check!(&rt; counted.counts().pulses == 0);
    drop(AnyLedger::apply(&mut counted, Parcel::Pulse(Moment::new(2))));
    check!(&rt; counted.counts().pulses == 1 && figures.read().pulses == 1);
    let mut ledger = counted.into_ledger();
    drop(ledger.apply_as_refused(Parcel::Pulse(Moment::new(3))));
    let mut counted = CountedLedger::over(ledger, another(&rt, &figures));
    check!(&rt; AnyLedger::stopped(&counted));
    drop(AnyLedger::apply(&mut counted, Parcel::Pulse(Moment::new(4))));
    check!(&rt; counted.counts().pulses == 0 && counted.counts().packets == 0);
    drop(counted);
}

/// Returns the reply to a packet with this number.
fn reply_to(rt: &impl Abort, alloc: Global, number: u64) -> Reply {
    let packet = accounts_packet(alloc, &[]).expect(rt, "memory");
    let job = job(alloc, 0, number, packet).ok().expect(rt, "a job");
    Reply::of(job, Outcome::Shutdown)
}

/// Three packets were queued ahead, so the driver's first has number 3. Its two packets are queued at 0 and 1 us. The replies to those
/// ahead read no clock. The other two come at 2 and 3 us.
#[test]
fn waits_are_from_queueing_to_the_reply(rt: HostRuntime) {
    let alloc = rt.alloc();
    let figures = Figures::new(alloc, 1, 4).ok().expect(&rt, "memory");
    let sender = Sender { left: 0, unread: 0 };
    let mut counted = CountedDriver::new(alloc, sender, Ticks::new(), another(&rt, &figures), 0)
        .ok()
        .expect(&rt, "memory");
    counted.submitted(Ok(3));
    counted.submitted(Err(Refusal::TooMuchData));
    counted.submitted(Ok(4));
    check!(&rt; figures.of_submitter(0).queued == 5);
    for number in 0..3 {
        counted.receive(reply_to(&rt, alloc, number));
    }
    check!(&rt; figures.of_submitter(0).in_flight() == 2);
    check!(&rt; figures.of_submitter(0).longest_wait == 0);
    counted.receive(reply_to(&rt, alloc, 3));
    check!(&rt; figures.of_submitter(0).longest_wait == 2000);
    counted.receive(reply_to(&rt, alloc, 4));
    check!(&rt; figures.of_submitter(0).longest_wait == 2000);
    check!(&rt; figures.read().total.replied == 5);
    check!(&rt; counted.into_driver().unread == 0);
}

/// The line is for people.
#[test]
fn figures_are_shown_in_a_line(rt: HostRuntime) {
    let mut read = FiguresRead {
        batches: 1,
        pulses: 2,
        packets: 3,
        events: 4,
        ..FiguresRead::default()
    };
    read.total = SubmitterFigures {
        queued: 6,
        replied: 5,
        committed: 3,
        longest_wait: 7999,
    };
    let wanted =
        "batches 1, pulses 2, packets 3, events 4, queued 6, in flight 1, longest wait 7 us";
    check!(&rt; format!(in rt.alloc(); "{read}").expect(&rt, "memory").as_str() == wanted);
}
