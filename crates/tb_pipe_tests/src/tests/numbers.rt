//! Runs with each number of submitters that there may be.

use super::{Noter, SUBMIT, Step, run};
use std::alloc::Global;
use std::process::Abort;
use tb_test_makers::check;

/// A packet, and a wait for its reply.
const ROUND: [Step; 2] = [SUBMIT, Step::Receive];

/// Returns this many drivers, whose user words are 0 and more.
fn drivers(rt: &impl Abort, alloc: Global, number: u64) -> Vec<Noter> {
    let mut drivers = Vec::new(alloc);
    for user in 0..number {
        let driver = Noter::new(alloc, &ROUND, 0, user);
        drivers.push(driver).expect(rt, "memory");
    }
    drivers
}

/// With the settings that options have by default, each driver's packet is committed, whatever the number of submitters.
#[test]
fn each_number_of_submitters(rt: HostRuntime) {
    for number in 1..17u64 {
        let finished = run(
            &rt,
            rt.alloc(),
            8190,
            1024,
            256,
            drivers(&rt, rt.alloc(), number),
        );
        check!(&rt; finished.report.ledger.places() == number);
        for driver in &finished.drivers {
            check!(&rt; driver.saw.len() == 5, number);
        }
        drop(finished);
    }
}
