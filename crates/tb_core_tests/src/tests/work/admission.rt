use crate::tests::{must, packet_of};
use std::alloc::Global;
use std::process::Abort;
use tb_test_makers::check;
use tb_work::{Refusal, admit};

/// Returns the number of events admitted of a packet of `length` zero bytes.
fn admitted(
    rt: &(impl Abort + Alloc<A = Global>),
    limit: u32,
    operation: u8,
    length: usize,
) -> Result<u32, Refusal> {
    admit(limit, &packet_of(rt, operation, length))
}

/// Lengths of packets of accounts, and how many accounts are admitted.
const LENGTHS: [(usize, Result<u32, Refusal>); 8] = [
    (0, Ok(0)),
    (1, Err(Refusal::InvalidDataSize)),
    (127, Err(Refusal::InvalidDataSize)),
    (128, Ok(1)),
    (129, Err(Refusal::InvalidDataSize)),
    (1_048_320, Ok(8190)),
    (1_048_448, Err(Refusal::TooMuchData)),
    (1_048_449, Err(Refusal::InvalidDataSize)),
];

#[test]
fn admission_table(rt: HostRuntime) {
    for (length, wanted) in &LENGTHS {
        check!(&rt; admitted(&rt, 8190, 129, *length) == *wanted, *length);
    }
    for operation in 0..=255 {
        let wanted = if (129..=131).contains(&operation) {
            Ok(0)
        } else {
            Err(Refusal::InvalidOperation)
        };
        check!(&rt; admitted(&rt, 8190, operation, 0) == wanted, operation);
    }
}

#[test]
fn refused_sizes_and_operations(rt: HostRuntime) {
    must(
        &rt,
        admitted(&rt, 4, 129, 127) == Err(Refusal::InvalidDataSize),
    );
    must(
        &rt,
        admitted(&rt, 4, 200, 127) == Err(Refusal::InvalidOperation),
    );
}

#[test]
fn lookups_are_counted_in_ids(rt: HostRuntime) {
    must(&rt, admitted(&rt, 4, 131, 64) == Ok(4));
    must(&rt, admitted(&rt, 4, 131, 80) == Err(Refusal::TooMuchData));
    must(
        &rt,
        admitted(&rt, 4, 131, 24) == Err(Refusal::InvalidDataSize),
    );
}

const REFUSALS: [(Refusal, u32, &str); 13] = [
    (Refusal::InvalidOperation, 1, "InvalidOperation"),
    (Refusal::InvalidDataSize, 2, "InvalidDataSize"),
    (Refusal::TooMuchData, 3, "TooMuchData"),
    (Refusal::InFlight, 4, "InFlight"),
    (Refusal::Full, 5, "Full"),
    (Refusal::NoMemory, 6, "NoMemory"),
    (Refusal::Shutdown, 7, "Shutdown"),
    (Refusal::Stopped, 8, "Stopped"),
    (Refusal::BadLimit, 9, "BadLimit"),
    (Refusal::BadCapacity, 10, "BadCapacity"),
    (Refusal::BadSubmitters, 11, "BadSubmitters"),
    (Refusal::MomentTooLarge, 12, "MomentTooLarge"),
    (Refusal::NoThread, 13, "NoThread"),
];

#[test]
fn numbers_and_names(rt: HostRuntime) {
    for (refusal, number, name) in &REFUSALS {
        check!(&rt; refusal.number() == *number && refusal.name() == *name, *name);
    }
}
