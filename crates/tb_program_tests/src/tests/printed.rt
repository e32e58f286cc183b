//! What faults print, which is for people. The words of a faulty line are in `text`'s clause, but not that `Display` prints them.

use std::alloc::Global;
use std::fmt::Display;
use std::process::Abort;
use tb_program_text::{Fault, ProgramFault, ScriptError};
use tb_test_makers::check;

/// Asserts what a value prints.
fn assert_displayed<T: Display + Drop>(
    rt: &(impl Abort + Alloc<A = Global>),
    value: T,
    wanted: &str,
) {
    let text = format!(in rt.alloc(); "{value}").expect(rt, "memory");
    check!(rt; text.as_str() == wanted, wanted);
}

/// Each fault, and what the error of a seventh line prints that has it.
const FAULTS: [(Fault, &str); 8] = [
    (Fault::LineTooLong, "line 7: line too long"),
    (Fault::BadByte, "line 7: bad byte"),
    (Fault::UnknownWord, "line 7: unknown word"),
    (Fault::OutOfPlace, "line 7: out of place"),
    (Fault::WrongNumberOfWords, "line 7: wrong number of words"),
    (Fault::BadField, "line 7: bad field"),
    (Fault::BadNumber, "line 7: bad number"),
    (Fault::BadHex, "line 7: bad hex"),
];

#[test]
fn faults_print_what_is_wrong(rt: HostRuntime) {
    for (fault, wanted) in FAULTS.iter() {
        assert_displayed(&rt, ScriptError::Faulty(7, *fault), wanted);
    }
    assert_displayed(&rt, ScriptError::NoMemory, "memory ran out");
    assert_displayed(&rt, ProgramFault::Read, "the reader failed");
    assert_displayed(&rt, ProgramFault::Write, "the writer failed");
    assert_displayed(&rt, ProgramFault::NoMemory, "memory ran out");
    assert_displayed(&rt, ProgramFault::NoThread, "a thread could not be started");
}
