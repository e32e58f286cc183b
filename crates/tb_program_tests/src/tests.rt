//! What no clause says: worked examples by name, faults by their lines, readers and writers that fail, and what `run`
//! prints.

ghost use Rattle.std.specs.Prelude.{◌≡◌, true};

use std::alloc::Global;
use std::process::Abort;
use std::sync::Wait;
use std::thread::Threads;
use std::time::Clock;
use tb_program::{run_script, run_threads};
use tb_test_makers::check;

mod cases;
mod codes;
mod examples;
mod faults;
mod printed;
mod streams;

/// Ends the test unless a fact holds, as `check!` does. As a call it is cheaper to prove than the branch that `check!` writes.
fn must(rt: &impl Abort, fact: bool)
    ensures { fact ≡ true }
{
    if !fact {
        rt.abort()
    }
}

/// Adds texts.
fn add(rt: &impl Abort, text: &mut String, parts: &[&str]) {
    for part in parts {
        text.push_str(part).expect(rt, "memory");
    }
}

/// Returns texts one after the other. (This is cheaper to prove than `format!`.)
fn joined(rt: &(impl Abort + Alloc<A = Global>), parts: &[&str]) -> String {
    let mut text = String::new(rt.alloc());
    add(rt, &mut text, parts);
    text
}

/// Returns what `list` writes for a script.
fn listed(rt: &(impl Abort + Alloc<A = Global>), script: &str) -> String {
    let mut out = Vec::new(rt.alloc());
    let _ = run_script(rt.alloc(), &mut script.as_bytes(), &mut out).expect(rt, "memory");
    String::from_utf8(out).ok().expect(rt, "text")
}

/// Returns what `run` writes for a script.
fn ran<R: Abort + Threads + Wait + Clock + Sync + Alloc<A = Global>>(
    rt: &R,
    script: &str,
) -> String {
    let mut out = Vec::new(rt.alloc());
    let _ = run_threads(rt, rt.alloc(), &mut script.as_bytes(), &mut out).expect(rt, "memory");
    String::from_utf8(out).ok().expect(rt, "text")
}

/// Asserts what `list` writes for a script.
fn assert_list(rt: &(impl Abort + Alloc<A = Global>), script: &str, output: &str) {
    let text = listed(rt, script);
    check!(rt; text.as_str() == output, script);
}

/// Asserts what `run` writes for a script.
fn assert_run<R: Abort + Threads + Wait + Clock + Sync + Alloc<A = Global>>(
    rt: &R,
    script: &str,
    output: &str,
) {
    let text = ran(rt, script);
    check!(rt; text.as_str() == output, script);
}

/// Asserts what both write, for a script in which the schedule decides nothing.
fn assert_both<R: Abort + Threads + Wait + Clock + Sync + Alloc<A = Global>>(
    rt: &R,
    script: &str,
    output: &str,
) {
    assert_list(rt, script, output);
    assert_run(rt, script, output);
}

/// Returns the line of a packet's bytes, all with these two digits, after other lines.
fn bytes_after(
    rt: &(impl Abort + Alloc<A = Global>),
    lines: &str,
    digits: &str,
    count: usize,
) -> String {
    let bytes = digits.repeat(rt.alloc(), count).expect(rt, "memory");
    joined(rt, &[lines, "hex ", bytes.as_str(), "\n"])
}
