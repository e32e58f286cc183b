use crate::tests::must;
use std::alloc::Global;
use std::io;
use std::io::{Read, Write};
use std::process::Abort;
use tb_program::{ProgramFault, run_script, run_threads};

/// Gives a line with its first read, fails at the second, and has ended from then on: whoever continues to read after
/// the fault finds the end of a script.
#[derive(Drop)]
struct FailsAtSecond {
    reads: u32,
}

impl Read for FailsAtSecond {
    fn read(&mut self, buffer: &mut [u8]) -> io::Result<usize> {
        self.reads = self.reads.saturating_add(1);
        if self.reads == 2 {
            return Err(io::Error::other("no more"));
        }
        if self.reads > 2 || buffer.len() == 0 {
            return Ok(0);
        }
        buffer[0] = 10;
        Ok(1)
    }
}

/// Gives the same byte again and again, `left` in all, and at most `at_once` with each read. A read after its end
/// fails.
#[derive(Drop)]
struct Repeated {
    byte: u8,
    left: usize,
    at_once: usize,
    ended: bool,
}

impl Read for Repeated {
    fn read(&mut self, buffer: &mut [u8]) -> io::Result<usize> {
        if self.ended {
            return Err(io::Error::other("read after the end"));
        }
        let count = buffer.len().min(self.left).min(self.at_once);
        self.ended = count == 0;
        for place in 0..count {
            buffer[place] = self.byte;
        }
        self.left -= count;
        Ok(count)
    }
}

/// Takes nothing.
#[derive(Drop)]
struct TakesNothing;

impl Write for TakesNothing {
    fn write(&mut self, _bytes: &[u8]) -> io::Result<usize> {
        Err(io::Error::other("full"))
    }

    fn flush(&mut self) -> io::Result<()> {
        Ok(())
    }
}

/// Takes all, and fails if it is to hand it on.
#[derive(Drop)]
struct FailsToFlush;

impl Write for FailsToFlush {
    fn write(&mut self, bytes: &[u8]) -> io::Result<usize> {
        Ok(bytes.len())
    }

    fn flush(&mut self) -> io::Result<()> {
        Err(io::Error::other("full"))
    }
}

/// Is interrupted at first, then takes a byte at a time, and notes how many it has taken as it is to hand them on.
#[derive(Drop)]
struct OneAtATime {
    interrupted: bool,
    taken: usize,
    flushed: usize,
}

impl Write for OneAtATime {
    fn write(&mut self, bytes: &[u8]) -> io::Result<usize> {
        if !self.interrupted {
            self.interrupted = true;
            return Err(io::Error::from(io::ErrorKind::Interrupted));
        }
        let count = bytes.len().min(1);
        self.taken = self.taken.wrapping_add(count);
        Ok(count)
    }

    fn flush(&mut self) -> io::Result<()> {
        self.flushed = self.taken;
        Ok(())
    }
}

/// Returns a writer that has taken nothing.
fn one_at_a_time() -> OneAtATime {
    OneAtATime {
        interrupted: false,
        taken: 0,
        flushed: 0,
    }
}

/// All eight bytes of `clock 1` and its end are taken, and none after the last flush.
#[test]
fn flush_after_the_last_byte(rt: HostRuntime) {
    let mut listed = one_at_a_time();
    let answer = run_script(rt.alloc(), &mut "clock 1\n".as_bytes(), &mut listed);
    must(&rt, matches!(&answer, Ok(true)));
    let mut ran = one_at_a_time();
    let answer = run_threads(&rt, rt.alloc(), &mut "clock 1\n".as_bytes(), &mut ran);
    must(&rt, matches!(&answer, Ok(true)));
    for writer in [listed, ran] {
        must(&rt, (writer.taken, writer.flushed) == (8, 8));
    }
}

#[test]
fn read_fails_in_mid_stream(rt: HostRuntime) {
    let mut out = Vec::new(rt.alloc());
    let answer = run_script(rt.alloc(), &mut FailsAtSecond { reads: 0 }, &mut out);
    must(&rt, matches!(&answer, Err(ProgramFault::Read)));
    must(&rt, out.is_empty());
}

#[test]
fn write_fails(rt: HostRuntime) {
    let answer = run_script(rt.alloc(), &mut "clock 1\n".as_bytes(), &mut TakesNothing);
    must(&rt, matches!(&answer, Err(ProgramFault::Write)));
}

#[test]
fn flush_fails(rt: HostRuntime) {
    let answer = run_script(rt.alloc(), &mut "clock 1\n".as_bytes(), &mut FailsToFlush);
    must(&rt, matches!(&answer, Err(ProgramFault::Write)));
}

#[test]
fn flush_of_a_run_fails(rt: HostRuntime) {
    let answer = run_threads(&rt, rt.alloc(), &mut "shut\n".as_bytes(), &mut FailsToFlush);
    must(&rt, matches!(&answer, Err(ProgramFault::Write)));
}

#[test]
fn read_of_a_run_fails(rt: HostRuntime) {
    let mut out = Vec::new(rt.alloc());
    let mut reader = FailsAtSecond { reads: 0 };
    let answer = run_threads(&rt, rt.alloc(), &mut reader, &mut out);
    must(&rt, matches!(&answer, Err(ProgramFault::Read)));
    must(&rt, out.is_empty());
}

#[test]
fn write_of_a_run_fails(rt: HostRuntime) {
    let mut reader = "packet 0 129\nshut\n".as_bytes();
    let answer = run_threads(&rt, rt.alloc(), &mut reader, &mut TakesNothing);
    must(&rt, matches!(&answer, Err(ProgramFault::Write)));
}

/// A byte, how often a script consists of it, and what is written for the script. One that never ends isn't read to its
/// end.
const LENGTHS: [(u8, usize, &str); 4] = [
    (10, 16_777_216, "clock 0\n"),
    (10, 16_777_217, "fault 0 script too long\n"),
    (10, usize::MAX, "fault 0 script too long\n"),
    (32, 16_777_216, "fault 1 line too long\n"),
];

/// Asserts that this is written, and that the script counts as faultless exactly if no fault is written.
fn assert_output(rt: &(impl Abort + Alloc<A = Global>), script: Repeated, output: &str) {
    let mut script = script;
    let mut out = Vec::new(rt.alloc());
    let faultless = run_script(rt.alloc(), &mut script, &mut out).expect(rt, "memory");
    must(rt, out.as_slice() == output.as_bytes());
    must(rt, faultless == (output == "clock 0\n"));
}

#[test]
fn script_lengths(rt: HostRuntime) {
    for (byte, left, output) in LENGTHS.iter() {
        let script = Repeated {
            byte: *byte,
            left: *left,
            at_once: usize::MAX,
            ended: false,
        };
        assert_output(&rt, script, output);
    }
}

#[test]
fn longest_script_a_byte_at_a_time(rt: HostRuntime) {
    let script = Repeated {
        byte: 10,
        left: 16_777_216,
        at_once: 1,
        ended: false,
    };
    assert_output(&rt, script, "clock 0\n");
}
