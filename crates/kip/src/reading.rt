//! A reply as C reads it.

ghost use Rattle.std.specs.Prelude.{◌≡◌, ◌≤◌, ◌+◌, ◌*◌, ◌++◌, take, drop, length};
ghost use Rattle.std.specs.List.{flat_map};
ghost use Rattle.tb_layout.specs.clauses.Records.{account_bytes};
ghost use Rattle.tb_layout.specs.clauses.Failure.{failure_bytes};
ghost use Rattle.kip.specs.clauses.Results.{AreWritten, IsHeadOf, answer_bytes, answer_size, result_bytes, result_size};

use crate::status::{OUTCOME_COMMITTED, OUTCOME_SHUTDOWN, OUTCOME_STOPPED};
use tb_layout::{Account, Answer, Failure, write_account, write_failure};
use tb_work::{Outcome, Reply};

/// The head of a reply.
#[repr(C)]
#[derive(Clone, Copy)]
pub struct KipReply {
    /// The packet's user word.
    pub user_data: u64,
    /// The packet's number among its submitter's.
    pub number: u64,
    /// Its place among all committed packets and pulses; 0 if it isn't committed.
    pub place: u64,
    /// How many bytes its results have.
    pub size: u64,
    pub submitter: u32,
    /// One of those in `status`.
    pub outcome: u32,
    pub operation: u32,
    pub reserved: u32,
}

fn size_of_answer(answer: &Answer) -> usize
    ensures { result ≡ answer_size answer.now }
{
    match answer {
        Answer::Failures(failures) => 8 * failures.as_slice().len(),
        Answer::Accounts(accounts) => 128 * accounts.as_slice().len(),
    }
}

/// Returns the head of a reply.
pub(crate) fn head_of(reply: &Reply) -> KipReply
    ensures { IsHeadOf result reply.now }
{
    let (outcome, place, size) = match &reply.outcome {
        Outcome::Committed { place, answer } => (OUTCOME_COMMITTED, *place, size_of_answer(answer)),
        Outcome::Shutdown => (OUTCOME_SHUTDOWN, 0, 0),
        Outcome::Stopped => (OUTCOME_STOPPED, 0, 0),
    };
    KipReply {
        user_data: reply.packet.user,
        number: reply.number,
        place,
        size: size as u64,
        submitter: reply.submitter,
        outcome,
        operation: u32::from(reply.packet.operation),
        reserved: 0,
    }
}

/// Writes bytes at an offset of a buffer.
fn put(out: &mut [u8], offset: usize, bytes: &[u8])
    requires { offset + length bytes.now ≤ length out.old }
    ensures { out.new ≡ take offset out.old ++ (bytes.now ++ drop (offset + length bytes.now) out.old) }
{
    out[offset..offset + bytes.len()].copy_from_slice(bytes);
}

/// Writes bytes at the start of a buffer.
pub(crate) fn put_bytes(bytes: &[u8], out: &mut [u8])
    requires { length bytes.now ≤ length out.old }
    ensures { AreWritten bytes.now (length bytes.now) out.old out.new }
{
    put(out, 0, bytes);
}

fn put_failure(out: &mut [u8], offset: usize, failure: &Failure)
    requires { offset + 8 ≤ length out.old }
    ensures put { out.new ≡ take offset out.old ++ (failure_bytes failure.now ++ drop (offset + 8) out.old) }
    ensures size { length (failure_bytes failure.now) ≡ 8 }
    ensures same { length out.new ≡ length out.old }
{
    put(out, offset, &write_failure(failure));
}

fn put_account(out: &mut [u8], offset: usize, account: &Account)
    requires { offset + 128 ≤ length out.old }
    ensures put { out.new ≡ take offset out.old ++ (account_bytes account.now ++ drop (offset + 128) out.old) }
    ensures size { length (account_bytes account.now) ≡ 128 }
    ensures same { length out.new ≡ length out.old }
{
    put(out, offset, &write_account(account));
}

fn put_failures(failures: &[Failure], out: &mut [u8])
    requires { 8 * length failures.now ≤ length out.old }
    ensures { AreWritten (flat_map failure_bytes failures.now) (8 * length failures.now) out.old out.new }
{
    let mut offset = 0;
    for failure in failures {
        put_failure(out, offset, failure);
        offset += 8;
    }
}

fn put_accounts(accounts: &[Account], out: &mut [u8])
    requires { 128 * length accounts.now ≤ length out.old }
    ensures { AreWritten (flat_map account_bytes accounts.now) (128 * length accounts.now) out.old out.new }
{
    let mut offset = 0;
    for account in accounts {
        put_account(out, offset, account);
        offset += 128;
    }
}

fn put_answer(answer: &Answer, out: &mut [u8])
    requires { answer_size answer.now ≤ length out.old }
    ensures { AreWritten (answer_bytes answer.now) (answer_size answer.now) out.old out.new }
{
    match answer {
        Answer::Failures(failures) => put_failures(failures.as_slice(), out),
        Answer::Accounts(accounts) => put_accounts(accounts.as_slice(), out),
    }
}

/// Writes a reply's results at the start of a buffer.
pub(crate) fn put_results(outcome: &Outcome, out: &mut [u8])
    requires { result_size outcome.now ≤ length out.old }
    ensures { AreWritten (result_bytes outcome.now) (result_size outcome.now) out.old out.new }
{
    match outcome {
        Outcome::Committed { place: _, answer } => put_answer(answer, out),
        Outcome::Shutdown | Outcome::Stopped => {}
    }
}
