//! The lines of the output.

ghost use Rattle.std.specs.Io.KnownBytes.{Appends};
ghost use Rattle.std.specs.Prelude.{◌≡◌, ◌++◌, [], false, IfOk, OnOk, IfErr, codes, decimal, string_bytes};
ghost use Rattle.tb_program_text.specs.declared.program_fault.ProgramFault.TheVariants.{Write as WriteFault};
ghost use Rattle.std.specs.List.{flat_map};
ghost use Rattle.tb_program_text.specs.clauses.Naming.{named_text as text_with_names};
ghost use Rattle.tb_program_text.specs.clauses.Output.{fault_line, refused_line, failure_text, found_debits, found_credits, found_text, answer_text, outcome_text, packet_front, reply_line, pulse_line, refused_pulse_line, clock_line, account_front, balances_text, account_line};

use crate::naming::named_text;
use crate::program_fault::ProgramFault;
use crate::source::FaultyScript;
use itoa::{Buffer, Integer};
use std::alloc::{AllocError, Global};
use std::io::Write;
use tb_layout::{Account, Failure};
use tb_work::{Answer, Outcome, Refusal, Reply};

/// All that is written of a script.
#[derive(Drop)]
pub struct Output {
    pub text: String,
    /// Whether the script has no fault; else the text is the line of its first.
    pub faultless: bool,
    /// What is said of the fault on standard error; of a script without one it has no byte.
    pub remark: String,
    /// The operation of each of the first lines that is a packet's, and any number for another line. Of a faulty script there is none.
    pub operations: Vec<u8>,
    /// Whether memory ran out in a run, so that a packet or a pulse isn't committed.
    pub lacks_memory: bool,
}

impl Output {
    /// Returns what is written of a faulty script.
    pub fn of_faulty(alloc: Global, faulty: FaultyScript) -> Output
        ensures text { result.text ≡ faulty.line }
        ensures faultless { result.faultless ≡ false }
        ensures operations { result.operations.items ≡ [] }
        ensures memory { result.lacks_memory ≡ false }
    {
        Output {
            text: faulty.line,
            faultless: false,
            remark: faulty.remark,
            operations: Vec::new(alloc),
            lacks_memory: false,
        }
    }

    /// Returns the text with a name after the code of each failure, as `named_text` does.
    pub fn named(&self, alloc: Global) -> Result<Vec<u8>, AllocError>
        ensures { IfOk result (λ named. named.items ≡ text_with_names self.now.operations.items (string_bytes self.now.text)) }
    {
        named_text(alloc, &self.operations, self.text.as_bytes())
    }
}

/// Adds a number in decimal. This takes fewer instructions than `write!`.
fn put_number<I: Integer>(out: &mut String, number: I) -> Result<(), AllocError>
    ensures { OnOk result (string_bytes out.new ≡ string_bytes out.old ++ I.text number) }
{
    let mut buffer = Buffer::new();
    out.push_str(buffer.format(number))
}

/// Adds a text and a number after it.
#[inline(always)]
fn put_field<I: Integer>(out: &mut String, text: &str, number: I) -> Result<(), AllocError>
    ensures { OnOk result (string_bytes out.new ≡ string_bytes out.old ++ text.now ++ I.text number) }
{
    out.push_str(text)?;
    put_number(out, number)
}

/// Adds the line of a fault, which has the number of the script's line, or 0.
pub(crate) fn put_fault(out: &mut String, line: usize, text: &str) -> Result<(), AllocError>
    ensures { OnOk result (string_bytes out.new ≡ string_bytes out.old ++ fault_line line text.now) }
{
    write!(out, "fault {line} {text}\n")
}

/// Adds the line of a packet that was not admitted.
#[tactic(auto, unfolding(crate::specs::clauses::Output::refused_line))]
pub fn put_refused(out: &mut String, submitter: u32, refusal: Refusal) -> Result<(), AllocError>
    ensures { OnOk result (string_bytes out.new ≡ string_bytes out.old ++ refused_line submitter refusal) }
{
    let number = refusal.number();
    let name = refusal.name();
    write!(out, "packet {submitter} refused {number} {name}\n")
}

fn put_failures(out: &mut String, failures: &[Failure]) -> Result<(), AllocError>
    ensures { OnOk result (string_bytes out.new ≡ string_bytes out.old ++ flat_map failure_text failures.now) }
{
    for failure in failures {
        put_field(out, " ", failure.index)?;
        put_field(out, ":", failure.code)?;
    }
    Ok(())
}

#[tactic(auto, unfolding(crate::specs::clauses::Output::found_debits))]
fn put_found_debits(out: &mut String, account: &Account) -> Result<(), AllocError>
    ensures { OnOk result (string_bytes out.new ≡ string_bytes out.old ++ found_debits account.now) }
{
    put_field(out, " ", account.id)?;
    put_field(out, ":", account.debits_pending)?;
    put_field(out, ":", account.debits_posted)
}

#[tactic(auto, unfolding(crate::specs::clauses::Output::found_credits))]
fn put_found_credits(out: &mut String, account: &Account) -> Result<(), AllocError>
    ensures { OnOk result (string_bytes out.new ≡ string_bytes out.old ++ found_credits account.now) }
{
    put_field(out, ":", account.credits_pending)?;
    put_field(out, ":", account.credits_posted)
}

fn put_all_found(out: &mut String, accounts: &[Account]) -> Result<(), AllocError>
    ensures { OnOk result (string_bytes out.new ≡ string_bytes out.old ++ flat_map found_text accounts.now) }
{
    for account in accounts {
        put_found_debits(out, account)?;
        put_found_credits(out, account)?;
    }
    Ok(())
}

fn put_answer(out: &mut String, answer: &Answer) -> Result<(), AllocError>
    ensures { OnOk result (string_bytes out.new ≡ string_bytes out.old ++ answer_text answer.now) }
{
    match answer {
        Answer::Failures(failures) => put_failures(out, failures.as_slice()),
        Answer::Accounts(accounts) => put_all_found(out, accounts.as_slice()),
    }
}

fn put_outcome(out: &mut String, outcome: &Outcome) -> Result<(), AllocError>
    ensures { OnOk result (string_bytes out.new ≡ string_bytes out.old ++ outcome_text outcome.now) }
{
    match outcome {
        Outcome::Committed { place, answer } => {
            put_field(out, " committed ", *place)?;
            put_answer(out, answer)
        }
        Outcome::Shutdown => out.push_str(" shutdown"),
        Outcome::Stopped => out.push_str(" stopped"),
    }
}

/// Adds a submitter's number. It mostly has one digit, which takes some 60 instructions fewer than by `put_number`.
#[inline(always)]
fn put_submitter(out: &mut String, submitter: u32) -> Result<(), AllocError>
    ensures { OnOk result (string_bytes out.new ≡ string_bytes out.old ++ decimal submitter) }
{
    if submitter < 10 {
        return out.push(char::from(b'0' + submitter as u8));
    }
    put_number(out, submitter)
}

#[tactic(auto, unfolding(crate::specs::clauses::Output::packet_front))]
fn put_packet_front(out: &mut String, submitter: u32, number: u64) -> Result<(), AllocError>
    ensures { OnOk result (string_bytes out.new ≡ string_bytes out.old ++ packet_front submitter number) }
{
    out.push_str("packet ")?;
    put_submitter(out, submitter)?;
    put_field(out, " ", number)
}

/// Adds the line of a packet that was queued.
pub fn put_reply(out: &mut String, reply: &Reply) -> Result<(), AllocError>
    ensures { OnOk result (string_bytes out.new ≡ string_bytes out.old ++ reply_line reply.now) }
{
    put_packet_front(out, reply.submitter, reply.number)?;
    put_outcome(out, &reply.outcome)?;
    out.push_str("\n")
}

/// Adds the line of a pulse at a place.
#[tactic(auto, unfolding(crate::specs::clauses::Output::pulse_line))]
pub fn put_pulse(out: &mut String, place: u64) -> Result<(), AllocError>
    ensures { OnOk result (string_bytes out.new ≡ string_bytes out.old ++ pulse_line place) }
{
    put_field(out, "pulse ", place)?;
    out.push_str("\n")
}

/// Adds the line of a pulse whose moment is too large.
pub fn put_refused_pulse(out: &mut String) -> Result<(), AllocError>
    ensures { OnOk result (string_bytes out.new ≡ string_bytes out.old ++ refused_pulse_line) }
{
    out.push_str("pulse refused 12 MomentTooLarge\n")
}

/// Adds the line of the Close.
pub fn put_close(out: &mut String) -> Result<(), AllocError>
    ensures { OnOk result (string_bytes out.new ≡ string_bytes out.old ++ codes "shut\n") }
{
    out.push_str("shut\n")
}

/// Adds the line of the clock.
pub fn put_clock(out: &mut String, clock: u64) -> Result<(), AllocError>
    ensures { OnOk result (string_bytes out.new ≡ string_bytes out.old ++ clock_line clock) }
{
    put_field(out, "clock ", clock)?;
    out.push_str("\n")
}

#[tactic(auto, unfolding(crate::specs::clauses::Output::account_front))]
fn put_account_front(out: &mut String, id: u128, timestamp: u64) -> Result<(), AllocError>
    ensures { OnOk result (string_bytes out.new ≡ string_bytes out.old ++ account_front id timestamp) }
{
    put_field(out, "account ", id)?;
    put_field(out, " ", timestamp)
}

#[tactic(auto, unfolding(crate::specs::clauses::Output::balances_text))]
fn put_balances(out: &mut String, account: &Account) -> Result<(), AllocError>
    ensures { OnOk result (string_bytes out.new ≡ string_bytes out.old ++ balances_text account.now) }
{
    put_field(out, " ", account.debits_pending)?;
    put_field(out, " ", account.debits_posted)?;
    put_field(out, " ", account.credits_pending)?;
    put_field(out, " ", account.credits_posted)?;
    out.push_str("\n")
}

/// Adds the line of an account, with its balances.
pub fn put_account(out: &mut String, account: &Account) -> Result<(), AllocError>
    ensures { OnOk result (string_bytes out.new ≡ string_bytes out.old ++ account_line account.now) }
{
    put_account_front(out, account.id, account.timestamp)?;
    put_balances(out, account)
}

/// Writes all of some bytes, once they are made.
pub fn write_bytes<W: Write>(writer: &mut W, bytes: &[u8]) -> Result<(), ProgramFault>
    ensures written { OnOk result (Appends (W.contents writer.old) (W.contents writer.new) bytes.now) }
    ensures refused { IfErr result (λ fault. fault ≡ WriteFault) }
{
    if writer.write_all(bytes).is_err() {
        return Err(ProgramFault::Write);
    }
    if writer.flush().is_err() {
        return Err(ProgramFault::Write);
    }
    Ok(())
}

/// Writes all of a text, once it is made.
pub fn write_out<W: Write>(writer: &mut W, text: &str) -> Result<(), ProgramFault>
    ensures written { OnOk result (Appends (W.contents writer.old) (W.contents writer.new) text.now) }
    ensures refused { IfErr result (λ fault. fault ≡ WriteFault) }
{
    write_bytes(writer, text.as_bytes())
}
