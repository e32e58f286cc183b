//! A script, line after line.

ghost use Rattle.std.specs.Prelude.{◌≡◌, ◌≤◌, ◌++◌, ◌∷◌, true, Ok, Err, [], drop, length, is_some, IfOk, OnOk};
ghost use Rattle.tb_program_text.specs.declared.fault.LineError.TheVariants.{Fault as FaultOf};
ghost use Rattle.tb_program_text.specs.clauses.Text.{words_of, first_line, after_first_line};
ghost use Rattle.tb_program_text.specs.clauses.Steps.{Tells, Leaves};
ghost use Rattle.tb_program_text.specs.clauses.Keyword.{no_word, one_word, two_words};
ghost use Rattle.tb_program_text.specs.clauses.Script.{ParsedScript, nothing_parsed, so_far, items_of, has_begun, may_stand, with_packet, with_bytes, with_event, packet_numbers, one_number, with_line, is_text as is_text_line, line_max, after_line, InBounds};
ghost use Rattle.tb_program_text.specs.inside.UsualLine.{TakesUsual};

use crate::event::{Draft, Layout, assign_all, hex_bytes};
use crate::fault::{Fault, LineError};
use crate::item::{OpenPacket, ScriptItem, Settings};
use crate::keyword::{Keyword, keyword_of};
use crate::number::{number_within, two_short_numbers};
use crate::submitter_number::SubmitterNumber;
use crate::text::{Words, first_word, skip_line_end, split_line, strip_word};
use std::alloc::Global;
use std::marker::Model;
use tb_layout::{BATCH_MAX, CAPACITY_MAX, CLOCK_MAX, NoMemory, SUBMITTERS_MAX};
use tb_work::{Bytes, Packet};

/// The most bytes of a line, its ending byte not counted.
const LINE_MAX: usize = 65_536;

/// A whole script: its settings, and its items in their order.
#[derive(Drop)]
pub struct ScriptParts {
    pub settings: Settings,
    pub items: Vec<ScriptItem>,
}

/// What the lines so far say.
#[derive(Drop)]
pub struct Script {
    settings: Settings,
    items: Vec<ScriptItem>,
    packet: Option<OpenPacket>,
    /// How many bytes the last packet that ended has: probably the next has as many.
    probable_size: usize,
    shut: bool,
}

impl Model for Script {
    ghost Value = { ParsedScript };

    ghost view = { λ script. record {
      settings = script.settings;
      items = script.items.items;
      packet = so_far script.packet;
      shut = script.shut;
    } };

    ghost invariant = { λ script. InBounds script.settings };
}

fn no_word(words: Words) -> Result<(), Fault>
    ensures { Tells (λ _. []) result (no_word (words_of words.entry.rest.now)) }
{
    let mut words = words;
    match words.next() {
        None => Ok(()),
        Some(_) => Err(Fault::WrongNumberOfWords),
    }
}

fn one_word(words: Words) -> Result<&[u8], Fault>
    ensures { Tells (λ word. word.now) result (one_word (words_of words.entry.rest.now)) }
{
    let mut words = words;
    match (words.next(), words.next()) {
        (Some(word), None) => Ok(word),
        _ => Err(Fault::WrongNumberOfWords),
    }
}

/// Returns the number of a line that has one word more, if it is in bounds.
#[inline(always)]
fn one_number(words: Words, low: u128, high: u128) -> Result<u128, Fault>
    ensures value { result ≡ one_number low high (words_of words.entry.rest.now) }
    ensures bounds { IfOk result (λ n. (low ≤ n) × (n ≤ high)) }
{
    number_within(one_word(words)?, low, high)
}

/// The words of a line that has two.
#[derive(Clone, Copy)]
struct TwoWords<'a> {
    first: &'a [u8],
    second: &'a [u8],
}

/// Returns the words of a line, if it has two.
fn two_words(words: Words) -> Result<TwoWords, Fault>
    ensures { Tells (λ two. (two.first.now, two.second.now)) result (two_words (words_of words.entry.rest.now)) }
{
    let mut words = words;
    match (words.next(), words.next(), words.next()) {
        (Some(first), Some(second), None) => Ok(TwoWords { first, second }),
        _ => Err(Fault::WrongNumberOfWords),
    }
}

/// The numbers of a packet's line.
#[derive(Clone, Copy)]
struct PacketNumbers {
    submitter: u32,
    operation: u8,
}

/// Returns the numbers of a packet's line: its submitter, at most this one, and its operation.
fn packet_numbers(words: Words, most: u32) -> Result<PacketNumbers, Fault>
    ensures { Tells (λ numbers. (numbers.submitter, numbers.operation)) result
        (packet_numbers most (words_of words.entry.rest.now)) }
{
    let two = two_words(words)?;
    let submitter = number_within(two.first, 0, u128::from(most))?;
    let operation = number_within(two.second, 0, 255)?;
    Ok(PacketNumbers {
        submitter: submitter as u32,
        operation: operation as u8,
    })
}

/// Returns whether a line has only bytes 32 to 126.
fn is_text(line: &[u8]) -> bool
    ensures { result ≡ is_text_line line.now }
{
    line.iter()
        .fold(true, |text, b| text & (32 <= *b && *b <= 126))
}

impl Script {
    /// Returns a script without lines so far. Takes no memory.
    pub(crate) fn new(alloc: Global) -> Script
        ensures { result ≡ nothing_parsed }
    {
        Script {
            settings: Settings {
                clock: None,
                limit: None,
                capacity: None,
                credit: None,
                submitters: None,
            },
            items: Vec::new(alloc),
            packet: None,
            probable_size: 0,
            shut: false,
        }
    }

    /// Returns whether there was a packet, a pulse or a Close.
    fn has_begun(&self) -> bool
        ensures { result ≡ has_begun self.now }
    {
        !self.items.is_empty() || self.packet.is_some()
    }

    /// Returns whether a line with a keyword may follow those so far.
    fn may_stand(&self, keyword: Keyword) -> bool
        ensures { result ≡ may_stand self.now keyword }
    {
        match keyword {
            Keyword::Clock => !self.has_begun() && self.settings.clock.is_none(),
            Keyword::Limit => !self.has_begun() && self.settings.limit.is_none(),
            Keyword::Capacity => !self.has_begun() && self.settings.capacity.is_none(),
            Keyword::Credit => !self.has_begun() && self.settings.credit.is_none(),
            Keyword::Submitters => !self.has_begun() && self.settings.submitters.is_none(),
            Keyword::Packet => true,
            Keyword::Account | Keyword::Transfer | Keyword::Id | Keyword::Hex => {
                self.packet.is_some()
            }
            Keyword::Pulse | Keyword::Shut => !self.shut,
        }
    }

    /// Puts the packet to which lines still add at the end of the items.
    fn end_packet(&mut self) -> Result<(), NoMemory>
        ensures { OnOk result (self.new ≡ record self.old { items = items_of self.old; packet = None }) }
    {
        if let Some(open) = self.packet.take() {
            self.probable_size = open.bytes.len();
            let packet = Packet {
                operation: open.operation,
                bytes: Bytes::from_vec(open.bytes),
                user: 0,
            };
            self.items.push(ScriptItem::Packet(open.submitter, packet))?;
        }
        Ok(())
    }

    /// Begins a packet with room for as many bytes as the packet before has. So all these rooms together are no larger
    /// than the packets.
    fn begin_packet(
        &mut self,
        alloc: Global,
        submitter: SubmitterNumber,
        operation: u8,
    ) -> Result<(), NoMemory>
        ensures { OnOk result (self.new ≡ with_packet self.old submitter operation) }
    {
        self.end_packet()?;
        self.packet = Some(OpenPacket {
            submitter,
            operation,
            bytes: Vec::with_capacity(alloc, self.probable_size)?,
        });
        Ok(())
    }

    /// Puts an item at the end of the items, after the packet to which lines still add.
    fn add_item(&mut self, item: ScriptItem) -> Result<(), NoMemory>
        ensures { OnOk result (self.new ≡ record self.old { items = items_of self.old ++ item ∷ []; packet = None }) }
    {
        self.end_packet()?;
        self.items.push(item)?;
        Ok(())
    }

    /// Takes the word of a pulse, its moment.
    #[tactic(auto, unfolding(crate::specs::clauses::Script::with_line))]
    fn take_pulse(&mut self, words: Words) -> Result<(), LineError>
        ensures { Leaves result self.new (with_line self.old Keyword.Pulse (words_of words.entry.rest.now)) }
    {
        let moment = one_number(words, 0, u64::MAX as u128)?;
        self.add_item(ScriptItem::Pulse(moment as u64))?;
        Ok(())
    }

    /// Takes the Close, which has no words.
    #[tactic(auto, unfolding(crate::specs::clauses::Script::with_line))]
    fn take_close(&mut self, words: Words) -> Result<(), LineError>
        ensures { Leaves result self.new (with_line self.old Keyword.Shut (words_of words.entry.rest.now)) }
    {
        no_word(words)?;
        self.add_item(ScriptItem::Shut)?;
        self.shut = true;
        Ok(())
    }

    fn add_bytes(&mut self, bytes: &[u8]) -> Result<(), NoMemory>
        ensures { OnOk result (self.new ≡ with_bytes self.old bytes.now) }
    {
        if let Some(packet) = &mut self.packet {
            packet.bytes.extend_from_slice(bytes)?;
        }
        Ok(())
    }

    #[tactic(auto, unfolding(crate::specs::clauses::Script::with_line))]
    fn take_packet(&mut self, alloc: Global, words: Words) -> Result<(), LineError>
        ensures { Leaves result self.new (with_line self.old Keyword.Packet (words_of words.entry.rest.now)) }
    {
        let most = self.settings.submitters().saturating_sub(1);
        let numbers = packet_numbers(words, most)?;
        let submitter = SubmitterNumber::new(numbers.submitter);
        self.begin_packet(alloc, submitter, numbers.operation)?;
        Ok(())
    }

    /// Takes the words of a text's first line as an event's fields, and returns the text from the end of that line on.
    #[tactic(auto, unfolding(crate::specs::clauses::Event::event_of))]
    fn take_event<'a>(&mut self, layout: Layout, text: &'a [u8]) -> Result<&'a [u8], LineError>
        ensures script { Leaves result self.new (with_event self.old layout (words_of (first_line text.now))) }
        ensures rest { IfOk result (λ rest. rest.now ≡ after_first_line text.now) }
        ensures kept { (fault : Fault) → result ≡ Err (FaultOf fault) → self.new ≡ self.old }
    {
        let mut draft = Draft::new();
        let rest = assign_all(layout, &mut draft, text)?;
        self.add_bytes(&draft.bytes)?;
        Ok(rest)
    }

    #[tactic(auto, using(crate::proofs::UsualLines::one_line))]
    fn take_event_line(&mut self, layout: Layout, words: Words) -> Result<(), LineError>
        requires { is_text_line words.rest.now ≡ true }
        ensures { Leaves result self.new (with_event self.old layout (words_of words.entry.rest.now)) }
    {
        self.take_event(layout, words.rest)?;
        Ok(())
    }

    /// Takes the word of an id, and adds its bytes to the packet.
    #[tactic(auto, unfolding(crate::specs::clauses::Script::with_line))]
    fn take_id(&mut self, words: Words) -> Result<(), LineError>
        ensures { Leaves result self.new (with_line self.old Keyword.Id (words_of words.entry.rest.now)) }
    {
        let id = one_number(words, 0, u128::MAX)?;
        self.add_bytes(&id.to_le_bytes())?;
        Ok(())
    }

    /// Takes a word of hexadecimal digits, and adds their bytes to the packet.
    #[tactic(auto, unfolding(crate::specs::clauses::Script::with_line))]
    fn take_hex(&mut self, alloc: Global, words: Words) -> Result<(), LineError>
        ensures { Leaves result self.new (with_line self.old Keyword.Hex (words_of words.entry.rest.now)) }
    {
        let bytes = hex_bytes(alloc, one_word(words)?)?;
        self.add_bytes(&bytes)?;
        Ok(())
    }

    /// Takes a line in its place, with the words after its first.
    #[tactic(auto, unfolding(crate::specs::clauses::Script::with_line))]
    fn take_line(&mut self, alloc: Global, keyword: Keyword, words: Words) -> Result<(), LineError>
        requires { is_text_line words.rest.now ≡ true }
        ensures { Leaves result self.new (with_line self.old keyword (words_of words.entry.rest.now)) }
    {
        match keyword {
            Keyword::Clock => {
                self.settings.clock = Some(one_number(words, 0, CLOCK_MAX as u128)? as u64);
            }
            Keyword::Limit => {
                self.settings.limit = Some(one_number(words, 1, BATCH_MAX as u128)? as u32);
            }
            Keyword::Capacity => {
                self.settings.capacity = Some(one_number(words, 1, CAPACITY_MAX as u128)? as u32);
            }
            Keyword::Credit => {
                self.settings.credit = Some(one_number(words, 1, CAPACITY_MAX as u128)? as u32);
            }
            Keyword::Submitters => {
                self.settings.submitters = Some(
                    one_number(words, 1, SUBMITTERS_MAX as u128)? as u32,
                );
            }
            Keyword::Packet => return self.take_packet(alloc, words),
            Keyword::Account => return self.take_event_line(Layout::Account, words),
            Keyword::Transfer => return self.take_event_line(Layout::Transfer, words),
            Keyword::Id => return self.take_id(words),
            Keyword::Hex => return self.take_hex(alloc, words),
            Keyword::Pulse => return self.take_pulse(words),
            Keyword::Shut => return self.take_close(words),
        }
        Ok(())
    }

    /// Parses a line after those so far. After an error the script must not be used.
    #[tactic(auto, unfolding(crate::specs::clauses::Script::after_line))]
    fn line(&mut self, alloc: Global, line: &[u8]) -> Result<(), LineError>
        ensures { Leaves result self.new (after_line self.old line.now) }
    {
        if line.len() > LINE_MAX {
            return Err(LineError::Fault(Fault::LineTooLong));
        }
        if !is_text(line) {
            return Err(LineError::Fault(Fault::BadByte));
        }
        let Some(first) = first_word(line) else {
            return Ok(());
        };
        if first.word.starts_with(b"#") {
            return Ok(());
        }
        let Some(keyword) = keyword_of(first.word) else {
            return Err(LineError::Fault(Fault::UnknownWord));
        };
        if !self.may_stand(keyword) {
            return Err(LineError::Fault(Fault::OutOfPlace));
        }
        self.take_line(alloc, keyword, Words { rest: first.rest })
    }

    /// Takes the fields of an event, if a packet is there and they have no fault, and returns the text from the end of
    /// their line on. Else the script stays as it was.
    fn take_usual_event<'a>(
        &mut self,
        layout: Layout,
        fields: &'a [u8],
    ) -> Result<Option<&'a [u8]>, NoMemory>
        ensures { TakesUsual fields.now (self.new ≡ self.old) ((is_some self.old.packet ≡ true)
            × (with_event self.old layout (words_of (first_line fields.now)) ≡ Ok self.new)) result }
    {
        if self.packet.is_none() {
            return Ok(None);
        }
        match self.take_event(layout, fields) {
            Ok(rest) => Ok(Some(rest)),
            Err(LineError::Fault(_)) => Ok(None),
            Err(LineError::NoMemory) => Err(NoMemory),
        }
    }

    /// Takes the numbers of a packet, if they have no fault and few digits, and returns the text from the end of their
    /// line on. Else the script stays as it was.
    fn take_usual_packet<'a>(
        &mut self,
        alloc: Global,
        numbers: &'a [u8],
    ) -> Result<Option<&'a [u8]>, NoMemory>
        ensures { TakesUsual numbers.now (self.new ≡ self.old) ((is_text_line (first_line numbers.now) ≡ true)
            × (with_line self.old Keyword.Packet (words_of (first_line numbers.now)) ≡ Ok self.new)) result }
    {
        let Some(two) = two_short_numbers(numbers) else {
            return Ok(None);
        };
        let most = self.settings.submitters().saturating_sub(1);
        if two.first > u64::from(most) || two.second > 255 {
            return Ok(None);
        }
        let submitter = SubmitterNumber::new(two.first as u32);
        self.begin_packet(alloc, submitter, two.second as u8)?;
        Ok(Some(two.rest))
    }

    /// Takes the first line of a text in one pass, if it begins with a usual keyword and has no fault, and returns the
    /// text from its end on. Else the script stays as it was. A line that is too long is taken too.
    fn take_usual<'a>(
        &mut self,
        alloc: Global,
        text: &'a [u8],
    ) -> Result<Option<&'a [u8]>, NoMemory>
        ensures { TakesUsual text.now (self.new ≡ self.old)
            (length (first_line text.now) ≤ line_max → after_line self.old (first_line text.now) ≡ Ok self.new) result }
    {
        if let Some(fields) = strip_word(text, b"transfer", b' ') {
            return self.take_usual_event(Layout::Transfer, fields);
        }
        if let Some(fields) = strip_word(text, b"account", b' ') {
            return self.take_usual_event(Layout::Account, fields);
        }
        match strip_word(text, b"packet", b' ') {
            Some(numbers) => self.take_usual_packet(alloc, numbers),
            None => Ok(None),
        }
    }

    /// Parses the first line of a text after the lines so far, and returns the other lines. After an error the script
    /// must not be used.
    pub(crate) fn first_line<'a>(
        &mut self,
        alloc: Global,
        text: &'a [u8],
    ) -> Result<&'a [u8], LineError>
        ensures script { Leaves result self.new (after_line self.old (first_line text.now)) }
        ensures others { IfOk result (λ others. others.now ≡ drop 1 (after_first_line text.now)) }
    {
        if let Some(rest) = self.take_usual(alloc, text)? {
            if text.len() - rest.len() > LINE_MAX {
                return Err(LineError::Fault(Fault::LineTooLong));
            }
            return Ok(skip_line_end(rest));
        }
        let (line, others) = split_line(text);
        self.line(alloc, line)?;
        Ok(others)
    }

    /// Returns the settings, and all items. The packet to which lines still added is the last of them.
    pub fn finish(self) -> Result<ScriptParts, NoMemory>
        ensures settings { IfOk result (λ whole. whole.settings ≡ self.settings) }
        ensures items { IfOk result (λ whole. whole.items.items ≡ items_of self) }
        ensures bounds { IfOk result (λ whole. InBounds whole.settings) }
    {
        let mut script = self;
        script.end_packet()?;
        let Script {
            settings,
            items,
            ..
        } = script;
        Ok(ScriptParts { settings, items })
    }
}
