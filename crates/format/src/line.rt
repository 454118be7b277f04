// Log entries as lines of text.
ghost use Rattle.std.specs.Prelude.{◌==◌, position, MatchOption, ◌≡◌, ℕ, ◌^◌, ◌<◌, Bool, false, List, [], length, ℤ, ◌≢◌};
ghost use Rattle.format.specs.Texts.{held, Adds, spaced, number_or_dash, print_answer, print_after, Spaceless};
ghost use Rattle.format.specs.Logs.{event_word, has_lease, has_until, printable, line_text, PrintsLine, ReadsLine, LinesDiffer};

use crate::buffer::LineBuffer;
use crate::clock::Tick;
use crate::decimal::read_decimal;
use crate::events::{Event, LogEntry};
use crate::offset::{candidate_offset, is_offset, push_offset};
use disk::Refusal;

// Every event.
const EVENTS: [Event; 5] = [
    Event::Granted,
    Event::Renewed,
    Event::Released,
    Event::Expired,
    Event::Crashed,
];

impl Event {
    // The word by which a line names the event: bytes, and no `Display`, since a line that is read is compared with them.
    fn word(self) -> &'static [u8]
        ensures { result.now ≡ event_word self }
    {
        match self {
            Event::Granted => b"granted",
            Event::Renewed => b"renewed",
            Event::Released => b"released",
            Event::Expired => b"expired",
            Event::Crashed => b"crashed",
        }
    }

    // Whether resource and term apply.
    fn has_lease(self) -> bool
        ensures { result ≡ has_lease self }
    {
        !matches!(self, Event::Crashed)
    }

    // Whether `until` applies.
    fn has_until(self) -> bool
        ensures { result ≡ has_until self }
    {
        matches!(self, Event::Granted | Event::Renewed)
    }
}

impl LogEntry {
    // Whether every field, and the offset of the entry's host, is in range. The offset is passed beside the entry here and
    // below: an entry of the log has none.
    pub fn is_printable(self, offset: i32) -> bool
        ensures { result ≡ printable self offset }
    {
        let lease_fits = if self.event.has_lease() {
            self.resource <= 7 && 1 <= self.term && self.term <= 999_999
        } else {
            self.resource == 0 && self.term == 0
        };
        let until_fits = if self.event.has_until() {
            1 <= self.until.0 && self.until.0 <= 1_999_999
        } else {
            self.until.0 == 0
        };
        self.tick.0 <= 999_999 && self.host <= 15 && lease_fits && until_fits && is_offset(offset)
    }

    // Prints the line of the entry, with the offset of its host, to the front of a buffer; a refusal zeroes the whole
    // buffer, and the bytes behind the line stay. Answers the length of the line.
    #[tactic(auto, using(crate::proofs::Lines::lines_differ))]
    pub fn print(self, offset: i32, buffer: &mut [u8]) -> Result<usize, Refusal>
        ensures answer { result ≡ print_answer (printable self offset) (line_text self offset) (length buffer.old) }
        ensures buffer { buffer.new ≡ print_after result (line_text self offset) buffer.old }
        ensures differ { LinesDiffer }
    {
        let in_range = self.is_printable(offset);
        // no line is made of values out of range
        let line = if in_range {
            line_of(self, offset)
        } else {
            LineBuffer::new()
        };
        line.copy_if(in_range, buffer)
    }

    // The entry and the offset whose line the bytes are; any other bytes are refused.
    pub fn parse(text: &[u8]) -> Result<(LogEntry, i32), Refusal>
        ensures { ReadsLine text.now result }
    {
        candidate(text)
            .filter(|(entry, offset)| {
                entry.is_printable(*offset) && line_of(*entry, *offset).text() == text
            })
            .ok_or(Refusal::NotALine)
    }
}

// Adds the word of an event and a space.
fn push_event(line: &mut LineBuffer, event: Event)
    ensures { Adds line.old (spaced (event_word event) []) line.new }
{
    line.push_all(event.word());
    line.push(b' ');
}

// The line of an entry. It fits the line buffer with fields and an offset of any value.
fn line_of(entry: LogEntry, offset: i32) -> LineBuffer
    ensures { held result ≡ line_text entry offset }
{
    let LogEntry {
        tick: Tick(tick),
        event,
        host,
        resource,
        term,
        until: Tick(until),
    } = entry;
    let mut line = LineBuffer::new();
    line.push_field(Some(tick));
    push_event(&mut line, event);
    line.push_field(Some(u32::from(host)));
    line.push_field(event.has_lease().then_some(u32::from(resource)));
    line.push_field(event.has_lease().then_some(term));
    line.push_field(event.has_until().then_some(until));
    push_offset(&mut line, offset);
    line.push(b'\n');
    line
}

// How many bytes stand before the first space.
fn before_space(text: &[u8]) -> Option<usize>
    ensures { result ≡ position (λ b. b == 32) text.now }
{
    text.iter().position(|byte| *byte == b' ')
}

// The field before the first space, and what follows the space.
fn split_field(text: &[u8]) -> Option<(&[u8], &[u8])>
    ensures { MatchOption result ((x y : List ℕ) → Spaceless x → text.now ≢ spaced x y) (λ p. (x y : List ℕ) → Spaceless x → text.now ≡ spaced x y → (p.0.now ≡ x) × (p.1.now ≡ y)) }
{
    let end = before_space(text)?;
    Some((&text[..end], &text[end + 1..]))
}

// The number of a field; 0 for a minus, as a field of an entry that does not apply is 0.
fn number_in(field: &[u8]) -> Option<u32>
    ensures { MatchOption result ((applies : Bool) (n : ℕ) → n < 10 ^ 9 → field.now ≢ number_or_dash applies n) (λ k. (applies : Bool) (n : ℕ) → n < 10 ^ 9 → (applies ≡ false → n ≡ 0) → field.now ≡ number_or_dash applies n → k ≡ n) }
{
    if field == b"-".as_slice() {
        return Some(0);
    }
    read_decimal(field)
}

// The same, if it fits a byte.
fn small_number_in(field: &[u8]) -> Option<u8>
    ensures { MatchOption result ((applies : Bool) (n : ℕ) → n < 256 → (applies ≡ false → n ≡ 0) → field.now ≢ number_or_dash applies n) (λ k. (applies : Bool) (n : ℕ) → n < 256 → (applies ≡ false → n ≡ 0) → field.now ≡ number_or_dash applies n → k ≡ n) }
{
    u8::try_from(number_in(field)?).ok()
}

// The event that a line names by this word.
fn event_in(word: &[u8]) -> Option<Event>
    ensures { MatchOption result ((v : Event) → word.now ≢ event_word v) (λ v. word.now ≡ event_word v) }
{
    // a `for`: what `find` promises is about the run of an iterator, and the check does not come from there to the clause
    for event in EVENTS {
        if event.word() == word {
            return Some(event);
        }
    }
    None
}

// The entry and the offset that print so, if any do.
fn candidate(text: &[u8]) -> Option<(LogEntry, i32)>
    ensures { MatchOption result ((p : LogEntry × ℤ) → PrintsLine p.0 p.1 text.now → ⊥) (λ q. (p : LogEntry × ℤ) → PrintsLine p.0 p.1 text.now → p ≡ q) }
{
    let (tick, rest) = split_field(text)?;
    let (word, rest) = split_field(rest)?;
    let (host, rest) = split_field(rest)?;
    let (resource, rest) = split_field(rest)?;
    let (term, rest) = split_field(rest)?;
    let (until, rest) = split_field(rest)?;
    let offset = rest.strip_suffix(b"\n")?;
    let entry = LogEntry {
        tick: Tick(number_in(tick)?),
        event: event_in(word)?,
        host: small_number_in(host)?,
        resource: small_number_in(resource)?,
        term: number_in(term)?,
        until: Tick(number_in(until)?),
    };
    Some((entry, candidate_offset(offset)?))
}
