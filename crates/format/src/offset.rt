// Clock offsets as text.
ghost use Rattle.std.specs.Prelude.{◌≡◌, ℕ, ◌+◌, ◌<◌, ◌≤◌, length, ℤ, MatchOption, ◌≢◌};
ghost use Rattle.format.specs.Texts.{held, Adds, print_answer, print_after};
ghost use Rattle.format.specs.Offsets.{near, sign, seconds_text, offset_text, PrintsOffset, ReadsOffset};

use crate::buffer::LineBuffer;
use crate::decimal::read_decimal;
use disk::Refusal;

// A clock is at most a day off, either way, in milliseconds.
pub const MOST_OFFSET: u32 = 86_400_000;

// Whether an offset is in range.
pub fn is_offset(offset: i32) -> bool
    ensures { result ≡ near offset }
{
    offset.unsigned_abs() <= MOST_OFFSET
}

// A minus below zero, else a plus.
fn sign_byte(offset: i32) -> u8
    ensures { result ≡ sign offset }
{
    if offset < 0 { b'-' } else { b'+' }
}

// Adds an offset to a line; pushed like all pieces of a line, and no `Display` (`text` says why).
pub(crate) fn push_offset(line: &mut LineBuffer, offset: i32)
    ensures { Adds line.old (offset_text offset) line.new }
{
    line.push(sign_byte(offset));
    let millis = offset.unsigned_abs();
    line.push_decimal(millis / 1000);
    line.push(b'.');
    line.push_digit(millis / 100);
    line.push_digit(millis / 10);
    line.push_digit(millis);
}

// The text of an offset, which may be of any value.
fn offset_line(offset: i32) -> LineBuffer
    ensures { held result ≡ offset_text offset }
{
    let mut line = LineBuffer::new();
    push_offset(&mut line, offset);
    line
}

// Prints an offset in milliseconds to the front of a buffer; a refusal zeroes the whole buffer.
pub fn print_offset(offset: i32, buffer: &mut [u8]) -> Result<usize, Refusal>
    ensures answer { result ≡ print_answer (near offset) (offset_text offset) (length buffer.old) }
    ensures buffer { buffer.new ≡ print_after result (offset_text offset) buffer.old }
{
    let in_range = is_offset(offset);
    // no line is made of a value out of range
    let line = if in_range {
        offset_line(offset)
    } else {
        LineBuffer::new()
    };
    line.copy_if(in_range, buffer)
}

// The value of a decimal digit.
fn digit(byte: u8) -> Option<u32>
    ensures { MatchOption result ((d : ℕ) → d < 10 → byte ≢ 48 + d) (λ d. (d < 10) × (byte ≡ 48 + d)) }
{
    char::from(byte).to_digit(10)
}

// The milliseconds that whole seconds, a point and three digits write, if they are written so.
fn candidate_millis(text: &[u8]) -> Option<u32>
    ensures { MatchOption result ((m : ℕ) → m ≤ 86400000 → text.now ≢ seconds_text m) (λ k. (k ≤ 999999999) × ((m : ℕ) → m ≤ 86400000 → text.now ≡ seconds_text m → m ≡ k)) }
{
    let [whole @ .., _, x, y, z] = text else {
        return None;
    };
    let seconds = read_decimal(whole)?;
    if seconds > MOST_OFFSET / 1000 {
        return None;
    }
    Some(seconds * 1000 + digit(*x)? * 100 + digit(*y)? * 10 + digit(*z)?)
}

// The offset that a sign and the milliseconds behind it write, if they are written so.
pub(crate) fn candidate_offset(text: &[u8]) -> Option<i32>
    ensures { MatchOption result ((z : ℤ) → PrintsOffset z text.now → ⊥) (λ y. (z : ℤ) → PrintsOffset z text.now → z ≡ y) }
{
    match text {
        [b'-', rest @ ..] => {
            let millis = candidate_millis(rest)?;
            Some(-(millis as i32))
        }
        [b'+', rest @ ..] => {
            let millis = candidate_millis(rest)?;
            Some(millis as i32)
        }
        _ => None,
    }
}

// The offset that prints so.
pub fn read_offset(text: &[u8]) -> Result<i32, Refusal>
    ensures { ReadsOffset text.now result }
{
    candidate_offset(text)
        .filter(|offset| is_offset(*offset) && offset_line(*offset).text() == text)
        .ok_or(Refusal::NotALine)
}
