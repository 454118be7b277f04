// Making a line of text piece by piece. A piece that does not fit any more is dropped, so that no function that makes
// a line has to speak of room; that no piece is dropped follows once, from the length of a whole line. Pieces are pushed
// and not written by `write!`, since what `write!` promises for any writer leaves open whether it succeeds.
ghost use Rattle.std.specs.Prelude.{◌≡◌, ◌+◌, ◌%◌, [], ◌∷◌, length, decimal, is_some, unwrap_or};
ghost use Rattle.format.specs.Texts.{held, Adds, spaced, number_or_dash, print_answer, print_after};

use crate::buffer::LineBuffer;
use arrayvec::ArrayVec;
use disk::Refusal;

impl LineBuffer {
    pub(crate) fn new() -> LineBuffer
        ensures { held result ≡ [] }
    {
        LineBuffer {
            bytes: ArrayVec::new(),
        }
    }

    pub(crate) fn push(&mut self, byte: u8)
        ensures { Adds self.old (byte ∷ []) self.new }
    {
        let _ = self.bytes.try_push(byte);
    }

    pub(crate) fn push_all(&mut self, text: &[u8])
        ensures { Adds self.old text.now self.new }
    {
        let _ = self.bytes.try_extend_from_slice(text);
    }

    // A number in decimal.
    pub(crate) fn push_decimal(&mut self, n: u32)
        ensures { Adds self.old (decimal n) self.new }
    {
        self.push_all(itoa::Buffer::new().format(n).as_bytes());
    }

    // The last digit of a number in decimal.
    pub(crate) fn push_digit(&mut self, n: u32)
        ensures { Adds self.old ((48 + n % 10) ∷ []) self.new }
    {
        self.push(b'0' + (n % 10) as u8);
    }

    // A number, or a minus where it does not apply, and a space.
    pub(crate) fn push_field(&mut self, field: Option<u32>)
        ensures { Adds self.old (spaced (number_or_dash (is_some field) (unwrap_or field 0)) []) self.new }
    {
        match field {
            Some(n) => self.push_decimal(n),
            None => self.push(b'-'),
        }
        self.push(b' ');
    }

    // The text so far.
    pub(crate) fn text(&self) -> &[u8]
        ensures { result.now ≡ held self.now }
    {
        self.bytes.as_slice()
    }

    // Copies the text to the front of a buffer, if it tells values in range and the buffer is long enough; otherwise the
    // buffer is zeroed.
    pub(crate) fn copy_if(&self, in_range: bool, buffer: &mut [u8]) -> Result<usize, Refusal>
        ensures answer { result ≡ print_answer in_range (held self.now) (length buffer.old) }
        ensures buffer { buffer.new ≡ print_after result (held self.now) buffer.old }
    {
        let text = self.text();
        let len = text.len();
        if in_range && len <= buffer.len() {
            buffer[..len].copy_from_slice(text);
            return Ok(len);
        }
        buffer.fill(0);
        Err(if in_range {
            Refusal::BufferShort
        } else {
            Refusal::BadValue
        })
    }
}
