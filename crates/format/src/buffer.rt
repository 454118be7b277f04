// A line of text that is being made.
use arrayvec::ArrayVec;

// The most bytes that a line buffer holds; no line that the library prints is longer.
pub(crate) const LINE_LENGTH: usize = 64;

// The text so far.
#[derive(Drop)]
pub(crate) struct LineBuffer {
    pub(crate) bytes: ArrayVec<u8, LINE_LENGTH>,
}
