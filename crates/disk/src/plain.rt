// A disk over bytes that are lent to it; its blocks never fail, and a tail that fills no block is never touched.
ghost use Rattle.std.specs.Prelude.{◌≡◌, ◌<◌};
ghost use Rattle.disk.specs.Images.{plain, plain_outside, whole_blocks, block_bytes};
ghost use Rattle.disk.specs.History.{History};
ghost use Rattle.disk.specs.Bounds.{plain_bounds};

use crate::device::{BLOCK_LENGTH, Disk, MOST_BLOCKS, admit, admit_read};
use crate::fault::Fault;

#[derive(Drop)]
pub struct PlainImage<'a> {
    bytes: &'a mut [u8],
}

impl<'a> PlainImage<'a> {
    pub fn new(bytes: &'a mut [u8]) -> PlainImage<'a>
        ensures holds { result.bytes.now ≡ bytes.old }
        ensures lent { result.bytes.ghost_name ≡ bytes.entry.ghost_name }
        ensures history { History (plain bytes.old) }
    {
        PlainImage { bytes }
    }
}

impl PlainImage<'_> {
    // The bytes of a block. Through `&self`, so that they are known to stay.
    fn block(&self, number: usize) -> &[u8]
        requires { number < whole_blocks self.now.bytes.now }
        ensures { result.now ≡ block_bytes self.now.bytes.now number }
    {
        let start = number * BLOCK_LENGTH;
        &self.bytes[start..start + BLOCK_LENGTH]
    }
}

impl Disk for PlainImage<'_> {
    ghost meaning = { λ s. plain s.bytes.now };

    ghost outside = { λ s. plain_outside s.bytes.now };

    ghost bounds = { λ s. plain_bounds s.bytes.now };

    fn count(&self) -> usize {
        (self.bytes.len() / BLOCK_LENGTH).min(MOST_BLOCKS)
    }

    fn height(&self) -> u8 {
        0
    }

    fn read(&mut self, number: usize, area: &mut [u8]) -> Result<(), Fault> {
        admit_read(number, area, self.count(), 0)?;
        area.copy_from_slice(self.block(number));
        Ok(())
    }

    fn write(&mut self, number: usize, area: &[u8]) -> Result<(), Fault> {
        admit(number, area.len(), self.count(), 0)?;
        // the range once more, as in `block`: what bytes are after a chunk of `as_chunks_mut` is written is not promised, and
        // a function that answers the range would only state its bounds once more
        let start = number * BLOCK_LENGTH;
        self.bytes[start..start + BLOCK_LENGTH].copy_from_slice(area);
        Ok(())
    }
}
