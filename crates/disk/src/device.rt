// A disk, as its callers know it.
ghost use Rattle.std.specs.Prelude.{◌≡◌, length, replicate, MatchResult};
ghost use Rattle.disk.specs.Model.{DiskModel, Outside, Bounds, count as count_of, access_answer, after_read, after_write, area_after_read, Admission};

use crate::fault::{Fault, Refusal};

// The bytes of a block.
pub const BLOCK_LENGTH: usize = 512;

// No disk shows more blocks.
pub const MOST_BLOCKS: usize = 4096;

// The area of a call is the caller's buffer for one block.
pub trait Disk {
    // The height of the disk and its blocks.
    ghost meaning: { Self → DiskModel };

    // What the disk holds or lies over and does not show as one of its blocks.
    ghost outside: { Self → Outside };

    // Each kind of disk shows that its meaning keeps the bounds of height, count, block length and tallies.
    ghost bounds: { (x : Self) → Bounds (meaning x) };

    // How many blocks there are.
    fn count(&self) -> usize
        ensures { result ≡ count_of (meaning self.now) };

    // How many layers lie below, up to 255.
    fn height(&self) -> u8
        ensures { result ≡ (meaning self.now).height };

    // Fills the area from the block, or zeroes it and says why.
    fn read(&mut self, number: usize, area: &mut [u8]) -> Result<(), Fault>
        ensures answer { result ≡ access_answer (meaning self.old) number (length area.old) }
        ensures disk { meaning self.new ≡ after_read (meaning self.old) number (length area.old) }
        ensures area { area.new ≡ area_after_read (meaning self.old) number (length area.old) }
        ensures outside { outside self.new ≡ outside self.old };

    // Fills the block from the area, or says why not.
    fn write(&mut self, number: usize, area: &[u8]) -> Result<(), Fault>
        ensures answer { result ≡ access_answer (meaning self.old) number (length area.now) }
        ensures disk { meaning self.new ≡ after_write (meaning self.old) number area.now }
        ensures outside { outside self.new ≡ outside self.old };
}

// Refuses an access with an area that is not one block long, or of a block that is not there. It takes plain numbers and
// no `&D`: a generic function may not be called on the disk in whose `impl` the call stands.
pub(crate) fn admit(number: usize, size: usize, count: usize, height: u8) -> Result<(), Fault>
    ensures { Admission count height number size result }
{
    if size != BLOCK_LENGTH {
        return Err(Refusal::WrongLength.at(number, height));
    }
    if number >= count {
        return Err(Refusal::NoSuchBlock.at(number, height));
    }
    Ok(())
}

// Passes on how far a read came; a refused one leaves the area all zero.
pub(crate) fn zero_if_refused(answer: Result<(), Fault>, area: &mut [u8]) -> Result<(), Fault>
    ensures answer { result ≡ answer }
    ensures area { MatchResult answer (λ _. area.new ≡ area.old) (λ _. area.new ≡ replicate (length area.old) 0) }
{
    if answer.is_err() {
        area.fill(0);
    }
    answer
}

// The same of a read, which leaves the area all zero where it is refused.
pub(crate) fn admit_read(
    number: usize,
    area: &mut [u8],
    count: usize,
    height: u8,
) -> Result<(), Fault>
    ensures admission { Admission count height number (length area.old) result }
    ensures area { MatchResult result (λ _. area.new ≡ area.old) (λ _. area.new ≡ replicate (length area.old) 0) }
{
    zero_if_refused(admit(number, area.len(), count, height), area)
}
