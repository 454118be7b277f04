// A disk over lent bytes and a lent list of tallies, by which the accesses of its blocks fail.
ghost use Rattle.std.specs.Prelude.{◌≡◌, ◌<◌, true, false, length, slice_set, MatchResult};
ghost use Rattle.disk.specs.Images.{tired, tired_outside};
ghost use Rattle.disk.specs.Tallies.{tally as tally_of, exhausted, tally_after};
ghost use Rattle.disk.specs.History.{History};
ghost use Rattle.disk.specs.Bounds.{tired_bounds};

use crate::device::{Disk, admit, admit_read, zero_if_refused};
use crate::fault::{Fault, Refusal};
use crate::plain::PlainImage;
use crate::tally::Tally;

// Bytes and tallies are two lists, since the caller lends them as two.
#[derive(Drop)]
pub struct TiredImage<'a> {
    image: PlainImage<'a>,
    tallies: &'a mut [Tally],
}

impl Tally {
    // Whether the next access fails.
    fn is_exhausted(self) -> bool
        ensures { result ≡ exhausted self }
    {
        self.good == 0 && self.due > 0
    }

    // What is left after the next access.
    fn after_access(self) -> Tally
        ensures { result ≡ tally_after self }
    {
        let Tally { good, due } = self;
        if self.is_exhausted() {
            return Tally { good, due: due - 1 };
        }
        Tally {
            good: good.saturating_sub(1),
            due,
        }
    }
}

// Counts an access of the block, which its tally may let fail.
fn count_access(tallies: &mut [Tally], number: usize) -> Result<(), Fault>
    requires { number < length tallies.old }
    ensures answer { MatchResult result (λ _. exhausted (tally_of tallies.old number) ≡ false) (λ f. (exhausted (tally_of tallies.old number) ≡ true) × (f ≡ record { cause = Refusal.AccessFailed; number = number; height = 0 })) }
    ensures after { tallies.new ≡ slice_set tallies.old number (tally_after (tally_of tallies.old number)) }
{
    let tally = tallies[number];
    tallies[number] = tally.after_access();
    if tally.is_exhausted() {
        return Err(Refusal::AccessFailed.at(number, 0));
    }
    Ok(())
}

impl<'a> TiredImage<'a> {
    pub fn new(bytes: &'a mut [u8], tallies: &'a mut [Tally]) -> TiredImage<'a>
        ensures bytes { result.image.bytes.now ≡ bytes.old }
        ensures tallies { result.tallies.now ≡ tallies.old }
        ensures lent { (result.image.bytes.ghost_name ≡ bytes.entry.ghost_name) × (result.tallies.ghost_name ≡ tallies.entry.ghost_name) }
        ensures history { History (tired bytes.old tallies.old) }
    {
        let image = PlainImage::new(bytes);
        TiredImage { image, tallies }
    }
}

impl Disk for TiredImage<'_> {
    ghost meaning = { λ s. tired s.image.bytes.now s.tallies.now };

    ghost outside = { λ s. tired_outside s.image.bytes.now s.tallies.now };

    ghost bounds = { λ s. tired_bounds s.image.bytes.now s.tallies.now };

    fn count(&self) -> usize {
        self.image.count().min(self.tallies.len())
    }

    fn height(&self) -> u8 {
        0
    }

    fn read(&mut self, number: usize, area: &mut [u8]) -> Result<(), Fault> {
        admit_read(number, area, self.count(), 0)?;
        zero_if_refused(count_access(self.tallies, number), area)?;
        self.image.read(number, area)
    }

    fn write(&mut self, number: usize, area: &[u8]) -> Result<(), Fault> {
        admit(number, area.len(), self.count(), 0)?;
        count_access(self.tallies, number)?;
        self.image.write(number, area)
    }
}
