// A layer that tries a failing access again.
ghost use Rattle.std.specs.Prelude.{◌≡◌, ◌≤◌};
ghost use Rattle.disk.specs.Layers.{tries_from, retried};
ghost use Rattle.disk.specs.Tries.{Tried};
ghost use Rattle.disk.specs.History.{History};
ghost use Rattle.disk.specs.Bounds.{retried_bounds};

use crate::device::{Disk, admit, admit_read};
use crate::fault::Fault;

// The most times that an access is tried.
const MOST_TRIES: usize = 8;

#[derive(Drop)]
pub struct Retry<D> {
    below: D,
    tries: usize,
    ghost tries_low: { 1 ≤ tries },
    ghost tries_high: { tries ≤ 8 },
}

impl<D: Disk> Retry<D> {
    // Any number of tries may be wanted; it is brought into 1 to 8.
    pub fn new(below: D, wanted: usize) -> Self
        ensures made { (result.below ≡ below) × (result.tries ≡ tries_from wanted) }
        ensures history { History (retried (tries_from wanted) (D.Disk.meaning below)) }
    {
        let tries = wanted.clamp(1, MOST_TRIES);
        Retry { below, tries }
    }
}

// Tries an access until it succeeds, so many times at most. The closure is lent: so it is known afterwards what it has
// changed.
fn attempt<F: FnMut() -> Result<(), Fault>>(tries: usize, access: &mut F) -> Result<(), Fault>
    requires callable { F.IsAlwaysCallable access.old }
    requires some { 1 ≤ tries }
    ensures { Tried F.step tries access.old result access.new }
{
    for _again in 1..tries {
        if access().is_ok() {
            return Ok(());
        }
    }
    access()
}

impl<D: Disk> Disk for Retry<D> {
    ghost meaning = { λ s. retried s.tries (D.Disk.meaning s.below) };

    ghost outside = { λ s. D.Disk.outside s.below };

    ghost bounds = { λ s. retried_bounds s.tries (D.Disk.meaning s.below) (D.Disk.bounds s.below) };

    fn count(&self) -> usize {
        self.below.count()
    }

    fn height(&self) -> u8 {
        self.below.height().saturating_add(1)
    }

    fn read(&mut self, number: usize, area: &mut [u8]) -> Result<(), Fault> {
        admit_read(number, area, self.count(), self.height())?;
        attempt(self.tries, &mut || self.below.read(number, area))
    }

    fn write(&mut self, number: usize, area: &[u8]) -> Result<(), Fault> {
        admit(number, area.len(), self.count(), self.height())?;
        attempt(self.tries, &mut || self.below.write(number, area))
    }
}
