// A layer that shows a run of the blocks of the disk below, renumbered from 0.
ghost use Rattle.std.specs.Prelude.{◌≡◌};
ghost use Rattle.disk.specs.Layers.{spanned, spanned_outside};
ghost use Rattle.disk.specs.History.{History};
ghost use Rattle.disk.specs.Bounds.{spanned_bounds};

use crate::device::{Disk, admit, admit_read};
use crate::fault::Fault;

// Blocks `base` to `base + length - 1` of the disk below, as far as they exist; both numbers may be any.
#[derive(Drop)]
pub struct Span<D> {
    below: D,
    base: usize,
    length: usize,
}

impl<D: Disk> Span<D> {
    pub fn new(below: D, base: usize, length: usize) -> Self
        ensures made { (result.below ≡ below) × (result.base ≡ base) × (result.length ≡ length) }
        ensures history { History (spanned base length (D.Disk.meaning below)) }
    {
        Span {
            below,
            base,
            length,
        }
    }
}

impl<D: Disk> Disk for Span<D> {
    ghost meaning = { λ s. spanned s.base s.length (D.Disk.meaning s.below) };

    ghost outside = { λ s. spanned_outside s.base s.length (D.Disk.meaning s.below) (D.Disk.outside s.below) };

    ghost bounds = { λ s. spanned_bounds s.base s.length (D.Disk.meaning s.below) (D.Disk.bounds s.below) };

    fn count(&self) -> usize {
        self.below
            .count()
            .saturating_sub(self.base)
            .min(self.length)
    }

    fn height(&self) -> u8 {
        self.below.height().saturating_add(1)
    }

    fn read(&mut self, number: usize, area: &mut [u8]) -> Result<(), Fault> {
        admit_read(number, area, self.count(), self.height())?;
        self.below.read(self.base + number, area)
    }

    fn write(&mut self, number: usize, area: &[u8]) -> Result<(), Fault> {
        admit(number, area.len(), self.count(), self.height())?;
        self.below.write(self.base + number, area)
    }
}
