// What clocks read.
ghost use Rattle.std.specs.Prelude.{◌≡◌, ◌≤◌, true, pos, ◌+ℤ◌, unsigned_abs};
ghost use Rattle.machine.specs.Room.{reading as reading_of};
ghost use Rattle.board.specs.Bounds.{shown as is_shown};

use crate::board::Board;
use crate::turns::HostNumber;
use format::Reading;

// A reading that the clock of a host can show.
#[derive(Clone, Copy, PartialEq, Eq, Debug)]
pub struct ShownReading {
    pub(crate) reading: Reading,
    ghost shown: { is_shown reading.0 ≡ true },
}

impl ShownReading {
    // The reading some milliseconds later.
    pub(crate) fn later(self, millis: u32) -> Reading
        requires { millis ≤ 60000 }
        ensures value { result.0 ≡ self.reading.0 +ℤ pos millis }
        ensures near { unsigned_abs result.0 ≤ 87459999 }
    {
        Reading(self.reading.0 + i64::from(millis))
    }
}

impl Board {
    ghost use Rattle.board.specs.Over.{alone};

    // What the clock of a host shows now.
    pub(crate) fn shown(&self, host: HostNumber) -> ShownReading
        ensures { result.reading.0 ≡ reading_of (alone self.now) host.number }
    {
        ShownReading {
            reading: self.tick.reading(self.hosts[host.number].offset),
        }
    }
}
