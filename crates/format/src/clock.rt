// Ticks of the room and readings of a host's clock: two kinds of number that only a host's offset joins.
ghost use Rattle.std.specs.Prelude.{◌≡◌};
ghost use Rattle.format.specs.Times.{reading_at, tick_at, ClockLaws};

// A tick of the room's own time, a millisecond.
#[derive(Clone, Copy, PartialEq, Eq, PartialOrd, Ord, Debug, Default)]
pub struct Tick(pub u32);

// What a host's clock reads at some tick: the tick less the host's offset. A reading belongs to its host and is
// compared only with readings of the same host.
#[derive(Clone, Copy, PartialEq, Eq, PartialOrd, Ord, Debug)]
pub struct Reading(pub i64);

impl Tick {
    // What a clock with this offset reads at the tick.
    pub fn reading(self, offset: i32) -> Reading
        ensures value { result.0 ≡ reading_at self.0 offset }
        ensures laws { ClockLaws }
    {
        Reading(i64::from(self.0) - i64::from(offset))
    }
}

impl Reading {
    // The tick at which a clock with this offset reads so; the nearest tick that there is, where it never does.
    pub fn tick(self, offset: i32) -> Tick
        ensures { result.0 ≡ tick_at self.0 offset }
    {
        let number = self.0.saturating_add(i64::from(offset));
        Tick(number.clamp(0, i64::from(u32::MAX)) as u32)
    }
}
