// Set clock, open and tick.
ghost use Rattle.std.specs.Prelude.{◌≡◌, ◌<◌, true, List, length, IfOk, OnOk};
ghost use Rattle.disk.specs.Model.{DiskModel};
ghost use Rattle.format.specs.declared.events.LogEntry.{LogEntry};
ghost use Rattle.format.specs.Offsets.{near as is_near};
ghost use Rattle.machine.specs.Setup.{clock_tests, now_open, one_tick_on, set_clock_call, tick_call};
ghost use Rattle.board.specs.Judging.{passed};
ghost use Rattle.board.specs.Over.{alone, over, world_over};
ghost use Rattle.board.specs.Verdicts.{open_tests, raised, verdict};

use crate::board::Board;
use crate::flights::is_lost;
use crate::refusals::whole_block;
use crate::turns::HostNumber;
use disk::Refusal;
use format::{Tick, is_offset};

// The last tick.
const LAST_TICK: u32 = 999_999;

impl Board {
    // The room is still closed, the host is there, and the offset is within a day.
    fn settable(&self, host: usize, offset: i32) -> Result<HostNumber, Refusal>
        ensures answer { passed result ≡ verdict (clock_tests (alone self.now) host offset) }
        ensures whose { IfOk result (λ h. h.number ≡ host) }
        ensures near { OnOk result (is_near offset ≡ true) }
    {
        self.closed_to_calls()?;
        let host = self.known_host(host)?;
        if !is_offset(offset) {
            return Err(Refusal::BadValue);
        }
        Ok(host)
    }

    // Sets the clock of a host, before the room is opened.
    pub fn set_clock(&mut self, host: usize, offset: i32) -> Result<(), Refusal>
        ensures answer { (d : DiskModel) (log : List LogEntry) → raised (over d self.old) result ≡ (set_clock_call (world_over d self.old log) host offset).answer }
        ensures world { (d : DiskModel) (log : List LogEntry) → world_over d self.new log ≡ (set_clock_call (world_over d self.old log) host offset).world }
    {
        let host = self.settable(host, offset)?;
        self.set_offset(host, offset);
        Ok(())
    }

    // Whether the room may be opened, as far as that is no matter of its disk.
    pub fn openable(&self, area: &[u8]) -> Result<(), Refusal>
        ensures answer { result ≡ verdict (open_tests (alone self.now) area.now) }
        ensures long { OnOk result (length area.now ≡ 512) }
    {
        whole_block(area)?;
        self.closed_to_calls()
    }

    // The room is open from now on.
    pub fn set_open(&mut self)
        ensures { (d : DiskModel) → over d self.new ≡ now_open (over d self.old) }
    {
        self.opened = true;
    }

    // The tick rises by one, and the writes that are too old are lost.
    fn pass(&mut self)
        requires { self.old.tick.0 < 999999 }
        ensures { alone self.new ≡ one_tick_on (alone self.old) }
    {
        let tick = Tick(self.tick.0 + 1);
        let delay = self.settings.delay;
        self.flights.retain(|flight| !is_lost(*flight, delay, tick));
        self.tick = tick;
    }

    // A millisecond passes.
    pub fn tick(&mut self) -> Result<(), Refusal>
        ensures answer { (d : DiskModel) (log : List LogEntry) → raised (over d self.old) result ≡ (tick_call (world_over d self.old log)).answer }
        ensures world { (d : DiskModel) (log : List LogEntry) → world_over d self.new log ≡ (tick_call (world_over d self.old log)).world }
    {
        self.open_for_calls()?;
        if self.tick.0 >= LAST_TICK {
            return Err(Refusal::NumberSpent);
        }
        self.pass();
        Ok(())
    }
}
