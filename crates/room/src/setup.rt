// Found, set clock, open and tick.
ghost use Rattle.std.specs.Prelude.{◌≡◌, ◌≤◌, List, replicate};
ghost use Rattle.format.specs.declared.events.LogEntry.{LogEntry};
ghost use Rattle.machine.specs.Room.{founded};
ghost use Rattle.machine.specs.Setup.{formatting, open_call, set_clock_call, tick_call};
ghost use Rattle.room.specs.Rooms.{as_room, as_world, zeros};
ghost use Rattle.room.specs.Runs.{SoundFrom};

use crate::room::Room;
use board::Board;
use disk::{Disk, Fault, Refusal};
use format::{LeaseRecord, write_record};
use machine::Settings;

impl<D: Disk> Room<D> {
    // A room as it is founded, above any disk: closed, at tick 0, with nothing in flight or logged. Whatever calls are
    // made of it from here on, it stays sound.
    pub fn found(settings: Settings, disk: D) -> Room<D>
        ensures room { as_room D.Disk.meaning result ≡ founded settings (D.Disk.meaning disk) }
        ensures outside { D.Disk.outside result.disk ≡ D.Disk.outside disk }
        ensures sound { SoundFrom (as_room D.Disk.meaning result) }
    {
        Room {
            disk,
            board: Board::new(settings),
        }
    }

    // Sets the clock of a host, before the room is opened.
    pub fn set_clock(&mut self, host: usize, offset: i32) -> Result<(), Fault>
        ensures answer { (log : List LogEntry) → result ≡ (set_clock_call (as_world D.Disk.meaning self.old log) host offset).answer }
        ensures world { (log : List LogEntry) → as_world D.Disk.meaning self.new log ≡ (set_clock_call (as_world D.Disk.meaning self.old log) host offset).world }
        ensures outside { D.Disk.outside self.new.disk ≡ D.Disk.outside self.old.disk }
    {
        let answer = self.board.set_clock(host, offset);
        self.raise(answer)
    }

    // Writes the founding records of so many resources with an area that is all zero, as it is afterwards too, and opens
    // the room. The first block that fails ends it.
    #[tactic(auto, using(crate::proofs::Formatting::format_next, format::proofs::Decoding::length_block), unfolding(format::specs::Stores::after_record, format::specs::Stores::write_answer))]
    fn format_blocks(&mut self, resources: usize, area: &mut [u8]) -> Result<(), Fault>
        requires blank { area.old ≡ replicate 512 0 }
        requires few { resources ≤ 8 }
        ensures answer { (log : List LogEntry) → result ≡ (formatting (as_world D.Disk.meaning self.old log) 0 resources).answer }
        ensures world { (log : List LogEntry) → as_world D.Disk.meaning self.new log ≡ (formatting (as_world D.Disk.meaning self.old log) 0 resources).world }
        ensures blank { area.new ≡ area.old }
        ensures outside { D.Disk.outside self.new.disk ≡ D.Disk.outside self.old.disk }
    {
        for resource in 0..resources {
            write_record(&mut self.disk, LeaseRecord::founding(resource as u8), area)?;
        }
        self.board.set_open();
        Ok(())
    }

    // Formats the blocks of all resources, and opens the room.
    #[tactic(auto, unfolding(machine::specs::Setup::open_call))]
    pub fn open(&mut self, area: &mut [u8]) -> Result<(), Fault>
        ensures answer { (log : List LogEntry) → result ≡ (open_call (as_world D.Disk.meaning self.old log) area.old).answer }
        ensures world { (log : List LogEntry) → as_world D.Disk.meaning self.new log ≡ (open_call (as_world D.Disk.meaning self.old log) area.old).world }
        ensures area { area.new ≡ zeros area.old }
        ensures outside { D.Disk.outside self.new.disk ≡ D.Disk.outside self.old.disk }
    {
        let tested = self.board.openable(area);
        self.admit(tested, area)?;
        area.fill(0);
        let resources = self.board.resources();
        if self.disk.count() < resources {
            return Err(Refusal::NoSuchBlock.at(resources - 1, self.height()));
        }
        self.format_blocks(resources, area)
    }

    // A millisecond passes, and the writes that are too old are lost.
    pub fn tick(&mut self) -> Result<(), Fault>
        ensures answer { (log : List LogEntry) → result ≡ (tick_call (as_world D.Disk.meaning self.old log)).answer }
        ensures world { (log : List LogEntry) → as_world D.Disk.meaning self.new log ≡ (tick_call (as_world D.Disk.meaning self.old log)).world }
        ensures outside { D.Disk.outside self.new.disk ≡ D.Disk.outside self.old.disk }
    {
        let answer = self.board.tick();
        self.raise(answer)
    }
}
