// What becomes of writes and blocks: land, lose, spoil.
ghost use Rattle.std.specs.Prelude.{◌≡◌, List};
ghost use Rattle.format.specs.declared.events.LogEntry.{LogEntry};
ghost use Rattle.machine.specs.Writes.{land_call, lose_call, spoil_call};
ghost use Rattle.room.specs.Rooms.{as_world, zeros};
ghost use Rattle.board.specs.Verdicts.{mark_of};

use crate::room::Room;
use board::WriteName;
use disk::{Disk, Fault};
use format::write_record;

impl<D: Disk> Room<D> {
    // Writes a record that is in flight to the block of its resource.
    #[tactic(auto, using(format::proofs::Decoding::length_block), unfolding(format::specs::Stores::after_record, format::specs::Stores::write_answer, machine::specs::Writes::land_call))]
    pub fn land(&mut self, name: WriteName, area: &mut [u8]) -> Result<(), Fault>
        ensures answer { (log : List LogEntry) → result ≡ (land_call (as_world D.Disk.meaning self.old log) (mark_of name) area.old).answer }
        ensures world { (log : List LogEntry) → as_world D.Disk.meaning self.new log ≡ (land_call (as_world D.Disk.meaning self.old log) (mark_of name) area.old).world }
        ensures area { area.new ≡ zeros area.old }
        ensures outside { D.Disk.outside self.new.disk ≡ D.Disk.outside self.old.disk }
    {
        let tested = self.board.write_to_land(name, area);
        let body = self.admit(tested, area)?;
        write_record(&mut self.disk, body, area)?;
        self.board.take_out(name);
        Ok(())
    }

    // Takes a write out of flight; its block stays as it is.
    pub fn lose(&mut self, name: WriteName) -> Result<(), Fault>
        ensures answer { (log : List LogEntry) → result ≡ (lose_call (as_world D.Disk.meaning self.old log) (mark_of name)).answer }
        ensures world { (log : List LogEntry) → as_world D.Disk.meaning self.new log ≡ (lose_call (as_world D.Disk.meaning self.old log) (mark_of name)).world }
        ensures outside { D.Disk.outside self.new.disk ≡ D.Disk.outside self.old.disk }
    {
        let answer = self.board.lose(name);
        self.raise(answer)
    }

    // Fills the block of a resource with what is no record.
    #[tactic(auto, unfolding(machine::specs::Writes::spoil_call))]
    pub fn spoil(&mut self, resource: usize, area: &mut [u8]) -> Result<(), Fault>
        ensures answer { (log : List LogEntry) → result ≡ (spoil_call (as_world D.Disk.meaning self.old log) resource area.old).answer }
        ensures world { (log : List LogEntry) → as_world D.Disk.meaning self.new log ≡ (spoil_call (as_world D.Disk.meaning self.old log) resource area.old).world }
        ensures area { area.new ≡ zeros area.old }
        ensures outside { D.Disk.outside self.new.disk ≡ D.Disk.outside self.old.disk }
    {
        let tested = self.board.spoilable(resource, area);
        self.admit(tested, area)?;
        area.fill(0xff);
        let written = self.disk.write(resource, area);
        area.fill(0);
        written
    }
}
