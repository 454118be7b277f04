// What becomes of writes and blocks: land, lose, spoil.
ghost use Rattle.std.specs.Prelude.{◌≡◌, List, length, OnOk};
ghost use Rattle.std.specs.Option.{option_map};
ghost use Rattle.disk.specs.Model.{DiskModel};
ghost use Rattle.format.specs.declared.events.LogEntry.{LogEntry};
ghost use Rattle.machine.specs.Room.{with_flights};
ghost use Rattle.machine.specs.Writes.{find, lose_call, removed, spoil_tests};
ghost use Rattle.board.specs.Judging.{told};
ghost use Rattle.board.specs.Over.{alone, over, world_over};
ghost use Rattle.board.specs.Verdicts.{mark_of, raised, verdict, write_to_land};

use crate::board::Board;
use crate::flights::place_of;
use crate::naming::WriteName;
use crate::refusals::whole_block;
use disk::Refusal;
use format::LeaseRecord;

impl Board {
    // The record that is in flight under this name.
    fn in_flight(&self, name: WriteName) -> Option<LeaseRecord>
        ensures { result ≡ option_map (λ f. f.body) (find (mark_of name) (alone self.now).flights) }
    {
        let at = place_of(&self.flights, name)?;
        Some(self.flights[at].body)
    }

    // The record that is to land, unless the call refuses before it writes the block.
    pub fn write_to_land(&self, name: WriteName, area: &[u8]) -> Result<LeaseRecord, Refusal>
        ensures answer { result ≡ told (λ f. f.body) (write_to_land (alone self.now) (mark_of name) area.now) }
        ensures long { OnOk result (length area.now ≡ 512) }
    {
        whole_block(area)?;
        self.open_for_calls()?;
        self.in_flight(name).ok_or(Refusal::NoSuchWrite)
    }

    // Takes the write of this name out of flight, if there is one.
    pub fn take_out(&mut self, name: WriteName)
        ensures { (d : DiskModel) → over d self.new ≡ with_flights (over d self.old) (removed (mark_of name) (over d self.old).flights) }
    {
        if let Some(at) = place_of(&self.flights, name) {
            self.flights.remove(at);
        }
    }

    // Loses a write that is in flight.
    pub fn lose(&mut self, name: WriteName) -> Result<(), Refusal>
        ensures answer { (d : DiskModel) (log : List LogEntry) → raised (over d self.old) result ≡ (lose_call (world_over d self.old log) (mark_of name)).answer }
        ensures world { (d : DiskModel) (log : List LogEntry) → world_over d self.new log ≡ (lose_call (world_over d self.old log) (mark_of name)).world }
    {
        self.open_for_calls()?;
        self.in_flight(name).ok_or(Refusal::NoSuchWrite)?;
        self.take_out(name);
        Ok(())
    }

    // Whether a block may be spoiled.
    pub fn spoilable(&self, resource: usize, area: &[u8]) -> Result<(), Refusal>
        ensures answer { result ≡ verdict (spoil_tests (alone self.now) resource area.now) }
        ensures long { OnOk result (length area.now ≡ 512) }
    {
        whole_block(area)?;
        self.open_for_calls()?;
        self.known_resource(resource)
    }
}
