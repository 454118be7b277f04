// Crash and restart.
ghost use Rattle.std.specs.Prelude.{◌≡◌, List};
ghost use Rattle.machine.specs.Hosts.{crash_call, restart_call};
ghost use Rattle.room.specs.Rooms.{as_world};

use crate::room::Room;
use disk::{Disk, Fault};
use format::LogEntry;

impl<D: Disk> Room<D> {
    // Takes a host down; its seats are idle, and its writes stay in flight.
    pub fn crash(&mut self, host: usize, log: &mut [LogEntry]) -> Result<(), Fault>
        ensures answer { result ≡ (crash_call (as_world D.Disk.meaning self.old log.old) host).answer }
        ensures world { as_world D.Disk.meaning self.new log.new ≡ (crash_call (as_world D.Disk.meaning self.old log.old) host).world }
        ensures outside { D.Disk.outside self.new.disk ≡ D.Disk.outside self.old.disk }
    {
        let answer = self.board.crash(host, log);
        self.raise(answer)
    }

    // Brings a host up again, in its next generation.
    pub fn restart(&mut self, host: usize) -> Result<(), Fault>
        ensures answer { (log : List LogEntry) → result ≡ (restart_call (as_world D.Disk.meaning self.old log) host).answer }
        ensures world { (log : List LogEntry) → as_world D.Disk.meaning self.new log ≡ (restart_call (as_world D.Disk.meaning self.old log) host).world }
        ensures outside { D.Disk.outside self.new.disk ≡ D.Disk.outside self.old.disk }
    {
        let answer = self.board.restart(host);
        self.raise(answer)
    }
}
