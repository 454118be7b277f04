// Crash and restart.
ghost use Rattle.std.specs.Prelude.{◌≡◌, ◌<◌, List, length, IfOk, OnOk};
ghost use Rattle.disk.specs.Model.{DiskModel};
ghost use Rattle.machine.specs.Room.{host_at};
ghost use Rattle.machine.specs.Hosts.{crash_call, crash_tests, restart_call, restart_tests};
ghost use Rattle.board.specs.Judging.{passed};
ghost use Rattle.board.specs.Over.{alone, alone_with, over, world_over};
ghost use Rattle.board.specs.Verdicts.{raised, verdict};

use crate::board::Board;
use crate::turns::{HostNumber, Turn};
use disk::Refusal;
use format::{Event, LogEntry};
use machine::Host;

// The last generation of a host.
const LAST_GENERATION: u16 = 65535;

impl Board {
    // The room is open, the host is there and up, and the log has a place left.
    fn crashable(&self, host: usize, log: &[LogEntry]) -> Result<HostNumber, Refusal>
        ensures answer { passed result ≡ verdict (crash_tests (alone_with self.now log.now) host) }
        ensures whose { IfOk result (λ h. h.number ≡ host) }
        ensures place { OnOk result (self.now.logged < length log.now) }
    {
        self.open_for_calls()?;
        let host = self.known_host(host)?;
        self.host_up(host)?;
        self.loggable(log)?;
        Ok(host)
    }

    // Takes a host down; what it has in flight stays there.
    pub fn crash(&mut self, host: usize, log: &mut [LogEntry]) -> Result<(), Refusal>
        ensures answer { (d : DiskModel) → raised (over d self.old) result ≡ (crash_call (world_over d self.old log.old) host).answer }
        ensures world { (d : DiskModel) → world_over d self.new log.new ≡ (crash_call (world_over d self.old log.old) host).world }
    {
        let host = self.crashable(host, log)?;
        let entry = self.plain_entry(Event::Crashed, Turn { host, resource: 0 }, 0);
        self.take_down(host);
        self.note(log, entry);
        Ok(())
    }

    // The room is open, the host is there and down, and has a generation left.
    fn restartable(&self, host: usize) -> Result<HostNumber, Refusal>
        ensures answer { passed result ≡ verdict (restart_tests (alone self.now) host) }
        ensures whose { IfOk result (λ h. h.number ≡ host) }
        ensures spare { OnOk result ((host_at (alone self.now) host).generation < 65535) }
    {
        self.open_for_calls()?;
        let host = self.known_host(host)?;
        let Host { up, generation, .. } = self.hosts[host.number];
        if up {
            return Err(Refusal::HostDown);
        }
        if generation >= LAST_GENERATION {
            return Err(Refusal::NumberSpent);
        }
        Ok(host)
    }

    // Brings a host up again, in its next generation.
    pub fn restart(&mut self, host: usize) -> Result<(), Refusal>
        ensures answer { (d : DiskModel) (log : List LogEntry) → raised (over d self.old) result ≡ (restart_call (world_over d self.old log) host).answer }
        ensures world { (d : DiskModel) (log : List LogEntry) → world_over d self.new log ≡ (restart_call (world_over d self.old log) host).world }
    {
        let host = self.restartable(host)?;
        self.bring_up(host);
        Ok(())
    }
}
