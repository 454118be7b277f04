// What can be asked of a board.
ghost use Rattle.std.specs.Prelude.{◌≡◌, ◌≤◌, if◌then◌else◌, Some, None, nat_lt};
ghost use Rattle.machine.specs.Room.{host_at};
ghost use Rattle.board.specs.Over.{alone};

use crate::board::Board;
use format::Tick;

impl Board {
    // How many resources the room has.
    pub fn resources(&self) -> usize
        ensures value { result ≡ (alone self.now).settings.resources }
        ensures few { result ≤ 8 }
        ensures some { 1 ≤ result }
    {
        self.settings.resources
    }

    // The tick that it is.
    pub fn current_tick(&self) -> Tick
        ensures { result.0 ≡ (alone self.now).tick }
    {
        self.tick
    }

    // How many entries of the log list are the log.
    pub fn logged(&self) -> usize
        ensures { result ≡ (alone self.now).logged }
    {
        self.logged
    }

    // How far the clock of a host is off, if there is such a host.
    pub fn offset(&self, host: usize) -> Option<i32>
        ensures { result ≡ (if nat_lt host (alone self.now).settings.hosts then Some (host_at (alone self.now) host).offset else None) }
    {
        let host = self.known_host(host).ok()?;
        Some(self.hosts[host.number].offset)
    }
}
