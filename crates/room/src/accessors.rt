// What can be asked of a room at any time. It changes nothing.
ghost use Rattle.std.specs.Prelude.{◌≡◌, if◌then◌else◌, Some, None, nat_lt};
ghost use Rattle.machine.specs.Room.{host_at};
ghost use Rattle.room.specs.Rooms.{as_room};

use crate::room::Room;
use disk::Disk;
use format::Tick;

impl<D: Disk> Room<D> {
    // The tick that it is.
    pub fn current_tick(&self) -> Tick
        ensures { result.0 ≡ (as_room D.Disk.meaning self.now).tick }
    {
        self.board.current_tick()
    }

    // How many entries were logged: so many from the front of the log list are the log.
    pub fn logged(&self) -> usize
        ensures { result ≡ (as_room D.Disk.meaning self.now).logged }
    {
        self.board.logged()
    }

    // How far the clock of a host is off, if there is such a host.
    pub fn offset(&self, host: usize) -> Option<i32>
        ensures { result ≡ (if nat_lt host (as_room D.Disk.meaning self.now).settings.hosts then Some (host_at (as_room D.Disk.meaning self.now) host).offset else None) }
    {
        self.board.offset(host)
    }
}
