// A board as a room is founded with it.
ghost use Rattle.std.specs.Prelude.{◌≡◌};
ghost use Rattle.disk.specs.Model.{DiskModel};
ghost use Rattle.machine.specs.Room.{founded};
ghost use Rattle.board.specs.Over.{over};

use crate::board::Board;
use crate::seats::Seats;
use arrayvec::ArrayVec;
use format::Tick;
use machine::{Host, Settings};

// A host that has done nothing yet. No derived `Default`: it is up, in its first generation.
const NEW_HOST: Host = Host {
    offset: 0,
    up: true,
    generation: 1,
    stamp: 0,
};

impl Board {
    // Closed, at tick 0: clocks are right, hosts are up, seats are idle, nothing is in flight or logged.
    pub fn new(settings: Settings) -> Board
        ensures { (d : DiskModel) → over d result ≡ founded settings d }
    {
        Board {
            settings,
            opened: false,
            tick: Tick(0),
            hosts: [NEW_HOST; 16],
            seats: Seats::new(),
            flights: ArrayVec::new(),
            logged: 0,
        }
    }
}
