// What a room remembers besides its disk.
ghost use Rattle.std.specs.Prelude.{◌≤◌, length};
ghost use Rattle.board.specs.Bounds.{NearAll};

use crate::seats::Seats;
use arrayvec::ArrayVec;
use format::Tick;
use machine::{Flight, Host, Settings};

// A board holds the settings of a room, whether it is open, its tick, its hosts, the table of their seats, the writes in
// flight in order of issue, and how many entries were logged. The tables are of fixed size, so making one takes no memory
// from anywhere; at most 32 writes are in flight. Hosts and seats are two tables, as in the rules: joined in one, every
// clause would have to take them apart again.
#[derive(Drop)]
pub struct Board {
    pub(crate) settings: Settings,
    pub(crate) opened: bool,
    pub(crate) tick: Tick,
    pub(crate) hosts: [Host; 16],
    pub(crate) seats: Seats,
    pub(crate) flights: ArrayVec<Flight, 32>,
    pub(crate) logged: usize,
    ghost counted: { tick.0 ≤ 999999 },
    ghost near: { NearAll hosts },
    ghost few: { length flights.items ≤ 32 },
}
