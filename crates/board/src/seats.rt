// The table of the seats.
ghost use Rattle.std.specs.Prelude.{◌≡◌, true, [], replicate, slice_index_or, slice_set};
ghost use Rattle.machine.specs.declared.types.Seat.TheVariants.{Idle};
ghost use Rattle.board.specs.Bounds.{TimelyAll, timely as is_timely};

use crate::turns::{HostNumber, Turn};
use machine::Seat;

// The seats by host and resource. Each of their readings from which a wait is counted is one that a clock can show.
#[derive(Drop)]
pub struct Seats {
    pub(crate) rows: [[Seat; 8]; 16],
    ghost timely: { TimelyAll rows },
}

impl Seats {
    // Every seat is idle.
    pub(crate) fn new() -> Seats
        ensures { result.rows ≡ replicate 16 (replicate 8 Idle) }
    {
        Seats {
            rows: [[Seat::Idle; 8]; 16],
        }
    }

    // The seat of a turn.
    pub(crate) fn at(&self, turn: Turn) -> Seat
        ensures value { result ≡ slice_index_or (slice_index_or self.now.rows turn.host.number []) turn.resource Idle }
        ensures timely { is_timely result ≡ true }
    {
        self.rows[turn.host.number][turn.resource]
    }

    // Puts a seat into its place.
    pub(crate) fn put(&mut self, turn: Turn, seat: Seat)
        requires { is_timely seat ≡ true }
        ensures { self.new.rows ≡ slice_set self.old.rows turn.host.number (slice_set (slice_index_or self.old.rows turn.host.number []) turn.resource seat) }
    {
        let place = &mut self.rows[turn.host.number][turn.resource];
        *place = seat;
    }

    // Every seat of a host becomes idle.
    pub(crate) fn leave(&mut self, host: HostNumber)
        ensures { self.new.rows ≡ slice_set self.old.rows host.number (replicate 8 Idle) }
    {
        self.rows[host.number] = [Seat::Idle; 8];
    }
}
