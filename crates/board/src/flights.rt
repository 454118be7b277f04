// The writes in flight: finding one, and which of them are lost.
ghost use Rattle.std.specs.Prelude.{◌≡◌, ◌+◌, nat_lt, position};
ghost use Rattle.machine.specs.Seats.{same_mark};
ghost use Rattle.board.specs.Verdicts.{mark_of};

use crate::naming::WriteName;
use format::{Mark, Tick};
use machine::Flight;

// Whether a write has the mark that a name tells.
fn is_named(mark: Mark, name: WriteName) -> bool
    ensures { result ≡ same_mark mark (mark_of name) }
{
    WriteName::from(mark) == name
}

// The place of the first write of this name.
pub(crate) fn place_of(flights: &[Flight], name: WriteName) -> Option<usize>
    ensures { result ≡ position (λ f. same_mark f.body.mark (mark_of name)) flights.now }
{
    flights
        .iter()
        .position(|flight| is_named(flight.body.mark, name))
}

// Whether a write can no longer land.
pub(crate) fn is_lost(flight: Flight, delay: u32, tick: Tick) -> bool
    ensures { result ≡ nat_lt (flight.issued.0 + delay) tick.0 }
{
    tick.0.saturating_sub(flight.issued.0) > delay
}
