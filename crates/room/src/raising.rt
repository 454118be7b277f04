// How a room refuses: the cause that its board gives, with the room's height.
ghost use Rattle.std.specs.Prelude.{◌≡◌, Ok, IfOk, OnErr};
ghost use Rattle.disk.specs.Model.{height_above};
ghost use Rattle.room.specs.Rooms.{as_room, zeros};
ghost use Rattle.board.specs.Verdicts.{raised};

use crate::room::Room;
use disk::{Disk, Fault, Refusal};

impl<D: Disk> Room<D> {
    // The height of the room, one above its disk.
    pub(crate) fn height(&self) -> u8
        ensures { result ≡ height_above (D.Disk.meaning self.now.disk).height }
    {
        self.disk.height().saturating_add(1)
    }

    // An answer of the board; a cause becomes a fault of the room, one higher than its disk.
    pub(crate) fn raise<T>(&self, answer: Result<T, Refusal>) -> Result<T, Fault>
        ensures { result ≡ raised (as_room D.Disk.meaning self.now) answer }
    {
        answer.map_err(|cause| cause.at(0, self.height()))
    }

    // The same before the disk is touched: a refusal zeroes the area. Written here and in the disk's reads: a shared
    // function would be one more public one, for three lines. No `inspect_err`: after it nothing would be known of
    // the area, which its closure borrows.
    pub(crate) fn admit<T>(&self, answer: Result<T, Refusal>, area: &mut [u8]) -> Result<T, Fault>
        ensures answer { result ≡ raised (as_room D.Disk.meaning self.now) answer }
        ensures passed { IfOk result (λ x. (answer ≡ Ok x) × (area.new ≡ area.old)) }
        ensures refused { OnErr result (area.new ≡ zeros area.old) }
    {
        if answer.is_err() {
            area.fill(0);
        }
        self.raise(answer)
    }
}
