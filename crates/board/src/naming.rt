// How a caller names a write.
ghost use Rattle.std.specs.Prelude.{◌≡◌};
ghost use Rattle.board.specs.Verdicts.{name_of};

use format::Mark;

// The name of a write in flight as a caller gives it: the numbers of a mark, which may be any. It names no write unless
// one in flight has the mark of just these numbers.
#[derive(Clone, Copy, PartialEq, Eq, Debug)]
pub struct WriteName {
    pub owner: usize,
    pub generation: usize,
    pub stamp: usize,
}

// The name of the write with this mark.
impl From<Mark> for WriteName {
    ghost from_gives = { λ x y. y ≡ name_of x };

    fn from(mark: Mark) -> WriteName {
        WriteName {
            owner: usize::from(mark.owner),
            generation: usize::from(mark.generation),
            stamp: mark.stamp as usize,
        }
    }
}
