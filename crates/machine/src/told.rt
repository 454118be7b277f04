// The answer of each call, told as an answer of any call.
ghost use Rattle.std.specs.Prelude.{◌≡◌};
ghost use Rattle.machine.specs.Calls.{of_checked, of_confirmed, of_done, of_mark, of_tried};

use crate::types::{Answer, Checked, Confirmed, Tried};
use format::Mark;

impl From<()> for Answer {
    ghost from_gives = { λ x y. y ≡ of_done x };

    fn from(_done: ()) -> Answer {
        Answer::Done
    }
}

impl From<Mark> for Answer {
    ghost from_gives = { λ x y. y ≡ of_mark x };

    fn from(mark: Mark) -> Answer {
        Answer::Issued(mark)
    }
}

impl From<Tried> for Answer {
    ghost from_gives = { λ x y. y ≡ of_tried x };

    fn from(tried: Tried) -> Answer {
        match tried {
            Tried::Watching => Answer::Watching,
            Tried::Claimed(mark) => Answer::Issued(mark),
        }
    }
}

impl From<Checked> for Answer {
    ghost from_gives = { λ x y. y ≡ of_checked x };

    fn from(checked: Checked) -> Answer {
        match checked {
            Checked::Granted { term, until } => Answer::Granted { term, until },
            Checked::Stolen => Answer::Stolen,
        }
    }
}

impl From<Confirmed> for Answer {
    ghost from_gives = { λ x y. y ≡ of_confirmed x };

    fn from(confirmed: Confirmed) -> Answer {
        match confirmed {
            Confirmed::Renewed => Answer::Done,
            Confirmed::Stolen => Answer::Stolen,
        }
    }
}
