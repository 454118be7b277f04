// How the takeover words what a call answers.
ghost use Rattle.std.specs.Prelude.{Some};
ghost use Rattle.takeover.specs.Told.{answer_text};

use machine::Answer;
use std::fmt;

// An answer, which prints in words.
#[derive(Clone, Copy, PartialEq, Eq, Debug)]
pub(crate) struct Told(pub(crate) Answer);

impl fmt::Display for Told {
    ghost output = { λ t. Some (answer_text t.0) };

    fn fmt<W: fmt::Write>(&self, f: &mut fmt::Formatter<W>) -> fmt::Result {
        let Told(answer) = *self;
        match answer {
            Answer::Done => f.write_str("done"),
            Answer::Issued(mark) => write!(f, "a write is issued, stamp {}", mark.stamp),
            Answer::Watching => f.write_str("it watches"),
            Answer::Granted { term, until } => {
                write!(f, "granted, term {term}, until its clock reads {}", until.0)
            }
            Answer::Stolen => f.write_str("stolen"),
        }
    }
}
