// What a line is answered with, and how it is told.
ghost use Rattle.console.specs.Reply.{answer_text};
ghost use Rattle.std.specs.Prelude.{Some as Just};

use crate::refusal::Refusal;
use std::fmt;
use water::{Litres, Totals};

/// What a line that is not refused is answered with.
#[derive(Clone, Copy, Debug, PartialEq, Eq)]
pub enum Answer {
    /// The rain is accepted.
    Done,
    /// The level over the leaf.
    Level(Litres),
    /// The totals of the site.
    Totals(Totals),
}

/// The reply to one line: its answer, or why it is refused.
pub type Reply = Result<Answer, Refusal>;

/// An answer is told in one line, which has no end yet.
impl fmt::Display for Answer {
    ghost output = { λ answer. Just (answer_text answer) };

    fn fmt<W: fmt::Write>(&self, f: &mut fmt::Formatter<W>) -> fmt::Result {
        match self {
            Answer::Done => write!(f, "ok"),
            Answer::Level(level) => write!(f, "{level}"),
            Answer::Totals(sums) => {
                write!(f, "{} {} {}", sums.accepted, sums.outflow, sums.pumped)
            }
        }
    }
}
