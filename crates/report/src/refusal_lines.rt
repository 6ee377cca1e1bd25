// The text of a refusal: a line with its number, layer and place, and one with the question and what was found.
ghost use Rattle.report.specs.RefusalLines.{refusal_text};
ghost use Rattle.std.specs.Prelude.{Some};

use questions::Refused;
use std::fmt;
use terrain::Refusal;

/// A refusal that is to be told.
#[derive(Clone, Copy)]
pub(crate) struct RefusalLines(pub(crate) Refusal);

// Both lines of a refusal.
impl fmt::Display for RefusalLines {
    ghost output = { λ lines. Some (refusal_text lines.0) };

    fn fmt<W: fmt::Write>(&self, f: &mut fmt::Formatter<W>) -> fmt::Result {
        let refusal = self.0;
        let told = refusal.told();
        writeln!(f, "{told}\n{refusal}")
    }
}
