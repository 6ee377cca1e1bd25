// Why a line of the console, or the file that it begins with, is refused.
ghost use Rattle.console.specs.Case.{case_of};
ghost use Rattle.console.specs.Reply.{refusal_text};
ghost use Rattle.console.specs.declared.refusal.Refusal.TheVariants.{Water, File};
ghost use Rattle.std.specs.Prelude.{◌≡◌, Some as Just};

use questions::{Layer, Refused, Told};
use std::error::Error;
use std::fmt;
use terrain::Refusal as FileRefusal;
use water::Refusal as WaterRefusal;

/// The question that was answered no.
#[derive(Clone, Copy, Debug, PartialEq, Eq)]
pub enum Refusal {
    /// Well formed?
    NotWellFormed,
    /// A question of the call that the line spells.
    Water(WaterRefusal),
    /// A question of loading the site's file.
    File(FileRefusal),
}

impl Refused for Refusal {
    ghost case = { case_of };

    fn told(&self) -> Told {
        match self {
            Refusal::NotWellFormed => Told::new(31, Layer::Line, 0),
            Refusal::Water(refusal) => refusal.told(),
            Refusal::File(refusal) => refusal.told(),
        }
    }
}

/// A refusal of a call is one of the line that spells it.
impl From<WaterRefusal> for Refusal {
    ghost from_gives = { λ why refusal. refusal ≡ Water why };

    fn from(why: WaterRefusal) -> Refusal {
        Refusal::Water(why)
    }
}

/// So is a refusal of the file that the console begins with.
impl From<FileRefusal> for Refusal {
    ghost from_gives = { λ why refusal. refusal ≡ File why };

    fn from(why: FileRefusal) -> Refusal {
        Refusal::File(why)
    }
}

/// A refusal is told by its number.
impl fmt::Display for Refusal {
    ghost output = { λ refusal. Just (refusal_text refusal) };

    fn fmt<W: fmt::Write>(&self, f: &mut fmt::Formatter<W>) -> fmt::Result {
        let number = self.told().number;
        write!(f, "no {number}")
    }
}

impl Error for Refusal {}
