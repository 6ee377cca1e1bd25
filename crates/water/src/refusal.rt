// Why a call on a site's water is refused: one case for each question, with what was found.
ghost use Rattle.water.specs.Case.{case_of};
ghost use Rattle.water.specs.Words.{question_text};
ghost use Rattle.std.specs.Prelude.{Some};

use crate::units::{Leaf, Litres};
use questions::{Layer, Refused, Told};
use std::error::Error;
use std::fmt;

/// Accepted rain is at most 2^60 litres.
pub const RAIN_LIMIT: u64 = 1 << 60;

/// The question that was answered no.
#[derive(Clone, Copy, Debug, PartialEq, Eq)]
pub enum Refusal {
    /// A leaf?
    NoLeaf { leaf: Leaf },
    /// Accepted rain still at most 2^60 litres?
    RainLimit { litres: Litres },
}

impl Refused for Refusal {
    ghost case = { case_of };

    // Each question is about the call as a whole.
    fn told(&self) -> Told {
        match self {
            Refusal::NoLeaf { .. } => Told::new(21, Layer::Water, 0),
            Refusal::RainLimit { .. } => Told::new(22, Layer::Water, 0),
        }
    }
}

/// The question in words, and the number that was found.
impl fmt::Display for Refusal {
    ghost output = { λ refusal. Some (question_text refusal) };

    fn fmt<W: fmt::Write>(&self, f: &mut fmt::Formatter<W>) -> fmt::Result {
        match self {
            Refusal::NoLeaf { leaf } => write!(f, "a leaf? found {}", leaf.0),
            Refusal::RainLimit { litres } => {
                write!(f, "accepted rain still at most 2^60 litres? found {litres}")
            }
        }
    }
}

impl Error for Refusal {}
