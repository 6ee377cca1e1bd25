// What a refusal tells of the question that was answered no.
ghost use Rattle.questions.specs.Case.{Case, told_text};
ghost use Rattle.std.specs.Prelude.{◌≡◌, Some};

use crate::layer::Layer;
use std::fmt;

/// A question's number, the layer that asks it, and the place that it is about.
#[derive(Clone, Copy, Debug, PartialEq, Eq)]
pub struct Told {
    pub number: u32,
    pub layer: Layer,
    pub place: usize,
}

impl Told {
    /// What is told of a question, from its parts.
    pub fn new(number: u32, layer: Layer, place: usize) -> Told
        ensures number { result.number ≡ number }
        ensures layer { result.layer ≡ layer }
        ensures place { result.place ≡ place }
    {
        Self {
            number,
            layer,
            place,
        }
    }
}

/// The words `no`, the number, the layer and the place.
impl fmt::Display for Told {
    ghost output = { λ t. Some (told_text t.number t.layer t.place) };

    fn fmt<W: fmt::Write>(&self, f: &mut fmt::Formatter<W>) -> fmt::Result {
        let Told {
            number,
            layer,
            place,
        } = self;
        write!(f, "no {number} {layer} {place}")
    }
}

/// Why something is refused: a case of its own for each question that can be answered no.
pub trait Refused {
    // What a refusal says.
    ghost case: { Self → Case };

    /// The question that was answered no.
    fn told(&self) -> Told
        ensures number { result.number ≡ (case self.now).number }
        ensures layer { result.layer ≡ (case self.now).layer }
        ensures place { result.place ≡ (case self.now).place };
}
