// The layers that ask questions.
ghost use Rattle.questions.specs.Case.{layer_name};
ghost use Rattle.std.specs.Prelude.{◌≡◌, Some};

use std::fmt;

/// The part of a check that found a refusal.
#[derive(Clone, Copy, Debug, PartialEq, Eq)]
pub enum Layer {
    /// The last 12 bytes of a terrain file.
    Trailer,
    /// The bytes of one record.
    Record,
    /// The tree that the records spell.
    Tree,
    /// A call on a site's water.
    Water,
    /// A line of the console.
    Line,
}

impl Layer {
    /// The layer in small letters, without asking for memory.
    pub fn name(self) -> &'static str
        ensures { result.now ≡ layer_name self }
    {
        match self {
            Layer::Trailer => "trailer",
            Layer::Record => "record",
            Layer::Tree => "tree",
            Layer::Water => "water",
            Layer::Line => "line",
        }
    }
}

/// A layer is told by its name.
impl fmt::Display for Layer {
    ghost output = { λ layer. Some (layer_name layer) };

    fn fmt<W: fmt::Write>(&self, f: &mut fmt::Formatter<W>) -> fmt::Result {
        f.write_str(self.name())
    }
}
