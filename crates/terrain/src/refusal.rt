// Why a terrain file is refused: one case for each question, with what was found and where.
ghost use Rattle.terrain.specs.Case.{case_of};
ghost use Rattle.terrain.specs.Words.{numbers, question_text, words_of};
ghost use Rattle.std.specs.Prelude.{◌≡◌, Some};

use questions::{Layer, Refused, Told};
use std::error::Error;
use std::fmt;

/// The question that was answered no. Places count from the file's first byte.
#[derive(Clone, Copy, Debug, PartialEq, Eq)]
pub enum Refusal {
    /// At least 12 bytes?
    TooShort { length: usize },
    /// Last four bytes F, T, 1 or 2, 0A?
    Signature { found: [u8; 4], at: usize },
    /// Trailer bytes 6 and 7 zero?
    TrailerZeros { found: [u8; 2], at: usize },
    /// Count 1 to 1,023?
    Count { count: u16, at: usize },
    /// Distance equal to count times record length, and at most the bytes before the trailer?
    Distance { distance: u32, at: usize },
    /// Note at most 1,024 bytes?
    NoteLength { length: usize },
    /// Kind 1 to 3?
    Kind { kind: u8, at: usize },
    /// Record bytes 1, 6 and 7 zero?
    RecordZeros { found: [u8; 3], at: usize },
    /// Volume below 2^40, and 0 for the outlet?
    Volume { volume: u64, at: usize },
    /// Do two subtrees wait for a merge?
    Waiting { waiting: usize, at: usize },
    /// Landings 0 for a leaf; for a merge a leaf of its left and one of its right side?
    Landings { left: u16, right: u16, at: usize },
    /// Volume 0 for an open merge?
    OpenVolume { volume: u64, at: usize },
    /// One subtree after the last record?
    Subtrees { waiting: usize, at: usize },
    /// One outlet?
    Outlets { outlets: u16, at: usize },
}

impl Refused for Refusal {
    ghost case = { case_of };

    fn told(&self) -> Told {
        match *self {
            Refusal::TooShort { .. } => Told::new(1, Layer::Trailer, 0),
            Refusal::Signature { at, .. } => Told::new(2, Layer::Trailer, at),
            Refusal::TrailerZeros { at, .. } => Told::new(3, Layer::Trailer, at),
            Refusal::Count { at, .. } => Told::new(4, Layer::Trailer, at),
            Refusal::Distance { at, .. } => Told::new(5, Layer::Trailer, at),
            Refusal::NoteLength { .. } => Told::new(6, Layer::Trailer, 0),
            Refusal::Kind { at, .. } => Told::new(7, Layer::Record, at),
            Refusal::RecordZeros { at, .. } => Told::new(8, Layer::Record, at),
            Refusal::Volume { at, .. } => Told::new(9, Layer::Record, at),
            Refusal::Waiting { at, .. } => Told::new(10, Layer::Tree, at),
            Refusal::Landings { at, .. } => Told::new(11, Layer::Tree, at),
            Refusal::OpenVolume { at, .. } => Told::new(12, Layer::Tree, at),
            Refusal::Subtrees { at, .. } => Told::new(13, Layer::Tree, at),
            Refusal::Outlets { at, .. } => Told::new(14, Layer::Tree, at),
        }
    }
}

impl Refusal {
    // The question in words.
    fn words(&self) -> &'static str
        ensures { result.now ≡ words_of self.now }
    {
        match self {
            Refusal::TooShort { .. } => "at least 12 bytes?",
            Refusal::Signature { .. } => "last four bytes F, T, 1 or 2, 0A?",
            Refusal::TrailerZeros { .. } => "trailer bytes 6 and 7 zero?",
            Refusal::Count { .. } => "count 1 to 1023?",
            Refusal::Distance { .. } => {
                "distance equal to count times record length, and at most the bytes before the trailer?"
            }
            Refusal::NoteLength { .. } => "note at most 1024 bytes?",
            Refusal::Kind { .. } => "kind 1 to 3?",
            Refusal::RecordZeros { .. } => "record bytes 1, 6 and 7 zero?",
            Refusal::Volume { .. } => "volume at most 1099511627775, and 0 for the outlet?",
            Refusal::Waiting { .. } => "two subtrees waiting for the merge?",
            Refusal::Landings { .. } => {
                "landings 0 for a leaf, a leaf of the left and of the right side for a merge?"
            }
            Refusal::OpenVolume { .. } => "volume 0 for an open merge?",
            Refusal::Subtrees { .. } => "one subtree after the last record?",
            Refusal::Outlets { .. } => "one outlet?",
        }
    }
}

// Bytes as numbers.
#[derive(Clone, Copy)]
struct Spaced<'a>(&'a [u8]);

// Each after a single space.
impl fmt::Display for Spaced<'_> {
    ghost output = { λ spaced. Some (numbers spaced.0.now) };

    fn fmt<W: fmt::Write>(&self, f: &mut fmt::Formatter<W>) -> fmt::Result {
        for byte in self.0 {
            write!(f, " {byte}")?;
        }
        Ok(())
    }
}

// The numbers that a refusal found.
#[derive(Clone, Copy)]
struct Found<'a>(&'a Refusal);

// Each after a single space.
impl fmt::Display for Found<'_> {
    ghost output = { λ found. Some (numbers (case_of found.0.now).found) };

    fn fmt<W: fmt::Write>(&self, f: &mut fmt::Formatter<W>) -> fmt::Result {
        match self.0 {
            Refusal::Signature { found, .. } => Spaced(found).fmt(f),
            Refusal::TrailerZeros { found, .. } => Spaced(found).fmt(f),
            Refusal::RecordZeros { found, .. } => Spaced(found).fmt(f),
            Refusal::Landings { left, right, .. } => write!(f, " {left} {right}"),
            Refusal::TooShort { length } | Refusal::NoteLength { length } => {
                write!(f, " {length}")
            }
            Refusal::Count { count, .. } => write!(f, " {count}"),
            Refusal::Distance { distance, .. } => write!(f, " {distance}"),
            Refusal::Kind { kind, .. } => write!(f, " {kind}"),
            Refusal::Volume { volume, .. } | Refusal::OpenVolume { volume, .. } => {
                write!(f, " {volume}")
            }
            Refusal::Waiting { waiting, .. } | Refusal::Subtrees { waiting, .. } => {
                write!(f, " {waiting}")
            }
            Refusal::Outlets { outlets, .. } => write!(f, " {outlets}"),
        }
    }
}

/// The question in words, and each number found.
impl fmt::Display for Refusal {
    ghost output = { λ r. Some (question_text r) };

    fn fmt<W: fmt::Write>(&self, f: &mut fmt::Formatter<W>) -> fmt::Result {
        let words = self.words();
        let found = Found(self);
        write!(f, "{words} found{found}")
    }
}

impl Error for Refusal {}
