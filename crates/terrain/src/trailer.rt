// The trailer of a terrain file, read from its last 12 bytes.
ghost use Rattle.std.specs.Prelude.{◌≡◌, ◌≤◌, if◌then◌else◌, Some, Ok, Err, decimal};
ghost use Rattle.questions.specs.Ask.{first_no, verdict};
ghost use Rattle.terrain.specs.declared.refusal.Refusal.TheVariants.{Signature};
ghost use Rattle.terrain.specs.Format.{said_by};
ghost use Rattle.terrain.specs.Words.{unknown_edition_text};
ghost use Rattle.terrain.specs.Trailer.{count_questions, edition_in, edition_number, name_by, signed, trailer_as, trailer_of, trailer_questions};

use crate::refusal::Refusal;
use byte_order::{ByteOrder, Edition, Edition1, Edition2};
use std::error::Error;
use std::fmt;

/// How many bytes a trailer has.
pub const TRAILER_LEN: usize = 12;

/// How many records a site has at most.
pub const MOST_RECORDS: u16 = 1023;

/// How many bytes a note has at most.
pub const NOTE_LIMIT: usize = 1024;

/// The edition that a file names by its digit.
#[derive(Clone, Copy, Debug, PartialEq, Eq)]
pub enum EditionName {
    First = 1,
    Second = 2,
}

/// A byte that is the digit of no edition.
#[derive(Clone, Copy, Debug, PartialEq, Eq)]
pub struct UnknownEdition(pub u8);

impl fmt::Display for UnknownEdition {
    ghost output = { λ unknown. Some (unknown_edition_text unknown.0) };

    fn fmt<W: fmt::Write>(&self, f: &mut fmt::Formatter<W>) -> fmt::Result {
        write!(f, "{} is the digit of no edition", self.0)
    }
}

impl Error for UnknownEdition {}

/// Each edition has its digit.
impl TryFrom<u8> for EditionName {
    type Error = UnknownEdition;

    ghost try_from_gives = { λ digit r. r ≡ edition_in digit };

    fn try_from(digit: u8) -> Result<EditionName, UnknownEdition> {
        match digit {
            Edition1::DIGIT => Ok(EditionName::First),
            Edition2::DIGIT => Ok(EditionName::Second),
            _ => Err(UnknownEdition(digit)),
        }
    }
}

/// An edition is told by its number.
impl fmt::Display for EditionName {
    ghost output = { λ name. Some (decimal (edition_number name)) };

    fn fmt<W: fmt::Write>(&self, f: &mut fmt::Formatter<W>) -> fmt::Result {
        // By `as`, which gives the number of a case.
        let number = *self as u8;
        write!(f, "{number}")
    }
}

/// What a trailer says: the edition, how many records, and how many bytes of note stand before them.
#[derive(Clone, Copy, Debug, PartialEq, Eq)]
pub struct Trailer {
    pub edition: EditionName,
    pub count: u16,
    pub note: usize,
}

// The edition that the last four bytes, from `at` on, name.
fn edition_of(signature: [u8; 4], at: usize) -> Result<EditionName, Refusal>
    ensures { result ≡ (if signed signature then Ok (name_by signature) else Err (Signature signature at)) }
{
    let [f, t, digit, lf] = signature;
    let refusal = Refusal::Signature {
        found: signature,
        at,
    };
    if [f, t, lf] != [b'F', b'T', b'\n'] {
        return Err(refusal);
    }
    EditionName::try_from(digit).map_err(|_| refusal)
}

// Questions 4 to 6, by one text for every edition.
fn numbers<E: Edition>(
    edition: EditionName,
    tail: &[u8; TRAILER_LEN],
    total: usize,
) -> Result<Trailer, Refusal>
    requires { 12 ≤ total }
    ensures { result ≡ verdict (first_no (count_questions (said_by E.Edition) total tail.now)) (trailer_as edition (said_by E.Edition) total tail.now) }
{
    let [d0, d1, d2, d3, c0, c1, ..] = *tail;
    let before = total - TRAILER_LEN;
    let count: u16 = E::read([c0, c1]);
    if !(1..=MOST_RECORDS).contains(&count) {
        return Err(Refusal::Count {
            count,
            at: total - 8,
        });
    }
    let distance: u32 = E::read([d0, d1, d2, d3]);
    // By `as`: 32 bits have no `From` to `usize`, and `try_from` would add an error that cannot come.
    let back = distance as usize;
    if back != usize::from(count) * E::RECORD_LEN || back > before {
        return Err(Refusal::Distance {
            distance,
            at: before,
        });
    }
    let note = before - back;
    if note > NOTE_LIMIT {
        return Err(Refusal::NoteLength { length: note });
    }
    Ok(Trailer {
        edition,
        count,
        note,
    })
}

impl Trailer {
    // The trailer that the last 12 of `total` bytes say, or the first of its questions answered no.
    pub(crate) fn read(tail: &[u8; TRAILER_LEN], total: usize) -> Result<Trailer, Refusal>
        requires { 12 ≤ total }
        ensures { result ≡ verdict (first_no (trailer_questions total tail.now)) (trailer_of total tail.now) }
    {
        let [.., six, seven, f, t, digit, lf] = *tail;
        let edition = edition_of([f, t, digit, lf], total - 4)?;
        let zeros = [six, seven];
        if zeros != [0; 2] {
            return Err(Refusal::TrailerZeros {
                found: zeros,
                at: total - 6,
            });
        }
        // An arm for each edition, which is a type: no closure and no `dyn` is generic over types.
        match edition {
            EditionName::First => numbers::<Edition1>(edition, tail, total),
            EditionName::Second => numbers::<Edition2>(edition, tail, total),
        }
    }
}
