// A reader over a terrain file as it was handed in: the note, then the records, and a look at the trailer.
ghost use Rattle.std.specs.Option.{option_map};
ghost use Rattle.questions.specs.Ask.{first_no, verdict};
ghost use Rattle.terrain.specs.Format.{said_by};
ghost use Rattle.terrain.specs.Steps.{Stepped, next_record, place_after};
ghost use Rattle.terrain.specs.Trailer.{tail_of, trailer_of, trailer_questions};
ghost use Rattle.std.specs.Prelude.{◌≡◌, length};

use crate::place::{Look, Place};
use crate::record::Record;
use crate::refusal::Refusal;
use crate::trailer::Trailer;
use byte_order::Edition;

/// The lent bytes of a file, and the place up to which they are read.
#[derive(Drop)]
pub struct Reader<'a> {
    file: &'a [u8],
    place: Place,
}

impl<'a> Reader<'a> {
    /// A reader at the file's first byte.
    pub fn new(file: &'a [u8]) -> Reader<'a>
        ensures file { result.file.now ≡ file.now }
        ensures place { result.place.at ≡ 0 }
    {
        Reader {
            file,
            place: Place { at: 0 },
        }
    }

    /// The byte at which the reader stands.
    pub fn place(&self) -> usize
        ensures { result ≡ self.now.place.at }
    {
        let Place { at } = self.place;
        at
    }

    /// What the trailer says, or the first of its questions answered no. The reader stays where it stands.
    pub fn trailer(&mut self) -> Result<Trailer, Refusal>
        ensures answer { result ≡ verdict (first_no (trailer_questions (length self.old.file.now) (tail_of self.old.file.now))) (trailer_of (length self.old.file.now) (tail_of self.old.file.now)) }
        ensures unmoved { self.new ≡ self.old }
    {
        let file = self.file;
        let length = file.len();
        let mut look = Look::new(&mut self.place);
        let tail = look.last(file).ok_or(Refusal::TooShort { length })?;
        Trailer::read(tail, length)
    }

    /// The next `count` bytes, as that part of the file, if so many are left: the note, or a record.
    pub fn bytes(&mut self, count: usize) -> Option<&'a [u8]>
        ensures { Stepped self.old self.new count (option_map (λ x. x.now) result) }
    {
        let at = self.place.at;
        let end = at.checked_add(count)?;
        let bytes = self.file.get(at..end)?;
        self.place.at = end;
        Some(bytes)
    }

    /// What the next record says, or the first of its questions answered no; none where no whole record is left.
    pub fn record<E: Edition>(&mut self) -> Option<Result<Record, Refusal>>
        ensures answer { result ≡ next_record (said_by E.Edition) self.old.file.now self.old.place.at }
        ensures place { self.new.place.at ≡ place_after self.old.file.now self.old.place.at E.RECORD_LEN }
        ensures file { self.new.file ≡ self.old.file }
    {
        let at = self.place.at;
        let bytes = self.bytes(E::RECORD_LEN)?;
        Some(Record::read::<E>(bytes, at))
    }
}
