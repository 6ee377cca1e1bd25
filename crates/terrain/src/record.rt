// A record of a terrain file, read from its bytes.
ghost use Rattle.std.specs.Prelude.{◌≡◌, ◌+◌, ◌^◌, ◌<◌, length, Some};
ghost use Rattle.terrain.specs.Words.{unknown_kind_text};
ghost use Rattle.questions.specs.Ask.{first_no, verdict};
ghost use Rattle.terrain.specs.Format.{said_by};
ghost use Rattle.terrain.specs.Record.{kind_in, record_of, record_questions, volume_fits};

use crate::refusal::Refusal;
use byte_order::Edition;
use std::error::Error;
use std::fmt;

/// What a record stands for.
#[derive(Clone, Copy, Debug, PartialEq, Eq)]
pub enum Kind {
    Basin,
    Merge,
    Outlet,
}

/// A record as the file has it. Leaves have landings 0.
#[derive(Clone, Copy, Debug, PartialEq, Eq)]
pub struct Record {
    pub kind: Kind,
    pub left: u16,
    pub right: u16,
    pub own: u64,
}

/// Own volumes are below this many litres.
pub const VOLUME_LIMIT: u64 = 1 << 40;

/// A byte that stands for no kind.
#[derive(Clone, Copy, Debug, PartialEq, Eq)]
pub struct UnknownKind(pub u8);

impl fmt::Display for UnknownKind {
    ghost output = { λ unknown. Some (unknown_kind_text unknown.0) };

    fn fmt<W: fmt::Write>(&self, f: &mut fmt::Formatter<W>) -> fmt::Result {
        write!(f, "{} stands for no kind of record", self.0)
    }
}

impl Error for UnknownKind {}

/// Bytes 1, 2 and 3 stand for a kind.
impl TryFrom<u8> for Kind {
    type Error = UnknownKind;

    ghost try_from_gives = { λ byte r. r ≡ kind_in byte };

    fn try_from(byte: u8) -> Result<Kind, UnknownKind> {
        match byte {
            1 => Ok(Kind::Basin),
            2 => Ok(Kind::Merge),
            3 => Ok(Kind::Outlet),
            _ => Err(UnknownKind(byte)),
        }
    }
}

impl Kind {
    // Is the volume in range, and 0 for the outlet?
    fn has_volume(self, own: u64) -> bool
        ensures { result ≡ volume_fits self own }
    {
        match self {
            Kind::Basin | Kind::Merge => own < VOLUME_LIMIT,
            Kind::Outlet => own == 0,
        }
    }
}

impl Record {
    // The record that the bytes from `at` on say, or the first of their questions answered no.
    pub(crate) fn read<E: Edition>(bytes: &[u8], at: usize) -> Result<Record, Refusal>
        requires whole { length bytes.now ≡ E.RECORD_LEN }
        requires place_fits { at + 8 < 2 ^ 64 }
        ensures { result ≡ verdict (first_no (record_questions (said_by E.Edition) bytes.now at)) (record_of (said_by E.Edition) bytes.now) }
    {
        let [kind_byte, one, l0, l1, r0, r1, six, seven, rest @ ..] = bytes else {
            unreachable!()
        };
        let kind = Kind::try_from(*kind_byte).map_err(|unknown| Refusal::Kind {
            kind: unknown.0,
            at,
        })?;
        let found = [*one, *six, *seven];
        if found != [0; 3] {
            return Err(Refusal::RecordZeros { found, at: at + 1 });
        }
        let own = E::volume(rest).unwrap();
        if !kind.has_volume(own) {
            return Err(Refusal::Volume {
                volume: own,
                at: at + 8,
            });
        }
        Ok(Record {
            kind,
            left: E::read([*l0, *l1]),
            right: E::read([*r0, *r1]),
            own,
        })
    }
}
