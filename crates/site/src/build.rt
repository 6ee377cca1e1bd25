// The table that a file's records spell, by one text for every edition.
ghost use Rattle.std.specs.Prelude.{◌≡◌, ◌-◌, [], length};
ghost use Rattle.site.specs.Building.{Building};
ghost use Rattle.site.specs.Fill.{Fits, Spelled, loaded_into};
ghost use Rattle.terrain.specs.Format.{said_by};
ghost use Rattle.terrain.specs.Trailer.{note_length, tail_of};

use crate::loading::Loading;
use byte_order::Edition;
use terrain::{Reader, Refusal, Trailer};

impl Loading<'_> {
    /// Reads the note and the records that the trailer names; `end` is where the trailer starts.
    pub(crate) fn build<E: Edition>(
        &mut self,
        reader: &mut Reader<'_>,
        trailer: &Trailer,
        end: usize,
    ) -> Result<(), Refusal>
        requires empty { self.old.table.count ≡ 0 }
        requires built { Building self.old.table self.old.waiting.items [] }
        requires fits { Fits (said_by E.Edition) trailer.now.count reader.old.file.now }
        requires note { trailer.now.note ≡ note_length (said_by E.Edition) (length reader.old.file.now) (tail_of reader.old.file.now) }
        requires start { reader.old.place.at ≡ 0 }
        requires close { end ≡ length reader.old.file.now - 12 }
        ensures { Spelled (said_by E.Edition) trailer.now.count reader.old.file.now (loaded_into self.new.table result) }
    {
        let _note = reader.bytes(trailer.note).unwrap();
        self.fill::<E>(reader, trailer.count)?;
        self.one_tree(end)
    }
}
