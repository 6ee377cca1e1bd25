// Loading a terrain file into a site.
ghost use Rattle.site.specs.Building.{Building};
ghost use Rattle.site.specs.Fill.{loaded_into};
ghost use Rattle.site.specs.Loaded.{Loaded, TableRead};
ghost use Rattle.site.specs.Questions.{questions};
ghost use Rattle.std.specs.Prelude.{◌≡◌, true, false, [], length, is_ok, Ok};
ghost use Rattle.questions.specs.Ask.{FirstNo, first_no, refusal_in, verdict};
ghost use Rattle.terrain.specs.Trailer.{tail_of, trailer_of, trailer_questions};

use super::Site;
use crate::loading::Loading;
use crate::node::Summary;
use crate::table::PLACES;
use byte_order::{Edition1, Edition2};
use terrain::{EditionName, Reader, Refusal, TRAILER_LEN, Trailer};

// Puts the records of a file whose trailer is accepted into the table, up to the first question answered no. The reader is
// the one that looked at the trailer.
fn read_table(
    loading: &mut Loading<'_>,
    reader: &mut Reader<'_>,
    file: &[u8],
    trailer: &Trailer,
) -> Result<(), Refusal>
    requires empty { loading.old.table.count ≡ 0 }
    requires built { Building loading.old.table loading.old.waiting.items [] }
    requires reads { reader.old.file.now ≡ file.now }
    requires start { reader.old.place.at ≡ 0 }
    requires accepted { Ok trailer.now ≡ verdict (first_no (trailer_questions (length file.now) (tail_of file.now))) (trailer_of (length file.now) (tail_of file.now)) }
    ensures { TableRead file.now (loaded_into loading.new.table result) }
{
    let end = file.len() - TRAILER_LEN;
    // An arm for each edition, which is a type: no closure and no `dyn` is generic over types.
    match trailer.edition {
        EditionName::First => loading.build::<Edition1>(reader, trailer, end),
        EditionName::Second => loading.build::<Edition2>(reader, trailer, end),
    }
}

impl Site {
    /// Loads the site that a file spells, dry, with all sums zero; a refused file changes nothing.
    pub fn load(&mut self, file: &[u8]) -> Result<(), Refusal>
        ensures answer { result ≡ verdict (first_no (questions file.now)) tt }
        ensures first_no { FirstNo (questions file.now) (refusal_in result) }
        ensures loaded { is_ok result ≡ true → Loaded file.now self.new }
        ensures kept { is_ok result ≡ false → self.new ≡ self.old }
    {
        let mut reader = Reader::new(file);
        let trailer = reader.trailer()?;
        let mut slots = [Summary::default(); PLACES];
        let mut loading = Loading::new(&mut slots);
        // Lent all the way down: a table is too large to be handed up in a `Result`.
        read_table(&mut loading, &mut reader, file, &trailer)?;
        *self = Site {
            table: loading.table,
            accepted: 0,
            pumped: 0,
        };
        Ok(())
    }
}
