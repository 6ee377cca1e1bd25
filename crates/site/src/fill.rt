// Going through the records of a file, by one text for every edition.
ghost use Rattle.std.specs.Prelude.{◌≡◌, ◌+◌};
ghost use Rattle.site.specs.Fill.{Filled, Fits, MoreLeft, Reached};
ghost use Rattle.terrain.specs.Format.{said_by};

use crate::grow::Placed;
use crate::loading::Loading;
use byte_order::Edition;
use terrain::{Reader, Refusal};

impl Loading<'_> {
    // Puts the next record into the table, if its questions are all answered yes.
    fn take_record<E: Edition>(&mut self, reader: &mut Reader<'_>) -> Result<(), Refusal>
        requires more { MoreLeft (said_by E.Edition) self.old.table.count reader.old.file.now }
        requires reached { Reached (said_by E.Edition) reader.old self.old }
        ensures done { Filled (said_by E.Edition) (self.old.table.count + 1) reader.old.file.now reader.new self.new result }
        ensures file { reader.new.file ≡ reader.old.file }
    {
        let at = reader.place();
        let said = reader.record::<E>().unwrap()?;
        self.grow(&Placed { said, at })
    }

    /// Puts the first `count` records into the table, up to the first question answered no.
    pub(crate) fn fill<E: Edition>(
        &mut self,
        reader: &mut Reader<'_>,
        count: u16,
    ) -> Result<(), Refusal>
        requires fits { Fits (said_by E.Edition) count reader.old.file.now }
        requires empty { self.old.table.count ≡ 0 }
        requires reached { Reached (said_by E.Edition) reader.old self.old }
        ensures done { Filled (said_by E.Edition) count reader.old.file.now reader.new self.new result }
        ensures file { reader.new.file ≡ reader.old.file }
    {
        for _i in 0..count {
            self.take_record::<E>(reader)?;
        }
        Ok(())
    }
}
