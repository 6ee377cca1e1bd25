// Where a reader stands, and a guard that puts it back.
ghost use Rattle.std.specs.Option.{option_map};
ghost use Rattle.std.specs.Prelude.{◌≡◌, if◌then◌else◌, length, nat_le};
ghost use Rattle.terrain.specs.Format.{last_of};

/// The byte at which a reader stands.
#[derive(Clone, Copy, Debug, PartialEq, Eq)]
pub struct Place {
    pub at: usize,
}

/// A look at another part of the file: however it ends, the place is put back where the look began.
pub struct Look<'p> {
    place: &'p mut Place,
    start: Place,
}

impl<'p> Look<'p> {
    // A look that begins where the place is.
    pub(crate) fn new(place: &'p mut Place) -> Look<'p>
        ensures start { result.start ≡ place.old }
        ensures lent { result.place.ghost_name ≡ place.entry.ghost_name }
    {
        let start = *place;
        Look { place, start }
    }

    // Moves the place past the last `N` bytes of the file, and hands them out, if there are so many.
    pub(crate) fn last<'f, const N: usize>(&mut self, file: &'f [u8]) -> Option<&'f [u8; N]>
        ensures bytes { option_map (λ t. t.now) result ≡ last_of N file.now }
        ensures moved { self.new.place.now.at ≡ (if nat_le N (length file.now) then length file.now else self.old.place.now.at) }
        ensures start { self.new.start ≡ self.old.start }
        ensures lent { self.new.place.ghost_name ≡ self.old.place.ghost_name }
    {
        let bytes = file.last_chunk::<N>()?;
        self.place.at = file.len();
        Some(bytes)
    }
}

impl Drop for Look<'_> {
    fn drop(self)
        ensures { self.exit.0.now ≡ self.entry.start }
    {
        *self.place = self.start;
        let Look { place: _, start: _ } = self;
    }
}
