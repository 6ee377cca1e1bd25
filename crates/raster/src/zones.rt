// Rectangles of one number each, over a slice that the caller lends.
ghost use Rattle.raster.specs.Grid.{cell_of, inside};
ghost use Rattle.raster.specs.Zones.{OfTheFirst, covers, spans, zoned};
ghost use Rattle.std.specs.Prelude.{◌≡◌, IsTrue};

use crate::raster::Raster;
use crate::size::Size;

/// A rectangle of cells and the number that they have.
#[derive(Clone, Copy, Debug, PartialEq, Eq)]
pub struct Zone {
    pub top: u16,
    pub left: u16,
    pub height: u16,
    pub width: u16,
    pub number: u64,
}

// Is it one of so many places from the first on? The last of them may be past the largest number of 16 bits.
fn within(first: u16, count: u16, at: u16) -> bool
    ensures { result ≡ spans first count at }
{
    first <= at && at - first < count
}

impl Zone {
    /// Does the zone cover the cell?
    pub fn covers(&self, row: u16, col: u16) -> bool
        ensures { result ≡ covers self.now row col }
    {
        within(self.top, self.height, row) && within(self.left, self.width, col)
    }
}

/// A cell has the number of the first zone that covers it, and 0 where none does.
#[derive(Clone, Copy, Debug, PartialEq, Eq)]
pub struct Zones<'a> {
    pub size: Size,
    pub zones: &'a [Zone],
}

// The number of the first zone that covers the cell.
// A `for` that is left there, and no `find`: the form was asked for.
fn first_number(zones: &[Zone], row: u16, col: u16) -> u64
    ensures { OfTheFirst zones.now row col result }
{
    for zone in zones {
        if zone.covers(row, col) {
            return zone.number;
        }
    }
    0
}

impl Raster for Zones<'_> {
    ghost meaning = { λ z. zoned z.size.rows z.size.cols z.zones.now };

    fn rows(&self) -> u16 {
        self.size.rows
    }

    fn cols(&self) -> u16 {
        self.size.cols
    }

    // Clauses of its own stand in place of the trait's, so `answer` is said again beside `first`.
    #[tactic(auto, using(crate::proofs::Covering::is_found))]
    fn cell(&self, row: u16, col: u16) -> u64
        ensures answer { result
            ≡ cell_of (zoned self.now.size.rows self.now.size.cols self.now.zones.now) row col }
        ensures first { IsTrue (inside self.now.size.rows self.now.size.cols row col)
            → OfTheFirst self.now.zones.now row col result }
    {
        self.size
            .number_at(row, col, || first_number(self.zones, row, col))
    }
}
