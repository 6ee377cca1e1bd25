// Any raster, moved over its own rows and columns.
ghost use Rattle.raster.specs.Shifted.{shifted_by, source};
ghost use Rattle.std.specs.Prelude.{◌≡◌};

use crate::raster::Raster;
use crate::size::Size;

/// Cell (row, col) shows cell (row − dr, col − dc) of the raster below, and 0 where that is outside.
#[derive(Clone, Copy, Debug, Drop, PartialEq, Eq)]
pub struct Shifted<R> {
    pub below: R,
    pub dr: i32,
    pub dc: i32,
}

// The place, of `count`, that is shown at `at` after a shift.
fn shown_from(at: u16, by: i32, count: u16) -> Option<u16>
    ensures { result ≡ source at by count }
{
    let from = i64::from(at) - i64::from(by);
    // Two comparisons: by `contains` a deep pile of shifts took longer to run.
    // `as` is proved to lose nothing here; by `u16::try_from` a pile of shifts took twice as long to run.
    if 0 <= from && from < i64::from(count) {
        Some(from as u16)
    } else {
        None
    }
}

impl<R: Raster> Shifted<R> {
    // The number that the shift moves to a cell, or 0 where it moves none.
    // The size is handed on, since a raster below may have to work it out.
    fn moved_to(&self, size: Size, row: u16, col: u16) -> u64
        requires rows { size.rows ≡ (R.Raster.meaning self.now.below).rows }
        requires cols { size.cols ≡ (R.Raster.meaning self.now.below).cols }
        ensures { result
            ≡ (shifted_by self.now.dr self.now.dc (R.Raster.meaning self.now.below)).at row col }
    {
        // Two `let else`: by `zip` and `map_or` a cell took longer to run.
        let Some(from_row) = shown_from(row, self.dr, size.rows) else {
            return 0;
        };
        let Some(from_col) = shown_from(col, self.dc, size.cols) else {
            return 0;
        };
        self.below.cell(from_row, from_col)
    }
}

impl<R: Raster> Raster for Shifted<R> {
    ghost meaning = { λ s. shifted_by s.dr s.dc (R.Raster.meaning s.below) };

    fn rows(&self) -> u16 {
        self.below.rows()
    }

    fn cols(&self) -> u16 {
        self.below.cols()
    }

    fn cell(&self, row: u16, col: u16) -> u64 {
        let size = Size::of(&self.below);
        size.number_at(row, col, || self.moved_to(size, row, col))
    }
}
