// Numbers in row order, over a slice that the caller lends.
ghost use Rattle.raster.specs.Plain.{in_row_order};

use crate::raster::{NO_NUMBER, Raster};
use crate::size::Size;

/// Row after row. A cell past the end of the numbers has none.
#[derive(Clone, Copy, Debug, PartialEq, Eq)]
pub struct Plain<'a> {
    pub size: Size,
    pub numbers: &'a [u64],
}

impl Raster for Plain<'_> {
    ghost meaning = { λ p. in_row_order p.size.rows p.size.cols p.numbers.now };

    fn rows(&self) -> u16 {
        self.size.rows
    }

    fn cols(&self) -> u16 {
        self.size.cols
    }

    fn cell(&self, row: u16, col: u16) -> u64 {
        let place = self.size.place(row, col);
        self.size.number_at(row, col, || {
            self.numbers.get(place).copied().unwrap_or(NO_NUMBER)
        })
    }
}
