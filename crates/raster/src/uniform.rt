// One number everywhere.
ghost use Rattle.raster.specs.Uniform.{everywhere};

use crate::raster::Raster;
use crate::size::Size;

/// Every cell has the same number.
#[derive(Clone, Copy, Debug, PartialEq, Eq)]
pub struct Uniform {
    pub size: Size,
    pub number: u64,
}

impl Raster for Uniform {
    ghost meaning = { λ u. everywhere u.size.rows u.size.cols u.number };

    fn rows(&self) -> u16 {
        self.size.rows
    }

    fn cols(&self) -> u16 {
        self.size.cols
    }

    fn cell(&self, row: u16, col: u16) -> u64 {
        self.size.number_at(row, col, || self.number)
    }
}
