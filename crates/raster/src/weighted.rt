// Numbers by weight, over any raster.
ghost use Rattle.raster.specs.Weighted.{weighed, weighted_by};
ghost use Rattle.std.specs.Prelude.{◌≡◌};

use crate::raster::{NO_NUMBER, Raster};

/// The largest number that can be weighed.
pub const MOST_WEIGHED: u64 = 4_294_967_295;

/// Each number of the raster below times p divided by q, rounded down.
#[derive(Clone, Copy, Debug, Drop, PartialEq, Eq)]
pub struct Weighted<R> {
    pub below: R,
    pub p: u16,
    pub q: u16,
}

// A number by weight. What has none below is too large, and so has none here.
fn weigh(number: u64, p: u16, q: u16) -> u64
    ensures { result ≡ weighed p q number }
{
    if number > MOST_WEIGHED || q == 0 {
        return NO_NUMBER;
    }
    number * u64::from(p) / u64::from(q)
}

impl<R: Raster> Raster for Weighted<R> {
    ghost meaning = { λ w. weighted_by w.p w.q (R.Raster.meaning w.below) };

    fn rows(&self) -> u16 {
        self.below.rows()
    }

    fn cols(&self) -> u16 {
        self.below.cols()
    }

    fn cell(&self, row: u16, col: u16) -> u64 {
        weigh(self.below.cell(row, col), self.p, self.q)
    }
}
