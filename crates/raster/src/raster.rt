// What a raster shows, whatever it is made of.
ghost use Rattle.raster.specs.Grid.{Grid, cell_of};
ghost use Rattle.std.specs.Prelude.{◌≡◌};

/// What is answered of a cell that has no number, or is outside.
// A number and no `Option`: the rules of rasters ask for it, in the public answer too.
pub const NO_NUMBER: u64 = u64::MAX;

/// A raster means a grid, and answers just that.
// Three methods by rule, and none for a size: each raster that holds one says its rows and columns.
pub trait Raster {
    // What it means.
    ghost meaning: { Self → Grid };

    /// How many rows there are.
    fn rows(&self) -> u16
        ensures answer { result ≡ (meaning self.now).rows };

    /// How many columns there are.
    fn cols(&self) -> u16
        ensures answer { result ≡ (meaning self.now).cols };

    /// The number of a cell, or `NO_NUMBER` outside.
    // A row and a column, and no struct of both: each call would spell one out round what it has as two numbers.
    fn cell(&self, row: u16, col: u16) -> u64
        ensures answer { result ≡ cell_of (meaning self.now) row col };
}

/// A lent raster means what the raster means.
impl<R: Raster> Raster for &R {
    ghost meaning = { λ r. R.Raster.meaning r.now };

    fn rows(&self) -> u16 {
        R::rows(*self)
    }

    fn cols(&self) -> u16 {
        R::cols(*self)
    }

    fn cell(&self, row: u16, col: u16) -> u64 {
        R::cell(*self, row, col)
    }
}
