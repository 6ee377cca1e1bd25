// How large a raster is.
ghost use Rattle.std.specs.Prelude.{◌≡◌, ◌+◌, ◌*◌, IsTrue, MatchBool};
ghost use Rattle.raster.specs.Grid.{inside};

use crate::raster::{NO_NUMBER, Raster};

/// So many rows and columns.
#[derive(Clone, Copy, Debug, PartialEq, Eq)]
pub struct Size {
    pub rows: u16,
    pub cols: u16,
}

impl Size {
    /// The size of a raster.
    pub fn of<R: Raster>(raster: &R) -> Size
        ensures rows { result.rows ≡ (R.Raster.meaning raster.now).rows }
        ensures cols { result.cols ≡ (R.Raster.meaning raster.now).cols }
    {
        Size {
            rows: raster.rows(),
            cols: raster.cols(),
        }
    }

    /// Is the cell inside?
    pub fn has(self, row: u16, col: u16) -> bool
        ensures { result ≡ inside self.rows self.cols row col }
    {
        row < self.rows && col < self.cols
    }

    // What a cell is answered: its number, asked for if the cell is inside, or that there is none.
    pub(crate) fn number_at<F: FnOnce() -> u64>(self, row: u16, col: u16, number: F) -> u64
        requires { IsTrue (inside self.rows self.cols row col) → F.pre number }
        ensures { MatchBool (inside self.rows self.cols row col) (F.post number result)
            (result ≡ NO_NUMBER) }
    {
        if self.has(row, col) {
            number()
        } else {
            NO_NUMBER
        }
    }

    /// The cell's number in row order, from 0.
    pub fn place(self, row: u16, col: u16) -> usize
        ensures { result ≡ row * self.cols + col }
    {
        usize::from(row) * usize::from(self.cols) + usize::from(col)
    }
}
