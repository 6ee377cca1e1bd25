// The text map of a raster: a line for each row, with single spaces between the cells. Rows and columns are gone through
// by their numbers, which a raster is asked by: it has no iterator.
ghost use Rattle.std.specs.Prelude.{◌≡◌, IfOk, Some, string_bytes};
ghost use Rattle.raster_text.specs.Map.{map_text, number_text, row_text};

use raster::{NO_NUMBER, Raster};
use std::alloc::{AllocError, Global};
use std::fmt;

// A number in decimal, or a hyphen where there is none.
#[derive(Clone, Copy)]
struct Number(u64);

impl fmt::Display for Number {
    ghost output = { λ n. Some (number_text n.0) };

    fn fmt<W: fmt::Write>(&self, f: &mut fmt::Formatter<W>) -> fmt::Result {
        match self.0 {
            NO_NUMBER => f.write_str("-"),
            number => write!(f, "{number}"),
        }
    }
}

// One row of a raster, as a line.
#[derive(Drop)]
struct Row<'a, R> {
    raster: &'a R,
    row: u16,
}

impl<R: Raster> fmt::Display for Row<'_, R> {
    ghost output = { λ r. Some (row_text (R.Raster.meaning r.raster.now) r.row) };

    fn fmt<W: fmt::Write>(&self, f: &mut fmt::Formatter<W>) -> fmt::Result {
        let cols = self.raster.cols();
        for col in 0..cols {
            let number = Number(self.raster.cell(self.row, col));
            if col + 1 < cols {
                write!(f, "{number} ")?;
            } else {
                writeln!(f, "{number}")?;
            }
        }
        Ok(())
    }
}

/// A raster as a text map: a line for each row.
#[derive(Clone, Copy, Debug, Drop, PartialEq, Eq)]
pub struct Map<R>(pub R);

// All lines, each with its end.
impl<R: Raster> fmt::Display for Map<R> {
    ghost output = { λ m. Some (map_text (R.Raster.meaning m.0)) };

    fn fmt<W: fmt::Write>(&self, f: &mut fmt::Formatter<W>) -> fmt::Result {
        for row in 0..self.0.rows() {
            let line = Row {
                raster: &self.0,
                row,
            };
            write!(f, "{line}")?;
        }
        Ok(())
    }
}

/// A line for each row: the numbers of its cells, with a hyphen where there is none.
pub fn map_text<R: Raster>(heap: Global, raster: &R) -> Result<String, AllocError>
    ensures { IfOk result (λ s. string_bytes s ≡ map_text (R.Raster.meaning raster.now)) }
{
    Map(raster).to_string(heap)
}
