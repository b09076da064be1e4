//! One cell of a grid.
ghost use Rattle.std.specs.Prelude.{◌≡◌};

use std::fmt;

/// A cell of a grid: its row and its column, both from 1. Cells are ordered by row, then by column.
#[derive(Clone, Copy, Debug, PartialEq, Eq, PartialOrd, Ord)]
pub struct Cell {
    pub(crate) row: u8,
    pub(crate) column: u8,
}

impl Cell {
    /// Returns the column, from 1.
    pub fn column(self) -> u8
        ensures { result ≡ self.column }
    {
        self.column
    }

    /// Returns the row, from 1.
    pub fn row(self) -> u8
        ensures { result ≡ self.row }
    {
        self.row
    }
}

/// Writes `C,R`, as in answers and reports.
impl fmt::Display for Cell {
    ghost use Rattle.std.specs.Prelude.{Some};
    ghost use Rattle.cellset.specs.Words.{cell_word};

    ghost output = { λ cell. Some (cell_word cell) };

    fn fmt<W: fmt::Write>(&self, f: &mut fmt::Formatter<W>) -> fmt::Result {
        write!(f, "{},{}", self.column, self.row)
    }
}
