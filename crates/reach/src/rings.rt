//! The eight cells around a cell, in one look at three rows.
ghost use Rattle.std.specs.Prelude.{◌*◌, ◌<◌, ◌≤◌, length};
ghost use Rattle.cellset.specs.Cell.{cell_at};
ghost use Rattle.reach.specs.Rings.{AreAround, IsRing};
ghost use Rattle.reach.specs.BitRows.{InRows};

use crate::columns::{columns_from, has_bit, row_at};

/// Which of the eight cells around a cell are in a set.
#[derive(Clone, Copy, Debug, PartialEq, Eq)]
pub struct Ring {
    pub left: bool,
    pub left_up: bool,
    pub up: bool,
    pub up_right: bool,
    pub right: bool,
    pub right_down: bool,
    pub down: bool,
    pub down_left: bool,
}

// Returns the rows and columns around a cell, three of each. Row 0 and column 0 are empty, and so is a row past the last.
#[inline(always)]
pub(crate) fn read_around<const N: usize>(
    rows: &[[u64; N]],
    row: usize,
    column: usize,
) -> [[u64; 1]; 3]
    requires row { (1 ≤ row) × (row < length rows.now) }
    requires column { (1 ≤ column) × (column < 64 * N) }
    ensures { AreAround (InRows rows.now) (cell_at column row) result }
{
    [
        columns_from(&rows[row - 1], column - 1),
        columns_from(&rows[row], column - 1),
        columns_from(&row_at(rows, row + 1), column - 1),
    ]
}

// Returns which cells around the middle of three rows are in them.
#[inline(always)]
pub(crate) fn read_ring(around: &[[u64; 1]; 3]) -> Ring
    ensures { IsRing (InRows around.now) (cell_at 1 1) result }
{
    Ring {
        left: has_bit(&around[1], 0),
        left_up: has_bit(&around[0], 0),
        up: has_bit(&around[0], 1),
        up_right: has_bit(&around[0], 2),
        right: has_bit(&around[1], 2),
        right_down: has_bit(&around[2], 2),
        down: has_bit(&around[2], 1),
        down_left: has_bit(&around[2], 0),
    }
}
