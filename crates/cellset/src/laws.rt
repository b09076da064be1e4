//! The order of cells.
ghost use Rattle.std.specs.Prelude.{◌≡◌};
ghost use Rattle.cellset.specs.Cell.{cell_cmp};
ghost use Rattle.cellset.specs.declared.cell.Cell.{Cell as GridCell};

use crate::Cell;

/// Cells are in reading order: by row, then by column.
pub fn cells_are_in_reading_order()
    ensures { (a b : GridCell) → ⟦<Cell as Ord>⟧.cmp a b ≡ cell_cmp a b }
{}
