//! The trap of a list: the cells of its lines of one box with `*`, if no push leads a box out of them.
//!
//! The list covers each state with a box on the trap. So neither a pattern with such a box nor a push to the trap is looked at any
//! further. This is for what `make` writes of dead squares: without it those lists take 4 to 9 times as long.
ghost use Rattle.std.specs.Prelude.{◌≡◌, IsTrue, IfOk, MatchBool, OnOk};
ghost use Rattle.std.specs.FinSet as finset;
ghost use Rattle.cellset.specs.{CellSet.Has, declared.cell.Cell.Cell as GridCell};
ghost use Rattle.certificates.specs.CellLists.{cells_in};
ghost use Rattle.certificates.specs.Pattern.{AreLawful};
ghost use Rattle.closure.specs.Arena.{AreOnGrid, list_in};
ghost use Rattle.closure.specs.Trap.{AreOff, AreSinglesIn, AreTrapped, IsTrapOf};

use crate::arena::Arena;
use board::Board;
use cellset::{Cell, CellSet};
use reach::Rows;
use reach::step::ByPush;
use std::alloc::{AllocError, Global};

// Finds the trap of a list of lawful patterns: the cells of its single boxes, or none if pushes lead out of these. Returns true only if each
// line has a box on the trap.
pub(crate) fn find_trap<S: CellSet>(
    alloc: Global,
    board: &Board<S>,
    arena: &Arena,
    trap: &mut Rows,
) -> Result<bool, AllocError>
    requires lawful { AreLawful board.now (list_in arena.now) }
    requires extent { trap.old.extent ≡ board.now.shape }
    requires empty { trap.old.members ≡ finset.empty }
    ensures trap { OnOk result (IsTrapOf board.now (list_in arena.now) trap.new) }
    ensures all { IfOk result (λ all. IsTrue all → AreTrapped trap.new.members (list_in arena.now)) }
{
    let all_single = add_singles(arena, trap);
    if trap.is_empty() {
        return Ok(false);
    }
    let is_closed = trap.is_closed::<ByPush>(alloc, board.room_rows())?;
    if is_closed {
        return Ok(all_single);
    }
    trap.clear();
    Ok(false)
}

// Adds the boxes of the lines that are one box with `*`. Returns true only if all lines are.
fn add_singles(arena: &Arena, cells: &mut Rows) -> bool
    requires on { AreOnGrid cells.old.extent (list_in arena.now) }
    requires empty { cells.old.members ≡ finset.empty }
    ensures extent { cells.new.extent ≡ cells.old.extent }
    ensures singles { AreSinglesIn (list_in arena.now) cells.new.members }
    ensures all { IsTrue result → AreTrapped cells.new.members (list_in arena.now) }
{
    let mut all_single = true;
    for line in 0..arena.lines.len() {
        let pattern = arena.pattern(line);
        let ([cell], None) = (pattern.boxes, pattern.seeds) else {
            all_single = false;
            continue;
        };
        cells.insert(*cell);
    }
    all_single
}

// Returns whether one of the boxes is on the trap.
#[tactic(auto, using(certificates::proofs::CellLists::over_cells))]
pub(crate) fn is_trapped(boxes: &[Cell], trap: &Rows) -> bool
    ensures { MatchBool result
        ((c : GridCell) × Has (cells_in boxes.now) c × Has trap.now.members c)
        (AreOff trap.now.members boxes.now) }
{
    for cell in boxes {
        if trap.has(*cell) {
            return true;
        }
    }
    false
}
