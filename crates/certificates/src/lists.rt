//! Lists of cells, and the sets of their cells.
ghost use Rattle.std.specs.Prelude.{◌≡◌, ◌≢◌, ◌+◌, ◌*◌, ◌<◌, ◌↔◌, ◌++◌, IfOk, IsTrue, List, MatchBool, MatchOption, length, map};
ghost use Rattle.std.specs.FinSet as finset;
ghost use Rattle.cellset.specs.{Cell.IsOn, CellSet.Has, CellSet.Lacks, declared.cell.Cell.Cell as GridCell};
ghost use Rattle.certificates.specs.CellLists.{cell_of, cells_of, cell_no, cells_in};

use answers::Coord;
use cellset::{Cell, CellSet, Shape};
use std::alloc::{AllocError, Global};

/// Returns whether two cells are the same, by one comparison of both bytes. With two comparisons long lists take 3 % more instructions, and
/// a quarter more of their jumps are predicted wrongly.
#[inline(always)]
pub fn is_same(left: Cell, right: Cell) -> bool
    ensures { MatchBool result (left ≡ right) (left ≢ right) }
{
    both_bytes(left) == both_bytes(right)
}

// Returns the row and the column as one number.
#[inline(always)]
fn both_bytes(cell: Cell) -> u16
    ensures { result ≡ cell.row + 256 * cell.column }
{
    u16::from(cell.row()) + 256 * u16::from(cell.column())
}

/// Adds the cells of coordinates to a list, up to the first that is off the grid. Returns whether all of them are on it.
///
/// It is inlined, because most lists have one or two cells. Without that lists of single boxes take 3 % more instructions.
#[inline(always)]
pub fn add_cells(shape: Shape, coords: &[Coord], cells: &mut Vec<Cell>) -> Result<bool, AllocError>
    ensures grown { (more : List GridCell) × (cells.new.items ≡ cells.old.items ++ more) }
    ensures exact { IfOk result (λ all. MatchBool all
        ((cells.new.items ≡ cells.old.items ++ map cell_of coords.now)
        × ((c : GridCell) → Has (cells_of coords.now) c → IsOn shape c))
        ((c : GridCell) × Has (cells_of coords.now) c × (IsOn shape c → ⊥))) }
{
    for at in coords {
        let Some(cell) = shape.cell(at.column, at.row) else {
            return Ok(false);
        };
        cells.push(cell)?;
    }
    Ok(true)
}

/// Returns whether each of the cells is a member.
#[tactic(auto, using(crate::proofs::CellLists::over_cells))]
pub fn are_in<S: CellSet>(cells: &[Cell], set: &S) -> bool
    requires { (c : GridCell) → Has (cells_in cells.now) c → IsOn (S.extent set.now) c }
    ensures { MatchBool result
        ((c : GridCell) → Has (cells_in cells.now) c → Has (S.members set.now) c)
        ((c : GridCell) × Has (cells_in cells.now) c × Lacks (S.members set.now) c) }
{
    for cell in cells {
        if !set.contains(*cell) {
            return false;
        }
    }
    true
}

/// Returns whether none of the cells is a member.
#[tactic(auto, using(crate::proofs::CellLists::over_cells))]
pub fn are_outside<S: CellSet>(cells: &[Cell], set: &S) -> bool
    requires { (c : GridCell) → Has (cells_in cells.now) c → IsOn (S.extent set.now) c }
    ensures { MatchBool result
        ((c : GridCell) → Has (cells_in cells.now) c → Lacks (S.members set.now) c)
        ((c : GridCell) × Has (cells_in cells.now) c × Has (S.members set.now) c) }
{
    for cell in cells {
        if set.contains(*cell) {
            return false;
        }
    }
    true
}

/// Removes the cells from the set.
#[tactic(auto, using(crate::proofs::CellLists::read_in, crate::proofs::CellLists::next_in, crate::proofs::CellLists::list_all, crate::proofs::Sets::difference_more, crate::proofs::Sets::difference_none))]
pub fn take_out<S: CellSet>(cells: &[Cell], set: &mut S)
    requires { (c : GridCell) → Has (cells_in cells.now) c → IsOn (S.extent set.old) c }
    ensures extent { S.extent set.new ≡ S.extent set.old }
    ensures members { S.members set.new ≡ finset.difference (S.members set.old) (cells_in cells.now) }
{
    for cell in cells {
        set.remove(*cell);
    }
}

/// The number of a cell among these.
#[tactic(auto, using(crate::proofs::CellLists::next_in, crate::proofs::CellLists::list_all, crate::proofs::Sets::lacks_insert, crate::proofs::CellLists::empty_lacks))]
pub fn number_of(cells: &[Cell], cell: Cell) -> Option<usize>
    ensures { MatchOption result (Lacks (cells_in cells.now) cell) (λ number. (number < length cells.now)
        × (cell_no cells.now number ≡ cell)) }
{
    for (number, at) in cells.iter().enumerate() {
        if is_same(*at, cell) {
            return Some(number);
        }
    }
    None
}

/// Returns whether a cell is one of these members of a set. It asks the set first, because that takes less time and most cells aren't in it.
pub fn is_among<S: CellSet>(cells: &[Cell], set: &S, cell: Cell) -> bool
    requires members { (c : GridCell) → Has (cells_in cells.now) c → Has (S.members set.now) c }
    requires on { IsOn (S.extent set.now) cell }
    ensures { MatchBool result (Has (cells_in cells.now) cell) (Lacks (cells_in cells.now) cell) }
{
    if !set.contains(cell) {
        return false;
    }
    match number_of(cells, cell) {
        Some(_) => true,
        None => false,
    }
}

/// Replaces the members by the cells.
pub fn load<S: CellSet>(cells: &[Cell], set: &mut S)
    requires { (c : GridCell) → Has (cells_in cells.now) c → IsOn (S.extent set.old) c }
    ensures extent { S.extent set.new ≡ S.extent set.old }
    ensures members { S.members set.new ≡ cells_in cells.now }
{
    set.clear();
    for cell in cells {
        set.insert(*cell);
    }
}
