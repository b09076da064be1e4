//! Which patterns may be in a list.
ghost use Rattle.std.specs.Prelude.{IfOk, MatchBool, MatchOption};
ghost use Rattle.cellset.specs.{Cell.IsOn, CellSet.Has, CellSet.Lacks, declared.cell.Cell.Cell as GridCell};
ghost use Rattle.certificates.specs.CellLists.{cells_in};
ghost use Rattle.certificates.specs.Pattern.{IsLawful};
ghost use Rattle.closure.specs.Arena.{IsOnGrid, IsStored, stored_pattern};
ghost use Rattle.closure.specs.FirstFault.{IsUnlawful};

use crate::arena::{Arena, StoredLine, part};
use crate::fault::LineWhy;
use board::Board;
use cellset::{Cell, CellSet, Shape};
use certificates::{are_in, are_outside, load, number_of};
use std::alloc::{AllocError, Global};

// Returns whether no seed is one of the boxes.
#[tactic(auto, using(certificates::proofs::CellLists::over_cells))]
fn are_unnamed(seeds: &[Cell], boxes: &[Cell]) -> bool
    ensures { MatchBool result
        ((c : GridCell) → Has (cells_in seeds.now) c → Lacks (cells_in boxes.now) c)
        ((c : GridCell) × Has (cells_in seeds.now) c × Has (cells_in boxes.now) c) }
{
    for seed in seeds {
        if number_of(boxes, *seed).is_some() {
            return false;
        }
    }
    true
}

// Returns whether no seed is one of the boxes, on the grid of this shape. If there are many of both, a set holds the boxes.
fn are_apart<S: CellSet>(
    alloc: Global,
    shape: Shape,
    seeds: &[Cell],
    boxes: &[Cell],
) -> Result<bool, AllocError>
    requires seeds { (c : GridCell) → Has (cells_in seeds.now) c → IsOn shape c }
    requires boxes { (c : GridCell) → Has (cells_in boxes.now) c → IsOn shape c }
    ensures { IfOk result (λ apart. MatchBool apart
        ((c : GridCell) → Has (cells_in seeds.now) c → Lacks (cells_in boxes.now) c)
        ((c : GridCell) × Has (cells_in seeds.now) c × Has (cells_in boxes.now) c)) }
{
    if seeds.len() <= 8 || boxes.len() <= 8 {
        return Ok(are_unnamed(seeds, boxes));
    }
    let mut set = S::new(alloc, shape)?;
    load(boxes, &mut set);
    Ok(are_outside(seeds, &set))
}

// Returns why the pattern of a line isn't lawful, or None if it is. The pattern is on the grid.
//
// It takes a line, because lists of single boxes take 2 % more instructions if seeds that aren't there are made a slice.
pub(crate) fn why_unlawful<S: CellSet>(
    alloc: Global,
    board: &Board<S>,
    arena: &Arena,
    line: StoredLine,
) -> Result<Option<LineWhy>, AllocError>
    requires line { IsStored arena.now line }
    requires on { IsOnGrid board.now.shape (stored_pattern arena.now line) }
    ensures { IfOk result (λ why. MatchOption why (IsLawful board.now (stored_pattern arena.now line)) (IsUnlawful board.now (stored_pattern arena.now line))) }
{
    let boxes = part(&arena.boxes, line.boxes);
    if !are_outside(boxes, board.walls()) {
        return Ok(Some(LineWhy::Wall));
    }
    if let Some(span) = line.seeds {
        let seeds = part(&arena.seeds, span);
        if !are_in(seeds, board.room()) || !are_apart::<S>(alloc, board.shape(), seeds, boxes)? {
            return Ok(Some(LineWhy::Seed));
        }
    }
    if are_in(boxes, board.goals()) {
        return Ok(Some(LineWhy::Goals));
    }
    Ok(None)
}
