//! Frozen boxes: the largest set of boxes none of which can be pushed, except onto a dead square.
//!
//! `frozen` is for callers. The program uses `frozen_among`, with the same contract, over rows.
ghost use Rattle.std.specs.Prelude.{◌≡◌, ◌↔◌, ◌+◌, ◌≤◌, ◌<◌, ◌⊎◌, length, true, false, vec_capacity, IfOk};
ghost use Rattle.std.specs.List.{Contains};
ghost use Rattle.cellset.specs.Cell.{IsOn, neighbor};
ghost use Rattle.cellset.specs.CellSet.{Has};
ghost use Rattle.cellset.specs.declared.cell.Cell.{Cell as GridCell};
ghost use Rattle.cellset.specs.declared.dir.Dir.{Dir as GridDir};
ghost use Rattle.board.specs.Board.{IsWellFormed};
ghost use Rattle.maker.specs.Frozen.{IsHeld, IsLargestFrozen};
ghost use Rattle.maker.specs.Review.{IsReviewed, work_left};

use crate::cells::list_all;
use board::Board;
use cellset::{Cell, CellSet, Dir, MembersOf};
use reach::Rows;
use std::alloc::{AllocError, Global};

// Returns whether a box is held in a direction: it can't be pushed that way, or only onto a dead square.
fn is_held_toward<S: CellSet>(
    board: &Board<S>,
    dead: &Rows,
    frozen: &S,
    cell: Cell,
    dir: Dir,
) -> bool
    requires frozen { S.extent frozen.now ≡ board.now.shape }
    requires on { IsOn board.now.shape cell }
    ensures held { result ≡ true → IsHeld board.now dead.now.members (S.members frozen.now) cell dir }
    ensures loose { result ≡ false → IsHeld board.now dead.now.members (S.members frozen.now) cell dir → ⊥ }
{
    let shape = board.shape();
    let Some(ahead) = shape.step(cell, dir) else {
        return true;
    };
    if board.walls().contains(ahead) || frozen.contains(ahead) || dead.has(ahead) {
        return true;
    }
    let Some(behind) = shape.step(cell, dir.opposite()) else {
        return true;
    };
    !board.room().contains(behind) || frozen.contains(behind)
}

// Returns whether a box is held in every direction.
fn is_held<S: CellSet>(board: &Board<S>, dead: &Rows, frozen: &S, cell: Cell) -> bool
    requires frozen { S.extent frozen.now ≡ board.now.shape }
    requires on { IsOn board.now.shape cell }
    ensures held { result ≡ true → (d : GridDir) → IsHeld board.now dead.now.members (S.members frozen.now) cell d }
    ensures loose { result ≡ false → (d : GridDir) × (IsHeld board.now dead.now.members (S.members frozen.now) cell d → ⊥) }
{
    for dir in [Dir::L, Dir::U, Dir::R, Dir::D] {
        if !is_held_toward(board, dead, frozen, cell, dir) {
            return false;
        }
    }
    true
}

// Queues the neighbour in a direction if it is a box of the set.
fn wait_toward<S: CellSet>(frozen: &S, work: &mut Vec<Cell>, cell: Cell, dir: Dir)
    requires on { IsOn (S.extent frozen.now) cell }
    requires space { length work.old.items < vec_capacity work.old }
    ensures waiting { (q : GridCell) → Contains work.old.items q → Contains work.new.items q }
    ensures listed { (q : GridCell) → Contains work.new.items q → Contains work.old.items q ⊎ Has (S.members frozen.now) q }
    ensures here { Has (S.members frozen.now) (neighbor cell dir) → Contains work.new.items (neighbor cell dir) }
    ensures more { length work.new.items ≤ length work.old.items + 1 }
    ensures capacity { vec_capacity work.new ≡ vec_capacity work.old }
{
    if let Some(next) = frozen.shape().step(cell, dir) {
        if frozen.contains(next) {
            work.push_reserved(next);
        }
    }
}

// Queues each neighbour that is a box of the set.
fn wait_around<S: CellSet>(frozen: &S, work: &mut Vec<Cell>, cell: Cell)
    requires on { IsOn (S.extent frozen.now) cell }
    requires space { length work.old.items + 4 ≤ vec_capacity work.old }
    ensures waiting { (q : GridCell) → Contains work.old.items q → Contains work.new.items q }
    ensures listed { (q : GridCell) → Contains work.new.items q → Contains work.old.items q ⊎ Has (S.members frozen.now) q }
    ensures around { (d : GridDir) → Has (S.members frozen.now) (neighbor cell d) → Contains work.new.items (neighbor cell d) }
    ensures more { length work.new.items ≤ length work.old.items + 4 }
    ensures capacity { vec_capacity work.new ≡ vec_capacity work.old }
{
    wait_toward(frozen, work, cell, Dir::L);
    wait_toward(frozen, work, cell, Dir::U);
    wait_toward(frozen, work, cell, Dir::R);
    wait_toward(frozen, work, cell, Dir::D);
}

// Removes a box from the set if it isn't held, and then queues its neighbours.
fn review<S: CellSet>(
    board: &Board<S>,
    dead: &Rows,
    frozen: &mut S,
    work: &mut Vec<Cell>,
    cell: Cell,
)
    requires frozen { S.extent frozen.old ≡ board.now.shape }
    requires on { IsOn board.now.shape cell }
    requires space { work_left (S.members frozen.old) work.old.items ≤ vec_capacity work.old }
    ensures extent { S.extent frozen.new ≡ board.now.shape }
    ensures reviewed { IsReviewed board.now dead.now.members cell (S.members frozen.old) work.old.items (S.members frozen.new) work.new.items }
    ensures listed { (q : GridCell) → Contains work.new.items q → Contains work.old.items q ⊎ Has (S.members frozen.old) q }
    ensures capacity { vec_capacity work.new ≡ vec_capacity work.old }
{
    if !frozen.contains(cell) {
        return;
    }
    if !is_held(board, dead, frozen, cell) {
        frozen.remove(cell);
        wait_around(frozen, work, cell);
    }
}

// Works until the worklist is empty. After that every box of the set is held in every direction.
fn thaw<S: CellSet>(board: &Board<S>, dead: &Rows, frozen: &mut S, work: &mut Vec<Cell>)
    requires formed { IsWellFormed board.now }
    requires frozen { S.extent frozen.old ≡ board.now.shape }
    requires space { work_left (S.members frozen.old) work.old.items ≤ vec_capacity work.old }
    requires boxes { (q : GridCell) → Has (S.members frozen.old) q ↔ Has board.now.boxes q }
    requires waiting { (q : GridCell) → Has (S.members frozen.old) q → Contains work.old.items q }
    requires listed { (q : GridCell) → Contains work.old.items q → Has (S.members frozen.old) q }
    ensures extent { S.extent frozen.new ≡ board.now.shape }
    ensures exact { IsLargestFrozen board.now dead.now.members (S.members frozen.new) }
{
    while let Some(cell) = work.pop() {
        review(board, dead, frozen, work, cell);
    }
}

/// Returns the largest frozen set, where `dead` is taken for the set of dead squares.
pub fn frozen<S: CellSet>(alloc: Global, board: &Board<S>, dead: &S) -> Result<S, AllocError>
    requires dead { S.extent dead.now ≡ board.now.shape }
    ensures extent { IfOk result (λ s. S.extent s ≡ board.now.shape) }
    ensures exact { IfOk result (λ s. IsLargestFrozen board.now (S.members dead.now) (S.members s)) }
{
    let mut rows = Rows::new(alloc, board.shape())?;
    rows.load(dead);
    frozen_among(alloc, board, &rows)
}

/// Returns the largest frozen set, where the rows are taken for the dead squares.
pub fn frozen_among<S: CellSet>(
    alloc: Global,
    board: &Board<S>,
    dead: &Rows,
) -> Result<S, AllocError>
    ensures extent { IfOk result (λ s. S.extent s ≡ board.now.shape) }
    ensures exact { IfOk result (λ s. IsLargestFrozen board.now dead.now.members (S.members s)) }
{
    let boxes = board.boxes();
    let mut frozen = S::new(alloc, board.shape())?;
    frozen.copy_from(boxes);
    // Each box is queued at the start, and again whenever one of its four neighbours leaves the set.
    let mut work = Vec::with_capacity(alloc, 5 * boxes.len())?;
    list_all(boxes, &mut work);
    thaw(board, dead, &mut frozen, &mut work);
    Ok(frozen)
}
