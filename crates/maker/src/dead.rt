//! Dead squares: cells from which no pushes bring a box to a goal, even if it is the only box.
ghost use Rattle.std.specs.Prelude.{◌≡◌, ◌↔◌, ◌⊎◌, IfOk};
ghost use Rattle.cellset.specs.CellSet.{Has};
ghost use Rattle.cellset.specs.declared.cell.Cell.{Cell as GridCell};
ghost use Rattle.maker.specs.Dead.{AreDead, IsRoomOf};

use board::Board;
use cellset::{CellSet, MembersOf};
use reach::Rows;
use reach::step::ByPull;
use std::alloc::{AllocError, Global};

/// Returns the dead squares of a board. Each is in the room or holds a box at the start.
pub fn dead_squares<S: CellSet>(alloc: Global, board: &Board<S>) -> Result<S, AllocError>
    ensures extent { IfOk result (λ s. S.extent s ≡ board.now.shape) }
    ensures exact { IfOk result (λ s. AreDead board.now (S.members s)) }
{
    let (dead, live) = dead_rows(alloc, board)?;
    drop(live);
    dead.to_set(alloc)
}

/// Returns the dead squares of a board as rows of bits, and the rows of the live cells, whose memory serves again.
pub fn dead_rows<S: CellSet>(alloc: Global, board: &Board<S>) -> Result<(Rows, Rows), AllocError>
    ensures extent { IfOk result (λ r. r.0.extent ≡ board.now.shape) }
    ensures exact { IfOk result (λ r. AreDead board.now r.0.members) }
    ensures live { IfOk result (λ r. r.1.extent ≡ board.now.shape) }
{
    let shape = board.shape();
    let mut live = Rows::new(alloc, shape)?;
    insert_all(board.goals(), &mut live);
    live.grow::<ByPull>(board.room_rows());
    let Ok(mut dead) = Rows::new(alloc, shape) else {
        drop(live);
        return Err(AllocError);
    };
    dead.copy_from(board.room_rows());
    add_boxes(board, &mut dead);
    dead.subtract(&live);
    Ok((dead, live))
}

// Adds the boxes to the rows of the room. In most levels they are all there.
fn add_boxes<S: CellSet>(board: &Board<S>, rows: &mut Rows)
    requires { IsRoomOf board.now rows.old }
    ensures extent { rows.new.extent ≡ board.now.shape }
    ensures members { (c : GridCell) → Has rows.new.members c ↔ (Has board.now.room c ⊎ Has board.now.boxes c) }
{
    if board.boxes().is_subset(board.room()) {
        return;
    }
    insert_all(board.boxes(), rows);
}

// Inserts the cells of a set one by one. That takes fewer steps than reading every row, because a board has few goals and boxes.
fn insert_all<S: CellSet>(cells: &S, rows: &mut Rows)
    requires { S.extent cells.now ≡ rows.old.extent }
    ensures extent { rows.new.extent ≡ rows.old.extent }
    ensures members { (c : GridCell) → Has rows.new.members c ↔ (Has rows.old.members c ⊎ Has (S.members cells.now) c) }
{
    for cell in MembersOf::new(cells) {
        rows.insert(cell);
    }
}
