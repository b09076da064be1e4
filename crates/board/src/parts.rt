//! The parts of a board, as sets.
//!
//! They take the memory of the last board. With new memory for each board, 10,000 levels of 5 by 4 take 20 % more instructions to audit and
//! 18 % more to make answers for. A single level gains nothing.
ghost use Rattle.std.specs.Prelude.{◌≡◌, ◌+◌, ◌-◌, ◌<◌, ◌≤◌, ℕ, List, [], ◌∷◌, ◌++◌, drop, length, take, IfOk, OnOk, All};
ghost use Rattle.std.specs.FinSet as set;
ghost use Rattle.cellset.specs.Shape.{HasSides};
ghost use Rattle.board.specs.Lines.{first_row, lines_in};
ghost use Rattle.lines.specs.Lines.{IsFirstLine};
ghost use Rattle.board.specs.Parts.{AreDrawn, HasRows};

use crate::board::Board;
use crate::row::{kinds_from, past_end};
use cellset::{CellSet, Shape};
use reach::Rows;
use std::alloc::{AllocError, Global};

/// The parts of a board: the cells of each kind that the rows so far show, and then the room.
#[derive(Debug, Drop)]
pub(crate) struct Parts<S: CellSet> {
    pub(crate) shape: Shape,
    pub(crate) walls: S,
    pub(crate) goals: S,
    pub(crate) boxes: S,
    // The cells of players, and the room once the player is known.
    pub(crate) room: S,
    // The cells that aren't walls, and the room again, as rows of bits.
    pub(crate) floor: Rows,
    pub(crate) region: Rows,
}

/// Adds the cells of each kind in the rows that a text begins with to parts that have none. The shape says how many rows there are.
pub(crate) fn draw<S: CellSet>(parts: &mut Parts<S>, text: &[u8])
    requires sides { HasSides parts.old.shape.width parts.old.shape.height }
    requires rows { HasRows S.extent S.members parts.old set.empty }
    requires blank { AreDrawn [] S.members parts.old }
    requires high { parts.old.shape.height ≤ length (lines_in text.now) }
    requires wide { All (λ row. length row ≤ parts.old.shape.width) (take parts.old.shape.height (lines_in text.now)) }
    ensures shape { parts.new.shape ≡ parts.old.shape }
    ensures rows { HasRows S.extent S.members parts.new set.empty }
    ensures drawn { AreDrawn (take parts.old.shape.height (lines_in text.now)) S.members parts.new }
{
    let mut rest = text;
    for row in 0..parts.shape.height() {
        let next = draw_row(parts, row + 1, rest);
        rest = rest.split_at(next).1;
    }
}

/// Returns parts that have no cells, in the memory of the last board, if there is one.
pub(crate) fn blank<S: CellSet>(
    alloc: Global,
    shape: Shape,
    last: Option<Board<S>>,
) -> Result<Box<Parts<S>>, AllocError>
    ensures shape { IfOk result (λ s. s.value.shape ≡ shape) }
    ensures rows { IfOk result (λ s. HasRows S.extent S.members s.value set.empty) }
    ensures drawn { IfOk result (λ s. AreDrawn [] S.members s.value) }
{
    let mut parts = match last {
        Some(board) => board.parts,
        None => memory(alloc, shape)?,
    };
    renew(alloc, shape, &mut parts)?;
    Ok(parts)
}

// Returns memory for parts.
fn memory<S: CellSet>(alloc: Global, shape: Shape) -> Result<Box<Parts<S>>, AllocError> {
    let parts = Parts {
        shape,
        walls: S::new(alloc, shape)?,
        goals: S::new(alloc, shape)?,
        boxes: S::new(alloc, shape)?,
        room: S::new(alloc, shape)?,
        floor: Rows::new(alloc, shape)?,
        region: Rows::new(alloc, shape)?,
    };
    Ok(Box::new(alloc, parts)?)
}

// Removes all cells of the parts and gives them another shape.
fn renew<S: CellSet>(alloc: Global, shape: Shape, parts: &mut Parts<S>) -> Result<(), AllocError>
    ensures shape { OnOk result (parts.new.shape ≡ shape) }
    ensures rows { OnOk result (HasRows S.extent S.members parts.new set.empty) }
    ensures drawn { OnOk result (AreDrawn [] S.members parts.new) }
{
    parts.walls.renew(alloc, shape)?;
    parts.goals.renew(alloc, shape)?;
    parts.boxes.renew(alloc, shape)?;
    parts.room.renew(alloc, shape)?;
    parts.floor.renew(alloc, shape)?;
    parts.floor.complement();
    parts.region.renew(alloc, shape)?;
    parts.shape = shape;
    Ok(())
}

// Adds the cells of the row that a text begins with, and returns the offset of the next. Rows count from 1.
#[inline(always)]
fn draw_row<S: CellSet>(parts: &mut Parts<S>, row: u8, text: &[u8]) -> usize
    requires rows { HasRows S.extent S.members parts.old set.empty }
    requires sides { HasSides parts.old.shape.width parts.old.shape.height }
    requires high { (1 ≤ row) × (row ≤ parts.old.shape.height) }
    requires some { 0 < length text.now }
    requires wide { length (first_row text.now) ≤ parts.old.shape.width }
    ensures next { IsFirstLine text.now (first_row text.now) (drop result text.now) }
    ensures within { result ≤ length text.now }
    ensures shape { parts.new.shape ≡ parts.old.shape }
    ensures rows { HasRows S.extent S.members parts.new set.empty }
    ensures drawn { (done : List (List ℕ)) → length done + 1 ≡ row
        → AreDrawn done S.members parts.old
        → AreDrawn (done ++ first_row text.now ∷ []) S.members parts.new }
{
    let mut from = 0;
    for part in 0..parts.shape.width() / 64 + 1 {
        let kinds = kinds_from(text, from);
        let lead = lead(part);
        let walls = kinds.walls << lead;
        parts.walls.insert_row(row, part, walls);
        parts.floor.remove_row(row, part, walls);
        parts.goals.insert_row(row, part, kinds.goals << lead);
        parts.boxes.insert_row(row, part, kinds.boxes << lead);
        parts.room.insert_row(row, part, kinds.players << lead);
        if kinds.count < 64 {
            return (from + kinds.count + 1).min(text.len());
        }
        from += 64 - lead as usize;
    }
    past_end(text, from)
}

// Returns how many bits of a part are no column. Columns count from 1, so bit 0 of part 0 is none.
#[inline(always)]
fn lead(part: u8) -> u8
    ensures { result ≡ 1 - part }
{
    if part == 0 { 1 } else { 0 }
}
