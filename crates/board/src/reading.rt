//! Reads the board of a level from its text.
ghost use Rattle.std.specs.Prelude.{◌≡◌, ◌≢◌, ◌⊎◌, [], IfOk, IfErr, OnOk, MatchOption};
ghost use Rattle.std.specs.FinSet as set;
ghost use Rattle.cellset.specs.Cell.{IsOn};
ghost use Rattle.cellset.specs.CellSet.{only};
ghost use Rattle.cellset.specs.Shape.{HasSides};
ghost use Rattle.board.specs.Board.{IsWellFormed};
ghost use Rattle.board.specs.Legal.{IsBoardOf, IsRefusal};
ghost use Rattle.board.specs.Parts.{AreDrawn, HasRows, IsLegalUnlessOpen, extent_of, level_in};
ghost use Rattle.board.specs.Words.{board_words};

use crate::board::Board;
use crate::collection::LevelText;
use crate::parts::{Parts, blank, draw};
use cellset::{Cell, CellSet, Shape};
use reach::step::ByWalk;
use std::alloc::{AllocError, Global};
use thiserror::Error;

/// Why a level has no board: the first of these that holds.
#[derive(Clone, Copy, Debug, PartialEq, Eq, Error)]
#[error("{}", self.word())]
pub enum BoardFault {
    /// A side is above `MAX_SIDE` of `cellset`.
    Size,
    /// There is not exactly one player.
    Player,
    /// There is no box.
    Box,
    /// There are more boxes than goals.
    Goals,
    /// A cell of the room lies in the first or last row or column.
    Open,
    /// The system refused memory.
    #[error("out of memory")]
    Memory,
}

impl BoardFault {
    /// Returns the word of the report. Out of memory is no fault of a level and has none.
    pub fn word(self) -> &'static str
        ensures { result.now ≡ board_words self }
    {
        match self {
            BoardFault::Size => "size",
            BoardFault::Player => "player",
            BoardFault::Box => "box",
            BoardFault::Goals => "goals",
            BoardFault::Open => "open",
            BoardFault::Memory => "",
        }
    }
}

impl From<AllocError> for BoardFault {
    ghost use Rattle.std.specs.Prelude.{◌≡◌};
    ghost use Rattle.board.specs.declared.reading.BoardFault.{BoardFault};

    ghost from_gives = { λ _ why. why ≡ BoardFault.Memory };

    fn from(_: AllocError) -> BoardFault {
        BoardFault::Memory
    }
}

/// Reads the board of a level: its shape, walls, goals, boxes and player, and the room.
pub fn read_board<S: CellSet>(alloc: Global, text: &LevelText<'_>) -> Result<Board<S>, BoardFault>
    ensures ok { IfOk result (IsBoardOf text.now) }
    ensures err { IfErr result (λ why. (why ≡ BoardFault.Memory) ⊎ IsRefusal text.now why) }
{
    read_next_board(alloc, text, None)
}

/// Reads the board of a level as `read_board` does, in the memory of the last board, if there is one.
pub fn read_next_board<S: CellSet>(
    alloc: Global,
    text: &LevelText<'_>,
    last: Option<Board<S>>,
) -> Result<Board<S>, BoardFault>
    ensures ok { IfOk result (IsBoardOf text.now) }
    ensures err { IfErr result (λ why. (why ≡ BoardFault.Memory) ⊎ IsRefusal text.now why) }
{
    let Some(shape) = Shape::new(text.width, text.height) else {
        return Err(BoardFault::Size);
    };
    let mut parts = blank(alloc, shape, last)?;
    let player = fill(&mut parts, text)?;
    if parts.region.is_at_edge() {
        return Err(BoardFault::Open);
    }
    Ok(Board { player, parts })
}

// Draws the rows of a level on parts that have no cells, and finds the room. Returns the player's cell, or the first fault but `Open`.
fn fill<S: CellSet>(parts: &mut Parts<S>, text: &LevelText<'_>) -> Result<Cell, BoardFault>
    requires shape { parts.old.shape ≡ extent_of text.now }
    requires sides { HasSides parts.old.shape.width parts.old.shape.height }
    requires rows { HasRows S.extent S.members parts.old set.empty }
    requires blank { AreDrawn [] S.members parts.old }
    ensures legal { IfOk result (λ player. IsLegalUnlessOpen text.now (level_in S.members parts.new player)) }
    ensures formed { IfOk result (λ player. IsWellFormed (level_in S.members parts.new player)) }
    ensures rows { OnOk result (HasRows S.extent S.members parts.new (S.members parts.new.room)) }
    ensures err { IfErr result (IsRefusal text.now) }
{
    draw(parts, text.text);
    let Some(player) = only_member(&parts.room) else {
        return Err(BoardFault::Player);
    };
    let boxes = parts.boxes.len();
    if boxes == 0 {
        return Err(BoardFault::Box);
    }
    if boxes > parts.goals.len() {
        return Err(BoardFault::Goals);
    }
    // Boxes don't bar the way.
    parts.region.insert(player);
    parts.region.grow::<ByWalk>(&parts.floor);
    // The set of the one player has memory for the room.
    parts.room.clear();
    parts.region.store(&mut parts.room);
    Ok(player)
}

// Returns the member of a set that has exactly one.
fn only_member<S: CellSet>(cells: &S) -> Option<Cell>
    ensures { MatchOption result (set.len (S.members cells.now) ≢ 1)
        (λ c. (set.len (S.members cells.now) ≡ 1) × (S.members cells.now ≡ only c) × IsOn (S.extent cells.now) c) }
{
    if cells.len() != 1 {
        return None;
    }
    cells.next_from(cells.shape().cell(1, 1)?)
}
