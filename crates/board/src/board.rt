//! A board, with its parts as sets of cells.
ghost use Rattle.std.specs.Prelude.{◌≡◌, ◌↔◌};
ghost use Rattle.cellset.specs.Cell.{IsOn};
ghost use Rattle.cellset.specs.CellSet.{Has};
ghost use Rattle.cellset.specs.declared.cell.Cell.{Cell as GridCell};
ghost use Rattle.board.specs.Board.{IsWellFormed};
ghost use Rattle.board.specs.Game.{IsFloor};

use crate::parts::Parts;
use cellset::{Cell, CellSet, Shape};
use reach::Rows;
use std::marker::Model;

/// A level that can be played, with sets of cells of the type `S`.
#[derive(Debug, Drop)]
pub struct Board<S: CellSet> {
    pub(crate) player: Cell,
    // Apart, so that a board is moved without its sets.
    pub(crate) parts: Box<Parts<S>>,
}

impl<S: CellSet> Model for Board<S> {
    ghost use Rattle.board.specs.Game.{Level};
    ghost use Rattle.board.specs.Board.{coded_level, IsWellFormed};
    ghost use Rattle.board.specs.Parts.{HasRows, level_in};

    ghost Value = { Level };

    ghost coded = { coded_level };

    ghost view = { λ b. level_in S.members b.parts.value b.player };

    ghost invariant = { λ b. HasRows S.extent S.members b.parts.value (S.members b.parts.value.room) × IsWellFormed (level_in S.members b.parts.value b.player) };
}

impl<S: CellSet> Board<S> {
    /// Returns the width and the height.
    pub fn shape(&self) -> Shape
        ensures value { result ≡ self.now.shape }
        ensures formed { IsWellFormed self.now }
    {
        self.parts.shape
    }

    /// Returns the walls.
    pub fn walls(&self) -> &S
        ensures members { S.members result.now ≡ self.now.walls }
        ensures extent { S.extent result.now ≡ self.now.shape }
    {
        &self.parts.walls
    }

    /// Returns the goals.
    pub fn goals(&self) -> &S
        ensures members { S.members result.now ≡ self.now.goals }
        ensures extent { S.extent result.now ≡ self.now.shape }
    {
        &self.parts.goals
    }

    /// Returns the boxes at the start.
    pub fn boxes(&self) -> &S
        ensures members { S.members result.now ≡ self.now.boxes }
        ensures extent { S.extent result.now ≡ self.now.shape }
        ensures formed { IsWellFormed self.now }
    {
        &self.parts.boxes
    }

    /// Returns the player's cell at the start, on the shape of the board.
    pub fn player(&self) -> Cell
        ensures value { result ≡ self.now.player }
        ensures on { IsOn self.now.shape result }
    {
        self.player
    }

    /// Returns the room: the cells that the player could reach if there were no boxes.
    pub fn room(&self) -> &S
        ensures members { S.members result.now ≡ self.now.room }
        ensures extent { S.extent result.now ≡ self.now.shape }
        ensures formed { IsWellFormed self.now }
    {
        &self.parts.room
    }

    /// Returns the room as rows of bits.
    pub fn room_rows(&self) -> &Rows
        ensures members { result.now.members ≡ self.now.room }
        ensures extent { result.now.extent ≡ self.now.shape }
        ensures formed { IsWellFormed self.now }
    {
        &self.parts.region
    }

    /// Returns the floor as rows of bits.
    pub fn floor(&self) -> &Rows
        ensures members { (c : GridCell) → Has result.now.members c ↔ IsFloor self.now c }
        ensures extent { result.now.extent ≡ self.now.shape }
    {
        &self.parts.floor
    }
}
