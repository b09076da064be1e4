//! States, and one step of the game.
//!
//! `State` is for callers. The program plays on a mailbox of bytes; the contract of `Replayer` speaks of the same steps.
ghost use Rattle.std.specs.Prelude.{◌≡◌, ◌↔◌, IfOk, OnErr};
ghost use Rattle.std.specs.Option.{SomeIff};
ghost use Rattle.cellset.specs.Cell.{IsOn, neighbor};
ghost use Rattle.cellset.specs.CellSet.{Lacks};
ghost use Rattle.board.specs.Game.{IsFloor, start};
ghost use Rattle.play.specs.State.{StateOn, Moves, IsWallAhead, IsBlocked};

use board::Board;
use cellset::{Cell, CellSet, Dir};
use std::alloc::{AllocError, Global};
use std::marker::Model;
use thiserror::Error;

/// What a step moved.
#[derive(Clone, Copy, Debug, PartialEq, Eq)]
pub enum Moved {
    /// The player alone.
    Walk,
    /// The player, and a box from one cell to the next.
    Push { from: Cell, to: Cell },
}

/// Why a step isn't possible: the first of these that holds.
#[derive(Clone, Copy, Debug, PartialEq, Eq, Error)]
pub enum StepFault {
    /// The next cell is a wall.
    #[error("wall")]
    Wall,
    /// The next cell has a box, and the cell after it is a wall or has a box.
    #[error("blocked")]
    Blocked,
}

/// The cells of the player and of the boxes. The boxes are kept in `S`.
#[derive(Debug, Drop)]
pub struct State<S: CellSet> {
    player: Cell,
    boxes: S,
}

impl<S: CellSet> Model for State<S> {
    ghost use Rattle.play.specs.State.{StateOn, coded_state_on};
    ghost use Rattle.cellset.specs.Cell.{IsOn};

    ghost Value = { StateOn };

    ghost coded = { coded_state_on };

    ghost view = { λ s. record { extent = S.extent s.boxes; state = record { player = s.player; boxes = S.members s.boxes } } };

    ghost invariant = { λ s. IsOn (S.extent s.boxes) s.player };
}

impl<S: CellSet> State<S> {
    /// Returns the start of a level.
    pub fn start(alloc: Global, board: &Board<S>) -> Result<Self, AllocError>
        ensures extent { IfOk result (λ s. s.extent ≡ board.now.shape) }
        ensures value { IfOk result (λ s. s.state ≡ start board.now) }
    {
        let mut boxes = S::new(alloc, board.shape())?;
        boxes.copy_from(board.boxes());
        Ok(State {
            player: board.player(),
            boxes,
        })
    }

    /// Returns the player's cell.
    pub fn player(&self) -> Cell
        ensures value { result ≡ self.now.state.player }
        ensures on { IsOn self.now.extent result }
    {
        self.player
    }

    /// Returns the cells of the boxes.
    pub fn boxes(&self) -> &S
        ensures members { S.members result.now ≡ self.now.state.boxes }
        ensures extent { S.extent result.now ≡ self.now.extent }
    {
        &self.boxes
    }

    /// Makes one step on a board of the same shape, or returns why there is none. Allocates nothing.
    pub fn step(&mut self, board: &Board<S>, dir: Dir) -> Result<Moved, StepFault>
        requires { self.old.extent ≡ board.now.shape }
        ensures extent { self.new.extent ≡ self.old.extent }
        ensures ok { IfOk result (Moves board.now self.old.state dir self.new.state) }
        ensures wall { (result ≡ Err StepFault.Wall) ↔ IsWallAhead board.now self.old.state dir }
        ensures blocked { (result ≡ Err StepFault.Blocked) ↔
            IsBlocked board.now self.old.state dir }
        ensures same { OnErr result (self.new ≡ self.old) }
    {
        let Some(ahead) = board.shape().step(self.player, dir) else {
            return Err(StepFault::Wall);
        };
        if !self.boxes.contains(ahead) {
            if board.walls().contains(ahead) {
                return Err(StepFault::Wall);
            }
            self.player = ahead;
            return Ok(Moved::Walk);
        }
        match free_behind(board, &self.boxes, ahead, dir) {
            Some(beyond) => {
                self.boxes.remove(ahead);
                self.boxes.insert(beyond);
                self.player = ahead;
                Ok(Moved::Push {
                    from: ahead,
                    to: beyond,
                })
            }
            // A box on a wall. No board that was read has one.
            None if board.walls().contains(ahead) => Err(StepFault::Wall),
            None => Err(StepFault::Blocked),
        }
    }
}

// Returns the cell after a cell in a direction, if it is floor without a box.
fn free_behind<S: CellSet>(board: &Board<S>, boxes: &S, cell: Cell, dir: Dir) -> Option<Cell>
    requires boxes { S.extent boxes.now ≡ board.now.shape }
    requires on { IsOn board.now.shape cell }
    ensures { let behind = neighbor cell dir in
        SomeIff result (IsFloor board.now behind × Lacks (S.members boxes.now) behind) behind }
{
    let behind = board.shape().step(cell, dir)?;
    if board.walls().contains(behind) || boxes.contains(behind) {
        return None;
    }
    Some(behind)
}
