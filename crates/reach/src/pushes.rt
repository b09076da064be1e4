//! The pushes out of a region. `Pushes` is for callers. The program finds pushes box by box, by the same definitions.
//!
//! A cursor visits the cells of the region in reading order and, at each cell, the four directions. It tests whether a player who
//! steps from there in that direction pushes a box. So a whole run looks at the four neighbours of each cell of the region.
ghost use Rattle.std.specs.Prelude.{◌≡◌, true, false, MatchOption};
ghost use Rattle.std.specs.Iterator.{YieldsFirst, YieldsFirstBy, item_count};
ghost use Rattle.cellset.specs.Cell.{IsOn};
ghost use Rattle.cellset.specs.CellSet.{Has};
ghost use Rattle.reach.specs.Pushes.{ArePushesOut, push_by};
ghost use Rattle.reach.specs.PushesLeft.{tries_left, is_push};

use cellset::{Cell, CellSet, Dir, MembersOf, Shape};
use std::marker::Model;

/// A push: the player's cell, the direction of its step, and the cells that the box leaves and enters.
#[derive(Clone, Copy, Debug, PartialEq, Eq)]
pub struct Push {
    pub player: Cell,
    pub dir: Dir,
    pub from: Cell,
    pub to: Cell,
}

/// The pushes out of a region, each once, by the player's cell in reading order, then left, up, right, down.
#[derive(Debug, Drop)]
pub struct Pushes<'a, S: CellSet> {
    walls: &'a S,
    boxes: &'a S,
    // The cell and the direction to try next. If there are none, the next of the players' cells comes, with its first direction.
    ahead: Option<(Cell, Dir)>,
    players: MembersOf<'a, S>,
}

impl<'a, S: CellSet> Model for Pushes<'a, S> {
    ghost use Rattle.std.specs.Prelude.{List};
    ghost use Rattle.reach.specs.declared.pushes.Push.{Push as OutPush};
    ghost use Rattle.reach.specs.PushesLeft.{AreTried, pushes_left};

    ghost Value = { List OutPush };

    ghost view = { λ p. pushes_left (S.extent p.walls.now) (S.members p.walls.now) (S.members p.boxes.now) p.ahead p.players };

    ghost invariant = { λ p. AreTried (S.extent p.walls.now) (S.extent p.boxes.now) p.ahead p.players };
}

impl<'a, S: CellSet> Pushes<'a, S> {
    /// Returns the pushes out of the region, as if there were no other boxes. All sets are on this shape. Allocates nothing.
    pub fn new(shape: Shape, walls: &'a S, boxes: &'a S, region: &'a S) -> Pushes<'a, S>
        requires walls { S.extent walls.now ≡ shape }
        requires boxes { S.extent boxes.now ≡ shape }
        requires region { S.extent region.now ≡ shape }
        ensures { ArePushesOut shape
            (S.members walls.now) (S.members boxes.now) (Has (S.members region.now)) result }
    {
        Pushes {
            walls,
            boxes,
            ahead: None,
            players: MembersOf::new(region),
        }
    }
}

impl<S: CellSet> Iterator for Pushes<'_, S> {
    type Item = Push;

    ghost next_gives = { YieldsFirst (λ s. s) };

    ghost remaining = { item_count (λ s. s) };

    fn next(&mut self) -> Option<Push> {
        while let Some((player, dir)) = next_try(&mut self.ahead, &mut self.players) {
            if let Some(push) = push_from(self.walls, self.boxes, player, dir) {
                return Some(push);
            }
        }
        None
    }
}

// Advances to the next cell and direction, and returns them.
fn next_try<S: CellSet>(
    ahead: &mut Option<(Cell, Dir)>,
    players: &mut MembersOf<S>,
) -> Option<(Cell, Dir)>
    ensures { YieldsFirstBy (λ t. push_by t.0 t.1) (λ s. s)
        (tries_left ahead.old players.old) result (tries_left ahead.new players.new) }
{
    let (player, dir) = match *ahead {
        Some(here) => here,
        None => (players.next()?, Dir::L),
    };
    *ahead = match dir {
        Dir::L => Some((player, Dir::U)),
        Dir::U => Some((player, Dir::R)),
        Dir::R => Some((player, Dir::D)),
        Dir::D => None,
    };
    Some((player, dir))
}

// Returns the push of a player who steps from a cell in a direction, if a box is next to it and the cell after the box is free.
fn push_from<S: CellSet>(walls: &S, boxes: &S, player: Cell, dir: Dir) -> Option<Push>
    requires boxes { S.extent boxes.now ≡ S.extent walls.now }
    requires on { IsOn (S.extent walls.now) player }
    ensures { let passes = is_push (S.extent walls.now) (S.members walls.now) (S.members boxes.now) (push_by player dir) in
        MatchOption result (passes ≡ false) (λ p. (p ≡ push_by player dir) × (passes ≡ true)) }
{
    let shape = boxes.shape();
    let from = shape.step(player, dir)?;
    if !boxes.contains(from) {
        return None;
    }
    let to = shape.step(from, dir)?;
    if walls.contains(to) || boxes.contains(to) {
        return None;
    }
    Some(Push {
        player,
        dir,
        from,
        to,
    })
}
