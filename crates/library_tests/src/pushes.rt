//! A test of the pushes out of a region. A loop over them knows their order by the contract.
ghost use Rattle.std.specs.Prelude.{◌≡◌, IfSome, MatchOption};
ghost use Rattle.cellset.specs.CellSet.{Has};
ghost use Rattle.reach.specs.Pushes.{IsPushOut, PushBefore};
ghost use Rattle.reach.specs.declared.pushes.Push.{Push as OutPush};

use crate::pictures::marked;
use crate::same::same;
use cellset::{BitSet, Cell, CellSet, Dir, ListSet, Shape};
use reach::{Push, Pushes};
use std::alloc::{AllocError, Global};

// Returns the first push that moves a box to this cell. A loop over pushes knows which of them it has seen.
fn first_push_to<S: CellSet>(
    shape: Shape,
    walls: &S,
    boxes: &S,
    region: &S,
    cell: Cell,
) -> Option<Push>
    requires walls { S.extent walls.now ≡ shape }
    requires boxes { S.extent boxes.now ≡ shape }
    requires region { S.extent region.now ≡ shape }
    ensures only { let out = IsPushOut shape (S.members walls.now) (S.members boxes.now) (Has (S.members region.now)) in
        MatchOption result ((q : OutPush) → out q → q.to ≡ cell → ⊥) (λ p. p.to ≡ cell) }
    ensures first { let out = IsPushOut shape (S.members walls.now) (S.members boxes.now) (Has (S.members region.now)) in
        IfSome result (λ p. out p × ((q : OutPush) → out q → PushBefore q p → q.to ≡ cell → ⊥)) }
{
    for push in Pushes::new(shape, walls, boxes, region) {
        if push.to == cell {
            return Some(push);
        }
    }
    None
}

// Returns the first push that moves a box to a cell, in a picture with boxes `$`, a region of `r` and no wall.
fn first_push_in<S: CellSet>(
    alloc: Global,
    shape: Shape,
    picture: &[u8],
    cell: Cell,
) -> Result<Option<Push>, AllocError> {
    let walls = S::new(alloc, shape)?;
    let boxes = marked(alloc, shape, picture, b'$')?;
    let region = marked(alloc, shape, picture, b'r')?;
    Ok(first_push_to(shape, &walls, &boxes, &region, cell))
}

// Returns the column and the row from which the first of two pushes onto one cell goes, and its direction.
fn first_of_two<S: CellSet>(alloc: Global) -> Option<(u8, u8, Dir)> {
    let shape = Shape::new(5, 5)?;
    let cell = shape.cell(1, 3)?;
    let picture = b"r    $     $r            ";
    let push = first_push_in::<S>(alloc, shape, picture, cell).ok()??;
    Some((push.player.column(), push.player.row(), push.dir))
}

// Of two pushes onto one cell, the one with the earlier player's cell comes first.
#[test]
fn finds_the_first_push_to_a_cell(rt: HostRuntime) {
    let wanted = Some((1, 1, Dir::D));
    same(&rt, &"lists", &first_of_two::<ListSet>(rt.alloc()), &wanted);
    same(&rt, &"bits", &first_of_two::<BitSet>(rt.alloc()), &wanted);
}
