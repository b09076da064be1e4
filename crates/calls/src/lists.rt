//! Lists of patterns, made ready for lookups.
ghost use Rattle.std.specs.Prelude.{◌≡◌, IfSome, IsTrue, map};
ghost use Rattle.answers.specs.Grammar.{said_pattern};
ghost use Rattle.cellset.specs.Cell.{IsOn};
ghost use Rattle.certificates.specs.Pattern.{AreLawful, patterns_of};

use crate::shown;
use answers::Pattern;
use board::Board;
use cellset::{Cell, CellSet, Shape};
use closure::{CheckFault, Coverage, Index, Scan, check};
use reach::{Push, Pushes};
use std::alloc::Global;

// Returns whether every pattern is lawful, as `build` requires.
fn is_lawful<S: CellSet>(alloc: Global, board: &Board<S>, patterns: &[Pattern]) -> bool
    ensures { IsTrue result → AreLawful board.now (patterns_of (map said_pattern patterns.now)) }
{
    match check(alloc, board, patterns) {
        Ok(_) => true,
        Err(CheckFault::Start) => true,
        Err(CheckFault::Push { .. }) => true,
        Err(CheckFault::Line { .. }) => false,
        Err(CheckFault::Memory) => false,
    }
}

/// Builds the plain coverage of a lawful list, and looks states up.
pub fn scan<S: CellSet>(
    rt: &impl Print,
    alloc: Global,
    board: &Board<S>,
    patterns: &[Pattern],
) -> Option<()> {
    if !is_lawful(alloc, board, patterns) {
        return None;
    }
    let Ok(mut boxes) = S::new(alloc, board.shape()) else {
        return None;
    };
    match Scan::build(alloc, board, patterns) {
        Ok(mut scan) => {
            look_up(rt, board, &mut scan, &mut boxes);
            drop(scan);
        }
        Err(fault) => shown::value(rt, &fault),
    }
    Some(())
}

/// Builds the quick coverage of a lawful list, and looks states up.
pub fn index<S: CellSet>(
    rt: &impl Print,
    alloc: Global,
    board: &Board<S>,
    patterns: &[Pattern],
) -> Option<()> {
    if !is_lawful(alloc, board, patterns) {
        return None;
    }
    let Ok(mut boxes) = S::new(alloc, board.shape()) else {
        return None;
    };
    match Index::build(alloc, board, patterns) {
        Ok(mut index) => {
            look_up(rt, board, &mut index, &mut boxes);
            drop(index);
        }
        Err(fault) => shown::value(rt, &fault),
    }
    Some(())
}

// Prints whether states are covered: the start, the state with the boxes on the goals, and the state after each push of one
// box, wherever the player is. Allocates nothing.
fn look_up<S: CellSet, C: Coverage<S>>(
    rt: &impl Print,
    board: &Board<S>,
    coverage: &mut C,
    boxes: &mut S,
)
    requires coverage { C.extent coverage.old ≡ board.now.shape }
    requires boxes { S.extent boxes.old ≡ board.now.shape }
{
    starts(rt, board, coverage);
    for push in Pushes::new(board.shape(), board.walls(), board.boxes(), board.room()) {
        let covered = is_covered_after(board, coverage, boxes, push);
        shown::word(rt, &push);
        shown::value(rt, &covered);
    }
}

// Prints whether the start and the state with the boxes on the goals are covered.
fn starts<S: CellSet, C: Coverage<S>>(rt: &impl Print, board: &Board<S>, coverage: &mut C)
    requires { C.extent coverage.old ≡ board.now.shape }
    ensures { C.extent coverage.new ≡ board.now.shape }
{
    let start = coverage.covers(board.player(), board.boxes());
    let goals = coverage.covers(board.player(), board.goals());
    let _ = println!(rt; "covers {start} {goals}");
}

// Returns whether the state after a push from the start is covered.
fn is_covered_after<S: CellSet, C: Coverage<S>>(
    board: &Board<S>,
    coverage: &mut C,
    boxes: &mut S,
    push: Push,
) -> Option<bool>
    requires coverage { C.extent coverage.old ≡ board.now.shape }
    requires boxes { S.extent boxes.old ≡ board.now.shape }
    ensures coverage { C.extent coverage.new ≡ board.now.shape }
    ensures boxes { S.extent boxes.new ≡ board.now.shape }
{
    let player = push_box(board, boxes, push)?;
    Some(coverage.covers(player, boxes))
}

// Makes a push from the start. Returns the player's cell after it.
fn push_box<S: CellSet>(board: &Board<S>, boxes: &mut S, push: Push) -> Option<Cell>
    requires { S.extent boxes.old ≡ board.now.shape }
    ensures boxes { S.extent boxes.new ≡ board.now.shape }
    ensures player { IfSome result (IsOn board.now.shape) }
{
    let from = on_shape(board.shape(), push.from)?;
    let to = on_shape(board.shape(), push.to)?;
    boxes.copy_from(board.boxes());
    boxes.remove(from);
    boxes.insert(to);
    Some(from)
}

// Returns the cell, if it is on the shape.
fn on_shape(shape: Shape, cell: Cell) -> Option<Cell>
    ensures { IfSome result (IsOn shape) }
{
    shape.cell(u16::from(cell.column()), u16::from(cell.row()))
}
