//! The calls that allocate nothing, on values that were made before.
ghost use Rattle.std.specs.Prelude.{◌≡◌, IfSome};
ghost use Rattle.cellset.specs.Cell.{IsOn};

use crate::{layers, shown};
use answers::{Device, MadeBody, MadeRecord, Record, write};
use board::Board;
use cellset::{Cell, CellSet, Dir};
use play::State;
use reach::Pushes;
use std::alloc::Global;
use std::slice;

// The number of bytes for which a sink has room from the start.
const ROOM: usize = 4096;

/// Makes each of the four steps from the start, and prints which are possible.
pub fn steps<S: CellSet>(rt: &impl Print, alloc: Global, board: &Board<S>) -> Option<()> {
    let Ok(mut state) = State::start(alloc, board) else {
        return None;
    };
    step(rt, &mut state, board, Dir::L);
    step(rt, &mut state, board, Dir::U);
    step(rt, &mut state, board, Dir::R);
    let down = state.step(board, Dir::D);
    shown::value(rt, &down);
    shown::value(rt, &state.player());
    shown::cells(rt, "boxes", state.boxes());
    Some(())
}

// Makes a step, and prints whether it is possible.
fn step<S: CellSet>(rt: &impl Print, state: &mut State<S>, board: &Board<S>, dir: Dir)
    requires { state.old.extent ≡ board.now.shape }
    ensures { state.new.extent ≡ board.now.shape }
{
    let made = state.step(board, dir);
    shown::word(rt, &made);
}

/// Makes each call on a set, with the boxes and the goals of the board.
pub fn sets<S: CellSet>(rt: &impl Print, alloc: Global, board: &Board<S>) -> Option<()> {
    let Ok(mut set) = S::new(alloc, board.shape()) else {
        return None;
    };
    let player = board.player();
    one_cell(rt, &mut set, player);
    boxes_and_goals(rt, &mut set, board);
    one_row(rt, &mut set, player.row());
    Some(())
}

// Puts a cell into a set and takes it out.
fn one_cell<S: CellSet>(rt: &impl Print, set: &mut S, cell: Cell)
    requires { IsOn (S.extent set.old) cell }
    ensures { S.extent set.new ≡ S.extent set.old }
{
    shown::word(rt, &set.insert(cell));
    shown::word(rt, &set.insert(cell));
    shown::word(rt, &set.contains(cell));
    shown::value(rt, &set.remove(cell));
}

// Puts the boxes and the goals of the board into a set.
fn boxes_and_goals<S: CellSet>(rt: &impl Print, set: &mut S, board: &Board<S>)
    requires { S.extent set.old ≡ board.now.shape }
    ensures { S.extent set.new ≡ board.now.shape }
{
    set.copy_from(board.boxes());
    set.union_with(board.goals());
    shown::word(rt, &set.len());
    shown::word(rt, &board.boxes().is_subset(set));
    shown::value(rt, &set.next_from(board.player()));
    shown::cells(rt, "boxes and goals", set);
}

// Clears a set but for the first cells of a row.
fn one_row<S: CellSet>(rt: &impl Print, set: &mut S, row: u8) {
    let bits = set.row(row, 0);
    set.clear();
    shown::cells(rt, "none", set);
    set.insert_row(row, 0, bits);
    shown::cells(rt, "those on the player's row", set);
}

/// Prints the cells beside the player's cell, and the next one in reading order.
pub fn cells<S: CellSet>(rt: &impl Print, board: &Board<S>) {
    let (shape, player) = (board.shape(), board.player());
    shown::word(rt, &shape.step(player, Dir::L));
    shown::word(rt, &shape.step(player, Dir::U));
    shown::word(rt, &shape.step(player, Dir::R));
    shown::word(rt, &shape.step(player, Dir::D));
    shown::value(rt, &shape.next(player));
}

// Returns the player's region.
fn region_of<S: CellSet>(alloc: Global, board: &Board<S>) -> Option<S>
    ensures { IfSome result (λ s. S.extent s ≡ board.now.shape) }
{
    let Ok(mut seeds) = S::new(alloc, board.shape()) else {
        return None;
    };
    seeds.insert(board.player());
    reach::flood(alloc, board.shape(), board.walls(), board.boxes(), &seeds).ok()
}

/// Prints the pushes out of the player's region.
pub fn pushes<S: CellSet>(rt: &impl Print, alloc: Global, board: &Board<S>) -> Option<()> {
    let region = region_of(alloc, board)?;
    for push in Pushes::new(board.shape(), board.walls(), board.boxes(), &region) {
        shown::value(rt, &push);
    }
    Some(())
}

// Returns what is to be written of a record.
fn body_of(record: Record<'_>) -> Option<MadeBody<'_>> {
    match record {
        Record::Patterns(patterns) => Some(MadeBody::Patterns(patterns)),
        Record::Zone(zone) => Some(MadeBody::Zone(zone)),
        Record::Solution(lines) => Some(MadeBody::Letters(lines.first()?)),
        Record::BadLine { line: _, why: _ } => None,
    }
}

/// Prints the canonical text of the first record.
pub fn writes(rt: &impl Print, alloc: Global, answers: &[u8]) -> Option<()> {
    let (level, record) = layers::first_said(alloc, answers)?;
    let body = body_of(record)?;
    let made = MadeRecord { level, body };
    write_one(rt, alloc, slice::from_ref(&made))
}

// Prints the canonical text of records.
fn write_one(rt: &impl Print, alloc: Global, made: &[MadeRecord]) -> Option<()> {
    let Ok(room) = Vec::with_capacity(alloc, ROOM) else {
        return None;
    };
    let mut sink = Device::new(room);
    let outcome = write(made, &mut sink);
    shown::value(rt, &outcome);
    let held = sink.into_inner();
    shown::bytes(rt, &held);
    drop(held);
    Some(())
}
