//! Prints values without allocating.

use answers::{Coord, Pattern, Seeds, Zone};
use board::{Board, BoardFault};
use cellset::{CellSet, MembersOf};
use std::alloc::AllocError;
use std::fmt::Debug;
use std::str;

/// Prints a value in one line.
pub fn value(rt: &impl Print, value: &impl Debug) {
    let _ = println!(rt; "{value:?}");
}

/// Prints a value and a space.
pub fn word(rt: &impl Print, value: &impl Debug) {
    let _ = print!(rt; "{value:?} ");
}

/// Prints a result, and returns whether it is `Ok`.
pub fn result<T: Debug, E: Debug>(rt: &impl Print, outcome: &Result<T, E>) -> bool {
    value(rt, outcome);
    outcome.is_ok()
}

/// Prints the value of a result, or its error.
pub fn inner<T: Debug + Drop, E: Debug + Drop>(rt: &impl Print, outcome: Result<T, E>) {
    match outcome {
        Ok(it) => value(rt, &it),
        Err(fault) => value(rt, &fault),
    }
}

/// Prints a borrowed value.
pub fn borrowed(rt: &impl Print, it: &impl Debug) {
    let _ = println!(rt; "borrowed {it:?}");
}

/// Prints the set that a call made, or its error.
pub fn made<S: CellSet>(rt: &impl Print, name: &str, outcome: Result<S, AllocError>) {
    match outcome {
        Ok(set) => cells(rt, name, &set),
        Err(fault) => value(rt, &fault),
    }
}

/// Prints bytes as text.
pub fn bytes(rt: &impl Print, bytes: &[u8]) {
    let text = str::from_utf8(bytes).unwrap_or("not text");
    let _ = rt.println(text);
}

/// Prints what a sink holds.
pub fn held(rt: &impl Print, held: &[u8]) {
    let _ = rt.println("the sink holds");
    bytes(rt, held);
}

/// Prints a borrowed text in one line.
pub fn text(rt: &impl Print, text: &[u8]) {
    let text = str::from_utf8(text).unwrap_or("not text");
    let _ = println!(rt; "borrowed text {text:?}");
}

fn position(rt: &impl Print, column: u16, row: u16) {
    let _ = print!(rt; " {column},{row}");
}

/// Prints the members of a set.
pub fn cells<S: CellSet>(rt: &impl Print, name: &str, set: &S) {
    let _ = rt.print(name);
    for cell in MembersOf::new(set) {
        position(rt, u16::from(cell.column()), u16::from(cell.row()));
    }
    let _ = rt.println("");
}

/// Prints the board that a call made, or its error.
pub fn made_board<S: CellSet>(rt: &impl Print, outcome: Result<Board<S>, BoardFault>) {
    match outcome {
        Ok(it) => board(rt, &it),
        Err(fault) => value(rt, &fault),
    }
}

/// Prints the parts of a board.
pub fn board<S: CellSet>(rt: &impl Print, board: &Board<S>) {
    let (shape, player) = (board.shape(), board.player());
    let (width, height) = (shape.width(), shape.height());
    let (column, row) = (player.column(), player.row());
    let _ = println!(rt; "board {width} by {height}, player {column},{row}");
    cells(rt, "walls", board.walls());
    cells(rt, "goals", board.goals());
    cells(rt, "boxes", board.boxes());
    cells(rt, "room", board.room());
}

fn coords(rt: &impl Print, coords: &[Coord]) {
    for coord in coords {
        position(rt, coord.column, coord.row);
    }
}

fn seeds(rt: &impl Print, seeds: &Seeds) {
    match seeds {
        Seeds::Room => {
            let _ = rt.print(" @ *");
        }
        Seeds::Cells(seeds) => {
            let _ = rt.print(" @");
            coords(rt, seeds);
        }
    }
}

/// Prints the patterns of a borrowed list.
pub fn patterns(rt: &impl Print, patterns: &[Pattern]) {
    for pattern in patterns {
        let line = pattern.line;
        let _ = print!(rt; "borrowed line {line} pattern");
        coords(rt, &pattern.boxes);
        seeds(rt, &pattern.seeds);
        let _ = rt.println("");
    }
}

/// Prints a borrowed zone.
pub fn zone(rt: &impl Print, zone: &Zone) {
    let line = zone.line;
    let _ = print!(rt; "borrowed line {line} zone");
    coords(rt, &zone.cells);
    let _ = rt.println("");
}
