//! The calls of the layers, generic in the sets.

use crate::{frugal, lists, shown, solutions};
use answers::{AnswersFault, Pattern, Record, RecordText, Zone};
use board::{Board, LevelText};
use cellset::{CellSet, Shape};
use reach::Flooder;
use std::alloc::{AllocError, Global};

/// The number of levels for which answers are read.
pub const LEVELS: usize = 3;

// Levels of other shapes than those that are given.
const SMALL: &[u8] = b"#####\n#@$.#\n#####\n";

/// A level wider than a word.
pub const WIDE: &[u8] =
    b"######################################################################\n#@$.                                                                 #\n######################################################################\n";

// Returns the first level of a text.
fn level_of(alloc: Global, text: &[u8]) -> Option<LevelText<'_>> {
    match board::levels(alloc, text) {
        Ok(found) => found.into_iter().next(),
        Err(_) => None,
    }
}

/// Returns the board of the first level of a text.
pub fn board_of<S: CellSet>(alloc: Global, text: &[u8]) -> Option<Board<S>> {
    let level = level_of(alloc, text)?;
    board::read_board(alloc, &level).ok()
}

/// Returns what the first record of a text says, and of which level.
pub fn first_said(alloc: Global, text: &[u8]) -> Option<(usize, Record<'_>)> {
    match answers::read(alloc, text, LEVELS) {
        Ok(read) => read.records.into_iter().next(),
        Err(_) => None,
    }
}

/// Returns the first record of a text that is split, if there is one.
pub fn first_record(alloc: Global, text: &[u8]) -> Result<Option<RecordText<'_>>, AnswersFault> {
    let records = answers::split(alloc, text, LEVELS)?;
    Ok(records.first().copied())
}

// Returns the last record of a text that is split.
fn last_record(alloc: Global, text: &[u8]) -> Option<RecordText<'_>> {
    match answers::split(alloc, text, LEVELS) {
        Ok(records) => records.last().copied(),
        Err(_) => None,
    }
}

/// Makes the call with this name, or returns `None` if its values can't be made.
pub fn call<S: CellSet>(
    rt: &impl Print,
    alloc: Global,
    name: &str,
    levels: &[u8],
    answers: &[u8],
) -> Option<()> {
    match name {
        "levels" => find_levels(rt, alloc, levels),
        "read_board" => read_board::<S>(rt, alloc, levels),
        "read_next_board" => read_next_board::<S>(rt, alloc, levels),
        "judge" => judge_level::<S>(rt, alloc, levels, answers),
        "read" => read(rt, alloc, answers),
        "split" => split(rt, alloc, answers),
        "read_record" => read_record(rt, alloc, answers),
        "letters" => letters(rt, alloc, answers),
        "write" => frugal::writes(rt, alloc, answers),
        _ => call_on_board::<S>(rt, alloc, name, levels, answers),
    }
}

// Makes a call on the board of the first level, and prints that board.
fn call_on_board<S: CellSet>(
    rt: &impl Print,
    alloc: Global,
    name: &str,
    levels: &[u8],
    answers: &[u8],
) -> Option<()> {
    let board = board_of::<S>(alloc, levels)?;
    let made = on_board(rt, alloc, name, &board, answers);
    if made.is_some() {
        let _ = rt.print("borrowed ");
        shown::board(rt, &board);
    }
    made
}

// Makes a call on a board.
fn on_board<S: CellSet>(
    rt: &impl Print,
    alloc: Global,
    name: &str,
    board: &Board<S>,
    answers: &[u8],
) -> Option<()> {
    match name {
        "new" => shown::made(rt, "new", S::new(alloc, board.shape())),
        "renew" => shown::made(rt, "new", renewed(alloc, board)?),
        "flood" => shown::made(rt, "region", flood(alloc, board)),
        "flooder" => shown::made(rt, "region", flooder(alloc, board)),
        "start" => start(rt, alloc, board),
        "dead_squares" => shown::made(rt, "dead", maker::dead_squares(alloc, board)),
        "make" => shown::inner(rt, maker::make(alloc, board)),
        "cells" => frugal::cells(rt, board),
        _ => return on_more(rt, alloc, name, board, answers),
    }
    Some(())
}

// Makes a call on a board for which more is made before.
fn on_more<S: CellSet>(
    rt: &impl Print,
    alloc: Global,
    name: &str,
    board: &Board<S>,
    answers: &[u8],
) -> Option<()> {
    match name {
        "frozen" => frozen(rt, alloc, board),
        "steps" => frugal::steps(rt, alloc, board),
        "sets" => frugal::sets(rt, alloc, board),
        "pushes" => frugal::pushes(rt, alloc, board),
        "replay" => solutions::replay(rt, alloc, board, answers),
        "replay_lines" => solutions::replay_lines(rt, alloc, board, answers),
        "replayer" => solutions::replayer(rt, alloc, board, answers),
        _ => judge(rt, alloc, name, board, answers),
    }
}

fn find_levels(rt: &impl Print, alloc: Global, text: &[u8]) -> Option<()> {
    match board::levels(alloc, text) {
        Ok(found) => {
            let number = found.len();
            let _ = println!(rt; "{number} levels");
        }
        Err(fault) => shown::value(rt, &fault),
    }
    shown::text(rt, text);
    Some(())
}

fn read_board<S: CellSet>(rt: &impl Print, alloc: Global, text: &[u8]) -> Option<()> {
    let level = level_of(alloc, text)?;
    shown::made_board(rt, board::read_board::<S>(alloc, &level));
    shown::text(rt, text);
    Some(())
}

// Reads a wide board in the memory of a small one.
fn wide_board<S: CellSet>(alloc: Global) -> Option<Board<S>> {
    let wide = level_of(alloc, WIDE)?;
    let small = board_of::<S>(alloc, SMALL)?;
    board::read_next_board(alloc, &wide, Some(small)).ok()
}

// Reads the board of the first level in the memory of a wide board, which was read in the memory of a small one.
fn read_next_board<S: CellSet>(rt: &impl Print, alloc: Global, text: &[u8]) -> Option<()> {
    let level = level_of(alloc, text)?;
    let last = wide_board::<S>(alloc)?;
    let made = board::read_next_board(alloc, &level, Some(last));
    shown::made_board(rt, made);
    shown::text(rt, text);
    Some(())
}

fn read(rt: &impl Print, alloc: Global, text: &[u8]) -> Option<()> {
    match answers::read(alloc, text, LEVELS) {
        Ok(answers) => {
            for (level, record) in answers.records.iter() {
                let _ = println!(rt; "level {level} {record:?}");
            }
        }
        Err(fault) => shown::value(rt, &fault),
    }
    shown::text(rt, text);
    Some(())
}

fn split(rt: &impl Print, alloc: Global, text: &[u8]) -> Option<()> {
    match answers::split(alloc, text, LEVELS) {
        Ok(records) => {
            for record in records.iter() {
                shown::value(rt, &record);
            }
        }
        Err(fault) => shown::value(rt, &fault),
    }
    shown::text(rt, text);
    Some(())
}

// Reads the last record of a text that was split before.
fn read_record(rt: &impl Print, alloc: Global, text: &[u8]) -> Option<()> {
    let record = last_record(alloc, text)?;
    shown::inner(rt, record.read(alloc));
    shown::borrowed(rt, &record);
    shown::text(rt, text);
    Some(())
}

// Prints the letters of the last record of a text that was split before, in pieces.
fn letters(rt: &impl Print, alloc: Global, text: &[u8]) -> Option<()> {
    let record = last_record(alloc, text)?;
    shown::inner(rt, record.letters(alloc));
    shown::borrowed(rt, &record);
    shown::text(rt, text);
    Some(())
}

// Makes the empty set of another grid in the memory of one that has the walls.
fn renewed<S: CellSet>(alloc: Global, board: &Board<S>) -> Option<Result<S, AllocError>> {
    let other = Shape::new(board.shape().height() as usize, 9)?;
    let Ok(mut walls) = S::new(alloc, board.shape()) else {
        return None;
    };
    walls.copy_from(board.walls());
    match walls.renew(alloc, other) {
        Ok(()) => Some(Ok(walls)),
        Err(fault) => Some(Err(fault)),
    }
}

fn flood<S: CellSet>(alloc: Global, board: &Board<S>) -> Result<S, AllocError> {
    let (shape, walls) = (board.shape(), board.walls());
    reach::flood(alloc, shape, walls, board.boxes(), board.goals())
}

fn flooder<S: CellSet>(alloc: Global, board: &Board<S>) -> Result<S, AllocError> {
    let mut flooder = Flooder::new(alloc, board.shape())?;
    let made = S::new(alloc, board.shape());
    let Ok(mut region) = made else {
        drop(flooder);
        return Err(AllocError);
    };
    flooder.flood_into(board.walls(), board.boxes(), board.goals(), &mut region);
    drop(flooder);
    Ok(region)
}

fn start<S: CellSet>(rt: &impl Print, alloc: Global, board: &Board<S>) {
    match play::State::start(alloc, board) {
        Ok(state) => shown::cells(rt, "state", state.boxes()),
        Err(fault) => shown::value(rt, &fault),
    }
}

fn frozen<S: CellSet>(rt: &impl Print, alloc: Global, board: &Board<S>) -> Option<()> {
    let Ok(dead) = maker::dead_squares(alloc, board) else {
        return None;
    };
    shown::made(rt, "frozen", maker::frozen(alloc, board, &dead));
    shown::cells(rt, "borrowed dead", &dead);
    Some(())
}

// Prints the status of the first level by the first record.
fn judge_level<S: CellSet>(
    rt: &impl Print,
    alloc: Global,
    levels: &[u8],
    answers: &[u8],
) -> Option<()> {
    let level = level_of(alloc, levels)?;
    let Ok(record) = first_record(alloc, answers) else {
        return None;
    };
    let mut scratch = report::Scratch::<S>::new(alloc);
    let status = report::judge(alloc, &level, record.as_ref(), &mut scratch);
    drop(scratch);
    shown::inner(rt, status);
    shown::text(rt, levels);
    shown::text(rt, answers);
    Some(())
}

// Makes a call that judges the first record, a certificate.
fn judge<S: CellSet>(
    rt: &impl Print,
    alloc: Global,
    name: &str,
    board: &Board<S>,
    answers: &[u8],
) -> Option<()> {
    let (_, record) = first_said(alloc, answers)?;
    let judged = match &record {
        Record::Patterns(patterns) => judge_patterns(rt, alloc, name, board, patterns),
        Record::Zone(zone) => judge_zone(rt, alloc, name, board, zone),
        Record::Solution(_) => None,
        Record::BadLine { line: _, why: _ } => None,
    };
    drop(record);
    judged
}

fn judge_patterns<S: CellSet>(
    rt: &impl Print,
    alloc: Global,
    name: &str,
    board: &Board<S>,
    patterns: &[Pattern],
) -> Option<()> {
    match name {
        "check" => {
            let outcome = closure::check(alloc, board, patterns);
            shown::value(rt, &outcome);
        }
        "scan" => lists::scan(rt, alloc, board, patterns)?,
        "index" => lists::index(rt, alloc, board, patterns)?,
        _ => return None,
    }
    shown::patterns(rt, patterns);
    Some(())
}

fn judge_zone<S: CellSet>(
    rt: &impl Print,
    alloc: Global,
    name: &str,
    board: &Board<S>,
    zone: &Zone,
) -> Option<()> {
    match name {
        "check_zone" => {
            let outcome = closure::check_zone(alloc, board, zone);
            shown::value(rt, &outcome);
        }
        _ => return None,
    }
    shown::zone(rt, zone);
    Some(())
}
