//! The levels of a collection.
ghost use Rattle.std.specs.Prelude.{◌≡◌, ◌+◌, ◌≤◌, ◌<◌, ℕ, List, false, length, vec_len, All, IfOk, IfErr, IfSome, IfNone};
ghost use Rattle.cellset.specs.Bits.{bit};
ghost use Rattle.lines.specs.Lines.{IsFirstLine};
ghost use Rattle.board.specs.Lines.{first_row, lines_in, without_mark};
ghost use Rattle.board.specs.Levels.{most_levels, AreLevelsOf, IsBoardLine, IsFront, IsNextLevel, IsText};
ghost use Rattle.board.specs.Cut.{IsRunCut};

use crate::characters::{characters_in, walls_in};
use crate::passing::past_text;
use crate::row::{block_at, past_end};
use cellset::first_bits;
use lines::first_line;
use std::alloc::Global;
use std::marker::Model;
use thiserror::Error;

/// The largest number of levels that a collection may have.
pub const MAX_LEVELS: usize = 10_000;

/// A level as the text draws it.
#[derive(Debug, Drop)]
pub struct LevelText<'a> {
    // The text of the collection from the level on.
    pub(crate) text: &'a [u8],
    pub(crate) width: usize,
    pub(crate) height: usize,
}

impl<'a> Model for LevelText<'a> {
    ghost use Rattle.std.specs.Prelude.{◌≡◌, ℕ, List, length, take};
    ghost use Rattle.board.specs.Lines.{lines_in};
    ghost use Rattle.board.specs.Levels.{IsRun};
    ghost use Rattle.board.specs.Rows.{width_of};

    ghost Value = { List (List ℕ) };

    ghost view = { λ level. take level.height (lines_in level.text.now) };

    ghost invariant = { λ level. IsRun (take level.height (lines_in level.text.now))
        × (level.width ≡ width_of (take level.height (lines_in level.text.now)))
        × (level.height ≡ length (take level.height (lines_in level.text.now))) };
}

/// The first level of a text.
#[derive(Debug, Drop)]
pub struct NextLevel<'a> {
    /// The text from the level on.
    pub from: &'a [u8],
    pub level: LevelText<'a>,
    /// What comes after the last row.
    pub after: &'a [u8],
}

/// Why a text has no list of levels.
#[derive(Clone, Copy, Debug, PartialEq, Eq, Error)]
pub enum LevelsFault {
    /// There are more than `MAX_LEVELS` levels.
    #[error("too many levels")]
    TooMany,
    /// The system refused memory.
    #[error("out of memory")]
    Memory,
}

/// Finds the levels of a text, in order. Each borrows its rows from the text.
pub fn levels(alloc: Global, text: &[u8]) -> Result<Vec<LevelText<'_>>, LevelsFault>
    ensures ok { IfOk result (λ found. AreLevelsOf found.items (lines_in (without_mark text.now))) }
    ensures few { IfOk result (λ found. vec_len found ≤ most_levels) }
    ensures too_many { IfErr result (λ why. why ≡ LevelsFault.TooMany →
        (all : List (List (List ℕ))) × AreLevelsOf all (lines_in (without_mark text.now)) × (most_levels < length all)) }
{
    let mut found = Vec::new(alloc);
    let mut rest = after_mark(text);
    while let Some(next) = next_level(rest) {
        if found.len() == MAX_LEVELS {
            return Err(LevelsFault::TooMany);
        }
        rest = next.after;
        if found.push(next.level).is_err() {
            return Err(LevelsFault::Memory);
        }
    }
    Ok(found)
}

/// Returns the text without the byte order mark that it may begin with.
pub fn after_mark(text: &[u8]) -> &[u8]
    ensures { result.now ≡ without_mark text.now }
{
    if text.starts_with(b"\xEF\xBB\xBF") {
        return &text[3..];
    }
    text
}

/// Finds the first level of a text.
pub fn next_level(text: &[u8]) -> Option<NextLevel<'_>>
    ensures some { IfSome result (λ next. IsNextLevel text.now next.from.now next.level next.after.now) }
    ensures none { IfNone result (All IsText (lines_in text.now)) }
{
    let mut from = past_text(text);
    while !from.is_empty() {
        let ((width, height), after) = pass_run(from);
        if height > 0 {
            let level = LevelText {
                text: from,
                width,
                height,
            };
            return Some(NextLevel { from, level, after });
        }
        from = past_text(first_line(from).1);
    }
    None
}

// Passes the board lines that a text begins with. Returns the length of the longest and their number, and what comes after them.
fn pass_run(text: &[u8]) -> ((usize, usize), &[u8])
    ensures { IsRunCut text.now result.0.0 result.0.1 result.1.now }
{
    let mut rest = text;
    let mut width = 0;
    let mut height = 0;
    while !rest.is_empty() {
        let Some((len, after)) = board_line(rest) else {
            return ((width, height), rest);
        };
        width = len.max(width);
        height += 1;
        rest = after;
    }
    ((width, height), rest)
}

// Returns the length of the first line of a text, if it is a board line, and what comes after the line.
#[inline(always)]
fn board_line(text: &[u8]) -> Option<(usize, &[u8])>
    requires { 0 < length text.now }
    ensures some { IfSome result (λ row. (row.0 ≡ length (first_row text.now)) × IsFirstLine text.now (first_row text.now) row.1.now
        × IsBoardLine (first_row text.now)) }
    ensures none { IfNone result (IsText (first_row text.now)) }
{
    let (len, has_wall) = front(text);
    let end = past_end(text, len);
    if !has_wall || end == len && end < text.len() {
        return None;
    }
    Some((len, text.split_at(end).1))
}

// Returns the number of board characters that a text begins with, and whether one of them is a wall. Tests 32 bytes at a time.
#[inline(always)]
fn front(text: &[u8]) -> (usize, bool)
    ensures { IsFront text.now result.0 result.1 }
{
    let mut has_wall = false;
    let mut len = 0;
    'blocks: while len < text.len() {
        let low = block_at(text, len);
        let high = block_at(text, (len + 16).min(text.len()));
        let others = !both_halves(characters_in(low), characters_in(high));
        let count = others.trailing_zeros() as usize;
        if first_bits(both_halves(walls_in(low), walls_in(high)), count) != 0 {
            has_wall = true;
        }
        len += count;
        if count < 32 {
            return (len, has_wall);
        }
    }
    (len, has_wall)
}

// Joins the words of two blocks of 16 bytes to one.
#[inline(always)]
fn both_halves(low: u64, high: u64) -> u64
    requires { (k : ℕ) → 16 ≤ k → (bit low k ≡ false) × (bit high k ≡ false) }
    ensures low { (k : ℕ) → k < 16 → bit result k ≡ bit low k }
    ensures high { (k : ℕ) → k < 16 → bit result (16 + k) ≡ bit high k }
    ensures past { (k : ℕ) → 32 ≤ k → bit result k ≡ false }
{
    low | high << 16
}
