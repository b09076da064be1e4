//! The lines of a list in two vectors of cells.
//!
//! A place in them takes four bytes, which saves a quarter of the memory of a long list.
ghost use Rattle.std.specs.Prelude.{◌≡◌, ◌<◌, ◌≤◌, ◌^◌, ◌++◌, ◌∷◌, [], IfErr, IfOk, List, MatchBool, MatchOption, length, map};
ghost use Rattle.cellset.specs.{Cell.IsOn, CellSet.Has, declared.cell.Cell.Cell as GridCell};
ghost use Rattle.certificates.specs.CellLists.{cell_of, cells_of};
ghost use Rattle.closure.specs.Spans.{AreWithin, IsWithin, part as part_of};

use answers::{Coord, Pattern, Seeds};
use cellset::{Cell, Shape};
use certificates::add_cells;
use std::alloc::{AllocError, Global};

// Cells next to each other in a vector: the number of the first one, and of the one after the last.
#[derive(Clone, Copy, Debug, PartialEq, Eq)]
pub(crate) struct Span {
    pub from: u32,
    pub to: u32,
}

// A pattern line in an arena: its number in the text, its boxes, and its seeds. It has no seeds if it says `*`.
#[derive(Clone, Copy, Debug, PartialEq, Eq)]
pub(crate) struct StoredLine {
    pub number: usize,
    pub boxes: Span,
    pub seeds: Option<Span>,
}

// A pattern as cells of the board: its boxes, and its seeds unless it says `*`.
#[derive(Clone, Copy, Debug, PartialEq, Eq)]
pub(crate) struct CellPattern<'a> {
    pub boxes: &'a [Cell],
    pub seeds: Option<&'a [Cell]>,
}

// The boxes of all lines, the seeds of all lines, and the lines.
#[derive(Debug, Drop)]
pub(crate) struct Arena {
    pub boxes: Vec<Cell>,
    pub seeds: Vec<Cell>,
    pub lines: Vec<StoredLine>,
    ghost within: { AreWithin boxes.items seeds.items lines.items },
}

// The number of lines for which there is room at first. Without that lists of single boxes take 2 % more instructions.
const FIRST_LINES: usize = 64;

impl Arena {
    ghost use Rattle.answers.specs.Grammar.{said_pattern};
    ghost use Rattle.certificates.specs.Pattern.{pattern_of, patterns_of};
    ghost use Rattle.closure.specs.Arena.{AreOnGrid, IsOffGrid, IsOnGrid, IsStored, boxes_at, line_at, lines_in, list_in, pattern_at, pattern_in, stored_pattern};

    // Returns an arena without lines.
    pub(crate) fn new(alloc: Global) -> Arena
        ensures { lines_in result ≡ [] }
    {
        Arena {
            boxes: Vec::new(alloc),
            seeds: Vec::new(alloc),
            lines: Vec::new(alloc),
        }
    }

    // Returns an arena with the lines of patterns, which are on the grid.
    pub(crate) fn with_lines(
        alloc: Global,
        shape: Shape,
        patterns: &[Pattern],
    ) -> Result<Arena, AllocError>
        requires { AreOnGrid shape (patterns_of (map said_pattern patterns.now)) }
        ensures { IfOk result (λ arena. lines_in arena ≡ map said_pattern patterns.now) }
    {
        let mut arena = Arena::new(alloc);
        for pattern in patterns {
            arena.add(shape, pattern)?;
        }
        Ok(arena)
    }

    // Makes room for the first lines, if there are none yet.
    pub(crate) fn make_room(&mut self) -> Result<(), AllocError>
        ensures { lines_in self.new ≡ lines_in self.old }
    {
        if self.lines.is_empty() {
            self.boxes.reserve(FIRST_LINES)?;
            self.lines.reserve(FIRST_LINES)?;
        }
        Ok(())
    }

    // Adds a pattern if its boxes and seeds are on the grid. Returns whether they are.
    pub(crate) fn add(&mut self, shape: Shape, pattern: &Pattern) -> Result<bool, AllocError>
        ensures added { IfOk result (λ all. MatchBool all
            (lines_in self.new ≡ lines_in self.old ++ said_pattern pattern.now ∷ [])
            (lines_in self.new ≡ lines_in self.old)) }
        ensures on { IfOk result (λ all. MatchBool all
            (IsOnGrid shape (pattern_of (said_pattern pattern.now)))
            (IsOffGrid shape (pattern_of (said_pattern pattern.now)))) }
    {
        let Some(boxes) = add_span(shape, &pattern.boxes, &mut self.boxes)? else {
            return Ok(false);
        };
        let seeds = match &pattern.seeds {
            Seeds::Room => None,
            Seeds::Cells(cells) => {
                let Some(span) = add_span(shape, cells, &mut self.seeds)? else {
                    return Ok(false);
                };
                Some(span)
            }
        };
        self.lines.push(StoredLine {
            number: pattern.line,
            boxes,
            seeds,
        })?;
        Ok(true)
    }

    // Returns a line.
    pub(crate) fn line(&self, line: usize) -> StoredLine
        requires { line < length self.now.lines.items }
        ensures line { result ≡ line_at self.now line }
        ensures within { IsStored self.now result }
        ensures pattern { stored_pattern self.now result ≡ pattern_at (list_in self.now) line }
    {
        self.lines[line]
    }

    // Returns the pattern of a line.
    pub(crate) fn pattern(&self, line: usize) -> CellPattern<'_>
        requires { line < length self.now.lines.items }
        ensures boxes { result.boxes.now ≡ boxes_at self.now line }
        ensures pattern { pattern_in result ≡ pattern_at (list_in self.now) line }
    {
        let line = self.line(line);
        let seeds = match line.seeds {
            Some(span) => Some(part(&self.seeds, span)),
            None => None,
        };
        CellPattern {
            boxes: part(&self.boxes, line.boxes),
            seeds,
        }
    }
}

// Adds the cells of coordinates to a list, up to the first that is off the grid. Returns their span if all of them are on it.
#[inline(always)]
fn add_span(
    shape: Shape,
    coords: &[Coord],
    cells: &mut Vec<Cell>,
) -> Result<Option<Span>, AllocError>
    ensures grown { (more : List GridCell) × (cells.new.items ≡ cells.old.items ++ more) }
    ensures exact { IfOk result (λ span. MatchOption span
        ((c : GridCell) × Has (cells_of coords.now) c × (IsOn shape c → ⊥))
        (λ s. (s ≡ record { from = length cells.old.items; to = length cells.new.items })
        × (cells.new.items ≡ cells.old.items ++ map cell_of coords.now)
        × ((c : GridCell) → Has (cells_of coords.now) c → IsOn shape c))) }
{
    let from = cells.len();
    if !add_cells(shape, coords, cells)? {
        return Ok(None);
    }
    Ok(Some(Span {
        from: to_u32(from)?,
        to: to_u32(cells.len())?,
    }))
}

// Returns the cells of a span.
pub(crate) fn part(cells: &[Cell], span: Span) -> &[Cell]
    requires { IsWithin (length cells.now) span }
    ensures { result.now ≡ part_of cells.now span }
{
    &cells[span.from as usize..span.to as usize]
}

// Returns a number in four bytes. One that doesn't fit is past all limits of texts, and takes more memory than there is.
#[inline(always)]
pub(crate) fn to_u32(number: usize) -> Result<u32, AllocError>
    ensures value { IfOk result (λ n. n ≡ number) }
    ensures err { IfErr result (λ _. 2 ^ 32 ≤ number) }
{
    match u32::try_from(number) {
        Ok(number) => Ok(number),
        Err(_) => Err(AllocError),
    }
}
