//! Writes cells, many at a time.
//!
//! The texts of up to 32 cells are put into a buffer from its end to its front, as `itoa` puts the digits of a number. What comes after a
//! column is the same for all cells of a row, so it is put together once and copied. Both are for speed: with a write for each part of a
//! cell, `make` takes twice as many instructions for 200 large levels, and without copies 9 % more. For levels of 5 by 4 copies cost 1 %.
ghost use Rattle.std.specs.Prelude.{◌≡◌, ◌+◌, ◌<◌, ◌≤◌, ◌++◌, length, drop};
ghost use Rattle.std.specs.List.{flat_map};
ghost use Rattle.answers.specs.CellTexts.{IsTail, between};
ghost use Rattle.devices.specs.Writing.{Writes};
ghost use Rattle.answers.specs.Grammar.{numeral};

use crate::pattern::Coord;
use devices::{DeviceFault, Sink, write_whole};
use itoa::write_digits;

// The number of cells that are written at once.
const PART: usize = 32;

// The size of the buffer: 24 bytes for each cell.
const ROOM: usize = 768;

// The size of the buffer for what comes after a column.
const TAIL: usize = 16;

// Writes each cell between two texts.
#[inline(always)]
pub(crate) fn write_each<W: Sink>(
    cells: &[Coord],
    before: &[u8],
    after: &[u8],
    sink: &mut W,
) -> Result<(), DeviceFault>
    requires before { length before.now ≤ 8 }
    requires after { length after.now ≤ 5 }
    ensures { Writes W.Sink sink.old sink.new (flat_map (between before.now after.now) cells.now) result }
{
    let mut rest = cells;
    while !rest.is_empty() {
        let (part, next) = rest.split_at(PART.min(rest.len()));
        write_part(part, before, after, sink)?;
        rest = next;
    }
    Ok(())
}

// Writes up to 32 cells in one text.
#[inline(always)]
fn write_part<W: Sink>(
    cells: &[Coord],
    before: &[u8],
    after: &[u8],
    sink: &mut W,
) -> Result<(), DeviceFault>
    requires few { length cells.now ≤ PART }
    requires before { length before.now ≤ 8 }
    requires after { length after.now ≤ 5 }
    ensures { Writes W.Sink sink.old sink.new (flat_map (between before.now after.now) cells.now) result }
{
    let mut text = [0; ROOM];
    let at = put_each(cells, before, after, &mut text);
    write_whole(sink, &text[at..])
}

// Puts the texts of the cells at the end of the buffer, and returns the index at which they begin.
#[inline(always)]
fn put_each(cells: &[Coord], before: &[u8], after: &[u8], text: &mut [u8; ROOM]) -> usize
    requires few { length cells.now ≤ PART }
    requires before { length before.now ≤ 8 }
    requires after { length after.now ≤ 5 }
    ensures within { result ≤ ROOM }
    ensures put { drop result text.new ≡ flat_map (between before.now after.now) cells.now }
{
    let mut at = ROOM;
    let mut left = cells.len();
    let mut tail = tail_of(0, after);
    while left > 0 {
        left -= 1;
        let cell = cells[left];
        renew_tail(&mut tail, cell.row, after);
        at = put_cell(cell.column, before, &tail, text, at);
    }
    at
}

// What comes after the column of each cell of a row, at the end of a buffer.
#[derive(Clone, Copy)]
struct Tail {
    row: u16,
    start: usize,
    text: [u8; TAIL],
}

// Returns what comes after the column of each cell of a row: a comma, the row and a text.
#[inline(always)]
fn tail_of(row: u16, after: &[u8]) -> Tail
    requires { length after.now ≤ 5 }
    ensures row { result.row ≡ row }
    ensures tail { IsTail after.now result }
{
    let mut text = [0; TAIL];
    let end = put_text(after, &mut text, TAIL);
    let start = put_number(row, &mut text, end) - 1;
    text[start] = b',';
    Tail { row, start, text }
}

// Makes the tail the one of this row, if it is another row's. Most cells have the row of the cell after them.
#[inline(always)]
fn renew_tail(tail: &mut Tail, row: u16, after: &[u8])
    requires after { length after.now ≤ 5 }
    requires tail { IsTail after.now tail.old }
    ensures row { tail.new.row ≡ row }
    ensures tail { IsTail after.now tail.new }
{
    if tail.row != row {
        *tail = tail_of(row, after);
    }
}

// Puts a text, the column of a cell and its tail before index `end`. Returns the index at which the first text begins.
#[inline(always)]
fn put_cell(column: u16, before: &[u8], tail: &Tail, text: &mut [u8], end: usize) -> usize
    requires before { length before.now ≤ 8 }
    requires tail { (5 ≤ tail.now.start) × (tail.now.start ≤ TAIL) }
    requires room { (24 ≤ end) × (end ≤ length text.old) }
    ensures few { (end ≤ result + 24) × (result ≤ end) }
    ensures put { drop result text.new ≡ before.now ++ (numeral column ++ (drop tail.now.start tail.now.text ++ drop end text.old)) }
    ensures len { length text.new ≡ length text.old }
{
    let comma = put_text(&tail.text, text, end) + tail.start;
    let start = put_number(column, text, comma);
    put_text(before, text, start)
}

// Puts a text before index `end`, and returns the index at which it begins.
#[inline(always)]
fn put_text(part: &[u8], text: &mut [u8], end: usize) -> usize
    requires room { (length part.now ≤ end) × (end ≤ length text.old) }
    ensures few { result + length part.now ≡ end }
    ensures put { drop result text.new ≡ part.now ++ drop end text.old }
    ensures len { length text.new ≡ length text.old }
{
    let start = end - part.len();
    text[start..end].copy_from_slice(part);
    start
}

// Puts the digits of a number before index `end`, and returns the index at which they begin. 0 has no digits.
#[inline(always)]
fn put_number(number: u16, text: &mut [u8], end: usize) -> usize
    requires room { (5 ≤ end) × (end ≤ length text.old) }
    ensures few { (end ≤ result + 5) × (result ≤ end) }
    ensures put { drop result text.new ≡ numeral number ++ drop end text.old }
    ensures len { length text.new ≡ length text.old }
{
    if number == 0 {
        return end;
    }
    write_digits(u64::from(number), text, end)
}
