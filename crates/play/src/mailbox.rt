//! The mailbox of a board: a byte for each cell, with a border, so that a step is one addition.
//!
//! The bytes are written 16 at a time. One at a time, an audit of 10,000 small levels takes 4 % more instructions. Long solutions gain nothing.
ghost use Rattle.std.specs.Prelude.{◌≡◌, ◌↔◌, ℕ, ◌+◌, ◌*◌, ◌^◌, ◌<◌, ◌≤◌, min, if◌then◌else◌, length, slice_index, OnOk};
ghost use Rattle.std.specs.FinSet as set;
ghost use Rattle.std.specs.FinSet.{len, difference};
ghost use Rattle.cellset.specs.Bits.{bit};
ghost use Rattle.cellset.specs.CellSet.{Cells, Has};
ghost use Rattle.cellset.specs.RowBits.{IsRowOf};
ghost use Rattle.cellset.specs.declared.cell.Cell.{Cell as GridCell};
ghost use Rattle.board.specs.Board.{IsWellFormed};
ghost use Rattle.board.specs.Game.{IsFloor};
ghost use Rattle.play.specs.Mailbox.{place_of, HasMask, IsMailboxOf, IsDrawnBelow};

use board::Board;
use cellset::{Cell, CellSet, MembersOf};
use std::alloc::AllocError;
use std::simd::prelude::*;

// The byte of a cell where the player may walk.
pub(crate) const FREE: u8 = 0;

// The byte of a wall.
pub(crate) const WALL: u8 = 1;

// The byte of a box.
pub(crate) const BOX: u8 = 2;

// The place of a cell's byte.
pub(crate) fn place(cell: Cell) -> u16
    ensures { result ≡ place_of cell }
{
    cell.row() as u16 * 256 + cell.column() as u16
}

// Draws the mailbox of a board at the start of its level: its rows with one more above and below, and more rows up to a power of two.
// On the highest boards the row below is the row above, because the places wrap around. What is beyond the cells around the grid stays
// as it was.
pub(crate) fn draw_mailbox<S: CellSet>(
    mailbox: &mut Vec<u8>,
    board: &Board<S>,
) -> Result<(), AllocError>
    ensures shown { OnOk result (IsMailboxOf board.now board.now.boxes mailbox.new.items) }
    ensures masked { OnOk result (HasMask mailbox.new.items) }
    ensures formed { IsWellFormed board.now }
{
    mailbox.resize(256 * rows_for(board.shape().height() as usize), WALL)?;
    draw_board(mailbox, board);
    Ok(())
}

// Writes the bytes of the cells on the grid and around it.
fn draw_board<S: CellSet>(mailbox: &mut [u8], board: &Board<S>)
    requires { 256 * min (board.now.shape.height + 2) 256 ≤ length mailbox.old }
    ensures { IsMailboxOf board.now board.now.boxes mailbox.new }
{
    let rows = (board.shape().height() as usize + 2).min(256);
    for row in 0..rows {
        draw_row(mailbox, board, row as u8);
    }
    put_boxes(mailbox, board);
}

// The number of rows in the mailbox of a board of this height: a power of two.
fn rows_for(height: usize) -> usize
    requires { height ≤ 255 }
    ensures enough { min (height + 2) 256 ≤ result }
    ensures power { (k : ℕ) × (k ≤ 8) × (result ≡ 2 ^ k) }
{
    let mut rows = 1;
    while rows < (height + 2).min(256) {
        rows *= 2;
    }
    rows
}

// Writes the bytes of the next row, from one column before the grid to one beyond it. Column 256 is column 0 of the row below.
fn draw_row<S: CellSet>(mailbox: &mut [u8], board: &Board<S>, row: u8)
    requires row { row ≤ board.now.shape.height + 1 }
    requires drawn { IsDrawnBelow board.now (256 * row) mailbox.old }
    ensures { IsDrawnBelow board.now (256 * (row + 1)) mailbox.new }
{
    let last = board.shape().width().saturating_add(1);
    for part in 0..last / 64 + 1 {
        draw_part(mailbox, board, row, part);
    }
}

// Writes the bytes of the next 64 columns of a row, without boxes.
fn draw_part<S: CellSet>(mailbox: &mut [u8], board: &Board<S>, row: u8, part: u8)
    requires row { row ≤ board.now.shape.height + 1 }
    requires part { part < 4 }
    requires drawn { IsDrawnBelow board.now (256 * row + 64 * part) mailbox.old }
    ensures { IsDrawnBelow board.now (256 * row + 64 * part + 64) mailbox.new }
{
    let floor = floor_at(board, row, part);
    let start = 64 * part as usize;
    let end = (board.shape().width() as usize + 2).min(start + 64);
    let mut floor_left = floor;
    let mut column = start;
    'lanes: while column < end {
        let bytes = bytes_of((floor_left % 65536) as u16);
        bytes.copy_to_slice(&mut mailbox[256 * row as usize + column..]);
        floor_left >>= 16;
        column += 16;
    }
}

// Returns the floor in 64 columns of a row as bits. Beyond the grid there is none.
fn floor_at<S: CellSet>(board: &Board<S>, row: u8, part: u8) -> u64
    requires { part < 4 }
    ensures { (floor : Cells) × ((c : GridCell) → Has floor c ↔ IsFloor board.now c) × IsRowOf floor row part result }
{
    let shape = board.shape();
    let floor = board.floor();
    if row > shape.height() || 64 * part > shape.width() {
        return 0;
    }
    floor.row(row, part)
}

// A shuffle of two vectors: eight lanes of the first, then eight of the second.
const HALVES: [usize; 16] = [0, 0, 0, 0, 0, 0, 0, 0, 16, 16, 16, 16, 16, 16, 16, 16];

// The bytes of sixteen cells without boxes, by SIMD lanes: bit k of `floor` is that of cell k.
#[inline(always)]
fn bytes_of(floor: u16) -> u8x16
    ensures len { length result ≡ 16 }
    ensures bytes { (k : ℕ) → k < 16 → slice_index result k ≡ (if bit floor k then FREE else WALL) }
{
    let bits = u8x16::from_array([1, 2, 4, 8, 16, 32, 64, 128, 1, 2, 4, 8, 16, 32, 64, 128]);
    let low = u8x16::splat((floor % 256) as u8);
    let high = u8x16::splat((floor / 256) as u8);
    let is_floor = (low.shuffle(high, HALVES) & bits).simd_eq(bits);
    is_floor.select(u8x16::splat(FREE), u8x16::splat(WALL))
}

// Adds the boxes to a mailbox that shows none.
fn put_boxes<S: CellSet>(mailbox: &mut [u8], board: &Board<S>)
    requires formed { IsWellFormed board.now }
    requires bare { IsMailboxOf board.now set.empty mailbox.old }
    ensures { IsMailboxOf board.now board.now.boxes mailbox.new }
{
    for cell in MembersOf::new(board.boxes()) {
        mailbox[place(cell) as usize] = BOX;
    }
}

// The number of boxes off the goals.
pub(crate) fn boxes_off_goals<S: CellSet>(board: &Board<S>, mailbox: &[u8]) -> u64
    requires { (boxes : Cells) × IsMailboxOf board.now boxes mailbox.now × (len boxes ≡ len board.now.boxes) }
    ensures { (boxes : Cells) → IsMailboxOf board.now boxes mailbox.now → len boxes ≡ len board.now.boxes
        → result ≡ len (difference boxes board.now.goals) }
{
    let mut count = board.boxes().len() as u64;
    for goal in MembersOf::new(board.goals()) {
        if mailbox[place(goal) as usize] == BOX {
            count -= 1;
        }
    }
    count
}
