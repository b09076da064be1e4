//! The cells of a set as lists, in reading order.
ghost use Rattle.std.specs.Prelude.{◌≡◌, ◌+◌, ◌*◌, ◌≤◌, [], IfOk, OnOk, length, vec_capacity};
ghost use Rattle.std.specs.FinSet as set;
ghost use Rattle.cellset.specs.Cell.{IsOn};
ghost use Rattle.cellset.specs.CellSet.{Has};
ghost use Rattle.cellset.specs.declared.cell.Cell.{Cell as GridCell};
ghost use Rattle.cellset.specs.Members.{AreMembersOf};
ghost use Rattle.maker.specs.Listed.{IsListedTo};
ghost use Rattle.maker.specs.Made.{IsListOf};

use answers::Coord;
use cellset::{Cell, CellSet, MembersOf};
use reach::Rows;
use std::alloc::{AllocError, Global};

// Fills an empty worklist with the cells of a set.
pub fn list_all<S: CellSet>(cells: &S, work: &mut Vec<Cell>)
    requires empty { work.old.items ≡ [] }
    requires space { set.len (S.members cells.now) ≤ vec_capacity work.old }
    ensures members { AreMembersOf (S.extent cells.now) (S.members cells.now) work.new.items }
    ensures count { length work.new.items ≡ set.len (S.members cells.now) }
    ensures capacity { vec_capacity work.new ≡ vec_capacity work.old }
{
    for cell in MembersOf::new(cells) {
        work.push_reserved(cell);
    }
}

// Returns the coordinates of the cells of a set, in reading order.
pub fn coords_of<S: CellSet>(alloc: Global, cells: &S) -> Result<Vec<Coord>, AllocError>
    ensures { IfOk result (λ coords. IsListOf (S.members cells.now) coords.items) }
{
    let mut rows = Rows::new(alloc, cells.shape())?;
    rows.load(cells);
    coords_in(alloc, &rows)
}

// Returns the coordinates of the cells of rows, in reading order.
pub fn coords_in(alloc: Global, cells: &Rows) -> Result<Vec<Coord>, AllocError>
    requires on { (c : GridCell) → Has cells.now.members c → IsOn cells.now.extent c }
    ensures { IfOk result (λ coords. IsListOf cells.now.members coords.items) }
{
    let mut coords = Vec::with_capacity(alloc, count(cells))?;
    let shape = cells.shape();
    for row in 1..shape.height() as u16 + 1 {
        for part in 0..shape.width() / 64 + 1 {
            add_part(cells, row as u8, part, &mut coords)?;
        }
    }
    Ok(coords)
}

// Returns the number of cells in rows. Only a capacity depends on it, so nothing is proved of it.
fn count(cells: &Rows) -> usize {
    let shape = cells.shape();
    let mut count = 0usize;
    for row in 1..shape.height() as u16 + 1 {
        for part in 0..shape.width() / 64 + 1 {
            count = count.wrapping_add(cells.row(row as u8, part).count_ones() as usize);
        }
    }
    count
}

// Appends the coordinates of the cells in 64 columns of a row. The list has all cells before them, and no others.
fn add_part(cells: &Rows, row: u8, part: u8, coords: &mut Vec<Coord>) -> Result<(), AllocError>
    requires within { (row ≤ cells.now.extent.height) × (64 * part ≤ cells.now.extent.width) }
    requires listed { IsListedTo cells.now.members row (64 * part) coords.old.items }
    ensures { OnOk result (IsListedTo cells.now.members row (64 * part + 64) coords.new.items) }
{
    let mut bits = cells.row(row, part);
    while bits != 0 {
        let k = bits.trailing_zeros() as u16;
        bits &= !(1 << k);
        coords.push(Coord {
            row: row as u16,
            column: 64 * part as u16 + k,
        })?;
    }
    Ok(())
}
