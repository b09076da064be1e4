//! The rows of a grid as bits, and single rows: how they are read from a set and stored in one.
ghost use Rattle.std.specs.Prelude.{◌≡◌, ◌*◌, ◌+◌, ◌<◌, ◌≤◌, ◌↔◌, ◌⊎◌, ℕ, IfOk, OnOk, OnErr, IsTrue, MatchBool, length, true, false};
ghost use Rattle.cellset.specs.Cell.{IsOn, cell_at};
ghost use Rattle.cellset.specs.CellSet.{Has};
ghost use Rattle.cellset.specs.declared.cell.Cell.{Cell as GridCell};
ghost use Rattle.reach.specs.Bits.{HasBit};
ghost use Rattle.reach.specs.BitRows.{InRows};
ghost use Rattle.reach.specs.RowSet.{AreRowsOf};
ghost use Rattle.reach.specs.Region.{IsAtEdge};

use crate::columns::{any, both, has_bit, insert, without};
use crate::worklist::Worklist;
use cellset::{CellSet, Shape};
use std::alloc::{AllocError, Global};

// Returns this many empty rows.
pub(crate) fn empty<const N: usize>(
    alloc: Global,
    count: usize,
) -> Result<Vec<[u64; N]>, AllocError>
    ensures { IfOk result (λ rows. (length rows.items ≡ count) × ((c : GridCell) → InRows rows.items c → ⊥)) }
{
    let rows = vec![in alloc; [0; N]; count]?;
    Ok(rows)
}

// Leaves this many rows and empties them. Allocates only if their memory isn't enough.
pub(crate) fn renew<const N: usize>(
    rows: &mut Vec<[u64; N]>,
    count: usize,
) -> Result<(), AllocError>
    ensures renewed { OnOk result ((length rows.new.items ≡ count) × ((c : GridCell) → InRows rows.new.items c → ⊥)) }
    ensures same { OnErr result (rows.new.items ≡ rows.old.items) }
{
    rows.resize(count, [0; N])?;
    clear(rows);
    Ok(())
}

// Returns whether the cell is in the rows.
pub(crate) fn has<const N: usize>(rows: &[[u64; N]], row: usize, column: usize) -> bool
    ensures { IsTrue result ↔ InRows rows.now (cell_at column row) }
{
    row < rows.len() && has_bit(&rows[row], column)
}

// Returns whether no row has a cell.
pub(crate) fn are_empty<const N: usize>(rows: &[[u64; N]]) -> bool
    ensures { MatchBool result ((c : GridCell) → InRows rows.now c → ⊥) ((c : GridCell) × InRows rows.now c) }
{
    for y in 0..rows.len() {
        if any(&rows[y]) {
            return false;
        }
    }
    true
}

// Returns whether a cell lies in the first or last row or column of the grid.
pub(crate) fn is_at_edge<const N: usize>(rows: &[[u64; N]], shape: Shape) -> bool
    requires { AreRowsOf N shape rows.now }
    ensures { MatchBool result ((c : GridCell) × InRows rows.now c × IsAtEdge shape c)
        ((c : GridCell) → InRows rows.now c → IsAtEdge shape c → ⊥) }
{
    if any(&rows[1]) {
        return true;
    }
    if any(&rows[shape.height() as usize]) {
        return true;
    }
    let mut sides = [0; N];
    insert(&mut sides, 1);
    insert(&mut sides, shape.width() as usize);
    have_column(rows, &sides)
}

// Returns whether a row has one of these columns.
fn have_column<const N: usize>(rows: &[[u64; N]], columns: &[u64; N]) -> bool
    ensures { MatchBool result ((c : GridCell) × InRows rows.now c × HasBit columns.now c.column)
        ((c : GridCell) → InRows rows.now c → HasBit columns.now c.column → ⊥) }
{
    for y in 0..rows.len() {
        if any(&both(&rows[y], columns)) {
            return true;
        }
    }
    false
}

// Empties the rows.
pub(crate) fn clear<const N: usize>(rows: &mut [[u64; N]])
    ensures rows { length rows.new ≡ length rows.old }
    ensures none { (c : GridCell) → InRows rows.new c → ⊥ }
{
    for y in 0..rows.len() {
        rows[y] = [0; N];
    }
}

// Removes from each row the columns that the same row of the others has.
pub(crate) fn subtract<const N: usize>(rows: &mut [[u64; N]], other: &[[u64; N]])
    requires { length other.now ≡ length rows.old }
    ensures rows { length rows.new ≡ length rows.old }
    ensures cells { (c : GridCell) → InRows rows.new c ↔ (InRows rows.old c × (InRows other.now c → ⊥)) }
{
    for y in 0..rows.len() {
        rows[y] = without(&rows[y], &other[y]);
    }
}

// Replaces each row but row 0 by the columns of the grid that it lacks.
pub(crate) fn complement<const N: usize>(rows: &mut [[u64; N]], on: &[u64; N])
    requires { (c : GridCell) → c.row ≡ 0 → InRows rows.old c → ⊥ }
    ensures rows { length rows.new ≡ length rows.old }
    ensures cells { (c : GridCell) → InRows rows.new c
        ↔ ((1 ≤ c.row) × (c.row < length rows.old) × HasBit on.now c.column × (InRows rows.old c → ⊥)) }
{
    for y in 1..rows.len() {
        rows[y] = without(on, &rows[y]);
    }
}

// Replaces the rows by the rows of a set.
pub(crate) fn load<const N: usize, S: CellSet>(cells: &S, rows: &mut [[u64; N]])
    requires few { N ≤ 4 }
    requires high { length rows.old ≤ 256 }
    ensures rows { length rows.new ≡ length rows.old }
    ensures cells { (c : GridCell) → InRows rows.new c ↔ ((c.row < length rows.old) × (c.column < 64 * N) × Has (S.members cells.now) c) }
{
    for y in 0..rows.len() {
        rows[y] = row_of(cells, y as u8);
    }
}

// Adds the cells of the rows to a set, on whose grid they lie.
pub(crate) fn store<const N: usize, S: CellSet>(rows: &[[u64; N]], into: &mut S)
    requires few { N ≤ 4 }
    requires high { length rows.now ≤ 256 }
    requires on { (c : GridCell) → InRows rows.now c → IsOn (S.extent into.old) c }
    ensures extent { S.extent into.new ≡ S.extent into.old }
    ensures members { (c : GridCell) → Has (S.members into.new) c ↔ (Has (S.members into.old) c ⊎ InRows rows.now c) }
{
    for y in 0..rows.len() {
        store_row(&rows[y], y as u8, into);
    }
}

// Returns the first row that has a cell, and how many rows there are from it to the last one that has. If they are looked at one by one and not
// four at a time, lists take 1 % more instructions.
pub(crate) fn span<const N: usize>(rows: &[[u64; N]]) -> (usize, usize)
    ensures within { result.0 + result.1 ≤ length rows.now }
    ensures cells { (c : GridCell) → InRows rows.now c → (result.0 ≤ c.row) × (c.row < result.0 + result.1) }
{
    let first = skip_empty(rows);
    let mut end = rows.len();
    while end - first >= 4 && !any_of_four(rows, end - 4) {
        end -= 4;
    }
    while end > first && !any(&rows[end - 1]) {
        end -= 1;
    }
    (first, end - first)
}

// Returns the number of the first row that has a cell, or how many rows there are if none has.
fn skip_empty<const N: usize>(rows: &[[u64; N]]) -> usize
    ensures within { result ≤ length rows.now }
    ensures cells { (c : GridCell) → InRows rows.now c → result ≤ c.row }
{
    let mut first = 0;
    while rows.len() - first >= 4 && !any_of_four(rows, first) {
        first += 4;
    }
    while first < rows.len() && !any(&rows[first]) {
        first += 1;
    }
    first
}

// Returns whether one of four rows has a cell.
#[inline(always)]
fn any_of_four<const N: usize>(rows: &[[u64; N]], from: usize) -> bool
    requires { from + 4 ≤ length rows.now }
    ensures { result ≡ false → (c : GridCell) → from ≤ c.row → c.row < from + 4 → InRows rows.now c → ⊥ }
{
    any(&rows[from]) | any(&rows[from + 1]) | any(&rows[from + 2]) | any(&rows[from + 3])
}

// Returns the rows that have a cell.
pub(crate) fn occupied<const N: usize>(rows: &[[u64; N]]) -> Worklist<4>
    requires { length rows.now ≤ 256 }
    ensures all { (c : GridCell) → InRows rows.now c → HasBit result.words c.row }
    ensures within { (k : ℕ) → HasBit result.words k → k < length rows.now }
{
    let mut waiting = Worklist::none();
    for y in 0..rows.len() {
        if any(&rows[y]) {
            waiting.add(y);
        }
    }
    waiting
}

// Returns the columns of a row of a set. Bit 1 is column 1, and columns past the last word are left out.
fn row_of<const N: usize, S: CellSet>(cells: &S, y: u8) -> [u64; N]
    requires few { N ≤ 4 }
    ensures { (k : ℕ) → HasBit result k ↔ ((k < 64 * N) × Has (S.members cells.now) (cell_at k y)) }
{
    let mut row = [0; N];
    for part in 0..N {
        row[part] = cells.row(y, part as u8);
    }
    row
}

// Adds the cells of a row to a set, on whose grid they lie.
fn store_row<const N: usize, S: CellSet>(row: &[u64; N], y: u8, into: &mut S)
    requires few { N ≤ 4 }
    requires on { (k : ℕ) → HasBit row.now k → IsOn (S.extent into.old) (cell_at k y) }
    ensures extent { S.extent into.new ≡ S.extent into.old }
    ensures members { (c : GridCell) → Has (S.members into.new) c
        ↔ (Has (S.members into.old) c ⊎ ((c.row ≡ y) × HasBit row.now c.column)) }
{
    for part in 0..N {
        into.insert_row(y, part as u8, row[part]);
    }
}
