//! Tests of sets of cells, one cell at a time, as wholes and row by row, on grids of several sizes.
ghost use Rattle.std.specs.Prelude.{◌≡◌, IfOk};
ghost use Rattle.cellset.specs.Cell.{IsOn};

use crate::same::same;
use cellset::{BitSet, Cell, CellSet, ListSet, Shape};
use std::alloc::{AllocError, Global};
use std::process::Abort;

// Returns whether a cell is one of every `n`: its row and its column differ by a multiple of `n`. Of every 0 there is none.
fn is_one_of(cell: Cell, n: u8) -> bool {
    n != 0 && cell.column() % n == cell.row() % n
}

// Returns the set of every `n`th cell.
fn every<S: CellSet>(alloc: Global, shape: Shape, n: u8) -> Result<S, AllocError>
    ensures { IfOk result (λ s. S.extent s ≡ shape) }
{
    let mut set = S::new(alloc, shape)?;
    for row in 1..=shape.height() as u16 {
        for column in 1..=shape.width() as u16 {
            if let Some(cell) = shape.cell(column, row) {
                if is_one_of(cell, n) {
                    set.insert(cell);
                }
            }
        }
    }
    Ok(set)
}

// Checks an answer of yes or no.
fn agree(rt: &impl Abort, what: &str, said: bool, wanted: bool) {
    same(rt, &what, &said, &wanted);
}

// Checks whether a set has a cell, and which is the first one from it on.
fn has<S: CellSet>(rt: &impl Abort, set: &S, cell: Cell, is_in: bool, first: Option<Cell>)
    requires { IsOn (S.extent set.now) cell }
{
    let (said, from) = (set.contains(cell), set.next_from(cell));
    same(rt, &cell, &said, &is_in);
    same(rt, &cell, &from, &first);
}

// Checks that a set has every `n`th cell and every `m`th one, and which is the first from each cell on.
fn has_every<S: CellSet>(rt: &impl Abort, set: &S, n: u8, m: u8) {
    let shape = set.shape();
    let mut first = None;
    let mut count = 0;
    for row in (1..=shape.height() as u16).rev() {
        for column in (1..=shape.width() as u16).rev() {
            if let Some(cell) = shape.cell(column, row) {
                let is_in = is_one_of(cell, n) || is_one_of(cell, m);
                if is_in {
                    first = Some(cell);
                    count = usize::wrapping_add(count, 1);
                }
                has(rt, set, cell, is_in, first);
            }
        }
    }
    let said = set.len();
    same(rt, &shape, &said, &count);
}

// Checks sets that are joined, copied and cleared.
fn wholes<S: CellSet>(rt: &impl Abort, alloc: Global, shape: Shape) -> Result<(), AllocError> {
    let thirds: S = every(alloc, shape, 3)?;
    has_every(rt, &thirds, 3, 3);
    let mut set: S = every(alloc, shape, 2)?;
    set.union_with(&thirds);
    has_every(rt, &set, 2, 3);
    set.copy_from(&thirds);
    has_every(rt, &set, 3, 3);
    set.clear();
    has_every(rt, &set, 0, 0);
    Ok(())
}

// Puts a cell into a set or takes it out, and checks what the set says of it before and after.
fn put<S: CellSet>(rt: &impl Abort, set: &mut S, cell: Cell, is_in: bool)
    requires { IsOn (S.extent set.old) cell }
    ensures { S.extent set.new ≡ S.extent set.old }
{
    let was_in = set.contains(cell);
    let others = set.len().wrapping_sub(was_in as usize);
    let is_new = if is_in {
        set.insert(cell)
    } else {
        set.remove(cell)
    };
    agree(rt, "another than before", is_new, is_in != was_in);
    agree(rt, "is in", set.contains(cell), is_in);
    let (said, wanted) = (set.len(), others.wrapping_add(is_in as usize));
    same(rt, &cell, &said, &wanted);
}

// Checks whether a set has the first cell of the grid.
fn begins<S: CellSet>(rt: &impl Abort, set: &S, first: Cell, is_in: bool)
    requires { IsOn (S.extent set.now) first }
{
    agree(rt, "has the first", set.contains(first), is_in);
    let from = set.next_from(first);
    agree(rt, "begins with the first", from == Some(first), is_in);
}

// Checks a copy of a set with another last cell.
fn with_another_last<S: CellSet>(
    rt: &impl Abort,
    alloc: Global,
    set: &S,
    last: Cell,
    has_last: bool,
) -> Result<(), AllocError>
    requires { IsOn (S.extent set.now) last }
{
    let mut copy = S::new(alloc, set.shape())?;
    copy.union_with(set);
    put(rt, &mut copy, last, !has_last);
    agree(rt, "the copy has no more", copy.is_subset(set), has_last);
    agree(rt, "the copy has all", set.is_subset(&copy), !has_last);
    Ok(())
}

// Puts the first and the last cell of the grid into a set or takes them out, and checks the set and a copy with another last cell.
fn with_ends<S: CellSet>(
    rt: &impl Abort,
    alloc: Global,
    set: &mut S,
    has_first: bool,
    has_last: bool,
) -> Result<(), AllocError>
    ensures { S.extent set.new ≡ S.extent set.old }
{
    let shape = set.shape();
    let Some(first) = shape.cell(1, 1) else {
        panic!(rt; "no first cell");
    };
    let Some(last) = shape.cell(shape.width() as u16, shape.height() as u16) else {
        panic!(rt; "no last cell");
    };
    put(rt, set, first, has_first);
    put(rt, set, last, has_last);
    let has_first = if first == last { has_last } else { has_first };
    begins(rt, set, first, has_first);
    let from_last = if has_last { Some(last) } else { None };
    has(rt, set, last, has_last, from_last);
    with_another_last(rt, alloc, set, last, has_last)
}

// Checks the empty set and the set of every third cell, with and without the first and the last cell of the grid.
fn ends<S: CellSet>(rt: &impl Abort, alloc: Global, shape: Shape, n: u8) -> Result<(), AllocError> {
    let mut set: S = every(alloc, shape, n)?;
    with_ends(rt, alloc, &mut set, false, false)?;
    with_ends(rt, alloc, &mut set, true, false)?;
    with_ends(rt, alloc, &mut set, true, true)?;
    with_ends(rt, alloc, &mut set, false, true)
}

// Returns the bits of every third cell among 64 columns of a row.
fn bits_of_thirds(shape: Shape, row: u8, part: u8) -> u64 {
    let mut bits = 0;
    for k in 0..64u16 {
        let column = 64 * part as u16 + k;
        let is_on = column >= 1 && column <= shape.width() as u16;
        if is_on && row >= 1 && row <= shape.height() && column % 3 == row as u16 % 3 {
            bits |= 1 << k;
        }
    }
    bits
}

// Reads the rows of a set of every third cell, and checks them.
fn reads_rows<S: CellSet>(rt: &impl Abort, set: &S, shape: Shape) {
    for row in 0..=255u8 {
        for part in 0..5u8 {
            let bits = bits_of_thirds(shape, row, part);
            let said = set.row(row, part);
            same(rt, &(row, part), &said, &bits);
        }
    }
}

// Returns a copy of a set, written row by row.
fn rewritten<S: CellSet>(alloc: Global, set: &S) -> Result<S, AllocError>
    ensures { IfOk result (λ s. S.extent s ≡ S.extent set.now) }
{
    let mut copy = S::new(alloc, set.shape())?;
    for row in 0..=255u8 {
        for part in 0..5u8 {
            copy.insert_row(row, part, set.row(row, part));
        }
    }
    Ok(copy)
}

// Reads the rows of a set of every third cell, writes them into another set, and checks both.
fn rows<S: CellSet>(rt: &impl Abort, alloc: Global, shape: Shape) -> Result<(), AllocError> {
    let set: S = every(alloc, shape, 3)?;
    reads_rows(rt, &set, shape);
    let copy = rewritten(alloc, &set)?;
    let (said, wanted) = (copy.len(), set.len());
    same(rt, &shape, &said, &wanted);
    agree(rt, "no more", copy.is_subset(&set), true);
    Ok(())
}

// Shapes of 1, 1, 2, 4, 9, 256 and 1,017 words of bits.
const SHAPES: &[(usize, usize)] = &[
    (1, 1),
    (8, 8),
    (13, 5),
    (16, 16),
    (103, 5),
    (128, 128),
    (255, 255),
];

// Checks sets on each shape.
fn on_each_shape<S: CellSet>(rt: &impl Abort, alloc: Global) -> Result<(), AllocError> {
    for (width, height) in SHAPES {
        let Some(shape) = Shape::new(*width, *height) else {
            panic!(rt; "no shape");
        };
        wholes::<S>(rt, alloc, shape)?;
        ends::<S>(rt, alloc, shape, 0)?;
        ends::<S>(rt, alloc, shape, 3)?;
        rows::<S>(rt, alloc, shape)?;
    }
    Ok(())
}

#[test]
fn list_set(rt: HostRuntime) -> Result<(), AllocError> {
    on_each_shape::<ListSet>(&rt, rt.alloc())
}

#[test]
fn bit_set(rt: HostRuntime) -> Result<(), AllocError> {
    on_each_shape::<BitSet>(&rt, rt.alloc())
}
