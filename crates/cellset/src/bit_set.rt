//! A set of cells as bits.
ghost use Rattle.std.specs.Prelude.{◌≡◌, ◌+◌, ◌-◌, ◌*◌, ◌/◌, ◌<◌, ◌≤◌};
ghost use Rattle.std.specs.Option.{SomeIff};
ghost use Rattle.cellset.specs.Shape.{HasSides};
ghost use Rattle.cellset.specs.Cell.{IsOn};
ghost use Rattle.cellset.specs.SortedList.{index};
ghost use Rattle.cellset.specs.BitSet.{IsAt, first_cell};

use crate::set::CellSet;
use crate::{Cell, Shape, words};
use std::alloc::{AllocError, Global};
use std::marker::Model;

/// A bit for each cell of the grid, in reading order.
///
/// Looking up, adding or removing a cell takes one step. Joining, comparing, copying and counting sets take a step for 64 cells.
#[derive(Debug, Drop)]
pub struct BitSet {
    shape: Shape,
    words: Vec<u64>,
}

impl Model for BitSet {
    ghost use Rattle.cellset.specs.CellSet.{CellsOn};
    ghost use Rattle.cellset.specs.Coding.{coded_cells_on};

    ghost Value = { CellsOn };

    ghost coded = { coded_cells_on };

    ghost use Rattle.cellset.specs.BitSet.{IsBitsOf, members_of};

    ghost view = { λ a. record { extent = a.shape; members = members_of a.shape a.words.items } };

    ghost invariant = { λ a. IsBitsOf a.shape a.words.items };
}

impl CellSet for BitSet {
    ghost extent = { λ s. s.extent };

    ghost members = { λ s. s.members };

    #[tactic(auto, using(crate::proofs::BitSets::empty_members, crate::proofs::WordLoops::none_in_zeros))]
    fn new(alloc: Global, shape: Shape) -> Result<Self, AllocError> {
        let words = vec![in alloc; 0; words_for(shape)]?;
        Ok(BitSet { shape, words })
    }

    fn renew(&mut self, _alloc: Global, shape: Shape) -> Result<(), AllocError> {
        self.words.resize(words_for(shape), 0)?;
        self.words.fill(0);
        self.shape = shape;
        Ok(())
    }

    fn shape(&self) -> Shape {
        self.shape
    }

    #[tactic(auto, using(crate::proofs::BitSets::bit_tells, crate::proofs::BitSets::on_grid))]
    fn contains(&self, cell: Cell) -> bool {
        words::has(&self.words, self.shape.index_of(cell))
    }

    #[tactic(auto, using(crate::proofs::BitSets::bit_tells, crate::proofs::BitSets::insert_members, crate::proofs::BitSets::on_grid))]
    fn insert(&mut self, cell: Cell) -> bool {
        let n = self.shape.index_of(cell);
        let was_new = !words::has(&self.words, n);
        words::set(&mut self.words, n);
        was_new
    }

    #[tactic(auto, using(crate::proofs::BitSets::bit_tells, crate::proofs::BitSets::remove_members, crate::proofs::BitSets::on_grid))]
    fn remove(&mut self, cell: Cell) -> bool {
        let n = self.shape.index_of(cell);
        let was_there = words::has(&self.words, n);
        words::unset(&mut self.words, n);
        was_there
    }

    #[tactic(auto, using(crate::proofs::BitSets::words_fit, crate::proofs::BitSets::len_members))]
    fn len(&self) -> usize {
        words::count(&self.words)
    }

    fn clear(&mut self) {
        self.words.fill(0);
    }

    fn is_subset(&self, other: &Self) -> bool {
        words::are_within(&self.words, &other.words)
    }

    fn union_with(&mut self, other: &Self) {
        words::unite(&mut self.words, &other.words);
    }

    fn copy_from(&mut self, other: &Self) {
        self.words.copy_from_slice(&other.words);
    }

    fn next_from(&self, cell: Cell) -> Option<Cell> {
        let n = words::first_from(&self.words, self.shape.index_of(cell))?;
        Some(cell_from(self.shape, cell, n))
    }

    fn row(&self, row: u8, part: u8) -> u64 {
        let Some(first) = first_of(self.shape, row, part) else {
            return 0;
        };
        let bits = words::bits_from(&self.words, self.shape.index_of(first));
        let count = self.shape.width() as usize + 1 - first.column as usize;
        words::first_bits(bits, count) << lead(part)
    }

    fn insert_row(&mut self, row: u8, part: u8, bits: u64) {
        if bits == 0 {
            return;
        }
        let shape = self.shape;
        // A part with a bit has a cell on the grid, so its first cell is one.
        let first = Cell {
            row,
            column: 64 * part + lead(part) as u8,
        };
        words::set_bits(&mut self.words, shape.index_of(first), bits >> lead(part));
    }
}

// Returns the number of words that have a bit for each cell of a grid.
fn words_for(shape: Shape) -> usize
    ensures words { result ≡ (shape.width * shape.height + 63) / 64 }
    ensures sides { HasSides shape.width shape.height }
{
    (shape.width() as usize * shape.height() as usize).div_ceil(64)
}

// Returns the number of bits before the first cell in a part of a row: bit 0 of part 0 belongs to no cell.
fn lead(part: u8) -> u16
    ensures { result ≡ 1 - part }
{
    if part == 0 { 1 } else { 0 }
}

// Returns the first cell in a part of a row, if the grid has one there.
fn first_of(shape: Shape, row: u8, part: u8) -> Option<Cell>
    ensures { SomeIff result (IsOn shape (first_cell row part)) (first_cell row part) }
{
    shape.cell(64 * part as u16 + lead(part), row as u16)
}

// Returns the cell at index `n`, which isn't before the cell `from`. In the row of `from` this needs no division.
fn cell_from(shape: Shape, from: Cell, n: usize) -> Cell
    requires on { IsOn shape from }
    requires after { index shape from ≤ n }
    requires within { n < shape.width * shape.height }
    ensures { IsAt shape n result }
{
    let column = from.column as usize + (n - shape.index_of(from));
    if column > shape.width() as usize {
        return cell_at(shape, n);
    }
    Cell {
        row: from.row,
        column: column as u8,
    }
}

// Returns the cell at an index in reading order.
fn cell_at(shape: Shape, n: usize) -> Cell
    requires { n < shape.width * shape.height }
    ensures { IsAt shape n result }
{
    let width = shape.width() as usize;
    Cell {
        row: (n / width + 1) as u8,
        column: (n % width + 1) as u8,
    }
}
