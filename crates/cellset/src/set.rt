//! The trait of sets of cells.
ghost use Rattle.std.specs.Prelude.{◌≡◌, not, IfOk, IfSome, OnOk, OnErr};
ghost use Rattle.std.specs.FinSet as set;
ghost use Rattle.cellset.specs.Shape.{Extent};
ghost use Rattle.cellset.specs.Cell.{IsOn};
ghost use Rattle.cellset.specs.CellSet.{Cells, Has, IsFirstFrom};
ghost use Rattle.cellset.specs.RowBits.{IsRowOf, IsRowOn, cells_of_row};
ghost use Rattle.cellset.specs.declared.cell.Cell.{Cell as GridCell};

use crate::{Cell, Shape};
use std::alloc::{AllocError, Global};

/// A finite set of cells of one grid. Only `new` and `renew` allocate.
pub trait CellSet: Drop {
    /// The grid.
    ghost extent: { Self → Extent };

    /// The cells.
    ghost members: { Self → Cells };

    /// Makes the empty set, with memory for every cell of the grid.
    fn new(alloc: Global, shape: Shape) -> Result<Self, AllocError>
        ensures extent { IfOk result (λ s. extent s ≡ shape) }
        ensures empty { IfOk result (λ s. members s ≡ set.empty) };

    /// Empties the set and gives it another grid. Allocates only if its memory isn't enough.
    fn renew(&mut self, alloc: Global, shape: Shape) -> Result<(), AllocError>
    where
        Self: Sized,
        ensures extent { OnOk result (extent self.new ≡ shape) }
        ensures empty { OnOk result (members self.new ≡ set.empty) }
        ensures same { OnErr result ((extent self.new ≡ extent self.old) × (members self.new ≡ members self.old)) }
    {
        *self = Self::new(alloc, shape)?;
        Ok(())
    }

    /// Returns the grid of the set.
    fn shape(&self) -> Shape
        ensures value { result ≡ extent self.now }
        ensures on { (c : GridCell) → Has (members self.now) c → IsOn (extent self.now) c };

    /// Returns whether a cell of the grid is in the set.
    fn contains(&self, cell: Cell) -> bool
        requires { IsOn (extent self.now) cell }
        ensures { result ≡ set.contains (members self.now) cell };

    /// Adds a cell of the grid and returns whether it was new.
    fn insert(&mut self, cell: Cell) -> bool
        requires { IsOn (extent self.old) cell }
        ensures extent { extent self.new ≡ extent self.old }
        ensures members { members self.new ≡ set.insert (members self.old) cell }
        ensures was_new { result ≡ not (set.contains (members self.old) cell) };

    /// Removes a cell of the grid and returns whether it was there.
    fn remove(&mut self, cell: Cell) -> bool
        requires { IsOn (extent self.old) cell }
        ensures extent { extent self.new ≡ extent self.old }
        ensures members { members self.new ≡ set.remove (members self.old) cell }
        ensures was_there { result ≡ set.contains (members self.old) cell };

    /// Returns the number of members.
    fn len(&self) -> usize
        ensures { result ≡ set.len (members self.now) };

    /// Removes all members. Keeps the memory.
    fn clear(&mut self)
        ensures extent { extent self.new ≡ extent self.old }
        ensures members { members self.new ≡ set.empty };

    /// Returns whether every member is in another set of the same shape.
    fn is_subset(&self, other: &Self) -> bool
        requires { extent self.now ≡ extent other.now }
        ensures { result ≡ set.is_subset (members self.now) (members other.now) };

    /// Adds the members of another set of the same shape.
    fn union_with(&mut self, other: &Self)
        requires { extent self.old ≡ extent other.now }
        ensures extent { extent self.new ≡ extent self.old }
        ensures members { members self.new ≡ set.union (members self.old) (members other.now) };

    /// Replaces the members by the members of another set of the same shape.
    fn copy_from(&mut self, other: &Self)
        requires { extent self.old ≡ extent other.now }
        ensures extent { extent self.new ≡ extent self.old }
        ensures members { members self.new ≡ members other.now };

    /// Returns the first member at a cell of the grid or after it, in reading order.
    fn next_from(&self, cell: Cell) -> Option<Cell>
        requires { IsOn (extent self.now) cell }
        ensures first { IsFirstFrom (members self.now) cell result }
        ensures on { IfSome result (IsOn (extent self.now)) };

    /// Returns 64 columns of a row as bits: bit `k` is set if the cell in column `64 * part + k` is a member.
    ///
    /// Bit 0 of part 0 is never set, because columns count from 1.
    fn row(&self, row: u8, part: u8) -> u64
        ensures members { IsRowOf (members self.now) row part result }
        ensures on { IsRowOn (extent self.now) row part result }
    {
        let shape = self.shape();
        let mut bits = 0;
        for k in 0..64 {
            if let Some(cell) = shape.cell(64 * part as u16 + k, row as u16) {
                if self.contains(cell) {
                    bits |= 1 << k;
                }
            }
        }
        bits
    }

    /// Adds the cells of a row whose bits are set, numbered as in `row`. All of them are on the grid.
    fn insert_row(&mut self, row: u8, part: u8, bits: u64)
        requires { IsRowOn (extent self.old) row part bits }
        ensures extent { extent self.new ≡ extent self.old }
        ensures members { members self.new ≡ set.union (members self.old) (cells_of_row row part bits) }
    {
        let shape = self.shape();
        for k in 0..64 {
            if bits >> k & 1 == 1 {
                if let Some(cell) = shape.cell(64 * part as u16 + k, row as u16) {
                    self.insert(cell);
                }
            }
        }
    }
}
