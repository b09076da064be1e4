//! A set of cells as rows of bits: one word a row for a narrow grid, and four for a wide one. Only this file looks at the width.
//!
//! With four words always, audits of narrow boards take 1.2 to 1.8 times the instructions, and `make` twice as many. A board of more than
//! 63 columns gains nothing.
ghost use Rattle.std.specs.Prelude.{◌≡◌, ◌↔◌, ◌⊎◌, ◌*◌, ◌+◌, ◌<◌, ◌≤◌, IfOk, OnOk, OnErr, IsTrue, MatchBool, true, false};
ghost use Rattle.std.specs.FinSet as set;
ghost use Rattle.cellset.specs.Cell.{IsOn};
ghost use Rattle.cellset.specs.CellSet.{Has, Lacks};
ghost use Rattle.cellset.specs.RowBits.{IsRowOf, cells_of_row};
ghost use Rattle.cellset.specs.declared.cell.Cell.{Cell as GridCell};
ghost use Rattle.reach.specs.Reached.{Reached, IsClosedUnder};
ghost use Rattle.reach.specs.Region.{IsAtEdge};
ghost use Rattle.reach.specs.Rings.{IsRing};
ghost use Rattle.reach.specs.RowSet.{AreRowsQueued};

use crate::bit_rows::{
    are_empty, clear, complement, empty, has, is_at_edge, load, occupied, renew, span, store,
    subtract,
};
use crate::columns::{columns, insert, remove};
use crate::grow::grow;
use crate::rings::{Ring, read_around, read_ring};
use crate::step::Step;
use crate::worklist::Worklist;
use cellset::{Cell, CellSet, MembersOf, Shape};
use std::alloc::{AllocError, Global};
use std::marker::Model;

/// A finite set of cells, kept as rows of bits. Bit 1 of a row is column 1, and row 0 is empty.
#[derive(Debug, Drop)]
pub struct Rows {
    shape: Shape,
    rows: ByWidth,
    // The rows that have a cell, and maybe others. A flood starts with them. If they aren't known, it looks at all rows first: always to do
    // so costs `make` 2.3 % more instructions and an audit of lists 1.5 %.
    occupied: Option<Worklist<4>>,
}

// Rows of one word for at most 63 columns, and of four for more.
#[derive(Debug, Drop)]
enum ByWidth {
    Narrow(Vec<[u64; 1]>),
    Wide(Vec<[u64; 4]>),
}

// Computes the same for rows of either width.
macro_rules! by_width {
    ($any:expr, $rows:ident => $result:expr) => {
        match $any {
            ByWidth::Narrow($rows) => $result,
            ByWidth::Wide($rows) => $result,
        }
    };
}

// Computes the same for two sets on one grid, whose rows have one width.
macro_rules! by_one_width {
    ($any:expr, $other:expr, $rows:ident, $others:ident => $result:expr) => {
        match ($any, $other) {
            (ByWidth::Narrow($rows), ByWidth::Narrow($others)) => $result,
            (ByWidth::Wide($rows), ByWidth::Wide($others)) => $result,
            _ => unreachable!(),
        }
    };
}

impl Model for Rows {
    ghost use Rattle.cellset.specs.CellSet.{CellsOn};
    ghost use Rattle.cellset.specs.Coding.{coded_cells_on};

    ghost Value = { CellsOn };

    ghost coded = { coded_cells_on };

    ghost use Rattle.reach.specs.Rows.{cells_in, AreRows, IsOccupied};

    ghost view = { λ r. cells_in r.shape r.rows };

    ghost invariant = { λ r. AreRows r.shape r.rows × IsOccupied (cells_in r.shape r.rows) r.occupied };
}

impl Rows {
    /// Returns empty rows for a grid.
    pub fn new(alloc: Global, shape: Shape) -> Result<Rows, AllocError>
        ensures { IfOk result (λ r. (r.extent ≡ shape) × (r.members ≡ set.empty)) }
    {
        let count = shape.height() as usize + 1;
        let rows = if is_narrow(shape) {
            ByWidth::Narrow(empty(alloc, count)?)
        } else {
            ByWidth::Wide(empty(alloc, count)?)
        };
        let occupied = Some(Worklist::none());
        Ok(Rows {
            shape,
            rows,
            occupied,
        })
    }

    /// Empties the rows and gives them another grid. Allocates only if their memory isn't enough.
    pub fn renew(&mut self, alloc: Global, shape: Shape) -> Result<(), AllocError>
        ensures renewed { OnOk result ((self.new.extent ≡ shape) × (self.new.members ≡ set.empty)) }
        ensures same { OnErr result (self.new ≡ self.old) }
    {
        let (count, is_narrow) = (shape.height() as usize + 1, is_narrow(shape));
        match &mut self.rows {
            ByWidth::Narrow(rows) if is_narrow => renew(rows, count)?,
            ByWidth::Wide(rows) if !is_narrow => renew(rows, count)?,
            _ => {
                *self = Rows::new(alloc, shape)?;
                return Ok(());
            }
        }
        self.shape = shape;
        self.occupied = Some(Worklist::none());
        Ok(())
    }

    /// Returns the grid of the rows.
    pub fn shape(&self) -> Shape
        ensures { result ≡ self.now.extent }
    {
        self.shape
    }

    /// Returns whether the cell is in the rows.
    #[inline]
    pub fn has(&self, cell: Cell) -> bool
        ensures { IsTrue result ↔ Has self.now.members cell }
    {
        by_width!(&self.rows, rows => has(rows, cell.row() as usize, cell.column() as usize))
    }

    /// Returns whether the rows have some cell of a set.
    pub fn meets<S: CellSet>(&self, cells: &S) -> bool
        ensures { MatchBool result
            ((c : GridCell) × Has (S.members cells.now) c × Has self.now.members c)
            ((c : GridCell) → Has (S.members cells.now) c → Lacks self.now.members c) }
    {
        for cell in MembersOf::new(cells) {
            if self.has(cell) {
                return true;
            }
        }
        false
    }

    /// Returns 64 columns of a row of the grid as bits, numbered as in `CellSet::row`.
    pub fn row(&self, row: u8, part: u8) -> u64
        requires { (row ≤ self.now.extent.height) × (64 * part ≤ self.now.extent.width) }
        ensures { IsRowOf self.now.members row part result }
    {
        by_width!(&self.rows, rows => rows[row as usize][part as usize])
    }

    /// Returns whether no cell is in the rows.
    pub fn is_empty(&self) -> bool
        ensures { MatchBool result (self.now.members ≡ set.empty) ((c : GridCell) × Has self.now.members c) }
    {
        by_width!(&self.rows, rows => are_empty(rows))
    }

    /// Returns the first row that has a cell, and how many rows there are from it to the last one that has. If no row has a cell, there are none.
    pub fn span(&self) -> (usize, usize)
        ensures within { result.0 + result.1 ≤ self.now.extent.height + 1 }
        ensures cells { (c : GridCell) → Has self.now.members c → (result.0 ≤ c.row) × (c.row < result.0 + result.1) }
    {
        by_width!(&self.rows, rows => span(rows))
    }

    /// Returns whether a cell lies in the first or last row or column of the grid.
    pub fn is_at_edge(&self) -> bool
        ensures { MatchBool result ((c : GridCell) × Has self.now.members c × IsAtEdge self.now.extent c)
            ((c : GridCell) → Has self.now.members c → IsAtEdge self.now.extent c → ⊥) }
    {
        by_width!(&self.rows, rows => is_at_edge(rows, self.shape))
    }

    /// Returns which of the cells around a cell of the grid are in the rows.
    #[inline(always)]
    pub fn ring(&self, cell: Cell) -> Ring
        requires { IsOn self.now.extent cell }
        ensures { IsRing (Has self.now.members) cell result }
    {
        let (row, column) = (cell.row() as usize, cell.column() as usize);
        let around = by_width!(&self.rows, rows => read_around(rows, row, column));
        read_ring(&around)
    }

    /// Adds a cell of the grid.
    pub fn insert(&mut self, cell: Cell)
        requires { IsOn self.old.extent cell }
        ensures extent { self.new.extent ≡ self.old.extent }
        ensures members { (c : GridCell) → Has self.new.members c ↔ (Has self.old.members c ⊎ (c ≡ cell)) }
    {
        let (row, column) = (cell.row() as usize, cell.column() as usize);
        by_width!(&mut self.rows, rows => insert(&mut rows[row], column));
        if let Some(occupied) = &mut self.occupied {
            occupied.add(row);
        }
    }

    /// Removes a cell of the grid.
    pub fn remove(&mut self, cell: Cell)
        requires { IsOn self.old.extent cell }
        ensures extent { self.new.extent ≡ self.old.extent }
        ensures members { (c : GridCell) → Has self.new.members c ↔ (Has self.old.members c × (c ≡ cell → ⊥)) }
    {
        self.remove_row(cell.row(), cell.column() / 64, 1 << (cell.column() % 64));
    }

    /// Removes the cells of a row of the grid whose bits are set, numbered as in `CellSet::row`.
    pub fn remove_row(&mut self, row: u8, part: u8, bits: u64)
        requires { (row ≤ self.old.extent.height) × (64 * part ≤ self.old.extent.width) }
        ensures extent { self.new.extent ≡ self.old.extent }
        ensures members { (c : GridCell) → Has self.new.members c ↔ (Has self.old.members c × Lacks (cells_of_row row part bits) c) }
    {
        by_width!(&mut self.rows, rows => remove(&mut rows[row as usize], part as usize, bits));
    }

    /// Removes every cell.
    pub fn clear(&mut self)
        ensures extent { self.new.extent ≡ self.old.extent }
        ensures members { self.new.members ≡ set.empty }
    {
        by_width!(&mut self.rows, rows => clear(rows));
        self.occupied = Some(Worklist::none());
    }

    /// Replaces the cells by the cells of other rows.
    pub fn copy_from(&mut self, other: &Rows)
        requires { self.old.extent ≡ other.now.extent }
        ensures extent { self.new.extent ≡ self.old.extent }
        ensures members { self.new.members ≡ other.now.members }
    {
        by_one_width!(&mut self.rows, &other.rows, rows, others => rows.copy_from_slice(others));
        self.occupied = other.occupied;
    }

    /// Removes the cells that the other rows have.
    pub fn subtract(&mut self, other: &Rows)
        requires { self.old.extent ≡ other.now.extent }
        ensures extent { self.new.extent ≡ self.old.extent }
        ensures members { (c : GridCell) → Has self.new.members c ↔ (Has self.old.members c × (Has other.now.members c → ⊥)) }
    {
        by_one_width!(&mut self.rows, &other.rows, rows, others => subtract(rows, others));
    }

    /// Replaces the cells by all other cells of the grid.
    pub fn complement(&mut self)
        ensures extent { self.new.extent ≡ self.old.extent }
        ensures members { (c : GridCell) → Has self.new.members c ↔ (IsOn self.old.extent c × (Has self.old.members c → ⊥)) }
    {
        self.occupied = None;
        let width = self.shape.width() as usize;
        by_width!(&mut self.rows, rows => complement(rows, &columns(width)));
    }

    /// Replaces the cells by the members of a set.
    pub fn load<S: CellSet>(&mut self, cells: &S)
        requires extent { S.extent cells.now ≡ self.old.extent }
        ensures extent { self.new.extent ≡ self.old.extent }
        ensures members { self.new.members ≡ S.members cells.now }
    {
        self.occupied = None;
        // For the proof: the cells of a set lie on its grid.
        let _shape = cells.shape();
        by_width!(&mut self.rows, rows => load(cells, rows));
    }

    /// Adds the cells to a set.
    pub fn store<S: CellSet>(&self, into: &mut S)
        requires extent { S.extent into.old ≡ self.now.extent }
        ensures extent { S.extent into.new ≡ S.extent into.old }
        ensures members { S.members into.new ≡ set.union (S.members into.old) self.now.members }
    {
        by_width!(&self.rows, rows => store(rows, into));
    }

    /// Returns the cells as a set.
    pub fn to_set<S: CellSet>(&self, alloc: Global) -> Result<S, AllocError>
        ensures { IfOk result (λ s. (S.extent s ≡ self.now.extent) × (S.members s ≡ self.now.members)) }
    {
        let mut cells = S::new(alloc, self.shape())?;
        self.store(&mut cells);
        Ok(cells)
    }

    /// Adds every cell that a chain of steps reaches.
    pub fn grow<T: Step>(&mut self, free: &Rows)
        requires { self.old.extent ≡ free.now.extent }
        ensures extent { self.new.extent ≡ self.old.extent }
        ensures exact { (c : GridCell) → Has self.new.members c ↔ Reached (T.leads (set.contains free.now.members)) (Has self.old.members) c }
    {
        let queued = self.occupied();
        self.occupied = None;
        by_one_width!(&mut self.rows, &free.rows, rows, frees => grow::<T, _>(frees, rows, queued));
    }

    // Returns the rows that have a cell, and maybe others.
    fn occupied(&self) -> Worklist<4>
        ensures { AreRowsQueued self.now result.words }
    {
        match self.occupied {
            Some(rows) => rows,
            None => by_width!(&self.rows, rows => occupied(rows)),
        }
    }

    /// Returns whether no step leads out of the cells.
    pub fn is_closed<T: Step>(&self, alloc: Global, free: &Rows) -> Result<bool, AllocError>
        requires { self.now.extent ≡ free.now.extent }
        ensures { IfOk result (λ told. IsTrue told ↔ IsClosedUnder (T.leads (set.contains free.now.members)) (Has self.now.members)) }
    {
        let mut reached = Rows::new(alloc, self.shape())?;
        reached.copy_from(self);
        reached.grow::<T>(free);
        reached.subtract(self);
        Ok(reached.is_empty())
    }
}

// Returns whether the rows of a grid have one word.
fn is_narrow(shape: Shape) -> bool
    ensures narrow { result ≡ true → shape.width < 64 }
    ensures wide { result ≡ false → 64 ≤ shape.width }
{
    shape.width() < 64
}
