//! The rows that are kept of regions.
//!
//! A region that lies in at most half of the rows of the grid is kept as it is, and another one by what it lacks of the free cells. Regions that
//! come one after the other are often the same, and then their rows are kept once.
ghost use Rattle.std.specs.Prelude.{◌≡◌, ◌+◌, ◌*◌, ◌<◌, ◌≤◌, ◌↔◌, ◌++◌, ℕ, List, length, IfOk, IsTrue, OnOk, slice_range};
ghost use Rattle.cellset.specs.{CellSet.Has, Cell.IsOn, declared.cell.Cell.Cell as GridCell};
ghost use Rattle.closure.specs.Kept.{AreKept, AreRowsIn, AreSpanned, AreWordsIn, InKept, IsThere, KeptHas, kept_bit, parts_of};

use crate::arena::to_u32;
use cellset::{Cell, Shape};
use reach::Rows;
use std::alloc::{AllocError, Global};

// What is kept of a region: the rows from the first to the last one, which begin at this number in the words. No row is kept if the last one
// comes before the first. If `lacks` holds, the rows have the free cells that the region lacks.
#[derive(Clone, Copy, Debug, PartialEq, Eq)]
pub(crate) struct Region {
    pub at: u32,
    pub first: u8,
    pub last: u8,
    pub lacks: bool,
}

// The rows of many regions.
#[derive(Debug, Drop)]
pub(crate) struct Kept {
    pub words: Vec<u64>,
    // How many words a row has.
    pub parts: u8,
    // Where the rows begin that were kept last.
    pub last: usize,
}

impl Kept {
    // Returns no rows.
    pub(crate) fn new(alloc: Global, shape: Shape) -> Kept
        ensures { AreKept shape result }
    {
        Kept {
            words: Vec::new(alloc),
            parts: shape.width() / 64 + 1,
            last: 0,
        }
    }

    // Keeps a region. What is free is lost.
    pub(crate) fn keep(&mut self, region: &Rows, free: &mut Rows) -> Result<Region, AllocError>
        requires kept { AreKept region.now.extent self.old }
        requires free { free.old.extent ≡ region.now.extent }
        ensures kept { OnOk result (AreKept region.now.extent self.new) }
        ensures grown { OnOk result ((more : List ℕ) × (self.new.words.items ≡ self.old.words.items ++ more)) }
        ensures there { IfOk result (IsThere self.new) }
        ensures exact { IfOk result (λ r. (c : GridCell) → Has free.old.members c → IsOn region.now.extent c
            → KeptHas self.new r c ↔ Has region.now.members c) }
        ensures extent { free.new.extent ≡ free.old.extent }
    {
        let (first, rows) = region.span();
        if rows <= region.shape().height() as usize / 2 {
            return self.add(region, first, rows, false);
        }
        free.subtract(region);
        let (first, rows) = free.span();
        self.add(free, first, rows, true)
    }

    // Keeps some rows, which have all of the cells.
    fn add(
        &mut self,
        cells: &Rows,
        first: usize,
        rows: usize,
        lacks: bool,
    ) -> Result<Region, AllocError>
        requires kept { AreKept cells.now.extent self.old }
        requires within { first + rows ≤ cells.now.extent.height + 1 }
        requires all { AreSpanned cells.now.members first rows }
        ensures kept { OnOk result (AreKept cells.now.extent self.new) }
        ensures grown { OnOk result ((more : List ℕ) × (self.new.words.items ≡ self.old.words.items ++ more)) }
        ensures there { IfOk result (IsThere self.new) }
        ensures lacks { IfOk result (λ r. r.lacks ≡ lacks) }
        ensures exact { IfOk result (λ r. (c : GridCell) → IsOn cells.now.extent c → InKept self.new r c ↔ Has cells.now.members c) }
    {
        // For the proof: the number of a row fits in a byte.
        let _shape = cells.shape();
        if rows == 0 {
            return Ok(no_rows(lacks));
        }
        let at = self.words.len();
        add_rows(cells, first, rows, self.parts, &mut self.words)?;
        if is_repeated(&self.words, self.last, at) {
            self.words.truncate(at);
        } else {
            self.last = at;
        }
        Ok(Region {
            at: to_u32(self.last)?,
            first: first as u8,
            last: (first + rows - 1) as u8,
            lacks,
        })
    }

    // Returns whether a free cell is in a region.
    pub(crate) fn has(&self, region: Region, cell: Cell) -> bool
        requires there { IsThere self.now region }
        requires column { cell.column < 64 * self.now.parts }
        ensures { IsTrue result ↔ KeptHas self.now region cell }
    {
        let kept = self.is_kept(region, cell);
        if region.lacks { !kept } else { kept }
    }

    // Returns whether a cell is in the rows of a region.
    fn is_kept(&self, region: Region, cell: Cell) -> bool
        requires there { IsThere self.now region }
        requires column { cell.column < 64 * self.now.parts }
        ensures { IsTrue result ↔ InKept self.now region cell }
    {
        if cell.row() < region.first {
            return false;
        }
        if region.last < cell.row() {
            return false;
        }
        self.bit(region, cell)
    }

    // Returns the bit of a cell in the rows of a region.
    fn bit(&self, region: Region, cell: Cell) -> bool
        requires there { IsThere self.now region }
        requires column { cell.column < 64 * self.now.parts }
        requires row { (region.first ≤ cell.row) × (cell.row ≤ region.last) }
        ensures { result ≡ kept_bit self.now region cell }
    {
        let row = (cell.row() - region.first) as usize;
        let word = row * self.parts as usize + (cell.column() / 64) as usize;
        self.words[region.at as usize + word] >> (cell.column() % 64) & 1 == 1
    }
}

// Returns a region of which no row is kept.
pub(crate) fn no_rows(lacks: bool) -> Region
    ensures lacks { result.lacks ≡ lacks }
    ensures none { result.last < result.first }
    ensures begin { result.at ≡ 0 }
{
    Region {
        at: 0,
        first: 1,
        last: 0,
        lacks,
    }
}

// Adds the words of some rows.
fn add_rows(
    cells: &Rows,
    first: usize,
    rows: usize,
    parts: u8,
    words: &mut Vec<u64>,
) -> Result<(), AllocError>
    requires parts { parts ≡ parts_of cells.now.extent }
    requires within { first + rows ≤ cells.now.extent.height + 1 }
    ensures { OnOk result ((more : List ℕ) × (words.new.items ≡ words.old.items ++ more) × (length more ≡ rows * parts)
        × AreRowsIn cells.now.members first rows parts more) }
{
    // For the proof: the number of a row fits in a byte.
    let _shape = cells.shape();
    for number in 0..rows {
        add_row(cells, (first + number) as u8, parts, words)?;
    }
    Ok(())
}

// Adds the words of a row.
fn add_row(cells: &Rows, row: u8, parts: u8, words: &mut Vec<u64>) -> Result<(), AllocError>
    requires parts { parts ≡ parts_of cells.now.extent }
    requires row { row ≤ cells.now.extent.height }
    ensures { OnOk result ((more : List ℕ) × (words.new.items ≡ words.old.items ++ more) × (length more ≡ parts)
        × AreWordsIn cells.now.members row parts more) }
{
    for part in 0..parts {
        words.push(cells.row(row, part))?;
    }
    Ok(())
}

// Returns whether the words from a number on are the same as those that end there and begin at another one.
fn is_repeated(words: &[u64], last: usize, at: usize) -> bool
    requires last { last ≤ at }
    requires at { at ≤ length words.now }
    ensures { IsTrue result → slice_range words.now last at ≡ slice_range words.now at (length words.now) }
{
    words[last..at] == words[at..]
}
