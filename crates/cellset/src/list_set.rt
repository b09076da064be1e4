//! A set of cells as a sorted list.
ghost use Rattle.std.specs.Prelude.{MatchResult};
ghost use Rattle.cellset.specs.SortedList.{IsSorted, IsFound, IsGap};

use crate::set::CellSet;
use crate::{Cell, Shape};
use std::alloc::{AllocError, Global};
use std::marker::Model;

/// A sorted list of cells, with room for every cell of the grid from the start.
///
/// Looking up a cell is a binary search. Adding or removing one moves the cells after it. Joining, comparing and copying
/// sets take one such step for each member.
#[derive(Debug, Drop)]
pub struct ListSet {
    shape: Shape,
    cells: Vec<Cell>,
}

impl Model for ListSet {
    ghost use Rattle.cellset.specs.CellSet.{CellsOn};
    ghost use Rattle.cellset.specs.Coding.{coded_cells_on};

    ghost Value = { CellsOn };

    ghost coded = { coded_cells_on };

    ghost use Rattle.cellset.specs.SortedList.{IsSortedOn, set_of};
    ghost use Rattle.std.specs.Prelude.{vec_capacity};

    ghost view = { λ a. record { extent = a.shape; members = set_of a.cells.items } };

    ghost invariant = { λ a. IsSortedOn a.shape a.cells.items (vec_capacity a.cells) };
}

impl CellSet for ListSet {
    ghost extent = { λ s. s.extent };

    ghost members = { λ s. s.members };

    #[tactic(auto, using(crate::proofs::SortedCells::empty_sorted))]
    fn new(alloc: Global, shape: Shape) -> Result<Self, AllocError> {
        let room = shape.width() as usize * shape.height() as usize;
        let cells = Vec::with_capacity(alloc, room)?;
        Ok(ListSet { shape, cells })
    }

    fn shape(&self) -> Shape {
        self.shape
    }

    #[tactic(auto, using(crate::proofs::SortedCells::found_or_lacks))]
    fn contains(&self, cell: Cell) -> bool {
        find(&self.cells, cell).is_ok()
    }

    fn insert(&mut self, cell: Cell) -> bool {
        let Err(at) = find(&self.cells, cell) else {
            return false;
        };
        if self.cells.insert(at, cell).is_err() {
            unreachable!()
        }
        true
    }

    fn remove(&mut self, cell: Cell) -> bool {
        let Ok(at) = find(&self.cells, cell) else {
            return false;
        };
        self.cells.remove(at);
        true
    }

    #[tactic(auto, using(crate::proofs::ReadingOrder::sorted_len))]
    fn len(&self) -> usize {
        self.cells.len()
    }

    #[tactic(auto, using(crate::proofs::SortedCells::empty_sorted))]
    fn clear(&mut self) {
        self.cells.clear();
    }

    #[tactic(auto, using(crate::proofs::Members::empty_within, crate::proofs::CellLists::subset_more))]
    fn is_subset(&self, other: &Self) -> bool {
        let mut is_subset = true;
        for cell in &self.cells {
            is_subset &= other.contains(*cell);
        }
        is_subset
    }

    #[tactic(auto, using(crate::proofs::Members::union_empty, crate::proofs::Members::union_insert, crate::proofs::CellLists::set_more))]
    fn union_with(&mut self, other: &Self) {
        for cell in &other.cells {
            self.insert(*cell);
        }
    }

    #[tactic(auto, using(crate::proofs::Members::empty_union))]
    fn copy_from(&mut self, other: &Self) {
        self.clear();
        self.union_with(other);
    }

    #[tactic(auto, using(crate::proofs::SortedCells::first_found))]
    fn next_from(&self, cell: Cell) -> Option<Cell> {
        match find(&self.cells, cell) {
            Ok(_) => Some(cell),
            Err(at) => self.cells.get(at).copied(),
        }
    }
}

// Returns the index of a cell in a sorted list, or the index at which it belongs.
fn find(cells: &[Cell], cell: Cell) -> Result<usize, usize>
    requires { IsSorted cells.now }
    ensures { MatchResult result (IsFound cells.now cell) (IsGap cells.now cell) }
{
    cells.binary_search(&cell)
}
