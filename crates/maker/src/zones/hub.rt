//! A hub: a cell to which many boxes can be pushed, and from which they can be pushed on to goals.
//!
//! A flood by pulls finds the cells from which a box can be pushed to the hub. A flood by pushes finds the cells to which a box can be
//! pushed from there. So a box on one of the former cells can be matched to any free goal on one of the latter, without a search.
ghost use Rattle.std.specs.Prelude.{◌≡◌, ◌↔◌, List, Option, None, true, IfOk, IfSome, IsTrue, slice_index_or};
ghost use Rattle.std.specs.FinSet as set;
ghost use Rattle.cellset.specs.{Cell.IsOn, CellSet.Cells, CellSet.Has, SortedList.index, declared.cell.Cell.Cell as GridCell};
ghost use Rattle.reach.specs.Reached.{Reached};
ghost use Rattle.board.specs.Game.{Level};
ghost use Rattle.maker.specs.{Hub.IsHub, Matching.InReach, Search.HasEntries, Search.IsFreeGoal, Zones.SomeZoneRefutes};

use board::Board;
use cellset::{Cell, CellSet, MembersOf, Shape};
use reach::Rows;
use reach::step::{ByPull, ByPush, Step};
use std::alloc::{AllocError, Global};

/// A hub: the cells from which a box can be pushed to it, and the cells to which one can be pushed from it.
#[derive(Drop)]
pub struct Hub {
    pub(super) sources: Rows,
    pub(super) targets: Rows,
    // No free goal of the targets comes before this cell.
    pub(super) from: Option<Cell>,
}

impl Hub {
    /// Returns a hub without sources and targets.
    pub fn new(alloc: Global, shape: Shape) -> Result<Hub, AllocError>
        ensures { IfOk result (λ hub. (level : Level) → level.shape ≡ shape → IsHub level hub) }
    {
        let sources = Rows::new(alloc, shape)?;
        let targets = Rows::new(alloc, shape)?;
        Ok(Hub {
            sources,
            targets,
            from: None,
        })
    }

    /// Returns a hub at the first box. The cells of the rows don't matter.
    pub fn at_first_box<S: CellSet>(board: &Board<S>, sources: Rows, targets: Rows) -> Hub
        requires { (sources.extent ≡ board.now.shape) × (targets.extent ≡ board.now.shape) }
        ensures { IsHub board.now result }
    {
        let mut hub = Hub {
            sources,
            targets,
            from: None,
        };
        match first_of(board.boxes()) {
            Some(cell) => hub.move_to(board, cell),
            None => hub.sources.clear(),
        }
        hub
    }

    /// Returns true only if each box can be pushed to the hub and on to each goal, and there are enough goals.
    pub fn serves_all<S: CellSet>(&self, board: &Board<S>) -> bool
        requires { IsHub board.now self.now }
        ensures { IsTrue result → SomeZoneRefutes board.now → ⊥ }
    {
        if board.boxes().len() > board.goals().len() {
            return false;
        }
        if !have_all(&self.targets, board.goals()) {
            return false;
        }
        have_all(&self.sources, board.boxes())
    }

    /// Returns the first free goal to which a box can be pushed by way of the hub.
    pub fn goal_for<S: CellSet>(
        &mut self,
        board: &Board<S>,
        table: &[Option<Cell>],
        cell: Cell,
    ) -> Option<Cell>
        requires hub { IsHub board.now self.old }
        requires entries { HasEntries board.now.shape table.now }
        ensures hub { IsHub board.now self.new }
        ensures exact { IfSome result (λ goal. IsFreeGoal board.now table.now goal × InReach board.now cell goal) }
    {
        if !self.sources.has(cell) {
            return None;
        }
        self.from = next_free(board, table, &self.targets, self.from);
        self.from
    }

    /// Moves the hub to a cell of the reach of a box from which the box can be pushed to the goal.
    pub fn move_between<S: CellSet>(&mut self, board: &Board<S>, reach: &Rows, goal: Cell)
        requires hub { IsHub board.now self.old }
        requires reach { reach.now.extent ≡ board.now.shape }
        requires on { IsOn board.now.shape goal }
        ensures { IsHub board.now self.new }
    {
        flood::<ByPull>(&mut self.targets, board.room_rows(), goal);
        let between = common_cell(reach, &self.targets).unwrap_or(goal);
        self.move_to(board, between);
    }

    // Moves the hub to a cell.
    fn move_to<S: CellSet>(&mut self, board: &Board<S>, cell: Cell)
        requires extents { (self.old.sources.extent ≡ board.now.shape) × (self.old.targets.extent ≡ board.now.shape) }
        requires on { IsOn board.now.shape cell }
        ensures { IsHub board.now self.new }
    {
        let room = board.room_rows();
        flood::<ByPush>(&mut self.targets, room, cell);
        flood::<ByPull>(&mut self.sources, room, cell);
        self.from = board.shape().cell(1, 1);
    }
}

// Replaces the members of the rows by all cells that chains of steps from a cell reach.
fn flood<T: Step>(rows: &mut Rows, room: &Rows, cell: Cell)
    requires extent { rows.old.extent ≡ room.now.extent }
    requires on { IsOn rows.old.extent cell }
    ensures extent { rows.new.extent ≡ rows.old.extent }
    ensures exact { (seeds : Cells) × ((c : GridCell) → Has seeds c ↔ (c ≡ cell))
        × ((c : GridCell) → Has rows.new.members c ↔ Reached (T.leads (set.contains room.now.members)) (Has seeds) c) }
{
    rows.clear();
    rows.insert(cell);
    rows.grow::<T>(room);
}

// Returns the first cell of a set, in reading order.
fn first_of<S: CellSet>(cells: &S) -> Option<Cell>
    ensures { IfSome result (IsOn (S.extent cells.now)) }
{
    cells.next_from(cells.shape().cell(1, 1)?)
}

// Returns true only if the rows have every cell of a set.
fn have_all<S: CellSet>(rows: &Rows, cells: &S) -> bool
    ensures { IsTrue result → (c : GridCell) → Has (S.members cells.now) c → Has rows.now.members c }
{
    for cell in MembersOf::new(cells) {
        if !rows.has(cell) {
            return false;
        }
    }
    true
}

// Returns a cell that both have, in 64 columns of a row with the most of these cells.
fn common_cell(cells: &Rows, others: &Rows) -> Option<Cell>
    requires { others.now.extent ≡ cells.now.extent }
    ensures { IfSome result (IsOn cells.now.extent) }
{
    let shape = cells.shape();
    let mut most = 0;
    let mut found = None;
    for row in 1..shape.height() as u16 + 1 {
        for part in 0..shape.width() / 64 + 1 {
            let bits = cells.row(row as u8, part) & others.row(row as u8, part);
            if bits.count_ones() > most {
                most = bits.count_ones();
                found = shape.cell(64 * part as u16 + bits.trailing_zeros() as u16, row);
            }
        }
    }
    found
}

// Returns the first goal, in reading order from a cell on, that is in the rows and matched to no box.
fn next_free<S: CellSet>(
    board: &Board<S>,
    table: &[Option<Cell>],
    cells: &Rows,
    from: Option<Cell>,
) -> Option<Cell>
    requires entries { HasEntries board.now.shape table.now }
    requires on { IfSome from (IsOn board.now.shape) }
    ensures { IfSome result (λ goal. Has cells.now.members goal × IsFreeGoal board.now table.now goal) }
{
    let shape = board.shape();
    let mut from = from;
    while let Some(at) = from {
        let goal = board.goals().next_from(at)?;
        if is_free_in(cells, shape, table, goal) {
            return Some(goal);
        }
        from = shape.next(goal);
    }
    None
}

// Returns whether a goal is in the rows and matched to no box.
fn is_free_in(cells: &Rows, shape: Shape, table: &[Option<Cell>], goal: Cell) -> bool
    requires entries { HasEntries shape table.now }
    requires on { IsOn shape goal }
    ensures { result ≡ true → Has cells.now.members goal × (slice_index_or table.now (index shape goal) None ≡ None) }
{
    cells.has(goal) && table[shape.index_of(goal)].is_none()
}
