//! The search for an augmenting path: a breadth-first search over goals, whose steps are floods.
ghost use Rattle.std.specs.Prelude.{◌≡◌, ◌+◌, ◌*◌, ◌<◌, ◌≤◌, ℕ, List, Option, IfOk, IfSome, MatchOption, vec_capacity, length, false};
ghost use Rattle.std.specs.FinSet as set;
ghost use Rattle.cellset.specs.Cell.{IsOn};
ghost use Rattle.cellset.specs.CellSet.{Cells, Has};
ghost use Rattle.cellset.specs.declared.cell.Cell.{Cell as GridCell};
ghost use Rattle.reach.specs.Reached.{PushesTo};
ghost use Rattle.board.specs.Board.{IsWellFormed};
ghost use Rattle.board.specs.Game.{IsFloor};
ghost use Rattle.maker.specs.Matching.{ConfinesPaths, IsHallViolator};
ghost use Rattle.maker.specs.Search.{Pairs, IsReady, IsListing, AreListed, IsLonger, IsPaired, IsFurther, IsTraced, IsSearch, VisitsBox, IsFreeGoal, EndsPath, IsMatchingOf, cell_visited};
ghost use Rattle.maker.specs.Hub.{IsTableWithHubs};

use super::matching::Matching;
use board::Board;
use cellset::{Cell, CellSet};
use reach::Rows;
use reach::step::ByPush;
use std::alloc::{AllocError, Global};

/// A goal that a search visited. `via` is the index of the goal before it on the alternating path, or None if the first box can be
/// pushed to it.
#[derive(Clone, Copy)]
pub(super) struct Visit {
    pub(super) cell: Cell,
    pub(super) via: Option<usize>,
}

/// A search: the visited cells, the goals among them in the order in which they were found, and the goals that are left.
#[derive(Drop)]
pub(super) struct Search {
    pub(super) visited: Rows,
    pub(super) found: Vec<Visit>,
    pub(super) left: Rows,
    pub(super) goals: Rows,
}

impl Search {
    /// Returns a search that can begin.
    pub(super) fn new<S: CellSet>(alloc: Global, board: &Board<S>) -> Result<Search, AllocError>
        ensures { IfOk result (IsReady board.now) }
    {
        let shape = board.shape();
        let visited = Rows::new(alloc, shape)?;
        let found = Vec::with_capacity(alloc, board.goals().len())?;
        let left = Rows::new(alloc, shape)?;
        let mut goals = Rows::new(alloc, shape)?;
        goals.load(board.goals());
        Ok(Search {
            visited,
            found,
            left,
            goals,
        })
    }

    /// Looks for an augmenting path from a box, and returns the free goal at its end. If there is none, the visited cells are a Hall
    /// violator.
    pub(super) fn find_free_goal<S: CellSet>(
        &mut self,
        board: &Board<S>,
        matching: &mut Matching,
        start: Cell,
    ) -> Option<Visit>
        requires formed { IsWellFormed board.now }
        requires ready { IsReady board.now self.old }
        requires matching { IsTableWithHubs board.now matching.old }
        requires valid { (matched : Cells) × IsMatchingOf board.now matched matching.old.table.items }
        requires start { Has board.now.boxes start }
        ensures ready { IsReady board.now self.new }
        ensures matching { IsTableWithHubs board.now matching.new }
        ensures same { matching.new.table ≡ matching.old.table }
        ensures exact { MatchOption result
            (IsHallViolator board.now (Pairs board.now.shape matching.old.table.items) start self.new.visited.members)
            (EndsPath board.now matching.old.table.items start self.new.found.items) }
    {
        self.visited.clear();
        self.found.clear();
        self.left.copy_from(&self.goals);
        self.visit_reach(board, start, None);
        if let Some(end) = self.end_of_path(board, matching, 0) {
            return Some(end);
        }
        let mut at = 0;
        while at < self.found.len() {
            let known = self.found.len();
            self.visit_matched(board, matching, at);
            if let Some(end) = self.end_of_path(board, matching, known) {
                return Some(end);
            }
            at += 1;
        }
        None
    }

    // Visits the reach of the box that is matched to a goal.
    fn visit_matched<S: CellSet>(&mut self, board: &Board<S>, matching: &Matching, at: usize)
        requires ready { IsReady board.now self.old }
        requires listing { IsListing board.now self.old }
        requires matching { IsTableWithHubs board.now matching.now }
        requires boxes { (g b : GridCell) → Pairs board.now.shape matching.now.table.items g b → IsFloor board.now b }
        requires at { at < length self.old.found.items }
        requires paired { IsPaired board.now.shape matching.now.table.items (cell_visited self.old.found.items at) }
        ensures ready { IsReady board.now self.new }
        ensures listing { IsListing board.now self.new }
        ensures further { IsFurther self.old self.new }
        ensures here { (b : GridCell) → Pairs board.now.shape matching.now.table.items (cell_visited self.old.found.items at) b
            → Has self.new.visited.members b }
        ensures search { (start : GridCell) → IsSearch board.now matching.now.table.items start self.old
            → IsSearch board.now matching.now.table.items start self.new }
    {
        if let Some(cell) = matching.table[board.shape().index_of(self.found[at].cell)] {
            self.visit_reach(board, cell, Some(at));
        }
    }

    // Visits the cells to which a box can be pushed, and lists the goals among them.
    fn visit_reach<S: CellSet>(&mut self, board: &Board<S>, cell: Cell, via: Option<usize>)
        requires ready { IsReady board.now self.old }
        requires listing { IsListing board.now self.old }
        requires floor { IsFloor board.now cell }
        ensures ready { IsReady board.now self.new }
        ensures listing { IsListing board.now self.new }
        ensures further { IsFurther self.old self.new }
        ensures here { Has self.new.visited.members cell }
        ensures search { VisitsBox board.now self.old cell via self.new }
    {
        let leads_on = leads_on(board.room_rows(), &self.visited, cell);
        self.visited.insert(cell);
        if leads_on || self.left.has(cell) {
            self.visited.grow::<ByPush>(board.room_rows());
            self.list_goals(via);
        }
    }

    // Lists the goals that are visited and left.
    fn list_goals(&mut self, via: Option<usize>)
        requires extent { self.old.left.extent ≡ self.old.visited.extent }
        requires on { (c : GridCell) → Has self.old.visited.members c → IsOn self.old.visited.extent c }
        requires space { length self.old.found.items + set.len self.old.left.members ≤ vec_capacity self.old.found }
        ensures extent { self.new.left.extent ≡ self.old.left.extent }
        ensures same { (self.new.visited ≡ self.old.visited) × (self.new.goals ≡ self.old.goals) }
        ensures capacity { vec_capacity self.new.found ≡ vec_capacity self.old.found }
        ensures none { (c : GridCell) → Has self.old.visited.members c → Has self.new.left.members c → ⊥ }
        ensures kept { (c : GridCell) → Has self.new.left.members c → Has self.old.left.members c }
        ensures listed { (goals : Cells) → AreListed goals self.old.found.items self.old.left.members
            → AreListed goals self.new.found.items self.new.left.members }
        ensures longer { IsLonger self.old.visited.members self.old.left.members via self.old.found.items self.new.found.items }
    {
        for row in 1..self.left.shape().height() as u16 + 1 {
            while let Some(cell) = common_cell_of_row(&self.visited, &self.left, row as u8) {
                self.left.remove(cell);
                self.found.push_reserved(Visit { cell, via });
            }
        }
    }

    // Returns the end of an augmenting path by one of the goals from an index on, if there is one: such a goal if it is free, or a goal
    // to which the box matched to it can be pushed by way of a hub.
    fn end_of_path<S: CellSet>(
        &self,
        board: &Board<S>,
        matching: &mut Matching,
        from: usize,
    ) -> Option<Visit>
        requires matching { IsTableWithHubs board.now matching.old }
        requires on { (i : ℕ) → i < length self.now.found.items → IsOn board.now.shape (cell_visited self.now.found.items i) }
        requires goals { (i : ℕ) → i < length self.now.found.items → Has board.now.goals (cell_visited self.now.found.items i) }
        ensures matching { IsTableWithHubs board.now matching.new }
        ensures same { matching.new.table ≡ matching.old.table }
        ensures exact { MatchOption result
            ((i : ℕ) → from ≤ i → i < length self.now.found.items
            → IsPaired board.now.shape matching.old.table.items (cell_visited self.now.found.items i))
            (λ end. IsFreeGoal board.now matching.old.table.items end.cell) }
        ensures traced { IfSome result (λ end. (start : GridCell) → IsSearch board.now matching.old.table.items start self.now
            → IsTraced board.now matching.old.table.items start self.now.found.items (length self.now.found.items) end.cell end.via) }
    {
        for k in from..self.found.len() {
            let goal = self.found[k];
            let Some(matched) = matching.table[board.shape().index_of(goal.cell)] else {
                return Some(goal);
            };
            if let Some(cell) = matching.goal_by_hub(board, matched) {
                return Some(Visit { cell, via: Some(k) });
            }
        }
        None
    }
}

// Returns whether a push leads from a cell to one that wasn't visited.
fn leads_on(room: &Rows, visited: &Rows, cell: Cell) -> bool
    requires { IsOn room.now.extent cell × IsOn visited.now.extent cell }
    ensures { result ≡ false → (c : GridCell) → PushesTo (Has room.now.members) cell c → Has visited.now.members c }
{
    let free = room.ring(cell);
    let seen = visited.ring(cell);
    (free.left & free.right & !(seen.left & seen.right))
        | (free.up & free.down & !(seen.up & seen.down))
}

// Returns the first cell of a row that both have.
fn common_cell_of_row(cells: &Rows, others: &Rows, row: u8) -> Option<Cell>
    requires extent { others.now.extent ≡ cells.now.extent }
    requires on { (c : GridCell) → Has cells.now.members c → IsOn cells.now.extent c }
    requires row { row ≤ cells.now.extent.height }
    ensures { MatchOption result
        ((c : GridCell) → Has cells.now.members c → Has others.now.members c → c.row ≡ row → ⊥)
        (λ c. Has cells.now.members c × Has others.now.members c) }
{
    let shape = cells.shape();
    for part in 0..shape.width() / 64 + 1 {
        let bits = cells.row(row, part) & others.row(row, part);
        if bits != 0 {
            return shape.cell(64 * part as u16 + bits.trailing_zeros() as u16, row as u16);
        }
    }
    None
}
