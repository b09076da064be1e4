//! A matching as a table, with hubs for the boxes that are still to be matched.
ghost use Rattle.std.specs.Prelude.{◌≡◌, ◌*◌, ◌<◌, ℕ, Some, None, IfOk, IfSome, MatchOption, slice_index_or};
ghost use Rattle.cellset.specs.Cell.{IsOn};
ghost use Rattle.cellset.specs.SortedList.{index};
ghost use Rattle.maker.specs.Matching.{InReach};
ghost use Rattle.maker.specs.Search.{HasEntries, EndsPath, IsFreeGoal, MatchesOneMore};
ghost use Rattle.maker.specs.Hub.{IsHub, IsTableWithHubs};

use super::hub::Hub;
use super::search::Visit;
use board::Board;
use cellset::{Cell, CellSet, Shape};
use reach::Rows;
use std::alloc::{AllocError, Global};

// The number of hubs. Boxes of that many corridors can take turns without searches.
const HUBS: usize = 4;

/// A matching of boxes and goals, and hubs.
#[derive(Drop)]
pub struct Matching {
    // The entry at the index of a goal is the box matched to the goal, or None.
    pub(super) table: Vec<Option<Cell>>,
    pub(super) hubs: Vec<Hub>,
    // The hub that moved longest ago.
    pub(super) oldest: usize,
}

impl Matching {
    /// Returns an empty matching, with one hub and others that serve no box.
    pub fn new<S: CellSet>(
        alloc: Global,
        board: &Board<S>,
        first: Hub,
    ) -> Result<Matching, AllocError>
        requires { IsHub board.now first }
        ensures matching { IfOk result (IsTableWithHubs board.now) }
        ensures unmatched { IfOk result (λ m. (k : ℕ) → slice_index_or m.table.items k None ≡ None) }
    {
        let shape = board.shape();
        let mut hubs = Vec::with_capacity(alloc, HUBS)?;
        hubs.push_reserved(first);
        while hubs.len() < HUBS {
            hubs.push_reserved(Hub::new(alloc, shape)?);
        }
        let table = vec![in alloc; None; shape.width() as usize * shape.height() as usize]?;
        Ok(Matching {
            table,
            hubs,
            oldest: 0,
        })
    }

    /// Returns a free goal to which a box can be pushed by way of a hub.
    pub fn goal_by_hub<S: CellSet>(&mut self, board: &Board<S>, cell: Cell) -> Option<Cell>
        requires { IsTableWithHubs board.now self.old }
        ensures matching { IsTableWithHubs board.now self.new }
        ensures same { self.new.table ≡ self.old.table }
        ensures exact { IfSome result (λ goal. IsFreeGoal board.now self.old.table.items goal × InReach board.now cell goal) }
    {
        for k in 0..self.hubs.len() {
            if let Some(goal) = self.hubs[k].goal_for(board, &self.table, cell) {
                return Some(goal);
            }
        }
        None
    }

    /// Moves the oldest hub to a cell of the reach of a box from which the box can be pushed to the goal.
    pub fn move_oldest_hub<S: CellSet>(&mut self, board: &Board<S>, reach: &Rows, goal: Cell)
        requires matching { IsTableWithHubs board.now self.old }
        requires reach { reach.now.extent ≡ board.now.shape }
        requires on { IsOn board.now.shape goal }
        ensures matching { IsTableWithHubs board.now self.new }
        ensures same { self.new.table ≡ self.old.table }
    {
        self.oldest = (self.oldest + 1) % self.hubs.len();
        self.hubs[self.oldest].move_between(board, reach, goal);
    }
}

/// Flips the augmenting path that ends at this free goal. It goes back from the end of the path: the free goal is matched to the box
/// whose pushes lead to it, the former goal of that box is then free, and so on, until the box `start` is matched.
pub(super) fn flip<S: CellSet>(
    board: &Board<S>,
    matching: &mut [Option<Cell>],
    found: &[Visit],
    end: Visit,
    start: Cell,
)
    requires entries { HasEntries board.now.shape matching.old }
    requires end { EndsPath board.now matching.old start found.now end }
    ensures entries { HasEntries board.now.shape matching.new }
    ensures valid { MatchesOneMore board.now matching.old start matching.new }
{
    let shape = board.shape();
    let mut freed = end;
    while let Some(via) = freed.via {
        matching[shape.index_of(freed.cell)] = matching[shape.index_of(found[via].cell)];
        freed = found[via];
    }
    matching[shape.index_of(freed.cell)] = Some(start);
}
