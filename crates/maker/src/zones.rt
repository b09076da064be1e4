//! Zones: bipartite matching of boxes and goals by augmenting paths (Kuhn's algorithm).
//!
//! A box can be matched to a goal in its reach, which is a goal to which it could be pushed if there were no other boxes. The boxes of
//! the start are matched in reading order. For each box a breadth-first search looks for an augmenting path. It floods the reach of the
//! box. If that has no free goal, it adds the reach of each box that is matched to a goal in it, and so on. If it comes to a free goal,
//! the path to that goal is flipped. If there is no such path, the cells that it visited are the zone, which is a Hall violator.
//!
//! That zone is the least one. The visited cells are closed, and each goal among them is matched to a box among them. The box of the
//! search is one more, so they hold more boxes than goals. Now take any closed set that holds more boxes than goals, counting the boxes
//! matched so far and the box of the search. A closed set holds the goal of each matched box in it. So it has at least as many goals
//! as matched boxes, and the set must hold the box of the search and exactly as many matched boxes as goals. The boxes matched to its
//! goals are then all inside. No alternating path of the search leaves such a set, so the set holds every visited cell.
//!
//! A hub spares most searches: it serves many boxes at the price of three floods. The first hub is at the first box. In most levels it
//! serves all boxes, so no closed set refutes the level. After each search the oldest hub moves to a cell between the box and its goal.
ghost use Rattle.std.specs.Prelude.{◌≡◌, ℕ, None, IfOk, IfSome, MatchBool, MatchOption, slice_index_or};
ghost use Rattle.cellset.specs.CellSet.{Cells, Has};
ghost use Rattle.maker.specs.Zones.{SomeZoneRefutes, IsLeastZone};
ghost use Rattle.maker.specs.Matching.{IsHallViolator};
ghost use Rattle.maker.specs.Search.{Pairs, IsReady, IsMatchingOf, MatchesOneMore};
ghost use Rattle.maker.specs.Hub.{IsTableWithHubs};

use board::Board;
use cellset::{Cell, CellSet, MembersOf};
use hub::Hub;
use matching::{Matching, flip};
use reach::Rows;
use search::Search;
use std::alloc::{AllocError, Global};

mod hub;
mod matching;
mod search;

/// Returns the least zone of a board, or None if no closed set of cells holds more boxes of the start than goals.
///
/// The boxes are matched in reading order, each to a goal in its reach. A box may be matched to another goal later. If no augmenting
/// path begins at a box, the zone is the set of cells that the search from that box visited. The cells of `scratch` and
/// `spare` don't matter.
pub fn least_zone<S: CellSet>(
    alloc: Global,
    board: &Board<S>,
    scratch: Rows,
    spare: Rows,
) -> Result<Option<Rows>, AllocError>
    requires { (scratch.extent ≡ board.now.shape) × (spare.extent ≡ board.now.shape) }
    ensures extent { IfOk result (λ zone. IfSome zone (λ z. z.extent ≡ board.now.shape)) }
    ensures exact { IfOk result (λ zone. MatchOption zone (SomeZoneRefutes board.now → ⊥) (λ z. IsLeastZone board.now z.members)) }
{
    // For most levels this hub decides, and no other memory is needed.
    let first = Hub::at_first_box(board, scratch, spare);
    if first.serves_all(board) {
        drop(first);
        return Ok(None);
    }
    let mut matching = Matching::new(alloc, board, first)?;
    let mut search = Search::new(alloc, board)?;
    let are_matched = match_all(board, &mut matching, &mut search);
    drop(matching);
    if are_matched {
        return Ok(None);
    }
    Ok(Some(search.visited))
}

// Matches each box to a goal, in reading order. Returns false if no augmenting path begins at some box. Then the visited cells are the
// least zone.
fn match_all<S: CellSet>(board: &Board<S>, matching: &mut Matching, search: &mut Search) -> bool
    requires ready { IsReady board.now search.old }
    requires matching { IsTableWithHubs board.now matching.old }
    requires unmatched { (k : ℕ) → slice_index_or matching.old.table.items k None ≡ None }
    ensures ready { IsReady board.now search.new }
    ensures exact { MatchBool result (SomeZoneRefutes board.now → ⊥) (IsLeastZone board.now search.new.visited.members) }
{
    for cell in MembersOf::new(board.boxes()) {
        if !match_box(board, matching, search, cell) {
            return false;
        }
    }
    true
}

// Matches one more box to a goal. Returns false if no augmenting path begins at it. Then the visited cells are a Hall violator.
fn match_box<S: CellSet>(
    board: &Board<S>,
    matching: &mut Matching,
    search: &mut Search,
    start: Cell,
) -> bool
    requires ready { IsReady board.now search.old }
    requires matching { IsTableWithHubs board.now matching.old }
    requires valid { (matched : Cells) × IsMatchingOf board.now matched matching.old.table.items }
    requires start { Has board.now.boxes start }
    ensures ready { IsReady board.now search.new }
    ensures matching { IsTableWithHubs board.now matching.new }
    ensures exact { MatchBool result (MatchesOneMore board.now matching.old.table.items start matching.new.table.items)
        (IsHallViolator board.now (Pairs board.now.shape matching.old.table.items) start search.new.visited.members) }
{
    let shape = board.shape();
    if let Some(goal) = matching.goal_by_hub(board, start) {
        matching.table[shape.index_of(goal)] = Some(start);
        return true;
    }
    let Some(end) = search.find_free_goal(board, matching, start) else {
        return false;
    };
    matching.move_oldest_hub(board, &search.visited, end.cell);
    flip(board, &mut matching.table, &search.found, end, start);
    true
}
