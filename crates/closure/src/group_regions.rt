//! The regions of the groups.
//!
//! For each group one flood of the room without its boxes finds its region. If the boxes part nothing, or a line says `*`, the region is
//! all that is free, and nothing is flooded. The rows of the region are kept (`kept`), and in which directions the boxes can be pushed.
ghost use Rattle.std.specs.Prelude.{◌≡◌, ◌+◌, ◌++◌, ◌<◌, ◌≤◌, ◌↔◌, ◌⊎◌, ℕ, List, cond, length, slice_index_or, IfOk, IsTrue, MatchBool, OnOk};
ghost use Rattle.std.specs.FinSet as set;
ghost use Rattle.cellset.specs.{Cell.IsOn, CellSet.Has, CellSet.Lacks, declared.cell.Cell.Cell as GridCell};
ghost use Rattle.certificates.specs.CellLists.{cell_no, cells_in};
ghost use Rattle.certificates.specs.Pattern.{AreLawful};
ghost use Rattle.closure.specs.{Around.AreSidesJoined, Around.IsFlooded, Around.IsOneComponent, GroupRegions.AreRegions, GroupRegions.no_ways};
ghost use Rattle.reach.specs.Region.{Joined};
ghost use Rattle.board.specs.{Board.IsWellFormed, Game.Level};
ghost use Rattle.certificates.specs.Pattern.{InPatternRegion, IsLawful};
ghost use Rattle.closure.specs.{Arena.pattern_in, Component.InComponent, Component.IsFreeOf};
ghost use Rattle.closure.specs.Groups.{HasSeedsFrom, HasSeedsOnly, HasStar, IsGrouped, list_of};
ghost use Rattle.closure.specs.Kept.{AreKept, IsThere, KeptHas};
ghost use Rattle.closure.specs.Ways.{AreWays};

use crate::arena::CellPattern;
use crate::groups::Groups;
use crate::kept::{Kept, Region, no_rows};
use crate::trap::is_trapped;
use crate::ways::Ways;
use board::Board;
use cellset::{Cell, CellSet, Shape};
use reach::Rows;
use reach::step::ByWalk;
use std::alloc::{AllocError, Global};

// The regions of all groups.
#[derive(Debug, Drop)]
pub(crate) struct Regions {
    // By box in the vector of all boxes, in which directions it can be pushed out of its group.
    pub ways: Vec<Ways>,
    pub of: Vec<Region>,
    pub kept: Kept,
}

// The rows of a flood: the free cells and the region. If `whole` holds, the free cells are in one component.
#[derive(Debug, Drop)]
pub(crate) struct Flood {
    pub free: Rows,
    pub region: Rows,
    pub whole: bool,
}

// Finds the region of each group without a box on the trap, one flood for each.
pub(crate) fn find_regions<S: CellSet>(
    alloc: Global,
    board: &Board<S>,
    groups: &Groups,
    trap: &Rows,
) -> Result<Regions, AllocError>
    requires lawful { AreLawful board.now (list_of groups.now) }
    requires groups { IsGrouped groups.now }
    ensures { IfOk result (AreRegions board.now trap.now.members groups.now) }
{
    let room = board.room_rows();
    let trapless = trap.is_empty();
    let mut ways = vec![in alloc; Ways::default(); groups.arena.boxes.len()]?;
    let mut of = Vec::with_capacity(alloc, groups.spans.len())?;
    let mut kept = Kept::new(alloc, board.shape());
    let mut flood = Flood::new(alloc, board.shape())?;
    for group in 0..groups.spans.len() {
        let boxes = groups.boxes(group);
        if !trapless && is_trapped(boxes, trap) {
            of.push_reserved(no_rows(true));
            continue;
        }
        flood.take_out(room, boxes);
        let whole = flood.find_region(groups, group);
        let from = groups.spans[group].from as usize;
        flood.note_ways(whole, boxes, from, &mut ways);
        of.push_reserved(flood.keep(whole, &mut kept)?);
    }
    drop(flood);
    Ok(Regions { ways, of, kept })
}

impl Flood {
    // Returns a flood for rows on the grid of this shape.
    pub(crate) fn new(alloc: Global, shape: Shape) -> Result<Flood, AllocError>
        ensures { IfOk result (λ f. (f.free.extent ≡ shape) × (f.region.extent ≡ shape)) }
    {
        Ok(Flood {
            free: Rows::new(alloc, shape)?,
            region: Rows::new(alloc, shape)?,
            whole: true,
        })
    }

    // Makes the room without the boxes free, and notes whether it is surely in one component.
    #[tactic(auto, using(certificates::proofs::CellLists::over_cells))]
    pub(crate) fn take_out(&mut self, room: &Rows, boxes: &[Cell])
        requires room { room.now.extent ≡ self.old.free.extent }
        requires on { (c : GridCell) → Has room.now.members c ⊎ Has (cells_in boxes.now) c → IsOn self.old.free.extent c }
        requires whole { IsOneComponent (Has room.now.members) }
        ensures same { (self.new.free.extent ≡ self.old.free.extent) × (self.new.region ≡ self.old.region) }
        ensures free { (c : GridCell) → Has self.new.free.members c ↔ (Has room.now.members c × Lacks (cells_in boxes.now) c) }
        ensures whole { IsTrue self.new.whole → IsOneComponent (Has self.new.free.members) }
    {
        self.free.copy_from(room);
        self.whole = true;
        for cell in boxes {
            self.free.remove(*cell);
            self.whole = self.whole && self.are_sides_joined(*cell);
        }
    }

    // Returns whether the free cells around a cell join its free neighbours. If they don't, a longer way may.
    //
    // Going round the cell, each neighbour is linked to the next one by the corner between them, or not. One missing link is allowed.
    #[inline]
    fn are_sides_joined(&self, cell: Cell) -> bool
        requires cell { IsOn self.now.free.extent cell }
        requires free { (c : GridCell) → Has self.now.free.members c → IsOn self.now.free.extent c }
        ensures { IsTrue result → AreSidesJoined (Has self.now.free.members) cell }
    {
        let ring = self.free.ring(cell);
        let left = is_linked(ring.left, ring.left_up, ring.up);
        let up = is_linked(ring.up, ring.up_right, ring.right);
        let right = is_linked(ring.right, ring.right_down, ring.down);
        let down = is_linked(ring.down, ring.down_left, ring.left);
        left & up & (right | down) | (left | up) & right & down
    }

    // Finds the region of a group. If it returns true, the region is all that is free, and the rows of the region aren't filled.
    fn find_region(&mut self, groups: &Groups, group: usize) -> bool
        requires region { self.old.region.extent ≡ self.old.free.extent }
        requires on { (c : GridCell) → Has self.old.free.members c → IsOn self.old.free.extent c }
        requires whole { IsTrue self.old.whole → IsOneComponent (Has self.old.free.members) }
        requires group { group < length groups.now.spans.items }
        requires groups { IsGrouped groups.now }
        ensures same { (self.new.free ≡ self.old.free) × (self.new.region.extent ≡ self.old.region.extent) }
        ensures exact { MatchBool result (IsFlooded groups.now group self.old.free.members self.old.free.members)
            (IsFlooded groups.now group self.old.free.members self.new.region.members) }
    {
        self.region.clear();
        if !seed(groups, group, &self.free, &mut self.region) {
            return true;
        }
        if self.whole && !self.region.is_empty() {
            return true;
        }
        self.region.grow::<ByWalk>(&self.free);
        false
    }

    // Finds the component of a player among the free cells.
    pub(crate) fn find_component(&mut self, player: Cell)
        requires region { self.old.region.extent ≡ self.old.free.extent }
        requires player { Has self.old.free.members player }
        requires on { (c : GridCell) → Has self.old.free.members c → IsOn self.old.free.extent c }
        requires whole { IsTrue self.old.whole → IsOneComponent (Has self.old.free.members) }
        ensures same { (self.new.free ≡ self.old.free) × (self.new.whole ≡ self.old.whole) × (self.new.region.extent ≡ self.old.region.extent) }
        ensures player { InComponent self.new player }
        ensures component { (c : GridCell) → InComponent self.new c → Joined (Has self.old.free.members) (λ seed. seed ≡ player) c }
    {
        if self.whole {
            return;
        }
        self.region.clear();
        self.region.insert(player);
        self.region.grow::<ByWalk>(&self.free);
    }

    // Returns whether a cell is in the component that was found.
    pub(crate) fn in_component(&self, cell: Cell) -> bool
        ensures { IsTrue result ↔ InComponent self.now cell }
    {
        if self.whole {
            return self.free.has(cell);
        }
        self.region.has(cell)
    }

    // Finds the region of a pattern of the boxes that were taken out. If it returns true, the region is all that is free.
    pub(crate) fn find_line(&mut self, pattern: CellPattern) -> bool
        requires region { self.old.region.extent ≡ self.old.free.extent }
        requires on { (c : GridCell) → Has self.old.free.members c → IsOn self.old.free.extent c }
        ensures same { (self.new.free ≡ self.old.free) × (self.new.region.extent ≡ self.old.region.extent) }
        ensures exact { (level : Level) → IsWellFormed level → IsLawful level (pattern_in pattern.entry) → IsFreeOf level (pattern_in pattern.entry).boxes self.old.free
            → (c : GridCell) → MatchBool result (Has self.new.free.members c) (Has self.new.region.members c) ↔ InPatternRegion level (pattern_in pattern.entry) c }
    {
        match pattern.seeds {
            None => true,
            Some(seeds) => {
                self.region.clear();
                add_seeds(seeds, &self.free, &mut self.region);
                self.region.grow::<ByWalk>(&self.free);
                false
            }
        }
    }

    // Keeps the region that was found: all that is free, or the rows of the region. What is free is lost.
    fn keep(&mut self, whole: bool, kept: &mut Kept) -> Result<Region, AllocError>
        requires kept { AreKept self.old.free.extent kept.old }
        requires region { self.old.region.extent ≡ self.old.free.extent }
        ensures extent { self.new.free.extent ≡ self.old.free.extent }
        ensures region { self.new.region ≡ self.old.region }
        ensures kept { OnOk result (AreKept self.old.free.extent kept.new) }
        ensures grown { OnOk result ((more : List ℕ) × (kept.new.words.items ≡ kept.old.words.items ++ more)) }
        ensures there { IfOk result (IsThere kept.new) }
        ensures exact { IfOk result (λ r. (c : GridCell) → Has self.old.free.members c → IsOn self.old.free.extent c
            → MatchBool whole (KeptHas kept.new r c) (KeptHas kept.new r c ↔ Has self.old.region.members c)) }
    {
        if whole {
            return Ok(no_rows(true));
        }
        kept.keep(&self.region, &mut self.free)
    }

    // Notes in which directions each box can be pushed by a player in the region that was found, in the entries from this one on.
    fn note_ways(&self, whole: bool, boxes: &[Cell], from: usize, ways: &mut Vec<Ways>)
        requires region { self.now.region.extent ≡ self.now.free.extent }
        requires boxes { (c : GridCell) → Has (cells_in boxes.now) c → IsOn self.now.free.extent c }
        requires room { from + length boxes.now ≤ length ways.old.items }
        ensures long { length ways.new.items ≡ length ways.old.items }
        ensures noted { (i : ℕ) → i < length boxes.now → AreWays (Has (cond whole self.now.free.members self.now.region.members))
            (Has self.now.free.members) (cell_no boxes.now i) (slice_index_or ways.new.items (from + i) no_ways) }
        ensures kept { (k : ℕ) → k < from → slice_index_or ways.new.items k no_ways ≡ slice_index_or ways.old.items k no_ways }
    {
        for number in 0..boxes.len() {
            ways[from + number] = self.ways_at(whole, boxes[number]);
        }
    }

    // Returns in which directions a box on a cell can be pushed by a player in the region that was found.
    #[inline]
    fn ways_at(&self, whole: bool, cell: Cell) -> Ways
        requires region { self.now.region.extent ≡ self.now.free.extent }
        requires cell { IsOn self.now.free.extent cell }
        ensures { AreWays (Has (cond whole self.now.free.members self.now.region.members)) (Has self.now.free.members) cell result }
    {
        let to = self.free.ring(cell);
        if whole {
            return Ways::between(to, to);
        }
        let by = self.region.ring(cell);
        Ways::between(by, to)
    }

    // Returns the region that was found: all that is free, or the rows of the region.
    pub(crate) fn found(&self, whole: bool) -> &Rows
        requires { self.now.region.extent ≡ self.now.free.extent }
        ensures extent { result.now.extent ≡ self.now.free.extent }
        ensures members { MatchBool whole (result.now.members ≡ self.now.free.members) (result.now.members ≡ self.now.region.members) }
    {
        if whole { &self.free } else { &self.region }
    }
}

// Returns whether a neighbour isn't free, or both the next neighbour and the corner between them are.
#[inline]
fn is_linked(side: bool, corner: bool, next: bool) -> bool
    ensures { IsTrue result → IsTrue side → IsTrue next × IsTrue corner }
{
    !side | corner & next
}

// Adds the free seeds of each line of a group to the empty region, unless one of them says `*`.
fn seed(groups: &Groups, group: usize, free: &Rows, region: &mut Rows) -> bool
    requires free { (c : GridCell) → Has free.now.members c → IsOn free.now.extent c }
    requires extent { region.old.extent ≡ free.now.extent }
    requires none { region.old.members ≡ set.empty }
    requires group { group < length groups.now.spans.items }
    requires groups { IsGrouped groups.now }
    ensures extent { region.new.extent ≡ free.now.extent }
    ensures only { HasSeedsOnly (Has free.now.members) (Has region.new.members) groups.now group }
    ensures found { MatchBool result
        (HasSeedsFrom (Has free.now.members) (Has region.new.members) groups.now group 0)
        (HasStar groups.now group) }
{
    let mut at = groups.chains.first[group] as usize;
    while at > 0 {
        let Some(seeds) = groups.arena.pattern(at - 1).seeds else {
            return false;
        };
        add_seeds(seeds, free, region);
        at = groups.chains.next[at - 1] as usize;
    }
    true
}

// Adds the seeds that are free to the region.
#[tactic(auto, using(certificates::proofs::CellLists::over_cells, cellset::proofs::Members::inserted, cellset::proofs::Members::kept_by_insert))]
fn add_seeds(seeds: &[Cell], free: &Rows, region: &mut Rows)
    requires free { (c : GridCell) → Has free.now.members c → IsOn free.now.extent c }
    requires extent { region.old.extent ≡ free.now.extent }
    ensures extent { region.new.extent ≡ free.now.extent }
    ensures cells { (c : GridCell) → Has region.new.members c
        ↔ (Has region.old.members c ⊎ (Has (cells_in seeds.now) c × Has free.now.members c)) }
{
    for seed in seeds {
        if free.has(*seed) {
            region.insert(*seed);
        }
    }
}
