//! The tables of an index: all that is kept of a list of patterns.
ghost use Rattle.std.specs.Prelude.{◌≡◌, ◌<◌, ◌↔◌, IfOk, IsTrue, MatchBool, MatchOption, length};
ghost use Rattle.cellset.specs.{Cell.IsOn, CellSet.Has, CellSet.Lacks, declared.cell.Cell.Cell as GridCell};
ghost use Rattle.certificates.specs.CellLists.{cells_in};
ghost use Rattle.certificates.specs.Pattern.{InPatternRegion, AreLawful};
ghost use Rattle.closure.specs.{Arena.list_in, GroupPushes.HasNoPush, GroupPushes.IsPushOf, GroupPushes.IsPushedBox, GroupPushes.pushed_cell};
ghost use Rattle.closure.specs.{Trap.AreOff, Trap.IsTrapOf, Groups.boxes_of, Groups.position_at};
ghost use Rattle.closure.specs.Tables.{AreTables};

use crate::arena::Arena;
use crate::group_regions::{Regions, find_regions};
use crate::groups::{Groups, group};
use crate::trap::is_trapped;
use crate::ways::Ways;
use board::Board;
use cellset::{Cell, CellSet, Dir};
use certificates::number_of;
use reach::{Push, Rows};
use std::alloc::{AllocError, Global};

// A list of patterns on a board: its trap, its groups, and the regions of the groups without a box on the trap.
#[derive(Debug, Drop)]
pub(crate) struct Tables<'a, S: CellSet> {
    pub board: &'a Board<S>,
    pub trap: Rows,
    // Whether the trap has no cells, which is so for most lists of more than one box a line. Long ones save 3 % of their instructions by it.
    pub trapless: bool,
    pub groups: Groups,
    pub regions: Regions,
}

// A box of a group, by its number, and the ways in which it can be pushed.
#[derive(Clone, Copy)]
pub(crate) struct PushedBox<'a> {
    pub group: usize,
    pub boxes: &'a [Cell],
    pub number: usize,
    pub ways: Ways,
}

impl<'a, S: CellSet> Tables<'a, S> {
    // Builds the tables of a list of lawful patterns.
    pub(crate) fn build(
        alloc: Global,
        board: &'a Board<S>,
        arena: Arena,
        trap: Rows,
    ) -> Result<Tables<'a, S>, AllocError>
        requires lawful { AreLawful board.now (list_in arena) }
        requires trap { IsTrapOf board.now (list_in arena) trap }
        ensures same { IfOk result (λ k. k.groups.arena ≡ arena) }
        ensures level { IfOk result (λ k. k.board.now ≡ board.now) }
        ensures trap { IfOk result (λ k. k.trap ≡ trap) }
        ensures tables { IfOk result AreTables }
    {
        // For the proof: the board is well formed.
        let _shape = board.shape();
        let groups = group(alloc, arena)?;
        let Ok(regions) = find_regions(alloc, board, &groups, &trap) else {
            drop(groups);
            drop(trap);
            return Err(AllocError);
        };
        Ok(Tables {
            board,
            trapless: trap.is_empty(),
            trap,
            groups,
            regions,
        })
    }

    // Returns whether a cell is on the trap.
    #[inline(always)]
    pub(crate) fn is_on_trap(&self, cell: Cell) -> bool
        requires { AreTables self.now }
        ensures { IsTrue result ↔ Has self.now.trap.members cell }
    {
        if self.trapless {
            return false;
        }
        self.trap.has(cell)
    }

    // Returns whether one of the boxes is on the trap.
    #[tactic(auto, using(crate::proofs::Traps::none_off))]
    pub(crate) fn is_trapped(&self, boxes: &[Cell]) -> bool
        requires { AreTables self.now }
        ensures { MatchBool result
            ((c : GridCell) × Has (cells_in boxes.now) c × Has self.now.trap.members c)
            (AreOff self.now.trap.members boxes.now) }
    {
        if self.trapless {
            return false;
        }
        is_trapped(boxes, &self.trap)
    }

    // Returns a box of a group, by its number, with its ways.
    #[inline(always)]
    pub(crate) fn pushed_box<'b>(
        &self,
        group: usize,
        boxes: &'b [Cell],
        number: usize,
    ) -> PushedBox<'b>
        requires tables { AreTables self.now }
        requires group { group < length self.now.groups.spans.items }
        requires boxes { boxes.now ≡ boxes_of self.now.groups group }
        requires number { number < length boxes.now }
        requires off { AreOff self.now.trap.members boxes.now }
        ensures is { IsPushedBox self.now result }
        ensures same { (result.group ≡ group) × (result.boxes.now ≡ boxes.now) × (result.number ≡ number) }
    {
        PushedBox {
            group,
            boxes,
            number,
            ways: self.regions.ways[self.groups.spans[group].from as usize + number],
        }
    }

    // Returns the push of a box in a direction, if it goes out of its group.
    #[inline(always)]
    pub(crate) fn push_of(&self, pushed: &PushedBox, dir: Dir) -> Option<Push>
        requires tables { AreTables self.now }
        requires pushed { IsPushedBox self.now pushed.now }
        ensures { MatchOption result
            (HasNoPush self.now.board.now (position_at self.now.board.now self.now.groups pushed.now.group) (pushed_cell pushed.now) dir)
            (IsPushOf self.now.board.now (position_at self.now.board.now self.now.groups pushed.now.group) (pushed_cell pushed.now) dir) }
    {
        if !pushed.ways.has(dir) {
            return None;
        }
        let shape = self.board.shape();
        let from = pushed.boxes[pushed.number];
        let Some(player) = shape.step(from, dir.opposite()) else {
            return None;
        };
        let Some(to) = shape.step(from, dir) else {
            return None;
        };
        Some(Push {
            player,
            dir,
            from,
            to,
        })
    }

    // Returns whether a cell is in the region of a group, if it is in the room and no box of the group.
    pub(crate) fn is_inside(&self, group: usize, cell: Cell) -> bool
        requires tables { AreTables self.now }
        requires group { group < length self.now.groups.spans.items }
        requires off { AreOff self.now.trap.members (boxes_of self.now.groups group) }
        requires cell { IsOn self.now.board.now.shape cell }
        ensures { Has self.now.board.now.room cell → Lacks (cells_in (boxes_of self.now.groups group)) cell
            → IsTrue result ↔ InPatternRegion self.now.board.now (position_at self.now.board.now self.now.groups group) cell }
    {
        self.regions.kept.has(self.regions.of[group], cell)
    }

    // Returns whether a cell of the room is in the region of a group.
    #[inline(always)]
    pub(crate) fn is_in_region(&self, group: usize, cell: Cell) -> bool
        requires tables { AreTables self.now }
        requires group { group < length self.now.groups.spans.items }
        requires off { AreOff self.now.trap.members (boxes_of self.now.groups group) }
        requires cell { IsOn self.now.board.now.shape cell }
        ensures { Has self.now.board.now.room cell
            → IsTrue result ↔ InPatternRegion self.now.board.now (position_at self.now.board.now self.now.groups group) cell }
    {
        if !self.is_inside(group, cell) {
            return false;
        }
        match number_of(self.groups.boxes(group), cell) {
            Some(_) => false,
            None => true,
        }
    }
}
