//! The pushes out of groups, and whether the trap and hints show that the list covers their results.
//!
//! After a push the player is on the cell that the pushed box left. So the group of just the boxes after the push covers the result exactly if
//! its region has that cell. Hints find such a group. Lookups settle the others (`settling`).
ghost use Rattle.std.specs.Prelude.{◌≡◌, ◌<◌, IsTrue, IfSome, length};
ghost use Rattle.cellset.specs.{CellSet.Has, CellSet.Lacks, declared.cell.Cell.Cell as GridCell};
ghost use Rattle.board.specs.Game.{moved};
ghost use Rattle.certificates.specs.CellLists.{cell_no, cells_in};
ghost use Rattle.certificates.specs.Pattern.{IsCovered, CoversPushesOf};
ghost use Rattle.closure.specs.{Run.state_after, Groups.list_of, Groups.position_at};
ghost use Rattle.closure.specs.GroupPushes.{AreNoted, CoversFrom, CoversToward, IsPushedBox, pushed_cell};
ghost use Rattle.closure.specs.{Tables.AreTables, Trap.AreOff};

use crate::hints::{TRIES, hash_of, hash_with, hash_without};
use crate::tables::{PushedBox, Tables};
use cellset::{Cell, CellSet, Dir};
use certificates::is_same;
use reach::Push;

// Notes the groups whose pushes the trap and hints settle.
pub(crate) fn note_hinted<S: CellSet>(tables: &Tables<S>, covered: &mut Vec<bool>)
    requires tables { AreTables tables.now }
    requires covered { AreNoted tables.now.board.now tables.now.groups covered.old.items }
    ensures { AreNoted tables.now.board.now tables.now.groups covered.new.items }
{
    for group in 0..tables.groups.spans.len() {
        covered[group] = are_pushes_hinted(tables, group);
    }
}

// Returns true only if the list covers each push out of a group.
fn are_pushes_hinted<S: CellSet>(tables: &Tables<S>, group: usize) -> bool
    requires tables { AreTables tables.now }
    requires group { group < length tables.now.groups.spans.items }
    ensures { IsTrue result → CoversPushesOf tables.now.board.now (list_of tables.now.groups) (position_at tables.now.board.now tables.now.groups group) }
{
    let boxes = tables.groups.boxes(group);
    if tables.is_trapped(boxes) {
        return true;
    }
    let hash = hash_of(boxes);
    for number in 0..boxes.len() {
        let pushed = tables.pushed_box(group, boxes, number);
        if pushed.ways.is_none() {
            continue;
        }
        let others = hash_without(hash, boxes[number]);
        if !is_hinted_each_way(tables, &pushed, others) {
            return false;
        }
    }
    true
}

// Returns true only if the list covers each push of a box out of its group.
fn is_hinted_each_way<S: CellSet>(tables: &Tables<S>, pushed: &PushedBox, others: usize) -> bool
    requires tables { AreTables tables.now }
    requires pushed { IsPushedBox tables.now pushed.now }
    requires off { AreOff tables.now.trap.members pushed.now.boxes.now }
    ensures { IsTrue result → CoversFrom tables.now.board.now (list_of tables.now.groups) (position_at tables.now.board.now tables.now.groups pushed.now.group) (pushed_cell pushed.now) }
{
    if !is_hinted_toward(tables, pushed, others, Dir::L) {
        return false;
    }
    if !is_hinted_toward(tables, pushed, others, Dir::U) {
        return false;
    }
    if !is_hinted_toward(tables, pushed, others, Dir::R) {
        return false;
    }
    is_hinted_toward(tables, pushed, others, Dir::D)
}

// Returns true only if the list covers the push of a box in a direction, or the push doesn't go out of its group.
//
// It and what it calls are inlined, so that the direction is a constant. Without that a list takes a tenth longer.
#[inline(always)]
fn is_hinted_toward<S: CellSet>(
    tables: &Tables<S>,
    pushed: &PushedBox,
    others: usize,
    dir: Dir,
) -> bool
    requires tables { AreTables tables.now }
    requires pushed { IsPushedBox tables.now pushed.now }
    requires off { AreOff tables.now.trap.members pushed.now.boxes.now }
    ensures { IsTrue result → CoversToward tables.now.board.now (list_of tables.now.groups) (position_at tables.now.board.now tables.now.groups pushed.now.group) (pushed_cell pushed.now) dir }
{
    let Some(push) = tables.push_of(pushed, dir) else {
        return true;
    };
    tables.is_on_trap(push.to) || is_hinted(tables, pushed.boxes, others, push)
}

// Returns the number of the first cell from a number on that is this one.
#[inline(always)]
fn number_from(cells: &[Cell], from: usize, cell: Cell) -> Option<usize>
    ensures { IfSome result (λ number. (number < length cells.now) × (cell_no cells.now number ≡ cell)) }
{
    for number in from..cells.len() {
        if is_same(cells[number], cell) {
            return Some(number);
        }
    }
    None
}

// Returns true only if these cells have boxes after a push, and none of them is the cell that the pushed box leaves. It tries boxes[number]
// first, because the lists usually differ in one box, and finds all boxes if both lists are in the same order. A search goes on where the last
// one ended: lines that agree in 1,500 boxes would take 2.8 s instead of 0.04 s if each search began anew.
fn are_after(after: &[Cell], boxes: &[Cell], push: Push) -> bool
    ensures there { IsTrue result → (c : GridCell) → Has (cells_in after.now) c → Has (moved (cells_in boxes.now) push.from push.to) c }
    ensures left { IsTrue result → Lacks (cells_in after.now) push.from }
{
    let mut passed = 0;
    for (number, at) in after.iter().enumerate() {
        if is_same(*at, push.from) {
            return false;
        }
        if is_same(*at, push.to) {
            continue;
        }
        if number >= boxes.len() || !is_same(boxes[number], *at) {
            let Some(found) = number_from(boxes, passed, *at) else {
                return false;
            };
            passed = found;
        }
    }
    true
}

// Returns true only if a group covers the result of a push.
#[tactic(auto, using(crate::proofs::Lists::length_more))]
#[inline(always)]
fn covers_after<S: CellSet>(tables: &Tables<S>, group: usize, boxes: &[Cell], push: Push) -> bool
    requires tables { AreTables tables.now }
    requires group { group < length tables.now.groups.spans.items }
    requires room { Has tables.now.board.now.room push.from }
    requires off { (c : GridCell) → Has (moved (cells_in boxes.now) push.from push.to) c → Lacks tables.now.trap.members c }
    ensures { IsTrue result → IsCovered tables.now.board.now (list_of tables.now.groups) (state_after (cells_in boxes.now) push) }
{
    are_after(tables.groups.boxes(group), boxes, push) && tables.is_inside(group, push.from)
}

// Returns whether a group that hints name covers the result of a push.
#[inline(always)]
fn is_hinted<S: CellSet>(tables: &Tables<S>, boxes: &[Cell], others: usize, push: Push) -> bool
    requires tables { AreTables tables.now }
    requires room { Has tables.now.board.now.room push.from }
    requires off { (c : GridCell) → Has (moved (cells_in boxes.now) push.from push.to) c → Lacks tables.now.trap.members c }
    ensures { IsTrue result → IsCovered tables.now.board.now (list_of tables.now.groups) (state_after (cells_in boxes.now) push) }
{
    let hash = hash_with(others, push.to);
    for turn in 0..TRIES {
        let Some(slot) = tables.groups.hints.slot(hash, turn) else {
            return false;
        };
        if let Some(group) = slot.group_for(hash) {
            if group < tables.groups.spans.len() && covers_after(tables, group, boxes, push) {
                return true;
            }
        }
    }
    false
}
