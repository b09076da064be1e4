//! The pushes out of a group that aren't settled, and which of them another group settles.
//!
//! A group covers the result of a push exactly if each of its boxes is there or is where the push leads, and its region has the cell that the
//! pushed box leaves. If the boxes are all there, the player of the push decides, who is beside that cell, and so do the other players of the
//! component. If the group covers them and is noted as covered itself, it settles all pushes from the component.
ghost use Rattle.std.specs.Prelude.{◌≡◌, ◌⊎◌, ◌<◌, ◌≤◌, false, MatchBool, OnOk, length};
ghost use Rattle.cellset.specs.{Cell.IsOn, CellSet.Has};
ghost use Rattle.std.specs.List.{Contains};
ghost use Rattle.reach.specs.declared.pushes.Push.{Push as OutPush};
ghost use Rattle.certificates.specs.CellLists.{cells_in};
ghost use Rattle.closure.specs.{Open.IsThat, GroupPushes.IsPushedBox, GroupPushes.pushed_cell, Groups.boxes_of, Place.IsSubset, Component.AreInComponent, Component.InComponent, Trap.AreOff};
ghost use Rattle.closure.specs.Settling.{AreOpen, CoversNone, CoversNoneToward, HasAsked, IsPlaceOf, IsPushOut, IsParted, IsSettled, IsSettling, IsTask, Misses};
ghost use Rattle.closure.specs.declared.unsettled.Missing.TheVariants.{One};

use crate::group_regions::Flood;
use crate::open::Open;
use crate::place::Place;
use crate::search::Search;
use crate::tables::PushedBox;
use crate::task::Task;
use cellset::{Cell, CellSet, Dir};
use certificates::is_same;
use reach::Rows;
use std::alloc::AllocError;

// The pushes that aren't settled, and the search for groups that settle them.
#[derive(Debug, Drop)]
pub(crate) struct Unsettled {
    // Those by players in components that weren't entered yet.
    pub away: Open,
    // Those by players in the component.
    pub here: Open,
    pub search: Search,
    // The groups found so far whose boxes are all there.
    pub inside: Vec<usize>,
    // The last group noted as covered that settled a component. It is asked first.
    pub last: usize,
}

// Which boxes of a group aren't there.
#[derive(Clone, Copy, Debug, PartialEq, Eq)]
pub(crate) enum Missing {
    Nothing,
    // The box on this cell.
    One(Cell),
    More,
}

impl Unsettled {
    // Opens the pushes out of a group, but those to the trap, and begins the search.
    pub(crate) fn begin<S: CellSet>(&mut self, task: &Task<S>) -> Result<(), AllocError>
        requires task { IsTask task.now }
        requires away { self.old.away.extent ≡ task.now.tables.now.board.now.shape }
        requires here { self.old.here.extent ≡ task.now.tables.now.board.now.shape }
        ensures settling { OnOk result ((buckets : _) → IsSettling task.now buckets self.new) }
        ensures all { OnOk result ((push : OutPush) → IsPushOut task.now push → Contains self.new.away.pushes push ⊎ IsSettled task.now push) }
    {
        self.away.clear();
        for number in 0..task.boxes.len() {
            let pushed = task.tables.pushed_box(task.group, task.boxes, number);
            self.open_toward(task, &pushed, Dir::L)?;
            self.open_toward(task, &pushed, Dir::U)?;
            self.open_toward(task, &pushed, Dir::R)?;
            self.open_toward(task, &pushed, Dir::D)?;
        }
        self.here.clear();
        self.inside.clear();
        self.search.begin(task, self.away.all())?;
        Ok(())
    }

    // Opens the push of a box in a direction, if it goes out of the group and not to the trap.
    fn open_toward<S: CellSet>(
        &mut self,
        task: &Task<S>,
        pushed: &PushedBox,
        dir: Dir,
    ) -> Result<(), AllocError>
        requires task { IsTask task.now }
        requires pushed { IsPushedBox task.now.tables.now pushed.now }
        requires group { pushed.now.group ≡ task.now.group }
        requires away { AreOpen task.now self.old.away }
        ensures away { OnOk result (AreOpen task.now self.new.away) }
        ensures kept { (push : OutPush) → Contains self.old.away.pushes push → Contains self.new.away.pushes push }
        ensures here { self.new.here ≡ self.old.here }
        ensures all { OnOk result ((push : OutPush) → IsPushOut task.now push → push.from ≡ pushed_cell pushed.now → push.dir ≡ dir
            → Contains self.new.away.pushes push ⊎ IsSettled task.now push) }
    {
        let Some(push) = task.tables.push_of(pushed, dir) else {
            return Ok(());
        };
        if task.tables.is_on_trap(push.to) {
            return Ok(());
        }
        self.away.add(push)?;
        Ok(())
    }

    // Makes the open pushes by players in a component those here.
    #[tactic(auto, using(crate::proofs::Taken::taken_only, crate::proofs::Taken::taken_kept))]
    pub(crate) fn enter(&mut self, flood: &Flood) -> Result<(), AllocError>
        requires { self.old.here.extent ≡ self.old.away.extent }
        ensures { OnOk result (IsParted (InComponent flood.now) self.old self.new) }
    {
        self.here.clear();
        let mut at = 0;
        while at < self.away.all().len() {
            if flood.in_component(self.away.all()[at].player) {
                let push = self.away.take_at(at);
                self.here.add(push)?;
            } else {
                at += 1;
            }
        }
        Ok(())
    }

    // Returns whether the boxes of a group are all there. If just one isn't there, settles the pushes that lead there and that the group covers.
    #[inline(always)]
    pub(crate) fn ask<S: CellSet>(&mut self, task: &Task<S>, boxes: &Rows, group: usize) -> bool
        requires task { IsTask task.now }
        requires boxes { boxes.now.members ≡ cells_in task.now.boxes.now }
        requires group { group < length task.now.tables.now.groups.spans.items }
        requires away { AreOpen task.now self.old.away }
        requires here { AreOpen task.now self.old.here }
        ensures asked { HasAsked task.now self.old self.new }
        ensures found { MatchBool result (IsSubset task.now.tables.now.groups (cells_in task.now.boxes.now) group)
            (CoversNone task.now group self.new.away.pushes × CoversNone task.now group self.new.here.pushes) }
    {
        let kept = task.tables.groups.boxes(group);
        match find_missing(kept, boxes) {
            Missing::Nothing => true,
            Missing::More => false,
            Missing::One(to) => {
                // What is kept of a group with a box on the trap isn't its region, and it covers none of these pushes.
                if !task.tables.is_trapped(kept) {
                    self.settle_ahead(task, group, to);
                }
                false
            }
        }
    }

    // Settles the open pushes to the one box of a group that isn't there whose results the group covers.
    #[inline(always)]
    fn settle_ahead<S: CellSet>(&mut self, task: &Task<S>, group: usize, to: Cell)
        requires task { IsTask task.now }
        requires group { group < length task.now.tables.now.groups.spans.items }
        requires off { AreOff task.now.tables.now.trap.members (boxes_of task.now.tables.now.groups group) }
        requires misses { Misses (boxes_of task.now.tables.now.groups group) (cells_in task.now.boxes.now) (One to) }
        requires away { AreOpen task.now self.old.away }
        requires here { AreOpen task.now self.old.here }
        ensures asked { HasAsked task.now self.old self.new }
        ensures away { CoversNone task.now group self.new.away.pushes }
        ensures here { CoversNone task.now group self.new.here.pushes }
    {
        self.settle_toward(task, group, to, Dir::L);
        self.settle_toward(task, group, to, Dir::U);
        self.settle_toward(task, group, to, Dir::R);
        self.settle_toward(task, group, to, Dir::D);
    }

    // Settles the push in a direction to the one box of a group that isn't there, if it is open and the group covers its result.
    #[inline(always)]
    fn settle_toward<S: CellSet>(&mut self, task: &Task<S>, group: usize, to: Cell, dir: Dir)
        requires task { IsTask task.now }
        requires group { group < length task.now.tables.now.groups.spans.items }
        requires off { AreOff task.now.tables.now.trap.members (boxes_of task.now.tables.now.groups group) }
        requires misses { Misses (boxes_of task.now.tables.now.groups group) (cells_in task.now.boxes.now) (One to) }
        requires away { AreOpen task.now self.old.away }
        requires here { AreOpen task.now self.old.here }
        ensures asked { HasAsked task.now self.old self.new }
        ensures away { CoversNoneToward task.now group dir self.new.away.pushes }
        ensures here { CoversNoneToward task.now group dir self.new.here.pushes }
    {
        let Some(from) = task.tables.board.shape().step(to, dir.opposite()) else {
            return;
        };
        if !self.is_open(from, dir) {
            return;
        }
        if !task.tables.is_in_region(group, from) {
            return;
        }
        self.here.take(from, dir);
        self.away.take(from, dir);
    }

    // Returns false only if the push of a box in a direction isn't open.
    #[inline(always)]
    fn is_open(&self, from: Cell, dir: Dir) -> bool
        requires away { IsOn self.now.away.extent from }
        requires here { IsOn self.now.here.extent from }
        ensures away { result ≡ false → (push : OutPush) → Contains self.now.away.pushes push → IsThat from dir push → ⊥ }
        ensures here { result ≡ false → (push : OutPush) → Contains self.now.here.pushes push → IsThat from dir push → ⊥ }
    {
        self.here.has(from, dir) || self.away.has(from, dir)
    }

    // Settles the pushes from the component that a group covers whose boxes are all there, or all of them if its own pushes are covered.
    pub(crate) fn settle_by<S: CellSet>(&mut self, task: &Task<S>, place: &mut Place, group: usize)
        requires place { IsPlaceOf task.now place.old }
        requires group { IsSubset task.now.tables.now.groups (cells_in task.now.boxes.now) group }
        requires here { AreOpen task.now self.old.here }
        requires component { AreInComponent task.now.tables.now.board.now (cells_in task.now.boxes.now) place.old.player self.old.here.pushes }
        ensures place { place.new ≡ place.old }
        ensures asked { HasAsked task.now self.old self.new }
        ensures none { CoversNone task.now group self.new.here.pushes }
    {
        if self.here.all().is_empty() {
            return;
        }
        if !task.tables.is_inside(group, place.player) {
            return;
        }
        if task.covered[group] {
            self.here.clear();
            self.last = group;
            return;
        }
        // While the boxes of the group are lifted, those that still stand are the ones that it lacks.
        let kept = task.tables.groups.boxes(group);
        place.lift(kept);
        take_standing(&mut self.here, &place.boxes);
        place.put(kept);
    }
}

// Returns which of the boxes of a group aren't there.
#[inline(always)]
fn find_missing(kept: &[Cell], boxes: &Rows) -> Missing
    ensures { Misses kept.now boxes.now.members result }
{
    let mut missing = None;
    for number in 0..kept.len() {
        if boxes.has(kept[number]) {
            continue;
        }
        match missing {
            None => missing = Some(number),
            Some(known) => {
                if !is_same(kept[known], kept[number]) {
                    return Missing::More;
                }
            }
        }
    }
    match missing {
        None => Missing::Nothing,
        Some(number) => Missing::One(kept[number]),
    }
}

// Takes out the pushes of these boxes.
#[tactic(auto, using(crate::proofs::Taken::taken_only, crate::proofs::Taken::taken_kept, std::proofs::lemmas::List::get_or_default))]
fn take_standing(pushes: &mut Open, boxes: &Rows)
    ensures extent { pushes.new.extent ≡ pushes.old.extent }
    ensures kept { (push : OutPush) → Contains pushes.old.pushes push → Contains pushes.new.pushes push ⊎ Has boxes.now.members push.from }
    ensures only { (push : OutPush) → Contains pushes.new.pushes push → Contains pushes.old.pushes push }
    ensures fewer { length pushes.new.pushes ≤ length pushes.old.pushes }
    ensures none { (push : OutPush) → Contains pushes.new.pushes push → Has boxes.now.members push.from → ⊥ }
{
    let mut at = 0;
    while at < pushes.all().len() {
        if boxes.has(pushes.all()[at].from) {
            let _push = pushes.take_at(at);
        } else {
            at += 1;
        }
    }
}
