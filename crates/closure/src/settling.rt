//! Which pushes out of a group no group covers.
ghost use Rattle.std.specs.Prelude.{◌≡◌, ◌⊎◌, ◌<◌, ◌↔◌, ℕ, [], IfOk, IsTrue, MatchBool, MatchOption, OnOk, Some, length, slice_index};
ghost use Rattle.std.specs.List.{Contains};
ghost use Rattle.cellset.specs.{Cell.IsOn, CellSet.Has, declared.cell.Cell.Cell as GridCell};
ghost use Rattle.reach.specs.{Pushes.PushBefore, Pushes.dir_rank, declared.pushes.Push.Push as OutPush};
ghost use Rattle.certificates.specs.CellLists.{cells_in};
ghost use Rattle.certificates.specs.Pattern.{CoversPushesOf, IsFirstUncovered};
ghost use Rattle.closure.specs.{Arena.pattern_at, Groups.boxes_of, Groups.list_of};
ghost use Rattle.closure.specs.{Buckets.AreBuckets, Lookups.AreLookups, Lookups.IsReady, Lookups.IsRest};
ghost use Rattle.closure.specs.{Component.AreInComponent, Component.IsFreeOf, Search.IsSearched, Search.searches_left, Place.IsSubset, Tables.AreTables};
ghost use Rattle.closure.specs.Settling.{AreOpen, CoversNone, HasAsked, IsOnward, IsPlaceOf, IsPushOut, IsSettled, IsSettling, IsTask};

use crate::buckets::Buckets;
use crate::hints::{TRIES, hash_of, hash_with, hash_without};
use crate::lookups::Lookups;
use crate::open::rank;
use crate::place::Place;
use crate::tables::Tables;
use crate::task::Task;
use crate::unsettled::Unsettled;
use cellset::{Cell, CellSet};
use reach::{Push, Rows};
use std::alloc::AllocError;

impl Lookups {
    // Finds the pushes out of a group whose results no group covers, component by component of the room less its boxes.
    pub(crate) fn settle<S: CellSet>(&mut self, task: &Task<S>) -> Result<(), AllocError>
        requires task { IsTask task.now }
        requires are { AreLookups task.now.tables.now self.old }
        ensures are { OnOk result (AreLookups task.now.tables.now self.new) }
        ensures free { OnOk result (IsFreeOf task.now.tables.now.board.now (cells_in task.now.boxes.now) self.new.flood.free) }
        ensures rest { OnOk result (IsRest task.now.tables.now.board.now task.now.tables.now.groups task.now.group self.new.left.items) }
    {
        self.begin(task)?;
        while self.enter(task)? {
            self.unsettled
                .settle_here(task, &mut self.place, &self.buckets)?;
            self.left.extend_from_slice(self.unsettled.here.all())?;
        }
        Ok(())
    }

    // Opens the pushes out of a group, and asks the groups that hints name.
    fn begin<S: CellSet>(&mut self, task: &Task<S>) -> Result<(), AllocError>
        requires task { IsTask task.now }
        requires are { AreLookups task.now.tables.now self.old }
        ensures ready { OnOk result (IsReady task.now self.new) }
        ensures left { self.new.left.items ≡ [] }
        ensures all { OnOk result ((push : OutPush) → IsPushOut task.now push → Contains self.new.unsettled.away.pushes push ⊎ IsSettled task.now push) }
    {
        self.left.clear();
        self.place.player = task.tables.board.player();
        load_rows(task.boxes, &mut self.place.boxes);
        self.flood
            .take_out(task.tables.board.room_rows(), task.boxes);
        self.unsettled.begin(task)?;
        self.unsettled.ask_hints(task, &self.place.boxes);
        Ok(())
    }

    // Enters the component of the player of an open push. Returns false if none is open.
    fn enter<S: CellSet>(&mut self, task: &Task<S>) -> Result<bool, AllocError>
        requires task { IsTask task.now }
        requires ready { IsReady task.now self.old }
        ensures ready { OnOk result (IsReady task.now self.new) }
        ensures left { self.new.left ≡ self.old.left }
        ensures component { IfOk result (λ some. IsTrue some
            → AreInComponent task.now.tables.now.board.now (cells_in task.now.boxes.now) self.new.place.player self.new.unsettled.here.pushes) }
        ensures kept { IfOk result (λ some. IsTrue some → (push : OutPush) → Contains self.old.unsettled.away.pushes push
            → Contains self.new.unsettled.away.pushes push ⊎ Contains self.new.unsettled.here.pushes push) }
        ensures fewer { IfOk result (λ some. MatchBool some (length self.new.unsettled.away.pushes < length self.old.unsettled.away.pushes)
            ((push : OutPush) → Contains self.old.unsettled.away.pushes push → ⊥)) }
    {
        let Some(first) = self.unsettled.away.first() else {
            return Ok(false);
        };
        self.flood.find_component(first.player);
        self.unsettled.enter(&self.flood)?;
        self.place.player = first.player;
        Ok(true)
    }

    // Returns the first push out of a line of the group among those that are left.
    pub(crate) fn first_left<S: CellSet>(
        &mut self,
        tables: &Tables<S>,
        group: usize,
        line: usize,
    ) -> Option<Push>
        requires tables { AreTables tables.now }
        requires are { AreLookups tables.now self.old }
        requires line { line < length tables.now.groups.arena.lines.items }
        requires group { slice_index tables.now.groups.of.items line ≡ group }
        requires free { IsFreeOf tables.now.board.now (cells_in (boxes_of tables.now.groups group)) self.old.flood.free }
        requires rest { IsRest tables.now.board.now tables.now.groups group self.old.left.items }
        ensures are { AreLookups tables.now self.new }
        ensures free { self.new.flood.free ≡ self.old.flood.free }
        ensures left { self.new.left ≡ self.old.left }
        ensures exact { MatchOption result
            (CoversPushesOf tables.now.board.now (list_of tables.now.groups) (pattern_at (list_of tables.now.groups) line))
            (IsFirstUncovered tables.now.board.now (list_of tables.now.groups) (pattern_at (list_of tables.now.groups) line)) }
    {
        let whole = self.flood.find_line(tables.groups.arena.pattern(line));
        least_of(&self.left, self.flood.found(whole))
    }
}

impl Unsettled {
    // Asks for each open push the groups that hints name for its result.
    pub(crate) fn ask_hints<S: CellSet>(&mut self, task: &Task<S>, boxes: &Rows)
        requires task { IsTask task.now }
        requires boxes { boxes.now.members ≡ cells_in task.now.boxes.now }
        requires away { AreOpen task.now self.old.away }
        requires here { AreOpen task.now self.old.here }
        ensures { HasAsked task.now self.old self.new }
    {
        let hash = hash_of(task.boxes);
        let mut at = self.away.all().len();
        while at > 0 {
            at -= 1;
            if let Some(push) = self.away.all().get(at) {
                let after = hash_with(hash_without(hash, push.from), push.to);
                self.ask_hinted(task, boxes, after);
            }
        }
    }

    // Asks the groups that hints name for a hash.
    fn ask_hinted<S: CellSet>(&mut self, task: &Task<S>, boxes: &Rows, hash: usize)
        requires task { IsTask task.now }
        requires boxes { boxes.now.members ≡ cells_in task.now.boxes.now }
        requires away { AreOpen task.now self.old.away }
        requires here { AreOpen task.now self.old.here }
        ensures { HasAsked task.now self.old self.new }
    {
        for turn in 0..TRIES {
            let Some(slot) = task.tables.groups.hints.slot(hash, turn) else {
                return;
            };
            let Some(group) = slot.group_for(hash) else {
                continue;
            };
            if group >= task.tables.groups.spans.len() {
                continue;
            }
            let _inside = self.ask(task, boxes, group);
        }
    }

    // Asks groups until no push from the component is left or all groups were asked.
    pub(crate) fn settle_here<S: CellSet>(
        &mut self,
        task: &Task<S>,
        place: &mut Place,
        buckets: &Buckets,
    ) -> Result<(), AllocError>
        requires place { IsPlaceOf task.now place.old }
        requires buckets { AreBuckets task.now.tables.now.board.now task.now.tables.now.groups buckets.now }
        requires settling { IsSettling task.now buckets.now self.old }
        requires component { AreInComponent task.now.tables.now.board.now (cells_in task.now.boxes.now) place.old.player self.old.here.pushes }
        ensures place { place.new ≡ place.old }
        ensures onward { OnOk result (IsOnward task.now buckets.now self.old self.new) }
        ensures rest { OnOk result ((push : OutPush) → Contains self.new.here.pushes push → IsSettled task.now push → ⊥) }
    {
        self.ask_last(task, place);
        self.settle_inside(task, place);
        while !self.here.all().is_empty() {
            if !self.ask_next(task, place, buckets)? {
                return Ok(());
            }
        }
        Ok(())
    }

    // Asks the group that settled the last component.
    fn ask_last<S: CellSet>(&mut self, task: &Task<S>, place: &mut Place)
        requires place { IsPlaceOf task.now place.old }
        requires away { AreOpen task.now self.old.away }
        requires here { AreOpen task.now self.old.here }
        requires component { AreInComponent task.now.tables.now.board.now (cells_in task.now.boxes.now) place.old.player self.old.here.pushes }
        ensures place { place.new ≡ place.old }
        ensures asked { HasAsked task.now self.old self.new }
    {
        let last = self.last;
        if last >= task.tables.groups.spans.len() {
            return;
        }
        if !self.ask(task, &place.boxes, last) {
            return;
        }
        self.settle_by(task, place, last);
    }

    // Settles pushes by the groups that were found for other components.
    fn settle_inside<S: CellSet>(&mut self, task: &Task<S>, place: &mut Place)
        requires place { IsPlaceOf task.now place.old }
        requires inside { (g : ℕ) → Contains self.old.inside.items g → IsSubset task.now.tables.now.groups (cells_in task.now.boxes.now) g }
        requires away { AreOpen task.now self.old.away }
        requires here { AreOpen task.now self.old.here }
        requires component { AreInComponent task.now.tables.now.board.now (cells_in task.now.boxes.now) place.old.player self.old.here.pushes }
        ensures place { place.new ≡ place.old }
        ensures asked { HasAsked task.now self.old self.new }
        ensures none { (g : ℕ) → Contains self.new.inside.items g → CoversNone task.now g self.new.here.pushes }
    {
        for at in 0..self.inside.len() {
            let group = self.inside[at];
            self.settle_by(task, place, group);
        }
    }

    // Asks the next group in the buckets. Returns false if there is none.
    fn ask_next<S: CellSet>(
        &mut self,
        task: &Task<S>,
        place: &mut Place,
        buckets: &Buckets,
    ) -> Result<bool, AllocError>
        requires place { IsPlaceOf task.now place.old }
        requires buckets { AreBuckets task.now.tables.now.board.now task.now.tables.now.groups buckets.now }
        requires settling { IsSettling task.now buckets.now self.old }
        requires component { AreInComponent task.now.tables.now.board.now (cells_in task.now.boxes.now) place.old.player self.old.here.pushes }
        requires none { (g : ℕ) → Contains self.old.inside.items g → CoversNone task.now g self.old.here.pushes }
        ensures place { place.new ≡ place.old }
        ensures onward { OnOk result (IsOnward task.now buckets.now self.old self.new) }
        ensures none { OnOk result ((g : ℕ) → Contains self.new.inside.items g → CoversNone task.now g self.new.here.pushes) }
        ensures fewer { IfOk result (λ some. MatchBool some
            (searches_left task.now.tables.now.groups self.new.search < searches_left task.now.tables.now.groups self.old.search)
            (IsSearched task.now.tables.now.board.now.shape task.now.tables.now.groups buckets.now self.new.search)) }
    {
        let Some(group) = self.search.next(task, buckets) else {
            return Ok(false);
        };
        if !self.ask(task, &place.boxes, group) {
            return Ok(true);
        }
        self.inside.push(group)?;
        self.settle_by(task, place, group);
        Ok(true)
    }
}

// Makes rows those of these cells.
#[tactic(auto, using(certificates::proofs::CellLists::over_cells, cellset::proofs::Members::inserted, cellset::proofs::Members::kept_by_insert))]
fn load_rows(cells: &[Cell], rows: &mut Rows)
    requires { (c : GridCell) → Has (cells_in cells.now) c → IsOn rows.old.extent c }
    ensures extent { rows.new.extent ≡ rows.old.extent }
    ensures members { rows.new.members ≡ cells_in cells.now }
{
    rows.clear();
    for cell in cells {
        rows.insert(*cell);
    }
}

// Returns the first of these pushes by a player in a region.
fn least_of(pushes: &[Push], region: &Rows) -> Option<Push>
    ensures only { (first : OutPush) → result ≡ Some first → Contains pushes.now first × Has region.now.members first.player }
    ensures least { (push : OutPush) → Contains pushes.now push → Has region.now.members push.player
        → (first : OutPush) × (result ≡ Some first) × (PushBefore push first → ⊥) }
{
    let mut first = None;
    for push in pushes {
        if !region.has(push.player) {
            continue;
        }
        if !is_least(*push, first) {
            continue;
        }
        first = Some(*push);
    }
    first
}

// Returns whether a push comes before another one, if there is one: by its player, then by its direction.
fn is_least(push: Push, known: Option<Push>) -> bool
    ensures { MatchOption known (IsTrue result) (λ first. IsTrue result ↔ PushBefore push first) }
{
    match known {
        None => true,
        Some(first) => {
            push.player < first.player
                || push.player == first.player && rank(push.dir) < rank(first.dir)
        }
    }
}
