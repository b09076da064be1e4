//! The search of the buckets for groups whose boxes may be there before or after a push.
ghost use Rattle.std.specs.Prelude.{◌≡◌, ◌⊎◌, ◌<◌, ℕ, OnOk, Option, Some, MatchOption, IfSome, length};
ghost use Rattle.std.specs.List.{Contains};
ghost use Rattle.cellset.specs.{CellSet.Has, declared.cell.Cell.Cell as GridCell};
ghost use Rattle.reach.specs.declared.pushes.Push.{Push as OutPush};
ghost use Rattle.certificates.specs.CellLists.{cells_in};
ghost use Rattle.closure.specs.{Buckets.AreBuckets, Search.IsPassed, Search.IsSearch, Search.IsSearched, Search.searches_left, Settling.IsPushOut, Settling.IsTask};

use crate::buckets::Buckets;
use crate::task::Task;
use cellset::{Cell, CellSet};
use reach::Push;
use std::alloc::AllocError;

// How far the search has come.
#[derive(Debug, Drop)]
pub(crate) struct Search {
    // The cells whose buckets are searched, how many were begun, and the link to the next group.
    pub cells: Vec<Cell>,
    pub begun: usize,
    pub link: usize,
}

impl Search {
    // Begins the search of the buckets of the cells ahead of the pushes, and then of the boxes.
    pub(crate) fn begin<S: CellSet>(
        &mut self,
        task: &Task<S>,
        pushes: &[Push],
    ) -> Result<(), AllocError>
        requires task { IsTask task.now }
        requires pushes { (push : OutPush) → Contains pushes.now push → IsPushOut task.now push }
        ensures search { OnOk result ((buckets : _) → IsSearch task.now.tables.now.board.now.shape task.now.tables.now.groups buckets self.new) }
        ensures begun { OnOk result (self.new.begun ≡ 0) }
        ensures ahead { OnOk result ((push : OutPush) → Contains pushes.now push → Has (cells_in self.new.cells.items) push.to) }
        ensures boxes { OnOk result ((c : GridCell) → Has (cells_in task.now.boxes.now) c → Has (cells_in self.new.cells.items) c) }
    {
        self.cells.clear();
        for push in pushes {
            self.cells.push(push.to)?;
        }
        self.cells.extend_from_slice(task.boxes)?;
        self.begun = 0;
        self.link = 0;
        Ok(())
    }

    // Returns the next group in the buckets.
    pub(crate) fn next<S: CellSet>(&mut self, task: &Task<S>, buckets: &Buckets) -> Option<usize>
        requires task { IsTask task.now }
        requires buckets { AreBuckets task.now.tables.now.board.now task.now.tables.now.groups buckets.now }
        requires search { IsSearch task.now.tables.now.board.now.shape task.now.tables.now.groups buckets.now self.old }
        ensures search { IsSearch task.now.tables.now.board.now.shape task.now.tables.now.groups buckets.now self.new }
        ensures cells { self.new.cells ≡ self.old.cells }
        ensures passed { (g : ℕ) → g < length task.now.tables.now.groups.spans.items → IsPassed task.now.tables.now.board.now.shape buckets.now self.new g → IsPassed task.now.tables.now.board.now.shape buckets.now self.old g ⊎ (result ≡ Some g) }
        ensures found { MatchOption result (IsSearched task.now.tables.now.board.now.shape task.now.tables.now.groups buckets.now self.new)
            (λ g. g < length task.now.tables.now.groups.spans.items) }
        ensures fewer { IfSome result (λ _. searches_left task.now.tables.now.groups self.new < searches_left task.now.tables.now.groups self.old) }
    {
        while self.link == 0 {
            if self.begun == self.cells.len() {
                return None;
            }
            let shape = task.tables.board.shape();
            self.link = buckets.chains.first[shape.index_of(self.cells[self.begun])] as usize;
            self.begun += 1;
        }
        let group = self.link - 1;
        self.link = buckets.chains.next[group] as usize;
        Some(group)
    }
}
