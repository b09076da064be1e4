//! The members of a set, one by one.
ghost use Rattle.std.specs.Iterator.{YieldsFirst, item_count};
ghost use Rattle.cellset.specs.Members.{AreMembersOf};

use crate::{Cell, CellSet};
use std::marker::Model;

/// The members of a set in reading order.
#[derive(Debug, Drop)]
pub struct MembersOf<'a, S: CellSet> {
    set: &'a S,
    from: Option<Cell>,
}

impl<'a, S: CellSet> Model for MembersOf<'a, S> {
    ghost use Rattle.std.specs.Prelude.{List, IfSome};
    ghost use Rattle.cellset.specs.declared.cell.Cell.{Cell as GridCell};
    ghost use Rattle.cellset.specs.Cell.{IsOn};
    ghost use Rattle.cellset.specs.Members.{members_left};

    ghost Value = { List GridCell };

    ghost view = { λ m. members_left (S.extent m.set.now) (S.members m.set.now) m.from };

    ghost invariant = { λ m. IfSome m.from (IsOn (S.extent m.set.now)) };
}

impl<'a, S: CellSet> MembersOf<'a, S> {
    /// Starts at the first member. Allocates nothing.
    pub fn new(set: &'a S) -> MembersOf<'a, S>
        ensures { AreMembersOf (S.extent set.now) (S.members set.now) result }
    {
        let from = set.shape().cell(1, 1);
        MembersOf { set, from }
    }
}

impl<S: CellSet> Iterator for MembersOf<'_, S> {
    type Item = Cell;

    ghost next_gives = { YieldsFirst (λ s. s) };

    ghost remaining = { item_count (λ s. s) };

    #[inline(always)]
    fn next(&mut self) -> Option<Cell> {
        let cell = self.set.next_from(self.from?)?;
        self.from = self.set.shape().next(cell);
        Some(cell)
    }
}
