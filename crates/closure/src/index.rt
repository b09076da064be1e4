//! Whether a list of patterns covers a state: a group that covers it is in the bucket of one of the state's boxes.
ghost use Rattle.std.specs.Prelude.{◌≡◌, ◌<◌, ◌↔◌, ℕ, IfOk, IsTrue, MatchBool, length, map, slice_index};
ghost use Rattle.std.specs.FinSet as finset;
ghost use Rattle.cellset.specs.{Cell.IsOn, CellSet.Has, CellSet.Lacks, SortedList.index, declared.cell.Cell.Cell as GridCell};
ghost use Rattle.board.specs.Game.{State};
ghost use Rattle.answers.specs.Grammar.{said_pattern};
ghost use Rattle.certificates.specs.Pattern.{patterns_of, Covers, IsCovered, AreLawful};
ghost use Rattle.closure.specs.Groups.{list_of, position_at};
ghost use Rattle.closure.specs.{Buckets.AreBuckets, Tables.AreTables, Tables.GroupCovers};

use crate::arena::Arena;
use crate::buckets::{Buckets, fill_buckets};
use crate::coverage::Coverage;
use crate::tables::Tables;
use answers::Pattern;
use board::Board;
use cellset::{Cell, CellSet, MembersOf};
use certificates::{are_in, is_among};
use reach::Rows;
use std::alloc::{AllocError, Global};
use std::marker::Model;

/// A list of patterns, with the tables for quick lookups of states.
#[derive(Debug, Drop)]
pub struct Index<'a, S: CellSet> {
    tables: Tables<'a, S>,
    buckets: Buckets,
}

impl<'a, S: CellSet> Model for Index<'a, S> {
    ghost use Rattle.closure.specs.Index.{Listed, coded_listed};
    ghost use Rattle.std.specs.Prelude.{◌≡◌};
    ghost use Rattle.std.specs.FinSet as finset;
    ghost use Rattle.closure.specs.{Arena.lines_in, Buckets.AreBuckets, Tables.AreTables};

    ghost Value = { Listed };

    ghost coded = { coded_listed };

    ghost view = { λ index. record { level = index.tables.board.now; lines = lines_in index.tables.groups.arena } };

    ghost invariant = { λ index. AreTables index.tables × (index.tables.trap.members ≡ finset.empty) × AreBuckets index.tables.board.now index.tables.groups index.buckets };
}

impl<'a, S: CellSet> Index<'a, S> {
    ghost use Rattle.closure.specs.Index.{IsListedCovered};

    /// Makes a list of lawful patterns ready.
    pub fn build(
        alloc: Global,
        board: &'a Board<S>,
        patterns: &'a [Pattern],
    ) -> Result<Index<'a, S>, AllocError>
        requires { AreLawful board.now (patterns_of (map said_pattern patterns.now)) }
        ensures extent { IfOk result (λ c. c.level.shape ≡ board.now.shape) }
        ensures exact { IfOk result (λ c. (s : State) → IsListedCovered c s
            ↔ IsCovered board.now (patterns_of (map said_pattern patterns.now)) s) }
    {
        let arena = Arena::with_lines(alloc, board.shape(), patterns)?;
        let trap = Rows::new(alloc, board.shape())?;
        let tables = Tables::build(alloc, board, arena, trap)?;
        let Ok(buckets) = fill_buckets(alloc, tables.board, &tables.groups) else {
            drop(tables);
            return Err(AllocError);
        };
        Ok(Index { tables, buckets })
    }
}

impl<S: CellSet> Coverage<S> for Index<'_, S> {
    ghost use Rattle.closure.specs.Index.{IsListedCovered};

    ghost extent = { λ index. index.level.shape };

    ghost covered = { λ index s. IsListedCovered index s };

    fn covers(&mut self, player: Cell, boxes: &S) -> bool {
        is_covered(&self.tables, &self.buckets, player, boxes)
    }
}

// Returns whether some group covers the state.
fn is_covered<S: CellSet>(tables: &Tables<S>, buckets: &Buckets, player: Cell, boxes: &S) -> bool
    requires tables { AreTables tables.now }
    requires off { tables.now.trap.members ≡ finset.empty }
    requires buckets { AreBuckets tables.now.board.now tables.now.groups buckets.now }
    requires player { IsOn tables.now.board.now.shape player }
    requires boxes { S.extent boxes.now ≡ tables.now.board.now.shape }
    ensures { IsTrue result ↔ IsCovered tables.now.board.now (list_of tables.now.groups)
        (record { player = player; boxes = S.members boxes.now }) }
{
    if !tables.board.room().contains(player) {
        return false;
    }
    for cell in MembersOf::new(boxes) {
        if is_covered_in_bucket(tables, buckets, player, boxes, cell) {
            return true;
        }
    }
    false
}

// Returns whether a group in the bucket of a cell covers the state of a player in the room.
fn is_covered_in_bucket<S: CellSet>(
    tables: &Tables<S>,
    buckets: &Buckets,
    player: Cell,
    boxes: &S,
    cell: Cell,
) -> bool
    requires tables { AreTables tables.now }
    requires off { tables.now.trap.members ≡ finset.empty }
    requires buckets { AreBuckets tables.now.board.now tables.now.groups buckets.now }
    requires player { Has tables.now.board.now.room player }
    requires boxes { S.extent boxes.now ≡ tables.now.board.now.shape }
    requires cell { IsOn tables.now.board.now.shape cell }
    ensures { MatchBool result
        (IsCovered tables.now.board.now (list_of tables.now.groups) (record { player = player; boxes = S.members boxes.now }))
        ((g : ℕ) → slice_index buckets.now.keys.items g ≡ index tables.now.board.now.shape cell
        → GroupCovers tables.now.board.now tables.now.groups g (record { player = player; boxes = S.members boxes.now }) → ⊥) }
{
    let shape = tables.board.shape();
    let mut at = buckets.chains.first[shape.index_of(cell)] as usize;
    while at > 0 {
        let group = at - 1;
        if is_covering(tables, group, player, boxes) {
            return true;
        }
        at = buckets.chains.next[group] as usize;
    }
    false
}

// Returns whether a group covers the state of a player in the room and of boxes off the trap.
pub(crate) fn is_covering<S: CellSet>(
    tables: &Tables<S>,
    group: usize,
    player: Cell,
    boxes: &S,
) -> bool
    requires tables { AreTables tables.now }
    requires group { group < length tables.now.groups.spans.items }
    requires player { Has tables.now.board.now.room player }
    requires boxes { S.extent boxes.now ≡ tables.now.board.now.shape }
    requires off { (c : GridCell) → Has (S.members boxes.now) c → Lacks tables.now.trap.members c }
    ensures { IsTrue result ↔ Covers tables.now.board.now (position_at tables.now.board.now tables.now.groups group)
        (record { player = player; boxes = S.members boxes.now }) }
{
    let kept = tables.groups.boxes(group);
    if !are_in(kept, boxes) {
        return false;
    }
    if is_among(kept, boxes, player) {
        return false;
    }
    tables.is_inside(group, player)
}
