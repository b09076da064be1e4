//! The check of lawful patterns: whether the list covers the start, and what each push out of its patterns leads to.
ghost use Rattle.std.specs.Prelude.{◌≡◌, ◌≢◌, ◌<◌, ◌↔◌, ℕ, Bool, IsTrue, IfOk, IfErr, OnOk, Some, length, slice_index_or};
ghost use Rattle.board.specs.{Board.IsWellFormed, Game.start};
ghost use Rattle.certificates.specs.Pattern.{IsCovered, AreLawful};
ghost use Rattle.closure.specs.{Tables.AreTables, Trap.AreOff};
ghost use Rattle.certificates.specs.Closed.{Closed};
ghost use Rattle.closure.specs.Checking.{IsChecker};
ghost use Rattle.closure.specs.{Arena.lines_in, Arena.list_in, Groups.boxes_of, Groups.list_of};
ghost use Rattle.closure.specs.FirstFault.{IsFirstPatternFault};

use crate::arena::Arena;
use crate::fault::CheckFault;
use crate::index::is_covering;
use crate::lookups::Lookups;
use crate::pushes::note_hinted;
use crate::tables::Tables;
use crate::task::Task;
use crate::trap::find_trap;
use board::Board;
use cellset::CellSet;
use reach::Rows;
use std::alloc::{AllocError, Global};

/// An accepted list: the number of its patterns.
#[derive(Clone, Copy, Debug, PartialEq, Eq)]
pub struct Accepted {
    pub patterns: usize,
}

// Checks that a list of lawful patterns is closed, and returns its first fault if it isn't.
pub(crate) fn check_lawful<S: CellSet>(
    alloc: Global,
    board: &Board<S>,
    arena: Arena,
) -> Result<Accepted, CheckFault>
    requires { AreLawful board.now (list_in arena) }
    ensures formed { IsWellFormed board.now }
    ensures ok { IfOk result (λ accepted. Closed board.now (list_in arena) × (accepted.patterns ≡ length (lines_in arena))) }
    ensures exact { IfErr result (λ fault. fault ≢ CheckFault.Memory → IsFirstPatternFault board.now (lines_in arena) fault) }
{
    let patterns = arena.lines.len();
    let mut trap = Rows::new(alloc, board.shape())?;
    let are_trapped = find_trap(alloc, board, &arena, &mut trap)?;
    if are_trapped && trap.meets(board.boxes()) {
        return Ok(Accepted { patterns });
    }
    let tables = Tables::build(alloc, board, arena, trap)?;
    if !covers_start(&tables) {
        return Err(CheckFault::Start);
    }
    first_fault(alloc, &tables)?;
    Ok(Accepted { patterns })
}

// Returns whether the list covers the start.
fn covers_start<S: CellSet>(tables: &Tables<S>) -> bool
    requires { AreTables tables.now }
    ensures { IsTrue result ↔ IsCovered tables.now.board.now (list_of tables.now.groups) (start tables.now.board.now) }
{
    let player = tables.board.player();
    let boxes = tables.board.boxes();
    if tables.trap.meets(boxes) {
        return true;
    }
    for group in 0..tables.groups.spans.len() {
        if is_covering(tables, group, player, boxes) {
            return true;
        }
    }
    false
}

// Checks what each push out of a line leads to. Most lists need no lookup, since the trap and hints settle all pushes.
fn first_fault<S: CellSet>(alloc: Global, tables: &Tables<S>) -> Result<(), CheckFault>
    requires tables { AreTables tables.now }
    requires start { IsCovered tables.now.board.now (list_of tables.now.groups) (start tables.now.board.now) }
    ensures ok { OnOk result (Closed tables.now.board.now (list_of tables.now.groups)) }
    ensures exact { IfErr result (λ fault. fault ≢ CheckFault.Memory
        → IsFirstPatternFault tables.now.board.now (lines_in tables.now.groups.arena) fault) }
{
    let mut covered = vec![in alloc; false; tables.groups.spans.len()]?;
    note_hinted(tables, &mut covered);
    if are_all(&covered) {
        return Ok(());
    }
    let lookups = Lookups::new(alloc, tables)?;
    let mut checker = Checker {
        covered,
        lookups,
        settled: None,
    };
    checker.note_settled(alloc, tables)?;
    checker.check_pushes(tables)
}

// Returns whether all notes are true.
fn are_all(covered: &[bool]) -> bool
    ensures { IsTrue result → (g : ℕ) → g < length covered.now → IsTrue (slice_index_or covered.now g Bool.false) }
{
    for note in covered {
        if !*note {
            return false;
        }
    }
    true
}

// What the check keeps.
#[derive(Drop)]
struct Checker {
    // By group, whether it is noted that the list covers its pushes.
    covered: Vec<bool>,
    lookups: Lookups,
    // The group whose pushes were settled last.
    settled: Option<usize>,
}

impl Checker {
    // Notes the groups whose pushes the list covers, by rising number of boxes. A group that is noted settles all pushes from a component of
    // each group with its boxes, and such groups may come by the thousand before it in the list.
    fn note_settled<S: CellSet>(
        &mut self,
        alloc: Global,
        tables: &Tables<S>,
    ) -> Result<(), AllocError>
        requires tables { AreTables tables.now }
        requires checker { IsChecker tables.now self.old }
        ensures { OnOk result (IsChecker tables.now self.new) }
    {
        let counts = tables.groups.by_count(alloc)?;
        for count in 0..counts.first.len() {
            let mut link = counts.first[count] as usize;
            while link > 0 {
                let group = link - 1;
                self.note(tables, group)?;
                link = counts.next[group] as usize;
            }
        }
        Ok(())
    }

    // Notes a group if the list covers its pushes.
    fn note<S: CellSet>(&mut self, tables: &Tables<S>, group: usize) -> Result<(), AllocError>
        requires tables { AreTables tables.now }
        requires checker { IsChecker tables.now self.old }
        requires group { group < length tables.now.groups.spans.items }
        ensures { OnOk result (IsChecker tables.now self.new) }
    {
        if self.covered[group] || tables.is_trapped(tables.groups.boxes(group)) {
            return Ok(());
        }
        self.settle(tables, group)?;
        self.covered[group] = self.lookups.left.is_empty();
        Ok(())
    }

    // Checks line by line what each push leads to, if the line's group isn't noted as covered.
    fn check_pushes<S: CellSet>(&mut self, tables: &Tables<S>) -> Result<(), CheckFault>
        requires tables { AreTables tables.now }
        requires start { IsCovered tables.now.board.now (list_of tables.now.groups) (start tables.now.board.now) }
        requires checker { IsChecker tables.now self.old }
        ensures ok { OnOk result (Closed tables.now.board.now (list_of tables.now.groups)) }
        ensures exact { IfErr result (λ fault. fault ≢ CheckFault.Memory
            → IsFirstPatternFault tables.now.board.now (lines_in tables.now.groups.arena) fault) }
    {
        for line in 0..tables.groups.arena.lines.len() {
            let group = tables.groups.of[line] as usize;
            if self.covered[group] {
                continue;
            }
            if tables.is_trapped(tables.groups.boxes(group)) {
                continue;
            }
            self.settle(tables, group)?;
            if let Some(push) = self.lookups.first_left(tables, group, line) {
                return Err(CheckFault::Push {
                    line: tables.groups.arena.lines[line].number,
                    player: push.player,
                    dir: push.dir,
                });
            }
        }
        Ok(())
    }

    // Finds the pushes out of a group whose results the list doesn't cover, unless it is the group that was settled last.
    fn settle<S: CellSet>(&mut self, tables: &Tables<S>, group: usize) -> Result<(), AllocError>
        requires tables { AreTables tables.now }
        requires checker { IsChecker tables.now self.old }
        requires group { group < length tables.now.groups.spans.items }
        requires off { AreOff tables.now.trap.members (boxes_of tables.now.groups group) }
        ensures checker { OnOk result (IsChecker tables.now self.new) }
        ensures settled { OnOk result (self.new.settled ≡ Some group) }
    {
        if let Some(known) = self.settled {
            if known == group {
                return Ok(());
            }
        }
        let task = Task {
            tables,
            covered: &self.covered,
            group,
            boxes: tables.groups.boxes(group),
        };
        self.lookups.settle(&task)?;
        self.settled = Some(group);
        Ok(())
    }
}
