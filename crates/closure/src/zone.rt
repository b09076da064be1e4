//! The check of a zone.
ghost use Rattle.std.specs.Prelude.{◌≡◌, ◌≢◌, ◌⊎◌, ◌↔◌, ◌<◌, IsTrue, IfOk, IfErr, OnOk, IsOkUnless, MatchOption};
ghost use Rattle.std.specs.FinSet as finset;
ghost use Rattle.cellset.specs.{Cell.IsOn, CellSet.Has, declared.dir.Dir.Dir as GridDir};
ghost use Rattle.reach.specs.Pushes.{dir_rank};
ghost use Rattle.board.specs.{Board.IsWellFormed, Game.Solvable};
ghost use Rattle.answers.specs.{Body.ZoneLine, Grammar.said_zone};
ghost use Rattle.certificates.specs.CellLists.{cells_of};
ghost use Rattle.closure.specs.{declared.fault.ZoneFault.ZoneFault as Fault, FirstFault.IsFirstLeak, FirstFault.IsFirstZoneFault};
ghost use Rattle.certificates.specs.Zone.{count_in as cells_in, Leaks, IsClosedZone, IsZoneOnBoard, IsZoneOffWalls, IsRefuting};

use crate::fault::{ZoneFault, ZoneLineWhy};
use answers::Zone;
use board::Board;
use cellset::{Cell, CellSet, Dir, MembersOf};
use certificates::{add_cells, are_outside, load};
use std::alloc::Global;

/// An accepted zone: the number of its cells, each counted once.
#[derive(Clone, Copy, Debug, PartialEq, Eq)]
pub struct AcceptedZone {
    pub cells: usize,
}

/// Checks that a zone refutes the level: it is lawful and closed, and has more boxes of the start than goals. Returns the first
/// fault if it doesn't.
///
/// The variants of `ZoneFault` are in the order of the checks.
pub fn check_zone<S: CellSet>(
    alloc: Global,
    board: &Board<S>,
    zone: &Zone,
) -> Result<AcceptedZone, ZoneFault>
    ensures ok { IfOk result (λ accepted. IsRefuting board.now (cells_of (said_zone zone.now).cells)
        × (accepted.cells ≡ finset.len (cells_of (said_zone zone.now).cells))) }
    ensures only { IsRefuting board.now (cells_of (said_zone zone.now).cells)
        → IsOkUnless result ZoneFault.Memory }
    ensures exact { IfErr result (λ fault. fault ≢ ZoneFault.Memory
        → IsFirstZoneFault board.now (said_zone zone.now) fault) }
    ensures first { (fault : Fault) → IsFirstZoneFault board.now (said_zone zone.now) fault
        → (result ≡ Err fault) ⊎ (result ≡ Err ZoneFault.Memory) }

    // What this means for the game.
    ensures unsolvable { OnOk result (Solvable board.now → ⊥) }
{
    check_by_counts(alloc, board, zone)
}

// The same check, without what it means for the game.
fn check_by_counts<S: CellSet>(
    alloc: Global,
    board: &Board<S>,
    zone: &Zone,
) -> Result<AcceptedZone, ZoneFault>
    ensures formed { IsWellFormed board.now }
    ensures ok { IfOk result (λ accepted. IsRefuting board.now (cells_of (said_zone zone.now).cells)
        × (accepted.cells ≡ finset.len (cells_of (said_zone zone.now).cells))) }
    ensures exact { IfErr result (λ fault. fault ≢ ZoneFault.Memory
        → IsFirstZoneFault board.now (said_zone zone.now) fault) }
{
    let line = zone.line;
    let mut listed = Vec::new(alloc);
    if !add_cells(board.shape(), &zone.cells, &mut listed)? {
        let why = ZoneLineWhy::Board;
        return Err(ZoneFault::Line { line, why });
    }
    if !are_outside(&listed, board.walls()) {
        let why = ZoneLineWhy::Wall;
        return Err(ZoneFault::Line { line, why });
    }
    let mut cells = S::new(alloc, board.shape())?;
    let mut both = S::new(alloc, board.shape())?;
    load(&listed, &mut cells);
    let checked = check_refuting(board, line, &cells, &mut both);
    drop(cells);
    drop(both);
    checked
}

// Checks that the lawful zone of a line has no leak and more boxes than goals. `both` is a buffer.
fn check_refuting<S: CellSet>(
    board: &Board<S>,
    line: usize,
    cells: &S,
    both: &mut S,
) -> Result<AcceptedZone, ZoneFault>
    requires on { IsZoneOnBoard board.now (S.members cells.now) }
    requires off_walls { IsZoneOffWalls board.now (S.members cells.now) }
    requires cells { S.extent cells.now ≡ board.now.shape }
    requires both { S.extent both.old ≡ board.now.shape }
    ensures ok { IfOk result (λ accepted. IsRefuting board.now (S.members cells.now)
        × (accepted.cells ≡ finset.len (S.members cells.now))) }
    ensures exact { (zone : ZoneLine) → zone.line ≡ line → cells_of zone.cells ≡ S.members cells.now
        → IfErr result (λ fault. fault ≢ ZoneFault.Memory → IsFirstZoneFault board.now zone fault) }
{
    if let Some((cell, dir)) = first_leak(board, cells) {
        return Err(ZoneFault::Leak { line, cell, dir });
    }
    if count_in(cells, board.boxes(), both) <= count_in(cells, board.goals(), both) {
        return Err(ZoneFault::Fits { line });
    }
    Ok(AcceptedZone { cells: cells.len() })
}

// Returns whether a box on this cell of the zone can be pushed out of the zone in this direction.
fn is_leak<S: CellSet>(board: &Board<S>, zone: &S, cell: Cell, dir: Dir) -> bool
    requires zone { S.extent zone.now ≡ board.now.shape }
    requires on { IsOn board.now.shape cell }
    requires inside { Has (S.members zone.now) cell }
    ensures { IsTrue result ↔ Leaks board.now (S.members zone.now) cell dir }
{
    let shape = board.shape();
    let (Some(behind), Some(ahead)) = (shape.step(cell, dir.opposite()), shape.step(cell, dir))
    else {
        return false;
    };
    board.room().contains(behind) && !board.walls().contains(ahead) && !zone.contains(ahead)
}

// Returns the first direction in which a box on this cell of the zone can be pushed out of the zone.
fn leak_from<S: CellSet>(board: &Board<S>, zone: &S, cell: Cell) -> Option<Dir>
    requires zone { S.extent zone.now ≡ board.now.shape }
    requires on { IsOn board.now.shape cell }
    requires inside { Has (S.members zone.now) cell }
    ensures { MatchOption result ((d : GridDir) → Leaks board.now (S.members zone.now) cell d → ⊥)
        (λ d. Leaks board.now (S.members zone.now) cell d
        × ((e : GridDir) → Leaks board.now (S.members zone.now) cell e → dir_rank e < dir_rank d → ⊥)) }
{
    for dir in [Dir::L, Dir::U, Dir::R, Dir::D] {
        if is_leak(board, zone, cell, dir) {
            return Some(dir);
        }
    }
    None
}

// Returns the first leak, by cell and then by direction.
fn first_leak<S: CellSet>(board: &Board<S>, zone: &S) -> Option<(Cell, Dir)>
    requires { S.extent zone.now ≡ board.now.shape }
    ensures { MatchOption result
        (IsClosedZone board.now (S.members zone.now))
        (λ leak. IsFirstLeak board.now (S.members zone.now) leak.0 leak.1) }
{
    for cell in MembersOf::new(zone) {
        if let Some(dir) = leak_from(board, zone, cell) {
            return Some((cell, dir));
        }
    }
    None
}

// Returns how many of the cells lie in the zone: both sizes less the size of the union. `union` is a buffer.
fn count_in<S: CellSet>(zone: &S, cells: &S, union: &mut S) -> usize
    requires zone { S.extent zone.now ≡ S.extent union.old }
    requires cells { S.extent cells.now ≡ S.extent union.old }
    ensures extent { S.extent union.new ≡ S.extent union.old }
    ensures value { result ≡ cells_in (S.members zone.now) (S.members cells.now) }
{
    union.copy_from(zone);
    union.union_with(cells);
    zone.len() - (union.len() - cells.len())
}
