//! A coverage that goes through its patterns, one after another. It is for callers, as `coverage` says.
ghost use Rattle.std.specs.{Prelude.◌≡◌, Prelude.◌↔◌, Prelude.IsTrue, Prelude.IfOk, Prelude.length, Prelude.map, List.All};
ghost use Rattle.cellset.specs.Cell.{IsOn};
ghost use Rattle.board.specs.Game.{State};
ghost use Rattle.answers.specs.Grammar.{said_pattern};
ghost use Rattle.certificates.specs.Pattern.{patterns_of, IsCovered, IsLawful, AreLawful};
ghost use Rattle.closure.specs.Arena.{list_in, pattern_in};
ghost use Rattle.closure.specs.Scan.{AreEntries, EntriesCover, IsEntryOf};

use crate::arena::{Arena, CellPattern};
use crate::coverage::Coverage;
use crate::group_regions::Flood;
use answers::Pattern;
use board::Board;
use cellset::{Cell, CellSet, Shape};
use certificates::{are_in, is_among};
use std::alloc::{AllocError, Global};
use std::marker::Model;

// The entry of a pattern: the cells of its boxes, and its region. For `*` it has no region, since that is the room without the boxes.
#[derive(Debug, Drop)]
struct Entry<S: CellSet> {
    shape: Shape,
    boxes: Vec<Cell>,
    region: Option<S>,
}

impl<S: CellSet> Model for Entry<S> {
    ghost use Rattle.std.specs.Prelude.{◌≡◌};
    ghost use Rattle.std.specs.Option.{option_map, ForSome};
    ghost use Rattle.std.specs.List.{All};
    ghost use Rattle.cellset.specs.Cell.{IsOn};
    ghost use Rattle.closure.specs.Scan.{EntryCells, coded_entry};

    ghost Value = { EntryCells };

    ghost coded = { coded_entry };

    ghost view = { λ e. record { extent = e.shape; boxes = e.boxes.items; region = option_map S.members e.region } };

    ghost invariant = { λ e. All (IsOn e.shape) e.boxes.items × ForSome e.region (λ r. S.extent r ≡ e.shape) };
}

/// A list of patterns that is searched from its beginning.
#[derive(Debug, Drop)]
pub struct Scan<S: CellSet> {
    room: S,
    entries: Vec<Entry<S>>,
    ghost same_grid: { All (λ e. e.extent ≡ S.extent room) entries.items },
}

impl<S: CellSet> Entry<S> {
    ghost use Rattle.closure.specs.Scan.{EntryCovers};

    // Returns whether the pattern covers the state.
    fn covers(&self, room: &S, player: Cell, boxes: &S) -> bool
        requires room { S.extent room.now ≡ self.now.extent }
        requires boxes { S.extent boxes.now ≡ self.now.extent }
        requires player { IsOn self.now.extent player }
        ensures { IsTrue result
            ↔ EntryCovers (S.members room.now) self.now (record { player = player; boxes = S.members boxes.now }) }
    {
        let region = match &self.region {
            Some(region) => region,
            None => room,
        };
        if !are_in(&self.boxes, boxes) {
            return false;
        }
        if is_among(&self.boxes, boxes, player) {
            return false;
        }
        region.contains(player)
    }
}

// Returns whether an entry covers the state.
fn is_any_covering<S: CellSet>(entries: &[Entry<S>], room: &S, player: Cell, boxes: &S) -> bool
    requires entries { All (λ e. e.extent ≡ S.extent room.now) entries.now }
    requires boxes { S.extent boxes.now ≡ S.extent room.now }
    requires player { IsOn (S.extent room.now) player }
    ensures { IsTrue result
        ↔ EntriesCover (S.members room.now) entries.now (record { player = player; boxes = S.members boxes.now }) }
{
    for entry in entries {
        if entry.covers(room, player, boxes) {
            return true;
        }
    }
    false
}

// Returns the entry of a pattern. `flood` is a buffer.
fn enter<S: CellSet>(
    alloc: Global,
    board: &Board<S>,
    pattern: CellPattern,
    flood: &mut Flood,
) -> Result<Entry<S>, AllocError>
    requires lawful { IsLawful board.now (pattern_in pattern) }
    requires free { flood.old.free.extent ≡ board.now.shape }
    requires region { flood.old.region.extent ≡ board.now.shape }
    ensures free { flood.new.free.extent ≡ board.now.shape }
    ensures region { flood.new.region.extent ≡ board.now.shape }
    ensures ok { IfOk result (IsEntryOf board.now (pattern_in pattern.entry)) }
{
    let shape = board.shape();
    let boxes = pattern.boxes.to_vec(alloc)?;
    flood.take_out(board.room_rows(), pattern.boxes);
    let region = if flood.find_line(pattern) {
        None
    } else {
        Some(flood.found(false).to_set(alloc)?)
    };
    Ok(Entry {
        shape,
        boxes,
        region,
    })
}

// Returns the entry of each line.
fn enter_each<S: CellSet>(
    alloc: Global,
    board: &Board<S>,
    arena: &Arena,
) -> Result<Vec<Entry<S>>, AllocError>
    requires { AreLawful board.now (list_in arena.now) }
    ensures { IfOk result (λ v. AreEntries board.now (list_in arena.now) (length arena.now.lines.items) v.items) }
{
    let mut flood = Flood::new(alloc, board.shape())?;
    let mut entries = Vec::with_capacity(alloc, arena.lines.len())?;
    for line in 0..arena.lines.len() {
        entries.push_reserved(enter(alloc, board, arena.pattern(line), &mut flood)?);
    }
    Ok(entries)
}

impl<S: CellSet> Scan<S> {
    ghost use Rattle.closure.specs.Scan.{EntriesCover};

    /// Makes a list of lawful patterns ready.
    pub fn build(
        alloc: Global,
        board: &Board<S>,
        patterns: &[Pattern],
    ) -> Result<Scan<S>, AllocError>
        requires { AreLawful board.now (patterns_of (map said_pattern patterns.now)) }
        ensures extent { IfOk result (λ c. S.extent c.room ≡ board.now.shape) }
        ensures exact { IfOk result (λ c. (s : State) → EntriesCover (S.members c.room) c.entries.items s
            ↔ IsCovered board.now (patterns_of (map said_pattern patterns.now)) s) }
    {
        let arena = Arena::with_lines(alloc, board.shape(), patterns)?;
        let entries = enter_each(alloc, board, &arena)?;
        let mut room = S::new(alloc, board.shape())?;
        room.copy_from(board.room());
        Ok(Scan { room, entries })
    }
}

impl<S: CellSet> Coverage<S> for Scan<S> {
    ghost use Rattle.closure.specs.Scan.{EntriesCover};

    ghost extent = { λ scan. S.extent scan.room };

    ghost covered = { λ scan s. EntriesCover (S.members scan.room) scan.entries.items s };

    fn covers(&mut self, player: Cell, boxes: &S) -> bool {
        is_any_covering(&self.entries, &self.room, player, boxes)
    }
}
