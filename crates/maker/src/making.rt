//! Makes certificates.
//!
//! `make` is for callers. The program uses `find`, which makes no patterns.
ghost use Rattle.std.specs.Prelude.{◌≡◌, IfOk, IfSome, IfNone, map};
ghost use Rattle.board.specs.Board.{IsWellFormed};
ghost use Rattle.answers.specs.Canonical.{list_patterns, made_pattern};
ghost use Rattle.answers.specs.Grammar.{said_pattern};
ghost use Rattle.answers.specs.RoundTrip.{IsLawfulBody};
ghost use Rattle.maker.specs.Made.{IsMade, IsNothingMade, IsAcceptedMade, body_of, IsFound};

use crate::cells::{coords_in, coords_of};
use crate::dead::dead_rows;
use crate::freezing::frozen_among;
use crate::zones::least_zone;
use answers::{Coord, Pattern, Seeds, Zone};
use board::Board;
use cellset::CellSet;
use smallvec::SmallVec;
use std::alloc::{AllocError, Global};

/// A certificate that was made.
#[derive(Clone, Debug, PartialEq, Eq, Drop)]
pub enum Made {
    /// A list of patterns.
    Patterns(Vec<Pattern>),
    /// A zone.
    Zone(Zone),
}

/// A certificate that was found, as the cells that it names, in reading order.
#[derive(Clone, Debug, PartialEq, Eq, Drop)]
pub enum Found {
    /// A list: a pattern of one box for each dead square, and a last one of the frozen boxes, if there are any. All have the seeds `*`.
    List {
        dead: Vec<Coord>,
        frozen: Vec<Coord>,
    },
    /// A zone.
    Zone(Vec<Coord>),
}

/// Makes a certificate that the level is unsolvable: a list of patterns if a box of the start is on a dead square or a frozen box
/// is off the goals, and otherwise a zone if some closed set of cells holds more boxes than goals.
///
/// A level for which it returns None may be solvable or not. Each list is allocated once, and so are the boxes of a pattern with
/// more than 8 of them.
pub fn make<S: CellSet>(alloc: Global, board: &Board<S>) -> Result<Option<Made>, AllocError>
    ensures some { IfOk result (λ made. IfSome made (IsMade board.now)) }
    ensures none { IfOk result (λ made. IfNone made (IsNothingMade board.now)) }

    // The checker accepts it, and a text can spell it.
    ensures accepted { IfOk result (λ made. IfSome made (IsAcceptedMade board.now)) }
    ensures lawful { IfOk result (λ made. IfSome made (λ m. IsLawfulBody (body_of m))) }
{
    match find(alloc, board)? {
        Some(Found::List { dead, frozen }) => {
            let patterns = patterns_of(alloc, &dead, frozen);
            drop(dead);
            Ok(Some(Made::Patterns(patterns?)))
        }
        Some(Found::Zone(cells)) => Ok(Some(Made::Zone(Zone { line: 0, cells }))),
        None => Ok(None),
    }
}

/// Finds the certificate that `make` makes.
pub fn find<S: CellSet>(alloc: Global, board: &Board<S>) -> Result<Option<Found>, AllocError>
    ensures some { IfOk result (λ found. IfSome found (IsFound board.now)) }
    ensures none { IfOk result (λ found. IfNone found (IsNothingMade board.now)) }
    ensures formed { IfOk result (λ _. IsWellFormed board.now) }
{
    let (dead, live) = dead_rows(alloc, board)?;
    if dead.meets(board.boxes()) {
        drop(live);
        let dead = coords_in(alloc, &dead)?;
        return Ok(Some(Found::List {
            dead,
            frozen: Vec::new(alloc),
        }));
    }
    let held: S = frozen_among(alloc, board, &dead)?;
    if !held.is_subset(board.goals()) {
        drop(live);
        let frozen = coords_of(alloc, &held)?;
        let dead = coords_in(alloc, &dead)?;
        return Ok(Some(Found::List { dead, frozen }));
    }
    drop(held);
    // The dead squares are no longer needed.
    let Some(zone) = least_zone(alloc, board, dead, live)? else {
        return Ok(None);
    };
    Ok(Some(Found::Zone(coords_in(alloc, &zone)?)))
}

// Returns the patterns of a list.
fn patterns_of(
    alloc: Global,
    dead: &[Coord],
    frozen: Vec<Coord>,
) -> Result<Vec<Pattern>, AllocError>
    ensures { IfOk result (λ patterns. map said_pattern patterns.items ≡ list_patterns dead.now frozen.items) }
{
    let mut patterns = Vec::with_capacity(alloc, dead.len() + 1)?;
    for cell in dead {
        let mut boxes = SmallVec::new(alloc);
        boxes.push_reserved(*cell);
        patterns.push_reserved(pattern_of(boxes));
    }
    if !frozen.is_empty() {
        patterns.push_reserved(pattern_of(SmallVec::from_vec(frozen)));
    }
    Ok(patterns)
}

// Returns the pattern of some boxes with the seeds `*`.
fn pattern_of(boxes: SmallVec<Coord, 8>) -> Pattern
    ensures { said_pattern result ≡ made_pattern boxes.items }
{
    Pattern {
        line: 0,
        boxes,
        seeds: Seeds::Room,
    }
}
