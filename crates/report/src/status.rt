//! The statuses of levels, and the refusals among them.
use answers::BadLineWhy;
use board::BoardFault;
use closure::{CheckFault, ZoneFault};
use play::{ReplayFault, Tally};

/// The status of a level: what an audit says of it.
#[derive(Clone, Copy, Debug, PartialEq, Eq)]
pub enum Status {
    /// The solution solves the level, with these counts.
    Solved(Tally),
    /// A closed list of this many patterns shows that no play solves the level.
    Unsolvable { patterns: usize },
    /// A refuting zone of this many cells shows that no play solves the level.
    UnsolvableZone { cells: usize },
    /// The level or its answer has a fault.
    Refused(Refusal),
    /// The level is legal and has no answer.
    Missing,
}

/// The first fault of a level or of its answer. To run out of memory is no fault of a level.
#[derive(Clone, Copy, Debug, PartialEq, Eq)]
pub enum Refusal {
    /// The level is not legal.
    Board(BoardFault),
    /// A line of the record is bad.
    BadLine { line: usize, why: BadLineWhy },
    /// The solution doesn't solve the level.
    Solution(ReplayFault),
    /// The list of patterns isn't closed.
    Patterns(CheckFault),
    /// The zone doesn't refute the level.
    Zone(ZoneFault),
}
