//! Why a certificate is refused.
ghost use Rattle.std.specs.Prelude.{◌≡◌};
ghost use Rattle.closure.specs.Words.{line_word, zone_word};

use cellset::{Cell, Dir};
use std::alloc::AllocError;
use thiserror::Error;

/// Why a pattern is unlawful: the first reason that holds, in the order of the variants.
#[derive(Clone, Copy, Debug, PartialEq, Eq, Error)]
#[error("{}", self.word())]
pub enum LineWhy {
    /// A box or a listed seed is off the board.
    Board,
    /// A box is on a wall.
    Wall,
    /// A listed seed is outside the room or on a box of the pattern.
    Seed,
    /// No box is off the goals.
    Goals,
}

impl LineWhy {
    /// Returns the word of the report.
    pub fn word(self) -> &'static str
        ensures { result.now ≡ line_word self }
    {
        match self {
            LineWhy::Board => "board",
            LineWhy::Wall => "wall",
            LineWhy::Seed => "seed",
            LineWhy::Goals => "goals",
        }
    }
}

/// The first fault of a list of patterns. The variants are in the order of the checks, and each check goes through all patterns.
#[derive(Clone, Copy, Debug, PartialEq, Eq, Error)]
pub enum CheckFault {
    /// The pattern of this line isn't lawful.
    #[error("line {line} {why}")]
    Line { line: usize, why: LineWhy },
    /// No pattern covers the start.
    #[error("start")]
    Start,
    /// No pattern covers the result of this push out of the pattern of this line.
    #[error("line {line} push {player} {dir}")]
    Push { line: usize, player: Cell, dir: Dir },
    /// A growth was refused.
    #[error("out of memory")]
    Memory,
}

impl From<AllocError> for CheckFault {
    ghost use Rattle.closure.specs.declared.fault.CheckFault.TheVariants.{Memory};

    ghost from_gives = { λ _ fault. fault ≡ Memory };

    fn from(_refused: AllocError) -> CheckFault {
        CheckFault::Memory
    }
}

/// Why a zone is unlawful: the first reason that holds, in the order of the variants.
#[derive(Clone, Copy, Debug, PartialEq, Eq, Error)]
#[error("{}", self.word())]
pub enum ZoneLineWhy {
    /// A cell is off the board.
    Board,
    /// A cell is on a wall.
    Wall,
}

impl ZoneLineWhy {
    /// Returns the word of the report.
    pub fn word(self) -> &'static str
        ensures { result.now ≡ zone_word self }
    {
        match self {
            ZoneLineWhy::Board => "board",
            ZoneLineWhy::Wall => "wall",
        }
    }
}

/// The first fault of a zone. The variants are in the order of the checks.
#[derive(Clone, Copy, Debug, PartialEq, Eq, Error)]
pub enum ZoneFault {
    /// The zone isn't lawful.
    #[error("line {line} {why}")]
    Line { line: usize, why: ZoneLineWhy },
    /// A box on this cell of the zone can be pushed out of the zone in this direction.
    #[error("line {line} leak {cell} {dir}")]
    Leak { line: usize, cell: Cell, dir: Dir },
    /// The zone has no more boxes of the start than goals.
    #[error("line {line} fits")]
    Fits { line: usize },
    /// A growth was refused.
    #[error("out of memory")]
    Memory,
}

impl From<AllocError> for ZoneFault {
    ghost use Rattle.closure.specs.declared.fault.ZoneFault.TheVariants.{Memory};

    ghost from_gives = { λ _ fault. fault ≡ Memory };

    fn from(_refused: AllocError) -> ZoneFault {
        ZoneFault::Memory
    }
}
