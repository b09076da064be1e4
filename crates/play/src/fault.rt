//! What can be wrong with a solution.
ghost use Rattle.play.specs.Words.{move_word};
ghost use Rattle.std.specs.Prelude.{◌≡◌};

use thiserror::Error;

/// Why a letter is no legal step: the first of these that holds.
#[derive(Clone, Copy, Debug, PartialEq, Eq, Error)]
#[error("{}", self.word())]
pub enum MoveWhy {
    /// It is none of `l u r d L U R D`.
    Letter,
    /// The next cell is a wall.
    Wall,
    /// The next cell has a box, and the cell after it is a wall or has a box.
    Blocked,
    /// It is a capital for a walk, or small for a push.
    Case,
}

impl MoveWhy {
    /// Returns the word of the report.
    pub fn word(self) -> &'static str
        ensures { result.now ≡ move_word self }
    {
        match self {
            MoveWhy::Letter => "letter",
            MoveWhy::Wall => "wall",
            MoveWhy::Blocked => "blocked",
            MoveWhy::Case => "case",
        }
    }
}

/// Why a text doesn't solve its level: the first of these that holds.
#[derive(Clone, Copy, Debug, PartialEq, Eq, Error)]
pub enum ReplayFault {
    /// A letter is no legal step. Letters are numbered from 1, without blanks.
    #[error("move {number} {why}")]
    Move { number: u64, why: MoveWhy },
    /// All letters are legal steps, but at the end this many boxes are off the goals.
    #[error("unsolved {boxes}")]
    Unsolved { boxes: u64 },
    /// The allocator refused memory.
    #[error("out of memory")]
    Memory,
}
