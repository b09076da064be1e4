//! Faults of a whole answers text.

ghost use Rattle.std.specs.Prelude.{◌≡◌};
ghost use Rattle.answers.specs.Words.{why_word};
ghost use Rattle.answers.specs.declared.fault.AnswersFault.TheVariants.{Memory};

use std::alloc::{AllocError, AllocFailed};
use thiserror::Error;

/// What is wrong with the first faulty line of an answers text.
#[derive(Clone, Copy, Debug, PartialEq, Eq, Error)]
#[error("{}", self.word())]
pub enum Why {
    /// The first line isn't a header, or there is no line.
    Header,
    /// A level line is due, and the line isn't one.
    Level,
    /// The level's number isn't above the number in the record before.
    Order,
    /// The level's number is above the number of levels.
    Unknown,
    /// A kind line is due, and the line isn't one.
    Kind,
    /// The text ends inside a record; the line is the one after the last.
    Unclosed,
}

impl Why {
    /// Returns the word that errors print.
    pub fn word(self) -> &'static str
        ensures { result.now ≡ why_word self }
    {
        match self {
            Why::Header => "header",
            Why::Level => "level",
            Why::Order => "order",
            Why::Unknown => "unknown",
            Why::Kind => "kind",
            Why::Unclosed => "unclosed",
        }
    }
}

/// The first fault of an answers text, with its line.
#[derive(Clone, Copy, Debug, PartialEq, Eq, Error)]
pub enum AnswersFault {
    /// The first line isn't a header, or there is no line.
    #[error("line {line} {}", Why::Header.word())]
    Header { line: usize },
    /// A level line is due, and the line isn't one.
    #[error("line {line} {}", Why::Level.word())]
    Level { line: usize },
    /// The level's number isn't above that of the record before.
    #[error("line {line} {}", Why::Order.word())]
    Order { line: usize },
    /// The level's number is above the number of levels.
    #[error("line {line} {}", Why::Unknown.word())]
    Unknown { line: usize },
    /// A kind line is due, and the line isn't one.
    #[error("line {line} {}", Why::Kind.word())]
    Kind { line: usize },
    /// The text ends inside a record; the line is the one after the last.
    #[error("line {line} {}", Why::Unclosed.word())]
    Unclosed { line: usize },
    /// The allocator refused memory.
    #[error("out of memory")]
    Memory,
}

impl From<AllocError> for AnswersFault {
    ghost from_gives = { λ _ e. e ≡ Memory };

    fn from(_e: AllocError) -> AnswersFault {
        AnswersFault::Memory
    }
}

impl<T: Drop> From<AllocFailed<T>> for AnswersFault {
    ghost from_gives = { λ _ e. e ≡ Memory };

    fn from(_e: AllocFailed<T>) -> AnswersFault {
        AnswersFault::Memory
    }
}
