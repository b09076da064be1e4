//! The errors of audits, made answers and maps, in the words that the program prints.
ghost use Rattle.std.specs.Prelude.{◌≡◌, ◌<◌, ◌+◌, ◌++◌, length};
ghost use Rattle.std.specs.Fmt.InlineText.{inline_text};
ghost use Rattle.report.specs.ErrorWords.{audit_error_words, error_words, which_word};

use answers::{AnswersFault, Why};
use board::BoardFault;
use itoa::Buffer;
use std::fmt::{self, InlineText};
use thiserror::Error;

/// One of the two texts of an audit.
#[derive(Clone, Copy, Debug, PartialEq, Eq)]
pub enum Which {
    Levels,
    Answers,
}

impl Which {
    /// Returns the word that errors print.
    pub fn word(self) -> &'static str
        ensures { result.now ≡ which_word self }
    {
        match self {
            Which::Levels => "levels",
            Which::Answers => "answers",
        }
    }
}

impl fmt::Display for Which {
    fn fmt<W: fmt::Write>(&self, f: &mut fmt::Formatter<W>) -> fmt::Result {
        f.write_str(self.word())
    }
}

/// Why there is no report, or no made answers.
#[derive(Clone, Copy, Debug, PartialEq, Eq, Error)]
#[error("{}", self.words().as_str())]
pub enum AuditError {
    /// The file can't be opened, or a read of that text failed.
    Read { which: Which },
    /// A write of the result failed; a beginning of the result may have been written.
    Write,
    /// The text has more than 33,554,432 bytes.
    TooLong { which: Which },
    /// There are more than 10,000 levels.
    TooManyLevels,
    /// The first fault of the answers text is on this line.
    Answers { line: usize, why: Why },
    /// The system refused memory.
    Memory,
}

impl AuditError {
    /// Returns the words that the program prints. Allocates nothing.
    pub fn words(self) -> InlineText<64>
        ensures { inline_text result ≡ audit_error_words self }
    {
        match self {
            AuditError::Read { which } => joined(text_of("cannot read "), which.word()),
            AuditError::Write => text_of("cannot write"),
            AuditError::TooLong { which } => joined(text_of(which.word()), " too long"),
            AuditError::TooManyLevels => text_of("too many levels"),
            AuditError::Answers { line, why } => answers_words(line, why),
            AuditError::Memory => text_of("out of memory"),
        }
    }
}

// Returns the words for a faulty line of the answers.
fn answers_words(line: usize, why: Why) -> InlineText<64>
    ensures { inline_text result ≡ audit_error_words (AuditError.Answers line why) }
{
    let mut digits = Buffer::new();
    let words = joined(text_of("answers line "), digits.format(line as u64));
    joined(joined(words, " "), why.word())
}

fn text_of(words: &str) -> InlineText<64>
    requires { length words.now < 64 }
    ensures { inline_text result ≡ words.now }
{
    joined(InlineText::new(), words)
}

// Returns the first text with the second after it.
fn joined(first: InlineText<64>, second: &str) -> InlineText<64>
    requires { length (inline_text first) + length second.now < 64 }
    ensures { inline_text result ≡ inline_text first ++ second.now }
{
    first.and_str(second, second.len())
}

impl From<AnswersFault> for AuditError {
    ghost use Rattle.std.specs.Prelude.{◌≡◌};
    ghost use Rattle.report.specs.Audit.{error_of};

    ghost from_gives = { λ fault error. error ≡ error_of fault };

    fn from(fault: AnswersFault) -> AuditError {
        let (line, why) = match fault {
            AnswersFault::Header { line } => (line, Why::Header),
            AnswersFault::Level { line } => (line, Why::Level),
            AnswersFault::Order { line } => (line, Why::Order),
            AnswersFault::Unknown { line } => (line, Why::Unknown),
            AnswersFault::Kind { line } => (line, Why::Kind),
            AnswersFault::Unclosed { line } => (line, Why::Unclosed),
            AnswersFault::Memory => return AuditError::Memory,
        };
        AuditError::Answers { line, why }
    }
}

/// Why there is no map.
#[derive(Clone, Copy, Debug, PartialEq, Eq, Error)]
#[error("{}", self.words().as_str())]
pub enum DeadError {
    /// An error that an audit can have too. Out of memory is always this one, and never a fault of the board.
    Audit(#[from] AuditError),
    /// The collection has no level of that number.
    NoLevel,
    /// The level isn't legal, and why.
    Board(#[from] BoardFault),
}

impl DeadError {
    /// Returns the words that the program prints. Allocates nothing.
    pub fn words(self) -> InlineText<64>
        ensures { inline_text result ≡ error_words self }
    {
        match self {
            DeadError::Audit(error) => error.words(),
            DeadError::NoLevel => text_of("no such level"),
            DeadError::Board(why) => joined(text_of("board "), why.word()),
        }
    }
}
