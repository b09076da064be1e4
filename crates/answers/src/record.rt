//! The records of an answers text, read or made.

ghost use Rattle.answers.specs.Words.{bad_line_word};
ghost use Rattle.std.specs.Prelude.{◌≡◌};

use crate::pattern::{Pattern, Zone};
use thiserror::Error;

/// Why a line is bad.
#[derive(Clone, Copy, Debug, PartialEq, Eq, Error)]
#[error("{}", self.word())]
pub enum BadLineWhy {
    /// No line like this may be there.
    Syntax,
    /// The line is the 65,537th pattern line of its record.
    Count,
}

impl BadLineWhy {
    /// Returns the word of the report.
    pub fn word(self) -> &'static str
        ensures { result.now ≡ bad_line_word self }
    {
        match self {
            BadLineWhy::Syntax => "syntax",
            BadLineWhy::Count => "count",
        }
    }
}

/// What a record of the text says of its level.
#[derive(Clone, Debug, PartialEq, Eq, Drop)]
pub enum Record<'a> {
    /// The letter lines of a solution, borrowed from the text.
    Solution(Vec<&'a [u8]>),
    /// The patterns of a certificate.
    Patterns(Vec<Pattern>),
    /// The zone of a certificate.
    Zone(Zone),
    /// The first bad line of a certificate.
    BadLine { line: usize, why: BadLineWhy },
}

/// What is next in a certificate.
#[derive(Clone, Debug, PartialEq, Eq, Drop)]
pub enum CertificateLine {
    /// A pattern. More lines may follow.
    Pattern(Pattern),
    /// The lines are over, and the patterns before are the certificate.
    End,
    /// The zone that is the certificate.
    Zone(Zone),
    /// The first bad line of the certificate.
    BadLine { line: usize, why: BadLineWhy },
}

/// The records of a text, each with the number of its level. The numbers rise.
#[derive(Clone, Debug, PartialEq, Eq, Drop)]
pub struct Answers<'a> {
    pub records: Vec<(usize, Record<'a>)>,
}

/// What a made record says of its level.
#[derive(Clone, Debug, PartialEq, Eq, Drop)]
pub enum MadeBody<'a> {
    /// The letters of a solution.
    Letters(&'a [u8]),
    /// The patterns of a certificate.
    Patterns(Vec<Pattern>),
    /// The zone of a certificate.
    Zone(Zone),
}

/// A record to write, and the number of its level.
#[derive(Clone, Debug, PartialEq, Eq, Drop)]
pub struct MadeRecord<'a> {
    pub level: usize,
    pub body: MadeBody<'a>,
}
