//! Records as they are in their text.

ghost use Rattle.std.specs.Prelude.{◌+◌, ◌<◌, ◌≤◌, ◌^◌, length};
ghost use Rattle.bstr.specs.Text.{lines_of};
ghost use Rattle.answers.specs.Grammar.{most_patterns};

use crate::line::Left;

/// The kind line of a record.
#[derive(Clone, Copy, Debug, PartialEq, Eq)]
pub enum Kind {
    Solution,
    Unsolvable,
}

/// Where a record is: how many bytes its text still has at each place, and the line of the body.
#[derive(Clone, Copy, Debug, PartialEq, Eq)]
pub struct Place {
    /// From the level line on.
    pub level: usize,
    /// After the kind line.
    pub body: usize,
    /// The number of the line with which the body begins.
    pub line: usize,
    /// From the line `end` on.
    pub end: usize,
    /// After the line `end`.
    pub after: usize,
}

/// A record as it is in its text, not read yet.
#[derive(Clone, Copy, Debug)]
pub struct RecordText<'a> {
    pub(crate) level: usize,
    pub(crate) version: u8,
    pub(crate) kind: Kind,
    // The lines between the kind line and `end`, without the comments at their beginning.
    pub(crate) lines: Left<'a>,
    pub(crate) place: Place,
    ghost in_range: { lines.before + length (lines_of lines.text.now) + 1 < 2 ^ 64 },
    ghost fits: { length lines.text.now < 2 ^ 64 },
}

/// The lines of a certificate that are left to read.
#[derive(Debug, Drop)]
pub struct CertificateLines<'a> {
    pub(crate) version: u8,
    // The number of patterns before.
    pub(crate) patterns: usize,
    pub(crate) left: Left<'a>,
    ghost in_range: { left.before + length (lines_of left.text.now) < 2 ^ 64 },
    ghost few: { patterns ≤ most_patterns },
}
