//! Reads the body of a record.

ghost use Rattle.std.specs.Prelude.{◌≡◌, ◌+◌, ◌<◌, ◌-◌, ◌^◌, [], map, IfOk};
ghost use Rattle.answers.specs.Grammar.{HasLettersWithin, said_body};
ghost use Rattle.answers.specs.Certificates.{certificate_body};
ghost use Rattle.answers.specs.Records.{SaysOfLevel};
ghost use Rattle.answers.specs.Held.{kept_in, line_count};

use crate::line::{Left, next_kept};
use crate::record::{CertificateLine, Record};
use crate::record_text::{CertificateLines, Kind, Place, RecordText};
use std::alloc::{AllocError, Global};

// Reads the lines of a certificate.
fn certificate<'a>(alloc: Global, lines: CertificateLines<'_>) -> Result<Record<'a>, AllocError>
    requires { lines.patterns ≡ 0 }
    ensures { IfOk result (λ r. said_body r ≡ certificate_body [] lines.entry) }
{
    let mut patterns = Vec::new(alloc);
    let mut left = lines;
    loop {
        match left.next(alloc)? {
            CertificateLine::Pattern(pattern) => patterns.push(pattern)?,
            CertificateLine::End => return Ok(Record::Patterns(patterns)),
            CertificateLine::Zone(zone) => {
                drop(patterns);
                return Ok(Record::Zone(zone));
            }
            CertificateLine::BadLine { line, why } => {
                drop(patterns);
                return Ok(Record::BadLine { line, why });
            }
        }
    }
}

// Returns the lines of a solution.
fn letter_lines<'a>(alloc: Global, lines: Left<'a>) -> Result<Vec<&'a [u8]>, AllocError>
    requires { line_count lines < 2 ^ 64 }
    ensures { IfOk result (λ letters. map (λ l. l.now) letters.items ≡ map (λ l. l.text) (kept_in lines.entry)) }
{
    let mut letters = Vec::new(alloc);
    let mut left = lines;
    while let Some((_, line, rest)) = next_kept(left) {
        letters.push(line.text)?;
        left = rest;
    }
    Ok(letters)
}

// Reads what a record says.
fn said_of<'a>(alloc: Global, text: &RecordText<'a>) -> Result<Record<'a>, AllocError>
    ensures { IfOk result (λ r. SaysOfLevel text.now (said_body r)) }
{
    match text.certificate() {
        Some(lines) => certificate(alloc, lines),
        None => Ok(Record::Solution(letter_lines(alloc, text.lines)?)),
    }
}

impl<'a> RecordText<'a> {
    /// Returns the number of the level.
    pub fn level(&self) -> usize
        ensures { result ≡ self.now.level }
    {
        self.level
    }

    /// Returns the kind.
    pub fn kind(&self) -> Kind
        ensures { result ≡ self.now.kind }
    {
        self.kind
    }

    /// Returns where the record is.
    pub fn place(&self) -> Place
        ensures { result ≡ self.now.place }
    {
        self.place
    }

    /// Reads what the record says of its level. Letters are borrowed from the text.
    pub fn read(&self, alloc: Global) -> Result<Record<'a>, AllocError>
        ensures says { IfOk result (λ r. SaysOfLevel self.now (said_body r)) }
        // For callers: a `u64` can count the letters of all lines.
        ensures letters { IfOk result (HasLettersWithin (2 ^ 64 - 1)) }
    {
        said_of(alloc, self)
    }
}
