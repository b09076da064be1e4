//! Reads a certificate line by line. This is for speed: with whole records of `read`, an audit of lists takes 2 to 6 % more instructions.

ghost use Rattle.std.specs.Prelude.{◌≡◌, ◌+◌, ◌<◌, ◌^◌, [], ℕ, List, length, IfOk, IfSome, IfNone, option_map};
ghost use Rattle.answers.specs.Grammar.{said_zone};
ghost use Rattle.answers.specs.Body.{LetterLines, OneZone, PatternLine};
ghost use Rattle.answers.specs.Certificates.{certificate_body, body_by_line, lines_left};
ghost use Rattle.answers.specs.Reading.{after_lines, first_zone};
ghost use Rattle.answers.specs.Records.{SaysOfLevel};
ghost use Rattle.answers.specs.Held.{kept_in, line_count, said_line};

use crate::line::{Left, NumberedLine, next_kept};
use crate::pattern::{Pattern, Zone};
use crate::pattern_line::{pattern_of, zone_of};
use crate::record::{BadLineWhy, CertificateLine};
use crate::record_text::{CertificateLines, Kind, RecordText};
use std::alloc::{AllocError, Global};

// The most patterns that a record may have.
const MOST_PATTERNS: usize = 65_536;

// Reads a zone line after some patterns. It may only be the first line, and in version 2.
#[tactic(auto, unfolding(crate::specs::Reading::first_zone))]
fn first_zone(
    alloc: Global,
    version: u8,
    before: usize,
    line: NumberedLine<'_>,
) -> Result<Option<Zone>, AllocError>
    ensures { IfOk result (λ r. (patterns : List PatternLine) → length patterns ≡ before
        → option_map said_zone r ≡ first_zone version patterns (said_line line.entry)) }
{
    if version == 2 && before == 0 {
        zone_of(alloc, line)
    } else {
        Ok(None)
    }
}

fn bad_line(line: NumberedLine<'_>, why: BadLineWhy) -> CertificateLine
    ensures { result ≡ CertificateLine.BadLine line.entry.number why }
{
    CertificateLine::BadLine {
        line: line.number,
        why,
    }
}

// Returns the zone, or the first line after it.
fn zone_before(zone: Zone, rest: Left<'_>) -> CertificateLine
    requires { line_count rest < 2 ^ 64 }
    ensures says { (version : ℕ) (patterns : List PatternLine) (lines : CertificateLines)
        → after_lines version (OneZone (said_zone zone)) (kept_in rest.entry) ≡ body_by_line patterns result lines }
    ensures last { (p : Pattern) → result ≡ CertificateLine.Pattern p → ⊥ }
{
    match next_kept(rest) {
        None => CertificateLine::Zone(zone),
        Some((_, line, _)) => bad_line(line, BadLineWhy::Syntax),
    }
}

impl CertificateLines<'_> {
    /// Reads what is next, and passes over it if it is a pattern.
    pub fn next(&mut self, alloc: Global) -> Result<CertificateLine, AllocError>
        // What the record says stays the same, whatever the patterns before were.
        ensures says { IfOk result (λ line. (patterns : List PatternLine) → length patterns ≡ self.old.patterns
            → certificate_body patterns self.old ≡ body_by_line patterns line self.new) }
        ensures count { IfOk result (λ line. (p : Pattern) → line ≡ CertificateLine.Pattern p
            → self.new.patterns ≡ self.old.patterns + 1) }
        ensures shorter { IfOk result (λ line. (p : Pattern) → line ≡ CertificateLine.Pattern p
            → length (lines_left self.new) < length (lines_left self.old)) }
    {
        let Some((_, line, rest)) = next_kept(self.left) else {
            return Ok(CertificateLine::End);
        };
        if let Some(zone) = first_zone(alloc, self.version, self.patterns, line)? {
            return Ok(zone_before(zone, rest));
        }
        let Some(pattern) = pattern_of(alloc, line)? else {
            return Ok(bad_line(line, BadLineWhy::Syntax));
        };
        if self.patterns == MOST_PATTERNS {
            return Ok(bad_line(line, BadLineWhy::Count));
        }
        self.left = rest;
        self.patterns += 1;
        Ok(CertificateLine::Pattern(pattern))
    }
}

impl<'a> RecordText<'a> {
    /// Returns the lines of a certificate; `None` for a solution.
    pub fn certificate(&self) -> Option<CertificateLines<'a>>
        ensures some { IfSome result (λ lines. SaysOfLevel self.now (certificate_body [] lines)) }
        ensures none { IfNone result ((lines : List (List ℕ)) × SaysOfLevel self.now (LetterLines lines)) }
        ensures count { IfSome result (λ lines. lines.patterns ≡ 0) }
    {
        match self.kind {
            Kind::Solution => None,
            Kind::Unsolvable => Some(CertificateLines {
                version: self.version,
                patterns: 0,
                left: self.lines,
            }),
        }
    }
}
