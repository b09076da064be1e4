//! Splits an answers text into its records without reading them.

ghost use Rattle.std.specs.Prelude.{◌≡◌, ◌+◌, ◌<◌, ◌^◌, ◌⊎◌, ◌++◌, ◌∷◌, [], List, map, length, IfOk, IfErr, IfSome, IfNone, MatchResult, Ok, Err, Some};
ghost use Rattle.answers.specs.Grammar.{SpellsEntries};
ghost use Rattle.answers.specs.Body.{Entry};
ghost use Rattle.answers.specs.FirstFault.{IsFirstAnswersFault};
ghost use Rattle.answers.specs.Reading.{Gives, HasNextFault, HasNextRecord, body_after, entry_of, level_after, opened, outcome, records_under, version_in};
ghost use Rattle.answers.specs.Records.{AreEntriesOf, AreRecordsFrom, HasRecords, IsNextRecord};
ghost use Rattle.answers.specs.Held.{line_count, kept_in, said_line};

use crate::fault::AnswersFault;
use crate::line::{Left, NumberedLine, after_comments, cut_at_end, next_kept};
use crate::pattern_line::{level_digits, number_in};
use crate::record_text::{Kind, Place, RecordText};
use bstr::ByteSlice;
use lines::first_line;
use std::alloc::Global;

#[tactic(auto, unfolding(crate::specs::Reading::version_in))]
fn version_of(header: &[u8]) -> Option<u8>
    ensures { result ≡ version_in header.now }
{
    if header == b"sokoban-answers 1".as_slice() {
        Some(1)
    } else if header == b"sokoban-answers 2".as_slice() {
        Some(2)
    } else {
        None
    }
}

// Reads a level line.
#[tactic(auto, unfolding(crate::specs::Reading::level_after))]
fn level_after(last: usize, levels: usize, line: NumberedLine<'_>) -> Result<usize, AnswersFault>
    ensures { result ≡ level_after last levels (said_line line.entry) }
{
    let Some(digits) = level_digits(line.text) else {
        return Err(AnswersFault::Level { line: line.number });
    };
    match number_in(digits) {
        Some(level) if level <= last => Err(AnswersFault::Order { line: line.number }),
        Some(level) if level <= levels => Ok(level),
        _ => Err(AnswersFault::Unknown { line: line.number }),
    }
}

// Reads a kind line.
#[tactic(auto, unfolding(crate::specs::Reading::body_after))]
fn kind_of(line: NumberedLine<'_>) -> Result<Kind, AnswersFault>
    ensures { MatchResult result (λ kind. body_after (said_line line.entry) ≡ Ok (opened kind))
        (λ fault. body_after (said_line line.entry) ≡ Err fault) }
{
    if line.text == b"solution".as_slice() {
        Ok(Kind::Solution)
    } else if line.text == b"unsolvable".as_slice() {
        Ok(Kind::Unsolvable)
    } else {
        Err(AnswersFault::Kind { line: line.number })
    }
}

// Returns the fault of a text that ends inside a record, by the rest of the text.
fn unclosed(lines: Left<'_>) -> AnswersFault
    requires { line_count lines + 1 < 2 ^ 64 }
    ensures { result ≡ AnswersFault.Unclosed (line_count lines.entry + 1) }
{
    let count = lines.before + lines.text.lines().count();
    AnswersFault::Unclosed { line: count + 1 }
}

// Returns the next record, after the record of level `last`, and the rest of the text.
fn next_record<'a>(
    version: u8,
    levels: usize,
    last: usize,
    lines: Left<'a>,
) -> Result<Option<(RecordText<'a>, Left<'a>)>, AnswersFault>
    requires { line_count lines + 1 < 2 ^ 64 }
    ensures some { IfOk result (λ found. IfSome found (λ next.
        HasNextRecord version levels last (kept_in lines.entry) next.0 (kept_in next.1))) }
    ensures none { IfOk result (λ found. IfNone found (kept_in lines.entry ≡ [])) }
    ensures place { IfOk result (λ found. IfSome found (λ next.
        IsNextRecord version lines.entry.before lines.entry.text.now next.0 next.1.text.now next.1.before)) }
    ensures count { IfOk result (λ found. IfSome found (λ next. line_count next.1 ≡ line_count lines.entry)) }
    ensures shorter { IfOk result (λ found. IfSome found (λ next.
        length next.1.text.now < length lines.entry.text.now)) }
    ensures fault { IfErr result (HasNextFault version levels last (line_count lines.entry) (kept_in lines.entry)) }
{
    let Some((from, line, after_level)) = next_kept(lines) else {
        return Ok(None);
    };
    let level = level_after(last, levels, line)?;
    let Some((_, line, inside)) = next_kept(after_level) else {
        return Err(unclosed(after_level));
    };
    let kind = kind_of(line)?;
    let content = after_comments(inside);
    let Some((body, end, rest)) = cut_at_end(content) else {
        return Err(unclosed(content));
    };
    let found = RecordText {
        level,
        version,
        kind,
        lines: Left {
            before: content.before,
            text: body,
        },
        place: Place {
            level: from.text.len(),
            body: inside.text.len(),
            line: inside.before + 1,
            end: end.text.len(),
            after: rest.text.len(),
        },
    };
    Ok(Some((found, rest)))
}

// Returns the records in the lines after the header.
fn records_in<'a>(
    alloc: Global,
    version: u8,
    levels: usize,
    lines: Left<'a>,
) -> Result<Vec<RecordText<'a>>, AnswersFault>
    requires { line_count lines + 1 < 2 ^ 64 }
    ensures gives { Gives (λ v. map entry_of v.items) result
        (records_under (Some version) levels (line_count lines.entry) (kept_in lines.entry)) }
    ensures places { IfOk result (λ records. AreRecordsFrom version lines.entry.before lines.entry.text.now records.items) }
{
    let mut records = Vec::new(alloc);
    let mut last = 0;
    let mut left = lines;
    while let Some((found, rest)) = next_record(version, levels, last, left)? {
        last = found.level;
        let Ok(()) = records.push(found) else {
            drop(records);
            return Err(AnswersFault::Memory);
        };
        left = rest;
    }
    Ok(records)
}

// Returns the records of the text, or its first fault.
fn outcome<'a>(
    alloc: Global,
    text: &'a [u8],
    levels: usize,
) -> Result<Vec<RecordText<'a>>, AnswersFault>
    ensures gives { Gives (λ v. map entry_of v.items) result (outcome text.now levels) }
    ensures places { IfOk result (λ records. HasRecords text.now records.items) }
{
    if text.is_empty() {
        return Err(AnswersFault::Header { line: 1 });
    }
    let (header, below) = first_line(text);
    let Some(version) = version_of(header) else {
        return Err(AnswersFault::Header { line: 1 });
    };
    let below = Left {
        before: 1,
        text: below,
    };
    records_in(alloc, version, levels, below)
}

/// Splits an answers text to a collection of `levels` levels into its records. Each borrows its body from the text.
pub fn split(alloc: Global, text: &[u8], levels: usize) -> Result<Vec<RecordText<'_>>, AnswersFault>
    // The text spells what its records say.
    ensures found { IfOk result (λ records. (entries : List Entry) × SpellsEntries text.now levels entries
        × AreEntriesOf records.items entries) }
    // If the text spells entries, their records are found, unless memory runs out.
    ensures only { (entries : List Entry) → SpellsEntries text.now levels entries
        → MatchResult result (λ records. AreEntriesOf records.items entries) (λ e. e ≡ AnswersFault.Memory) }
    // The records have the places of the text's records.
    ensures places { IfOk result (λ records. HasRecords text.now records.items) }

    // A fault is the first one.
    ensures exact { IfErr result (λ e. (e ≡ AnswersFault.Memory) ⊎ IsFirstAnswersFault text.now levels e) }
    // A text with a fault gets its first one, unless memory runs out.
    ensures refused { (fault : AnswersFault) → IsFirstAnswersFault text.now levels fault
        → MatchResult result (λ _. ⊥) (λ e. (e ≡ AnswersFault.Memory) ⊎ (e ≡ fault)) }
{
    outcome(alloc, text, levels)
}
