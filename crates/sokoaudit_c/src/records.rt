//! Where the records of an answers text are.
ghost use Rattle.std.specs.Prelude.{◌≡◌, ◌⊎◌, ◌<◌, List, All, length, map};
ghost use Rattle.answers.specs.Body.{Entry};
ghost use Rattle.answers.specs.FirstFault.{IsFirstAnswersFault};
ghost use Rattle.answers.specs.Grammar.{SpellsEntries};
ghost use Rattle.answers.specs.declared.fault.AnswersFault.{AnswersFault as Fault};
ghost use Rattle.answers.specs.declared.fault.AnswersFault.TheVariants as fault_is;
ghost use Rattle.report.specs.Audit.{error_of};
ghost use Rattle.report.specs.declared.fault.AuditError.TheVariants as error_of_audit;
ghost use Rattle.report.specs.declared.fault.DeadError.TheVariants.{Audit};
ghost use Rattle.sokoaudit_c.specs.Outcome.{Holds, outcome_of_answers, outcome_of_error};
ghost use Rattle.sokoaudit_c.specs.Records.{AreRecordsIn, IsWithin, number_of_kind, span_of};

use crate::outcome::{Outcome, of_answers, of_error};
use answers::{Kind, RecordText, split};
use report::{AuditError, DeadError};
use std::alloc::Global;

/// Where a record is in its text.
#[derive(Clone, Copy, Debug, PartialEq, Eq)]
#[repr(C)]
pub struct RecordSpan {
    /// The number of its level.
    pub level: usize,
    /// 1 for a solution, 2 for a certificate.
    pub kind: usize,
    /// The number of the line with which the body begins.
    pub line: usize,
    /// The offset of the level line.
    pub at: usize,
    /// The offset of the byte after the kind line.
    pub body: usize,
    /// The offset of the line `end`.
    pub body_end: usize,
    /// The offset of the byte after the line `end`.
    pub end: usize,
}

/// Writes where the records of an answers text to this number of levels are, up to the last one that there is space for. Returns 0, or 2 if the
/// text has a fault.
#[unsafe(no_mangle)]
pub extern "C" fn sokoaudit_records(
    alloc: Global,
    answers: &[u8],
    levels: usize,
    records: &mut [RecordSpan],
    outcome: &mut Outcome,
) -> u32
    // The records are those of the entries that the text spells.
    ensures done { result < 2 → (entries : List Entry) × (spelled : SpellsEntries answers.now levels entries)
        × AreRecordsIn answers.now spelled.version entries records.old records.new × (outcome.new ≡ outcome_of_answers 0 (length entries)) }
    // The fault is the first of the text, or out of memory.
    ensures refused { result ≡ 2 → (fault : Fault) × ((fault ≡ fault_is.Memory) ⊎ IsFirstAnswersFault answers.now levels fault)
        × (outcome.new ≡ outcome_of_error (Audit (error_of fault))) }
    // A text with a fault gets its first one, unless memory runs out.
    ensures first { (fault : Fault) → IsFirstAnswersFault answers.now levels fault
        → (outcome.new ≡ outcome_of_error (Audit error_of_audit.Memory)) ⊎ (outcome.new ≡ outcome_of_error (Audit (error_of fault))) }
    ensures fault { result ≡ 2 → records.new ≡ records.old }
    ensures status { (result ≡ 0) ⊎ (result ≡ 2) }
{
    match split(alloc, answers, levels) {
        Ok(found) => {
            put_spans(answers.len(), &found, records);
            *outcome = of_answers(0, found.len());
            0
        }
        Err(fault) => {
            *outcome = of_error(DeadError::Audit(AuditError::from(fault)));
            2
        }
    }
}

// Writes where the records are in a text of this length, up to the last one that there is space for.
fn put_spans(total: usize, records: &[RecordText<'_>], spans: &mut [RecordSpan])
    requires { All (IsWithin total) records.now }
    ensures { Holds spans.old spans.new (map (span_of total) records.now) }
{
    let taken = records.len().min(spans.len());
    for at in 0..taken {
        spans[at] = span_of(total, &records[at]);
    }
}

// Returns where a record is in a text of this length.
fn span_of(total: usize, text: &RecordText<'_>) -> RecordSpan
    requires { IsWithin total text.now }
    ensures { result ≡ span_of total text.now }
{
    let place = text.place();
    RecordSpan {
        level: text.level(),
        kind: kind_number(text.kind()),
        line: place.line,
        at: total - place.level,
        body: total - place.body,
        body_end: total - place.end,
        end: total - place.after,
    }
}

fn kind_number(kind: Kind) -> usize
    ensures { result ≡ number_of_kind kind }
{
    match kind {
        Kind::Solution => 1,
        Kind::Unsolvable => 2,
    }
}
