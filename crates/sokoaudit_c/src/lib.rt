//! The library for C: verdicts in numbers, the report of an audit, made answers and a map, over bytes that the caller lends.
//!
//! The module `verdicts` exports the verdicts on a collection, `judge` the verdict on one level and one record, and `spans` and
//! `records` where levels and records are. The first three exports of this module each call one function of the library `report`.
//! They state what its clauses say of a text that is read whole, with a buffer in the place of the sink. `sokoaudit_fault_text`
//! states how much of its buffer it leaves alone.
//! `include/sokoaudit.h` explains to callers from C what each call takes, writes and returns.
//!
//! Read `specs/Outcome.antt` for what a call leaves in the memory that it is lent, `specs/Numbers.antt` and
//! `specs/Lines.antt` for the numbers of verdicts and what they claim, `specs/Judged.antt` for the texts around a body, and
//! `specs/Spans.antt` and `specs/Records.antt` for what levels and records have in their texts.
#![tactic(auto)]

ghost use Rattle.std.specs.Prelude.{◌≡◌, ◌≤◌, ◌<◌, ◌⊎◌, ℕ, List, codes, length};
ghost use Rattle.report.specs.Audit.{IsFirstError};
ghost use Rattle.report.specs.Collection.{IsDueFor};
ghost use Rattle.report.specs.ErrorWords.{error_words};
ghost use Rattle.report.specs.Report.{IsReport};
ghost use Rattle.report.specs.Summary.{status_of};
ghost use Rattle.report.specs.MadeAnswers.{AreMadeAnswers, IsMadeText};
ghost use Rattle.report.specs.DeadMap.{IsMapOf, IsDueMap};
ghost use Rattle.report.specs.declared.fault.AuditError.{AuditError as Error};
ghost use Rattle.report.specs.declared.fault.AuditError.TheVariants as error_of_audit;
ghost use Rattle.report.specs.declared.fault.DeadError.{DeadError as MapError};
ghost use Rattle.report.specs.declared.fault.DeadError.TheVariants.{Audit};
ghost use Rattle.report.specs.declared.summary.Summary.{Summary as Numbers};
ghost use Rattle.sokoaudit_c.specs.Outcome.{Holds, IsErrorOf, outcome_of_answers, outcome_of_error, outcome_of_map, outcome_of_report};

mod judge;
mod numbers;
mod outcome;
mod records;
mod spans;
mod verdicts;

use answers::Device;
pub use judge::{Fault, bodies_without_end_are_judged, sokoaudit_judge};
pub use numbers::Line;
pub use outcome::Outcome;
use outcome::{error_of, of_answers, of_error, of_map, of_report};
pub use records::{RecordSpan, sokoaudit_records};
use report::{DeadError, audit_texts, dead_map, make_answers};
pub use spans::{Span, sokoaudit_levels};
use std::alloc::Global;
pub use verdicts::sokoaudit_lines;

/// Writes the report of an audit of two texts. Returns the program's exit status: 0, 1, or 2 if there is no report.
#[unsafe(no_mangle)]
pub extern "C" fn sokoaudit_audit(
    alloc: Global,
    levels: &[u8],
    answers: &[u8],
    report: &mut [u8],
    outcome: &mut Outcome,
) -> u32
    // The buffer holds the report of the two texts.
    ensures done { result < 2 → (text : List ℕ) × (numbers : Numbers) × IsReport levels.now answers.now text numbers
        × Holds report.old report.new text × (outcome.new ≡ outcome_of_report (length text) numbers) × (result ≡ status_of numbers) }
    // The error is the first of the two texts, or out of memory.
    ensures refused { result ≡ 2 → (error : Error)
        × ((error ≡ error_of_audit.Memory) ⊎ IsFirstError levels.now answers.now error) × (outcome.new ≡ outcome_of_error (Audit error)) }
    // Texts with an error get their first one, unless memory runs out.
    ensures first { (error : Error) → IsFirstError levels.now answers.now error
        → (outcome.new ≡ outcome_of_error (Audit error_of_audit.Memory)) ⊎ (outcome.new ≡ outcome_of_error (Audit error)) }
    ensures fault { result ≡ 2 → report.new ≡ report.old }
    ensures status { result ≤ 2 }
{
    match audit_texts(alloc, levels, answers) {
        Ok((text, summary)) => {
            put(&text, report);
            *outcome = of_report(text.len(), summary);
            summary.exit_status().into()
        }
        Err(error) => {
            *outcome = of_error(DeadError::Audit(error));
            2
        }
    }
}

/// Writes the answers that are made for a collection. Returns 0, or 2 if an error came first.
#[unsafe(no_mangle)]
pub extern "C" fn sokoaudit_make(
    alloc: Global,
    levels: &[u8],
    answers: &mut [u8],
    outcome: &mut Outcome,
) -> u32
    ensures done { result < 2 → (text : List ℕ) × (records : ℕ) × AreMadeAnswers levels.now text records
        × Holds answers.old answers.new text × (outcome.new ≡ outcome_of_answers (length text) records) }
    // The error comes at its place in the order of work.
    ensures refused { result ≡ 2 → (error : Error) × IsDueFor (IsMadeText levels.now) levels.now error × (outcome.new ≡ outcome_of_error (Audit error)) }
    ensures fault { result ≡ 2 → answers.new ≡ answers.old }
    ensures status { (result ≡ 0) ⊎ (result ≡ 2) }
{
    let mut text = Device::new(Vec::new(alloc));
    match make_answers(alloc, &mut Device::new(levels), &mut text) {
        Ok(records) => {
            let text = text.into_inner();
            put(&text, answers);
            *outcome = of_answers(text.len(), records);
            0
        }
        Err(error) => {
            *outcome = of_error(DeadError::Audit(error));
            2
        }
    }
}

/// Writes the map of the level with this number. Returns 0, or 2 if there is no map.
#[unsafe(no_mangle)]
pub extern "C" fn sokoaudit_dead(
    alloc: Global,
    levels: &[u8],
    number: usize,
    map: &mut [u8],
    outcome: &mut Outcome,
) -> u32
    ensures done { result < 2 → (text : List ℕ) × IsMapOf levels.now number text
        × Holds map.old map.new text × (outcome.new ≡ outcome_of_map (length text)) }
    // The error comes at its place in the order of work.
    ensures refused { result ≡ 2 → (error : MapError) × IsDueMap levels.now number error × (outcome.new ≡ outcome_of_error error) }
    ensures fault { result ≡ 2 → map.new ≡ map.old }
    ensures status { (result ≡ 0) ⊎ (result ≡ 2) }
{
    let mut text = Device::new(Vec::new(alloc));
    match dead_map(alloc, &mut Device::new(levels), number, &mut text) {
        Ok(()) => {
            let text = text.into_inner();
            put(&text, map);
            *outcome = of_map(text.len());
            0
        }
        Err(error) => {
            *outcome = of_error(error);
            2
        }
    }
}

/// Writes the words of an outcome's fault, or as many bytes of them as there is space for. Returns the length of all words in bytes.
#[unsafe(no_mangle)]
pub extern "C" fn sokoaudit_fault_text(outcome: &Outcome, text: &mut [u8]) -> usize
    // The buffer begins with some words, and the rest of it is unchanged.
    ensures words { (words : List ℕ) × (length words ≤ 64) × (result ≡ length words) × Holds text.old text.new words }
    // They are the words of an error with the outcome's number and line.
    ensures exact { 0 < outcome.now.fault → outcome.now.fault ≤ 16
        → (error : MapError) × IsErrorOf outcome.now error × Holds text.old text.new (error_words error) }
    ensures memory { outcome.now.fault ≡ 1 → Holds text.old text.new (codes "out of memory") }
    ensures none { (outcome.now.fault ≡ 0) ⊎ (16 < outcome.now.fault) → result ≡ 0 }
{
    let Some(error) = error_of(outcome) else {
        return 0;
    };
    let words = error.words();
    put(words.as_str().as_bytes(), text);
    words.as_str().len()
}

// Copies a text to the beginning of a buffer, or as much of it as there is space for.
fn put(text: &[u8], buffer: &mut [u8])
    ensures { Holds buffer.old buffer.new text.now }
{
    let taken = text.len().min(buffer.len());
    buffer[..taken].copy_from_slice(&text[..taken]);
}
