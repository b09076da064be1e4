//! The verdict on one level and the body of one record.
ghost use Rattle.std.specs.Prelude.{◌≡◌, ◌≢◌, ◌<◌, ◌⊎◌, ℕ, List, [], ◌∷◌, length, IfOk, IfErr, Err};
ghost use Rattle.report.specs.Audit.{IsFirstError};
ghost use Rattle.report.specs.Report.{AreStatuses};
ghost use Rattle.report.specs.declared.fault.AuditError.TheVariants.{Answers};
ghost use Rattle.answers.specs.declared.fault.Why.{Why as AnswersWhy};
ghost use Rattle.report.specs.declared.status.Status.{Status as Said};
ghost use Rattle.sokoaudit_c.specs.Judged.{IsFirstFault, NoneEndsIn, answers_around, in_body, number_of_fault};
ghost use Rattle.sokoaudit_c.specs.Numbers.{no_line, numbers_of as numbers};

use crate::numbers::{Line, NONE, numbers_of};
use answers::texts_have_one_reading;
use board::{LevelsFault, levels, lines_have_one_list_of_levels};
use report::{AuditError, Status, Which, judge_texts};
use std::alloc::{AllocError, Global};

/// Why there is no verdict.
#[derive(Clone, Copy, Debug, PartialEq, Eq)]
pub enum Fault {
    /// The system refused memory.
    Memory,
    /// The level text has more bytes than a text may have.
    LevelTooLong,
    /// The answers text around the body has more bytes than a text may have.
    BodyTooLong,
    /// The level text has more than one level.
    ManyLevels,
    /// The level text has no level.
    NoLevel,
    /// The body has a line `end`.
    BodyEnd,
    /// The kind names neither a solution nor a certificate.
    Kind,
}

/// Writes what an audit says of a level with this record, as numbers. Returns 0, or the number of a fault if there is no
/// verdict.
#[unsafe(no_mangle)]
pub extern "C" fn sokoaudit_judge(
    alloc: Global,
    level: &[u8],
    kind: u32,
    body: &[u8],
    line: &mut Line,
) -> u32
    // The audit of the level and of the answers around the body has one status, and the line has its numbers.
    ensures done { result ≡ 0 → (status : Said) × AreStatuses level.now (answers_around kind body.now) (status ∷ []) × (line.new ≡ in_body (numbers status)) }
    // The fault is the first, or out of memory.
    ensures refused { result ≢ 0 → (fault : Fault) × IsFirstFault level.now kind body.now fault × (result ≡ number_of_fault fault) }
    ensures fault { result ≢ 0 → line.new ≡ no_line }
    // Another kind comes before all other faults.
    ensures kind { kind ≢ 1 → kind ≢ 2 → result ≡ number_of_fault Fault.Kind }
{
    match verdict(alloc, level, kind, body) {
        Ok(status) => {
            *line = counted_in_body(numbers_of(status));
            0
        }
        Err(fault) => {
            *line = NONE;
            number_of(fault)
        }
    }
}

// Returns the status of the level by its record.
fn verdict(alloc: Global, level: &[u8], kind: u32, body: &[u8]) -> Result<Status, Fault>
    ensures ok { IfOk result (λ status. AreStatuses level.now (answers_around kind body.now) (status ∷ [])) }
    ensures err { IfErr result (IsFirstFault level.now kind body.now) }
    ensures kind { kind ≢ 1 → kind ≢ 2 → result ≡ Err Fault.Kind }
{
    if kind != 1 && kind != 2 {
        return Err(Fault::Kind);
    }
    let Ok(answers) = answers_text(alloc, kind, body) else {
        return Err(Fault::Memory);
    };
    match judge_texts(alloc, level, &answers) {
        Ok((statuses, _)) => only_status(&statuses),
        Err(error) => Err(fault_of(alloc, level, error)),
    }
}

// Returns the one status of a text with one level.
fn only_status(statuses: &[Status]) -> Result<Status, Fault>
    ensures ok { IfOk result (λ status. statuses.now ≡ status ∷ []) }
    ensures err { IfErr result (λ fault. ((fault ≡ Fault.NoLevel) × (length statuses.now ≡ 0)) ⊎ ((fault ≡ Fault.ManyLevels) × (1 < length statuses.now))) }
{
    match statuses.len() {
        0 => Err(Fault::NoLevel),
        1 => Ok(statuses[0]),
        _ => Err(Fault::ManyLevels),
    }
}

// Returns the fault that an error of the two texts comes from.
fn fault_of(alloc: Global, level: &[u8], error: AuditError) -> Fault
    ensures { (kind : ℕ) (body : List ℕ) → (error ≡ AuditError.Memory) ⊎ IsFirstError level.now (answers_around kind body) error
        → IsFirstFault level.now kind body result }
{
    match error {
        AuditError::TooLong {
            which: Which::Levels,
        } => Fault::LevelTooLong,
        AuditError::TooLong {
            which: Which::Answers,
        } => Fault::BodyTooLong,
        AuditError::TooManyLevels => Fault::ManyLevels,
        AuditError::Answers { .. } => fault_of_record(alloc, level),
        AuditError::Read { .. } | AuditError::Write | AuditError::Memory => Fault::Memory,
    }
}

// Returns the fault of a level text and a record whose answers text has an error: the level text has no level or several, or the
// body has a line `end`.
fn fault_of_record(alloc: Global, level: &[u8]) -> Fault
    ensures { (kind : ℕ) (body : List ℕ) (line : ℕ) (why : AnswersWhy) → IsFirstError level.now (answers_around kind body) (Answers line why)
        → IsFirstFault level.now kind body result }
{
    match levels(alloc, level) {
        Ok(found) => match found.len() {
            0 => Fault::NoLevel,
            1 => Fault::BodyEnd,
            _ => Fault::ManyLevels,
        },
        Err(LevelsFault::TooMany) => Fault::ManyLevels,
        Err(LevelsFault::Memory) => Fault::Memory,
    }
}

// Returns the answers text with this record for level 1.
fn answers_text(alloc: Global, kind: u32, body: &[u8]) -> Result<Vec<u8>, AllocError>
    ensures { IfOk result (λ text. text.items ≡ answers_around kind body.now) }
{
    let mut text = Vec::new(alloc);
    text.extend_from_slice(b"sokoban-answers 2\nlevel 1\n")?;
    let kind_line: &[u8] = if kind == 1 {
        b"solution\n"
    } else {
        b"unsolvable\n"
    };
    text.extend_from_slice(kind_line)?;
    text.extend_from_slice(body)?;
    text.extend_from_slice(b"\nend\n")?;
    Ok(text)
}

// Returns the numbers with the line counted from the first line of the body.
fn counted_in_body(line: Line) -> Line
    ensures { result ≡ in_body line }
{
    Line {
        line: line.line.saturating_sub(3),
        ..line
    }
}

fn number_of(fault: Fault) -> u32
    ensures { result ≡ number_of_fault fault }
{
    match fault {
        Fault::Memory => 1,
        Fault::LevelTooLong => 2,
        Fault::BodyTooLong => 3,
        Fault::ManyLevels => 4,
        Fault::NoLevel => 11,
        Fault::BodyEnd => 17,
        Fault::Kind => 18,
    }
}

/// A body without a line `end` makes an answers text without a fault, so there is a verdict on it or a fault of another name.
///
/// A law does nothing when it runs. The calls in its body name the laws that it rests on.
pub fn bodies_without_end_are_judged()
    ensures { (level : List ℕ) (kind : ℕ) (body : List ℕ) → NoneEndsIn body → IsFirstFault level kind body Fault.BodyEnd → ⊥ }
{
    lines_have_one_list_of_levels();
    texts_have_one_reading();
}
