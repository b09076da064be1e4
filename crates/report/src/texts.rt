//! The audit of two texts in memory.
ghost use Rattle.std.specs.Prelude.{◌≡◌, ◌⊎◌, IfOk, IfErr, MatchResult};
ghost use Rattle.report.specs.Report.{AreStatuses, IsReport};
ghost use Rattle.report.specs.Summary.{summary_of};
ghost use Rattle.report.specs.Audit.{IsFirstError};

use crate::fault::{AuditError, Which};
use crate::input::levels_in;
use crate::laws::texts_have_one_report;
use crate::report::{judge_levels, report_of};
use crate::status::Status;
use crate::summary::Summary;
use answers::split;
use devices::MAX_TEXT;
use std::alloc::Global;

/// Returns the report on a collection and its answers, as bytes with a line for each level, and the numbers of its last
/// line.
///
/// The error is the first in the order of work: a text is too long, the levels before the answers; there are too many
/// levels; the answers have a fault. The call can run out of memory at any point.
pub fn audit_texts(
    alloc: Global,
    levels: &[u8],
    answers: &[u8],
) -> Result<(Vec<u8>, Summary), AuditError>
    // The bytes and the numbers are the report of the two texts.
    ensures ok { IfOk result (λ told. IsReport levels.now answers.now told.0.items told.1) }
    // An error is the first that the texts have, or out of memory.
    ensures refused { IfErr result (λ error. (error ≡ AuditError.Memory) ⊎ IsFirstError levels.now answers.now error) }
    // Texts with an error get their first one, unless memory runs out.
    ensures first { (error : AuditError) → IsFirstError levels.now answers.now error
        → MatchResult result (λ _. ⊥) (λ e. (e ≡ AuditError.Memory) ⊎ (e ≡ error)) }
{
    let (statuses, summary) = judge_texts(alloc, levels, answers)?;
    match report_of(alloc, &statuses, summary) {
        Ok(text) => Ok((text, summary)),
        Err(_) => Err(AuditError::Memory),
    }
}

/// Returns what the report says of each level, in order, without its text, and the numbers of its last line. `audit_texts`
/// returns the same error.
pub fn judge_texts(
    alloc: Global,
    levels: &[u8],
    answers: &[u8],
) -> Result<(Vec<Status>, Summary), AuditError>
    // Both texts have these statuses, and the summary counts them.
    ensures ok { IfOk result (λ told. AreStatuses levels.now answers.now told.0.items × (told.1 ≡ summary_of told.0.items)) }
    // An error is the first that the texts have, or out of memory.
    ensures refused { IfErr result (λ error. (error ≡ AuditError.Memory) ⊎ IsFirstError levels.now answers.now error) }
    // Texts with an error get their first one, unless memory runs out.
    ensures first { (error : AuditError) → IsFirstError levels.now answers.now error
        → MatchResult result (λ _. ⊥) (λ e. (e ≡ AuditError.Memory) ⊎ (e ≡ error)) }
{
    // For the proof of `first`: two texts have at most one first error, and then no report.
    texts_have_one_report();
    statuses_in(alloc, levels, answers)
}

// Returns the statuses, or the first error.
fn statuses_in(
    alloc: Global,
    levels: &[u8],
    answers: &[u8],
) -> Result<(Vec<Status>, Summary), AuditError>
    ensures ok { IfOk result (λ told. AreStatuses levels.now answers.now told.0.items × (told.1 ≡ summary_of told.0.items)) }
    ensures refused { IfErr result (λ error. (error ≡ AuditError.Memory) ⊎ IsFirstError levels.now answers.now error) }
{
    if levels.len() > MAX_TEXT {
        return Err(AuditError::TooLong {
            which: Which::Levels,
        });
    }
    if answers.len() > MAX_TEXT {
        return Err(AuditError::TooLong {
            which: Which::Answers,
        });
    }
    let levels = levels_in(alloc, levels)?;
    let records = split(alloc, answers, levels.len())?;
    let told = judge_levels(alloc, &levels, &records);
    drop(records);
    drop(levels);
    match told {
        Ok(told) => Ok(told),
        Err(_) => Err(AuditError::Memory),
    }
}
