//! The audit of two texts, with a verdict in numbers for each level.
ghost use Rattle.std.specs.Prelude.{◌≡◌, ◌<◌, ◌≤◌, ◌⊎◌, List, map};
ghost use Rattle.report.specs.Audit.{IsFirstError};
ghost use Rattle.report.specs.Report.{AreStatuses};
ghost use Rattle.report.specs.Summary.{status_of, summary_of};
ghost use Rattle.report.specs.declared.fault.AuditError.{AuditError as Error};
ghost use Rattle.report.specs.declared.fault.AuditError.TheVariants as error_of_audit;
ghost use Rattle.report.specs.declared.fault.DeadError.TheVariants.{Audit};
ghost use Rattle.report.specs.declared.status.Status.{Status as Said};
ghost use Rattle.sokoaudit_c.specs.Lines.{AreRight, SpellReport};
ghost use Rattle.sokoaudit_c.specs.Numbers.{numbers_of as numbers};
ghost use Rattle.sokoaudit_c.specs.Outcome.{Holds, outcome_of_error, outcome_of_report};

use crate::numbers::{Line, numbers_of};
use crate::outcome::{Outcome, of_error, of_report};
use report::{DeadError, Status, judge_texts, reports_can_be_read_back, texts_have_one_report};
use std::alloc::Global;

/// Writes what an audit of two texts says of each level, as numbers. Returns the program's exit status: 0, 1, or 2 if there
/// is no report.
#[unsafe(no_mangle)]
pub extern "C" fn sokoaudit_lines(
    alloc: Global,
    levels: &[u8],
    answers: &[u8],
    lines: &mut [Line],
    outcome: &mut Outcome,
) -> u32
    // Each entry has the numbers of its level's status, and what it claims is true.
    ensures done { result < 2 → (statuses : List Said) × (are : AreStatuses levels.now answers.now statuses)
        × Holds lines.old lines.new (map numbers statuses) × AreRight are.levels are.entries lines.new
        × (outcome.new ≡ outcome_of_report 0 (summary_of statuses)) × (result ≡ status_of (summary_of statuses)) }
    // The lines of the report are what the entries spell.
    ensures printed { result < 2 → SpellReport levels.now answers.now lines.new }
    // The error is the first of the two texts, or out of memory.
    ensures refused { result ≡ 2 → (error : Error)
        × ((error ≡ error_of_audit.Memory) ⊎ IsFirstError levels.now answers.now error) × (outcome.new ≡ outcome_of_error (Audit error)) }
    // Texts with an error get their first one, unless memory runs out.
    ensures first { (error : Error) → IsFirstError levels.now answers.now error
        → (outcome.new ≡ outcome_of_error (Audit error_of_audit.Memory)) ⊎ (outcome.new ≡ outcome_of_error (Audit error)) }
    ensures fault { result ≡ 2 → lines.new ≡ lines.old }
    ensures status { result ≤ 2 }
{
    // For the proof of `printed`: the report of two texts is one, and has these statuses.
    texts_have_one_report();
    reports_can_be_read_back();
    match judge_texts(alloc, levels, answers) {
        Ok((statuses, summary)) => {
            put_lines(&statuses, lines);
            *outcome = of_report(0, summary);
            summary.exit_status().into()
        }
        Err(error) => {
            *outcome = of_error(DeadError::Audit(error));
            2
        }
    }
}

// Writes the numbers of the statuses to the first entries, up to the last entry.
fn put_lines(statuses: &[Status], lines: &mut [Line])
    ensures { Holds lines.old lines.new (map numbers statuses.now) }
{
    let taken = statuses.len().min(lines.len());
    for at in 0..taken {
        lines[at] = numbers_of(statuses[at]);
    }
}
