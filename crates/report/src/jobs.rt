//! The audit of two texts that are read from devices.
ghost use Rattle.std.specs.Prelude.{◌≡◌, ◌≢◌, ◌+◌, ℕ, List, Some, IfOk, IfErr, IsErrOf};
ghost use Rattle.std.specs.Io.KnownBytes.{Appends, Keeps};
ghost use Rattle.devices.specs.Device.{AppendsBeginning};
ghost use Rattle.report.specs.Report.{IsReport};
ghost use Rattle.devices.specs.Reading.{most_bytes, TakesAtMost};
ghost use Rattle.report.specs.Audit.{IsReportText, IsDue, CountsAudit};

use crate::fault::{AuditError, Which};
use crate::input::read_error;
use crate::summary::Summary;
use crate::texts::audit_texts;
use devices::{Sink, Source, read_whole, write_whole};
use std::alloc::Global;

/// Audits a collection: reads the levels and their answers, and writes the report, with a line for each level.
///
/// Reads both sources to their ends, the levels first. Then writes the report of `audit_texts`, without a flush. The error
/// is the first in the order of work: a text can't be read or is too long, the levels before the answers; there are too
/// many levels; the answers have a fault; the report can't be written. The call can run out of memory only before it
/// writes.
pub fn audit<L: Source, A: Source, W: Sink>(
    alloc: Global,
    levels: &mut L,
    answers: &mut A,
    report: &mut W,
) -> Result<Summary, AuditError>
    // The whole report of the two texts is written, and nothing else.
    ensures ok { (lt at : List ℕ) → L.left levels.old ≡ Some lt → A.left answers.old ≡ Some at
        → IfOk result (λ summary. (text : List ℕ) × IsReport lt at text summary × Appends (W.held report.old) (W.held report.new) text) }
    // An error comes at its place in the order of work.
    ensures refused { (lt at : List ℕ) → L.left levels.old ≡ Some lt → A.left answers.old ≡ Some at
        → IfErr result (λ error. IsDue lt at error) }

    // A failed write leaves a beginning of the report. After any other error nothing was written.
    ensures beginning { (lt at : List ℕ) → L.left levels.old ≡ Some lt → A.left answers.old ≡ Some at → IsErrOf result AuditError.Write
        → (text : List ℕ) × IsReportText lt at text × AppendsBeginning (W.held report.old) (W.held report.new) text }
    ensures untouched { IfErr result (λ error. error ≢ AuditError.Write → Keeps (W.held report.old) (W.held report.new)) }
    // The failures of a device are counted exactly if its error is returned.
    ensures cause { CountsAudit
        (record { before = L.failures levels.old; after = L.failures levels.new })
        (record { before = A.failures answers.old; after = A.failures answers.new })
        (record { before = W.failures report.old; after = W.failures report.new }) result }
    ensures taken { TakesAtMost (most_bytes + 1) (L.left levels.old) (L.left levels.new)
        × TakesAtMost (most_bytes + 1) (A.left answers.old) (A.left answers.new) }
{
    let levels_text = match read_whole(alloc, levels) {
        Ok(text) => text,
        Err(fault) => return Err(read_error(fault, Which::Levels)),
    };
    let answers_text = match read_whole(alloc, answers) {
        Ok(text) => text,
        Err(fault) => return Err(read_error(fault, Which::Answers)),
    };
    let (text, summary) = audit_texts(alloc, &levels_text, &answers_text)?;
    match write_whole(report, &text) {
        Ok(()) => Ok(summary),
        Err(_) => Err(AuditError::Write),
    }
}
