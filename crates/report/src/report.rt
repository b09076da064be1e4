//! The statuses of a collection, and its report with the totals.
ghost use Rattle.std.specs.Prelude.{◌≡◌, ◌+◌, ◌*◌, ◌<◌, ◌≤◌, ◌-◌, ◌^◌, ℕ, length, map, drop, IfOk};
ghost use Rattle.answers.specs.Reading.{entry_of};
ghost use Rattle.report.specs.Judging.{said_answer, RiseFrom};
ghost use Rattle.report.specs.Answer.{answer_to as answer_in};
ghost use Rattle.report.specs.Report.{AllMean, AllSay};
ghost use Rattle.report.specs.Summary.{summary_of};
ghost use Rattle.report.specs.Words.{report_text};

use crate::judging::{Scratch, judge};
use crate::line::{push_line, push_total};
use crate::status::Status;
use crate::summary::Summary;
use answers::RecordText;
use board::LevelText;
use cellset::BitSet;
use std::alloc::{AllocError, Global};

/// Room for a line of the report, in bytes. Few lines are longer.
const LINE_ROOM: usize = 80;

// Returns the next record if it has level `before + 1`, and then moves `next` to the record after it.
fn answer_to<'r, 'a>(
    records: &'r [RecordText<'a>],
    next: &mut usize,
    before: usize,
) -> Option<&'r RecordText<'a>>
    requires room { before < 2 ^ 64 - 1 }
    requires rise { RiseFrom before (drop next.old (map entry_of records.now)) }
    ensures answer { said_answer result ≡ answer_in (before + 1) (drop next.old (map entry_of records.now)) }
    ensures rise { RiseFrom (before + 1) (drop next.new (map entry_of records.now)) }
    ensures rest { (n : ℕ) → before + 1 < n → answer_in n (drop next.new (map entry_of records.now)) ≡ answer_in n (drop next.old (map entry_of records.now)) }
{
    if *next >= records.len() {
        return None;
    }
    let found = &records[*next];
    if found.level() != before + 1 {
        return None;
    }
    *next += 1;
    Some(found)
}

/// Returns the status of each level by its answer, in order, and their summary. Each record is read
/// when its level is judged, so only one is in memory at a time.
pub fn judge_levels(
    alloc: Global,
    levels: &[LevelText<'_>],
    answers: &[RecordText<'_>],
) -> Result<(Vec<Status>, Summary), AllocError>
    requires few { length levels.now ≤ 10000 }
    requires rise { RiseFrom 0 (map entry_of answers.now) }
    ensures { IfOk result (λ judged. AllSay levels.now (map entry_of answers.now) judged.0.items
        × AllMean levels.now (map entry_of answers.now) judged.0.items × (judged.1 ≡ summary_of judged.0.items)) }
{
    let mut statuses = Vec::with_capacity(alloc, levels.len())?;
    let mut summary = Summary::new();
    let mut scratch = Scratch::<BitSet>::new(alloc);
    let mut next = 0;
    for (before, level) in levels.iter().enumerate() {
        let answer = answer_to(answers, &mut next, before);
        let Ok(status) = judge(alloc, level, answer, &mut scratch) else {
            drop(scratch);
            return Err(AllocError);
        };
        statuses.push_reserved(status);
        summary.add(status);
    }
    drop(scratch);
    Ok((statuses, summary))
}

/// Returns the report of levels with these statuses and this summary.
pub fn report_of(
    alloc: Global,
    statuses: &[Status],
    summary: Summary,
) -> Result<Vec<u8>, AllocError>
    requires few { length statuses.now ≤ 10000 }
    requires numbers { summary ≡ summary_of statuses.now }
    ensures { IfOk result (λ text. text.items ≡ report_text statuses.now) }
{
    let mut text = Vec::with_capacity(alloc, LINE_ROOM * (statuses.len() + 1))?;
    for (before, status) in statuses.iter().enumerate() {
        push_line(&mut text, before + 1, *status)?;
    }
    push_total(&mut text, summary)?;
    Ok(text)
}
