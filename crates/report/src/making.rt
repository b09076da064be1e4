//! The answers that are made for a collection.
ghost use Rattle.std.specs.Prelude.{◌≡◌, ◌≢◌, ◌+◌, ◌<◌, ◌≤◌, ◌⊎◌, ℕ, List, Some, length, IfOk, IfErr, IfSome, IfNone, IsErrOf};
ghost use Rattle.std.specs.List.{flat_map, list_any};
ghost use Rattle.std.specs.Io.KnownBytes.{Appends, Keeps};
ghost use Rattle.devices.specs.Device.{AppendsBeginning, CountsFault};
ghost use Rattle.answers.specs.declared.record.MadeRecord.{MadeRecord as MadeOne};
ghost use Rattle.report.specs.Collection.{HasTooManyLevels, IsDueFor};
ghost use Rattle.report.specs.MadeAnswers.{IsRefused, HasNothingMade, AreMade, AreMadeAnswers, IsMadeText, CountsMade};
ghost use Rattle.report.specs.Making.{AreDraftsOf, IsDraftFor, IsFoundFor, draft_text, drafts_text, is_zone};
ghost use Rattle.devices.specs.Reading.{most_bytes, TakesAtMost};
ghost use Rattle.devices.specs.Writing.{Writes};

use crate::fault::{AuditError, Which};
use crate::input::{levels_in, read_error};
use answers::{write_header, write_list_record, write_zone_record};
use board::{Board, BoardFault, LevelText, read_next_board};
use cellset::{BitSet, CellSet};
use devices::{DeviceFault, Sink, Source, read_whole};
use maker::{Found, find};
use std::alloc::{AllocError, Global};

/// Makes answers for a collection: a record for each legal level for which `maker::make` returns a certificate, in order.
/// Returns the number of records.
///
/// Reads the source to its end. Then writes the canonical text of the records, in many small writes and without a flush. The
/// error is the first in the order of work: the text can't be read or is too long; it has too many levels; the answers
/// can't be written. The call can run out of memory only before the first write.
pub fn make_answers<L: Source, W: Sink>(
    alloc: Global,
    levels: &mut L,
    answers: &mut W,
) -> Result<usize, AuditError>
    // The whole text that is made for the levels is written, and nothing else.
    ensures ok { (lt : List ℕ) → L.left levels.old ≡ Some lt
        → IfOk result (λ count. (text : List ℕ) × AreMadeAnswers lt text count × Appends (W.held answers.old) (W.held answers.new) text) }
    // An error comes at its place in the order of work.
    ensures refused { (lt : List ℕ) → L.left levels.old ≡ Some lt → IfErr result (IsDueFor (IsMadeText lt) lt) }

    // A failed write leaves a beginning of the text. After any other error nothing was written.
    ensures beginning { (lt : List ℕ) → L.left levels.old ≡ Some lt → IsErrOf result AuditError.Write
        → (text : List ℕ) × IsMadeText lt text × AppendsBeginning (W.held answers.old) (W.held answers.new) text }
    ensures untouched { IfErr result (λ error. error ≢ AuditError.Write → Keeps (W.held answers.old) (W.held answers.new)) }
    // The failures of a device are counted exactly if its error is returned.
    ensures cause { CountsMade
        (record { before = L.failures levels.old; after = L.failures levels.new })
        (record { before = W.failures answers.old; after = W.failures answers.new }) result }
    ensures taken { TakesAtMost (most_bytes + 1) (L.left levels.old) (L.left levels.new) }
{
    let text = match read_whole(alloc, levels) {
        Ok(text) => text,
        Err(fault) => return Err(read_error(fault, Which::Levels)),
    };
    match drafts_for(alloc, &text) {
        Ok(drafts) => write_made(&drafts, answers),
        Err(error) => Err(error),
    }
}

// Drafts the records of all levels of a text.
fn drafts_for(alloc: Global, text: &[u8]) -> Result<Vec<Draft>, AuditError>
    requires { length text.now ≤ most_bytes }
    ensures ok { IfOk result (λ drafts. AreMadeAnswers text.now (drafts_text drafts.items) (length drafts.items)) }
    ensures err { IfErr result (λ error. (error ≡ AuditError.Memory) ⊎ ((error ≡ AuditError.TooManyLevels) × HasTooManyLevels text.now)) }
{
    let found = levels_in(alloc, text)?;
    match draft_levels(alloc, &found) {
        Ok(drafts) => Ok(drafts),
        Err(_) => Err(AuditError::Memory),
    }
}

// Writes the header and the drafts, and returns the number of drafts.
fn write_made<W: Sink>(drafts: &[Draft], answers: &mut W) -> Result<usize, AuditError>
    ensures ok { IfOk result (λ count. (count ≡ length drafts.now)
        × Appends (W.held answers.old) (W.held answers.new) (drafts_text drafts.now)) }
    ensures err { IfErr result (λ error. (error ≡ AuditError.Write)
        × AppendsBeginning (W.held answers.old) (W.held answers.new) (drafts_text drafts.now)) }
    ensures cause { CountsFault (W.failures answers.old) (W.failures answers.new) result }
{
    match write_text(drafts, answers) {
        Ok(()) => Ok(drafts.len()),
        Err(_) => Err(AuditError::Write),
    }
}

// Writes the header and the drafts.
fn write_text<W: Sink>(drafts: &[Draft], answers: &mut W) -> Result<(), DeviceFault>
    ensures { Writes W.Sink answers.old answers.new (drafts_text drafts.now) result }
{
    write_header(some_zone(drafts), answers)?;
    write_drafts(drafts, answers)
}

// Returns whether some draft is kept as a zone.
fn some_zone(drafts: &[Draft]) -> bool
    ensures { result ≡ list_any (λ d. is_zone d.found) drafts.now }
{
    drafts
        .iter()
        .any(|draft| matches!(draft.found, Found::Zone(_)))
}

// Writes the texts of the drafts.
fn write_drafts<W: Sink>(drafts: &[Draft], answers: &mut W) -> Result<(), DeviceFault>
    ensures { Writes W.Sink answers.old answers.new (flat_map draft_text drafts.now) result }
{
    for draft in drafts {
        write_draft(draft, answers)?;
    }
    Ok(())
}

// Writes the text of a draft.
fn write_draft<W: Sink>(draft: &Draft, answers: &mut W) -> Result<(), DeviceFault>
    ensures { Writes W.Sink answers.old answers.new (draft_text draft.now) result }
{
    match &draft.found {
        Found::List { dead, frozen } => write_list_record(draft.level, dead, frozen, answers),
        Found::Zone(cells) => write_zone_record(draft.level, cells, answers),
    }
}

// The number of a level, and what was found for it.
#[derive(Drop)]
struct Draft {
    level: usize,
    found: Found,
}

// Drafts the records of the levels, in order.
fn draft_levels(alloc: Global, levels: &[LevelText<'_>]) -> Result<Vec<Draft>, AllocError>
    ensures { IfOk result (λ drafts. (records : List MadeOne) × AreMade 1 levels.now records × AreDraftsOf records drafts.items) }
{
    let mut drafts = Vec::with_capacity(alloc, levels.len())?;
    let mut last = None;
    for (before, level) in levels.iter().enumerate() {
        if let Some(draft) = draft_for(alloc, level, before + 1, &mut last)? {
            drafts.push_reserved(draft);
        }
    }
    Ok(drafts)
}

// Drafts the record of the level with this number, if a record is made for it. The level's board replaces the last one.
fn draft_for(
    alloc: Global,
    level: &LevelText<'_>,
    number: usize,
    last: &mut Option<Board<BitSet>>,
) -> Result<Option<Draft>, AllocError>
    ensures some { IfOk result (λ draft. IfSome draft (IsDraftFor number level.now)) }
    ensures none { IfOk result (λ draft. IfNone draft (IsRefused level.now ⊎ HasNothingMade level.now)) }
{
    match found_for(alloc, level, last)? {
        Some(found) => Ok(Some(Draft {
            level: number,
            found,
        })),
        None => Ok(None),
    }
}

// Returns the certificate that is found for a level, if the level is legal and there is one.
fn found_for<S: CellSet>(
    alloc: Global,
    level: &LevelText<'_>,
    last: &mut Option<Board<S>>,
) -> Result<Option<Found>, AllocError>
    ensures some { IfOk result (λ found. IfSome found (IsFoundFor level.now)) }
    ensures none { IfOk result (λ found. IfNone found (IsRefused level.now ⊎ HasNothingMade level.now)) }
{
    let board = match read_next_board(alloc, level, last.take()) {
        Ok(board) => board,
        Err(fault) => {
            return match fault {
                BoardFault::Memory => Err(AllocError),
                _ => Ok(None),
            };
        }
    };
    let found = find(alloc, &board);
    *last = Some(board);
    found
}
