//! Reads an answers text: splits it into records and reads each of them.
//!
//! `read` is for callers. The program uses `split`, whose contract says the same of the text, and reads a record when it judges its level.

ghost use Rattle.std.specs.Prelude.{All, ◌≡◌, ◌⊎◌, ◌++◌, ◌∷◌, [], List, map, length, IfOk, IfErr, MatchResult};
ghost use Rattle.answers.specs.Grammar.{HasLettersWithin, SpellsEntries, said_answers, said_record};
ghost use Rattle.answers.specs.Body.{Entry};
ghost use Rattle.answers.specs.FirstFault.{IsFirstAnswersFault};
ghost use Rattle.answers.specs.Reading.{Gives, entry_of, outcome};

use crate::fault::AnswersFault;
use crate::record::{Answers, Record};
use crate::record_text::RecordText;
use crate::splitting::split;
use std::alloc::{AllocError, Global};

// Reads a record and adds it to the records.
fn read_more<'a>(
    alloc: Global,
    text: &RecordText<'a>,
    records: &mut Vec<(usize, Record<'a>)>,
) -> Result<(), AllocError>
    ensures { IfOk result (λ _. map said_record records.new.items
        ≡ map said_record records.old.items ++ entry_of text.now ∷ []) }
{
    records.push((text.level, text.read(alloc)?))?;
    Ok(())
}

// Reads each record.
fn read_each<'a>(
    alloc: Global,
    texts: &[RecordText<'a>],
) -> Result<Vec<(usize, Record<'a>)>, AllocError>
    ensures { IfOk result (λ records. map said_record records.items ≡ map entry_of texts.now) }
{
    let mut records = Vec::with_capacity(alloc, texts.len())?;
    for text in texts {
        let Ok(()) = read_more(alloc, text, &mut records) else {
            drop(records);
            return Err(AllocError);
        };
    }
    Ok(records)
}

// Returns the records that the text spells, or its first fault.
fn outcome<'a>(alloc: Global, text: &'a [u8], levels: usize) -> Result<Answers<'a>, AnswersFault>
    ensures { Gives said_answers result (outcome text.now levels) }
{
    let texts = split(alloc, text, levels)?;
    let records = read_each(alloc, &texts)?;
    Ok(Answers { records })
}

/// Reads the records of an answers text to a collection of `levels` levels. Letters are borrowed from the text.
pub fn read(alloc: Global, text: &[u8], levels: usize) -> Result<Answers<'_>, AnswersFault>
    // The text spells the records that are read.
    ensures found { IfOk result (λ a. SpellsEntries text.now levels (said_answers a)) }
    // If the text spells entries, they are read, unless memory runs out.
    ensures only { (entries : List Entry) → SpellsEntries text.now levels entries
        → MatchResult result (λ a. said_answers a ≡ entries) (λ e. e ≡ AnswersFault.Memory) }

    // A fault is the first one.
    ensures exact { IfErr result (λ e. (e ≡ AnswersFault.Memory) ⊎ IsFirstAnswersFault text.now levels e) }
    // A text with a fault gets its first one, unless memory runs out.
    ensures refused { (fault : AnswersFault) → IsFirstAnswersFault text.now levels fault
        → MatchResult result (λ _. ⊥) (λ e. (e ≡ AnswersFault.Memory) ⊎ (e ≡ fault)) }

    // The letter lines of a record together are no longer than the text.
    ensures letters { IfOk result (λ a. All (λ r. HasLettersWithin (length text.now) r.1) a.records.items) }
{
    outcome(alloc, text, levels)
}
