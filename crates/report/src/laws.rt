//! Laws: two texts have at most one report, its lines are true, good answers are never refused, and made answers are
//! accepted.
//!
//! A law does nothing when it runs. The calls in its body are for the prover alone: they name the laws that it rests on.
ghost use Rattle.std.specs.Prelude.{◌≡◌, ◌⊎◌, ℕ, List, Option, Some, length, map};
ghost use Rattle.std.specs.List.{concat, slice_get};
ghost use Rattle.std.specs.FinSet as finset;
ghost use Rattle.board.specs.Game.{Level};
ghost use Rattle.board.specs.Legal.{IsBoardOf};
ghost use Rattle.board.specs.Levels.{AreLevelsOf};
ghost use Rattle.board.specs.Lines.{lines_in, without_mark};
ghost use Rattle.play.specs.Solution.{Solves};
ghost use Rattle.play.specs.declared.tally.Tally.{Tally};
ghost use Rattle.answers.specs.Body.{Body, Entry, LetterLines, PatternLines, OneZone, PatternLine, ZoneLine};
ghost use Rattle.answers.specs.Grammar.{SpellsEntries};
ghost use Rattle.certificates.specs.CellLists.{cells_of};
ghost use Rattle.certificates.specs.Pattern.{patterns_of};
ghost use Rattle.certificates.specs.Closed.{Closed};
ghost use Rattle.certificates.specs.Zone.{IsRefuting};
ghost use Rattle.report.specs.Audit.{IsFirstError};
ghost use Rattle.report.specs.Means.{Means};
ghost use Rattle.answers.specs.declared.record.MadeBody.{MadeBody};
ghost use Rattle.report.specs.DeadMap.{IsMapOf};
ghost use Rattle.report.specs.Printed.{AreTrue, AreUnsolvable, HasWords};
ghost use Rattle.report.specs.Summary.{is_missing, is_refused, is_solved, is_unsolvable};
ghost use Rattle.report.specs.Words.{report_text, words_of};
ghost use Rattle.report.specs.Report.{IsReport, HasLine};
ghost use Rattle.report.specs.Status.{Says};
ghost use Rattle.report.specs.MadeAnswers.{AreMadeAnswers, HasNothingMade, IsMadeBody, IsRefused, MadeHasNoError, MadeIsAccepted};
ghost use Rattle.report.specs.declared.fault.AuditError.{AuditError};
ghost use Rattle.report.specs.declared.status.Status.{Status};
ghost use Rattle.report.specs.declared.status.Status.TheVariants.{Solved, Unsolvable, UnsolvableZone};
ghost use Rattle.report.specs.declared.summary.Summary.{Summary};

use answers::{texts_have_one_reading, written_is_read};
use board::{lines_have_one_list_of_levels, rows_have_one_board};
use closure::{
    closed_lists_have_no_fault, lists_have_one_first_fault, refuting_zones_have_no_fault,
    zones_have_one_first_fault,
};
use maker::least_zones_are_one;
use play::texts_come_to_one_thing;

/// A level with its answer has at most one status.
pub fn levels_have_one_status()
    ensures { (rows : List (List ℕ)) (answer : Option Body) (a b : Status) → Says rows answer a → Says rows answer b → a ≡ b }
{
    rows_have_one_board();
    texts_come_to_one_thing();
    closed_lists_have_no_fault();
    lists_have_one_first_fault();
    refuting_zones_have_no_fault();
    zones_have_one_first_fault();
}

/// On a legal board no solution is refused, no closed list of patterns, and no zone that refutes the level.
pub fn good_answers_are_never_refused()
    ensures solution { (rows : List (List ℕ)) (level : Level) (lines : List (List ℕ)) (tally : Tally) (status : Status)
        → IsBoardOf rows level → Solves level (concat lines) tally → Says rows (Some (LetterLines lines)) status → status ≡ Solved tally }
    ensures list { (rows : List (List ℕ)) (level : Level) (patterns : List PatternLine) (status : Status)
        → IsBoardOf rows level → Closed level (patterns_of patterns) → Says rows (Some (PatternLines patterns)) status → status ≡ Unsolvable (length patterns) }
    ensures zone { (rows : List (List ℕ)) (level : Level) (zone : ZoneLine) (status : Status)
        → IsBoardOf rows level → IsRefuting level (cells_of zone.cells) → Says rows (Some (OneZone zone)) status → status ≡ UnsolvableZone (finset.len (cells_of zone.cells)) }
{
    levels_have_one_status();
}

/// In a report no solution of a legal level is refused, no closed list of patterns, and no zone that refutes the level.
pub fn reports_refuse_no_good_answer()
    ensures solution { (lt at text : List ℕ) (summary : Summary) (report : IsReport lt at text summary) (before : ℕ)
        (rows : List (List ℕ)) (level : Level) (lines : List (List ℕ)) (tally : Tally) (status : Status)
        → HasLine report before rows (Some (LetterLines lines)) status → IsBoardOf rows level → Solves level (concat lines) tally → status ≡ Solved tally }
    ensures list { (lt at text : List ℕ) (summary : Summary) (report : IsReport lt at text summary) (before : ℕ)
        (rows : List (List ℕ)) (level : Level) (patterns : List PatternLine) (status : Status)
        → HasLine report before rows (Some (PatternLines patterns)) status → IsBoardOf rows level → Closed level (patterns_of patterns) → status ≡ Unsolvable (length patterns) }
    ensures zone { (lt at text : List ℕ) (summary : Summary) (report : IsReport lt at text summary) (before : ℕ)
        (rows : List (List ℕ)) (level : Level) (zone : ZoneLine) (status : Status)
        → HasLine report before rows (Some (OneZone zone)) status → IsBoardOf rows level → IsRefuting level (cells_of zone.cells) → status ≡ UnsolvableZone (finset.len (cells_of zone.cells)) }
{
    good_answers_are_never_refused();
}

/// In a report the status of each level is true, and so is each level's printed line.
pub fn lines_mean_what_they_say()
    ensures status { (lt at text : List ℕ) (summary : Summary) (report : IsReport lt at text summary) (before : ℕ)
        (rows : List (List ℕ)) (answer : Option Body) (status : Status) → HasLine report before rows answer status → Means rows answer status }
    // Of bytes alone: if line n is `level n unsolvable ..`, no play solves the level of the n-th rows.
    ensures unsolvable { (lt at text : List ℕ) (summary : Summary) → IsReport lt at text summary
        → (levels : List (List (List ℕ))) → AreLevelsOf levels (lines_in (without_mark lt)) → AreUnsolvable levels text }
    // Of bytes alone: each level has its line, and the line is true.
    ensures lines { (lt at text : List ℕ) (summary : Summary) → IsReport lt at text summary
        → (levels : List (List (List ℕ))) (entries : List Entry) → AreLevelsOf levels (lines_in (without_mark lt))
        → SpellsEntries at (length levels) entries → AreTrue levels entries text }
{
    lines_have_one_list_of_levels();
    texts_have_one_reading();
}

/// A report can be read back: its n-th line is the line of the n-th status, and its bytes fix the words and the kind of each
/// status. Two refusals can have the same words: a pattern and a zone that are refused on the same line.
pub fn reports_can_be_read_back()
    ensures line { (statuses : List Status) (before : ℕ) (status : Status) → slice_get statuses before ≡ Some status
        → HasWords (report_text statuses) before (words_of status) }
    ensures words { (a b : List Status) → report_text a ≡ report_text b → map words_of a ≡ map words_of b }
    ensures kind { (a b : Status) → words_of a ≡ words_of b → (is_solved a ≡ is_solved b) × (is_unsolvable a ≡ is_unsolvable b)
        × (is_refused a ≡ is_refused b) × (is_missing a ≡ is_missing b) }
{}

/// Two texts have at most one report or one first error, and never both.
pub fn texts_have_one_report()
    ensures same { (lt at text other : List ℕ) (summary others : Summary) → IsReport lt at text summary → IsReport lt at other others → (text ≡ other) × (summary ≡ others) }
    ensures no_error { (lt at text : List ℕ) (summary : Summary) (error : AuditError) → IsReport lt at text summary → IsFirstError lt at error → ⊥ }
    ensures error { (lt at : List ℕ) (a b : AuditError) → IsFirstError lt at a → IsFirstError lt at b → a ≡ b }
{
    levels_have_one_status();
    lines_have_one_list_of_levels();
    texts_have_one_reading();
}

/// An audit never refuses the answers that are made for its collection: the two texts have no error, and each level with an
/// answer is unsolvable by it.
///
/// If the levels text has some megabytes, its made answers can be longer than a text may be. Then there is no audit.
pub fn made_answers_are_accepted()
    ensures no_error { MadeHasNoError }
    ensures accepted { MadeIsAccepted }
{
    written_is_read();
    texts_have_one_reading();
    lines_have_one_list_of_levels();
    rows_have_one_board();
    closed_lists_have_no_fault();
    refuting_zones_have_no_fault();
}

/// No level both has a made record and lacks one.
pub fn levels_are_made_or_not()
    ensures { (rows : List (List ℕ)) (body : MadeBody) → IsMadeBody rows body → IsRefused rows ⊎ HasNothingMade rows → ⊥ }
{
    rows_have_one_board();
}

/// A collection has at most one made text, with one number of records.
pub fn collections_have_one_made_text()
    ensures { (lt text other : List ℕ) (count others : ℕ) → AreMadeAnswers lt text count → AreMadeAnswers lt other others → (text ≡ other) × (count ≡ others) }
{
    lines_have_one_list_of_levels();
    rows_have_one_board();
    least_zones_are_one();
}

/// A level of a collection has at most one map.
pub fn levels_have_one_map()
    ensures { (lt : List ℕ) (n : ℕ) (text other : List ℕ) → IsMapOf lt n text → IsMapOf lt n other → text ≡ other }
{
    lines_have_one_list_of_levels();
    rows_have_one_board();
}
