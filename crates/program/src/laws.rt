//! Laws: each line of a printed report is true, and texts with an error print nothing.
//!
//! A law does nothing when it runs. The calls in its body are for the prover alone: they name the laws that it rests on.
ghost use Rattle.std.specs.Prelude.{◌≡◌, ℕ, List, Option, Some, length};
ghost use Rattle.answers.specs.Body.{Entry};
ghost use Rattle.answers.specs.Grammar.{SpellsEntries};
ghost use Rattle.arguments.specs.Command.{Request, audit};
ghost use Rattle.board.specs.Levels.{AreLevelsOf};
ghost use Rattle.board.specs.Lines.{lines_in, without_mark};
ghost use Rattle.report.specs.Printed.{AreTrue, AreUnsolvable};
ghost use Rattle.program.specs.Program.{HasError, Prints};

use board::{lines_have_one_list_of_levels, rows_have_one_board};
use report::{lines_mean_what_they_say, texts_have_one_report};

/// If an audit of two files prints a text, each line of it is true, by the bytes of the files and of the text alone.
pub fn printed_lines_are_true()
    // For `unsolvable` the bytes of the levels are enough.
    ensures unsolvable { (known : List ℕ → Option (List ℕ)) (levels answers text : List ℕ) (status : ℕ) → Prints known (audit levels answers) text status
        → (levels_text : List ℕ) → known levels ≡ Some levels_text
        → (all : List (List (List ℕ))) → AreLevelsOf all (lines_in (without_mark levels_text)) → AreUnsolvable all text }
    // Each level has its line, and the line is true: solved, unsolvable, refused or missing. The last line counts them.
    ensures lines { (known : List ℕ → Option (List ℕ)) (levels answers text : List ℕ) (status : ℕ) → Prints known (audit levels answers) text status
        → (levels_text answers_text : List ℕ) → known levels ≡ Some levels_text → known answers ≡ Some answers_text
        → (all : List (List (List ℕ))) → AreLevelsOf all (lines_in (without_mark levels_text))
        → (entries : List Entry) → SpellsEntries answers_text (length all) entries → AreTrue all entries text }
{
    lines_mean_what_they_say();
}

/// If the texts of a request have an error, the request prints no text.
pub fn errors_print_nothing()
    ensures { (known : List ℕ → Option (List ℕ)) (request : Request) (text : List ℕ) (status : ℕ) → Prints known request text status
        → HasError known request → ⊥ }
{
    texts_have_one_report();
    lines_have_one_list_of_levels();
    rows_have_one_board();
}
