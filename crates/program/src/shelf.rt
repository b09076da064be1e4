//! Files in memory.
ghost use Rattle.std.specs.Prelude.{◌≡◌, ◌<◌, ◌+◌, ◌++◌, ℕ, List, Some, codes, decimal};
ghost use Rattle.std.specs.Io.KnownBytes.{Appends};
ghost use Rattle.std.specs.List.{slice_get};
ghost use Rattle.board.specs.Levels.{AreLevelsOf};
ghost use Rattle.board.specs.Lines.{lines_in, without_mark};
ghost use Rattle.program.specs.Shelf.{file_of};
ghost use Rattle.report.specs.Unsolvable.{IsUnsolvable};

use crate::laws::printed_lines_are_true;
use crate::program::{Opener, run};
use arguments::plain_words_ask;
use devices::{Device, Sink};
use std::alloc::Global;

/// Two files in memory, named `levels` and `answers`.
#[derive(Debug, Drop)]
pub struct Shelf<'a> {
    pub levels: &'a [u8],
    pub answers: &'a [u8],
}

impl<'a> Opener for Shelf<'a> {
    type File = Device<&'a [u8]>;

    ghost known = { λ shelf name. file_of shelf.levels.now shelf.answers.now name };

    fn open(&mut self, name: &str) -> Option<Device<&'a [u8]>> {
        if name == "levels" {
            return Some(Device::new(self.levels));
        }
        if name == "answers" {
            return Some(Device::new(self.answers));
        }
        None
    }
}

/// Runs the program on the words `audit levels answers` and these two files.
pub fn audit_in_memory<O: Sink, E: Sink>(
    alloc: Global,
    levels: &[u8],
    answers: &[u8],
    output: &mut O,
    faults: &mut E,
) -> u8
    // A status below 2 comes with a report. If line n of it is `level n unsolvable ..`, no play solves the level that the n-th rows draw.
    ensures unsolvable { result < 2 → (report : List ℕ) × Appends (O.held output.old) (O.held output.new) report
        × ((all : List (List (List ℕ))) (before : ℕ) (rows : List (List ℕ)) (words : List ℕ) → AreLevelsOf all (lines_in (without_mark levels.now))
        → slice_get all before ≡ Some rows
        → slice_get (lines_in report) before ≡ Some (codes "level " ++ decimal (before + 1) ++ codes " unsolvable " ++ words) → IsUnsolvable rows) }
{
    // For the proof: what the words ask for, and what the lines of its report mean.
    plain_words_ask();
    printed_lines_are_true();
    let mut files = Shelf { levels, answers };
    run(
        alloc,
        &["sokoaudit", "audit", "levels", "answers"],
        &mut files,
        output,
        faults,
    )
}
