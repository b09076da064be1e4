//! Skips lines of text.
//!
//! A line that doesn't begin with a character of boards is text, whatever else it has.
ghost use Rattle.board.specs.Characters.{is_board_character};
ghost use Rattle.board.specs.Cut.{IsPassed};

use crate::characters::is_board_character;
use lines::{Class, first_start};

// The class of the characters of boards.
#[derive(Clone, Copy)]
struct BoardCharacters;

impl Class for BoardCharacters {
    ghost holds = { λ _ byte. is_board_character byte };

    fn has(self, byte: u8) -> bool {
        is_board_character(byte)
    }
}

/// Skips the lines that a text begins with, up to the first that begins with a character of boards, and returns the rest.
pub(crate) fn past_text(text: &[u8]) -> &[u8]
    ensures { IsPassed text.now result.now }
{
    match first_start(text, BoardCharacters) {
        Some(start) => text.split_at(start.at).1,
        None => text.split_at(text.len()).1,
    }
}
