//! Levels of a collection, and their boards.
//!
//! Contracts see a `LevelText` as the list of its rows, and a `Board` as a `Level`: its shape, its walls, goals
//! and boxes as finite sets of cells, the player's cell and the room. Two boards of the same rows are one value.
//! `next_level` finds one level, and says where it is in its text.
//!
//! Read `specs/Game.antt` for the rules of the game, `specs/Levels.antt` for the levels of a text,
//! `specs/Rows.antt` for the level that rows draw, `specs/Legal.antt` for legal levels and the first refusal, and
//! `specs/Board.antt` for what holds of every board.
#![tactic(auto)]

mod board;
mod characters;
mod collection;
mod laws;
mod parts;
mod passing;
mod reading;
mod row;

pub use board::Board;
pub use collection::{
    LevelText, LevelsFault, MAX_LEVELS, NextLevel, after_mark, levels, next_level,
};
pub use laws::{lines_have_one_list_of_levels, rows_have_one_board};
pub use reading::{BoardFault, read_board, read_next_board};
