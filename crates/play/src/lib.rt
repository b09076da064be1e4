//! Plays on a board: single steps, and whole solutions with their counts.
//!
//! Contracts see a `State` as the cells of the player and the boxes on a grid, and a solution as the list of its bytes; the
//! lines of a solution are one text. The contracts of `replay`, `replay_lines` and `Replayer` speak of the plays that the letters
//! spell. The fast code beneath them plays on a mailbox of bytes (`specs/Mailbox.antt`), which no public contract mentions.
//!
//! Read `specs/Solution.antt` for what it means to solve a level, `specs/Spelling.antt` and `specs/Counts.antt` for letters
//! and counts, `specs/FirstFault.antt` for faults, and `specs/State.antt` for single steps.
#![tactic(auto)]

mod fault;
mod laws;
mod letters;
mod mailbox;
mod run;
mod solution;
mod state;
mod tally;
mod walks;

pub use fault::{MoveWhy, ReplayFault};
pub use laws::texts_come_to_one_thing;
pub use solution::{Replayer, replay, replay_lines};
pub use state::{Moved, State, StepFault};
pub use tally::Tally;
