//! The arguments of the program, which clap reads, and what they ask for.
//!
//! Read `specs/Command.antt` for the plain way to spell a request, and for how clap reads words.
#![tactic(auto)]

mod command;
mod laws;

pub use command::{Command, parse};
pub use laws::plain_words_ask;
