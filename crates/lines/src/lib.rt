//! The lines of a text: the first line, and the first line that begins with a byte of a class.
//!
//! Contracts see a text as the list of its bytes, and a class as a test of a byte. A text is cut only between its lines, so its
//! lines are the lines of the front and then the lines of the rest.
//!
//! Read `specs/Lines.antt` for lines and cuts, and `specs/Starts.antt` for the search.
#![tactic(auto)]

mod class;
mod line;
mod search;

pub use class::{Byte, Class, NotByte};
pub use line::first_line;
pub use search::{Start, first_start};
