//! A run of the program, over any files and streams: what its arguments ask for, and the exit status.
//!
//! Contracts see a word or a text as the list of its bytes. `run` opens files by an `Opener`. That of the system is in the program. A
//! `Shelf` has two files in memory, whose bytes are known.
//!
//! Read `specs/Program.antt` for what a run prints and which errors it has, and `specs/Command.antt` of `arguments` for the words. The law
//! `printed_lines_are_true` says that the lines of a printed report are true, and `audit_in_memory` uses it.
#![tactic(auto)]

mod laws;
mod program;
mod shelf;
mod words;

pub use devices::{Device, DeviceFault, Sink, Source};
pub use laws::{errors_print_nothing, printed_lines_are_true};
pub use program::{Opener, refuse, run};
pub use shelf::{Shelf, audit_in_memory};
