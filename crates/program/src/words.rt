//! Lines on standard error.
ghost use Rattle.std.specs.Prelude.{◌≤◌, ◌++◌, codes, length};
ghost use Rattle.program.specs.Program.{SaysUnlessFailed};

use devices::{Sink, write_whole};
use std::fmt::InlineText;

/// Prints a line of at most 64 bytes in one write, or as much of it as the sink takes. Allocates nothing.
pub fn print_line<E: Sink>(faults: &mut E, words: &str)
    requires { length words.now ≤ 64 }
    ensures { SaysUnlessFailed (words.now ++ codes "\n") (E.held faults.old, E.failures faults.old) (E.held faults.new, E.failures faults.new) }
{
    let line: InlineText<66> = InlineText::new();
    let line = line.and_str(words, 64).and_str("\n", 1);
    let _ = write_whole(faults, line.as_str().as_bytes());
}
