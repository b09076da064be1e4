//! Where the levels of a text are.
ghost use Rattle.sokoaudit_c.specs.Spans.{HasSpans};

use board::{after_mark, next_level};

/// Where a level is in its text: the offset of its first byte, and that of the byte after its last row.
#[derive(Clone, Copy, Debug, PartialEq, Eq)]
#[repr(C)]
pub struct Span {
    pub at: usize,
    pub end: usize,
}

/// Writes where the levels of a text are, up to the last one that there is space for. Returns the number of all levels.
#[unsafe(no_mangle)]
pub extern "C" fn sokoaudit_levels(levels: &[u8], spans: &mut [Span]) -> usize
    ensures { HasSpans levels.now spans.old spans.new result }
{
    let mut rest = after_mark(levels);
    let mut count = 0;
    while let Some(next) = next_level(rest) {
        if count < spans.len() {
            spans[count] = Span {
                at: levels.len() - next.from.len(),
                end: levels.len() - next.after.len(),
            };
        }
        count += 1;
        rest = next.after;
    }
    count
}
