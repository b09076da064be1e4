//! Takes numbered lines off the front of a text.

ghost use Rattle.std.specs.Prelude.{◌≡◌, ◌+◌, ◌<◌, ◌≤◌, ◌^◌, ◌∷◌, [], length, IfSome, IfNone};
ghost use Rattle.lines.specs.Lines.{lines_in};
ghost use Rattle.lines.specs.Starts.{AllBeginOutside};
ghost use Rattle.answers.specs.Grammar.{NoneEnds, is_kept};
ghost use Rattle.answers.specs.Held.{AreNone, HasPassed, IsCutAtEnd, IsFound, IsNextKept, IsSkipped, line_count, kept_in, said_line};

use lines::{Byte, Class, NotByte, first_line, first_start};

// A line without its end, and its number from 1.
#[derive(Clone, Copy)]
pub(crate) struct NumberedLine<'a> {
    pub number: usize,
    pub text: &'a [u8],
}

// The rest of a text, and the number of the line before it.
#[derive(Clone, Copy, Debug)]
pub(crate) struct Left<'a> {
    pub before: usize,
    pub text: &'a [u8],
}

// Returns whether the line is neither empty nor a comment.
#[inline]
fn is_kept(line: NumberedLine<'_>) -> bool
    ensures { result ≡ is_kept (said_line line.entry) }
{
    !matches!(line.text, [] | [b';', ..])
}

// Skips the lines up to the first that begins with a byte of the class.
#[inline]
fn skip_to<C: Class>(lines: Left<'_>, class: C) -> Option<Left<'_>>
    requires { line_count lines < 2 ^ 64 }
    ensures some { IfSome result (λ left. IsSkipped (C.holds class) lines.entry left) }
    ensures none { IfNone result (AllBeginOutside (C.holds class) (lines_in lines.entry.text.now)) }
{
    let start = first_start(lines.text, class)?;
    let (_, text) = lines.text.split_at(start.at);
    let before = lines.before + start.before;
    Some(Left { before, text })
}

// Finds the first line that begins with a byte of the class. Returns the text from it on, the line, and the rest of the text.
#[inline]
fn find_line<C: Class>(lines: Left<'_>, class: C) -> Option<(Left<'_>, NumberedLine<'_>, Left<'_>)>
    requires { line_count lines < 2 ^ 64 }
    ensures some { IfSome result (λ found. IsFound (C.holds class) lines.entry found.0 found.1 found.2) }
    ensures none { IfNone result (AllBeginOutside (C.holds class) (lines_in lines.entry.text.now)) }
{
    let found = skip_to(lines, class)?;
    let (text, rest) = first_line(found.text);
    let number = found.before + 1;
    let line = NumberedLine { number, text };
    let left = Left {
        before: number,
        text: rest,
    };
    Some((found, line, left))
}

// Finds the first kept line. Returns the text from it on, the line, and the rest of the text.
#[inline]
pub(crate) fn next_kept(lines: Left<'_>) -> Option<(Left<'_>, NumberedLine<'_>, Left<'_>)>
    requires { line_count lines < 2 ^ 64 }
    ensures some { IfSome result (λ found. kept_in lines.entry ≡ said_line found.1 ∷ kept_in found.2) }
    ensures none { IfNone result (kept_in lines.entry ≡ []) }
    ensures place { IfSome result (λ found. IsNextKept lines.entry.before lines.entry.text.now found.0.text.now found.1.text.now
        found.2.text.now found.2.before) }
    ensures count { IfSome result (λ found. line_count found.2 ≡ line_count lines.entry) }
    ensures shorter { IfSome result (λ found. length found.2.text.now < length lines.entry.text.now) }
{
    let mut left = lines;
    while let Some((found, line, rest)) = find_line(left, NotByte(b';')) {
        if is_kept(line) {
            return Some((found, line, rest));
        }
        left = rest;
    }
    None
}

// Returns the text from the first line that isn't a comment; all of it if there is no such line.
#[inline]
pub(crate) fn after_comments(lines: Left<'_>) -> Left<'_>
    requires { line_count lines < 2 ^ 64 }
    ensures { HasPassed AreNone lines.entry result }
{
    skip_to(lines, NotByte(b';')).unwrap_or(lines)
}

// Returns the lines before the first `end`, the text from it on, and the rest of the text after it.
pub(crate) fn cut_at_end<'a>(lines: Left<'a>) -> Option<(&'a [u8], Left<'a>, Left<'a>)>
    requires { line_count lines < 2 ^ 64 }
    ensures some { IfSome result (λ cut. IsCutAtEnd lines.entry cut.0.now cut.1 cut.2) }
    ensures none { IfNone result (NoneEnds (kept_in lines.entry)) }
{
    let mut left = lines;
    while let Some((found, line, rest)) = find_line(left, Byte(b'e')) {
        if line.text == b"end".as_slice() {
            let size = lines.text.len() - found.text.len();
            return Some((&lines.text[..size], found, rest));
        }
        left = rest;
    }
    None
}
