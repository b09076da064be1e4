//! Takes lines off the front of a text.
ghost use Rattle.std.specs.Prelude.{◌≡◌, ◌≢◌, ◌+◌, ◌-◌, ◌<◌, ◌≤◌, ℕ, length, slice_index};
ghost use Rattle.bstr.specs.Text.{without_terminator};
ghost use Rattle.lines.specs.Lines.{IsFirstLine};
ghost use Rattle.lines.specs.Starts.{AreFeeds};

use bstr::ByteSlice;
use std::simd::prelude::*;

/// Returns the first line of a text that isn't empty, without its end, and the rest of the text.
#[inline]
#[tactic(auto, using(crate::proofs::Cuts::first_whole, crate::proofs::Cuts::first_at_feed))]
pub fn first_line(text: &[u8]) -> (&[u8], &[u8])
    requires { 0 < length text.now }
    ensures { IsFirstLine text.now result.0.now result.1.now }
{
    let end = line_feed(text);
    if end == text.len() {
        return text.split_at(end);
    }
    let (line, rest) = text.split_at(end + 1);
    (content(line), rest)
}

// Returns the offset of the first line feed of a text, or the length of the text if there is none.
#[inline]
fn line_feed(text: &[u8]) -> usize
    ensures within { result ≤ length text.now }
    ensures before { (k : ℕ) → k < result → slice_index text.now k ≢ 10 }
    ensures found { result < length text.now → slice_index text.now result ≡ 10 }
{
    match text.find_byte(b'\n') {
        Some(at) => at,
        None => text.len(),
    }
}

// Returns which of 32 bytes from an offset on are line feeds.
#[inline]
pub(crate) fn feeds_at(text: &[u8], at: usize) -> u64
    requires { at + 32 ≤ length text.now }
    ensures { AreFeeds text.now at 32 result }
{
    let block = u8x32::from_slice(&text[at..]);
    block.simd_eq(u8x32::splat(b'\n')).to_bitmask()
}

// Returns a line that ends with a line feed without that, and without a carriage return right before it.
#[inline]
fn content(line: &[u8]) -> &[u8]
    requires { (0 < length line.now) × (slice_index line.now (length line.now - 1) ≡ 10) }
    ensures { result.now ≡ without_terminator line.now }
{
    let end = line.len() - 1;
    if end == 0 || line[end - 1] != b'\r' {
        return &line[..end];
    }
    &line[..end - 1]
}
