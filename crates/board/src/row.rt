//! Which bytes of a row are of each kind, up to 64 at a time.
//!
//! The line feed that ends a row is found in the block that gives the kinds, so a row is read once. Blocks have 32 bytes: in blocks of 64,
//! small levels take more instructions. Wider rows gain nothing.
ghost use Rattle.std.specs.Prelude.{◌≡◌, ◌+◌, ◌<◌, ◌≤◌, ℕ, length, slice_index};
ghost use Rattle.board.specs.Lines.{byte_at, past_end};
ghost use Rattle.board.specs.Parts.{AreKindsOf};

use crate::characters::{boxes_in, equal_to, goals_in, players_in, walls_in};
use cellset::first_bits;
use std::simd::prelude::*;

/// Which bytes of a row are of each kind, from an offset on: a word with a bit for each byte.
#[derive(Clone, Copy)]
pub(crate) struct Kinds {
    pub(crate) walls: u64,
    pub(crate) goals: u64,
    pub(crate) boxes: u64,
    pub(crate) players: u64,
    // The number of bytes before the line feed. The bits end there.
    pub(crate) count: usize,
}

/// Returns the kinds of up to 64 bytes of a row from an offset on.
#[inline(always)]
pub(crate) fn kinds_from(text: &[u8], from: usize) -> Kinds
    requires { from ≤ length text.now }
    ensures { AreKindsOf (λ k. byte_at text.now (from + k)) 64 result }
{
    let low = kinds_in(block_at(text, from));
    if low.count < 32 {
        return low;
    }
    let high = kinds_in(block_at(text, from + 32));
    Kinds {
        walls: low.walls | high.walls << 32,
        goals: low.goals | high.goals << 32,
        boxes: low.boxes | high.boxes << 32,
        players: low.players | high.players << 32,
        count: 32 + high.count,
    }
}

// Returns the kinds of the bytes of a block that come before its first line feed.
#[inline(always)]
fn kinds_in(block: u8x32) -> Kinds
    ensures { AreKindsOf (slice_index block) 32 result }
{
    // The bit after those of the block ends the count.
    let feeds = equal_to(block, b'\n') | 1 << 32;
    let count = feeds.trailing_zeros() as usize;
    Kinds {
        walls: first_bits(walls_in(block), count),
        goals: first_bits(goals_in(block), count),
        boxes: first_bits(boxes_in(block), count),
        players: first_bits(players_in(block), count),
        count,
    }
}

/// Returns the block of bytes from an offset on, with line feeds past the end of the text.
#[inline(always)]
pub(crate) fn block_at<const N: usize>(text: &[u8], at: usize) -> Simd<u8, N>
    requires { at ≤ length text.now }
    ensures { (k : ℕ) → k < N → slice_index result k ≡ byte_at text.now (at + k) }
{
    if text.len() - at >= N {
        return Simd::from_slice(&text[at..]);
    }
    let mut block = [b'\n'; N];
    for i in at..text.len() {
        block[i - at] = text[i];
    }
    Simd::from_array(block)
}

/// Returns the offset after the line end at an offset, or the offset itself if no line end is there.
#[inline(always)]
pub(crate) fn past_end(text: &[u8], at: usize) -> usize
    requires { at ≤ length text.now }
    ensures { result ≡ past_end text.now at }
{
    if text.len() > at && text[at] == b'\n' {
        return at + 1;
    }
    if text.len() - at > 1 && text[at] == b'\r' && text[at + 1] == b'\n' {
        return at + 2;
    }
    at
}
