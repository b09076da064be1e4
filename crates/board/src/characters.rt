//! Tests for the characters of a level's text: of one byte, and of the bytes of a block, where bit `k` is the result for byte `k`.
ghost use Rattle.std.specs.Prelude.{◌≡◌, ◌==◌, ◌<◌, ◌≤◌, ℕ, false, slice_index};
ghost use Rattle.cellset.specs.Bits.{bit};
ghost use Rattle.board.specs.Characters.{is_wall, is_player, is_box, is_goal, is_board_character};

use std::simd::prelude::*;

pub(crate) fn is_board_character(byte: u8) -> bool
    ensures { result ≡ is_board_character byte }
{
    matches!(
        byte,
        b'#' | b'@' | b'+' | b'$' | b'*' | b'.' | b' ' | b'-' | b'_'
    )
}

// Returns which bytes of a block equal this one.
pub(crate) fn equal_to<const N: usize>(block: Simd<u8, N>, byte: u8) -> u64
    requires { N ≤ 64 }
    ensures inside { (k : ℕ) → k < N → bit result k ≡ (slice_index block.entry k == byte) }
    ensures past { (k : ℕ) → N ≤ k → bit result k ≡ false }
{
    block.simd_eq(Simd::splat(byte)).to_bitmask()
}

// The character of boards with these low four bits, other than `@`. Where there is none, no byte with these bits is 0.
const BY_LOW_BITS: [u8; 16] = [
    b' ', 0, 0, b'#', b'$', 0, 0, 0, 0, 0, b'*', b'+', 0, b'-', b'.', b'_',
];

// Returns which bytes of a block are characters of boards. Looks up the one character that a byte could be.
#[inline]
pub(crate) fn characters_in(block: u8x16) -> u64
    ensures inside { (k : ℕ) → k < 16 → bit result k ≡ is_board_character (slice_index block k) }
    ensures past { (k : ℕ) → 16 ≤ k → bit result k ≡ false }
{
    let likely = u8x16::from_array(BY_LOW_BITS).swizzle_dyn(block & u8x16::splat(15));
    (likely.simd_eq(block) | block.simd_eq(u8x16::splat(b'@'))).to_bitmask()
}

pub(crate) fn walls_in<const N: usize>(block: Simd<u8, N>) -> u64
    requires { N ≤ 64 }
    ensures inside { (k : ℕ) → k < N → bit result k ≡ is_wall (slice_index block.entry k) }
    ensures past { (k : ℕ) → N ≤ k → bit result k ≡ false }
{
    equal_to(block, b'#')
}

pub(crate) fn players_in<const N: usize>(block: Simd<u8, N>) -> u64
    requires { N ≤ 64 }
    ensures { (k : ℕ) → k < N → bit result k ≡ is_player (slice_index block.entry k) }
{
    equal_to(block, b'@') | equal_to(block, b'+')
}

pub(crate) fn boxes_in<const N: usize>(block: Simd<u8, N>) -> u64
    requires { N ≤ 64 }
    ensures { (k : ℕ) → k < N → bit result k ≡ is_box (slice_index block.entry k) }
{
    equal_to(block, b'$') | equal_to(block, b'*')
}

pub(crate) fn goals_in<const N: usize>(block: Simd<u8, N>) -> u64
    requires { N ≤ 64 }
    ensures { (k : ℕ) → k < N → bit result k ≡ is_goal (slice_index block.entry k) }
{
    equal_to(block, b'.') | equal_to(block, b'*') | equal_to(block, b'+')
}
