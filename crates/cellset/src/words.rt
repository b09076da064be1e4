//! The bits of words, 64 to a word.
ghost use Rattle.std.specs.Prelude.{◌≡◌, ℕ, ◌+◌, ◌-◌, ◌*◌, ◌/◌, ◌^◌, ◌<◌, ◌≤◌, ◌↔◌, ◌||◌, ◌&&◌, ◌≢◌, not, true, false, length, slice_index, nat_eq, bit_and, bit_or, count_ones, IsTrue};
ghost use Rattle.std.specs.Int.{bit_not, w64};
ghost use Rattle.cellset.specs.Bits.{bit, has_bit, bits_below, IsFirstBit};

use std::simd::u64x4;

// Returns whether bit `n` is set.
pub(crate) fn has(words: &[u64], n: usize) -> bool
    requires { n / 64 < length words.now }
    ensures { result ≡ has_bit words.now n }
{
    words[n / 64] >> (n % 64) & 1 == 1
}

// Sets bit `n`.
pub(crate) fn set(words: &mut [u64], n: usize)
    requires { n / 64 < length words.old }
    ensures { (k : ℕ) → has_bit words.new k ≡ (nat_eq k n || has_bit words.old k) }
{
    words[n / 64] |= 1 << (n % 64);
}

// Clears bit `n`.
pub(crate) fn unset(words: &mut [u64], n: usize)
    requires { n / 64 < length words.old }
    ensures { (k : ℕ) → has_bit words.new k ≡ (not (nat_eq k n) && has_bit words.old k) }
{
    words[n / 64] &= !(1 << (n % 64));
}

// Returns the first set bit at `n` or after it.
pub(crate) fn first_from(words: &[u64], n: usize) -> Option<usize>
    requires within { n / 64 < length words.now }
    requires fits { 64 * length words.now < 2 ^ 64 }
    ensures { IsFirstBit words.now n result }
{
    let mut i = n / 64;
    let mut word = words[i] & u64::MAX << (n % 64);
    while word == 0 {
        i += 1;
        if i == words.len() {
            return None;
        }
        word = words[i];
    }
    Some(64 * i + word.trailing_zeros() as usize)
}

// Returns the number of set bits in four words, by SIMD lanes.
fn count_block(words: &[u64], at: usize) -> u64
    requires { at + 4 ≤ length words.now }
    ensures { result ≡ count_ones (slice_index words.now at) + count_ones (slice_index words.now (at + 1))
        + count_ones (slice_index words.now (at + 2)) + count_ones (slice_index words.now (at + 3)) }
{
    u64x4::from_slice(&words[at..]).count_ones().reduce_sum()
}

// Returns the number of set bits.
pub(crate) fn count(words: &[u64]) -> usize
    requires { 64 * length words.now < 2 ^ 64 }
    ensures { result ≡ bits_below words.now (64 * length words.now) }
{
    let mut count = 0;
    let mut at = 0;
    'lanes: while words.len() - at >= 4 {
        count += count_block(words, at) as usize;
        at += 4;
    }
    for i in at..words.len() {
        count += words[i].count_ones() as usize;
    }
    count
}

// Sets the bits that are set in four words of `more`, by SIMD lanes.
fn unite_block(words: &mut [u64], more: &[u64], at: usize)
    requires room { at + 4 ≤ length words.old }
    requires same_len { length more.now ≡ length words.old }
    ensures before { (i : ℕ) → i < at → slice_index words.new i ≡ slice_index words.old i }
    ensures block { (i : ℕ) → at ≤ i → i < at + 4 →
        slice_index words.new i ≡ bit_or (slice_index words.old i) (slice_index more.now i) }
    ensures after { (i : ℕ) → at + 4 ≤ i → slice_index words.new i ≡ slice_index words.old i }
{
    let lanes = u64x4::from_slice(&words[at..]) | u64x4::from_slice(&more[at..]);
    lanes.copy_to_slice(&mut words[at..]);
}

// Sets the bits that are set in `more`.
pub(crate) fn unite(words: &mut [u64], more: &[u64])
    requires { length more.now ≡ length words.old }
    ensures { (n : ℕ) → has_bit words.new n ≡ (has_bit words.old n || has_bit more.now n) }
{
    let mut at = 0;
    'lanes: while words.len() - at >= 4 {
        unite_block(words, more, at);
        at += 4;
    }
    for i in at..words.len() {
        words[i] |= more[i];
    }
}

// Returns whether every set bit of four words is set in `others` too, by SIMD lanes.
fn is_block_within(words: &[u64], others: &[u64], at: usize) -> bool
    requires room { at + 4 ≤ length words.now }
    requires same_len { length others.now ≡ length words.now }
    ensures within { IsTrue result → (i : ℕ) → at ≤ i → i < at + 4 →
        bit_and (slice_index words.now i) (bit_not w64 (slice_index others.now i)) ≡ 0 }
    ensures outside { result ≡ false → (i : ℕ) ×
        (bit_and (slice_index words.now i) (bit_not w64 (slice_index others.now i)) ≢ 0) }
{
    let lanes = u64x4::from_slice(&words[at..]) & !u64x4::from_slice(&others[at..]);
    lanes.reduce_or() == 0
}

// Returns whether every set bit is set in `others` too.
pub(crate) fn are_within(words: &[u64], others: &[u64]) -> bool
    requires { length others.now ≡ length words.now }
    ensures { IsTrue result ↔ ((n : ℕ) → has_bit words.now n ≡ true → has_bit others.now n ≡ true) }
{
    let mut at = 0;
    'lanes: while words.len() - at >= 4 {
        if !is_block_within(words, others, at) {
            return false;
        }
        at += 4;
    }
    for i in at..words.len() {
        if words[i] & !others[i] != 0 {
            return false;
        }
    }
    true
}

// Returns the 64 bits from bit `n` on, as one word.
pub(crate) fn bits_from(words: &[u64], n: usize) -> u64
    requires { n / 64 < length words.now }
    ensures { (k : ℕ) → k < 64 → bit result k ≡ has_bit words.now (n + k) }
{
    let i = n / 64;
    let shift = n % 64;
    let low = words[i] >> shift;
    if shift == 0 || i + 1 == words.len() {
        return low;
    }
    low | words[i + 1] << (64 - shift)
}

/// Returns the lowest `count` bits of a word.
#[inline]
pub fn first_bits(bits: u64, count: usize) -> u64
    ensures inside { (k : ℕ) → k < count → bit result k ≡ bit bits k }
    ensures outside { (k : ℕ) → count ≤ k → bit result k ≡ false }
{
    if count < 64 {
        bits & (1 << count) - 1
    } else {
        bits
    }
}

// Sets the bits of `bits`, moved up by `n`. Bits past the last word are dropped.
pub(crate) fn set_bits(words: &mut [u64], n: usize, bits: u64)
    requires { n / 64 < length words.old }
    ensures before { (k : ℕ) → k < n → has_bit words.new k ≡ has_bit words.old k }
    ensures from { (k : ℕ) → n ≤ k → k / 64 < length words.old → has_bit words.new k ≡ (has_bit words.old k || bit bits (k - n)) }
{
    let i = n / 64;
    let shift = n % 64;
    words[i] |= bits << shift;
    if shift != 0 && i + 1 < words.len() {
        words[i + 1] |= bits >> (64 - shift);
    }
}
