//! Fills a row of bits along runs of free bits, and adds free bits of the row above or below it.
ghost use Rattle.std.specs.Prelude.{◌≡◌, ◌/◌, ◌^◌, ◌<◌, ◌≤◌, ◌↔◌, ◌⊎◌, ℕ, true, false, length, slice_index, bit_or};
ghost use Rattle.reach.specs.Bits.{Bit, HasBit, FromBelow, FromAbove, IsFilled, room_left};

// Replaces the row by all free bits that a run of free bits joins to one of its bits.
pub(crate) fn fill<const N: usize>(free: &[u64; N], row: &mut [u64; N])
    ensures filled { (k : ℕ) → HasBit row.new k ↔ IsFilled (HasBit free.now) (HasBit row.old) k }
    ensures room { ((k : ℕ) → HasBit row.old k → HasBit free.now k) → room_left row.new ≤ room_left row.old }
{
    fill_up(free, row);
    fill_down(free, row);
}

// Replaces the row by all free bits that a run of free bits reaches upward from one of its bits.
fn fill_up<const N: usize>(free: &[u64; N], row: &mut [u64; N])
    ensures filled { (k : ℕ) → HasBit row.new k ↔ FromBelow (HasBit free.now) (HasBit row.old) k }
    ensures long { length row.new ≡ length row.old }
    ensures fit { (i : ℕ) → slice_index row.old i < 2 ^ 64 }
{
    let mut carry = 0;
    for i in 0..N {
        let (got, over) = word_up(free[i], row[i], carry);
        row[i] = got;
        carry = over;
    }
}

// Replaces the row by all free bits that a run of free bits reaches downward from one of its bits.
fn fill_down<const N: usize>(free: &[u64; N], row: &mut [u64; N])
    ensures filled { (k : ℕ) → HasBit row.new k ↔ FromAbove (HasBit free.now) (HasBit row.old) k }
    ensures long { length row.new ≡ length row.old }
{
    let mut carry = 0;
    for i in (0..N).rev() {
        let got = word_down(free[i], row[i] | carry);
        row[i] = got;
        carry = got << 63;
    }
}

// Adds to the row the bits of `here` that are free, and returns whether any of them was new.
pub(crate) fn join<const N: usize>(free: &[u64; N], row: &mut [u64; N], here: &[u64; N]) -> bool
    ensures bits { (k : ℕ) → HasBit row.new k ↔ (HasBit row.old k ⊎ (HasBit here.now k × HasBit free.now k)) }
    ensures none { result ≡ false → row.new ≡ row.old }
    ensures some { result ≡ true → room_left row.new < room_left row.old }
{
    let mut grew = 0;
    for i in 0..N {
        let new = here[i] & free[i] & !row[i];
        row[i] |= new;
        grew |= new;
    }
    grew != 0
}

// Returns the free bits of a word that a run of free bits reaches upward from a seed, and 1 if the last bit is one of them.
// The next word takes this 1 as its carry: a seed at its first bit.
fn word_up(free: u64, seeds: u64, carry: u64) -> (u64, u64)
    requires { carry ≤ 1 }
    ensures bits { (k : ℕ) → Bit result.0 k ↔ FromBelow (Bit free) (Bit (bit_or seeds carry)) k }
    ensures over { result.1 ≡ result.0 / 2 ^ 63 }
{
    // A seed that is added to its run carries through the rest of the run and clears it.
    let first = seeds & free;
    let (sum, over) = free.overflowing_add(first);
    let (sum, over_too) = sum.overflowing_add(carry);
    (first | free & !sum, u64::from(over | over_too))
}

// Returns the free bits of a word that a run of free bits reaches downward from a seed.
fn word_down(free: u64, seeds: u64) -> u64
    ensures { (k : ℕ) → Bit result k ↔ FromAbove (Bit free) (Bit seeds) k }
{
    let mut got = seeds & free;
    // No run leaves the seeds unless a free bit lies right below one of them.
    if free & !got & got >> 1 == 0 {
        return got;
    }
    // `got` has the bits that are reached and lie less than `step` below their seed; `run` has the lowest bit of each run of
    // `step` free bits.
    let mut run = free;
    let mut step = 1u32;
    while step < u64::BITS {
        got |= run & (got >> step);
        run &= run >> step;
        step *= 2;
    }
    got
}
