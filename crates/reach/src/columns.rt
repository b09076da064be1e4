//! Operations on the columns of one row or two: tests, union, intersection, difference, shifts by one column, fills.
ghost use Rattle.std.specs.Prelude.{◌≡◌, ◌*◌, ◌/◌, ◌%◌, ◌+◌, ◌-◌, ◌<◌, ◌≤◌, ◌↔◌, ◌⊎◌, ℕ, IsTrue, false, slice_index, true};
ghost use Rattle.cellset.specs.Cell.{cell_at};
ghost use Rattle.reach.specs.Bits.{Bit, HasBit, IsFilled, room_left};
ghost use Rattle.reach.specs.BitRows.{InRows};
ghost use Rattle.reach.specs.Reached.{IsBetween, IsMoved};

use crate::fills::{fill, join};
use crate::worklist::word_of;
use cellset::first_bits;

// Returns whether a row has this column.
pub(crate) fn has_bit<const N: usize>(row: &[u64; N], column: usize) -> bool
    ensures { IsTrue result ↔ HasBit row.now column }
{
    column / 64 < N && row[column / 64] >> (column % 64) & 1 == 1
}

// Returns whether a row has any column.
pub(crate) fn any<const N: usize>(row: &[u64; N]) -> bool
    ensures none { result ≡ false → (k : ℕ) → HasBit row.now k → ⊥ }
    ensures some { result ≡ true → (k : ℕ) × HasBit row.now k }
{
    for word in row {
        if *word != 0 {
            return true;
        }
    }
    false
}

// Adds to a row every column that a run of columns of `over` joins to it.
pub(crate) fn fill_over<const N: usize>(over: &[u64; N], row: &mut [u64; N])
    ensures filled { (k : ℕ) → HasBit row.new k ↔ IsFilled (λ j. HasBit row.old j ⊎ HasBit over.now j) (HasBit row.old) k }
    ensures room { room_left row.new ≤ room_left row.old }
{
    let runs = either(row, over);
    fill(&runs, row);
}

// Returns the columns of either row.
pub(crate) fn either<const N: usize>(a: &[u64; N], b: &[u64; N]) -> [u64; N]
    ensures { (k : ℕ) → HasBit result k ↔ (HasBit a.now k ⊎ HasBit b.now k) }
{
    let mut row = [0; N];
    for i in 0..N {
        row[i] = a[i] | b[i];
    }
    row
}

// Returns the columns that both rows have.
pub(crate) fn both<const N: usize>(a: &[u64; N], b: &[u64; N]) -> [u64; N]
    ensures { (k : ℕ) → HasBit result k ↔ (HasBit a.now k × HasBit b.now k) }
{
    let mut row = [0; N];
    for i in 0..N {
        row[i] = a[i] & b[i];
    }
    row
}

// Returns the columns of a row that aren't in another one.
pub(crate) fn without<const N: usize>(row: &[u64; N], other: &[u64; N]) -> [u64; N]
    ensures { (k : ℕ) → HasBit result k ↔ (HasBit row.now k × (HasBit other.now k → ⊥)) }
{
    let mut left = [0; N];
    for i in 0..N {
        left[i] = row[i] & !other[i];
    }
    left
}

// Returns the columns that lie between two columns of the row.
pub(crate) fn between<const N: usize>(row: &[u64; N]) -> [u64; N]
    ensures { (k : ℕ) → HasBit result k ↔ IsBetween (HasBit row.now) k }
{
    both(&later(row), &earlier(row))
}

// Shifts the columns of a row on by one.
pub(crate) fn later<const N: usize>(of: &[u64; N]) -> [u64; N]
    ensures { (k : ℕ) → HasBit result k ↔ ((k < 64 * N) × ((1 ≤ k) × HasBit of.now (k - 1))) }
{
    let mut row = [0; N];
    for i in 0..N {
        row[i] = of[i] << 1 | word_before(of, i) >> 63;
    }
    row
}

// Shifts the columns of a row back by one.
pub(crate) fn earlier<const N: usize>(of: &[u64; N]) -> [u64; N]
    ensures { (k : ℕ) → HasBit result k ↔ ((k < 64 * N) × HasBit of.now (k + 1)) }
{
    let mut row = [0; N];
    for i in 0..N {
        row[i] = of[i] >> 1 | word_after(of, i) << 63;
    }
    row
}

// Returns the word before this one of a row, or 0 before the first.
fn word_before<const N: usize>(row: &[u64; N], i: usize) -> u64
    requires { i < N }
    ensures first { i ≡ 0 → result ≡ 0 }
    ensures later { 1 ≤ i → result ≡ slice_index row.now (i - 1) }
{
    if i > 0 { row[i - 1] } else { 0 }
}

// Returns the word after this one of a row, or 0 after the last.
fn word_after<const N: usize>(row: &[u64; N], i: usize) -> u64
    requires { i < N }
    ensures { result ≡ slice_index row.now (i + 1) }
{
    if i + 1 < N { row[i + 1] } else { 0 }
}

// Returns 64 columns of a row, from this one on.
#[inline(always)]
pub(crate) fn columns_from<const N: usize>(row: &[u64; N], column: usize) -> [u64; 1]
    requires { column < 64 * N }
    ensures { (k : ℕ) → HasBit result k ↔ ((k < 64) × HasBit row.now (column + k)) }
{
    let (i, bit) = (word_of::<N>(column), column % 64);
    [row[i] >> bit | word_after(row, i) << 1 << (63 - bit)]
}

// Returns a row, or an empty one past the last.
pub(crate) fn row_at<const N: usize>(rows: &[[u64; N]], y: usize) -> [u64; N]
    ensures { (k : ℕ) → HasBit result k ↔ InRows rows.now (cell_at k y) }
{
    if y < rows.len() { rows[y] } else { [0; N] }
}

// Removes the columns of a part of a row whose bits are set.
pub(crate) fn remove<const N: usize>(row: &mut [u64; N], part: usize, bits: u64)
    requires { part < N }
    ensures { (k : ℕ) → HasBit row.new k ↔ (HasBit row.old k × (k / 64 ≡ part → Bit bits (k % 64) → ⊥)) }
{
    row[part] &= !bits;
}

// Adds to a row every column to which a box on one of its columns can be pushed along the row.
pub(crate) fn slide<const N: usize>(free: &[u64; N], row: &mut [u64; N])
    ensures kept { (k : ℕ) → HasBit row.old k → HasBit row.new k }
    ensures added { (k : ℕ) → HasBit row.new k → HasBit row.old k ⊎ IsMoved (HasBit free.now) (HasBit row.old) k }
    ensures closed { (k : ℕ) → HasBit row.new k → IsBetween (HasBit free.now) k → HasBit row.new (k - 1) × HasBit row.new (k + 1) }
    ensures room { room_left row.new ≤ room_left row.old }
{
    let mids = between(free);
    let mut moved = *row;
    fill(&mids, &mut moved);
    let right = later(&moved);
    let left = earlier(&moved);
    join(&right, row, &right);
    join(&left, row, &left);
}

// Adds a column to a row.
pub(crate) fn insert<const N: usize>(row: &mut [u64; N], k: usize)
    requires { k / 64 < N }
    ensures { (j : ℕ) → HasBit row.new j ↔ (HasBit row.old j ⊎ (j ≡ k)) }
{
    row[k / 64] |= 1 << (k % 64);
}

// Returns the columns from 1 to the width.
pub(crate) fn columns<const N: usize>(width: usize) -> [u64; N]
    requires wide { width < 64 * N }
    requires few { N ≤ 4 }
    ensures { (k : ℕ) → HasBit result k ↔ ((1 ≤ k) × (k ≤ width)) }
{
    let mut row = [0; N];
    for part in 0..N {
        row[part] = first_bits(!0, (width + 1).saturating_sub(64 * part));
    }
    // There is no column 0.
    remove(&mut row, 0, 1);
    row
}
