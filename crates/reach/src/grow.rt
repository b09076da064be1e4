//! Floods by rows, for any kind of step. Each look takes a row from the worklist and adds the cells that steps from it reach.
ghost use Rattle.std.specs.Prelude.{◌≡◌, ◌*◌, ◌<◌, ◌≤◌, ◌↔◌, ◌⊎◌, ℕ, length};
ghost use Rattle.cellset.specs.Shape.{Extent};
ghost use Rattle.cellset.specs.declared.cell.Cell.{Cell as GridCell};
ghost use Rattle.reach.specs.Bits.{HasBit};
ghost use Rattle.reach.specs.BitRows.{InRows, work_left};
ghost use Rattle.reach.specs.Reached.{Reached};
ghost use Rattle.reach.specs.Grown.{AreInside, IsAllOn, in_rows, IsOffered, IsLookedAt, IsAbove, IsBelow};

use crate::fills::join;
use crate::step::StepBy;
use crate::worklist::Worklist;

// Adds to the region every cell that a chain of steps reaches from it. The worklist has every row in which the region has a cell.
pub(crate) fn grow<T: StepBy<N>, const N: usize>(
    free: &[[u64; N]],
    region: &mut [[u64; N]],
    mut waiting: Worklist<4>,
)
    requires inside { AreInside free.now }
    requires rows { length region.old ≡ length free.now }
    requires few { length free.now ≤ 256 }
    requires waiting { (c : GridCell) → InRows region.old c → HasBit waiting.words c.row }
    requires within { (k : ℕ) → HasBit waiting.words k → k < length free.now }
    ensures exact { (c : GridCell) → InRows region.new c ↔ Reached (T.leads (in_rows free.now)) (InRows region.old) c }
    ensures rows { length region.new ≡ length free.now }
    ensures on { (shape : Extent) → IsAllOn shape (InRows free.now) → IsAllOn shape (InRows region.old) → IsAllOn shape (InRows region.new) }
{
    if free.len() <= 64 {
        grow_by::<T, N, 1>(free, region, &mut waiting.first_word());
    } else {
        grow_by::<T, N, 4>(free, region, &mut waiting);
    }
}

// Grows the region as `grow` does, with a worklist of `M` words.
fn grow_by<T: StepBy<N>, const N: usize, const M: usize>(
    free: &[[u64; N]],
    region: &mut [[u64; N]],
    waiting: &mut Worklist<M>,
)
    requires inside { AreInside free.now }
    requires rows { length region.old ≡ length free.now }
    requires words { M ≤ 4 }
    requires few { length free.now ≤ 64 * M }
    requires waiting { (c : GridCell) → InRows region.old c → HasBit waiting.old.words c.row }
    requires within { (k : ℕ) → HasBit waiting.old.words k → k < length free.now }
    ensures exact { (c : GridCell) → InRows region.new c ↔ Reached (T.leads (in_rows free.now)) (InRows region.old) c }
    ensures rows { length region.new ≡ length free.now }
    ensures on { (shape : Extent) → IsAllOn shape (InRows free.now) → IsAllOn shape (InRows region.old) → IsAllOn shape (InRows region.new) }
{
    while let Some(row) = waiting.pop() {
        look_at_row::<T, N, M>(free, region, waiting, row);
    }
}

// Adds to a row every cell that steps along it reach, and to the rows above and below every cell that a step from it reaches.
// Adds each of those two to the worklist if it grew.
fn look_at_row<T: StepBy<N>, const N: usize, const M: usize>(
    free: &[[u64; N]],
    region: &mut [[u64; N]],
    waiting: &mut Worklist<M>,
    row: usize,
)
    requires inside { AreInside free.now }
    requires rows { length region.old ≡ length free.now }
    requires few { length free.now ≤ 64 * M }
    requires row { row < length free.now }
    requires within { (k : ℕ) → HasBit waiting.old.words k → k < length free.now }
    ensures rows { length region.new ≡ length region.old }
    ensures looked { IsLookedAt (T.leads (in_rows free.now)) row (InRows region.old) (HasBit waiting.old.words) (InRows region.new) (HasBit waiting.new.words) }
    ensures on { (shape : Extent) → IsAllOn shape (InRows free.now) → IsAllOn shape (InRows region.old) → IsAllOn shape (InRows region.new) }
    ensures within { (k : ℕ) → HasBit waiting.new.words k → k < length free.now }
    ensures falls { work_left region.new waiting.new.words ≤ work_left region.old waiting.old.words }
{
    T::along(free, row, &mut region[row]);
    // Above row 0 there is none: its number wraps round past the last row.
    offer::<T, N, M>(free, region, waiting, row, row.wrapping_sub(1));
    offer::<T, N, M>(free, region, waiting, row, row + 1);
}

// Adds to a row, if it exists, every cell that a step from the row above or below it reaches. Adds it to the worklist if it grew.
fn offer<T: StepBy<N>, const N: usize, const M: usize>(
    free: &[[u64; N]],
    region: &mut [[u64; N]],
    waiting: &mut Worklist<M>,
    from: usize,
    to: usize,
)
    requires inside { AreInside free.now }
    requires rows { length region.old ≡ length free.now }
    requires few { length free.now ≤ 64 * M }
    requires beside { to < length free.now → IsAbove from to ⊎ IsBelow from to }
    requires from { from < length free.now }
    requires within { (k : ℕ) → HasBit waiting.old.words k → k < length free.now }
    ensures rows { length region.new ≡ length region.old }
    ensures offered { IsOffered (T.leads (in_rows free.now)) from to (length free.now) (InRows region.old) (HasBit waiting.old.words)
        (InRows region.new) (HasBit waiting.new.words) }
    ensures within { (k : ℕ) → HasBit waiting.new.words k → k < length free.now }
    ensures falls { work_left region.new waiting.new.words ≤ work_left region.old waiting.old.words }
{
    if to >= free.len() {
        return;
    }
    let here = region[from];
    let way = T::across(free, from, to);
    if join(&way, &mut region[to], &here) {
        waiting.add(to);
    }
}
