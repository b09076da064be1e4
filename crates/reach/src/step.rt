//! Three kinds of step over rows of bits.
ghost use Rattle.std.specs.Prelude.{◌<◌, ◌≤◌, ◌↔◌, ◌⊎◌, ℕ, Bool, length};
ghost use Rattle.cellset.specs.Shape.{Extent};
ghost use Rattle.cellset.specs.Cell.{IsOn, cell_at};
ghost use Rattle.cellset.specs.declared.cell.Cell.{Cell as GridCell};
ghost use Rattle.reach.specs.Bits.{HasBit, room_left};
ghost use Rattle.reach.specs.BitRows.{InRows, InRow};
ghost use Rattle.reach.specs.Reached.{Reached, WalksTo, PullsTo, PushesTo};
ghost use Rattle.reach.specs.Grown.{AreInside, IsAllOn, Passes, in_rows, IsAbove, IsBelow, IsBeside};

use crate::columns::{between, both, fill_over, row_at, slide};

/// A kind of step from a cell to one beside it.
pub trait StepKind {
    /// Holds if a step leads from the first cell to the second. It takes a test of which cells are free.
    ghost leads: { (GridCell → Bool) → GridCell → GridCell → Type 0 };
}

/// Steps over rows of `N` words.
pub trait StepBy<const N: usize>: StepKind {
    /// Adds to a row every cell that steps along it reach.
    fn along(free: &[[u64; N]], y: usize, row: &mut [u64; N])
        requires inside { AreInside free.now }
        requires within { y < length free.now }
        ensures kept { (k : ℕ) → HasBit row.old k → HasBit row.new k }
        ensures sound { (k : ℕ) → HasBit row.new k → Reached (Self.leads (in_rows free.now)) (InRow y row.old) (cell_at k y) }
        ensures closed { (j k : ℕ) → HasBit row.new j → Self.leads (in_rows free.now) (cell_at j y) (cell_at k y) → HasBit row.new k }
        ensures room { room_left row.new ≤ room_left row.old }
        ensures beside { (b c : GridCell) → Self.leads (in_rows free.now) b c → IsBeside b c }
        ensures ends { (b c : GridCell) → Self.leads (in_rows free.now) b c → b.row < length free.now → c.row < length free.now }
        ensures on { (shape : Extent) (b c : GridCell) → IsAllOn shape (InRows free.now) → Self.leads (in_rows free.now) b c → IsOn shape c };

    /// Returns the columns in which a step leads from one row to the row above or below it.
    fn across(free: &[[u64; N]], from: usize, to: usize) -> [u64; N]
        requires inside { AreInside free.now }
        requires within { (from < length free.now) × (to < length free.now) }
        requires beside { IsAbove from to ⊎ IsBelow from to }
        ensures { (k : ℕ) → HasBit result k ↔ Self.leads (in_rows free.now) (cell_at k from) (cell_at k to) };
}

/// Steps over rows of any width.
pub trait Step: StepBy<1> + StepBy<4> {}

/// Walks: from a cell to a free neighbour.
#[derive(Clone, Copy, Debug)]
pub struct ByWalk;

impl Step for ByWalk {}

impl StepKind for ByWalk {
    ghost leads = { λ free. WalksTo (Passes free) };
}

impl<const N: usize> StepBy<N> for ByWalk {
    fn along(free: &[[u64; N]], y: usize, row: &mut [u64; N]) {
        fill_over(&free[y], row);
    }

    fn across(free: &[[u64; N]], _from: usize, to: usize) -> [u64; N] {
        free[to]
    }
}

/// Pulls: from a cell to each neighbour from which a push brings a box to it.
#[derive(Clone, Copy, Debug)]
pub struct ByPull;

impl Step for ByPull {}

impl StepKind for ByPull {
    ghost leads = { λ free. PullsTo (Passes free) };
}

impl<const N: usize> StepBy<N> for ByPull {
    fn along(free: &[[u64; N]], y: usize, row: &mut [u64; N]) {
        fill_over(&between(&free[y]), row);
    }

    fn across(free: &[[u64; N]], _from: usize, to: usize) -> [u64; N] {
        both(&row_at(free, to.saturating_sub(1)), &row_at(free, to + 1))
    }
}

/// Pushes: from a cell to each neighbour to which a player on its opposite side can push a box.
#[derive(Clone, Copy, Debug)]
pub struct ByPush;

impl Step for ByPush {}

impl StepKind for ByPush {
    ghost leads = { λ free. PushesTo (Passes free) };
}

impl<const N: usize> StepBy<N> for ByPush {
    fn along(free: &[[u64; N]], y: usize, row: &mut [u64; N]) {
        slide(&free[y], row);
    }

    fn across(free: &[[u64; N]], from: usize, _to: usize) -> [u64; N] {
        both(
            &row_at(free, from.saturating_sub(1)),
            &row_at(free, from + 1),
        )
    }
}
