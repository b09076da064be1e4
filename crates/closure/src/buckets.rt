//! Buckets: by cell, groups that have a box there. Each group is in the bucket of one of its boxes, the smallest one when it came.
ghost use Rattle.std.specs.Prelude.{◌≡◌, ◌*◌, ◌<◌, IfOk, length};
ghost use Rattle.cellset.specs.{CellSet.Has, Cell.IsOn, SortedList.index, declared.cell.Cell.Cell as GridCell};
ghost use Rattle.certificates.specs.CellLists.{cells_in};
ghost use Rattle.certificates.specs.Pattern.{AreLawful};
ghost use Rattle.closure.specs.{Buckets.AreBuckets, Groups.IsGrouped, Groups.list_of};

use crate::arena::to_u32;
use crate::chains::{Chains, chain};
use crate::groups::Groups;
use board::Board;
use cellset::{Cell, CellSet, Shape};
use std::alloc::{AllocError, Global};

// By index of a cell, groups that have a box there.
#[derive(Debug, Drop)]
pub(crate) struct Buckets {
    // By group, the index of its bucket.
    pub keys: Vec<u32>,
    pub chains: Chains,
}

// Puts each group into the bucket of one of its boxes, the smallest one so far.
#[tactic(auto, using(crate::proofs::Lists::length_more, crate::proofs::InBuckets::bucket_more))]
pub(crate) fn fill_buckets<S: CellSet>(
    alloc: Global,
    board: &Board<S>,
    groups: &Groups,
) -> Result<Buckets, AllocError>
    requires lawful { AreLawful board.now (list_of groups.now) }
    requires groups { IsGrouped groups.now }
    ensures { IfOk result (AreBuckets board.now groups.now) }
{
    let shape = board.shape();
    let cells = usize::from(shape.width()) * usize::from(shape.height());
    let mut sizes = vec![in alloc; 0u32; cells]?;
    let mut keys = Vec::with_capacity(alloc, groups.spans.len())?;
    for group in 0..groups.spans.len() {
        let key = smallest_bucket(shape, &sizes, groups.boxes(group));
        sizes[key] = sizes[key].saturating_add(1);
        keys.push_reserved(to_u32(key)?);
    }
    let chains = chain(alloc, &keys, cells)?;
    Ok(Buckets { keys, chains })
}

// Returns the index of the box whose bucket has the fewest groups.
#[tactic(auto, using(certificates::proofs::CellLists::over_cells))]
fn smallest_bucket(shape: Shape, sizes: &[u32], boxes: &[Cell]) -> usize
    requires some { 0 < length boxes.now }
    requires on { (c : GridCell) → Has (cells_in boxes.now) c → IsOn shape c }
    requires sizes { length sizes.now ≡ shape.width * shape.height }
    ensures { (c : GridCell) × Has (cells_in boxes.now) c × (result ≡ index shape c) }
{
    let mut smallest = shape.index_of(boxes[0]);
    for cell in boxes {
        let at = shape.index_of(*cell);
        if sizes[at] < sizes[smallest] {
            smallest = at;
        }
    }
    smallest
}
