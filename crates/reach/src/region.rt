//! Regions: the cells joined to a seed.
//!
//! A region is what walks over free cells reach from the free seeds. It is found by rows of bits, which are reserved once.
//!
//! `flood` and `Flooder` are for callers. The program uses `Rows::grow`, whose contract speaks of the same chains.
ghost use Rattle.std.specs.Prelude.{◌≡◌, IfOk};
ghost use Rattle.std.specs.FinSet as set;
ghost use Rattle.cellset.specs.Cell.{IsOn};
ghost use Rattle.cellset.specs.CellSet.{Has};
ghost use Rattle.cellset.specs.declared.cell.Cell.{Cell as GridCell};
ghost use Rattle.reach.specs.Region.{IsRegion};

use crate::rows::Rows;
use crate::step::ByWalk;
use cellset::{Cell, CellSet, Shape};
use std::alloc::{AllocError, Global};
use std::marker::Model;

/// Returns the region of the seeds: the cells that a chain of neighbours outside walls and barrier joins to one of them.
///
/// A seed on a wall or in the barrier adds nothing. To find many regions on one shape, use a `Flooder`.
pub fn flood<S: CellSet>(
    alloc: Global,
    shape: Shape,
    walls: &S,
    barrier: &S,
    seeds: &S,
) -> Result<S, AllocError>
    requires walls { S.extent walls.now ≡ shape }
    requires barrier { S.extent barrier.now ≡ shape }
    requires seeds { S.extent seeds.now ≡ shape }
    ensures extent { IfOk result (λ s. S.extent s ≡ shape) }
    ensures exact { IfOk result (λ s. IsRegion shape
        (S.members walls.now) (S.members barrier.now) (S.members seeds.now) (S.members s)) }
{
    let mut region = S::new(alloc, shape)?;
    let mut flooder = Flooder::new(alloc, shape)?;
    flooder.flood_into(walls, barrier, seeds, &mut region);
    drop(flooder);
    Ok(region)
}

/// Finds one region after another on one shape, with rows that are reserved once.
#[derive(Debug, Drop)]
pub struct Flooder {
    free: Rows,
    region: Rows,
}

impl Model for Flooder {
    ghost use Rattle.std.specs.Prelude.{◌≡◌};
    ghost use Rattle.cellset.specs.Shape.{Extent};

    ghost Value = { Extent };

    ghost view = { λ f. f.free.extent };

    ghost invariant = { λ f. f.region.extent ≡ f.free.extent };
}

impl Flooder {
    /// Returns a flooder for this shape, with all the memory that its floods need.
    pub fn new(alloc: Global, shape: Shape) -> Result<Flooder, AllocError>
        ensures { IfOk result (λ f. f ≡ shape) }
    {
        let free = Rows::new(alloc, shape)?;
        let region = Rows::new(alloc, shape)?;
        Ok(Flooder { free, region })
    }

    /// Replaces the cells of `region` by the region of the seeds, which is that of `flood`. Allocates nothing.
    pub fn flood_into<S: CellSet>(&mut self, walls: &S, barrier: &S, seeds: &S, region: &mut S)
        requires walls { S.extent walls.now ≡ self.old }
        requires barrier { S.extent barrier.now ≡ self.old }
        requires seeds { S.extent seeds.now ≡ self.old }
        requires region { S.extent region.old ≡ self.old }
        ensures same { self.new ≡ self.old }
        ensures extent { S.extent region.new ≡ self.old }
        ensures exact { IsRegion self.old
            (S.members walls.now) (S.members barrier.now) (S.members seeds.now) (S.members region.new) }
    {
        // For the proof: the seeds lie on the grid.
        let _shape = seeds.shape();
        // `region` holds walls and barrier at first, so that both are read as one set.
        region.copy_from(walls);
        region.union_with(barrier);
        self.free.load(region);
        self.region.load(seeds);
        find_region(&mut self.region, &mut self.free);
        region.clear();
        self.region.store(region);
    }
}

// Replaces the seeds by their region outside the barred cells, and the barred cells by the free ones.
fn find_region(seeds: &mut Rows, barred: &mut Rows)
    requires extent { seeds.old.extent ≡ barred.old.extent }
    requires on { (c : GridCell) → Has seeds.old.members c → IsOn seeds.old.extent c }
    ensures extent { (seeds.new.extent ≡ seeds.old.extent) × (barred.new.extent ≡ barred.old.extent) }
    ensures exact { IsRegion seeds.old.extent barred.old.members set.empty seeds.old.members seeds.new.members }
{
    seeds.subtract(barred);
    barred.complement();
    seeds.grow::<ByWalk>(barred);
}
