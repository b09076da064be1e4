//! A player among boxes.
ghost use Rattle.std.specs.Prelude.{◌≡◌, ◌⊎◌, ◌↔◌};
ghost use Rattle.cellset.specs.{Cell.IsOn, CellSet.Has, CellSet.Lacks, declared.cell.Cell.Cell as GridCell};
ghost use Rattle.certificates.specs.CellLists.{cells_in};

use cellset::Cell;
use reach::Rows;

// A player in the room, and boxes.
#[derive(Debug, Drop)]
pub(crate) struct Place {
    pub boxes: Rows,
    pub player: Cell,
}

impl Place {
    // Takes boxes away.
    #[tactic(auto, using(certificates::proofs::CellLists::over_cells, cellset::proofs::Members::inserted, cellset::proofs::Members::kept_by_insert, cellset::proofs::Members::lacks_where, cellset::proofs::Members::not_both))]
    pub(crate) fn lift(&mut self, boxes: &[Cell])
        requires { (c : GridCell) → Has (cells_in boxes.now) c → IsOn self.old.boxes.extent c }
        ensures player { self.new.player ≡ self.old.player }
        ensures extent { self.new.boxes.extent ≡ self.old.boxes.extent }
        ensures members { (c : GridCell) → Has self.new.boxes.members c ↔ (Has self.old.boxes.members c × Lacks (cells_in boxes.now) c) }
    {
        for cell in boxes {
            self.boxes.remove(*cell);
        }
    }

    // Adds boxes.
    #[tactic(auto, using(certificates::proofs::CellLists::over_cells, cellset::proofs::Members::inserted, cellset::proofs::Members::kept_by_insert))]
    pub(crate) fn put(&mut self, boxes: &[Cell])
        requires { (c : GridCell) → Has (cells_in boxes.now) c → IsOn self.old.boxes.extent c }
        ensures player { self.new.player ≡ self.old.player }
        ensures extent { self.new.boxes.extent ≡ self.old.boxes.extent }
        ensures members { (c : GridCell) → Has self.new.boxes.members c ↔ (Has self.old.boxes.members c ⊎ Has (cells_in boxes.now) c) }
    {
        for cell in boxes {
            self.boxes.insert(*cell);
        }
    }
}
