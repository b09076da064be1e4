//! Which states a list of patterns covers. `Coverage` is for callers. The program uses `PatternList`, over the same definitions.
ghost use Rattle.std.specs.Prelude.{◌≡◌, ◌↔◌, IsTrue};
ghost use Rattle.cellset.specs.{Shape.Extent, Cell.IsOn};
ghost use Rattle.board.specs.Game.{State};

use cellset::{Cell, CellSet};

/// A list of lawful patterns, made ready to tell which states it covers.
pub trait Coverage<S: CellSet>: Drop {
    /// The grid of the board.
    ghost extent: { Self → Extent };

    /// The states that the list covers.
    ghost covered: { Self → State → Type 0 };

    /// Returns whether a pattern of the list covers the state of this player and these boxes. Allocates nothing.
    fn covers(&mut self, player: Cell, boxes: &S) -> bool
        requires player { IsOn (extent self.old) player }
        requires boxes { S.extent boxes.now ≡ extent self.old }
        ensures exact { IsTrue result ↔ covered self.old (record { player = player; boxes = S.members boxes.now }) }
        ensures extent { extent self.new ≡ extent self.old }
        ensures same { (s : State) → covered self.new s ↔ covered self.old s };
}
