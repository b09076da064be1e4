//! In which directions a box can be pushed out of its group.
ghost use Rattle.std.specs.Prelude.{◌≡◌, ◌&&◌, IsTrue, cond};
ghost use Rattle.cellset.specs.declared.dir.Dir.TheVariants.{L, U, R, D};
ghost use Rattle.closure.specs.Ways.{goes};

use cellset::Dir;
use reach::Ring;

// By direction, a bit that says whether a push goes that way.
#[derive(Clone, Copy, Debug, Default, PartialEq, Eq)]
pub(crate) struct Ways {
    pub bits: u8,
}

impl Ways {
    // Returns the ways in these directions.
    pub(crate) fn new(left: bool, up: bool, right: bool, down: bool) -> Ways
        ensures left { goes result L ≡ left }
        ensures up { goes result U ≡ up }
        ensures right { goes result R ≡ right }
        ensures down { goes result D ≡ down }
    {
        Ways {
            bits: bit_if(left, 1) | bit_if(up, 2) | bit_if(right, 4) | bit_if(down, 8),
        }
    }

    // Returns the ways of a box by a player in one set to another, by what each of them has around the box.
    pub(crate) fn between(by: Ring, to: Ring) -> Ways
        ensures left { goes result L ≡ (by.right && to.left) }
        ensures up { goes result U ≡ (by.down && to.up) }
        ensures right { goes result R ≡ (by.left && to.right) }
        ensures down { goes result D ≡ (by.up && to.down) }
    {
        Ways::new(
            by.right & to.left,
            by.down & to.up,
            by.left & to.right,
            by.up & to.down,
        )
    }

    // Returns whether no push goes in any direction.
    pub(crate) fn is_none(self) -> bool
        ensures { IsTrue result → self.bits ≡ 0 }
    {
        self.bits == 0
    }

    // Returns whether a push goes in the direction.
    #[inline(always)]
    pub(crate) fn has(self, dir: Dir) -> bool
        ensures { result ≡ goes self dir }
    {
        match dir {
            Dir::L => self.bits & 1 == 1,
            Dir::U => self.bits >> 1 & 1 == 1,
            Dir::R => self.bits >> 2 & 1 == 1,
            Dir::D => self.bits >> 3 & 1 == 1,
        }
    }
}

// Returns a bit, or 0.
#[inline(always)]
fn bit_if(is_set: bool, bit: u8) -> u8
    ensures { result ≡ cond is_set bit 0 }
{
    if is_set { bit } else { 0 }
}
