//! The four directions.
ghost use Rattle.std.specs.Prelude.{◌≡◌};
ghost use Rattle.cellset.specs.Cell.{opposite};
ghost use Rattle.cellset.specs.Words.{dir_word};

use std::fmt;

/// A direction: left, up, right or down.
#[derive(Clone, Copy, Debug, PartialEq, Eq)]
pub enum Dir {
    /// To the next column on the left.
    L,
    /// To the row above.
    U,
    /// To the next column on the right.
    R,
    /// To the row below.
    D,
}

impl Dir {
    /// Returns the opposite direction.
    pub fn opposite(self) -> Dir
        ensures { result ≡ opposite self }
    {
        match self {
            Dir::L => Dir::R,
            Dir::U => Dir::D,
            Dir::R => Dir::L,
            Dir::D => Dir::U,
        }
    }
    /// Returns the small letter of a step in this direction.
    pub fn word(self) -> &'static str
        ensures { result.now ≡ dir_word self }
    {
        match self {
            Dir::L => "l",
            Dir::U => "u",
            Dir::R => "r",
            Dir::D => "d",
        }
    }
}

/// Writes the small letter of a step, as in reports.
impl fmt::Display for Dir {
    ghost use Rattle.std.specs.Prelude.{Some};
    ghost use Rattle.cellset.specs.Words.{dir_word};

    ghost output = { λ dir. Some (dir_word dir) };

    fn fmt<W: fmt::Write>(&self, f: &mut fmt::Formatter<W>) -> fmt::Result {
        f.write_str(self.word())
    }
}
