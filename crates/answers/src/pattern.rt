//! The parts of certificates, as the answers text spells them.

use smallvec::SmallVec;

/// A cell as the text spells it: column and row from 1, where 0 is off every board. Cells are ordered by row, then by column.
#[derive(Clone, Copy, Debug, Default, PartialEq, Eq, PartialOrd, Ord)]
pub struct Coord {
    pub row: u16,
    pub column: u16,
}

/// The cells at which the region of a pattern begins.
#[derive(Clone, Debug, PartialEq, Eq, Drop)]
pub enum Seeds {
    /// The room without the boxes, written `*`.
    Room,
    /// These cells.
    Cells(SmallVec<Coord, 8>),
}

/// Boxes with the seeds of a region, and the line of the text; a made pattern has line 0.
#[derive(Clone, Debug, PartialEq, Eq, Drop)]
pub struct Pattern {
    pub line: usize,
    pub boxes: SmallVec<Coord, 8>,
    pub seeds: Seeds,
}

/// Cells, and the line of the text; a made zone has line 0.
#[derive(Clone, Debug, PartialEq, Eq, Drop)]
pub struct Zone {
    pub line: usize,
    pub cells: Vec<Coord>,
}
