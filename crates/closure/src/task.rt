//! The group whose pushes are settled.
use crate::tables::Tables;
use cellset::{Cell, CellSet};

// A group, its boxes, and which groups are noted as covered.
#[derive(Clone, Copy, Debug)]
pub(crate) struct Task<'a, S: CellSet> {
    pub tables: &'a Tables<'a, S>,
    pub covered: &'a [bool],
    pub group: usize,
    pub boxes: &'a [Cell],
}
