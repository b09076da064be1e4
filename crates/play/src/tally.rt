//! The counts of a solution.

/// The counts of a solution.
#[derive(Clone, Copy, Debug, PartialEq, Eq)]
pub struct Tally {
    /// The steps, walks and pushes together.
    pub moves: u64,
    /// The steps that push a box.
    pub pushes: u64,
    /// The pushes of another box than the push before. The first push counts.
    pub changes: u64,
}
