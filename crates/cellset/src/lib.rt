//! Cells of a grid, and sets of them.
//!
//! Contracts see a `Shape` as its sides, a `Cell` as its row and column, a set of cells as a finite set, and a `MembersOf`
//! as the list of the members that are left. Two sets with the same members are one value, whether they are kept as a
//! sorted list (`ListSet`) or as a bit for each cell (`BitSet`). Each call of `CellSet` is one operation on finite sets.
//!
//! Read `specs/Shape.antt` for the sides of a grid, `specs/Cell.antt` for cells, neighbours and reading order,
//! `specs/Grid.antt` for the cells of a grid in order, `specs/CellSet.antt` for sets, `specs/RowBits.antt` for the bits of a
//! row, and `specs/Members.antt` for the members in order.
#![tactic(auto)]

mod bit_set;
mod cell;
mod dir;
mod laws;
mod list_set;
mod members_of;
mod set;
mod shape;
mod words;

pub use bit_set::BitSet;
pub use cell::Cell;
pub use dir::Dir;
pub use laws::cells_are_in_reading_order;
pub use list_set::ListSet;
pub use members_of::MembersOf;
pub use set::CellSet;
pub use shape::{MAX_SIDE, Shape};
pub use words::first_bits;
