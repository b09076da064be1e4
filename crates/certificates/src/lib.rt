//! What certificates that a level is unsolvable say, and when one is right: definitions, and the loops over lists of cells.
//!
//! The crate `closure` checks certificates, and the crate `maker` makes them. Both are proved to do so by these definitions, and neither
//! needs the other.
//!
//! Read `specs/Pattern.antt` for patterns, regions, pushes out and lawful patterns, `specs/Closed.antt` for closed lists of patterns,
//! `specs/Zone.antt` for zones, and `specs/CellLists.antt` for the set of a list of cells, and of a list of coordinates as answers have
//! them.
#![tactic(auto)]

mod lists;

pub use lists::{add_cells, are_in, are_outside, is_among, is_same, load, number_of, take_out};
