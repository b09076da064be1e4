//! Regions of a grid, and the pushes out of a region.
//!
//! Contracts see a region as a finite set of cells: a cell is in it exactly if a chain of neighbours joins it to a seed.
//! They see a `Flooder` as the shape that it floods, and a `Pushes` as the list of the pushes that are left.
//!
//! `Rows` is a set of cells kept as rows of bits; contracts see it as a finite set. A flood adds every cell that chains of
//! steps reach. There are three kinds of step (`step`): walks, pulls and pushes. `Rows` picks the number of words in a row by the
//! width of the grid. No other crate knows that number.
//!
//! Read `specs/Region.antt` for chains and regions, `specs/Reached.antt` for steps and what they reach, `specs/Pushes.antt` for
//! pushes out of a region and their order, `specs/Rings.antt` for the cells around a cell, and `specs/Bits.antt` for rows of bits.
#![tactic(auto)]

mod bit_rows;
mod columns;
mod fills;
mod grow;
mod pushes;
mod region;
mod rings;
mod rows;
pub mod step;
mod worklist;

pub use pushes::{Push, Pushes};
pub use region::{Flooder, flood};
pub use rings::Ring;
pub use rows::Rows;
