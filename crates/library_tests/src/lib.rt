//! Tests of the libraries, by their public calls alone: what no text shows.
//!
//! The tests of a crate prove that crate once more. Here all libraries share one proof, over their contracts.
#![tactic(auto)]

#[cfg(test)]
mod device_calls;
#[cfg(test)]
mod messages;
#[cfg(test)]
mod pictures;
#[cfg(test)]
mod pushes;
#[cfg(test)]
mod runs;
#[cfg(test)]
mod same;
#[cfg(test)]
mod sets;
#[cfg(test)]
mod values;
#[cfg(test)]
mod writing;
