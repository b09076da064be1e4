//! The numbers of the report's last line.
ghost use Rattle.std.specs.Prelude.{◌≡◌, ◌<◌, ◌-◌, ◌^◌};
ghost use Rattle.report.specs.Summary.{AddsUp, status_of, with_status};

use crate::status::Status;

/// The number of levels, and the number of levels of each kind.
#[derive(Clone, Copy, Debug, PartialEq, Eq)]
pub struct Summary {
    pub levels: usize,
    pub solved: usize,
    pub unsolvable: usize,
    pub refused: usize,
    pub missing: usize,
}

impl Summary {
    /// Returns the summary of no levels: all numbers are 0.
    pub fn new() -> Summary
        ensures value { result ≡ record { levels = 0; solved = 0; unsolvable = 0; refused = 0; missing = 0 } }
        ensures adds_up { AddsUp result }
    {
        Summary {
            levels: 0,
            solved: 0,
            unsolvable: 0,
            refused: 0,
            missing: 0,
        }
    }

    /// Counts one more level, by its status.
    pub fn add(&mut self, status: Status)
        requires adds_up { AddsUp self.old }
        requires room { self.old.levels < 2 ^ 64 - 1 }
        ensures value { self.new ≡ with_status self.old status }
        ensures adds_up { AddsUp self.new }
    {
        self.levels += 1;
        match status {
            Status::Solved(_) => self.solved += 1,
            Status::Unsolvable { .. } => self.unsolvable += 1,
            Status::UnsolvableZone { .. } => self.unsolvable += 1,
            Status::Refused(_) => self.refused += 1,
            Status::Missing => self.missing += 1,
        }
    }

    /// Returns the exit status of the program after a report with these numbers.
    pub fn exit_status(self) -> u8
        ensures value { result ≡ status_of self }
        ensures below { result < 2 }
    {
        u8::from(self.refused > 0 || self.missing > 0)
    }
}
