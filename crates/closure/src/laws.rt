//! What closed lists and refuting zones mean for the game. They have no fault, and every other certificate has one first fault at
//! most.
ghost use Rattle.std.specs.Prelude.{◌≡◌, List};
ghost use Rattle.board.specs.Game.{Level};
ghost use Rattle.answers.specs.Body.{PatternLine, ZoneLine};
ghost use Rattle.certificates.specs.Closed.{ClosedMeansUnsolvable};
ghost use Rattle.closure.specs.{declared.fault.CheckFault.CheckFault, declared.fault.ZoneFault.ZoneFault};
ghost use Rattle.closure.specs.FirstFault.{ClosedHasNoFault, RefutingHasNoFault, IsFirstPatternFault, IsFirstZoneFault};
ghost use Rattle.certificates.specs.Zone.{RefutingMeansUnsolvable};

/// No list of directions, of any length, solves a level that has a closed list of patterns.
pub fn closed_means_unsolvable()
    ensures { ClosedMeansUnsolvable }
{}

/// No list of directions, of any length, solves a level that a zone refutes.
#[tactic(auto, using(crate::proofs::ZoneCounts::refuting_unsolvable))]
pub fn refuting_zone_means_unsolvable()
    ensures { RefutingMeansUnsolvable }
{}

/// A closed list has no first fault.
#[tactic(auto, using(crate::proofs::FirstLines::fault_not_closed))]
pub fn closed_lists_have_no_fault()
    ensures { ClosedHasNoFault }
{}

/// A zone that refutes a level has no first fault.
#[tactic(auto, using(crate::proofs::OneFault::refuting_no_fault))]
pub fn refuting_zones_have_no_fault()
    ensures { RefutingHasNoFault }
{}

/// A list has at most one first fault.
#[tactic(auto, using(crate::proofs::OneFault::one_pattern_fault))]
pub fn lists_have_one_first_fault()
    ensures { (level : Level) (lines : List PatternLine) (a b : CheckFault) → IsFirstPatternFault level lines a → IsFirstPatternFault level lines b → a ≡ b }
{}

/// A zone has at most one first fault.
#[tactic(auto, using(crate::proofs::OneFault::one_zone_fault))]
pub fn zones_have_one_first_fault()
    ensures { (level : Level) (line : ZoneLine) (a b : ZoneFault) → IsFirstZoneFault level line a → IsFirstZoneFault level line b → a ≡ b }
{}
