//! Each solution text has one outcome.
ghost use Rattle.std.specs.Prelude.{◌≡◌, ℕ, List};
ghost use Rattle.board.specs.Game.{Level};
ghost use Rattle.play.specs.Solution.{Solves};
ghost use Rattle.play.specs.FirstFault.{IsFirstSolutionFault};
ghost use Rattle.play.specs.declared.tally.Tally.{Tally as Counted};
ghost use Rattle.play.specs.declared.fault.ReplayFault.{ReplayFault as Fault};

/// A text has at most one tally and at most one first fault, and never both.
pub fn texts_come_to_one_thing()
    ensures tally { (level : Level) (text : List ℕ) (a b : Counted) → Solves level text a → Solves level text b → a ≡ b }
    ensures fault { (level : Level) (text : List ℕ) (a b : Fault) → IsFirstSolutionFault level text a → IsFirstSolutionFault level text b → a ≡ b }
    ensures none { (level : Level) (text : List ℕ) (tally : Counted) (fault : Fault) → Solves level text tally → IsFirstSolutionFault level text fault → ⊥ }
{}
