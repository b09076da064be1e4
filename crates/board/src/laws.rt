//! Laws: lines decide their levels, and rows decide their board.
ghost use Rattle.std.specs.Prelude.{◌≡◌, ℕ, List};
ghost use Rattle.board.specs.Game.{Level};
ghost use Rattle.board.specs.Legal.{IsBoardOf, IsRefusal};
ghost use Rattle.board.specs.Levels.{AreLevelsOf};
ghost use Rattle.board.specs.declared.reading.BoardFault.{BoardFault as Why};

/// Lines have at most one list of levels.
pub fn lines_have_one_list_of_levels()
    ensures { (levels others : List (List (List ℕ))) (lines : List (List ℕ)) → AreLevelsOf levels lines → AreLevelsOf others lines → levels ≡ others }
{}

/// Rows have at most one board or one refusal, and never both.
pub fn rows_have_one_board()
    ensures same { (rows : List (List ℕ)) (level other : Level) → IsBoardOf rows level → IsBoardOf rows other → level ≡ other }
    ensures refused { (rows : List (List ℕ)) (level : Level) (why : Why) → IsBoardOf rows level → IsRefusal rows why → ⊥ }
    ensures refusal { (rows : List (List ℕ)) (why other : Why) → IsRefusal rows why → IsRefusal rows other → why ≡ other }
{}
