//! An answers text has one reading.
ghost use Rattle.std.specs.Prelude.{◌≡◌, ℕ, List};
ghost use Rattle.answers.specs.FirstFault.{IsFirstAnswersFault};
ghost use Rattle.answers.specs.Grammar.{SpellsEntries};
ghost use Rattle.answers.specs.Body.{Entry};
ghost use Rattle.answers.specs.declared.fault.AnswersFault.{AnswersFault as Fault};

/// For a number of levels, a text spells at most one list of entries, and none if it has a fault.
pub fn texts_have_one_reading()
    ensures same { (text : List ℕ) (levels : ℕ) (entries others : List Entry) → SpellsEntries text levels entries
        → SpellsEntries text levels others → entries ≡ others }
    ensures refused { (text : List ℕ) (levels : ℕ) (entries : List Entry) (fault : Fault)
        → SpellsEntries text levels entries → IsFirstAnswersFault text levels fault → ⊥ }
    ensures fault { (text : List ℕ) (levels : ℕ) (a b : Fault) → IsFirstAnswersFault text levels a → IsFirstAnswersFault text levels b → a ≡ b }
{}
