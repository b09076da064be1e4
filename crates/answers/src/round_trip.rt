//! Written text reads back.
ghost use Rattle.std.specs.Prelude.{ℕ, List};
ghost use Rattle.answers.specs.declared.record.MadeRecord.{MadeRecord};
ghost use Rattle.answers.specs.Canonical.{canonical};
ghost use Rattle.answers.specs.Grammar.{SpellsEntries};
ghost use Rattle.answers.specs.Body.{Entry};
ghost use Rattle.answers.specs.RoundTrip.{AreLawfulRecords, SaysSame};

/// The canonical text of lawful records reads back as the same records, for any number of levels that includes theirs.
///
/// The text spells entries, so `read` returns Ok unless memory runs out; and all that the text spells says the same as the
/// records.
pub fn written_is_read()
    ensures some { (records : List MadeRecord) (levels : ℕ) → AreLawfulRecords 0 levels records
        → (entries : List Entry) × SpellsEntries (canonical records) levels entries }
    ensures same { (records : List MadeRecord) (levels : ℕ) → AreLawfulRecords 0 levels records
        → (entries : List Entry) → SpellsEntries (canonical records) levels entries
        → SaysSame records entries }
{}
