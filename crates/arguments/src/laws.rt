//! What plain words ask for.
ghost use Rattle.std.specs.Prelude.{ℕ, List};
ghost use Rattle.arguments.specs.Command.{AsksFor, Request, SpellsRequest};

/// Words that spell a request plainly ask for it.
pub fn plain_words_ask()
    ensures { (words : List (List ℕ)) (request : Request) → SpellsRequest words request → AsksFor words request }
{}
