//! The worklist of a flood: the rows that are still to be looked at.
//!
//! A flood of at most 64 rows has a worklist of one word, which it keeps in a register. With four words always, an audit of lists
//! takes 3 to 9 % more instructions, and `make` 3 %. A board of more than 63 rows gains nothing.
ghost use Rattle.std.specs.Prelude.{◌≡◌, ◌+◌, ◌*◌, ◌/◌, ◌^◌, ◌<◌, ◌≤◌, ◌↔◌, ◌⊎◌, ℕ, MatchOption, sum};
ghost use Rattle.reach.specs.Bits.{HasBit, IsTaken};

// A set of row numbers below `64 * M`, as bits. Contracts see its words.
#[derive(Clone, Copy, Debug)]
pub(crate) struct Worklist<const M: usize> {
    words: [u64; M],
}

impl Worklist<4> {
    // Returns the rows below 64.
    pub(crate) fn first_word(&self) -> Worklist<1>
        ensures { (k : ℕ) → HasBit result.words k ↔ ((k < 64) × HasBit self.now.words k) }
    {
        Worklist {
            words: [self.words[0]],
        }
    }
}

impl<const M: usize> Worklist<M> {
    // Returns an empty worklist.
    pub(crate) fn none() -> Worklist<M>
        ensures { (k : ℕ) → HasBit result.words k → ⊥ }
    {
        Worklist { words: [0; M] }
    }

    // Adds a row.
    pub(crate) fn add(&mut self, row: usize)
        requires { row < 64 * M }
        ensures added { (k : ℕ) → HasBit self.new.words k ↔ (HasBit self.old.words k ⊎ (k ≡ row)) }
        ensures weight { sum self.new.words ≤ sum self.old.words + 2 ^ 64 }
    {
        self.words[word_of::<M>(row)] |= 1 << (row % 64);
    }

    // Removes the first row and returns it, or returns `None` if the worklist is empty.
    pub(crate) fn pop(&mut self) -> Option<usize>
        requires { M ≤ 4 }
        ensures { MatchOption result
            (((k : ℕ) → HasBit self.old.words k → ⊥) × (self.new.words ≡ self.old.words))
            (λ row. IsTaken self.old.words row self.new.words) }
    {
        for i in 0..M {
            let word = self.words[i];
            if word != 0 {
                let bit = word.trailing_zeros() as usize;
                self.words[i] = word & !(1 << bit);
                return Some(64 * i + bit);
            }
        }
        None
    }
}

// Returns the index of the word that has a bit. It is a constant for a single word.
pub(crate) fn word_of<const M: usize>(bit: usize) -> usize
    requires { bit < 64 * M }
    ensures { result ≡ bit / 64 }
{
    if M == 1 { 0 } else { bit / 64 }
}
