//! Lists of patterns, and their check. `check` is for callers. The program uses `PatternList`, with the same contract.
ghost use Rattle.std.specs.Prelude.{◌≡◌, ◌≢◌, ◌⊎◌, ◌++◌, ◌∷◌, [], IfOk, IfErr, OnOk, IsOkUnless, MatchOption, length, map};
ghost use Rattle.board.specs.{Game.Solvable};
ghost use Rattle.answers.specs.Grammar.{said_pattern};
ghost use Rattle.certificates.specs.Pattern.{pattern_of, patterns_of, AreLawful, IsLawful};
ghost use Rattle.closure.specs.Arena.{lines_in, list_in};
ghost use Rattle.certificates.specs.Closed.{Closed};
ghost use Rattle.closure.specs.{FirstFault.IsFirstPatternFault, FirstFault.IsUnlawful, declared.fault.CheckFault.CheckFault as Fault};

use crate::arena::Arena;
use crate::checking::{Accepted, check_lawful};
use crate::fault::{CheckFault, LineWhy};
use crate::lawful::why_unlawful;
use answers::Pattern;
use board::Board;
use cellset::CellSet;
use std::alloc::{AllocError, Global};

/// A list of patterns, to which one line after another is added before it is checked.
#[derive(Debug, Drop)]
pub struct PatternList<'a, S: CellSet> {
    board: &'a Board<S>,
    // The patterns, up to the first that isn't lawful.
    arena: Arena,
    // The line of that one, and why.
    unlawful: Option<(usize, LineWhy)>,
}

// Adds a pattern if it is lawful. Returns why it isn't.
fn add_lawful<S: CellSet>(
    alloc: Global,
    board: &Board<S>,
    pattern: &Pattern,
    arena: &mut Arena,
) -> Result<Option<LineWhy>, AllocError>
    ensures { IfOk result (λ why. MatchOption why
        ((lines_in arena.new ≡ lines_in arena.old ++ said_pattern pattern.now ∷ []) × IsLawful board.now (pattern_of (said_pattern pattern.now)))
        (IsUnlawful board.now (pattern_of (said_pattern pattern.now)))) }
{
    arena.make_room()?;
    let line = arena.lines.len();
    if !arena.add(board.shape(), pattern)? {
        return Ok(Some(LineWhy::Board));
    }
    why_unlawful(alloc, board, arena, arena.line(line))
}

impl<'a, S: CellSet> PatternList<'a, S> {
    ghost use Rattle.std.specs.Prelude.{List};
    ghost use Rattle.answers.specs.Body.{PatternLine};
    ghost use Rattle.closure.specs.PatternList.{IsListOf};

    /// Returns a list without patterns for this level.
    pub fn new(alloc: Global, board: &'a Board<S>) -> PatternList<'a, S>
        ensures level { result.board.now ≡ board.now }
        ensures none { IsListOf [] result }
    {
        PatternList {
            board,
            arena: Arena::new(alloc),
            unlawful: None,
        }
    }

    /// Adds a pattern. After the first pattern that isn't lawful the list keeps none. After out of memory it can't be checked.
    pub fn add(&mut self, alloc: Global, pattern: &Pattern) -> Result<(), AllocError>
        ensures level { self.new.board.now ≡ self.old.board.now }
        ensures added { OnOk result ((lines : List PatternLine) → IsListOf lines self.old → IsListOf (lines ++ said_pattern pattern.now ∷ []) self.new) }
    {
        if self.unlawful.is_none() {
            if let Some(why) = add_lawful(alloc, self.board, pattern, &mut self.arena)? {
                self.unlawful = Some((pattern.line, why));
            }
        }
        Ok(())
    }

    /// Checks that the list is closed, and returns its first fault if it isn't.
    pub fn check(self, alloc: Global) -> Result<Accepted, CheckFault>
        requires { (lines : List PatternLine) × IsListOf lines self }
        ensures ok { (lines : List PatternLine) → IsListOf lines self.entry → IfOk result (λ accepted. Closed self.entry.board.now (patterns_of lines)
            × (accepted.patterns ≡ length lines)) }
        ensures only { (lines : List PatternLine) → IsListOf lines self.entry → Closed self.entry.board.now (patterns_of lines)
            → IsOkUnless result CheckFault.Memory }
        ensures exact { (lines : List PatternLine) → IsListOf lines self.entry → IfErr result (λ fault. fault ≢ CheckFault.Memory
            → IsFirstPatternFault self.entry.board.now lines fault) }
        ensures first { (lines : List PatternLine) (fault : Fault) → IsListOf lines self.entry → IsFirstPatternFault self.entry.board.now lines fault
            → (result ≡ Err fault) ⊎ (result ≡ Err CheckFault.Memory) }

        // What this means for the game.
        ensures unsolvable { (lines : List PatternLine) → IsListOf lines self.entry → OnOk result (Solvable self.entry.board.now → ⊥) }
    {
        if let Some((line, why)) = self.unlawful {
            return Err(CheckFault::Line { line, why });
        }
        check_lawful(alloc, self.board, self.arena)
    }
}

/// Checks that a list of patterns is closed, and returns its first fault if it isn't.
///
/// The variants of `CheckFault` are in the order of the checks. The head of the crate says what a check costs.
pub fn check<S: CellSet>(
    alloc: Global,
    board: &Board<S>,
    patterns: &[Pattern],
) -> Result<Accepted, CheckFault>
    ensures ok { IfOk result (λ accepted. Closed board.now (patterns_of (map said_pattern patterns.now))
        × (accepted.patterns ≡ length patterns.now)) }
    ensures only { Closed board.now (patterns_of (map said_pattern patterns.now))
        → IsOkUnless result CheckFault.Memory }
    ensures exact { IfErr result (λ fault. fault ≢ CheckFault.Memory
        → IsFirstPatternFault board.now (map said_pattern patterns.now) fault) }
    ensures first { (fault : Fault) → IsFirstPatternFault board.now (map said_pattern patterns.now) fault
        → (result ≡ Err fault) ⊎ (result ≡ Err CheckFault.Memory) }

    // What this means for the game.
    ensures unsolvable { OnOk result (Solvable board.now → ⊥) }
{
    let mut list = PatternList::new(alloc, board);
    for pattern in patterns {
        list.add(alloc, pattern)?;
    }
    list.check(alloc)
}
