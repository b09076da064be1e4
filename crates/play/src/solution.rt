//! Plays whole solutions.
//!
//! `replay` and `replay_lines` are for callers. The program uses `Replayer`, with the same contract, and so plays all solutions in one memory.
ghost use Rattle.std.specs.Prelude.{◌≡◌, ◌≢◌, ◌⊎◌, ◌+◌, ◌≤◌, ◌<◌, ◌^◌, true, false, length, slice_index, sum_by, IfOk, IfErr, OnOk};
ghost use Rattle.play.specs.Mailbox.{HasMask};
ghost use Rattle.play.specs.Spelling.{letters, joined};
ghost use Rattle.play.specs.Solution.{Solves};
ghost use Rattle.play.specs.FirstFault.{IsFirstSolutionFault};
ghost use Rattle.play.specs.Progress.{IsUnderWay, IsPlayed, Continues, FailsOn};
ghost use Rattle.play.specs.declared.tally.Tally.{Tally as Counted};
ghost use Rattle.play.specs.declared.fault.ReplayFault.{ReplayFault as Fault};

use crate::fault::ReplayFault;
use crate::mailbox::{boxes_off_goals, draw_mailbox};
use crate::run::{Run, begin, play_letter};
use crate::tally::Tally;
use crate::walks::{CHUNK, walk_chunks};
use board::Board;
use cellset::CellSet;
use std::alloc::Global;

// Plays the letters of one line: walks in chunks, and from a chunk that has anything else its walks and then its pushes one by one.
fn play_line(mailbox: &mut [u8], run: &mut Run, line: &[u8]) -> Result<(), ReplayFault>
    requires under_way { IsUnderWay mailbox.old run.old }
    requires masked { HasMask mailbox.old }
    requires room { run.old.tally.moves + length line.now < 2 ^ 64 }
    ensures moves { OnOk result (run.new.tally.moves ≤ run.old.tally.moves + length line.now) }
    ensures ok { OnOk result (Continues mailbox.old run.old (letters line.now) mailbox.new run.new) }
    ensures err { IfErr result (FailsOn mailbox.old run.old (letters line.now)) }
{
    let mut at = 0;
    'chunks: while at < line.len() {
        at += walk_chunks(mailbox, run, &line[at..]);
        let end = (at + CHUNK).min(line.len());
        'small: while at < end && line[at] >= b'a' {
            play_letter(mailbox, run, line[at])?;
            at += 1;
        }
        'others: while at < line.len() && line[at] < b'a' {
            play_letter(mailbox, run, line[at])?;
            at += 1;
        }
    }
    Ok(())
}

// Plays the letters of all lines.
fn play_lines(mailbox: &mut [u8], run: &mut Run, lines: &[&[u8]]) -> Result<(), ReplayFault>
    requires under_way { IsUnderWay mailbox.old run.old }
    requires masked { HasMask mailbox.old }
    requires room { run.old.tally.moves + length (joined lines.now) < 2 ^ 64 }
    ensures ok { OnOk result (Continues mailbox.old run.old (letters (joined lines.now)) mailbox.new run.new) }
    ensures err { IfErr result (FailsOn mailbox.old run.old (letters (joined lines.now))) }
{
    for line in lines {
        play_line(mailbox, run, line)?;
    }
    Ok(())
}

// The outcome of the whole text, which is played in the memory of `mailbox`.
fn play_all<S: CellSet>(
    mailbox: &mut Vec<u8>,
    board: &Board<S>,
    lines: &[&[u8]],
) -> Result<Tally, ReplayFault>
    requires { length (joined lines.now) < 2 ^ 64 }
    ensures found { IfOk result (Solves board.now (joined lines.now)) }
    ensures exact { IfErr result (λ fault.
        fault ≢ ReplayFault.Memory → IsFirstSolutionFault board.now (joined lines.now) fault) }
{
    let Ok(()) = draw_mailbox(mailbox, board) else {
        return Err(ReplayFault::Memory);
    };
    let mailbox = mailbox.as_mut_slice();
    let mut run = begin(board.player());
    play_lines(mailbox, &mut run, lines)?;
    let boxes = boxes_off_goals(board, mailbox);
    if boxes > 0 {
        return Err(ReplayFault::Unsolved { boxes });
    }
    Ok(run.tally)
}

/// Plays one solution after another, in memory that is kept.
#[derive(Debug, Drop)]
pub struct Replayer {
    mailbox: Vec<u8>,
}

impl Replayer {
    /// Makes a replayer, and allocates nothing.
    pub fn new(alloc: Global) -> Replayer {
        Replayer {
            mailbox: Vec::new(alloc),
        }
    }

    /// Plays a solution that is cut into lines, and counts it. The lines are one text and are not copied.
    pub fn replay_lines<S: CellSet>(
        &mut self,
        board: &Board<S>,
        lines: &[&[u8]],
    ) -> Result<Tally, ReplayFault>
        requires { sum_by (λ line. length line.now) lines.now < 2 ^ 64 }
        // A tally means that the text solves the level.
        ensures found { IfOk result (Solves board.now (joined lines.now)) }
        // A text that solves the level gets its tally, unless memory runs out.
        ensures only { (tally : Counted) → Solves board.now (joined lines.now) tally →
            (result ≡ Ok tally) ⊎ (result ≡ Err ReplayFault.Memory) }
        // A fault is the first one.
        ensures exact { IfErr result (λ fault.
            fault ≢ ReplayFault.Memory → IsFirstSolutionFault board.now (joined lines.now) fault) }
        // A text with a fault gets its first one, unless memory runs out.
        ensures first { (fault : Fault) → IsFirstSolutionFault board.now (joined lines.now) fault →
            (result ≡ Err fault) ⊎ (result ≡ Err ReplayFault.Memory) }
    {
        play_all(&mut self.mailbox, board, lines)
    }
}

/// Plays a solution that is cut into lines, and counts it. The lines are one text and are not copied.
pub fn replay_lines<S: CellSet>(
    alloc: Global,
    board: &Board<S>,
    lines: &[&[u8]],
) -> Result<Tally, ReplayFault>
    requires { sum_by (λ line. length line.now) lines.now < 2 ^ 64 }
    // A tally means that the text solves the level.
    ensures found { IfOk result (Solves board.now (joined lines.now)) }
    // A text that solves the level gets its tally, unless memory runs out.
    ensures only { (tally : Counted) → Solves board.now (joined lines.now) tally →
        (result ≡ Ok tally) ⊎ (result ≡ Err ReplayFault.Memory) }
    // A fault is the first one.
    ensures exact { IfErr result (λ fault.
        fault ≢ ReplayFault.Memory → IsFirstSolutionFault board.now (joined lines.now) fault) }
    // A text with a fault gets its first one, unless memory runs out.
    ensures first { (fault : Fault) → IsFirstSolutionFault board.now (joined lines.now) fault →
        (result ≡ Err fault) ⊎ (result ≡ Err ReplayFault.Memory) }
{
    Replayer::new(alloc).replay_lines(board, lines)
}

/// Plays a solution in one piece, and counts it.
pub fn replay<S: CellSet>(
    alloc: Global,
    board: &Board<S>,
    text: &[u8],
) -> Result<Tally, ReplayFault>
    ensures found { IfOk result (Solves board.now text.now) }
    ensures only { (tally : Counted) → Solves board.now text.now tally →
        (result ≡ Ok tally) ⊎ (result ≡ Err ReplayFault.Memory) }
    ensures exact { IfErr result (λ fault.
        fault ≢ ReplayFault.Memory → IsFirstSolutionFault board.now text.now fault) }
    ensures first { (fault : Fault) → IsFirstSolutionFault board.now text.now fault →
        (result ≡ Err fault) ⊎ (result ≡ Err ReplayFault.Memory) }
{
    Replayer::new(alloc).replay_lines(board, &[text])
}
