//! Solutions, played in one piece and in the pieces in which they stand in a text.
ghost use Rattle.std.specs.Prelude.{◌<◌, ◌^◌, IfSome, length, sum_by};

use crate::layers::{WIDE, board_of, first_record};
use crate::shown;
use board::Board;
use cellset::CellSet;
use play::Replayer;
use std::alloc::Global;

// Returns the letters of the first record in their pieces.
fn pieces_of(alloc: Global, answers: &[u8]) -> Option<Vec<&[u8]>>
    ensures { IfSome result (λ pieces. sum_by (λ piece. length piece.now) pieces.items < 2 ^ 64) }
{
    let Ok(Some(record)) = first_record(alloc, answers) else {
        return None;
    };
    match record.letters(alloc) {
        Ok(pieces) => Some(pieces),
        Err(_) => None,
    }
}

// Returns the letters of the first record as one text.
fn letters_of(alloc: Global, answers: &[u8]) -> Option<Vec<u8>> {
    let pieces = pieces_of(alloc, answers)?;
    let mut letters = Vec::new(alloc);
    for piece in pieces.iter() {
        if letters.extend_from_slice(piece).is_err() {
            drop(letters);
            drop(pieces);
            return None;
        }
    }
    Some(letters)
}

/// Plays the letters of the first record as one text.
pub fn replay<S: CellSet>(
    rt: &impl Print,
    alloc: Global,
    board: &Board<S>,
    answers: &[u8],
) -> Option<()> {
    let letters = letters_of(alloc, answers)?;
    shown::value(rt, &play::replay(alloc, board, &letters));
    shown::text(rt, &letters);
    Some(())
}

/// Plays the letters of the first record in their pieces.
pub fn replay_lines<S: CellSet>(
    rt: &impl Print,
    alloc: Global,
    board: &Board<S>,
    answers: &[u8],
) -> Option<()> {
    let pieces = pieces_of(alloc, answers)?;
    shown::value(rt, &play::replay_lines(alloc, board, &pieces));
    shown::text(rt, answers);
    Some(())
}

// Plays a wide level, and returns the memory in which it was played.
fn wide_replayer<S: CellSet>(alloc: Global) -> Option<Replayer> {
    let mut replayer = Replayer::new(alloc);
    let wide = board_of::<S>(alloc, WIDE)?;
    let outcome = replayer.replay_lines(&wide, &[b"R"]);
    drop(wide);
    match outcome {
        Ok(_) => Some(replayer),
        Err(_) => None,
    }
}

/// Plays the letters of the first record in their pieces, in the memory in which a wide level was played.
pub fn replayer<S: CellSet>(
    rt: &impl Print,
    alloc: Global,
    board: &Board<S>,
    answers: &[u8],
) -> Option<()> {
    let mut replayer = wide_replayer::<S>(alloc)?;
    let pieces = pieces_of(alloc, answers)?;
    shown::value(rt, &replayer.replay_lines(board, &pieces));
    shown::text(rt, answers);
    Some(())
}
