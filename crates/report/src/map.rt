//! The map of a level with its dead squares.
ghost use Rattle.std.specs.Prelude.{◌≡◌, ◌≢◌, ◌≤◌, ◌+◌, ◌∷◌, ◌++◌, [], ℕ, List, Some, length, vec_capacity, IfOk, IfErr, IsErrOf};
ghost use Rattle.std.specs.Io.KnownBytes.{Appends, Keeps};
ghost use Rattle.devices.specs.Device.{AppendsBeginning};
ghost use Rattle.std.specs.Option.{option_map};
ghost use Rattle.cellset.specs.Cell.{IsOn};
ghost use Rattle.devices.specs.Reading.{most_bytes, TakesAtMost};
ghost use Rattle.report.specs.DeadMap.{IsMap, IsMapOf, IsDueMap, CountsMap, IsOfNoDevice, character_of, row_text, rows_text, level_at as level_in};

use crate::fault::{AuditError, DeadError, Which};
use crate::input::{levels_in, read_error};
use board::{Board, BoardFault, LevelText, read_board};
use cellset::{BitSet, Cell, CellSet};
use devices::{Sink, Source, read_whole, write_whole};
use maker::dead_squares;
use std::alloc::{AllocError, Global};

/// Writes the map of a level with its dead squares. Levels are numbered from 1.
///
/// Reads the source to its end. Then writes the map, without a flush. The error is the first in the order of work: the text
/// can't be read or is too long; it has too many levels; it has no level with this number; the level isn't legal; the map
/// can't be written. The call can run out of memory only before it writes.
pub fn dead_map<L: Source, W: Sink>(
    alloc: Global,
    levels: &mut L,
    n: usize,
    map: &mut W,
) -> Result<(), DeadError>
    // The whole map of the level is written, and nothing else.
    ensures ok { (lt : List ℕ) → L.left levels.old ≡ Some lt
        → IfOk result (λ _. (text : List ℕ) × IsMapOf lt n text × Appends (W.held map.old) (W.held map.new) text) }
    // An error comes at its place in the order of work.
    ensures refused { (lt : List ℕ) → L.left levels.old ≡ Some lt → IfErr result (λ error. IsDueMap lt n error) }

    // A failed write leaves a beginning of the map. After any other error nothing was written.
    ensures beginning { (lt : List ℕ) → L.left levels.old ≡ Some lt → IsErrOf result (DeadError.Audit AuditError.Write)
        → (text : List ℕ) × IsMapOf lt n text × AppendsBeginning (W.held map.old) (W.held map.new) text }
    ensures untouched { IfErr result (λ error. error ≢ DeadError.Audit AuditError.Write → Keeps (W.held map.old) (W.held map.new)) }
    // The failures of a device are counted exactly if its error is returned.
    ensures cause { CountsMap
        (record { before = L.failures levels.old; after = L.failures levels.new })
        (record { before = W.failures map.old; after = W.failures map.new }) result }
    ensures taken { TakesAtMost (most_bytes + 1) (L.left levels.old) (L.left levels.new) }
{
    let levels_text = match read_whole(alloc, levels) {
        Ok(text) => text,
        Err(fault) => return Err(DeadError::Audit(read_error(fault, Which::Levels))),
    };
    let text = map_text::<BitSet>(alloc, &levels_text, n)?;
    match write_whole(map, &text) {
        Ok(()) => Ok(()),
        Err(_) => Err(DeadError::Audit(AuditError::Write)),
    }
}

// Returns the map of the level with this number.
fn map_text<S: CellSet>(alloc: Global, levels: &[u8], n: usize) -> Result<Vec<u8>, DeadError>
    requires { length levels.now ≤ most_bytes }
    ensures ok { IfOk result (λ text. IsMapOf levels.now n text.items) }
    ensures due { IfErr result (λ error. IsDueMap levels.now n error) }
    ensures no_device { IfErr result IsOfNoDevice }
{
    let levels = match levels_in(alloc, levels) {
        Ok(levels) => levels,
        Err(error) => return Err(DeadError::Audit(error)),
    };
    let Some(level) = level_at(&levels, n) else {
        return Err(DeadError::NoLevel);
    };
    let board = read_board::<S>(alloc, level);
    drop(levels);
    let board = match board {
        Ok(board) => board,
        Err(fault) => return Err(board_error(fault)),
    };
    let text = map_of(alloc, &board);
    drop(board);
    match text {
        Ok(text) => Ok(text),
        Err(_) => Err(DeadError::Audit(AuditError::Memory)),
    }
}

// Returns the level with this number, counted from 1.
fn level_at<'l, 'a>(levels: &'l [LevelText<'a>], n: usize) -> Option<&'l LevelText<'a>>
    ensures { option_map (λ level. level.now) result ≡ level_in levels.now n }
{
    if n == 0 {
        return None;
    }
    levels.get(n - 1)
}

// Returns the error for a level that has no board.
fn board_error(fault: BoardFault) -> DeadError
    ensures memory { fault ≡ BoardFault.Memory → result ≡ DeadError.Audit AuditError.Memory }
    ensures board { fault ≢ BoardFault.Memory → result ≡ DeadError.Board fault }
{
    match fault {
        BoardFault::Memory => DeadError::Audit(AuditError::Memory),
        fault => DeadError::Board(fault),
    }
}

// Returns the map of a board: a line for each row, at full width.
fn map_of<S: CellSet>(alloc: Global, board: &Board<S>) -> Result<Vec<u8>, AllocError>
    ensures { IfOk result (λ text. IsMap board.now text.items) }
{
    let dead = dead_squares(alloc, board)?;
    rows_with(alloc, board, &dead)
}

// Returns the lines of all rows.
fn rows_with<S: CellSet>(alloc: Global, board: &Board<S>, dead: &S) -> Result<Vec<u8>, AllocError>
    requires { S.extent dead.now ≡ board.now.shape }
    ensures { IfOk result (λ text. text.items ≡ rows_text board.now (S.members dead.now) board.now.shape.height) }
{
    let shape = board.shape();
    let line = shape.width() as usize + 1;
    let mut text = Vec::with_capacity(alloc, line * shape.height() as usize)?;
    for row in 0..shape.height() as u16 {
        push_row(board, dead, row + 1, &mut text);
    }
    Ok(text)
}

// Adds the line of a row.
fn push_row<S: CellSet>(board: &Board<S>, dead: &S, row: u16, text: &mut Vec<u8>)
    requires dead { S.extent dead.now ≡ board.now.shape }
    requires row { (1 ≤ row) × (row ≤ board.now.shape.height) }
    requires room { length text.old.items + (board.now.shape.width + 1) ≤ vec_capacity text.old }
    ensures line { text.new.items ≡ text.old.items ++ (row_text board.now (S.members dead.now) row board.now.shape.width ++ 10 ∷ []) }
    ensures capacity { vec_capacity text.new ≡ vec_capacity text.old }
{
    let shape = board.shape();
    for column in 0..shape.width() as u16 {
        let Some(cell) = shape.cell(column + 1, row) else {
            unreachable!()
        };
        text.push_reserved(character(board, dead, cell));
    }
    text.push_reserved(b'\n');
}

// Returns the character of a cell.
fn character<S: CellSet>(board: &Board<S>, dead: &S, cell: Cell) -> u8
    requires dead { S.extent dead.now ≡ board.now.shape }
    requires on { IsOn board.now.shape cell }
    ensures { result ≡ character_of board.now (S.members dead.now) cell }
{
    let is_wall = board.walls().contains(cell);
    let is_player = cell == board.player();
    let is_box = board.boxes().contains(cell);
    let is_goal = board.goals().contains(cell);
    let is_room = board.room().contains(cell);
    let is_dead = dead.contains(cell);
    if is_wall {
        b'#'
    } else if is_player {
        if is_goal { b'+' } else { b'@' }
    } else if is_box {
        if is_goal { b'*' } else { b'$' }
    } else if is_goal {
        b'.'
    } else if is_room && is_dead {
        b'x'
    } else {
        b' '
    }
}
