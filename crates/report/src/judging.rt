//! The status of one level.
ghost use Rattle.std.specs.Prelude.{◌≡◌, ◌<◌, ◌^◌, ℕ, List, [], Some, true, length, sum_by, IfOk};
ghost use Rattle.board.specs.Game.{Level, Solvable};
ghost use Rattle.board.specs.Legal.{IsBoardOf};
ghost use Rattle.answers.specs.Grammar.{said_zone};
ghost use Rattle.answers.specs.Body.{LetterLines, PatternLine, PatternLines, OneZone};
ghost use Rattle.answers.specs.Certificates.{certificate_body};
ghost use Rattle.answers.specs.Pieces.{ArePiecesOf};
ghost use Rattle.closure.specs.PatternList.{IsListOf};
ghost use Rattle.report.specs.Judging.{SaysBy, said_answer};
ghost use Rattle.report.specs.Status.{Says};
ghost use Rattle.report.specs.Summary.{is_unsolvable};

use crate::status::{Refusal, Status};
use answers::{CertificateLine, CertificateLines, RecordText, Zone};
use board::{Board, BoardFault, LevelText, read_next_board};
use cellset::CellSet;
use closure::{CheckFault, PatternList, ZoneFault, check_zone};
use play::{ReplayFault, Replayer};
use std::alloc::{AllocError, Global};

/// Memory in which one level after another is judged.
#[derive(Debug, Drop)]
pub struct Scratch<S: CellSet> {
    board: Option<Board<S>>,
    replayer: Replayer,
}

impl<S: CellSet> Scratch<S> {
    /// Returns scratch memory, and allocates nothing.
    pub fn new(alloc: Global) -> Scratch<S> {
        Scratch {
            board: None,
            replayer: Replayer::new(alloc),
        }
    }
}

/// Returns the status of a level, by its rows and its answer alone, over sets of cells of any type. The error means out
/// of memory.
pub fn judge<S: CellSet>(
    alloc: Global,
    level: &LevelText<'_>,
    answer: Option<&RecordText<'_>>,
    scratch: &mut Scratch<S>,
) -> Result<Status, AllocError>
    // If there is a record, the status follows from what the grammar reads in it.
    ensures says { IfOk result (SaysBy level.now answer.entry) }
    ensures unsolvable { IfOk result (λ status. is_unsolvable status ≡ true → (board : Level) × IsBoardOf level.now board × (Solvable board → ⊥)) }
{
    let board = match read_next_board(alloc, level, scratch.board.take()) {
        Ok(board) => board,
        Err(fault) => {
            return match fault {
                BoardFault::Memory => Err(AllocError),
                fault => Ok(Status::Refused(Refusal::Board(fault))),
            };
        }
    };
    let status = judge_board(alloc, &board, answer, &mut scratch.replayer);
    scratch.board = Some(board);
    status
}

// Returns the status of a legal level by its answer: by the letters of a solution, or by the lines of a certificate, which are read here.
fn judge_board<S: CellSet>(
    alloc: Global,
    board: &Board<S>,
    answer: Option<&RecordText<'_>>,
    replayer: &mut Replayer,
) -> Result<Status, AllocError>
    ensures says { IfOk result (λ status. (rows : List (List ℕ)) → IsBoardOf rows board.now → Says rows (said_answer answer.entry) status) }
    ensures unsolvable { IfOk result (λ status. is_unsolvable status ≡ true → Solvable board.now → ⊥) }
{
    let Some(record) = answer else {
        return Ok(Status::Missing);
    };
    match record.certificate() {
        Some(lines) => judge_certificate(alloc, board, lines),
        None => judge_solution(replayer, board, &record.letters(alloc)?),
    }
}

// Returns the status by the lines of a certificate. A list of patterns is checked after its last line was read.
fn judge_certificate<S: CellSet>(
    alloc: Global,
    board: &Board<S>,
    lines: CertificateLines<'_>,
) -> Result<Status, AllocError>
    requires { lines.patterns ≡ 0 }
    ensures says { IfOk result (λ status. (rows : List (List ℕ)) → IsBoardOf rows board.now → Says rows (Some (certificate_body [] lines.entry)) status) }
    ensures unsolvable { IfOk result (λ status. is_unsolvable status ≡ true → Solvable board.now → ⊥) }
{
    let mut left = lines;
    let mut list = PatternList::new(alloc, board);
    loop {
        let Ok(next) = left.next(alloc) else {
            drop(list);
            return Err(AllocError);
        };
        match next {
            CertificateLine::Pattern(pattern) => {
                let added = list.add(alloc, &pattern);
                drop(pattern);
                let Ok(()) = added else {
                    drop(list);
                    return Err(AllocError);
                };
            }
            CertificateLine::End => return judge_patterns(alloc, list),
            CertificateLine::Zone(zone) => {
                drop(list);
                let status = judge_zone(alloc, board, &zone);
                drop(zone);
                return status;
            }
            CertificateLine::BadLine { line, why } => {
                drop(list);
                return Ok(Status::Refused(Refusal::BadLine { line, why }));
            }
        }
    }
}

// Returns the status by a solution, whose letters come in pieces of the text.
fn judge_solution<S: CellSet>(
    replayer: &mut Replayer,
    board: &Board<S>,
    pieces: &[&[u8]],
) -> Result<Status, AllocError>
    requires { sum_by (λ piece. length piece.now) pieces.now < 2 ^ 64 }
    ensures says { IfOk result (λ status. (rows lines : List (List ℕ)) → IsBoardOf rows board.now → ArePiecesOf lines pieces.now → Says rows (Some (LetterLines lines)) status) }
    ensures unsolvable { IfOk result (λ status. is_unsolvable status ≡ true → Solvable board.now → ⊥) }
{
    match replayer.replay_lines(board, pieces) {
        Ok(tally) => Ok(Status::Solved(tally)),
        Err(fault) => match fault {
            ReplayFault::Memory => Err(AllocError),
            fault => Ok(Status::Refused(Refusal::Solution(fault))),
        },
    }
}

// Returns the status by a list of patterns.
fn judge_patterns<S: CellSet>(alloc: Global, list: PatternList<'_, S>) -> Result<Status, AllocError>
    requires { (lines : List PatternLine) × IsListOf lines list }
    ensures says { (lines : List PatternLine) → IsListOf lines list.entry
        → IfOk result (λ status. (rows : List (List ℕ)) → IsBoardOf rows list.entry.board.now → Says rows (Some (PatternLines lines)) status) }
    ensures unsolvable { IfOk result (λ status. is_unsolvable status ≡ true → Solvable list.entry.board.now → ⊥) }
{
    match list.check(alloc) {
        Ok(accepted) => Ok(Status::Unsolvable {
            patterns: accepted.patterns,
        }),
        Err(fault) => match fault {
            CheckFault::Memory => Err(AllocError),
            fault => Ok(Status::Refused(Refusal::Patterns(fault))),
        },
    }
}

// Returns the status by a zone.
fn judge_zone<S: CellSet>(
    alloc: Global,
    board: &Board<S>,
    zone: &Zone,
) -> Result<Status, AllocError>
    ensures says { IfOk result (λ status. (rows : List (List ℕ)) → IsBoardOf rows board.now → Says rows (Some (OneZone (said_zone zone.now))) status) }
    ensures unsolvable { IfOk result (λ status. is_unsolvable status ≡ true → Solvable board.now → ⊥) }
{
    match check_zone(alloc, board, zone) {
        Ok(accepted) => Ok(Status::UnsolvableZone {
            cells: accepted.cells,
        }),
        Err(fault) => match fault {
            ZoneFault::Memory => Err(AllocError),
            fault => Ok(Status::Refused(Refusal::Zone(fault))),
        },
    }
}
