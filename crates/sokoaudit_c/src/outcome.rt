//! What a call reports to C besides its status.
ghost use Rattle.std.specs.Prelude.{◌≡◌, ◌<◌, ◌≤◌, ◌⊎◌, ℕ, IfSome, IsSome};
ghost use Rattle.answers.specs.declared.fault.Why.{Why as Reason};
ghost use Rattle.sokoaudit_c.specs.Outcome.{number_of_board, number_of_error, number_of_line, outcome_of_answers, outcome_of_error, outcome_of_map, outcome_of_report};

use board::BoardFault;
use report::{AuditError, DeadError, Summary, Which, Why};

/// The numbers of a call. A number that means nothing is 0. `include/sokoaudit.h` explains each of them, and numbers the faults.
#[derive(Clone, Copy, Debug, PartialEq, Eq)]
#[repr(C)]
pub struct Outcome {
    pub bytes: usize,
    pub levels: usize,
    pub solved: usize,
    pub unsolvable: usize,
    pub refused: usize,
    pub missing: usize,
    pub records: usize,
    pub fault: usize,
    pub line: usize,
}

/// An outcome in which no number means anything.
const NONE: Outcome = Outcome {
    bytes: 0,
    levels: 0,
    solved: 0,
    unsolvable: 0,
    refused: 0,
    missing: 0,
    records: 0,
    fault: 0,
    line: 0,
};

/// Returns the outcome of a report of this many bytes.
pub fn of_report(bytes: usize, summary: Summary) -> Outcome
    ensures { result ≡ outcome_of_report bytes summary }
{
    Outcome {
        bytes,
        levels: summary.levels,
        solved: summary.solved,
        unsolvable: summary.unsolvable,
        refused: summary.refused,
        missing: summary.missing,
        ..NONE
    }
}

/// Returns the outcome of made answers, with this many bytes and records.
pub fn of_answers(bytes: usize, records: usize) -> Outcome
    ensures { result ≡ outcome_of_answers bytes records }
{
    Outcome {
        bytes,
        records,
        ..NONE
    }
}

/// Returns the outcome of a map of this many bytes.
pub fn of_map(bytes: usize) -> Outcome
    ensures { result ≡ outcome_of_map bytes }
{
    Outcome { bytes, ..NONE }
}

/// Returns the outcome of an error. A text is made in memory before it is copied, so a failed write means out of memory.
pub fn of_error(error: DeadError) -> Outcome
    ensures { result ≡ outcome_of_error error }
{
    let (fault, line) = match error {
        DeadError::Audit(
            AuditError::TooLong {
                which: Which::Levels,
            },
        ) => (2, 0),
        DeadError::Audit(
            AuditError::TooLong {
                which: Which::Answers,
            },
        ) => (3, 0),
        DeadError::Audit(AuditError::TooManyLevels) => (4, 0),
        DeadError::Audit(AuditError::Answers { line, why }) => (number_of(why), line),
        DeadError::NoLevel => (11, 0),
        DeadError::Board(why) => (board_number_of(why), 0),
        DeadError::Audit(AuditError::Read { .. } | AuditError::Write | AuditError::Memory) => (
            1, 0,
        ),
    };
    Outcome {
        fault,
        line,
        ..NONE
    }
}

fn number_of(why: Why) -> usize
    ensures { result ≡ number_of_line why }
{
    match why {
        Why::Header => 5,
        Why::Level => 6,
        Why::Order => 7,
        Why::Unknown => 8,
        Why::Kind => 9,
        Why::Unclosed => 10,
    }
}

fn board_number_of(why: BoardFault) -> usize
    ensures { result ≡ number_of_board why }
{
    match why {
        BoardFault::Size => 12,
        BoardFault::Player => 13,
        BoardFault::Box => 14,
        BoardFault::Goals => 15,
        BoardFault::Open => 16,
        BoardFault::Memory => 1,
    }
}

/// Returns the error whose outcome has these numbers.
pub fn error_of(outcome: &Outcome) -> Option<DeadError>
    ensures number { IfSome result (λ error. number_of_error error ≡ outcome.now.fault) }
    ensures line { (line : ℕ) (why : Reason) → result ≡ Some (DeadError.Audit (AuditError.Answers line why)) → line ≡ outcome.now.line }
    ensures memory { outcome.now.fault ≡ 1 → result ≡ Some (DeadError.Audit AuditError.Memory) }
    ensures some { 0 < outcome.now.fault → outcome.now.fault ≤ 16 → IsSome result }
    ensures none { (outcome.now.fault ≡ 0) ⊎ (16 < outcome.now.fault) → result ≡ None }
{
    let line = outcome.line;
    let why = match outcome.fault {
        1 => return Some(DeadError::Audit(AuditError::Memory)),
        2 => return Some(DeadError::Audit(AuditError::TooLong {
            which: Which::Levels,
        })),
        3 => return Some(DeadError::Audit(AuditError::TooLong {
            which: Which::Answers,
        })),
        4 => return Some(DeadError::Audit(AuditError::TooManyLevels)),
        5 => Why::Header,
        6 => Why::Level,
        7 => Why::Order,
        8 => Why::Unknown,
        9 => Why::Kind,
        10 => Why::Unclosed,
        11 => return Some(DeadError::NoLevel),
        12 => return Some(DeadError::Board(BoardFault::Size)),
        13 => return Some(DeadError::Board(BoardFault::Player)),
        14 => return Some(DeadError::Board(BoardFault::Box)),
        15 => return Some(DeadError::Board(BoardFault::Goals)),
        16 => return Some(DeadError::Board(BoardFault::Open)),
        _ => return None,
    };
    Some(DeadError::Audit(AuditError::Answers { line, why }))
}
