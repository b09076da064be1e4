//! What an audit says of a level, as numbers.
ghost use Rattle.std.specs.Prelude.{◌≡◌};
ghost use Rattle.sokoaudit_c.specs.Numbers.{code_of, number_of_bad_line, number_of_board_fault, number_of_line_why, number_of_move_why, number_of_zone_why, numbers_of as numbers, numbers_of_list, numbers_of_refusal, numbers_of_solution, numbers_of_zone};

use answers::BadLineWhy;
use board::BoardFault;
use cellset::Dir;
use closure::{CheckFault, LineWhy, ZoneFault, ZoneLineWhy};
use play::{MoveWhy, ReplayFault};
use report::{Refusal, Status};

/// What an audit says of a level: its status, and the numbers that the level's line of the report prints. A number that the
/// line doesn't print is 0. `include/sokoaudit.h` explains each of them, and numbers statuses and reasons.
#[derive(Clone, Copy, Debug, PartialEq, Eq)]
#[repr(C)]
pub struct Line {
    pub status: u64,
    pub why: u64,
    pub moves: u64,
    pub pushes: u64,
    pub changes: u64,
    pub patterns: u64,
    pub cells: u64,
    pub boxes: u64,
    pub number: u64,
    pub line: u64,
    pub column: u64,
    pub row: u64,
    pub direction: u64,
}

/// An entry in which no number means anything.
pub const NONE: Line = Line {
    status: 0,
    why: 0,
    moves: 0,
    pushes: 0,
    changes: 0,
    patterns: 0,
    cells: 0,
    boxes: 0,
    number: 0,
    line: 0,
    column: 0,
    row: 0,
    direction: 0,
};

/// Returns the numbers of a status.
pub fn numbers_of(status: Status) -> Line
    ensures { result ≡ numbers status }
{
    match status {
        Status::Solved(tally) => Line {
            status: 1,
            moves: tally.moves,
            pushes: tally.pushes,
            changes: tally.changes,
            ..NONE
        },
        Status::Unsolvable { patterns } => Line {
            status: 2,
            patterns: patterns as u64,
            ..NONE
        },
        Status::UnsolvableZone { cells } => Line {
            status: 3,
            cells: cells as u64,
            ..NONE
        },
        Status::Refused(refusal) => refusal_numbers(refusal),
        Status::Missing => Line { status: 12, ..NONE },
    }
}

fn refusal_numbers(refusal: Refusal) -> Line
    ensures { result ≡ numbers_of_refusal refusal }
{
    match refusal {
        Refusal::Board(fault) => Line {
            status: 4,
            why: board_number(fault),
            ..NONE
        },
        Refusal::BadLine { line, why } => line_numbers(line, bad_line_number(why)),
        Refusal::Solution(fault) => solution_numbers(fault),
        Refusal::Patterns(fault) => list_numbers(fault),
        Refusal::Zone(fault) => zone_numbers(fault),
    }
}

fn solution_numbers(fault: ReplayFault) -> Line
    ensures { result ≡ numbers_of_solution fault }
{
    match fault {
        ReplayFault::Move { number, why } => Line {
            status: 5,
            number,
            why: move_number(why),
            ..NONE
        },
        ReplayFault::Unsolved { boxes } => Line {
            status: 6,
            boxes,
            ..NONE
        },
        ReplayFault::Memory => NONE,
    }
}

fn list_numbers(fault: CheckFault) -> Line
    ensures { result ≡ numbers_of_list fault }
{
    match fault {
        CheckFault::Line { line, why } => line_numbers(line, line_number(why)),
        CheckFault::Start => Line { status: 8, ..NONE },
        CheckFault::Push { line, player, dir } => Line {
            status: 9,
            line: line as u64,
            column: player.column().into(),
            row: player.row().into(),
            direction: letter_of(dir),
            ..NONE
        },
        CheckFault::Memory => NONE,
    }
}

fn zone_numbers(fault: ZoneFault) -> Line
    ensures { result ≡ numbers_of_zone fault }
{
    match fault {
        ZoneFault::Line { line, why } => line_numbers(line, zone_number(why)),
        ZoneFault::Leak { line, cell, dir } => Line {
            status: 10,
            line: line as u64,
            column: cell.column().into(),
            row: cell.row().into(),
            direction: letter_of(dir),
            ..NONE
        },
        ZoneFault::Fits { line } => Line {
            status: 11,
            line: line as u64,
            ..NONE
        },
        ZoneFault::Memory => NONE,
    }
}

fn line_numbers(line: usize, why: u64) -> Line
    ensures { result ≡ record { status = 7; why = why; moves = 0; pushes = 0; changes = 0; patterns = 0; cells = 0; boxes = 0; number = 0; line = line; column = 0; row = 0; direction = 0 } }
{
    Line {
        status: 7,
        line: line as u64,
        why,
        ..NONE
    }
}

fn board_number(fault: BoardFault) -> u64
    ensures { result ≡ number_of_board_fault fault }
{
    match fault {
        BoardFault::Size => 1,
        BoardFault::Player => 2,
        BoardFault::Box => 3,
        BoardFault::Goals => 4,
        BoardFault::Open => 5,
        BoardFault::Memory => 0,
    }
}

fn move_number(why: MoveWhy) -> u64
    ensures { result ≡ number_of_move_why why }
{
    match why {
        MoveWhy::Letter => 6,
        MoveWhy::Wall => 7,
        MoveWhy::Blocked => 8,
        MoveWhy::Case => 9,
    }
}

fn bad_line_number(why: BadLineWhy) -> u64
    ensures { result ≡ number_of_bad_line why }
{
    match why {
        BadLineWhy::Syntax => 10,
        BadLineWhy::Count => 11,
    }
}

fn line_number(why: LineWhy) -> u64
    ensures { result ≡ number_of_line_why why }
{
    match why {
        LineWhy::Board => 12,
        LineWhy::Wall => 7,
        LineWhy::Seed => 13,
        LineWhy::Goals => 4,
    }
}

fn zone_number(why: ZoneLineWhy) -> u64
    ensures { result ≡ number_of_zone_why why }
{
    match why {
        ZoneLineWhy::Board => 12,
        ZoneLineWhy::Wall => 7,
    }
}

// Returns the letter of a direction, as in the report.
fn letter_of(dir: Dir) -> u64
    ensures { result ≡ code_of dir }
{
    match dir {
        Dir::L => 108,
        Dir::U => 117,
        Dir::R => 114,
        Dir::D => 100,
    }
}
