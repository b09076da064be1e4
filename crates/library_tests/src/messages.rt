//! Tests of what errors and faults print: each variant of each type.

use crate::same::{same, same_bytes};
use answers::{AnswersFault, BadLineWhy, WriteFault};
use board::{BoardFault, LevelsFault};
use cellset::{Cell, Dir, Shape};
use closure::{CheckFault, LineWhy, ZoneFault, ZoneLineWhy};
use devices::{DeviceFault, ReadFault};
use play::{MoveWhy, ReplayFault, StepFault};
use report::{AuditError, DeadError, Which, Why};
use std::fmt::{Display, InlineText};
use std::process::Abort;

const TEXTS: [(Which, &str); 2] = [(Which::Levels, "levels"), (Which::Answers, "answers")];

const LINES: [(Why, &str); 6] = [
    (Why::Header, "header"),
    (Why::Level, "level"),
    (Why::Order, "order"),
    (Why::Unknown, "unknown"),
    (Why::Kind, "kind"),
    (Why::Unclosed, "unclosed"),
];

const ANSWERS: [(AnswersFault, &str); 7] = [
    (AnswersFault::Header { line: 1 }, "line 1 header"),
    (AnswersFault::Level { line: 2 }, "line 2 level"),
    (AnswersFault::Order { line: 3 }, "line 3 order"),
    (AnswersFault::Unknown { line: 4 }, "line 4 unknown"),
    (AnswersFault::Kind { line: 5 }, "line 5 kind"),
    (AnswersFault::Unclosed { line: 6 }, "line 6 unclosed"),
    (AnswersFault::Memory, "out of memory"),
];

const AUDITS: [(AuditError, &str); 8] = [
    (
        AuditError::Read {
            which: Which::Levels,
        },
        "cannot read levels",
    ),
    (
        AuditError::Read {
            which: Which::Answers,
        },
        "cannot read answers",
    ),
    (AuditError::Write, "cannot write"),
    (
        AuditError::TooLong {
            which: Which::Levels,
        },
        "levels too long",
    ),
    (
        AuditError::TooLong {
            which: Which::Answers,
        },
        "answers too long",
    ),
    (AuditError::TooManyLevels, "too many levels"),
    (
        AuditError::Answers {
            line: usize::MAX,
            why: Why::Unclosed,
        },
        "answers line 18446744073709551615 unclosed",
    ),
    (AuditError::Memory, "out of memory"),
];

const MAPS: [(DeadError, &str); 7] = [
    (
        DeadError::Audit(AuditError::TooManyLevels),
        "too many levels",
    ),
    (DeadError::NoLevel, "no such level"),
    (DeadError::Board(BoardFault::Size), "board size"),
    (DeadError::Board(BoardFault::Player), "board player"),
    (DeadError::Board(BoardFault::Box), "board box"),
    (DeadError::Board(BoardFault::Goals), "board goals"),
    (DeadError::Board(BoardFault::Open), "board open"),
];

const BOARDS: [(BoardFault, &str); 6] = [
    (BoardFault::Size, "size"),
    (BoardFault::Player, "player"),
    (BoardFault::Box, "box"),
    (BoardFault::Goals, "goals"),
    (BoardFault::Open, "open"),
    (BoardFault::Memory, "out of memory"),
];

const LEVELS: [(LevelsFault, &str); 2] = [
    (LevelsFault::TooMany, "too many levels"),
    (LevelsFault::Memory, "out of memory"),
];

const MOVES: [(MoveWhy, &str); 4] = [
    (MoveWhy::Letter, "letter"),
    (MoveWhy::Wall, "wall"),
    (MoveWhy::Blocked, "blocked"),
    (MoveWhy::Case, "case"),
];

const STEPS: [(StepFault, &str); 2] = [(StepFault::Wall, "wall"), (StepFault::Blocked, "blocked")];

const SOLUTIONS: [(ReplayFault, &str); 3] = [
    (
        ReplayFault::Move {
            number: 70,
            why: MoveWhy::Case,
        },
        "move 70 case",
    ),
    (ReplayFault::Unsolved { boxes: 2 }, "unsolved 2"),
    (ReplayFault::Memory, "out of memory"),
];

const BAD_LINES: [(BadLineWhy, &str); 2] = [
    (BadLineWhy::Syntax, "syntax"),
    (BadLineWhy::Count, "count"),
];

const PATTERNS: [(LineWhy, &str); 4] = [
    (LineWhy::Board, "board"),
    (LineWhy::Wall, "wall"),
    (LineWhy::Seed, "seed"),
    (LineWhy::Goals, "goals"),
];

const ZONES: [(ZoneLineWhy, &str); 2] = [
    (ZoneLineWhy::Board, "board"),
    (ZoneLineWhy::Wall, "wall"),
];

const READS: [(ReadFault, &str); 3] = [
    (ReadFault::Device, "cannot read"),
    (ReadFault::TooLong, "too long"),
    (ReadFault::Memory, "out of memory"),
];

// Checks what each of some values prints.
fn print_as<T: Display + Copy + Drop>(rt: &impl Abort, rows: &[(T, &str)]) {
    for (value, text) in rows {
        let shown: InlineText<64> = InlineText::of(*value);
        same_bytes(rt, shown.as_str().as_bytes(), text.as_bytes());
    }
}

// Checks what the faults of certificates print. Two of them name a cell and a direction.
fn certificates_print(rt: &impl Abort, cell: Cell) {
    let line = 4;
    let why = LineWhy::Goals;
    let push = CheckFault::Push {
        line,
        player: cell,
        dir: Dir::R,
    };
    let leak = ZoneFault::Leak {
        line,
        cell,
        dir: Dir::U,
    };
    print_as(
        rt,
        &[
            (CheckFault::Line { line, why }, "line 4 goals"),
            (CheckFault::Start, "start"),
            (push, "line 4 push 2,3 r"),
            (CheckFault::Memory, "out of memory"),
        ],
    );
    let why = ZoneLineWhy::Wall;
    print_as(
        rt,
        &[
            (ZoneFault::Line { line, why }, "line 4 wall"),
            (leak, "line 4 leak 2,3 u"),
            (ZoneFault::Fits { line }, "line 4 fits"),
            (ZoneFault::Memory, "out of memory"),
        ],
    );
}

#[test]
fn errors_print_the_words_of_the_program(rt: HostRuntime) {
    print_as(&rt, &TEXTS);
    print_as(&rt, &LINES);
    print_as(&rt, &AUDITS);
    print_as(&rt, &MAPS);
}

#[test]
fn faults_print_their_words(rt: HostRuntime) {
    print_as(&rt, &ANSWERS);
    print_as(&rt, &BOARDS);
    print_as(&rt, &LEVELS);
    print_as(&rt, &MOVES);
    print_as(&rt, &STEPS);
    print_as(&rt, &SOLUTIONS);
    print_as(&rt, &BAD_LINES);
    print_as(&rt, &PATTERNS);
    print_as(&rt, &ZONES);
    print_as(&rt, &READS);
    print_as(&rt, &[(DeviceFault, "the device failed")]);
    print_as(&rt, &[(WriteFault, "cannot write")]);
}

#[test]
fn faults_of_certificates_print_their_words(rt: HostRuntime) {
    let cell = Shape::new(5, 5).and_then(|shape| shape.cell(2, 3));
    if let Some(cell) = cell {
        certificates_print(&rt, cell);
    }
    same(&rt, &"made", &cell.is_some(), &true);
}
