//! Tests of runs of the program over files in memory.

use crate::same::{same, same_bytes};
use devices::Device;
use program::{Shelf, audit_in_memory, run};
use std::alloc::Global;
use std::process::Abort;

const LEVELS: &[u8] = b"#####\n#@$.#\n#####\n\n#####\n#@ .#\n# $ #\n#####\n";

// An answers file: what an audit prints to the output and to standard error, and its status.
const AUDITS: [(&[u8], &[u8], &[u8], u8); 3] = [
    (
        b"sokoban-answers 1\nlevel 1\nsolution\nR\nend\nlevel 2\nunsolvable\npattern 2,3 @ *\npattern 3,3 @ *\npattern 4,3 @ *\nend\n",
        b"level 1 solved moves 1 pushes 1 changes 1\nlevel 2 unsolvable patterns 3\ntotal 2 solved 1 unsolvable 1 refused 0 missing 0\n",
        b"",
        0,
    ),
    (
        b"sokoban-answers 1\nlevel 1\nsolution\nRR\nend\n",
        b"level 1 refused move 2 blocked\nlevel 2 missing\ntotal 2 solved 0 unsolvable 0 refused 1 missing 1\n",
        b"",
        1,
    ),
    (
        b"sokoban-answers 1\nlevel 1\nsolution\nR\n",
        b"",
        b"answers line 5 unclosed\n",
        2,
    ),
];

// Arguments, and what standard error gets.
const ERRORS: [([&str; 4], &[u8]); 3] = [
    (
        ["sokoaudit", "audit", "nowhere", "answers"],
        b"cannot read levels\n",
    ),
    (
        ["sokoaudit", "audit", "levels", "nowhere"],
        b"cannot read answers\n",
    ),
    (["sokoaudit", "dead", "levels", "3"], b"no such level\n"),
];

// Audits the levels with an answers file, and checks what is printed.
fn audits(
    rt: &impl Abort,
    alloc: Global,
    answers: &[u8],
    (report, faults, status): (&[u8], &[u8], u8),
) {
    let mut output = Device::new(Vec::new(alloc));
    let mut errors = Device::new(Vec::new(alloc));
    let ended = audit_in_memory(alloc, LEVELS, answers, &mut output, &mut errors);
    same_bytes(rt, &output.into_inner(), report);
    same_bytes(rt, &errors.into_inner(), faults);
    same(rt, &"status", &ended, &status);
}

// Runs the program on words that end in an error, and checks what is printed.
fn ends_in_an_error(rt: &impl Abort, alloc: Global, words: [&str; 4], faults: &[u8]) {
    let mut files = Shelf {
        levels: LEVELS,
        answers: b"",
    };
    let mut output = Device::new(Vec::new(alloc));
    let mut errors = Device::new(Vec::new(alloc));
    let ended = run(alloc, &words, &mut files, &mut output, &mut errors);
    same_bytes(rt, &output.into_inner(), b"");
    same_bytes(rt, &errors.into_inner(), faults);
    same(rt, &"status", &ended, &2);
}

#[test]
fn an_audit_over_memory_prints_what_it_prints_over_files(rt: HostRuntime) {
    for (answers, report, faults, status) in AUDITS {
        audits(&rt, rt.alloc(), answers, (report, faults, status));
    }
}

#[test]
fn an_error_over_memory_prints_what_it_prints_over_files(rt: HostRuntime) {
    for (words, faults) in ERRORS {
        ends_in_an_error(&rt, rt.alloc(), words, faults);
    }
}
