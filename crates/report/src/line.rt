//! The lines of the report as bytes.
ghost use Rattle.std.specs.Prelude.{◌≡◌, ◌++◌, OnOk, decimal, codes};
ghost use Rattle.report.specs.Words.{line_of, words_of, refusal_words, solution_words, patterns_words, zone_words, cell_words, total_line};

use crate::status::{Refusal, Status};
use crate::summary::Summary;
use cellset::{Cell, Dir};
use closure::{CheckFault, ZoneFault};
use itoa::Buffer;
use play::ReplayFault;
use std::alloc::AllocError;

// Adds a word and then a number.
fn push_number(text: &mut Vec<u8>, word: &[u8], number: u64) -> Result<(), AllocError>
    ensures ok { OnOk result (text.new.items ≡ text.old.items ++ (word.now ++ decimal number)) }
{
    text.extend_from_slice(word)?;
    let mut digits = Buffer::new();
    text.extend_from_slice(digits.format(number).as_bytes())?;
    Ok(())
}

// Adds the number of a line of the answers, and then a word.
fn push_fault(text: &mut Vec<u8>, line: usize, word: &[u8]) -> Result<(), AllocError>
    ensures ok { OnOk result (text.new.items ≡ text.old.items ++ (codes "line " ++ decimal line ++ codes " " ++ word.now)) }
{
    push_number(text, b"line ", line as u64)?;
    text.extend_from_slice(b" ")?;
    text.extend_from_slice(word)
}

// Adds a word, and then a cell and a direction.
fn push_cell(text: &mut Vec<u8>, word: &[u8], cell: Cell, dir: Dir) -> Result<(), AllocError>
    ensures ok { OnOk result (text.new.items ≡ text.old.items ++ (word.now ++ cell_words cell dir)) }
{
    push_number(text, word, cell.column().into())?;
    push_number(text, b",", cell.row().into())?;
    text.extend_from_slice(b" ")?;
    text.extend_from_slice(dir.word().as_bytes())
}

// Adds the words of a solution's fault.
fn push_solution(text: &mut Vec<u8>, fault: ReplayFault) -> Result<(), AllocError>
    ensures ok { OnOk result (text.new.items ≡ text.old.items ++ solution_words fault) }
{
    match fault {
        ReplayFault::Move { number, why } => {
            push_number(text, b"move ", number)?;
            text.extend_from_slice(b" ")?;
            text.extend_from_slice(why.word().as_bytes())
        }
        ReplayFault::Unsolved { boxes } => push_number(text, b"unsolved ", boxes),
        ReplayFault::Memory => Ok(()),
    }
}

// Adds the words of a list's fault.
fn push_patterns(text: &mut Vec<u8>, fault: CheckFault) -> Result<(), AllocError>
    ensures ok { OnOk result (text.new.items ≡ text.old.items ++ patterns_words fault) }
{
    match fault {
        CheckFault::Line { line, why } => push_fault(text, line, why.word().as_bytes()),
        CheckFault::Start => text.extend_from_slice(b"start"),
        CheckFault::Push { line, player, dir } => {
            push_number(text, b"line ", line as u64)?;
            push_cell(text, b" push ", player, dir)
        }
        CheckFault::Memory => Ok(()),
    }
}

// Adds the words of a zone's fault.
fn push_zone(text: &mut Vec<u8>, fault: ZoneFault) -> Result<(), AllocError>
    ensures ok { OnOk result (text.new.items ≡ text.old.items ++ zone_words fault) }
{
    match fault {
        ZoneFault::Line { line, why } => push_fault(text, line, why.word().as_bytes()),
        ZoneFault::Leak { line, cell, dir } => {
            push_number(text, b"line ", line as u64)?;
            push_cell(text, b" leak ", cell, dir)
        }
        ZoneFault::Fits { line } => push_fault(text, line, b"fits"),
        ZoneFault::Memory => Ok(()),
    }
}

// Adds the words of a refusal.
fn push_refusal(text: &mut Vec<u8>, refusal: Refusal) -> Result<(), AllocError>
    ensures ok { OnOk result (text.new.items ≡ text.old.items ++ refusal_words refusal) }
{
    match refusal {
        Refusal::Board(fault) => {
            text.extend_from_slice(b"board ")?;
            text.extend_from_slice(fault.word().as_bytes())
        }
        Refusal::BadLine { line, why } => push_fault(text, line, why.word().as_bytes()),
        Refusal::Solution(fault) => push_solution(text, fault),
        Refusal::Patterns(fault) => push_patterns(text, fault),
        Refusal::Zone(fault) => push_zone(text, fault),
    }
}

// Adds the words of a status.
fn push_status(text: &mut Vec<u8>, status: Status) -> Result<(), AllocError>
    ensures ok { OnOk result (text.new.items ≡ text.old.items ++ words_of status) }
{
    match status {
        Status::Solved(tally) => {
            push_number(text, b"solved moves ", tally.moves)?;
            push_number(text, b" pushes ", tally.pushes)?;
            push_number(text, b" changes ", tally.changes)
        }
        Status::Unsolvable { patterns } => {
            push_number(text, b"unsolvable patterns ", patterns as u64)
        }
        Status::UnsolvableZone { cells } => push_number(text, b"unsolvable zone ", cells as u64),
        Status::Refused(refusal) => {
            text.extend_from_slice(b"refused ")?;
            push_refusal(text, refusal)
        }
        Status::Missing => text.extend_from_slice(b"missing"),
    }
}

/// Adds the line of the level with this number.
pub fn push_line(text: &mut Vec<u8>, number: usize, status: Status) -> Result<(), AllocError>
    ensures ok { OnOk result (text.new.items ≡ text.old.items ++ line_of number status) }
{
    push_number(text, b"level ", number as u64)?;
    text.extend_from_slice(b" ")?;
    push_status(text, status)?;
    text.extend_from_slice(b"\n")
}

/// Adds the last line, with the totals.
pub fn push_total(text: &mut Vec<u8>, summary: Summary) -> Result<(), AllocError>
    ensures ok { OnOk result (text.new.items ≡ text.old.items ++ total_line summary) }
{
    push_number(text, b"total ", summary.levels as u64)?;
    push_number(text, b" solved ", summary.solved as u64)?;
    push_number(text, b" unsolvable ", summary.unsolvable as u64)?;
    push_number(text, b" refused ", summary.refused as u64)?;
    push_number(text, b" missing ", summary.missing as u64)?;
    text.extend_from_slice(b"\n")
}
