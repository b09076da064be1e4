//! Writes the canonical text of records.
//!
//! `write` is for callers. The program writes the parts of the same text: `write_header`, and `write_list_record` or `write_zone_record` for
//! each level.
ghost use Rattle.std.specs.Prelude.{◌≡◌, ◌+◌, ◌++◌, Ok, OnOk, OnErr, codes, drop, take};
ghost use Rattle.std.specs.List.{flat_map};
ghost use Rattle.std.specs.Io.KnownBytes.{Appends};
ghost use Rattle.answers.specs.Canonical.{canonical, ended, header_line, last_pattern, letter_lines, line_of_made, list_lines, lone_line, record_text, made_lines, some_zone, text_with, zone_lines};
ghost use Rattle.devices.specs.Device.{AppendsBeginning, CountsFault};
ghost use Rattle.devices.specs.Writing.{Writes};
ghost use Rattle.answers.specs.Grammar.{cells_text, level_text, numeral, pattern_text, said_seeds, seeds_text, zone_text};

use crate::cells::write_each;
use crate::pattern::{Coord, Pattern, Seeds};
use crate::record::{MadeBody, MadeRecord};
use devices::{DeviceFault, Sink, write_whole};
use itoa::Buffer;
use thiserror::Error;

// The number of letters in a full line.
const LINE: usize = 70;

/// The sink failed.
#[derive(Clone, Copy, Debug, PartialEq, Eq, Error)]
#[error("cannot write")]
pub struct WriteFault;

/// Writes the canonical text of the records, in many small writes. Allocates nothing.
///
/// If the numbers of the levels rise from at least 1 and each record can be spelled, the text reads back as the same records.
pub fn write<W: Sink>(records: &[MadeRecord], sink: &mut W) -> Result<(), WriteFault>
    ensures wrote { OnOk result
        (Appends (W.held sink.old) (W.held sink.new) (canonical records.now)) }
    ensures beginning { OnErr result
        (AppendsBeginning (W.held sink.old) (W.held sink.new) (canonical records.now)) }
    ensures cause { CountsFault (W.failures sink.old) (W.failures sink.new) result }
{
    match write_text(records, sink) {
        Ok(()) => Ok(()),
        Err(_) => Err(WriteFault),
    }
}

/// Writes the canonical text of the record of a list, without a header: a pattern of one box for each of the first cells, and a last one of
/// all other boxes, if there are any. All have the seeds `*`. Allocates nothing.
pub fn write_list_record<W: Sink>(
    level: usize,
    cells: &[Coord],
    last: &[Coord],
    sink: &mut W,
) -> Result<(), DeviceFault>
    ensures { Writes W.Sink sink.old sink.new (text_with level (list_lines cells.now last.now)) result }
{
    write_level(level, sink)?;
    write_list_body(cells, last, sink)?;
    write_bytes(b"end\n", sink)
}

/// Writes the canonical text of the record of a zone, without a header. Allocates nothing.
pub fn write_zone_record<W: Sink>(
    level: usize,
    cells: &[Coord],
    sink: &mut W,
) -> Result<(), DeviceFault>
    ensures { Writes W.Sink sink.old sink.new (text_with level (zone_lines cells.now)) result }
{
    write_level(level, sink)?;
    write_zone_body(cells, sink)?;
    write_bytes(b"end\n", sink)
}

/// Writes the header, of version 2 if some record holds a zone. Allocates nothing.
pub fn write_header<W: Sink>(zones: bool, sink: &mut W) -> Result<(), DeviceFault>
    ensures { Writes W.Sink sink.old sink.new (header_line zones) result }
{
    write_bytes(header_line(zones), sink)
}

// Writes the header and the records.
fn write_text<W: Sink>(records: &[MadeRecord], sink: &mut W) -> Result<(), DeviceFault>
    ensures { Writes W.Sink sink.old sink.new (canonical records.now) result }
{
    write_header(some_zone(records), sink)?;
    write_records(records, sink)
}

// The header line, of the version that the records need.
fn header_line(zones: bool) -> &'static [u8]
    ensures { result.now ≡ header_line zones }
{
    if zones {
        b"sokoban-answers 2\n"
    } else {
        b"sokoban-answers 1\n"
    }
}

// Returns whether some record holds a zone.
fn some_zone(records: &[MadeRecord]) -> bool
    ensures { result ≡ some_zone records.now }
{
    records
        .iter()
        .any(|made| matches!(made.body, MadeBody::Zone(_)))
}

// Writes the lines of each record.
fn write_records<W: Sink>(records: &[MadeRecord], sink: &mut W) -> Result<(), DeviceFault>
    ensures { Writes W.Sink sink.old sink.new (flat_map record_text records.now) result }
{
    for made in records {
        write_record(made, sink)?;
    }
    Ok(())
}

// Writes the lines of a record.
fn write_record<W: Sink>(made: &MadeRecord, sink: &mut W) -> Result<(), DeviceFault>
    ensures { Writes W.Sink sink.old sink.new (record_text made.now) result }
{
    write_level(made.level, sink)?;
    write_body(&made.body, sink)?;
    write_bytes(b"end\n", sink)
}

// Writes the kind line and the lines of a list.
fn write_list_body<W: Sink>(
    cells: &[Coord],
    last: &[Coord],
    sink: &mut W,
) -> Result<(), DeviceFault>
    ensures { Writes W.Sink sink.old sink.new (flat_map ended (list_lines cells.now last.now)) result }
{
    write_bytes(b"unsolvable\n", sink)?;
    write_lone(cells, sink)?;
    write_last(last, sink)
}

// Writes the kind line and the line of a zone.
fn write_zone_body<W: Sink>(cells: &[Coord], sink: &mut W) -> Result<(), DeviceFault>
    ensures { Writes W.Sink sink.old sink.new (flat_map ended (zone_lines cells.now)) result }
{
    write_bytes(b"unsolvable\n", sink)?;
    write_zone(cells, sink)
}

// Writes the level line.
fn write_level<W: Sink>(level: usize, sink: &mut W) -> Result<(), DeviceFault>
    ensures { Writes W.Sink sink.old sink.new (ended (level_text level)) result }
{
    write_bytes(b"level ", sink)?;
    write_number(level, sink)?;
    write_bytes(b"\n", sink)
}

// Writes the kind line and the body lines.
fn write_body<W: Sink>(body: &MadeBody, sink: &mut W) -> Result<(), DeviceFault>
    ensures { Writes W.Sink sink.old sink.new (flat_map ended (made_lines body.now)) result }
{
    write_bytes(kind_line(body), sink)?;
    write_said(body, sink)
}

// Returns the kind line.
fn kind_line(body: &MadeBody) -> &'static [u8]
    ensures { result.now ≡ flat_map ended (take 1 (made_lines body.now)) }
{
    match body {
        MadeBody::Letters(_) => b"solution\n",
        _ => b"unsolvable\n",
    }
}

// Writes the body lines.
fn write_said<W: Sink>(body: &MadeBody, sink: &mut W) -> Result<(), DeviceFault>
    ensures { Writes W.Sink sink.old sink.new (flat_map ended (drop 1 (made_lines body.now))) result }
{
    match body {
        MadeBody::Letters(letters) => write_letters(letters, sink),
        MadeBody::Patterns(patterns) => write_patterns(patterns, sink),
        MadeBody::Zone(zone) => write_zone(&zone.cells, sink),
    }
}

// Writes the line of a zone.
fn write_zone<W: Sink>(cells: &[Coord], sink: &mut W) -> Result<(), DeviceFault>
    ensures { Writes W.Sink sink.old sink.new (ended (zone_text (record { line = 0; cells = cells.now }))) result }
{
    write_bytes(b"zone ", sink)?;
    write_last_cells(cells, sink)
}

// Writes the letters in lines.
fn write_letters<W: Sink>(letters: &[u8], sink: &mut W) -> Result<(), DeviceFault>
    ensures { Writes W.Sink sink.old sink.new (flat_map ended (letter_lines letters.now)) result }
{
    let mut rest = letters;
    while !rest.is_empty() {
        let (line, after) = rest.split_at(LINE.min(rest.len()));
        write_line(line, sink)?;
        rest = after;
    }
    Ok(())
}

// Writes a line and its end.
fn write_line<W: Sink>(line: &[u8], sink: &mut W) -> Result<(), DeviceFault>
    ensures { Writes W.Sink sink.old sink.new (ended line.now) result }
{
    write_bytes(line, sink)?;
    write_bytes(b"\n", sink)
}

// Writes a line for each pattern.
fn write_patterns<W: Sink>(patterns: &[Pattern], sink: &mut W) -> Result<(), DeviceFault>
    ensures { Writes W.Sink sink.old sink.new (flat_map (λ p. ended (line_of_made p)) patterns.now) result }
{
    for pattern in patterns {
        write_pattern(pattern.boxes.as_slice(), &pattern.seeds, sink)?;
    }
    Ok(())
}

// Writes the line of a pattern.
fn write_pattern<W: Sink>(boxes: &[Coord], seeds: &Seeds, sink: &mut W) -> Result<(), DeviceFault>
    ensures { Writes W.Sink sink.old sink.new (ended (pattern_text (record { line = 0; boxes = boxes.now; seeds = said_seeds seeds.now }))) result }
{
    write_bytes(b"pattern ", sink)?;
    write_cells(boxes, sink)?;
    write_seeds(seeds, sink)
}

// Writes the line of the pattern of the last boxes of a list, if there are any.
fn write_last<W: Sink>(boxes: &[Coord], sink: &mut W) -> Result<(), DeviceFault>
    ensures { Writes W.Sink sink.old sink.new (flat_map (λ p. ended (pattern_text p)) (last_pattern boxes.now)) result }
{
    if boxes.is_empty() {
        return Ok(());
    }
    write_pattern(boxes, &Seeds::Room, sink)
}

// Writes for each cell the line of the pattern with one box there and the seeds `*`.
fn write_lone<W: Sink>(cells: &[Coord], sink: &mut W) -> Result<(), DeviceFault>
    ensures { Writes W.Sink sink.old sink.new (flat_map (λ c. ended (lone_line c)) cells.now) result }
{
    write_each(cells, b"pattern ", b" @ *\n", sink)
}

// Writes the line of a pattern after its boxes: the `@`, the seeds and the end.
fn write_seeds<W: Sink>(seeds: &Seeds, sink: &mut W) -> Result<(), DeviceFault>
    ensures { Writes W.Sink sink.old sink.new (codes " @ " ++ seeds_text (said_seeds seeds.now) ++ codes "\n") result }
{
    match seeds {
        Seeds::Room => write_bytes(b" @ *\n", sink),
        Seeds::Cells(cells) => {
            write_bytes(b" @ ", sink)?;
            write_last_cells(cells, sink)
        }
    }
}

// Writes the cells at the end of a line, and its end.
fn write_last_cells<W: Sink>(cells: &[Coord], sink: &mut W) -> Result<(), DeviceFault>
    ensures { Writes W.Sink sink.old sink.new (ended (cells_text cells.now)) result }
{
    write_cells(cells, sink)?;
    write_bytes(b"\n", sink)
}

// Writes the cells with spaces between them.
fn write_cells<W: Sink>(cells: &[Coord], sink: &mut W) -> Result<(), DeviceFault>
    ensures { Writes W.Sink sink.old sink.new (cells_text cells.now) result }
{
    let Some((first, rest)) = cells.split_first() else {
        return Ok(());
    };
    write_each(&[*first], b"", b"", sink)?;
    write_each(rest, b" ", b"", sink)
}

// Writes the digits of a number. 0 has no digits: no record that can be spelled has a 0.
fn write_number<W: Sink>(number: usize, sink: &mut W) -> Result<(), DeviceFault>
    ensures { Writes W.Sink sink.old sink.new (numeral number) result }
{
    if number == 0 {
        return Ok(());
    }
    write_bytes(Buffer::new().format(number).as_bytes(), sink)
}

// Writes all of the bytes.
fn write_bytes<W: Sink>(bytes: &[u8], sink: &mut W) -> Result<(), DeviceFault>
    ensures { Writes W.Sink sink.old sink.new bytes.now result }
{
    write_whole(sink, bytes)
}
