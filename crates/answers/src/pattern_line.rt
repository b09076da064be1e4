//! Reads cells, pattern lines and zone lines.

ghost use Rattle.std.specs.Prelude.{◌≡◌, ◌≢◌, ◌≤◌, ◌<◌, ◌+◌, ◌-◌, ◌*◌, ◌^◌, ◌==◌, ◌&&◌, ◌∷◌, [], ℕ, List, nat_lt, not, length, slice_index, IfOk, IfSome, IfNone, SomeIff, Some, option_map, true};
ghost use Rattle.std.specs.List.{list_all};
ghost use Rattle.std.specs.Char.{is_ascii_digit};
ghost use Rattle.answers.specs.Grammar.{said_pattern, said_zone, said_seeds};
ghost use Rattle.answers.specs.Reading.{TakesCell, TakesCells, TakesCoordinate, all_cells_in, is_before, is_number, level_digits, number_in, pattern_in, seeds_in, zone_in};
ghost use Rattle.answers.specs.Held.{said_line};

use crate::line::NumberedLine;
use crate::pattern::{Coord, Pattern, Seeds, Zone};
use smallvec::SmallVec;
use std::alloc::{AllocError, Global};

// Returns whether the text isn't empty and doesn't begin with the digit 0.
fn begins_number(text: &[u8]) -> bool
    ensures { result ≡ (nat_lt 0 (length text.now) && not (slice_index text.now 0 == 48)) }
{
    !text.is_empty() && text[0] != b'0'
}

// Returns whether the text is one or more decimal digits and doesn't begin with 0.
fn is_number(text: &[u8]) -> bool
    ensures { result ≡ is_number text.now }
{
    if !begins_number(text) {
        return false;
    }
    text.iter().all(|b| b.is_ascii_digit())
}

// The number that the digits spell, if it fits.
pub(crate) fn number_in(digits: &[u8]) -> Option<usize>
    requires { list_all is_ascii_digit digits.now ≡ true }
    ensures { SomeIff result (number_in digits.now < 2 ^ 64) (number_in digits.now) }
{
    let mut number: usize = 0;
    for digit in digits {
        number = number
            .checked_mul(10)?
            .checked_add(usize::from(*digit - b'0'))?;
    }
    Some(number)
}

// The digits of a level line.
#[tactic(auto, unfolding(crate::specs::Reading::level_digits))]
pub(crate) fn level_digits(text: &[u8]) -> Option<&[u8]>
    ensures value { option_map (λ d. d.now) result ≡ level_digits text.now }
    ensures digits { IfSome result (λ d. list_all is_ascii_digit d.now ≡ true) }
{
    let digits = text.strip_prefix(b"level ")?;
    is_number(digits).then_some(digits)
}

// The number with the digit at a place, if there is one and the number is at most 6,553.
#[inline]
fn with_digit(text: &[u8], at: usize, number: u32) -> Option<u32>
    ensures some { IfSome result (λ more. (at < length text.now) × (is_ascii_digit (slice_index text.now at) ≡ true)
        × (number ≤ 6553) × (more ≡ number * 10 + (slice_index text.now at - 48))) }
    ensures none { IfNone result (at < length text.now → is_ascii_digit (slice_index text.now at) ≡ true → 6553 < number) }
{
    if at >= text.len() || number > 6_553 || !text[at].is_ascii_digit() {
        return None;
    }
    Some(number * 10 + u32::from(text[at] - b'0'))
}

// Reads a column or a row off the front of a text.
//
// The first digit comes before the loop, because most numbers have one or two. Otherwise lists of single boxes take 4 % more instructions.
#[inline]
fn take_coordinate(text: &[u8]) -> Option<(u16, &[u8])>
    ensures { TakesCoordinate text.now (option_map (λ t. (t.0, t.1.now)) result) }
{
    if !begins_number(text) {
        return None;
    }
    let Some(mut number) = with_digit(text, 0, 0) else {
        return None;
    };
    let mut at = 1;
    while let Some(more) = with_digit(text, at, number) {
        number = more;
        at += 1;
    }
    if number > 65_535 {
        return None;
    }
    Some((number as u16, &text[at..]))
}

// Reads a cell off the front of a text.
#[inline]
fn take_cell(text: &[u8]) -> Option<(Coord, &[u8])>
    ensures { TakesCell text.now (option_map (λ t. (t.0, t.1.now)) result) }
{
    let (column, rest) = take_coordinate(text)?;
    let [b',', rest @ ..] = rest else {
        return None;
    };
    let (row, rest) = take_coordinate(rest)?;
    Some((Coord { row, column }, rest))
}

// The text after a blank with which it begins, if no `@` follows the blank.
#[inline]
fn after_blank(text: &[u8]) -> Option<&[u8]>
    ensures some { IfSome result (λ next. (text.now ≡ 32 ∷ next.now) × (slice_index next.now 0 ≢ 64)) }
    ensures none { IfNone result ((next : List ℕ) → text.now ≡ 32 ∷ next → slice_index next 0 ≡ 64) }
{
    match text {
        [b' ', b'@', ..] => None,
        [b' ', next @ ..] => Some(next),
        _ => None,
    }
}

// Reads cells off the front of a text, up to its end or to a blank and `@`. Adds them to the empty list, and returns the rest.
fn take_cells<'a>(
    text: &'a [u8],
    cells: &mut SmallVec<Coord, 8>,
) -> Result<Option<&'a [u8]>, AllocError>
    requires { cells.old.items ≡ [] }
    ensures { IfOk result (λ rest. TakesCells text.now (option_map (λ rest. (cells.new.items, rest.now)) rest)) }
{
    let mut last = Coord { row: 0, column: 0 };
    let mut rest = text;
    loop {
        let Some((cell, after)) = take_cell(rest) else {
            return Ok(None);
        };
        if !(last < cell) {
            return Ok(None);
        }
        cells.push(cell)?;
        let Some(next) = after_blank(after) else {
            return Ok(Some(after));
        };
        last = cell;
        rest = next;
    }
}

// Reads cells that are all of the text.
fn cells_of(alloc: Global, text: &[u8]) -> Result<Option<SmallVec<Coord, 8>>, AllocError>
    ensures { IfOk result (λ r. option_map (λ v. v.items) r ≡ all_cells_in text.now) }
{
    let mut cells = SmallVec::new(alloc);
    let Some(rest) = take_cells(text, &mut cells)? else {
        drop(cells);
        return Ok(None);
    };
    if !rest.is_empty() {
        drop(cells);
        return Ok(None);
    }
    Ok(Some(cells))
}

#[tactic(auto, unfolding(crate::specs::Reading::seeds_in))]
fn seeds_of(alloc: Global, text: &[u8]) -> Result<Option<Seeds>, AllocError>
    ensures { IfOk result (λ r. option_map said_seeds r ≡ seeds_in text.now) }
{
    if let [b'*'] = text {
        return Ok(Some(Seeds::Room));
    }
    Ok(cells_of(alloc, text)?.map(Seeds::Cells))
}

// Reads a pattern line.
pub(crate) fn pattern_of(
    alloc: Global,
    line: NumberedLine<'_>,
) -> Result<Option<Pattern>, AllocError>
    ensures { IfOk result (λ r. option_map said_pattern r ≡ pattern_in (said_line line.entry)) }
{
    let Some(text) = line.text.strip_prefix(b"pattern ") else {
        return Ok(None);
    };
    let mut boxes = SmallVec::new(alloc);
    let Some(rest) = take_cells(text, &mut boxes)? else {
        drop(boxes);
        return Ok(None);
    };
    let Some(text) = rest.strip_prefix(b" @ ") else {
        drop(boxes);
        return Ok(None);
    };
    let Some(seeds) = seeds_of(alloc, text)? else {
        drop(boxes);
        return Ok(None);
    };
    Ok(Some(Pattern {
        line: line.number,
        boxes,
        seeds,
    }))
}

// Reads a zone line.
#[tactic(auto, unfolding(crate::specs::Reading::zone_in))]
pub(crate) fn zone_of(alloc: Global, line: NumberedLine<'_>) -> Result<Option<Zone>, AllocError>
    ensures { IfOk result (λ r. option_map said_zone r ≡ zone_in (said_line line.entry)) }
{
    let Some(text) = line.text.strip_prefix(b"zone ") else {
        return Ok(None);
    };
    let Some(cells) = cells_of(alloc, text)? else {
        return Ok(None);
    };
    Ok(Some(Zone {
        line: line.number,
        cells: cells.into_vec()?,
    }))
}
