//! Reads whole texts from sources.
ghost use Rattle.std.specs.Prelude.{◌≡◌, ◌≢◌, ◌+◌, ◌<◌, ◌≤◌, length, take, drop, Err, IfOk, OnOk, OnErr, IfSome, IsErrOf};
ghost use Rattle.std.specs.Io.KnownBytes.{Consumes, IsAtEnd, Keeps};
ghost use Rattle.devices.specs.Reading.{CountsReadFault, TakesAtMost, most_bytes};

use crate::device::Source;
use std::alloc::{AllocError, Global};
use thiserror::Error;

/// The most bytes that a text may have.
pub const MAX_TEXT: usize = 33_554_432;

// The most bytes that one read asks for.
const ROOM: usize = 65_536;

/// Why a text could not be read whole.
#[derive(Clone, Copy, Debug, PartialEq, Eq, Error)]
pub enum ReadFault {
    /// A read failed.
    #[error("cannot read")]
    Device,
    /// The text has more bytes than a text may have.
    #[error("too long")]
    TooLong,
    /// The system refused memory.
    #[error("out of memory")]
    Memory,
}

/// Reads a source to its end, but at most one byte more than a text may have.
pub fn read_whole<L: Source>(alloc: Global, source: &mut L) -> Result<Vec<u8>, ReadFault>
    ensures value { IfOk result (λ text. IfSome (L.left source.old) (λ bytes. text.items ≡ bytes)) }
    ensures limit { IfOk result (λ text. length text.items ≤ most_bytes) }
    ensures ends { OnOk result (IsAtEnd (L.left source.new)) }
    ensures too_long { IsErrOf result ReadFault.TooLong → IfSome (L.left source.old) (λ bytes. most_bytes < length bytes) }
    ensures taken { TakesAtMost (most_bytes + 1) (L.left source.old) (L.left source.new) }
    ensures cause { CountsReadFault (L.failures source.old) (L.failures source.new) result }
{
    let mut text = Vec::new(alloc);
    let mut taken = 0;
    'pulls: while taken <= MAX_TEXT {
        let count = pull_after(source, &mut text, taken)?;
        if count == 0 {
            text.truncate(taken);
            return Ok(text);
        }
        taken += count;
    }
    Err(ReadFault::TooLong)
}

// Reads once, to the place after the bytes that were taken.
fn pull_after<L: Source>(
    source: &mut L,
    text: &mut Vec<u8>,
    taken: usize,
) -> Result<usize, ReadFault>
    requires within { taken ≤ length text.old.items }
    requires below { (taken ≤ most_bytes) × (length text.old.items ≤ most_bytes + 1) }
    ensures front { take taken text.new.items ≡ take taken text.old.items }
    ensures fits { IfOk result (λ count. taken + count ≤ length text.new.items) }
    ensures limit { length text.new.items ≤ most_bytes + 1 }
    ensures bytes { IfOk result (λ count. Consumes (L.left source.old) (L.left source.new) (take count (drop taken text.new.items))) }
    ensures ends { IfOk result (λ count. count ≡ 0 → IsAtEnd (L.left source.new)) }
    ensures same { OnErr result (Keeps (L.left source.old) (L.left source.new)) }
    ensures short { result ≢ Err ReadFault.TooLong }
    ensures cause { CountsReadFault (L.failures source.old) (L.failures source.new) result }
{
    if make_room(text, taken).is_err() {
        return Err(ReadFault::Memory);
    }
    match source.pull(&mut text[taken..]) {
        Ok(count) => Ok(count),
        Err(_) => Err(ReadFault::Device),
    }
}

// Makes new room after the bytes that were taken if the last read left none.
fn make_room(text: &mut Vec<u8>, taken: usize) -> Result<(), AllocError>
    requires within { taken ≤ length text.old.items }
    requires below { (taken ≤ most_bytes) × (length text.old.items ≤ most_bytes + 1) }
    ensures front { take taken text.new.items ≡ take taken text.old.items }
    ensures limit { length text.new.items ≤ most_bytes + 1 }
    ensures room { OnOk result (taken < length text.new.items) }
{
    if text.len() > taken {
        return Ok(());
    }
    text.resize((taken + ROOM).min(MAX_TEXT + 1), 0)
}
