//! Writes whole texts to sinks.
ghost use Rattle.devices.specs.Writing.{Writes};

use crate::device::{DeviceFault, Sink};

/// Writes the whole text, or stops at the first write that fails. Allocates nothing.
pub fn write_whole<W: Sink>(sink: &mut W, text: &[u8]) -> Result<(), DeviceFault>
    ensures { Writes W.Sink sink.old sink.new text.now result }
{
    let mut at = 0;
    while at < text.len() {
        at += sink.put(&text[at..])?;
    }
    Ok(())
}
