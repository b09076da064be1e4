//! Tests of devices over memory and over readers and writers that fail.
ghost use Rattle.std.specs.Prelude.{◌≤◌};

use crate::same::{same, same_bytes};
use answers::{Blown, Device, DeviceFault, Fuse, Sink, Source, write_whole};
use std::alloc::{AllocError, Global};
use std::process::Abort;

const TEXT: &[u8] = b"level 1\n";

/// How a device fails.
pub const BLOWN: &[Blown] = &[Blown::Error, Blown::Nothing, Blown::Once];

/// A sink that keeps what it takes.
pub type Keeping = Device<Fuse<Vec<u8>>>;

/// Returns a sink that takes `calls` writes of one byte each.
pub fn one_by_one(alloc: Global, calls: usize, blown: Blown) -> Result<Keeping, AllocError> {
    let inner = Vec::with_capacity(alloc, 64)?;
    let (calls, most) = (calls as u64, 1);
    Ok(Device::new(Fuse {
        inner,
        calls,
        most,
        blown,
    }))
}

/// Checks what a sink has taken.
pub fn holds(rt: &impl Abort, sink: Keeping, text: &[u8]) {
    let fuse = sink.into_inner();
    same_bytes(rt, &fuse.inner, text);
    drop(fuse);
}

// Writes the text to any sink, and checks the answer.
fn puts_text<S: Sink>(rt: &impl Abort, sink: &mut S, answer: Result<(), DeviceFault>) {
    let outcome = write_whole(sink, TEXT);
    same(rt, &"write", &outcome, &answer);
}

// Flushes any sink, and checks the answer.
fn flushes<S: Sink>(rt: &impl Abort, sink: &mut S, answer: Result<(), DeviceFault>) {
    let outcome = sink.flush();
    same(rt, &"flush", &outcome, &answer);
}

// Reads once from any source, and checks the answer.
fn pulls<S: Source>(
    rt: &impl Abort,
    source: &mut S,
    buffer: &mut [u8],
    answer: Result<usize, DeviceFault>,
) {
    let outcome = source.pull(buffer);
    same(rt, &"pull", &outcome, &answer);
}

// Checks that a sink that takes a number of bytes, one by one, holds them.
fn holds_what_it_took(
    rt: &impl Abort,
    alloc: Global,
    taken: usize,
    blown: Blown,
) -> Result<(), AllocError>
    requires { taken ≤ 8 }
{
    let mut sink = one_by_one(alloc, taken, blown)?;
    let answer = if taken == TEXT.len() {
        Ok(())
    } else {
        Err(DeviceFault)
    };
    puts_text(rt, &mut sink, answer);
    holds(rt, sink, &TEXT[..taken]);
    Ok(())
}

// Checks that a sink over memory takes the text.
fn memory_takes_all(rt: &impl Abort, alloc: Global) -> Result<(), AllocError> {
    let room = Vec::with_capacity(alloc, TEXT.len())?;
    let mut sink = Device::new(room);
    puts_text(rt, &mut sink, Ok(()));
    flushes(rt, &mut sink, Ok(()));
    let held = sink.into_inner();
    same_bytes(rt, &held, TEXT);
    drop(held);
    Ok(())
}

#[test]
fn a_good_writer_takes_all_bytes(rt: HostRuntime) -> Result<(), AllocError> {
    memory_takes_all(&rt, rt.alloc())?;
    for blown in BLOWN {
        holds_what_it_took(&rt, rt.alloc(), TEXT.len(), *blown)?;
    }
    Ok(())
}

#[test]
fn a_cut_text_stands_up_to_the_cut(rt: HostRuntime) -> Result<(), AllocError> {
    for blown in BLOWN {
        for taken in 0..TEXT.len() {
            holds_what_it_took(&rt, rt.alloc(), taken, *blown)?;
        }
    }
    Ok(())
}

// The results of two reads into five bytes, and what they leave there.
const READS: &[(usize, &[u8])] = &[(5, b"level"), (3, b" 1\nel")];

#[test]
fn a_good_reader_gives_all_bytes(rt: HostRuntime) -> Result<(), AllocError> {
    let mut source = Device::new(TEXT);
    let mut room = [0u8; 5];
    for (count, bytes) in READS {
        pulls(&rt, &mut source, &mut room, Ok(*count));
        same_bytes(&rt, &room, bytes);
    }
    pulls(&rt, &mut source, &mut room, Ok(0));
    Ok(())
}

#[test]
fn a_blown_fuse_fails_each_read(rt: HostRuntime) -> Result<(), AllocError> {
    let mut source = Device::new(Fuse {
        inner: TEXT,
        calls: 1,
        most: 2,
        blown: Blown::Nothing,
    });
    let mut room = [0u8; 5];
    pulls(&rt, &mut source, &mut room, Ok(2));
    pulls(&rt, &mut source, &mut room, Err(DeviceFault));
    pulls(&rt, &mut source, &mut room, Err(DeviceFault));
    Ok(())
}

#[test]
fn a_blown_fuse_fails_each_flush(rt: HostRuntime) -> Result<(), AllocError> {
    let mut sink = one_by_one(rt.alloc(), 0, Blown::Nothing)?;
    flushes(&rt, &mut sink, Err(DeviceFault));
    Ok(())
}

#[test]
fn no_read_is_tried_again(rt: HostRuntime) -> Result<(), AllocError> {
    let mut source = Device::new(Fuse {
        inner: TEXT,
        calls: 0,
        most: 5,
        blown: Blown::Once,
    });
    let mut room = [0u8; 5];
    pulls(&rt, &mut source, &mut room, Err(DeviceFault));
    pulls(&rt, &mut source, &mut room, Ok(5));
    Ok(())
}

#[test]
fn no_write_is_tried_again(rt: HostRuntime) -> Result<(), AllocError> {
    let mut sink = one_by_one(rt.alloc(), 0, Blown::Once)?;
    puts_text(&rt, &mut sink, Err(DeviceFault));
    puts_text(&rt, &mut sink, Ok(()));
    holds(&rt, sink, TEXT);
    Ok(())
}

#[test]
fn no_flush_is_tried_again(rt: HostRuntime) -> Result<(), AllocError> {
    let mut sink = one_by_one(rt.alloc(), 0, Blown::Once)?;
    flushes(&rt, &mut sink, Err(DeviceFault));
    flushes(&rt, &mut sink, Ok(()));
    Ok(())
}
