//! The calls over whole texts.

use crate::shown;
use answers::{Device, Sink, Source};
use report::{audit, audit_texts, dead_map, make_answers};
use std::alloc::Global;

// The number of bytes for which a sink has room from the start.
const ROOM: usize = 4096;

/// What a call reads and writes.
#[derive(Drop)]
pub struct Devices<L, A, S> {
    pub levels: L,
    pub answers: A,
    pub sink: S,
}

/// Makes the call with this name, or returns `None` if its values can't be made.
pub fn call(
    rt: &impl Print,
    alloc: Global,
    name: &str,
    levels: &[u8],
    answers: &[u8],
) -> Option<()> {
    match name {
        "audit_texts" => report(rt, alloc, levels, answers),
        _ => through_memory(rt, alloc, name, levels, answers),
    }
}

// Makes the call with this name through devices over memory.
fn through_memory(
    rt: &impl Print,
    alloc: Global,
    name: &str,
    levels: &[u8],
    answers: &[u8],
) -> Option<()> {
    let Ok(room) = Vec::with_capacity(alloc, ROOM) else {
        return None;
    };
    let mut devices = Devices {
        levels: Device::new(levels),
        answers: Device::new(answers),
        sink: Device::new(room),
    };
    let made = through(rt, alloc, name, &mut devices);
    let held = devices.sink.into_inner();
    if made.is_some() {
        shown::held(rt, &held);
        shown::text(rt, levels);
        if name == "audit" {
            shown::text(rt, answers);
        }
    }
    drop(held);
    made?;
    Some(())
}

/// Makes the call with this name through devices, prints its result, and returns whether it succeeds. Returns `None` if
/// there is no such call.
pub fn through<L: Source, A: Source, S: Sink>(
    rt: &impl Print,
    alloc: Global,
    name: &str,
    devices: &mut Devices<L, A, S>,
) -> Option<bool> {
    let (levels, sink) = (&mut devices.levels, &mut devices.sink);
    match name {
        "audit" => {
            let outcome = audit(alloc, levels, &mut devices.answers, sink);
            Some(shown::result(rt, &outcome))
        }
        "make_answers" => Some(shown::result(rt, &make_answers(alloc, levels, sink))),
        "dead_map" => map(rt, alloc, levels, 1, sink),
        // Numbers that the program's words can't name.
        "dead_map 0" => map(rt, alloc, levels, 0, sink),
        "dead_map most" => map(rt, alloc, levels, usize::MAX, sink),
        _ => None,
    }
}

// Makes the map of a level, prints the result, and returns whether that succeeds.
fn map<L: Source, S: Sink>(
    rt: &impl Print,
    alloc: Global,
    levels: &mut L,
    number: usize,
    sink: &mut S,
) -> Option<bool> {
    Some(shown::result(rt, &dead_map(alloc, levels, number, sink)))
}

// Prints the report of two texts, which is made without a sink.
fn report(rt: &impl Print, alloc: Global, levels: &[u8], answers: &[u8]) -> Option<()> {
    match audit_texts(alloc, levels, answers) {
        Ok((text, summary)) => {
            shown::value(rt, &summary);
            shown::bytes(rt, &text);
            drop(text);
        }
        Err(fault) => {
            let _ = println!(rt; "Err({fault:?})");
        }
    }
    shown::text(rt, levels);
    shown::text(rt, answers);
    Some(())
}
