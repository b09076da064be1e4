//! Tests of writes that are cut short.
ghost use Rattle.std.specs.Prelude.{◌≤◌};

use crate::device_calls::{BLOWN, holds, one_by_one};
use crate::same::same;
use answers::{Blown, MadeBody, MadeRecord, Sink, WriteFault, write};
use std::alloc::{AllocError, Global};
use std::process::Abort;

const TEXT: &[u8] = b"sokoban-answers 1\nlevel 1\nsolution\nR\nend\nlevel 3\nsolution\nend\n";

// The levels of `TEXT`, with their letters.
const LETTERS: [(usize, &[u8]); 2] = [(1, b"R"), (3, b"")];

// Returns the records of `TEXT`.
fn records(alloc: Global) -> Result<Vec<MadeRecord<'static>>, AllocError> {
    let mut made = Vec::new(alloc);
    for (level, letters) in LETTERS {
        let body = MadeBody::Letters(letters);
        made.push(MadeRecord { level, body })?;
    }
    Ok(made)
}

// Writes records to any sink, and checks the answer.
fn writes<S: Sink>(
    rt: &impl Abort,
    made: &[MadeRecord],
    sink: &mut S,
    answer: Result<(), WriteFault>,
) {
    let outcome = write(made, sink);
    same(rt, &"write", &outcome, &answer);
}

// Checks that a sink that takes a number of bytes, one by one, holds them after a write.
fn holds_what_it_took(
    rt: &impl Abort,
    alloc: Global,
    made: &[MadeRecord],
    taken: usize,
    blown: Blown,
) -> Result<(), AllocError>
    requires { taken ≤ 62 }
{
    let mut sink = one_by_one(alloc, taken, blown)?;
    let answer = if taken == TEXT.len() {
        Ok(())
    } else {
        Err(WriteFault)
    };
    writes(rt, made, &mut sink, answer);
    holds(rt, sink, &TEXT[..taken]);
    Ok(())
}

#[test]
fn a_cut_text_stands_up_to_the_cut(rt: HostRuntime) -> Result<(), AllocError> {
    let made = records(rt.alloc())?;
    for blown in BLOWN {
        for taken in 0..=TEXT.len() {
            holds_what_it_took(&rt, rt.alloc(), &made, taken, *blown)?;
        }
    }
    Ok(())
}
