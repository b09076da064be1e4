//! The calls over whole texts, through devices that pass some calls and then fail.

use crate::shown;
use crate::whole::{Devices, through};
use answers::{Blown, Device, Fuse};
use std::alloc::Global;

// The largest numbers of bytes in one call.
const MOST: &[usize] = &[1, 2, 7, 163, 164, 1000];

// The devices that fail, and how.
const FAILING: &[&str] = &["levels", "answers", "sink"];

const BLOWN: &[Blown] = &[Blown::Error, Blown::Nothing, Blown::Once];

// More calls than any device gets.
const MANY: u64 = 100_000;

// Two texts, and how devices over them pass and fail. One device fails.
#[derive(Clone, Copy)]
struct Fused<'a> {
    levels: &'a [u8],
    answers: &'a [u8],
    most: usize,
    blown: Blown,
    failing: &'a str,
}

/// Makes the call with this name again and again: of the devices each fails in turn, after no call, after one, and so on
/// until the call succeeds.
pub fn call(
    rt: &impl Print,
    alloc: Global,
    name: &str,
    levels: &[u8],
    answers: &[u8],
) -> Option<()> {
    for failing in FAILING {
        for blown in BLOWN {
            for most in MOST {
                let texts = Fused {
                    levels,
                    answers,
                    most: *most,
                    blown: *blown,
                    failing,
                };
                until_it_succeeds(rt, alloc, name, texts)?;
            }
        }
    }
    Some(())
}

// Lets the device fail after no call, after one, and so on until the call succeeds.
fn until_it_succeeds(rt: &impl Print, alloc: Global, name: &str, texts: Fused<'_>) -> Option<()> {
    for calls in 0..MANY {
        if once(rt, alloc, name, texts, calls)? {
            break;
        }
    }
    Some(())
}

// Prints the result, whether the answers are still unread, and what the sink holds. Returns whether the call succeeds.
fn once(rt: &impl Print, alloc: Global, name: &str, texts: Fused<'_>, calls: u64) -> Option<bool> {
    let mut devices = Devices {
        levels: fuse(texts.levels, "levels", texts, calls),
        answers: fuse(texts.answers, "answers", texts, calls),
        sink: fuse(Vec::new(alloc), "sink", texts, calls),
    };
    let succeeds = through(rt, alloc, name, &mut devices);
    let unread = devices.answers.into_inner().calls == MANY;
    let held = devices.sink.into_inner().inner;
    if succeeds.is_some() {
        shown::value(rt, &unread);
        shown::held(rt, &held);
    }
    drop(held);
    succeeds
}

// Returns a device that passes a number of calls if it is the failing one.
fn fuse<T>(inner: T, device: &str, texts: Fused<'_>, calls: u64) -> Device<Fuse<T>> {
    let calls = if device == texts.failing { calls } else { MANY };
    Device::new(Fuse {
        inner,
        calls,
        most: texts.most,
        blown: texts.blown,
    })
}
