//! Makes one public call on one row. Prints the result, and then the values that the call borrowed.
//!
//! It is run with allocations refused beneath it. So it shows that a call runs out of memory only if an allocation was
//! refused, and that borrowed values are unchanged. Its arguments are the type of sets, the call, a levels text and an
//! answers text. For a call over whole texts the first argument is `whole`, or `fuses` if its devices fail.
#![tactic(auto)]

mod frugal;
mod fuses;
mod layers;
mod lists;
mod shown;
mod solutions;
mod whole;

use cellset::{BitSet, ListSet};
use std::alloc::Global;
use std::env;
use std::process::ExitCode;

fn main(rt: HostRuntime) -> ExitCode {
    match call(&rt) {
        Some(()) => ExitCode::from(0),
        None => {
            let _ = println!(rt; "not made");
            ExitCode::from(3)
        }
    }
}

// Makes the call that the arguments name, or returns `None` if its values can't be made.
fn call(rt: &HostRuntime) -> Option<()> {
    let alloc = rt.alloc();
    let words: Vec<String> = env::args(rt).ok()?.collect(alloc).ok()?;
    let made = call_of(rt, alloc, &words);
    drop(words);
    made
}

// Makes the call that these words name.
fn call_of(rt: &impl Print, alloc: Global, words: &[String]) -> Option<()> {
    let [_, sets, name, levels, answers] = words else {
        return None;
    };
    let (levels, answers) = (levels.as_bytes(), answers.as_bytes());
    match sets.as_str() {
        "list" => layers::call::<ListSet>(rt, alloc, name, levels, answers),
        "bits" => layers::call::<BitSet>(rt, alloc, name, levels, answers),
        "fuses" => fuses::call(rt, alloc, name, levels, answers),
        _ => whole::call(rt, alloc, name, levels, answers),
    }
}
