//! Audits collections of Sokoban levels, makes certificates for them, and maps their dead squares.
//!
//! The library `program` says what a run prints. This crate hands the words, the files and the streams of the system to it.
#![tactic(auto)]

mod files;

use devices::{Device, Sink};
use files::Files;
use program::{refuse, run};
use std::io::BufWriter;
use std::process::ExitCode;
use std::{env, io};

// The size of the output's buffer. Made answers come in writes of up to 32 cells, so a small buffer would go to the system often.
const BUFFER: usize = 65_536;

fn main(rt: HostRuntime) -> ExitCode {
    let mut faults = Device::new(rt.stderr());
    let status = match run_on(&rt, &mut faults) {
        Ok(status) => status,
        Err(error) => refuse(&error, &mut faults),
    };
    ExitCode::from(status)
}

// Runs the program on the words and the streams that the system hands over.
fn run_on<E: Sink>(rt: &HostRuntime, faults: &mut E) -> io::Result<u8> {
    let alloc = rt.alloc();
    let args: Vec<String> = env::args(rt)?.collect(alloc)?;
    let words: Vec<&str> = args.iter().map(|word| word.as_str()).collect(alloc)?;
    let mut output = Device::new(BufWriter::with_capacity(alloc, BUFFER, rt.stdout())?);
    let mut files = Files::new(rt, rt.stdin());
    let status = run(alloc, &words, &mut files, &mut output, faults);
    // Drops what a failed write left in the buffer, so that it isn't written after all.
    let (_output, _left) = output.into_inner().into_parts();
    Ok(status)
}
