//! A test of what a caller does with records: writes them, reads them and compares them.

use crate::same::same;
use answers::{Answers, Device, MadeBody, MadeRecord, Record, read, write};
use std::alloc::{AllocError, Global};

// Returns the records of a solution of one letter, in the level that has the number 7.
fn records(alloc: Global) -> Result<Answers<'static>, AllocError> {
    let mut lines: Vec<&'static [u8]> = Vec::new(alloc);
    lines.push(b"R")?;
    let mut records = Vec::new(alloc);
    records.push((7, Record::Solution(lines)))?;
    Ok(Answers { records })
}

#[test]
fn what_is_written_is_read(rt: HostRuntime) -> Result<(), AllocError> {
    let alloc = rt.alloc();
    let body = MadeBody::Letters(b"R");
    let mut sink = Device::new(Vec::new(alloc));
    let written = write(&[MadeRecord { level: 7, body }], &mut sink);
    let text = sink.into_inner();
    same(&rt, &"written", &written, &Ok(()));
    same(&rt, &"read", &read(alloc, &text, 9), &Ok(records(alloc)?));
    Ok(())
}
