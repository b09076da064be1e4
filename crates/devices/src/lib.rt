//! Sources and sinks of bytes, and texts that are read or written whole.
//!
//! Contracts see a source or sink as its bytes, if it reports them, and the number of its failures.
//!
//! Read `specs/Device.antt` for the words of both traits, `specs/Writing.antt` for a text that is written, and
//! `specs/Reading.antt` for a text that is read.
#![tactic(auto)]

mod device;
mod fuse;
mod reading;
mod writing;

pub use device::{Device, DeviceFault, Sink, Source};
pub use fuse::{Blown, Fuse};
pub use reading::{MAX_TEXT, ReadFault, read_whole};
pub use writing::write_whole;
