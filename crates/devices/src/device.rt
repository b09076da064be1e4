//! Sources and sinks of bytes, over readers and writers of std.
ghost use Rattle.std.specs.Prelude.{◌≡◌, ◌<◌, ℕ, List, length, IfOk, Option};
ghost use Rattle.std.specs.Io.{ReadsAtMost, WritesAtMost};
ghost use Rattle.std.specs.Io.KnownBytes.{Keeps, ReadConsumes, WriteAppends};
ghost use Rattle.devices.specs.Device.{CountsFault, count_after, inner_of, failures_of};

use std::io::{Read, Write};
use thiserror::Error;

/// A read, a write or a flush failed.
#[derive(Clone, Copy, Debug, PartialEq, Eq, Error)]
#[error("the device failed")]
pub struct DeviceFault;

/// A source of bytes, one read at a time.
pub trait Source {
    /// The bytes that are left to read, if the device reports them.
    ghost left: { Self → Option (List ℕ) };

    /// The number of calls that have failed.
    ghost failures: { Self → ℕ };

    /// Reads once. Unless the buffer is empty, a result of 0 is the end.
    fn pull(&mut self, buffer: &mut [u8]) -> Result<usize, DeviceFault>
        ensures bound { ReadsAtMost result buffer.new }
        ensures bytes { ReadConsumes (left self.old) (left self.new) result buffer.new }
        ensures cause { CountsFault (failures self.old) (failures self.new) result };
}

/// A sink of bytes, one write at a time.
pub trait Sink {
    /// The bytes that were written, if the device reports them.
    ghost held: { Self → Option (List ℕ) };

    /// The number of calls that have failed.
    ghost failures: { Self → ℕ };

    /// Writes once. Takes at least one byte of a text that isn't empty.
    fn put(&mut self, text: &[u8]) -> Result<usize, DeviceFault>
        ensures bound { WritesAtMost result text.now }
        ensures some { 0 < length text.now → IfOk result (λ taken. 0 < taken) }
        ensures wrote { WriteAppends (held self.old) (held self.new) result text.now }
        ensures cause { CountsFault (failures self.old) (failures self.new) result };

    /// Passes on what was written. Adds no byte.
    fn flush(&mut self) -> Result<(), DeviceFault>
        ensures same { Keeps (held self.old) (held self.new) }
        ensures cause { CountsFault (failures self.old) (failures self.new) result };
}

/// A reader or writer that counts its failures.
///
/// Errors of any kind are failures, also an interrupted call or running out of memory, and so is a write that takes no byte of
/// a text that isn't empty. It tries no call again; its writer may, as a `BufWriter` does with an interrupted write.
#[derive(Debug, Drop)]
pub struct Device<T> {
    inner: T,
    failures: u64,
}

impl<T> Device<T> {
    /// Wraps a reader or writer. Allocates nothing.
    pub fn new(inner: T) -> Device<T>
        ensures value { inner_of result ≡ inner }
        ensures none { failures_of result ≡ 0 }
    {
        Device { inner, failures: 0 }
    }

    /// Returns the reader or writer.
    pub fn into_inner(self) -> T
        ensures { result ≡ inner_of self }
    {
        self.inner
    }

    /// Counts one more failure.
    fn fail(&mut self) -> DeviceFault
        ensures same { inner_of self.new ≡ inner_of self.old }
        ensures cause { failures_of self.new ≡ count_after (failures_of self.old) }
    {
        self.failures = self.failures.saturating_add(1);
        DeviceFault
    }
}

impl<R: Read> Source for Device<R> {
    ghost left = { λ d. R.remaining (inner_of d) };

    ghost failures = { failures_of };

    fn pull(&mut self, buffer: &mut [u8]) -> Result<usize, DeviceFault> {
        match self.inner.read(buffer) {
            Ok(count) => Ok(count),
            Err(_) => Err(self.fail()),
        }
    }
}

impl<W: Write> Sink for Device<W> {
    ghost held = { λ d. W.contents (inner_of d) };

    ghost failures = { failures_of };

    fn put(&mut self, text: &[u8]) -> Result<usize, DeviceFault> {
        match self.inner.write(text) {
            Ok(count) if count > 0 || text.is_empty() => Ok(count),
            _ => Err(self.fail()),
        }
    }

    fn flush(&mut self) -> Result<(), DeviceFault> {
        match self.inner.flush() {
            Ok(()) => Ok(()),
            Err(_) => Err(self.fail()),
        }
    }
}
