//! A reader and writer for tests: it passes some calls and then fails.
ghost use Rattle.std.specs.Prelude.{◌≡◌, ◌≢◌, ◌-◌, ◌<◌, ◌≤◌, ◌↔◌, None, IsOk, IsErr, IfOk};
ghost use Rattle.std.specs.Io.{ReadsAtMost, WritesAtMost};
ghost use Rattle.std.specs.Io.KnownBytes.{Keeps, ReadConsumes, WriteAppends};

use std::io::{self, ErrorKind, Read, Write};

/// How a blown fuse fails.
#[derive(Clone, Copy, Debug, PartialEq, Eq)]
pub enum Blown {
    /// Every call is an error.
    Error,
    /// Every write takes no byte; every read and flush is an error.
    Nothing,
    /// One call is an error, and the calls after it pass. So it shows whether a call is tried again.
    Once,
}

/// A reader or writer that passes a number of calls and then fails. It doesn't report its bytes.
#[derive(Debug, Drop)]
pub struct Fuse<T> {
    pub inner: T,
    /// The number of calls that still pass.
    pub calls: u64,
    /// The largest number of bytes in one call.
    pub most: usize,
    pub blown: Blown,
}

impl<T> Fuse<T> {
    /// Uses up a call, or fails if none is left.
    fn spend(&mut self) -> io::Result<()>
        ensures ok { IsOk result ↔ (0 < self.old.calls) }
        ensures counts { IsOk result → self.new ≡ record self.old { calls = self.old.calls - 1 } }
        ensures stays { IsErr result → self.old.blown ≢ Blown.Once → self.new ≡ self.old }
        ensures mends { IsErr result → self.old.blown ≡ Blown.Once → self.new ≡ record self.old { calls = u64.MAX } }
    {
        if self.calls > 0 {
            self.calls -= 1;
            return Ok(());
        }
        if self.blown == Blown::Once {
            self.calls = u64::MAX;
        }
        Err(io::Error::from(ErrorKind::Other))
    }
}

impl<R: Read> Read for Fuse<R> {
    fn read(&mut self, buffer: &mut [u8]) -> io::Result<usize>
        ensures bound { ReadsAtMost result buffer.new }
        ensures bytes { ReadConsumes None None result buffer.new }
        ensures few { IfOk result (λ taken. taken ≤ self.old.most) }
        ensures blown { self.old.calls ≡ 0 → IsErr result }
        ensures mends { self.old.blown ≡ Blown.Once → self.old.calls ≡ 0 → 0 < self.new.calls }
    {
        self.spend()?;
        let most = self.most.min(buffer.len());
        self.inner.read(&mut buffer[..most])
    }
}

impl<W: Write> Write for Fuse<W> {
    fn write(&mut self, text: &[u8]) -> io::Result<usize>
        ensures bound { WritesAtMost result text.now }
        ensures bytes { WriteAppends None None result text.now }
        ensures few { IfOk result (λ taken. taken ≤ self.old.most) }
        ensures blown { self.old.calls ≡ 0 → IfOk result (λ taken. taken ≡ 0) }
        ensures mends { self.old.blown ≡ Blown.Once → self.old.calls ≡ 0 → 0 < self.new.calls }
    {
        match (self.spend(), self.blown) {
            (Ok(()), _) => self.inner.write(&text[..self.most.min(text.len())]),
            (Err(_), Blown::Nothing) => Ok(0),
            (Err(error), _) => Err(error),
        }
    }

    fn flush(&mut self) -> io::Result<()>
        ensures bytes { Keeps None None }
        ensures blown { self.old.calls ≡ 0 → IsErr result }
        ensures mends { self.old.blown ≡ Blown.Once → self.old.calls ≡ 0 → 0 < self.new.calls }
    {
        self.spend()?;
        self.inner.flush()
    }
}
