//! Readers and writers as sources and sinks.

use crate::bytes::{Failed, Sink, Source};
use std::io::{Read, Write};

/// A reader as a source, or a writer as a sink, which tells the bytes that it tells. A call that was
/// interrupted has failed, and so has a write of no byte.
#[derive(Drop)]
pub struct Device<T> {
    inner: T,
    ended: bool,
    has_failed: bool,
}

impl<T> Device<T> {
    ghost use Rattle.std.specs.Prelude.{◌≡◌, false};

    /// A device that has not failed yet.
    pub fn new(inner: T) -> Device<T>
        ensures inner { result.inner ≡ inner }
        ensures ended { result.ended ≡ false }
        ensures failed { result.has_failed ≡ false }
    {
        Device {
            inner,
            ended: false,
            has_failed: false,
        }
    }

    /// Whether the end was met.
    pub fn is_ended(&self) -> bool
        ensures { result ≡ self.now.ended }
    {
        self.ended
    }

    /// Whether a call failed.
    pub fn has_failed(&self) -> bool
        ensures { result ≡ self.now.has_failed }
    {
        self.has_failed
    }

    /// The reader or writer.
    pub fn into_inner(self) -> T
        ensures { result ≡ self.inner }
    {
        let Device { inner, .. } = self;
        inner
    }
}

impl<T: Read> Source for Device<T> {
    ghost left = { λ d. T.remaining d.inner };

    ghost is_ended = { λ d. d.ended };

    ghost read_failed = { λ d. d.has_failed };

    fn pull(&mut self, buf: &mut [u8]) -> Result<usize, Failed> {
        match self.inner.read(buf) {
            Ok(n) => {
                self.ended = n == 0 && !buf.is_empty();
                Ok(n)
            }
            Err(_) => {
                self.has_failed = true;
                Err(Failed)
            }
        }
    }
}

impl<T: Write> Sink for Device<T> {
    ghost written = { λ d. T.contents d.inner };

    ghost write_failed = { λ d. d.has_failed };

    fn push(&mut self, text: &[u8]) -> Result<usize, Failed> {
        match self.inner.write(text) {
            Ok(n) if n > 0 || text.is_empty() => Ok(n),
            _ => {
                self.has_failed = true;
                Err(Failed)
            }
        }
    }

    fn flush(&mut self) -> Result<(), Failed> {
        match self.inner.flush() {
            Ok(()) => Ok(()),
            Err(_) => {
                self.has_failed = true;
                Err(Failed)
            }
        }
    }
}
