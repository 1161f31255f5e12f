//! Sources and sinks in memory.

use crate::bytes::{Failed, Sink, Source};
use std::alloc::Global;
use std::io::Read;

/// Bytes in memory as a source, which may fail after some of them.
#[derive(Drop)]
pub struct MemorySource<'a> {
    rest: &'a [u8],
    before_failing: usize,
    ended: bool,
    has_failed: bool,
}

impl<'a> MemorySource<'a> {
    ghost use Rattle.std.specs.Prelude.{◌≡◌, false};

    /// These bytes, all of which are given, which is tested.
    pub fn new(bytes: &'a [u8]) -> MemorySource<'a>
        ensures rest { result.rest ≡ bytes.entry }
        ensures fails { result.before_failing ≡ 18446744073709551615 }
        ensures ended { result.ended ≡ false }
        ensures failed { result.has_failed ≡ false }
    {
        MemorySource::failing(bytes, usize::MAX)
    }

    /// These bytes; after this many of them each read fails, which is tested.
    pub fn failing(bytes: &'a [u8], before_failing: usize) -> MemorySource<'a>
        ensures rest { result.rest ≡ bytes.entry }
        ensures fails { result.before_failing ≡ before_failing }
        ensures ended { result.ended ≡ false }
        ensures failed { result.has_failed ≡ false }
    {
        MemorySource {
            rest: bytes,
            before_failing,
            ended: false,
            has_failed: false,
        }
    }
}

impl Source for MemorySource<'_> {
    ghost use Rattle.std.specs.Prelude.{Some};

    ghost left = { λ s. Some s.rest.now };

    ghost is_ended = { λ s. s.ended };

    ghost read_failed = { λ s. s.has_failed };

    fn pull(&mut self, buf: &mut [u8]) -> Result<usize, Failed> {
        if self.before_failing == 0 {
            self.has_failed = true;
            return Err(Failed);
        }
        let room = buf.len().min(self.before_failing);
        match self.rest.read(&mut buf[..room]) {
            Ok(n) => {
                self.before_failing -= n;
                self.ended = n == 0 && room > 0;
                Ok(n)
            }
            Err(_) => {
                self.has_failed = true;
                Err(Failed)
            }
        }
    }
}

/// Bytes in memory as a sink, which may fail after some of them, and fails where there is no memory.
#[derive(Drop)]
pub struct MemorySink {
    written: Vec<u8>,
    before_failing: usize,
    has_failed: bool,
}

impl MemorySink {
    ghost use Rattle.std.specs.Prelude.{◌≡◌, [], false};

    /// Nothing yet; all bytes are taken, while there is memory, which is tested.
    pub fn new(alloc: Global) -> MemorySink
        ensures written { result.written.items ≡ [] }
        ensures failed { result.has_failed ≡ false }
        ensures fails { result.before_failing ≡ 18446744073709551615 }
    {
        MemorySink::failing(alloc, usize::MAX)
    }

    /// Nothing yet; after this many bytes each write fails, which is tested.
    pub fn failing(alloc: Global, before_failing: usize) -> MemorySink
        ensures written { result.written.items ≡ [] }
        ensures failed { result.has_failed ≡ false }
        ensures fails { result.before_failing ≡ before_failing }
    {
        MemorySink {
            written: Vec::new(alloc),
            before_failing,
            has_failed: false,
        }
    }

    /// The bytes that were written.
    pub fn written_bytes(&self) -> &[u8]
        ensures { result.now ≡ self.now.written.items }
    {
        &self.written
    }

    /// The bytes that were written, as a list of their own.
    pub fn into_written(self) -> Vec<u8>
        ensures { result ≡ self.written }
    {
        let MemorySink { written, .. } = self;
        written
    }
}

impl Sink for MemorySink {
    ghost use Rattle.std.specs.Prelude.{Some};

    ghost written = { λ s. Some s.written.items };

    ghost write_failed = { λ s. s.has_failed };

    fn push(&mut self, text: &[u8]) -> Result<usize, Failed> {
        let n = text.len().min(self.before_failing);
        if n < text.len().min(1) || self.written.extend_from_slice(&text[..n]).is_err() {
            self.has_failed = true;
            return Err(Failed);
        }
        self.before_failing -= n;
        Ok(n)
    }
}
