//! Whole texts from sources and to sinks.

ghost use Rattle.std.specs.Prelude.{◌≡◌, ◌≢◌, ◌<◌, ◌+◌, ℕ, true, IfErr, IfOk, OnErr, OnOk, length, take};
ghost use Rattle.std.specs.Io.KnownBytes.{Appends, Consumes, IsAtEnd};
ghost use Rattle.devices.specs.Bytes.{Fails, FailsBy, Gathers, is_read_failure};

use crate::bytes::{Failed, Sink, Source};
use std::alloc::{AllocError, Global};

/// Why not all bytes of a source were read.
#[derive(Clone, Copy, PartialEq, Eq)]
pub enum ReadError {
    /// A read failed.
    ReadFailed,
    /// There was no memory.
    OutOfMemory,
}

impl From<AllocError> for ReadError {
    ghost use Rattle.std.specs.Prelude.{◌≡◌};
    ghost use Rattle.devices.specs.declared.whole.ReadError.TheVariants.{OutOfMemory};

    ghost from_gives = { λ _ e. e ≡ OutOfMemory };

    fn from(_refused: AllocError) -> ReadError {
        ReadError::OutOfMemory
    }
}

/// How many bytes are asked for at once.
const CHUNK: usize = 65_536;

/// Adds what a source gives next, as much as the chunk has room for at most, and answers how many bytes these are, none
/// at its end. Fails if a read does, or out of memory.
pub fn read_more<R: Source>(
    source: &mut R,
    chunk: &mut [u8],
    bytes: &mut Vec<u8>,
) -> Result<usize, ReadError>
    requires room { 0 < length chunk.old }
    ensures kept { length chunk.new ≡ length chunk.old }
    ensures gathered { OnOk result (Gathers (R.left source.old) (R.left source.new)
        bytes.old.items bytes.new.items) }
    ensures number { IfOk result (λ n. length bytes.new.items ≡ length bytes.old.items + n) }
    ensures met { IfOk result (λ n. n ≡ 0 → R.is_ended source.new ≡ true) }
    ensures all { IfOk result (λ n. n ≡ 0 → IsAtEnd (R.left source.new)) }
    ensures failed { FailsBy is_read_failure (R.read_failed source.old) (R.read_failed source.new) result }
{
    match source.pull(chunk) {
        Ok(n) => {
            bytes.extend_from_slice(&chunk[..n])?;
            Ok(n)
        }
        Err(Failed) => Err(ReadError::ReadFailed),
    }
}

/// All bytes that a source gives until its end. Fails if a read does, or out of memory.
pub fn read_all<R: Source>(alloc: Global, source: &mut R) -> Result<Vec<u8>, ReadError>
    ensures ok { IfOk result (λ bytes. Consumes (R.left source.old) (R.left source.new) bytes.items) }
    ensures met { OnOk result (R.is_ended source.new ≡ true) }
    ensures all { OnOk result (IsAtEnd (R.left source.new)) }
    ensures failed { FailsBy is_read_failure (R.read_failed source.old) (R.read_failed source.new) result }
{
    let mut bytes = Vec::new(alloc);
    let mut chunk = Vec::from_elem(alloc, 0u8, CHUNK)?;
    'chunks: while read_more(source, &mut chunk, &mut bytes)? > 0 {}
    Ok(bytes)
}

/// Writes all bytes of a text. Fails if a write does, after a beginning of the text.
pub fn write_all<W: Sink>(sink: &mut W, text: &[u8]) -> Result<(), Failed>
    ensures ok { OnOk result (Appends (W.written sink.old) (W.written sink.new) text.now) }
    ensures err { OnErr result
        ((n : ℕ) × Appends (W.written sink.old) (W.written sink.new) (take n text.now)) }
    ensures failed { Fails (W.write_failed sink.old) (W.write_failed sink.new) result }
{
    let mut at = 0;
    'parts: while at < text.len() {
        at += sink.push(&text[at..])?;
    }
    Ok(())
}
