//! Blocks of bytes that a source gives.

ghost use Rattle.std.specs.Prelude.{◌≡◌, ◌≢◌, ◌<◌, ◌≤◌, true, IfErr, IfOk, OnOk, drop, length, take, false};
ghost use Rattle.std.specs.Io.KnownBytes.{IsAtEnd};
ghost use Rattle.devices.specs.Bytes.{FailsBy, Gathers};
ghost use Rattle.surveys.specs.Lines.{IsWhole};
ghost use Rattle.surveys.specs.Surveys.{IsLong, is_read_failure, is_write_failure};

use crate::error::SurveyError;
use devices::{Source, read_more};
use memchr::memrchr;

/// How many bytes are asked for at once.
pub(crate) const CHUNK: usize = 65_536;

/// How many bytes a block is filled up to at most; one that has as many or more takes a chunk.
pub(crate) const BLOCK: usize = 4_194_304;

/// How many bytes a block is filled up to at least, unless it takes what there is.
const LEAST: usize = 2 * CHUNK;

/// Until when a block is filled.
#[derive(Clone, Copy, Drop, PartialEq, Eq)]
pub(crate) enum FillUntil {
    /// Until it has twice what it had.
    Doubled,
    /// Until it has that, or a read gives less than a chunk: so it takes what there is.
    ShortRead,
}

/// Fills up a block until it has what is wanted; false where the source has ended.
pub(crate) fn fill<R: Source>(
    source: &mut R,
    chunk: &mut [u8],
    block: &mut Vec<u8>,
    until: FillUntil,
) -> Result<bool, SurveyError>
    requires room { 0 < length chunk.old }
    ensures kept { length chunk.new ≡ length chunk.old }
    ensures gathered { OnOk result (Gathers (R.left source.old) (R.left source.new)
        block.old.items block.new.items) }
    ensures more { IfOk result (λ more. more ≡ true → length block.old.items < length block.new.items) }
    ensures met { IfOk result (λ more. more ≢ true → R.is_ended source.new ≡ true) }
    ensures all { IfOk result (λ more. more ≢ true → IsAtEnd (R.left source.new)) }
    ensures count { FailsBy is_read_failure (R.read_failed source.old) (R.read_failed source.new) result }
    ensures short { IfErr result (λ e. IsLong e 0) }
    ensures writes { IfErr result (λ e. is_write_failure e ≡ false) }
{
    let size = block.len().saturating_mul(2).max(LEAST).min(BLOCK);
    let first = read_more(source, chunk, block)?;
    if first == 0 {
        return Ok(false);
    }
    let mut is_full = first == chunk.len();
    'chunks: while block.len() < size && (is_full || until == FillUntil::Doubled) {
        let next = read_more(source, chunk, block)?;
        if next == 0 {
            return Ok(false);
        }
        is_full = next == chunk.len();
    }
    Ok(true)
}

/// The place after the last end of a line that comes after this many bytes, 0 where there is none.
pub(crate) fn last_end(block: &[u8], seen: usize) -> usize
    ensures within { result ≤ length block.now }
    ensures whole { IsWhole (take result block.now) }
{
    let from = seen.min(block.len());
    match memrchr(b'\n', &block[from..]) {
        Some(end) => from + end + 1,
        None => 0,
    }
}

/// Takes bytes away from the front of a block, which keeps its room.
pub(crate) fn keep_rest(block: &mut Vec<u8>, end: usize)
    requires { end ≤ length block.old.items }
    ensures { block.new.items ≡ drop end block.old.items }
{
    if end == 0 {
        return;
    }
    let kept = block.len() - end;
    block.copy_within(end.., 0);
    block.truncate(kept);
}
