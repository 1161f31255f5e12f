//! One line of a source.

ghost use Rattle.std.specs.Prelude.{◌≡◌, ◌<◌, true, IfErr, IfOk, IfSome, OnOk, length, option_map, false};
ghost use Rattle.std.specs.Io.KnownBytes.{IsAtEnd};
ghost use Rattle.devices.specs.Bytes.{FailsBy};
ghost use Rattle.surveys.specs.Shown.{IsLineOfRead, IsReadOn, IsSought, IsSoughtFirst};
ghost use Rattle.surveys.specs.Surveys.{IsLong, IsLongRead, is_read_failure, is_write_failure};

use crate::error::SurveyError;
use crate::filling::{CHUNK, FillUntil, fill, keep_rest, last_end};
use crate::lines::split_line;
use common::OutOfMemory;
use devices::Source;
use std::alloc::Global;

/// A line that is sought by its number.
#[derive(Drop)]
pub(crate) enum Sought {
    /// It is there.
    Found(Vec<u8>),
    /// It comes later, with this number there.
    Later(usize),
}

/// The line of this number among those of the bytes.
fn line_in(alloc: Global, bytes: &[u8], number: usize) -> Result<Sought, OutOfMemory>
    ensures { IfOk result (IsSought bytes.now number) }
{
    let mut rest = bytes;
    let mut left = number;
    'lines: while !rest.is_empty() {
        let (line, more) = split_line(rest);
        if !line.is_empty() {
            if left == 0 {
                return Ok(Sought::Found(Vec::from_slice(alloc, line)?));
            }
            left -= 1;
        }
        rest = more;
    }
    Ok(Sought::Later(left))
}

/// The line of this number among the whole lines of a block, of which this many bytes have no end of a line; leaves
/// what comes after them, and answers how many bytes they are.
fn line_in_whole(
    alloc: Global,
    block: &mut Vec<u8>,
    seen: usize,
    number: usize,
) -> Result<(Sought, usize), OutOfMemory>
    ensures { IfOk result (λ r. IsSoughtFirst block.old.items block.new.items number r.0 r.1) }
{
    let end = last_end(block, seen);
    let sought = line_in(alloc, &block[..end], number)?;
    keep_rest(block, end);
    Ok((sought, end))
}

/// Reads what a source still gives, by way of a block.
fn read_rest<R: Source>(
    source: &mut R,
    chunk: &mut [u8],
    block: &mut Vec<u8>,
) -> Result<(), SurveyError>
    requires room { 0 < length chunk.old }
    ensures read { OnOk result (IsReadOn (R.left source.old) (R.left source.new)) }
    ensures met { OnOk result (R.is_ended source.new ≡ true) }
    ensures all { OnOk result (IsAtEnd (R.left source.new)) }
    ensures long { IfErr result (λ e. IsLongRead e (R.left source.old) (R.left source.new)) }
    ensures reads { FailsBy is_read_failure (R.read_failed source.old) (R.read_failed source.new) result }
    ensures writes { IfErr result (λ e. is_write_failure e ≡ false) }
{
    let mut counted = 0usize;
    block.clear();
    'filled: while fill(source, chunk, block, FillUntil::ShortRead)? {
        let Some(total) = counted.checked_add(block.len()) else {
            return Err(SurveyError::TooLong);
        };
        counted = total;
        block.clear();
    }
    Ok(())
}

/// The line of this number of all that a source gives, which is read to its end.
fn line_from<R: Source>(
    alloc: Global,
    source: &mut R,
    chunk: &mut [u8],
    number: usize,
) -> Result<Option<Vec<u8>>, SurveyError>
    requires room { 0 < length chunk.old }
    ensures read { IfOk result (λ line. IsLineOfRead (R.left source.old) (R.left source.new) number
        (option_map (λ v. v.items) line)) }
    ensures met { OnOk result (R.is_ended source.new ≡ true) }
    ensures all { OnOk result (IsAtEnd (R.left source.new)) }
    ensures long { IfErr result (λ e. IsLongRead e (R.left source.old) (R.left source.new)) }
    ensures reads { FailsBy is_read_failure (R.read_failed source.old) (R.read_failed source.new) result }
    ensures writes { IfErr result (λ e. is_write_failure e ≡ false) }
{
    let mut block = Vec::new(alloc);
    let mut left = number;
    let mut counted = 0usize;
    let mut seen = 0;
    'filled: while fill(source, chunk, &mut block, FillUntil::Doubled)? {
        let (sought, end) = line_in_whole(alloc, &mut block, seen, left)?;
        left = match sought {
            Sought::Found(line) => {
                read_rest(source, chunk, &mut block)?;
                return Ok(Some(line));
            }
            Sought::Later(later) => later,
        };
        let Some(total) = counted.checked_add(end) else {
            return Err(SurveyError::TooLong);
        };
        counted = total;
        seen = block.len();
    }
    match line_in(alloc, &block, left)? {
        Sought::Found(line) => Ok(Some(line)),
        Sought::Later(_) => Ok(None),
    }
}

/// The line of this number, from 0, of all that a source gives; none where there are fewer. Empty lines
/// count as none. The source is read to its end. `ReadFailed` exactly where a read failed. The memory is that of a
/// block, or of the longest line, whatever the length.
pub fn line_of<R: Source>(
    alloc: Global,
    source: &mut R,
    number: usize,
) -> Result<Option<Vec<u8>>, SurveyError>
    ensures read { IfOk result (λ line. IsLineOfRead (R.left source.old) (R.left source.new) number
        (option_map (λ v. v.items) line)) }
    ensures met { OnOk result (R.is_ended source.new ≡ true) }
    ensures all { OnOk result (IsAtEnd (R.left source.new)) }
    ensures long { IfErr result (λ e. IsLongRead e (R.left source.old) (R.left source.new)) }
    ensures long_known { IfErr result (λ e. IfSome (R.left source.old) (λ bytes. IsLong e (length bytes))) }
    ensures reads { FailsBy is_read_failure (R.read_failed source.old) (R.read_failed source.new) result }
    ensures writes { IfErr result (λ e. is_write_failure e ≡ false) }
{
    let Ok(mut chunk) = Vec::from_elem(alloc, 0u8, CHUNK) else {
        return Err(SurveyError::OutOfMemory);
    };
    line_from(alloc, source, &mut chunk, number)
}
