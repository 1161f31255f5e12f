//! Texts as one.

ghost use Rattle.std.specs.Prelude.{◌≡◌, ◌<◌, IfErr, IfOk, [], length, map, slice_index_or};
ghost use Rattle.ledger.specs.Real.{HasCodes};
ghost use Rattle.ledger.specs.Merges.{IsFileAdded, IsFileError, IsMerge, IsMergingError, IsTextAdded};
ghost use Rattle.ledger.specs.Merges.{IsLedgerTextError, IsLocated};

use crate::ledger::Ledger;
use crate::merge_error::{MergeError, MergeRefusal, TextError};
use crate::text::read;
use crate::text_kind::Kind;
use common::OutOfMemory;
use std::alloc::Global;
use texts::Cursor;

/// The counts of several texts of one kind.
#[derive(Drop)]
pub struct Merged {
    /// Whose counts the texts have.
    pub kind: Kind,
    /// The ledger of all codes.
    pub ledger: Ledger,
}

/// Adds the counts of the text that stands next.
fn add_text(
    alloc: Global,
    kind: Kind,
    sum: &mut Ledger,
    rest: &mut Cursor<'_>,
) -> Result<(), TextError>
    requires { HasCodes sum.old }
    ensures ok { IfOk result (λ _. IsTextAdded kind sum.old sum.new rest.old rest.new) }
    ensures err { IfErr result (IsLedgerTextError kind sum.old rest.old) }
{
    let left = rest.bytes_left();
    let ledger = match read(rest, alloc, kind) {
        Ok(ledger) => ledger,
        Err(fault) => return Err(fault),
    };
    if !sum.can_add(&ledger) {
        return Err(TextError::Refused {
            refusal: MergeRefusal::TooMany,
            left,
        });
    }
    sum.add(&ledger);
    Ok(())
}

/// Adds the counts of the texts of a file.
fn add_file(alloc: Global, kind: Kind, sum: &mut Ledger, bytes: &[u8]) -> Result<(), TextError>
    requires { HasCodes sum.old }
    ensures ok { IfOk result (λ _. IsFileAdded kind sum.old sum.new bytes.now) }
    ensures err { IfErr result (IsFileError kind sum.old bytes.now) }
{
    if bytes.is_empty() {
        return Err(TextError::Refused {
            refusal: MergeRefusal::NoLine,
            left: 0,
        });
    }
    let mut rest = Cursor::new(bytes);
    'texts: while rest.bytes_left() > 0 {
        if let Err(fault) = add_text(alloc, kind, sum, &mut rest) {
            return Err(fault);
        }
    }
    Ok(())
}

/// The line of a text, from 1, from which on this many bytes are left.
pub(crate) fn line_at(text: &[u8], left: usize) -> usize {
    let before = text.len().saturating_sub(left);
    let ends = text.iter().take(before).filter(|byte| **byte == b'\n');
    ends.count().wrapping_add(1)
}

/// A fault of a file, with its number and its line.
pub(crate) fn error_of_file(fault: TextError, file: usize, text: &[u8]) -> MergeError
    ensures { IsLocated fault file result }
{
    match fault {
        TextError::Refused { refusal, left } => MergeError::Refused {
            refusal,
            file,
            line: line_at(text, left),
        },
        TextError::OutOfMemory => MergeError::OutOfMemory,
    }
}

/// One of several texts; none past the last.
fn text_at<'a>(texts: &[&'a [u8]], place: usize) -> &'a [u8]
    ensures { result.now ≡ slice_index_or (map (λ t. t.now) texts.now) place [] }
{
    match texts.get(place) {
        Some(text) => *text,
        None => &[],
    }
}

/// The counts of all these texts, of which each is one or more and all are of one kind; or the first refusal, in the
/// order in which they are read.
pub(crate) fn merge_texts(alloc: Global, files: &[&[u8]]) -> Result<Merged, MergeError>
    requires { 0 < length files.now }
    ensures ok { IfOk result (IsMerge (map (λ v. v.now) files.now)) }
    ensures err { IfErr result (IsMergingError (map (λ v. v.now) files.now)) }
{
    let kind = Kind::of(text_at(files, 0));
    let mut sum = Ledger::count(alloc, &[])?;
    for i in 0..files.len() {
        let bytes = text_at(files, i);
        if let Err(fault) = add_file(alloc, kind, &mut sum, bytes) {
            return Err(error_of_file(fault, i, bytes));
        }
    }
    Ok(Merged { kind, ledger: sum })
}

/// All bytes of each file.
fn slices<'a>(alloc: Global, files: &'a [Vec<u8>]) -> Result<Vec<&'a [u8]>, OutOfMemory>
    ensures { IfOk result (λ v. map (λ t. t.now) v.items ≡ map (λ v. v.items) files.now) }
{
    let mut slices = Vec::new(alloc);
    for file in files {
        slices.push(file.as_slice())?;
    }
    Ok(slices)
}

/// The counts of all texts of these files, of which each has one or more and all are of one kind; or the first refusal,
/// in the order in which they are read.
pub fn merge(alloc: Global, files: &[Vec<u8>]) -> Result<Merged, MergeError>
    requires { 0 < length files.now }
    ensures ok { IfOk result (IsMerge (map (λ v. v.items) files.now)) }
    ensures err { IfErr result (IsMergingError (map (λ v. v.items) files.now)) }
{
    let texts = slices(alloc, files)?;
    merge_texts(alloc, &texts)
}
