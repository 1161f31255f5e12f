//! Lines of inputs, quoted for a person.

use crate::causes::cause_of;
use std::alloc::{AllocError, Global};

/// The most bytes of an input's line that are quoted.
const LONGEST: usize = 64;

/// Why a line of a text, counted from 1, is none of a program, after the line as it is quoted.
pub(crate) fn quoted_with_cause(
    alloc: Global,
    text: &[u8],
    line: usize,
) -> Result<String, AllocError> {
    let ended = text.iter().filter(|byte| **byte == b'\n').count();
    let cause = cause_of(line_at(text, line), line <= ended);
    let quote = quote_line(alloc, text, line)?;
    format!(in alloc; "{quote}: {cause}")
}

/// A line of a text, counted from 1; the empty one where there is none.
fn line_at(text: &[u8], line: usize) -> &[u8] {
    let mut lines = text
        .split(|byte| *byte == b'\n')
        .skip(line.saturating_sub(1));
    lines.next().unwrap_or(b"")
}

/// A line of a text, counted from 1, between quotation marks, with escapes for what is not printed. Of a long
/// one it is the beginning.
pub fn quote_line(alloc: Global, text: &[u8], line: usize) -> Result<String, AllocError> {
    let whole = line_at(text, line);
    match whole.get(..LONGEST) {
        Some(beginning) if whole.len() > LONGEST => {
            format!(in alloc; "\"{}..\"", beginning.escape_ascii())
        }
        _ => format!(in alloc; "\"{}\"", whole.escape_ascii()),
    }
}
