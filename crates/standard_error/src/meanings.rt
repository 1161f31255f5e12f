//! What printed refusals mean, for a person.

use refusals::{Refusal, refusal_named};
use std::alloc::{AllocError, Global};

/// What a refusal means for a person, with its number and what it counts, where it has one, and the line of the input
/// that is refused, where one is.
fn explained_refusal(
    alloc: Global,
    refusal: &Refusal<&str>,
    counted: &str,
    line: Option<&str>,
) -> Result<String, AllocError> {
    let Refusal { name, advice, .. } = *refusal;
    let said = match refusal.counts {
        Some(_) => format!(in alloc; "{counted} {}", refusal.said)?,
        None => String::from_str(alloc, refusal.said)?,
    };
    match line {
        Some(line) => format!(in alloc; "tsotest: {name}: {said}: {line} ({advice})"),
        None => format!(in alloc; "tsotest: {name}: {said} ({advice})"),
    }
}

/// What a printed text means for a person, where it is the line of a refusal; with the line of the input that is
/// refused, where one is. Fails only if out of memory.
pub fn meaning_of(
    alloc: Global,
    printed: &str,
    line: Option<&str>,
) -> Result<Option<String>, AllocError> {
    let words = match printed.strip_suffix('\n') {
        Some(words) => words,
        None => printed,
    };
    let Some(words) = words.strip_prefix("refused: ") else {
        return Ok(None);
    };
    let (name, counted) = match words.split_once(' ') {
        Some(pieces) => pieces,
        None => (words, ""),
    };
    match refusal_named(name) {
        Some(refusal) => Ok(Some(explained_refusal(alloc, &refusal, counted, line)?)),
        None => Ok(None),
    }
}
