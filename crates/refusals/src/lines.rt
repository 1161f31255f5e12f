//! The lines that are printed of refusals.
ghost use Rattle.std.specs.Prelude.{◌≡◌, IfOk, string_bytes};
ghost use Rattle.refusals.specs.Lines.{numbered_line, refusal_line, refused, refused_at};
ghost use Rattle.refusals.specs.Table.{texts_of};

use crate::refusal::Refusal;
use std::alloc::{AllocError, Global};

/// The line that is printed for a refusal of this name without a number. Fails only if out of memory.
pub fn line_of_name(alloc: Global, name: &str) -> Result<String, AllocError>
    ensures { IfOk result (λ text. string_bytes text ≡ refused name.now) }
{
    format!(in alloc; "refused: {name}\n")
}

/// The line of a refusal of this name whose number counts this.
fn numbered_line(
    alloc: Global,
    name: &str,
    counts: &str,
    number: usize,
) -> Result<String, AllocError>
    ensures { IfOk result (λ text. string_bytes text ≡ numbered_line name.now counts.now number) }
{
    format!(in alloc; "refused: {name} {counts} {number}\n")
}

/// The line that is printed for a refusal with this number, where its line has one. Fails only if out of memory.
pub fn refused_at(
    alloc: Global,
    refusal: &Refusal<&str>,
    number: usize,
) -> Result<String, AllocError>
    ensures { IfOk result (λ text. string_bytes text ≡ refused_at (texts_of refusal.now) number) }
{
    match refusal.counts {
        Some(counts) => numbered_line(alloc, refusal.name, counts, number),
        None => line_of_name(alloc, refusal.name),
    }
}

/// The line that is printed for a line of a text, counted from 1. Fails only if out of memory.
pub fn refusal_line(alloc: Global, name: &str, line: usize) -> Result<String, AllocError>
    ensures { IfOk result (λ text. string_bytes text ≡ refusal_line name.now line) }
{
    format!(in alloc; "refused: {name} line {line}\n")
}
