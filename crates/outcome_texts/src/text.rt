//! The text of all outcomes.

ghost use Rattle.std.specs.Prelude.{◌≡◌, ◌++◌, IfOk, OnOk};
ghost use Rattle.outcome_texts.specs.OutcomeText.{outcome_text, outcomes_text};

use crate::line::items_of;
use common::OutOfMemory;
use outcomes::Outcome;
use program::Program;
use std::alloc::Global;
use texts::{put_text, put_text_and_number};

/// Adds the line of an outcome.
pub(crate) fn put_outcome(
    out: &mut Vec<u8>,
    alloc: Global,
    program: &Program,
    outcome: &Outcome,
) -> Result<(), OutOfMemory>
    ensures { OnOk result (out.new.items ≡ out.old.items ++ outcome_text program.now outcome.now) }
{
    let items = items_of(alloc, program, outcome)?;
    put_text(out, &items)?;
    out.push(b'\n')?;
    Ok(())
}

/// How many outcomes of a program there are, and a line for each. Fails only if out of memory.
pub fn outcomes_text(
    alloc: Global,
    program: &Program,
    outcomes: &[Outcome],
) -> Result<Vec<u8>, OutOfMemory>
    ensures { IfOk result (λ text. text.items ≡ outcomes_text program.now outcomes.now) }
{
    let mut out = Vec::new(alloc);
    put_text_and_number(&mut out, b"outcomes: ", outcomes.len())?;
    out.push(b'\n')?;
    for outcome in outcomes {
        put_outcome(&mut out, alloc, program, outcome)?;
    }
    Ok(out)
}
