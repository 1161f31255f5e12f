//! How many recordings come out.

ghost use Rattle.std.specs.Prelude.{IfOk};
ghost use Rattle.tsotest_library.specs.Given.{IsOutcomeOf};

use answers::{CountsPlace, survey_answer};
use common::OutOfMemory;
use ledger::Ledger;
use std::alloc::Global;
use verdicts::Outcome;

/// How recordings with these codes come out, as `survey` does. Fails only if out of memory.
pub(crate) fn outcome_of(alloc: Global, codes: &[u64]) -> Result<Outcome, OutOfMemory>
    ensures { IfOk result (IsOutcomeOf codes.now) }
{
    let ledger = Ledger::count(alloc, codes)?;
    let answer = survey_answer(alloc, &ledger, CountsPlace::Alone)?;
    Ok(answer.outcome)
}
