//! The limit of states.

ghost use Rattle.std.specs.Prelude.{IfOk, IfSome};
ghost use Rattle.tsotest_library.specs.Refused.{AreStatesRefused};

use common::OutOfMemory;
use program::is_outside;
use refusals::{K12, line_of_name};
use std::alloc::Global;
use verdicts::{Answer, Outcome};

/// The most states that are looked at.
const MAX_STATES: usize = 4_294_967_295;

/// What is answered to a number of states that is refused; none where it is not. Fails only if out of memory.
pub(crate) fn states_refusal(alloc: Global, states: usize) -> Result<Option<Answer>, OutOfMemory>
    ensures { IfOk result (λ refusal. IfSome refusal (AreStatesRefused states)) }
{
    if is_outside(MAX_STATES, states) {
        let line = line_of_name(alloc, K12.name)?;
        return Ok(Some(Answer {
            outcome: Outcome::Refused,
            text: line.into_bytes(),
        }));
    }
    Ok(None)
}
