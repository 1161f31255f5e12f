//! The outcomes of a program, by its text.

ghost use Rattle.std.specs.Prelude.{IfOk};
ghost use Rattle.tsotest_library.specs.Listed.{IsListedOf};

use crate::states::states_refusal;
use common::OutOfMemory;
use litmus::{LitmusError, line_refusal_name, parse, refusal_line};
use program_answers::outcomes_answer;
use std::alloc::Global;
use verdicts::{Answer, Outcome};

/// The outcomes of the program of a text, or the line that refuses the number of states or the text. Fails only if out
/// of memory.
pub(crate) fn listed_answer(
    alloc: Global,
    text: &[u8],
    states: usize,
) -> Result<Answer, OutOfMemory>
    ensures { IfOk result (IsListedOf text.now states) }
{
    if let Some(refused) = states_refusal(alloc, states)? {
        return Ok(refused);
    }
    match parse(alloc, text) {
        Ok(program) => outcomes_answer(alloc, &program, states),
        Err(LitmusError::AtLine(fault, line)) => {
            let text = refusal_line(alloc, line_refusal_name(fault), line)?;
            Ok(Answer {
                outcome: Outcome::Refused,
                text: text.into_bytes(),
            })
        }
        Err(LitmusError::OutOfMemory) => Err(OutOfMemory),
    }
}
