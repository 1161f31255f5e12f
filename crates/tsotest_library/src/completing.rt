//! What completes values, by their text.

ghost use Rattle.std.specs.Prelude.{IfOk};
ghost use Rattle.tsotest_library.specs.Completed.{IsCompletedOf};

use crate::states::states_refusal;
use common::OutOfMemory;
use program_answers::completion_answer;
use std::alloc::Global;
use values_text::read_values;
use verdicts::{Answer, Outcome, recording_line};

/// What the values of a text come to, or the line that refuses the number of states or the text. Fails only if out of
/// memory.
pub(crate) fn completed_answer(
    alloc: Global,
    text: &[u8],
    states: usize,
) -> Result<Answer, OutOfMemory>
    ensures { IfOk result (IsCompletedOf text.now states) }
{
    if let Some(refused) = states_refusal(alloc, states)? {
        return Ok(refused);
    }
    match read_values(alloc, text) {
        Ok(values) => completion_answer(alloc, &values, states),
        Err(refusal) => match recording_line(alloc, refusal)? {
            Some(line) => Ok(Answer {
                outcome: Outcome::Refused,
                text: line.into_bytes(),
            }),
            None => Err(OutOfMemory),
        },
    }
}
