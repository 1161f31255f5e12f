//! The check of a verdict from anywhere.

ghost use Rattle.std.specs.Prelude.{IfOk};
ghost use Rattle.tsotest_library.specs.Checked.{IsCheckOf};

use common::OutOfMemory;
use std::alloc::Global;
use text_judge::read_or_refuse;
use verdicts::Answer;
use verification::check_answer_alone;

/// Whether a text is that of a verdict that holds of the recording that the bytes are, as an answer, or the line of
/// their refusal. Fails only if out of memory.
pub(crate) fn check_answer(alloc: Global, bytes: &[u8], text: &[u8]) -> Result<Answer, OutOfMemory>
    ensures { IfOk result (IsCheckOf bytes.now text.now) }
{
    match read_or_refuse(alloc, bytes)? {
        Ok(recording) => check_answer_alone(alloc, &recording, text),
        Err(refused) => Ok(refused),
    }
}
