//! The verdict on a recording.

ghost use Rattle.std.specs.Prelude.{IfOk};
ghost use Rattle.tsotest_library.specs.Judged.{IsJudgedOf};

use common::OutOfMemory;
use std::alloc::Global;
use text_judge::answer_alone;
use verdicts::Answer;
use verification::every_verdict_holds;

/// The text of the verdict on the recording that the bytes are, which holds of it, or the line of their refusal. Fails
/// only if out of memory.
pub(crate) fn judged_answer(alloc: Global, bytes: &[u8]) -> Result<Answer, OutOfMemory>
    ensures { IfOk result (IsJudgedOf bytes.now) }
{
    every_verdict_holds();
    answer_alone(alloc, bytes)
}
