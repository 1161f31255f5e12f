//! The answer to a text that is checked.

ghost use Rattle.std.specs.Prelude.{◌≤◌, IfOk};
ghost use Rattle.common.specs.declared.limits.TheConstants.{MAX_EVENTS};
ghost use Rattle.recording.specs.Execution.{event_count};
ghost use Rattle.verification.specs.Checked.{AnswersCheck, AnswersLine, IsCheckAnswer};
ghost use Rattle.verification.specs.Faults.{LinesHold, LongLinesHold, longest_cycle};
ghost use Rattle.verification.specs.Proof.{IsLongProof, IsProof};

use crate::text::{check_text, check_text_alone};
use crate::text_check::TextCheck;
use crate::unlabelled::check_long_text;
use common::OutOfMemory;
use recording::Recording;
use std::alloc::{AllocError, Global};
use std::thread::Threads;
use verdicts::{Answer, Outcome};

/// The answer to a text: that it holds, or that it does not, with the line at fault where there is one.
fn text_check_answer(alloc: Global, check: TextCheck) -> Result<Answer, AllocError>
    ensures { IfOk result (AnswersCheck check) }
{
    match check {
        TextCheck::Holds => Answer::of(alloc, Outcome::Done, "holds\n"),
        TextCheck::FailsAt(line) => {
            let text = format!(in alloc; "does not hold: line {line}\n")?;
            Ok(Answer {
                outcome: Outcome::Violation,
                text: text.into_bytes(),
            })
        }
        TextCheck::EndsEarly => Answer::of(alloc, Outcome::Violation, "does not hold\n"),
    }
}

/// The answer of `verify` to a text, of a recording: what `check_text` finds. Fails only if out of memory.
pub fn check_answer<R: Threads + Sync>(
    rt: &R,
    alloc: Global,
    recording: &Recording,
    text: &[u8],
    workers: usize,
) -> Result<Answer, OutOfMemory>
    requires few { event_count recording.now ≤ MAX_EVENTS }
    ensures proof { IfOk result (IsCheckAnswer (IsProof recording.now text.now)) }
    ensures line { IfOk result (AnswersLine (LinesHold recording.now) text.now) }
{
    let check = check_text(rt, alloc, recording, text, workers)?;
    Ok(text_check_answer(alloc, check)?)
}

/// What `check_answer` answers, without threads: it does not block. Fails only if out of memory.
pub fn check_answer_alone(
    alloc: Global,
    recording: &Recording,
    text: &[u8],
) -> Result<Answer, OutOfMemory>
    requires few { event_count recording.now ≤ MAX_EVENTS }
    ensures proof { IfOk result (IsCheckAnswer (IsProof recording.now text.now)) }
    ensures line { IfOk result (AnswersLine (LinesHold recording.now) text.now) }
{
    let check = check_text_alone(alloc, recording, text)?;
    Ok(text_check_answer(alloc, check)?)
}

/// The answer of `verify --long` to a text, of a recording: what `check_long_text` finds. Fails only if out of memory.
pub fn long_check_answer(
    alloc: Global,
    recording: &Recording,
    text: &[u8],
) -> Result<Answer, OutOfMemory>
    ensures proof { IfOk result (IsCheckAnswer (IsLongProof recording.now text.now)) }
    ensures line { IfOk result (AnswersLine (LongLinesHold recording.now (longest_cycle text.now)) text.now) }
{
    let check = check_long_text(alloc, recording, text)?;
    Ok(text_check_answer(alloc, check)?)
}
