//! What is answered to recordings of any length.

ghost use Rattle.std.specs.Prelude.{◌↔◌, IfOk, IsTrue};
ghost use Rattle.recording.specs.FirstUse.{IsNumberedByFirstUse};
ghost use Rattle.recording.specs.Recording.{IsShortRecording};
ghost use Rattle.long.specs.Answer.{IsLongAnswer};
ghost use Rattle.answers.specs.LongReduced.{IsLongReducedAnswer, IsPartAnswer};

use crate::reduced::{append_verdict, heading_of};
use common::{MAX_ADDRESSES, MAX_CORES, MAX_EVENTS, OutOfMemory};
use event_texts::Labels;
use long::{LongAnswer, judge_long, long_text};
use program_events::named_program;
use recorder::write_recording;
use recording::Recording;
use reduction::reduce_long;
use std::alloc::Global;
use verdicts::Answer;

/// What is answered to a recording of any length.
pub(crate) fn long_answer_to(
    alloc: Global,
    recording: &Recording,
) -> Result<LongAnswer, OutOfMemory>
    ensures { IfOk result (IsLongAnswer recording.now) }
{
    let judged = judge_long(alloc, recording)?;
    Ok(judged.answer)
}

/// Whether a recording is no larger than a program.
fn is_short(recording: &Recording) -> bool
    ensures { IsTrue result ↔ IsShortRecording recording.now }
{
    recording.sound();
    recording.cores().len() <= MAX_CORES
        && recording.len() <= MAX_EVENTS
        && recording.addresses() <= MAX_ADDRESSES
}

/// A part of a recording after a text: where it is no larger than a program, that program, an empty line, and the part
/// with the verdict on it, else the part with what is answered to it.
fn append_part(alloc: Global, mut text: Vec<u8>, part: &Recording) -> Result<Answer, OutOfMemory>
    requires { IsNumberedByFirstUse part.now }
    ensures { IfOk result (IsPartAnswer part.now text.items) }
{
    if is_short(part) {
        let program = named_program(alloc, part)?;
        return append_verdict(alloc, text, &program, part);
    }
    let line = write_recording(alloc, part)?;
    text.extend_from_slice(&line)?;
    let judged = judge_long(alloc, part)?;
    let said = long_text(alloc, &judged)?;
    text.extend_from_slice(&said.text)?;
    Ok(Answer {
        outcome: said.outcome,
        text,
    })
}

/// What is left of a violation in a recording of any length: the line of the numbers of the events that it needs, their
/// labels, an empty line, and the recording of these events, with its program before it where one is large enough, and
/// with the verdict on it; a `Violation`. Of a recording that TSO allows, its first memory order. Fails only if out of
/// memory.
pub(crate) fn long_reduced_answer(
    alloc: Global,
    recording: &Recording,
    labels: &Labels,
) -> Result<Answer, OutOfMemory>
    ensures { IfOk result (IsLongReducedAnswer recording.now labels.now) }
{
    let judged = judge_long(alloc, recording)?;
    match reduce_long(alloc, recording, &judged.answer)? {
        Some(reduced) => {
            reduced.recording.sound();
            let text = heading_of(alloc, &reduced.events, Some(labels))?;
            let answer = append_part(alloc, text, &reduced.recording)?;
            Ok(answer)
        }
        None => long_text(alloc, &judged),
    }
}
