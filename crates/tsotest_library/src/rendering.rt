//! Renderings of a recording, by the text of its program.

ghost use Rattle.std.specs.Prelude.{IfOk};
ghost use Rattle.recording.specs.Recording.{IsShortRecording};
ghost use Rattle.tsotest_library.specs.Rendered.{IsLongRenderedOf, IsOwnOrRefused, IsRenderedByText, IsRenderedOf};

use answers::{Rendering, long_rendered_answer, rendered_answer};
use common::OutOfMemory;
use event_texts::Labels;
use litmus::{LitmusError, line_refusal_name, parse, refusal_line};
use program::Program;
use program_events::is_program_of;
use recording::{Recording, RecordingSize};
use refusals::{N9, line_of_name};
use std::alloc::Global;
use text_judge::{read_or_refuse, read_or_refuse_of};
use verdicts::{Answer, Outcome};

/// The program of a text, of which the recording is one, or what is answered since it is refused. Fails only if out of
/// memory.
fn own_program(
    alloc: Global,
    recording: &Recording,
    text: &[u8],
) -> Result<Result<Program, Answer>, OutOfMemory>
    ensures { IfOk result (IsOwnOrRefused recording.now text.now) }
{
    match parse(alloc, text) {
        Ok(program) => {
            if is_program_of(&program, recording) {
                return Ok(Ok(program));
            }
            let line = line_of_name(alloc, N9.name)?;
            Ok(Err(Answer {
                outcome: Outcome::Refused,
                text: line.into_bytes(),
            }))
        }
        Err(LitmusError::AtLine(refusal, line)) => {
            let text = refusal_line(alloc, line_refusal_name(refusal), line)?;
            Ok(Err(Answer {
                outcome: Outcome::Refused,
                text: text.into_bytes(),
            }))
        }
        Err(LitmusError::OutOfMemory) => Err(OutOfMemory),
    }
}

/// The rendering of a recording by the text of its program, where that has a byte. Fails only if out of memory.
fn rendered_by(
    alloc: Global,
    rendering: Rendering,
    recording: &Recording,
    text: &[u8],
) -> Result<Answer, OutOfMemory>
    requires { IsShortRecording recording.now }
    ensures { IfOk result (IsRenderedByText rendering recording.now text.now) }
{
    if text.is_empty() {
        return rendered_answer(alloc, rendering, recording, None, Labels::none(alloc));
    }
    match own_program(alloc, recording, text)? {
        Ok(program) => rendered_answer(
            alloc,
            rendering,
            recording,
            Some(&program),
            Labels::none(alloc),
        ),
        Err(refused) => Ok(refused),
    }
}

/// The rendering of the recording that the bytes are, by the text of its program, where that has a byte, or the line
/// that refuses the one or the other. Fails only if out of memory.
pub(crate) fn rendered_answer_of(
    alloc: Global,
    rendering: Rendering,
    bytes: &[u8],
    text: &[u8],
) -> Result<Answer, OutOfMemory>
    ensures { IfOk result (IsRenderedOf rendering bytes.now text.now) }
{
    match read_or_refuse(alloc, bytes)? {
        Ok(recording) => rendered_by(alloc, rendering, &recording, text),
        Err(refused) => Ok(refused),
    }
}

/// The rendering of the recording of any length that the bytes are, or the line that refuses them. Fails only if out of
/// memory.
pub(crate) fn long_rendered_answer_of(
    alloc: Global,
    rendering: Rendering,
    bytes: &[u8],
) -> Result<Answer, OutOfMemory>
    ensures { IfOk result (IsLongRenderedOf rendering bytes.now) }
{
    match read_or_refuse_of(alloc, bytes, RecordingSize::Long)? {
        Ok(recording) => long_rendered_answer(alloc, rendering, &recording, Labels::none(alloc)),
        Err(refused) => Ok(refused),
    }
}
