//! How an outcome of a program comes about.
ghost use Rattle.std.specs.Prelude.{ℕ, List, IfOk};
ghost use Rattle.recording.specs.FirstUse.{IsNumberedByFirstUse};
ghost use Rattle.recording.specs.Recording.{IsShortRecording};
ghost use Rattle.recording.specs.Tso.{IsTsoOrder};
ghost use Rattle.commands.specs.Outcomes.{IsReplayedRecording, IsShowAnswer};

use crate::replay_command::replay_of;
use common::OutOfMemory;
use judge::judge_alone;
use outcomes::{Observation, Witness, first_recording};
use program::Program;
use program_answers::{Reply, met_answer, unfinished_answer};
use recorder::write_recording;
use recording::Recording;
use report::Answer;
use std::alloc::Global;

/// The replay of a recording that has a TSO order, and the recording, with an empty line between.
fn replayed_recording(alloc: Global, recording: &Recording) -> Result<Answer, OutOfMemory>
    requires short { IsShortRecording recording.now }
    requires numbered { IsNumberedByFirstUse recording.now }
    requires allowed { (m : List ℕ) × IsTsoOrder recording.now m }
    ensures { IfOk result (IsReplayedRecording recording.now) }
{
    let verdict = judge_alone(alloc, recording)?;
    let Answer { outcome, mut text } = replay_of(alloc, recording, &verdict)?;
    let line = write_recording(alloc, recording)?;
    text.push(b'\n')?;
    text.extend_from_slice(&line)?;
    Ok(Answer { outcome, text })
}

/// How the first outcome of a program comes about that has the values, `No` where TSO allows none, or `unfinished`
/// where there are more states than this. Fails only if out of memory.
pub(crate) fn show_answer(
    alloc: Global,
    program: &Program,
    states: usize,
    seen: &[Observation],
) -> Result<Answer, OutOfMemory>
    ensures { IfOk result (IsShowAnswer program.now states seen.now) }
{
    program.sound();
    match first_recording(alloc, program, seen, states)? {
        Witness::Found(recording) => {
            recording.sound();
            replayed_recording(alloc, &recording)
        }
        Witness::Forbidden => met_answer(alloc, Reply::No),
        Witness::Unfinished => unfinished_answer(alloc),
    }
}
