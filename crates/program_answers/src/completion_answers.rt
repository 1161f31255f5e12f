//! What is answered of the values of a run.

ghost use Rattle.std.specs.Prelude.{◌≡◌, ◌⊎◌, ◌++◌, [], IfOk, List, OnOk, ℕ};
ghost use Rattle.values.specs.Values.{AreAllowed};
ghost use Rattle.completion.specs.Circle.{IsCircle};
ghost use Rattle.program_answers.specs.Completion.{IsCompletionAnswer, IsImpossible, MayShowPart};

use crate::circles::put_circle;
use crate::outcome_answers::unfinished_answer;
use crate::parts::put_part;
use common::OutOfMemory;
use completion::{Answer as Completion, Link, complete, only_recording, part_of};
use recorder::write_recording;
use std::alloc::Global;
use texts::put_text;
use values::Values;
use verdicts::{Answer, Outcome};

/// Adds a part of values of which each event is needed, if one is found, with its recording, if it has one alone.
fn put_needed(
    out: &mut Vec<u8>,
    alloc: Global,
    values: &Values,
    states: usize,
) -> Result<(), OutOfMemory>
    ensures { OnOk result ((shown : List ℕ) × MayShowPart values.now states shown
        × (out.new.items ≡ out.old.items ++ shown)) }
{
    let Some(part) = part_of(alloc, values, states)? else {
        return Ok(());
    };
    let recording = only_recording(alloc, &part.values)?;
    put_part(alloc, out, &part, &recording)?;
    Ok(())
}

/// The line `impossible`, the lines of a circle, and a part of the values.
fn impossible_answer(
    alloc: Global,
    values: &Values,
    circle: &[Link],
    states: usize,
) -> Result<Answer, OutOfMemory>
    requires refuted { ¬ AreAllowed values.now }
    requires circle { (circle.now ≡ []) ⊎ IsCircle values.now circle.now }
    ensures { IfOk result (IsImpossible values.now states) }
{
    let mut text = Vec::new(alloc);
    put_text(&mut text, b"impossible\n")?;
    put_circle(&mut text, circle)?;
    put_needed(&mut text, alloc, values, states)?;
    Ok(Answer {
        outcome: Outcome::Violation,
        text,
    })
}

/// The text of a recording that completes the values, and which TSO allows; `impossible` where there is none, with a
/// circle of events where rules show it, and a part of which each event is needed; or `unfinished` where moves lead to
/// more states than this. Fails only if out of memory.
pub fn completion_answer(
    alloc: Global,
    values: &Values,
    states: usize,
) -> Result<Answer, OutOfMemory>
    ensures { IfOk result (IsCompletionAnswer values.now states) }
{
    match complete(alloc, values, states)? {
        Completion::Completed(recording, _order) => {
            let text = write_recording(alloc, &recording)?;
            Ok(Answer {
                outcome: Outcome::Ordered,
                text,
            })
        }
        Completion::Impossible(None) => impossible_answer(alloc, values, &[], states),
        Completion::Impossible(Some(circle)) => {
            impossible_answer(alloc, values, circle.as_slice(), states)
        }
        Completion::Unfinished => unfinished_answer(alloc),
    }
}
