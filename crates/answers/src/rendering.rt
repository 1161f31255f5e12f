//! Renderings of a recording: its verdict in words or as a picture, or what is left of it.

ghost use Rattle.std.specs.Prelude.{◌≡◌, IfOk, IfSome, option_map};
ghost use Rattle.recording.specs.Recording.{IsShortRecording};
ghost use Rattle.verdicts.specs.Judgement.{IsVerdict};
ghost use Rattle.verdicts.specs.Verified.{Verifies};
ghost use Rattle.long.specs.Answer.{IsLongAnswer, IsWitness};
ghost use Rattle.answers.specs.Rendered.{IsLongPicture, IsLongRenderedAnswer, IsPicture, IsRenderedAnswer};
ghost use Rattle.answers.specs.Rendered.{IsLongRendering, IsRendering, IsWholeDrawing, Tells, TellsLong};
ghost use Rattle.answers.specs.Rendered.{addresses_of, names_of, picture_form};
ghost use Rattle.program_events.specs.ProgramOf.{IsProgramOf};

use crate::long_answers::{long_answer_to, long_reduced_answer};
use crate::reduced::reduced_answer;
use common::{EventId, OutOfMemory};
use drawing::drawing_text;
use event_texts::{Labels, Names};
use explanation::explanation_text;
use judge::{Verdict, judge_alone};
use long::{LongAnswer, long_outcome, without_labels};
use program::{Name, Program};
use recording::Recording;
use reduction::{Reduced, reduce, reduce_long};
use std::alloc::Global;
use verdicts::{Answer, outcome_of};

/// How a verdict is told.
#[derive(Clone, Copy, PartialEq, Eq)]
pub enum Telling {
    /// In words, as `explanation_text` has it.
    Words,
    /// As a directed graph, as `drawing_text` has it: of an overlook or a cycle the events alone that it needs, as
    /// `reduce` keeps them.
    Picture,
    /// The same of all events.
    WholePicture,
}

/// How a recording is rendered.
#[derive(Clone, Copy, PartialEq, Eq)]
pub enum Rendering {
    /// Its verdict is told.
    Told(Telling),
    /// What is left of a violation, as `reduced_answer` has it.
    Reduction,
}

/// Which picture is drawn: of all events, or of those alone that an overlook or a cycle needs.
pub fn picture_form(all: bool) -> Telling
    ensures { result ≡ picture_form all }
{
    if all {
        Telling::WholePicture
    } else {
        Telling::Picture
    }
}

/// A picture of all events of a recording.
fn whole_drawing(
    alloc: Global,
    recording: &Recording,
    names: &Names,
    answer: &LongAnswer,
) -> Result<Vec<u8>, OutOfMemory>
    requires { IsWitness recording.now answer.now }
    ensures { IfOk result (λ text. IsWholeDrawing recording.now names.now answer.now text.items) }
{
    recording.sound();
    let mut numbers = Vec::new(alloc);
    for number in 0..recording.len() as EventId {
        numbers.push(number)?;
    }
    drawing_text(alloc, recording, names, &numbers, recording, answer)
}

/// A picture of the events that a violation needs, or of all of an order.
fn picture_text(
    alloc: Global,
    recording: &Recording,
    names: &Names,
    verdict: Verdict,
) -> Result<Vec<u8>, OutOfMemory>
    requires short { IsShortRecording recording.now }
    requires found { IsVerdict recording.now verdict }
    requires verified { Verifies recording.now verdict }
    ensures { IfOk result (λ text. IsPicture recording.now names.now verdict text.items) }
{
    match reduce(alloc, recording, &verdict)? {
        Some(
            Reduced {
                events,
                recording: rest,
            },
        ) => {
            let left = without_labels(judge_alone(alloc, &rest)?);
            drawing_text(alloc, recording, names, &events, &rest, &left)
        }
        None => whole_drawing(alloc, recording, names, &without_labels(verdict)),
    }
}

/// A picture of the events of a recording of any length that a violation needs, or of all of an order.
fn long_picture_text(
    alloc: Global,
    recording: &Recording,
    names: &Names,
    answer: &LongAnswer,
) -> Result<Vec<u8>, OutOfMemory>
    requires { IsLongAnswer recording.now answer.now }
    ensures { IfOk result (λ text. IsLongPicture recording.now names.now answer.now text.items) }
{
    match reduce_long(alloc, recording, answer)? {
        Some(reduced) => {
            let left = long_answer_to(alloc, &reduced.recording)?;
            let text = drawing_text(
                alloc,
                recording,
                names,
                &reduced.events,
                &reduced.recording,
                &left,
            )?;
            Ok(text)
        }
        None => whole_drawing(alloc, recording, names, answer),
    }
}

/// A verdict as it is told, with these names.
fn told_text(
    alloc: Global,
    telling: Telling,
    recording: &Recording,
    names: &Names,
    verdict: Verdict,
) -> Result<Vec<u8>, OutOfMemory>
    requires short { IsShortRecording recording.now }
    requires found { IsVerdict recording.now verdict }
    requires verified { Verifies recording.now verdict }
    ensures { IfOk result (λ text. Tells telling recording.now names.now verdict text.items) }
{
    match telling {
        Telling::Words => explanation_text(alloc, recording, names, &without_labels(verdict)),
        Telling::Picture => picture_text(alloc, recording, names, verdict),
        Telling::WholePicture => whole_drawing(alloc, recording, names, &without_labels(verdict)),
    }
}

/// The verdict on a recording as it is told, with these names.
fn told_answer(
    alloc: Global,
    telling: Telling,
    recording: &Recording,
    names: &Names,
) -> Result<Answer, OutOfMemory>
    requires { IsShortRecording recording.now }
    ensures { IfOk result (IsRendering (Tells telling recording.now names.now) recording.now) }
{
    let verdict = judge_alone(alloc, recording)?;
    let outcome = outcome_of(&verdict);
    let text = told_text(alloc, telling, recording, names, verdict)?;
    Ok(Answer { outcome, text })
}

/// What is answered to a recording of any length as it is told, with these names.
fn long_told_text(
    alloc: Global,
    telling: Telling,
    recording: &Recording,
    names: &Names,
    answer: &LongAnswer,
) -> Result<Vec<u8>, OutOfMemory>
    requires { IsLongAnswer recording.now answer.now }
    ensures { IfOk result (λ text. TellsLong telling recording.now names.now answer.now text.items) }
{
    match telling {
        Telling::Words => explanation_text(alloc, recording, names, answer),
        Telling::Picture => long_picture_text(alloc, recording, names, answer),
        Telling::WholePicture => whole_drawing(alloc, recording, names, answer),
    }
}

/// The answer to a recording of any length as it is told, with these names.
fn long_told_answer(
    alloc: Global,
    telling: Telling,
    recording: &Recording,
    names: &Names,
) -> Result<Answer, OutOfMemory>
    ensures { IfOk result (IsLongRendering (TellsLong telling recording.now names.now) recording.now) }
{
    let answer = long_answer_to(alloc, recording)?;
    let text = long_told_text(alloc, telling, recording, names, &answer)?;
    let outcome = long_outcome(&answer);
    Ok(Answer { outcome, text })
}

/// The names that the program of a recording gives its addresses; none without a program.
fn addresses_of(alloc: Global, program: Option<&Program>) -> Result<Vec<Name>, OutOfMemory>
    ensures { IfOk result (λ names. names.items ≡ addresses_of (option_map (λ p. p.now) program.entry)) }
{
    match program {
        Some(program) => Ok(Vec::from_slice(alloc, program.names().as_slice())?),
        None => Ok(Vec::new(alloc)),
    }
}

/// These names, and the labels of the events.
fn names_of(alloc: Global, program: Option<&Program>, labels: Labels) -> Result<Names, OutOfMemory>
    ensures { IfOk result (λ names. names ≡ names_of (option_map (λ p. p.now) program.entry) labels) }
{
    let addresses = addresses_of(alloc, program)?;
    Ok(Names::new(addresses, labels))
}

/// The rendering of a recording, with the names that its program gives the addresses, or else with the usual
/// ones, and with these labels of its events; the outcome is that of its verdict. Fails only if out of memory.
pub fn rendered_answer(
    alloc: Global,
    rendering: Rendering,
    recording: &Recording,
    program: Option<&Program>,
    labels: Labels,
) -> Result<Answer, OutOfMemory>
    requires short { IsShortRecording recording.now }
    requires program { IfSome program (λ p. IsProgramOf p.now recording.now) }
    ensures { IfOk result
        (IsRenderedAnswer rendering recording.now (option_map (λ p. p.now) program.entry) labels) }
{
    match rendering {
        Rendering::Told(telling) => {
            let names = names_of(alloc, program, labels)?;
            told_answer(alloc, telling, recording, &names)
        }
        Rendering::Reduction => reduced_answer(alloc, recording, program, &labels),
    }
}

/// The rendering of a recording of any length, with the usual names of its addresses and these labels of its events: of
/// its first memory order, of its least overlook, or of a cycle of which no event is forced before another than its
/// next. Fails only if out of memory.
pub fn long_rendered_answer(
    alloc: Global,
    rendering: Rendering,
    recording: &Recording,
    labels: Labels,
) -> Result<Answer, OutOfMemory>
    ensures { IfOk result (IsLongRenderedAnswer rendering recording.now labels) }
{
    match rendering {
        Rendering::Told(telling) => {
            let names = names_of(alloc, None, labels)?;
            long_told_answer(alloc, telling, recording, &names)
        }
        Rendering::Reduction => long_reduced_answer(alloc, recording, &labels),
    }
}
