//! Violations that are cut down to the events that they need, as answers.

ghost use Rattle.std.specs.Prelude.{◌≡◌, ◌≤◌, ◌++◌, IfOk, IfSome, IfNone, OnOk, option_map};
ghost use Rattle.std.specs.List.{flat_map};
ghost use Rattle.common.specs.declared.limits.TheConstants.{MAX_EVENTS};
ghost use Rattle.recording.specs.Execution.{event_count};
ghost use Rattle.recording.specs.FirstUse.{IsNumberedByFirstUse};
ghost use Rattle.recording.specs.Recording.{IsShortRecording};
ghost use Rattle.program_events.specs.ProgramOf.{IsProgramOf};
ghost use Rattle.verdicts.specs.Judgement.{IsVerdict};
ghost use Rattle.reduction.specs.Needed.{IsOrdered};
ghost use Rattle.reduction.specs.Restriction.{AreClosed};
ghost use Rattle.answers.specs.Reduced.{heading, label_line, labels_left, shown_text, program_left, IsCutAnswer};
ghost use Rattle.answers.specs.Reduced.{IsReducedAnswer};
ghost use Rattle.answers.specs.Survey.{IsLineAnswer};
ghost use Rattle.verdicts.specs.VerdictAnswer.{IsVerdictAnswer};

use common::{EventId, OutOfMemory};
use event_texts::Labels;
use judge::{Verdict, judge_alone};
use litmus::print;
use program::Program;
use program_events::named_program;
use recorder::write_recording;
use recording::Recording;
use reduction::{Reduced, reduce, restricted_program};
use std::alloc::Global;
use text_judge::{answer_alone, read_or_refuse};
use texts::{put_numbers, put_text};
use verdicts::{Answer, verdict_answer};

/// Adds the line of a label.
fn put_label_line(out: &mut Vec<u8>, labels: &Labels, number: EventId) -> Result<(), OutOfMemory>
    ensures { OnOk result (out.new.items ≡ out.old.items ++ label_line labels.now number) }
{
    put_text(out, labels.label(number))?;
    put_text(out, b"\n")
}

/// Adds the labels of these events, a line each.
fn put_label_lines(
    out: &mut Vec<u8>,
    labels: &Labels,
    events: &[EventId],
) -> Result<(), OutOfMemory>
    ensures { OnOk result (out.new.items ≡ out.old.items ++ flat_map (label_line labels.now) events.now) }
{
    for number in events {
        put_label_line(out, labels, *number)?;
    }
    Ok(())
}

/// Adds the labels of the kept events, where events have labels.
#[tactic(auto, unfolding(crate::specs::Reduced::labels_left))]
fn put_labels_left(
    out: &mut Vec<u8>,
    labels: &Labels,
    events: &[EventId],
) -> Result<(), OutOfMemory>
    ensures { OnOk result (out.new.items ≡ out.old.items ++ labels_left labels.now events.now) }
{
    if labels.len() == 0 {
        return Ok(());
    }
    put_label_lines(out, labels, events)
}

/// The line of the numbers that the kept events had, their labels, and an empty line, where they are asked for.
pub(crate) fn heading_of(
    alloc: Global,
    events: &[EventId],
    headed: Option<&Labels>,
) -> Result<Vec<u8>, OutOfMemory>
    ensures { IfOk result (λ text. text.items ≡ heading (option_map (λ l. l.now) headed.entry) events.now) }
{
    let mut out = Vec::new(alloc);
    if let Some(labels) = headed {
        put_text(&mut out, b"events")?;
        put_numbers(&mut out, events)?;
        put_text(&mut out, b"\n")?;
        put_labels_left(&mut out, labels, events)?;
        put_text(&mut out, b"\n")?;
    }
    Ok(out)
}

/// A program, an empty line, and the line of its recording with the verdict on it, after a text. Fails only if out of
/// memory.
pub fn append_verdict(
    alloc: Global,
    mut text: Vec<u8>,
    program: &Program,
    recording: &Recording,
) -> Result<Answer, OutOfMemory>
    requires { event_count recording.now ≤ MAX_EVENTS }
    ensures { IfOk result
        (IsVerdictAnswer recording.now (text.items ++ shown_text program.now recording.now)) }
{
    let lines = print(alloc, program)?;
    text.extend_from_slice(&lines)?;
    text.push(b'\n')?;
    let line = write_recording(alloc, recording)?;
    text.extend_from_slice(&line)?;
    let verdict = judge_alone(alloc, recording)?;
    verdict_answer(alloc, text, recording, &verdict)
}

/// The program of what is left of a recording: what is left of the recording's own program, if that is
/// given.
fn program_left(
    alloc: Global,
    recording: &Recording,
    program: Option<&Program>,
    reduced: &Reduced,
) -> Result<Program, OutOfMemory>
    requires closed { AreClosed recording.now reduced.now.events.items }
    requires short { IsShortRecording reduced.now.recording }
    requires numbered { IsNumberedByFirstUse reduced.now.recording }
    requires program { IfSome program (λ p. IsProgramOf p.now recording.now) }
    ensures { IfOk result (λ p. p ≡ program_left (option_map (λ q. q.now) program.entry) recording.now
        reduced.now.events.items reduced.now.recording) }
{
    match program {
        Some(program) => restricted_program(alloc, program, recording, &reduced.events),
        None => named_program(alloc, &reduced.recording),
    }
}

/// What is left of a violation where the events alone are kept that it needs: its program, which is what is
/// left of the given one, an empty line, and its recording with the verdict on it, after the numbers of
/// its events and their labels where these are asked for; none where the verdict is an order. Fails only if out of
/// memory.
pub fn cut_answer(
    alloc: Global,
    recording: &Recording,
    program: Option<&Program>,
    verdict: &Verdict,
    headed: Option<&Labels>,
) -> Result<Option<Answer>, OutOfMemory>
    requires short { IsShortRecording recording.now }
    requires found { IsVerdict recording.now verdict.now }
    requires program { IfSome program (λ p. IsProgramOf p.now recording.now) }
    ensures some { IfOk result (λ r. IfSome r
        (IsCutAnswer recording.now (option_map (λ p. p.now) program.entry)
        (option_map (λ l. l.now) headed.entry))) }
    ensures none { IfOk result (λ r. IfNone r (IsOrdered verdict.now)) }
{
    match reduce(alloc, recording, verdict)? {
        Some(reduced) => {
            let text = heading_of(alloc, &reduced.events, headed)?;
            let left = program_left(alloc, recording, program, &reduced)?;
            let answer = append_verdict(alloc, text, &left, &reduced.recording)?;
            Ok(Some(answer))
        }
        None => Ok(None),
    }
}

/// The line of the numbers of the events that a violation needs, the labels of these, an empty line, the program of
/// these events, an empty line, and their recording with the verdict on it; a `Violation`. Of a recording that
/// TSO allows, its verdict. The program is what is left of the given one, of which the
/// recording has to be one, and else that which makes the reduced recording. Fails only if out of memory.
pub fn reduced_answer(
    alloc: Global,
    recording: &Recording,
    program: Option<&Program>,
    labels: &Labels,
) -> Result<Answer, OutOfMemory>
    requires short { IsShortRecording recording.now }
    requires program { IfSome program (λ p. IsProgramOf p.now recording.now) }
    ensures { IfOk result (IsReducedAnswer recording.now (option_map (λ p. p.now) program.entry) labels.now) }
{
    let verdict = judge_alone(alloc, recording)?;
    match cut_answer(alloc, recording, program, &verdict, Some(labels))? {
        Some(answer) => Ok(answer),
        None => verdict_answer(alloc, Vec::new(alloc), recording, &verdict),
    }
}

/// How a violation is answered.
#[derive(Clone, Copy, PartialEq, Eq)]
pub enum ViolationForm {
    /// All of it.
    Whole,
    /// What is left of it where the events alone are kept that it needs.
    Reduced,
}

/// What is left of the violation that the bytes of one recording are, the text of another verdict, or the line of their
/// refusal.
fn reduced_line(alloc: Global, bytes: &[u8]) -> Result<Answer, OutOfMemory>
    ensures { IfOk result (IsLineAnswer ViolationForm.Reduced bytes.now) }
{
    match read_or_refuse(alloc, bytes)? {
        Ok(recording) => reduced_answer(alloc, &recording, None, &Labels::none(alloc)),
        Err(refused) => Ok(refused),
    }
}

/// The answer to the bytes of one recording: the text of its verdict, or what is left of its violation where that is to
/// be reduced, or the line of its refusal. Fails only if out of memory.
pub fn line_answer(alloc: Global, bytes: &[u8], form: ViolationForm) -> Result<Answer, OutOfMemory>
    ensures { IfOk result (IsLineAnswer form bytes.now) }
{
    match form {
        ViolationForm::Whole => answer_alone(alloc, bytes),
        ViolationForm::Reduced => reduced_line(alloc, bytes),
    }
}
