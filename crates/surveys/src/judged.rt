//! What is found in a line.

ghost use Rattle.std.specs.Prelude.{◌≡◌, ◌≢◌, ◌≤◌, ◌⊎◌, IfOk};
ghost use Rattle.common.specs.declared.limits.TheConstants.{MAX_EVENTS};
ghost use Rattle.recording.specs.Execution.{event_count};
ghost use Rattle.verdicts.specs.declared.verdict.Verdict.{Verdict};
ghost use Rattle.verdicts.specs.Judgement.{IsVerdict};
ghost use Rattle.ledger.specs.Findings.{finding_of};
ghost use Rattle.ledger.specs.declared.finding.Finding.TheVariants.{Refused};
ghost use Rattle.recording.specs.declared.fault.RecError.TheVariants as refusals;
ghost use Rattle.long.specs.declared.answer.LongAnswer.{LongAnswer};
ghost use Rattle.long.specs.Answer.{IsLongAnswer};
ghost use Rattle.surveys.specs.Found.{AreCompleted, AreNoValues, IsLineFinding, IsLongFound, IsNoLongRecording};
ghost use Rattle.surveys.specs.Found.{IsRecordingFinding, IsValuesFound, long_finding};

use crate::kind::LineKind;
use common::{Gate, OutOfMemory};
use completion::{Answer, complete};
use judge::judge_alone;
use ledger::Finding;
use long::{LongAnswer, judge_long};
use recorder::{read_recording, read_recording_of};
use recording::{RecError, Recording, RecordingSize};
use std::alloc::Global;
use values::Values;
use values_text::read_values;

/// What a refusal finds; none where memory ran out.
fn refused_finding(refusal: RecError) -> Result<Finding, OutOfMemory>
    ensures { IfOk result (λ f. (f ≡ Refused refusal) × (refusal ≢ refusals.OutOfMemory)) }
{
    match refusal {
        RecError::OutOfMemory => Err(OutOfMemory),
        _ => Ok(Finding::Refused(refusal)),
    }
}

/// What the verdict on a recording finds.
fn found_in(alloc: Global, recording: &Recording) -> Result<Finding, OutOfMemory>
    requires { event_count recording.now ≤ MAX_EVENTS }
    ensures { IfOk result (λ f. (verdict : Verdict) × IsVerdict recording.now verdict
        × (f ≡ finding_of verdict)) }
{
    recording.sound();
    match judge_alone(alloc, recording) {
        Ok(verdict) => Ok(Finding::of(&verdict)),
        Err(error) => Err(error),
    }
}

/// What is found in the recording that the bytes of a line give, or its refusal. It does not block. Fails
/// only if out of memory.
fn finding_of_recording(alloc: Global, bytes: &[u8]) -> Result<Finding, OutOfMemory>
    ensures { IfOk result (IsRecordingFinding bytes.now) }
{
    match read_recording(alloc, bytes) {
        Ok(recording) => found_in(alloc, &recording),
        Err(refusal) => refused_finding(refusal),
    }
}

/// What an answer to a recording of any length finds.
fn long_finding(answer: &LongAnswer) -> Finding
    ensures { result ≡ long_finding answer.now }
{
    match answer {
        LongAnswer::Order(_) => Finding::Ordered,
        LongAnswer::Overlook(load, store) => Finding::Overlook {
            load: *load,
            store: *store,
        },
        LongAnswer::Cycle(cycle) => Finding::Cycle(cycle.len()),
    }
}

/// What is found of a recording of any length.
fn found_in_long(alloc: Global, recording: &Recording) -> Result<Finding, OutOfMemory>
    ensures { IfOk result (λ f. (answer : LongAnswer) × IsLongAnswer recording.now answer
        × (f ≡ long_finding answer)) }
{
    let judged = judge_long(alloc, recording)?;
    Ok(long_finding(&judged.answer))
}

/// What is found in the recording within the large limits that the bytes of a line give, or its refusal. It does not
/// block. Fails only if out of memory.
fn finding_of_long(alloc: Global, bytes: &[u8]) -> Result<Finding, OutOfMemory>
    ensures { IfOk result (λ f. IsLongFound bytes.now f ⊎ IsNoLongRecording bytes.now f) }
{
    match read_recording_of(alloc, bytes, RecordingSize::Long) {
        Ok(recording) => found_in_long(alloc, &recording),
        Err(refusal) => refused_finding(refusal),
    }
}

/// What values come to, where no more than this many states are seen.
fn found_of(alloc: Global, values: &Values, states: usize) -> Result<Finding, OutOfMemory>
    ensures { IfOk result (IsValuesFound values.now states) }
{
    match complete(alloc, values, states)? {
        Answer::Completed(..) => Ok(Finding::Ordered),
        Answer::Impossible(_) => Ok(Finding::Impossible),
        Answer::Unfinished => Ok(Finding::Unfinished),
    }
}

/// What the values that the bytes of a line give come to, or their refusal. It does not block. Fails only if out of
/// memory.
fn finding_of_values(alloc: Global, bytes: &[u8], states: usize) -> Result<Finding, OutOfMemory>
    ensures { IfOk result (λ f. AreCompleted bytes.now states f ⊎ AreNoValues bytes.now f) }
{
    match read_values(alloc, bytes) {
        Ok(values) => found_of(alloc, &values, states),
        Err(refusal) => refused_finding(refusal),
    }
}

/// What is found in the bytes of a line of this kind. Fails only if out of memory.
fn finding_of_line(alloc: Global, kind: LineKind, bytes: &[u8]) -> Result<Finding, OutOfMemory>
    ensures { IfOk result (IsLineFinding kind bytes.now) }
{
    match kind {
        LineKind::Recording => finding_of_recording(alloc, bytes),
        LineKind::LongRecording => finding_of_long(alloc, bytes),
        LineKind::Values(states) => finding_of_values(alloc, bytes, states),
    }
}

/// What judges lines: memory, what the lines are, who hears of them, and the worker that it hears of.
#[derive(Drop)]
pub(crate) struct LineJudge<'a, G> {
    pub(crate) alloc: Global,
    pub(crate) kind: LineKind,
    pub(crate) gate: &'a G,
    pub(crate) worker: usize,
}

impl<G: Gate> LineJudge<'_, G> {
    ghost use Rattle.std.specs.Prelude.{IfOk};
    ghost use Rattle.surveys.specs.Found.{IsLineFinding};

    /// Tells the gate of a violation.
    fn report_violation(&self, number: usize, finding: Finding) {
        match finding {
            Finding::Overlook { .. } | Finding::Cycle(_) | Finding::Impossible => {
                self.gate.found(self.worker, number)
            }
            _ => {}
        }
    }

    /// What is found in the bytes of a line, of which the gate hears under this number. Fails only if out of memory.
    pub(crate) fn judge_line(&self, bytes: &[u8], number: usize) -> Result<Finding, OutOfMemory>
        ensures { IfOk result (IsLineFinding self.now.kind bytes.now) }
    {
        self.gate.begin(self.worker, number);
        let finding = finding_of_line(self.alloc, self.kind, bytes)?;
        self.report_violation(number, finding);
        self.gate.done(self.worker, number);
        Ok(finding)
    }
}
