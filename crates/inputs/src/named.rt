//! The program, the recording, the values or the labels that a named input is.
ghost use Rattle.std.specs.Prelude.{◌≡◌, ◌∷◌, [], IfErr, IfOk};
ghost use Rattle.inputs.specs.Inputs.{ReadsNamed};
ghost use Rattle.inputs.specs.Named.{AreLabelsAt, IsLabelsStop, IsProgramAt, IsProgramStop, IsRecordingAt};
ghost use Rattle.inputs.specs.Named.{IsRecordingStop, AreValuesAt, IsValuesStop};

use crate::command_error::CommandError;
use crate::command_stop::{CommandStop, PrintedRefusal};
use crate::reading::text_at;
use crate::refusal::line_refusal;
use devices::Host;
use event_texts::{LabelError, Labels, labels_in};
use litmus::{LitmusError, line_refusal_name, parse};
use program::Program;
use recorder::read_recording_of;
use recording::{Recording, RecordingSize};
use refusals::{A1, A2};
use std::alloc::Global;
use values::Values;
use values_text::read_values;
use verdicts::recording_line;

/// The program of a named input, or why it is not read.
pub fn program_at<H: Host>(alloc: Global, host: &mut H, name: &str) -> Result<Program, CommandStop>
    ensures ok { IfOk result (λ program. IsProgramAt (H.bytes host.old) name.now program) }
    ensures err { IfErr result (IsProgramStop (H.bytes host.old) name.now) }
    ensures reads { ReadsNamed (name.now ∷ []) (H.log host.old) (H.log host.new) result }
    ensures kept { H.bytes host.new ≡ H.bytes host.old }
{
    let text = text_at(alloc, host, name)?;
    match parse(alloc, text.as_slice()) {
        Ok(program) => Ok(program),
        Err(LitmusError::OutOfMemory) => Err(CommandStop::Failed(CommandError::OutOfMemory)),
        Err(LitmusError::AtLine(refusal, line)) => Err(CommandStop::Refused(line_refusal(
            alloc,
            line_refusal_name(refusal),
            line,
            text.as_slice(),
        )?)),
    }
}

/// The recording of a size that a named input is, or why it is not read.
pub fn recording_at<H: Host>(
    alloc: Global,
    host: &mut H,
    name: &str,
    size: RecordingSize,
) -> Result<Recording, CommandStop>
    ensures ok { IfOk result (λ recording. IsRecordingAt (H.bytes host.old) name.now size recording) }
    ensures err { IfErr result (IsRecordingStop (H.bytes host.old) name.now size) }
    ensures reads { ReadsNamed (name.now ∷ []) (H.log host.old) (H.log host.new) result }
    ensures kept { H.bytes host.new ≡ H.bytes host.old }
{
    let bytes = text_at(alloc, host, name)?;
    match read_recording_of(alloc, bytes.as_slice(), size) {
        Ok(recording) => Ok(recording),
        Err(refusal) => match recording_line(alloc, refusal)? {
            Some(line) => Err(CommandStop::Refused(PrintedRefusal { line, quote: None })),
            None => Err(CommandStop::Failed(CommandError::OutOfMemory)),
        },
    }
}

/// The labels of the events of a recording that a named input has, or why they are not read.
pub fn labels_at<H: Host>(
    alloc: Global,
    host: &mut H,
    name: &str,
    recording: &Recording,
) -> Result<Labels, CommandStop>
    ensures ok { IfOk result (AreLabelsAt (H.bytes host.old) name.now recording.now) }
    ensures err { IfErr result (λ stop. IsLabelsStop (H.bytes host.old) name.now stop recording.now) }
    ensures reads { ReadsNamed (name.now ∷ []) (H.log host.old) (H.log host.new) result }
    ensures kept { H.bytes host.new ≡ H.bytes host.old }
{
    recording.sound();
    let text = text_at(alloc, host, name)?;
    match labels_in(alloc, text.as_slice()) {
        Ok(labels) => {
            if labels.len() == recording.len() {
                Ok(labels)
            } else {
                Err(CommandStop::of_name(alloc, A2.name))
            }
        }
        Err(LabelError::TooLong(line)) => Err(CommandStop::Refused(line_refusal(
            alloc,
            A1.name,
            line,
            text.as_slice(),
        )?)),
        Err(LabelError::OutOfMemory) => Err(CommandStop::Failed(CommandError::OutOfMemory)),
    }
}

/// The values of a named input, or why they are not read.
pub fn values_at<H: Host>(alloc: Global, host: &mut H, name: &str) -> Result<Values, CommandStop>
    ensures ok { IfOk result (λ values. AreValuesAt (H.bytes host.old) name.now values) }
    ensures err { IfErr result (IsValuesStop (H.bytes host.old) name.now) }
    ensures reads { ReadsNamed (name.now ∷ []) (H.log host.old) (H.log host.new) result }
    ensures kept { H.bytes host.new ≡ H.bytes host.old }
{
    let bytes = text_at(alloc, host, name)?;
    match read_values(alloc, bytes.as_slice()) {
        Ok(values) => Ok(values),
        Err(refusal) => match recording_line(alloc, refusal)? {
            Some(line) => Err(CommandStop::Refused(PrintedRefusal { line, quote: None })),
            None => Err(CommandStop::Failed(CommandError::OutOfMemory)),
        },
    }
}
