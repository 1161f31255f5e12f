//! The commands `explain`, `draw` and `reduce`.
ghost use Rattle.std.specs.Prelude.{◌≡◌, IfErr, IfOk, IfSome, option_map, string_bytes};
ghost use Rattle.recording.specs.Recording.{IsRecordingWithin};
ghost use Rattle.program_events.specs.ProgramOf.{IsProgramOf};
ghost use Rattle.inputs.specs.Inputs.{ReadsNamed};
ghost use Rattle.commands.specs.Command.{maybe_name, render_names};
ghost use Rattle.commands.specs.Render.{AreLabelsGiven, IsLabellingStop, IsNamesStop, IsProgramGiven, IsRendered};
ghost use Rattle.commands.specs.Render.{IsRenderingOf, IsRenderingStop};

use answers::{Rendering, long_rendered_answer, rendered_answer};
use command_line::ExplainOptions;
use common::OutOfMemory;
use devices::Host;
use event_texts::Labels;
use inputs::{CommandStop, labels_at, program_at, recording_at};
use program::Program;
use program_events::is_program_of;
use recording::{Recording, RecordingSize};
use refusals::N9;
use report::Answer;
use std::alloc::Global;

/// The program of this name, of which the recording has to be one; none where none is named.
fn program_given<H: Host>(
    alloc: Global,
    recording: &Recording,
    name: &Option<String>,
    host: &mut H,
) -> Result<Option<Program>, CommandStop>
    ensures ok { IfOk result (IsProgramGiven (H.bytes host.old) (option_map string_bytes name.now) recording.now) }
    ensures err { IfErr result
        (λ stop. IsNamesStop (H.bytes host.old) (option_map string_bytes name.now) stop recording.now) }
    ensures reads { ReadsNamed (maybe_name (option_map string_bytes name.now)) (H.log host.old) (H.log host.new)
        result }
    ensures kept { H.bytes host.new ≡ H.bytes host.old }
{
    let Some(name) = name else {
        return Ok(None);
    };
    let program = program_at(alloc, host, name.as_str())?;
    if is_program_of(&program, recording) {
        Ok(Some(program))
    } else {
        Err(CommandStop::of_name(alloc, N9.name))
    }
}

/// The labels of this name, one for each event of the recording; none where none are named.
fn labels_given<H: Host>(
    alloc: Global,
    recording: &Recording,
    name: &Option<String>,
    host: &mut H,
) -> Result<Labels, CommandStop>
    ensures ok { IfOk result (AreLabelsGiven (H.bytes host.old) (option_map string_bytes name.now) recording.now) }
    ensures err { IfErr result
        (λ stop. IsLabellingStop (H.bytes host.old) (option_map string_bytes name.now) stop recording.now) }
    ensures reads { ReadsNamed (maybe_name (option_map string_bytes name.now)) (H.log host.old) (H.log host.new)
        result }
{
    match name {
        Some(name) => labels_at(alloc, host, name.as_str(), recording),
        None => Ok(Labels::none(alloc)),
    }
}

/// The rendering of a recording of a size.
fn render(
    alloc: Global,
    rendering: Rendering,
    size: RecordingSize,
    recording: &Recording,
    program: Option<&Program>,
    labels: Labels,
) -> Result<Answer, OutOfMemory>
    requires within { IsRecordingWithin size recording.now }
    requires program { IfSome program (λ p. IsProgramOf p.now recording.now) }
    ensures { IfOk result
        (IsRenderingOf size rendering recording.now (option_map (λ p. p.now) program.entry) labels) }
{
    match size {
        RecordingSize::Short => rendered_answer(alloc, rendering, recording, program, labels),
        RecordingSize::Long => long_rendered_answer(alloc, rendering, recording, labels),
    }
}

/// Renders the recording of a named input; it is read before the program is opened, and this before the labels are.
pub fn render_command<H: Host>(
    alloc: Global,
    rendering: Rendering,
    options: &ExplainOptions,
    host: &mut H,
) -> Result<Answer, CommandStop>
    ensures ok { IfOk result (IsRendered (H.bytes host.old) rendering options.now) }
    ensures err { IfErr result (IsRenderingStop (H.bytes host.old) options.now) }
    ensures reads { ReadsNamed (render_names options.now) (H.log host.old) (H.log host.new) result }
{
    let recording = recording_at(alloc, host, options.file.as_str(), options.size)?;
    let program = program_given(alloc, &recording, &options.program, host)?;
    let labels = labels_given(alloc, &recording, &options.labels, host)?;
    Ok(render(
        alloc,
        rendering,
        options.size,
        &recording,
        program.as_ref(),
        labels,
    )?)
}
