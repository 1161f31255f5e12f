//! The command `verify`.
ghost use Rattle.std.specs.Prelude.{◌∷◌, [], IfErr, IfOk, string_bytes};
ghost use Rattle.inputs.specs.Inputs.{ReadsNamed};
ghost use Rattle.recording.specs.Recording.{IsRecordingWithin};
ghost use Rattle.commands.specs.Judge.{IsTextAnswer, IsVerified, IsVerifyStop};

use command_line::VerifyOptions;
use common::OutOfMemory;
use devices::Host;
use inputs::{CommandStop, recording_at, text_at};
use recording::{Recording, RecordingSize};
use report::Answer;
use std::alloc::Global;
use std::sync::Wait;
use std::thread::Threads;
use verification::{check_answer, long_check_answer};

/// The answer to a text, of a recording of the size that is asked for.
fn text_answer<R: Threads + Sync>(
    rt: &R,
    alloc: Global,
    options: &VerifyOptions,
    recording: &Recording,
    text: &[u8],
) -> Result<Answer, OutOfMemory>
    requires { IsRecordingWithin options.now.size recording.now }
    ensures { IfOk result (IsTextAnswer options.now.size recording.now text.now) }
{
    match options.size {
        RecordingSize::Short => check_answer(rt, alloc, recording, text, options.workers),
        RecordingSize::Long => long_check_answer(alloc, recording, text),
    }
}

/// Checks whether the text of one named input is that of a verdict, or of an answer to a long recording, that holds of
/// the recording of another.
pub fn verify_command<R: Threads + Wait + Sync, H: Host>(
    rt: &R,
    alloc: Global,
    options: &VerifyOptions,
    host: &mut H,
) -> Result<Answer, CommandStop>
    ensures ok { IfOk result (IsVerified (H.bytes host.old) options.now) }
    ensures err { IfErr result (IsVerifyStop (H.bytes host.old) options.now) }
    ensures reads { ReadsNamed (string_bytes options.now.recording ∷ string_bytes options.now.verdict ∷ [])
        (H.log host.old) (H.log host.new) result }
{
    let recording = recording_at(alloc, host, options.recording.as_str(), options.size)?;
    let text = text_at(alloc, host, options.verdict.as_str())?;
    Ok(text_answer(rt, alloc, options, &recording, text.as_slice())?)
}
