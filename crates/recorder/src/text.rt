//! The text of a recording.

ghost use Rattle.std.specs.Prelude.{◌≡◌, IfOk, Ok};
ghost use Rattle.recording.specs.Recording.{IsRecordingWithin};
ghost use Rattle.recording.specs.declared.size.RecordingSize.{RecordingSize};
ghost use Rattle.recorder.specs.Reading.{IsReadingOf};
ghost use Rattle.recorder.specs.Text.{data_of, recording_text, IsReadAs};

use crate::values::value_of;
use common::OutOfMemory;
use recording::Recording;
use std::alloc::Global;

/// The text of a recording: compact JSON with the keys of each object in ascending order, and a newline.
/// Fails only if out of memory.
pub fn write_recording(alloc: Global, recording: &Recording) -> Result<Vec<u8>, OutOfMemory>
    ensures text { IfOk result (λ v. v.items ≡ recording_text recording.now) }
    ensures reads_back { IfOk result (λ v. IsReadAs v.items (data_of recording.now)) }
    ensures again { IfOk result (λ v. (size : RecordingSize) → IsRecordingWithin size recording.now
        → IsReadingOf size v.items (Ok recording.now)) }
{
    recording.sound();
    let value = value_of(alloc, recording)?;
    let mut text = value.to_string(alloc)?;
    text.push('\n')?;
    Ok(text.into_bytes())
}
