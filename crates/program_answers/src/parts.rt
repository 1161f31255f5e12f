//! Parts of values that TSO does not allow, as texts.

ghost use Rattle.std.specs.Prelude.{◌≡◌, ◌++◌, OnOk};
ghost use Rattle.program_answers.specs.Part.{only_text, part_text};

use common::OutOfMemory;
use completion::Part;
use recorder::write_recording;
use recording::Recording;
use std::alloc::Global;
use texts::{put_numbers, put_text};
use values_text::write_values;

/// Adds an empty line and the line of a recording, where there is one.
fn put_only(
    alloc: Global,
    out: &mut Vec<u8>,
    recording: &Option<Recording>,
) -> Result<(), OutOfMemory>
    ensures { OnOk result (out.new.items ≡ out.old.items ++ only_text recording.now) }
{
    let Some(recording) = recording else {
        return Ok(());
    };
    put_text(out, b"\n")?;
    let line = write_recording(alloc, recording)?;
    put_text(out, &line)
}

/// Adds an empty line, the line of the numbers of a part's events, the line of its values, and a recording of these,
/// where there is one.
pub(crate) fn put_part(
    alloc: Global,
    out: &mut Vec<u8>,
    part: &Part,
    recording: &Option<Recording>,
) -> Result<(), OutOfMemory>
    ensures { OnOk result (out.new.items ≡ out.old.items ++ part_text part.now recording.now) }
{
    put_text(out, b"\nevents:")?;
    put_numbers(out, &part.events)?;
    put_text(out, b"\n")?;
    let values = write_values(alloc, &part.values)?;
    put_text(out, &values)?;
    put_only(alloc, out, recording)
}
