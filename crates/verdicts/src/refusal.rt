//! The line of a refused recording.

ghost use Rattle.std.specs.Prelude.{◌≡◌, IfOk, option_map, string_bytes};
ghost use Rattle.verdicts.specs.Refusal.{recording_line};

use recording::RecError;
use refusals::{N1, N2, N3, N4, N5, N6, N7, line_of_name, refused_at};
use std::alloc::{AllocError, Global};

/// The line that is printed for a refused recording; none where memory ran out.
pub fn recording_line(alloc: Global, refusal: RecError) -> Result<Option<String>, AllocError>
    ensures { IfOk result (λ line. option_map string_bytes line ≡ recording_line refusal) }
{
    let line = match refusal {
        RecError::NotJson => line_of_name(alloc, N1.name)?,
        RecError::Shape => line_of_name(alloc, N2.name)?,
        RecError::Version => line_of_name(alloc, N3.name)?,
        RecError::Limits => line_of_name(alloc, N4.name)?,
        RecError::Source(event) => refused_at(alloc, &N5, event as usize)?,
        RecError::Value(event) => refused_at(alloc, &N6, event as usize)?,
        RecError::WriteList(address) => refused_at(alloc, &N7, address as usize)?,
        RecError::OutOfMemory => return Ok(None),
    };
    Ok(Some(line))
}
