//! The command `judge --long`.
ghost use Rattle.std.specs.Prelude.{◌∷◌, [], IfErr, IfOk, string_bytes};
ghost use Rattle.inputs.specs.Inputs.{IsInputError, ReadsNamed};
ghost use Rattle.inputs.specs.Refusal.{IsFailure};
ghost use Rattle.commands.specs.Judge.{IsLongFileAnswer};

use command_line::FileOptions;
use devices::Host;
use inputs::{CommandStop, text_at};
use report::{Answer, long_answer_of};
use std::alloc::Global;

/// Judges the recording of a named input, of any length.
pub fn long_command<H: Host>(
    alloc: Global,
    options: &FileOptions,
    host: &mut H,
) -> Result<Answer, CommandStop>
    ensures ok { IfOk result (IsLongFileAnswer (H.bytes host.old) options.now) }
    ensures err { IfErr result (IsFailure (IsInputError (H.bytes host.old) (string_bytes options.now.file))) }
    ensures reads { ReadsNamed (string_bytes options.now.file ∷ []) (H.log host.old) (H.log host.new) result }
{
    let bytes = text_at(alloc, host, options.file.as_str())?;
    Ok(long_answer_of(alloc, bytes)?)
}
