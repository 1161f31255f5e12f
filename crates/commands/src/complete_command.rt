//! The command `complete`.
ghost use Rattle.std.specs.Prelude.{◌∷◌, [], IfErr, IfOk, string_bytes};
ghost use Rattle.inputs.specs.Inputs.{ReadsNamed};
ghost use Rattle.inputs.specs.Named.{IsValuesStop};
ghost use Rattle.commands.specs.Complete.{IsCompletedInput};

use command_line::CompleteOptions;
use devices::Host;
use inputs::{CommandStop, values_at};
use program_answers::completion_answer;
use report::Answer;
use std::alloc::Global;

/// Completes the values of a named input.
pub fn complete_command<H: Host>(
    alloc: Global,
    options: &CompleteOptions,
    host: &mut H,
) -> Result<Answer, CommandStop>
    ensures ok { IfOk result (IsCompletedInput (H.bytes host.old) options.now) }
    ensures err { IfErr result (IsValuesStop (H.bytes host.old) (string_bytes options.now.file)) }
    ensures reads { ReadsNamed (string_bytes options.now.file ∷ []) (H.log host.old) (H.log host.new) result }
{
    let values = values_at(alloc, host, options.file.as_str())?;
    Ok(completion_answer(alloc, &values, options.states)?)
}
