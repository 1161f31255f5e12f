//! Named inputs as bytes.
ghost use Rattle.std.specs.Prelude.{◌≡◌, ◌∷◌, [], IfErr, IfOk, false};
ghost use Rattle.std.specs.Io.KnownBytes.{Keeps};
ghost use Rattle.devices.specs.Host.{Notes, lent};
ghost use Rattle.inputs.specs.declared.command_stop.CommandStop.TheVariants.{Failed};
ghost use Rattle.inputs.specs.Inputs.{AreBytesOf, AreStopped, IsInputError, ReadsInput};

use crate::command_error::CommandError;
use devices::{Host, InputError, ReadError, read_all};
use std::alloc::Global;

/// An input of this name, opened, or why it is not.
pub fn open_input<H: Host>(
    alloc: Global,
    host: &mut H,
    name: &str,
) -> Result<H::Input, CommandError>
    ensures given { IfOk result (λ input. Keeps (H.bytes host.old name.now) (H.Input.left input)) }
    ensures unread { IfOk result (λ input. H.Input.is_ended input ≡ false) }
    ensures unfailed { IfOk result (λ input. H.Input.read_failed input ≡ false) }
    ensures lent { IfOk result (λ _. (H.log host.new).tally ≡ lent (H.log host.old).tally) }
    ensures asked { IfOk result (λ _. Notes (H.log host.old).asked (H.log host.new).asked (name.now ∷ [])) }
    ensures error { IfErr result (IsInputError (H.bytes host.old) name.now) }
    ensures stopped { IfErr result (λ error.
        AreStopped (name.now ∷ []) (Failed error) (H.log host.old) (H.log host.new)) }
    ensures kept { H.bytes host.new ≡ H.bytes host.old }
{
    match host.input(name) {
        Ok(input) => Ok(input),
        Err(InputError::OutOfMemory) => Err(CommandError::OutOfMemory),
        Err(InputError::CannotOpen) => match String::from_str(alloc, name) {
            Ok(name) => Err(CommandError::CannotOpen(name)),
            Err(_) => Err(CommandError::OutOfMemory),
        },
    }
}

/// All bytes of a named input.
pub fn text_at<H: Host>(alloc: Global, host: &mut H, name: &str) -> Result<Vec<u8>, CommandError>
    ensures given { IfOk result (λ text. AreBytesOf (H.bytes host.old) name.now text.items) }
    ensures error { IfErr result (IsInputError (H.bytes host.old) name.now) }
    ensures reads { ReadsInput name.now (H.log host.old) (H.log host.new) result }
    ensures kept { H.bytes host.new ≡ H.bytes host.old }
{
    let mut input = open_input(alloc, host, name)?;
    let read = read_all(alloc, &mut input);
    host.take_back(input);
    match read {
        Ok(bytes) => Ok(bytes),
        Err(ReadError::ReadFailed) => Err(CommandError::ReadFailed),
        Err(ReadError::OutOfMemory) => Err(CommandError::OutOfMemory),
    }
}
