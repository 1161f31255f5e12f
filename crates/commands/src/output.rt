//! Outputs as they are written.
ghost use Rattle.std.specs.Prelude.{◌≡◌, IfErr, IfOk};
ghost use Rattle.std.specs.Io.KnownBytes.{Keeps};
ghost use Rattle.devices.specs.Bytes.{FailsBy};
ghost use Rattle.inputs.specs.Inputs.{is_write_failure};
ghost use Rattle.commands.specs.Perform.{IsWritten};

use devices::{Failed, Sink, write_all};
use inputs::CommandError;
use report::{Answer, Outcome};

/// Flushes what was written of an output. Answers its outcome.
fn flush<W: Sink>(out: &mut W, outcome: Outcome) -> Result<Outcome, CommandError>
    ensures outcome { IfOk result (λ came. came ≡ outcome) }
    ensures kept { Keeps (W.written out.old) (W.written out.new) }
    ensures error { IfErr result (λ error. error ≡ CommandError.WriteFailed) }
    ensures writes { FailsBy is_write_failure (W.write_failed out.old) (W.write_failed out.new) result }
{
    match out.flush() {
        Ok(()) => Ok(outcome),
        Err(Failed) => Err(CommandError::WriteFailed),
    }
}

/// Writes an output and flushes it. Answers its outcome.
pub fn write_output<W: Sink>(out: &mut W, output: &Answer) -> Result<Outcome, CommandError>
    ensures written { IsWritten output.now (W.written out.old) (W.written out.new) result }
    ensures error { IfErr result (λ error. error ≡ CommandError.WriteFailed) }
    ensures writes { FailsBy is_write_failure (W.write_failed out.old) (W.write_failed out.new) result }
{
    match write_all(out, &output.text) {
        Ok(()) => flush(out, output.outcome),
        Err(Failed) => Err(CommandError::WriteFailed),
    }
}
