//! The command `judge`.
ghost use Rattle.std.specs.Prelude.{◌≤◌, ◌∷◌, [], IfErr, IfOk, string_bytes};
ghost use Rattle.inputs.specs.Inputs.{IsInputError, ReadsNamed};
ghost use Rattle.inputs.specs.Refusal.{IsFailure};
ghost use Rattle.commands.specs.Judge.{IsFileAnswer};

use command_line::JudgeOptions;
use common::{MAX_WORKERS, OpenGate};
use devices::{Host, MemorySink};
use inputs::{CommandError, CommandStop, open_input};
use report::{Answer, ReportError, answer};
use std::alloc::Global;
use std::sync::Wait;
use std::thread::Threads;
use verification::every_verdict_holds;

/// Judges the recording of a named input, by as many workers as the options say. Unless the answer is a refusal, it
/// holds, as `check_text` says of it too.
pub fn judge_command<R: Threads + Wait + Sync, H: Host>(
    rt: &R,
    alloc: Global,
    options: &JudgeOptions,
    host: &mut H,
) -> Result<Answer, CommandStop>
    requires { (1 ≤ options.now.workers) × (options.now.workers ≤ MAX_WORKERS) }
    ensures ok { IfOk result (IsFileAnswer (H.bytes host.old) options.now) }
    ensures err { IfErr result (IsFailure (IsInputError (H.bytes host.old) (string_bytes options.now.file))) }
    ensures reads { ReadsNamed (string_bytes options.now.file ∷ []) (H.log host.old) (H.log host.new) result }
{
    every_verdict_holds();
    let mut input = open_input(alloc, host, options.file.as_str())?;
    let mut out = MemorySink::new(alloc);
    let answered = answer(rt, alloc, &mut input, &mut out, options.workers, &OpenGate);
    host.take_back(input);
    match answered {
        Ok(outcome) => Ok(Answer {
            outcome,
            text: out.into_written(),
        }),
        Err(ReportError::ReadFailed) => Err(CommandStop::Failed(CommandError::ReadFailed)),
        // A sink in memory fails only where there is none.
        Err(ReportError::WriteFailed | ReportError::OutOfMemory) => {
            Err(CommandStop::Failed(CommandError::OutOfMemory))
        }
    }
}
