//! The command `live`.
ghost use Rattle.std.specs.Prelude.{◌∷◌, [], IfErr, IfOk, string_bytes};
ghost use Rattle.inputs.specs.Inputs.{ReadsNamed};
ghost use Rattle.live.specs.Driven.{IsDriveError};
ghost use Rattle.commands.specs.Run.{IsLive, IsLiveAnswer, IsLiveStop};

use command_line::LiveOptions;
use common::OpenGate;
use devices::Host;
use histograms::LiveRuns;
use inputs::{CommandError, CommandStop, program_at};
use live::{LiveError, drive};
use program::Program;
use report::Answer;
use run_answers::{live_histogram_answer, machine_answer};
use std::alloc::Global;
use std::sync::Wait;
use std::thread::Threads;

/// Runs a program by threads, or counts such runs.
fn live_answer<R: Threads + Wait + Sync>(
    rt: &R,
    alloc: Global,
    program: Program,
    options: &LiveOptions,
) -> Result<Answer, LiveError>
    ensures ok { IfOk result (IsLiveAnswer options.now program options.now.runs) }
    ensures err { IfErr result IsDriveError }
{
    let (buffer, limit) = (options.buffer, options.limit);
    match options.runs {
        Some(runs) => {
            let runs = LiveRuns {
                runs,
                buffer,
                limit,
            };
            live_histogram_answer(rt, alloc, &program, &runs)
        }
        None => {
            let traced = drive(rt, alloc, program, buffer, limit, &OpenGate)?;
            Ok(machine_answer(alloc, traced.into_machine())?)
        }
    }
}

/// Runs the program of a named input by threads, or counts such runs.
pub fn live_command<R: Threads + Wait + Sync, H: Host>(
    rt: &R,
    alloc: Global,
    options: &LiveOptions,
    host: &mut H,
) -> Result<Answer, CommandStop>
    ensures ok { IfOk result (IsLive (H.bytes host.old) options.now) }
    ensures err { IfErr result (IsLiveStop (H.bytes host.old) options.now) }
    ensures reads { ReadsNamed (string_bytes options.now.program ∷ []) (H.log host.old) (H.log host.new) result }
{
    let program = program_at(alloc, host, options.program.as_str())?;
    match live_answer(rt, alloc, program, options) {
        Ok(answer) => Ok(answer),
        Err(LiveError::NoThread) => Err(CommandStop::Failed(CommandError::NoThread)),
        Err(LiveError::Stranger) => Err(CommandStop::Failed(CommandError::Stranger)),
        Err(LiveError::OutOfMemory) => Err(CommandStop::Failed(CommandError::OutOfMemory)),
        Err(LiveError::Blocked(_) | LiveError::TraceFull) => unreachable!(),
    }
}
