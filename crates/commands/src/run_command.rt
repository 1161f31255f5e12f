//! The command `run`.
ghost use Rattle.std.specs.Prelude.{◌∷◌, [], IfErr, IfOk, List, option_map, string_bytes};
ghost use Rattle.clap.specs.Words.{Row};
ghost use Rattle.command_line.specs.Options.{AreRunOptions};
ghost use Rattle.inputs.specs.Inputs.{ReadsNamed};
ghost use Rattle.commands.specs.Command.{input_names, script_name};
ghost use Rattle.command_line.specs.declared.options.Options.{Options};
ghost use Rattle.commands.specs.Run.{IsRun, IsRunStop, IsScriptAnswer, IsScriptStop};

use command_line::RunOptions;
use devices::Host;
use histograms::SeededRuns;
use inputs::{CommandError, CommandStop, line_refusal, program_at, step_refusal_name, text_at};
use machine::{StepsError, parse_steps};
use program::Program;
use report::Answer;
use run_answers::{script_answer, seeded_answer, seeded_histogram_answer};
use std::alloc::Global;
use std::thread::Threads;

/// The answer of a program that is run by the script of this name.
fn script_run<H: Host>(
    alloc: Global,
    program: Program,
    options: &RunOptions,
    name: &str,
    host: &mut H,
) -> Result<Answer, CommandStop>
    ensures ok { IfOk result (IsScriptAnswer (H.bytes host.old) options.now program name.now) }
    ensures err { IfErr result (λ stop. IsScriptStop (H.bytes host.old) name.now stop program) }
    ensures reads { ReadsNamed (name.now ∷ []) (H.log host.old) (H.log host.new) result }
{
    let text = text_at(alloc, host, name)?;
    match parse_steps(alloc, text.as_slice(), &program) {
        Ok(steps) => {
            drop(text);
            Ok(script_answer(alloc, program, options.buffer, options.fault, &steps)?)
        }
        Err(StepsError::OutOfMemory) => Err(CommandStop::Failed(CommandError::OutOfMemory)),
        Err(StepsError::AtLine(refusal, line)) => Err(CommandStop::Refused(line_refusal(
            alloc,
            step_refusal_name(refusal),
            line,
            text.as_slice(),
        )?)),
    }
}

/// Runs the named program by the named script, or else by random steps, or counts random runs; the program is read
/// before the script is opened.
pub fn run_command<R: Threads + Sync, H: Host>(
    rt: &R,
    alloc: Global,
    options: &RunOptions,
    host: &mut H,
) -> Result<Answer, CommandStop>
    requires options { (rows : List Row) × AreRunOptions options.now rows }
    ensures ok { IfOk result (IsRun (H.bytes host.old) options.now) }
    ensures err { IfErr result
        (IsRunStop (H.bytes host.old) options.now
        (script_name options.now.runs (option_map string_bytes options.now.steps))) }
    ensures reads { ReadsNamed (input_names (Options.Run options.now)) (H.log host.old) (H.log host.new) result }
{
    let program = program_at(alloc, host, options.program.as_str())?;
    match (options.runs, &options.steps) {
        (Some(runs), _) => {
            let runs = SeededRuns {
                seed: options.seed,
                runs,
                attempts: options.attempts,
                buffer: options.buffer,
                fault: options.fault,
                workers: options.workers,
            };
            Ok(seeded_histogram_answer(rt, alloc, &program, &runs)?)
        }
        (None, Some(name)) => script_run(alloc, program, options, name.as_str(), host),
        (None, None) => Ok(seeded_answer(
            alloc,
            program,
            options.buffer,
            options.fault,
            options.seed,
            options.attempts,
        )?),
    }
}
