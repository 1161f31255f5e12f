//! From the words of a command line to what is printed.
ghost use Rattle.std.specs.Prelude.{◌≡◌, ◌≢◌, ◌++◌, ◌∷◌, [], Err, IfErr, IfNone, IfOk, IfSome, List, Option, map};
ghost use Rattle.std.specs.Prelude.{string_bytes};
ghost use Rattle.clap.specs.Words.{Row, Text};
ghost use Rattle.command_line.specs.Options.{AreOptions};
ghost use Rattle.devices.specs.Bytes.{FailsBy};
ghost use Rattle.inputs.specs.Inputs.{ReadsNamed, is_write_failure};
ghost use Rattle.commands.specs.Command.{IsAnswerTo, IsCommandStop, input_names};
ghost use Rattle.command_line.specs.Commands.{command_of};
ghost use Rattle.commands.specs.Perform.{IsErrorFor, IsErrorOf, IsOutputOf, IsWrittenFor, Tallies, WritesAtOnce};
ghost use Rattle.commands.specs.Perform.{WritesEarly, world};
ghost use Rattle.commands.specs.Survey.{TellsEach};

use crate::complete_command::complete_command;
use crate::judge_command::judge_command;
use crate::live_command::live_command;
use crate::long_command::long_command;
use crate::make_command::make_command;
use crate::outcomes_command::outcomes_command;
use crate::output::write_output;
use crate::render_command::render_command;
use crate::replay_command::replay_command;
use crate::run_command::run_command;
use crate::survey_command::{each_command, survey_command};
use crate::trials_command::trials_command;
use crate::verify_command::verify_command;
use crate::without_options::without_options;
use answers::{Rendering, Telling, picture_form};
use command_line::words::options;
use command_line::{Options, SurveyOptions};
use devices::{Host, Sink};
use inputs::{CommandError, CommandStop, PrintedRefusal};
use merging::merge_command;
use report::{Answer, Outcome};
use std::alloc::Global;
use std::sync::Wait;
use std::thread::Threads;

/// What the command answers that these options ask for, which are not those of a survey that tells each recording.
fn answer_to<R: Threads + Wait + Sync, H: Host>(
    rt: &R,
    alloc: Global,
    options: &Options,
    host: &mut H,
) -> Result<Answer, CommandStop>
    requires options { (command : Option (Text × List Row)) × AreOptions options.now command }
    requires whole { WritesEarly options.now → ⊥ }
    ensures ok { IfOk result (IsAnswerTo (H.bytes host.old) options.now) }
    ensures err { IfErr result (IsCommandStop (H.bytes host.old) options.now) }
    ensures reads { ReadsNamed (input_names options.now) (H.log host.old) (H.log host.new) result }
{
    match options {
        Options::Run(run) => run_command(rt, alloc, run, host),
        Options::Judge(judge) => judge_command(rt, alloc, judge, host),
        Options::JudgeLong(long) => long_command(alloc, long, host),
        Options::Trials(trials) => trials_command(rt, alloc, trials, host),
        Options::Live(live) => live_command(rt, alloc, live, host),
        Options::Replay(replay) => replay_command(alloc, replay, host),
        Options::Explain(explain) => {
            render_command(alloc, Rendering::Told(Telling::Words), explain, host)
        }
        Options::Draw(draw) => {
            let picture = Rendering::Told(picture_form(draw.all));
            render_command(alloc, picture, &draw.recording, host)
        }
        Options::Reduce(reduce) => render_command(alloc, Rendering::Reduction, reduce, host),
        Options::Verify(verify) => verify_command(rt, alloc, verify, host),
        Options::Survey(survey) => survey_command(rt, alloc, survey, host),
        Options::Merge(merge) => merge_command(alloc, merge, host),
        Options::Outcomes(outcomes) => outcomes_command(alloc, outcomes, host),
        Options::Complete(complete) => complete_command(alloc, complete, host),
        Options::Make(make) => make_command(alloc, make),
    }
}

/// The output of what is answered. The host is shown the line of an input that is refused.
fn output_of<H: Host>(
    host: &mut H,
    answered: Result<Answer, CommandStop>,
) -> Result<Answer, CommandError>
    ensures ok { IfOk result (IsOutputOf answered) }
    ensures err { IfErr result (λ error. answered ≡ Err (CommandStop.Failed error)) }
    ensures log { H.log host.new ≡ H.log host.old }
{
    match answered {
        Ok(answer) => Ok(answer),
        Err(CommandStop::Refused(PrintedRefusal { line, quote })) => {
            if let Some(quote) = quote {
                host.refuse(quote);
            }
            Ok(Answer {
                outcome: Outcome::Refused,
                text: line.into_bytes(),
            })
        }
        Err(CommandStop::Failed(error)) => Err(error),
    }
}

/// The options of `survey`, where these are its and each recording is reported.
fn survey_of_each(options: &Options) -> Option<&SurveyOptions>
    ensures some { IfSome result (λ o. (options.now ≡ Options.Survey o.now) × TellsEach o.now) }
    ensures none { IfNone result (WritesEarly options.now → ⊥) }
{
    match options {
        Options::Survey(survey) if survey.each && survey.show.is_none() => Some(survey),
        _ => None,
    }
}

/// Writes what these options ask for.
fn perform_options<R: Threads + Wait + Sync, H: Host, W: Sink>(
    rt: &R,
    alloc: Global,
    options: &Options,
    host: &mut H,
    out: &mut W,
) -> Result<Outcome, CommandError>
    requires options { (command : Option (Text × List Row)) × AreOptions options.now command }
    ensures written { (words : List Text) → AreOptions options.now (command_of words)
        → IsWrittenFor (H.bytes host.old) words (world (H.log host.old) (W.written out.old))
        (world (H.log host.new) (W.written out.new)) result }
    ensures error { IfErr result (IsErrorFor (H.bytes host.old) options.now (H.log host.old) (H.log host.new)) }
    ensures reads { Tallies (H.log host.old).tally (H.log host.new).tally result }
    ensures writes { FailsBy is_write_failure (W.write_failed out.old) (W.write_failed out.new) result }
    ensures unwritten { IfErr result (λ error. error ≢ CommandError.WriteFailed → (WritesEarly options.now → ⊥)
        → out.new ≡ out.old) }
{
    if let Some(survey) = survey_of_each(options) {
        return each_command(rt, alloc, survey, host, out);
    }
    let answered = answer_to(rt, alloc, options, host);
    let output = output_of(host, answered)?;
    write_output(out, &output)
}

/// Does what the words ask and writes what the command prints. Answers the outcome. The words
/// come without the program's name. Fails by an error of the command line, an input that isn't read, threads under
/// `live`, running out of memory, or a write. Nothing is written before the whole answer stands, but the lines of
/// `survey --each`.
pub fn perform<R: Threads + Wait + Sync, H: Host, W: Sink>(
    rt: &R,
    alloc: Global,
    words: &[String],
    host: &mut H,
    out: &mut W,
) -> Result<Outcome, CommandError>
    ensures written { IsWrittenFor (H.bytes host.old) (map string_bytes words.now)
        (world (H.log host.old) (W.written out.old)) (world (H.log host.new) (W.written out.new)) result }
    ensures error { IfErr result (IsErrorOf (H.bytes host.old) (map string_bytes words.now)
        (H.log host.old) (H.log host.new)) }
    ensures reads { Tallies (H.log host.old).tally (H.log host.new).tally result }
    ensures writes { FailsBy is_write_failure (W.write_failed out.old) (W.write_failed out.new) result }
    // An error leaves the sink as it was, unless a write failed or lines of recordings came before it.
    ensures unwritten { IfErr result (λ error. error ≢ CommandError.WriteFailed
        → WritesAtOnce (map string_bytes words.now) → out.new ≡ out.old) }
{
    match options(alloc, words) {
        Ok(options) => perform_options(rt, alloc, &options, host, out),
        Err(stop) => {
            let output = output_of(host, without_options(alloc, stop))?;
            write_output(out, &output)
        }
    }
}
