//! The options of the command with a name.
ghost use Rattle.std.specs.Prelude.{◌≡◌, ◌≢◌, ◌+◌, ◌%◌, ◌^◌, IfOk, List, None, Some, codes};
ghost use Rattle.clap.specs.Words.{Row, found_of, rows_of};
ghost use Rattle.command_line.specs.Entries.{HasEntries, HasText};
ghost use Rattle.command_line.specs.Options.{AreExplainOptions};
ghost use Rattle.command_line.specs.Options.{AreOptionsOf};
ghost use Rattle.command_line.specs.Options.{AreValuesAsked, IsCompletionAsked, IsQuestion, size_asked};
ghost use Rattle.command_line.specs.Refusals.{refusal_of};

use crate::entries::maybe_texts;
use crate::names::{joined_names, maybe_given, name_given};
use crate::options::{
    CompleteOptions, DrawOptions, ExplainOptions, FileOptions, JudgeOptions, LiveOptions,
    MakeOptions, MergeOptions, Options, OutcomesOptions, Question, RunOptions, SurveyOptions,
    TrialsOptions, VerifyOptions,
};
use crate::values::Values;
use clap::ArgMatches;
use program::Campaign;
use recording::RecordingSize;
use std::alloc::{AllocError, Global};

/// The size of the recordings that are taken.
fn size_asked(values: &Values) -> RecordingSize
    ensures { (rows : List Row) → AreValuesAsked values.now rows → result ≡ size_asked rows }
{
    if values.flags.long {
        RecordingSize::Long
    } else {
        RecordingSize::Short
    }
}

/// The recording, the program that may name its addresses, and the labels that its events may have.
fn recording_options(
    alloc: Global,
    matches: &ArgMatches<'_>,
    values: &Values,
) -> Result<ExplainOptions, AllocError>
    requires file { HasText (codes "FILE") (rows_of (found_of matches.now)) }
    requires values { AreValuesAsked values.now (rows_of (found_of matches.now)) }
    ensures { IfOk result (λ o. AreExplainOptions o (rows_of (found_of matches.now))) }
{
    Ok(ExplainOptions {
        file: name_given(alloc, matches, "FILE")?,
        size: size_asked(values),
        program: maybe_given(alloc, matches, "program")?,
        labels: maybe_given(alloc, matches, "labels")?,
    })
}

/// The campaign of sizes, which have to be there.
fn campaign_of(values: &Values) -> Campaign
    requires sizes { values.now.shape ≢ None }
    requires values { (rows : List Row) × AreValuesAsked values.now rows }
    ensures shape { values.now.shape ≡ Some result.shape }
    ensures rest { result ≡ record {
      shape = result.shape;
      base = (values.now.seed + values.now.part.first) % 2 ^ 64;
      trials = values.now.part.trials;
      attempts = values.now.attempts;
      capacity = values.now.buffer;
      fault = values.now.fault;
    } }
{
    let Some(shape) = values.shape else {
        unreachable!()
    };
    shape.sound();
    Campaign::of_plan(
        shape,
        values.seed.wrapping_add(values.part.first),
        values.part.trials as usize,
        values.attempts,
        values.buffer,
        values.fault,
    )
}

/// The options of `run`.
fn run_options(
    alloc: Global,
    matches: &ArgMatches<'_>,
    values: &Values,
) -> Result<Options, AllocError>
    requires program { HasText (codes "PROGRAM") (rows_of (found_of matches.now)) }
    requires values { AreValuesAsked values.now (rows_of (found_of matches.now)) }
    ensures { IfOk result (λ o. AreOptionsOf o (codes "run") (rows_of (found_of matches.now))) }
{
    Ok(Options::Run(RunOptions {
        program: name_given(alloc, matches, "PROGRAM")?,
        steps: maybe_given(alloc, matches, "steps")?,
        seed: values.seed,
        attempts: values.attempts,
        buffer: values.buffer,
        fault: values.fault,
        runs: values.counts.runs,
        workers: values.workers,
    }))
}

/// How many states are looked at at most for each line, where lines are completed.
fn completion_asked(values: &Values) -> Option<usize>
    ensures { (rows : List Row) → AreValuesAsked values.now rows → IsCompletionAsked result rows }
{
    if values.flags.complete {
        Some(values.counts.states)
    } else {
        None
    }
}

/// The options of `survey`.
fn survey_options(
    alloc: Global,
    matches: &ArgMatches<'_>,
    values: &Values,
) -> Result<Options, AllocError>
    requires file { HasText (codes "FILE") (rows_of (found_of matches.now)) }
    requires values { AreValuesAsked values.now (rows_of (found_of matches.now)) }
    ensures { IfOk result (λ o. AreOptionsOf o (codes "survey") (rows_of (found_of matches.now))) }
{
    Ok(Options::Survey(SurveyOptions {
        file: name_given(alloc, matches, "FILE")?,
        each: values.flags.each,
        show: values.show,
        reduce: values.flags.reduce,
        workers: values.workers,
        quiet: values.flags.quiet,
        long: values.flags.long,
        complete: completion_asked(values),
        from: values.counts.from,
        lines: values.counts.lines,
        header: values.flags.header,
    }))
}

/// The options of `merge`.
fn merge_options(
    alloc: Global,
    matches: &ArgMatches<'_>,
    values: &Values,
) -> Result<Options, AllocError>
    requires file { HasText (codes "FILE") (rows_of (found_of matches.now)) }
    requires values { AreValuesAsked values.now (rows_of (found_of matches.now)) }
    ensures { IfOk result (λ o. AreOptionsOf o (codes "merge") (rows_of (found_of matches.now))) }
{
    let Some(texts) = maybe_texts(matches, "FILE") else {
        unreachable!()
    };
    let mut files = Vec::new(alloc);
    for text in texts {
        let name = String::from_str(alloc, text)?;
        files.push(name)?;
    }
    Ok(Options::Merge(MergeOptions {
        files,
        partial: values.flags.partial,
    }))
}

/// The question that entries ask of outcomes.
fn question(
    alloc: Global,
    matches: &ArgMatches<'_>,
    values: &Values,
) -> Result<Question, AllocError>
    requires { AreValuesAsked values.now (rows_of (found_of matches.now)) }
    ensures { IfOk result (λ q. IsQuestion q (rows_of (found_of matches.now))) }
{
    if let Some(file) = maybe_given(alloc, matches, "observed")? {
        return Ok(Question::Observed {
            file,
            unseen: values.flags.unseen,
            why: values.flags.why,
        });
    }
    if let Some(items) = maybe_given(alloc, matches, "exists")? {
        return Ok(Question::Exists(items));
    }
    if let Some(items) = maybe_given(alloc, matches, "never")? {
        return Ok(Question::Never(items));
    }
    if let Some(items) = maybe_given(alloc, matches, "items")? {
        return Ok(Question::Show(items));
    }
    Ok(Question::All)
}

/// The options of `outcomes`.
fn outcomes_options(
    alloc: Global,
    matches: &ArgMatches<'_>,
    values: &Values,
) -> Result<Options, AllocError>
    requires program { HasText (codes "PROGRAM") (rows_of (found_of matches.now)) }
    requires values { AreValuesAsked values.now (rows_of (found_of matches.now)) }
    ensures { IfOk result (λ o. AreOptionsOf o (codes "outcomes") (rows_of (found_of matches.now))) }
{
    let program = name_given(alloc, matches, "PROGRAM")?;
    let question = question(alloc, matches, values)?;
    Ok(Options::Outcomes(OutcomesOptions {
        program,
        question,
        states: values.counts.states,
    }))
}

/// The options of `make`.
fn make_options(
    alloc: Global,
    matches: &ArgMatches<'_>,
    values: &Values,
) -> Result<Options, AllocError>
    requires { AreValuesAsked values.now (rows_of (found_of matches.now)) }
    ensures { IfOk result (λ o. AreOptionsOf o (codes "make") (rows_of (found_of matches.now))) }
{
    if let Some(events) = values.counts.cycles {
        return Ok(Options::Make(MakeOptions::All {
            events,
            forbidden: values.flags.forbidden,
        }));
    }
    let words = joined_names(alloc, matches, "WORD")?;
    Ok(Options::Make(MakeOptions::Cycle(words)))
}

/// The options of `judge`, with `--long` or without it.
fn judge_options(
    alloc: Global,
    matches: &ArgMatches<'_>,
    values: &Values,
) -> Result<Options, AllocError>
    requires file { HasText (codes "FILE") (rows_of (found_of matches.now)) }
    requires values { AreValuesAsked values.now (rows_of (found_of matches.now)) }
    ensures { IfOk result (λ o. AreOptionsOf o (codes "judge") (rows_of (found_of matches.now))) }
{
    let file = name_given(alloc, matches, "FILE")?;
    if values.flags.long {
        return Ok(Options::JudgeLong(FileOptions { file }));
    }
    Ok(Options::Judge(JudgeOptions {
        file,
        workers: values.workers,
    }))
}

/// The options of `trials`.
fn trials_options(values: &Values) -> Options
    requires sizes { values.now.shape ≢ None }
    requires values { (rows : List Row) × AreValuesAsked values.now rows }
    ensures { (rows : List Row) → AreValuesAsked values.now rows → AreOptionsOf result (codes "trials") rows }
{
    Options::Trials(TrialsOptions {
        campaign: campaign_of(values),
        workers: values.workers,
        show: values.show,
        reduce: values.flags.reduce,
        header: values.flags.header,
        quiet: values.flags.quiet,
    })
}

/// The options of `live`.
fn live_options(
    alloc: Global,
    matches: &ArgMatches<'_>,
    values: &Values,
) -> Result<Options, AllocError>
    requires program { HasText (codes "PROGRAM") (rows_of (found_of matches.now)) }
    requires values { AreValuesAsked values.now (rows_of (found_of matches.now)) }
    ensures { IfOk result (λ o. AreOptionsOf o (codes "live") (rows_of (found_of matches.now))) }
{
    Ok(Options::Live(LiveOptions {
        program: name_given(alloc, matches, "PROGRAM")?,
        buffer: values.buffer,
        limit: values.limit,
        runs: values.counts.runs,
    }))
}

/// The options of `replay`.
fn replay_options(alloc: Global, matches: &ArgMatches<'_>) -> Result<Options, AllocError>
    requires { HasText (codes "FILE") (rows_of (found_of matches.now)) }
    ensures { IfOk result (λ o. AreOptionsOf o (codes "replay") (rows_of (found_of matches.now))) }
{
    Ok(Options::Replay(FileOptions {
        file: name_given(alloc, matches, "FILE")?,
    }))
}

/// The options of `explain`.
fn explain_options(
    alloc: Global,
    matches: &ArgMatches<'_>,
    values: &Values,
) -> Result<Options, AllocError>
    requires file { HasText (codes "FILE") (rows_of (found_of matches.now)) }
    requires values { AreValuesAsked values.now (rows_of (found_of matches.now)) }
    ensures { IfOk result (λ o. AreOptionsOf o (codes "explain") (rows_of (found_of matches.now))) }
{
    Ok(Options::Explain(recording_options(alloc, matches, values)?))
}

/// The options of `draw`.
fn draw_options(
    alloc: Global,
    matches: &ArgMatches<'_>,
    values: &Values,
) -> Result<Options, AllocError>
    requires file { HasText (codes "FILE") (rows_of (found_of matches.now)) }
    requires values { AreValuesAsked values.now (rows_of (found_of matches.now)) }
    ensures { IfOk result (λ o. AreOptionsOf o (codes "draw") (rows_of (found_of matches.now))) }
{
    Ok(Options::Draw(DrawOptions {
        recording: recording_options(alloc, matches, values)?,
        all: values.flags.all,
    }))
}

/// The options of `reduce`.
fn reduce_options(
    alloc: Global,
    matches: &ArgMatches<'_>,
    values: &Values,
) -> Result<Options, AllocError>
    requires file { HasText (codes "FILE") (rows_of (found_of matches.now)) }
    requires values { AreValuesAsked values.now (rows_of (found_of matches.now)) }
    ensures { IfOk result (λ o. AreOptionsOf o (codes "reduce") (rows_of (found_of matches.now))) }
{
    Ok(Options::Reduce(recording_options(alloc, matches, values)?))
}

/// The options of `verify`.
fn verify_options(
    alloc: Global,
    matches: &ArgMatches<'_>,
    values: &Values,
) -> Result<Options, AllocError>
    requires recording { HasText (codes "RECORDING") (rows_of (found_of matches.now)) }
    requires verdict { HasText (codes "VERDICT") (rows_of (found_of matches.now)) }
    requires values { AreValuesAsked values.now (rows_of (found_of matches.now)) }
    ensures { IfOk result (λ o. AreOptionsOf o (codes "verify") (rows_of (found_of matches.now))) }
{
    Ok(Options::Verify(VerifyOptions {
        recording: name_given(alloc, matches, "RECORDING")?,
        verdict: name_given(alloc, matches, "VERDICT")?,
        size: size_asked(values),
        workers: values.workers,
    }))
}

/// The options of `complete`.
fn complete_options(
    alloc: Global,
    matches: &ArgMatches<'_>,
    values: &Values,
) -> Result<Options, AllocError>
    requires file { HasText (codes "FILE") (rows_of (found_of matches.now)) }
    requires values { AreValuesAsked values.now (rows_of (found_of matches.now)) }
    ensures { IfOk result (λ o. AreOptionsOf o (codes "complete") (rows_of (found_of matches.now))) }
{
    Ok(Options::Complete(CompleteOptions {
        file: name_given(alloc, matches, "FILE")?,
        states: values.counts.states,
    }))
}

/// The options of the command with this name.
pub fn named_options(
    alloc: Global,
    name: &str,
    matches: &ArgMatches<'_>,
    values: &Values,
) -> Result<Options, AllocError>
    requires entries { HasEntries (name.now, rows_of (found_of matches.now)) }
    requires values { AreValuesAsked values.now (rows_of (found_of matches.now)) }
    requires unrefused { refusal_of (rows_of (found_of matches.now)) ≡ None }
    ensures { IfOk result (λ o. AreOptionsOf o name.now (rows_of (found_of matches.now))) }
{
    match name {
        "run" => run_options(alloc, matches, values),
        "judge" => judge_options(alloc, matches, values),
        "trials" => Ok(trials_options(values)),
        "live" => live_options(alloc, matches, values),
        "replay" => replay_options(alloc, matches),
        "explain" => explain_options(alloc, matches, values),
        "draw" => draw_options(alloc, matches, values),
        "reduce" => reduce_options(alloc, matches, values),
        "verify" => verify_options(alloc, matches, values),
        "survey" => survey_options(alloc, matches, values),
        "merge" => merge_options(alloc, matches, values),
        "outcomes" => outcomes_options(alloc, matches, values),
        "complete" => complete_options(alloc, matches, values),
        "make" => make_options(alloc, matches, values),
        _ => unreachable!(),
    }
}
