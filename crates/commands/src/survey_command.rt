//! The command `survey`.
ghost use Rattle.std.specs.Prelude.{◌≡◌, ◌≢◌, ◌∷◌, [], IfErr, IfOk, List, string_bytes};
ghost use Rattle.std.specs.Io.KnownBytes.{Appends};
ghost use Rattle.devices.specs.Bytes.{FailsBy};
ghost use Rattle.surveys.specs.declared.reports.Reports.TheVariants.{EachLine};
ghost use Rattle.surveys.specs.Surveys.{told_text};
ghost use Rattle.inputs.specs.Inputs.{ReadsNamed, ReadsInput, is_write_failure};
ghost use Rattle.commands.specs.Survey.{IsCountsAnswer, IsEachError, IsEachWritten, IsShown, IsSurveyed, IsSurveyOf};
ghost use Rattle.commands.specs.Survey.{IsSurveyStop, TellsEach, line_kind, lines_counted, range_of, survey_header};

use crate::choices::{progress_visibility, violation_form};
use crate::headed::with_header;
use crate::output::write_output;
use answers::{CountsPlace, line_answer, survey_answer, values_survey_answer};
use command_line::SurveyOptions;
use common::OutOfMemory;
use devices::{Host, MemorySink, Sink};
use headers::{Counted, Header};
use inputs::{CommandError, CommandStop, open_input};
use refusals::K11;
use report::{Answer, Outcome, long_answer};
use std::alloc::Global;
use std::sync::Wait;
use std::thread::Threads;
use surveys::{
    Finding, LineKind, LineRange, LinesOf, Reports, SurveyError, SurveyLedger, line_of, survey,
};

/// What the lines are.
fn line_kind(options: &SurveyOptions) -> LineKind
    ensures { result ≡ line_kind options.now.long options.now.complete }
{
    match options.complete {
        Some(states) => LineKind::Values(states),
        None if options.long => LineKind::LongRecording,
        None => LineKind::Recording,
    }
}

/// Whose counts a header is.
fn lines_counted(options: &SurveyOptions) -> Counted
    ensures { result ≡ lines_counted options.now.long }
{
    if options.long {
        Counted::LongSurvey
    } else {
        Counted::Survey
    }
}

/// What is answered to one recording.
fn answer_to_line(
    alloc: Global,
    options: &SurveyOptions,
    line: &[u8],
) -> Result<Answer, OutOfMemory>
    ensures { IfOk result (IsShown options.now.long options.now.reduce line.now) }
{
    if options.long {
        long_answer(alloc, line)
    } else {
        line_answer(alloc, line, violation_form(options.reduce))
    }
}

/// What is answered of the counts of lines.
fn counts_answer(
    alloc: Global,
    complete: Option<usize>,
    ledger: &SurveyLedger,
    place: CountsPlace,
) -> Result<Answer, OutOfMemory>
    ensures { IfOk result (IsCountsAnswer complete place ledger.now) }
{
    match complete {
        Some(_) => values_survey_answer(alloc, ledger, place),
        None => survey_answer(alloc, &ledger.ledger, place),
    }
}

/// The lines that are surveyed.
fn range_of(options: &SurveyOptions) -> LineRange
    ensures { result ≡ range_of options.now }
{
    LineRange {
        first: options.from as u64,
        count: match options.lines {
            Some(count) => Some(count as u64),
            None => None,
        },
    }
}

/// The header of the counts of lines, where one is asked for.
fn survey_header(options: &SurveyOptions) -> Option<Header>
    ensures { result ≡ survey_header options.now }
{
    let count = match options.lines {
        Some(count) if options.header => count,
        _ => return None,
    };
    Some(Header {
        counted: lines_counted(options),
        first: options.from as u64,
        count: count as u64,
    })
}

/// Counts the recordings of the named input, and writes the line of each where it is reported.
fn count_recordings<R: Threads + Wait + Sync, H: Host, W: Sink>(
    rt: &R,
    alloc: Global,
    options: &SurveyOptions,
    host: &mut H,
    out: &mut W,
    reports: Reports,
) -> Result<SurveyLedger, CommandError>
    ensures ok { IfOk result (λ ledger. (findings : List Finding)
        × IsSurveyed (H.bytes host.old) options.now findings ledger
        × Appends (W.written out.old) (W.written out.new) (told_text reports 0 findings)) }
    ensures error { IfErr result (IsEachError (H.bytes host.old) options.now) }
    ensures reads { ReadsInput (string_bytes options.now.file) (H.log host.old) (H.log host.new) result }
    ensures writes { FailsBy is_write_failure (W.write_failed out.old) (W.write_failed out.new) result }
    ensures silent { reports ≢ EachLine → out.new ≡ out.old }
{
    let input = open_input(alloc, host, options.file.as_str())?;
    let mut lines = LinesOf::new(input, range_of(options));
    let progress = host.progress(None, progress_visibility(options.quiet));
    let kind = line_kind(options);
    let surveyed = survey(
        rt,
        alloc,
        kind,
        &mut lines,
        out,
        reports,
        options.workers,
        &progress,
    );
    drop(progress);
    host.take_back(lines.into_source());
    match surveyed {
        Ok(ledger) => Ok(ledger),
        Err(SurveyError::ReadFailed) => Err(CommandError::ReadFailed),
        Err(SurveyError::WriteFailed) => Err(CommandError::WriteFailed),
        Err(SurveyError::OutOfMemory) => Err(CommandError::OutOfMemory),
        Err(SurveyError::TooLong) => Err(CommandError::TooLong),
    }
}

/// Counts the recordings of the named input; their lines and the counts are written, the lines as soon as they are
/// known.
pub fn each_command<R: Threads + Wait + Sync, H: Host, W: Sink>(
    rt: &R,
    alloc: Global,
    options: &SurveyOptions,
    host: &mut H,
    out: &mut W,
) -> Result<Outcome, CommandError>
    requires told { TellsEach options.now }
    ensures whole { IfOk result (IsEachWritten (H.bytes host.old) options.now (W.written out.old)
        (W.written out.new)) }
    ensures error { IfErr result (IsEachError (H.bytes host.old) options.now) }
    ensures reads { ReadsInput (string_bytes options.now.file) (H.log host.old) (H.log host.new) result }
    ensures writes { FailsBy is_write_failure (W.write_failed out.old) (W.write_failed out.new) result }
{
    let ledger = count_recordings(rt, alloc, options, host, out, Reports::EachLine)?;
    let counts = counts_answer(alloc, options.complete, &ledger, CountsPlace::AfterLines)?;
    write_output(out, &counts)
}

/// Counts the recordings of the named input, or answers one of them.
pub fn survey_command<R: Threads + Wait + Sync, H: Host>(
    rt: &R,
    alloc: Global,
    options: &SurveyOptions,
    host: &mut H,
) -> Result<Answer, CommandStop>
    requires told { TellsEach options.now → ⊥ }
    ensures ok { IfOk result (IsSurveyOf (H.bytes host.old) options.now options.now.show) }
    ensures err { IfErr result (IsSurveyStop (H.bytes host.old) options.now options.now.show) }
    ensures reads { ReadsNamed (string_bytes options.now.file ∷ []) (H.log host.old) (H.log host.new) result }
{
    match options.show {
        Some(k) => {
            let input = open_input(alloc, host, options.file.as_str())?;
            let mut lines = LinesOf::new(input, range_of(options));
            let line = line_of(alloc, &mut lines, k);
            host.take_back(lines.into_source());
            match line {
                Ok(Some(line)) => Ok(answer_to_line(alloc, options, line.as_slice())?),
                Ok(None) => Err(CommandStop::of_name(alloc, K11.name)),
                Err(SurveyError::ReadFailed) => Err(CommandStop::Failed(CommandError::ReadFailed)),
                Err(SurveyError::WriteFailed) => unreachable!(),
                Err(SurveyError::OutOfMemory) => {
                    Err(CommandStop::Failed(CommandError::OutOfMemory))
                }
                Err(SurveyError::TooLong) => Err(CommandStop::Failed(CommandError::TooLong)),
            }
        }
        None => {
            let mut out = MemorySink::new(alloc);
            let ledger = count_recordings(rt, alloc, options, host, &mut out, Reports::NoLine)?;
            let counts = counts_answer(alloc, options.complete, &ledger, CountsPlace::Alone)?;
            Ok(with_header(alloc, survey_header(options), counts)?)
        }
    }
}
