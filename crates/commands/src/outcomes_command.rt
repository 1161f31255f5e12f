//! The command `outcomes`.
ghost use Rattle.std.specs.Prelude.{◌≡◌, ◌∷◌, [], IfErr, IfOk, Ok, string_bytes};
ghost use Rattle.inputs.specs.Inputs.{ReadsNamed};
ghost use Rattle.outcome_texts.specs.ObservedLine.{condition_of};
ghost use Rattle.commands.specs.Outcomes.{IsConditionStop, IsConditioned, IsLogAt, IsLogStop, IsOutcomes};
ghost use Rattle.commands.specs.Outcomes.{IsOutcomesStop, IsQuestionAnswer, IsQuestionStop, IsShownOutcome, item_line};
ghost use Rattle.commands.specs.Outcomes.{question_names};

use crate::choices::unseen_form;
use crate::shown_outcome::show_answer;
use command_line::{OutcomesOptions, Question};
use devices::Host;
use inputs::{CommandStop, PrintedRefusal, line_refusal, program_at, text_at};
use outcome_texts::{SeenLine, condition_of, log_says};
use outcomes::Observation;
use program::Program;
use program_answers::{Condition, LogDetails, condition_answer, log_answer, outcomes_answer};
use refusals::{O1, O2, refused_at};
use report::Answer;
use std::alloc::{AllocError, Global};

/// What the log of this name says of a program.
fn log_at<H: Host>(
    alloc: Global,
    program: &Program,
    name: &str,
    host: &mut H,
) -> Result<Vec<SeenLine>, CommandStop>
    ensures ok { IfOk result (λ lines. IsLogAt (H.bytes host.old) name.now program.now lines.items) }
    ensures err { IfErr result (λ stop. IsLogStop (H.bytes host.old) name.now stop program.now) }
    ensures reads { ReadsNamed (name.now ∷ []) (H.log host.old) (H.log host.new) result }
{
    let text = text_at(alloc, host, name)?;
    match log_says(alloc, program, text.as_slice())? {
        Ok(lines) => Ok(lines),
        Err(line) => Err(CommandStop::Refused(line_refusal(
            alloc,
            O1.name,
            line,
            text.as_slice(),
        )?)),
    }
}

/// What is printed for an item of a condition, counted from 1.
fn item_refusal(alloc: Global, item: usize) -> Result<PrintedRefusal, AllocError>
    ensures { IfOk result (λ refusal. string_bytes refusal.line ≡ item_line item) }
{
    let line = refused_at(alloc, &O2, item)?;
    Ok(PrintedRefusal { line, quote: None })
}

/// What a condition says of a program.
fn items_of(alloc: Global, program: &Program, text: &str) -> Result<Vec<Observation>, CommandStop>
    ensures ok { IfOk result (λ seen. condition_of program.now text.now ≡ Ok seen.items) }
    ensures err { IfErr result (λ stop. IsConditionStop text.now stop program.now) }
{
    match condition_of(alloc, program, text.as_bytes())? {
        Ok(seen) => Ok(seen),
        Err(item) => Err(CommandStop::Refused(item_refusal(alloc, item)?)),
    }
}

/// Whether a condition holds of a program.
fn answer_condition(
    alloc: Global,
    program: &Program,
    states: usize,
    condition: Condition,
    text: &str,
) -> Result<Answer, CommandStop>
    ensures ok { IfOk result (IsConditioned program.now states condition text.now) }
    ensures err { IfErr result (λ stop. IsConditionStop text.now stop program.now) }
{
    let seen = items_of(alloc, program, text)?;
    Ok(condition_answer(alloc, program, states, condition, &seen)?)
}

/// How the first outcome of a program comes about that has what a condition says.
fn first_outcome_answer(
    alloc: Global,
    program: &Program,
    states: usize,
    text: &str,
) -> Result<Answer, CommandStop>
    ensures ok { IfOk result (IsShownOutcome program.now states text.now) }
    ensures err { IfErr result (λ stop. IsConditionStop text.now stop program.now) }
{
    let seen = items_of(alloc, program, text)?;
    Ok(show_answer(alloc, program, states, &seen)?)
}

/// The answer to a question about the outcomes of a program.
fn question_answer<H: Host>(
    alloc: Global,
    program: &Program,
    states: usize,
    question: &Question,
    host: &mut H,
) -> Result<Answer, CommandStop>
    ensures ok { IfOk result (IsQuestionAnswer (H.bytes host.old) program.now states question.now) }
    ensures err { IfErr result
        (λ stop. IsQuestionStop (H.bytes host.old) question.now stop program.now) }
    ensures reads { ReadsNamed (question_names question.now) (H.log host.old) (H.log host.new) result }
{
    match question {
        Question::All => Ok(outcomes_answer(alloc, program, states)?),
        Question::Observed { file, unseen, why } => {
            let lines = log_at(alloc, program, file.as_str(), host)?;
            let details = LogDetails {
                unseen: unseen_form(*unseen),
                why: *why,
            };
            Ok(log_answer(alloc, program, states, &lines, details)?)
        }
        Question::Exists(items) => {
            answer_condition(alloc, program, states, Condition::Exists, items.as_str())
        }
        Question::Never(items) => {
            answer_condition(alloc, program, states, Condition::Never, items.as_str())
        }
        Question::Show(items) => first_outcome_answer(alloc, program, states, items.as_str()),
    }
}

/// Answers a question about the outcomes of the named program, which is read before a log is opened.
pub fn outcomes_command<H: Host>(
    alloc: Global,
    options: &OutcomesOptions,
    host: &mut H,
) -> Result<Answer, CommandStop>
    ensures ok { IfOk result (IsOutcomes (H.bytes host.old) options.now) }
    ensures err { IfErr result (IsOutcomesStop (H.bytes host.old) options.now) }
    ensures reads { ReadsNamed (string_bytes options.now.program ∷ question_names options.now.question)
        (H.log host.old) (H.log host.new) result }
{
    let program = program_at(alloc, host, options.program.as_str())?;
    question_answer(alloc, &program, options.states, &options.question, host)
}
