//! What is answered of the outcomes of a program.

ghost use Rattle.std.specs.Prelude.{◌≡◌, ◌++◌, ◌∷◌, [], IfOk, codes};
ghost use Rattle.program_answers.specs.LogAnswer.{IsLogAnswer, IsLogReport};
ghost use Rattle.program_answers.specs.Outcomes.{IsConditionAnswer, IsOutcomesAnswer, IsText};
ghost use Rattle.program_answers.specs.Outcomes.{condition_outcome, condition_text, is_met, log_outcome, reply_to};
ghost use Rattle.program_answers.specs.Why.{IsWhyAsked};

use crate::why::why_text;
use common::OutOfMemory;
use outcome_texts::{Report, SeenLine, UnseenForm, outcomes_text, report_on};
use outcomes::{Observation, explains, outcomes};
use program::Program;
use std::alloc::Global;
use verdicts::{Answer, Outcome};

/// What is asked of items.
#[derive(Clone, Copy, PartialEq, Eq)]
pub enum Condition {
    /// Some outcome has them.
    Exists,
    /// None has.
    Never,
}

/// What is answered where there are more states than may be seen. Fails only if out of memory.
pub fn unfinished_answer(alloc: Global) -> Result<Answer, OutOfMemory>
    ensures { IfOk result (IsText Outcome.Unfinished (codes "unfinished" ++ 10 ∷ [])) }
{
    Ok(Answer::of(alloc, Outcome::Unfinished, "unfinished\n")?)
}

/// The outcomes that TSO allows of a program, as a text, or `unfinished` where there are more states than this. Fails
/// only if out of memory.
pub fn outcomes_answer(
    alloc: Global,
    program: &Program,
    states: usize,
) -> Result<Answer, OutOfMemory>
    ensures { IfOk result (IsOutcomesAnswer program.now states) }
{
    match outcomes(alloc, program, states)? {
        Some(found) => {
            let text = outcomes_text(alloc, program, found.as_slice())?;
            Ok(Answer {
                outcome: Outcome::Done,
                text,
            })
        }
        None => unfinished_answer(alloc),
    }
}

/// A violation where a line of a log is forbidden.
fn log_outcome(forbidden: usize) -> Outcome
    ensures { result ≡ log_outcome forbidden }
{
    if forbidden == 0 {
        Outcome::Done
    } else {
        Outcome::Violation
    }
}

/// What is printed of a log beside its lines and how many are allowed and forbidden.
#[derive(Clone, Copy, PartialEq, Eq)]
pub struct LogDetails {
    /// What is printed of the outcomes that no line shows.
    pub unseen: UnseenForm,
    /// Whether what is answered of the values of the first forbidden line that has all reads is printed.
    pub why: bool,
}

/// What is printed after the report on a log, if it is asked for.
fn why_asked(
    alloc: Global,
    program: &Program,
    states: usize,
    outcomes: &[outcomes::Outcome],
    lines: &[SeenLine],
    details: LogDetails,
) -> Result<Vec<u8>, OutOfMemory>
    ensures { IfOk result (λ text. IsWhyAsked details.why states program.now outcomes.now lines.now text.items) }
{
    if !details.why {
        return Ok(Vec::new(alloc));
    }
    why_text(alloc, program, states, outcomes, lines)
}

/// The report on a log by all outcomes of a program.
fn log_report(
    alloc: Global,
    program: &Program,
    states: usize,
    outcomes: &[outcomes::Outcome],
    lines: &[SeenLine],
    details: LogDetails,
) -> Result<Answer, OutOfMemory>
    ensures { IfOk result (IsLogReport program.now states lines.now details outcomes.now) }
{
    let report = report_on(alloc, program, outcomes, lines, details.unseen)?;
    let why = why_asked(alloc, program, states, outcomes, lines, details)?;
    let Report {
        mut text,
        forbidden,
    } = report;
    text.extend_from_slice(&why)?;
    Ok(Answer {
        outcome: log_outcome(forbidden),
        text,
    })
}

/// The report on what a log says of a program, or `unfinished` where there are more states than this. Fails only if out
/// of memory.
pub fn log_answer(
    alloc: Global,
    program: &Program,
    states: usize,
    lines: &[SeenLine],
    details: LogDetails,
) -> Result<Answer, OutOfMemory>
    ensures { IfOk result (IsLogAnswer program.now states lines.now details) }
{
    match outcomes(alloc, program, states)? {
        Some(found) => log_report(alloc, program, states, found.as_slice(), lines, details),
        None => unfinished_answer(alloc),
    }
}

/// Whether a condition holds, as it is printed.
#[derive(Clone, Copy, PartialEq, Eq)]
pub enum Reply {
    /// It holds.
    Yes,
    /// It does not.
    No,
}

/// The answer to a condition. Fails only if out of memory.
pub fn met_answer(alloc: Global, reply: Reply) -> Result<Answer, OutOfMemory>
    ensures { IfOk result (IsText (condition_outcome reply) (condition_text reply)) }
{
    match reply {
        Reply::Yes => Ok(Answer::of(alloc, Outcome::Done, "Yes\n")?),
        Reply::No => Ok(Answer::of(alloc, Outcome::Violation, "No\n")?),
    }
}

/// Whether a condition holds of these outcomes.
fn is_met(condition: Condition, found: &[outcomes::Outcome], seen: &[Observation]) -> bool
    ensures { result ≡ is_met condition found.now seen.now }
{
    match condition {
        Condition::Exists => explains(found, seen),
        Condition::Never => !explains(found, seen),
    }
}

/// Whether a condition holds of these outcomes, as it is printed.
fn reply_to(condition: Condition, found: &[outcomes::Outcome], seen: &[Observation]) -> Reply
    ensures { result ≡ reply_to condition found.now seen.now }
{
    if is_met(condition, found, seen) {
        Reply::Yes
    } else {
        Reply::No
    }
}

/// `Yes` or `No`: whether a condition holds of a program, or `unfinished` where there are more states than this. Fails
/// only if out of memory.
pub fn condition_answer(
    alloc: Global,
    program: &Program,
    states: usize,
    condition: Condition,
    seen: &[Observation],
) -> Result<Answer, OutOfMemory>
    ensures { IfOk result (IsConditionAnswer program.now states condition seen.now) }
{
    match outcomes(alloc, program, states)? {
        Some(found) => met_answer(alloc, reply_to(condition, found.as_slice(), seen)),
        None => unfinished_answer(alloc),
    }
}
