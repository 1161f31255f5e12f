//! What is answered of the counts of campaigns and of surveys.

ghost use Rattle.std.specs.Prelude.{◌≡◌, ◌++◌, IfOk};
ghost use Rattle.verdicts.specs.declared.outcome.Outcome.TheVariants.{Unfinished};
ghost use Rattle.answers.specs.Campaign.{IsTrialsAnswer, ledger_outcome};
ghost use Rattle.answers.specs.Survey.{IsSurveyAnswer, IsValuesSurveyAnswer, empty_line, values_outcome};

use common::OutOfMemory;
use ledger::{Ledger, SurveyLedger, campaign_text, survey_text, values_survey_text};
use std::alloc::Global;
use verdicts::{Answer, Outcome};

/// Where the counts of a survey stand.
#[derive(Clone, Copy, PartialEq, Eq)]
pub enum CountsPlace {
    /// They are all that is printed.
    Alone,
    /// Lines of recordings come before them, and an empty line.
    AfterLines,
}

/// The outcome of a ledger: `Violation` where there is one, else the given outcome where something has no verdict.
fn outcome_of(ledger: &Ledger, unjudged: Outcome) -> Outcome
    ensures { result ≡ ledger_outcome unjudged ledger.now }
{
    if ledger.first.is_some() {
        Outcome::Violation
    } else if ledger.unjudged > 0 {
        unjudged
    } else {
        Outcome::Done
    }
}

/// The text of a campaign's ledger, and `Violation` where a trial violates TSO, else `Unfinished` where
/// one is unfinished, else `Done`. Fails only if out of memory.
pub fn trials_answer(alloc: Global, ledger: &Ledger) -> Result<Answer, OutOfMemory>
    ensures { IfOk result (IsTrialsAnswer ledger.now) }
{
    let text = campaign_text(alloc, ledger)?;
    let outcome = outcome_of(ledger, Outcome::Unfinished);
    Ok(Answer { outcome, text })
}

/// What stands between counts and what comes before them.
fn empty_line(place: CountsPlace) -> &'static [u8]
    ensures { result.now ≡ empty_line place }
{
    match place {
        CountsPlace::Alone => b"",
        CountsPlace::AfterLines => b"\n",
    }
}

/// A text of counts in its place.
fn counts_in(alloc: Global, place: CountsPlace, counts: &[u8]) -> Result<Vec<u8>, OutOfMemory>
    ensures { IfOk result (λ text. text.items ≡ empty_line place ++ counts.now) }
{
    let mut text = Vec::from_slice(alloc, empty_line(place))?;
    text.extend_from_slice(counts)?;
    Ok(text)
}

/// The text of a survey's ledger in its place, and `Violation` where a recording violates TSO, else `Refused` where one
/// is refused, else `Done`. Fails only if out of memory.
pub fn survey_answer(
    alloc: Global,
    ledger: &Ledger,
    place: CountsPlace,
) -> Result<Answer, OutOfMemory>
    ensures { IfOk result (IsSurveyAnswer place ledger.now) }
{
    let counts = survey_text(alloc, ledger)?;
    let text = counts_in(alloc, place, &counts)?;
    let outcome = outcome_of(ledger, Outcome::Refused);
    Ok(Answer { outcome, text })
}

/// The outcome of a survey of values: `Violation` where TSO does not allow some, else `Refused` where some are unread,
/// else `Unfinished` where some are, else `Done`.
fn values_outcome(ledger: &SurveyLedger) -> Outcome
    ensures { result ≡ values_outcome ledger.now }
{
    if ledger.ledger.first.is_some() {
        Outcome::Violation
    } else if ledger.unread.count > 0 {
        Outcome::Refused
    } else if ledger.unfinished.count > 0 {
        Outcome::Unfinished
    } else {
        Outcome::Done
    }
}

/// The text of a survey of values in its place, and its outcome. Fails only if out of memory.
pub fn values_survey_answer(
    alloc: Global,
    ledger: &SurveyLedger,
    place: CountsPlace,
) -> Result<Answer, OutOfMemory>
    ensures { IfOk result (IsValuesSurveyAnswer place ledger.now) }
{
    let counts = values_survey_text(alloc, ledger)?;
    let text = counts_in(alloc, place, &counts)?;
    let outcome = values_outcome(ledger);
    Ok(Answer { outcome, text })
}
