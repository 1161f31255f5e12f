//! What is printed, and the outcome.

ghost use Rattle.std.specs.Prelude.{◌≡◌, IfOk};
ghost use Rattle.verdicts.specs.Judgement.{IsVerdict};
ghost use Rattle.verdicts.specs.Verified.{Verifies};
ghost use Rattle.verdicts.specs.VerdictAnswer.{IsVerdictAnswer, outcome_of};

use crate::outcome::Outcome;
use crate::text::put_verdict;
use crate::verdict::Verdict;
use common::OutOfMemory;
use recording::Recording;
use std::alloc::{AllocError, Global};

/// What a command prints on standard output, and its outcome.
#[derive(Drop)]
pub struct Answer {
    /// The outcome.
    pub outcome: Outcome,
    /// The bytes for standard output.
    pub text: Vec<u8>,
}

impl Answer {
    /// The answer with a copy of a text. Fails only if out of memory.
    pub fn of(alloc: Global, outcome: Outcome, text: &str) -> Result<Answer, AllocError>
        ensures { IfOk result (λ a. (a.outcome ≡ outcome) × (a.text.items ≡ text.now)) }
    {
        let text = Vec::from_slice(alloc, text.as_bytes())?;
        Ok(Answer { outcome, text })
    }
}

/// The outcome of a verdict: only an order is no violation.
pub fn outcome_of(verdict: &Verdict) -> Outcome
    ensures { result ≡ outcome_of verdict.now }
{
    match verdict {
        Verdict::Ordered(_) => Outcome::Ordered,
        Verdict::Overlook { .. } | Verdict::Cycle(_) => Outcome::Violation,
    }
}

/// The text of a verdict that is the recording's and passes its check, after a text that is printed before it. Fails
/// only if out of memory.
pub fn verdict_answer(
    alloc: Global,
    mut text: Vec<u8>,
    recording: &Recording,
    verdict: &Verdict,
) -> Result<Answer, OutOfMemory>
    requires found { IsVerdict recording.now verdict.now }
    requires verified { Verifies recording.now verdict.now }
    ensures { IfOk result (IsVerdictAnswer recording.now text.items) }
{
    put_verdict(alloc, &mut text, recording, verdict)?;
    let outcome = outcome_of(verdict);
    Ok(Answer { outcome, text })
}
