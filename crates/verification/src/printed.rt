//! A text beside what is printed.

ghost use Rattle.std.specs.Prelude.{◌≡◌, ◌↔◌, IfOk, IsTrue};
ghost use Rattle.verdicts.specs.VerdictText.{IsVerdictText};
ghost use Rattle.verdicts.specs.Verified.{Verifies};
ghost use Rattle.verification.specs.Held.{IsFirstDifference};

use crate::text_check::TextCheck;
use common::OutOfMemory;
use recording::Recording;
use std::alloc::Global;
use verdicts::{Verdict, verdict_text};

/// The first line of a text that is none of another; or that more lines are due, where all its lines are.
pub(crate) fn first_difference(text: &[u8], printed: &[u8]) -> TextCheck
    ensures { IsFirstDifference text.now printed.now result }
{
    let mut line = 1;
    let mut begins = true;
    for i in 0..text.len() {
        if i >= printed.len() || text[i] != printed[i] {
            return TextCheck::FailsAt(line);
        }
        begins = text[i] == b'\n';
        if begins {
            line = line.wrapping_add(1);
        }
    }
    if begins {
        TextCheck::EndsEarly
    } else {
        TextCheck::FailsAt(line)
    }
}

/// Whether a text is what is printed.
pub(crate) fn is_printed(text: &[u8], printed: &[u8]) -> bool
    ensures { IsTrue result ↔ (text.now ≡ printed.now) }
{
    text == printed
}

/// Whether a text is that of a verdict that holds. Fails only if out of memory.
pub(crate) fn is_verdict_text(
    alloc: Global,
    recording: &Recording,
    text: &[u8],
    verdict: &Verdict,
) -> Result<bool, OutOfMemory>
    requires { Verifies recording.now verdict.now }
    ensures { IfOk result (λ is. IsTrue is ↔ IsVerdictText recording.now verdict.now text.now) }
{
    let printed = verdict_text(alloc, recording, verdict)?;
    Ok(is_printed(text, &printed))
}
