//! The check of a text.

ghost use Rattle.std.specs.Prelude.{◌≡◌, ◌≤◌, ◌↔◌, IfOk, IsTrue};
ghost use Rattle.std.specs.Fn.{FnOnceReturnsAt};
ghost use Rattle.common.specs.declared.limits.TheConstants.{MAX_EVENTS};
ghost use Rattle.recording.specs.Execution.{event_count};
ghost use Rattle.verdicts.specs.declared.verdict.Verdict.{Verdict as Given};
ghost use Rattle.verdicts.specs.Verified.{Verifies};
ghost use Rattle.verification.specs.declared.text_check.TextCheck.TheVariants.{Holds};
ghost use Rattle.verification.specs.Faults.{LinesHold, NamesFault};
ghost use Rattle.verification.specs.Proof.{IsProof, IsTextOfVerdict};

use crate::fault::fault;
use crate::labelled::read_verdict;
use crate::law::every_verdict_holds;
use crate::printed::is_verdict_text;
use crate::text_check::TextCheck;
use common::OutOfMemory;
use recording::Recording;
use std::alloc::Global;
use std::thread::Threads;
use verdict_check::{verify, verify_by};
use verdicts::Verdict;

/// Whether a text is a proof, where `holds` says whether a verdict holds.
fn is_proof<F: FnOnce(&Verdict) -> Result<bool, OutOfMemory>>(
    alloc: Global,
    recording: &Recording,
    text: &[u8],
    holds: F,
) -> Result<bool, OutOfMemory>
    requires few { event_count recording.now ≤ MAX_EVENTS }
    requires callable { F.IsAlwaysCallable holds }
    requires says { (v : Given) (r : _) → FnOnceReturnsAt F.FnOnce holds v r
        → IfOk r (λ is. IsTrue is ↔ Verifies recording.now v) }
    ensures { IfOk result (λ is. IsTrue is ↔ IsProof recording.now text.now) }
{
    let Some(verdict) = read_verdict(alloc, recording, text)? else {
        return Ok(false);
    };
    let holds = holds(&verdict)?;
    if !holds {
        return Ok(false);
    }
    is_verdict_text(alloc, recording, text, &verdict)
}

/// What is found of a text, where `holds` says whether a verdict holds.
fn check_by<F: FnOnce(&Verdict) -> Result<bool, OutOfMemory>>(
    alloc: Global,
    recording: &Recording,
    text: &[u8],
    holds: F,
) -> Result<TextCheck, OutOfMemory>
    requires few { event_count recording.now ≤ MAX_EVENTS }
    requires callable { F.IsAlwaysCallable holds }
    requires says { (v : Given) (r : _) → FnOnceReturnsAt F.FnOnce holds v r
        → IfOk r (λ is. IsTrue is ↔ Verifies recording.now v) }
    ensures exact { IfOk result (λ f. (f ≡ Holds) ↔ IsProof recording.now text.now) }
    ensures judged { IfOk result (λ f. IsTextOfVerdict recording.now text.now → f ≡ Holds) }
    ensures line { IfOk result (NamesFault (LinesHold recording.now) text.now) }
{
    recording.sound();
    every_verdict_holds();
    let is_proof = is_proof(alloc, recording, text, holds)?;
    if is_proof {
        return Ok(TextCheck::Holds);
    }
    fault(alloc, recording, text)
}

/// Whether a text is that of a verdict that holds of a recording of at most `MAX_EVENTS` events, whoever wrote it: the
/// line of any memory order of TSO, of any read that overlooks a store, or any shortest cycle of forced pairs, each
/// with its first reason, and labels of at most 16 bits that show that none is shorter. With more than one worker the
/// labels are checked by threads. The numbers of the text are read whatever stands between them; the verdict of these
/// numbers is checked, printed and compared. Else the first line that does not hold after those before it: a pair of a
/// cycle holds where it is forced and begins where the one before ends, a row of labels where it shows that no cycle
/// through its event is shorter. Any bytes will do. The memory that it takes goes with the square of the number of
/// events, however long the text is. Fails only if out of memory.
pub fn check_text<R: Threads + Sync>(
    rt: &R,
    alloc: Global,
    recording: &Recording,
    text: &[u8],
    workers: usize,
) -> Result<TextCheck, OutOfMemory>
    requires few { event_count recording.now ≤ MAX_EVENTS }
    ensures exact { IfOk result (λ f. (f ≡ Holds) ↔ IsProof recording.now text.now) }
    ensures judged { IfOk result (λ f. IsTextOfVerdict recording.now text.now → f ≡ Holds) }
    ensures line { IfOk result (NamesFault (LinesHold recording.now) text.now) }
{
    check_by(
        alloc,
        recording,
        text,
        |verdict: &Verdict|
            requires { event_count recording.now ≤ MAX_EVENTS }
            ensures { IfOk result (λ is. IsTrue is ↔ Verifies recording.entry.now verdict.now) }
        { verify_by(rt, alloc, recording, verdict, workers) },
    )
}

/// What `check_text` answers, without threads: it does not block. Fails only if out of memory.
pub fn check_text_alone(
    alloc: Global,
    recording: &Recording,
    text: &[u8],
) -> Result<TextCheck, OutOfMemory>
    requires few { event_count recording.now ≤ MAX_EVENTS }
    ensures exact { IfOk result (λ f. (f ≡ Holds) ↔ IsProof recording.now text.now) }
    ensures judged { IfOk result (λ f. IsTextOfVerdict recording.now text.now → f ≡ Holds) }
    ensures line { IfOk result (NamesFault (LinesHold recording.now) text.now) }
{
    check_by(
        alloc,
        recording,
        text,
        |verdict: &Verdict|
            requires { event_count recording.now ≤ MAX_EVENTS }
            ensures { IfOk result (λ is. IsTrue is ↔ Verifies recording.entry.now verdict.now) }
        { verify(alloc, recording, verdict) },
    )
}
