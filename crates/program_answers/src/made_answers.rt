//! What is answered of cycles.

ghost use Rattle.std.specs.Prelude.{◌≡◌, ◌<◌, ◌≤◌, ◌++◌, [], ℕ, List, IfOk, OnOk, length, map, slice_index_or};
ghost use Rattle.common.specs.declared.limits.TheConstants.{MAX_EVENTS};
ghost use Rattle.recording.specs.Execution.{event_count};
ghost use Rattle.recording.specs.Recording.{IsShortRecording};
ghost use Rattle.verdicts.specs.VerdictAnswer.{IsVerdictAnswer};
ghost use Rattle.program_answers.specs.Cycles.{ArePicked, IsListAnswer, IsPick, IsSaidToBeAllowed, IsSaidToBeForbidden};
ghost use Rattle.program_answers.specs.Cycles.{IsWanted};
ghost use Rattle.answers.specs.Reduced.{shown_text};

use answers::append_verdict;
use common::OutOfMemory;
use cycles::{Made, critical_cycles, cycle_text, make};
use judge::{Verdict, judge_alone};
use recording::Recording;
use std::alloc::Global;
use verdicts::{Answer, Outcome};

/// The program of a cycle, an empty line, and the line of its recording with the verdict on it. Fails only if out of
/// memory.
pub fn made_answer(alloc: Global, made: &Made) -> Result<Answer, OutOfMemory>
    requires { IsShortRecording made.now.recording }
    ensures { IfOk result (IsVerdictAnswer made.now.recording (shown_text made.now.program made.now.recording)) }
{
    append_verdict(alloc, Vec::new(alloc), &made.program, &made.recording)
}

/// Whether TSO allows a recording.
fn is_allowed(alloc: Global, recording: &Recording) -> Result<bool, OutOfMemory>
    requires { event_count recording.now ≤ MAX_EVENTS }
    ensures { IfOk result (IsSaidToBeAllowed recording.now) }
{
    match judge_alone(alloc, recording)? {
        Verdict::Ordered(_) => Ok(true),
        Verdict::Overlook { .. } => Ok(false),
        Verdict::Cycle(_) => Ok(false),
    }
}

/// Whether TSO forbids the recording of a cycle; false where nothing is made of the words.
fn is_forbidden(alloc: Global, text: &[u8]) -> Result<bool, OutOfMemory>
    ensures { IfOk result (IsSaidToBeForbidden text.now) }
{
    let Ok(made) = make(alloc, text)? else {
        return Ok(false);
    };
    Ok(!is_allowed(alloc, &made.recording)?)
}

/// Which critical cycles are listed.
#[derive(Clone, Copy, PartialEq, Eq)]
pub enum CycleChoice {
    /// Each.
    Each,
    /// Those that TSO forbids.
    Forbidden,
}

/// Whether the line of a cycle is wanted.
fn is_wanted(alloc: Global, text: &[u8], choice: CycleChoice) -> Result<bool, OutOfMemory>
    ensures { IfOk result (IsWanted choice text.now) }
{
    match choice {
        CycleChoice::Each => Ok(true),
        CycleChoice::Forbidden => is_forbidden(alloc, text),
    }
}

/// Adds the line of a cycle, if it is wanted.
fn put_cycle(
    out: &mut Vec<u8>,
    alloc: Global,
    blocks: &[u8],
    choice: CycleChoice,
) -> Result<(), OutOfMemory>
    ensures { OnOk result ((line : List ℕ) × IsPick choice blocks.now line
        × (out.new.items ≡ out.old.items ++ line)) }
{
    let mut line = cycle_text(alloc, blocks)?;
    if !is_wanted(alloc, &line, choice)? {
        return Ok(());
    }
    line.push(b'\n')?;
    out.extend_from_slice(&line)?;
    Ok(())
}

/// Adds the line of one of the cycles.
fn put_cycle_at(
    out: &mut Vec<u8>,
    alloc: Global,
    cycles: &[Vec<u8>],
    at: usize,
    choice: CycleChoice,
) -> Result<(), OutOfMemory>
    requires { at < length cycles.now }
    ensures { OnOk result ((line : List ℕ)
        × IsPick choice (slice_index_or (map (λ v. v.items) cycles.now) at []) line
        × (out.new.items ≡ out.old.items ++ line)) }
{
    put_cycle(out, alloc, &cycles[at], choice)
}

/// The lines of cycles.
fn cycle_lines(
    alloc: Global,
    cycles: &[Vec<u8>],
    choice: CycleChoice,
) -> Result<Vec<u8>, OutOfMemory>
    ensures { IfOk result (λ text. ArePicked choice (map (λ v. v.items) cycles.now) (length cycles.now) text.items) }
{
    let mut out = Vec::new(alloc);
    for at in 0..cycles.len() {
        put_cycle_at(&mut out, alloc, cycles, at, choice)?;
    }
    Ok(out)
}

/// The critical cycles with at most this many events that are chosen, a line each. Fails only if out of memory.
pub fn cycles_answer(
    alloc: Global,
    events: usize,
    choice: CycleChoice,
) -> Result<Answer, OutOfMemory>
    ensures { IfOk result (IsListAnswer events choice) }
{
    let cycles = critical_cycles(alloc, events)?;
    let text = cycle_lines(alloc, &cycles, choice)?;
    Ok(Answer {
        outcome: Outcome::Done,
        text,
    })
}
