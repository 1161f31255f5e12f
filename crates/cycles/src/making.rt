//! Programs and recordings of cycles.

ghost use Rattle.std.specs.Prelude.{◌≡◌, IfOk, IfSome, MatchOption, MatchResult, None, Some};
ghost use Rattle.program_events.specs.ProgramOf.{IsProgramOf};
ghost use Rattle.recording.specs.Recording.{IsShortRecording};
ghost use Rattle.cycles.specs.Made.{AreCycle, HaveLetters, IsMade, IsMadeFrom, IsRefusal, IsWordsRefusal};

use crate::checking::{have_diy_values, is_made_of};
use crate::closing::{are_closed, first_open};
use crate::limits::first_beyond;
use crate::naming::{have_letters, rename_addresses};
use crate::planning::plan_events;
use crate::reading::words_in;
use crate::refusal::CycleRefusal;
use crate::word::Word;
use common::{EventId, OutOfMemory};
use program::Program;
use program_events::{is_numbered, is_program_of, named_program};
use recording::{Event, Recording, RecordingSize};
use std::alloc::Global;

/// What is made of a cycle.
#[derive(Drop)]
pub struct Made {
    /// The program.
    pub program: Program,
    /// The recording of it in which the cycle happens.
    pub recording: Recording,
    /// The event at which each word starts.
    pub events: Vec<EventId>,
}

/// The recording of these events, if it is one.
fn recording_of(
    alloc: Global,
    cores: Vec<Vec<Event>>,
    writes: Vec<Vec<EventId>>,
) -> Result<Option<Recording>, OutOfMemory>
    ensures { IfOk result (λ o. IfSome o IsShortRecording) }
{
    let mut init = Vec::new(alloc);
    for _ in 0..writes.len() {
        init.push(0)?;
    }
    match Recording::from_parts(alloc, RecordingSize::Short, cores, writes, init)? {
        Ok(recording) => Ok(Some(recording)),
        Err(_) => Ok(None),
    }
}

/// The program of a recording, with the names that diy gives addresses, if these are used in their order.
fn program_of(alloc: Global, recording: &Recording) -> Result<Option<Program>, OutOfMemory>
    requires { IsShortRecording recording.now }
    ensures program { IfOk result (λ o. IfSome o (λ p. IsProgramOf p recording.now)) }
    ensures names { IfOk result (λ o. IfSome o (λ p. HaveLetters p.names)) }
{
    if !is_numbered(recording) {
        return Ok(None);
    }
    let named = named_program(alloc, recording)?;
    let Some(program) = rename_addresses(alloc, &named)? else {
        return Ok(None);
    };
    if !is_program_of(&program, recording) || !have_letters(&program) {
        return Ok(None);
    }
    Ok(Some(program))
}

/// What is made of words.
fn made_from(alloc: Global, words: &[Word]) -> Result<Option<Made>, OutOfMemory>
    ensures { IfOk result (λ o. IfSome o (IsMadeFrom words.now)) }
{
    let Some(plan) = plan_events(alloc, words)? else {
        return Ok(None);
    };
    let Some(recording) = recording_of(alloc, plan.cores, plan.writes)? else {
        return Ok(None);
    };
    if !is_made_of(&recording, words, &plan.events) || !have_diy_values(&recording) {
        return Ok(None);
    }
    let Some(program) = program_of(alloc, &recording)? else {
        return Ok(None);
    };
    Ok(Some(Made {
        program,
        recording,
        events: plan.events,
    }))
}

/// Why words are no cycle within the limits, if they are none.
fn refusal_of(words: &[Word]) -> Option<CycleRefusal>
    ensures { MatchOption result (AreCycle words.now) (IsWordsRefusal words.now) }
{
    if let Some(at) = first_open(words) {
        return Some(CycleRefusal::Open(words.len().min(at + 2)));
    }
    if !are_closed(words) {
        return Some(CycleRefusal::Open(words.len()));
    }
    match first_beyond(words) {
        Some(number) => Some(CycleRefusal::Large(number)),
        None => None,
    }
}

/// The program of a cycle and the recording of it in which the cycle happens, or why there is none. Fails only if out
/// of memory.
pub fn make(alloc: Global, text: &[u8]) -> Result<Result<Made, CycleRefusal>, OutOfMemory>
    ensures { IfOk result (λ r. MatchResult r (IsMade text.now) (IsRefusal text.now)) }
{
    let words = match words_in(alloc, text)? {
        Ok(words) => words,
        Err(number) => return Ok(Err(CycleRefusal::Word(number))),
    };
    if let Some(refusal) = refusal_of(&words) {
        return Ok(Err(refusal));
    }
    match made_from(alloc, &words)? {
        Some(made) => Ok(Ok(made)),
        None => Ok(Err(CycleRefusal::Open(words.len()))),
    }
}
