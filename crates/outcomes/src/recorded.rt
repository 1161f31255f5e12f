//! The outcome of a recording.

ghost use Rattle.std.specs.Prelude.{◌≡◌, ◌<◌, ℕ, IfOk, length, slice_index};
ghost use Rattle.recording.specs.Event.{value_read};
ghost use Rattle.recording.specs.Execution.{event_at, event_count};
ghost use Rattle.values.specs.Final.{final_value};
ghost use Rattle.outcomes.specs.Outcome.{IsOutcomeOf};

use crate::outcome::Outcome;
use common::{EventId, OutOfMemory};
use recording::Recording;
use std::alloc::Global;
use values::final_value;

/// The value that an event read, 0 where it does not read and past the last event.
#[tactic(auto, using(recording::specs::EventLaws::event_past))]
fn value_read(recording: &Recording, number: EventId) -> u32
    ensures { result ≡ value_read (event_at recording.now number) }
{
    match recording.event(number) {
        Some((_, event)) => event.value_read(),
        None => 0,
    }
}

/// For each event the value that it read, 0 where it does not read.
fn reads_of(alloc: Global, recording: &Recording) -> Result<Vec<u32>, OutOfMemory>
    ensures events { IfOk result (λ v. length v.items ≡ event_count recording.now) }
    ensures reads { IfOk result (λ v. (e : ℕ) → slice_index v.items e ≡ value_read (event_at recording.now e)) }
{
    recording.sound();
    let mut reads = Vec::with_capacity(alloc, recording.len())?;
    for number in 0..recording.len() {
        reads.push(value_read(recording, number as EventId))?;
    }
    Ok(reads)
}

/// For each address the value that it ends with.
fn memory_of(alloc: Global, recording: &Recording) -> Result<Vec<u32>, OutOfMemory>
    ensures addresses { IfOk result (λ v. length v.items ≡ length recording.now.initial) }
    ensures memory { IfOk result (λ v. (a : ℕ) → a < length recording.now.initial
        → slice_index v.items a ≡ final_value recording.now a) }
{
    let addresses = recording.init().len();
    let mut memory = Vec::with_capacity(alloc, addresses)?;
    for address in 0..addresses {
        memory.push(final_value(recording, address))?;
    }
    Ok(memory)
}

/// What the events of a recording read, and what its addresses have in the end. Fails only if out of memory.
pub fn outcome_of(alloc: Global, recording: &Recording) -> Result<Outcome, OutOfMemory>
    ensures { IfOk result (IsOutcomeOf recording.now) }
{
    let reads = reads_of(alloc, recording)?;
    let memory = memory_of(alloc, recording)?;
    Ok(Outcome::new(reads, memory))
}
