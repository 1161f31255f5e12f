//! The recording that values leave, where they leave one alone.

ghost use Rattle.std.specs.Prelude.{◌≡◌, ◌<◌, ◌≤◌, ℕ, IfOk, IfSome, None, length, map, slice_index_or};
ghost use Rattle.common.specs.declared.limits.TheConstants.{MAX_EVENTS};
ghost use Rattle.recording.specs.Execution.{Execution};
ghost use Rattle.recording.specs.Order.{Enumerates};
ghost use Rattle.recording.specs.Recording.{executed};
ghost use Rattle.values.specs.Values.{Values, unsourced};
ghost use Rattle.completion.specs.Only.{AreDetermined, HasValues, IsFeeder, IsOnlyRecording, LeaveNoChoice};
ghost use Rattle.completion.specs.Pairs.{IsTable};
ghost use Rattle.completion.specs.Performed.{HaveRoom};

use crate::determined::leave_no_choice;
use crate::feeding::is_fed_by;
use crate::known::{keeps_finals, keeps_sources};
use crate::room::have_room;
use crate::sourced::cores_with_sources;
use crate::table::{Placed, table};
use crate::writing::write_lists;
use common::{EventId, MAX_EVENTS, OutOfMemory};
use recording::{Event, Recording, RecordingSize};
use std::alloc::Global;
use values::Values;

/// A recording is the only one of values that leave no choice. It does nothing.
pub fn determined_have_one_recording()
    ensures { (v : Values) (x : Execution) → AreDetermined v → HasValues v x → IsOnlyRecording v x }
{}

/// The first write that may feed an event.
fn first_source(values: &Values, table: &[Placed], e: usize) -> Option<EventId>
    requires table { IsTable values.now table.now }
    requires few { length table.now ≤ MAX_EVENTS }
    requires there { e < length table.now }
    ensures { IsFeeder values.now e result }
{
    for w in 0..table.len() {
        if is_fed_by(values, table, e, w) {
            return Some(w as EventId);
        }
    }
    None
}

/// For each event the first write that may feed it.
fn first_sources(
    alloc: Global,
    values: &Values,
    table: &[Placed],
) -> Result<Vec<Option<EventId>>, OutOfMemory>
    requires table { IsTable values.now table.now }
    requires few { length table.now ≤ MAX_EVENTS }
    ensures { IfOk result (λ sources. (e : ℕ) → e < length table.now
        → IsFeeder values.now e (slice_index_or sources.items e None)) }
{
    let mut sources = Vec::new(alloc);
    for e in 0..table.len() {
        sources.push(first_source(values, table, e))?;
    }
    Ok(sources)
}

/// The numbers below `count`.
fn numbers_below(alloc: Global, count: usize) -> Result<Vec<EventId>, OutOfMemory>
    requires { count ≤ MAX_EVENTS }
    ensures { IfOk result (λ numbers. Enumerates (λ e. e < count) numbers.items) }
{
    let mut numbers = Vec::new(alloc);
    for number in 0..count {
        numbers.push(number as EventId)?;
    }
    Ok(numbers)
}

/// The recording of these events and write lists, if it is one of the values.
fn recording_with(
    alloc: Global,
    values: &Values,
    cores: Vec<Vec<Event>>,
    writes: Vec<Vec<EventId>>,
) -> Result<Option<Recording>, OutOfMemory>
    requires { map (map unsourced) (map (λ l. l.items) cores.items) ≡ values.now.cores }
    ensures some { IfOk result (λ o. IfSome o (λ x. HasValues values.now x)) }
    ensures none { IfOk result (λ o. o ≡ None → ¬ HasValues values.now
        (executed (map (λ l. l.items) cores.items) (map (λ l. l.items) writes.items) values.now.initial)) }
{
    let init = Vec::from_slice(alloc, values.init())?;
    let size = RecordingSize::Short;
    let Ok(recording) = Recording::from_parts(alloc, size, cores, writes, init)? else {
        return Ok(None);
    };
    if !keeps_sources(values, &recording) || !keeps_finals(values, &recording) {
        return Ok(None);
    }
    Ok(Some(recording))
}

/// The recording of the sources and the write lists that no choice leaves, if it is one of the values.
fn recording_without_choice(
    alloc: Global,
    values: &Values,
    table: &[Placed],
) -> Result<Option<Recording>, OutOfMemory>
    requires table { IsTable values.now table.now }
    requires room { HaveRoom values.now }
    requires choice { LeaveNoChoice values.now }
    ensures some { IfOk result (λ o. IfSome o (λ x. HasValues values.now x)) }
    ensures none { IfOk result (λ o. o ≡ None → (x : Execution) → ¬ HasValues values.now x) }
{
    let sources = first_sources(alloc, values, table)?;
    let numbers = numbers_below(alloc, table.len())?;
    let writes = write_lists(alloc, values, table, numbers.as_slice())?;
    let cores = cores_with_sources(alloc, values, sources.as_slice())?;
    let recording = recording_with(alloc, values, cores, writes)?;
    Ok(recording)
}

/// The recording of these values, whether TSO allows it or not, where there is one alone: each read has one source at
/// most, which is not the event itself, and each address one write. None where there are more choices, or none. Fails
/// only if out of memory.
pub fn only_recording(alloc: Global, values: &Values) -> Result<Option<Recording>, OutOfMemory>
    ensures some { IfOk result (λ o. IfSome o (λ x. IsOnlyRecording values.now x)) }
    ensures none { IfOk result (λ o. o ≡ None → LeaveNoChoice values.now → (x : Execution) → ¬ HasValues values.now x) }
{
    determined_have_one_recording();
    let table = table(alloc, values)?;
    if !have_room(values, &table) {
        return Ok(None);
    }
    if !leave_no_choice(values, &table) {
        return Ok(None);
    }
    let recording = recording_without_choice(alloc, values, &table)?;
    Ok(recording)
}
