//! Recordings of which some events alone keep what they read.

ghost use Rattle.common.specs.declared.limits.TheConstants.{MAX_RECORDED_EVENTS};
ghost use Rattle.std.specs.Prelude.{◌≡◌, ◌≤◌, ◌+◌, IfOk, length, map};
ghost use Rattle.recording.specs.Execution.{event_count};
ghost use Rattle.reduction.specs.Pruned.{pruned, pruned_cores, pruned_event, pruned_events};

use common::{EventId, OutOfMemory};
use recording::{Event, Recording, times};
use std::alloc::Global;

/// An event, which as a read-modify-write is the store of what it wrote where it is none of these.
fn pruned_event(event: &Event, number: EventId, readers: &[EventId]) -> Event
    ensures { result ≡ pruned_event readers.now number event.now }
{
    match event {
        Event::R { a, r, s, w } => {
            if times(readers, number) == 0 {
                Event::S { a: *a, w: *w }
            } else {
                Event::R {
                    a: *a,
                    r: *r,
                    s: *s,
                    w: *w,
                }
            }
        }
        Event::L { .. } => *event,
        Event::S { .. } => *event,
        Event::C { .. } => *event,
        Event::F => *event,
    }
}

/// The events of a core, the first of which has this number.
fn pruned_events(
    alloc: Global,
    events: &[Event],
    first: usize,
    readers: &[EventId],
) -> Result<Vec<Event>, OutOfMemory>
    requires { first + length events.now ≤ MAX_RECORDED_EVENTS }
    ensures { IfOk result (λ found. found.items ≡ pruned_events readers.now first events.now) }
{
    let mut pruned = Vec::with_capacity(alloc, events.len())?;
    for i in 0..events.len() {
        pruned.push(pruned_event(&events[i], (first + i) as EventId, readers))?;
    }
    Ok(pruned)
}

/// The events of each core.
fn pruned_cores(
    alloc: Global,
    recording: &Recording,
    readers: &[EventId],
) -> Result<Vec<Vec<Event>>, OutOfMemory>
    ensures { IfOk result (λ found. map (λ v. v.items) found.items
        ≡ pruned_cores readers.now 0 recording.now.cores) }
{
    recording.sound();
    let cores = recording.cores();
    let mut pruned = Vec::with_capacity(alloc, cores.len())?;
    let mut first = 0;
    for core in cores {
        let events = pruned_events(alloc, core, first, readers)?;
        pruned.push(events)?;
        first += core.len();
    }
    Ok(pruned)
}

/// The recording in which each read-modify-write that is none of these events is the store of what it wrote.
pub(crate) fn prune(
    alloc: Global,
    recording: &Recording,
    readers: &[EventId],
) -> Result<Recording, OutOfMemory>
    ensures { IfOk result (λ whole. whole ≡ pruned recording.now readers.now) }
{
    recording.sound();
    let cores = pruned_cores(alloc, recording, readers)?;
    let mut writes = Vec::with_capacity(alloc, recording.addresses())?;
    for list in recording.writes() {
        writes.push(Vec::from_slice(alloc, list)?)?;
    }
    let init = Vec::from_slice(alloc, recording.init())?;
    Recording::new(alloc, cores, writes, init)
}
