//! Values with some of their events alone.

ghost use Rattle.std.specs.Prelude.{◌≡◌, ◌↔◌, ◌<◌, ◌≤◌, ℕ, IfOk, length, map, option_map, slice_index};
ghost use Rattle.std.specs.Prelude.{slice_index_or, []};
ghost use Rattle.common.specs.declared.limits.TheConstants.{MAX_EVENTS};
ghost use Rattle.recording.specs.Order.{place};
ghost use Rattle.completion.specs.Left.{IsInRow};
ghost use Rattle.completion.specs.Pairs.{IsTable};
ghost use Rattle.completion.specs.Part.{IsMember, IsRestriction, events_on, source_in};

use crate::counts::core_count;
use crate::ending::kept_finals;
use crate::feeding::source_at;
use crate::table::{Placed, core_of, event_at};
use bitrow::BitRow;
use common::{EventId, OutOfMemory};
use recording::{Event, place};
use std::alloc::Global;
use values::Values;

/// The events of a core that are kept.
fn kept_events(
    alloc: Global,
    values: &Values,
    table: &[Placed],
    kept: &[EventId],
    core: usize,
) -> Result<Vec<Event>, OutOfMemory>
    requires table { IsTable values.now table.now }
    requires kept { (i : ℕ) → i < length kept.now → slice_index kept.now i < length table.now }
    ensures { IfOk result (λ events. events.items ≡ events_on values.now kept.now core) }
{
    let mut events = Vec::new(alloc);
    for number in kept {
        if core_of(values, table, *number as usize) == core {
            events.push(event_at(values, table, *number as usize))?;
        }
    }
    Ok(events)
}

/// The events of each core that are kept.
fn kept_cores(
    alloc: Global,
    values: &Values,
    table: &[Placed],
    kept: &[EventId],
) -> Result<Vec<Vec<Event>>, OutOfMemory>
    requires table { IsTable values.now table.now }
    requires kept { (i : ℕ) → i < length kept.now → slice_index kept.now i < length table.now }
    ensures count { IfOk result (λ cores. length cores.items ≡ length values.now.cores) }
    ensures events { IfOk result (λ cores. (c : ℕ) → c < length values.now.cores
        → slice_index_or (map (λ v. v.items) cores.items) c [] ≡ events_on values.now kept.now c) }
{
    let mut cores = Vec::new(alloc);
    for core in 0..core_count(values) {
        let events = kept_events(alloc, values, table, kept, core)?;
        cores.push(events)?;
    }
    Ok(cores)
}

/// The place of a source among the events that are kept.
fn place_of(kept: &[EventId], source: Option<EventId>) -> Option<EventId>
    requires { length kept.now ≤ MAX_EVENTS }
    ensures { result ≡ option_map (place kept.now) source }
{
    match source {
        Some(write) => Some(place(kept, write) as EventId),
        None => None,
    }
}

/// The source of an event that is known, by its place among the events that are kept.
fn source_in(values: &Values, kept: &[EventId], number: EventId) -> Option<Option<EventId>>
    requires { length kept.now ≤ MAX_EVENTS }
    ensures { result ≡ source_in values.now kept.now number }
{
    match source_at(values, number as usize) {
        Some(source) => Some(place_of(kept, source)),
        None => None,
    }
}

/// The sources of the events that are kept, where they are known.
fn kept_sources(
    alloc: Global,
    values: &Values,
    kept: &[EventId],
) -> Result<Vec<Option<Option<EventId>>>, OutOfMemory>
    requires { length kept.now ≤ MAX_EVENTS }
    ensures { IfOk result (λ sources. sources.items ≡ map (source_in values.now kept.now) kept.now) }
{
    let mut sources = Vec::new(alloc);
    for number in kept {
        sources.push(source_in(values, kept, *number))?;
    }
    Ok(sources)
}

/// The values with the events alone that are kept, which are those of a row. Fails only if out of memory.
pub(crate) fn restrict_to(
    alloc: Global,
    values: &Values,
    table: &[Placed],
    row: &BitRow,
    kept: &[EventId],
) -> Result<Values, OutOfMemory>
    requires table { IsTable values.now table.now }
    requires row { length row.now ≡ length table.now }
    requires same { (e : ℕ) → IsMember kept.now e ↔ IsInRow row.now e }
    requires few { length kept.now ≤ MAX_EVENTS }
    ensures { IfOk result (λ v. IsRestriction values.now kept.now v) }
{
    values.sound();
    let cores = kept_cores(alloc, values, table, kept)?;
    let sources = kept_sources(alloc, values, kept)?;
    let init = Vec::from_slice(alloc, values.init())?;
    let finals = kept_finals(alloc, values, table, row)?;
    let made = Values::new(alloc, &cores, sources, init, finals)?;
    Ok(made)
}
