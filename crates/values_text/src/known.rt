//! The events of values, each with the source that is known of it.

ghost use Rattle.std.specs.Prelude.{◌≡◌, IfOk, None, map, drop, slice_index_or};
ghost use Rattle.values_text.specs.Text.{known_core, known_cores};

use crate::items::KnownEvent;
use common::EventId;
use std::alloc::{AllocError, Global};
use values::Event;

/// The source at an index; none is known past the end.
fn source_at(sources: &[Option<Option<EventId>>], index: usize) -> Option<Option<EventId>>
    ensures { result ≡ slice_index_or sources.now index None }
{
    if index >= sources.len() {
        return None;
    }
    sources[index]
}

/// The sources after the first ones.
fn sources_after(sources: &[Option<Option<EventId>>], count: usize) -> &[Option<Option<EventId>>]
    ensures { result.now ≡ drop count sources.now }
{
    if count > sources.len() {
        return &[];
    }
    &sources[count..]
}

/// The events of a core with their sources, of which the first is that of the first event.
fn known_core(
    alloc: Global,
    events: &[Event],
    sources: &[Option<Option<EventId>>],
) -> Result<Vec<KnownEvent>, AllocError>
    ensures { IfOk result (λ v. v.items ≡ known_core events.now sources.now) }
{
    let mut known = Vec::with_capacity(alloc, events.len())?;
    for (i, event) in events.iter().enumerate() {
        known.push((*event, source_at(sources, i)))?;
    }
    Ok(known)
}

/// The events of all cores with their sources, of which the first is that of the first event.
pub(crate) fn known_cores(
    alloc: Global,
    cores: &[Vec<Event>],
    sources: &[Option<Option<EventId>>],
) -> Result<Vec<Vec<KnownEvent>>, AllocError>
    ensures { IfOk result (λ v. map (λ w. w.items) v.items ≡ known_cores (map (λ w. w.items) cores.now) sources.now) }
{
    let mut known = Vec::with_capacity(alloc, cores.len())?;
    let mut rest = sources;
    for events in cores {
        let core = known_core(alloc, events.as_slice(), rest)?;
        known.push(core)?;
        rest = sources_after(rest, events.len());
    }
    Ok(known)
}
